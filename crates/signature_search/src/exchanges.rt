//! Which cubes of a list hold places of a signature cube with the literals of a row exchanged.
//!
//! Such a cube has opposite literals at inputs of the row alone, and nowhere in the row the same
//! one. For the rows of one literal this is told of 64 cubes at a time, from the sets of those that
//! have each literal: the opposite of such a literal alone parts the cube from the signature cube,
//! or nothing does and the cube lacks such a literal. This costs some words for each literal of the
//! signature cube. Cubes that are parted from it at inputs of longer rows alone are compared with
//! these, row by row.

use crate::bits::{Literals, has_bit, literals_at, row_at, word_at};
use crate::blocking_rows::{Group, join_rows};
use crate::lists::{Outside, push_cofactor};
use crate::occurrences::Occurrences;
use std::alloc::{AllocError, Global};

/// Some of 64 cubes.
#[derive(Clone, Copy)]
struct Found {
    /// Those that meet the signature cube with some row of one literal exchanged.
    met: u64,
    /// Those that may meet it with a longer row exchanged.
    open: u64,
}

/// Whether a cube meets the signature cube with the literals of this row exchanged.
fn meets_with_row_exchanged(other: &[Literals], cube: &[Literals], row: &[u64]) -> bool {
    for k in 0..row.len() {
        let (one, two) = (literals_at(other, k), literals_at(cube, k));
        if (one.agreements(two) & row[k]) | (one.opposites(two) & !row[k]) != 0 {
            return false;
        }
    }
    true
}

/// Whether a cube meets the signature cube with the literals of some of these rows exchanged.
fn meets_with_any_row_exchanged(other: &[Literals], cube: &[Literals], rows: &[u64]) -> bool {
    for row in rows.chunks_exact(cube.len().max(1)) {
        if meets_with_row_exchanged(other, cube, row) {
            return true;
        }
    }
    false
}

/// Adds the literals of a word, whose first bit is that of the input `first`: each as its input and
/// whether it is 1.
fn push_literals_of(
    found: &mut Vec<(usize, bool)>,
    word: Literals,
    first: usize,
) -> Result<(), AllocError> {
    let mut rest = word.inputs();
    for _ in 0..word.inputs().count_ones() {
        let at = rest.trailing_zeros();
        let input = first.wrapping_add(at as usize);
        found.push((input, word.ones >> (at % 64) & 1 != 0))?;
        rest &= rest.wrapping_sub(1);
    }
    Ok(())
}

/// A signature cube that is compared with others.
#[derive(Drop)]
pub(crate) struct Exchanges {
    cube: Vec<Literals>,
    // Its literals, each as its input and its sense.
    literals: Vec<(usize, bool)>,
    // The inputs of the longer rows of a group.
    longer: Vec<u64>,
}

impl Exchanges {
    /// No signature cube yet.
    pub(crate) fn new(alloc: Global) -> Exchanges {
        Exchanges {
            cube: Vec::new(alloc),
            literals: Vec::new(alloc),
            longer: Vec::new(alloc),
        }
    }

    /// Takes a signature cube, in place of any other, to be compared with the cubes of lists.
    pub(crate) fn begin(&mut self, cube: &[Literals]) -> Result<(), AllocError> {
        self.cube.clear();
        self.cube.extend_from_slice(cube)?;
        self.literals.clear();
        for k in 0..cube.len() {
            push_literals_of(&mut self.literals, cube[k], k.wrapping_mul(64))?;
        }
        Ok(())
    }

    // The cubes of word `k` of the sets that meet the signature cube with a row exchanged, or may.
    fn find(&self, occurrences: &Occurrences, k: usize, rows: Group<'_>) -> Found {
        let asks_longer = !rows.longer.is_empty();
        let (mut parted, mut parted_twice, mut elsewhere) = (0, 0, 0);
        let (mut by_single, mut agreeing) = (0, u64::MAX);
        for (input, one) in &self.literals {
            let opposite = occurrences.word(*input, !*one, k);
            parted_twice |= parted & opposite;
            parted |= opposite;
            if has_bit(rows.singles, *input) {
                by_single |= opposite;
                agreeing &= occurrences.word(*input, *one, k);
            }
            if asks_longer && !has_bit(&self.longer, *input) {
                elsewhere |= opposite;
            }
        }
        let all = occurrences.all(k);
        let lacking = if rows.is_bare { u64::MAX } else { !agreeing };
        let met = all & ((by_single & !parted_twice) | (lacking & !parted));
        let open = if asks_longer {
            all & !met & !elsewhere
        } else {
            0
        };
        Found { met, open }
    }

    // Whether a cube that was found meets the signature cube with some row exchanged.
    fn meets(&self, found: Found, bit: u32, other: &[Literals], rows: Group<'_>) -> bool {
        found.met >> (bit % 64) & 1 != 0
            || meets_with_any_row_exchanged(other, &self.cube, rows.longer)
    }

    // Adds the cofactors of those of the cubes found, whose first bit is that of cube `first`, that
    // do meet it with a row exchanged. Stops with `Nothing` at one without a literal left.
    fn push_found(
        &self,
        avoided: &mut Vec<Literals>,
        list: &[Literals],
        first: usize,
        found: Found,
        rows: Group<'_>,
    ) -> Result<Outside, AllocError> {
        let width = self.cube.len();
        let mut rest = found.met | found.open;
        for _ in 0..rest.count_ones() {
            let bit = rest.trailing_zeros();
            rest &= rest.wrapping_sub(1);
            let index = first.wrapping_add(bit as usize);
            let other = row_at(list, index.saturating_mul(width), width);
            if self.meets(found, bit, other, rows)
                && let Outside::Nothing = push_cofactor(avoided, other, &self.cube)?
            {
                return Ok(Outside::Nothing);
            }
        }
        Ok(Outside::Unknown)
    }

    /// Adds the cofactors of the cubes of a list that the signature cube meets with a row exchanged.
    /// Stops with `Nothing` at one without a literal left.
    pub(crate) fn push_met(
        &mut self,
        avoided: &mut Vec<Literals>,
        list: &[Literals],
        occurrences: &Occurrences,
        rows: Group<'_>,
    ) -> Result<Outside, AllocError> {
        self.longer.clear();
        self.longer.resize(self.cube.len(), 0)?;
        join_rows(&mut self.longer, rows.longer);
        for k in 0..occurrences.words() {
            let found = self.find(occurrences, k, rows);
            let first = k.wrapping_mul(64);
            if let Outside::Nothing = self.push_found(avoided, list, first, found, rows)? {
                return Ok(Outside::Nothing);
            }
        }
        Ok(Outside::Unknown)
    }
}
