//! The outside of a list of cubes.
//!
//! The list is split at an input that occurs in both senses, one with most literals, until a cube
//! is left (Shannon expansion: Brayton, Hachtel, McMullen and Sangiovanni-Vincentelli, Logic
//! minimization algorithms for VLSI synthesis, 1984). A cube of one half that lies in a cube of the
//! other needs no literal of that input. The number of cubes that are made is bounded.

use crate::bits::{Literals, free_input, has_literal, literal_at, put_literal, row_at, row_count};
use crate::counts::Counts;
use crate::lists::{absorb_list, any_contains};
use std::alloc::{AllocError, Global};
use std::mem::swap;

/// An input in both senses with most literals, else one with most literals.
fn splitting_input(counts: &Counts) -> usize {
    let mut best = 0;
    let mut most = (false, 0, 0);
    for input in 0..counts.inputs() {
        let (zeros, ones) = counts.of(input);
        let rarer = zeros.min(ones);
        let here = (rarer > 0, zeros.wrapping_add(ones), rarer);
        if here > most {
            most = here;
            best = input;
        }
    }
    best
}

/// The cubes of the list that have points where the input is 1, or 0, without the input and without
/// absorbed ones.
fn cofactor(
    alloc: Global,
    list: &[Literals],
    width: usize,
    input: usize,
    one: bool,
) -> Result<Vec<Literals>, AllocError> {
    let mut half: Vec<Literals> = Vec::new(alloc);
    for index in 0..row_count(list, width) {
        let row = row_at(list, index.wrapping_mul(width), width);
        if literal_at(row, input) != Some(!one) {
            let begin = half.len().saturating_mul(64);
            half.extend_from_slice(row)?;
            free_input(&mut half, begin.saturating_add(input));
        }
    }
    absorb_list(alloc, &half, width)
}

/// Adds a cube with one literal more.
fn push_with_literal(
    list: &mut Vec<Literals>,
    row: &[Literals],
    input: usize,
    one: bool,
) -> Result<(), AllocError> {
    let begin = list.len().saturating_mul(64);
    list.extend_from_slice(row)?;
    put_literal(list, begin.saturating_add(input), one);
    Ok(())
}

/// The complement of a cube: for each literal a cube that has its opposite alone.
fn complement_of_cube(alloc: Global, row: &[Literals]) -> Result<Vec<Literals>, AllocError> {
    let all: Vec<Literals> = vec![in alloc; Literals::NONE; row.len()]?;
    let mut list: Vec<Literals> = Vec::new(alloc);
    for input in 0..row.len().saturating_mul(64) {
        if let Some(one) = literal_at(row, input) {
            push_with_literal(&mut list, &all, input, !one)?;
        }
    }
    Ok(list)
}

/// The halves of a list, where it is split, and what is joined of their complements.
struct Halves {
    width: usize,
    /// The input at which the list is split, and whether its cubes have it as 0 and as 1.
    input: usize,
    has_zeros: bool,
    has_ones: bool,
    zeros: Vec<Literals>,
    ones: Vec<Literals>,
    /// The cubes of both complements, without a literal of the input.
    both: Vec<Literals>,
    /// The other cubes.
    parted: Vec<Literals>,
}

// Written out, so that where halves end a proof has one call, and not one for each list.
impl Drop for Halves {
    fn drop(self) {
        let Halves {
            width: _,
            input: _,
            has_zeros: _,
            has_ones: _,
            zeros: _,
            ones: _,
            both: _,
            parted: _,
        } = self;
    }
}

impl Halves {
    /// The halves of a list.
    fn of(alloc: Global, list: &[Literals], width: usize) -> Result<Halves, AllocError> {
        let mut counts = Counts::new(alloc, width)?;
        for index in 0..row_count(list, width) {
            counts.add(row_at(list, index.wrapping_mul(width), width));
        }
        let input = splitting_input(&counts);
        let (zeros, ones) = counts.of(input);
        let mut halves = Halves {
            width,
            input,
            has_zeros: zeros != 0,
            has_ones: ones != 0,
            zeros: Vec::new(alloc),
            ones: Vec::new(alloc),
            both: Vec::new(alloc),
            parted: Vec::new(alloc),
        };
        halves.zeros = cofactor(alloc, list, width, input, false)?;
        halves.ones = cofactor(alloc, list, width, input, true)?;
        Ok(halves)
    }

    /// Parts the cubes of `zeros`, the half where the input is `one`: those that lie in a cube of
    /// the other half, or all of them if `all`, go to `both`, and the rest to `parted`.
    fn part(&mut self, one: bool, all: bool) -> Result<(), AllocError> {
        for index in 0..row_count(&self.zeros, self.width) {
            let row = row_at(&self.zeros, index.wrapping_mul(self.width), self.width);
            if all || any_contains(&self.ones, row, self.width) {
                self.both.extend_from_slice(row)?;
            } else {
                push_with_literal(&mut self.parted, row, self.input, one)?;
            }
        }
        Ok(())
    }

    /// The complements that the halves now are as one list. Where the input occurs in one sense
    /// alone, all that is outside the half with its literal is outside the other half too.
    fn join(&mut self, alloc: Global) -> Result<Vec<Literals>, AllocError> {
        self.part(false, !self.has_ones)?;
        swap(&mut self.zeros, &mut self.ones);
        self.part(true, !self.has_zeros)?;
        let mut list = absorb_list(alloc, &self.both, self.width)?;
        list.extend_from_slice(&self.parted)?;
        Ok(list)
    }
}

/// Cubes with the points outside the list, or `None` if more words of cubes are made on the way
/// than the budget has; it is lowered by a part of those that are made.
pub(crate) fn complement(
    alloc: Global,
    list: &[Literals],
    width: usize,
    budget: &mut usize,
) -> Result<Option<Vec<Literals>>, AllocError> {
    let rows = absorb_list(alloc, list, width)?;
    complement_to_depth(alloc, &rows, width, budget, width.saturating_mul(64))
}

/// The list, or `None` if the budget has fewer words; it is lowered by a part of the list.
fn within_budget(list: Vec<Literals>, budget: &mut usize) -> Option<Vec<Literals>> {
    if list.len() > *budget {
        return None;
    }
    *budget = budget.saturating_sub(list.len() / 16);
    Some(list)
}

/// The complement of a list of one cube or none; `None` past the budget.
fn complement_of_one(
    alloc: Global,
    row: &[Literals],
    width: usize,
    budget: &mut usize,
) -> Result<Option<Vec<Literals>>, AllocError> {
    if row.is_empty() {
        return Ok(Some(vec![in alloc; Literals::NONE; width]?));
    }
    Ok(within_budget(complement_of_cube(alloc, row)?, budget))
}

/// The complement of a list without absorbed cubes, by at most `depth` splits one within the other:
/// one for each input is enough. `None` past these, or past the budget.
fn complement_to_depth(
    alloc: Global,
    rows: &[Literals],
    width: usize,
    budget: &mut usize,
    depth: usize,
) -> Result<Option<Vec<Literals>>, AllocError> {
    if rows.len() <= width {
        return complement_of_one(alloc, rows, width, budget);
    }
    let Some(below) = depth.checked_sub(1) else {
        return Ok(None);
    };
    let mut halves = Halves::of(alloc, rows, width)?;
    let Some(low) = complement_to_depth(alloc, &halves.zeros, width, budget, below)? else {
        return Ok(None);
    };
    halves.zeros = low;
    let Some(high) = complement_to_depth(alloc, &halves.ones, width, budget, below)? else {
        return Ok(None);
    };
    halves.ones = high;
    Ok(within_budget(halves.join(alloc)?, budget))
}
