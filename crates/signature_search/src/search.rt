//! The signature cubes of ON cubes as they stand, and of places that a cover leaves out; at the end
//! those that lie in others are dropped (`maximal_places`).

use crate::bits::{Literals, bit_count, contains, has_bit, is_within, literal_count, meets};
use crate::blocking_rows::BlockingRows;
use crate::cube::Cube;
use crate::finder::{Finder, Signature};
use crate::function::{Function, list_at};
use crate::prime_list::PrimeList;
use crate::rows::{Place, Rows};
use std::alloc::{AllocError, Global};
use std::collections::BTreeSet;
use std::mem::replace;

// At most this many regions are looked at for a place of an ON cube that a cover leaves out.
const MOST_REGIONS_OF_LEFT_OUT: u64 = 1 << 16;

// Once there are this many signature cubes, none is looked for of places that a cover leaves out.
const MOST_SIGNATURES: usize = 20000;

/// A number by which a cube comes after all cubes within it: its outputs less its literals.
fn size(cube: &Cube) -> i64 {
    i64::from(bit_count(&cube.outputs)).wrapping_sub(i64::from(literal_count(&cube.literals)))
}

/// Whether the cube lies in one of the list.
fn lies_in_any(cube: &Cube, list: &[Signature]) -> bool {
    for signature in list {
        let other = &signature.cube;
        if contains(&other.literals, &cube.literals) && is_within(&cube.outputs, &other.outputs) {
            return true;
        }
    }
    false
}

/// Adds the rows of a list that have the output and meet the cube.
fn push_rows_meeting(
    held: &mut Vec<Literals>,
    list: &Rows,
    cube: &[Literals],
    output: usize,
) -> Result<(), AllocError> {
    for row in 0..list.len() {
        if has_bit(list.outputs_of(row), output) && meets(list.literals_of(row), cube) {
            held.extend_from_slice(list.literals_of(row))?;
        }
    }
    Ok(())
}

/// Adds the signature cubes that have the output and meet the cube.
fn push_signatures_meeting(
    held: &mut Vec<Literals>,
    signatures: &[Signature],
    cube: &[Literals],
    output: usize,
) -> Result<(), AllocError> {
    for signature in signatures {
        if has_bit(&signature.cube.outputs, output) && meets(&signature.cube.literals, cube) {
            held.extend_from_slice(&signature.cube.literals)?;
        }
    }
    Ok(())
}

/// The signature cubes found so far.
pub(crate) struct Search<'a> {
    finder: Finder<'a>,
    signatures: Vec<Signature>,
    // The hashes of the signature cubes of ON cubes.
    tried: BTreeSet<u64>,
}

impl<'a> Drop for Search<'a> {
    fn drop(self) {
        let Search {
            finder: _,
            signatures: _,
            tried: _,
        } = self;
    }
}

impl<'a> Search<'a> {
    /// No signature cubes yet; `primes` are all primes, where they are known.
    pub(crate) fn new(
        alloc: Global,
        function: &'a Function,
        primes: Option<&'a PrimeList>,
    ) -> Result<Search<'a>, AllocError> {
        Ok(Search {
            finder: Finder::new(alloc, function, primes)?,
            signatures: Vec::new(alloc),
            tried: BTreeSet::new(alloc),
        })
    }

    /// Adds the signature cubes of the ON cubes as they stand that have a place of their own; none
    /// if own places cannot be looked for.
    pub(crate) fn add_signatures_of_rows(&mut self, on: &Rows) -> Result<(), AllocError> {
        let alloc = self.finder.alloc;
        if !self.finder.function.finds_own_places {
            return Ok(());
        }
        for row in 0..on.len() {
            let cube = Cube::of(alloc, on.literals_of(row), on.outputs_of(row))?;
            self.add_signature_of_cube(&cube)?;
        }
        Ok(())
    }

    // Adds the signature cube of a cube, if it was not tried before and has a place of its own.
    fn add_signature_of_cube(&mut self, cube: &Cube) -> Result<(), AllocError> {
        let Some(mut signature) = self.finder.signature_cube(cube)? else {
            return Ok(());
        };
        let hash = signature.cube.hash();
        if self.tried.contains(&hash) {
            return Ok(());
        }
        self.tried.insert(hash)?;
        if !self.finder.finds_own_place(&mut signature)? {
            return Ok(());
        }
        self.add_signature(signature)
    }

    /// Adds a signature cube for each ON cube and output of which the cover, and the signature
    /// cubes before, are found to leave out a place; at most `MOST_SIGNATURES`.
    pub(crate) fn add_signatures_left_out(
        &mut self,
        on: &Rows,
        cover: &Rows,
    ) -> Result<(), AllocError> {
        for row in 0..on.len() {
            let (wide, outputs) = (on.literals_of(row), on.outputs_of(row));
            for output in 0..cover.outputs() {
                if has_bit(outputs, output) && self.signatures.len() < MOST_SIGNATURES {
                    self.add_signature_left_out(wide, cover, output)?;
                }
            }
        }
        Ok(())
    }

    // Adds a signature cube with a place that the cover leaves out of an ON cube, if there is one.
    fn add_signature_left_out(
        &mut self,
        wide: &[Literals],
        cover: &Rows,
        output: usize,
    ) -> Result<(), AllocError> {
        if !self.finds_place_left_out(wide, cover, output)? {
            return Ok(());
        }
        match self.finder.signature_of_answer(wide, output)? {
            Some(found) => self.add_signature(found),
            None => Ok(()),
        }
    }

    // Whether the cover, the signature cubes so far and DC leave out a place of an ON cube, which
    // is then the answer of the question. `false` too if the budget is spent.
    fn finds_place_left_out(
        &mut self,
        wide: &[Literals],
        cover: &Rows,
        output: usize,
    ) -> Result<bool, AllocError> {
        let mut held = list_at(&self.finder.function.dc, output).to_vec(self.finder.alloc)?;
        push_signatures_meeting(&mut held, &self.signatures, wide, output)?;
        push_rows_meeting(&mut held, cover, wide, output)?;
        let mut budget = MOST_REGIONS_OF_LEFT_OUT;
        self.finder.question.ask(wide, &held, &mut budget)
    }

    // Adds a signature cube with a place of its own, without its rows.
    fn add_signature(&mut self, found: Signature) -> Result<(), AllocError> {
        let mut signature = found;
        signature.rows = BlockingRows::new(self.finder.alloc, 0);
        self.signatures.push(signature)?;
        Ok(())
    }

    /// The places of the signature cubes that lie in no other one. No signature cube is left in the
    /// search then.
    pub(crate) fn maximal_places(&mut self) -> Result<Vec<Place>, AllocError> {
        let alloc = self.finder.alloc;
        self.signatures
            .sort_by_key(|signature| size(&signature.cube))?;
        let mut kept: Vec<Signature> = Vec::new(alloc);
        let mut places: Vec<Place> = Vec::new(alloc);
        for _ in 0..self.signatures.len() {
            if let Some(mut signature) = self.signatures.pop()
                && !lies_in_any(&signature.cube, &kept)
            {
                places.push(replace(&mut signature.place, Place::none(alloc)))?;
                kept.push(signature)?;
            }
        }
        Ok(places)
    }
}
