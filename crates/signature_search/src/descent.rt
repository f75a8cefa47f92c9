//! From an ON cube toward a cube within it that no signature cube holds yet, as far as a place of
//! its own shows.
//!
//! The smaller the cube, the likelier its signature cube has a place of its own, and that of a
//! point has one always. So the literals that part the two cubes are put in an order, those of
//! short rows first (an input weighs its shares of rows); how many will do is found by binary search.

use crate::bits::{Literals, bit_count, has_bit, has_literal_at, literal_at, put_literal, row_at};
use crate::blocking_rows::{BlockingRows, Group};
use crate::cube::Cube;
use crate::finder::{Finder, Signature};
use crate::rows::Place;
use std::alloc::{AllocError, Global};

// The weight of a row, shared by its literals.
const ROW_WEIGHT: u64 = 1 << 32;

/// The share of one of this many literals and outputs of a row.
fn share_of_row(count: u32) -> u64 {
    ROW_WEIGHT / u64::from(count.max(1))
}

/// The weight of an input in a group: its shares of the rows that have it, where each row has this
/// many outputs.
fn weight_in_group(group: Group<'_>, width: usize, outputs: u32, input: usize) -> u64 {
    let mut weight: u64 = 0;
    if has_bit(group.singles, input) {
        weight = share_of_row(outputs.wrapping_add(1));
    }
    for row in group.longer.chunks_exact(width.max(1)) {
        if has_bit(row, input) {
            weight = weight.wrapping_add(share_of_row(bit_count(row).wrapping_add(outputs)));
        }
    }
    weight
}

/// The weight of an input: its shares of the rows that have it. Short rows give large shares.
fn input_weight(rows: &BlockingRows, width: usize, input: usize) -> u64 {
    let mut weight = weight_in_group(rows.without_output(), width, 0, input);
    for output in 0..rows.outputs() {
        let group = rows.of_output(output);
        weight = weight.wrapping_add(weight_in_group(group, width, 1, input));
    }
    weight
}

/// The literals of the signature cube at inputs where the wide cube has none, by decreasing weight:
/// each as a number that decreases with the weight, its input, and whether it is 1.
fn missing_literals(
    alloc: Global,
    signature: &Signature,
    wide: &[Literals],
) -> Result<Vec<(u64, usize, bool)>, AllocError> {
    let mut missing: Vec<(u64, usize, bool)> = Vec::new(alloc);
    for input in 0..wide.len().saturating_mul(64) {
        if let Some(one) = literal_at(&signature.cube.literals, input)
            && !has_literal_at(wide, input)
        {
            let weight = input_weight(&signature.rows, wide.len(), input);
            missing.push((u64::MAX - weight, input, one))?;
        }
    }
    missing.sort_unstable();
    Ok(missing)
}

/// Gives each input that has no literal a 0.
fn put_missing_zeros(literals: &mut [Literals], inputs: usize) {
    for input in 0..inputs {
        if !has_literal_at(literals, input) {
            put_literal(literals, input, false);
        }
    }
}

impl Finder<'_> {
    // The signature cube of a point of the cube, with the point as its own place; `None` if it is
    // in OFF. The cube becomes the point: inputs where it has no literal are 0.
    fn signature_at_point(
        &mut self,
        cube: &mut Cube,
        output: usize,
    ) -> Result<Option<Signature>, AllocError> {
        put_missing_zeros(&mut cube.literals, self.function.inputs);
        let Some(mut signature) = self.signature_cube(cube)? else {
            return Ok(None);
        };
        signature.place = Place::of(self.alloc, &cube.literals, output)?;
        Ok(Some(signature))
    }

    // The signature cube of the question's answer, if a place of its own is found; else that of a
    // point of the answer, which is its place then, or `None` if the point is in OFF. The question
    // may be asked anew for it.
    fn first_signature(&mut self, output: usize) -> Result<Option<Signature>, AllocError> {
        let words = self.function.output_words;
        let mut cube = Cube::of_output(self.alloc, self.question.answer(), output, words)?;
        if self.function.finds_own_places
            && let Some(signature) = self.signature_of(&cube)?
        {
            return Ok(Some(signature));
        }
        self.signature_at_point(&mut cube, output)
    }

    // The signature cube of the wide cube with these literals, if it has a place of its own.
    fn signature_with_literals(
        &mut self,
        wide: &Cube,
        literals: &[(u64, usize, bool)],
    ) -> Result<Option<Signature>, AllocError> {
        let mut cube = Cube::of(self.alloc, &wide.literals, &wide.outputs)?;
        for (_, input, one) in literals {
            put_literal(&mut cube.literals, *input, *one);
        }
        self.signature_of(&cube)
    }

    // Replaces a signature cube by that of the wide cube with as few of the first literals as will
    // do. It stays if that takes all of them.
    fn leave_out_literals(
        &mut self,
        best: &mut Signature,
        wide: &Cube,
        literals: &[(u64, usize, bool)],
    ) -> Result<(), AllocError> {
        let mut least: usize = 0;
        let mut most = literals.len();
        for _ in 0..=literals.len() {
            if least >= most {
                break;
            }
            let middle = least.wrapping_add(most) / 2;
            match self.signature_with_literals(wide, row_at(literals, 0, middle))? {
                Some(signature) => {
                    *best = signature;
                    most = middle;
                }
                None => least = middle.saturating_add(1),
            }
        }
        Ok(())
    }

    // Replaces a signature cube by a larger one of a cube between it and the wide cube.
    fn widen(
        &mut self,
        best: &mut Signature,
        wide: &[Literals],
        output: usize,
    ) -> Result<(), AllocError> {
        let wide = Cube::of_output(self.alloc, wide, output, self.function.output_words)?;
        let literals = missing_literals(self.alloc, best, &wide.literals)?;
        self.leave_out_literals(best, &wide, &literals)
    }

    /// A signature cube of a place of the question's answer, which lies in the wide cube: a maximal
    /// one, if own places can be found. `None` if the answer meets OFF.
    pub(crate) fn signature_of_answer(
        &mut self,
        wide: &[Literals],
        output: usize,
    ) -> Result<Option<Signature>, AllocError> {
        let Some(mut best) = self.first_signature(output)? else {
            return Ok(None);
        };
        if self.function.finds_own_places {
            self.widen(&mut best, wide, output)?;
            self.climb(&mut best)?;
        }
        Ok(Some(best))
    }
}
