//! How many outputs depend on each input, as far as the rows tell.
//!
//! An output that does not depend on an input has its points in pairs that differ only there. So
//! each row has a code without its literal at the input, and the codes of the rows of one output
//! are added without carry: the codes of a pair cancel, and a sum that is not 0 shows an output
//! that depends on the input. Rows with more literals than others may cancel nothing; then each output
//! counts in whose rows the input has a literal.
//!
//! Nothing is promised of the numbers. They order the inputs: for sums and products of numbers the
//! low bits, which all outputs depend on, come first, and then many branches are equal.

use cube::{Cube, Shape};
use rows::word_hash;
use std::alloc::{AllocError, Global};

// Lists of fewer rows than this are not looked at: what they gain is less than what this costs.
const FEW: usize = 64;

// Of lists of at least this many rows each fourth code is added, and of others all.
const MANY: usize = 256;

// Lists of more rows than this are not looked at.
const MOST: usize = 1 << 14;

// The number of sums of codes: one for each of 32 inputs and each of 64 outputs.
const SUMS: usize = 32 * 64;

// Adds a code, without carry, to the sums of one of the 32 inputs and each of these outputs, where
// output `k` is bit `k`.
fn add_code(input: usize, outputs: u64, code: u64, sums: &mut [u64]) {
    let mut left = outputs;
    for _ in 0..outputs.count_ones() {
        let output = left.trailing_zeros() as usize;
        if let Some(sum) = sums.get_mut(input.saturating_mul(64).saturating_add(output)) {
            *sum ^= code;
        }
        left &= left.wrapping_sub(1);
    }
}

// The hash of the row's literals but those at the 32 inputs of word `w`.
fn hash_of_other_words(row: &Cube, w: usize) -> u64 {
    let mut hash = 0u64;
    for other in 0..row.shape().inputs() / 32 + 1 {
        if other != w {
            hash = word_hash(hash ^ row.literal_bits(other));
        }
    }
    hash
}

// Adds the codes of a row, one for each of the 32 inputs of word `w` at which it has a literal.
// Codes with a bit of `left_out` are not added.
fn add_codes(row: &Cube, w: usize, left_out: u64, sums: &mut [u64]) {
    let literals = row.literal_bits(w);
    let inputs = row.literal_inputs(w);
    let others = hash_of_other_words(row, w);
    let mut left = inputs;
    for _ in 0..inputs.count_ones() {
        let input = left.trailing_zeros() as usize / 2;
        let code = word_hash(others ^ (literals & !(3 << (2 * (input % 32)))));
        if code & left_out == 0 {
            add_code(input, row.output_bits(0), code, sums);
        }
        left &= left.wrapping_sub(1);
    }
}

// Adds the codes of all rows.
fn add_codes_of_rows(rows: &[Cube], w: usize, left_out: u64, sums: &mut [u64]) {
    for row in rows {
        add_codes(row, w, left_out, sums);
    }
}

// How many of the sums are not 0.
fn count_open(sums: &[u64]) -> usize {
    let mut count = 0usize;
    for sum in sums {
        if *sum != 0 {
            count = count.saturating_add(1);
        }
    }
    count
}

/// For each of the 32 inputs of word `w` how many of the first 64 outputs seem to depend on it. No
/// number for shapes of one output, and for lists that are short or very long. It takes a step for
/// each literal and each output of a row.
pub(crate) fn dependent_outputs(
    alloc: Global,
    shape: Shape,
    minuend: &[Cube],
    subtrahend: &[Cube],
    w: usize,
) -> Result<Vec<usize>, AllocError> {
    let mut counts = Vec::new(alloc);
    let rows = minuend.len().saturating_add(subtrahend.len());
    if shape.outputs() == 1 || rows < FEW || rows > MOST {
        return Ok(counts);
    }
    let mut sums = [0u64; SUMS];
    let left_out = if rows < MANY { 0 } else { 3 };
    add_codes_of_rows(minuend, w, left_out, &mut sums);
    add_codes_of_rows(subtrahend, w, left_out, &mut sums);
    let (inputs, _) = sums.as_chunks::<64>();
    for outputs in inputs {
        counts.push(count_open(outputs))?;
    }
    Ok(counts)
}

/// The inputs among these, bit `2 k` for input `k`, on which most outputs depend by the counts; all
/// of them if there are no counts.
pub(crate) fn inputs_of_most_outputs(counts: &[usize], among: u64) -> u64 {
    let mut best = 0u64;
    let mut most = 0usize;
    for k in 0..counts.len().min(32) {
        let input = 1u64 << (2 * k);
        if among & input != 0 && counts[k] >= most {
            best = if counts[k] == most {
                best | input
            } else {
                input
            };
            most = counts[k];
        }
    }
    if best == 0 { among } else { best }
}
