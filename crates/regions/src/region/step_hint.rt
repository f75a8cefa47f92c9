//! The next step for a region: an input to split at, or a row without an open literal.
//!
//! A row with one open literal and all outputs of the region contains one half of it (a unit, as
//! in Davis, Logemann and Loveland 1962). If there is no such row, the region is split at the input
//! where most of the nearest rows have an open literal, and of several such inputs where most of
//! all rows do. All of this is a hint, which is checked before it is used.

use cube::{Cube, Shape, Symbol};
use rows::{count_bits, first_open_literal, lacks_output, open_bits};

// At most this many of all rows are counted, so that the choice costs less than the split.
const SAMPLE: usize = 64;

// One of the nearest rows counts as much as this many of all rows.
const NEAR: u32 = 64;

// Adds the open literals of the nearest rows at the inputs of word `w` to the counts, each `NEAR`
// times.
fn count_open_of_nearest(near: &[&Cube], region: &Cube, w: usize, counts: &mut [u32; 64]) {
    for row in near {
        count_bits(open_bits(row, region, w), NEAR, counts);
    }
}

// Adds the open literals of at most `SAMPLE` rows, evenly from the list, at the inputs of word `w`
// to the counts.
fn count_open_of_sample(rows: &[&Cube], region: &Cube, w: usize, counts: &mut [u32; 64]) {
    let step = rows.len() / SAMPLE + 1;
    for k in 0..SAMPLE {
        match rows.get(k.saturating_mul(step)) {
            Some(row) => count_bits(open_bits(row, region, w), 1, counts),
            None => return,
        }
    }
}

// The input of word `w` with the highest count of both literals together, the literal with the
// lower count, and the sum of both; input 0 and a sum of 0 if nothing is counted.
fn heaviest_literal_of_word(w: usize, counts: &[u32; 64]) -> ((usize, Symbol), u64) {
    let mut best = (0usize, Symbol::Zero);
    let mut most = 0u64;
    for k in 0..32usize {
        let (ones, zeros) = (counts[2 * k] as u64, counts[2 * k + 1] as u64);
        if ones + zeros > most {
            let literal = if zeros < ones {
                Symbol::Zero
            } else {
                Symbol::One
            };
            best = (w.saturating_mul(32).saturating_add(k), literal);
            most = ones + zeros;
        }
    }
    (best, most)
}

// Whether one of the rows has an open literal at an input of word `w`.
fn have_open(rows: &[&Cube], region: &Cube, w: usize) -> bool {
    for row in rows {
        if open_bits(row, region, w) != 0 {
            return true;
        }
    }
    false
}

// The input at which most of the nearest rows have an open literal, and the literal to ask first. A
// sample of all rows tells between inputs that are even; it is input 0 if the nearest have none.
fn split_literal(shape: Shape, near: &[&Cube], rows: &[&Cube], region: &Cube) -> (usize, Symbol) {
    let mut best = (0usize, Symbol::Zero);
    let mut most = 0u64;
    for w in 0..shape.inputs() / 32 + 1 {
        if !have_open(near, region, w) {
            continue;
        }
        let mut counts = [0u32; 64];
        count_open_of_nearest(near, region, w, &mut counts);
        count_open_of_sample(rows, region, w, &mut counts);
        let (literal, weight) = heaviest_literal_of_word(w, &counts);
        if weight > most {
            best = literal;
            most = weight;
        }
    }
    best
}

/// A hint for the next step.
#[derive(Clone, Copy)]
pub(crate) enum Hint {
    // Take out the outputs of the row at this index of `near`, which has no open literal.
    Row(usize),
    // Split at this input, and ask for the half with the literal first.
    Split(usize, Symbol),
}

// A row without open literals, or a split at the open literal of a unit with all outputs of the
// region, whichever comes first; `None` if there is neither. The half that the unit holds is asked
// for first.
fn closed_row_or_unit(shape: Shape, near: &[&Cube], region: &Cube) -> Option<Hint> {
    for (k, row) in near.iter().enumerate() {
        let inputs = row.literals_beyond(region);
        if inputs == 0 {
            return Some(Hint::Row(k));
        }
        if inputs == 1 && !lacks_output(shape, row, region) {
            let (i, literal) = first_open_literal(row, region);
            return Some(Hint::Split(i, literal));
        }
    }
    None
}

/// The next step for a region, where the rows `near` are those with fewest open literals, and have
/// `fewest` of them.
pub(crate) fn next_step_hint(
    shape: Shape,
    near: &[&Cube],
    rows: &[&Cube],
    fewest: u32,
    region: &Cube,
) -> Hint {
    if fewest <= 1 {
        if let Some(hint) = closed_row_or_unit(shape, near, region) {
            return hint;
        }
    }
    let (i, literal) = split_literal(shape, near, rows, region);
    Hint::Split(i, literal)
}
