//! The open literals of a row in a region: those at inputs where the region has none.
//!
//! They are counted and found word by word. All of this serves hints, so that no contract speaks of
//! them.

use cube::{Cube, Shape, Symbol};

/// The open literals of a row that meets the region, at the 32 inputs of word `w`, as bits like
/// those of `Cube::literal_bits`; none past the last word.
pub fn open_bits(row: &Cube, region: &Cube, w: usize) -> u64 {
    row.literal_bits(w) & !region.literal_bits(w)
}

/// Whether a row lacks an output of the region.
pub fn lacks_output(shape: Shape, row: &Cube, region: &Cube) -> bool {
    for w in 0..shape.outputs() / 64 + 1 {
        if region.output_bits(w) & !row.output_bits(w) != 0 {
            return true;
        }
    }
    false
}

/// How many open literals a row that meets the region has, and one more if it lacks an output of
/// the region. If it has more than `enough` open literals, its outputs are not looked at.
pub fn count_open_literals(shape: Shape, row: &Cube, region: &Cube, enough: u32) -> u32 {
    let count = row.literals_beyond(region);
    if count > enough {
        return count;
    }
    count.saturating_add(lacks_output(shape, row, region) as u32)
}

/// The input of the first open literal of a row that meets the region, and the literal; 0 and `0`
/// if the row has none.
pub fn first_open_literal(row: &Cube, region: &Cube) -> (usize, Symbol) {
    match row.next_beyond(region, 0) {
        Some(i) => (i, row.symbol(i)),
        None => (0, Symbol::Zero),
    }
}

/// Adds `times` to the counts of the bits that are set. There are two for each of 32 inputs, as in
/// `Cube::literal_bits`: first that of `1`, and then that of `0`.
pub fn count_bits(bits: u64, times: u32, counts: &mut [u32; 64]) {
    let mut left = bits;
    for _ in 0..64 {
        if left == 0 {
            return;
        }
        if let Some(count) = counts.get_mut(left.trailing_zeros() as usize) {
            *count = count.saturating_add(times);
        }
        left &= left - 1;
    }
}
