//! Hashes of words and of rows, by which equal rows are found.

use cube::{Cube, Shape};

/// The hash of a word: a number that each bit of the word changes in many bits. An odd factor, and
/// the higher half upon the lower.
pub fn word_hash(word: u64) -> u64 {
    let product = word.wrapping_mul(0x9E37_79B9_7F4A_7C15);
    product ^ (product >> 32)
}

/// The hash of a row of this shape, from a seed. With one seed equal rows have equal hashes, and
/// other rows hardly ever do.
#[inline(always)]
pub fn row_hash(shape: Shape, row: &Cube, seed: u64) -> u64 {
    let mut hash = seed;
    for w in 0..(shape.inputs() / 32).max(shape.outputs() / 64) + 1 {
        hash = word_hash(word_hash(hash ^ row.literal_bits(w)) ^ row.output_bits(w));
    }
    hash
}
