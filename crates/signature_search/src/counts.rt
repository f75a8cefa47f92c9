//! How often each input has a literal in a list of cubes.

use crate::bits::Literals;
use std::alloc::{AllocError, Global};

/// How often each input has a literal, by sense.
#[derive(Drop)]
pub(crate) struct Counts {
    zeros: Vec<u32>,
    ones: Vec<u32>,
}

/// The count at an index, 0 past the end.
fn count_at(counts: &[u32], index: usize) -> u32 {
    match counts.get(index) {
        Some(count) => *count,
        None => 0,
    }
}

/// Adds one to the count of each input of a word, the first bit of which is the input `first`.
fn count_inputs(word: u64, first: usize, counts: &mut [u32]) {
    let mut rest = word;
    for _ in 0..word.count_ones() {
        let input = first.wrapping_add(rest.trailing_zeros() as usize);
        if input < counts.len() {
            counts[input] = counts[input].wrapping_add(1);
        }
        rest &= rest.wrapping_sub(1);
    }
}

impl Counts {
    /// No literals yet, for cubes of this many words.
    pub(crate) fn new(alloc: Global, width: usize) -> Result<Counts, AllocError> {
        let inputs = width.saturating_mul(64);
        let zeros: Vec<u32> = vec![in alloc; 0; inputs]?;
        let ones: Vec<u32> = vec![in alloc; 0; inputs]?;
        Ok(Counts { zeros, ones })
    }

    /// Counts the literals of a cube.
    pub(crate) fn add(&mut self, row: &[Literals]) {
        let (zeros, ones) = (&mut self.zeros, &mut self.ones);
        for k in 0..row.len() {
            let first = k.wrapping_mul(64);
            count_inputs(row[k].zeros, first, zeros);
            count_inputs(row[k].ones, first, ones);
        }
    }

    /// Sets how often an input is 0, and how often 1.
    pub(crate) fn set(&mut self, input: usize, zeros: u32, ones: u32) {
        if input < self.zeros.len() && input < self.ones.len() {
            self.zeros[input] = zeros;
            self.ones[input] = ones;
        }
    }

    /// How many inputs have a count: 64 for each word of a cube.
    pub(crate) fn inputs(&self) -> usize {
        self.zeros.len()
    }

    /// How often an input is 0, and how often 1; 0 both past the end.
    pub(crate) fn of(&self, input: usize) -> (u32, u32) {
        (count_at(&self.zeros, input), count_at(&self.ones, input))
    }
}
