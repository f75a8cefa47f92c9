//! Which cubes of a list have a literal, as sets of cubes: a bit for each, so that one word tells of
//! 64 cubes.

use crate::bits::{Literals, put_bit, row_at, row_count, word_at, words_for};
use std::alloc::{AllocError, Global};

/// The cubes that have each literal.
#[derive(Drop)]
pub(crate) struct Occurrences {
    // How many words a set takes.
    words: usize,
    // The cubes, and by input those that have it as 0, and then those that have it as 1.
    all: Vec<u64>,
    sets: Vec<u64>,
}

impl Occurrences {
    /// Of no cubes.
    pub(crate) fn new(alloc: Global) -> Occurrences {
        Occurrences {
            words: 1,
            all: Vec::new(alloc),
            sets: Vec::new(alloc),
        }
    }

    /// How many words a set takes.
    pub(crate) fn words(&self) -> usize {
        self.words
    }

    /// Takes the cubes of a list, in place of any others.
    pub(crate) fn take(&mut self, list: &[Literals], width: usize) -> Result<(), AllocError> {
        let count = row_count(list, width);
        self.words = words_for(count);
        let size = width.saturating_mul(128).saturating_mul(self.words);
        self.all.clear();
        self.all.resize(self.words, 0)?;
        self.sets.clear();
        self.sets.resize(size, 0)?;
        for cube in 0..count {
            put_bit(&mut self.all, cube);
            self.add_cube(cube, row_at(list, cube.wrapping_mul(width), width));
        }
        Ok(())
    }

    // Adds a cube to the sets of its literals.
    fn add_cube(&mut self, cube: usize, row: &[Literals]) {
        for k in 0..row.len() {
            let first = k.wrapping_mul(64);
            self.add_literals(cube, first, row[k].zeros, 0);
            self.add_literals(cube, first, row[k].ones, 1);
        }
    }

    // Adds a cube to the sets of literals of one sense, the first bit being that of the input
    // `first`.
    fn add_literals(&mut self, cube: usize, first: usize, literals: u64, sense: usize) {
        let mut rest = literals;
        for _ in 0..literals.count_ones() {
            let input = first.wrapping_add(rest.trailing_zeros() as usize);
            let set = input.wrapping_mul(2).wrapping_add(sense);
            let begin = set.wrapping_mul(self.words).wrapping_mul(64);
            put_bit(&mut self.sets, begin.wrapping_add(cube));
            rest &= rest.wrapping_sub(1);
        }
    }

    /// The set of all cubes.
    pub(crate) fn whole(&self) -> &[u64] {
        &self.all
    }

    /// Word `k` of the set of all cubes, 0 past the end.
    pub(crate) fn all(&self, k: usize) -> u64 {
        word_at(&self.all, k)
    }

    /// Word `k` of the set of the cubes that have an input as 0, or as 1.
    pub(crate) fn word(&self, input: usize, one: bool, k: usize) -> u64 {
        let set = input.wrapping_mul(2).wrapping_add(one as usize);
        word_at(&self.sets, set.wrapping_mul(self.words).wrapping_add(k))
    }

    /// The set of the cubes that have an input as 0, or as 1; no words past the last input.
    pub(crate) fn of(&self, input: usize, one: bool) -> &[u64] {
        let set = input.saturating_mul(2).saturating_add(one as usize);
        row_at(&self.sets, set.saturating_mul(self.words), self.words)
    }
}
