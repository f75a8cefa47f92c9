//! Sparse vectors: lists of entries, each a number at an index.

use crate::floats::{add_float, float};
use std::alloc::{AllocError, Global};

/// A number at an index.
#[derive(Clone, Copy)]
pub(crate) struct Entry {
    /// The index.
    pub(crate) index: usize,
    /// The number, which is not 0.
    pub(crate) number: f64,
}

/// Subtracts `factor` times the entries from the numbers at their indices.
pub(crate) fn subtract_entries(numbers: &mut [f64], entries: &[Entry], factor: f64) {
    for entry in entries {
        add_float(numbers, entry.index, 0.0 - factor * entry.number);
    }
}

/// The inner product of the numbers and the entries.
pub(crate) fn product_with_entries(numbers: &[f64], entries: &[Entry]) -> f64 {
    let mut sum = 0.0;
    for entry in entries {
        sum += entry.number * float(numbers, entry.index);
    }
    sum
}

/// Sparse vectors in one piece of memory, one after the other.
pub(crate) struct Vectors {
    /// Where each ends: the index in `entries` after its last one.
    ends: Vec<usize>,
    /// The entries of all vectors.
    entries: Vec<Entry>,
}

// Written out, so that where one ends a proof has one call, and not one for each of its lists.
impl Drop for Vectors {
    fn drop(self) {
        let Vectors {
            ends: _,
            entries: _,
        } = self;
    }
}

impl Vectors {
    /// No vector.
    pub(crate) fn new(alloc: Global) -> Vectors {
        Vectors {
            ends: Vec::new(alloc),
            entries: Vec::new(alloc),
        }
    }

    /// Adds an entry to the last vector, which is not ended yet.
    pub(crate) fn push(&mut self, index: usize, number: f64) -> Result<(), AllocError> {
        self.entries.push(Entry { index, number })?;
        Ok(())
    }

    /// Adds entries to the last vector, and ends it.
    pub(crate) fn push_vector(&mut self, entries: &[Entry]) -> Result<(), AllocError> {
        self.entries.extend_from_slice(entries)?;
        self.end()
    }

    /// Ends the last vector; the next entry begins another one.
    pub(crate) fn end(&mut self) -> Result<(), AllocError> {
        self.ends.push(self.entries.len())?;
        Ok(())
    }

    /// Where the vector at the index ends; 0 past the last one.
    fn end_of(&self, index: usize) -> usize {
        if index < self.ends.len() {
            self.ends[index]
        } else {
            0
        }
    }

    /// The vector at the index; an empty one past the end.
    pub(crate) fn vector(&self, index: usize) -> &[Entry] {
        let begin = match index.checked_sub(1) {
            Some(before) => self.end_of(before),
            None => 0,
        };
        let end = self.end_of(index);
        if begin <= end && end <= self.entries.len() {
            &self.entries[begin..end]
        } else {
            &[]
        }
    }

    /// Leaves only so many vectors.
    pub(crate) fn truncate(&mut self, length: usize) {
        let size = match length.checked_sub(1) {
            Some(before) if length <= self.ends.len() => self.end_of(before),
            Some(_) => self.entries.len(),
            None => 0,
        };
        self.ends.truncate(length);
        self.entries.truncate(size);
    }
}
