//! Lists of numbers, in one piece of memory. (This crate uses no other, so it has its own.)

use crate::numbers::{at, saturating_u32};
use std::alloc::{AllocError, Global};

/// Lists of numbers, one after the other: where each ends, and all numbers.
#[derive(Drop)]
pub(crate) struct Lists {
    ends: Vec<u32>,
    numbers: Vec<u32>,
}

impl Lists {
    /// No list.
    pub(crate) fn new(alloc: Global) -> Lists {
        Lists {
            ends: Vec::new(alloc),
            numbers: Vec::new(alloc),
        }
    }

    /// Adds a number to the list that is not ended yet.
    pub(crate) fn push(&mut self, number: u32) -> Result<(), AllocError> {
        self.numbers.extend_from_slice(&[number])
    }

    /// Ends the list; the next number begins another one.
    pub(crate) fn end(&mut self) -> Result<(), AllocError> {
        let end = saturating_u32(self.numbers.len());
        self.ends.extend_from_slice(&[end])
    }

    /// Adds a list.
    pub(crate) fn push_list(&mut self, numbers: &[u32]) -> Result<(), AllocError> {
        self.numbers.extend_from_slice(numbers)?;
        self.end()
    }

    /// How many lists there are.
    pub(crate) fn len(&self) -> usize {
        self.ends.len()
    }

    /// How many numbers all lists have.
    pub(crate) fn size(&self) -> usize {
        self.numbers.len()
    }

    // The index at which a list begins, or would begin if it is the next; [`NONE`] past that.
    fn begin_of(&self, list: u32) -> u32 {
        match list.checked_sub(1) {
            Some(before) => at(&self.ends, before),
            None => 0,
        }
    }

    // The index at which a list ends, [`NONE`] if there is none.
    fn end_of(&self, list: u32) -> u32 {
        at(&self.ends, list)
    }

    /// A list, empty if there is none.
    pub(crate) fn list(&self, list: u32) -> &[u32] {
        let begin = self.begin_of(list) as usize;
        let end = self.end_of(list) as usize;
        if begin <= end && end <= self.numbers.len() {
            &self.numbers[begin..end]
        } else {
            &[]
        }
    }

    /// The indices at which a list begins and ends. The end is [`NONE`] if there is no such list.
    pub(crate) fn bounds(&self, list: u32) -> (u32, u32) {
        (self.begin_of(list), self.end_of(list))
    }

    /// The number at an index of all lists together, [`NONE`] past the end.
    pub(crate) fn number(&self, index: u32) -> u32 {
        at(&self.numbers, index)
    }
}
