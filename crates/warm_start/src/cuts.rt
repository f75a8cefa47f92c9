//! Cuts that are kept from table to table, by the numbers of their rows.
//!
//! A row keeps its number from table to table. A cut is kept without the rows that are gone, if an odd
//! number of rows is left, and more than one: of an even number a cut says no more than the rows.

use heuristics::Cut;
use number_lists::{Lists, at, number, small};
use std::alloc::{AllocError, Global};

/// Cuts of rows, with their weights.
pub(crate) struct Cuts {
    /// The rows of each, by their numbers.
    rows: Lists,
    /// The weight of each.
    weights: Vec<i64>,
}

// Written out, so that where one ends a proof has one call, and not one for each of its lists.
impl Drop for Cuts {
    fn drop(self) {
        let Cuts {
            rows: _,
            weights: _,
        } = self;
    }
}

/// The index of each of the numbers, at the number, and `u32::MAX` for others; a number that is not below
/// `end` is left out.
fn indices_by_number(alloc: Global, numbers: &[usize], end: usize) -> Result<Vec<u32>, AllocError> {
    let mut indices: Vec<u32> = vec![in alloc; u32::MAX; end]?;
    for (index, number) in numbers.iter().enumerate() {
        if *number < indices.len() {
            indices[*number] = small(index);
        }
    }
    Ok(indices)
}

/// The indices of those of the numbers that have one.
fn present(alloc: Global, numbers: &[u32], indices: &[u32]) -> Result<Vec<u32>, AllocError> {
    let mut found = Vec::new(alloc);
    for number in numbers {
        let number = *number as usize;
        if number < indices.len() && indices[number] != u32::MAX {
            found.push(indices[number])?;
        }
    }
    Ok(found)
}

/// The numbers at these indices, as a list more.
fn push_numbers(lists: &mut Lists, indices: &[u32], numbers: &[usize]) -> Result<(), AllocError> {
    for index in indices {
        lists.push(small(number(numbers, *index as usize)))?;
    }
    lists.end()
}

/// The list as indices.
fn as_indices(alloc: Global, list: &[u32]) -> Result<Vec<usize>, AllocError> {
    let mut indices = Vec::with_capacity(alloc, list.len())?;
    for number in list {
        indices.push(*number as usize)?;
    }
    Ok(indices)
}

/// The weights as the caller checks them: 0 in place of less.
pub(crate) fn whole(alloc: Global, weights: &[i64]) -> Result<Vec<u64>, AllocError> {
    let mut whole = Vec::with_capacity(alloc, weights.len())?;
    for weight in weights {
        whole.push(u64::try_from(*weight).unwrap_or(0))?;
    }
    Ok(whole)
}

impl Cuts {
    /// No cuts.
    pub(crate) fn new(alloc: Global) -> Cuts {
        Cuts {
            rows: Lists::new(alloc),
            weights: Vec::new(alloc),
        }
    }

    /// These cuts of rows with these numbers, each a list of rows by their indices. `weights` has the weights
    /// of the rows, and then those of the cuts.
    pub(crate) fn of(
        alloc: Global,
        cuts: &Lists,
        numbers: &[usize],
        weights: &[i64],
    ) -> Result<Cuts, AllocError> {
        let mut kept = Cuts::new(alloc);
        for cut in 0..cuts.len() {
            push_numbers(&mut kept.rows, cuts.list(cut), numbers)?;
            kept.weights
                .push(at(weights, numbers.len().saturating_add(cut)))?;
        }
        Ok(kept)
    }

    /// A copy.
    pub(crate) fn copy(&self, alloc: Global) -> Result<Cuts, AllocError> {
        let mut copy = Cuts::new(alloc);
        copy.rows.extend_from(&self.rows)?;
        copy.weights.extend_from_slice(&self.weights)?;
        Ok(copy)
    }

    /// Whether there are none.
    pub(crate) fn is_empty(&self) -> bool {
        self.weights.is_empty()
    }

    /// Those of the rows with these numbers, which are below `end`, each a list of rows by their indices; adds
    /// the weight of each to `weights`.
    pub(crate) fn among(
        &self,
        alloc: Global,
        numbers: &[usize],
        end: usize,
        weights: &mut Vec<i64>,
    ) -> Result<Lists, AllocError> {
        let indices = indices_by_number(alloc, numbers, end)?;
        let mut cuts = Lists::new(alloc);
        for (cut, weight) in self.weights.iter().enumerate() {
            let rows = present(alloc, self.rows.list(cut), &indices)?;
            if rows.len() > 1 && rows.len() % 2 == 1 {
                cuts.push_list(&rows)?;
                weights.push(*weight)?;
            }
        }
        Ok(cuts)
    }

    /// The cuts with their weights, as the caller checks them; `cuts` are the same by the indices of their
    /// rows.
    pub(crate) fn weighted(&self, alloc: Global, cuts: &Lists) -> Result<Vec<Cut>, AllocError> {
        let mut weighted = Vec::with_capacity(alloc, cuts.len())?;
        for (cut, weight) in whole(alloc, &self.weights)?.iter().enumerate() {
            weighted.push(Cut {
                rows: as_indices(alloc, cuts.list(cut))?,
                weight: *weight,
            })?;
        }
        Ok(weighted)
    }
}
