//! Rows that stand in another list as they are.
//!
//! Two descriptions of one function often have most of their rows in common, in any order. The
//! other list holds such a row, so that only the rest has to be asked for. Where an equal row may
//! stand is a hint: a table of slots that a hash picks. The rows are compared before it counts.
ghost use Rattle.std.specs.Prelude.{IsTrue, IfOk, Contains, ◌++◌};
ghost use Rattle.rows.specs.Places.{behind};
ghost use Rattle.regions.specs.Reason.{AreAmong};

use cube::{Cube, Shape};
use rows::row_hash;
use std::alloc::{AllocError, Global};

// At most this many slots are looked at for a row, from the one that its hash picks.
const PROBES: usize = 64;

// What a slot without a row has. No list has this many rows.
const NO_ROW: usize = usize::MAX;

// The indices of the rows of a list, in slots picked by their hashes.
#[derive(Drop)]
struct RowTable {
    slots: Vec<usize>,
}

impl RowTable {
    // The table of these rows. It has twice as many slots as rows, so that a free one is near, and
    // `PROBES` more, so that the last hash has that many too.
    fn of(alloc: Global, shape: Shape, rows: &[&Cube]) -> Result<RowTable, AllocError> {
        let slots = rows.len().saturating_mul(2).saturating_add(PROBES);
        let mut table = RowTable {
            slots: vec![in alloc; NO_ROW; slots]?,
        };
        for (index, row) in rows.iter().enumerate() {
            table.put(row_hash(shape, row, 0), index);
        }
        Ok(table)
    }

    // Puts the index of a row with this hash into the first free slot from the one that the hash
    // picks. The row is left out if none of `PROBES` slots is free.
    fn put(&mut self, hash: u64, index: usize) {
        let first = self.first_slot(hash);
        for k in 0..PROBES {
            match self.slots.get_mut(first.saturating_add(k)) {
                Some(slot) => {
                    if *slot == NO_ROW {
                        *slot = index;
                        return;
                    }
                }
                None => return,
            }
        }
    }

    // The slot that a hash picks: its higher 32 bits, scaled to the number of slots.
    fn first_slot(&self, hash: u64) -> usize {
        let slots = self.slots.len().saturating_sub(PROBES) as u64;
        ((hash >> 32).wrapping_mul(slots) >> 32) as usize
    }

    // Whether the row is found in the table, which is that of `rows`. A row may be missed.
    fn has(&self, shape: Shape, rows: &[&Cube], row: &Cube) -> bool
        ensures { IsTrue result → Contains (behind rows.now) row.now }
    {
        let first = self.first_slot(row_hash(shape, row, 0));
        for k in 0..PROBES {
            let Some(index) = self.slots.get(first.saturating_add(k)) else {
                return false;
            };
            let Some(known) = rows.get(*index) else {
                return false;
            };
            if known.is_equal(row) {
                return true;
            }
        }
        false
    }
}

/// The rows without those that are found among the others, in their order. Some that stand there
/// may be missed, and stay.
pub fn rows_not_among<'a>(
    alloc: Global,
    shape: Shape,
    rows: &[&'a Cube],
    others: &[&Cube],
) -> Result<Vec<&'a Cube>, AllocError>
    ensures some { IfOk result (λ rest. AreAmong rest.items rows.now) }
    ensures all { IfOk result (λ rest. AreAmong rows.now (rest.items ++ others.now)) }
{
    let table = RowTable::of(alloc, shape, others)?;
    let mut rest = Vec::new(alloc);
    for row in rows {
        if !table.has(shape, others, row) {
            rest.push(*row)?;
        }
    }
    Ok(rest)
}
