//! Where rows stand in a list, by hashes of their symbols: a hint, looked at before it counts.

use cube::{Cube, Symbol};
use rows::word_hash;
use std::alloc::{AllocError, Global};

// At most this many slots are looked at for a hash, from the one that it picks.
const PROBES: usize = 64;

// The higher half of a hash, which a slot has beside the number of a row.
const HIGHER_HALF: u64 = 0xFFFF_FFFF_0000_0000;

// Numbers from this one on do not fit a slot.
const NUMBERS: usize = 0xFFFF_FFFF;

/// What the hash of a row owes to a symbol at input `i`; `-` owes nothing. The hash of a row is all
/// of these, each exclusive or the others, so that it is known at once without a symbol.
pub(crate) fn symbol_hash(i: usize, symbol: Symbol) -> u64 {
    let number = (i as u64).wrapping_mul(2);
    match symbol {
        Symbol::Dash => 0,
        Symbol::Zero => word_hash(word_hash(number.wrapping_add(1))),
        Symbol::One => word_hash(word_hash(number.wrapping_add(2))),
    }
}

// The hash of a row's symbols.
fn hash_of_symbols(row: &Cube) -> u64 {
    let mut hash = 0;
    for i in 0..row.shape().inputs() {
        hash ^= symbol_hash(i, row.symbol(i));
    }
    hash
}

/// The hashes of the rows, in their order.
pub(crate) fn hashes_of(alloc: Global, rows: &[Cube]) -> Result<Vec<u64>, AllocError> {
    let mut hashes = Vec::with_capacity(alloc, rows.len())?;
    for row in rows {
        hashes.push(hash_of_symbols(row))?;
    }
    Ok(hashes)
}

/// The hash at an index, 0 past the end.
pub(crate) fn hash_at(hashes: &[u64], i: usize) -> u64 {
    match hashes.get(i) {
        Some(hash) => *hash,
        None => 0,
    }
}

/// Numbers of rows, in slots that hashes pick. A slot has the higher half of a hash with the number
/// and one, or nothing.
#[derive(Drop)]
pub(crate) struct RowTable {
    slots: Vec<u64>,
}

impl RowTable {
    /// A table for so many rows. It has twice as many slots, so that a free one is near, and
    /// `PROBES` more, so that the last hash has that many too.
    pub(crate) fn new(alloc: Global, rows: usize) -> Result<RowTable, AllocError> {
        let slots = rows.saturating_mul(2).saturating_add(PROBES);
        Ok(RowTable {
            slots: vec![in alloc; 0; slots]?,
        })
    }

    /// The table of rows with these hashes, by their indices. Of equal hashes the first is kept.
    pub(crate) fn of(alloc: Global, hashes: &[u64]) -> Result<RowTable, AllocError> {
        let mut table = RowTable::new(alloc, hashes.len())?;
        for (number, hash) in hashes.iter().enumerate() {
            let _ = table.find_or_keep(*hash, number);
        }
        Ok(table)
    }

    /// The number that was kept under this hash, as a hint; `None` if there is none, and then this
    /// one is kept, where a slot is near.
    pub(crate) fn find_or_keep(&mut self, hash: u64, number: usize) -> Option<usize> {
        let first = self.first_slot(hash);
        for k in 0..PROBES {
            let slot = self.slots.get_mut(first.saturating_add(k))?;
            if *slot == 0 {
                if number < NUMBERS {
                    *slot = (hash & HIGHER_HALF) | (number as u64 + 1);
                }
                return None;
            }
            if *slot & HIGHER_HALF == hash & HIGHER_HALF {
                return Some(number_in(*slot));
            }
        }
        None
    }

    /// The number that was kept under this hash, as a hint; `None` if there is none.
    pub(crate) fn find(&self, hash: u64) -> Option<usize> {
        let first = self.first_slot(hash);
        for k in 0..PROBES {
            let slot = *self.slots.get(first.saturating_add(k))?;
            if slot == 0 {
                return None;
            }
            if slot & HIGHER_HALF == hash & HIGHER_HALF {
                return Some(number_in(slot));
            }
        }
        None
    }

    // The slot that a hash picks: its lower half, scaled to the number of slots.
    fn first_slot(&self, hash: u64) -> usize {
        let slots = self.slots.len().saturating_sub(PROBES) as u64;
        ((hash & !HIGHER_HALF).wrapping_mul(slots) >> 32) as usize
    }
}

// The number that a slot has.
fn number_in(slot: u64) -> usize {
    ((slot & !HIGHER_HALF) as usize).saturating_sub(1)
}
