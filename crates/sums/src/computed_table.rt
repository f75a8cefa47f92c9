//! Complete sums that were made, kept to be found again.
//!
//! If inputs are alike, as in symmetric functions and in adders, cofactors by different literals
//! are often equal. So the two lists of a step are kept with their sum, in a slot that their hash
//! picks, the newer in place of the older. Packages for decision diagrams keep such a computed
//! table (Brace, Rudell and Bryant, Efficient Implementation of a BDD Package, 1990).
//!
//! There are two generations. If the sums take too many words they are put aside, and those that
//! were aside are forgotten; one that is asked for again comes back. So sums in use stay, and both
//! generations together take at most about a quarter of a gigabyte.
ghost use Rattle.std.specs.Prelude.{◌≡◌, IsTrue, IfOk, IfSome};
ghost use Rattle.cube.specs.Cube.{difference as difference_of};
ghost use Rattle.cube.specs.Sum.{complete_sum as complete_sum_of};
ghost use Rattle.rows.specs.Places.{places};

use cube::{Cube, Shape};
use rows::{clone_cubes, row_hash};
use std::alloc::{AllocError, Global};
use std::mem;

// The first table has this many slots. The number is doubled when half of them may be taken.
const FIRST_SLOTS: usize = 1024;

// There are never more slots than this.
const SLOTS: usize = 1 << 17;

// The entries of the slots take at most about this many words. If one more would take too many, the
// slots become the older ones, and those that were older are forgotten.
const WORDS: usize = 1 << 24;

// What a row takes beside the words of its cube.
const WORDS_OF_ROW: usize = 8;

// At most this many rows of a list go into its hash.
const HASHED_ROWS: usize = 16;

// Two lists, and the complete sum of the places of the first that are not in the second.
#[derive(Drop)]
struct Entry {
    hash: u64,
    shape: Shape,
    minuend: Vec<Cube>,
    subtrahend: Vec<Cube>,
    sum: Vec<Cube>,
    ghost is_sum: { sum.items
        ≡ complete_sum_of shape (difference_of (places minuend.items) (places subtrahend.items)) },
}

impl Entry {
    // About how many words the two lists and the sum take together.
    fn words(&self) -> usize {
        let rows = self
            .minuend
            .len()
            .saturating_add(self.subtrahend.len())
            .saturating_add(self.sum.len());
        rows.saturating_mul(words_of_row(self.shape))
    }

    // Whether the sum is that of these lists.
    fn is_of(&self, shape: Shape, hash: u64, minuend: &[Cube], subtrahend: &[Cube]) -> bool
        ensures { IsTrue result → (self.now.shape ≡ shape) × (self.now.minuend.items ≡ minuend.now)
            × (self.now.subtrahend.items ≡ subtrahend.now) }
    {
        self.hash == hash
            && self.shape.inputs() == shape.inputs()
            && self.shape.outputs() == shape.outputs()
            && are_equal(&self.minuend, minuend)
            && are_equal(&self.subtrahend, subtrahend)
    }
}

/// Sums that were made, and the order in which ties between inputs to split at are broken. No
/// answer depends on the order or on how many sums are kept, and no contract speaks of them.
#[derive(Drop)]
pub(crate) struct ComputedTable {
    // The number of slots is a power of two, or 0 at first.
    slots: Vec<Option<Entry>>,
    // How many sums were put since the slots were made, overwritten ones too.
    kept: usize,
    // About how many words the entries in the slots take.
    words: usize,
    // The slots that were there when they had too many words.
    older: Vec<Option<Entry>>,
    // The inputs in the order in which ties are broken.
    order: Vec<usize>,
}

impl ComputedTable {
    /// No sum yet. Memory is taken with the first one kept. `order` has the inputs in the order in
    /// which ties are broken.
    pub(crate) fn new(alloc: Global, order: Vec<usize>) -> ComputedTable {
        ComputedTable {
            slots: Vec::new(alloc),
            kept: 0,
            words: 0,
            older: Vec::new(alloc),
            order,
        }
    }

    /// The inputs in the order in which ties are broken.
    pub(crate) fn order(&self) -> &[usize] {
        self.order.as_slice()
    }

    /// A copy of the complete sum of the places of the first list that are not in the second, if it
    /// is kept. `hash` is that of the lists, by `hash_of_lists`. A sum in the older slots is moved out
    /// of them, for which others may be forgotten.
    pub(crate) fn find(
        &mut self,
        alloc: Global,
        shape: Shape,
        hash: u64,
        minuend: &[Cube],
        subtrahend: &[Cube],
    ) -> Result<Option<Vec<Cube>>, AllocError>
        ensures { IfOk result (λ found. IfSome found (λ rows.
            rows.items ≡ complete_sum_of shape
            (difference_of (places minuend.now) (places subtrahend.now)))) }
    {
        self.renew(alloc, hash)?;
        let Some(Some(known)) = self.slots.get(slot_of(&self.slots, hash)) else {
            return Ok(None);
        };
        if !known.is_of(shape, hash, minuend, subtrahend) {
            return Ok(None);
        }
        Ok(Some(clone_cubes(alloc, &known.sum)?))
    }

    // Moves the sum with this hash in the older slots, if there is one, to the slots.
    fn renew(&mut self, alloc: Global, hash: u64) -> Result<(), AllocError> {
        let Some(known) = self.take_older(hash) else {
            return Ok(());
        };
        self.make_room(alloc, known.words())?;
        self.put(known);
        Ok(())
    }

    // Takes the sum with this hash out of the older slots, if there is one.
    fn take_older(&mut self, hash: u64) -> Option<Entry> {
        let at = slot_of(&self.older, hash);
        let slot = self.older.get_mut(at)?;
        match slot {
            Some(known) if known.hash == hash => mem::replace(slot, None),
            _ => None,
        }
    }

    /// Keeps a copy of a sum with its lists, in place of what is in the slot of their hash, unless
    /// they take more than a quarter of the words: they would drive out the others.
    pub(crate) fn keep(
        &mut self,
        alloc: Global,
        shape: Shape,
        hash: u64,
        minuend: Vec<Cube>,
        subtrahend: Vec<Cube>,
        sum: &[Cube],
    ) -> Result<(), AllocError>
        requires { sum.now
            ≡ complete_sum_of shape
            (difference_of (places minuend.items) (places subtrahend.items)) }
    {
        if sum.len().saturating_mul(words_of_row(shape)) > WORDS / 4 {
            return Ok(());
        }
        let sum = clone_cubes(alloc, sum)?;
        let known = Entry {
            hash,
            shape,
            minuend,
            subtrahend,
            sum,
        };
        if known.words() > WORDS / 4 {
            return Ok(());
        }
        self.make_room(alloc, known.words())?;
        self.put(known);
        Ok(())
    }

    // Makes the slots the older ones if so many more words would be too many, and doubles the slots
    // if half of them may be taken.
    fn make_room(&mut self, alloc: Global, words: usize) -> Result<(), AllocError> {
        if self.words.saturating_add(words) > WORDS {
            self.older = mem::replace(&mut self.slots, Vec::new(alloc));
            self.kept = 0;
            self.words = 0;
        }
        if self.kept >= self.slots.len() / 2 && self.slots.len() < SLOTS {
            self.double_slots(alloc)?;
        }
        Ok(())
    }

    // Doubles the number of slots, or makes the first ones, and puts all sums into them.
    fn double_slots(&mut self, alloc: Global) -> Result<(), AllocError> {
        let len = self.slots.len().saturating_mul(2).max(FIRST_SLOTS);
        let mut slots = Vec::with_capacity(alloc, len)?;
        for _ in 0..len {
            slots.push(None)?;
        }
        let old = mem::replace(&mut self.slots, slots);
        self.kept = 0;
        self.words = 0;
        for slot in old {
            if let Some(known) = slot {
                self.put(known);
            }
        }
        Ok(())
    }

    // Puts a sum into its slot, in place of the one there. It is dropped if there are no slots.
    fn put(&mut self, known: Entry) {
        let words = known.words();
        let at = slot_of(&self.slots, known.hash);
        if let Some(slot) = self.slots.get_mut(at) {
            let old = match mem::replace(slot, Some(known)) {
                Some(old) => old.words(),
                None => 0,
            };
            self.kept = self.kept.saturating_add(1);
            self.words = self.words.saturating_sub(old).saturating_add(words);
        }
    }
}

// About how many words a row of the shape takes.
fn words_of_row(shape: Shape) -> usize {
    (shape.inputs() / 32)
        .saturating_add(shape.outputs() / 64)
        .saturating_add(WORDS_OF_ROW)
}

// The index of the slot that a hash picks; 0, past the end, if there are no slots. Their number is a
// power of two.
fn slot_of(slots: &[Option<Entry>], hash: u64) -> usize {
    hash as usize & slots.len().saturating_sub(1)
}

/// The hash of two lists.
pub(crate) fn hash_of_lists(shape: Shape, minuend: &[Cube], subtrahend: &[Cube]) -> u64 {
    let seed = minuend.len() as u64;
    list_hash(shape, subtrahend, list_hash(shape, minuend, seed))
}

// The hash of a list, from a seed. Of a long list only some rows are looked at, evenly spread:
// lists are compared before a sum is used.
fn list_hash(shape: Shape, rows: &[Cube], seed: u64) -> u64 {
    let mut hash = seed;
    for row in rows.iter().step_by(1 + rows.len() / HASHED_ROWS) {
        hash = row_hash(shape, row, hash);
    }
    hash
}

// Whether the lists are equal.
fn are_equal(rows: &[Cube], others: &[Cube]) -> bool
    ensures { IsTrue result → rows.now ≡ others.now }
{
    if rows.len() != others.len() {
        return false;
    }
    for k in 0..rows.len() {
        if !rows[k].is_equal(&others[k]) {
            return false;
        }
    }
    true
}
