//! Which literals of a cube have to stay if few are to: a hint.
//!
//! A cube that contains another one, and meets no row of a list, keeps a literal at which each row
//! conflicts with that one. So the fewest literals are a least cover: of each row the literals in
//! conflict are a set, and what is kept has one of each. A row whose set contains that of another one
//! asks for nothing more. The search splits at a set of which the fewest literals are left: on one of
//! these, that most sets have, it tries first the cubes that keep it. It ends where none that is left is
//! better than the best that was found.
//!
//! What it tried is written down in steps, so that they can be looked at one by one.

use crate::columns::conflicts::conflicts;
use crate::columns::words::word;
use cover::Cover;
use cube::Cube;
use rows::share_output;
use std::alloc::{AllocError, Global};

/// A step of a search among the cubes that contain a cube and keep some literals.
#[derive(Clone, Copy, Debug)]
pub(crate) enum Step {
    /// First those that keep the literal at this input, then those that do not.
    Split(usize),
    /// All meet the row with this number.
    Row(usize),
    /// None is better than the best: too many literals are kept, or they come no earlier.
    Late,
}

/// The sets of literals in conflict, and how far the search has come.
#[derive(Drop)]
pub(crate) struct LiteralSearch {
    /// How many words a set has.
    words: usize,
    /// The sets, one behind the other, the smallest first.
    sets: Vec<u64>,
    /// For each set the number of its row.
    rows: Vec<usize>,
    /// The literals that may stay.
    open: Vec<u64>,
    /// The literals that are kept.
    kept: Vec<u64>,
    /// The best that were found.
    pub(crate) best: Vec<u64>,
    /// How many these are.
    fewest: usize,
    /// What was tried.
    pub(crate) steps: Vec<Step>,
    /// How many more sets may be looked at.
    left: usize,
    /// Room for a set.
    taken: Vec<u64>,
}

// How many are in both sets.
fn count_common(one: &[u64], other: &[u64]) -> usize {
    let mut count = 0_usize;
    for w in 0..one.len() {
        count = count.saturating_add((one[w] & word(other, w)).count_ones() as usize);
    }
    count
}

// Whether the sets have one in common.
fn have_common(one: &[u64], other: &[u64]) -> bool {
    for w in 0..one.len() {
        if one[w] & word(other, w) != 0 {
            return true;
        }
    }
    false
}

// Whether the first set is in the other.
fn is_within(one: &[u64], other: &[u64]) -> bool {
    for w in 0..one.len() {
        if one[w] & !word(other, w) != 0 {
            return false;
        }
    }
    true
}

// Whether the first input that is in one of the sets alone is in the first one; `true` if they are
// equal.
fn has_first_apart(one: &[u64], other: &[u64]) -> bool {
    for w in 0..one.len() {
        let apart = one[w] ^ word(other, w);
        if apart != 0 {
            return one[w] & (apart & apart.wrapping_neg()) != 0;
        }
    }
    true
}

// The set with this number in a list of sets of so many words, or nothing past its end.
fn set_at(list: &[u64], at: usize, words: usize) -> &[u64] {
    let start = at.saturating_mul(words);
    let end = start.saturating_add(words);
    if end <= list.len() && start <= end {
        &list[start..end]
    } else {
        &[]
    }
}

// Puts an input into the set, or out of it.
fn put_input(set: &mut Vec<u64>, i: usize, is_in: bool) {
    if i / 32 < set.len() {
        let bit = 1_u64 << (2 * (i % 32));
        if is_in {
            set[i / 32] |= bit;
        } else {
            set[i / 32] &= !bit;
        }
    }
}

/// Whether the input is in the set; `false` past the end.
pub(crate) fn has_input(set: &[u64], i: usize) -> bool {
    (word(set, i / 32) >> (2 * (i % 32))) & 1 != 0
}

// For each row that shares an output with the cube the size of its set, which is how many inputs
// they conflict at, and the number of the row; the smallest size first.
fn sizes_of(
    alloc: Global,
    rows: &[Cube],
    cube: &Cube,
    words: usize,
) -> Result<Vec<(usize, usize)>, AllocError> {
    let mut sizes = Vec::new(alloc);
    for r in 0..rows.len() {
        if !share_output(cube, &rows[r]) {
            continue;
        }
        let mut size = 0_usize;
        for w in 0..words {
            size = size.saturating_add(conflicts(cube, &rows[r], w).count_ones() as usize);
        }
        sizes.push((size, r))?;
    }
    sizes.sort()?;
    Ok(sizes)
}

impl LiteralSearch {
    // Whether a set contains one of those that were added.
    fn is_implied(&self, set: &[u64]) -> bool {
        for k in 0..self.rows.len() {
            if is_within(set_at(&self.sets, k, self.words), set) {
                return true;
            }
        }
        false
    }

    // Adds the set of a row, unless it contains another one.
    fn add_row(&mut self, cube: &Cube, row: &Cube, number: usize) -> Result<(), AllocError> {
        for w in 0..self.words {
            let set = conflicts(cube, row, w);
            if w < self.taken.len() {
                self.taken[w] = set;
            }
        }
        if self.is_implied(&self.taken) {
            return Ok(());
        }
        self.sets.extend_from_slice(&self.taken)?;
        self.rows.push(number)?;
        Ok(())
    }

    // A pair: the number of the set that no kept literal is in and of which the fewest are open,
    // and how many these are; `None` if each set has a kept literal.
    fn narrowest(&self) -> Option<(usize, usize)> {
        let mut found = None;
        let mut least = usize::MAX;
        for k in 0..self.rows.len() {
            let set = set_at(&self.sets, k, self.words);
            if have_common(set, &self.kept) {
                continue;
            }
            let size = count_common(set, &self.open);
            if size < least {
                least = size;
                found = Some((k, size));
            }
        }
        found
    }

    // How many sets that no kept literal is in have the literal at this input.
    fn uses(&self, i: usize) -> usize {
        let mut count = 0_usize;
        for k in 0..self.rows.len() {
            let set = set_at(&self.sets, k, self.words);
            if has_input(set, i) && !have_common(set, &self.kept) {
                count = count.saturating_add(1);
            }
        }
        count
    }

    // The open literal of the set with this number that most sets without a kept one have, the last
    // of several; `None` if none is open.
    fn most_used(&self, k: usize) -> Option<usize> {
        let mut found = None;
        let mut most = 0;
        for i in 0..self.words.saturating_mul(32) {
            if has_input(set_at(&self.sets, k, self.words), i) && has_input(&self.open, i) {
                let uses = self.uses(i);
                if uses >= most {
                    most = uses;
                    found = Some(i);
                }
            }
        }
        found
    }

    // Takes what is kept for the best.
    fn take(&mut self) {
        for w in 0..self.words {
            if w < self.best.len() {
                self.best[w] = word(&self.kept, w);
            }
        }
        self.fewest = count_common(&self.kept, &self.kept);
    }

    // Whether none with so many literals more than are kept is better than the best.
    fn are_too_many(&self, more: usize) -> bool {
        let count = count_common(&self.kept, &self.kept).saturating_add(more);
        count > self.fewest || count == self.fewest && has_first_apart(&self.kept, &self.best)
    }

    // Writes down that each open literal of a set is one too many, and that without them all meet
    // its row.
    fn put_too_many(&mut self, k: usize) -> Result<(), AllocError> {
        for i in 0..self.words.saturating_mul(32) {
            if has_input(set_at(&self.sets, k, self.words), i) && has_input(&self.open, i) {
                self.steps.push(Step::Split(i))?;
                self.steps.push(Step::Late)?;
            }
        }
        self.put_row(k)
    }

    // Writes down that all meet the row of a set.
    fn put_row(&mut self, k: usize) -> Result<(), AllocError> {
        let row = if k < self.rows.len() { self.rows[k] } else { 0 };
        self.steps.push(Step::Row(row))?;
        Ok(())
    }

    // Takes what is kept for the best, if it is better, and writes down that nothing is better than
    // the best then.
    fn put_kept(&mut self) -> Result<(), AllocError> {
        if !self.are_too_many(0) {
            self.take();
        }
        self.steps.push(Step::Late)?;
        Ok(())
    }

    // Looks at the cubes that keep the literals that are kept, and beside them only open ones.
    // Whether the budgets sufficed.
    fn visit(&mut self, depth: usize) -> Result<bool, AllocError> {
        let Some((k, size)) = self.narrowest() else {
            self.put_kept()?;
            return Ok(true);
        };
        if size == 0 || self.are_too_many(1) {
            self.put_too_many(k)?;
            return Ok(true);
        }
        let looks = self.rows.len().saturating_mul(size.saturating_add(2));
        if depth == 0 || self.left <= looks {
            return Ok(false);
        }
        self.left -= looks;
        let Some(i) = self.most_used(k) else {
            return Ok(false);
        };
        self.steps.push(Step::Split(i))?;
        put_input(&mut self.kept, i, true);
        let is_done = self.visit(depth - 1)?;
        put_input(&mut self.kept, i, false);
        if !is_done {
            return Ok(false);
        }
        put_input(&mut self.open, i, false);
        let is_done = self.visit(depth - 1)?;
        put_input(&mut self.open, i, true);
        Ok(is_done)
    }

    // No set, and all literals of the cube open.
    fn new(alloc: Global, cube: &Cube, words: usize) -> Result<LiteralSearch, AllocError> {
        let mut open = Vec::new(alloc);
        for w in 0..words {
            open.push(cube.literal_inputs(w))?;
        }
        Ok(LiteralSearch {
            words,
            sets: Vec::new(alloc),
            rows: Vec::new(alloc),
            open,
            kept: vec![in alloc; 0; words]?,
            best: vec![in alloc; 0; words]?,
            fewest: usize::MAX,
            steps: Vec::new(alloc),
            left: 0,
            taken: vec![in alloc; 0; words]?,
        })
    }

    /// The search among the cubes that contain this one and meet no row, or `None` where more than
    /// so many sets would be looked at.
    pub(crate) fn run(
        alloc: Global,
        off: &Cover,
        cube: &Cube,
        left: &mut usize,
    ) -> Result<Option<LiteralSearch>, AllocError> {
        let words = off.shape().inputs() / 32 + 1;
        let rows = off.as_slice();
        let mut search = LiteralSearch::new(alloc, cube, words)?;
        let sizes = sizes_of(alloc, rows, cube, words)?;
        for k in 0..sizes.len() {
            let r = sizes[k].1;
            if r < rows.len() {
                search.add_row(cube, &rows[r], r)?;
            }
        }
        search.left = *left;
        let is_done = search.visit(off.shape().inputs().saturating_add(1))?;
        *left = search.left;
        Ok(if is_done { Some(search) } else { None })
    }
}
