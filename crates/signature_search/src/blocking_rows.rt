//! The minimal rows of a cube's blocking matrix, and what becomes of them when the cube grows.
//!
//! The rows stand in groups: first those without an output, then those of each output. Most rows
//! have one literal; those of a group are one set of inputs, so that a cube is compared with all of
//! them by a few words. An output that is a row by itself is the only row of its group.
//!
//! A step leaves out a literal of the cube or adds an output, and takes it from each row. No row
//! lies within one that is made shorter: it would lie within that one as it was. So the rows after a
//! step are those that it makes shorter, and of the others those within which none of these lies; no
//! OFF cube is looked at. The rows of an output that is added come to those without an output.

use crate::bits::{
    Literals, bit_count, drop_bit, has_bit, has_bits, is_within, join_bits, join_bits_at, row_at,
    share_bit, tail, word_at,
};
use std::alloc::{AllocError, Global};

/// What makes a cube larger: a literal is left out, by its input, or an output is added.
#[derive(Clone, Copy)]
pub(crate) enum Step {
    WithoutLiteral(usize),
    WithOutput(usize),
}

/// The rows of one output, or those without one.
#[derive(Clone, Copy)]
pub(crate) struct Group<'a> {
    /// The inputs whose literals are rows by themselves.
    pub(crate) singles: &'a [u64],
    /// The inputs of the rows of several literals, row by row.
    pub(crate) longer: &'a [u64],
    /// Whether the output is a row by itself.
    pub(crate) is_bare: bool,
}

impl Group<'_> {
    /// Whether there is no row.
    pub(crate) fn is_empty(self) -> bool {
        !self.is_bare && self.longer.is_empty() && !has_bits(self.singles)
    }
}

/// Whether the inputs of some row are all among these.
pub(crate) fn has_row_within(rows: &[u64], inputs: &[u64]) -> bool {
    for row in rows.chunks_exact(inputs.len().max(1)) {
        if is_within(row, inputs) {
            return true;
        }
    }
    false
}

/// Adds the inputs of each row to a set.
pub(crate) fn join_rows(set: &mut [u64], rows: &[u64]) {
    for row in rows.chunks_exact(set.len().max(1)) {
        join_bits(set, row);
    }
}

/// The rows that a step makes shorter in a group.
struct Shorter {
    singles: Vec<u64>,
    longer: Vec<u64>,
}

impl Drop for Shorter {
    fn drop(self) {
        let Shorter {
            singles: _,
            longer: _,
        } = self;
    }
}

impl Shorter {
    // No rows at all.
    fn none(alloc: Global) -> Shorter {
        Shorter {
            singles: Vec::new(alloc),
            longer: Vec::new(alloc),
        }
    }

    // No rows, of this many words.
    fn new(alloc: Global, width: usize) -> Result<Shorter, AllocError> {
        Ok(Shorter {
            singles: vec![in alloc; 0; width]?,
            longer: Vec::new(alloc),
        })
    }

    // Takes the longer rows that have the input, without it, in place of what was taken before.
    fn take_without(&mut self, rows: &[u64], input: usize) -> Result<(), AllocError> {
        self.singles.fill(0);
        self.longer.clear();
        for row in rows.chunks_exact(self.singles.len().max(1)) {
            if has_bit(row, input) {
                self.add_without(row, input)?;
            }
        }
        Ok(())
    }

    // Adds a row of several literals without the input.
    fn add_without(&mut self, row: &[u64], input: usize) -> Result<(), AllocError> {
        if bit_count(row) == 2 {
            join_bits(&mut self.singles, row);
            drop_bit(&mut self.singles, input);
        } else {
            let begin = self.longer.len().saturating_mul(64);
            self.longer.extend_from_slice(row)?;
            drop_bit(&mut self.longer, begin.saturating_add(input));
        }
        Ok(())
    }

    // Takes all rows of a group.
    fn take_all(&mut self, group: Group<'_>) -> Result<(), AllocError> {
        join_bits(&mut self.singles, group.singles);
        self.longer.extend_from_slice(group.longer)
    }

    // Whether one of the rows lies within this one.
    fn has_row_within(&self, row: &[u64]) -> bool {
        share_bit(row, &self.singles) || has_row_within(&self.longer, row)
    }
}

/// Rows of a blocking matrix, by group.
pub(crate) struct BlockingRows {
    width: usize,
    // The singles of each group, and the longer rows of all.
    singles: Vec<u64>,
    longer: Vec<u64>,
    // Where the longer rows of each group end, and whether its output is a row by itself.
    ends: Vec<usize>,
    are_bare: Vec<bool>,
}

impl Drop for BlockingRows {
    fn drop(self) {
        let BlockingRows {
            width: _,
            singles: _,
            longer: _,
            ends: _,
            are_bare: _,
        } = self;
    }
}

impl BlockingRows {
    /// No groups, of rows of this many words.
    pub(crate) fn new(alloc: Global, width: usize) -> BlockingRows {
        BlockingRows {
            width,
            singles: Vec::new(alloc),
            longer: Vec::new(alloc),
            ends: Vec::new(alloc),
            are_bare: Vec::new(alloc),
        }
    }

    /// How many outputs have a group.
    pub(crate) fn outputs(&self) -> usize {
        self.ends.len().saturating_sub(1)
    }

    // Where the longer rows of a group end; those of groups that are not ended, at the end.
    fn end_of(&self, group: usize) -> usize {
        match self.ends.get(group) {
            Some(end) => *end,
            None => self.longer.len(),
        }
    }

    // Where the longer rows of a group begin.
    fn begin_of(&self, group: usize) -> usize {
        match group.checked_sub(1) {
            Some(before) => self.end_of(before),
            None => 0,
        }
    }

    // The group at an index: 0 for the rows without an output, then one for each output. It has no
    // row past the end.
    fn group(&self, index: usize) -> Group<'_> {
        let (begin, end) = (self.begin_of(index), self.end_of(index));
        Group {
            singles: row_at(&self.singles, index.saturating_mul(self.width), self.width),
            longer: row_at(&self.longer, begin, end.saturating_sub(begin)),
            is_bare: match self.are_bare.get(index) {
                Some(is_bare) => *is_bare,
                None => false,
            },
        }
    }

    /// The rows without an output.
    pub(crate) fn without_output(&self) -> Group<'_> {
        self.group(0)
    }

    /// The rows of an output.
    pub(crate) fn of_output(&self, output: usize) -> Group<'_> {
        self.group(output.saturating_add(1))
    }

    /// The longer rows of the group that is not ended.
    pub(crate) fn open_rows(&self) -> &[u64] {
        tail(&self.longer, self.begin_of(self.ends.len()))
    }

    /// Whether a row forbids the step: no implicant that contains the cube lacks its literal, or
    /// has its output.
    pub(crate) fn forbid(&self, step: Step) -> bool {
        match step {
            Step::WithoutLiteral(input) => has_bit(self.without_output().singles, input),
            Step::WithOutput(output) => self.of_output(output).is_bare,
        }
    }

    /// Adds the inputs of all rows to a set.
    pub(crate) fn join_inputs(&self, set: &mut [u64]) {
        join_rows(set, &self.singles);
        join_rows(set, &self.longer);
    }

    /// Adds a longer row to the group that is not ended.
    pub(crate) fn push(&mut self, row: &[u64]) -> Result<(), AllocError> {
        self.longer.extend_from_slice(row)
    }

    /// Adds the inputs of literals as a longer row to the group that is not ended.
    pub(crate) fn push_inputs_of(&mut self, literals: &[Literals]) -> Result<(), AllocError> {
        for word in literals {
            self.longer.push(word.inputs())?;
        }
        Ok(())
    }

    /// Ends a group: these inputs are rows by themselves, but for the common ones.
    pub(crate) fn end_group(&mut self, singles: &[u64], common: &[u64]) -> Result<(), AllocError> {
        for k in 0..self.width {
            self.singles
                .push(word_at(singles, k) & !word_at(common, k))?;
        }
        self.are_bare.push(false)?;
        self.ends.push(self.longer.len())?;
        Ok(())
    }

    /// Ends a group whose output is a row by itself.
    pub(crate) fn end_bare_group(&mut self) -> Result<(), AllocError> {
        let end = self.singles.len().saturating_add(self.width);
        self.singles.resize(end, 0)?;
        self.are_bare.push(true)?;
        self.ends.push(self.longer.len())?;
        Ok(())
    }

    // Adds what a step leaves of a group, and ends it: the rows that it makes shorter, `own`, and
    // of the others those within which none of these lies, and none of `common`: those that it
    // makes shorter without an output.
    fn add_group_left(
        &mut self,
        group: Group<'_>,
        common: &Shorter,
        own: &Shorter,
    ) -> Result<(), AllocError> {
        self.longer.extend_from_slice(&own.longer)?;
        for row in group.longer.chunks_exact(self.width.max(1)) {
            if !own.has_row_within(row) && !common.has_row_within(row) {
                self.longer.extend_from_slice(row)?;
            }
        }
        self.end_group(group.singles, &common.singles)?;
        let begin = self.singles.len().saturating_sub(self.width);
        join_bits_at(&mut self.singles, begin, &own.singles);
        Ok(())
    }

    /// The rows after a step that no row forbids.
    pub(crate) fn after(&self, alloc: Global, step: Step) -> Result<BlockingRows, AllocError> {
        match step {
            Step::WithoutLiteral(input) => self.without_literal(alloc, input),
            Step::WithOutput(output) => self.with_output(alloc, output),
        }
    }

    // The rows after a literal is left out.
    fn without_literal(&self, alloc: Global, input: usize) -> Result<BlockingRows, AllocError> {
        let none = Shorter::none(alloc);
        let mut common = Shorter::new(alloc, self.width)?;
        let mut own = Shorter::new(alloc, self.width)?;
        let mut found = BlockingRows::new(alloc, self.width);
        common.take_without(self.without_output().longer, input)?;
        found.add_group_left(self.without_output(), &none, &common)?;
        for output in 0..self.outputs() {
            let group = self.of_output(output);
            if group.is_bare || has_bit(group.singles, input) {
                found.end_bare_group()?;
            } else {
                own.take_without(group.longer, input)?;
                found.add_group_left(group, &common, &own)?;
            }
        }
        Ok(found)
    }

    // The rows after an output is added.
    fn with_output(&self, alloc: Global, added: usize) -> Result<BlockingRows, AllocError> {
        let none = Shorter::none(alloc);
        let mut common = Shorter::new(alloc, self.width)?;
        let mut found = BlockingRows::new(alloc, self.width);
        common.take_all(self.of_output(added))?;
        found.add_group_left(self.without_output(), &none, &common)?;
        for output in 0..self.outputs() {
            let group = self.of_output(output);
            if output == added {
                found.end_group(&[], &[])?;
            } else if group.is_bare {
                found.end_bare_group()?;
            } else {
                found.add_group_left(group, &common, &none)?;
            }
        }
        Ok(found)
    }
}
