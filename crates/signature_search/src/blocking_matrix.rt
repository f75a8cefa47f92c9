//! The minimal rows of a cube's blocking matrix. (`blocking` in `minimum` is another thing: the
//! cubes that block each step out of a prime.)
//!
//! A row is made of an OFF cube: the literals of the cube that part the two, and the output of the
//! OFF cube where the cube lacks it. A prime that contains the cube keeps one literal of each row,
//! or lacks its output; so those primes are the minimal hitting sets of the rows, and the rows that
//! contain no other are enough (Brayton, Hachtel, McMullen and Sangiovanni-Vincentelli, Logic
//! minimization algorithms for VLSI synthesis, 1984). Each OFF cube is looked at once. Rows of one
//! literal are taken first, as a set, and most others contain one of them; the rest is compared
//! pair by pair, the shorter ones first.

use crate::bits::{
    Literals, bit_count, few_in_word, has_bit, join_bits, literals_at, row_at, row_count,
    share_bit, word_at,
};
use crate::blocking_rows::{BlockingRows, has_row_within};
use crate::cube::Cube;
use crate::function::{Function, list_at};
use std::alloc::{AllocError, Global};

/// At how many inputs two cubes have opposite literals (0, 1 or more), and whether one of these
/// inputs is in the set.
fn opposite_inputs(cube: &[Literals], other: &[Literals], set: &[u64]) -> (u32, bool) {
    let mut few: u32 = 0;
    let mut shared: u64 = 0;
    for k in 0..cube.len() {
        let word = cube[k].opposites(literals_at(other, k));
        few = few.wrapping_add(few_in_word(word));
        shared |= word & word_at(set, k);
    }
    (few, shared != 0)
}

/// Adds a row of the inputs at which two cubes are parted.
fn push_opposites(
    rows: &mut Vec<u64>,
    cube: &[Literals],
    other: &[Literals],
) -> Result<(), AllocError> {
    for k in 0..cube.len() {
        rows.push(cube[k].opposites(literals_at(other, k)))?;
    }
    Ok(())
}

/// Adds the inputs at which two cubes are parted to a set.
fn join_opposites(set: &mut [u64], cube: &[Literals], other: &[Literals]) {
    for k in 0..set.len().min(cube.len()) {
        set[k] |= cube[k].opposites(literals_at(other, k));
    }
}

/// The blocking matrix of a cube, and memory that is kept from one to the next.
#[derive(Drop)]
pub(crate) struct BlockingMatrix {
    width: usize,
    // The inputs whose literals are rows by themselves for the outputs of the cube.
    common: Vec<u64>,
    // The inputs whose literals are rows by themselves for these, or for one more output.
    singles: Vec<u64>,
    // Rows of several literals.
    rows: Vec<u64>,
    // The lengths and indices of these, the shortest first.
    order: Vec<(u32, usize)>,
}

impl BlockingMatrix {
    /// A matrix of no cube, for sets of inputs of `width` words.
    pub(crate) fn new(alloc: Global, width: usize) -> BlockingMatrix {
        BlockingMatrix {
            width,
            common: Vec::new(alloc),
            singles: Vec::new(alloc),
            rows: Vec::new(alloc),
            order: Vec::new(alloc),
        }
    }

    /// The minimal rows of a cube. `None` if it meets an OFF cube.
    pub(crate) fn rows_of(
        &mut self,
        alloc: Global,
        function: &Function,
        cube: &Cube,
    ) -> Result<Option<BlockingRows>, AllocError> {
        if !self.gather_rows_of_cube(function, cube)? {
            return Ok(None);
        }
        let mut found = BlockingRows::new(alloc, self.width);
        self.push_minimal_rows(&mut found)?;
        found.end_group(&self.singles, &self.common)?;
        join_bits(&mut self.common, &self.singles);
        self.add_rows_of_outputs(&mut found, function, cube)?;
        Ok(Some(found))
    }

    // Gathers the rows of the outputs that the cube has. `false` if it meets an OFF cube.
    fn gather_rows_of_cube(
        &mut self,
        function: &Function,
        cube: &Cube,
    ) -> Result<bool, AllocError> {
        self.rows.clear();
        self.common.clear();
        self.common.resize(self.width, 0)?;
        self.singles.clear();
        self.singles.resize(self.width, 0)?;
        for output in 0..function.outputs {
            if has_bit(&cube.outputs, output)
                && !self.gather_rows(&cube.literals, list_at(&function.off, output))?
            {
                return Ok(false);
            }
        }
        Ok(true)
    }

    // Adds the minimal rows of each output, in their order; those that the cube has have none. Those of
    // the cube alone are added before, and stand in all of them.
    fn add_rows_of_outputs(
        &mut self,
        found: &mut BlockingRows,
        function: &Function,
        cube: &Cube,
    ) -> Result<(), AllocError> {
        for output in 0..function.outputs {
            if has_bit(&cube.outputs, output) {
                found.end_group(&[], &[])?;
            } else {
                self.add_rows_of_output(found, &cube.literals, list_at(&function.off, output))?;
            }
        }
        Ok(())
    }

    // Adds the minimal rows of an output that the cube lacks, with these OFF cubes. If the cube
    // meets one of them, the output is a row by itself.
    fn add_rows_of_output(
        &mut self,
        found: &mut BlockingRows,
        cube: &[Literals],
        off: &[Literals],
    ) -> Result<(), AllocError> {
        self.rows.clear();
        self.singles.fill(0);
        join_bits(&mut self.singles, &self.common);
        if self.gather_rows(cube, off)? {
            self.push_minimal_rows(found)?;
            found.end_group(&self.singles, &self.common)
        } else {
            found.end_bare_group()
        }
    }

    // Gathers the rows of OFF cubes: those of one literal as a set, and of the others those that
    // have no literal of the set so far. `false` if one of the cubes meets this one.
    fn gather_rows(&mut self, cube: &[Literals], off: &[Literals]) -> Result<bool, AllocError> {
        let (rows, singles) = (&mut self.rows, self.singles.as_mut_slice());
        for other in off.chunks_exact(self.width.max(1)) {
            let (few, is_known) = opposite_inputs(cube, other, singles);
            if few == 0 {
                return Ok(false);
            }
            if !is_known {
                if few == 1 {
                    join_opposites(singles, cube, other);
                } else {
                    push_opposites(rows, cube, other)?;
                }
            }
        }
        Ok(true)
    }

    // Orders the rows of several literals that contain no single one and none of the longer rows
    // without an output.
    fn order_rows(&mut self, found: &BlockingRows) -> Result<(), AllocError> {
        let shorter = found.without_output().longer;
        self.order.clear();
        for index in 0..row_count(&self.rows, self.width) {
            let row = row_at(&self.rows, index.wrapping_mul(self.width), self.width);
            if !share_bit(row, &self.singles) && !has_row_within(shorter, row) {
                self.order.push((bit_count(row), index))?;
            }
        }
        self.order.sort_unstable();
        Ok(())
    }

    // Adds the minimal ones of the rows of several literals that contain no single one and none of
    // the longer rows without an output.
    fn push_minimal_rows(&mut self, found: &mut BlockingRows) -> Result<(), AllocError> {
        self.order_rows(found)?;
        for at in 0..self.order.len() {
            let (_, index) = self.order[at];
            let row = row_at(&self.rows, index.saturating_mul(self.width), self.width);
            if !has_row_within(found.open_rows(), row) {
                found.push(row)?;
            }
        }
        Ok(())
    }
}
