//! A covering table for hints: its live columns renumbered, with what each costs; also the unit in which
//! weights of rows are whole numbers (`UNIT`). (`renumber` of `covering` makes such a table for the least
//! cover.)

use crate::lists::Lists;
use crate::numbers::{at, small};
use std::alloc::{AllocError, Global};

/// What a column that costs one counts in whole numbers, by which weights of rows are measured.
pub const UNIT: i64 = 16777216;

/// A table whose live columns are renumbered from 0 on, in their order.
pub struct Compact {
    /// The columns of each row.
    pub rows: Lists,
    /// The rows of each column.
    pub column_rows: Lists,
    /// What each column costs.
    pub costs: Vec<i64>,
}

// Written out, so that where one ends a proof has one call, and not one for each of its lists.
impl Drop for Compact {
    fn drop(self) {
        let Compact {
            rows: _,
            column_rows: _,
            costs: _,
        } = self;
    }
}

/// The new number of each live column, at its old one; 0 at a column that is not live.
fn new_numbers(alloc: Global, live: &[usize], columns: usize) -> Result<Vec<u32>, AllocError> {
    let mut numbers: Vec<u32> = vec![in alloc; 0; columns]?;
    for (i, column) in live.iter().enumerate() {
        if *column < numbers.len() {
            numbers[*column] = small(i);
        }
    }
    Ok(numbers)
}

/// Adds the row, with its columns renumbered. They are to be live; those past the end of `numbers`
/// are left out.
fn push_renumbered(
    renumbered: &mut Lists,
    row: &[usize],
    numbers: &[u32],
) -> Result<(), AllocError> {
    for column in row {
        if *column < numbers.len() {
            renumbered.push(numbers[*column])?;
        }
    }
    renumbered.end()
}

/// How many entries the rows have together.
fn size_of(rows: &[Vec<usize>]) -> usize {
    let mut size: usize = 0;
    for row in rows {
        size = size.saturating_add(row.len());
    }
    size
}

/// The rows, with their columns renumbered, which are to be live: another one becomes 0.
fn renumber_rows(
    alloc: Global,
    rows: &[Vec<usize>],
    live: &[usize],
    columns: usize,
) -> Result<Lists, AllocError> {
    let numbers = new_numbers(alloc, live, columns)?;
    let mut renumbered = Lists::with_capacity(alloc, rows.len(), size_of(rows))?;
    for row in rows {
        push_renumbered(&mut renumbered, row, &numbers)?;
    }
    Ok(renumbered)
}

impl Compact {
    /// The table of these rows and live columns, which are below `columns`; the rows are to have
    /// live columns alone. `costs` has what each live column costs, in the same order. One pass
    /// over the rows.
    pub fn of(
        alloc: Global,
        rows: &[Vec<usize>],
        live: &[usize],
        columns: usize,
        costs: Vec<i64>,
    ) -> Result<Compact, AllocError> {
        let rows = renumber_rows(alloc, rows, live, columns)?;
        let column_rows = rows.transpose(alloc, live.len())?;
        Ok(Compact {
            column_rows,
            rows,
            costs,
        })
    }

    /// Whether the columns have different costs.
    pub fn is_uneven(&self) -> bool {
        let mut uneven = false;
        for cost in &self.costs {
            uneven = uneven || *cost != at(&self.costs, 0);
        }
        uneven
    }
}
