//! The transpose of a table: the rows of each column. Each list is made with room for its rows, which
//! are counted before: a hint.

ghost use Rattle.std.specs.Prelude.{◌≡◌, [], IfOk, length, replicate};
ghost use Rattle.covering.specs.Table.{RisesFrom, items_of};
ghost use Rattle.covering.specs.Reduce.{AreRising, Appends, Enters, IsTranspose};

use crate::table::Table;
use heuristics::row_counts;
use std::alloc::{AllocError, Global};

/// Adds the number to the end of the list at the place; nothing past the end.
fn append(lists: &mut Vec<Vec<usize>>, place: usize, number: usize) -> Result<(), AllocError>
    ensures { IfOk result (λ _. Appends (items_of lists.old.items) place number
        (items_of lists.new.items)) }
{
    if place < lists.len() {
        lists[place].push(number)?;
    }
    Ok(())
}

/// Adds the row's number to the end of the list of each of its columns.
fn enter(columns: &mut Vec<Vec<usize>>, row: &[usize], number: usize) -> Result<(), AllocError>
    requires { RisesFrom 0 row.now }
    ensures { IfOk result (λ _. Enters (items_of columns.old.items) row.now number
        (items_of columns.new.items)) }
{
    for column in row {
        append(columns, *column, number)?;
    }
    Ok(())
}

/// Empties each list.
fn clear_each(lists: &mut Vec<Vec<usize>>)
    ensures { items_of lists.new.items ≡ replicate (length lists.old.items) [] }
{
    for list in lists.iter_mut() {
        list.clear();
    }
}

/// How much room to make for the list at the place: the number there, 0 if there is none or it is
/// negative.
fn room_at(numbers: &[i64], place: usize) -> usize {
    let room = if place < numbers.len() {
        numbers[place]
    } else {
        0
    };
    usize::try_from(room).unwrap_or(0)
}

/// An empty list for each column, with room for its rows, which are counted first.
fn empty_lists(
    alloc: Global,
    rows: &[Vec<usize>],
    columns: usize,
) -> Result<Vec<Vec<usize>>, AllocError>
    ensures { IfOk result (λ v. items_of v.items ≡ replicate columns []) }
{
    let row_counts = row_counts(alloc, rows, columns)?;
    let mut lists: Vec<Vec<usize>> = Vec::with_capacity(alloc, columns)?;
    for column in 0..columns {
        lists.push(Vec::with_capacity(alloc, room_at(&row_counts, column))?)?;
    }
    Ok(lists)
}

/// An empty list for each column: these, emptied, if they are as many.
fn empty_lists_from(
    alloc: Global,
    rows: &[Vec<usize>],
    columns: usize,
    lists: Vec<Vec<usize>>,
) -> Result<Vec<Vec<usize>>, AllocError>
    ensures { IfOk result (λ v. items_of v.items ≡ replicate columns []) }
{
    if lists.len() != columns {
        return empty_lists(alloc, rows, columns);
    }
    let mut lists = lists;
    clear_each(&mut lists);
    Ok(lists)
}

/// For each column the rising list of its rows' numbers, in the memory of `lists`, whose entries
/// are not needed any more.
fn transpose(
    alloc: Global,
    rows: &[Vec<usize>],
    columns: usize,
    lists: Vec<Vec<usize>>,
) -> Result<Vec<Vec<usize>>, AllocError>
    requires { AreRising (items_of rows.now) }
    ensures transpose { IfOk result (λ v. IsTranspose columns (items_of rows.now)
        (items_of v.items)) }
    ensures long { IfOk result (λ v. length v.items ≡ columns) }
{
    let mut transpose = empty_lists_from(alloc, rows, columns, lists)?;
    for (i, row) in rows.iter().enumerate() {
        enter(&mut transpose, row, i)?;
    }
    Ok(transpose)
}

impl Table {
    /// For each column, live or not, the rising list of its rows' numbers, in the memory of
    /// `lists`, whose entries are not needed any more.
    pub(crate) fn transpose(
        &self,
        alloc: Global,
        lists: Vec<Vec<usize>>,
    ) -> Result<Vec<Vec<usize>>, AllocError>
        ensures transpose { IfOk result (λ v. IsTranspose self.now.columns self.now.rows
            (items_of v.items)) }
        ensures long { IfOk result (λ v. length v.items ≡ self.now.columns) }
    {
        transpose(alloc, self.row_lists(), self.columns(), lists)
    }
}
