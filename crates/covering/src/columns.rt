//! Lists of columns, most of them rising: whether one has a column, meets a row or each row of a table,
//! or lies in another list; and copies, unions and ranges of them.

ghost use Rattle.std.specs.Prelude.{◌≡◌, ◌<◌, ℕ, true, IfOk, IfSome};
ghost use Rattle.std.specs.List.{list_all, range_with_len};
ghost use Rattle.covering.specs.Table.{has, RisesFrom, is_rising, items_of};
ghost use Rattle.covering.specs.Cover.{meets};
ghost use Rattle.covering.specs.Steps.{put};
ghost use Rattle.covering.specs.Choices.{union_of};
ghost use Rattle.covering.specs.Reduce.{holds_all, row_at};
ghost use Rattle.covering.specs.Search.{is_blank};

use crate::marks::{all_but_each, with_unmarked};
use std::alloc::{AllocError, Global};

/// Whether the list, in any order, has the column.
pub(crate) fn contains(row: &[usize], column: usize) -> bool
    ensures { result ≡ has column row.now }
{
    for x in row {
        if column == *x {
            return true;
        }
    }
    false
}

/// Whether the row has a column of the list; neither has to rise.
pub(crate) fn meets(columns: &[usize], row: &[usize]) -> bool
    ensures { result ≡ meets columns.now row.now }
{
    for column in row {
        if contains(columns, *column) {
            return true;
        }
    }
    false
}

/// Whether each row has a column of the list, which need not rise.
pub(crate) fn all_met(columns: &[usize], rows: &[Vec<usize>]) -> bool
    ensures { result ≡ list_all (λ row. meets columns.now row.items) rows.now }
{
    for row in rows {
        if !meets(columns, row) {
            return false;
        }
    }
    true
}

/// A copy of the list.
pub fn copy_of(alloc: Global, xs: &[usize]) -> Result<Vec<usize>, AllocError>
    ensures { IfOk result (λ v. v.items ≡ xs.now) }
{
    xs.to_vec(alloc)
}

/// The rising list with the column at its place; a copy if it has it already.
pub(crate) fn with_column(
    alloc: Global,
    xs: &[usize],
    column: usize,
) -> Result<Vec<usize>, AllocError>
    requires { RisesFrom 0 xs.now }
    ensures { IfOk result (λ v. v.items ≡ put column xs.now) }
{
    match xs.binary_search(&column) {
        Ok(_) => copy_of(alloc, xs),
        Err(place) => {
            let mut columns = copy_of(alloc, xs)?;
            columns.insert(place, column)?;
            Ok(columns)
        }
    }
}

/// The number after the highest of these, 0 for an empty list; `None` if there is none after it.
fn end_of(numbers: &[usize]) -> Option<usize>
    ensures { IfSome result (λ end. (n : ℕ) → has n numbers.now ≡ true → n < end) }
{
    let mut end = 0usize;
    for number in numbers {
        let past = number.checked_add(1)?;
        if past > end {
            end = past;
        }
    }
    Some(end)
}

/// The rising list of the numbers of both, each once; `choice` need not rise. They are marked, and
/// the marks are read in order, so that the highest number decides the cost.
pub(crate) fn union_of(
    alloc: Global,
    taken: &[usize],
    choice: &[usize],
) -> Result<Vec<usize>, AllocError>
    requires { RisesFrom 0 taken.now }
    ensures { IfOk result (λ v. v.items ≡ union_of taken.now choice.now) }
{
    let Some(end) = end_of(taken) else {
        return Err(AllocError);
    };
    let Some(other) = end_of(choice) else {
        return Err(AllocError);
    };
    let end = end.max(other);
    let keep = all_but_each(alloc, choice, end)?;
    with_unmarked(alloc, taken, &keep, end)
}

/// Whether the rising list has the number.
pub(crate) fn rising_contains(row: &[usize], number: usize) -> bool
    requires { RisesFrom 0 row.now }
    ensures { result ≡ has number row.now }
{
    row.binary_search(&number).is_ok()
}

/// Whether the row, in any order, has a column of the list, which rises.
fn rising_meets(columns: &[usize], row: &[usize]) -> bool
    requires { RisesFrom 0 columns.now }
    ensures { result ≡ meets columns.now row.now }
{
    for column in row {
        if rising_contains(columns, *column) {
            return true;
        }
    }
    false
}

/// Whether each row has a column of the list, which rises.
pub(crate) fn rising_meets_all(columns: &[usize], rows: &[Vec<usize>]) -> bool
    requires { RisesFrom 0 columns.now }
    ensures { result ≡ list_all (λ row. meets columns.now row.items) rows.now }
{
    for row in rows {
        if !rising_meets(columns, row) {
            return false;
        }
    }
    true
}

/// Whether the second list, which rises, has each number of the first.
pub fn is_within(row: &[usize], other: &[usize]) -> bool
    requires { RisesFrom 0 other.now }
    ensures { result ≡ holds_all other.now row.now }
{
    for number in row {
        if !rising_contains(other, *number) {
            return false;
        }
    }
    true
}

/// Whether the second list has each number of the first. Both rise, so a longer list is within no
/// shorter one.
pub(crate) fn is_rising_within(row: &[usize], other: &[usize]) -> bool
    requires row { RisesFrom 0 row.now }
    requires other { RisesFrom 0 other.now }
    ensures { result ≡ holds_all other.now row.now }
{
    if other.len() < row.len() {
        return false;
    }
    is_within(row, other)
}

/// Whether each number is above the one before, and all are below `end`.
pub(crate) fn rises(row: &[usize], end: usize) -> bool
    ensures { result ≡ is_rising end 0 row.now }
{
    let mut low = 0;
    for x in row {
        if *x < low || end <= *x {
            return false;
        }
        low = *x + 1;
    }
    true
}

/// The rising list of all numbers below the end, from 0.
pub fn numbers(alloc: Global, end: usize) -> Result<Vec<usize>, AllocError>
    ensures { IfOk result (λ v. v.items ≡ range_with_len 0 end) }
{
    (0..end).collect(alloc)
}

/// The list at the place, empty if there is none.
pub(crate) fn entry(lists: &[Vec<usize>], place: usize) -> &[usize]
    ensures { result.now ≡ row_at (items_of lists.entry.now) place }
{
    if place < lists.len() {
        &lists[place]
    } else {
        &[]
    }
}

/// Whether the list is empty.
pub fn is_blank(row: &[usize]) -> bool
    ensures { result ≡ is_blank row.now }
{
    row.len() == 0
}
