//! Steps on a table: a column is taken, a live one is dropped, or the marked ones alone are kept.
//!
//! To take a column drops the rows that have it. To drop columns takes them from each row, and
//! there is no such table if a row would have none left. A table without rows is solved.

ghost use Rattle.std.specs.Prelude.{◌≡◌, ◌↔◌, [], IfOk, MatchOption, IsTrue, map, filter, not, true};
ghost use Rattle.std.specs.List.{list_any};
ghost use Rattle.covering.specs.Table.{IsTable, items_of, has};
ghost use Rattle.covering.specs.Steps.{without, take_column, drop_column};
ghost use Rattle.covering.specs.Search.{IsForced, keep_columns, marked, is_blank};

use crate::columns::{contains, copy_of, is_blank, with_column};
use crate::marks::{all_but, retain_marked, retain_marked_in_rows};
use crate::table::Table;
use std::alloc::{AllocError, Global};

/// The list without the column, in the same order.
fn without_column(alloc: Global, xs: &[usize], column: usize) -> Result<Vec<usize>, AllocError>
    ensures { IfOk result (λ v. v.items ≡ without column xs.now) }
{
    let mut others = Vec::new(alloc);
    for x in xs {
        if column != *x {
            others.push(*x)?;
        }
    }
    Ok(others)
}

/// Copies of the rows that do not have the column, in order.
fn rows_lacking(
    alloc: Global,
    rows: &[Vec<usize>],
    column: usize,
) -> Result<Vec<Vec<usize>>, AllocError>
    ensures { IfOk result (λ v. items_of v.items
        ≡ filter (λ row. not (has column row)) (items_of rows.now)) }
{
    let mut kept = Vec::new(alloc);
    for row in rows {
        if !contains(row, column) {
            kept.push(copy_of(alloc, row)?)?;
        }
    }
    Ok(kept)
}

/// Whether a row is empty.
fn any_blank(rows: &[Vec<usize>]) -> bool
    ensures { result ≡ list_any (λ row. is_blank row.items) rows.now }
{
    for row in rows {
        if is_blank(row) {
            return true;
        }
    }
    false
}

impl Table {
    /// Whether no row is left, so that the taken columns are a cover.
    pub(crate) fn is_solved(&self) -> bool
        ensures solved { IsTrue result ↔ (self.now.rows ≡ []) }
        ensures table { IsTable self.now }
    {
        self.rows.is_empty()
    }

    /// The table with the live column taken, without the rows that have it.
    pub(crate) fn take(&self, alloc: Global, column: usize) -> Result<Table, AllocError>
        requires { has column self.now.live ≡ true }
        ensures taken { IfOk result (λ t. t ≡ take_column column self.now) }
        ensures table { IsTable self.now }
    {
        let taken = with_column(alloc, self.taken_columns(), column)?;
        let live = without_column(alloc, self.live_columns(), column)?;
        let rows = rows_lacking(alloc, self.row_lists(), column)?;
        self.with(alloc, taken, live, rows)
    }

    /// The table without a live column; `None` if some row has no other.
    pub(crate) fn drop_live(
        &self,
        alloc: Global,
        column: usize,
    ) -> Result<Option<Table>, AllocError>
        ensures { IfOk result (λ o. MatchOption o (IsForced self.now column)
            (λ t. t ≡ drop_column column self.now)) }
    {
        let keep = all_but(alloc, column, self.columns())?;
        let copy = self.copy(alloc)?;
        Ok(copy.keep_marked(&keep))
    }

    /// The table with no live columns but the marked ones; `None` if a row would have none left.
    pub(crate) fn keep_marked(self, keep: &[bool]) -> Option<Table>
        ensures { MatchOption result (list_any is_blank
            (map (filter (marked keep.now)) self.rows) ≡ true)
            (λ t. t ≡ keep_columns (marked keep.now) self) }
    {
        let mut table = self;
        retain_marked_in_rows(&mut table.rows, keep);
        if any_blank(&table.rows) {
            return None;
        }
        retain_marked(&mut table.live, keep);
        Some(table)
    }
}
