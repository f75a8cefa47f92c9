//! The reductions of a table, in passes over all rows or all columns until none changes it: `reduce` for
//! callers, `cyclic_core` before the least cover is looked for, and `reduce_weakly` in a search. Essential
//! columns are taken here; `row_dominance` and `column_dominance` have the other passes.
//!
//! The rows of each column are listed first (the transpose). A row that has all columns of another
//! is among the rows of that row's rarest column; a column that is in all rows of another is in
//! that column's shortest row. So candidates are few, and each is tested by a binary search for
//! each number. Rows or columns to drop are marked, and dropped together: each is dominated by one
//! that is kept, so they could be dropped one by one. If a pass marks nothing, no step of its kind
//! applies.

ghost use Rattle.std.specs.Prelude.{◌≡◌, ◌<◌, ◌==◌, ◌||◌, IfOk, MatchBool, length, not, filter, true};
ghost use Rattle.std.specs.List.{range_with_len};
ghost use Rattle.covering.specs.Table.{IsTable, items_of, has};
ghost use Rattle.covering.specs.Steps.{Steps, IsReduced, SameLeast};
ghost use Rattle.covering.specs.Search.{IsWeakStep, IsWeaklyReduced, marked};
ghost use Rattle.covering.specs.Reduce.{UnmarksEssentialColumn, MarksInessentialColumns, HasNoEssentialColumn, IsTranspose, Shrinks};

use crate::choice::Choice;
use crate::marks::{
    all_kept, all_marked, retain_marked, retain_untouched_rows, unmark, with_unmarked,
};
use crate::table::Table;
use std::alloc::{AllocError, Global};
use std::mem::replace;

/// Takes the mark from the only column of the row, if it has only one: an essential column.
fn unmark_essential_column(keep: &mut Vec<bool>, row: &[usize])
    ensures { UnmarksEssentialColumn keep.old.items row.now keep.new.items }
{
    if row.len() == 1 {
        unmark(keep, row[0]);
    }
}

/// Marks the columns that are not the only one of a row.
fn inessential_columns(
    alloc: Global,
    rows: &[Vec<usize>],
    columns: usize,
) -> Result<Vec<bool>, AllocError>
    ensures { IfOk result (λ v. MarksInessentialColumns columns (items_of rows.now) v.items) }
{
    let mut keep = all_marked(alloc, columns)?;
    for row in rows {
        unmark_essential_column(&mut keep, row);
    }
    Ok(keep)
}

/// Which passes may drop something: a hint. A row comes to have all columns of another only where that
/// one lost a column, and a column to be in all rows of another only where that one lost a row.
#[derive(Clone, Copy)]
pub(crate) struct Due {
    /// Whether the pass that drops rows is due.
    rows: bool,
    /// Whether the pass that drops columns is due.
    columns: bool,
}

impl Due {
    /// All passes.
    pub(crate) const ALL: Due = Due {
        rows: true,
        columns: true,
    };

    /// The pass that drops columns: that of a reduced table that lost rows.
    pub(crate) const COLUMNS: Due = Due {
        rows: false,
        columns: true,
    };

    /// The pass that drops rows: that of a reduced table that lost columns.
    pub(crate) const ROWS: Due = Due {
        rows: true,
        columns: false,
    };
}

impl Table {
    /// Takes each column that is the only one of a row, and drops the rows that have it; answers
    /// whether there was one.
    fn take_essential_columns(&mut self, alloc: Global) -> Result<bool, AllocError>
        ensures taken { (choice : Choice) → IfOk result (λ is_changed. MatchBool is_changed
            (Shrinks choice self.old self.new)
            ((self.new ≡ self.old) × HasNoEssentialColumn self.old)) }
        ensures table { IsTable self.old }
    {
        let keep = inessential_columns(alloc, &self.rows, self.columns)?;
        if all_kept(&self.live, &keep) {
            return Ok(false);
        }
        self.taken = with_unmarked(alloc, &self.taken, &keep, self.columns)?;
        retain_marked(&mut self.live, &keep);
        retain_untouched_rows(&mut self.rows, &keep);
        Ok(true)
    }

    /// Drops each row that has all columns of another, if that is due; answers whether there was
    /// one. Then it is not due, and the pass that drops columns is if rows were dropped.
    fn drop_rows_if_due(
        &mut self,
        alloc: Global,
        transpose: &[Vec<usize>],
        due: &mut Due,
    ) -> Result<bool, AllocError>
        requires transpose { IsTranspose self.old.columns self.old.rows (items_of transpose.now) }
        requires long { length transpose.now ≡ self.old.columns }
        ensures { (choice : Choice) → IfOk result (λ is_changed. MatchBool is_changed
            (Shrinks choice self.old self.new) (self.new ≡ self.old)) }
    {
        if !due.rows {
            return Ok(false);
        }
        due.rows = false;
        let is_changed = self.drop_dominating_rows(alloc, transpose)?;
        due.columns = due.columns || is_changed;
        Ok(is_changed)
    }

    /// Drops each column that another dominates which costs no more, if that is due; answers
    /// whether there was one. Then it is not due, and the pass that drops rows is if columns were
    /// dropped.
    fn drop_columns_if_due(
        &mut self,
        alloc: Global,
        choice: Choice,
        transpose: &[Vec<usize>],
        due: &mut Due,
    ) -> Result<bool, AllocError>
        requires transpose { IsTranspose self.old.columns self.old.rows (items_of transpose.now) }
        requires long { length transpose.now ≡ self.old.columns }
        ensures { IfOk result (λ is_changed. MatchBool is_changed
            (IsWeakStep choice self.old self.new) (self.new ≡ self.old)) }
    {
        if !due.columns {
            return Ok(false);
        }
        due.columns = false;
        let is_changed = self.drop_weakly_dominated_columns(alloc, choice, transpose)?;
        due.rows = due.rows || is_changed;
        Ok(is_changed)
    }

    /// Takes the essential columns or else makes the first due pass that changes the table, in a
    /// search for some cover within a cutoff; answers whether it changed. `due` is what is due
    /// then. The lists are memory for the rows of each column.
    fn reduce_weakly_once(
        &mut self,
        alloc: Global,
        choice: Choice,
        due: &mut Due,
        lists: &mut Vec<Vec<usize>>,
    ) -> Result<bool, AllocError>
        ensures { IfOk result (λ is_changed. MatchBool is_changed
            (IsWeakStep choice self.old self.new) (self.new ≡ self.old)) }
    {
        if self.take_essential_columns(alloc)? {
            due.columns = true;
            return Ok(true);
        }
        let transpose = self.transpose(alloc, replace(lists, Vec::new(alloc)))?;
        let mut is_changed = self.drop_rows_if_due(alloc, &transpose, due)?;
        if !is_changed {
            is_changed = self.drop_columns_if_due(alloc, choice, &transpose, due)?;
        }
        *lists = transpose;
        Ok(is_changed)
    }

    /// The table after all passes that are due, in a search for some cover within a cutoff. The lists
    /// are memory for the rows of each column.
    pub(crate) fn reduce_weakly(
        self,
        alloc: Global,
        choice: Choice,
        due: Due,
        lists: &mut Vec<Vec<usize>>,
    ) -> Result<Table, AllocError>
        ensures { IfOk result (λ u. IsWeaklyReduced choice self u) }
    {
        let mut table = self;
        let mut due = due;
        loop {
            if !table.reduce_weakly_once(alloc, choice, &mut due, lists)? {
                return Ok(table);
            }
        }
    }

    /// The cyclic core: a copy of the table after all passes.
    pub(crate) fn cyclic_core(&self, alloc: Global, choice: Choice) -> Result<Table, AllocError>
        ensures steps { IfOk result (Steps choice self.now) }
        ensures table { IsTable self.now }
    {
        reduce_by(self.copy(alloc)?, choice, false)
    }

    /// Makes one pass that changes the table; answers whether there was one. With `is_complete`
    /// there is one if a step applies.
    fn reduce_once(
        &mut self,
        alloc: Global,
        choice: Choice,
        is_complete: bool,
    ) -> Result<bool, AllocError>
        ensures { IfOk result (λ is_changed. MatchBool is_changed (Shrinks choice self.old self.new)
            ((self.new ≡ self.old) × (is_complete ≡ true → IsReduced choice self.old))) }
    {
        if self.take_essential_columns(alloc)? {
            return Ok(true);
        }
        let transpose = self.transpose(alloc, Vec::new(alloc))?;
        if self.drop_dominating_rows(alloc, &transpose)? {
            return Ok(true);
        }
        self.drop_dominated_columns(alloc, choice, &transpose, is_complete)
    }
}

/// The table after passes until none changes it; with `is_complete` no step applies to it.
fn reduce_by(table: Table, choice: Choice, is_complete: bool) -> Result<Table, AllocError>
    ensures steps { IfOk result (Steps choice table) }
    ensures reduced { is_complete ≡ true → IfOk result (IsReduced choice) }
    ensures least { IfOk result (SameLeast choice table) }
{
    let alloc = *table.rows.allocator();
    let mut table = table;
    loop {
        if !table.reduce_once(alloc, choice, is_complete)? {
            return Ok(table);
        }
    }
}

/// Reduces a table until no step applies. A row is dropped if it has all columns of another. The
/// only column of a row is chosen, and its rows are dropped. A live column is dropped if another is
/// in all its rows and is preferred: it has the smaller number, or with `Choice::Literals` fewer
/// literals, or as many and the smaller number.
///
/// The least cover stays as it is. If memory is refused the table is gone.
pub fn reduce(table: Table, choice: Choice) -> Result<Table, AllocError>
    ensures steps { IfOk result (Steps choice table) }
    ensures reduced { IfOk result (IsReduced choice) }
    ensures least { IfOk result (SameLeast choice table) }
{
    reduce_by(table, choice, true)
}
