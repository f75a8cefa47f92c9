//! The covering table: how it is made of rows, which are tested, its parts, and copies.

ghost use Rattle.std.specs.Prelude.{◌≡◌, ◌<◌, IfOk, MatchOption, length};
ghost use Rattle.std.specs.List.{list_all};
ghost use Rattle.covering.specs.Table.{Table as Matrix, IsTable, items_of, has, AreRows, fresh, is_row, table_of};

use crate::columns::{contains, copy_of, numbers, rises};
use std::alloc::{AllocError, Global};
use std::marker::Model;

/// Whether the row has a column, rises and is below `columns`.
fn is_row(row: &[usize], columns: usize) -> bool
    ensures { result ≡ is_row columns row.now }
{
    row.len() != 0 && rises(row, columns)
}

/// Whether each row has a column, rises and is below `columns`.
fn are_rows(rows: &[Vec<usize>], columns: usize) -> bool
    ensures { result ≡ list_all (λ row. is_row columns row.items) rows.now }
{
    for row in rows {
        if !is_row(row, columns) {
            return false;
        }
    }
    true
}

/// A copy of the rows.
pub(crate) fn copy_rows(alloc: Global, rows: &[Vec<usize>]) -> Result<Vec<Vec<usize>>, AllocError>
    ensures { IfOk result (λ v. items_of v.items ≡ items_of rows.now) }
{
    let mut kept = Vec::new(alloc);
    for row in rows {
        kept.push(copy_of(alloc, row)?)?;
    }
    Ok(kept)
}

/// A covering table: each cover has the taken columns and, of each row, one of its live columns.
#[derive(Drop)]
pub struct Table {
    /// How many columns it was made with.
    pub(crate) columns: usize,
    /// The columns that every cover has, rising.
    pub(crate) taken: Vec<usize>,
    /// The columns still open, rising.
    pub(crate) live: Vec<usize>,
    /// The rows not covered yet, each a rising list of live columns.
    pub(crate) rows: Vec<Vec<usize>>,
    /// The number of literals of each column.
    pub(crate) literals: Vec<u32>,
}

impl Model for Table {
    ghost use Rattle.covering.specs.Table.{Table as Matrix, IsTable, items_of};

    ghost Value = { Matrix };

    ghost view = { λ t. record {
      columns = t.columns;
      taken = t.taken.items;
      live = t.live.items;
      rows = items_of t.rows.items;
      weights = t.literals.items;
    } };

    ghost invariant = { λ t. IsTable (record {
      columns = t.columns;
      taken = t.taken.items;
      live = t.live.items;
      rows = items_of t.rows.items;
      weights = t.literals.items;
    }) };
}

impl Table {
    /// The table of these rows, with a column for each weight; none is taken and all are live.
    ///
    /// A row lists its columns in rising order; a column's weight is its number of literals. `None`
    /// if some row is empty, doesn't rise or has a column that has no weight. Its cost is that of
    /// reading the rows once.
    pub fn new(
        alloc: Global,
        rows: Vec<Vec<usize>>,
        weights: Vec<u32>,
    ) -> Result<Option<Table>, AllocError>
        ensures { IfOk result (λ o. MatchOption o (AreRows (length weights.items)
            (items_of rows.items) → ⊥) (λ t. AreRows (length weights.items) (items_of rows.items)
            × (t ≡ fresh (items_of rows.items) weights.items))) }
    {
        let columns = weights.len();
        if !are_rows(&rows, columns) {
            return Ok(None);
        }
        Ok(Some(Table {
            columns,
            taken: Vec::new(alloc),
            live: numbers(alloc, columns)?,
            rows,
            literals: weights,
        }))
    }

    /// How many columns the table was made with.
    pub fn columns(&self) -> usize
        ensures count { result ≡ self.now.columns }
        ensures table { IsTable self.now }
    {
        self.columns
    }

    /// How many rows are left.
    pub fn row_count(&self) -> usize
        ensures { result ≡ length self.now.rows }
    {
        self.rows.len()
    }

    /// Whether the column is in every cover by an earlier step.
    pub fn is_taken(&self, i: usize) -> bool
        requires { i < self.now.columns }
        ensures { result ≡ has i self.now.taken }
    {
        contains(&self.taken, i)
    }

    /// Whether the column is live: neither taken nor dropped.
    pub fn is_live(&self, i: usize) -> bool
        requires { i < self.now.columns }
        ensures { result ≡ has i self.now.live }
    {
        contains(&self.live, i)
    }

    /// The columns that every cover has, rising.
    pub(crate) fn taken_columns(&self) -> &[usize]
        ensures value { result.now ≡ self.now.taken }
        ensures table { IsTable self.now }
    {
        &self.taken
    }

    /// The columns still open, rising.
    pub(crate) fn live_columns(&self) -> &[usize]
        ensures value { result.now ≡ self.now.live }
        ensures table { IsTable self.now }
    {
        &self.live
    }

    /// The rows not covered yet, each a rising list of live columns.
    pub(crate) fn row_lists(&self) -> &[Vec<usize>]
        ensures value { items_of result.now ≡ self.now.rows }
        ensures table { IsTable self.now }
    {
        &self.rows
    }

    /// The number of literals of each column, live or not.
    pub(crate) fn literals(&self) -> &[u32]
        ensures value { result.now ≡ self.now.weights }
        ensures table { IsTable self.now }
    {
        &self.literals
    }

    /// The table of these taken and live columns and these rows, with the number of columns and the
    /// literals of this one.
    pub(crate) fn with(
        &self,
        alloc: Global,
        taken: Vec<usize>,
        live: Vec<usize>,
        rows: Vec<Vec<usize>>,
    ) -> Result<Table, AllocError>
        requires { IsTable (table_of self.now.columns taken.items live.items (items_of rows.items)
            self.now.weights) }
        ensures { IfOk result (λ t. t ≡ table_of self.now.columns taken.items live.items
            (items_of rows.items) self.now.weights) }
    {
        let literals = self.literals.to_vec(alloc)?;
        Ok(Table {
            columns: self.columns,
            taken,
            live,
            rows,
            literals,
        })
    }

    /// A copy of the table.
    pub(crate) fn copy(&self, alloc: Global) -> Result<Table, AllocError>
        ensures copy { IfOk result (λ t. t ≡ self.now) }
        ensures table { IsTable self.now }
    {
        let taken = copy_of(alloc, self.taken_columns())?;
        let live = copy_of(alloc, self.live_columns())?;
        let rows = copy_rows(alloc, self.row_lists())?;
        self.with(alloc, taken, live, rows)
    }
}
