//! The rows of a table so far, found by their first columns.
//!
//! A row that has none but some columns begins with one of them, so only the rows that begin with these
//! are looked at, and a table of many short rows is made in proportion to them. Which rows begin with a
//! column is a hint.

ghost use Rattle.std.specs.Prelude.{◌≡◌, ◌++◌, ◌∷◌, [], true, IfOk, OnOk};
ghost use Rattle.std.specs.List.{list_any};
ghost use Rattle.covering.specs.Table.{RisesFrom};
ghost use Rattle.covering.specs.Reduce.{holds_all};

use covering::is_within;
use std::alloc::{AllocError, Global};

/// No row.
const NONE: usize = usize::MAX;

/// Rows of a table.
pub(crate) struct KnownRows {
    /// The rows.
    pub(crate) rows: Vec<Vec<usize>>,
    /// For each column the number of the last row that begins with it, or `NONE`.
    latest: Vec<usize>,
    /// For each row the number of the one before it that begins with the same column, or `NONE`.
    earlier: Vec<usize>,
}

// Written out, so that where they end a proof has one call, and no case for each list.
impl Drop for KnownRows {
    fn drop(self) {
        let KnownRows {
            rows: _,
            latest: _,
            earlier: _,
        } = self;
    }
}

/// The number at this index, `NONE` past the end.
fn row_at(list: &[usize], at: usize) -> usize {
    if at < list.len() { list[at] } else { NONE }
}

impl KnownRows {
    /// No rows yet, of a table with so many columns.
    pub(crate) fn new(alloc: Global, columns: usize) -> Result<KnownRows, AllocError>
        ensures { IfOk result (λ known. known.rows.items ≡ []) }
    {
        Ok(KnownRows {
            rows: Vec::new(alloc),
            latest: vec![in alloc; NONE; columns]?,
            earlier: Vec::new(alloc),
        })
    }

    /// Adds a row at the end.
    pub(crate) fn push(&mut self, row: Vec<usize>) -> Result<(), AllocError>
        ensures { OnOk result (self.new.rows.items ≡ self.old.rows.items ++ row ∷ []) }
    {
        let first = row_at(&row, 0);
        self.earlier.push(row_at(&self.latest, first))?;
        if first < self.latest.len() {
            self.latest[first] = self.rows.len();
        }
        self.rows.push(row)?;
        Ok(())
    }

    /// Whether a row that begins with the column has none but these columns, which rise.
    fn any_from(&self, column: usize, columns: &[usize]) -> bool
        requires { RisesFrom 0 columns.now }
        ensures { result ≡ true
            → list_any (λ row. holds_all columns.now row.items) self.now.rows.items ≡ true }
    {
        let mut at = row_at(&self.latest, column);
        for _ in 0..self.rows.len() {
            if at >= self.rows.len() {
                return false;
            }
            if is_within(&self.rows[at], columns) {
                return true;
            }
            at = row_at(&self.earlier, at);
        }
        false
    }

    /// Whether it finds a row that has none but these columns.
    pub(crate) fn any_within(&self, columns: &[usize]) -> bool
        requires { RisesFrom 0 columns.now }
        ensures { result ≡ true
            → list_any (λ row. holds_all columns.now row.items) self.now.rows.items ≡ true }
    {
        for column in columns {
            if self.any_from(*column, columns) {
                return true;
            }
        }
        false
    }
}
