//! Row dominance: a row that has all columns of another one is dropped.
//!
//! Such a row is among the rows of the other's rarest column, so candidates are few. Most of these are
//! ruled out by one word: a row that has all columns of another has all bits of its signature.

ghost use Rattle.std.specs.Prelude.{◌≡◌, ◌≢◌, ◌<◌, ◌==◌, ◌&&◌, ℕ, [], IfOk, MatchBool, length, map, true};
ghost use Rattle.covering.specs.Table.{items_of, has};
ghost use Rattle.covering.specs.Reduce.{row_at, AreRising, IsTranspose, UnmarksDominatingRows, LeavesNoDominatingRow, is_dominating_row, HasNoDominatingRow, Shrinks, signature_of};

use crate::choice::Choice;
use crate::column_dominance::{has_bits, signature_of, signatures_of};
use crate::columns::{entry, is_rising_within};
use crate::marks::{all_marked, is_full, is_marked, retain_marked_rows, unmark};
use crate::table::Table;
use std::alloc::{AllocError, Global};

/// The column of the row that is in the fewest rows, the first of several; 0 for an empty row.
fn rarest(transpose: &[Vec<usize>], row: &[usize]) -> usize
    ensures { row.now ≢ [] → has result row.now ≡ true }
{
    if row.is_empty() {
        return 0;
    }
    let mut rarest = row[0];
    for column in row {
        if entry(transpose, *column).len() < entry(transpose, rarest).len() {
            rarest = *column;
        }
    }
    rarest
}

/// Whether the row `number` is another than the row `at` and has all its columns.
fn is_dominating_row(rows: &[Vec<usize>], at: usize, number: usize) -> bool
    requires { AreRising (items_of rows.now) }
    ensures { result ≡ is_dominating_row (items_of rows.now) at number }
{
    number != at && is_rising_within(entry(rows, at), entry(rows, number))
}

/// Takes the marks from those of the rows `among` that have all columns of the row `at`, but not
/// from `at`.
fn unmark_dominating_rows(
    stay: &mut Vec<bool>,
    rows: &[Vec<usize>],
    signatures: &[u64],
    among: &[usize],
    at: usize,
)
    requires rising { AreRising (items_of rows.now) }
    requires signatures { signatures.now ≡ map signature_of (items_of rows.now) }
    ensures { UnmarksDominatingRows (items_of rows.now) at among.now stay.old.items stay.new.items }
{
    let signature = signature_of(entry(rows, at));
    for number in among {
        if has_bits(signatures, *number, signature) && is_dominating_row(rows, at, *number) {
            unmark(stay, *number);
        }
    }
}

/// Marks the rows to keep. Each unmarked row has all columns of a marked one; if all are marked, no
/// row has all columns of another.
fn row_dominance(
    alloc: Global,
    rows: &[Vec<usize>],
    transpose: &[Vec<usize>],
) -> Result<Vec<bool>, AllocError>
    requires rising { AreRising (items_of rows.now) }
    requires transpose { IsTranspose (length transpose.now) (items_of rows.now)
        (items_of transpose.now) }
    requires within { (i c : ℕ) → has c (row_at (items_of rows.now) i) ≡ true
        → c < length transpose.now }
    requires filled { (i : ℕ) → i < length rows.now → row_at (items_of rows.now) i ≢ [] }
    ensures { IfOk result (λ v. LeavesNoDominatingRow (items_of rows.now) v.items) }
{
    let signatures = signatures_of(alloc, rows)?;
    let mut stay = all_marked(alloc, rows.len())?;
    for number in 0..rows.len() {
        if is_marked(&stay, number) {
            let column = rarest(transpose, entry(rows, number));
            let among = entry(transpose, column);
            unmark_dominating_rows(&mut stay, rows, &signatures, among, number);
        }
    }
    Ok(stay)
}

impl Table {
    /// Drops each row that has all columns of another; answers whether there was one.
    pub(crate) fn drop_dominating_rows(
        &mut self,
        alloc: Global,
        transpose: &[Vec<usize>],
    ) -> Result<bool, AllocError>
        requires transpose { IsTranspose self.old.columns self.old.rows (items_of transpose.now) }
        requires long { length transpose.now ≡ self.old.columns }
        ensures { (choice : Choice) → IfOk result (λ is_changed. MatchBool is_changed
            (Shrinks choice self.old self.new)
            ((self.new ≡ self.old) × HasNoDominatingRow self.old.rows)) }
    {
        let stay = row_dominance(alloc, &self.rows, transpose)?;
        if is_full(&stay) {
            return Ok(false);
        }
        retain_marked_rows(&mut self.rows, &stay);
        Ok(true)
    }
}
