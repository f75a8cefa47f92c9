//! Marks of columns and of rows: how they are set, taken, complemented and tested; and what they leave of
//! lists and tables: the marked columns or rows, and the rows whose columns are all marked
//! (`untouched_rows`).

ghost use Rattle.std.specs.Prelude.{◌≡◌, ◌<◌, ◌&&◌, ◌||◌, nat_lt, ℕ, IfOk, filter, map, not, ◌==◌, true, false, ◌*◌, ◌-◌, Vec, replicate};
ghost use Rattle.std.specs.List.{list_all, range_with_len};
ghost use Rattle.covering.specs.Table.{items_of, has};
ghost use Rattle.covering.specs.Search.{marked};
ghost use Rattle.covering.specs.Reduce.{Unmarks, rows_from};

use crate::columns::copy_of;
use crate::table::copy_rows;
use std::alloc::{AllocError, Global};

/// The complement of the marks, for each place below the end: `true` where there is none, also past
/// the marks.
pub(crate) fn others(alloc: Global, marks: &[bool], end: usize) -> Result<Vec<bool>, AllocError>
    ensures { IfOk result (λ v. v.items ≡ map (λ c. not (marked marks.now c))
        (range_with_len 0 end)) }
{
    let mut others = vec![in alloc; false; end]?;
    for c in 0..end {
        others[c] = !is_marked(marks, c);
    }
    Ok(others)
}

/// Marks all places below the end but `column`; all of them if that is past the end.
pub(crate) fn all_but(alloc: Global, column: usize, end: usize) -> Result<Vec<bool>, AllocError>
    ensures { IfOk result (λ v. v.items ≡ map (λ c. not (c == column)) (range_with_len 0 end)) }
{
    let mut others = all_marked(alloc, end)?;
    unmark(&mut others, column);
    Ok(others)
}

/// Marks all places below the end but these columns, some of which may be past the end.
pub(crate) fn all_but_each(
    alloc: Global,
    columns: &[usize],
    end: usize,
) -> Result<Vec<bool>, AllocError>
    ensures { IfOk result (λ v. (n : ℕ) → n < end → marked v.items n ≡ not (has n columns.now)) }
{
    let mut keep = all_marked(alloc, end)?;
    for column in columns {
        unmark(&mut keep, *column);
    }
    Ok(keep)
}

/// The rising list of the taken columns and the unmarked ones, below `columns`; past the end of
/// `keep` all are unmarked.
pub(crate) fn with_unmarked(
    alloc: Global,
    taken: &[usize],
    keep: &[bool],
    columns: usize,
) -> Result<Vec<usize>, AllocError>
    ensures { IfOk result (λ v. v.items ≡ filter (λ n. has n taken.now || not (marked keep.now n))
        (range_with_len 0 columns)) }
{
    let mut rest = keep.to_vec(alloc)?;
    for column in taken {
        unmark(&mut rest, *column);
    }
    let mut unmarked = Vec::new(alloc);
    for n in 0..columns {
        if !is_marked(&rest, n) {
            unmarked.push(n)?;
        }
    }
    Ok(unmarked)
}

/// Marks the columns of the list that are below the end.
pub(crate) fn marks_of(
    alloc: Global,
    columns: &[usize],
    end: usize,
) -> Result<Vec<bool>, AllocError>
    ensures { IfOk result (λ v. (n : ℕ) → marked v.items n ≡ (nat_lt n end && has n columns.now)) }
{
    let others_marked = all_but_each(alloc, columns, end)?;
    others(alloc, &others_marked, end)
}

/// Takes the mark from the place, if it has one; nothing past the end.
pub fn unmark(marks: &mut Vec<bool>, place: usize)
    ensures { Unmarks marks.old.items place marks.new.items }
{
    if place < marks.len() {
        marks[place] = false;
    }
}

/// Whether each column of the row is marked; `true` for an empty row.
pub(crate) fn all_kept(row: &[usize], keep: &[bool]) -> bool
    ensures { result ≡ list_all (marked keep.now) row.now }
{
    for column in row {
        if !is_marked(keep, *column) {
            return false;
        }
    }
    true
}

/// Copies of the rows whose columns are all marked, in order.
pub(crate) fn untouched_rows(
    alloc: Global,
    rows: &[Vec<usize>],
    keep: &[bool],
) -> Result<Vec<Vec<usize>>, AllocError>
    ensures { IfOk result (λ v. items_of v.items
        ≡ filter (list_all (marked keep.now)) (items_of rows.now)) }
{
    let mut kept = copy_rows(alloc, rows)?;
    retain_untouched_rows(&mut kept, keep);
    Ok(kept)
}

/// Keeps the rows whose columns are all marked.
pub(crate) fn retain_untouched_rows(rows: &mut Vec<Vec<usize>>, keep: &[bool])
    ensures { items_of rows.new.items
        ≡ filter (list_all (marked keep.now)) (items_of rows.old.items) }
{
    rows.retain(|row| all_kept(row, keep));
}

/// Keeps the rows whose number is marked, in order.
pub(crate) fn retain_marked_rows(rows: &mut Vec<Vec<usize>>, stay: &[bool])
    ensures { items_of rows.new.items
        ≡ rows_from (marked stay.now) 0 (items_of rows.old.items) }
{
    let mut kept = 0;
    for i in 0..rows.len() {
        if is_marked(stay, i) {
            rows.swap(kept, i);
            kept += 1;
        }
    }
    rows.truncate(kept);
}

/// Whether the place has a mark; `false` past the end.
pub fn is_marked(marks: &[bool], place: usize) -> bool
    ensures { result ≡ marked marks.now place }
{
    if place < marks.len() {
        marks[place]
    } else {
        false
    }
}

/// Whether each place has a mark; `true` for none.
pub(crate) fn is_full(marks: &[bool]) -> bool
    ensures { result ≡ list_all (λ mark. mark) marks.now }
{
    for mark in marks {
        if !*mark {
            return false;
        }
    }
    true
}

/// A mark at each place below the end.
pub fn all_marked(alloc: Global, end: usize) -> Result<Vec<bool>, AllocError>
    ensures { IfOk result (λ v. v.items ≡ replicate end true) }
{
    vec![in alloc; true; end]
}

/// The columns of the list that are marked, in order.
pub(crate) fn marked_columns(
    alloc: Global,
    xs: &[usize],
    keep: &[bool],
) -> Result<Vec<usize>, AllocError>
    ensures { IfOk result (λ v. v.items ≡ filter (marked keep.now) xs.now) }
{
    let mut columns = copy_of(alloc, xs)?;
    retain_marked(&mut columns, keep);
    Ok(columns)
}

/// Keeps the marked columns.
pub(crate) fn retain_marked(columns: &mut Vec<usize>, keep: &[bool])
    ensures { columns.new.items ≡ filter (marked keep.now) columns.old.items }
{
    columns.retain(|column| is_marked(keep, *column));
}

/// Keeps the marked columns of each row, which may leave a row empty.
pub(crate) fn retain_marked_in_rows(rows: &mut Vec<Vec<usize>>, keep: &[bool])
    ensures { items_of rows.new.items
        ≡ map (filter (marked keep.now)) (items_of rows.old.items) }
{
    for row in rows.iter_mut() {
        retain_marked(row, keep);
    }
}
