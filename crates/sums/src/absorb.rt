//! Absorption: rows that lie in other rows are dropped.
ghost use Rattle.std.specs.Prelude.{◌≡◌, IfOk, IsTrue, All, Contains, false};
ghost use Rattle.std.specs.List.Sorted.{IsStrictlySortedBy};
ghost use Rattle.cube.specs.Cube.{SameSize, IsSubset, holds, Cube as Row};
ghost use Rattle.cube.specs.Order.{row_cmp as row_order};
ghost use Rattle.rows.specs.Cubes.{AreCubes};
ghost use Rattle.rows.specs.Sizes.{HaveOneSize, ShareOneSize};
ghost use Rattle.rows.specs.Reduced.{IsAbsorbed, IsPartlyAbsorbed, IsWithoutAbsorbed};

use crate::keys::literal_pairs;
use cube::{Cube, Shape};
use rows::{push_copy, sort_rows};
use std::alloc::{AllocError, Global};

// Lists of more rows than this are not looked at pair by pair only to make them shorter.
const MANY: usize = 32;

// Two lists of more pairs than this are not looked at pair by pair only to make one shorter.
const PAIRS: usize = 1024;

// Whether the row lies in one of the kept rows.
fn lies_in_some(kept: &[Cube], row: &Cube) -> bool
    requires { All (λ d. SameSize d row.now) kept.now }
    ensures absorbed { IsTrue result → (d : Row) × Contains kept.now d
        × IsSubset (holds row.now) (holds d) }
    ensures open { result ≡ false → All (λ d. IsSubset (holds row.now) (holds d) → ⊥) kept.now }
{
    for old in kept {
        if old.contains(row) {
            return true;
        }
    }
    false
}

// The rows that lie in no row before them. In row order the larger rows come first, so that among
// rows of equal outputs none is left that lies in another.
fn absorb_sorted(alloc: Global, rows: &[Cube]) -> Result<Vec<Cube>, AllocError>
    requires cubes { HaveOneSize rows.now }
    requires rising { IsStrictlySortedBy row_order rows.now }
    ensures { IfOk result (λ kept. IsAbsorbed rows.now kept.items) }
{
    let mut kept = Vec::new(alloc);
    for row in rows {
        if !lies_in_some(&kept, row) {
            push_copy(&mut kept, row)?;
        }
    }
    Ok(kept)
}

// Whether all rows have the same number of literals. In row order none of them then lies in an
// earlier one: it would have the symbols of that one, and of such rows the one with more outputs is
// later.
fn have_equal_literal_counts(rows: &[Cube]) -> bool {
    let Some(first) = rows.first() else {
        return true;
    };
    let literals = first.literals();
    for row in rows {
        if row.literals() != literals {
            return false;
        }
    }
    true
}

// Whether the rows rise in row order by their symbols alone, and all have literals at the same
// inputs, at least one, as points have. Then none lies in another. `false` for shapes of more than
// 32 inputs.
fn rise_with_literals_at_same_inputs(shape: Shape, rows: &[Cube]) -> bool {
    if shape.inputs() > 32 {
        return false;
    }
    let inputs = match rows.first() {
        Some(first) => literal_pairs(first.literal_bits(0)),
        None => 0,
    };
    let mut last = 0u64;
    for row in rows {
        let literals = row.literal_bits(0);
        if literal_pairs(literals) != inputs {
            return false;
        }
        // At the first input where two rows differ the later one has `1`, which is the lower bit.
        let changed = literals ^ last;
        let first = changed & changed.wrapping_neg();
        if literals & first == 0 {
            return false;
        }
        last = literals;
    }
    true
}

// Whether some row lies in an earlier one. The rows are in row order, each once.
fn has_absorbed_by_earlier(rows: &[Cube]) -> bool
    requires { HaveOneSize rows.now }
{
    if have_equal_literal_counts(rows) {
        return false;
    }
    for at in 0..rows.len() {
        let (before, _) = rows.split_at(at);
        if lies_in_some(before, &rows[at]) {
            return true;
        }
    }
    false
}

// Whether some row lies in one of the others.
fn has_absorbed_by(rows: &[Cube], others: &[Cube]) -> bool
    requires { ShareOneSize rows.now others.now }
{
    for row in rows {
        if lies_in_some(others, row) {
            return true;
        }
    }
    false
}

// The rows without those that lie in one of the others.
pub(crate) fn drop_absorbed_by(
    alloc: Global,
    rows: &[Cube],
    others: &[Cube],
) -> Result<Vec<Cube>, AllocError>
    requires { ShareOneSize rows.now others.now }
    ensures { IfOk result (λ kept. IsWithoutAbsorbed rows.now others.now kept.items) }
{
    let mut kept = Vec::new(alloc);
    for row in rows {
        if !lies_in_some(others, row) {
            push_copy(&mut kept, row)?;
        }
    }
    Ok(kept)
}

/// The rows without those that lie in one of the others, or all of the rows, if there are more
/// pairs than `PAIRS`.
pub(crate) fn drop_absorbed_by_if_short(
    alloc: Global,
    rows: Vec<Cube>,
    others: &[Cube],
) -> Result<Vec<Cube>, AllocError>
    requires { ShareOneSize rows.items others.now }
    ensures { IfOk result (λ kept. IsWithoutAbsorbed rows.items others.now kept.items) }
{
    let pairs = rows.len().saturating_mul(others.len());
    if pairs == 0 || pairs > PAIRS {
        return Ok(rows);
    }
    if !has_absorbed_by(&rows, others) {
        return Ok(rows);
    }
    drop_absorbed_by(alloc, &rows, others)
}

/// Whether a part of the rows needs no `absorb_if_short`, by the numbers of rows alone: rows that
/// lie in others were looked for among the rows, or are not to be looked for among the part. (The
/// rows are in row order, so the part is too.)
pub(crate) fn is_part_absorbed(rows: &[Cube], part: &[Cube]) -> bool {
    rows.len() <= MANY || part.len() > MANY
}

/// The rows in row order, without the rows that lie in an earlier one, if they are few: each pair
/// is looked at. Of more than `MANY` rows only repetitions are dropped. With `is_absorbed` the rows
/// are known to be like this, and stay as they are.
pub(crate) fn absorb_if_short(
    alloc: Global,
    shape: Shape,
    rows: Vec<Cube>,
    is_absorbed: bool,
) -> Result<Vec<Cube>, AllocError>
    requires { AreCubes shape rows.items }
    ensures { IfOk result (λ kept. IsPartlyAbsorbed rows.items kept.items) }
{
    if is_absorbed || rows.len() < 2 || rise_with_literals_at_same_inputs(shape, &rows) {
        return Ok(rows);
    }
    let rows = sort_rows(alloc, rows)?;
    if rows.len() > MANY {
        return Ok(rows);
    }
    if !has_absorbed_by_earlier(&rows) {
        return Ok(rows);
    }
    absorb_sorted(alloc, &rows)
}

/// The rows in row order, without the rows that lie in an earlier one.
pub fn absorb(alloc: Global, rows: Vec<Cube>) -> Result<Vec<Cube>, AllocError>
    requires { HaveOneSize rows.items }
    ensures { IfOk result (λ kept. IsAbsorbed rows.items kept.items) }
{
    let rows = sort_rows(alloc, rows)?;
    absorb_sorted(alloc, &rows)
}
