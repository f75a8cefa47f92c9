//! Whether some place of a region is in each of some lists.
//!
//! The region becomes its part in a row of a list, which is looked for in the lists after it. Lists
//! in a row of which the region lies are passed over, and a region that meets no row of some list is
//! given up at once. Of a part without such a place a nogood is made: a cube around it that has no
//! such place either, without the literals that this does not need. If it contains the region as
//! well, no other row is tried (conflict-directed backjumping: Prosser, Hybrid algorithms for the
//! constraint satisfaction problem, 1993).

ghost use Rattle.std.specs.Prelude.{◌≡◌, ◌≤◌, IsTrue, true, false, None, All, IfOk, IfSome, length};
ghost use Rattle.std.specs.List.{list_any};
ghost use Rattle.cube.specs.Cube.{HasSize, SameSize, IsSubset, holds, intersection};
ghost use Rattle.cover.specs.Places.{places};
ghost use Rattle.minimum.specs.Blocking.{HasCommon, IsNogood, IsWidening};

use crate::essential_by_neighbours::needed_literals::{
    conflicts_with, keep_conflict, keep_literals,
};
use cover::Cover;
use cube::{Cube, Symbol};
use growth::{are_apart, lies_in_one_of};
use std::alloc::{AllocError, Global};

/// The number of the first list, from a number on, in no row of which the region lies; how many
/// lists there are if there is none.
fn next_list(lists: &[Cover], from: usize, region: &Cube) -> usize
    requires sizes { All (λ l. HasSize region.now l.size) lists.now }
    requires from { from ≤ length lists.now }
    ensures from { from ≤ result }
    ensures common { HasCommon region.now lists.now result → HasCommon region.now lists.now from }
{
    for number in from..lists.len() {
        if !lies_in_one_of(region, lists[number].as_slice()) {
            return number;
        }
    }
    lists.len()
}

/// Whether what the region has of the row lies in one of the nogoods; `true` if it has nothing of
/// it.
fn part_lies_in_one_of(region: &Cube, row: &Cube, nogoods: &[Cube]) -> Result<bool, AllocError>
    requires row { SameSize region.now row.now }
    requires nogoods { All (λ d. SameSize d region.now) nogoods.now }
    ensures { IfOk result (λ b. b ≡ true
        → IsSubset (intersection (holds region.now) (holds row.now)) (places nogoods.now)) }
{
    match region.meet(row)? {
        Some(part) => Ok(lies_in_one_of(&part, nogoods)),
        None => Ok(true),
    }
}

/// Whether what the region has of each row lies in one of the nogoods.
fn parts_lie_in(region: &Cube, rows: &[Cube], nogoods: &[Cube]) -> Result<bool, AllocError>
    requires rows { All (λ d. SameSize d region.now) rows.now }
    requires nogoods { All (λ d. SameSize d region.now) nogoods.now }
    ensures { IfOk result (λ b. b ≡ true
        → IsSubset (intersection (holds region.now) (places rows.now)) (places nogoods.now)) }
{
    for row in rows {
        if !part_lies_in_one_of(region, row, nogoods)? {
            return Ok(false);
        }
    }
    Ok(true)
}

/// The region with the needed literals alone.
fn with_needed_literals(region: &Cube, needed: &[bool]) -> Result<Cube, AllocError>
    ensures { IfOk result (λ c. SameSize c region.now) }
{
    let mut wide = region.try_clone()?;
    for (i, is_needed) in needed.iter().enumerate() {
        if !*is_needed && i < wide.shape().inputs() {
            wide.set_symbol(i, Symbol::Dash);
        }
    }
    Ok(wide)
}

/// The region with the needed literals alone, if what it then has of the rows still lies in the
/// nogoods; else the region.
fn widen(
    rows: &[Cube],
    nogoods: &[Cube],
    region: &Cube,
    needed: &[bool],
) -> Result<Cube, AllocError>
    requires rows { All (λ d. SameSize d region.now) rows.now }
    requires nogoods { All (λ d. SameSize d region.now) nogoods.now }
    requires parts { IsSubset (intersection (holds region.now) (places rows.now)) (places nogoods.now) }
    ensures { IfOk result (IsWidening rows.now nogoods.now region.now) }
{
    let wide = with_needed_literals(region, needed)?;
    if wide.contains(region) && parts_lie_in(&wide, rows, nogoods)? {
        return Ok(wide);
    }
    region.try_clone()
}

/// A nogood around the region, if it meets no row of one of the lists from a number on.
fn nogood_by_one_list(
    alloc: Global,
    lists: &[Cover],
    from: usize,
    region: &Cube,
) -> Result<Option<Cube>, AllocError>
    requires { All (λ l. HasSize region.now l.size) lists.now }
    ensures { IfOk result (λ o. IfSome o (IsNogood lists.now from region.now)) }
{
    for number in from..lists.len() {
        let rows = lists[number].as_slice();
        if are_apart(rows, region) {
            let needed = conflicts_with(alloc, region, rows)?;
            return Ok(Some(widen(rows, &[], region, &needed)?));
        }
    }
    Ok(None)
}

/// A nogood around the region for the lists from a number on; `None` if some place of the region is
/// in each of these.
fn nogood_around(
    alloc: Global,
    lists: &[Cover],
    from: usize,
    region: &Cube,
) -> Result<Option<Cube>, AllocError>
    requires sizes { All (λ l. HasSize region.now l.size) lists.now }
    requires from { from ≤ length lists.now }
    requires output { IsTrue (list_any (λ b. b) region.now.outputs) }
    ensures common { IfOk result (λ o. o ≡ None → HasCommon region.now lists.now from) }
    ensures nogood { IfOk result (λ o. IfSome o (IsNogood lists.now from region.now)) }
{
    let next = next_list(lists, from, region);
    if next >= lists.len() {
        return Ok(None);
    }
    if let Some(nogood) = nogood_by_one_list(alloc, lists, next, region)? {
        return Ok(Some(nogood));
    }
    let mut needed = vec![in alloc; false; region.shape().inputs()]?;
    let mut nogoods = Vec::new(alloc);
    let rows = lists[next].as_slice();
    for row in rows {
        let Some(part) = region.meet(row)? else {
            keep_conflict(&mut needed, region, row);
            continue;
        };
        let Some(nogood) = nogood_around(alloc, lists, next + 1, &part)? else {
            return Ok(None);
        };
        if nogood.contains(region) {
            return Ok(Some(nogood));
        }
        keep_literals(&mut needed, &nogood, row);
        nogoods.push(nogood)?;
    }
    Ok(Some(widen(rows, &nogoods, region, &needed)?))
}

/// Whether some place of the region is in each of the lists. Short lists should come first: they
/// leave few parts.
pub(crate) fn has_common(alloc: Global, lists: &[Cover], region: &Cube) -> Result<bool, AllocError>
    requires sizes { All (λ l. HasSize region.now l.size) lists.now }
    requires output { IsTrue (list_any (λ b. b) region.now.outputs) }
    ensures some { IfOk result (λ b. b ≡ true → HasCommon region.now lists.now 0) }
    ensures none { IfOk result (λ b. b ≡ false → HasCommon region.now lists.now 0 → ⊥) }
{
    let nogood = nogood_around(alloc, lists, 0, region)?;
    Ok(nogood.is_none())
}
