//! Some cubes for the complement (`outside`) or the difference (`subtract`) of lists, within a
//! `Budget`; `sums` makes complete sums of them.
//!
//! A region is split at inputs while more than one row meets it. On the way back each cube loses
//! the literal that its half gave it, if it then still meets no row. So no cube lies in another of
//! its region, and there are about as many as a good cover of these places has: far fewer than the
//! complete sum. Cubes and regions may still be far too many, so each call has a budget.
ghost use Rattle.std.specs.Prelude.{◌≡◌, ◌<◌, ◌&&◌, IfOk, IfSome, All, length, Some, slice_get, not, false, true};
ghost use Rattle.cube.specs.Size.{Size};
ghost use Rattle.cube.specs.Cube.{HasSize, SameSize, IsCube, IsSubset, Place, IsPlace, holds, difference as difference_of};
ghost use Rattle.rows.specs.Cubes.{AreCubes};
ghost use Rattle.rows.specs.Places.{places};
ghost use Rattle.sums.specs.Outside.{AreNear, IsRest, Extends};

use crate::complete_sums::difference;
use crate::list::Cover;
use crate::references::references_to;
use cube::{Cube, Shape, Symbol};
use regions::{are_disjoint, rows_not_among};
use rows::{
    any_meets, clone_cubes, clone_referents, count_bits, cube_of_output, open_bits, push_copy,
    rows_of_both, sort_rows,
};
use std::alloc::{AllocError, Global};

// Lists of at most this many rows are not halved: each row is asked for by itself.
const FEW: usize = 16;

/// How much a call may do before it gives up.
#[derive(Clone, Copy)]
pub struct Budget {
    /// The most cubes that it keeps of one region: of an output in [`outside`], which keeps no more
    /// in all either, and of a row in [`subtract`].
    pub cubes: usize,
    /// The most rows that it looks at, where a row counts each time, and an eighth where it is only
    /// compared with a cube. The time that is taken grows with this number.
    pub rows: usize,
}

impl Budget {
    // Takes `rows` from the rows left, or answers false if fewer are left.
    fn spend(&mut self, rows: usize) -> bool {
        match self.rows.checked_sub(rows) {
            Some(rest) => {
                self.rows = rest;
                true
            }
            None => false,
        }
    }
}

// Copies of the rows that meet the region, in their order.
fn rows_meeting_region(alloc: Global, region: &Cube, rows: &[Cube]) -> Result<Vec<Cube>, AllocError>
    requires { All (λ c. SameSize c region.now) rows.now }
    ensures { IfOk result (λ v. (size : Size) → AreCubes size rows.now
        → AreNear size (holds region.now) rows.now v.items) }
{
    let mut meeting = Vec::new(alloc);
    for row in rows {
        if !row.disjoint(region) {
            push_copy(&mut meeting, row)?;
        }
    }
    Ok(meeting)
}

// The largest cubes of the region outside the rows.
fn largest_cubes_outside(
    alloc: Global,
    shape: Shape,
    region: &Cube,
    rows: Vec<Cube>,
) -> Result<Vec<Cube>, AllocError>
    requires region { IsCube shape region.now }
    requires rows { AreCubes shape rows.items }
    ensures { IfOk result (λ v. IsRest shape (holds region.now) rows.items v.items) }
{
    let mut own = Vec::new(alloc);
    push_copy(&mut own, region)?;
    if rows.is_empty() {
        return Ok(own);
    }
    let list = Cover::from_cubes(shape, own);
    let rows = Cover::from_cubes(shape, rows);
    Ok(difference(&list, &rows)?.into_cubes())
}

// How many rows have each literal that is open in the region, at the inputs of word `w`: that of
// `1` and then that of `0` for each input.
fn count_open_by_input(region: &Cube, rows: &[Cube], w: usize) -> [u32; 64] {
    let mut counts = [0u32; 64];
    for row in rows {
        count_bits(open_bits(row, region, w), 1, &mut counts);
    }
    counts
}

// How good a split at an input is, of which `zeros` and `ones` rows have each literal: the number
// of these rows, and `rows` more if there are some of both.
fn split_worth(zeros: u32, ones: u32, rows: usize) -> usize {
    let all = zeros.saturating_add(ones) as usize;
    if zeros == 0 || ones == 0 {
        all
    } else {
        all.saturating_add(rows)
    }
}

// The best input of word `w` to split at, and its worth; both are 0 if no row has an open literal
// there.
fn best_input_of_word(counts: &[u32; 64], w: usize, rows: usize) -> (usize, usize) {
    let mut best = 0;
    let mut most = 0;
    for k in 0..32usize {
        let worth = split_worth(counts[2 * k + 1], counts[2 * k], rows);
        if worth > most {
            most = worth;
            best = w.saturating_mul(32).saturating_add(k);
        }
    }
    (best, most)
}

// The best input to split the region at; `None` if no row has an open literal.
fn split_hint_of_region(shape: Shape, region: &Cube, rows: &[Cube]) -> Option<usize> {
    let mut best = None;
    let mut most = 0;
    for w in 0..shape.inputs().div_ceil(32) {
        let counts = count_open_by_input(region, rows, w);
        let (i, worth) = best_input_of_word(&counts, w, rows.len());
        if worth > most {
            most = worth;
            best = Some(i);
        }
    }
    best
}

// Whether some row contains the region.
fn any_contains(region: &Cube, rows: &[Cube]) -> bool
    requires { All (λ c. SameSize c region.now) rows.now }
{
    rows.iter().any(|row| row.contains(region))
}

// An input to split the region at, where it has no literal. `None` if at most one row is left or a
// row contains the region.
fn split_input_of_region(shape: Shape, region: &Cube, rows: &[Cube]) -> Option<usize>
    requires region { HasSize region.now shape }
    requires rows { AreCubes shape rows.now }
    ensures { IfSome result (λ i. slice_get region.now.symbols i ≡ Some Symbol.Dash) }
{
    if rows.len() <= 1 || any_contains(region, rows) {
        return None;
    }
    match split_hint_of_region(shape, region, rows) {
        Some(i) if i < shape.inputs() && region.symbol(i) == Symbol::Dash => Some(i),
        _ => None,
    }
}

// Whether the cube lies in the region and meets no row.
fn is_in_region_outside_rows(region: &Cube, rows: &[Cube], cube: &Cube) -> bool
    requires region { SameSize region.now cube.now }
    requires rows { All (λ c. SameSize c cube.now) rows.now }
    ensures { result ≡ true → IsSubset (holds cube.now)
        (difference_of (holds region.now) (places rows.now)) }
{
    region.contains(cube) && !any_meets(rows, cube)
}

// The cube without its literal at the input, if it then still lies in the region and meets no row;
// else the cube.
fn expand_at(region: &Cube, rows: &[Cube], i: usize, cube: &Cube) -> Result<Cube, AllocError>
    requires region { SameSize region.now cube.now }
    requires rows { All (λ c. SameSize c cube.now) rows.now }
    requires input { i < length cube.now.symbols }
    ensures cube { IfOk result (λ c. (size : Size) → IsCube size cube.now → IsCube size c) }
    ensures extends { IfOk result (λ c. Extends
        (difference_of (holds region.now) (places rows.now)) (holds cube.now) (holds c)) }
{
    let free = cube.with_symbol(i, Symbol::Dash)?;
    if is_in_region_outside_rows(region, rows, &free) {
        return Ok(free);
    }
    cube.try_clone()
}

// Each cube without its literal at the input, if it then still lies in the region and meets no row.
fn expand_each_at(
    alloc: Global,
    region: &Cube,
    rows: &[Cube],
    i: usize,
    cubes: &[Cube],
) -> Result<Vec<Cube>, AllocError>
    requires { (size : Size) × (i < size.inputs) × HasSize region.now size
        × AreCubes size rows.now × AreCubes size cubes.now }
    ensures cubes { IfOk result (λ v. (size : Size) → AreCubes size cubes.now
        → AreCubes size v.items) }
    ensures extends { IfOk result (λ v. Extends
        (difference_of (holds region.now) (places rows.now)) (places cubes.now)
        (places v.items)) }
{
    let mut larger = Vec::new(alloc);
    for cube in cubes {
        larger.push(expand_at(region, rows, i, cube)?)?;
    }
    Ok(larger)
}

// The cubes of both halves of a region, expanded at the input of the split, in row order and each
// once, or `None` if the budget is spent.
fn merge_halves(
    alloc: Global,
    region: &Cube,
    rows: &[Cube],
    i: usize,
    halves: Vec<Cube>,
    left: &mut Budget,
) -> Result<Option<Vec<Cube>>, AllocError>
    requires { (size : Size) × (i < size.inputs) × HasSize region.now size
        × AreCubes size rows.now × AreCubes size halves.items }
    ensures { IfOk result (λ o. IfSome o (λ v. (size : Size)
        → IsRest size (holds region.now) rows.now halves.items
        → IsRest size (holds region.now) rows.now v.items)) }
{
    if !left.spend(rows.len().saturating_mul(halves.len()) / 8) {
        return Ok(None);
    }
    let larger = expand_each_at(alloc, region, rows, i, &halves)?;
    let larger = sort_rows(alloc, larger)?;
    if larger.len() > left.cubes {
        return Ok(None);
    }
    Ok(Some(larger))
}

// Cubes that together have the region's places outside the rows, or `None` if the budget is spent.
#[cycle(outside_rows)]
fn outside_rows(
    alloc: Global,
    shape: Shape,
    region: &Cube,
    rows: &[Cube],
    left: &mut Budget,
) -> Result<Option<Vec<Cube>>, AllocError>
    requires region { IsCube shape region.now }
    requires rows { AreCubes shape rows.now }
    ensures { IfOk result (λ o. IfSome o
        (λ v. IsRest shape (holds region.now) rows.now v.items)) }
{
    if !left.spend(rows.len()) {
        return Ok(None);
    }
    let rows = rows_meeting_region(alloc, region, rows)?;
    let Some(i) = split_input_of_region(shape, region, &rows) else {
        return Ok(Some(largest_cubes_outside(alloc, shape, region, rows)?));
    };
    outside_halves(alloc, shape, region, &rows, i, left)
}

// Cubes that together have the region's places outside the rows, from its halves at the input, or
// `None` if the budget is spent.
#[cycle(outside_rows)]
fn outside_halves(
    alloc: Global,
    shape: Shape,
    region: &Cube,
    rows: &[Cube],
    i: usize,
    left: &mut Budget,
) -> Result<Option<Vec<Cube>>, AllocError>
    requires region { IsCube shape region.now }
    requires rows { AreCubes shape rows.now }
    requires input { slice_get region.now.symbols i ≡ Some Symbol.Dash }
    ensures { IfOk result (λ o. IfSome o
        (λ v. IsRest shape (holds region.now) rows.now v.items)) }
{
    let low = region.with_symbol(i, Symbol::Zero)?;
    let Some(cubes) = outside_rows(alloc, shape, &low, rows, left)? else {
        return Ok(None);
    };
    let high = region.with_symbol(i, Symbol::One)?;
    let Some(more) = outside_rows(alloc, shape, &high, rows, left)? else {
        return Ok(None);
    };
    let halves = rows_of_both(cubes, more)?;
    merge_halves(alloc, region, rows, i, halves, left)
}

/// Cubes of one output each that together have the places outside the list, and no others; `None`
/// if the budget is spent.
///
/// They need not be the complete sum, which [`Cover::complement`] answers and which may be far
/// longer.
///
/// # Errors
///
/// [`AllocError`] if memory is refused.
pub fn outside(list: &Cover, budget: Budget) -> Result<Option<Cover>, AllocError>
    ensures size { IfOk result (λ o. IfSome o (λ off. off.size ≡ list.now.size)) }
    ensures places { IfOk result (λ o. IfSome o (λ off. (p : Place) → IsPlace list.now.size p
        → places off.cubes p ≡ not (places list.now.cubes p))) }
{
    let alloc = list.allocator();
    let shape = list.shape();
    let mut left = budget;
    let mut off = Vec::new(alloc);
    for j in 0..shape.outputs() {
        let region = cube_of_output(alloc, shape, j)?;
        let rows = list.as_slice();
        let Some(more) = outside_rows(alloc, shape, &region, rows, &mut left)? else {
            return Ok(None);
        };
        off = rows_of_both(off, more)?;
        if off.len() > budget.cubes {
            return Ok(None);
        }
    }
    Ok(Some(Cover::from_cubes(shape, off)))
}

// Cubes that together have the rows' places outside the others, row by row, or `None` if the budget
// is spent.
fn subtract_row_by_row(
    alloc: Global,
    shape: Shape,
    rows: &[Cube],
    others: &[Cube],
    left: &mut Budget,
) -> Result<Option<Vec<Cube>>, AllocError>
    requires rows { AreCubes shape rows.now }
    requires others { AreCubes shape others.now }
    ensures { IfOk result (λ o. IfSome o
        (λ v. IsRest shape (places rows.now) others.now v.items)) }
{
    let mut all = Vec::new(alloc);
    for row in rows {
        let Some(more) = outside_rows(alloc, shape, row, others, left)? else {
            return Ok(None);
        };
        all = rows_of_both(all, more)?;
    }
    Ok(Some(all))
}

// Cubes that together have the rows' places outside the others, or `None` if the budget is spent.
// The rows are halved until they are few or disjoint from the others.
fn subtract_by_halves(
    alloc: Global,
    shape: Shape,
    rows: &[Cube],
    others: &[Cube],
    left: &mut Budget,
) -> Result<Option<Vec<Cube>>, AllocError>
    requires rows { AreCubes shape rows.now }
    requires others { AreCubes shape others.now }
    ensures { IfOk result (λ o. IfSome o
        (λ v. IsRest shape (places rows.now) others.now v.items)) }
{
    if rows.len() <= FEW {
        return subtract_row_by_row(alloc, shape, rows, others, left);
    }
    if are_disjoint(alloc, shape, rows, others)? {
        return Ok(Some(clone_cubes(alloc, rows)?));
    }
    let (front, back) = rows.split_at(rows.len() / 2);
    let Some(first) = subtract_by_halves(alloc, shape, front, others, left)? else {
        return Ok(None);
    };
    let Some(second) = subtract_by_halves(alloc, shape, back, others, left)? else {
        return Ok(None);
    };
    Ok(Some(rows_of_both(first, second)?))
}

// Copies of the rows of the list, without those that are found in the other.
fn clone_rows_not_among(list: &Cover, other: &Cover) -> Result<Vec<Cube>, AllocError>
    ensures cubes { IfOk result (λ rows. AreCubes list.now.size rows.items) }
    ensures places { IfOk result (λ rows. (p : Place)
        → difference_of (places rows.items) (places other.now.cubes) p
        ≡ difference_of (places list.now.cubes) (places other.now.cubes) p) }
{
    let alloc = list.allocator();
    let shape = list.shape();
    let rows = references_to(list)?;
    let others = references_to(other)?;
    let rest = rows_not_among(alloc, shape, &rows, &others)?;
    clone_referents(alloc, &rest)
}

/// Cubes that together have the places of the list that are not in the other, of one shape, and no
/// others; `None` if the budget is spent. A row that is disjoint from the other list stays as it
/// is.
///
/// They need not be the complete sum, which [`difference`] answers. Disjoint lists cost the
/// question [`Cover::intersects`] and a copy. A row that stands in both lists costs a look into a
/// table.
///
/// # Errors
///
/// [`AllocError`] if memory is refused.
pub fn subtract(list: &Cover, other: &Cover, budget: Budget) -> Result<Option<Cover>, AllocError>
    requires { other.now.size ≡ list.now.size }
    ensures size { IfOk result (λ o. IfSome o (λ rest. rest.size ≡ list.now.size)) }
    ensures places { IfOk result (λ o. IfSome o (λ rest. (p : Place) → IsPlace list.now.size p
        → places rest.cubes p ≡ (places list.now.cubes p && not (places other.now.cubes p)))) }
{
    let meet = list.intersects(other)?;
    if !meet {
        return Ok(Some(list.try_clone()?));
    }
    let alloc = list.allocator();
    let shape = list.shape();
    let rows = clone_rows_not_among(list, other)?;
    let mut left = budget;
    let Some(cubes) = subtract_by_halves(alloc, shape, &rows, other.as_slice(), &mut left)? else {
        return Ok(None);
    };
    Ok(Some(Cover::from_cubes(shape, cubes)))
}
