//! The complete sum of four rows with the four pairs of literals at two inputs: an end of the
//! recursion, which asks for it and for that of two rows together (`sum_of_few_rows`).
//!
//! At the first of the two inputs each cofactor is two rows with opposite literals at the other,
//! and so is the consensus, as far as the rows meet. Products of numbers come to such rows often.
ghost use Rattle.std.specs.Prelude.{◌≡◌, ◌≢◌, ◌↔◌, ◌<◌, ◌∷◌, ◌++◌, [], true, IfOk, IfSome, IsNone, length, slice_index_or, option_to_list};
ghost use Rattle.cube.specs.Size.{Size};
ghost use Rattle.cube.specs.Cube.{Place, IsCube, SameSize, IsDisjoint, holds, intersection, with_symbol as cube_with_symbol};
ghost use Rattle.cube.specs.Sum.{complete_sum};
ghost use Rattle.rows.specs.Cubes.{AreCubes};
ghost use Rattle.rows.specs.Parts.{has_symbols};
ghost use Rattle.rows.specs.Places.{places};
ghost use Rattle.rows.specs.Sizes.{HaveOneSize};

use crate::branch::combine_branches;
use crate::two_rows::{sum_of_opposites, sum_of_two_rows};
use cube::{Cube, Symbol};
use rows::has_symbol_at;
use std::alloc::{AllocError, Global};

// The complete sum of a row with `0` at input `i` and one with `1` there, as far as they exist.
#[inline(always)]
fn sum_of_some_opposites(
    alloc: Global,
    i: usize,
    zero: Option<Cube>,
    one: Option<Cube>,
) -> Result<Vec<Cube>, AllocError>
    requires size { (size : Size) × (i < size.inputs) × IfSome zero (IsCube size)
        × IfSome one (IsCube size) }
    requires zero { IfSome zero (λ c. slice_index_or c.symbols i Symbol.Dash ≡ Symbol.Zero) }
    requires one { IfSome one (λ c. slice_index_or c.symbols i Symbol.Dash ≡ Symbol.One) }
    ensures { IfOk result (λ sum. (size : Size) → IfSome zero (IsCube size)
        → IfSome one (IsCube size)
        → sum.items ≡ complete_sum size (places (option_to_list zero ++ option_to_list one))) }
{
    match (zero, one) {
        (Some(zero), Some(one)) => sum_of_opposites(alloc, i, &zero, &one),
        (Some(row), None) => Ok(vec![in alloc; row]?),
        (None, Some(row)) => Ok(vec![in alloc; row]?),
        (None, None) => Ok(Vec::new(alloc)),
    }
}

// Whether the row has these symbols at inputs `i` and `j`.
fn has_symbols_at(row: &Cube, i: usize, symbol: Symbol, j: usize, other: Symbol) -> bool
    requires i { i < length row.now.symbols }
    requires j { j < length row.now.symbols }
    ensures { result ≡ has_symbols i symbol j other row.now }
{
    has_symbol_at(row, i, symbol) && has_symbol_at(row, j, other)
}

// The meet of two rows without their literals at input `i`; `None` if it is empty.
#[inline(always)]
fn freed_meet(i: usize, row: &Cube, other: &Cube) -> Result<Option<Cube>, AllocError>
    requires { (size : Size) × (i < size.inputs) × IsCube size row.now × IsCube size other.now }
    ensures none { IfOk result (λ found. IsNone found
        ↔ IsDisjoint (holds (cube_with_symbol row.now i Symbol.Dash))
        (holds (cube_with_symbol other.now i Symbol.Dash))) }
    ensures size { IfOk result (λ found. IfSome found (λ c. SameSize c row.now)) }
    ensures places { IfOk result (λ found. IfSome found (λ c. (p : Place)
        → holds c p ≡ intersection (holds (cube_with_symbol row.now i Symbol.Dash))
        (holds (cube_with_symbol other.now i Symbol.Dash)) p)) }
{
    let freed = row.with_symbol(i, Symbol::Dash)?;
    let other = other.with_symbol(i, Symbol::Dash)?;
    freed.meet(&other)
}

// The complete sum of a row with `0` at input `j` and one with `1` there, without their literals
// at input `i`.
#[inline(always)]
fn sum_of_freed_opposites(
    alloc: Global,
    i: usize,
    j: usize,
    zero: &Cube,
    one: &Cube,
) -> Result<Vec<Cube>, AllocError>
    requires size { (size : Size) × (i < size.inputs) × (j < size.inputs) × IsCube size zero.now
        × IsCube size one.now }
    requires inputs { j ≢ i }
    requires low { slice_index_or zero.now.symbols j Symbol.Dash ≡ Symbol.Zero }
    requires high { slice_index_or one.now.symbols j Symbol.Dash ≡ Symbol.One }
    ensures { IfOk result (λ sum. (size : Size) → IsCube size zero.now → IsCube size one.now
        → sum.items ≡ complete_sum size (places (cube_with_symbol zero.now i Symbol.Dash
        ∷ cube_with_symbol one.now i Symbol.Dash ∷ []))) }
{
    let low = zero.with_symbol(i, Symbol::Dash)?;
    let high = one.with_symbol(i, Symbol::Dash)?;
    sum_of_opposites(alloc, j, &low, &high)
}

// The complete sum of the places that are in one of the low rows and in one of the high rows,
// without their literals at input `i`. The first of each has `0` at input `j`, the second `1`.
#[inline(always)]
fn sum_of_freed_meets(
    alloc: Global,
    i: usize,
    j: usize,
    low_zero: &Cube,
    low_one: &Cube,
    high_zero: &Cube,
    high_one: &Cube,
) -> Result<Vec<Cube>, AllocError>
    requires size { (size : Size) × (i < size.inputs) × (j < size.inputs) × IsCube size low_zero.now
        × IsCube size low_one.now × IsCube size high_zero.now × IsCube size high_one.now }
    requires inputs { j ≢ i }
    requires low_zero { slice_index_or low_zero.now.symbols j Symbol.Dash ≡ Symbol.Zero }
    requires low_one { slice_index_or low_one.now.symbols j Symbol.Dash ≡ Symbol.One }
    requires high_zero { slice_index_or high_zero.now.symbols j Symbol.Dash ≡ Symbol.Zero }
    requires high_one { slice_index_or high_one.now.symbols j Symbol.Dash ≡ Symbol.One }
    ensures { IfOk result (λ sum. (size : Size) → IsCube size low_zero.now → IsCube size low_one.now
        → IsCube size high_zero.now → IsCube size high_one.now → sum.items ≡ complete_sum size
        (intersection
        (places (cube_with_symbol low_zero.now i Symbol.Dash
        ∷ cube_with_symbol low_one.now i Symbol.Dash ∷ []))
        (places (cube_with_symbol high_zero.now i Symbol.Dash
        ∷ cube_with_symbol high_one.now i Symbol.Dash ∷ [])))) }
{
    let zero = freed_meet(i, low_zero, high_zero)?;
    let one = freed_meet(i, low_one, high_one)?;
    sum_of_some_opposites(alloc, j, zero, one)
}

// The complete sum of four rows: the low ones have `0` at input `i` and the high ones `1`; the
// first of each has `0` at input `j`, the second `1`.
fn sum_of_square(
    alloc: Global,
    i: usize,
    j: usize,
    low_zero: &Cube,
    low_one: &Cube,
    high_zero: &Cube,
    high_one: &Cube,
) -> Result<Vec<Cube>, AllocError>
    requires size { (size : Size) × (i < size.inputs) × (j < size.inputs)
        × AreCubes size (low_zero.now ∷ low_one.now ∷ high_zero.now ∷ high_one.now ∷ []) }
    requires inputs { j ≢ i }
    requires low_zero { has_symbols i Symbol.Zero j Symbol.Zero low_zero.now ≡ true }
    requires low_one { has_symbols i Symbol.Zero j Symbol.One low_one.now ≡ true }
    requires high_zero { has_symbols i Symbol.One j Symbol.Zero high_zero.now ≡ true }
    requires high_one { has_symbols i Symbol.One j Symbol.One high_one.now ≡ true }
    ensures { IfOk result (λ sum. (size : Size)
        → AreCubes size (low_zero.now ∷ low_one.now ∷ high_zero.now ∷ high_one.now ∷ [])
        → sum.items ≡ complete_sum size
        (places (low_zero.now ∷ low_one.now ∷ high_zero.now ∷ high_one.now ∷ []))) }
{
    let both = sum_of_freed_meets(alloc, i, j, low_zero, low_one, high_zero, high_one)?;
    let low = sum_of_freed_opposites(alloc, i, j, low_zero, low_one)?;
    let high = sum_of_freed_opposites(alloc, i, j, high_zero, high_one)?;
    combine_branches(alloc, i, both, low, high)
}

// The complete sum of the places of the rows, if they are four with the four pairs of literals at
// two inputs, in row order; else `None`. The two inputs are the first at which the first row is
// opposite to the fourth, and to the second.
fn sum_of_four_rows(alloc: Global, rows: &[Cube]) -> Result<Option<Vec<Cube>>, AllocError>
    requires { HaveOneSize rows.now }
    ensures { IfOk result (λ found. IfSome found (λ sum. (size : Size) → AreCubes size rows.now
        → sum.items ≡ complete_sum size (places rows.now))) }
{
    if rows.len() != 4 {
        return Ok(None);
    }
    let (first, second, third, fourth) = (&rows[0], &rows[1], &rows[2], &rows[3]);
    let Some(i) = first.next_opposite(fourth, 0) else {
        return Ok(None);
    };
    let Some(j) = first.next_opposite(second, 0) else {
        return Ok(None);
    };
    if has_symbols_at(first, i, Symbol::Zero, j, Symbol::Zero)
        && has_symbols_at(second, i, Symbol::Zero, j, Symbol::One)
        && has_symbols_at(third, i, Symbol::One, j, Symbol::Zero)
        && has_symbols_at(fourth, i, Symbol::One, j, Symbol::One)
    {
        let sum = sum_of_square(alloc, i, j, first, second, third, fourth)?;
        return Ok(Some(sum));
    }
    Ok(None)
}

/// The complete sum of the places of the rows, if they are two with opposite literals at an input,
/// or four with the four pairs of literals at two inputs, in row order.
#[inline(always)]
pub(crate) fn sum_of_few_rows(alloc: Global, rows: &[Cube]) -> Result<Option<Vec<Cube>>, AllocError>
    requires { HaveOneSize rows.now }
    ensures { IfOk result (λ found. IfSome found (λ sum. (size : Size) → AreCubes size rows.now
        → sum.items ≡ complete_sum size (places rows.now))) }
{
    if rows.len() == 4 {
        return sum_of_four_rows(alloc, rows);
    }
    sum_of_two_rows(alloc, rows)
}
