//! Cubes of a list by their numbers, and what they do to a region: have a place of it, hold it, or
//! have a literal inside it.

ghost use Rattle.std.specs.Prelude.{◌≡◌, ◌<◌, ℕ, true, IfOk, MatchOption, All, length, map, filter};
ghost use Rattle.std.specs.List.{list_any, range_with_len};
ghost use Rattle.cube.specs.Cube.{SameSize};
ghost use Rattle.cover.specs.Marks.{cube_at};
ghost use Rattle.covering.specs.Table.{has, items_of};
ghost use Rattle.minimum.specs.PrimeRows.{intersects_region, contains_region, has_output, with_output, HasNoneInside, IsFree};

use cover::Cover;
use covering::numbers;
use cube::{Cube, Symbol};
use std::alloc::{AllocError, Global};

/// Whether the cube has a place of the region.
fn intersects_region(cubes: &[Cube], region: &Cube, number: usize) -> bool
    requires size { All (λ d. SameSize d region.now) cubes.now }
    requires below { number < length cubes.now }
    ensures { result ≡ intersects_region cubes.now region.now number }
{
    !cubes[number].disjoint(region)
}

/// Whether the cube holds the region.
pub(crate) fn contains_region(cubes: &[Cube], region: &Cube, number: usize) -> bool
    requires size { All (λ d. SameSize d region.now) cubes.now }
    requires below { number < length cubes.now }
    ensures { result ≡ contains_region cubes.now region.now number }
{
    cubes[number].contains(region)
}

/// Those of these numbers whose cubes have a place of the region, in their order.
pub(crate) fn numbers_intersecting(
    alloc: Global,
    cubes: &[Cube],
    region: &Cube,
    numbers: &[usize],
) -> Result<Vec<usize>, AllocError>
    requires size { All (λ d. SameSize d region.now) cubes.now }
    requires below { All (λ i. i < length cubes.now) numbers.now }
    ensures { IfOk result (λ v. v.items ≡ filter (intersects_region cubes.now region.now) numbers.now) }
{
    let mut kept = Vec::new(alloc);
    for number in numbers {
        if intersects_region(cubes, region, *number) {
            kept.push(*number)?;
        }
    }
    Ok(kept)
}

/// Those of these numbers whose cubes hold the region, in their order.
pub(crate) fn numbers_containing(
    alloc: Global,
    cubes: &[Cube],
    region: &Cube,
    numbers: &[usize],
) -> Result<Vec<usize>, AllocError>
    requires size { All (λ d. SameSize d region.now) cubes.now }
    requires below { All (λ i. i < length cubes.now) numbers.now }
    ensures { IfOk result (λ v. v.items ≡ filter (contains_region cubes.now region.now) numbers.now) }
{
    let mut kept = Vec::new(alloc);
    for number in numbers {
        if contains_region(cubes, region, *number) {
            kept.push(*number)?;
        }
    }
    Ok(kept)
}

/// Whether the cube has the output.
fn has_output(list: &Cover, j: usize, number: usize) -> bool
    requires output { j < list.now.size.outputs }
    requires below { number < length list.now.cubes }
    ensures { result ≡ has_output list.now.cubes j number }
{
    list.as_slice()[number].output(j)
}

/// Those of these numbers whose cubes have the output, in their order.
fn numbers_with_output(
    alloc: Global,
    list: &Cover,
    j: usize,
    numbers: &[usize],
) -> Result<Vec<usize>, AllocError>
    requires output { j < list.now.size.outputs }
    requires below { All (λ i. i < length list.now.cubes) numbers.now }
    ensures { IfOk result (λ v. v.items ≡ filter (has_output list.now.cubes j) numbers.now) }
{
    let mut kept = Vec::new(alloc);
    for number in numbers {
        if has_output(list, j, *number) {
            kept.push(*number)?;
        }
    }
    Ok(kept)
}

/// For each output the numbers of the cubes that have it.
pub(crate) fn numbers_by_output(alloc: Global, list: &Cover) -> Result<Vec<Vec<usize>>, AllocError>
    ensures { IfOk result (λ v. items_of v.items ≡ map (with_output list.now.cubes)
        (range_with_len 0 list.now.size.outputs)) }
{
    let all = numbers(alloc, list.len())?;
    let mut lists = Vec::new(alloc);
    for j in 0..list.shape().outputs() {
        lists.push(numbers_with_output(alloc, list, j, &all)?)?;
    }
    Ok(lists)
}

/// Whether one of the cubes with these numbers holds the region.
pub(crate) fn any_contains(cubes: &[Cube], region: &Cube, numbers: &[usize]) -> bool
    requires size { All (λ d. SameSize d region.now) cubes.now }
    requires below { All (λ i. i < length cubes.now) numbers.now }
    ensures { result ≡ list_any (contains_region cubes.now region.now) numbers.now }
{
    for number in numbers {
        if contains_region(cubes, region, *number) {
            return true;
        }
    }
    false
}

/// The first input at which the region has a dash and the cube a literal; `None` if there is none.
pub(crate) fn literal_inside(cube: &Cube, region: &Cube) -> Option<usize>
    requires { SameSize cube.now region.now }
    ensures { MatchOption result (HasNoneInside cube.now region.now) (IsFree region.now) }
{
    let inputs = region.shape().inputs();
    let mut from = 0;
    while from < inputs {
        let Some(i) = cube.next_literal(from) else {
            return None;
        };
        if region.symbol(i) == Symbol::Dash {
            return Some(i);
        }
        from = i + 1;
    }
    None
}

/// An input at which the region has a dash and a cube with one of these numbers a literal: the
/// first such input of the first such cube. `None` if there is none.
pub(crate) fn first_inside(cubes: &[Cube], region: &Cube, numbers: &[usize]) -> Option<usize>
    requires size { All (λ d. SameSize d region.now) cubes.now }
    requires below { All (λ i. i < length cubes.now) numbers.now }
    ensures { MatchOption result ((n : ℕ) → has n numbers.now ≡ true
        → HasNoneInside (cube_at cubes.now n) region.now) (IsFree region.now) }
{
    for number in numbers {
        if let Some(i) = literal_inside(&cubes[*number], region) {
            return Some(i);
        }
    }
    None
}
