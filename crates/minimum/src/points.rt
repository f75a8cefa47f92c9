//! Tables of some wanted points.
//!
//! Each cover by primes has for each wanted point a prime that contains it, and a prime that contains
//! the points of another one and is as good serves in its place. So no cover is less than the least
//! cover of a table with a row for each of some points, and columns that dominate the primes that
//! contain one of them; and if that cover holds all wanted places, it is the least cover by primes.
//! There may be few such columns where the function has far too many primes to list, and where a
//! point has.
//!
//! Which points are picked is a hint, and each is looked at before it is taken. Here points are added with
//! their columns, and the table is made; `rounds` has the rounds, and `source` tells where columns come
//! from.

ghost use Rattle.std.specs.Prelude.{◌≡◌, ◌≢◌, true, IfOk, IfSome, OnOk, All, length, map};
ghost use Rattle.std.specs.List.{Contains, range_with_len};
ghost use Rattle.cube.specs.declared.symbol.Symbol.TheVariants.{Dash};
ghost use Rattle.cube.specs.Cube.{IsCube, SameSize, literals, Cube as Row, Place, holds};
ghost use Rattle.cube.specs.Limits.{IsWithinLimits, format_limits};
ghost use Rattle.covering.specs.Table.{AreRows, items_of};
ghost use Rattle.minimum.specs.Primes.{care_on};
ghost use Rattle.minimum.specs.PrimeRows.{HasOneOutput, with_output};
ghost use Rattle.minimum.specs.Points.{IsSource, IsOnePoint, function_by, holders, IsFound, lists_of, point_table as point_table_of};

pub(crate) mod picked_points;
pub(crate) mod proposals;
pub(crate) mod round_hints;
pub(crate) mod rounds;
pub(crate) mod source;

use crate::numbered_cubes::{numbers_by_output, numbers_containing};
use crate::points::picked_points::{PickedPoints, push_cube};
use crate::points::source::{Source, columns_for};
use crate::prime_table::weights;
use cover::Cover;
use covering::{Choice, Table, numbers};
use cube::{Cube, Shape, Symbol};
use growth::{are_apart, lies_in_one_of};
use signature_search::Place as ProposedPlace;
use std::alloc::{AllocError, Global};

/// The literals of the place's point.
fn literals_of(
    alloc: Global,
    inputs: usize,
    place: &ProposedPlace,
) -> Result<Vec<Symbol>, AllocError>
    ensures length { IfOk result (λ v. length v.items ≡ inputs) }
    ensures literals { IfOk result (λ v. All (λ s. s ≢ Dash) v.items) }
{
    let mut symbols = vec![in alloc; Symbol::Zero; inputs]?;
    for i in 0..inputs {
        if place.bit(i) {
            symbols[i] = Symbol::One;
        }
    }
    Ok(symbols)
}

/// The point with these literals under this output, or `None` if there is no such output.
pub(crate) fn point_with(
    alloc: Global,
    shape: Shape,
    symbols: &[Symbol],
    j: usize,
) -> Result<Option<Cube>, AllocError>
    requires length { length symbols.now ≡ shape.inputs }
    requires literals { All (λ s. s ≢ Dash) symbols.now }
    ensures cube { IfOk result (λ o. IfSome o (IsCube shape)) }
    ensures one { IfOk result (λ o. IfSome o HasOneOutput) }
    ensures point { IfOk result (λ o. IfSome o IsOnePoint) }
{
    if j >= shape.outputs() {
        return Ok(None);
    }
    let mut outputs = vec![in alloc; false; shape.outputs()]?;
    outputs[j] = true;
    Cube::from_symbols(alloc, shape, symbols, &outputs)
}

/// The place as a cube, or `None` if there is no such output.
fn point_of_place(
    alloc: Global,
    shape: Shape,
    place: &ProposedPlace,
) -> Result<Option<Cube>, AllocError>
    ensures cube { IfOk result (λ o. IfSome o (IsCube shape)) }
    ensures one { IfOk result (λ o. IfSome o HasOneOutput) }
    ensures point { IfOk result (λ o. IfSome o IsOnePoint) }
{
    let symbols = literals_of(alloc, shape.inputs(), place)?;
    point_with(alloc, shape, &symbols, place.output())
}

/// Whether the point is wanted: it lies in an ON cube, and in no DC cube.
pub(crate) fn is_wanted(on: &Cover, dc: &Cover, point: &Cube) -> bool
    requires dc { dc.now.size ≡ on.now.size }
    requires point { IsCube on.now.size point.now }
    ensures { result ≡ true → (p : Place) → holds point.now p ≡ true
        → care_on (lists_of on.now dc.now) p ≡ true }
{
    lies_in_one_of(point, on.as_slice()) && are_apart(dc.as_slice(), point)
}

/// Adds the proposed place, if it is wanted and its columns are found within the budget.
fn add_place(
    alloc: Global,
    on: &Cover,
    dc: &Cover,
    source: &Source,
    place: &ProposedPlace,
    choice: Choice,
    most: usize,
    found: &mut PickedPoints,
) -> Result<(), AllocError>
    requires dc { dc.now.size ≡ on.now.size }
    requires source { IsSource on.now.size source.now }
    requires found { IsFound choice (function_by (lists_of on.now dc.now) source.now) found.old }
    ensures { OnOk result (IsFound choice (function_by (lists_of on.now dc.now) source.now) found.new) }
{
    let Some(point) = point_of_place(alloc, on.shape(), place)? else {
        return Ok(());
    };
    if !is_wanted(on, dc, &point) {
        return Ok(());
    }
    let number = found.points.len();
    push_cube(&mut found.points, point)?;
    match columns_for(alloc, source, &found.points, number, choice, most)? {
        Some(row) => found.columns.append(&row)?,
        None => found.points.truncate(number),
    }
    Ok(())
}

/// Adds the proposed places that are wanted and whose columns are found within the budget.
fn add_places_within(
    alloc: Global,
    on: &Cover,
    dc: &Cover,
    source: &Source,
    places: &[ProposedPlace],
    choice: Choice,
    most: usize,
    found: &mut PickedPoints,
) -> Result<(), AllocError>
    requires dc { dc.now.size ≡ on.now.size }
    requires source { IsSource on.now.size source.now }
    requires found { IsFound choice (function_by (lists_of on.now dc.now) source.now) found.old }
    ensures { OnOk result (IsFound choice (function_by (lists_of on.now dc.now) source.now) found.new) }
{
    for place in places {
        add_place(alloc, on, dc, source, place, choice, most, found)?;
    }
    Ok(())
}

// At most this many looks, at points and at cubes outside, are taken for the columns of a place.
// Places that would take more are put off while others are added, and then may take the next number:
// a cover of the others may hold them already, and what takes few looks adds few columns.
const MOST_LOOKS: [usize; 4] = [200_000, 1_600_000, 200_000_000, 4_000_000_000];

// The same where no place is added yet: the more of the first ones are, the fewer rounds follow.
const MOST_LOOKS_AT_FIRST: [usize; 2] = [200_000_000, 4_000_000_000];

/// Adds some of the proposed places, with their columns: those that are wanted and whose columns
/// are found soon. `true` if one was added.
pub(crate) fn add_places(
    alloc: Global,
    on: &Cover,
    dc: &Cover,
    source: &Source,
    places: &[ProposedPlace],
    choice: Choice,
    found: &mut PickedPoints,
) -> Result<bool, AllocError>
    requires dc { dc.now.size ≡ on.now.size }
    requires source { IsSource on.now.size source.now }
    requires found { IsFound choice (function_by (lists_of on.now dc.now) source.now) found.old }
    ensures { OnOk result (IsFound choice (function_by (lists_of on.now dc.now) source.now) found.new) }
{
    let count = found.points.len();
    let looks = if count == 0 {
        MOST_LOOKS_AT_FIRST.as_slice()
    } else {
        MOST_LOOKS.as_slice()
    };
    for most in looks {
        add_places_within(alloc, on, dc, source, places, choice, *most, found)?;
        if found.points.len() > count {
            return Ok(true);
        }
    }
    Ok(false)
}

/// The numbers of the columns that contain the point: of those that have its output, which are
/// given by output.
fn holders_of(
    alloc: Global,
    columns: &Cover,
    point: &Cube,
    by_output: &[Vec<usize>],
) -> Result<Vec<usize>, AllocError>
    requires sizes { All (λ d. SameSize d point.now) columns.now.cubes }
    requires outputs { length point.now.outputs ≡ columns.now.size.outputs }
    requires by_output { items_of by_output.now ≡ map (with_output columns.now.cubes)
        (range_with_len 0 columns.now.size.outputs) }
    ensures { IfOk result (λ v. v.items ≡ holders columns.now.cubes point.now) }
{
    for j in 0..columns.shape().outputs() {
        if point.output(j) {
            return numbers_containing(alloc, columns.as_slice(), point, &by_output[j]);
        }
    }
    let all = numbers(alloc, columns.len())?;
    numbers_containing(alloc, columns.as_slice(), point, &all)
}

/// The table with a row for each point and a column for each prime.
pub(crate) fn point_table(
    alloc: Global,
    points: &[Cube],
    columns: &Cover,
) -> Result<Table, AllocError>
    requires sizes { (x : Row) → Contains points.now x
        → All (λ d. SameSize d x) columns.now.cubes }
    requires outputs { (x : Row) → Contains points.now x
        → length x.outputs ≡ columns.now.size.outputs }
    requires rows { AreRows (length (map literals columns.now.cubes))
        (map (holders columns.now.cubes) points.now) }
    requires limits { IsWithinLimits format_limits columns.now.size }
    ensures { IfOk result (λ t. t ≡ point_table_of points.now columns.now.cubes) }
{
    let by_output = numbers_by_output(alloc, columns)?;
    let mut rows = Vec::new(alloc);
    for point in points {
        rows.push(holders_of(alloc, columns, point, &by_output)?)?;
    }
    let weights = weights(alloc, columns)?;
    match Table::new(alloc, rows, weights)? {
        Some(table) => Ok(table),
        None => unreachable!(),
    }
}
