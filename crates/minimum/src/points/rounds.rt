//! The least cover by primes of picked points.
//!
//! Points are picked in rounds: a cover of the table so far is made, and points are added for what it
//! leaves out of the ON cubes. Where points are very many, and much is left out, or the least cover is
//! hard to find, a short cover near the last one serves.
//! The last table was seen to have one to seven times as many rows as the cover has primes, and one to
//! three columns a row. A round costs what the cover does, and a look at the ON cubes that are left
//! out.

ghost use Rattle.std.specs.Prelude.{◌≡◌, ◌||◌, [], IfOk, IfSome, OnOk, true};
ghost use Rattle.std.specs.List.{Contains};
ghost use Rattle.cube.specs.Cube.{Cube as Row, IsSubset};
ghost use Rattle.cube.specs.Limits.{IsWithinLimits, format_limits};
ghost use Rattle.cover.specs.Cubes.{AreCubes};
ghost use Rattle.cover.specs.Places.{places};
ghost use Rattle.pla.specs.Sets.{SetLists};
ghost use Rattle.minimum.specs.Points.{AreDominating, function_by, function_of, IsFound, IsLeastOfPoints, IsSource, StandsFor, lists_of};
ghost use Rattle.minimum.specs.Primes.{care_on, exact_of};

use crate::cubes::cubes_at;
use crate::points::picked_points::PickedPoints;
use crate::points::proposals::{first_places, places_left_out, proposer_of};
use crate::points::round_hints::{asks_for_least, numbers_among};
use crate::points::source::Source;
use crate::points::{add_places, point_table};
use cover::{Cover, in_row_order};
use covering::{Choice, Effort, least_cover_with_effort, short_cover};
use cube::Cube;
use growth::add_copy;
use signature_search::Proposer;
use std::alloc::{AllocError, Global};

/// A cover of the table of the points by these columns, in row order: the least, after which `effort`
/// is what was done to find it, or only a short one near the last, which is found sooner.
pub(crate) fn cover_of_points(
    alloc: Global,
    points: &[Cube],
    columns: &Cover,
    choice: Choice,
    is_least: bool,
    last: &Cover,
    effort: &mut Effort,
) -> Result<Cover, AllocError>
    ghost sets: { SetLists }
    requires on { AreCubes sets.size sets.on }
    requires dominating { AreDominating choice (function_of sets) points.now columns.now.cubes }
    requires size { columns.now.size ≡ sets.size }
    requires limits { IsWithinLimits format_limits sets.size }
    ensures size { IfOk result (λ list. list.size ≡ sets.size) }
    ensures least { IfOk result (λ list. is_least ≡ true
        → IsLeastOfPoints choice (function_of sets) [] points.now list.cubes) }
    ensures columns { IfOk result (λ list. (c : Row) → Contains list.cubes c → Contains columns.now.cubes c) }
{
    let columns = in_row_order(columns)?;
    let table = point_table(alloc, points, &columns)?;
    let numbers = if is_least {
        *effort = Effort::none();
        least_cover_with_effort(&table, choice, effort)?
    } else {
        let near = numbers_among(alloc, &columns, last)?;
        short_cover(&table, &near)?
    };
    cubes_at(alloc, &columns, &numbers)
}

/// The ON cubes of which the list and the DC list leave out a place.
fn cubes_left_out(alloc: Global, on: &Cover, dc: &Cover, list: &Cover) -> Result<Cover, AllocError>
    requires dc { dc.now.size ≡ on.now.size }
    requires list { list.now.size ≡ on.now.size }
    ensures { IfOk result (λ left. left.cubes ≡ []
        → IsSubset (care_on (lists_of on.now dc.now)) (places list.now.cubes)) }
{
    let mut held = list.try_clone()?;
    held.append(dc)?;
    let cubes = on.as_slice();
    let are_held = held.holds_cubes(cubes)?;
    let mut left = Cover::new(alloc, list.shape());
    for k in 0..cubes.len() {
        if !are_held[k] {
            add_copy(&mut left, &cubes[k])?;
        }
    }
    Ok(left)
}

/// Points to begin with, and their columns: of the places that are proposed first.
fn first_points(
    alloc: Global,
    on: &Cover,
    dc: &Cover,
    source: &Source,
    proposer: &Proposer,
    choice: Choice,
) -> Result<PickedPoints, AllocError>
    requires dc { dc.now.size ≡ on.now.size }
    requires source { IsSource on.now.size source.now }
    ensures { IfOk result (IsFound choice (function_by (lists_of on.now dc.now) source.now)) }
{
    let mut found = PickedPoints::new(alloc, on.shape());
    let places = first_places(alloc, proposer, on)?;
    add_places(alloc, on, dc, source, &places, choice, &mut found)?;
    Ok(found)
}

/// Adds points that the list leaves out of the ON cubes `left`, and their columns. `true` if one was
/// added.
fn add_points_left_out(
    alloc: Global,
    on: &Cover,
    dc: &Cover,
    source: &Source,
    proposer: &Proposer,
    left: &Cover,
    list: &Cover,
    choice: Choice,
    found: &mut PickedPoints,
) -> Result<bool, AllocError>
    requires dc { dc.now.size ≡ on.now.size }
    requires source { IsSource on.now.size source.now }
    requires found { IsFound choice (function_by (lists_of on.now dc.now) source.now) found.old }
    ensures { OnOk result (IsFound choice (function_by (lists_of on.now dc.now) source.now) found.new) }
{
    let places = places_left_out(alloc, proposer, left, list)?;
    add_places(alloc, on, dc, source, &places, choice, found)
}

// At most this many rounds are made.
const MOST_ROUNDS: usize = 500;

/// The least cover by the primes of points, which are picked in rounds: where a cover of their table
/// leaves out a place, points are added for what it leaves out. `None` where the points that are
/// proposed are not enough, or have too many primes, or the rounds are too many. With `sampled` all
/// that lies in neither the ON cubes nor the cubes outside is a don't-care.
pub(crate) fn exact_by_points(
    alloc: Global,
    on: &Cover,
    dc: &Cover,
    source: &Source,
    sampled: bool,
    choice: Choice,
) -> Result<Option<Cover>, AllocError>
    ghost sets: { SetLists }
    requires dc { dc.now.size ≡ on.now.size }
    requires source { IsSource on.now.size source.now }
    requires same { StandsFor sets (lists_of on.now dc.now) source.now }
    ensures { IfOk result (λ o. IfSome o (λ list. list ≡ record
        { size = on.now.size; cubes = exact_of choice sets })) }
{
    let proposer = proposer_of(alloc, on, dc, source, sampled)?;
    let mut found = first_points(alloc, on, dc, source, &proposer, choice)?;
    let mut is_least = true;
    let mut last = Cover::new(alloc, on.shape());
    let mut effort = Effort::none();
    for _ in 0..MOST_ROUNDS {
        let (points, columns) = (&found.points, &found.columns);
        let list = cover_of_points(alloc, points, columns, choice, is_least, &last, &mut effort)?;
        let left = cubes_left_out(alloc, on, dc, &list)?;
        if left.is_empty() && is_least {
            return Ok(Some(list));
        }
        is_least = asks_for_least(&left, &found.points, effort.tables);
        last = list;
        if left.is_empty() {
            continue;
        }
        let is_added = add_points_left_out(
            alloc, on, dc, source, &proposer, &left, &last, choice, &mut found,
        )?;
        if !is_added {
            return Ok(None);
        }
    }
    Ok(None)
}
