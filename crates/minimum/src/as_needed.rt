//! The least cover by primes, by places outside as they are needed.
//!
//! Where rows are wide and many, or where many functions are joined in one output, the places outside
//! ON and DC take too many cubes to make, and there are too many primes to list. Neither is needed.
//! A point of what a cover leaves out asks for a column that contains it, and the columns of some
//! points are mostly enough: if the least cover of their table holds all wanted places, it is the
//! least cover by primes (the law `points_are_enough`).
//!
//! First come the essential primes, which each cover has. If they and the DC cubes hold all ON cubes,
//! they are the answer. Else points are picked of what they leave out, in rounds. The columns of a
//! point avoid the places outside that are known so far. A column that is no implicant shows a place
//! outside that is not known, and the cube that this is grown to is known from then on. The columns
//! are made anew until all are implicants: then they are primes, and no other point changes them.
//! A wanted place that the cover of the table leaves out is the next point: one that few primes contain,
//! as far as the known places outside show it (`narrowing`). A place of the middle of many rows lies in
//! more primes than can be made, and its row of the table says little.
//!
//! A point costs its columns, and a question for each of them, two to ten times. To pick it costs a look
//! at each ON cube, and up to 400 looks at the known cubes outside and questions to the cover and the DC
//! cubes, mostly some twenty. A round costs a cover of the table, and a question for each ON cube. Seen
//! were five to fifty cubes with places outside for a point.

ghost use Rattle.std.specs.Prelude.{◌≡◌, ◌≢◌, ◌<◌, ◌++◌, true, [], IfOk, IfSome, OnOk, All, length};
ghost use Rattle.std.specs.List.{Contains};
ghost use Rattle.cube.specs.declared.symbol.Symbol.TheVariants.{Dash};
ghost use Rattle.cube.specs.Cube.{Cube as Row, HasSize, IsCube, IsSubset, size_of};
ghost use Rattle.cube.specs.Limits.{IsWithinLimits, format_limits};
ghost use Rattle.cover.specs.Cubes.{AreCubes};
ghost use Rattle.cover.specs.Marks.{cube_at};
ghost use Rattle.cover.specs.Places.{places};
ghost use Rattle.pla.specs.Sets.{SetLists};
ghost use Rattle.minimum.specs.Primes.{care_on, essential_of, exact_of, primes_of};
ghost use Rattle.minimum.specs.PrimeRows.{HasOneOutput};
ghost use Rattle.minimum.specs.Points.{AreColumnsOf, IsOnePoint};
ghost use Rattle.minimum.specs.AsNeeded.{inside_of, primes_inside, AreOutside, IsKnown};

use crate::as_needed::narrowing::Narrowing;
use crate::as_needed::places_outside::{add_refusals, add_refusals_of_growth, parts_not_held};
use crate::essential_by_neighbours::find_essential;
use crate::points::picked_points::{PickedPoints, push_cube};
use crate::points::rounds::cover_of_points;
use crate::points::{is_wanted, point_with};
use crate::prime_implicants::on_and_dc;
use crate::way_hints::most_looks_before_primes;
use cover::{Cover, in_row_order};
use covering::{Choice, Effort};
use cube::{Cube, Shape, Symbol};
use growth::{RowsByOutput, are_apart, columns_of_point, outputs_at};
use pla::Sets;
use std::alloc::{AllocError, Global};

mod narrowing;
mod places_outside;

/// What the rounds know.
struct Known {
    /// Cubes none of whose places is in ON or DC.
    outside: Cover,
    /// Wanted points that lie in no essential prime, with their columns.
    found: PickedPoints,
    /// How many looks at a cube or a point are left for columns.
    looks: usize,
}

// Written out, so that where it ends a proof has one call, and no case for each list.
impl Drop for Known {
    fn drop(self) {
        let Known {
            outside: _,
            found: _,
            looks: _,
        } = self;
    }
}

impl Known {
    /// Nothing.
    fn new(alloc: Global, shape: Shape, looks: usize) -> Known
        ensures outside { result.outside ≡ record { size = shape; cubes = [] } }
        ensures points { result.found.points.items ≡ [] }
        ensures size { result.found.columns.size ≡ shape }
        ensures columns { result.found.columns.cubes ≡ [] }
    {
        Known {
            outside: Cover::new(alloc, shape),
            found: PickedPoints::new(alloc, shape),
            looks,
        }
    }
}

/// The literals of a point of the cube: inputs where it has none are 0.
fn literals_in(alloc: Global, cube: &Cube) -> Result<Vec<Symbol>, AllocError>
    ensures length { IfOk result (λ v. length v.items ≡ length cube.now.symbols) }
    ensures literals { IfOk result (λ v. All (λ s. s ≢ Dash) v.items) }
{
    let inputs = cube.shape().inputs();
    let mut symbols = vec![in alloc; Symbol::Zero; inputs]?;
    for i in 0..inputs {
        if cube.symbol(i) == Symbol::One {
            symbols[i] = Symbol::One;
        }
    }
    Ok(symbols)
}

/// A point of the cube, under its first output; `None` if it has no output. It is taken where few
/// other outputs can be added: the cube is narrowed to rows outside that add outputs to it.
fn point_in(alloc: Global, outside: &Cover, cube: &Cube) -> Result<Option<Cube>, AllocError>
    requires { HasSize cube.now outside.now.size }
    ensures cube { IfOk result (λ o. IfSome o (IsCube (size_of cube.now))) }
    ensures one { IfOk result (λ o. IfSome o HasOneOutput) }
    ensures point { IfOk result (λ o. IfSome o IsOnePoint) }
{
    let shape = cube.shape();
    let narrow = outputs_at(outside, cube.try_clone()?)?;
    let symbols = literals_in(alloc, &narrow)?;
    for j in 0..shape.outputs() {
        if cube.output(j) {
            return point_with(alloc, shape, &symbols, j);
        }
    }
    Ok(None)
}

// At most this many times the columns of a point are made.
const MOST_TIMES: usize = 2_000;

/// Primes, in row order, that dominate all that contain the point with this number: columns that
/// avoid `outside`, made anew until all are implicants; what they show to be outside is added
/// there. `None` where they take more looks than are left, or are made too often; then no look is
/// left.
fn primes_of_point(
    alloc: Global,
    all: &RowsByOutput,
    points: &[Cube],
    number: usize,
    choice: Choice,
    outside: &mut Cover,
    looks: &mut usize,
) -> Result<Option<Cover>, AllocError>
    requires points { AreCubes all.now.size points.now }
    requires number { number < length points.now }
    requires outside { AreOutside all.now outside.old }
    ensures outside { OnOk result (AreOutside all.now outside.new) }
    ensures size { IfOk result (λ o. IfSome o (λ row. row.size ≡ all.now.size)) }
    ensures columns { IfOk result (λ o. IfSome o (λ row. AreColumnsOf choice
        (primes_inside all.now) points.now (cube_at points.now number) row.cubes)) }
{
    for _ in 0..MOST_TIMES {
        let Some(columns) = columns_of_point(alloc, outside, points, number, choice, *looks)? else {
            break;
        };
        let of_a_column = outside.len().saturating_add(points.len());
        *looks = looks.saturating_sub(columns.len().saturating_mul(of_a_column));
        let row = in_row_order(&columns)?;
        let refused = parts_not_held(alloc, all.list(), row.as_slice())?;
        if refused.is_empty() {
            return Ok(Some(row));
        }
        add_refusals(alloc, all, &refused, outside)?;
    }
    *looks = 0;
    Ok(None)
}

/// Adds a point of the part, with its columns, if it is wanted, lies in no essential prime, and its
/// columns are found. Looks are spent, and cubes outside are added, even if it is not.
fn add_point_in(
    alloc: Global,
    sets: &Sets,
    all: &RowsByOutput,
    essential: &Cover,
    part: &Cube,
    choice: Choice,
    known: &mut Known,
) -> Result<(), AllocError>
    requires all { all.now ≡ inside_of sets.now }
    requires essential { essential.now.size ≡ sets.now.size }
    requires part { IsCube sets.now.size part.now }
    requires known { IsKnown choice sets.now essential.now.cubes known.old }
    ensures { OnOk result (IsKnown choice sets.now essential.now.cubes known.new) }
{
    let Some(point) = point_in(alloc, &known.outside, part)? else {
        return Ok(());
    };
    if !is_wanted(sets.on(), sets.dc(), &point) {
        return Ok(());
    }
    if !are_apart(essential.as_slice(), &point) {
        return Ok(());
    }
    add_refusals_of_growth(alloc, all, &point, &mut known.outside)?;
    let number = known.found.points.len();
    push_cube(&mut known.found.points, point)?;
    let points = &known.found.points;
    let (outside, looks) = (&mut known.outside, &mut known.looks);
    match primes_of_point(alloc, all, points, number, choice, outside, looks)? {
        Some(row) => known.found.columns.append(&row)?,
        None => known.found.points.truncate(number),
    }
    Ok(())
}

// At most so many steps are tried to narrow the row of a point.
const MOST_STEPS: usize = 400;

// After so many steps in a row that leave nothing no other is tried.
const MOST_REFUSED: usize = 60;

/// The part that the list leaves out of the row after the last step that leaves one; each step narrows
/// the row, the first that contains the given part, towards a place outside. That part itself if there
/// is no such step.
fn part_of_few_primes(
    alloc: Global,
    rows: &Cover,
    list: &Cover,
    outside: &Cover,
    part: &Cube,
) -> Result<Cube, AllocError>
    requires { IsCube list.now.size part.now }
    ensures { IfOk result (IsCube list.now.size) }
{
    let outside = outside.as_slice();
    let mut narrowing = Narrowing::new(alloc, rows.as_slice(), outside, part)?;
    let mut found = part.try_clone()?;
    let mut refused: usize = 0;
    for _ in 0..MOST_STEPS {
        let Some(step) = narrowing.next_step(outside)? else {
            break;
        };
        if refused >= MOST_REFUSED || step.narrow.shape() != list.shape() {
            break;
        }
        refused = refused.saturating_add(1);
        if let Some(part) = list.part_left_out(&step.narrow)? {
            narrowing.take(alloc, outside, step)?;
            found = part;
            refused = 0;
        }
    }
    Ok(found)
}

/// Adds a point for each of these parts, with its columns, where one is wanted, lies in no essential
/// prime, and its columns are found: of a part that the cover and the DC cubes leave out of the first ON
/// cube that contains it. `true` if some point was added.
fn add_points(
    alloc: Global,
    sets: &Sets,
    all: &RowsByOutput,
    essential: &Cover,
    cover: &Cover,
    parts: &[Cube],
    choice: Choice,
    known: &mut Known,
) -> Result<bool, AllocError>
    requires all { all.now ≡ inside_of sets.now }
    requires essential { essential.now.size ≡ sets.now.size }
    requires cover { cover.now.size ≡ sets.now.size }
    requires parts { (c : Row) → Contains parts.now c → IsCube sets.now.size c }
    requires known { IsKnown choice sets.now essential.now.cubes known.old }
    ensures { OnOk result (IsKnown choice sets.now essential.now.cubes known.new) }
{
    let count = known.found.points.len();
    let held = cubes_of_both(cover, sets.dc())?;
    for part in parts {
        let part = part_of_few_primes(alloc, sets.on(), &held, &known.outside, part)?;
        add_point_in(alloc, sets, all, essential, &part, choice, known)?;
    }
    Ok(known.found.points.len() > count)
}

/// What the list and the DC cubes leave out: a part of each ON cube that they do not hold. Empty if
/// the list holds all wanted places.
fn wanted_left_out(alloc: Global, sets: &Sets, list: &Cover) -> Result<Vec<Cube>, AllocError>
    requires { list.now.size ≡ sets.now.size }
    ensures held { IfOk result (λ parts. parts.items ≡ []
        → IsSubset (care_on sets.now) (places list.now.cubes)) }
    ensures cubes { IfOk result (λ parts. (c : Row) → Contains parts.items c
        → IsCube sets.now.size c) }
{
    let mut held = list.try_clone()?;
    held.append(sets.dc())?;
    parts_not_held(alloc, &held, sets.on().as_slice())
}

/// The cubes of the one list and then those of the other.
fn cubes_of_both(one: &Cover, other: &Cover) -> Result<Cover, AllocError>
    requires { other.now.size ≡ one.now.size }
    ensures { IfOk result (λ both. both ≡ record {
      size = one.now.size;
      cubes = one.now.cubes ++ other.now.cubes;
    }) }
{
    let mut both = one.try_clone()?;
    both.append(other)?;
    Ok(both)
}

// At most this many rounds are made.
const MOST_ROUNDS: usize = 2_000;

// At most this many words are looked at for the columns of all rounds: some tens of seconds.
const MOST_WORDS: usize = 4_000_000_000;

/// How many looks at a cube or a point may be taken for the columns of all rounds.
fn most_looks(shape: Shape) -> usize
    ensures { IsWithinLimits format_limits shape }
{
    MOST_WORDS / (shape.inputs() / 32 + 1)
}

/// The least cover by primes, in row order: the essential primes with the least cover of points,
/// which are picked in rounds where these leave some out. `None` where that is too much.
fn exact_beside(
    alloc: Global,
    sets: &Sets,
    all: &RowsByOutput,
    essential: &Cover,
    choice: Choice,
) -> Result<Option<Cover>, AllocError>
    ghost lists: { SetLists }
    requires lists { sets.now ≡ lists }
    requires all { all.now ≡ inside_of lists }
    requires essential { essential.now ≡ record
        { size = lists.size; cubes = essential_of lists (primes_of lists) } }
    ensures { IfOk result (λ o. IfSome o (λ list. list ≡ record
        { size = lists.size; cubes = exact_of choice lists })) }
{
    let shape = all.shape();
    let looks = most_looks(shape);
    let looks = looks.min(most_looks_before_primes(sets.on()));
    let mut known = Known::new(alloc, shape, looks);
    let mut is_least = true;
    let mut last = Cover::new(alloc, shape);
    let mut effort = Effort::none();
    for _ in 0..MOST_ROUNDS {
        let (points, columns) = (&known.found.points, &known.found.columns);
        let chosen = cover_of_points(alloc, points, columns, choice, is_least, &last, &mut effort)?;
        let cover = cubes_of_both(essential, &chosen)?;
        let parts = wanted_left_out(alloc, sets, &cover)?;
        if parts.is_empty() && is_least {
            return Ok(Some(in_row_order(&cover)?));
        }
        last = chosen;
        is_least = parts.is_empty();
        if is_least {
            continue;
        }
        if !add_points(
            alloc, sets, all, essential, &cover, &parts, choice, &mut known,
        )? {
            return Ok(None);
        }
    }
    Ok(None)
}

/// The least cover by primes, or none where that is too much.
///
/// It costs what [`find_essential`] does, and then rounds whose number has no small bound: each adds
/// points that are left out.
pub(crate) fn exact_as_needed(
    alloc: Global,
    sets: &Sets,
    choice: Choice,
) -> Result<Option<Cover>, AllocError>
    ensures { IfOk result (λ o. IfSome o (λ list. list ≡ record
        { size = sets.now.size; cubes = exact_of choice sets.now })) }
{
    let list = on_and_dc(sets)?;
    let all = RowsByOutput::new(alloc, &list)?;
    let essential = find_essential(alloc, sets)?;
    exact_beside(alloc, sets, &all, &essential, choice)
}
