//! Columns that dominate all cubes that contain some points and meet no cube of a list.
//!
//! Where much is a don't-care, a point lies in far too many primes to list. Yet a column does for
//! each set of points that a prime contains: of two primes the one that contains the points of the
//! other, and is as good, serves in its place in each cover. So from a cube, at first a point, the
//! best prime that contains it is made; and then the same from the join with each point that this
//! prime does not contain, where that meets no cube of the list, and no point whose primes were made
//! before is in it. The cubes that contain the cube, and none of these points, contain no more points
//! than the best prime, or the join with one more.
//!
//! A join with one point more asks for more: a point that a cube can not be joined with is none for
//! the cubes made from it. So each hands the points on that are left.

ghost use Rattle.std.specs.Prelude.{◌≡◌, ◌<◌, ◌≤◌, true, [], IfOk, IfSome, OnOk, All, length};
ghost use Rattle.std.specs.List.{Contains};
ghost use Rattle.cube.specs.Cube.{IsCube, IsSubset, Cube as Row, holds};
ghost use Rattle.cover.specs.Cubes.{AreCubes};
ghost use Rattle.cover.specs.Marks.{cube_at};
ghost use Rattle.growth.specs.Dominating.{IsDominated, primes_outside, IsImplicant, IsBest, AddsColumns, AreCandidates, AreServed};

use crate::columns::best_cube::best_cube;
use crate::columns::open_points::{holds_one_of, sort_points};
use crate::columns::refusing_rows::RefusingRows;
use crate::columns::rows_around::rows_around;
use crate::cubes::add_copy;
use cover::{Cover, cubes_containing};
use covering::{Choice, numbers};
use cube::Cube;
use std::alloc::{AllocError, Global};

mod best_cube;
mod blocking_matrix;
mod conflicts;
mod fewest_literals;
mod literal_search;
mod open_points;
mod refusing_rows;
mod rows_around;
mod words;

/// Columns that were made, how much more may be looked at, and what is remembered.
#[derive(Drop)]
pub(crate) struct Columns {
    /// Primes; some may stand twice.
    pub(crate) primes: Cover,
    /// How many more cubes may be looked at.
    pub(crate) left: usize,
    /// Rows that refuse steps of growth.
    pub(crate) rows: RefusingRows,
    /// For each point the row that refused to join it last, 0 at first: a hint.
    pub(crate) refusing: Vec<usize>,
}

impl Columns {
    /// No column of this point yet, and so many looks are left; `points` is how many points there
    /// are.
    pub(crate) fn new(
        alloc: Global,
        off: &Cover,
        points: usize,
        point: &Cube,
        most: usize,
    ) -> Result<Columns, AllocError>
        ensures size { IfOk result (λ f. f.primes.size ≡ off.now.size) }
        ensures none { IfOk result (λ f. f.primes.cubes ≡ []) }
        ensures refusing { IfOk result (λ f. length f.refusing.items ≡ points) }
    {
        Ok(Columns {
            primes: Cover::new(alloc, off.shape()),
            left: most,
            rows: RefusingRows::new(alloc, off, point, most)?,
            refusing: vec![in alloc; 0; points]?,
        })
    }

    /// Takes so many looks and one more from those that are left; `false`, and none is left, if
    /// there were not as many.
    pub(crate) fn spend(&mut self, looks: usize) -> bool
        ensures primes { self.new.primes ≡ self.old.primes }
        ensures refusing { self.new.refusing ≡ self.old.refusing }
        ensures left { self.new.left ≤ self.old.left }
        ensures spent { result ≡ true → self.new.left < self.old.left }
    {
        if self.left <= looks {
            self.left = 0;
            return false;
        }
        self.left -= looks;
        self.left -= 1;
        true
    }
}

/// Adds the best cube that contains the cube, and answers it; `None`, and none is added, if the
/// cube meets one of the list, or the search for the best took too long.
fn add_best(
    alloc: Global,
    off: &Cover,
    cube: &Cube,
    choice: Choice,
    found: &mut Columns,
) -> Result<Option<Cube>, AllocError>
    requires cube { IsCube off.now.size cube.now }
    requires size { found.old.primes.size ≡ off.now.size }
    ensures adds { OnOk result (AddsColumns off.now found.old.primes.cubes found.new.primes.cubes) }
    ensures size { OnOk result (found.new.primes.size ≡ off.now.size) }
    ensures left { OnOk result (found.new.left ≡ found.old.left) }
    ensures refusing { OnOk result (found.new.refusing ≡ found.old.refusing) }
    ensures best { IfOk result (λ o. IfSome o (IsBest choice off.now cube.now)) }
    ensures member { IfOk result (λ o. IfSome o (Contains found.new.primes.cubes)) }
{
    let Some(best) = best_cube(alloc, off, cube, choice, &mut found.rows)? else {
        return Ok(None);
    };
    add_copy(&mut found.primes, &best)?;
    Ok(Some(best))
}

/// Adds columns that dominate all cubes that contain the cube and none of the excluded points, and
/// of the others only some of the candidates. Whether that is done: the budget may be spent.
fn add_around(
    alloc: Global,
    off: &Cover,
    points: &[Cube],
    excluded: &[usize],
    candidates: &[usize],
    cube: &Cube,
    choice: Choice,
    found: &mut Columns,
) -> Result<bool, AllocError>
    requires points { AreCubes off.now.size points.now }
    requires excluded { All (λ k. k < length points.now) excluded.now }
    requires below { All (λ k. k < length points.now) candidates.now }
    requires candidates { AreCandidates off.now points.now excluded.now candidates.now cube.now }
    requires cube { IsCube off.now.size cube.now }
    requires size { found.old.primes.size ≡ off.now.size }
    requires refusing { length found.old.refusing.items ≡ length points.now }
    ensures adds { OnOk result (AddsColumns off.now found.old.primes.cubes found.new.primes.cubes) }
    ensures size { OnOk result (found.new.primes.size ≡ off.now.size) }
    ensures refusing { OnOk result (length found.new.refusing.items ≡ length points.now) }
    ensures left { OnOk result (found.new.left ≤ found.old.left) }
    ensures served { IfOk result (λ b. b ≡ true
        → AreServed choice off.now points.now excluded.now cube.now found.new.primes.cubes) }
{
    let looks = candidates.len().saturating_add(excluded.len());
    if !found.spend(looks.saturating_add(off.len())) {
        return Ok(false);
    }
    if holds_one_of(points, excluded, cube) {
        return Ok(true);
    }
    let Some(best) = add_best(alloc, off, cube, choice, found)? else {
        return Ok(false);
    };
    let matrix = &found.rows.matrix;
    let refusing = &mut found.refusing;
    let order = sort_points(
        alloc, off, points, excluded, candidates, cube, &best, matrix, refusing,
    )?;
    for at in excluded.len()..order.held {
        let wide = cube.join(&points[order.numbers[at]])?;
        let before = &order.numbers[..at];
        let after = &order.numbers[at + 1..];
        if !add_around(alloc, off, points, before, after, &wide, choice, found)? {
            return Ok(false);
        }
    }
    Ok(true)
}

/// Columns that dominate all cubes that meet no cube of the list and contain the point with this
/// number, whichever of the others they contain; `None` where more than so many cubes of the list and
/// points would be looked at.
///
/// Each column costs a look at all cubes of the list, and for each point that may be joined with
/// what it was grown from another one.
fn columns_by_rows(
    alloc: Global,
    off: &Cover,
    points: &[Cube],
    number: usize,
    choice: Choice,
    most: usize,
) -> Result<Option<Cover>, AllocError>
    requires points { AreCubes off.now.size points.now }
    requires number { number < length points.now }
    ensures size { IfOk result (λ o. IfSome o (λ list. list.size ≡ off.now.size)) }
    ensures primes { IfOk result (λ o. IfSome o (λ list. (c : Row) → Contains list.cubes c
        → Contains (primes_outside off.now) c)) }
    ensures dominated { IfOk result (λ o. IfSome o (λ list. (c : Row) → IsCube off.now.size c
        → IsImplicant off.now c → IsSubset (holds (cube_at points.now number)) (holds c)
        → IsDominated choice points.now list.cubes c)) }
{
    let point = &points[number];
    let mut found = Columns::new(alloc, off, points.len(), point, most)?;
    let candidates = numbers(alloc, points.len())?;
    if !add_around(
        alloc,
        off,
        points,
        &[],
        &candidates,
        point,
        choice,
        &mut found,
    )? {
        return Ok(None);
    }
    Ok(Some(found.primes))
}

// Below so many cubes of a list, or so many points, what they are looked at costs less than to find
// which of the cubes matter.
const LEAST_ROWS_AROUND: usize = 200;

const LEAST_POINTS_AROUND: usize = 100;

/// Columns that dominate all cubes that meet no cube of the list and contain the point with this
/// number, whichever of the others they contain; `None` where more than so many of the cubes that
/// matter, and points, would be looked at. Each column costs a look at each of the cubes that matter,
/// and one at each point that may be joined with what it was grown from; where literals count, a search
/// too.
///
/// # Errors
///
/// [`AllocError`] if memory is refused.
pub fn columns_of_point(
    alloc: Global,
    off: &Cover,
    points: &[Cube],
    number: usize,
    choice: Choice,
    most: usize,
) -> Result<Option<Cover>, AllocError>
    requires points { AreCubes off.now.size points.now }
    requires number { number < length points.now }
    ensures size { IfOk result (λ o. IfSome o (λ list. list.size ≡ off.now.size)) }
    ensures primes { IfOk result (λ o. IfSome o (λ list. (c : Row) → Contains list.cubes c
        → Contains (primes_outside off.now) c)) }
    ensures dominated { IfOk result (λ o. IfSome o (λ list. (c : Row) → IsCube off.now.size c
        → IsImplicant off.now c → IsSubset (holds (cube_at points.now number)) (holds c)
        → IsDominated choice points.now list.cubes c)) }
{
    if off.len() < LEAST_ROWS_AROUND || points.len() < LEAST_POINTS_AROUND {
        return columns_by_rows(alloc, off, points, number, choice, most);
    }
    let point = &points[number];
    let around = rows_around(alloc, off, point)?;
    let Some(found) = columns_by_rows(alloc, &around, points, number, choice, most)? else {
        return Ok(None);
    };
    let columns = cubes_containing(point, &found)?;
    Ok(Some(columns))
}
