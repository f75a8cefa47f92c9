//! The least cover by primes: which ways lead to it.
//!
//! With many inputs and several outputs points are picked, and columns for them are grown outside
//! cubes with the places in neither set; so too under fr, where OFF tells these places. Where these
//! cubes are too many, and with one output where primes are thought many, places outside are made as
//! they are needed (`as_needed`). Else all primes are listed: points are picked by them where the
//! inputs are many, and else the rows of their table come from regions. Which way is taken is a hint
//! (`way_hints`); where one has spent its budget, the next one follows.

ghost use Rattle.std.specs.Prelude.{◌≡◌, ◌||◌, IfOk, IfSome, not, true};
ghost use Rattle.cube.specs.Cube.{IsPlace, Place, difference as difference_of};
ghost use Rattle.cover.specs.Places.{places};
ghost use Rattle.pla.specs.declared.file_type.FileType.{FileType};
ghost use Rattle.pla.specs.Completed.{sets_of};
ghost use Rattle.pla.specs.Sets.{SetLists};
ghost use Rattle.minimum.specs.declared.points.source.Source.{Source};
ghost use Rattle.minimum.specs.Points.{lists_of, IsSource, StandsFor};
ghost use Rattle.minimum.specs.Primes.{exact_of};

use crate::as_needed::exact_as_needed;
use crate::cubes::cubes_at;
use crate::of_pla::primes_under_fr;
use crate::points::rounds::exact_by_points;
use crate::points::source::Source;
use crate::prime_implicants::{on_and_dc, primes};
use crate::prime_table::table_of_primes;
use crate::way_hints::{
    budget_outside, uses_outside, uses_places_as_needed, uses_points, uses_points_of_primes,
};
use cover::{Cover, outside};
use covering::{Choice, least_cover};
use growth::large_first;
use pla::{Pla, Sets};
use std::alloc::{AllocError, Global};

/// Cubes with the places outside the ON-set and the DC-set, and no others; `None` if they are
/// thought of no use, or take more than their budget.
fn off_of(sets: &Sets) -> Result<Option<Cover>, AllocError>
    ensures size { IfOk result (λ o. IfSome o (λ off. off.size ≡ sets.now.size)) }
    ensures places { IfOk result (λ o. IfSome o (λ off. (p : Place) → IsPlace sets.now.size p
        → places off.cubes p ≡ not (places sets.now.on p || places sets.now.dc p))) }
{
    if !uses_outside(sets) {
        return Ok(None);
    }
    let all = on_and_dc(sets)?;
    outside(&all, budget_outside(&all))
}

/// The least cover by primes, by picked points whose columns are grown outside cubes with the
/// places in neither set; `None` where these cubes are of no use or too many, or points have too
/// many primes.
fn exact_outside(alloc: Global, sets: &Sets, choice: Choice) -> Result<Option<Cover>, AllocError>
    ghost lists: { SetLists }
    requires { sets.now ≡ lists }
    ensures { IfOk result (λ o. IfSome o (λ list. list ≡ record
        { size = lists.size; cubes = exact_of choice lists })) }
{
    let Some(off) = off_of(sets)? else {
        return Ok(None);
    };
    let source = Source::Outside(large_first(off)?);
    exact_by_points(alloc, sets.on(), sets.dc(), &source, false, choice)
}

/// The least cover by primes, from the table of all of them; the ON list and the DC list tell which
/// places are wanted.
fn exact_by_table(
    alloc: Global,
    on: &Cover,
    dc: &Cover,
    primes: &Cover,
    choice: Choice,
) -> Result<Cover, AllocError>
    ghost sets: { SetLists }
    requires dc { dc.now.size ≡ on.now.size }
    requires primes { IsSource on.now.size (Source.Primes primes.now) }
    requires same { StandsFor sets (lists_of on.now dc.now) (Source.Primes primes.now) }
    ensures { IfOk result (λ list. list ≡ record
        { size = on.now.size; cubes = exact_of choice sets }) }
{
    let table = table_of_primes(alloc, primes, on, dc)?;
    let least = least_cover(&table, choice)?;
    cubes_at(alloc, primes, &least)
}

/// The least cover by primes, from a list of all of them: by points that are picked by this list, or
/// where that is of no use or too much, from the table of all. With `sampled` all that lies in no
/// ON cube is a don't-care, or in no prime.
fn exact_by_primes(
    alloc: Global,
    on: &Cover,
    dc: &Cover,
    primes: Cover,
    sampled: bool,
    choice: Choice,
) -> Result<Cover, AllocError>
    ghost sets: { SetLists }
    requires dc { dc.now.size ≡ on.now.size }
    requires primes { IsSource on.now.size (Source.Primes primes) }
    requires same { StandsFor sets (lists_of on.now dc.now) (Source.Primes primes) }
    ensures { IfOk result (λ list. list ≡ record
        { size = on.now.size; cubes = exact_of choice sets }) }
{
    let source = Source::Primes(primes);
    if uses_points_of_primes(on) {
        if let Some(list) = exact_by_points(alloc, on, dc, &source, sampled, choice)? {
            return Ok(list);
        }
    }
    exact_by_table(alloc, on, dc, source.list(), choice)
}

/// The least cover by primes: the shortest list of primes that together hold each place of the
/// ON-set that is not in the DC-set; of several, the first in row order, with `Choice::Literals` of
/// those with the fewest literals.
///
/// With more than 12 inputs it mostly lists no primes, but makes columns for some picked points: for
/// each about as many as there are sets of points that primes contain together with it. Else its
/// cost is that of [`primes`], with few inputs that of the table of all primes, and then that of
/// [`least_cover`], whose number of branches has no small bound.
pub fn exact(alloc: Global, sets: &Sets, choice: Choice) -> Result<Cover, AllocError>
    ensures { IfOk result (λ list. list ≡ record
        { size = sets.now.size; cubes = exact_of choice sets.now }) }
{
    if let Some(list) = exact_outside(alloc, sets, choice)? {
        return Ok(list);
    }
    if uses_places_as_needed(sets)? {
        if let Some(list) = exact_as_needed(alloc, sets, choice)? {
            return Ok(list);
        }
    }
    exact_by_primes(alloc, sets.on(), sets.dc(), primes(sets)?, false, choice)
}

/// The least cover by primes under fr, where OFF alone holds the places of `off`: by points with
/// columns outside these, or else from a list of all primes.
pub(crate) fn exact_of_samples(
    alloc: Global,
    pla: &Pla,
    off: Cover,
    choice: Choice,
) -> Result<Cover, AllocError>
    ghost sets: { SetLists }
    requires sets { sets ≡ sets_of pla.now true true }
    requires file_type { pla.now.file_type ≡ FileType.Fr }
    requires size { off.size ≡ pla.now.size }
    requires places { (p : Place) → IsPlace pla.now.size p
        → places off.cubes p ≡ difference_of (places pla.now.off) (places pla.now.on) p }
    ensures { IfOk result (λ list. list ≡ record
        { size = pla.now.size; cubes = exact_of choice sets }) }
{
    let none = Cover::new(alloc, pla.shape());
    let source = Source::Outside(large_first(off)?);
    if uses_points(pla.shape()) {
        if let Some(list) = exact_by_points(alloc, pla.on(), &none, &source, true, choice)? {
            return Ok(list);
        }
    }
    let primes = primes_under_fr(pla, source.list())?;
    exact_by_primes(alloc, pla.on(), &none, primes, true, choice)
}
