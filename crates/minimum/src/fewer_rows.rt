//! The answers for a description (`primes_of_pla`, `essential_of_pla`, `exact_of_pla`): `primes`, `essen` and
//! `exact` begin here. Lists with fewer rows are taken, and then the steps in `of_pla` and `exact_minimum`.
//!
//! What is asked depends on places alone, and not on the rows that give them. A table of truth, with
//! a row for each point, takes far longer than the same places in few rows. Its primes do not: the
//! sum of many small rows is made sooner than these are merged. But where rows of few literals were
//! cut in two, each at an input of its own, sums of some of the rows depend on all these inputs, and
//! grow with the power of two of the cuts. So do they where rows of many literals lie in others.

ghost use Rattle.std.specs.Prelude.{◌≡◌, IfOk, IfSome, true};
ghost use Rattle.cube.specs.Cube.{Place};
ghost use Rattle.cover.specs.Places.{places};
ghost use Rattle.pla.specs.Completed.{sets_of};
ghost use Rattle.minimum.specs.Primes.{essential_of, exact_of, primes_of};
ghost use Rattle.minimum.specs.SamePlaces.{HasSamePlaces};

use crate::exact_minimum::{exact, exact_of_samples};
use crate::of_pla::{essential_of_sets, essential_outside, off_alone, primes_under_fr};
use crate::prime_implicants::primes;
use crate::way_hints::uses_points;
use cover::{Cover, contain, merge_rows};
use covering::Choice;
use pla::Pla;
use std::alloc::{AllocError, Global};

// The list with fewer rows, or a copy where none was made.
fn fewer_or_copy(fewer: Option<Cover>, list: &Cover) -> Result<Cover, AllocError>
    requires size { IfSome fewer (λ l. l.size ≡ list.now.size) }
    requires places { IfSome fewer (λ l. (p : Place) → places l.cubes p ≡ places list.now.cubes p) }
    ensures size { IfOk result (λ all. all.size ≡ list.now.size) }
    ensures places { IfOk result
        (λ all. (p : Place) → places all.cubes p ≡ places list.now.cubes p) }
{
    match fewer {
        Some(rows) => Ok(rows),
        None => list.try_clone(),
    }
}

// At most so many rows are looked at to see whether a list is one of points.
const MOST_SAMPLED: usize = 16;

// Whether rows are points, or nearly so, by some of them: they have literals at three quarters of
// the inputs or more; `true` of an empty list. Other rows are merged for primes and with one output
// alone: with several the search for points begins with them as they are.
fn are_nearly_points(list: &Cover) -> bool {
    let inputs = list.shape().inputs();
    let step = list.len() / MOST_SAMPLED + 1;
    for number in 0..MOST_SAMPLED {
        if let Some(row) = list.get(number.saturating_mul(step)) {
            if row.literals().saturating_mul(4) < inputs.saturating_mul(3) {
                return false;
            }
        }
    }
    true
}

// A list of so many rows is a long one.
const LONG_LIST: usize = 2_000;

// What a description is asked for.
#[derive(Clone, Copy)]
enum Aim {
    // Its primes.
    AllPrimes,
    // The essential ones among them, or a least cover.
    SomePrimes,
}

// Whether merging the rows of a list of points may pay: with many inputs where the list is long or
// outputs are several, and with few where both is so. Else what the rows take is little, beside
// primes or points and the search.
fn is_worth_merging(list: &Cover) -> bool {
    let has_outputs = list.shape().outputs() > 1;
    let is_long = list.len() >= LONG_LIST;
    if uses_points(list.shape()) {
        return has_outputs || is_long;
    }
    has_outputs && is_long
}

// Whether to merge the rows of the list. Points are merged where that pays, but not for primes. Other
// rows are with many inputs, where all primes may have to be listed: for primes, and of one output.
fn is_to_be_merged(aim: Aim, list: &Cover) -> bool {
    let shape = list.shape();
    match aim {
        Aim::AllPrimes => uses_points(shape) && !are_nearly_points(list),
        Aim::SomePrimes if are_nearly_points(list) => is_worth_merging(list),
        Aim::SomePrimes => uses_points(shape) && shape.outputs() == 1,
    }
}

// Of more rows it is not asked which lie in others: that may take longer than all else.
const MOST_ROWS_TO_COMPARE: usize = 5_000;

// The list without the rows that lie in others; `None` where there is no such row. Of points few lie
// in others, so they are not looked through.
fn without_contained_rows(list: &Cover) -> Result<Option<Cover>, AllocError>
    ensures size { IfOk result (λ found. IfSome found (λ fewer. fewer.size ≡ list.now.size)) }
    ensures places { IfOk result (λ found. IfSome found
        (λ fewer. (p : Place) → places fewer.cubes p ≡ places list.now.cubes p)) }
{
    let rows = list.as_slice();
    if rows.len() > MOST_ROWS_TO_COMPARE || are_nearly_points(list) {
        return Ok(None);
    }
    let rest = contain(list)?;
    if rest.len() >= rows.len() {
        return Ok(None);
    }
    Ok(Some(rest))
}

// The list with fewer rows, or the given one where there is none.
fn fewer_or_given<'a>(fewer: &'a Option<Cover>, given: &'a Cover) -> &'a Cover
    requires size { IfSome fewer.now (λ l. l.size ≡ given.now.size) }
    requires places { IfSome fewer.now
        (λ l. (p : Place) → places l.cubes p ≡ places given.now.cubes p) }
    ensures size { result.now.size ≡ given.now.size }
    ensures places { (p : Place) → places result.now.cubes p ≡ places given.now.cubes p }
{
    match fewer {
        Some(list) => list,
        None => given,
    }
}

// The list with fewer rows: without those that lie in others, and merged if they are to be; `None`
// where that is the list.
fn list_of_fewer_rows(aim: Aim, list: &Cover) -> Result<Option<Cover>, AllocError>
    ensures size { IfOk result (λ found. IfSome found (λ fewer. fewer.size ≡ list.now.size)) }
    ensures places { IfOk result (λ found. IfSome found
        (λ fewer. (p : Place) → places fewer.cubes p ≡ places list.now.cubes p)) }
{
    let fewer = without_contained_rows(list)?;
    let rows = fewer_or_given(&fewer, list);
    if is_to_be_merged(aim, rows) {
        if let Some(merged) = merge_rows(rows)? {
            return Ok(Some(merged));
        }
    }
    Ok(fewer)
}

// The description with lists of fewer rows, or `None` where no list has fewer.
fn with_fewer_rows(aim: Aim, pla: &Pla) -> Result<Option<Pla>, AllocError>
    ensures { IfOk result (λ found. IfSome found (λ fewer. HasSamePlaces pla.now fewer)) }
{
    let on = list_of_fewer_rows(aim, pla.on())?;
    let dc = list_of_fewer_rows(aim, pla.dc())?;
    let off = list_of_fewer_rows(aim, pla.off())?;
    if on.is_none() && dc.is_none() && off.is_none() {
        return Ok(None);
    }
    let on = fewer_or_copy(on, pla.on())?;
    let dc = fewer_or_copy(dc, pla.dc())?;
    let off = fewer_or_copy(off, pla.off())?;
    Ok(Some(pla.with_lists(on, dc, off)))
}

// The description with fewer rows, or the given one where there is none.
fn fewer_rows_or_given<'a>(fewer: &'a Option<Pla>, given: &'a Pla) -> &'a Pla
    requires { IfSome fewer.now (HasSamePlaces given.now) }
    ensures { HasSamePlaces given.now result.now }
{
    match fewer {
        Some(pla) => pla,
        None => given,
    }
}

/// The primes of the description's sets, in row order.
///
/// Under fr a DC list is made only where it is short, or where taking ON from OFF spends its budget:
/// else the primes are made of the places outside those that OFF alone holds.
///
/// # Errors
///
/// [`AllocError`] if memory is refused.
pub fn primes_of_pla(alloc: Global, pla: &Pla) -> Result<Cover, AllocError>
    ensures { IfOk result (λ list. list ≡ record {
      size = pla.now.size;
      cubes = primes_of (sets_of pla.now true true);
    }) }
{
    let fewer = with_fewer_rows(Aim::AllPrimes, pla)?;
    let pla = fewer_rows_or_given(&fewer, pla);
    match off_alone(pla)? {
        Some(off) => primes_under_fr(pla, &off),
        None => primes(&pla::sets(alloc, pla, true, false)?),
    }
}

/// The essential primes of the description's sets, in row order.
///
/// # Errors
///
/// [`AllocError`] if memory is refused.
pub fn essential_of_pla(alloc: Global, pla: &Pla) -> Result<Cover, AllocError>
    ensures { IfOk result (λ list. list ≡ record {
      size = pla.now.size;
      cubes = essential_of (sets_of pla.now true true) (primes_of (sets_of pla.now true true));
    }) }
{
    let fewer = with_fewer_rows(Aim::SomePrimes, pla)?;
    let pla = fewer_rows_or_given(&fewer, pla);
    match off_alone(pla)? {
        Some(off) => essential_outside(alloc, pla, &off),
        None => essential_of_sets(alloc, &pla::sets(alloc, pla, true, false)?),
    }
}

/// The least cover by primes of the description's sets. Under fr a DC list is made only where it is
/// short, or where taking ON from OFF spends its budget.
///
/// # Errors
///
/// [`AllocError`] if memory is refused.
pub fn exact_of_pla(alloc: Global, pla: &Pla, choice: Choice) -> Result<Cover, AllocError>
    ensures { IfOk result (λ list. list ≡ record {
      size = pla.now.size;
      cubes = exact_of choice (sets_of pla.now true true);
    }) }
{
    let fewer = with_fewer_rows(Aim::SomePrimes, pla)?;
    let pla = fewer_rows_or_given(&fewer, pla);
    match off_alone(pla)? {
        Some(off) => exact_of_samples(alloc, pla, off, choice),
        None => exact(alloc, &pla::sets(alloc, pla, true, false)?, choice),
    }
}
