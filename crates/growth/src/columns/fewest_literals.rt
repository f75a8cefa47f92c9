//! The cube of the fewest literals that contains a cube and meets no row of a list.
//!
//! Which literals stay is a hint, and so are the steps of the search that found them: each step is
//! looked at. Of the cubes that contain a narrow one and have the literals of a wide one, none is
//! better than the best if the wide one has too many literals, or comes no earlier; and there is none
//! if a row meets the narrow one. Else they are split at an input: those that keep the literal of the
//! narrow one have it too, and the others contain the narrow one without it.

ghost use Rattle.std.specs.Prelude.{◌≡◌, true, IfOk, IfSome};
ghost use Rattle.cube.specs.Cube.{IsCube, IsSubset, SameSize, holds};
ghost use Rattle.covering.specs.declared.choice.Choice.TheVariants.{Literals};
ghost use Rattle.growth.specs.Dominating.{IsUpTo, IsBestFreed, IsNoWorse, AreNoBetter};

use crate::columns::literal_search::{LiteralSearch, Step, has_input};
use crate::columns::open_points::meets_row;
use cover::Cover;
use cube::{Cube, Symbol};
use rows::universal_cube;
use std::alloc::{AllocError, Global};
use std::cmp::Ordering;

/// The cube without its literals at the inputs that are not in a set.
fn with_literals_in(off: &Cover, cube: &Cube, kept: &[u64]) -> Result<Cube, AllocError>
    requires { IsCube off.now.size cube.now }
    ensures cube { IfOk result (IsCube off.now.size) }
    ensures over { IfOk result (λ c. IsSubset (holds cube.now) (holds c)) }
{
    let mut freed = cube.try_clone()?;
    for i in 0..off.shape().inputs() {
        if has_input(kept, i) {
            continue;
        }
        freed.set_symbol(i, Symbol::Dash);
    }
    Ok(freed)
}

/// Whether the literals of the wide cube come no earlier than those of the best.
fn comes_no_earlier(wide: &Cube, best: &Cube) -> bool
    requires { SameSize best.now wide.now }
    ensures { result ≡ true → IsUpTo wide.now best.now }
{
    match best.row_cmp(wide) {
        Ordering::Less => true,
        Ordering::Equal => true,
        Ordering::Greater => false,
    }
}

/// Whether no cube with the literals of the wide one is better than the best.
fn is_late(wide: &Cube, best: &Cube) -> bool
    requires { SameSize best.now wide.now }
    ensures { result ≡ true → IsNoWorse wide.now best.now }
{
    if wide.literals() == best.literals() {
        return comes_no_earlier(wide, best);
    }
    if wide.literals() > best.literals() {
        return true;
    }
    false
}

/// The step at this index, which then moves on by one; `None` past the end.
fn next_step(steps: &[Step], at: &mut usize) -> Option<Step> {
    if *at >= steps.len() {
        return None;
    }
    let step = steps[*at];
    *at += 1;
    Some(step)
}

/// Whether the steps from an index on, which moves past them, show that no implicant between the
/// narrow cube and the wide one is better than the best. `false` says nothing; it comes too where
/// splits are more than `depth` deep.
fn is_best_between(
    off: &Cover,
    narrow: &Cube,
    wide: &Cube,
    best: &Cube,
    steps: &[Step],
    at: &mut usize,
    depth: usize,
) -> Result<bool, AllocError>
    requires narrow { IsCube off.now.size narrow.now }
    requires wide { IsCube off.now.size wide.now }
    requires best { IsCube off.now.size best.now }
    ensures { IfOk result (λ b. b ≡ true
        → AreNoBetter off.now narrow.now wide.now best.now) }
{
    let Some(step) = next_step(steps, at) else {
        return Ok(false);
    };
    let i = match step {
        Step::Late => return Ok(is_late(wide, best)),
        Step::Row(r) => return Ok(meets_row(off, r, narrow)),
        Step::Split(i) => i,
    };
    if depth == 0 || i >= off.shape().inputs() {
        return Ok(false);
    }
    let kept = wide.with_symbol(i, narrow.symbol(i))?;
    if !is_best_between(off, narrow, &kept, best, steps, at, depth - 1)? {
        return Ok(false);
    }
    let freed = narrow.with_symbol(i, Symbol::Dash)?;
    is_best_between(off, &freed, wide, best, steps, at, depth - 1)
}

/// The cube with the fewest of its literals, and of these the first, that an implicant that contains
/// it has; or `None` where a hint is wrong, or more than so many sets would be looked at.
pub(crate) fn fewest_literals(
    alloc: Global,
    off: &Cover,
    cube: &Cube,
    left: &mut usize,
) -> Result<Option<Cube>, AllocError>
    requires { IsCube off.now.size cube.now }
    ensures { IfOk result (λ o. IfSome o (IsBestFreed Literals off.now cube.now)) }
{
    let Some(search) = LiteralSearch::run(alloc, off, cube, left)? else {
        return Ok(None);
    };
    let best = with_literals_in(off, cube, &search.best)?;
    let wide = universal_cube(alloc, off.shape())?;
    let depth = off.shape().inputs().saturating_add(2);
    if !is_best_between(off, cube, &wide, &best, &search.steps, &mut 0, depth)? {
        return Ok(None);
    }
    Ok(Some(best))
}
