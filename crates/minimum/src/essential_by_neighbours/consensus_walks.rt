//! Whether iterated consensus leads from a row to many cubes: a hint, by which `way_hints` tells whether
//! primes are many, for `exact` as for `essen`.
//!
//! Iterated consensus makes all primes (Quine 1955). A walk goes from a row to its consensus with
//! another, and from there on. Where `n` rows have a consensus with each cube on the way, `k` steps
//! lead to some `n^k / k!` cubes, since their order counts for little. From points, disjoint products
//! and rings of points there are few; from products of many inputs there are thousands, even where few
//! rows have a consensus with another.

use cube::{Cube, Symbol};
use std::alloc::AllocError;

// At most so many walks are made, and so many steps on each.
const MOST_WALKS: usize = 3;

const MOST_STEPS: usize = 3;

// At most about so many rows are looked at for a step; of more rows, some that are spread over them.
const MOST_LOOKED_AT: usize = 2_000;

// Each that is met then stands for some that were passed over, if so many are met: one alone tells nothing.
const FEWEST_MET: u64 = 2;

// So many cubes from a row, on average, are many: rings of points have six.
const MANY: u64 = 10;

// Cubes are counted in so many parts.
const PARTS: u64 = 1_000;

// A pair: about how many of the rows have a consensus with the cube, and the last of them that was
// looked at, `None` if there is none.
fn rows_at_distance_one<'a>(rows: &'a [Cube], cube: &Cube) -> (u64, Option<&'a Cube>) {
    let stride = 1 + rows.len() / MOST_LOOKED_AT;
    let (mut met, mut last) = (0_u64, None);
    for row in rows.iter().step_by(stride) {
        if row.opposites(cube) == 1 {
            met = met.saturating_add(1);
            last = Some(row);
        }
    }
    if stride > 1 && met < FEWEST_MET {
        return (0, None);
    }
    (met.saturating_mul(stride as u64), last)
}

// The literals of the consensus of a cube and a row that conflict at one input, with the outputs of
// the cube.
fn consensus(cube: &Cube, row: &Cube) -> Result<Cube, AllocError> {
    let mut both = cube.try_clone()?;
    for i in 0..row.shape().inputs() {
        if i >= both.shape().inputs() || !row.has_literal(i) {
            continue;
        }
        let symbol = row.symbol(i);
        if both.has_literal(i) && both.symbol(i) != symbol {
            both.set_symbol(i, Symbol::Dash);
        } else {
            both.set_symbol(i, symbol);
        }
    }
    Ok(both)
}

// To how many cubes a walk from the row is thought to lead, the row among them, in parts: `PARTS`
// for each.
fn cubes_reached(rows: &[Cube], row: &Cube) -> Result<u64, AllocError> {
    let mut cube = row.try_clone()?;
    let (mut at_step, mut reached) = (PARTS, PARTS);
    for step in 0..MOST_STEPS {
        let (count, last) = rows_at_distance_one(rows, &cube);
        let Some(other) = last else {
            return Ok(reached);
        };
        at_step = at_step.saturating_mul(count) / (step as u64 + 1);
        reached = reached.saturating_add(at_step);
        cube = consensus(&cube, other)?;
    }
    Ok(reached)
}

/// Whether walks from some rows, spread over the list, are thought to lead to many cubes. It costs
/// a dozen looks at each of some thousand rows at most.
pub(crate) fn leads_to_many(rows: &[Cube]) -> Result<bool, AllocError> {
    let (mut reached, mut walks): (u64, u64) = (0, 0);
    for row in rows.iter().step_by(1 + rows.len() / MOST_WALKS) {
        reached = reached.saturating_add(cubes_reached(rows, row)?);
        walks = walks.saturating_add(PARTS);
    }
    Ok(reached / MANY > walks)
}
