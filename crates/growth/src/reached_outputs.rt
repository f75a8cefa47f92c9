//! The outputs that rows reach inside a cube.
//!
//! Most outputs cannot be added to a cube, and one point of it shows this of many. A part of the
//! cube is narrowed to each row that adds an output to it, and takes that row's outputs. So under
//! an output that the cube lacks, the rows hold the whole part or no place of it.

ghost use Rattle.std.specs.Prelude.{◌≡◌, ◌<◌, List, false, not, IfOk, length, slice_index_or};
ghost use Rattle.cube.specs.Cube.{Cube as Row, HasSize, Place};
ghost use Rattle.cover.specs.Places.{places};
ghost use Rattle.growth.specs.Growth.{on_side, IsPartOf, AreReached};

use crate::prime::Side;
use cover::Cover;
use cube::{Cube, Symbol};
use std::alloc::AllocError;

/// A point of the cube, with all of its outputs.
fn point_of(cube: &Cube) -> Result<Cube, AllocError>
    ensures { IfOk result (IsPartOf cube.now) }
{
    let mut point = cube.try_clone()?;
    for i in 0..cube.shape().inputs() {
        if point.symbol(i) == Symbol::Dash {
            point.set_symbol(i, Symbol::Zero);
        }
    }
    Ok(point)
}

/// A part of the cube to begin with: a point if implicants lie inside the list, as few rows reach
/// it and outputs that none reaches are refused; the whole cube if they lie outside, as many rows
/// reach it and outputs that one reaches are refused.
pub(crate) fn part_of(side: Side, cube: &Cube) -> Result<Cube, AllocError>
    ensures { IfOk result (IsPartOf cube.now) }
{
    match side {
        Side::Inside => point_of(cube),
        Side::Outside => cube.try_clone(),
    }
}

/// A part of the region with the outputs that are reached there: it is narrowed to each row in turn
/// that adds an output, and gets the outputs of that row. It costs a look at each row.
///
/// # Errors
///
/// [`AllocError`] if memory is refused.
pub fn outputs_at(rows: &Cover, region: Cube) -> Result<Cube, AllocError>
    requires { HasSize region rows.now.size }
    ensures { IfOk result (AreReached region rows.now.cubes) }
{
    let mut here = region;
    for row in rows.as_slice() {
        if let Some(both) = here.output_consensus(row)? {
            if both.has_outputs_beyond(&here) {
                here = both;
            }
        }
    }
    Ok(here)
}

/// Whether the places under the output are off that side, by the outputs that are reached.
pub(crate) fn is_refused(side: Side, reached: &Cube, j: usize) -> bool
    requires { j < length reached.now.outputs }
    ensures { (rows : List Row) → (p : Place)
        → places rows p ≡ slice_index_or reached.now.outputs j false
        → on_side side rows p ≡ not result }
{
    match side {
        Side::Inside => !reached.output(j),
        Side::Outside => reached.output(j),
    }
}
