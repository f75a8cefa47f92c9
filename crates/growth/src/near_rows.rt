//! The rows near a cube.
//!
//! A step out of a cube leads to a place whose point is one of the cube's, but for the value at one
//! input. A row that conflicts with the cube at two inputs has no such place, and is left out.

ghost use Rattle.std.specs.Prelude.{◌≡◌, true, IfOk};
ghost use Rattle.cube.specs.Cube.{HasSize};
ghost use Rattle.growth.specs.Growth.{IsFar, AreNear, near_or};

use crate::rows_by_output::RowsByOutput;
use cover::Cover;
use cube::Cube;
use std::alloc::{AllocError, Global};

/// Whether the row conflicts with the cube at two inputs or more.
fn is_far(cube: &Cube, row: &Cube) -> bool
    ensures { result ≡ true → IsFar cube.now row.now }
{
    cube.opposites(row) > 1
}

// At most so many rows are looked at to see whether most are near.
const MOST_SAMPLED: usize = 64;

// Whether to copy the rows near the cube to a list of their own, by some rows, spread over the
// list: to ask all rows costs less where most are near.
fn uses_near_rows(rows: &Cover, cube: &Cube) -> bool {
    let step = rows.len() / MOST_SAMPLED + 1;
    let mut near: usize = 0;
    let mut far: usize = 0;
    for number in 0..MOST_SAMPLED {
        let Some(row) = rows.as_slice().get(number.saturating_mul(step)) else {
            break;
        };
        if is_far(cube, row) {
            far = far.saturating_add(1);
        } else {
            near = near.saturating_add(1);
        }
    }
    near <= far
}

/// The rows that do not conflict with the cube at two inputs.
fn rows_not_far(alloc: Global, rows: &Cover, cube: &Cube) -> Result<Cover, AllocError>
    requires { HasSize cube.now rows.now.size }
    ensures { IfOk result (λ near. AreNear cube.now rows.now near) }
{
    let mut near = Vec::new(alloc);
    for row in rows.as_slice() {
        if !is_far(cube, row) {
            near.push(row.try_clone()?)?;
        }
    }
    Ok(Cover::from_cubes(rows.shape(), near))
}

/// A copy of the rows near the cube, with opposite literals at one input or none, whatever their
/// outputs; `None` stands for all rows, where most of a sample of them are near.
pub(crate) fn rows_near(
    alloc: Global,
    rows: &RowsByOutput,
    cube: &Cube,
) -> Result<Option<Cover>, AllocError>
    requires { HasSize cube.now rows.now.size }
    ensures { IfOk result (λ near. AreNear cube.now rows.now (near_or rows.now near)) }
{
    if !uses_near_rows(rows.list(), cube) {
        return Ok(None);
    }
    Ok(Some(rows_not_far(alloc, rows.list(), cube)?))
}

/// The rows that are to be asked: those near, or all rows where `near` is `None`.
pub fn rows_to_ask<'a>(rows: &'a RowsByOutput, near: &'a Option<Cover>) -> &'a Cover
    ensures { result.now ≡ near_or rows.now near.now }
{
    match near {
        None => rows.list(),
        Some(near) => near,
    }
}
