//! Whether rows hold a cube, where most cubes are left out in part.

ghost use Rattle.std.specs.Prelude.{◌≡◌, IfOk, All};
ghost use Rattle.cube.specs.Cube.{SameSize, holds, size_of};
ghost use Rattle.cube.specs.Sum.{is_subset};
ghost use Rattle.rows.specs.Places.{places, behind};

use crate::part_left_out::are_seen_to_leave_out;
use cube::Cube;
use regions::part_left_out;
use std::alloc::{AllocError, Global};

/// Whether each place of the cube is in some row. A part that the rows leave out is looked for
/// first: that costs up to eight looks at each row, and splits of the cube may take many.
///
/// # Errors
///
/// [`AllocError`] if memory is refused.
pub fn hold_cube(alloc: Global, rows: &[&Cube], cube: &Cube) -> Result<bool, AllocError>
    requires { All (λ d. SameSize d.now cube.now) rows.now }
    ensures { IfOk result (λ held. held
        ≡ is_subset (size_of cube.now) (holds cube.now) (places (behind rows.now))) }
{
    if are_seen_to_leave_out(alloc, rows, cube)? {
        return Ok(false);
    }
    Ok(part_left_out(alloc, rows, cube)?.is_none())
}
