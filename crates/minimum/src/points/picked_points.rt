//! The points that were picked so far, with primes that dominate all that contain one of them.

ghost use Rattle.std.specs.Prelude.{◌≡◌, ◌∷◌, ◌++◌, [], OnOk};

use cover::Cover;
use cube::{Cube, Shape};
use std::alloc::{AllocError, Global};

/// Points, and columns for their table.
pub(crate) struct PickedPoints {
    /// Wanted points.
    pub(crate) points: Vec<Cube>,
    /// Primes that dominate all that contain one of the points; some may stand twice.
    pub(crate) columns: Cover,
}

// Written out, so that where they end a proof has one call, and no case for each list.
impl Drop for PickedPoints {
    fn drop(self) {
        let PickedPoints {
            points: _,
            columns: _,
        } = self;
    }
}

impl PickedPoints {
    /// No point.
    pub(crate) fn new(alloc: Global, shape: Shape) -> PickedPoints
        ensures points { result.points.items ≡ [] }
        ensures size { result.columns.size ≡ shape }
        ensures columns { result.columns.cubes ≡ [] }
    {
        PickedPoints {
            points: Vec::new(alloc),
            columns: Cover::new(alloc, shape),
        }
    }
}

/// Adds the cube.
pub(crate) fn push_cube(list: &mut Vec<Cube>, cube: Cube) -> Result<(), AllocError>
    ensures { OnOk result (list.new.items ≡ list.old.items ++ cube ∷ []) }
{
    list.push(cube)?;
    Ok(())
}
