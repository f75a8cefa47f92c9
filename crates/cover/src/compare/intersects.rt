//! Whether two lists have a place in common.
ghost use Rattle.std.specs.Prelude.{◌≡◌, IfOk};
ghost use Rattle.rows.specs.Places.{places, share_place};

use crate::list::Cover;
use crate::references::references_to;
use regions::{Relation, are_related};
use std::alloc::AllocError;

impl Cover {
    /// Whether some place is in both lists. If splits at inputs soon separate the rows of the two,
    /// this takes time in their lengths; at worst each pair of rows is looked at.
    pub fn intersects(&self, other: &Cover) -> Result<bool, AllocError>
        requires { other.now.size ≡ self.now.size }
        ensures { IfOk result
            (λ some. some
            ≡ share_place self.now.size (places self.now.cubes) (places other.now.cubes)) }
    {
        let alloc = self.allocator();
        let shape = self.shape();
        let rows = references_to(self)?;
        let others = references_to(other)?;
        let depth = shape.inputs();
        let apart = are_related(alloc, shape, Relation::Disjoint, depth, &rows, &others)?;
        Ok(!apart)
    }
}
