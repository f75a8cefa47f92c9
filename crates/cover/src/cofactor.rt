//! The cofactor of a list by a cube.
ghost use Rattle.std.specs.Prelude.{◌≡◌, ◌↔◌, IsTrue, IfOk};
ghost use Rattle.cube.specs.Cube.{HasSize, IsSubset, holds};
ghost use Rattle.cover.specs.Cofactor.{cofactors};
ghost use Rattle.rows.specs.Places.{places, holds_all};

use crate::list::Cover;
use cube::Cube;
use std::alloc::AllocError;

impl Cover {
    /// The cubes that have a place of `cube`, in their order, each with `-` at the inputs where
    /// `cube` has a literal and with the outputs that `cube` lacks besides its own. This list holds
    /// every place exactly if the first holds all of `cube` (Brayton et al. 1984).
    pub fn cofactor(&self, cube: &Cube) -> Result<Cover, AllocError>
        requires { HasSize cube.now self.now.size }
        ensures value { IfOk result
            (λ left. left
            ≡ record {
              size = self.now.size;
              cubes = cofactors self.now.size cube.now self.now.cubes;
            }) }
        ensures places { IfOk result (λ left. IsTrue (holds_all left.size (places left.cubes))
            ↔ IsSubset (holds cube.now) (places self.now.cubes)) }
    {
        let mut left = Vec::new(self.allocator());
        for row in self.as_slice() {
            match row.cofactor(cube)? {
                Some(row) => left.push(row)?,
                None => {}
            }
        }
        Ok(Cover::from_cubes(cube.shape(), left))
    }
}
