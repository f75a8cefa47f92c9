//! The questions to a list: whether its cubes hold every place (`tautology`), a given cube
//! (`holds_cube`), or each of several (`holds_cubes`), and what they leave out of these
//! (`part_left_out`, `parts_left_out`). `regions` answers them.
ghost use Rattle.std.specs.Prelude.{◌≡◌, IfOk, IfNone, IfSome, All, is_none, map};
ghost use Rattle.std.specs.List.{AllZip};
ghost use Rattle.cube.specs.Cube.{HasSize, IsSubset, holds};
ghost use Rattle.cube.specs.Sum.{is_subset};
ghost use Rattle.regions.specs.LeftOut.{IsLeftOut};
ghost use Rattle.rows.specs.Places.{places, holds_all};

use crate::list::Cover;
use crate::references::references_to;
use cube::Cube;
use regions::{part_left_out, part_left_out_of_each};
use rows::{references_to_cubes, universal_cube};
use std::alloc::{AllocError, Global};

// Of each of the parts, in their order, whether it is `None`.
fn are_none(alloc: Global, parts: &[Option<Cube>]) -> Result<Vec<bool>, AllocError>
    ensures { IfOk result (λ held. held.items ≡ map is_none parts.now) }
{
    let mut held = Vec::with_capacity(alloc, parts.len())?;
    for part in parts {
        held.push(part.is_none())?;
    }
    Ok(held)
}

impl Cover {
    /// Whether every place is in some cube: each point with each output, also with one that no
    /// cube has.
    pub fn tautology(&self) -> Result<bool, AllocError>
        ensures { IfOk result (λ all. all ≡ holds_all self.now.size (places self.now.cubes)) }
    {
        let alloc = self.allocator();
        let region = universal_cube(alloc, self.shape())?;
        self.holds_cube(&region)
    }

    /// Whether every place of the cube is in some cube of the list.
    pub fn holds_cube(&self, cube: &Cube) -> Result<bool, AllocError>
        requires { HasSize cube.now self.now.size }
        ensures { IfOk result
            (λ held. held ≡ is_subset self.now.size (holds cube.now) (places self.now.cubes)) }
    {
        Ok(self.part_left_out(cube)?.is_none())
    }

    /// A part of the cube, itself a cube, no place of which is in a cube of the list; `None` if
    /// the list holds the whole cube.
    ///
    /// Which part it is depends on how the question was answered. It is mostly large: the splits
    /// that lead to it end as soon as no cube of the list meets what is left. Where a search found
    /// it, it is one place.
    ///
    /// # Errors
    ///
    /// [`AllocError`] if memory is refused.
    pub fn part_left_out(&self, cube: &Cube) -> Result<Option<Cube>, AllocError>
        requires { HasSize cube.now self.now.size }
        ensures held { IfOk result
            (λ found. IfNone found (IsSubset (holds cube.now) (places self.now.cubes))) }
        ensures left_out { IfOk result
            (λ found. IfSome found (IsLeftOut self.now.size self.now.cubes cube.now)) }
    {
        let alloc = self.allocator();
        let rows = references_to_cubes(alloc, self.as_slice())?;
        part_left_out(alloc, &rows, cube)
    }

    /// Of each of the cubes, in their order, whether every place of it is in some cube of the list:
    /// what [`Cover::holds_cube`] answers for it.
    ///
    /// It asks as [`Cover::parts_left_out`] does, in one call for all.
    ///
    /// # Errors
    ///
    /// [`AllocError`] if memory is refused.
    pub fn holds_cubes(&self, cubes: &[Cube]) -> Result<Vec<bool>, AllocError>
        requires { All (λ d. HasSize d self.now.size) cubes.now }
        ensures { IfOk result (λ held. held.items
            ≡ map (λ d. is_subset self.now.size (holds d) (places self.now.cubes)) cubes.now) }
    {
        let parts = self.parts_left_out(cubes)?;
        are_none(self.allocator(), &parts)
    }

    /// Of each of the cubes, in their order, a part that the list leaves out, or `None` if the list
    /// holds the whole cube: as [`Cover::part_left_out`] gives for it, though maybe another part.
    ///
    /// What a search learns of the list is kept for the next cubes. If the list and `cubes` both
    /// have more than 64 cubes, the cubes of the list nearest to the asked one are tried first. So
    /// one call mostly takes less time than a call of `part_left_out` for each cube.
    ///
    /// # Errors
    ///
    /// [`AllocError`] if memory is refused.
    pub fn parts_left_out(&self, cubes: &[Cube]) -> Result<Vec<Option<Cube>>, AllocError>
        requires { All (λ d. HasSize d self.now.size) cubes.now }
        ensures held { IfOk result (λ parts. AllZip
            (λ d part. IfNone part (IsSubset (holds d) (places self.now.cubes)))
            cubes.now parts.items) }
        ensures left_out { IfOk result (λ parts. AllZip
            (λ d part. IfSome part (IsLeftOut self.now.size self.now.cubes d))
            cubes.now parts.items) }
    {
        let alloc = self.allocator();
        let shape = self.shape();
        let rows = references_to(self)?;
        part_left_out_of_each(alloc, shape, &rows, cubes)
    }
}
