//! The essential primes of a sampled function: without a list of all primes, and without a DC list.
//!
//! What neither the ON list nor the OFF list holds is free, and would be far too many cubes. But a
//! cube is an implicant exactly if it meets no row of the OFF list, and an ON cube has a place that
//! one prime alone holds exactly if that is in each blocking list of the prime.

ghost use Rattle.std.specs.Prelude.{◌≡◌, true, false, IfOk, OnOk};
ghost use Rattle.cube.specs.Cube.{IsCube, IsSubset, Place, holds};
ghost use Rattle.cover.specs.Places.{places};
ghost use Rattle.pla.specs.Sets.{SetLists};
ghost use Rattle.minimum.specs.Primes.{primes_of, essential_of};
ghost use Rattle.growth.specs.Growth.{on_side};
ghost use Rattle.minimum.specs.Neighbours.{IsAlone, HaveSize, AddsEssential};
ghost use Rattle.minimum.specs.Blocking.{IsSampled};

use crate::essential_by_neighbours::blocking::blocking_lists;
use crate::essential_by_neighbours::common_place::has_common;
use crate::essential_by_neighbours::grown_primes::GrownPrimes;
use cover::{Cover, in_row_order};
use cube::Cube;
use growth::{Growth, RowsByOutput, Side, grow, rows_to_ask};
use std::alloc::{AllocError, Global};

/// Whether some place of the prime that is in an ON cube is in each of its blocking lists.
fn has_own_place(alloc: Global, on: &Cover, off: &Cover, prime: &Cube) -> Result<bool, AllocError>
    requires size { off.now.size ≡ on.now.size }
    requires prime { IsCube on.now.size prime.now }
    ensures some { IfOk result (λ b. b ≡ true → (p : Place) × (holds prime.now p ≡ true)
        × (places on.now.cubes p ≡ true)
        × IsAlone (on_side Side.Outside off.now.cubes) prime.now p) }
    ensures none { IfOk result (λ b. b ≡ false → (p : Place) → holds prime.now p ≡ true
        → places on.now.cubes p ≡ true
        → IsAlone (on_side Side.Outside off.now.cubes) prime.now p → ⊥) }
{
    let lists = blocking_lists(alloc, off, prime)?;
    for cube in on.as_slice() {
        if let Some(region) = prime.meet(cube)? {
            if has_common(alloc, &lists, &region)? {
                return Ok(true);
            }
        }
    }
    Ok(false)
}

/// Adds the prime that the ON cube grows to, and whether it is essential, unless one in `found`
/// contains the cube. An essential prime with a place of its own in the cube is then in `found`.
fn add_essential(
    alloc: Global,
    on: &Cover,
    off: &RowsByOutput,
    cube: &Cube,
    found: &mut GrownPrimes,
) -> Result<(), AllocError>
    requires size { off.now.size ≡ on.now.size }
    requires cube { IsCube on.now.size cube.now }
    requires found { HaveSize on.now.size found.old }
    ensures cubes { OnOk result (HaveSize on.now.size found.new) }
    ensures adds { OnOk result (IsSubset (holds cube.now) (on_side Side.Outside off.now.cubes)
        → AddsEssential on.now.size (on_side Side.Outside off.now.cubes) (places on.now.cubes)
        cube.now found.old found.new) }
{
    if found.contain(cube) {
        return Ok(());
    }
    let Growth { cube: prime, near } = grow(alloc, Side::Outside, off, cube)?;
    let is_essential = has_own_place(alloc, on, rows_to_ask(&*off, &near), &prime)?;
    found.add(prime, is_essential)
}

/// The essential primes of a sampled function, in row order: `on` has the wanted places, and `off`
/// the places outside ON-set and DC-set, for which no list is asked. See [`find_essential`].
///
/// [`find_essential`]: crate::find_essential
pub fn find_essential_outside(alloc: Global, on: &Cover, off: &Cover) -> Result<Cover, AllocError>
    requires { off.now.size ≡ on.now.size }
    ensures { IfOk result (λ list. (sets : SetLists) → IsSampled sets on.now off.now
        → list ≡ record { size = sets.size; cubes = essential_of sets (primes_of sets) }) }
{
    let rows = RowsByOutput::new(alloc, off)?;
    let mut found = GrownPrimes::new(alloc);
    for cube in on.as_slice() {
        add_essential(alloc, on, &rows, cube, &mut found)?;
    }
    in_row_order(&Cover::from_cubes(on.shape(), found.essential))
}
