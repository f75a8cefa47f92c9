//! The essential primes without a list of all primes.
//!
//! An essential prime holds a wanted place of some ON cube that no other prime holds. Each prime
//! that contains the cube holds that place, so that the essential one alone contains the cube: to
//! grow the cube to any prime finds it. So there are no more candidates than ON cubes.
//!
//! A place of a prime lies in another prime exactly if a step out of the prime leads from it to a
//! place of ON or DC: the two places make an implicant, which lies in some prime; and another prime
//! that holds the place also holds the end of some such step. So the neighbours and the DC-set
//! leave out a place of the prime exactly if it is essential.
//!
//! So a cube that lies in a prime grown before needs no look. The others cost a question for each
//! literal and each missing output, and one for the prime, to the rows that are near. Most are
//! answered at one look at these, which shows a part that they leave out.

ghost use Rattle.std.specs.Prelude.{◌≡◌, ◌++◌, IfOk, OnOk};
ghost use Rattle.std.specs.List.{Contains};
ghost use Rattle.cube.specs.Cube.{IsCube};
ghost use Rattle.cube.specs.Sum.{IsMaximal, complete_sum};
ghost use Rattle.cover.specs.Places.{places};
ghost use Rattle.minimum.specs.Primes.{primes_of, essential_of, care_on};
ghost use Rattle.minimum.specs.Neighbours.{has_own, HaveSize, AddsEssential};
ghost use Rattle.growth.specs.Growth.{AreNear};

mod blocking;
mod common_place;
pub(crate) mod consensus_pairs;
pub(crate) mod consensus_walks;
mod grown_primes;
mod needed_literals;
pub(crate) mod neighbours;
mod sampled;

use crate::essential_by_neighbours::grown_primes::GrownPrimes;
use crate::essential_by_neighbours::neighbours::neighbours;
pub use crate::essential_by_neighbours::sampled::find_essential_outside;
use crate::prime_implicants::on_and_dc;
use cover::{Cover, in_row_order};
use cube::Cube;
use growth::{Growth, RowsByOutput, Side, grow, hold_cube, rows_to_ask};
use pla::Sets;
use rows::references_to_cubes;
use std::alloc::{AllocError, Global};

/// Whether the neighbours of the prime and the DC-set leave out a place of it: such a place is
/// wanted, as the prime lies in the ON-set with the DC-set.
fn is_essential(alloc: Global, sets: &Sets, near: &Cover, prime: &Cube) -> Result<bool, AllocError>
    requires near { AreNear prime.now
        (record { size = sets.now.size; cubes = sets.now.on ++ sets.now.dc }) near.now }
    requires prime { IsMaximal sets.now.size (places (sets.now.on ++ sets.now.dc)) prime.now }
    ensures { IfOk result (λ b. b ≡ has_own sets.now.size (care_on sets.now)
        (complete_sum sets.now.size (places (sets.now.on ++ sets.now.dc))) prime.now) }
{
    let mut rest = sets.dc().try_clone()?.into_cubes();
    let mut beside = neighbours(alloc, near, prime)?;
    rest.append(&mut beside)?;
    let asked = references_to_cubes(alloc, &rest)?;
    Ok(!hold_cube(alloc, &asked, prime)?)
}

/// Adds the prime that the ON cube grows to, and whether it is essential, unless one in `found`
/// contains the cube. An essential prime with a place of its own in the cube is then in `found`.
fn add_essential(
    alloc: Global,
    sets: &Sets,
    rows: &RowsByOutput,
    cube: &Cube,
    found: &mut GrownPrimes,
) -> Result<(), AllocError>
    requires rows { rows.now ≡ record { size = sets.now.size; cubes = sets.now.on ++ sets.now.dc } }
    requires cube { Contains sets.now.on cube.now }
    requires is_cube { IsCube sets.now.size cube.now }
    requires found { HaveSize sets.now.size found.old }
    ensures { OnOk result (AddsEssential sets.now.size (places rows.now.cubes) (care_on sets.now)
        cube.now found.old found.new) }
{
    if found.contain(cube) {
        return Ok(());
    }
    let Growth { cube: prime, near } = grow(alloc, Side::Inside, rows, cube)?;
    let is_essential = is_essential(alloc, sets, rows_to_ask(&*rows, &near), &prime)?;
    found.add(prime, is_essential)
}

/// The essential primes, in row order: those that hold a place of the ON-set that is neither in the
/// DC-set nor in another prime (Brayton et al. 1984).
///
/// The primes are not listed: each ON cube that lies in none so far is grown to a prime, and that
/// is compared with the rows near it.
pub fn find_essential(alloc: Global, sets: &Sets) -> Result<Cover, AllocError>
    ensures { IfOk result (λ list. list ≡ record
        { size = sets.now.size; cubes = essential_of sets.now (primes_of sets.now) }) }
{
    let list = on_and_dc(sets)?;
    let rows = RowsByOutput::new(alloc, &list)?;
    let mut found = GrownPrimes::new(alloc);
    for cube in sets.on().as_slice() {
        add_essential(alloc, sets, &rows, cube, &mut found)?;
    }
    in_row_order(&Cover::from_cubes(list.shape(), found.essential))
}
