//! The neighbours of a prime.
//!
//! A step out of a prime exchanges the bit of a place at a literal, or puts the point under an
//! output that the prime lacks. A place from which some step leads into a row lies in another
//! implicant; so the neighbours are the rows put back by a step, and only those that then meet the
//! prime count. A row that conflicts with the prime at an input meets it at most if freed there;
//! one that conflicts nowhere is put back as it is, if it has `-` at some literal of the prime.

ghost use Rattle.std.specs.Prelude.{◌≡◌, ◌||◌, true, false, IfOk, IfSome, OnOk};
ghost use Rattle.cube.specs.Cube.{HasSize, SameSize, Place, holds, size_of};
ghost use Rattle.cover.specs.Cubes.{AreCubes};
ghost use Rattle.cover.specs.Places.{places};
ghost use Rattle.minimum.specs.Neighbours.{held_by, IsAloneByInputs, IsAloneByOutputs, AddsNeighbours, AreNeighbours};

use cover::Cover;
use cube::{Cube, Symbol};
use std::alloc::{AllocError, Global};

/// The row put back by the steps at inputs: freed of the first literal that is opposite to the
/// prime's, or as it is where it has `-` at a literal of the prime; else `None`.
fn neighbour_by_inputs(prime: &Cube, row: &Cube) -> Result<Option<Cube>, AllocError>
    requires { SameSize row.now prime.now }
    ensures size { IfOk result (λ found. IfSome found (λ c. SameSize c row.now)) }
    ensures none { IfOk result (λ found. (p : Place) → holds prime.now p ≡ true
        → held_by found p ≡ false → IsAloneByInputs (holds row.now) prime.now p) }
    ensures some { IfOk result (λ found. (p : Place) → holds prime.now p ≡ true
        → held_by found p ≡ true → IsAloneByInputs (holds row.now) prime.now p → ⊥) }
{
    if let Some(i) = prime.next_opposite(row, 0) {
        return Ok(Some(row.with_symbol(i, Symbol::Dash)?));
    }
    if prime.next_beyond(row, 0).is_some() {
        return Ok(Some(row.try_clone()?));
    }
    Ok(None)
}

/// The row put back by the steps to outputs that the prime lacks; `None` if it has no such output,
/// or conflicts with the prime at an input.
fn neighbour_by_outputs(prime: &Cube, row: &Cube) -> Result<Option<Cube>, AllocError>
    requires { SameSize row.now prime.now }
    ensures size { IfOk result (λ found. IfSome found (λ c. SameSize c row.now)) }
    ensures none { IfOk result (λ found. (p : Place) → holds prime.now p ≡ true
        → held_by found p ≡ false → IsAloneByOutputs (holds row.now) prime.now p) }
    ensures some { IfOk result (λ found. (p : Place) → holds prime.now p ≡ true
        → held_by found p ≡ true → IsAloneByOutputs (holds row.now) prime.now p → ⊥) }
{
    if !row.has_outputs_beyond(prime) {
        return Ok(None);
    }
    row.output_consensus(prime)
}

/// Adds the cube, if there is one that meets the prime.
pub(crate) fn add_meeting(
    near: &mut Vec<Cube>,
    prime: &Cube,
    found: Option<Cube>,
) -> Result<(), AllocError>
    requires { IfSome found (λ c. SameSize c prime.now) }
    ensures size { OnOk result (AreCubes (size_of prime.now) near.old.items
        → AreCubes (size_of prime.now) near.new.items) }
    ensures places { OnOk result ((p : Place) → holds prime.now p ≡ true
        → places near.new.items p ≡ (places near.old.items p || held_by found p)) }
{
    if let Some(cube) = found {
        if !cube.disjoint(prime) {
            near.push(cube)?;
        }
    }
    Ok(())
}

/// Adds up to two cubes. In the prime the first holds the places from which a step at an input leads
/// into the row, the second those from which a step to an output does that the prime lacks.
fn add_neighbours(near: &mut Vec<Cube>, prime: &Cube, row: &Cube) -> Result<(), AllocError>
    requires { SameSize row.now prime.now }
    ensures { OnOk result (AddsNeighbours prime.now row.now near.old.items near.new.items) }
{
    add_meeting(near, prime, neighbour_by_inputs(prime, row)?)?;
    add_meeting(near, prime, neighbour_by_outputs(prime, row)?)
}

/// The rows of the list put back by all steps out of the prime.
pub(crate) fn neighbours(alloc: Global, rows: &Cover, prime: &Cube) -> Result<Vec<Cube>, AllocError>
    requires { HasSize prime.now rows.now.size }
    ensures { IfOk result (λ near. AreNeighbours prime.now rows.now.cubes near.items) }
{
    let mut near = Vec::new(alloc);
    for row in rows.as_slice() {
        add_neighbours(&mut near, prime, row)?;
    }
    Ok(near)
}
