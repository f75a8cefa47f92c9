//! Copies of lists, references to their cubes, and whether a row meets a cube of a list (`any_meets`) or
//! none (`is_disjoint_from_all`).
ghost use Rattle.std.specs.Prelude.{◌↔◌, ◌<◌, IsTrue, IfOk, All, ◌≡◌, ◌++◌, false};
ghost use Rattle.cube.specs.Cube.{SameSize, IsDisjoint, holds};
ghost use Rattle.rows.specs.Places.{places, behind};

use cube::Cube;
use std::alloc::{AllocError, Global};

/// Whether the row has no place in common with any of the others.
pub fn is_disjoint_from_all(row: &Cube, others: &[&Cube]) -> bool
    requires { All (λ d. SameSize row.now d.now) others.now }
    ensures { IsTrue result ↔ IsDisjoint (holds row.now) (places (behind others.now)) }
{
    for other in others {
        if !row.disjoint(other) {
            return false;
        }
    }
    true
}

/// Copies of the cubes, in their order.
pub fn clone_cubes(alloc: Global, cubes: &[Cube]) -> Result<Vec<Cube>, AllocError>
    ensures { IfOk result (λ copy. copy.items ≡ cubes.now) }
{
    with_copies(Vec::with_capacity(alloc, cubes.len())?, cubes)
}

/// The list, with copies of the cubes after its own.
pub fn with_copies(list: Vec<Cube>, cubes: &[Cube]) -> Result<Vec<Cube>, AllocError>
    ensures { IfOk result (λ all. all.items ≡ list.items ++ cubes.now) }
{
    let mut all = list;
    all.reserve(cubes.len())?;
    for cube in cubes {
        all.push(cube.try_clone()?)?;
    }
    Ok(all)
}

/// Copies of the cubes that the references refer to, in their order.
pub fn clone_referents(alloc: Global, rows: &[&Cube]) -> Result<Vec<Cube>, AllocError>
    ensures { IfOk result (λ copies. copies.items ≡ behind rows.now) }
{
    let mut copies = Vec::with_capacity(alloc, rows.len())?;
    for row in rows {
        copies.push(row.try_clone()?)?;
    }
    Ok(copies)
}

/// Whether some cube has a place of the row.
pub fn any_meets(cubes: &[Cube], row: &Cube) -> bool
    requires { All (λ d. SameSize d row.now) cubes.now }
    ensures { result ≡ false ↔ All (λ d. IsDisjoint (holds d) (holds row.now)) cubes.now }
{
    for cube in cubes {
        if !cube.disjoint(row) {
            return true;
        }
    }
    false
}

/// References to the cubes of a list, in their order.
pub fn references_to_cubes(alloc: Global, cubes: &[Cube]) -> Result<Vec<&Cube>, AllocError>
    ensures { IfOk result (λ refs. behind refs.items ≡ cubes.now) }
{
    cubes.iter().collect(alloc)
}
