//! Whether the places that two lists have in common lie in a third.
//!
//! Rows are halved while they are more than 16; a half that is disjoint from the mask is dropped
//! after one question. Of the rows left all meets with the mask are formed and asked for. So lists
//! without a place in common cost one question, and no more meets are kept at a time than 16 rows
//! have with the mask.
ghost use Rattle.std.specs.Prelude.{◌↔◌, IsTrue, IfOk, All};
ghost use Rattle.cube.specs.Cube.{HasSize, IsSubset, intersection};
ghost use Rattle.rows.specs.Cubes.{AreCubes};
ghost use Rattle.rows.specs.Places.{places, behind};

use crate::pairwise::{Relation, are_disjoint, are_related};
use cube::{Cube, Shape};
use rows::{meets_by_pairs, references_to_cubes};
use std::alloc::{AllocError, Global};

// Lists of at most this many rows are not halved.
const FEW: usize = 16;

/// Whether the others hold each meet of a row with a cube of the mask; `true` if there is none.
/// Many rows are asked for half by half.
pub fn are_meets_held_by_halves(
    alloc: Global,
    shape: Shape,
    rows: &[Cube],
    mask: &[Cube],
    others: &[&Cube],
) -> Result<bool, AllocError>
    requires rows { AreCubes shape rows.now }
    requires mask { AreCubes shape mask.now }
    requires others { All (λ d. HasSize d.now shape) others.now }
    ensures { IfOk result
        (λ held. IsTrue held ↔ IsSubset (intersection (places rows.now) (places mask.now))
        (places (behind others.now))) }
{
    if rows.len() <= FEW {
        let meets = meets_by_pairs(alloc, rows, mask)?;
        let met = references_to_cubes(alloc, &meets)?;
        let depth = shape.inputs();
        return are_related(alloc, shape, Relation::Contained, depth, &met, others);
    }
    if are_disjoint(alloc, shape, rows, mask)? {
        return Ok(true);
    }
    let (front, back) = rows.split_at(rows.len() / 2);
    if !are_meets_held_by_halves(alloc, shape, front, mask, others)? {
        return Ok(false);
    }
    are_meets_held_by_halves(alloc, shape, back, mask, others)
}
