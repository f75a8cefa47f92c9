//! Lists of rows, and references to them, as `rows`, `regions` and `sums` take them.
ghost use Rattle.std.specs.Prelude.{◌≡◌, IfOk, All};
ghost use Rattle.cube.specs.Cube.{HasSize};
ghost use Rattle.rows.specs.Cubes.{AreCubes};
ghost use Rattle.rows.specs.Places.{behind};

use crate::row_texts::{new_shape, same_shape};
use crate::rules::{Rows, Rule};
use cover::Cover;
use cube::{Cube, Shape};
use rows::{clone_cubes, references_to_cubes};
use std::alloc::{AllocError, Global};

pub(crate) const NONE: Rows = (Rule::Universe, 0, 0);

pub(crate) const UNIVERSE: Rows = (Rule::Universe, 0, 1);

// The places with `0`, and those with `1`, at the first input.
pub(crate) const HALF: Rows = (Rule::Zeros, 1, 2);

pub(crate) const REST: Rows = (Rule::Stairs, 0, 1);

// All points of 16 inputs, and those of each half.
pub(crate) const LONG: Rows = (Rule::Points, 0, 65_536);

pub(crate) const LONG_HALF: Rows = (Rule::Points, 0, 32_768);

pub(crate) const LONG_REST: Rows = (Rule::Points, 32_768, 65_536);

// Those of each half with the first 13 of the most inputs.
pub(crate) const WIDE: Rows = (Rule::Front, 0, 8192);

pub(crate) const WIDE_HALF: Rows = (Rule::Front, 0, 4096);

pub(crate) const WIDE_REST: Rows = (Rule::Front, 4096, 8192);

// The shape of a case's lists.
#[derive(Clone, Copy)]
pub(crate) enum Size {
    Small,
    // For lists of many rows.
    Long,
    // Of several words.
    Odd,
    // The most inputs and outputs.
    Wide,
}

pub(crate) fn shape_of(size: Size) -> Result<Shape, AllocError> {
    match size {
        Size::Small => new_shape(2, 1),
        Size::Long => new_shape(16, 1),
        Size::Odd => new_shape(300, 1),
        Size::Wide => new_shape(1024, 1024),
    }
}

// References to the cubes of a list.
pub(crate) fn references_to(alloc: Global, list: &Cover) -> Result<Vec<&Cube>, AllocError>
    ensures cubes { IfOk result (λ refs. behind refs.items ≡ list.now.cubes) }
    ensures sizes { IfOk result (λ refs. All (λ d. HasSize d.now list.now.size) refs.items) }
{
    references_to_cubes(alloc, list.as_slice())
}

// Copies of the cubes of a list.
pub(crate) fn copies_of(alloc: Global, list: &Cover) -> Result<Vec<Cube>, AllocError>
    ensures { IfOk result (λ copies. AreCubes list.now.size copies.items) }
{
    clone_cubes(alloc, list.as_slice())
}

// The first cube of a list.
pub(crate) fn first_of(list: &Cover) -> Result<&Cube, AllocError>
    ensures { IfOk result (λ c. HasSize c.now list.now.size) }
{
    let first = list.get(0).ok_or(AllocError)?;
    same_shape(list.shape(), first.shape())?;
    Ok(first)
}
