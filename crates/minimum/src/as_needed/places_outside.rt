//! Places outside a list, as cubes that are found when they are needed.
//!
//! Where a list does not hold the whole of a cube, it leaves out a part. This is grown to a cube that
//! is as large as can be without a place of the list. So one such cube refuses many others.

ghost use Rattle.std.specs.Prelude.{◌≡◌, ◌<◌, [], IfOk, OnOk, All};
ghost use Rattle.std.specs.List.{Contains};
ghost use Rattle.cube.specs.Cube.{Cube as Row, HasSize, IsCube, IsDisjoint, IsSubset, holds};
ghost use Rattle.cover.specs.Places.{places};
ghost use Rattle.minimum.specs.AsNeeded.{AreOutside};

use cover::Cover;
use cube::{Cube, Symbol};
use growth::{Growth, RowsByOutput, Side, add_copy, are_apart, grow};
use std::alloc::{AllocError, Global};

/// What the list leaves out of these cubes: one part of each that it does not hold, and nothing for one
/// that it holds, where [`Cover::parts_left_out`] has a `None`.
pub(crate) fn parts_not_held(
    alloc: Global,
    list: &Cover,
    cubes: &[Cube],
) -> Result<Vec<Cube>, AllocError>
    requires { All (λ d. HasSize d list.now.size) cubes.now }
    ensures held { IfOk result (λ parts. parts.items ≡ []
        → All (λ d. IsSubset (holds d) (places list.now.cubes)) cubes.now) }
    ensures cubes { IfOk result (λ parts. (c : Row) → Contains parts.items c
        → IsCube list.now.size c) }
    ensures apart { IfOk result (λ parts. (c : Row) → Contains parts.items c
        → IsDisjoint (holds c) (places list.now.cubes)) }
{
    let found = list.parts_left_out(cubes)?;
    let mut parts = Vec::new(alloc);
    for part in &found {
        if let Some(part) = part {
            parts.push(part.try_clone()?)?;
        }
    }
    Ok(parts)
}

/// Adds to `outside` a cube that contains the part, of which the list has no place: it is grown as
/// long as the list has none of it.
fn add_grown(
    alloc: Global,
    all: &RowsByOutput,
    part: &Cube,
    outside: &mut Cover,
) -> Result<(), AllocError>
    requires part { IsCube all.now.size part.now }
    requires apart { IsDisjoint (holds part.now) (places all.now.cubes) }
    requires outside { AreOutside all.now outside.old }
    ensures { OnOk result (AreOutside all.now outside.new) }
{
    let Growth { cube, near: _ } = grow(alloc, Side::Outside, all, part)?;
    add_copy(outside, &cube)
}

/// Adds to `outside` a cube grown from each of the parts, of which the list has no place, unless a
/// cube there meets the part.
pub(crate) fn add_refusals(
    alloc: Global,
    all: &RowsByOutput,
    parts: &[Cube],
    outside: &mut Cover,
) -> Result<(), AllocError>
    requires parts { (c : Row) → Contains parts.now c → IsCube all.now.size c }
    requires apart { (c : Row) → Contains parts.now c → IsDisjoint (holds c) (places all.now.cubes) }
    requires outside { AreOutside all.now outside.old }
    ensures { OnOk result (AreOutside all.now outside.new) }
{
    for part in parts {
        if are_apart(outside.as_slice(), part) {
            add_grown(alloc, all, part, outside)?;
        }
    }
    Ok(())
}

/// Takes the cube's literal at an input away, if the list holds what is left. Else the cube stays,
/// and `outside` has a place of what would be left: a cube is added if none there had one.
fn without_literal(
    alloc: Global,
    all: &RowsByOutput,
    i: usize,
    cube: &mut Cube,
    outside: &mut Cover,
) -> Result<(), AllocError>
    requires input { i < all.now.size.inputs }
    requires cube { IsCube all.now.size cube.old }
    requires outside { AreOutside all.now outside.old }
    ensures cube { OnOk result (IsCube all.now.size cube.new) }
    ensures outside { OnOk result (AreOutside all.now outside.new) }
{
    let wide = cube.with_symbol(i, Symbol::Dash)?;
    if !are_apart(outside.as_slice(), &wide) {
        return Ok(());
    }
    match all.list().part_left_out(&wide)? {
        Some(part) => add_grown(alloc, all, &part, outside),
        None => {
            *cube = wide;
            Ok(())
        }
    }
}

/// Adds cubes with places outside that refuse a growth of the point. Columns are grown from the
/// point, and most of these cubes would be asked for in their turn.
pub(crate) fn add_refusals_of_growth(
    alloc: Global,
    all: &RowsByOutput,
    point: &Cube,
    outside: &mut Cover,
) -> Result<(), AllocError>
    requires point { IsCube all.now.size point.now }
    requires outside { AreOutside all.now outside.old }
    ensures { OnOk result (AreOutside all.now outside.new) }
{
    let mut cube = point.try_clone()?;
    for i in 0..all.shape().inputs() {
        without_literal(alloc, all, i, &mut cube, outside)?;
    }
    Ok(())
}
