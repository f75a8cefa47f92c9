//! Growth of a cube to a prime.
//!
//! The cube is freed of a literal, or gets an output, as long as it stays an implicant. A larger
//! cube asks for more, so that a step that was refused stays refused, and each is tried once. Only
//! what the step adds is asked for, and only of the rows near the cube: where it lost a literal,
//! these are looked for again. Where most rows are near, those are asked that have an output of
//! what the step adds. Most outputs are refused by what the rows reach in a part of the cube.

ghost use Rattle.std.specs.Prelude.{◌≡◌, ◌<◌, ◌↔◌, IsTrue, IfOk, OnOk, All};
ghost use Rattle.cube.specs.Cube.{HasSize, SameSize, IsCube, IsSubset, holds};
ghost use Rattle.rows.specs.Places.{behind};
ghost use Rattle.growth.specs.RowsByOutput.{HoldSame};
ghost use Rattle.growth.specs.Growth.{on_side, Grows, IsGrown, IsSettledInput, IsSettledOutput, IsFreedAt, AreFirst, AreNear, AreReached, near_or};

use crate::holding::hold_cube;
use crate::near_rows::{rows_near, rows_to_ask};
use crate::reached_outputs::{is_refused, outputs_at, part_of};
use crate::rows_by_output::RowsByOutput;
use cover::Cover;
use cube::{Cube, Symbol};
use rows::{cube_of_output, is_disjoint_from_all, opposite, references_to_cubes};
use std::alloc::{AllocError, Global};

/// Where implicants lie: inside a list of cubes, or outside it.
#[derive(Clone, Copy)]
pub enum Side {
    /// An implicant lies within the rows, as those of ON with DC.
    Inside,
    /// An implicant meets none of the rows, as those of OFF.
    Outside,
}

/// Rows that hold the same places of the cube as the rows near do, or as all rows where `near` is
/// `None`: then those that have one of its outputs, where these are few.
fn rows_asked<'a>(
    alloc: Global,
    rows: &'a RowsByOutput,
    near: &'a Option<Cover>,
    cube: &Cube,
) -> Result<Vec<&'a Cube>, AllocError>
    requires size { HasSize cube.now rows.now.size }
    requires near { (near_or rows.now near.now).size ≡ rows.now.size }
    ensures sizes { IfOk result (λ asked. All (λ d. SameSize d.now cube.now) asked.items) }
    ensures same { IfOk result
        (λ asked. HoldSame cube.now (behind asked.items) (near_or rows.now near.now).cubes) }
{
    if near.is_none() {
        if let Some(reaching) = rows.rows_reaching(alloc, cube)? {
            return Ok(reaching);
        }
    }
    references_to_cubes(alloc, rows_to_ask(rows, near).as_slice())
}

/// Whether the cube lies on that side of the rows near, or of all rows where `near` is `None`.
fn is_implicant(
    alloc: Global,
    side: Side,
    rows: &RowsByOutput,
    near: &Option<Cover>,
    cube: &Cube,
) -> Result<bool, AllocError>
    requires size { HasSize cube.now rows.now.size }
    requires near { (near_or rows.now near.now).size ≡ rows.now.size }
    ensures { IfOk result (λ b. IsTrue b
        ↔ IsSubset (holds cube.now) (on_side side (near_or rows.now near.now).cubes)) }
{
    let asked = rows_asked(alloc, rows, near, cube)?;
    match side {
        Side::Inside => hold_cube(alloc, &asked, cube),
        Side::Outside => Ok(is_disjoint_from_all(cube, &asked)),
    }
}

/// A cube that grows, and the rows near it.
#[derive(Drop)]
pub struct Growth {
    /// The cube.
    pub cube: Cube,
    /// Rows that hold the same places in the cube and a step out of it as all rows do; `None`
    /// stands for all rows.
    pub near: Option<Cover>,
}

/// Takes the cube's literal at an input away, if what is left is an implicant.
fn without_literal(
    alloc: Global,
    side: Side,
    rows: &RowsByOutput,
    growth: &mut Growth,
    i: usize,
) -> Result<(), AllocError>
    requires is_cube { IsCube rows.now.size growth.old.cube }
    requires near { AreNear growth.old.cube rows.now (near_or rows.now growth.old.near) }
    requires input { i < rows.now.size.inputs }
    ensures grows { OnOk result
        (Grows rows.now.size (on_side side rows.now.cubes) growth.old.cube growth.new.cube) }
    ensures near { OnOk result
        (AreNear growth.new.cube rows.now (near_or rows.now growth.new.near)) }
    ensures settled { OnOk result
        (IsSettledInput rows.now.size (on_side side rows.now.cubes) growth.new.cube i) }
    ensures freed { OnOk result (IsFreedAt i growth.old.cube growth.new.cube) }
{
    let literal = growth.cube.symbol(i);
    if literal == Symbol::Dash {
        return Ok(());
    }
    let rest = growth.cube.with_symbol(i, opposite(literal))?;
    if !is_implicant(alloc, side, rows, &growth.near, &rest)? {
        return Ok(());
    }
    growth.cube.set_symbol(i, Symbol::Dash);
    if growth.near.is_none() {
        return Ok(());
    }
    growth.near = rows_near(alloc, rows, &growth.cube)?;
    Ok(())
}

/// Gives the cube an output, if it then is an implicant. `reached` has the outputs that rows reach
/// in a part of the cube, by which most outputs are refused without a look at the rows.
fn with_output(
    alloc: Global,
    side: Side,
    rows: &RowsByOutput,
    reached: &Cube,
    growth: &mut Growth,
    j: usize,
) -> Result<(), AllocError>
    requires is_cube { IsCube rows.now.size growth.old.cube }
    requires near { AreNear growth.old.cube rows.now (near_or rows.now growth.old.near) }
    requires reached { AreReached growth.old.cube rows.now.cubes reached.now }
    requires output { j < rows.now.size.outputs }
    ensures grows { OnOk result
        (Grows rows.now.size (on_side side rows.now.cubes) growth.old.cube growth.new.cube) }
    ensures near { OnOk result
        (AreNear growth.new.cube rows.now (near_or rows.now growth.new.near)) }
    ensures settled { OnOk result
        (IsSettledOutput rows.now.size (on_side side rows.now.cubes) growth.new.cube j) }
    ensures symbols { OnOk result (growth.new.cube.symbols ≡ growth.old.cube.symbols) }
{
    if growth.cube.output(j) {
        return Ok(());
    }
    if is_refused(side, reached, j) {
        return Ok(());
    }
    let output = cube_of_output(alloc, rows.shape(), j)?;
    let Some(wide) = growth.cube.output_consensus(&output)? else {
        unreachable!()
    };
    let rest = wide.without_outputs(&growth.cube)?;
    if !is_implicant(alloc, side, rows, &growth.near, &rest)? {
        return Ok(());
    }
    growth.cube = wide;
    Ok(())
}

/// The cube without the literals that it can do without, taken away one after the other from the
/// first input on, and the rows near it.
fn grow_at_inputs(
    alloc: Global,
    side: Side,
    rows: &RowsByOutput,
    cube: &Cube,
) -> Result<Growth, AllocError>
    requires { IsCube rows.now.size cube.now }
    ensures grown { IfOk result
        (λ g. IsGrown rows.now.size (on_side side rows.now.cubes) cube.now g.cube
        rows.now.size.inputs 0) }
    ensures near { IfOk result (λ g. AreNear g.cube rows.now (near_or rows.now g.near)) }
    ensures first { IfOk result
        (λ g. AreFirst rows.now.size (on_side side rows.now.cubes) cube.now g.cube.symbols) }
{
    let near = rows_near(alloc, rows, cube)?;
    let mut growth = Growth {
        cube: cube.try_clone()?,
        near,
    };
    for i in 0..rows.shape().inputs() {
        without_literal(alloc, side, rows, &mut growth, i)?;
    }
    Ok(growth)
}

/// A prime that contains the cube, if the cube is an implicant, with the rows near the prime: the
/// first in row order, as each literal is taken away that can be, from the first on.
///
/// It costs a look at all rows, and one more for each literal that is freed; what else is asked for
/// is asked of the rows near the cube, and of these for few outputs.
///
/// # Errors
///
/// [`AllocError`] if memory is refused.
pub fn grow(
    alloc: Global,
    side: Side,
    rows: &RowsByOutput,
    cube: &Cube,
) -> Result<Growth, AllocError>
    requires { IsCube rows.now.size cube.now }
    ensures grown { IfOk result
        (λ g. IsGrown rows.now.size (on_side side rows.now.cubes) cube.now g.cube
        rows.now.size.inputs rows.now.size.outputs) }
    ensures near { IfOk result (λ g. AreNear g.cube rows.now (near_or rows.now g.near)) }
    ensures first { IfOk result
        (λ g. AreFirst rows.now.size (on_side side rows.now.cubes) cube.now g.cube.symbols) }
{
    let mut growth = grow_at_inputs(alloc, side, rows, cube)?;
    let part = part_of(side, &growth.cube)?;
    let reached = outputs_at(rows_to_ask(&*rows, &growth.near), part)?;
    for j in 0..rows.shape().outputs() {
        with_output(alloc, side, rows, &reached, &mut growth, j)?;
    }
    Ok(growth)
}
