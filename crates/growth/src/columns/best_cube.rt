//! The best of the cubes that contain a cube and meet none of a list.
//!
//! Each literal is taken away that can be, from the first input on, or where literals count, all but
//! the fewest; then each output is added that can be. What can not is told by a row of the list that
//! refuses it: the rows are a hint, and each is looked at. So a step costs a look at one row, and the
//! cube one at all rows.

ghost use Rattle.std.specs.Prelude.{◌≡◌, ◌<◌, true, IfOk, IfSome, OnOk};
ghost use Rattle.cube.specs.Cube.{IsCube, IsSubset, holds};
ghost use Rattle.growth.specs.declared.prime.Side.TheVariants.{Outside};
ghost use Rattle.growth.specs.Growth.{on_side, IsFreedAt, IsSettledInput, IsSettledOutput, IsSettledUpTo, AreFirst};
ghost use Rattle.growth.specs.Dominating.{IsBest, IsBestFreed};

use crate::columns::fewest_literals::fewest_literals;
use crate::columns::refusing_rows::RefusingRows;
use crate::cubes::are_apart;
use cover::Cover;
use covering::Choice;
use cube::{Cube, Symbol};
use rows::{cube_of_output, opposite};
use std::alloc::{AllocError, Global};

/// Frees the cube of its literal at an input, unless a row is named that refuses it. `false`, and
/// the cube as it was, if the row that is named does not: the hint is wrong.
fn settle_input(
    off: &Cover,
    cube: &mut Cube,
    i: usize,
    refusing: Option<usize>,
) -> Result<bool, AllocError>
    requires cube { IsCube off.now.size cube.old }
    requires input { i < off.now.size.inputs }
    ensures freed { OnOk result (IsFreedAt i cube.old cube.new) }
    ensures settled { IfOk result (λ b. b ≡ true
        → IsSettledInput off.now.size (on_side Outside off.now.cubes) cube.new i) }
{
    let literal = cube.symbol(i);
    if literal == Symbol::Dash {
        return Ok(true);
    }
    let Some(r) = refusing else {
        cube.set_symbol(i, Symbol::Dash);
        return Ok(true);
    };
    let Some(row) = off.get(r) else {
        return Ok(false);
    };
    let rest = cube.with_symbol(i, opposite(literal))?;
    Ok(!row.disjoint(&rest))
}

/// Gives the cube an output, unless a row is named that refuses it. `false`, and the cube as it
/// was, if the row that is named does not: the hint is wrong.
fn settle_output(
    alloc: Global,
    off: &Cover,
    cube: &mut Cube,
    j: usize,
    refusing: Option<usize>,
) -> Result<bool, AllocError>
    requires cube { IsCube off.now.size cube.old }
    requires output { j < off.now.size.outputs }
    ensures cube { OnOk result (IsCube off.now.size cube.new) }
    ensures over { OnOk result (IsSubset (holds cube.old) (holds cube.new)) }
    ensures symbols { OnOk result (cube.new.symbols ≡ cube.old.symbols) }
    ensures settled { IfOk result (λ b. b ≡ true
        → IsSettledOutput off.now.size (on_side Outside off.now.cubes) cube.new j) }
{
    if cube.output(j) {
        return Ok(true);
    }
    if let Some(r) = refusing {
        let Some(row) = off.get(r) else {
            return Ok(false);
        };
        return Ok(row.output(j) && cube.next_opposite(row, 0).is_none());
    }
    let output = cube_of_output(alloc, off.shape(), j)?;
    let Some(wide) = cube.output_consensus(&output)? else {
        return Ok(false);
    };
    *cube = wide;
    Ok(true)
}

/// The cube freed, from the first input on, of each literal for which no refusing row is named;
/// `None` if a row that is named does not refuse it.
fn first_at_inputs(
    off: &Cover,
    cube: &Cube,
    refusing: &[Option<usize>],
) -> Result<Option<Cube>, AllocError>
    requires { IsCube off.now.size cube.now }
    ensures settled { IfOk result (λ o. IfSome o (λ c. IsSettledUpTo off.now.size
        (on_side Outside off.now.cubes) cube.now c off.now.size.inputs 0)) }
    ensures first { IfOk result (λ o. IfSome o (λ c. AreFirst off.now.size
        (on_side Outside off.now.cubes) cube.now c.symbols)) }
{
    let mut grown = cube.try_clone()?;
    for i in 0..off.shape().inputs() {
        let row = if i < refusing.len() {
            refusing[i]
        } else {
            None
        };
        if !settle_input(off, &mut grown, i, row)? {
            return Ok(None);
        }
    }
    Ok(Some(grown))
}

/// The cube with each output for which no refusing row is named; `None` if a row that is named does
/// not refuse it.
fn with_outputs(
    alloc: Global,
    off: &Cover,
    cube: &Cube,
    refusing: &[Option<usize>],
) -> Result<Option<Cube>, AllocError>
    requires { IsCube off.now.size cube.now }
    ensures settled { IfOk result (λ o. IfSome o (λ c. IsSettledUpTo off.now.size
        (on_side Outside off.now.cubes) cube.now c 0 off.now.size.outputs)) }
    ensures symbols { IfOk result (λ o. IfSome o (λ c. c.symbols ≡ cube.now.symbols)) }
{
    let mut grown = cube.try_clone()?;
    for j in 0..off.shape().outputs() {
        let row = if j < refusing.len() {
            refusing[j]
        } else {
            None
        };
        if !settle_output(alloc, off, &mut grown, j, row)? {
            return Ok(None);
        }
    }
    Ok(Some(grown))
}

/// The cube freed of literals, as the choice says; or `None` where a hint is wrong, or the search for
/// the fewest literals took too long.
fn freed_cube(
    alloc: Global,
    off: &Cover,
    cube: &Cube,
    choice: Choice,
    refusing: &mut RefusingRows,
) -> Result<Option<Cube>, AllocError>
    requires { IsCube off.now.size cube.now }
    ensures { IfOk result (λ o. IfSome o (IsBestFreed choice off.now cube.now)) }
{
    match choice {
        Choice::First => {
            refusing.find_at_inputs(cube);
            let Some(first) = first_at_inputs(off, cube, &refusing.inputs)? else {
                return Ok(None);
            };
            Ok(Some(first))
        }
        Choice::Literals => {
            let Some(fewest) = fewest_literals(alloc, off, cube, &mut refusing.left)? else {
                return Ok(None);
            };
            Ok(Some(fewest))
        }
    }
}

/// The best of the cubes that contain the cube and meet none of the list, or `None` if the cube meets
/// one, or the search for the fewest literals took too long (or a hint is wrong). It costs some looks
/// at each of the list.
pub(crate) fn best_cube(
    alloc: Global,
    off: &Cover,
    cube: &Cube,
    choice: Choice,
    refusing: &mut RefusingRows,
) -> Result<Option<Cube>, AllocError>
    requires { IsCube off.now.size cube.now }
    ensures { IfOk result (λ o. IfSome o (IsBest choice off.now cube.now)) }
{
    let Some(freed) = freed_cube(alloc, off, cube, choice, refusing)? else {
        return Ok(None);
    };
    refusing.find_at_outputs(&freed);
    let Some(grown) = with_outputs(alloc, off, &freed, &refusing.outputs)? else {
        return Ok(None);
    };
    if !are_apart(off.as_slice(), &grown) {
        return Ok(None);
    }
    Ok(Some(grown))
}
