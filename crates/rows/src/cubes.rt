//! The cube of all places, and the cube of one output.
ghost use Rattle.std.specs.Prelude.{◌≡◌, ◌<◌, IfOk, slice_set, replicate, true, false};
ghost use Rattle.cube.specs.Cube.{IsCube};
ghost use Rattle.rows.specs.Places.{universal};

use cube::{Cube, Shape, Symbol};
use std::alloc::{AllocError, Global};

/// The cube of every place.
pub fn universal_cube(alloc: Global, shape: Shape) -> Result<Cube, AllocError>
    ensures value { IfOk result (λ c. c ≡ universal shape) }
    ensures is_cube { IfOk result (λ c. IsCube shape c) }
{
    let symbols = vec![in alloc; Symbol::Dash; shape.inputs()]?;
    let outputs = vec![in alloc; true; shape.outputs()]?;
    match Cube::from_symbols(alloc, shape, &symbols, &outputs)? {
        Some(cube) => Ok(cube),
        None => unreachable!(),
    }
}

/// The cube of all places with this output.
pub fn cube_of_output(alloc: Global, shape: Shape, j: usize) -> Result<Cube, AllocError>
    requires { j < shape.outputs }
    ensures { IfOk result (λ c. c ≡ record {
      symbols = replicate shape.inputs Symbol.Dash;
      outputs = slice_set (replicate shape.outputs false) j true;
    }) }
{
    let symbols = vec![in alloc; Symbol::Dash; shape.inputs()]?;
    let mut outputs = vec![in alloc; false; shape.outputs()]?;
    outputs[j] = true;
    match Cube::from_symbols(alloc, shape, &symbols, &outputs)? {
        Some(cube) => Ok(cube),
        None => unreachable!(),
    }
}
