//! The rows of a list that matter to the cubes that contain a point.
//!
//! A cube that contains a point has no literals but some of the point's, and all outputs of it. So it
//! meets a row unless it has a literal at which the row has the other one, or no output of the row:
//! the row needs no literal that it shares with the point, and none where the point has none. Without
//! these many a row lies in another, and is not needed (the blocking matrix of Brayton et al. 1984,
//! kept as cubes). Of some thousand rows a hundred may be left.

ghost use Rattle.std.specs.Prelude.{◌≡◌, ◌<◌, IfOk, All, map, length};
ghost use Rattle.cube.specs.Size.{Size};
ghost use Rattle.cube.specs.Cube.{IsCube, SameSize, Cube as Row, size_of};
ghost use Rattle.cube.specs.Sharp.{opposite as opposite_of};
ghost use Rattle.growth.specs.Dominating.{HaveSameImplicantsOver, IsAgainst, IsWidened, IsAround};

use crate::cubes::{large_first, without_contained};
use cover::Cover;
use cube::{Cube, Shape, Symbol};
use rows::opposite;
use std::alloc::{AllocError, Global};

/// At each input of the cube the other literal, and a dash where it has none.
fn opposite_symbols(alloc: Global, cube: &Cube) -> Result<Vec<Symbol>, AllocError>
    ensures { IfOk result (λ v. v.items ≡ map opposite_of cube.now.symbols) }
{
    let mut symbols = Vec::new(alloc);
    for i in 0..cube.shape().inputs() {
        symbols.push(opposite(cube.symbol(i)))?;
    }
    Ok(symbols)
}

/// The cube with these symbols, and one output.
fn cube_with_symbols(
    alloc: Global,
    shape: Shape,
    symbols: &[Symbol],
    j: usize,
) -> Result<Cube, AllocError>
    requires symbols { length symbols.now ≡ shape.inputs }
    requires output { j < shape.outputs }
    ensures cube { IfOk result (λ c. IsCube shape c) }
    ensures symbols { IfOk result (λ c. c.symbols ≡ symbols.now) }
{
    let mut outputs = vec![in alloc; false; shape.outputs()]?;
    outputs[j] = true;
    match Cube::from_symbols(alloc, shape, symbols, &outputs)? {
        Some(cube) => Ok(cube),
        None => unreachable!(),
    }
}

/// For each output the cube of it that has at each input the opposite of the point's literal.
fn cubes_against(alloc: Global, point: &Cube) -> Result<Vec<Cube>, AllocError>
    ensures { IfOk result (λ v. All (IsAgainst (size_of point.now) point.now) v.items) }
{
    let shape = point.shape();
    let symbols = opposite_symbols(alloc, point)?;
    let mut cubes = Vec::new(alloc);
    for j in 0..shape.outputs() {
        cubes.push(cube_with_symbols(alloc, shape, &symbols, j)?)?;
    }
    Ok(cubes)
}

/// The first output of the cube, 0 if it has none.
fn first_output(cube: &Cube) -> usize {
    for w in 0..cube.shape().outputs() / 64 + 1 {
        let bits = cube.output_bits(w);
        if bits != 0 {
            return w
                .saturating_mul(64)
                .saturating_add(bits.trailing_zeros() as usize);
        }
    }
    0
}

/// The row without the literals that do not keep it apart from the cubes that contain the point.
fn widened(row: &Cube, against: &[Cube]) -> Result<Cube, AllocError>
    requires { All (λ a. SameSize a row.now) against.now }
    ensures { IfOk result (λ wide. (size : Size) (y : Row) → IsCube size row.now → IsCube size y
        → All (IsAgainst size y) against.now → IsWidened size y row.now wide) }
{
    let j = first_output(row);
    if j < against.len() {
        let other = &against[j];
        if !other.has_outputs_beyond(row) {
            let wide = row.join(other)?;
            return Ok(wide);
        }
    }
    row.try_clone()
}

/// The rows of the list, each without the literals that do not keep it apart from the cubes that
/// contain the point.
fn widened_rows(alloc: Global, off: &Cover, point: &Cube) -> Result<Cover, AllocError>
    requires { IsCube off.now.size point.now }
    ensures size { IfOk result (λ list. list.size ≡ off.now.size) }
    ensures around { IfOk result (λ list.
        IsAround off.now point.now off.now.cubes list.cubes) }
{
    let against = cubes_against(alloc, point)?;
    let mut rows = Vec::new(alloc);
    for row in off.as_slice() {
        rows.push(widened(row, &against)?)?;
    }
    Ok(Cover::from_cubes(off.shape(), rows))
}

/// Cubes that meet the same of the cubes that contain the point as the list.
pub(crate) fn rows_around(alloc: Global, off: &Cover, point: &Cube) -> Result<Cover, AllocError>
    requires { IsCube off.now.size point.now }
    ensures size { IfOk result (λ around. around.size ≡ off.now.size) }
    ensures same { IfOk result (λ around. HaveSameImplicantsOver off.now around point.now) }
{
    let rows = large_first(widened_rows(alloc, off, point)?)?;
    let around = without_contained(alloc, &rows)?;
    Ok(around)
}
