//! Cubes and lists from rows of text, and back.
ghost use Rattle.std.specs.Prelude.{◌≡◌, IfOk, OnOk};

use cover::Cover;
use cube::{Cube, Shape, Symbol};
use std::alloc::{AllocError, Global};

// The shape of so many inputs and outputs.
pub(crate) fn new_shape(inputs: usize, outputs: usize) -> Result<Shape, AllocError> {
    Shape::new(inputs, outputs).ok_or(AllocError)
}

// The cube of these symbols and outputs, or `None` where it has no output.
pub(crate) fn cube_of_symbols(
    alloc: Global,
    symbols: &[Symbol],
    outputs: &[bool],
) -> Result<Option<Cube>, AllocError> {
    let Some(shape) = Shape::new(symbols.len(), outputs.len()) else {
        return Err(AllocError);
    };
    Cube::from_symbols(alloc, shape, symbols, outputs)
}

// The cube of a row's bytes, where a mark is 1 for `1` and `4`, and 2 for `-`.
pub(crate) fn cube_of_bytes(
    alloc: Global,
    inputs: &[u8],
    outputs: &[u8],
    mask: u8,
) -> Result<Option<Cube>, AllocError> {
    let Some(shape) = Shape::new(inputs.len(), outputs.len()) else {
        return Err(AllocError);
    };
    let mut marks = [0u8; 256];
    marks[49] = 1;
    marks[52] = 1;
    marks[45] = 2;
    Cube::from_bytes(alloc, shape, inputs, outputs, &marks, mask)
}

// How many bytes stand before the space.
fn inputs_of(row: &[u8]) -> usize {
    for i in 0..row.len() {
        if row[i] == b' ' {
            return i;
        }
    }
    row.len()
}

// The cube of a row, with so many inputs before those of the row, at which it has `-`.
fn wide_cube_of(alloc: Global, row: &str, more: usize) -> Result<Cube, AllocError> {
    let row = row.as_bytes();
    let inputs = inputs_of(row);
    if inputs >= row.len() {
        return Err(AllocError);
    }
    let mut symbols: Vec<u8> = vec![in alloc; b'-'; more]?;
    symbols.extend_from_slice(&row[..inputs])?;
    cube_of_bytes(alloc, &symbols, &row[inputs + 1..], 1)?.ok_or(AllocError)
}

// The cube of a row: symbols, a space, outputs.
pub(crate) fn cube_of(alloc: Global, row: &str) -> Result<Cube, AllocError> {
    wide_cube_of(alloc, row, 0)
}

// How many inputs stand before those of the row in a list of so many.
fn inputs_before(inputs: usize, row: &str) -> usize {
    inputs.saturating_sub(inputs_of(row.as_bytes()))
}

// Fails where the shapes are not the same.
pub(crate) fn same_shape(mine: Shape, theirs: Shape) -> Result<(), AllocError>
    ensures { OnOk result (theirs ≡ mine) }
{
    if mine != theirs {
        return Err(AllocError);
    }
    Ok(())
}

pub(crate) fn push(list: &mut Cover, row: Cube) -> Result<(), AllocError> {
    same_shape(list.shape(), row.shape())?;
    list.push(row).ok().ok_or(AllocError)
}

// Whether the part lies in the cube and meets no cube of the list.
fn is_left_out(list: &Cover, cube: &Cube, part: &Cube) -> Result<bool, AllocError> {
    same_shape(cube.shape(), part.shape())?;
    for row in list.as_slice() {
        same_shape(row.shape(), part.shape())?;
        if !part.disjoint(row) {
            return Ok(false);
        }
    }
    Ok(cube.contains(part))
}

// Fails unless a part of the cube is left out, or none is left out of a cube that is held.
fn fits(list: &Cover, cube: &Cube, held: bool, part: &Option<Cube>) -> Result<(), AllocError> {
    let is_fit = match part {
        Some(part) => !held && is_left_out(list, cube, part)?,
        None => held,
    };
    if !is_fit {
        return Err(AllocError);
    }
    Ok(())
}

// Whether the list holds the cube. Fails where it leaves out another part.
pub(crate) fn holds(list: &Cover, cube: &Cube) -> Result<bool, AllocError> {
    same_shape(list.shape(), cube.shape())?;
    let held = list.holds_cube(cube)?;
    fits(list, cube, held, &list.part_left_out(cube)?)?;
    Ok(held)
}

// Fails where calls for each of the cubes answer otherwise than one for all.
fn are_held_alone(list: &Cover, cubes: &[Cube], held: &[bool]) -> Result<(), AllocError> {
    if held.len() != cubes.len() {
        return Err(AllocError);
    }
    for k in 0..cubes.len() {
        if holds(list, &cubes[k])? != held[k] {
            return Err(AllocError);
        }
    }
    Ok(())
}

// Fails unless a part of each cube is left out, or none of those that are held.
fn all_fit(
    list: &Cover,
    cubes: &[Cube],
    held: &[bool],
    parts: &[Option<Cube>],
) -> Result<(), AllocError> {
    if held.len() != cubes.len() || parts.len() != cubes.len() {
        return Err(AllocError);
    }
    for k in 0..cubes.len() {
        fits(list, &cubes[k], held[k], &parts[k])?;
    }
    Ok(())
}

// Which of the cubes the list holds, in one call. Fails where calls for each of them answer
// otherwise, or where the list leaves out another part of one.
pub(crate) fn held_of(list: &Cover, cubes: &Cover) -> Result<Vec<bool>, AllocError> {
    same_shape(list.shape(), cubes.shape())?;
    let held = list.holds_cubes(cubes.as_slice())?;
    are_held_alone(list, cubes.as_slice(), &held)?;
    let parts = list.parts_left_out(cubes.as_slice())?;
    all_fit(list, cubes.as_slice(), &held, &parts)?;
    Ok(held)
}

// The list of these rows, wider ones where the shape has more inputs.
pub(crate) fn cover_of(alloc: Global, shape: Shape, rows: &[&str]) -> Result<Cover, AllocError>
    ensures { IfOk result (λ c. c.size ≡ shape) }
{
    let mut list = Cover::new(alloc, shape);
    for row in rows {
        let more = inputs_before(shape.inputs(), row);
        push(&mut list, wide_cube_of(alloc, row, more)?)?;
    }
    same_shape(shape, list.shape())?;
    Ok(list)
}

pub(crate) fn byte_of(symbol: Symbol) -> u8 {
    match symbol {
        Symbol::Dash => b'-',
        Symbol::Zero => b'0',
        Symbol::One => b'1',
    }
}

// The byte at this place of the cube's line.
fn byte_at(cube: &Cube, k: usize) -> u8 {
    let shape = cube.shape();
    let inputs = shape.inputs();
    if k < inputs {
        byte_of(cube.symbol(k))
    } else if k == inputs {
        b' '
    } else if k - inputs > shape.outputs() {
        b'\n'
    } else if cube.output(k - inputs - 1) {
        b'1'
    } else {
        b'0'
    }
}

// Whether the cube is written so, after `-` for the inputs that the row lacks.
pub(crate) fn is_written(cube: &Cube, row: &str) -> bool {
    let more = inputs_before(cube.shape().inputs(), row);
    for k in 0..more {
        if byte_at(cube, k) != b'-' {
            return false;
        }
    }
    let row = row.as_bytes();
    for k in 0..row.len() {
        if row[k] != byte_at(cube, k.saturating_add(more)) {
            return false;
        }
    }
    byte_at(cube, row.len().saturating_add(more)) == b'\n'
}

// Whether the cubes are written so, each as a row.
pub(crate) fn are_written(cubes: &[Cube], rows: &[&str]) -> bool {
    if cubes.len() != rows.len() {
        return false;
    }
    for k in 0..rows.len() {
        if !is_written(&cubes[k], rows[k]) {
            return false;
        }
    }
    true
}
