//! The ends of the recursion but for that of two rows: a row that holds everything, a row without a
//! literal, a unate list, and lists without a literal.
ghost use Rattle.std.specs.Prelude.{◌≡◌, ℕ, ◌<◌, ◌&&◌, ◌||◌, IfOk, IsTrue, All, Contains, length, slice_index_or, true, false};
ghost use Rattle.std.specs.List.{list_any};
ghost use Rattle.cube.specs.Size.{Size};
ghost use Rattle.cube.specs.Cube.{IsCube, SameSize, IsPlace, Place, holds, difference, Cube as Row};
ghost use Rattle.cube.specs.Sum.{complete_sum};
ghost use Rattle.sums.specs.Apart.{IsFree};
ghost use Rattle.rows.specs.Cubes.{AreCubes};
ghost use Rattle.rows.specs.Places.{places};
ghost use Rattle.rows.specs.Parts.{has_literal};
ghost use Rattle.rows.specs.Reduced.{IsUnate, LeftOutputs};

use cube::{Cube, Shape, Symbol};
use std::alloc::{AllocError, Global};

// Whether the first row and all of the rows have a place in common: their meet is not empty.
fn have_common_place(first: &Cube, rows: &[Cube]) -> Result<bool, AllocError>
    requires size { All (λ d. SameSize d first.now) rows.now }
    requires output { IsTrue (list_any (λ b. b) first.now.outputs) }
    ensures { IfOk result (λ some. IsTrue some → (p : Place)
        × All (λ d. IsTrue (holds d p)) rows.now) }
{
    let mut common = first.try_clone()?;
    for row in rows {
        match common.meet(row)? {
            Some(met) => common = met,
            None => return Ok(false),
        }
    }
    Ok(true)
}

// Whether two rows have the same outputs.
fn has_same_outputs(shape: Shape, row: &Cube, other: &Cube) -> bool
    requires row { IsCube shape row.now }
    requires other { IsCube shape other.now }
    ensures { IsTrue result → row.now.outputs ≡ other.now.outputs }
{
    for j in 0..shape.outputs() {
        if row.output(j) != other.output(j) {
            return false;
        }
    }
    true
}

/// Whether some rows differ in their first 64 outputs. It takes a look at a word of each row, and
/// no memory.
pub(crate) fn differ_in_first_outputs(rows: &[Cube]) -> bool {
    let outputs = match rows.first() {
        Some(first) => first.output_bits(0),
        None => 0,
    };
    for row in rows {
        if row.output_bits(0) != outputs {
            return true;
        }
    }
    false
}

// Whether all rows have the same outputs.
pub(crate) fn have_same_outputs(shape: Shape, rows: &[Cube]) -> bool
    requires { AreCubes shape rows.now }
    ensures { IsTrue result → (c d : Row) → Contains rows.now c → Contains rows.now d → c.outputs
        ≡ d.outputs }
{
    for row in rows {
        if !has_same_outputs(shape, &rows[0], row) {
            return false;
        }
    }
    true
}

/// Whether some row holds every place.
pub(crate) fn has_universal_row(rows: &[Cube]) -> bool
    ensures { IsTrue result → (size : Size) → AreCubes size rows.now → (p : Place)
        → IsPlace size p → IsTrue (places rows.now p) }
{
    for row in rows {
        if row.is_universal() {
            return true;
        }
    }
    false
}

/// Whether some row has no literal.
pub(crate) fn has_row_without_literals(rows: &[Cube]) -> bool
    ensures some { IsTrue result → (c : Row) × Contains rows.now c × IsFree c }
    ensures none { result ≡ false → All (λ c. IsFree c → ⊥) rows.now }
{
    for row in rows {
        if row.next_literal(0).is_none() {
            return true;
        }
    }
    false
}

/// Whether all rows have the same outputs and no input has both literals, so that they have a place
/// in common; `false` for an empty list.
pub(crate) fn is_unate(shape: Shape, rows: &[Cube]) -> Result<bool, AllocError>
    requires { AreCubes shape rows.now }
    ensures { IfOk result (λ unate. IsTrue unate → IsUnate shape rows.now) }
{
    let Some(first) = rows.first() else {
        return Ok(false);
    };
    if first.disjoint(&rows[rows.len() - 1]) || differ_in_first_outputs(rows) {
        return Ok(false);
    }
    if !have_common_place(first, rows)? {
        return Ok(false);
    }
    Ok(have_same_outputs(shape, rows))
}

// Whether some row has output `j`.
fn any_has_output(rows: &[Cube], j: usize) -> bool
    requires { All (λ d. j < length d.outputs) rows.now }
    ensures { result ≡ list_any (λ d. slice_index_or d.outputs j false) rows.now }
{
    for row in rows {
        if row.output(j) {
            return true;
        }
    }
    false
}

// For each output whether some row of the minuend has it, and no row of the subtrahend.
fn outputs_left_over(
    alloc: Global,
    shape: Shape,
    minuend: &[Cube],
    subtrahend: &[Cube],
) -> Result<Vec<bool>, AllocError>
    requires minuend { AreCubes shape minuend.now }
    requires subtrahend { AreCubes shape subtrahend.now }
    ensures { IfOk result (λ bits. LeftOutputs shape minuend.now subtrahend.now bits.items) }
{
    let mut bits = Vec::new(alloc);
    for j in 0..shape.outputs() {
        bits.push(any_has_output(minuend, j) && !any_has_output(subtrahend, j))?;
    }
    Ok(bits)
}

/// The complete sum of the places of the minuend that are not in the subtrahend, where no row of
/// either has a literal: one row, or none if no output is left over.
pub(crate) fn sum_without_literals(
    alloc: Global,
    shape: Shape,
    minuend: &[Cube],
    subtrahend: &[Cube],
) -> Result<Vec<Cube>, AllocError>
    requires minuend { AreCubes shape minuend.now }
    requires subtrahend { AreCubes shape subtrahend.now }
    requires free { (k : ℕ) → k < shape.inputs
        → (has_literal k minuend.now || has_literal k subtrahend.now) ≡ false }
    ensures { IfOk result
        (λ rows. rows.items
        ≡ complete_sum shape (difference (places minuend.now) (places subtrahend.now))) }
{
    let symbols = vec![in alloc; Symbol::Dash; shape.inputs()]?;
    let outputs = outputs_left_over(alloc, shape, minuend, subtrahend)?;
    let mut rows = Vec::new(alloc);
    if let Some(cube) = Cube::from_symbols(alloc, shape, &symbols, &outputs)? {
        rows.push(cube)?;
    }
    Ok(rows)
}
