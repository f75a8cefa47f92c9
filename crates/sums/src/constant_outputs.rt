//! Constant outputs: those of rows without a literal.
//!
//! At such an output the list holds every point, so each cube of the complete sum has it. The rest
//! of the sum is that of the rows at the other outputs. Many branches have the same rows there,
//! with different constant outputs: so their sum is made once, and each further branch costs its
//! length.
ghost use Rattle.std.specs.Prelude.{◌≡◌, IfOk, IfSome, List, All, Contains};
ghost use Rattle.cube.specs.Size.{Size};
ghost use Rattle.cube.specs.Cube.{Cube as Row, IsCube, SameSize};
ghost use Rattle.cube.specs.Sum.{complete_sum};
ghost use Rattle.sums.specs.Apart.{IsFree};
ghost use Rattle.rows.specs.Cubes.{AreCubes};
ghost use Rattle.sums.specs.Free.{IsFreePart, IsRest, AreWider};
ghost use Rattle.rows.specs.Places.{places};
ghost use Rattle.rows.specs.Sizes.{HaveOneSize};

use crate::ends::has_row_without_literals;
use cube::Cube;
use rows::{rows_of_both, sort_rows};
use std::alloc::{AllocError, Global};

// The join of the row and the constant row so far, neither of which has a literal; a copy of the
// row if there is none so far.
fn join_constant_rows(constant: Option<Cube>, row: &Cube) -> Result<Option<Cube>, AllocError>
    requires { IfSome constant (λ c. SameSize c row.now) }
    ensures { IfOk result (λ found. (size : Size) → (cubes : List Row) → IsCube size row.now
        → IfSome constant (λ c. IsFreePart size cubes c) → Contains cubes row.now → IsFree row.now
        → IfSome found (λ c. IsFreePart size cubes c)) }
{
    let Some(old) = constant else {
        return Ok(Some(row.try_clone()?));
    };
    let both = old.output_consensus(row)?;
    Ok(both)
}

/// A row without a literal that has all constant outputs of the rows before the first one with a
/// literal. In row order these are all constant outputs. `None` if there are none.
pub(crate) fn constant_row(rows: &[Cube]) -> Result<Option<Cube>, AllocError>
    requires { HaveOneSize rows.now }
    ensures { IfOk result (λ found. (size : Size) → AreCubes size rows.now
        → IfSome found (λ constant. IsFreePart size rows.now constant)) }
{
    let mut constant: Option<Cube> = None;
    for row in rows {
        if row.next_literal(0).is_some() {
            return Ok(constant);
        }
        constant = join_constant_rows(constant, row)?;
    }
    Ok(constant)
}

/// The rows without the constant outputs. Rows that have no other outputs are dropped.
pub(crate) fn without_constant_outputs(
    alloc: Global,
    rows: &[Cube],
    constant: &Cube,
) -> Result<Vec<Cube>, AllocError>
    requires { All (λ c. SameSize c constant.now) rows.now }
    ensures { IfOk result (λ rest. (size : Size) → AreCubes size rows.now → IsCube size constant.now
        → IsRest size rows.now constant.now rest.items) }
{
    let mut rest = Vec::new(alloc);
    for row in rows {
        if row.has_outputs_beyond(constant) {
            rest.push(row.without_outputs(constant)?)?;
        }
    }
    Ok(rest)
}

// The rows, each with the outputs of the constant row besides its own.
fn with_outputs_of(alloc: Global, rows: &[Cube], constant: &Cube) -> Result<Vec<Cube>, AllocError>
    requires size { All (λ c. SameSize c constant.now) rows.now }
    requires no_literal { IsFree constant.now }
    ensures { IfOk result (λ wide. (size : Size) → AreCubes size rows.now → IsCube size constant.now
        → AreWider size constant.now rows.now wide.items) }
{
    let mut wide = Vec::with_capacity(alloc, rows.len())?;
    for row in rows {
        if let Some(both) = row.output_consensus(constant)? {
            wide.push(both)?;
        }
    }
    Ok(wide)
}

/// The complete sum of a list, from the complete sum without its constant outputs and the row of
/// these.
pub(crate) fn with_constant_outputs(
    alloc: Global,
    sum: Vec<Cube>,
    constant: Cube,
) -> Result<Vec<Cube>, AllocError>
    requires size { (size : Size) × AreCubes size sum.items × IsCube size constant }
    requires no_literal { IsFree constant }
    ensures { IfOk result (λ all. (size : Size) → (cubes rest : List Row) → AreCubes size sum.items
        → IsFreePart size cubes constant → IsRest size cubes constant rest
        → sum.items ≡ complete_sum size (places rest)
        → all.items ≡ complete_sum size (places cubes)) }
{
    let wide = with_outputs_of(alloc, &sum, &constant)?;
    if has_row_without_literals(&sum) {
        let sorted = sort_rows(alloc, wide)?;
        return Ok(sorted);
    }
    let mut all = Vec::new(alloc);
    all.push(constant)?;
    let all = rows_of_both(all, wide)?;
    let whole = sort_rows(alloc, all)?;
    Ok(whole)
}
