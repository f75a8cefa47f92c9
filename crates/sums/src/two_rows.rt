//! The complete sum of two rows with opposite literals at an input: an end of the recursion.
//!
//! Functions of several outputs, such as products of numbers, come to such rows more often than to
//! any other list. The sum has the two rows and their consensus, in row order, without a row that
//! lies in the consensus. That mostly comes first, so each row is inserted after it, if not there yet.
ghost use Rattle.std.specs.Prelude.{◌≡◌, ◌<◌, ◌∷◌, [], IfOk, IfSome, All, cond, slice_index_or};
ghost use Rattle.cube.specs.Size.{Size};
ghost use Rattle.cube.specs.Cube.{IsCube, SameSize};
ghost use Rattle.cube.specs.Sum.{complete_sum};
ghost use Rattle.rows.specs.Cubes.{AreCubes};
ghost use Rattle.rows.specs.Parts.{merged};
ghost use Rattle.rows.specs.Places.{places};
ghost use Rattle.rows.specs.Sizes.{HaveOneSize};

use cube::{Cube, Symbol};
use rows::first_row_not_below;
use std::alloc::{AllocError, Global};

// The rows with one more, in row order, if it is not there yet.
fn insert_row(rows: Vec<Cube>, row: Cube) -> Result<Vec<Cube>, AllocError>
    requires { All (λ c. SameSize c row) rows.items }
    ensures { IfOk result (λ all. all.items ≡ merged rows.items (row ∷ [])) }
{
    let mut all = rows;
    let (at, is_there) = first_row_not_below(&all, 0, &row);
    if is_there {
        return Ok(all);
    }
    if at == all.len() {
        all.push(row)?;
    } else {
        all.insert(at, row)?;
    }
    Ok(all)
}

// The rows with a copy of one more, in row order, unless the consensus holds it.
fn insert_unless_held(rows: Vec<Cube>, row: &Cube, is_held: bool) -> Result<Vec<Cube>, AllocError>
    requires { All (λ c. SameSize c row.now) rows.items }
    ensures { IfOk result (λ all. all.items ≡ merged rows.items (cond is_held [] (row.now ∷ []))) }
{
    if is_held {
        return Ok(rows);
    }
    let copy = row.try_clone()?;
    insert_row(rows, copy)
}

/// The complete sum of a row with `0` at input `i` and one with `1` there.
pub(crate) fn sum_of_opposites(
    alloc: Global,
    i: usize,
    zero: &Cube,
    one: &Cube,
) -> Result<Vec<Cube>, AllocError>
    requires size { (size : Size) × (i < size.inputs) × IsCube size zero.now × IsCube size one.now }
    requires low { slice_index_or zero.now.symbols i Symbol.Dash ≡ Symbol.Zero }
    requires high { slice_index_or one.now.symbols i Symbol.Dash ≡ Symbol.One }
    ensures { IfOk result (λ sum. (size : Size) → IsCube size zero.now → IsCube size one.now
        → sum.items ≡ complete_sum size (places (zero.now ∷ one.now ∷ []))) }
{
    let low = zero.with_symbol(i, Symbol::Dash)?;
    let high = one.with_symbol(i, Symbol::Dash)?;
    let mut sum = Vec::with_capacity(alloc, 3)?;
    match low.meet(&high)? {
        Some(both) => {
            let is_zero_held = low.is_equal(&both);
            let is_one_held = high.is_equal(&both);
            sum.push(both)?;
            let sum = insert_unless_held(sum, zero, is_zero_held)?;
            insert_unless_held(sum, one, is_one_held)
        }
        None => {
            let sum = insert_unless_held(sum, zero, false)?;
            insert_unless_held(sum, one, false)
        }
    }
}

/// The complete sum of the places of the rows, if they are two with opposite literals at an input.
pub(crate) fn sum_of_two_rows(alloc: Global, rows: &[Cube]) -> Result<Option<Vec<Cube>>, AllocError>
    requires { HaveOneSize rows.now }
    ensures { IfOk result (λ found. IfSome found (λ sum. (size : Size) → AreCubes size rows.now
        → sum.items ≡ complete_sum size (places rows.now))) }
{
    if rows.len() != 2 {
        return Ok(None);
    }
    let (first, second) = (&rows[0], &rows[1]);
    let Some(i) = first.next_opposite(second, 0) else {
        return Ok(None);
    };
    match (first.symbol(i), second.symbol(i)) {
        (Symbol::Zero, Symbol::One) => { Ok(Some(sum_of_opposites(alloc, i, first, second)?)) }
        (Symbol::One, Symbol::Zero) => { Ok(Some(sum_of_opposites(alloc, i, second, first)?)) }
        _ => Ok(None),
    }
}
