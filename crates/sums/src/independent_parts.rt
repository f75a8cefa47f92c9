//! Rows in two parts that have no input in common.
//!
//! A cube of the places of both parts together lies in the places of one of them: if it had a point
//! outside the one and a point outside the other, then the first point's values at the inputs of
//! the one with the second's elsewhere would make a point outside both. So the complete sum of the
//! rows has the cubes of both parts' sums, or is that of one part, if that part holds every point.
ghost use Rattle.std.specs.Prelude.{◌≡◌, ◌<◌, IfOk, IfSome, IsTrue, All, length};
ghost use Rattle.cube.specs.Size.{Size};
ghost use Rattle.rows.specs.Cubes.{AreCubes};
ghost use Rattle.sums.specs.Apart.{IsOnSide, IsDivided, IsInParts, HasSomeLiteral};

use crate::ends::{differ_in_first_outputs, have_same_outputs};
use crate::input_groups::groups_hint;
use cube::{Cube, Shape};
use rows::push_copy;
use std::alloc::{AllocError, Global};

/// Two parts of a list.
#[derive(Drop)]
pub(crate) struct Parts {
    pub(crate) one: Vec<Cube>,
    pub(crate) other: Vec<Cube>,
}

// Whether all literals of the row are at inputs `i` where `groups[i]` is `group`; `true` if it has
// no literal.
fn is_in_group(row: &Cube, groups: &[bool], group: bool) -> bool
    requires { length groups.now ≡ length row.now.symbols }
    ensures { IsTrue result → IsOnSide groups.now group row.now }
{
    let mut from = 0;
    while let Some(i) = row.next_literal(from) {
        if groups[i] != group {
            return false;
        }
        from = i + 1;
    }
    true
}

// The rows with literals in the one group of inputs, which `groups` marks, and the rows with
// literals in the other; `None` if a row has literals in both. Rows without a literal are with the
// first.
fn divide_by_groups(
    alloc: Global,
    rows: &[Cube],
    groups: &[bool],
) -> Result<Option<Parts>, AllocError>
    requires { All (λ c. length groups.now ≡ length c.symbols) rows.now }
    ensures { IfOk result
        (λ found. IfSome found
        (λ parts. IsDivided groups.now rows.now parts.one.items parts.other.items)) }
{
    let mut one = Vec::new(alloc);
    let mut other = Vec::new(alloc);
    for row in rows {
        if is_in_group(row, groups, true) {
            push_copy(&mut one, row)?;
        } else if is_in_group(row, groups, false) {
            push_copy(&mut other, row)?;
        } else {
            return Ok(None);
        }
    }
    Ok(Some(Parts { one, other }))
}

// Whether the first row has a literal; `false` if there is no row.
fn first_row_has_literal(rows: &[Cube]) -> bool
    ensures { IsTrue result → (size : Size) → AreCubes size rows.now
        → HasSomeLiteral size rows.now }
{
    match rows.first() {
        Some(row) => row.next_literal(0).is_some(),
        None => false,
    }
}

/// Two parts of the rows that have no input in common, each with a literal, if the hint tells some
/// and all rows have the same outputs; else `None`.
pub(crate) fn independent_parts(
    alloc: Global,
    shape: Shape,
    rows: &[Cube],
) -> Result<Option<Parts>, AllocError>
    requires { AreCubes shape rows.now }
    ensures { IfOk result
        (λ found. IfSome found
        (λ parts. IsInParts shape rows.now parts.one.items parts.other.items)) }
{
    // Most lists of several outputs differ here, and need no groups.
    if differ_in_first_outputs(rows) {
        return Ok(None);
    }
    let Some(groups) = groups_hint(alloc, shape, rows)? else {
        return Ok(None);
    };
    if groups.len() != shape.inputs() || !have_same_outputs(shape, rows) {
        return Ok(None);
    }
    let Some(parts) = divide_by_groups(alloc, rows, &groups)? else {
        return Ok(None);
    };
    if !first_row_has_literal(&parts.one) || !first_row_has_literal(&parts.other) {
        return Ok(None);
    }
    Ok(Some(parts))
}
