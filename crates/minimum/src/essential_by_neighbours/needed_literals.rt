//! Which literals of a region its nogood should keep: a hint.
//!
//! A row that the region does not meet needs one of the literals that part them, mostly one that is
//! kept already. Where the part in a row has a nogood, the literals of that are needed which the
//! row does not have.

use cube::Cube;
use std::alloc::{AllocError, Global};

// Marks the input, unless it is past the end.
fn mark(needed: &mut Vec<bool>, input: usize) {
    if input < needed.len() {
        needed[input] = true;
    }
}

// Whether the input is marked; `false` past the end.
fn is_marked(needed: &[bool], input: usize) -> bool {
    input < needed.len() && needed[input]
}

// An input at which the region and the row have opposite literals: one that is marked, or else the
// first; `None` if there is none.
fn parting_input(needed: &[bool], region: &Cube, row: &Cube) -> Option<usize> {
    let first = region.next_opposite(row, 0);
    let mut input = first;
    for _ in 0..needed.len() {
        let Some(found) = input else {
            return first;
        };
        if is_marked(needed, found) {
            return input;
        }
        input = region.next_opposite(row, found.saturating_add(1));
    }
    first
}

/// Marks an input that parts the region from the row, if there is one and none is marked.
pub(crate) fn keep_conflict(needed: &mut Vec<bool>, region: &Cube, row: &Cube) {
    if let Some(input) = parting_input(needed, region, row) {
        mark(needed, input);
    }
}

/// Marks the literals of the nogood that the row does not have.
pub(crate) fn keep_literals(needed: &mut Vec<bool>, nogood: &Cube, row: &Cube) {
    let mut from = 0;
    for _ in 0..needed.len() {
        let Some(input) = nogood.next_beyond(row, from) else {
            return;
        };
        mark(needed, input);
        from = input.saturating_add(1);
    }
}

/// A mark for each input of the region: for each row that conflicts with it, one input at which
/// they do is marked.
pub(crate) fn conflicts_with(
    alloc: Global,
    region: &Cube,
    rows: &[Cube],
) -> Result<Vec<bool>, AllocError> {
    let mut needed = vec![in alloc; false; region.shape().inputs()]?;
    for row in rows {
        keep_conflict(&mut needed, region, row);
    }
    Ok(needed)
}
