//! What a round of points is likely to need: hints, which owe nothing.

use cover::Cover;
use cube::Cube;
use std::alloc::{AllocError, Global};

// Where at most this many ON cubes are left out, the least cover is asked for: it may be the last.
const FEW_LEFT_OUT: usize = 20;

// Up to this many points it is asked for too. It leaves out less than a short one, so that rounds and
// points are fewer.
const MOST_POINTS_FOR_LEAST: usize = 1_200;

// If the search for the last least cover looked at more tables than this, the next one is asked for only
// once a short cover leaves nothing out: it may be as hard, and not the last.
const MOST_TABLES_FOR_LEAST: u64 = 60;

/// Whether to ask for the least cover of these points, after a cover that left these ON cubes out; the
/// search for the last least one looked at so many tables.
pub(crate) fn asks_for_least(left: &Cover, points: &[Cube], tables: u64) -> bool {
    if left.is_empty() {
        return true;
    }
    tables <= MOST_TABLES_FOR_LEAST
        && (left.len() <= FEW_LEFT_OUT || points.len() <= MOST_POINTS_FOR_LEAST)
}

/// The numbers of the cubes of the list among the columns. Both are in row order, without repetition; a
/// cube that is no column, and those after it, are missed.
pub(crate) fn numbers_among(
    alloc: Global,
    columns: &Cover,
    list: &Cover,
) -> Result<Vec<usize>, AllocError> {
    let mut numbers = Vec::new(alloc);
    for (number, column) in columns.as_slice().iter().enumerate() {
        if let Some(cube) = list.get(numbers.len()) {
            if column.is_equal(cube) {
                numbers.push(number)?;
            }
        }
    }
    Ok(numbers)
}
