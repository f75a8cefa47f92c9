//! Which column a search branches on, and which columns it asks for together: those before the
//! first that the witness has; also how many rows each column is in.

use number_lists::{at, mark};
use std::alloc::{AllocError, Global};

/// Adds one to the number of each of the row's columns; does nothing for those past the end.
fn count_columns(numbers: &mut [i64], row: &[usize]) {
    for column in row {
        if *column < numbers.len() {
            numbers[*column] = numbers[*column].wrapping_add(1);
        }
    }
}

/// How many rows each column is in: one pass over the rows.
pub fn row_counts(
    alloc: Global,
    rows: &[Vec<usize>],
    columns: usize,
) -> Result<Vec<i64>, AllocError> {
    let mut numbers: Vec<i64> = vec![in alloc; 0; columns]?;
    for row in rows {
        count_columns(&mut numbers, row);
    }
    Ok(numbers)
}

/// The sum of the row counts of a row's columns.
fn sum_of_counts(row: &[usize], counts: &[i64]) -> i64 {
    let mut sum: i64 = 0;
    for column in row {
        sum = sum.wrapping_add(at(counts, *column));
    }
    sum
}

/// The likeliest column of the row; among equals, the one in more rows, and then the first; 0 for
/// an empty row.
fn likeliest_of(row: &[usize], likely: &[i64], counts: &[i64]) -> usize {
    let mut best = 0;
    let mut highest = (i64::MIN, i64::MIN);
    for column in row {
        let here = (at(likely, *column), at(counts, *column));
        if here > highest {
            highest = here;
            best = *column;
        }
    }
    best
}

/// What a row of so many columns weighs, from a thousand for one column: less by the power 2.5 of
/// its length.
const WEIGHTS: [i64; 11] = [0, 1000, 177, 64, 31, 18, 11, 8, 6, 4, 3];

/// How much to prefer the row: its weight times the row counts of its columns. In a short row each
/// branch decides much, and columns in many rows leave a small table.
fn preference(row: &[usize], counts: &[i64]) -> i64 {
    let weight = if row.len() < WEIGHTS.len() {
        WEIGHTS[row.len()]
    } else {
        2
    };
    sum_of_counts(row, counts).wrapping_mul(weight)
}

/// The likeliest column of the row that is preferred most, a short one whose columns are in many
/// rows; of equals the one in more rows; 0 if there are no rows. One pass over the rows.
///
/// `likely` and `counts` have a number for each column: how likely it is thought to be in a cover,
/// and how many rows it is in.
pub fn likeliest(rows: &[Vec<usize>], likely: &[i64], counts: &[i64]) -> usize {
    let mut highest = i64::MIN;
    let mut best = 0;
    for row in rows {
        let here = preference(row, counts);
        if here > highest {
            highest = here;
            best = likeliest_of(row, likely, counts);
        }
    }
    best
}

/// Whether the witness has the column.
fn has(columns: &[usize], column: usize) -> bool {
    for other in columns {
        if *other == column {
            return true;
        }
    }
    false
}

/// Marks the next columns to ask for: the first `size` live ones from `column` on, but only those
/// before the first that the witness has. The marks are one for each of `end` columns. Each mark
/// costs a pass over the witness.
pub fn batch(
    alloc: Global,
    live: &[usize],
    witness: &[usize],
    column: usize,
    size: usize,
    end: usize,
) -> Result<Vec<bool>, AllocError> {
    let mut marks = vec![in alloc; false; end]?;
    let mut number: usize = 0;
    for other in live {
        if column <= *other {
            if number >= size || has(witness, *other) {
                break;
            }
            number = number.saturating_add(1);
            mark(&mut marks, *other, true);
        }
    }
    Ok(marks)
}
