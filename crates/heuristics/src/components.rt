//! Two sets of columns such that no row has columns of both.
//!
//! Columns are connected if a row has both. The connected components are found by a union-find
//! structure (Tarjan, Efficiency of a good but not linear set union algorithm, 1975), and whole
//! components are put on one side until it has half of the rows.

use number_lists::{mark, number, set};
use std::alloc::{AllocError, Global};

/// The column that stands for the component of this one. The path to it is halved.
fn leader(leaders: &mut Vec<usize>, column: usize) -> usize {
    let mut at = column;
    for _ in 0..leaders.len() {
        let next = number(leaders, at);
        if next == at {
            return at;
        }
        let after = number(leaders, next);
        set(leaders, at, after);
        at = after;
    }
    at
}

/// Joins the components of the row's columns.
fn join_columns(leaders: &mut Vec<usize>, row: &[usize]) {
    let Some(first) = row.first() else {
        return;
    };
    let mut own = leader(leaders, *first);
    for column in row {
        let other = leader(leaders, *column);
        set(leaders, own.max(other), own.min(other));
        own = own.min(other);
    }
}

/// How many rows each component has, at the column that stands for it, and 0 at other columns.
fn sizes(
    alloc: Global,
    rows: &[Vec<usize>],
    leaders: &mut Vec<usize>,
) -> Result<Vec<usize>, AllocError> {
    let mut sizes: Vec<usize> = vec![in alloc; 0; leaders.len()]?;
    for row in rows {
        if !row.is_empty() {
            let component = leader(leaders, row[0]);
            let more = number(&sizes, component).saturating_add(1);
            set(&mut sizes, component, more);
        }
    }
    Ok(sizes)
}

/// The column before which components have half of the rows, rounded down, or more, but not all, at
/// the columns that stand for them; fewer where the last one alone is larger. `None` if one
/// component has all rows, or there are columns but no rows.
fn half_way(sizes: &[usize], rows: usize) -> Option<usize> {
    let mut end: usize = 0;
    let mut passed: usize = 0;
    for (column, size) in sizes.iter().enumerate() {
        if *size == rows {
            return None;
        }
        let with = passed.saturating_add(*size);
        if *size > 0 && passed < rows / 2 && with < rows {
            passed = with;
            end = column.wrapping_add(1);
        }
    }
    Some(end)
}

/// Marks for all columns: those of the components that have rows are set, where the column that
/// stands for the component is before `end`.
fn columns_before(
    alloc: Global,
    leaders: &mut Vec<usize>,
    sizes: &[usize],
    end: usize,
) -> Result<Vec<bool>, AllocError> {
    let mut side: Vec<bool> = vec![in alloc; false; sizes.len()]?;
    for column in 0..sizes.len() {
        let component = leader(leaders, column);
        let chosen = component < end && number(sizes, component) > 0;
        mark(&mut side, column, chosen);
    }
    Ok(side)
}

/// Marks for all columns: those of some components that have about half of the rows, but not all,
/// are set; `None` if one has all rows, or there are columns but no rows.
fn side_of(
    alloc: Global,
    rows: &[Vec<usize>],
    leaders: &mut Vec<usize>,
) -> Result<Option<Vec<bool>>, AllocError> {
    let sizes = sizes(alloc, rows, leaders)?;
    match half_way(&sizes, rows.len()) {
        Some(end) => Ok(Some(columns_before(alloc, leaders, &sizes, end)?)),
        None => Ok(None),
    }
}

/// Marks for `columns` columns: those of one side are set, which share no row with the others and
/// have about half of the rows, but not all; `None` if all rows are connected, or there are columns
/// but no rows. About three passes over the rows.
pub fn side_hint(
    alloc: Global,
    rows: &[Vec<usize>],
    columns: usize,
) -> Result<Option<Vec<bool>>, AllocError> {
    let mut leaders: Vec<usize> = (0..columns).collect(alloc)?;
    for row in rows {
        join_columns(&mut leaders, row);
    }
    side_of(alloc, rows, &mut leaders)
}
