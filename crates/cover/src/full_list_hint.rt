//! Whether a list may hold everything: a hint, cheaper than the question.
//!
//! A list that does has at least as many points in its rows, one by one, as there are. Of those that
//! have, most leave out a point that is soon found: a walk begins anywhere, and moves out of each row
//! that has its point.

use crate::list::Cover;
use cube::{Cube, Shape, Symbol};
use rows::{opposite, universal_cube};
use std::alloc::{AllocError, Global};

// How often a walk goes over the rows.
const PASSES: u64 = 8;

// The volume of all points in fixed point. That of a row with `k` literals is 2^-k of it, and at
// least 1, so that a sum is never too small.
const ALL_POINTS: u64 = 1 << 62;

// The volume of the points of a row.
fn volume(row: &Cube) -> u64 {
    ALL_POINTS >> row.literals().min(62)
}

/// Whether the rows would have as many points as there are if each had those of one of 32
/// that are spread over the list. A table of single points mostly has too few.
fn may_have_enough_points(list: &Cover) -> bool {
    let rows = list.as_slice();
    let step = rows.len() / 32 + 1;
    for k in 0..32 {
        let Some(row) = rows.get(step.saturating_mul(k)) else {
            return false;
        };
        if volume(row).saturating_mul(rows.len() as u64) >= ALL_POINTS {
            return true;
        }
    }
    false
}

/// Whether the rows with the first output have, one by one, at least as many points as there
/// are. Without this the list can't hold everything.
fn has_enough_points(list: &Cover) -> bool {
    let mut sum = 0_u64;
    for row in list.as_slice() {
        if row.output_bits(0) & 1 != 0 {
            sum = sum.saturating_add(volume(row));
        }
        if sum >= ALL_POINTS {
            return true;
        }
    }
    false
}

/// Whether the row has the point with the first output.
fn has_point(row: &Cube, point: &Cube) -> bool {
    row.shape() == point.shape() && !row.disjoint(point) && row.output_bits(0) & 1 != 0
}

/// The word `bits` without its lowest `n` bits that are set.
fn without_lowest(bits: u64, n: u32) -> u64 {
    let mut left = bits;
    for _ in 0..n {
        left &= left.wrapping_sub(1);
    }
    left
}

/// Gives the point the other value at this input.
fn change_value(point: &mut Cube, i: usize) {
    if i < point.shape().inputs() {
        let other = opposite(point.symbol(i));
        point.set_symbol(i, other);
    }
}

/// Moves a point out of a row that has it, by the other value at a literal of the first word that
/// has some: at the one with this `number`, counted round from 0. Where the row has no literal, the
/// point stays.
fn leave_row(row: &Cube, number: u64, point: &mut Cube) {
    for w in 0..row.shape().inputs() / 32 + 1 {
        let inputs = row.literal_inputs(w);
        if inputs != 0 {
            let n = number % (inputs.count_ones() as u64).max(1);
            let left = without_lowest(inputs, n as u32);
            let at = left.trailing_zeros() as usize / 2;
            change_value(point, w.saturating_mul(32).saturating_add(at));
            return;
        }
    }
}

/// Goes once over the rows, and moves the point out of each that has it, in each round at another of
/// its literals. Whether there was one.
fn walk_round(list: &Cover, round: u64, point: &mut Cube) -> bool {
    let mut has_moved = false;
    for row in list.as_slice() {
        if has_point(row, point) {
            leave_row(row, round, point);
            has_moved = true;
        }
    }
    has_moved
}

/// The point of zeros, with all outputs.
fn point_of_zeros(alloc: Global, shape: Shape) -> Result<Cube, AllocError> {
    let mut point = universal_cube(alloc, shape)?;
    for i in 0..shape.inputs() {
        if i < point.shape().inputs() {
            point.set_symbol(i, Symbol::Zero);
        }
    }
    Ok(point)
}

/// Whether a short walk, from the point of zeros on, finds no point that the list leaves out
/// with the first output.
fn has_points_of_walk(list: &Cover) -> Result<bool, AllocError> {
    let mut point = point_of_zeros(list.allocator(), list.shape())?;
    for round in 0..PASSES {
        if !walk_round(list, round, &mut point) {
            return Ok(false);
        }
    }
    Ok(true)
}

/// Whether the list may hold everything: a hint either way, as `false` may miss a list that does.
pub(crate) fn may_hold_everything(list: &Cover) -> Result<bool, AllocError> {
    Ok(may_have_enough_points(list) && has_enough_points(list) && has_points_of_walk(list)?)
}
