//! Which way is likely to lead to an answer, and how far each is gone: hints, which owe nothing.

use crate::essential_by_neighbours::consensus_pairs::have_many_consensus_pairs;
use crate::essential_by_neighbours::consensus_walks::leads_to_many;
use cover::{Budget, Cover};
use cube::{Cube, Shape};
use pla::{Pla, Sets};
use std::alloc::AllocError;

// At most this many cubes with the places outside are made for an output on average. Where many
// functions are joined in one output there are far more, and those that are needed are made.
const MOST_OF_AN_OUTPUT: usize = 250;

// At most this many such cubes are made for all outputs together.
const MOST_OUTSIDE: usize = 40000;

// At most this many rows are looked at for each output, besides each row of the lists once for each
// of these cubes. Chains of requests with a thousand inputs take most of them, other functions with
// few such cubes less than a hundredth; where the cubes are many, these are too many first. To give
// up after so many takes up to some seconds an output.
const MOST_ROWS_OF_AN_OUTPUT: usize = 8_000_000;

/// The budget for cubes with the places that this list does not hold.
pub(crate) fn budget_outside(all: &Cover) -> Budget {
    let outputs = all.shape().outputs();
    let rows = all.len().saturating_mul(MOST_OF_AN_OUTPUT);
    Budget {
        cubes: outputs.saturating_mul(MOST_OF_AN_OUTPUT).min(MOST_OUTSIDE),
        rows: outputs.saturating_mul(rows.saturating_add(MOST_ROWS_OF_AN_OUTPUT)),
    }
}

/// Whether to pick points in place of listing all primes: functions of few inputs have few primes.
pub(crate) fn uses_points(shape: Shape) -> bool {
    shape.inputs() > 12
}

/// Whether to make the places outside: where points are picked, and there are several outputs. Of
/// one output the primes are mostly few, and where many functions are joined in it the places
/// outside take too many cubes to begin with.
pub(crate) fn uses_outside(sets: &Sets) -> bool {
    let shape = sets.on().shape();
    uses_points(shape) && shape.outputs() > 1
}

// With more rows of the ON list than this, picking points by all primes takes minutes.
const MOST_ROWS_FOR_POINTS: usize = 50_000;

/// Whether to pick points by the list of all primes: with more than 20 inputs, unless ON rows are very
/// many. Else the rows of the table are made from regions, which then takes less time than a look at
/// all primes for each ON cube.
pub(crate) fn uses_points_of_primes(on: &Cover) -> bool {
    on.shape().inputs() > 20 && on.len() <= MOST_ROWS_FOR_POINTS
}

/// Whether the two have the same outputs.
fn have_same_outputs(one: &Cube, other: &Cube) -> bool {
    for w in 0..one.shape().outputs() / 64 + 1 {
        if one.output_bits(w) != other.output_bits(w) {
            return false;
        }
    }
    true
}

/// Whether some rows have other outputs than the first.
fn have_several_functions(rows: &[Cube]) -> bool {
    let Some(first) = rows.first() else {
        return false;
    };
    for row in rows {
        if !have_same_outputs(row, first) {
            return true;
        }
    }
    false
}

/// Whether primes are thought many: they are where many rows have a consensus, and with many inputs
/// where several functions are joined, or iterated consensus leads to many cubes. Where all rows have
/// the same outputs there are no more primes than with one.
fn has_many_primes(sets: &Sets) -> Result<bool, AllocError> {
    let rows = sets.on().as_slice();
    let is_wide = sets.on().shape().inputs() > 16;
    if is_wide && have_several_functions(rows) || have_many_consensus_pairs(rows) {
        return Ok(true);
    }
    if is_wide {
        return leads_to_many(rows);
    }
    Ok(false)
}

/// Whether to make places outside as they are needed: where points are picked, `outside` gave none,
/// or what it gave was too much, and primes are thought many.
pub(crate) fn uses_places_as_needed(sets: &Sets) -> Result<bool, AllocError> {
    if !uses_points(sets.on().shape()) {
        return Ok(false);
    }
    has_many_primes(sets)
}

// With up to so many inputs all primes are mostly listed, and their table solved, in seconds.
const FEW_INPUTS: usize = 16;

// With few inputs at most so many looks are taken for columns, and so many for each pair of points and each
// ON cube: the more these are, the sooner the table of all primes is solved, beside columns made as they are
// needed. With one output that table was seen to be harder.
const MOST_LOOKS_OF_FEW_INPUTS: usize = 50_000_000;

const LOOKS_FOR_A_PAIR: usize = 6;

const LOOKS_FOR_A_PAIR_OF_ONE_OUTPUT: usize = 24;

// Rows overlap if a point lies in more than so many of them on average.
const MOST_ROWS_OF_A_POINT: usize = 1;

/// In how many rows a point lies on average, whatever its outputs; with few inputs.
fn rows_of_a_point(on: &Cover) -> usize {
    let inputs = on.shape().inputs();
    let mut points: usize = 0;
    for row in on.as_slice() {
        let open = inputs.saturating_sub(row.literals());
        points = points.saturating_add(2_usize.saturating_pow(open as u32));
    }
    points / 2_usize.saturating_pow(inputs as u32)
}

/// How many looks at a cube or a point may be taken for columns that are made as they are needed, before all
/// primes are listed; any number with many inputs, or where rows overlap, as primes are then far more.
pub(crate) fn most_looks_before_primes(on: &Cover) -> usize {
    let (inputs, outputs) = (on.shape().inputs(), on.shape().outputs());
    if inputs > FEW_INPUTS || rows_of_a_point(on) > MOST_ROWS_OF_A_POINT {
        return usize::MAX;
    }
    let looks = if outputs == 1 {
        LOOKS_FOR_A_PAIR_OF_ONE_OUTPUT
    } else {
        LOOKS_FOR_A_PAIR
    };
    let pairs = 4_usize.saturating_pow(inputs as u32) / on.len().max(1);
    pairs.saturating_mul(looks).min(MOST_LOOKS_OF_FEW_INPUTS)
}

// Taking the ON list from one OFF row makes at most this many cubes; past that a DC list is made.
const MOST_OF_OFF: usize = 200_000;

// At most this many rows are looked at for all OFF rows, besides each ON row once for each OFF row:
// a wide OFF row over many ON rows takes far more, and then a DC list is made sooner.
const MOST_ROWS_OF_OFF: usize = 4_000_000;

/// The budget for taking the places of the ON list out of the OFF list: cubes for each OFF row, and
/// rows in all.
pub(crate) fn budget_of_off(pla: &Pla) -> Budget {
    let pairs = pla.off().len().saturating_mul(pla.on().len());
    Budget {
        cubes: MOST_OF_OFF,
        rows: pairs.saturating_add(MOST_ROWS_OF_OFF),
    }
}

// To make cubes of the places that neither list holds, at most so many looks at each row are taken for
// each input and output.
const MOST_LOOKS_AT_A_ROW: usize = 4;

/// The budget for cubes of the places that neither the ON list nor the OFF list holds: for each output
/// on average no more than there are ON rows. Of samples there are more.
pub(crate) fn budget_of_dont_cares(pla: &Pla) -> Budget {
    let (inputs, outputs) = (pla.shape().inputs(), pla.shape().outputs());
    let rows = pla.on().len().saturating_add(pla.off().len());
    Budget {
        cubes: pla.on().len().saturating_mul(outputs),
        rows: rows
            .saturating_mul(outputs)
            .saturating_mul(inputs)
            .saturating_mul(MOST_LOOKS_AT_A_ROW),
    }
}

/// Whether to find essential primes without a list of all primes. With up to 12 inputs that list is
/// short, and is made unless rows are few; with one output it is short unless primes are thought
/// many. It is made too where rows are very many, as growing looks at all rows for each prime that
/// it grows.
pub(crate) fn uses_growth(sets: &Sets) -> Result<bool, AllocError> {
    let (inputs, rows) = (sets.on().shape().inputs(), sets.on().len());
    if inputs <= 12 {
        return Ok(rows < 100);
    }
    let most = if inputs > 40 { 100_000 } else { 20_000 };
    if rows > most {
        return Ok(false);
    }
    if sets.on().shape().outputs() > 1 {
        return Ok(true);
    }
    has_many_primes(sets)
}
