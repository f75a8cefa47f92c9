//! Parts of a list of cubes: no cube of one shares an input with a cube of another. A place avoids the
//! list if it avoids each part, at the inputs of that part alone.

use crate::bits::{Literals, meets, row_at, row_count, word_at};

// The cubes are looked at so many times for those that share an input with others.
const MOST_ROUNDS: usize = 8;

/// Adds the inputs at which the cube has literals.
fn join_inputs(cube: &[Literals], inputs: &mut [u64]) {
    for k in 0..cube.len().min(inputs.len()) {
        inputs[k] |= cube[k].inputs();
    }
}

/// Whether the cube has a literal at one of the inputs.
fn has_literal_among(cube: &[Literals], inputs: &[u64]) -> bool {
    for k in 0..cube.len() {
        if cube[k].inputs() & word_at(inputs, k) != 0 {
            return true;
        }
    }
    false
}

/// Whether the cube has a literal at another input.
fn has_literal_beyond(cube: &[Literals], inputs: &[u64]) -> bool {
    for k in 0..cube.len() {
        if cube[k].inputs() & !word_at(inputs, k) != 0 {
            return true;
        }
    }
    false
}

/// Adds the inputs of the cubes that meet the place, of which only some literals are known.
fn join_inputs_meeting(cubes: &[Literals], place: &[Literals], inputs: &mut [u64]) {
    let width = place.len();
    for index in 0..row_count(cubes, width) {
        let cube = row_at(cubes, index.wrapping_mul(width), width);
        if meets(cube, place) {
            join_inputs(cube, inputs);
        }
    }
}

/// Adds the inputs of the cubes that share one. Whether there is one more then.
fn join_neighbours(cubes: &[Literals], width: usize, inputs: &mut [u64]) -> bool {
    let mut is_joined = false;
    for index in 0..row_count(cubes, width) {
        let cube = row_at(cubes, index.wrapping_mul(width), width);
        if has_literal_among(cube, inputs) && has_literal_beyond(cube, inputs) {
            join_inputs(cube, inputs);
            is_joined = true;
        }
    }
    is_joined
}

/// Puts the inputs of the parts that the place meets into `inputs`. `false` if that takes too many
/// rounds: some are left out then.
pub(crate) fn take_inputs_of_parts(
    cubes: &[Literals],
    place: &[Literals],
    inputs: &mut [u64],
) -> bool {
    inputs.fill(0);
    join_inputs_meeting(cubes, place, inputs);
    for _ in 0..MOST_ROUNDS {
        if !join_neighbours(cubes, place.len(), inputs) {
            return true;
        }
    }
    false
}
