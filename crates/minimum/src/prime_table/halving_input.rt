//! Where a region of many ON cubes is halved: at an input at which nearly all of them have a
//! literal, so that few lie in both halves. A hint, which is checked before it is used.

use cube::{Cube, Symbol};

/// A region with at most so many ON cubes is not halved.
const FEW: usize = 16;

/// At most this many of the ON cubes are looked at.
const SAMPLE: usize = 64;

/// How many of the looked-at cubes have no literal at the input: those with these numbers, or at
/// most 64 of them, spread over the list.
fn dashes_at(cubes: &[Cube], numbers: &[usize], i: usize) -> usize {
    let step = numbers.len() / SAMPLE + 1;
    let mut dashes = 0usize;
    for k in 0..SAMPLE {
        if let Some(number) = numbers.get(k.saturating_mul(step)) {
            if let Some(cube) = cubes.get(*number) {
                dashes = dashes.saturating_add(!cube.has_literal(i) as usize);
            }
        }
    }
    dashes
}

/// The first input that is free in the region and at which few of the looked-at cubes have no
/// literal: at most eight, or an eighth of all where they are fewer than 64. `None` if there is no
/// such input, or for at most 16 cubes.
pub(crate) fn halving_input(cubes: &[Cube], numbers: &[usize], region: &Cube) -> Option<usize> {
    if numbers.len() <= FEW {
        return None;
    }
    let few = numbers.len().min(SAMPLE) / 8;
    for i in 0..region.shape().inputs() {
        if region.symbol(i) == Symbol::Dash && dashes_at(cubes, numbers, i) <= few {
            return Some(i);
        }
    }
    None
}
