//! The blocking lists of a prime, if implicants lie outside a list of cubes.
//!
//! A step out of the prime, at a literal or to an output that it lacks, is blocked at the places
//! from which it leads into the list. There is a blocking list for each step.

ghost use Rattle.std.specs.Prelude.{◌≡◌, ◌≢◌, ◌<◌, IfOk, slice_index_or};
ghost use Rattle.cube.specs.Cube.{IsCube};
ghost use Rattle.growth.specs.declared.prime.Side.{Side};
ghost use Rattle.growth.specs.Growth.{on_side};
ghost use Rattle.minimum.specs.Neighbours.{IsAlone, IsAloneByInputs};
ghost use Rattle.minimum.specs.Blocking.{AreBlocking, Blocks, flip_in, under_in};

use crate::essential_by_neighbours::neighbours::add_meeting;
use cover::Cover;
use cube::{Cube, Symbol};
use rows::is_same_symbol;
use std::alloc::{AllocError, Global};

/// The blocking list of the step at a literal of the prime: the rows without this literal that meet
/// the prime freed of it, each freed at that input.
fn blocking_input(alloc: Global, off: &Cover, prime: &Cube, i: usize) -> Result<Cover, AllocError>
    requires prime { IsCube off.now.size prime.now }
    requires input { i < off.now.size.inputs }
    requires literal { slice_index_or prime.now.symbols i Symbol.Dash ≢ Symbol.Dash }
    ensures { IfOk result (Blocks off.now.size prime.now (flip_in off.now.cubes i)) }
{
    let shape = prime.shape();
    let literal = prime.symbol(i);
    let mut list = Vec::new(alloc);
    let freed = prime.with_symbol(i, Symbol::Dash)?;
    for row in off.as_slice() {
        if !is_same_symbol(row.symbol(i), literal) && !row.disjoint(&freed) {
            list.push(row.with_symbol(i, Symbol::Dash)?)?;
        }
    }
    Ok(Cover::from_cubes(shape, list))
}

/// The blocking list of the step to an output that the prime lacks: of the rows with that output
/// the output consensus with the prime, if there is one.
fn blocking_output(alloc: Global, off: &Cover, prime: &Cube, j: usize) -> Result<Cover, AllocError>
    requires prime { IsCube off.now.size prime.now }
    requires output { j < off.now.size.outputs }
    ensures { IfOk result (Blocks off.now.size prime.now (under_in off.now.cubes j)) }
{
    let shape = prime.shape();
    let mut list = Vec::new(alloc);
    for row in off.as_slice() {
        if row.output(j) {
            add_meeting(&mut list, prime, row.output_consensus(prime)?)?;
        }
    }
    Ok(Cover::from_cubes(shape, list))
}

/// The blocking lists of the steps at literals.
fn blocking_inputs(alloc: Global, off: &Cover, prime: &Cube) -> Result<Vec<Cover>, AllocError>
    requires { IsCube off.now.size prime.now }
    ensures { IfOk result (λ lists. AreBlocking off.now.size prime.now lists.items
        (IsAloneByInputs (on_side Side.Outside off.now.cubes) prime.now)) }
{
    let mut lists = Vec::new(alloc);
    for i in 0..off.shape().inputs() {
        if !is_same_symbol(prime.symbol(i), Symbol::Dash) {
            lists.push(blocking_input(alloc, off, prime, i)?)?;
        }
    }
    Ok(lists)
}

/// All blocking lists of the prime, the shortest first.
pub(crate) fn blocking_lists(
    alloc: Global,
    off: &Cover,
    prime: &Cube,
) -> Result<Vec<Cover>, AllocError>
    requires { IsCube off.now.size prime.now }
    ensures { IfOk result (λ lists. AreBlocking off.now.size prime.now lists.items
        (IsAlone (on_side Side.Outside off.now.cubes) prime.now)) }
{
    let mut lists = blocking_inputs(alloc, off, prime)?;
    for j in 0..off.shape().outputs() {
        if !prime.output(j) {
            lists.push(blocking_output(alloc, off, prime, j)?)?;
        }
    }
    lists.sort_unstable_by_key(|list| list.len());
    Ok(lists)
}
