//! Places that a search proposes for points: the calls of `signature_search`, and lists as its rows.

ghost use Rattle.std.specs.Prelude.{IfOk};
ghost use Rattle.cube.specs.Limits.{IsWithinLimits, format_limits};

use crate::points::source::Source;
use cover::Cover;
use cube::{Cube, Symbol};
use signature_search::{Place, Proposer, Rows};
use std::alloc::{AllocError, Global};

/// Gives the last row the outputs of the cube.
fn put_outputs(rows: &mut Rows, cube: &Cube) {
    for j in 0..cube.shape().outputs() {
        if cube.output(j) {
            rows.put_output(j);
        }
    }
}

/// Adds the cube as a row.
fn put_cube(rows: &mut Rows, cube: &Cube) -> Result<(), AllocError> {
    rows.begin_row()?;
    for i in 0..cube.shape().inputs() {
        match cube.symbol(i) {
            Symbol::Dash => {}
            Symbol::Zero => rows.put_literal(i, false),
            Symbol::One => rows.put_literal(i, true),
        }
    }
    put_outputs(rows, cube);
    Ok(())
}

/// The list as rows.
fn rows_of(alloc: Global, list: &Cover) -> Result<Rows, AllocError>
    ensures { IfOk result (λ _. IsWithinLimits format_limits list.now.size) }
{
    let shape = list.shape();
    let mut rows = Rows::new(alloc, shape.inputs(), shape.outputs());
    for cube in list.as_slice() {
        put_cube(&mut rows, cube)?;
    }
    Ok(rows)
}

/// What proposes wanted places, by the places outside or by all primes. With `sampled` all that is
/// neither in the ON list nor outside is in the DC-set.
pub(crate) fn proposer_of(
    alloc: Global,
    on: &Cover,
    dc: &Cover,
    source: &Source,
    sampled: bool,
) -> Result<Proposer, AllocError>
    ensures { IfOk result (λ _. IsWithinLimits format_limits on.now.size) }
{
    let on = rows_of(alloc, on)?;
    let dc = rows_of(alloc, dc)?;
    let rows = rows_of(alloc, source.list())?;
    match source {
        Source::Outside(_) => Proposer::by_off(alloc, &on, &dc, &rows, sampled),
        Source::Primes(_) => Proposer::by_primes(alloc, &on, &dc, rows, sampled),
    }
}

/// Wanted places of the ON cubes to begin with.
pub(crate) fn first_places(
    alloc: Global,
    proposer: &Proposer,
    on: &Cover,
) -> Result<Vec<Place>, AllocError> {
    proposer.first_places(&rows_of(alloc, on)?)
}

/// Wanted places of these ON cubes that the cover leaves out, at most one for each cube and output.
pub(crate) fn places_left_out(
    alloc: Global,
    proposer: &Proposer,
    on: &Cover,
    cover: &Cover,
) -> Result<Vec<Place>, AllocError> {
    proposer.places_left_out(&rows_of(alloc, on)?, &rows_of(alloc, cover)?)
}
