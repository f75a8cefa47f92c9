//! Larger signature cubes from one that was found.
//!
//! A literal is left out, or an output added, and the signature cube of what comes of it taken
//! instead if it has a place of its own. So the number that is found stays near the number of
//! maximal ones. The minimal rows after a step come from those before it.

use crate::bits::{free_input, has_bit, has_literal_at, put_bit};
use crate::blocking_rows::Step;
use crate::cube::Cube;
use crate::finder::{Finder, Signature};
use std::alloc::AllocError;

/// The step of a number: the literals by their inputs first, then the outputs.
fn step_at(number: usize, inputs: usize) -> Step {
    match number.checked_sub(inputs) {
        Some(output) => Step::WithOutput(output),
        None => Step::WithoutLiteral(number),
    }
}

/// Whether a step leads to another cube.
fn is_new(cube: &Cube, step: Step) -> bool {
    match step {
        Step::WithoutLiteral(input) => has_literal_at(&cube.literals, input),
        Step::WithOutput(output) => !has_bit(&cube.outputs, output),
    }
}

/// Leaves the literal of a step out of the cube, or adds its output.
fn take_step(cube: &mut Cube, step: Step) {
    match step {
        Step::WithoutLiteral(input) => free_input(&mut cube.literals, input),
        Step::WithOutput(output) => put_bit(&mut cube.outputs, output),
    }
}

impl Finder<'_> {
    // The signature cube of what comes of a step that no row forbids, without a place. `None` if
    // that meets OFF.
    fn signature_after(
        &mut self,
        at: &Signature,
        step: Step,
    ) -> Result<Option<Signature>, AllocError> {
        let mut cube = Cube::of(self.alloc, &at.cube.literals, &at.cube.outputs)?;
        take_step(&mut cube, step);
        if self.primes.is_some() {
            return self.signature_cube(&cube);
        }
        let rows = at.rows.after(self.alloc, step)?;
        Ok(Some(Signature::of_rows(self.alloc, self.function, &cube, rows)?))
    }

    // Replaces a signature cube by that of what comes of a step, if that has a place of its own.
    // Whether it does; `false` too for a step that is taken already, or that a row forbids.
    fn try_step(&mut self, at: &mut Signature, step: Step) -> Result<bool, AllocError> {
        if !is_new(&at.cube, step) || at.rows.forbid(step) {
            return Ok(false);
        }
        let Some(mut signature) = self.signature_after(at, step)? else {
            return Ok(false);
        };
        if !self.finds_own_place(&mut signature)? {
            return Ok(false);
        }
        *at = signature;
        Ok(true)
    }

    // Tries each step once. Whether one led on.
    fn climb_once(&mut self, at: &mut Signature) -> Result<bool, AllocError> {
        let (inputs, outputs) = (self.function.inputs, self.function.outputs);
        let mut rose = false;
        for number in 0..inputs.saturating_add(outputs) {
            if self.try_step(at, step_at(number, inputs))? {
                rose = true;
            }
        }
        Ok(rose)
    }

    /// Climbs to a signature cube from which no step leads on.
    pub(crate) fn climb(&mut self, at: &mut Signature) -> Result<(), AllocError> {
        let most = self.function.inputs.saturating_add(self.function.outputs);
        for _ in 0..=most {
            if !self.climb_once(at)? {
                break;
            }
        }
        Ok(())
    }
}
