//! Which part of a row few primes contain: hints.
//!
//! A prime that contains a place has each literal whose opposite leads from the place to one outside.
//! So a row is narrowed towards cubes outside that have an opposite literal to it at one input alone:
//! from then on the places that are left need this literal. Cubes that add few literals come first, so
//! that more of them follow.

use cube::{Cube, Symbol};
use rows::{cube_of_output, share_output};
use std::alloc::{AllocError, Global};

/// How far a row is narrowed.
pub(crate) struct Narrowing {
    /// What is left of it, under one output.
    here: Cube,
    /// The numbers of the cubes outside that it may be narrowed towards.
    near: Vec<usize>,
    /// For each input, whether the places that are left are known to need a literal.
    needed: Vec<bool>,
}

// Written out, so that where it ends a proof has one call, and no case for each part.
impl Drop for Narrowing {
    fn drop(self) {
        let Narrowing {
            here: _,
            near: _,
            needed: _,
        } = self;
    }
}

/// A step: what it would leave, and the input whose literal would be needed.
#[derive(Drop)]
pub(crate) struct Step {
    pub(crate) narrow: Cube,
    input: usize,
}

// The first of the rows that contains the part; `None` if there is none.
fn row_around<'a>(rows: &'a [Cube], part: &Cube) -> Option<&'a Cube> {
    for row in rows {
        if row.shape() == part.shape() && row.contains(part) {
            return Some(row);
        }
    }
    None
}

// The places of the row under the first output of the part; `None` if there are none.
fn under_first_output(alloc: Global, row: &Cube, part: &Cube) -> Result<Option<Cube>, AllocError> {
    let shape = part.shape();
    for j in 0..shape.outputs() {
        if part.output(j) {
            let all = cube_of_output(alloc, shape, j)?;
            return if all.shape() == row.shape() {
                all.meet(row)
            } else {
                Ok(None)
            };
        }
    }
    Ok(None)
}

// The one input at which the two have opposite literals, if a literal there is not known to be needed.
fn parting_input(here: &Cube, cube: &Cube, needed: &[bool]) -> Option<usize> {
    if here.opposites(cube) != 1 || !share_output(here, cube) {
        return None;
    }
    let input = here.next_opposite(cube, 0)?;
    match needed.get(input) {
        Some(false) => Some(input),
        _ => None,
    }
}

// Of these numbers those of cubes that `here` may be narrowed towards.
fn still_near(
    alloc: Global,
    outside: &[Cube],
    numbers: &[usize],
    here: &Cube,
    needed: &[bool],
) -> Result<Vec<usize>, AllocError> {
    let mut near = Vec::new(alloc);
    for number in numbers {
        if let Some(cube) = outside.get(*number) {
            if parting_input(here, cube, needed).is_some() {
                near.push(*number)?;
            }
        }
    }
    Ok(near)
}

// Where the number of the cube stands that adds the fewest literals; `None` if there is no number.
fn fewest_literals(outside: &[Cube], near: &[usize], here: &Cube) -> Option<usize> {
    let mut fewest = u32::MAX;
    let mut best = None;
    for (at, number) in near.iter().enumerate() {
        if let Some(cube) = outside.get(*number) {
            let literals = cube.literals_beyond(here);
            if literals < fewest {
                fewest = literals;
                best = Some(at);
            }
        }
    }
    best
}

// The step towards the cube: what is left has all its literals but the one that parts the two.
fn step_towards(here: &Cube, cube: &Cube, input: usize) -> Result<Option<Step>, AllocError> {
    if cube.shape() != here.shape() || input >= cube.shape().inputs() {
        return Ok(None);
    }
    let beside = cube.with_symbol(input, Symbol::Dash)?;
    match here.meet(&beside)? {
        Some(narrow) => Ok(Some(Step { narrow, input })),
        None => Ok(None),
    }
}

impl Narrowing {
    /// Of the row that contains the part, or of the part itself, before the first step.
    pub(crate) fn new(
        alloc: Global,
        rows: &[Cube],
        outside: &[Cube],
        part: &Cube,
    ) -> Result<Narrowing, AllocError> {
        let row = row_around(rows, part).unwrap_or(part);
        let here = match under_first_output(alloc, row, part)? {
            Some(here) => here,
            None => part.try_clone()?,
        };
        let needed = vec![in alloc; false; part.shape().inputs()]?;
        let numbers = covering::numbers(alloc, outside.len())?;
        Ok(Narrowing {
            near: still_near(alloc, outside, &numbers, &here, &needed)?,
            here,
            needed,
        })
    }

    /// The next step to try; `None` if there is none. Each is given once.
    pub(crate) fn next_step(&mut self, outside: &[Cube]) -> Result<Option<Step>, AllocError> {
        let Some(at) = fewest_literals(outside, &self.near, &self.here) else {
            return Ok(None);
        };
        if at >= self.near.len() {
            return Ok(None);
        }
        let number = self.near.remove(at);
        let Some(cube) = outside.get(number) else {
            return Ok(None);
        };
        let Some(input) = parting_input(&self.here, cube, &self.needed) else {
            return Ok(None);
        };
        step_towards(&self.here, cube, input)
    }

    /// Takes the step.
    pub(crate) fn take(
        &mut self,
        alloc: Global,
        outside: &[Cube],
        step: Step,
    ) -> Result<(), AllocError> {
        let Step { narrow, input } = step;
        if input < self.needed.len() {
            self.needed[input] = true;
        }
        self.here = narrow;
        self.near = still_near(alloc, outside, &self.near, &self.here, &self.needed)?;
        Ok(())
    }
}
