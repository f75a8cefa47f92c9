//! The rows that a search is given, and the places that it answers.

use crate::bits::{Literals, has_bit, literal_count, put_bit, put_literal, row_at, words_for};
use std::alloc::{AllocError, Global};

/// A list of cubes, each with its literals and its outputs.
pub struct Rows {
    inputs: usize,
    outputs: usize,
    literals: Vec<Literals>,
    outputs_by_row: Vec<u64>,
}

impl Drop for Rows {
    fn drop(self) {
        let Rows {
            inputs: _,
            outputs: _,
            literals: _,
            outputs_by_row: _,
        } = self;
    }
}

impl Rows {
    /// No rows, of this many inputs and outputs.
    pub fn new(alloc: Global, inputs: usize, outputs: usize) -> Rows {
        Rows {
            inputs,
            outputs,
            literals: Vec::new(alloc),
            outputs_by_row: Vec::new(alloc),
        }
    }

    /// Begins a row, which has no literals and outputs yet.
    pub fn begin_row(&mut self) -> Result<(), AllocError> {
        let literals = self.literals.len().saturating_add(words_for(self.inputs));
        self.literals.resize(literals, Literals::NONE)?;
        let outputs = self
            .outputs_by_row
            .len()
            .saturating_add(words_for(self.outputs));
        self.outputs_by_row.resize(outputs, 0)
    }

    /// Gives the last row a literal. An input that is not there is ignored.
    pub fn put_literal(&mut self, input: usize, one: bool) {
        let begin = self.literals.len().saturating_sub(words_for(self.inputs));
        if input < self.inputs {
            put_literal(
                &mut self.literals,
                begin.saturating_mul(64).saturating_add(input),
                one,
            );
        }
    }

    /// Gives the last row an output. An output that is not there is ignored.
    pub fn put_output(&mut self, output: usize) {
        let begin = self
            .outputs_by_row
            .len()
            .saturating_sub(words_for(self.outputs));
        if output < self.outputs {
            put_bit(
                &mut self.outputs_by_row,
                begin.saturating_mul(64).saturating_add(output),
            );
        }
    }

    /// How many inputs there are.
    pub fn inputs(&self) -> usize {
        self.inputs
    }

    /// How many outputs there are.
    pub fn outputs(&self) -> usize {
        self.outputs
    }

    /// How many rows there are.
    pub fn len(&self) -> usize {
        self.literals.len() / words_for(self.inputs)
    }

    /// Whether there is none.
    pub fn is_empty(&self) -> bool {
        self.literals.is_empty()
    }

    /// Whether each row has a literal at each input.
    pub(crate) fn are_points(&self) -> bool {
        for row in 0..self.len() {
            if (literal_count(self.literals_of(row)) as usize) < self.inputs {
                return false;
            }
        }
        true
    }

    /// Adds a place of a row for each of its outputs.
    fn push_places(
        &self,
        alloc: Global,
        row: usize,
        places: &mut Vec<Place>,
    ) -> Result<(), AllocError> {
        for output in 0..self.outputs {
            if has_bit(self.outputs_of(row), output) {
                places.push(Place::of(alloc, self.literals_of(row), output)?)?;
            }
        }
        Ok(())
    }

    /// A place of each row for each of its outputs.
    pub(crate) fn places(&self, alloc: Global) -> Result<Vec<Place>, AllocError> {
        let mut places: Vec<Place> = Vec::new(alloc);
        for row in 0..self.len() {
            self.push_places(alloc, row, &mut places)?;
        }
        Ok(places)
    }

    /// The literals of all rows, one row after the other.
    pub(crate) fn literals(&self) -> &[Literals] {
        &self.literals
    }

    /// The literals of a row, none past the last.
    pub(crate) fn literals_of(&self, row: usize) -> &[Literals] {
        let width = words_for(self.inputs);
        row_at(&self.literals, row.saturating_mul(width), width)
    }

    /// The outputs of a row, as bits; no words past the last row.
    pub(crate) fn outputs_of(&self, row: usize) -> &[u64] {
        let width = words_for(self.outputs);
        row_at(&self.outputs_by_row, row.saturating_mul(width), width)
    }
}

/// A place: a point, and an output.
#[derive(Drop)]
pub struct Place {
    // The inputs that are 1.
    ones: Vec<u64>,
    output: usize,
}

impl Place {
    /// Not yet a place.
    pub(crate) fn none(alloc: Global) -> Place {
        Place {
            ones: Vec::new(alloc),
            output: 0,
        }
    }

    /// A place of a cube: inputs where it has no literal are 0.
    pub(crate) fn of(
        alloc: Global,
        inside: &[Literals],
        output: usize,
    ) -> Result<Place, AllocError> {
        let mut ones: Vec<u64> = Vec::with_capacity(alloc, inside.len())?;
        for word in inside {
            ones.push(word.ones)?;
        }
        Ok(Place { ones, output })
    }

    /// Whether an input is 1.
    pub fn bit(&self, input: usize) -> bool {
        has_bit(&self.ones, input)
    }

    /// The output.
    pub fn output(&self) -> usize {
        self.output
    }
}
