//! A function by output, as lists of cubes over its inputs.

use crate::bits::{Literals, has_bit, words_for};
use crate::complement::complement;
use crate::lists::absorb_list;
use crate::occurrences::Occurrences;
use crate::rows::Rows;
use std::alloc::{AllocError, Global};

/// A function by output.
pub(crate) struct Function {
    pub(crate) inputs: usize,
    pub(crate) outputs: usize,
    /// How many words the inputs of a cube take.
    pub(crate) width: usize,
    /// How many words the outputs of a cube take.
    pub(crate) output_words: usize,
    /// Whether wanted places lie in ON cubes alone, and not in all that is outside OFF and DC.
    pub(crate) samples: bool,
    /// Whether a cube's own place can be looked for: by ON with DC, or by a list of all primes.
    pub(crate) finds_own_places: bool,
    /// The input parts of the cubes of each output; no lists of `off` where it is not given.
    pub(crate) on: Vec<Vec<Literals>>,
    pub(crate) dc: Vec<Vec<Literals>>,
    pub(crate) off: Vec<Vec<Literals>>,
    /// For each output cubes that hold the points of ON and DC; no lists where OFF is not given.
    pub(crate) on_and_dc: Vec<Vec<Literals>>,
    /// Which of these have each literal.
    pub(crate) occurrences: Vec<Occurrences>,
}

impl Drop for Function {
    fn drop(self) {
        let Function {
            inputs: _,
            outputs: _,
            width: _,
            output_words: _,
            samples: _,
            finds_own_places: _,
            on: _,
            dc: _,
            off: _,
            on_and_dc: _,
            occurrences: _,
        } = self;
    }
}

// At most about this many words of cubes are made, for all outputs, where ON with DC is the
// complement of OFF.
const MOST_WORDS_OF_COMPLEMENT: usize = 1 << 18;

/// For each output the input parts of the rows that have it.
fn rows_by_output(
    alloc: Global,
    rows: &Rows,
    outputs: usize,
) -> Result<Vec<Vec<Literals>>, AllocError> {
    let mut lists: Vec<Vec<Literals>> = Vec::new(alloc);
    for output in 0..outputs {
        lists.push(rows_of_output(alloc, rows, output)?)?;
    }
    Ok(lists)
}

/// The input parts of the rows that have an output.
fn rows_of_output(alloc: Global, rows: &Rows, output: usize) -> Result<Vec<Literals>, AllocError> {
    let mut list: Vec<Literals> = Vec::new(alloc);
    for row in 0..rows.len() {
        if has_bit(rows.outputs_of(row), output) {
            list.extend_from_slice(rows.literals_of(row))?;
        }
    }
    Ok(list)
}

/// The list at an index, empty past the end.
pub(crate) fn list_at(lists: &[Vec<Literals>], index: usize) -> &[Literals] {
    match lists.get(index) {
        Some(list) => list,
        None => &[],
    }
}

impl Function {
    /// The function of these rows. With `samples` DC is all that neither ON nor OFF holds, and the DC
    /// rows are empty; lists that take more than their budget are missing then.
    pub(crate) fn new(
        alloc: Global,
        on: &Rows,
        dc: &Rows,
        off: &Rows,
        samples: bool,
    ) -> Result<Function, AllocError> {
        let mut function = Function::without_off(alloc, on, dc, samples)?;
        function.off = rows_by_output(alloc, off, function.outputs)?;
        if samples {
            function.finds_own_places = function.join_complements(alloc)?;
        } else {
            function.join_on_and_dc(alloc)?;
        }
        function.note_occurrences(alloc)?;
        Ok(function)
    }

    // Notes which cubes of ON and DC have each literal.
    fn note_occurrences(&mut self, alloc: Global) -> Result<(), AllocError> {
        for output in 0..self.outputs {
            let mut occurrences = Occurrences::new(alloc);
            occurrences.take(list_at(&self.on_and_dc, output), self.width)?;
            self.occurrences.push(occurrences)?;
        }
        Ok(())
    }

    // Takes ON with DC as the complements of OFF. `false` if that is past the budget: then lists
    // are missing.
    fn join_complements(&mut self, alloc: Global) -> Result<bool, AllocError> {
        let mut budget = MOST_WORDS_OF_COMPLEMENT;
        for output in 0..self.outputs {
            let list = list_at(&self.off, output);
            let Some(outside) = complement(alloc, list, self.width, &mut budget)? else {
                return Ok(false);
            };
            self.on_and_dc
                .push(absorb_list(alloc, &outside, self.width)?)?;
        }
        Ok(true)
    }

    // Takes the cubes of ON and DC together, without absorbed ones.
    fn join_on_and_dc(&mut self, alloc: Global) -> Result<(), AllocError> {
        for output in 0..self.outputs {
            let mut both = list_at(&self.on, output).to_vec(alloc)?;
            both.extend_from_slice(list_at(&self.dc, output))?;
            self.on_and_dc.push(absorb_list(alloc, &both, self.width)?)?;
        }
        Ok(())
    }

    /// The function of these rows, without OFF, and without lists of ON with DC.
    pub(crate) fn without_off(
        alloc: Global,
        on: &Rows,
        dc: &Rows,
        samples: bool,
    ) -> Result<Function, AllocError> {
        let (inputs, outputs) = (on.inputs(), on.outputs());
        Ok(Function {
            inputs,
            outputs,
            width: words_for(inputs),
            output_words: words_for(outputs),
            samples,
            finds_own_places: true,
            on: rows_by_output(alloc, on, outputs)?,
            dc: rows_by_output(alloc, dc, outputs)?,
            off: Vec::new(alloc),
            on_and_dc: Vec::new(alloc),
            occurrences: Vec::new(alloc),
        })
    }
}
