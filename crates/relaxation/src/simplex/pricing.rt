//! Which variable leaves the basis, and which one enters.

use super::{Candidate, FEASIBLE, LEAST_PIVOT, Simplex};
use crate::floats::{add_float_to_each, add_multiple, fill_floats, float, put_float};
use number_lists::{number, overwrite};
use std::alloc::AllocError;

/// What is added to reduced costs in the ratio test, so that of nearly equal steps one with a large pivot
/// can be taken.
const TOLERANCE: f64 = 1e-9;

/// Smaller entries of the inverse count as 0.
const TINY: f64 = 1e-12;

/// How far past the cutoff a ray is followed: enough that rounding the weights to whole numbers does not
/// bring them back.
const PAST_CUTOFF: f64 = 0.1;

/// The least step with the tolerance, over the variables that may enter; infinity if there are
/// none.
fn least_step(candidates: &[Candidate]) -> f64 {
    let mut least = f64::INFINITY;
    for candidate in candidates {
        least = least.min((candidate.slack + TOLERANCE) / candidate.size);
    }
    least
}

/// The candidate with the largest pivot, of those whose own step is no longer than this one; `None`
/// if there is none.
fn largest_pivot(candidates: &[Candidate], step: f64) -> Option<Candidate> {
    let mut largest = None;
    let mut size = 0.0;
    for candidate in candidates {
        if candidate.size > size && candidate.slack <= step * candidate.size {
            size = candidate.size;
            largest = Some(*candidate);
        }
    }
    largest
}

impl Simplex {
    /// The lower and the upper bound of a variable.
    fn bounds(&self, variable: usize) -> (f64, f64) {
        if self.basis.row_of(variable).is_some() {
            (0.0, f64::INFINITY)
        } else {
            (float(&self.lower, variable), float(&self.upper, variable))
        }
    }

    /// By how much the value at a position is outside its bounds; 0 if it is not, or not kept up.
    fn excess(&self, position: usize) -> f64 {
        if !self.basis.is_kept(position, &self.active) {
            return 0.0;
        }
        let (lower, upper) = self.bounds(number(&self.basis.basic, position));
        let value = float(&self.basis.values, position);
        if value < lower - FEASIBLE {
            lower - value
        } else if value > upper + FEASIBLE {
            value - upper
        } else {
            0.0
        }
    }

    /// The position whose value is furthest outside its bounds, measured by the norm of its row;
    /// `None` if none is outside.
    pub(super) fn leaving_position(&self) -> Option<usize> {
        let mut best = None;
        let mut highest = 0.0;
        for position in 0..self.basis.basic.len() {
            let excess = self.excess(position);
            let score = excess * excess / float(&self.basis.norms, position);
            if score > highest {
                highest = score;
                best = Some(position);
            }
        }
        best
    }

    /// The bound that the value at the position breaks, and the side on which it does: -1 below the
    /// lower one, and 1 above the upper one.
    pub(super) fn broken_bound(&self, position: usize) -> (f64, f64) {
        let (lower, upper) = self.bounds(number(&self.basis.basic, position));
        if float(&self.basis.values, position) < lower {
            (lower, -1.0)
        } else {
            (upper, 1.0)
        }
    }

    /// Fills in the row of the inverse at the position.
    fn fill_inverse_row(&mut self, position: usize) {
        fill_floats(&mut self.room, 0.0);
        put_float(&mut self.room, position, 1.0);
        self.factors
            .solve_transposed(&mut self.room, &mut self.inverse_row);
        for entry in self.inverse_row.iter_mut() {
            if entry.abs() <= TINY {
                *entry = 0.0;
            }
        }
    }

    /// Fills in the row of the tableau that the row of the inverse gives, for open columns.
    fn fill_tableau_row(&mut self) {
        fill_floats(&mut self.tableau_row, 0.0);
        for row in 0..self.inverse_row.len() {
            let entry = float(&self.inverse_row, row);
            if entry != 0.0 {
                let more = entry * self.entry(row);
                add_float_to_each(&mut self.tableau_row, self.open_rows.list(row), more);
            }
        }
    }

    /// A column as a candidate, if it is free and outside the basis and may enter; `sign` is that
    /// of `broken_bound`.
    fn column_candidate(&self, column: usize, sign: f64) -> Option<Candidate> {
        let entry = float(&self.tableau_row, column);
        if entry.abs() <= LEAST_PIVOT || self.basis.is_basic(column) || !self.is_free(column) {
            return None;
        }
        let high = self.nonbasic_value(column) > 0.5;
        let size = if high {
            0.0 - sign * entry
        } else {
            sign * entry
        };
        if size <= LEAST_PIVOT {
            return None;
        }
        Some(Candidate {
            variable: column,
            entry,
            size,
            slack: float(&self.basis.reduced_costs, column).abs(),
        })
    }

    /// The surplus of a row as a candidate, if the row is tight and it may enter.
    fn surplus_candidate(&self, row: usize, sign: f64) -> Option<Candidate> {
        let entry = 0.0 - float(&self.inverse_row, row);
        let size = sign * entry;
        if size <= LEAST_PIVOT || !self.basis.is_tight(row) {
            return None;
        }
        Some(Candidate {
            variable: self.basis.surplus_of(row),
            entry,
            size,
            slack: float(&self.basis.weights, row).max(0.0),
        })
    }

    /// Lists the open columns that may enter.
    fn list_columns(&mut self, sign: f64) -> Result<(), AllocError> {
        self.candidates.clear();
        for index in 0..self.open.len() {
            let column = number(&self.open, index);
            if let Some(candidate) = self.column_candidate(column, sign) {
                self.candidates.push(candidate)?;
            }
        }
        Ok(())
    }

    /// Adds the surpluses of tight rows that may enter to the candidates.
    fn list_surpluses(&mut self, sign: f64) -> Result<(), AllocError> {
        for row in 0..self.inverse_row.len() {
            if let Some(candidate) = self.surplus_candidate(row, sign) {
                self.candidates.push(candidate)?;
            }
        }
        Ok(())
    }

    /// The variable that enters where the one at the position leaves, if there is one. Fills in the rows of
    /// the inverse and of the tableau.
    pub(super) fn entering_candidate(
        &mut self,
        position: usize,
        sign: f64,
    ) -> Result<Option<Candidate>, AllocError> {
        self.fill_inverse_row(position);
        self.fill_tableau_row();
        self.list_columns(sign)?;
        self.list_surpluses(sign)?;
        Ok(largest_pivot(&self.candidates, least_step(&self.candidates)))
    }

    /// Fills in the ray, where no variable may enter for the one at the position, whose value breaks
    /// this bound on the side `sign`: the weights of the basis, moved along that row of the inverse
    /// until their objective is past the cutoff.
    pub(super) fn fill_ray(&mut self, position: usize, sign: f64, bound: f64, cutoff: f64) {
        let excess = (float(&self.basis.values, position) - bound).abs();
        let missing = (cutoff + PAST_CUTOFF - self.basis.objective).max(0.0);
        let multiple = sign * missing / excess.max(FEASIBLE);
        overwrite(&mut self.ray, &self.basis.weights);
        add_multiple(&mut self.ray, &self.inverse_row, multiple);
    }
}
