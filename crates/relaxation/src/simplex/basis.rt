//! A basis of the linear relaxation: its variables, and what follows from them.
//!
//! The variables are the columns and, numbered after them, the surplus of each row: by how much the
//! values of its columns are more than one. A row is tight if its surplus is not in the basis.

use crate::floats::{float, put_float};
use number_lists::{flag, number, overwrite, set};
use std::alloc::{AllocError, Global};

/// No variable, position or row.
pub(crate) const NONE: usize = usize::MAX;

/// A basis.
pub(crate) struct Basis {
    /// The variable of each position.
    pub(crate) basic: Vec<usize>,
    /// The position of each variable, or `NONE`.
    positions: Vec<usize>,
    /// Which columns are at 1, of those that are not in the basis.
    pub(crate) at_one: Vec<bool>,
    /// The value of the variable of each position.
    pub(crate) values: Vec<f64>,
    /// The reduced cost of each column.
    pub(crate) reduced_costs: Vec<f64>,
    /// The weight of each row, which is its dual value.
    pub(crate) weights: Vec<f64>,
    /// The square of the length of each row of the inverse.
    pub(crate) norms: Vec<f64>,
    /// What the values cost.
    pub(crate) objective: f64,
}

// Written out, so that where one ends a proof has one call, and not one for each of its lists.
impl Drop for Basis {
    fn drop(self) {
        let Basis {
            basic: _,
            positions: _,
            at_one: _,
            values: _,
            reduced_costs: _,
            weights: _,
            norms: _,
            objective: _,
        } = self;
    }
}

/// The number at the index, or `NONE` past the end.
fn place(numbers: &[usize], index: usize) -> usize {
    if index < numbers.len() {
        numbers[index]
    } else {
        NONE
    }
}

impl Basis {
    /// The basis of all surpluses, where each column is at 0.
    pub(crate) fn new(alloc: Global, rows: usize, costs: &[f64]) -> Result<Basis, AllocError> {
        let columns = costs.len();
        let variables = columns.saturating_add(rows);
        let mut basis = Basis {
            basic: vec![in alloc; NONE; rows]?,
            positions: vec![in alloc; NONE; variables]?,
            at_one: vec![in alloc; false; columns]?,
            values: vec![in alloc; -1.0; rows]?,
            reduced_costs: costs.to_vec(alloc)?,
            weights: vec![in alloc; 0.0; rows]?,
            norms: vec![in alloc; 1.0; rows]?,
            objective: 0.0,
        };
        for row in 0..rows {
            let surplus = basis.surplus_of(row);
            basis.put(row, surplus);
        }
        Ok(basis)
    }

    /// Puts a variable at a position. The one that was there is told apart only if another one is put
    /// at its position too.
    fn put(&mut self, position: usize, variable: usize) {
        set(&mut self.basic, position, variable);
        set(&mut self.positions, variable, position);
    }

    /// Puts these variables at the first positions, where the rows of the inverse have these norms, and the
    /// surpluses of later rows at the others. Values, weights and reduced costs stay as they are.
    pub(crate) fn take(&mut self, basic: &[usize], norms: &[f64]) {
        for position in 0..self.basic.len() {
            let leaving = number(&self.basic, position);
            set(&mut self.positions, leaving, NONE);
        }
        for (position, variable) in basic.iter().enumerate() {
            self.put(position, *variable);
        }
        for row in basic.len()..self.basic.len() {
            let surplus = self.surplus_of(row);
            self.put(row, surplus);
            put_float(&mut self.norms, row, 1.0);
        }
        overwrite(&mut self.norms, norms);
    }

    /// How many variables there are.
    pub(crate) fn variables(&self) -> usize {
        self.positions.len()
    }

    /// Exchanges the variable at a position for another one.
    pub(crate) fn exchange(&mut self, position: usize, variable: usize) {
        let leaving = number(&self.basic, position);
        set(&mut self.positions, leaving, NONE);
        self.put(position, variable);
    }

    /// The variable that is the surplus of a row.
    pub(crate) fn surplus_of(&self, row: usize) -> usize {
        self.at_one.len().saturating_add(row)
    }

    /// The row that a variable is the surplus of, if it is one.
    pub(crate) fn row_of(&self, variable: usize) -> Option<usize> {
        variable.checked_sub(self.at_one.len())
    }

    /// The row whose surplus is at a position, if one is.
    pub(crate) fn surplus_row(&self, position: usize) -> Option<usize> {
        self.row_of(number(&self.basic, position))
    }

    /// The position of a variable, or `NONE`.
    pub(crate) fn position_of(&self, variable: usize) -> usize {
        place(&self.positions, variable)
    }

    /// Whether a variable is in the basis.
    pub(crate) fn is_basic(&self, variable: usize) -> bool {
        self.position_of(variable) != NONE
    }

    /// Whether a row is tight.
    pub(crate) fn is_tight(&self, row: usize) -> bool {
        !self.is_basic(self.surplus_of(row))
    }

    /// Whether the value at a position counts: it does unless it is the surplus of a row that is not active.
    pub(crate) fn is_kept(&self, position: usize, active: &[bool]) -> bool {
        match self.surplus_row(position) {
            None => true,
            Some(row) => flag(active, row),
        }
    }

    /// The value of a column.
    pub(crate) fn value(&self, column: usize) -> f64 {
        let position = self.position_of(column);
        if position != NONE {
            float(&self.values, position)
        } else if flag(&self.at_one, column) {
            1.0
        } else {
            0.0
        }
    }

    /// Overwrites this basis with another one of as many rows and columns.
    pub(crate) fn copy_from(&mut self, other: &Basis) {
        overwrite(&mut self.basic, &other.basic);
        overwrite(&mut self.positions, &other.positions);
        overwrite(&mut self.at_one, &other.at_one);
        overwrite(&mut self.values, &other.values);
        overwrite(&mut self.reduced_costs, &other.reduced_costs);
        overwrite(&mut self.weights, &other.weights);
        overwrite(&mut self.norms, &other.norms);
        self.objective = other.objective;
    }
}
