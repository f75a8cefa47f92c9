//! The factors of a basis, from the list of its variables; and the values, weights and reduced costs that
//! follow from them.

use super::{NONE, Simplex};
use crate::elimination::Elimination;
use crate::factors::Factors;
use crate::floats::{add_float, add_float_to_each, float, put_float, sum_at};
use number_lists::{flag, mark, number, overwrite};
use std::alloc::{AllocError, Global};

/// The new number of each row: the first ones, so many, keep theirs, and of the others those that are kept
/// follow; the others have a number past all rows.
fn new_rows(alloc: Global, rows: usize, kept: &[bool]) -> Result<Vec<usize>, AllocError> {
    let mut numbers = Vec::with_capacity(alloc, rows)?;
    for row in 0..rows {
        numbers.push(row)?;
    }
    let mut next = rows;
    for keep in kept {
        numbers.push(if *keep { next } else { NONE })?;
        if *keep {
            next = next.saturating_add(1);
        }
    }
    Ok(numbers)
}

impl Simplex {
    /// Sets which rows are looked at, beside the limit.
    pub(crate) fn set_active(&mut self, active: &[bool]) {
        for row in 0..self.active.len() {
            let now = flag(active, row) || row == self.limit;
            mark(&mut self.active, row, now);
        }
    }

    /// Goes to the basis of these variables, each at its position, where the rows of the inverse have these
    /// norms. Computes the weights, the reduced costs and the values.
    pub(crate) fn go_to(
        &mut self,
        alloc: Global,
        basic: &[usize],
        norms: &[f64],
    ) -> Result<(), AllocError> {
        self.basis.take(basic, norms);
        self.factor(alloc)
    }

    /// Begins from the basis of a relaxation with the same columns and the same first rows, so many of them,
    /// and of later rows those that are kept, in their order; surpluses of other rows are added.
    pub(crate) fn begin_from(
        &mut self,
        alloc: Global,
        from: &Simplex,
        rows: usize,
        kept: &[bool],
    ) -> Result<(), AllocError> {
        let mut basic = Vec::with_capacity(alloc, self.rows.len())?;
        let mut norms = Vec::with_capacity(alloc, self.rows.len())?;
        let numbers = new_rows(alloc, rows, kept)?;
        for (position, variable) in from.basis.basic.iter().enumerate() {
            let number = match from.basis.row_of(*variable) {
                None => *variable,
                Some(row) => self.basis.surplus_of(number(&numbers, row)),
            };
            if number < self.basis.variables() {
                basic.push(number)?;
                norms.push(float(&from.basis.norms, position))?;
            }
        }
        self.go_to(alloc, &basic, &norms)
    }

    /// Computes the factors anew, and the weights, reduced costs and values from them.
    pub(crate) fn factor(&mut self, alloc: Global) -> Result<(), AllocError> {
        self.compute_factors(alloc)?;
        self.compute_duals();
        self.compute_values();
        Ok(())
    }

    /// Computes the factors of the basis. Where columns depend on others, surpluses replace them.
    pub(super) fn compute_factors(&mut self, alloc: Global) -> Result<(), AllocError> {
        let mut elimination = Elimination::new(alloc, self.rows.len())?;
        self.factors = Factors::new(alloc);
        self.factored = self.factored.wrapping_add(1);
        self.take_surpluses(&mut elimination)?;
        self.take_columns(alloc, &mut elimination)?;
        elimination.eliminate(alloc, &mut self.factors)?;
        let rows = elimination.rows_left(alloc)?;
        for (index, position) in elimination.positions_left(alloc)?.iter().enumerate() {
            let row = number(&rows, index);
            let surplus = self.basis.surplus_of(row);
            self.basis.exchange(*position, surplus);
            put_float(&mut self.basis.norms, *position, 1.0);
            self.factors.push_surplus(row, *position, false)?;
        }
        Ok(())
    }

    /// Makes the surpluses in the basis the first pivots.
    fn take_surpluses(&mut self, elimination: &mut Elimination) -> Result<(), AllocError> {
        for position in 0..self.basis.basic.len() {
            if let Some(row) = self.basis.surplus_row(position) {
                self.factors.push_surplus(row, position, true)?;
                elimination.note_surplus(row);
            }
        }
        Ok(())
    }

    /// Hands the columns in the basis over to the elimination.
    fn take_columns(&self, alloc: Global, elimination: &mut Elimination) -> Result<(), AllocError> {
        for position in 0..self.basis.basic.len() {
            if self.basis.surplus_row(position).is_none() {
                let rows = self.column_rows.list(number(&self.basis.basic, position));
                elimination.push_column(alloc, position, rows, self.limit)?;
            }
        }
        Ok(())
    }

    /// Computes what each row wants from the columns in the basis; answers what the columns at 1
    /// cost.
    fn fill_wanted(&mut self) -> f64 {
        let mut cost = 0.0;
        overwrite(&mut self.wanted, &self.needs);
        put_float(&mut self.wanted, self.limit, 0.0 - self.most);
        for column in 0..self.costs.len() {
            if flag(&self.basis.at_one, column) && !self.basis.is_basic(column) {
                cost += float(&self.costs, column);
                add_float_to_each(&mut self.wanted, self.column_rows.list(column), -1.0);
                add_float(&mut self.wanted, self.limit, 1.0);
            }
        }
        cost
    }

    /// What the variable at a position costs.
    fn cost_at(&self, position: usize) -> f64 {
        float(&self.costs, number(&self.basis.basic, position))
    }

    /// Computes the values and the objective.
    pub(super) fn compute_values(&mut self) {
        let mut objective = self.fill_wanted();
        self.factors.solve(&mut self.wanted, &mut self.basis.values);
        for position in 0..self.basis.basic.len() {
            objective += self.cost_at(position) * float(&self.basis.values, position);
        }
        self.basis.objective = objective;
    }

    /// Computes the weights, at least 0, and the reduced costs of the columns that are not fixed.
    fn compute_duals(&mut self) {
        for position in 0..self.basis.basic.len() {
            let cost = self.cost_at(position);
            put_float(&mut self.room, position, cost);
        }
        self.factors
            .solve_transposed(&mut self.room, &mut self.basis.weights);
        for row in 0..self.rows.len() {
            let weight = if self.basis.is_tight(row) {
                float(&self.basis.weights, row).max(0.0)
            } else {
                0.0
            };
            put_float(&mut self.basis.weights, row, weight);
        }
        for column in 0..self.costs.len() {
            if self.is_free(column) {
                self.compute_reduced_cost(column);
            }
        }
    }

    /// Computes the reduced cost of a column: what it costs, with the weight of the limit, less the
    /// weights of its other rows; 0 in the basis.
    pub(super) fn compute_reduced_cost(&mut self, column: usize) {
        let mut reduced_cost = 0.0;
        if !self.basis.is_basic(column) {
            let load = sum_at(&self.basis.weights, self.column_rows.list(column));
            let limit = float(&self.basis.weights, self.limit);
            reduced_cost = float(&self.costs, column) + limit - load;
        }
        put_float(&mut self.basis.reduced_costs, column, reduced_cost);
    }
}
