//! The linear relaxation of a covering table, by the bounded dual simplex method.
//!
//! Each column has a value from 0 to 1, or is fixed at one of these, and each row wants values of at
//! least 1 together, each cut of as much as it needs. A basis is kept dual feasible: a column outside it
//! is at the bound that its reduced cost tells. A step takes the position whose value is furthest outside
//! its bounds by steepest edge (Forrest and Goldfarb, Steepest-edge simplex algorithms for linear
//! programming, 1992), and a ratio test with a tolerance (Harris, Pivot selection methods of the Devex LP
//! code, 1973) names the variable that enters. Costs are perturbed downwards a little against ties, so
//! that weights stay within the true costs.
//!
//! Where columns have different costs, one more row, the limit, says how many there are at most: each
//! column counts -1 there, and the row wants at least minus that number.
//!
//! The basis is kept as sparse factors ([`Factors`]), which are computed anew from time to time. Surpluses of
//! rows that are not looked at now, the inactive ones, may be below 0.
//!
//! Nothing depends on the figures but hints. A step takes a few passes over the factors, over rows and over
//! columns, and over the rows that its row of the inverse has.

mod basis;
mod factor;
mod pricing;

use crate::factors::Factors;
use crate::floats::{
    add_float, add_float_to_each, add_multiple, fill_floats, float, put_float, sum_of_squares,
};
pub(crate) use basis::{Basis, NONE};
use heuristics::Constraints;
use number_lists::{Compact, Lists, SEED, at, flag, mark, next_random, number, overwrite, small};
use std::alloc::{AllocError, Global};
use std::num::{nearest_i64_to_f64, nearest_u64_to_f64};

/// By how much a value may be outside its bounds: far above what sums of figures of about one are wrong
/// by, and far below what a bound that is off by one shows.
const FEASIBLE: f64 = 1e-7;

/// A column outside the basis is at 1 only if its reduced cost is below 0 by more than this, which is
/// what such sums may be wrong by.
const DUAL_FEASIBLE: f64 = 1e-9;

/// A smaller reduced cost becomes 0, so that errors do not add up.
const NO_COST: f64 = 1e-10;

/// By how much a column's cost is perturbed, at most: against ties, and so little that the bound of a
/// cover of a hundred columns loses a hundredth.
const PERTURBATION: f64 = 1e-4;

/// How many numbers of 53 bits there are; a figure holds each of them exactly.
const RANDOM_RANGE: f64 = 9007199254740992.0;

/// A pivot is too inexact if its row and its column of the tableau differ by more than this part of it.
const PIVOT_ERROR: f64 = 1e-6;

/// Smaller entries of the tableau are no pivots.
const LEAST_PIVOT: f64 = 1e-7;

/// The factors are computed anew after so many exchanges, but for those of a trial.
const MOST_EXCHANGES: usize = 16;

/// Before trials they are computed anew after so many.
const MOST_EXCHANGES_BEFORE_TRIALS: usize = 6;

/// A norm is at least so large, as scores are divided by it.
const LEAST_NORM: f64 = 1e-4;

/// So many pivots that turned out wrong end the steps.
const MOST_TROUBLE: u32 = 5;

/// How the steps ended.
#[derive(Clone, Copy, PartialEq, Eq)]
pub(crate) enum End {
    /// At the optimum.
    Optimal,
    /// Past the cutoff.
    Past,
    /// There are no values within the bounds.
    Infeasible,
    /// After as many steps as they may take, or too many that were inexact.
    Spent,
}

/// A variable that may enter the basis.
#[derive(Clone, Copy)]
struct Candidate {
    /// The variable.
    variable: usize,
    /// Its entry of the tableau.
    entry: f64,
    /// How far it is from 0.
    size: f64,
    /// How far its reduced cost is from 0.
    slack: f64,
}

/// Which factors a basis had when it was copied.
#[derive(Clone, Copy)]
pub(crate) struct Saved {
    /// How often factors had been computed.
    pub(crate) factored: u64,
    /// How many exchanges there were since.
    pub(crate) exchanges: usize,
}

/// The relaxation of a table.
pub(crate) struct Simplex {
    /// The columns of each row, of the cuts after the rows, and of the limit.
    rows: Lists,
    /// The rows and cuts of each column, without the limit.
    column_rows: Lists,
    /// How many columns each row and each cut needs.
    needs: Vec<f64>,
    /// The limit, or `NONE` where columns cost the same.
    limit: usize,
    /// How many columns there are at most, where there is a limit.
    most: f64,
    /// What each column costs, perturbed.
    costs: Vec<f64>,
    /// The least value of each column.
    lower: Vec<f64>,
    /// The highest value of each column.
    upper: Vec<f64>,
    /// The basis.
    pub(crate) basis: Basis,
    /// Its factors.
    factors: Factors,
    /// How often these were computed.
    factored: u64,
    /// Whether the steps are a trial, after which they return to a saved basis.
    pub(crate) is_trial: bool,
    /// The rows that are looked at.
    active: Vec<bool>,
    /// The columns that were not fixed when the steps began.
    open: Vec<usize>,
    /// Whether each column is open.
    is_open: Vec<bool>,
    /// The open columns of each row.
    open_rows: Lists,
    /// A row of the inverse: an entry for each row.
    inverse_row: Vec<f64>,
    /// A row of the tableau: an entry for each column.
    tableau_row: Vec<f64>,
    /// A column of the tableau: an entry for each position.
    entering: Vec<f64>,
    /// The inner products of a row of the inverse and each of its rows: one for each position.
    products: Vec<f64>,
    /// Room for a number for each row.
    room: Vec<f64>,
    /// What each row wants from the columns in the basis.
    wanted: Vec<f64>,
    /// The variables that may enter.
    candidates: Vec<Candidate>,
    /// Weights that show that there are no values within the bounds.
    ray: Vec<f64>,
}

// Written out, so that where one ends a proof has one call, and not one for each of its lists.
impl Drop for Simplex {
    fn drop(self) {
        let Simplex {
            rows: _,
            column_rows: _,
            needs: _,
            limit: _,
            most: _,
            costs: _,
            lower: _,
            upper: _,
            basis: _,
            factors: _,
            factored: _,
            is_trial: _,
            active: _,
            open: _,
            is_open: _,
            open_rows: _,
            inverse_row: _,
            tableau_row: _,
            entering: _,
            products: _,
            room: _,
            wanted: _,
            candidates: _,
            ray: _,
        } = self;
    }
}

/// What came of a step.
#[derive(Clone, Copy)]
enum Step {
    /// A pivot.
    Pivoted,
    /// Figures that were too inexact; the inverse is computed anew.
    Inexact,
    /// The end.
    Ended(End),
}

/// The cost of a column: one where all cost the same.
fn cost_of(table: &Compact, uneven: bool, column: usize) -> f64 {
    if uneven {
        nearest_i64_to_f64(at(&table.costs, column))
    } else {
        1.0
    }
}

/// The costs of columns, perturbed downwards by at most a ten thousandth.
fn perturbed_costs(alloc: Global, table: &Compact) -> Result<Vec<f64>, AllocError> {
    let uneven = table.is_uneven();
    let columns = table.column_rows.len();
    let mut costs = Vec::with_capacity(alloc, columns)?;
    let mut seed = SEED;
    for column in 0..columns {
        seed = next_random(seed);
        let part = nearest_u64_to_f64(seed >> 11) / RANDOM_RANGE;
        let perturbation = PERTURBATION * (0.5 + 0.5 * part);
        costs.push(cost_of(table, uneven, column) - perturbation)?;
    }
    Ok(costs)
}

/// Adds the limit: a row of so many columns.
fn push_limit(rows: &mut Lists, columns: usize) -> Result<(), AllocError> {
    for column in 0..columns {
        rows.push(small(column))?;
    }
    rows.end()
}

impl Simplex {
    /// The relaxation of the table with these cuts, each a list of its rows. No column is fixed, all are
    /// at 0, and all rows are active.
    pub(crate) fn new(alloc: Global, table: &Compact, cuts: &Lists) -> Result<Simplex, AllocError> {
        let columns = table.column_rows.len();
        let (mut all_rows, column_rows, needs) = Constraints::of(alloc, table, cuts)?.into_parts();
        let mut limit = NONE;
        if table.is_uneven() {
            limit = all_rows.len();
            push_limit(&mut all_rows, columns)?;
        }
        let rows = all_rows.len();
        let costs = perturbed_costs(alloc, table)?;
        let basis = Basis::new(alloc, rows, &costs)?;
        let mut simplex = Simplex {
            rows: all_rows,
            column_rows,
            needs,
            limit,
            most: 0.0,
            costs,
            lower: vec![in alloc; 0.0; columns]?,
            upper: vec![in alloc; 1.0; columns]?,
            basis,
            factors: Factors::new(alloc),
            factored: 0,
            is_trial: false,
            active: vec![in alloc; true; rows]?,
            open: Vec::new(alloc),
            is_open: vec![in alloc; false; columns]?,
            open_rows: Lists::new(alloc),
            inverse_row: vec![in alloc; 0.0; rows]?,
            tableau_row: vec![in alloc; 0.0; columns]?,
            entering: vec![in alloc; 0.0; rows]?,
            products: vec![in alloc; 0.0; rows]?,
            room: vec![in alloc; 0.0; rows]?,
            wanted: vec![in alloc; 0.0; rows]?,
            candidates: Vec::new(alloc),
            ray: vec![in alloc; 0.0; rows]?,
        };
        simplex.compute_factors(alloc)?;
        Ok(simplex)
    }

    /// Whether the number of columns is limited, as it is where they have different costs.
    pub(crate) fn is_limited(&self) -> bool {
        self.limit != NONE
    }

    /// Sets how many columns there are at most, where there is a limit.
    pub(crate) fn set_most(&mut self, most: f64) {
        self.most = most;
    }

    /// What a column costs, perturbed.
    pub(crate) fn cost(&self, column: usize) -> f64 {
        float(&self.costs, column)
    }

    /// What a column counts in a row that has it.
    fn entry(&self, row: usize) -> f64 {
        if row == self.limit { -1.0 } else { 1.0 }
    }

    /// How many rows there are, with the limit.
    pub(crate) fn row_count(&self) -> usize {
        self.rows.len()
    }

    /// How many columns there are.
    pub(crate) fn column_count(&self) -> usize {
        self.costs.len()
    }

    /// The value of a column.
    pub(crate) fn value(&self, column: usize) -> f64 {
        self.basis.value(column)
    }

    /// Whether a column is not fixed.
    pub(crate) fn is_free(&self, column: usize) -> bool {
        float(&self.lower, column) < float(&self.upper, column)
    }

    /// Whether a row is looked at.
    pub(crate) fn is_active(&self, row: usize) -> bool {
        flag(&self.active, row)
    }

    /// The rows that are looked at.
    pub(crate) fn active(&self) -> &[bool] {
        &self.active
    }

    /// The weights of rows after steps that ended so: those of the ray if no values are within the
    /// bounds, and else those of the basis.
    pub(crate) fn weights(&self, end: End) -> &[f64] {
        match end {
            End::Infeasible => &self.ray,
            _ => &self.basis.weights,
        }
    }

    /// The weight of the limit, by which each column costs more, after steps that ended so; 0
    /// where there is none.
    pub(crate) fn limit_weight(&self, end: End) -> f64 {
        float(self.weights(end), self.limit).max(0.0)
    }

    /// Copies the basis, whose factors have few exchanges then.
    pub(crate) fn save(&mut self, alloc: Global, to: &mut Basis) -> Result<Saved, AllocError> {
        if self.factors.exchange_count() > MOST_EXCHANGES_BEFORE_TRIALS {
            self.factor(alloc)?;
        }
        to.copy_from(&self.basis);
        Ok(Saved {
            factored: self.factored,
            exchanges: self.factors.exchange_count(),
        })
    }

    /// Returns to a copy of a basis, of the factors that these were.
    pub(crate) fn restore(
        &mut self,
        alloc: Global,
        from: &Basis,
        saved: Saved,
    ) -> Result<(), AllocError> {
        self.basis.copy_from(from);
        if self.factored == saved.factored {
            self.factors.truncate_exchanges(saved.exchanges);
            return Ok(());
        }
        self.compute_factors(alloc)
    }

    /// Sets the bounds of a column. If these are others than before, and it is outside the basis, it
    /// stands at one of them only after `settle`.
    pub(crate) fn set_bounds(&mut self, column: usize, lower: f64, upper: f64) {
        put_float(&mut self.lower, column, lower);
        put_float(&mut self.upper, column, upper);
    }

    /// Frees a column. If it was fixed, its reduced cost is computed anew, which steps do not keep up.
    pub(crate) fn free(&mut self, column: usize) {
        if !self.is_free(column) {
            self.set_bounds(column, 0.0, 1.0);
            self.compute_reduced_cost(column);
        }
    }

    /// Lists the columns that are not fixed, for the steps that follow.
    pub(crate) fn list_open(&mut self, alloc: Global) -> Result<(), AllocError> {
        self.list_open_columns()?;
        self.open_rows = Lists::with_capacity(alloc, self.rows.len(), self.rows.size())?;
        for row in 0..self.rows.len() {
            self.list_open_of(row)?;
        }
        Ok(())
    }

    /// Lists the columns that are not fixed.
    fn list_open_columns(&mut self) -> Result<(), AllocError> {
        self.open.clear();
        for column in 0..self.costs.len() {
            let is_open = self.is_free(column);
            mark(&mut self.is_open, column, is_open);
            if is_open {
                self.open.push(column)?;
            }
        }
        Ok(())
    }

    /// Lists the columns of a row that are not fixed, as the next list of `open_rows`.
    fn list_open_of(&mut self, row: usize) -> Result<(), AllocError> {
        for column in self.rows.list(row) {
            if flag(&self.is_open, *column as usize) {
                self.open_rows.push(*column)?;
            }
        }
        self.open_rows.end()
    }

    /// Moves the columns outside the basis to the bounds that their reduced costs tell, and computes
    /// the values of the others.
    pub(crate) fn settle(&mut self) {
        for column in 0..self.costs.len() {
            if !self.basis.is_basic(column) {
                let is_high = if self.is_free(column) {
                    float(&self.basis.reduced_costs, column) < 0.0 - DUAL_FEASIBLE
                } else {
                    float(&self.lower, column) > 0.5
                };
                mark(&mut self.basis.at_one, column, is_high);
            }
        }
        self.compute_values();
    }

    /// Fixes a column at a value, from where the steps go on.
    pub(crate) fn fix(&mut self, column: usize, value: f64) {
        self.set_bounds(column, value, value);
        if !self.basis.is_basic(column) {
            self.settle();
        }
    }

    /// Makes at most so many steps, until the optimum, until the objective is past the cutoff, or
    /// until no values are within the bounds; answers how they ended.
    pub(crate) fn optimize(
        &mut self,
        alloc: Global,
        cutoff: f64,
        most_steps: u32,
    ) -> Result<End, AllocError> {
        let mut trouble: u32 = 0;
        for _ in 0..most_steps {
            if self.basis.objective > cutoff {
                return Ok(End::Past);
            }
            match self.step(alloc, cutoff)? {
                Step::Ended(end) => return Ok(end),
                Step::Inexact => trouble = trouble.saturating_add(1),
                Step::Pivoted => {}
            }
            if trouble > MOST_TROUBLE {
                return Ok(End::Spent);
            }
        }
        Ok(End::Spent)
    }

    /// One step of the dual simplex method, or how the steps end. The cutoff only tells how far a
    /// ray is followed.
    fn step(&mut self, alloc: Global, cutoff: f64) -> Result<Step, AllocError> {
        if !self.is_trial && self.factors.exchange_count() > MOST_EXCHANGES {
            self.factor(alloc)?;
        }
        let Some(position) = self.leaving_position() else {
            return Ok(Step::Ended(End::Optimal));
        };
        let (bound, sign) = self.broken_bound(position);
        let Some(entering) = self.entering_candidate(position, sign)? else {
            self.fill_ray(position, sign, bound, cutoff);
            return Ok(Step::Ended(End::Infeasible));
        };
        self.fill_entering(entering.variable);
        let pivot = float(&self.entering, position);
        let error = (pivot - entering.entry).abs();
        if pivot.abs() < LEAST_PIVOT || error > PIVOT_ERROR * (1.0 + pivot.abs()) {
            self.factor(alloc)?;
            return Ok(Step::Inexact);
        }
        self.exchange(position, bound, entering.variable, pivot)?;
        Ok(Step::Pivoted)
    }

    /// Fills in the column of the tableau of a variable.
    fn fill_entering(&mut self, variable: usize) {
        fill_floats(&mut self.room, 0.0);
        match self.basis.row_of(variable) {
            Some(row) => put_float(&mut self.room, row, -1.0),
            None => {
                add_float_to_each(&mut self.room, self.column_rows.list(variable), 1.0);
                put_float(&mut self.room, self.limit, -1.0);
            }
        }
        self.factors.solve(&mut self.room, &mut self.entering);
    }

    /// Lets the variable at the position leave for its bound, and another one enter.
    fn exchange(
        &mut self,
        position: usize,
        bound: f64,
        variable: usize,
        pivot: f64,
    ) -> Result<(), AllocError> {
        let leaving = number(&self.basis.basic, position);
        let reduced_cost = self.reduced_cost(variable);
        self.move_duals(reduced_cost / pivot);
        self.set_reduced_cost(leaving, 0.0 - reduced_cost / pivot);
        self.set_reduced_cost(variable, 0.0);
        let step = (float(&self.basis.values, position) - bound) / pivot;
        let value = self.nonbasic_value(variable) + step;
        self.move_values(step);
        mark(&mut self.basis.at_one, leaving, bound > 0.5);
        self.basis.objective += reduced_cost * step;
        self.move_norms(position, pivot);
        self.factors.exchange(position, &self.entering)?;
        self.basis.exchange(position, variable);
        put_float(&mut self.basis.values, position, value);
        Ok(())
    }

    /// Computes the norms of the rows of the inverse after an exchange at the position (Forrest and Goldfarb
    /// 1992).
    fn move_norms(&mut self, position: usize, pivot: f64) {
        overwrite(&mut self.room, &self.inverse_row);
        self.factors.solve(&mut self.room, &mut self.products);
        let own = sum_of_squares(&self.inverse_row);
        for other in 0..self.entering.len() {
            let entry = float(&self.entering, other);
            if entry != 0.0 && other != position {
                let ratio = entry / pivot;
                let product = float(&self.products, other);
                let norm = float(&self.basis.norms, other) + ratio * (ratio * own - 2.0 * product);
                put_float(&mut self.basis.norms, other, norm.max(LEAST_NORM));
            }
        }
        let norm = own / (pivot * pivot);
        put_float(&mut self.basis.norms, position, norm.max(LEAST_NORM));
    }

    /// The value of a variable outside the basis.
    fn nonbasic_value(&self, variable: usize) -> f64 {
        if flag(&self.basis.at_one, variable) {
            1.0
        } else {
            0.0
        }
    }

    /// The reduced cost of a variable: that of a surplus is the weight of its row, or 0 if that is below 0.
    fn reduced_cost(&self, variable: usize) -> f64 {
        match self.basis.row_of(variable) {
            None => float(&self.basis.reduced_costs, variable),
            Some(row) => float(&self.basis.weights, row).max(0.0),
        }
    }

    /// Sets the reduced cost of a variable.
    fn set_reduced_cost(&mut self, variable: usize, reduced_cost: f64) {
        match self.basis.row_of(variable) {
            None => put_float(&mut self.basis.reduced_costs, variable, reduced_cost),
            Some(row) => put_float(&mut self.basis.weights, row, reduced_cost),
        }
    }

    /// Moves the reduced costs of open columns and the weights of rows by a multiple of the row of the
    /// tableau.
    fn move_duals(&mut self, multiple: f64) {
        if multiple == 0.0 {
            return;
        }
        self.move_reduced_costs(multiple);
        add_multiple(&mut self.basis.weights, &self.inverse_row, multiple);
    }

    /// Subtracts a multiple of the row of the tableau from the reduced costs of open columns
    /// outside the basis.
    fn move_reduced_costs(&mut self, multiple: f64) {
        for index in 0..self.open.len() {
            let column = number(&self.open, index);
            let entry = float(&self.tableau_row, column);
            if entry != 0.0 && !self.basis.is_basic(column) {
                let moved = float(&self.basis.reduced_costs, column) - multiple * entry;
                let kept = if moved.abs() < NO_COST { 0.0 } else { moved };
                put_float(&mut self.basis.reduced_costs, column, kept);
            }
        }
    }

    /// Subtracts `step` times the column of the tableau from the values of the basis.
    fn move_values(&mut self, step: f64) {
        for position in 0..self.basis.values.len() {
            add_float(
                &mut self.basis.values,
                position,
                0.0 - step * float(&self.entering, position),
            );
        }
    }
}
