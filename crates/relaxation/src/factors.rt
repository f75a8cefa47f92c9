//! The factors of a basis: what solves equations with it.
//!
//! A basis is a square matrix, with a column for each position. It is kept as a lower triangle times an
//! upper triangle, both sparse, in the order of their pivots, and exchanges of single columns after these
//! (the product form of the inverse; Dantzig and Orchard-Hays, The product form for the inverse in the
//! simplex method, 1954). With e entries in all of these a solution takes e sums.

use crate::floats::{add_float, float, put_float};
use crate::vectors::{Entry, Vectors, product_with_entries, subtract_entries};
use number_lists::number;
use std::alloc::{AllocError, Global};

/// Smaller entries of the column that enters count as 0.
const NO_ENTRY: f64 = 1e-12;

/// The factors of a basis.
pub(crate) struct Factors {
    /// The row of each pivot, in the order of the pivots.
    rows: Vec<usize>,
    /// The position of each pivot.
    positions: Vec<usize>,
    /// The pivots.
    pivots: Vec<f64>,
    /// How many pivots at the beginning are the only entry of their column.
    single: usize,
    /// By which multiple of the row of each pivot others have less.
    lower: Vectors,
    /// What the column of each pivot has in rows of pivots before.
    upper: Vectors,
    /// The position and the pivot of each exchange.
    exchanged: Vec<Entry>,
    /// What the column that entered has at other positions.
    exchanges: Vectors,
}

// Written out, so that where one ends a proof has one call, and not one for each of its lists.
impl Drop for Factors {
    fn drop(self) {
        let Factors {
            rows: _,
            positions: _,
            pivots: _,
            single: _,
            lower: _,
            upper: _,
            exchanged: _,
            exchanges: _,
        } = self;
    }
}

impl Factors {
    /// The factors of a basis without columns.
    pub(crate) fn new(alloc: Global) -> Factors {
        Factors {
            rows: Vec::new(alloc),
            positions: Vec::new(alloc),
            pivots: Vec::new(alloc),
            single: 0,
            lower: Vectors::new(alloc),
            upper: Vectors::new(alloc),
            exchanged: Vec::new(alloc),
            exchanges: Vectors::new(alloc),
        }
    }

    /// Adds a pivot, whose multiples and entries are added after it.
    pub(crate) fn push_pivot(
        &mut self,
        row: usize,
        position: usize,
        pivot: f64,
    ) -> Result<(), AllocError> {
        self.rows.push(row)?;
        self.positions.push(position)?;
        self.pivots.push(pivot)?;
        Ok(())
    }

    /// Adds a multiple by which a row has less of the row of the last pivot.
    pub(crate) fn push_multiple(&mut self, row: usize, multiple: f64) -> Result<(), AllocError> {
        self.lower.push(row, multiple)
    }

    /// Ends the last pivot, whose column has these entries in rows of pivots before.
    pub(crate) fn end_pivot(&mut self, entries: &[Entry]) -> Result<(), AllocError> {
        self.lower.end()?;
        self.upper.push_vector(entries)
    }

    /// Adds the pivot of a column that has no other entry than -1; `is_first` tells that all before are so.
    pub(crate) fn push_surplus(
        &mut self,
        row: usize,
        position: usize,
        is_first: bool,
    ) -> Result<(), AllocError> {
        self.push_pivot(row, position, -1.0)?;
        self.end_pivot(&[])?;
        if is_first {
            self.single = self.rows.len();
        }
        Ok(())
    }

    /// How many exchanges there are.
    pub(crate) fn exchange_count(&self) -> usize {
        self.exchanged.len()
    }

    /// Leaves only so many exchanges.
    pub(crate) fn truncate_exchanges(&mut self, length: usize) {
        self.exchanged.truncate(length);
        self.exchanges.truncate(length);
    }

    /// Notes that a variable enters at the position, whose column of the tableau is `entering`.
    pub(crate) fn exchange(&mut self, position: usize, entering: &[f64]) -> Result<(), AllocError> {
        for (other, number) in entering.iter().enumerate() {
            if other != position && number.abs() > NO_ENTRY {
                self.exchanges.push(other, *number)?;
            }
        }
        self.exchanges.end()?;
        self.exchanged.push(Entry {
            index: position,
            number: float(entering, position),
        })?;
        Ok(())
    }

    /// Solves the equations of the basis: sets `values`, one for each position, with which the columns
    /// add up to what each row wants. Overwrites `wanted`.
    pub(crate) fn solve(&self, wanted: &mut [f64], values: &mut [f64]) {
        for step in self.single..self.rows.len() {
            let amount = float(wanted, number(&self.rows, step));
            if amount != 0.0 {
                subtract_entries(wanted, self.lower.vector(step), amount);
            }
        }
        for step in (0..self.rows.len()).rev() {
            self.solve_step(step, wanted, values);
        }
        for (exchange, entry) in self.exchanged.iter().enumerate() {
            let value = float(values, entry.index);
            if value != 0.0 {
                let value = value / entry.number;
                put_float(values, entry.index, value);
                subtract_entries(values, self.exchanges.vector(exchange), value);
            }
        }
    }

    /// Computes the value at the position of a pivot, and takes its column from what rows want.
    fn solve_step(&self, step: usize, wanted: &mut [f64], values: &mut [f64]) {
        let value = float(wanted, number(&self.rows, step)) / float(&self.pivots, step);
        put_float(values, number(&self.positions, step), value);
        if value != 0.0 {
            subtract_entries(wanted, self.upper.vector(step), value);
        }
    }

    /// Solves the equations of the transposed basis: sets `weights`, one for each row, of which the column
    /// at each position adds up to its cost. Overwrites `costs`.
    pub(crate) fn solve_transposed(&self, costs: &mut [f64], weights: &mut [f64]) {
        for exchange in (0..self.exchanged.len()).rev() {
            let entry = self.exchanged[exchange];
            let others = product_with_entries(costs, self.exchanges.vector(exchange));
            let cost = float(costs, entry.index) - others;
            put_float(costs, entry.index, cost / entry.number);
        }
        for step in 0..self.rows.len() {
            let others = product_with_entries(weights, self.upper.vector(step));
            let cost = float(costs, number(&self.positions, step)) - others;
            put_float(
                weights,
                number(&self.rows, step),
                cost / float(&self.pivots, step),
            );
        }
        for step in (self.single..self.rows.len()).rev() {
            let others = product_with_entries(weights, self.lower.vector(step));
            add_float(weights, number(&self.rows, step), 0.0 - others);
        }
    }
}
