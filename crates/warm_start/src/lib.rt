//! What a search for a cover carries over from table to table: a hint for the covering solver.
//!
//! - [`WarmStart::new`] begins a search, and [`WarmStart::copy`] a branch, whose weights
//!   [`WarmStart::learn`] takes over.
//! - [`WarmStart::multipliers`] gives weights of a table's rows that may show that no cover is within a
//!   goal: by subgradient steps from the weights before, or, once [`WarmStart::relax`] was called, by the
//!   linear relaxation with cuts; where rows are many and columns cost the same, by primal-dual steps, with cuts.
//! - [`WarmStart::branching_column`] names a column to branch on.
//!
//! An [`Effort`] counts what was done.
//!
//! The table with the rows {0,1}, {1,2} and {0,2}, asked for a cover of one column, gets weights of
//! about one half of a column's cost each: together they exceed it, so there is no such cover.
//!
//! A call of [`WarmStart::multipliers`] takes up to 1,202 steps, each of which reads all rows some times;
//! memory is for some numbers for each row, each column and each entry of a row.
#![tactic(auto)]

mod cuts;
mod effort;
mod warm_start;

pub use effort::Effort;
pub use warm_start::{WarmStart, is_worth_a_bound};
