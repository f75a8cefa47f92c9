//! The linear relaxation of large covering tables whose columns cost the same, come near to by steps, and
//! made stronger by cuts: a hint for the covering solver.
//!
//! A hint is proved to be safe and to end, and nothing more: its caller checks what it answers before
//! it uses it, and a poor answer only costs time.
//!
//! - [`PrimalDual::new`] begins, and [`PrimalDual::approach`] makes steps (Lu and Yang, Restarted Halpern PDHG
//!   for linear programming, 2024), each of which reads all rows twice.
//! - [`PrimalDual::strengthen`] adds cuts, each of an odd number of rows.
//! - [`PrimalDual::weights`] has the weights of rows and of cuts, which bound covers from below;
//!   [`PrimalDual::parts`] a fractional cover.
//!
//! The table with the rows {0,1}, {1,2} and {0,2} has the optimum 1.5, with one half of each column. The cut
//! of all three rows needs two columns: with it the optimum is 2.
//!
//! Memory is for some numbers for each row, each column and each entry of a row. Sums of floating-point
//! numbers are not exact: weights are checked in whole numbers by the caller.
#![tactic(auto)]

mod steps;

pub use steps::PrimalDual;
