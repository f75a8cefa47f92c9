//! The linear relaxation of covering tables: a hint for the covering solver.
//!
//! A hint is proved to be safe and to end, and nothing more: its caller checks what it answers before
//! it uses it, and a poor answer only costs time.
//!
//! - [`Relaxation::new`] makes the relaxation of the first table of a search, with cuts of its rows. Later
//!   tables are the first one with some columns fixed.
//! - [`Relaxation::strengthen`] adds cuts that its fractional covers violate.
//! - [`Relaxation::multipliers`] solves that of a table, and gives weights of its rows and cuts. Where columns have
//!   different costs it limits their number as well.
//! - [`Relaxation::branching_column`] names a column to branch on. [`Relaxation::branch`] keeps the place
//!   of a branch, and [`Relaxation::go_back`] returns to it.
//!   What branches gained ([`PseudoCosts`]) passes to the relaxation of the next search.
//! - [`is_small_enough`] tells whether a table is small enough for all this.
//!
//! It is solved by the dual simplex method with steepest-edge pricing (Forrest and Goldfarb,
//! Steepest-edge simplex algorithms for linear programming, 1992), and columns to branch on are found by
//! reliability branching (Achterberg, Koch and Martin, Branching rules revisited, 2005).
//!
//! The table with the rows {0,1}, {1,2} and {0,2} has the optimum 1.5, with weights of one half each:
//! so no cover has fewer than two columns, where a row alone shows that there is one. With the cut of all
//! three rows ([`heuristics::Constraints`]) the optimum is 2.
//!
//! A table of up to 2,500 rows takes up to 5,000 steps of the simplex method. A step solves three systems of
//! equations by sparse factors of the basis, and reads some numbers of each row, each column and each entry of
//! a row; after 16 steps factors are made anew. Memory is for some numbers of each of these, and for the
//! entries of the factors. Sums of floating-point numbers are not exact: weights are checked in whole numbers
//! by the caller.
#![tactic(auto)]

mod cuts;
mod elimination;
mod factors;
mod floats;
mod relaxation;
mod reliability;
mod simplex;
mod vectors;

pub use relaxation::{BranchBasis, Relaxation, is_small_enough};
pub use reliability::PseudoCosts;
