//! Hints for the covering solver.
//!
//! A hint is the answer of a function without a contract, which is proved to be safe and to end,
//! and nothing more: its caller checks the answer before it uses it, and a poor one only costs
//! time. So the functions here work on plain lists of columns, or on a table whose columns are
//! renumbered ([`number_lists::Compact`]).
//!
//! - [`Ascent`] finds multipliers of the Lagrangian relaxation, which bound covers from below, by
//!   subgradient steps (Held and Karp, The traveling-salesman problem and minimum spanning trees, 1970
//!   and 1971); a [`Course`] says how many.
//! - [`local_search`] looks for a cover within a [`Goal`]: swaps under row weights (Cai, Su, Luo
//!   and Sattar, NuMVC: an efficient local search algorithm for minimum vertex cover, 2013).
//! - [`Constraints`] are the rows of a table with cuts beside them, and [`violated_cuts`] are those that a
//!   fractional cover violates.
//! - [`side_hint`] proposes columns that share no row with the others.
//! - [`likeliest`] proposes a column to branch on, and [`batch`] columns that one question asks for
//!   together.
//!
//! Of the rows {0,1}, {1,2} and {3,4} [`row_counts`] says that column 1 is in two rows and each other
//! one in one, [`local_search`] finds the cover 1, 3, and [`side_hint`] marks the columns 0, 1 and 2,
//! which share no row with the others.
//!
//! Sums wrap or saturate, and each index is checked before it is used: no call has a precondition.
//! Each call takes memory for a few numbers for each row, each column and each entry of a row. A step
//! of an [`Ascent`] reads all rows some times, one of [`local_search`] some rows of two columns, and
//! the other calls take some passes over the rows.
#![tactic(auto)]

mod branching;
mod components;
mod constraints;
mod goal;
mod separation;
mod subgradient;
mod swaps;

pub use branching::{batch, likeliest, row_counts};
pub use components::side_hint;
pub use constraints::Constraints;
pub use goal::Goal;
pub use separation::violated_cuts;
pub use subgradient::{
    Ascent, Course, Cut, FEW_STEPS, LIKELIEST, Multipliers, NEAR_PACE, NEAR_REACH, PACE, Point,
    REACH, STEPS,
};
pub use swaps::{local_search, steps_of_long_search};
