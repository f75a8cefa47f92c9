//! The covering problem: a table of columns and rows, its reduction and its least cover.
//!
//! A table has columns, some taken and some live, and rows, each a list of live columns. A cover is
//! a rising list of columns with all taken ones and a column of each row. The least cover is the
//! first of the shortest, where lists are compared number by number; with `Choice::Literals` those
//! with the fewest literals come before.
//!
//! - [`Table::new`] makes a table of rows and of each column's number of literals.
//! - [`reduce`] applies the steps of a reduction until none applies; the least cover stays.
//! - [`least_cover`] gives the least cover, and [`least_cover_with_effort`] counts what was done to
//!   find it. [`least_cover_plain`] gives it too, by trying all choices.
//! - [`short_cover`] gives a short one soon.
//!
//! Nothing is known here of cubes. The lists of numbers and marks that a table is made of serve
//! lists of primes as well: [`numbers`], [`copy_of`], [`is_within`], [`is_blank`]; [`all_marked`],
//! [`is_marked`], [`unmark`].
//!
//! The ring of six columns, each of which is in two rows, has the rows {0,3}, {0,4}, {1,2},
//! {1,5}, {2,3} and {4,5}. No step reduces it, and its least cover is 0, 2, 5: the other cover of
//! three columns, 1, 3, 4, comes later.
//!
//! A reduction costs some passes over all rows, in each of which a row or a column is compared with
//! those that share its rarest column or its shortest row (Rudell, Logic synthesis for VLSI design,
//! 1989). The least cover is found by its length first: shorter covers are asked for until there is
//! none, and with literals covers with fewer. Then its columns are decided in list order: one of
//! the witness, a known cover within the cutoff, is taken, and of any other it is asked whether a
//! cover within the cutoff has it. A question is answered by a search that branches on any column;
//! each of its tables is reduced, also by weak column dominance, and bounded by weights of its rows
//! in whole numbers (Coudert, On solving covering problems, 1996). Weights, witnesses and branches
//! are hints, which are checked before they are used. Rows that fall into parts which share no
//! column are solved part by part, each renumbered (the first of two lists of one length has the
//! least number in which they differ, so that the parts' least covers make the least cover), and so
//! are those into which falls what a known length leaves undecided; if all columns of a part cost
//! the same its size decides. A search holds a copy of the table for each branch that is open, as
//! many as columns are decided on one path. A search may take exponentially many branches.
#![tactic(auto)]

mod bound;
mod choice;
mod column_dominance;
mod columns;
mod cutoff;
mod cuts;
mod exhaustive;
mod fewest_literals;
mod in_order;
mod kept_columns;
mod lagrangian;
mod laws;
mod least_covers;
mod local_search;
mod marks;
mod partition;
mod questions;
mod reduction;
mod renumber;
mod row_dominance;
mod search;
mod short_covers;
mod shortest;
mod steps;
mod table;
mod transpose;

pub use choice::Choice;
pub use columns::{copy_of, is_blank, is_within, numbers};
pub use exhaustive::least_cover_plain;
pub use laws::{least_difference_decides, least_is_unique, weights_bound_covers};
pub use least_covers::{least_cover, least_cover_with_effort};
pub use marks::{all_marked, is_marked, unmark};
pub use reduction::reduce;
pub use short_covers::short_cover;
pub use table::Table;
pub use warm_start::Effort;
