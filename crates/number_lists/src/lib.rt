//! Lists of numbers and of marks, on which the hints for the covering problem work.
//!
//! - [`Lists`] are lists of small numbers in one piece of memory; [`Lists::transpose`] gives, for each
//!   number, the lists that have it.
//! - [`Compact`] is a covering table with its live columns renumbered from 0 on: the columns of each
//!   row, the rows of each column, and what each column costs.
//! - [`is_live_part_of`] tells whether a row is what another one has of the live columns, by which it
//!   is known again from table to table.
//! - Most others read and write at an index that may be past the end, where a read gives 0 and a write
//!   does nothing: [`at`] and [`put`] for `i64`, [`number`] and [`set`] for `usize`, [`flag`] and
//!   [`mark`] for marks, [`float`] and [`put_float`] for `f64`. [`next_random`] is a fixed pseudo-random sequence.
//!
//! A table with the rows {3,7} and {7,9}, of which the columns 3, 7 and 9 are live, becomes one with
//! the rows {0,1} and {1,2}; its columns are in the rows {0}, {0,1} and {1}.
//!
//! Sums wrap or saturate, and each index is checked before it is used: no call has a precondition. A
//! call takes one pass over what it is given, and memory for what it answers.
#![tactic(auto)]

mod compact;
mod floats;
mod lists;
mod numbers;

pub use compact::{Compact, UNIT};
pub use floats::{float, in_whole_numbers, put_float, sum_at};
pub use lists::{Lists, is_live_part_of};
pub use numbers::{
    SEED, add_at, add_to, add_to_each, at, flag, mark, marked, marks_of, next_random, number,
    overwrite, put, set, small, total,
};
