//! Complete sums of lists of rows.
//!
//! The complete sum of some places is the list of all cubes that hold only such places and lie in
//! no larger such cube, in row order: the primes of a function of several outputs, as in Brayton,
//! Hachtel, McMullen and Sangiovanni-Vincentelli, Logic Minimization Algorithms for VLSI Synthesis
//! (1984). The main calls:
//!
//! - [`sum_of_difference`], the complete sum of the places that are in one list and not in another,
//!   which with an empty second list is that of the first;
//! - [`sum_of_both`], that of the places in both of two lists;
//! - [`largest_containing`], those cubes of the complete sum of the places outside a list that
//!   contain a region, without the others, and [`rows_containing`], the rows of a list that do.
//!
//! With two inputs and one output, the sum of `11 1`, `1- 1` and `0- 1` is `-- 1`; without the
//! places of `11 1` it is `0- 1` and `-0 1`, of which the first contains the region `01 1`; and
//! that of the places both in `1- 1` and in `-1 1` is `11 1`.
//!
//! A complete sum may have exponentially many cubes in the inputs, and time grows at least with
//! their number. Sums of smaller lists are kept while a call goes on, and found again: memory is
//! taken for them too, until they become many. [`largest_containing`] takes time in the rows times
//! the cubes that contain the region beside some of the rows.
#![tactic(auto)]

mod absorb;
mod branch;
mod by_symbol;
mod computed_table;
mod constant_outputs;
mod containing;
mod dependent_outputs;
mod ends;
mod four_rows;
mod independent_parts;
mod input_groups;
mod keys;
mod meets;
mod recursion;
mod split_input;
mod two_rows;

pub use containing::{largest_containing, rows_containing};
pub use recursion::{sum_of_both, sum_of_difference};
