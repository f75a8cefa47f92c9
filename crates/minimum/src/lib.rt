//! Primes, essential primes and the least cover by primes.
//!
//! - [`primes`] gives all primes of the ON-set with the DC-set, [`essential`] those that hold a
//!   wanted place alone; [`find_essential`] finds these without a list of all primes, and
//!   [`find_essential_outside`] by the places outside, without a DC list.
//! - [`exact`] gives the least cover by primes: it builds a table of primes, reduces it and
//!   solves it.
//! - [`primes_of_pla`], [`essential_of_pla`] and [`exact_of_pla`] give the same for a description,
//!   and make of the lists that its type leaves open those that they need.
//!
//! With more than 12 inputs the table mostly has a row for each of some picked points, and columns
//! that dominate the primes that contain one of them: for each set of points that a prime contains
//! one that contains them too, and comes no later. So a point may lie in millions of primes. Points
//! are picked where the least cover of the table so far leaves out a place, at first at maximal
//! signatures (McGeer, Sanghavi, Brayton and Sangiovanni-Vincentelli, ESPRESSO-SIGNATURE, 1993); once
//! it leaves out none, it is the least cover by primes: the law [`points_are_enough`]. Columns are
//! grown (`growth`) outside cubes with the places in neither set, or, where these are too many, with those
//! that turn out to be needed, beside the essential primes. Else all primes are listed: with more than 20
//! inputs points are picked by them, and with fewer the table has rows from regions.
//!
//! The table is one of the covering problem (`covering`), which knows no cubes; what its callers
//! need is passed on here.
//!
//! - `Table::build`, of [`OfPrimes`], makes the table of the primes, whose covers are the covers by
//!   primes.
//! - [`reduce`] applies the steps of a reduction until none applies; the least cover stays.
//! - [`least_cover`] gives the least cover, and [`least_cover_with_effort`] counts what was done to
//!   find it. [`least_cover_plain`] gives it too, by trying all choices.
//!
//! The function 000, 001, 010, 101, 110, 111 of three inputs has six primes, each of two points, in
//! a ring. Its table has the rows {0,3}, {0,4}, {1,2}, {1,5}, {2,3} and {4,5}; no step reduces it,
//! and its least cover is 0, 2, 5.
//!
//! Lists of many points are merged before anything else is asked of them, but for their primes. Of other
//! lists the rows that lie in others are dropped, and with more than 12 inputs their rows are merged for
//! primes and with one output, as rows that were cut in two have many sums.
//!
//! There may be exponentially many primes in the inputs, and the least cover may take exponentially many
//! branches of its table. Where points are picked, memory is for their columns and not for the primes.
//! [`find_essential`] looks at all rows for each prime that it grows, of which there are at most as many as
//! ON cubes.
#![tactic(auto)]

mod as_needed;
mod cubes;
mod essential_by_neighbours;
mod essential_primes;
mod exact_minimum;
mod fewer_rows;
mod laws;
mod numbered_cubes;
mod of_pla;
mod points;
mod prime_implicants;
mod prime_table;
mod way_hints;

pub use covering::{
    Choice, Effort, Table, least_cover, least_cover_plain, least_cover_with_effort,
    least_difference_decides, least_is_unique, reduce, weights_bound_covers,
};
pub use essential_by_neighbours::{find_essential, find_essential_outside};
pub use essential_primes::essential;
pub use exact_minimum::exact;
pub use fewer_rows::{essential_of_pla, exact_of_pla, primes_of_pla};
pub use laws::points_are_enough;
pub use prime_implicants::primes;
pub use prime_table::OfPrimes;
