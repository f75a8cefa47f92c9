//! Places for the rows of a table of primes: a search whose answers have no contract; the caller
//! checks them.
//!
//! The signature cube of a place is the meet of all primes that hold it (McGeer, Sanghavi, Brayton
//! and Sangiovanni-Vincentelli, Espresso-Signature: a new exact minimizer for logic functions,
//! 1993). A cover by primes that holds a place holds its signature cube too, so places are best
//! whose signature cubes lie in no larger ones: they have few primes, and ask for much. The crate
//! is proved to be safe and to end, and nothing more.
//!
//! 1. [`Proposer::first_places`]: each ON cube as it stands; its signature cube is taken if it has a
//!    place of its own. This finds most signature cubes of functions that are written by people.
//!    Of a few samples that are points all places are taken as they stand.
//! 2. [`Proposer::places_left_out`]: of what a cover leaves out a place, the largest cube between it
//!    and the ON cube whose signature cube has a place of its own, and from there larger ones. The
//!    cover leaves out that place too: a prime that held it would hold the signature cube.
//!
//! Of the ON cubes `11-` and `-11`, with all other points in the OFF cubes, the place 110 has the
//! signature cube `11-`, and 011 has `-11`. That of 111 is `111`, which lies in both of them: so two
//! places are proposed, and the cover of their rows holds the third.
//!
//! Signature cubes that lie in others are left out. The first one costs a pass over all OFF cubes;
//! a larger one has its rows from those of the cube before, and costs one question over the ON and
//! DC cubes near it. A maximal one takes some tens of these.
//!
//! The crate has cubes of its own (`bits`): words of literals in one list, which a question copies,
//! narrows and compares by the million. It has no contract to keep with them, so it stands on no
//! crate of cubes, and is proved beside them.
#![tactic(auto)]

mod bits;
mod blocking_matrix;
mod blocking_rows;
mod climb;
mod complement;
mod counts;
mod cube;
mod descent;
mod exchanges;
mod finder;
mod function;
mod lists;
mod occurrences;
mod parts;
mod prime_list;
mod proposer;
mod question;
mod rows;
mod search;
mod splits;

pub use proposer::Proposer;
pub use rows::{Place, Rows};
