//! Lists of cubes of one shape, and what they hold.
//!
//! A [`Cover`] stands for the places of its cubes: a point with the number of an output, as in
//! Brayton, Hachtel, McMullen and Sangiovanni-Vincentelli, Logic Minimization Algorithms for VLSI
//! Synthesis (1984). Its list keeps its order and may repeat a cube. The main calls:
//!
//! - [`Cover::push`], [`Cover::get`] and [`Cover::as_slice`] for the list itself;
//! - [`Cover::cofactor`], the list inside a cube, and [`Cover::holds_cube`], [`Cover::holds_cubes`]
//!   and [`Cover::tautology`], which ask whether a cube, each of some or everything is held;
//! - [`Cover::part_left_out`] and [`Cover::parts_left_out`], a part of a cube, or of each of some,
//!   that is not held;
//! - [`contain`], the list without the cubes that lie in others of it;
//! - [`Cover::intersects`], [`is_within_either`] and [`agree_outside`], which compare lists by
//!   their places, and [`are_meets_within_either`], which does so within a third list alone;
//! - [`complete_sum`], [`Cover::complement`], [`intersect`] and [`difference`], which answer the
//!   complete sum of the places inside, outside, in both lists and in the first alone;
//! - [`outside`] and [`subtract`], some cubes with the places outside and in the first list alone,
//!   where the complete sum may be far too long, within a [`Budget`];
//! - [`merge_rows`], a list with the same places and fewer rows, for tables of truth and rows in pieces;
//! - [`sum_containing`] and [`cubes_containing`], the cubes of a complete sum and of a list that
//!   contain a region, without the others; and [`in_row_order`], the list sorted.
//!
//! With two inputs and one output, the rows `11 1`, `1- 1`, `1- 1` and `0- 1` hold every place, so
//! `tautology` answers true, the complete sum is the row `-- 1`, and the complement is empty;
//! `contain` leaves `1- 1` and `0- 1`; the cofactor by `1- 1` has the rows `-1 1`, `-- 1` and
//! `-- 1`.
//!
//! No call lists points. `cofactor` looks at each cube once. `tautology`, `holds_cube(s)`,
//! `part(s)_left_out` and [`agree_outside`] split at inputs, each half answered by an implicant
//! that says why it is held: so a split that has no part in the answer is undone at once. They take
//! time in the number of cubes times that of the splits, which may be exponential in the inputs at
//! worst. Where splits get many, a SAT search is asked (`sat_search`), and each clause that its
//! answer needs is checked; the search ends unanswered before it takes 1.5 GB. `contain` looks at
//! far fewer than all pairs of cubes if these have literals at many inputs, and at worst at all of
//! them. Each takes memory for indices or references; `cofactor`, `contain` and `try_clone` also
//! for the cubes of their answer.
#![tactic(auto)]

mod cofactor;
mod compare;
mod complete_sums;
mod containment;
mod full_list_hint;
mod list;
mod merging;
mod outside_within_budget;
mod references;
mod tautology;

pub use compare::meets_within::are_meets_within_either;
pub use compare::{agree_outside, is_within_either};
pub use complete_sums::{complete_sum, cubes_containing, difference, intersect, sum_containing};
pub use containment::contain;
pub use list::{Cover, in_row_order};
pub use merging::merge_rows;
pub use outside_within_budget::{Budget, outside, subtract};
