//! What a list of rows holds: whether it holds a region, each of many regions, or the places of
//! another list.
//!
//! A region is a cube, as the part of the space that a question is about. Questions and their splits
//! are those of Brayton, Hachtel, McMullen and Sangiovanni-Vincentelli, Logic Minimization Algorithms
//! for VLSI Synthesis (1984), with a reason for each answer. The main calls:
//!
//! - [`part_left_out`], a part of a region that no row of a list meets, or none if the list holds
//!   the region, and [`part_left_out_of_each`], the same for each of many regions;
//! - [`are_related`], whether a list holds all places of another, or none ([`Relation`]), and
//!   [`are_meets_held_by_halves`], whether it holds the places that two others have in common;
//! - [`rows_not_among`], the rows that do not stand in another list as they are, so that only these
//!   have to be asked for.
//!
//! With two inputs and one output, the rows `11 1` and `0- 1` leave the part `10 1` of the region
//! `1- 1` out, and with a third row `-0 1` they hold it; all three hold each place of `-1 1`.
//!
//! No call lists points. A question splits at inputs, each half answered by an implicant that says
//! why it is held: so a split that has no part in the answer is undone at once. It takes time in
//! the number of rows times that of the splits, which may be exponential in the inputs at worst.
//! Where splits get many, a SAT search is asked (`sat_search`), and each clause that its answer
//! needs is checked; where it finds none within its limits, splits begin again. Between lists,
//! splits first separate rows that have no place in common.
#![tactic(auto)]

mod equal_rows;
mod meets_within;
mod pairwise;
mod region;

pub use equal_rows::rows_not_among;
pub use meets_within::are_meets_held_by_halves;
pub use pairwise::{Relation, are_disjoint, are_related};
pub use region::nearest_first::part_left_out_of_each;
pub use region::part_left_out;
