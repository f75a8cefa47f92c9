//! Cubes that are grown: to a prime, and to the columns that dominate the primes of a point.
//!
//! A cube grows as it loses literals and gets outputs, as long as it stays on one side of a list of
//! rows: within them, or with no place of them ([`Side`]). One that can not grow further is a prime
//! of that side. This is the step EXPAND of Brayton, Hachtel, McMullen and Sangiovanni-Vincentelli,
//! Logic Minimization Algorithms for VLSI Synthesis (1984), but for its choice: literals go from the
//! first input on, so that the prime is the first in row order that contains the cube, or the columns
//! have as few as can be. The main calls:
//!
//! - [`grow`], a prime that contains a cube, with the rows near it, of rows by their outputs
//!   ([`RowsByOutput`]);
//! - [`columns_of_point`], some of the primes outside a list that contain one of some points: for
//!   each set of points that such a prime contains one that contains them too, and is as good.
//!
//! The others ask whether rows hold a cube, mostly at one look at each ([`hold_cube`]), and which
//! outputs rows reach in it ([`outputs_at`]); they compare cubes, copy them, and sort lists.
//!
//! With two inputs and one output, [`grow`] makes of `11 1` the prime `-1 1`, inside the rows `01 1`
//! and `1- 1` as well as outside the row `00 1`. Outside that row the columns of the point `11 1`
//! among `11 1`, `01 1` and `10 1` are `-1 1` and `1- 1`, and that of `01 1` is `-1 1` alone.
//!
//! A growth looks at all rows once, and once more for each literal that it loses; what else it asks,
//! for each literal and output, is asked of the rows near the cube, and of these for few outputs. A
//! column costs a look at each row that matters to its point, and one for each point that it may be
//! joined with. There may be a column for each set of points, so that the call takes how many looks
//! there may be. Memory is for references to rows, for copies of the rows near or of those that matter,
//! for two bits of each of these at each input and one at each output, and for what is answered.
#![tactic(auto)]

mod columns;
mod cubes;
mod holding;
mod narrower_part;
mod near_rows;
mod part_left_out;
mod prime;
mod reached_outputs;
mod rows_by_output;

pub use columns::columns_of_point;
pub use cubes::{add_copy, are_apart, large_first, lies_in_one_of};
pub use holding::hold_cube;
pub use near_rows::rows_to_ask;
pub use prime::{Growth, Side, grow};
pub use reached_outputs::outputs_at;
pub use rows_by_output::RowsByOutput;
