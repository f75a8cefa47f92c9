//! Rows, and lists of rows: what the crates above share, with the definitions that they speak of.
//!
//! A row is a [`cube::Cube`], and a list is a slice of rows of one shape, or of references to rows.
//! The main calls:
//!
//! - [`sort_rows`] and [`merge`], a list in row order without repetition, and two such lists as one;
//! - [`meets_by_pairs`], the meets of the rows of two lists;
//! - [`rows_with_symbol`] and [`rows_with_compatible_symbol`], the rows by their symbol at an input.
//!
//! The others copy lists or put one behind another, make references to their rows, test symbols and
//! outputs, count literals ([`LiteralCounts`]), find those that are open in a region, and hash rows.
//! Lists of the program's own have a shape, and are covers, in the crate `cover`; `regions` asks what
//! a list holds, and `sums` makes complete sums.
//!
//! With two inputs and one output, [`sort_rows`] makes of `1- 1`, `0- 1` and `1- 1` the rows `0- 1`
//! and `1- 1`; their meets with `-1 1` are `01 1` and `11 1`; and of the two rows `1- 1` alone has
//! the symbol `1` at the first input.
//!
//! Each call looks at each row once, but for [`meets_by_pairs`], which looks at each pair, and
//! [`sort_rows`], which takes time in the number of rows times its logarithm, or in the number of
//! rows if these are in order already. Memory is taken for what is answered.
#![tactic(auto)]

mod copies;
mod cubes;
mod hashes;
mod literal_counts;
mod meets;
mod open_literals;
mod outputs;
mod sorting;
mod symbols;

pub use copies::{
    any_meets, clone_cubes, clone_referents, is_disjoint_from_all, references_to_cubes, with_copies,
};
pub use cubes::{cube_of_output, universal_cube};
pub use hashes::{row_hash, word_hash};
pub use literal_counts::{LiteralCounts, sample_size};
pub use meets::{meets_by_pairs, push_meets};
pub use open_literals::{
    count_bits, count_open_literals, first_open_literal, lacks_output, open_bits,
};
pub use outputs::share_output;
pub use sorting::{first_row_not_below, merge, push_copy, rows_of_both, sort_rows};
pub use symbols::{
    agrees_at, has_symbol_at, is_same_symbol, literal_of_value, opposite,
    rows_with_compatible_symbol, rows_with_symbol, symbol_contains,
};
