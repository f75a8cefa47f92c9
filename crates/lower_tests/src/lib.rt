//! Tests of the public calls of `cube`, `rows`, `regions`, `sums`, `cover` and `pla`.
//!
//! They stand in a crate of their own, since the crate that a test stands in is proved a second
//! time with it. Each public function is called once with ample memory, each generic one at a
//! concrete type; what whole texts come to is tested on the built program. The functions here are
//! kept plain, as each has to be proved, and that is dear where it holds many cubes or lists: so
//! the tests hold none, and go over tables. Helpers answer, or fail with `AllocError` whatever
//! failed, since a `Fail` that may come from many calls is dear to prove too.
//!
//! - Cubes and lists, from rows of text (`row_texts`): `cubes`, `covers`, `wide`; from rules
//!   (`rules`): `reasons`, `places`, `place_cases`, and `large` for each call on long lists and wide
//!   rows.
//! - Lists of rows (`lists`): `row_calls`, `row_questions`, `region_calls` and `sum_calls`.
//! - The format, of texts and long ones (`text_pieces`): `devices`, `over_std` and `writing` of its
//!   devices, `reading`, `sets` and `laws` of its files.
#![tactic(auto)]

#[cfg(test)]
mod covers;
#[cfg(test)]
mod cubes;
#[cfg(test)]
mod devices;
#[cfg(test)]
mod large;
#[cfg(test)]
mod laws;
#[cfg(test)]
mod lists;
#[cfg(test)]
mod over_std;
#[cfg(test)]
mod place_cases;
#[cfg(test)]
mod places;
#[cfg(test)]
mod reading;
#[cfg(test)]
mod reasons;
#[cfg(test)]
mod region_calls;
#[cfg(test)]
mod row_calls;
#[cfg(test)]
mod row_questions;
#[cfg(test)]
mod row_texts;
#[cfg(test)]
mod rules;
#[cfg(test)]
mod sets;
#[cfg(test)]
mod sum_calls;
#[cfg(test)]
mod text_pieces;
#[cfg(test)]
mod wide;
#[cfg(test)]
mod writing;
