//! Tests of the public calls of `covering`, `growth`, `minimum` and `signature_search`.
//!
//! They stand in a crate of their own, as those of the crates below (`lower_tests`) and above
//! (`process_tests`) do, since the crate that a test stands in is proved a second time with it.
//!
//! - Minima: `primes`, `tables` of rows, `solutions` of whole files; `descriptions` by `rules`, in
//!   `small_cases` and `wide`, which also sets functions of a few inputs among many; `signatures`
//!   of a decoder.
//! - `growth_calls`: what cubes grow to, on small, long and wide lists.
//! - `large`: each other call on long lists, wide rows and many columns.
#![tactic(auto)]

#[cfg(test)]
mod descriptions;
#[cfg(test)]
mod growth_calls;
#[cfg(test)]
mod large;
#[cfg(test)]
mod primes;
#[cfg(test)]
mod rules;
#[cfg(test)]
mod signatures;
#[cfg(test)]
mod small_cases;
#[cfg(test)]
mod solutions;
#[cfg(test)]
mod tables;
#[cfg(test)]
mod wide;
