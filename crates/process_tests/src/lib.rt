//! Tests of the public calls of `espresso`.
//!
//! They stand in a crate of their own, as the tests of all crates do, since a crate with tests is
//! proved a second time with them: `runs` on devices that fail, `processes` from their words to
//! their status, `large` names and lists of words.
#![tactic(auto)]

#[cfg(test)]
mod large;
#[cfg(test)]
mod processes;
#[cfg(test)]
mod runs;
