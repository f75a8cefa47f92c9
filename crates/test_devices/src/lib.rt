//! An input and an output in memory, which report their bytes and fail where a test asks for it.
//!
//! They are of no use to callers of the libraries: `pla::Reading` and `pla::Writing` make an input
//! of a slice and an output of a `Vec`.
#![tactic(auto)]

mod memory;

pub use memory::{Given, Taken};
