//! The program espresso: a two-level logic tool on PLA files.
//!
//! What it does stands in the library `espresso`, which other crates can call: so its tests stand
//! in a crate of their own, and each of its wrong bodies is tried without a program to link.
#![tactic(auto)]

use std::process::ExitCode;

fn main(rt: HostRuntime) -> ExitCode {
    espresso::start(&rt)
}
