//! espresso as a library: a two-level logic tool on PLA files.
//!
//! A command line names a command and a file, or two files that are read one after the other.
//! [`Line::read`] takes the words after the program's name, and [`run`] reads the files, passes
//! their comments on, and prints what the command answers; if the words say no line, [`refuse`]
//! says so. [`execute`] is all of it, with the files opened: it answers what `specs/Tool.antt`
//! defines as `tool`: what goes to standard output, the one line that may go to standard error, and
//! the exit status. [`start`] does so with the words, the files and the streams of the process.
//!
//! Some commands print a PLA, with the lists that the output type asks for:
//!
//! - `echo`, as it was read;
//! - `contain`, without the cubes that lie in others of its ON list;
//! - `primes`, with the primes for its ON list;
//! - `essen`, with the essential primes;
//! - `exact`, with the least cover by primes: the shortest, of these under `--literals` the one
//!   with the fewest literals, and of these the first;
//! - `intersect`, with the places in both files' ON-sets;
//! - `sharp`, with the places in the first file's ON-set and not in the second's.
//!
//! The others say yes or no, and a no is reported by the status too:
//!
//! - `check`, whether the three sets part the space, with a line for each flaw;
//! - `tautology`, whether the ON-set is everything;
//! - `verify`, whether two files agree outside their DC-sets.
//!
//! With the file
//!
//! ```text
//! # a comment
//! .i 3
//! .o 2
//! 1-
//! 0 1
//! 1
//! ```
//!
//! the words `-Decho -` print
//!
//! ```text
//! # a comment
//! .i 3
//! .o 2
//! .p 1
//! 1-0 11
//! .e
//! ```
//!
//! A run reads each file once, in pieces of 4,096 bytes, and holds its rows as packed cubes.
#![tactic(auto)]

mod answer;
mod check;
mod command;
mod failure;
mod laws;
mod line;
mod parser;
mod printing;
mod program;
mod run_files;
mod source_reading;
mod sources;
mod status;
mod verify;

pub use command::Command;
pub use laws::tool_is_outcome_or_refusal;
pub use line::{Line, LineFault};
use pla::Writing;
pub use program::execute;
pub use run_files::{refuse, run};
use sources::{Files, process_words};
pub use sources::{Opener, Source, after_first, source_name};
pub use status::Status;
use std::process::ExitCode;

/// The whole process: [`execute`] with the words that it was started with, its files and its
/// streams. Answers the status that the process ends with.
pub fn start(rt: &HostRuntime) -> ExitCode {
    let mut out = Writing::new(rt.stdout());
    let mut err = Writing::new(rt.stderr());
    let mut files = Files { rt };
    ExitCode::from(execute(
        rt.alloc(),
        process_words(rt),
        &mut files,
        &mut out,
        &mut err,
    )
    .code())
}
