//! What a process does, from its words to its status.
ghost use Rattle.std.specs.Prelude.{◌≡◌, IsTrue, map, string_bytes};
ghost use Rattle.espresso.specs.Messages.{is_answer};
ghost use Rattle.espresso.specs.Program.{Executes, IsOpenedAs, RunsLine, words_behind};
ghost use Rattle.espresso.specs.Run.{Takes, trace};
ghost use Rattle.espresso.specs.Tool.{outcome_of};

use crate::line::{Line, LineFault};
use crate::run_files::{refuse, run_on};
use crate::source_reading::open_source;
use crate::sources::{Opener, after_first};
use crate::status::Status;
use pla::Output;
use std::alloc::{AllocError, Global};

/// Acts on the words that a process was started with, the program's name first, and returns how it
/// ends: if they are a command line, it is run on its files, and otherwise a message says why they
/// are none. So output, message and status are those of `tool`, unless memory runs out or an output
/// fails.
///
/// No file word, or `-`, is standard input; any other word is the file of that name, or a closed
/// source if it cannot be opened. The opener is called once for each source, and for nothing else:
/// not before the words say a line, and for a second source, if the command takes two files, only
/// once the first was read whole and without a fault.
pub fn execute<O: Opener, W: Output, E: Output>(
    alloc: Global,
    words: Result<Vec<String>, LineFault>,
    opener: &mut O,
    out: &mut W,
    err: &mut E,
) -> Status
    ensures ends { Executes (IsOpenedAs O.file O.input) (Takes O.Device.left O.Device.calls)
        (words_behind (λ given. map string_bytes given.items) words) opener.old opener.new
        (trace (W.taken out.old) (W.taken out.new) (W.calls out.old) (W.calls out.new))
        (trace (E.taken err.old) (E.taken err.new) (E.calls err.old) (E.calls err.new)) result }
    ensures silent { IsTrue (is_answer result) → err.new ≡ err.old }
{
    let line = match words {
        Ok(words) => Line::read(alloc, after_first(&words)),
        Err(fault) => return refuse(&fault, err),
    };
    match line {
        Ok(line) => run_line(alloc, &line, opener, out, err),
        Err(fault) => refuse(&fault, err),
    }
}

// Opens the first file of the line and runs it; the second is opened on the way.
fn run_line<O: Opener, W: Output, E: Output>(
    alloc: Global,
    line: &Line,
    opener: &mut O,
    out: &mut W,
    err: &mut E,
) -> Status
    ensures ends { RunsLine (IsOpenedAs O.file O.input) (Takes O.Device.left O.Device.calls)
        line.now (outcome_of line.now) opener.old opener.new
        (trace (W.taken out.old) (W.taken out.new) (W.calls out.old) (W.calls out.new))
        (trace (E.taken err.old) (E.taken err.new) (E.calls err.old) (E.calls err.new)) result }
    ensures silent { IsTrue (is_answer result) → err.new ≡ err.old }
{
    match open_source(alloc, opener, line.files()) {
        Ok(mut first) => run_on(alloc, line, &mut first, opener, out, err),
        Err(AllocError) => refuse(&LineFault::Memory, err),
    }
}
