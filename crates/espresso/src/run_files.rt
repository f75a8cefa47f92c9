//! A run: the first source is read, the command is answered, the output is flushed, and what failed
//! is said on standard error; also the usage message (`refuse`).
ghost use Rattle.std.specs.Prelude.{◌≡◌, Err, IfErr, IfSome, IsTrue, is_some};
ghost use Rattle.espresso.specs.Messages.{is_answer};
ghost use Rattle.espresso.specs.Run.{AsksSecond, Intakes, Runs, Takes, TakesSome, WroteOrFailed, name_of, trace};
ghost use Rattle.espresso.specs.Steps.{Passes, Reports, Stands, StoppedBefore, names_said};
ghost use Rattle.espresso.specs.Tool.{first_name, outcome_of, refusal_of, second_name};
ghost use Rattle.espresso.specs.Words.{takes_two};

use crate::answer::answer;
use crate::failure::{Failure, Operand};
use crate::line::{Line, LineFault};
use crate::source_reading::{SecondSource, read_source};
use crate::sources::{Source, after_first, name_in_messages};
use crate::status::Status;
use pla::{Broken, Input, Output, write_bytes};
use std::alloc::Global;

/// Says on standard error why words gave no line, and answers how the process ends: with a fault,
/// or out of memory. Takes no memory; a failure of standard error is ignored.
pub fn refuse<E: Output>(fault: &LineFault, err: &mut E) -> Status
    ensures status { result ≡ (refusal_of fault.now).status }
    ensures message { WroteOrFailed
        (trace (E.taken err.old) (E.taken err.new) (E.calls err.old) (E.calls err.new))
        (refusal_of fault.now).message }
{
    match fault {
        LineFault::Usage => {
            let usage = b"usage: espresso -Dcommand [-o type] [-e eat] [file [file]]\n";
            let _ = write_bytes(err, usage);
            Status::Fault
        }
        LineFault::Memory => {
            let _ = write_bytes(err, b"espresso: out of memory\n");
            Status::Memory
        }
    }
}

/// Runs the line, and answers how the process ends.
///
/// The first source is read to its end or its first fault, then the second if there is one, and
/// their comments and unknown keyword lines go out after each piece; then the sizes of two files
/// are compared, and the command's text is printed. The first failure ends these steps. In any case
/// the output is then flushed, once and last, which is a failure only if nothing failed before. One
/// line on `err` reports the first failure; its own failures are ignored. After a write that failed
/// nothing more is written, and after a read that failed nothing more is read. Beyond the line that
/// ends a description or has a fault, at most a piece is read.
///
/// A second source is there if the command takes two files. The sources have the names of the
/// line's files, `(stdin)` for none or `-`, and keep them.
///
/// A run costs what reading, the command and printing cost: each input once, in pieces of 4,096
/// bytes, and memory for the rows of both as packed cubes.
pub fn run<R: Input, W: Output, E: Output>(
    alloc: Global,
    line: &Line,
    first: &mut Source<R>,
    second: &mut Option<Source<R>>,
    out: &mut W,
    err: &mut E,
) -> Status
    requires pair { is_some second.old ≡ takes_two line.now.command }
    requires first_name { name_of first.old ≡ first_name line.now.files }
    requires second_name { IfSome second.old (λ s. name_of s ≡ second_name line.now.files) }
    ensures ends { Runs (Takes R.left R.calls first.old first.new) (TakesSome R.left R.calls)
        line.now (outcome_of line.now) second.old second.new
        (trace (W.taken out.old) (W.taken out.new) (W.calls out.old) (W.calls out.new))
        (trace (E.taken err.old) (E.taken err.new) (E.calls err.old) (E.calls err.new)) result }
    ensures silent { IsTrue (is_answer result) → err.new ≡ err.old }
{
    run_on(alloc, line, first, second, out, err)
}

// Runs the line on a first source and whatever gives the second, which is asked only by commands of two
// descriptions: prints the answer, and a failure as a message, and answers the status.
pub(crate) fn run_on<R: Input, S: SecondSource, W: Output, E: Output>(
    alloc: Global,
    line: &Line,
    first: &mut Source<R>,
    second: &mut S,
    out: &mut W,
    err: &mut E,
) -> Status
    requires first_name { name_of first.old ≡ first_name line.now.files }
    requires second { S.fits line.now second.old }
    ensures ends { Runs (Takes R.left R.calls first.old first.new) (S.asked line.now)
        line.now (outcome_of line.now) second.old second.new
        (trace (W.taken out.old) (W.taken out.new) (W.calls out.old) (W.calls out.new))
        (trace (E.taken err.old) (E.taken err.new) (E.calls err.old) (E.calls err.new)) result }
    ensures silent { IsTrue (is_answer result) → err.new ≡ err.old }
{
    let done = read_and_answer(alloc, line, first, second, out);
    let done = flush_last(out, done);
    let files = line.files();
    let second_name = name_in_messages(after_first(files));
    report(
        done,
        name_in_messages(files).as_bytes(),
        second_name.as_bytes(),
        err,
    )
}

// Reads the sources in their order, and prints what the command answers.
fn read_and_answer<R: Input, S: SecondSource, W: Output>(
    alloc: Global,
    line: &Line,
    first: &mut Source<R>,
    second: &mut S,
    out: &mut W,
) -> Result<Status, Failure>
    requires first_name { name_of first.old ≡ first_name line.now.files }
    requires second { S.fits line.now second.old }
    ensures { (taken : Intakes) × Takes R.left R.calls first.old first.new taken.first
        × AsksSecond (S.asked line.now) line.now taken.first (StoppedBefore taken.first result)
        second.old taken.second second.new
        × Stands line.now taken (names_said line.now)
        (trace (W.taken out.old) (W.taken out.new) (W.calls out.old) (W.calls out.new)) result }
{
    let pla = read_source(alloc, line, Operand::First, first, out)?;
    answer(alloc, line, &pla, second, out)
}

// Flushes the output, once and last. A failure stops a run that was not stopped yet.
fn flush_last<W: Output>(out: &mut W, done: Result<Status, Failure>) -> Result<Status, Failure>
    ensures stopped { IfErr done (λ failure. result ≡ Err failure) }
    ensures passes { Passes (W.taken out.old) (W.taken out.new) (W.calls out.old)
        (W.calls out.new) done result }
{
    match done {
        Ok(status) => match out.flush() {
            Ok(()) => Ok(status),
            Err(Broken) => Err(Failure::WriteFailed),
        },
        Err(failure) => {
            let _ = out.flush();
            Err(failure)
        }
    }
}

// Says what stopped the run, if anything did, and answers how it ends.
fn report<E: Output>(
    done: Result<Status, Failure>,
    first: &[u8],
    second: &[u8],
    err: &mut E,
) -> Status
    ensures said { Reports (record { first = first.now; second = second.now })
        (trace (E.taken err.old) (E.taken err.new) (E.calls err.old) (E.calls err.new))
        done result }
    ensures silent { IsTrue (is_answer result) → err.new ≡ err.old }
{
    match done {
        Ok(status) => status,
        Err(failure) => {
            failure.say(first, second, err);
            failure.status()
        }
    }
}
