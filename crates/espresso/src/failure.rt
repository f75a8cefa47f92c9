//! What failed when a run stops, and what is said of it.
ghost use Rattle.std.specs.Prelude.{◌≡◌, decimal};
ghost use Rattle.pla.specs.Device.{Continues, CountsOn, TellsFailure, Writes};
ghost use Rattle.espresso.specs.Messages.{closed_message, fault_message, kind_text};
ghost use Rattle.espresso.specs.Run.{WroteOrFailed, trace};
ghost use Rattle.espresso.specs.Steps.{message_of, name_at, status_of, failure_by};

use crate::status::Status;
use itoa::Buffer;
use pla::{Output, ReadFault, ReadKind, WriteFault, write_bytes, write_next};

// A source of a run.
#[derive(Clone, Copy)]
pub(crate) enum Operand {
    First,
    Second,
}

// What stops a run before its answer was printed.
#[derive(Clone, Copy)]
pub(crate) enum Failure {
    NotOpened(Operand),
    Faulty(Operand, ReadFault),
    SizesDiffer,
    WriteFailed,
    OutOfMemory,
}

impl Failure {
    // The failure of a run whose reading of this source ended with this fault. A failed write and
    // refused memory, which readings report too, are failures of their own, without a source.
    pub(crate) fn by(operand: Operand, fault: ReadFault) -> Failure
        ensures { result ≡ failure_by operand fault fault.kind }
    {
        match fault.kind {
            ReadKind::WriteFailed => Failure::WriteFailed,
            ReadKind::OutOfMemory => Failure::OutOfMemory,
            _ => Failure::Faulty(operand, fault),
        }
    }

    // How a run ends that this stops.
    pub(crate) fn status(self) -> Status
        ensures { result ≡ status_of self }
    {
        match self {
            Failure::OutOfMemory => Status::Memory,
            Failure::NotOpened(_)
            | Failure::Faulty(_, _)
            | Failure::SizesDiffer
            | Failure::WriteFailed => { Status::Fault }
        }
    }

    // Says on standard error what stopped the run, with the name of the source that did. A failure
    // there is ignored.
    pub(crate) fn say<E: Output>(self, first: &[u8], second: &[u8], err: &mut E)
        ensures { WroteOrFailed
            (trace (E.taken err.old) (E.taken err.new) (E.calls err.old) (E.calls err.new))
            (message_of (record { first = first.now; second = second.now }) self) }
    {
        let _ = match self {
            Failure::NotOpened(operand) => say_closed(operand.choose(first, second), err),
            Failure::Faulty(operand, fault) => say_fault(operand.choose(first, second), fault, err),
            Failure::SizesDiffer => write_bytes(err, b"espresso: sizes differ\n"),
            Failure::WriteFailed => write_bytes(err, b"espresso: write failed\n"),
            Failure::OutOfMemory => write_bytes(err, b"espresso: out of memory\n"),
        };
    }
}

impl Operand {
    // The name of this operand.
    fn choose<'a>(self, first: &'a [u8], second: &'a [u8]) -> &'a [u8]
        ensures { result.now ≡ name_at self (record { first = first.now; second = second.now }) }
    {
        match self {
            Operand::First => first,
            Operand::Second => second,
        }
    }
}

// Says that the source of this name cannot be opened.
fn say_closed<E: Output>(name: &[u8], err: &mut E) -> Result<(), WriteFault>
    ensures bytes { Writes (E.taken err.old) (E.taken err.new) result (closed_message name.now) }
    ensures count { TellsFailure (E.calls err.old) (E.calls err.new) result }
{
    let done = write_bytes(err, b"espresso: cannot open ");
    let done = write_next(err, done, name);
    write_next(err, done, b"\n")
}

// Says what fault the source of this name has, and at which line.
fn say_fault<E: Output>(name: &[u8], fault: ReadFault, err: &mut E) -> Result<(), WriteFault>
    ensures bytes { Writes (E.taken err.old) (E.taken err.new) result
        (fault_message name.now fault) }
    ensures count { TellsFailure (E.calls err.old) (E.calls err.new) result }
{
    let done = write_bytes(err, b"espresso: ");
    let done = write_next(err, done, name);
    let done = write_next(err, done, b":");
    let done = write_number(err, done, fault.line);
    let done = write_next(err, done, b": ");
    let done = write_next(err, done, text_of_kind(fault.kind));
    write_next(err, done, b"\n")
}

// Writes the number in decimal after what was written before, unless that has failed: then the
// failure `done` is answered.
fn write_number<E: Output>(
    err: &mut E,
    done: Result<(), WriteFault>,
    number: u64,
) -> Result<(), WriteFault>
    ensures bytes { Continues (E.taken err.old) done (E.taken err.new) result (decimal number) }
    ensures count { CountsOn (E.calls err.old) done (E.calls err.new) result }
{
    let mut digits = Buffer::new();
    write_next(err, done, digits.format(number).as_bytes())
}

// What the kind is called.
fn text_of_kind(kind: ReadKind) -> &'static [u8]
    ensures { result.now ≡ kind_text kind }
{
    match kind {
        ReadKind::TooManyLines => b"more than 16777216 lines",
        ReadKind::LineTooLong => b"line longer than 131072 bytes",
        ReadKind::RefusedKeyword => b"keyword outside the profile",
        ReadKind::KeywordInsideRow => b"keyword inside a row",
        ReadKind::KeywordRepeated => b"keyword repeated",
        ReadKind::BadNumber => b"bad number",
        ReadKind::NamesBeforeShape => b"names before .i and .o",
        ReadKind::WrongNumberOfNames => b"wrong number of names",
        ReadKind::TypeAfterRow => b"type after a row",
        ReadKind::BadType => b"bad type",
        ReadKind::RowBeforeShape => b"row before .i and .o",
        ReadKind::BadSymbol => b"bad symbol",
        ReadKind::ShapeMissing => b".i or .o missing",
        ReadKind::UnfinishedRow => b"unfinished row",
        ReadKind::ReadFailed => b"read failed",
        ReadKind::WriteFailed => b"write failed",
        ReadKind::OutOfMemory => b"out of memory",
    }
}
