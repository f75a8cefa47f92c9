//! `read_pla`: a whole input, read piece by piece. (`Reading`, a reader of std as an input device,
//! stands in `over_std`, with `Writing`.)
ghost use Rattle.std.specs.Prelude.{◌≡◌, ◌++◌, ◌+◌, ◌≤◌, [], List, ℕ, Some, None, false, IfOk, IfErr, length};
ghost use Rattle.cube.specs.Limits.{format_limits};
ghost use Rattle.pla.specs.Description.{described};
ghost use Rattle.pla.specs.Echoes.{due};
ghost use Rattle.pla.specs.Fault.{fault_of, open_fault};
ghost use Rattle.pla.specs.Reads.{Answers, CountsWrites, IsTold, Reads, WritesGrowth};
ghost use Rattle.pla.specs.Scan.{StandsFor};
ghost use Rattle.pla.specs.Steps.{result_after_flush as result_after_flush_of, buffered_kind as buffered_kind_of, position_in};

use crate::description::Pla;
use crate::device::{Broken, Input, Output};
use crate::echo::Echo;
use crate::echo_buffer::EchoBuffer;
use crate::ending::Ending;
use crate::fault::{ReadFault, ReadKind};
use crate::scan::Scan;
use crate::writing::WriteFault;
use std::alloc::Global;

/// Reads a description and writes the echoes of its lines, in one pass through a buffer of 4,096
/// bytes; the echoes of each piece are put together, and written before the next piece is read.
///
/// Answers the description, or the first fault of what was delivered. Two faults are not of the
/// text and have line 0: a failed write (`WriteFailed`, only if the output counted one) and out of
/// memory (`OutOfMemory`); the output has then taken a prefix of the echoes. After a line that ends
/// the description, a faulty line or one that is too long, no more is asked for. Costs a pass over
/// the bytes, and memory for the cubes and the names, at most one line, the words of a keyword
/// line, the bytes of at most one unfinished row, and the echoes of a piece.
pub fn read_pla<R: Input, W: Output>(
    alloc: Global,
    input: &mut R,
    output: &mut W,
    echo: Echo,
) -> Result<Pla, ReadFault>
    ensures { Reads echo (R.left input.old) (R.left input.new)
        (R.calls input.old) (R.calls input.new)
        (W.taken output.old) (W.taken output.new) (W.calls output.old) (W.calls output.new) result }
{
    let mut scan = Scan::new(alloc, echo);
    let mut echoes = EchoBuffer::new(alloc);
    let mut buffer = [0u8; 4096];
    while !scan.done() {
        match input.read(&mut buffer) {
            Ok(0) => return finish(scan, Ending::End, &mut echoes, output),
            Ok(count) => scan = feed(scan, &buffer[..count], &mut echoes, output)?,
            Err(Broken) => return finish(scan, Ending::Failed, &mut echoes, output),
        }
    }
    finish(scan, Ending::End, &mut echoes, output)
}

/// Takes the next piece as [`Scan::feed`] does, and writes its echoes at once, also those before a
/// fault. `echoes` holds nothing before and after.
fn feed<W: Output>(
    scan: Scan,
    piece: &[u8],
    echoes: &mut EchoBuffer,
    output: &mut W,
) -> Result<Scan, ReadFault>
    requires { echoes.old.bytes.items ≡ [] }
    ensures empty { echoes.new.bytes.items ≡ [] }
    ensures echo { IfOk result (λ next. next.echo ≡ scan.echo) }
    ensures stands { (text : List ℕ) → StandsFor format_limits scan text →
        IfOk result (λ next. StandsFor format_limits next (text ++ piece.now)) }
    ensures fault { (text : List ℕ) → StandsFor format_limits scan text →
        IfErr result (IsTold (open_fault format_limits (text ++ piece.now))) }
    ensures written { (text : List ℕ) → StandsFor format_limits scan text →
        WritesGrowth (W.taken output.old) (W.taken output.new) result
        (due format_limits scan.echo None text)
        (due format_limits scan.echo None (text ++ piece.now)) }
    ensures count { CountsWrites (W.calls output.old) (W.calls output.new) result }
    ensures onward { (text : List ℕ) → StandsFor format_limits scan text →
        IfOk result
        (λ next. next.parsed.header.ended ≡ false
        → position_in scan + length piece.now ≤ position_in next) }
{
    let fed = scan.feed(piece, echoes);
    let flushed = echoes.flush_to(output);
    result_after_flush(fed, flushed)
}

/// Ends as [`Scan::finish`] does, and writes the last echo. `echoes` holds nothing before and
/// after.
fn finish<W: Output>(
    scan: Scan,
    ending: Ending,
    echoes: &mut EchoBuffer,
    output: &mut W,
) -> Result<Pla, ReadFault>
    requires { echoes.old.bytes.items ≡ [] }
    ensures answer { (text : List ℕ) → StandsFor format_limits scan text →
        Answers result (fault_of format_limits ending text) (described format_limits ending text) }
    ensures written { (text : List ℕ) → StandsFor format_limits scan text →
        WritesGrowth (W.taken output.old) (W.taken output.new) result
        (due format_limits scan.echo None text) (due format_limits scan.echo (Some ending) text) }
    ensures count { CountsWrites (W.calls output.old) (W.calls output.new) result }
{
    let finished = scan.finish(ending, echoes);
    let flushed = echoes.flush_to(output);
    result_after_flush(finished, flushed)
}

/// The answer of a step whose echoes were put in the buffer, `done`, once the buffer was flushed: a
/// failed flush comes first, as `WriteFailed` at line 0.
fn result_after_flush<T: Drop>(
    done: Result<T, ReadFault>,
    flushed: Result<(), WriteFault>,
) -> Result<T, ReadFault>
    ensures { result ≡ result_after_flush_of done flushed }
{
    match flushed {
        Err(WriteFault) => Err(ReadFault {
            line: 0,
            kind: ReadKind::WriteFailed,
        }),
        Ok(()) => match done {
            Ok(value) => Ok(value),
            Err(fault) => Err(ReadFault {
                line: fault.line,
                kind: out_of_memory_if_write_failed(fault.kind),
            }),
        },
    }
}

/// The kind of fault to report. A write to the echo buffer fails only for want of memory, so a
/// failed one is reported as that.
fn out_of_memory_if_write_failed(kind: ReadKind) -> ReadKind
    ensures { result ≡ buffered_kind_of kind }
{
    match kind {
        ReadKind::WriteFailed => ReadKind::OutOfMemory,
        kind => kind,
    }
}
