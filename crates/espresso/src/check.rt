//! Whether the three sets of a description partition the space.
//!
//! A list that the type of the rows leaves open is the complete sum of what the others leave, so it
//! shares no place with them and leaves no gap; it is not computed, for it may be exponential.
ghost use Rattle.std.specs.Prelude.{◌≡◌, ◌||◌, IfOk, not};
ghost use Rattle.cover.specs.Places.{holds_all, places, share_place};
ghost use Rattle.pla.specs.Device.{TellsFailure, Writes};
ghost use Rattle.pla.specs.Completed.{three_sets};
ghost use Rattle.espresso.specs.Answer.{answer_of, checked};
ghost use Rattle.espresso.specs.Check.{flaws_of, flaws_text, has_flaw, line_if as line_if_of};
ghost use Rattle.espresso.specs.Run.{trace};
ghost use Rattle.espresso.specs.Steps.{PutsOut, PutsOutOne};

use crate::command::Command;
use crate::failure::Failure;
use crate::printing::print_text;
use crate::status::Status;
use minimum::Choice;
use pla::{FileType, OutType, Output, Pla, WriteFault, write_bytes, write_next};
use std::alloc::AllocError;

// Prints whether the three sets part the space, and answers a no if they do not.
pub(crate) fn check<W: Output>(pla: &Pla, out: &mut W) -> Result<Status, Failure>
    ensures { PutsOutOne (answer_of Command.Check OutType.F Choice.First) pla.now
        (trace (W.taken out.old) (W.taken out.new) (W.calls out.old) (W.calls out.new)) result }
{
    match flaws_in(pla) {
        Ok(flaws) => print_flaws(flaws, out),
        Err(AllocError) => Err(Failure::OutOfMemory),
    }
}

// Which of the three sets share a place, and whether there is a place outside of all.
#[derive(Clone, Copy)]
struct Flaws {
    on_dc: bool,
    on_off: bool,
    dc_off: bool,
    gap: bool,
}

// The flaws of the description's three sets.
fn flaws_in(pla: &Pla) -> Result<Flaws, AllocError>
    ensures { IfOk result (λ flaws. flaws ≡ flaws_of (three_sets pla.now)) }
{
    match pla.file_type() {
        FileType::F => Ok(Flaws {
            on_dc: false,
            on_off: false,
            dc_off: false,
            gap: false,
        }),
        FileType::Fd => Ok(Flaws {
            on_dc: on_meets_dc(pla)?,
            on_off: false,
            dc_off: false,
            gap: false,
        }),
        FileType::Fr => Ok(Flaws {
            on_dc: false,
            on_off: on_meets_off(pla)?,
            dc_off: false,
            gap: false,
        }),
        FileType::Fdr => Ok(Flaws {
            on_dc: on_meets_dc(pla)?,
            on_off: on_meets_off(pla)?,
            dc_off: dc_meets_off(pla)?,
            gap: has_gap(pla)?,
        }),
    }
}

// Whether the given lists for the ON-set and the DC-set share a place.
fn on_meets_dc(pla: &Pla) -> Result<bool, AllocError>
    ensures { IfOk result
        (λ some. some ≡ share_place pla.now.size (places pla.now.on) (places pla.now.dc)) }
{
    pla.on().intersects(pla.dc())
}

// Whether the given lists for the ON-set and the OFF-set share a place.
fn on_meets_off(pla: &Pla) -> Result<bool, AllocError>
    ensures { IfOk result
        (λ some. some ≡ share_place pla.now.size (places pla.now.on) (places pla.now.off)) }
{
    pla.on().intersects(pla.off())
}

// Whether the given lists for the DC-set and the OFF-set share a place.
fn dc_meets_off(pla: &Pla) -> Result<bool, AllocError>
    ensures { IfOk result
        (λ some. some ≡ share_place pla.now.size (places pla.now.dc) (places pla.now.off)) }
{
    pla.dc().intersects(pla.off())
}

// Whether the given lists leave a place out.
fn has_gap(pla: &Pla) -> Result<bool, AllocError>
    ensures { IfOk result (λ gap. gap ≡ not (holds_all pla.now.size
        (λ p. places pla.now.on p || places pla.now.dc p || places pla.now.off p))) }
{
    let mut all = pla.on().try_clone()?;
    all.append(pla.dc())?;
    all.append(pla.off())?;
    Ok(!all.tautology()?)
}

impl Flaws {
    // Whether there is a flaw.
    fn some(self) -> bool
        ensures { result ≡ has_flaw self }
    {
        self.on_dc || self.on_off || self.dc_off || self.gap
    }
}

// Prints a line for each flaw and answers a no, or prints the line that says that there is none.
fn print_flaws<W: Output>(flaws: Flaws, out: &mut W) -> Result<Status, Failure>
    ensures { PutsOut (checked flaws)
        (trace (W.taken out.old) (W.taken out.new) (W.calls out.old) (W.calls out.new)) result }
{
    if flaws.some() {
        match write_flaws(flaws, out) {
            Ok(()) => Ok(Status::No),
            Err(WriteFault) => Err(Failure::WriteFailed),
        }
    } else {
        print_text(
            b"ON-set, OFF-set and DC-set partition the space\n",
            Status::Done,
            out,
        )
    }
}

// Writes a line for each flaw; nothing if there is none.
fn write_flaws<W: Output>(flaws: Flaws, out: &mut W) -> Result<(), WriteFault>
    ensures bytes { Writes (W.taken out.old) (W.taken out.new) result (flaws_text flaws) }
    ensures count { TellsFailure (W.calls out.old) (W.calls out.new) result }
{
    let line = line_if(flaws.on_dc, b"ON-set and DC-set intersect\n");
    let done = write_bytes(out, line);
    let line = line_if(flaws.on_off, b"ON-set and OFF-set intersect\n");
    let done = write_next(out, done, line);
    let line = line_if(flaws.dc_off, b"DC-set and OFF-set intersect\n");
    let done = write_next(out, done, line);
    let gap = b"ON-set, OFF-set and DC-set do not cover the space\n";
    write_next(out, done, line_if(flaws.gap, gap))
}

// The line, if the condition holds, and else no bytes.
fn line_if(condition: bool, line: &[u8]) -> &[u8]
    ensures { result.now ≡ line_if_of condition line.now }
{
    if condition { line } else { b"" }
}
