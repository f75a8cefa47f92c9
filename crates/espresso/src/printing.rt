//! How answers are printed: a description with a computed list, or a yes or a no.
ghost use Rattle.std.specs.Prelude.{◌≡◌, Bool, IfOk, List, unwrap_or};
ghost use Rattle.cube.specs.Cube.{Cube};
ghost use Rattle.pla.specs.Completed.{dc_list, off_list};
ghost use Rattle.pla.specs.Sets.{lists_of};
ghost use Rattle.pla.specs.Text.{text_of};
ghost use Rattle.espresso.specs.Answer.{judged, printed, printed_with, prints_dc, prints_off};
ghost use Rattle.espresso.specs.Run.{trace};
ghost use Rattle.espresso.specs.Steps.{PutsOut};

use crate::failure::Failure;
use crate::status::Status;
use cover::Cover;
use pla::{
    OutType, Output, Pla, WriteFault, dc_unless_given, off_unless_given, write_bytes, write_covers,
};
use std::alloc::{AllocError, Global};

// Prints the description with this list in place of its ON list; out of memory if there is no list.
pub(crate) fn print_with<W: Output>(
    alloc: Global,
    pla: &Pla,
    out_type: OutType,
    on: Result<Cover, AllocError>,
    out: &mut W,
) -> Result<Status, Failure>
    requires { IfOk on (λ list. list.size ≡ pla.now.size) }
    ensures { (cubes : List Cube) → IfOk on (λ list. list.cubes ≡ cubes)
        → PutsOut (printed_with pla.now out_type cubes)
        (trace (W.taken out.old) (W.taken out.new) (W.calls out.old) (W.calls out.new)) result }
{
    match on {
        Ok(on) => print_lists(alloc, pla, out_type, &on, out),
        Err(AllocError) => Err(Failure::OutOfMemory),
    }
}

// Prints the description with this list in place of its ON list, and the lists that the type prints
// beside it.
pub(crate) fn print_lists<W: Output>(
    alloc: Global,
    pla: &Pla,
    out_type: OutType,
    on: &Cover,
    out: &mut W,
) -> Result<Status, Failure>
    requires { on.now.size ≡ pla.now.size }
    ensures { PutsOut (printed_with pla.now out_type on.now.cubes)
        (trace (W.taken out.old) (W.taken out.new) (W.calls out.old) (W.calls out.new)) result }
{
    match computed_lists(alloc, pla, out_type) {
        Ok(computed) => {
            let dc = computed_or_given(&computed.dc, pla.dc());
            let off = computed_or_given(&computed.off, pla.off());
            print_covers(pla, out_type, on, dc, off, out)
        }
        Err(_) => Err(Failure::OutOfMemory),
    }
}

// The DC list and the OFF list to print; `None` where it is the description's own.
#[derive(Drop)]
struct Computed {
    dc: Option<Cover>,
    off: Option<Cover>,
}

// The DC list and the OFF list, where the rows do not give it: computed if the type prints it, and
// else empty.
fn computed_lists(alloc: Global, pla: &Pla, out_type: OutType) -> Result<Computed, AllocError>
    ensures dc { IfOk result
        (λ lists. unwrap_or lists.dc (record { size = pla.now.size; cubes = pla.now.dc })
        ≡ record {
          size = pla.now.size;
          cubes = dc_list pla.now.file_type (prints_dc out_type) pla.now;
        }) }
    ensures off { IfOk result
        (λ lists. unwrap_or lists.off (record { size = pla.now.size; cubes = pla.now.off })
        ≡ record {
          size = pla.now.size;
          cubes = off_list pla.now.file_type (prints_off out_type) pla.now;
        }) }
{
    let dc = dc_unless_given(alloc, pla, is_dc_printed(out_type))?;
    let off = off_unless_given(alloc, pla, is_off_printed(out_type))?;
    Ok(Computed { dc, off })
}

// Prints the description with those of these lists that the type prints.
fn print_covers<W: Output>(
    pla: &Pla,
    out_type: OutType,
    on: &Cover,
    dc: &Cover,
    off: &Cover,
    out: &mut W,
) -> Result<Status, Failure>
    requires on_size { on.now.size ≡ pla.now.size }
    requires dc_size { dc.now.size ≡ pla.now.size }
    requires off_size { off.now.size ≡ pla.now.size }
    ensures { PutsOut (printed (text_of pla.now out_type (lists_of on.now dc.now off.now)))
        (trace (W.taken out.old) (W.taken out.new) (W.calls out.old) (W.calls out.new)) result }
{
    match write_covers(pla, out_type, on, dc, off, out) {
        Ok(()) => Ok(Status::Done),
        Err(WriteFault) => Err(Failure::WriteFailed),
    }
}

// Whether the type prints a DC list.
fn is_dc_printed(out_type: OutType) -> bool
    ensures { result ≡ prints_dc out_type }
{
    match out_type {
        OutType::Fd | OutType::Fdr => true,
        OutType::F | OutType::Fr => false,
    }
}

// Whether the type prints an OFF list.
fn is_off_printed(out_type: OutType) -> bool
    ensures { result ≡ prints_off out_type }
{
    match out_type {
        OutType::Fr | OutType::Fdr => true,
        OutType::F | OutType::Fd => false,
    }
}

// The list that was computed, or the given one if none was.
pub(crate) fn computed_or_given<'a>(computed: &'a Option<Cover>, given: &'a Cover) -> &'a Cover
    ensures { result.now ≡ unwrap_or computed.now given.now }
{
    match computed {
        Some(list) => list,
        None => given,
    }
}

// Prints `yes` if it holds, and else `no` and answers a no; out of memory if that was not decided.
pub(crate) fn judge<W: Output>(
    holds: Result<bool, AllocError>,
    yes: &[u8],
    no: &[u8],
    out: &mut W,
) -> Result<Status, Failure>
    ensures { (truth : Bool) → IfOk holds (λ held. held ≡ truth)
        → PutsOut (judged truth yes.now no.now)
        (trace (W.taken out.old) (W.taken out.new) (W.calls out.old) (W.calls out.new)) result }
{
    match holds {
        Ok(true) => print_text(yes, Status::Done, out),
        Ok(false) => print_text(no, Status::No, out),
        Err(AllocError) => Err(Failure::OutOfMemory),
    }
}

// Prints a text and answers this status, or that the write failed.
pub(crate) fn print_text<W: Output>(
    text: &[u8],
    status: Status,
    out: &mut W,
) -> Result<Status, Failure>
    ensures { PutsOut (record { text = text.now; status = status })
        (trace (W.taken out.old) (W.taken out.new) (W.calls out.old) (W.calls out.new)) result }
{
    match write_bytes(out, text) {
        Ok(()) => Ok(status),
        Err(WriteFault) => Err(Failure::WriteFailed),
    }
}
