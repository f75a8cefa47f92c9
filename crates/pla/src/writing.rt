//! Texts written to an output. (`Writing`, a writer of std as an output device, stands in
//! `over_std`, with `Reading`.)
//!
//! A text is written part by part: [`write_bytes`] writes the first, and [`write_next`] each
//! further one, only while all went well. So what the output took is always a prefix of the text,
//! nothing is written after a failure, and the last answer says whether there was one.
ghost use Rattle.std.specs.Prelude.{◌≡◌, OnErr};
ghost use Rattle.pla.specs.Device.{Continues, CountsOn, TellsFailure, Writes};

use crate::device::{Broken, Output};

/// A write that failed.
#[derive(Clone, Copy, Debug, PartialEq, Eq)]
pub struct WriteFault;

/// Writes all the bytes, in as many calls as the output asks for.
///
/// # Errors
///
/// `WriteFault` if the output fails; it took a prefix of the bytes then.
pub fn write_bytes<W: Output>(out: &mut W, bytes: &[u8]) -> Result<(), WriteFault>
    ensures bytes { Writes (W.taken out.old) (W.taken out.new) result bytes.now }
    ensures count { TellsFailure (W.calls out.old) (W.calls out.new) result }
{
    let mut rest = bytes;
    while !rest.is_empty() {
        match out.write(rest) {
            Ok(count) => rest = &rest[count..],
            Err(Broken) => return Err(WriteFault),
        }
    }
    Ok(())
}

/// Writes the bytes after what was written before, unless that has failed.
///
/// # Errors
///
/// The fault of what was written before, or `WriteFault` if the output fails now.
pub fn write_next<W: Output>(
    out: &mut W,
    done: Result<(), WriteFault>,
    bytes: &[u8],
) -> Result<(), WriteFault>
    ensures bytes { Continues (W.taken out.old) done (W.taken out.new) result bytes.now }
    ensures count { CountsOn (W.calls out.old) done (W.calls out.new) result }
    ensures failed { OnErr done (result ≡ done) }
    ensures untouched { OnErr done (out.new ≡ out.old) }
{
    match done {
        Ok(()) => write_bytes(out, bytes),
        Err(fault) => Err(fault),
    }
}
