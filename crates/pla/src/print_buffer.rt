//! A buffer in which a text is put together before it is written, so that few and large writes are
//! made.
ghost use Rattle.std.specs.Prelude.{◌≡◌, ◌+◌, ◌-◌, ◌≤◌, ◌++◌, [], length, min};
ghost use Rattle.pla.specs.Device.{CountsOn, PutsOn};
ghost use Rattle.pla.specs.Text.{row_text};

use crate::device::Output;
use crate::printed_row::{ROW_BYTES, put_row};
use crate::writing::{WriteFault, write_next};
use cube::Cube;
use std::marker::Model;

// At most this many bytes are put together.
const BUFFER_BYTES: usize = 32768;

/// Bytes that are due to an output and pending, in one buffer on the stack. Takes no memory.
///
/// The output is passed to each call, and so is the answer of the call before: after a failure
/// nothing more is written.
#[derive(Drop)]
pub struct PrintBuffer {
    /// The pending bytes, at the front.
    bytes: [u8; BUFFER_BYTES],
    /// How many bytes are pending.
    used: usize,
}

impl Model for PrintBuffer {
    ghost use Rattle.std.specs.Prelude.{◌≡◌, ◌≤◌, ℕ, List, length, take};

    ghost Value = { List ℕ };

    ghost view = { λ s. take s.used s.bytes };

    ghost invariant = { λ s. (s.used ≤ 32768) × (length s.bytes ≡ 32768) };
}

impl PrintBuffer {
    /// Nothing pending.
    pub fn new() -> PrintBuffer
        ensures { result ≡ [] }
    {
        PrintBuffer {
            bytes: [0; BUFFER_BYTES],
            used: 0,
        }
    }

    /// Writes what is pending, unless a write failed before; nothing is pending then, even if it
    /// fails.
    ///
    /// # Errors
    ///
    /// The fault of what was written before, or `WriteFault` if the output fails now.
    pub fn flush_to<W: Output>(
        &mut self,
        out: &mut W,
        done: Result<(), WriteFault>,
    ) -> Result<(), WriteFault>
        ensures bytes { PutsOn (W.taken out.old) self.old done
            (W.taken out.new) self.new result [] }
        ensures count { CountsOn (W.calls out.old) done (W.calls out.new) result }
        ensures empty { self.new ≡ [] }
    {
        let done = write_next(out, done, &self.bytes[..self.used]);
        self.used = 0;
        done
    }

    // Writes what is pending if it leaves no room for this many bytes.
    fn make_room<W: Output>(
        &mut self,
        count: usize,
        out: &mut W,
        done: Result<(), WriteFault>,
    ) -> Result<(), WriteFault>
        ensures bytes { PutsOn (W.taken out.old) self.old done
            (W.taken out.new) self.new result [] }
        ensures count { CountsOn (W.calls out.old) done (W.calls out.new) result }
        ensures room { length self.new + min count 32768 ≤ 32768 }
    {
        if count > BUFFER_BYTES - self.used {
            self.flush_to(out, done)
        } else {
            done
        }
    }

    /// Puts bytes after what was put before. If there is no room what is pending is written first;
    /// more than the buffer holds is written at once.
    ///
    /// # Errors
    ///
    /// The fault of what was written before, or `WriteFault` if the output fails now.
    pub fn write_next<W: Output>(
        &mut self,
        out: &mut W,
        done: Result<(), WriteFault>,
        bytes: &[u8],
    ) -> Result<(), WriteFault>
        ensures bytes { PutsOn (W.taken out.old) self.old done
            (W.taken out.new) self.new result bytes.now }
        ensures count { CountsOn (W.calls out.old) done (W.calls out.new) result }
    {
        let done = self.make_room(bytes.len(), out, done);
        if bytes.len() > BUFFER_BYTES {
            return write_next(out, done, bytes);
        }
        self.append(bytes);
        done
    }

    // Appends bytes for which there is room.
    fn append(&mut self, bytes: &[u8])
        requires { length self.old + length bytes.now ≤ 32768 }
        ensures { self.new ≡ self.old ++ bytes.now }
    {
        let end = self.used + bytes.len();
        self.bytes[self.used..end].copy_from_slice(bytes);
        self.used = end;
    }

    /// Puts the row of a cube after what was put before: `mark` for an output in the cube, `other`
    /// for any other output.
    ///
    /// # Errors
    ///
    /// The fault of what was written before, or `WriteFault` if the output fails now.
    pub fn write_next_row<W: Output>(
        &mut self,
        out: &mut W,
        done: Result<(), WriteFault>,
        cube: &Cube,
        mark: u8,
        other: u8,
    ) -> Result<(), WriteFault>
        ensures bytes { PutsOn (W.taken out.old) self.old done (W.taken out.new) self.new result
            (row_text mark other cube.now) }
        ensures count { CountsOn (W.calls out.old) done (W.calls out.new) result }
    {
        let done = self.make_room(ROW_BYTES, out, done);
        self.append_row(cube, mark, other);
        done
    }

    // Appends a row for which there is room.
    fn append_row(&mut self, cube: &Cube, mark: u8, other: u8)
        requires { length self.old + ROW_BYTES ≤ 32768 }
        ensures { self.new ≡ self.old ++ row_text mark other cube.now }
    {
        let count = put_row(&mut self.bytes[self.used..], cube, mark, other);
        self.used += count;
    }
}
