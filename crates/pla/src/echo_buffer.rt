//! A buffer of echoes, so that the output gets those of a piece at once.
ghost use Rattle.std.specs.Prelude.{◌≡◌, [], Some};
ghost use Rattle.pla.specs.Device.{TellsFailure, Writes};

use crate::calls::WriteCalls;
use crate::device::{Broken, Output};
use crate::writing::{WriteFault, write_bytes};
use std::alloc::Global;

/// An output in memory, which holds what it takes until a flush to another output. A write breaks
/// if memory is refused.
#[derive(Drop)]
pub struct EchoBuffer {
    /// What is held.
    pub bytes: Vec<u8>,
    /// What came of the writes and flushes to this buffer.
    pub calls: WriteCalls,
}

impl EchoBuffer {
    /// Nothing held. Takes no memory.
    pub fn new(alloc: Global) -> EchoBuffer
        ensures { result.bytes.items ≡ [] }
    {
        EchoBuffer {
            bytes: Vec::new(alloc),
            calls: WriteCalls::new(),
        }
    }

    /// Writes what is held to an output, and holds nothing then, even if that fails.
    ///
    /// # Errors
    ///
    /// `WriteFault` if the output fails; it took a prefix of the bytes then.
    pub fn flush_to<W: Output>(&mut self, output: &mut W) -> Result<(), WriteFault>
        ensures bytes { Writes (W.taken output.old)
            (W.taken output.new) result self.old.bytes.items }
        ensures count { TellsFailure (W.calls output.old) (W.calls output.new) result }
        ensures empty { self.new.bytes.items ≡ [] }
        ensures calls { self.new.calls ≡ self.old.calls }
    {
        let done = write_bytes(output, &self.bytes);
        self.bytes.clear();
        done
    }
}

impl Output for EchoBuffer {
    ghost taken = { λ s. Some s.bytes.items };

    ghost calls = { λ s. s.calls };

    fn write(&mut self, bytes: &[u8]) -> Result<usize, Broken> {
        match self.bytes.extend_from_slice(bytes) {
            Ok(()) => {
                self.calls = self.calls.after_write();
                Ok(bytes.len())
            }
            Err(_) => {
                self.calls = self.calls.after_broken_write();
                Err(Broken)
            }
        }
    }

    fn flush(&mut self) -> Result<(), Broken> {
        self.calls = self.calls.after_flush();
        Ok(())
    }
}
