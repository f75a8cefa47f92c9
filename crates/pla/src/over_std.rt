//! Readers and writers of std as devices: [`Reading`] and [`Writing`].
ghost use Rattle.std.specs.Prelude.{◌≡◌, false};

use crate::calls::{ReadCalls, WriteCalls};
use crate::device::{Broken, Input, Output};
use std::io::{Read, Write};

/// A reader of std as an [`Input`]. A read that std reports as failed or interrupted is [`Broken`].
#[derive(Drop)]
pub struct Reading<R> {
    inner: R,
    calls: ReadCalls,
}

impl<R> Reading<R> {
    ghost use Rattle.pla.specs.OverStd.{reader_of, read_calls};

    /// The reader as a device that has not failed.
    pub fn new(inner: R) -> Reading<R>
        ensures reader { reader_of result ≡ inner }
        ensures calls { read_calls result ≡ record { failures = 0; broken = false } }
    {
        Reading {
            inner,
            calls: ReadCalls::new(),
        }
    }
}

impl<R: Read> Input for Reading<R> {
    ghost use Rattle.pla.specs.OverStd.{reader_of, read_calls};

    ghost left = { λ s. R.remaining (reader_of s) };

    ghost calls = { read_calls };

    fn read(&mut self, buffer: &mut [u8]) -> Result<usize, Broken> {
        match self.inner.read(buffer) {
            Ok(count) => {
                self.calls = self.calls.after_read();
                Ok(count)
            }
            Err(_) => {
                self.calls = self.calls.after_broken_read();
                Err(Broken)
            }
        }
    }
}

/// A writer of std as an [`Output`]. A write that std reports as failed or interrupted is
/// [`Broken`], and so is one that takes nothing of bytes that are there.
#[derive(Drop)]
pub struct Writing<W> {
    inner: W,
    calls: WriteCalls,
}

impl<W> Writing<W> {
    ghost use Rattle.pla.specs.OverStd.{writer_of, write_calls};

    /// The writer as a device that has not failed.
    pub fn new(inner: W) -> Writing<W>
        ensures writer { writer_of result ≡ inner }
        ensures counts { (write_calls result).counts
            ≡ record { failures = 0; flushes = 0; failed_flushes = 0 } }
        ensures broken { (write_calls result).broken ≡ false }
        ensures flushed { (write_calls result).flushed ≡ false }
    {
        Writing {
            inner,
            calls: WriteCalls::new(),
        }
    }
}

impl<W: Write> Output for Writing<W> {
    ghost use Rattle.pla.specs.OverStd.{writer_of, write_calls};

    ghost taken = { λ s. W.contents (writer_of s) };

    ghost calls = { write_calls };

    fn write(&mut self, bytes: &[u8]) -> Result<usize, Broken> {
        match self.inner.write(bytes) {
            Ok(count) if count > 0 || bytes.is_empty() => {
                self.calls = self.calls.after_write();
                Ok(count)
            }
            _ => {
                self.calls = self.calls.after_broken_write();
                Err(Broken)
            }
        }
    }

    fn flush(&mut self) -> Result<(), Broken> {
        match self.inner.flush() {
            Ok(()) => {
                self.calls = self.calls.after_flush();
                Ok(())
            }
            Err(_) => {
                self.calls = self.calls.after_broken_flush();
                Err(Broken)
            }
        }
    }
}
