//! What a reader reads from and a writer writes to. (`over_std` makes devices of std's readers and
//! writers, `memory` has devices for tests.)
ghost use Rattle.std.specs.Prelude.{ℕ, List, Option, ◌≤◌, ◌<◌, length, IfOk};
ghost use Rattle.std.specs.Io.KnownBytes.{Keeps, ReadConsumes, WriteAppends};
ghost use Rattle.pla.specs.declared.calls.ReadCalls.{ReadCalls};
ghost use Rattle.pla.specs.declared.calls.WriteCalls.{WriteCalls};
ghost use Rattle.pla.specs.Device.{TellsFlush, TellsRead, TellsWrite};

/// A read, a write or a flush that failed. It delivered and took nothing.
#[derive(Clone, Copy, Debug, PartialEq, Eq)]
pub struct Broken;

/// Where bytes come from. A contract sees the bytes that are left, if the device reports them, how
/// many reads failed, and whether the last one did.
pub trait Input {
    /// The bytes that reads will deliver from here on, if the device reports them. A device reports
    /// them throughout or not at all.
    ghost left: { Self → Option (List ℕ) };

    /// What came of the reads.
    ghost calls: { Self → ReadCalls };

    /// Puts the next bytes at the front of the buffer, and answers how many. None for a buffer with
    /// room is the end.
    ///
    /// # Errors
    ///
    /// `Broken` if the device fails; nothing was delivered then.
    fn read(&mut self, buffer: &mut [u8]) -> Result<usize, Broken>
        ensures bound { IfOk result (λ n. n ≤ length buffer.new) }
        ensures bytes { ReadConsumes (left self.old) (left self.new) result buffer.new }
        ensures count { TellsRead (calls self.old) (calls self.new) result };
}

/// Where bytes go. A contract sees the bytes that were taken, if the device reports them, how many
/// writes and flushes failed, how many flushes were asked for, and what the last call was.
pub trait Output {
    /// The bytes that were taken so far, if the device reports them. A device reports them
    /// throughout or not at all.
    ghost taken: { Self → Option (List ℕ) };

    /// What came of the writes and flushes.
    ghost calls: { Self → WriteCalls };

    /// Takes bytes from the front, and answers how many: at least one, if there is one.
    ///
    /// # Errors
    ///
    /// `Broken` if the device fails or takes nothing; nothing was taken then.
    fn write(&mut self, bytes: &[u8]) -> Result<usize, Broken>
        ensures bound { IfOk result (λ n. n ≤ length bytes.now) }
        ensures some { IfOk result (λ n. 0 < length bytes.now → 0 < n) }
        ensures bytes { WriteAppends (taken self.old) (taken self.new) result bytes.now }
        ensures count { TellsWrite (calls self.old) (calls self.new) result };

    /// Asks for what was taken to be passed on.
    ///
    /// # Errors
    ///
    /// `Broken` if the device fails; what was taken stays taken.
    fn flush(&mut self) -> Result<(), Broken>
        ensures bytes { Keeps (taken self.old) (taken self.new) }
        ensures count { TellsFlush (calls self.old) (calls self.new) result };
}
