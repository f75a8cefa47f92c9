//! What a device reports of the calls that were made to it.
ghost use Rattle.std.specs.Prelude.{◌≡◌, true, false};
ghost use Rattle.pla.specs.Device.{after_flush, after_read, after_write};

/// The reads from an input.
#[derive(Clone, Copy, Debug, PartialEq, Eq)]
pub struct ReadCalls {
    /// How many failed, up to the last value of a u64, at which it stays.
    pub failures: u64,
    /// Whether the last read failed.
    pub broken: bool,
}

/// How many writes to an output failed, how many flushes were asked for, and how many of these
/// failed: each up to the last value of a u64, at which it stays.
#[derive(Clone, Copy, Debug, PartialEq, Eq)]
pub struct Counts {
    /// Writes that failed.
    pub failures: u64,
    /// Flushes that were asked for.
    pub flushes: u64,
    /// Flushes that failed.
    pub failed_flushes: u64,
}

/// The writes and flushes of an output.
#[derive(Clone, Copy, Debug, PartialEq, Eq)]
pub struct WriteCalls {
    /// How many of them failed, and how many flushes there were.
    pub counts: Counts,
    /// Whether the last write failed.
    pub broken: bool,
    /// Whether the last call was a flush.
    pub flushed: bool,
}

impl ReadCalls {
    /// No read so far.
    pub fn new() -> ReadCalls
        ensures { result ≡ record { failures = 0; broken = false } }
    {
        ReadCalls {
            failures: 0,
            broken: false,
        }
    }

    /// The calls with one more read, which succeeded.
    pub fn after_read(self) -> ReadCalls
        ensures { result ≡ after_read false self }
    {
        ReadCalls {
            failures: self.failures,
            broken: false,
        }
    }

    /// The calls with one more read, which failed.
    pub fn after_broken_read(self) -> ReadCalls
        ensures { result ≡ after_read true self }
    {
        ReadCalls {
            failures: self.failures.saturating_add(1),
            broken: true,
        }
    }
}

impl WriteCalls {
    /// No write or flush so far.
    pub fn new() -> WriteCalls
        ensures counts { result.counts ≡ record { failures = 0; flushes = 0; failed_flushes = 0 } }
        ensures broken { result.broken ≡ false }
        ensures flushed { result.flushed ≡ false }
    {
        WriteCalls {
            counts: Counts {
                failures: 0,
                flushes: 0,
                failed_flushes: 0,
            },
            broken: false,
            flushed: false,
        }
    }

    /// The calls with one more write, which succeeded.
    pub fn after_write(self) -> WriteCalls
        ensures { result ≡ after_write false self }
    {
        WriteCalls {
            counts: self.counts,
            broken: false,
            flushed: false,
        }
    }

    /// The calls with one more write, which failed.
    pub fn after_broken_write(self) -> WriteCalls
        ensures { result ≡ after_write true self }
    {
        WriteCalls {
            counts: Counts {
                failures: self.counts.failures.saturating_add(1),
                flushes: self.counts.flushes,
                failed_flushes: self.counts.failed_flushes,
            },
            broken: true,
            flushed: false,
        }
    }

    /// The calls with one more flush, which succeeded.
    pub fn after_flush(self) -> WriteCalls
        ensures { result ≡ after_flush false self }
    {
        WriteCalls {
            counts: Counts {
                failures: self.counts.failures,
                flushes: self.counts.flushes.saturating_add(1),
                failed_flushes: self.counts.failed_flushes,
            },
            broken: self.broken,
            flushed: true,
        }
    }

    /// The calls with one more flush, which failed.
    pub fn after_broken_flush(self) -> WriteCalls
        ensures { result ≡ after_flush true self }
    {
        WriteCalls {
            counts: Counts {
                failures: self.counts.failures,
                flushes: self.counts.flushes.saturating_add(1),
                failed_flushes: self.counts.failed_flushes.saturating_add(1),
            },
            broken: self.broken,
            flushed: true,
        }
    }
}
