//! How a run ended, as the process reports it.
ghost use Rattle.std.specs.Prelude.{◌≡◌};
ghost use Rattle.espresso.specs.Messages.{status_code};

/// How a run ended.
#[derive(Clone, Copy, Debug, PartialEq, Eq)]
pub enum Status {
    /// The answer was printed.
    Done,
    /// The answer was printed, and it is a no.
    No,
    /// The words, a file or the output were at fault.
    Fault,
    /// A growth of memory was refused.
    Memory,
}

impl Status {
    /// The exit status of the process: 0, 1, 2 or 3.
    pub fn code(&self) -> u8
        ensures { result ≡ status_code self.now }
    {
        match self {
            Status::Done => 0,
            Status::No => 1,
            Status::Fault => 2,
            Status::Memory => 3,
        }
    }
}
