//! The faults of a file.
ghost use Rattle.std.specs.Prelude.{◌≡◌};

use std::alloc::AllocError;

/// What is wrong with a file.
#[derive(Clone, Copy, Debug, PartialEq, Eq)]
pub enum ReadKind {
    /// More lines than the limit.
    TooManyLines,
    /// A line with more bytes than the limit.
    LineTooLong,
    /// A keyword of espresso that this format leaves out, as `.mv`.
    RefusedKeyword,
    /// A keyword line other than `.e` and `.end` while a row is unfinished.
    KeywordInsideRow,
    /// `.i`, `.o`, `.ilb`, `.ob` or `.type` a second time.
    KeywordRepeated,
    /// `.i` or `.o` without exactly one number in its range.
    BadNumber,
    /// `.ilb` or `.ob` before `.i` and `.o`.
    NamesBeforeShape,
    /// Another number of names than of inputs or outputs.
    WrongNumberOfNames,
    /// `.type` after a symbol.
    TypeAfterRow,
    /// `.type` without exactly one of the four types.
    BadType,
    /// A symbol before `.i` and `.o`.
    RowBeforeShape,
    /// A byte that is no symbol of its place in the row.
    BadSymbol,
    /// The file ended without `.i` or `.o`.
    ShapeMissing,
    /// The file ended inside a row.
    UnfinishedRow,
    /// A read failed.
    ReadFailed,
    /// A write of an echo failed.
    WriteFailed,
    /// A growth of memory was refused.
    OutOfMemory,
}

/// The fault of a file, with the number of its line, from 1; 0 for the whole of an empty file, for
/// a failed write and for out of memory.
#[derive(Clone, Copy, Debug, PartialEq, Eq)]
pub struct ReadFault {
    pub line: u64,
    pub kind: ReadKind,
}

/// Why a line was not taken.
#[derive(Drop)]
pub enum LineError {
    /// A growth of memory was refused.
    Memory,
    /// The line has this fault.
    Fault(ReadKind),
}

impl From<AllocError> for LineError {
    ghost use Rattle.pla.specs.declared.fault.LineError.TheVariants.{Memory};

    ghost from_gives = { λ _ e. e ≡ Memory };

    fn from(_: AllocError) -> LineError {
        LineError::Memory
    }
}
