//! Laws of the definitions, each as the contract of a function that does nothing: what files are under wider
//! limits, and that a printed text is read back.
ghost use Rattle.pla.specs.WiderLimits.{WiderLimitsReadAlike, OlderLimitsReadAlike};
ghost use Rattle.pla.specs.ReadBack.{TextsAreReadBack, FaultlessAreReadable, EchoesAreReadBack};

/// Limits may be widened: a file that has no fault under limits has none under limits of which none
/// is smaller, and describes what it did: its shape, names, type of rows and lists. A fault stays,
/// with its line and its kind, unless it comes from a limit that differs, as
/// [`ReadKind::LineTooLong`](crate::ReadKind::LineTooLong) does: after such a fault another may
/// hide. The second clause says it of an older profile's limits, 256 inputs, 256 outputs and 65,536
/// bytes a line, and those of [`cube::limits`].
pub fn wider_limits()
    ensures all { WiderLimitsReadAlike }
    ensures older { OlderLimitsReadAlike }
{}

/// A text that is printed with type fdr is read again as what it was printed of: it has no fault,
/// and describes that shape, names and three lists, each with its cubes in their order. It does so
/// whatever bytes follow it, and whether their reading ends or fails. The names are such as a file
/// can give: of the right number, none empty, none with a blank or a line feed, none that begins
/// with `#`, and in lines that are not too long. The text is to have at most as many lines as are
/// looked at ([`cube::limits::LINES`]).
pub fn read_back()
    ensures { TextsAreReadBack }
{}

/// The text of type fdr that echo prints of a file of any type without a fault is read again as what
/// it was printed of, if it has at most as many lines as are looked at: a file may give more rows
/// than that in fewer lines. The comments and unknown lines that echo passes on before the text are
/// no part of it. A file without a fault describes something that [`read_back`] speaks of: a shape
/// within the limits, names such as a file can give, and lists of cubes of the shape, those that are
/// computed too. So the text has no fault, and describes the file's shape and names and the three
/// lists as they were printed, whatever bytes follow it.
pub fn echo_read_back()
    ensures readable { FaultlessAreReadable }
    ensures again { EchoesAreReadBack }
{}
