//! How large a file of the format may be.

/// The most inputs of a shape.
pub const INPUTS: usize = 1024;
/// The most outputs of a shape, which has at least one.
pub const OUTPUTS: usize = 1024;
/// The most bytes of a line, without its line feed.
pub const LINE_BYTES: usize = 131_072;
/// The most lines of a file.
pub const LINES: u64 = 16_777_216;
