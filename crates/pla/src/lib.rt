//! Descriptions of Boolean functions of several outputs in the PLA format: read them and print
//! them.
//!
//! - [`read_pla`] reads a description through a fixed buffer, in one pass, and passes comments and
//!   unknown keywords on; it reports a fault with its line. [`Scan`] does so for bytes that come in
//!   pieces from elsewhere.
//! - [`sets`] gives the lists of a description's three sets, and computes lists that its type does
//!   not give; [`dc_unless_given`] and [`off_unless_given`] give such lists alone, and copy none.
//!   [`Sets`] are such lists.
//! - [`write_pla`] prints a description with such lists.
//! - [`Input`] and [`Output`] are what is read from and written to; [`Reading`] and [`Writing`]
//!   make them of std's readers and writers, files, streams and bytes in memory among them.
//!
//! The text
//!
//! ```text
//! .i 2
//! .o 1
//! 1- 1
//! .e
//! ```
//!
//! gives a [`Pla`] of two inputs and one output with one cube in its ON list, and printed with
//! [`OutType::F`] it is this text with a line `.p 1` before the row.
//!
//! What always holds of the format stands in [`laws`].
//!
//! The meaning of keywords and symbols is that of espresso(5) for binary inputs; docs/FORMAT.md has
//! what this format decides where the manual leaves room. A description takes memory for its cubes
//! and names. Reading one takes time that grows with the bytes, and holds besides one buffer of
//! 4,096 bytes, at most one line, the words of a keyword line, the bytes of at most one unfinished
//! row, and the echoes of a piece.
#![tactic(auto)]

mod calls;
mod completed;
mod description;
mod device;
mod echo;
mod echo_buffer;
mod ending;
mod fault;
mod file_type;
mod header;
pub mod laws;
mod line;
mod out_type;
mod over_std;
mod parser;
mod print_buffer;
mod printed_row;
mod reading;
mod row_lines;
mod scan;
mod set_lists;
mod text;
mod writing;

pub use calls::{Counts, ReadCalls, WriteCalls};
pub use completed::{dc_unless_given, off_unless_given, sets};
pub use description::Pla;
pub use device::{Broken, Input, Output};
pub use echo::Echo;
pub use ending::Ending;
pub use fault::{ReadFault, ReadKind};
pub use file_type::FileType;
pub use out_type::OutType;
pub use over_std::{Reading, Writing};
pub use reading::read_pla;
pub use scan::Scan;
pub use set_lists::Sets;
pub use text::{write_covers, write_pla};
pub use writing::{WriteFault, write_bytes, write_next};
