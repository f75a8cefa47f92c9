//! Reading of a text that comes in pieces.
//!
//! A line goes to the parser at its line feed, straight from the piece where it began there, and
//! its echo is written before the next line is taken. Only what stands after the last line feed is
//! kept between pieces; it is refused if it is too long to be a line, before it is kept.
ghost use Rattle.std.specs.Prelude.{◌≡◌, ◌++◌, ◌∷◌, [], List, ℕ, Some, None, false, ◌≤◌, ◌<◌, ◌+◌, MatchOption, OnOk, IfOk, IfErr, length, take, drop, vec_len, option_map};
ghost use Rattle.cube.specs.Limits.{format_limits};
ghost use Rattle.pla.specs.Scan.{StandsFor, StandsForLines};
ghost use Rattle.pla.specs.Reads.{MatchCause, IsTold, CountsWrites, WritesGrowth, Answers};
ghost use Rattle.pla.specs.Steps.{Describes, TakesLine, WritesLine, NoFeed, position_in};
ghost use Rattle.pla.specs.Fault.{at_line, rest_kind as kind_of_rest, open_fault, fault_of, end_fault};
ghost use Rattle.pla.specs.Echoes.{due};
ghost use Rattle.pla.specs.Lines.{lines_of, row_code};
ghost use Rattle.pla.specs.Description.{described, description_of};

use crate::description::Pla;
use crate::device::Output;
use crate::echo::{Echo, write_echo};
use crate::ending::Ending;
use crate::fault::{LineError, ReadFault, ReadKind};
use crate::line::row_code_of;
use crate::parser::Parser;
use crate::writing::WriteFault;
use cube::limits::{LINE_BYTES, LINES};
use memchr::{memchr, memchr2};
use std::alloc::Global;
use std::marker::Model;

/// Where a line ends, and where the code of it ends as that of a row line.
#[derive(Clone, Copy)]
struct LineEnd {
    /// The index of the line feed.
    line: usize,
    /// The index of the first `#` before the line feed, or else that of the line feed.
    code: usize,
}

/// The end of the first line of the bytes; `None` if there is no line feed. Without a comment one
/// search finds both ends.
fn line_end(bytes: &[u8]) -> Option<LineEnd>
    ensures { MatchOption result (NoFeed bytes.now)
        (λ end. (end.line < length bytes.now) × NoFeed (take end.line bytes.now)
        × (bytes.now ≡ take end.line bytes.now ++ 10 ∷ drop (end.line + 1) bytes.now)
        × (end.code ≤ end.line) × (take end.code bytes.now ≡ row_code (take end.line bytes.now))) }
{
    let at = memchr2(b'\n', b'#', bytes)?;
    if bytes[at] == b'\n' {
        return Some(LineEnd { line: at, code: at });
    }
    match memchr(b'\n', &bytes[at..]) {
        Some(further) => Some(LineEnd {
            line: at + further,
            code: at,
        }),
        None => None,
    }
}

/// The kind of fault that a line has by its number and size alone: it comes after `lines` lines,
/// and has `size` bytes so far. `None` if it has no such fault, or no byte.
fn size_fault(lines: u64, size: usize) -> Option<ReadKind>
    ensures { (rest : List ℕ) → size ≡ length rest
        → result ≡ kind_of_rest format_limits lines rest }
{
    if size > 0 && lines >= LINES {
        return Some(ReadKind::TooManyLines);
    }
    if size > LINE_BYTES {
        return Some(ReadKind::LineTooLong);
    }
    None
}

/// Takes a line and writes its echo. `code` is its code if it is a row line, and is not used
/// otherwise.
fn take_line_with_code<W: Output>(
    parser: &mut Parser,
    echo: Echo,
    line: &[u8],
    code: &[u8],
    output: &mut W,
) -> Result<(), ReadFault>
    requires open { parser.old.header.ended ≡ false }
    requires code { code.now ≡ row_code line.now }
    ensures takes { (before : List (List ℕ)) → StandsForLines format_limits parser.old before →
        TakesLine format_limits before line.now parser.new result }
    ensures written { WritesLine (W.taken output.old) (W.taken output.new) result echo line.now }
    ensures count { (before : List (List ℕ)) → StandsForLines format_limits parser.old before →
        CountsWrites (W.calls output.old) (W.calls output.new) result }
{
    let number = parser.lines() + 1;
    match parser.take(line, code) {
        Ok(()) => match write_echo(echo, line, code, output) {
            Ok(()) => Ok(()),
            Err(WriteFault) => Err(ReadFault {
                line: 0,
                kind: ReadKind::WriteFailed,
            }),
        },
        Err(LineError::Memory) => Err(ReadFault {
            line: 0,
            kind: ReadKind::OutOfMemory,
        }),
        Err(LineError::Fault(kind)) => Err(ReadFault { line: number, kind }),
    }
}

/// Takes a line and writes its echo; finds the code of a row line.
fn take_line<W: Output>(
    parser: &mut Parser,
    echo: Echo,
    line: &[u8],
    output: &mut W,
) -> Result<(), ReadFault>
    requires { parser.old.header.ended ≡ false }
    ensures takes { (before : List (List ℕ)) → StandsForLines format_limits parser.old before →
        TakesLine format_limits before line.now parser.new result }
    ensures written { WritesLine (W.taken output.old) (W.taken output.new) result echo line.now }
    ensures count { (before : List (List ℕ)) → StandsForLines format_limits parser.old before →
        CountsWrites (W.calls output.old) (W.calls output.new) result }
{
    take_line_with_code(parser, echo, line, row_code_of(line), output)
}

/// Reading of a text that comes in pieces: what is kept between them.
pub struct Scan {
    /// Whether comments are passed on.
    echo: Echo,
    /// What the whole lines have given.
    parser: Parser,
    /// The bytes after the last line feed.
    rest: Vec<u8>,
}

// Written out, so that where a scan ends a proof has one call.
impl Drop for Scan {
    fn drop(self) {
        let Scan {
            echo: _,
            parser: _,
            rest: _,
        } = self;
    }
}

impl Model for Scan {
    ghost use Rattle.std.specs.Prelude.{◌≤◌, vec_len};
    ghost use Rattle.pla.specs.Scan.{Scan as State};

    ghost Value = { State };

    ghost view = { λ s. record { echo = s.echo; parsed = s.parser; rest = s.rest.items } };

    ghost invariant = { λ s. vec_len s.rest ≤ 131072 };
}

impl Scan {
    /// Before the first piece. Takes no memory.
    pub fn new(alloc: Global, echo: Echo) -> Scan
        ensures echo { result.echo ≡ echo }
        ensures stands { StandsFor format_limits result [] }
    {
        Scan {
            echo,
            parser: Parser::new(alloc),
            rest: Vec::new(alloc),
        }
    }

    /// Whether a line has ended the description: nothing that follows is looked at.
    pub fn done(&self) -> bool
        ensures { result ≡ self.now.parsed.header.ended }
    {
        self.parser.is_ended()
    }

    /// Keeps bytes of a line that no line feed has ended yet, after the rest that was kept. A line
    /// that is too long or one too many is a fault, and they are not kept.
    fn keep_rest(&mut self, bytes: &[u8]) -> Result<(), ReadFault>
        ensures kept { OnOk result
            (self.new ≡ record self.old { rest = self.old.rest ++ bytes.now }) }
        ensures fits { OnOk result
            (kind_of_rest format_limits self.old.parsed.header.lines (self.old.rest ++ bytes.now)
            ≡ None) }
        ensures fault { IfErr result (λ fault. MatchCause fault.kind ⊥ (fault.line ≡ 0)
            (option_map (at_line (self.old.parsed.header.lines + 1))
            (kind_of_rest format_limits self.old.parsed.header.lines
            (self.old.rest ++ bytes.now)) ≡ Some fault)) }
    {
        let lines = self.parser.lines();
        if let Some(kind) = size_fault(lines, self.rest.len() + bytes.len()) {
            return Err(ReadFault {
                line: lines + 1,
                kind,
            });
        }
        match self.rest.extend_from_slice(bytes) {
            Ok(()) => Ok(()),
            Err(_) => Err(ReadFault {
                line: 0,
                kind: ReadKind::OutOfMemory,
            }),
        }
    }

    /// Takes the line that these bytes end: they come after the rest that was kept. `code` is their
    /// code if they are a row line, and is used only if nothing was kept.
    fn end_line<W: Output>(
        &mut self,
        bytes: &[u8],
        code: &[u8],
        output: &mut W,
    ) -> Result<(), ReadFault>
        requires open { self.old.parsed.header.ended ≡ false }
        requires line { NoFeed bytes.now }
        requires code { code.now ≡ row_code bytes.now }
        ensures echo { OnOk result (self.new.echo ≡ self.old.echo) }
        ensures stands { (text : List ℕ) → StandsFor format_limits self.old text →
            OnOk result (StandsFor format_limits self.new (text ++ (bytes.now ++ 10 ∷ []))) }
        ensures fault { (text : List ℕ) → StandsFor format_limits self.old text →
            IfErr result (IsTold (open_fault format_limits (text ++ (bytes.now ++ 10 ∷ [])))) }
        ensures written { (text : List ℕ) → StandsFor format_limits self.old text →
            WritesGrowth (W.taken output.old) (W.taken output.new) result
            (due format_limits self.old.echo None text)
            (due format_limits self.old.echo None (text ++ (bytes.now ++ 10 ∷ []))) }
        ensures count { (text : List ℕ) → StandsFor format_limits self.old text →
            CountsWrites (W.calls output.old) (W.calls output.new) result }
        ensures onward { (text : List ℕ) → StandsFor format_limits self.old text →
            OnOk result (position_in self.old + length bytes.now + 1 ≤ position_in self.new) }
    {
        if self.rest.is_empty() {
            return take_line_with_code(&mut self.parser, self.echo, bytes, code, output);
        }
        self.keep_rest(bytes)?;
        take_line(&mut self.parser, self.echo, &self.rest, output)?;
        self.rest.clear();
        Ok(())
    }

    /// Takes the next piece, cut anywhere, and writes the echoes of the lines that it ends.
    ///
    /// Answers what stands for the text with the piece, or the first fault of that text, which
    /// stays whatever follows. Two faults are not of the text and have line 0: a failed write and
    /// out of memory. A fault consumes the state. Costs a pass over the piece, and memory for the
    /// cubes and the names, for the line that the piece leaves open and its unfinished row, and for
    /// the words of a keyword line while that is taken.
    pub fn feed<W: Output>(mut self, piece: &[u8], output: &mut W) -> Result<Scan, ReadFault>
        ensures echo { IfOk result (λ scan. scan.echo ≡ self.echo) }
        ensures stands { (text : List ℕ) → StandsFor format_limits self text →
            IfOk result (λ scan. StandsFor format_limits scan (text ++ piece.now)) }
        ensures fault { (text : List ℕ) → StandsFor format_limits self text →
            IfErr result (IsTold (open_fault format_limits (text ++ piece.now))) }
        ensures written { (text : List ℕ) → StandsFor format_limits self text →
            WritesGrowth (W.taken output.old) (W.taken output.new) result
            (due format_limits self.echo None text)
            (due format_limits self.echo None (text ++ piece.now)) }
        ensures count { (text : List ℕ) → StandsFor format_limits self text →
            CountsWrites (W.calls output.old) (W.calls output.new) result }
        ensures onward { (text : List ℕ) → StandsFor format_limits self text →
            IfOk result
            (λ scan. scan.parsed.header.ended ≡ false
            → position_in self + length piece.now ≤ position_in scan) }
    {
        let mut rest = piece;
        while !self.done() {
            match line_end(rest) {
                Some(end) => {
                    self.end_line(&rest[..end.line], &rest[..end.code], output)?;
                    rest = &rest[end.line + 1..];
                }
                None => {
                    self.keep_rest(rest)?;
                    return Ok(self);
                }
            }
        }
        Ok(self)
    }

    /// Takes a last line that no line feed ended, if there is one.
    fn take_last_line<W: Output>(&mut self, output: &mut W) -> Result<(), ReadFault>
        requires { self.old.parsed.header.ended ≡ false }
        ensures takes { (text : List ℕ) → StandsFor format_limits self.old text →
            OnOk result (StandsForLines format_limits self.new.parsed (lines_of Ending.End text)) }
        ensures fault { (text : List ℕ) → StandsFor format_limits self.old text →
            IfErr result (IsTold (fault_of format_limits Ending.End text)) }
        ensures written { (text : List ℕ) → StandsFor format_limits self.old text →
            WritesGrowth (W.taken output.old) (W.taken output.new) result
            (due format_limits self.old.echo None text)
            (due format_limits self.old.echo (Some Ending.End) text) }
        ensures count { (text : List ℕ) → StandsFor format_limits self.old text →
            CountsWrites (W.calls output.old) (W.calls output.new) result }
    {
        if self.rest.is_empty() {
            return Ok(());
        }
        take_line(&mut self.parser, self.echo, &self.rest, output)
    }

    /// The description that the lines give, or its fault at the last line: that the shape is
    /// missing or a row is unfinished.
    fn describe(self) -> Result<Pla, ReadFault>
        ensures { (lines : List (List ℕ)) → StandsForLines format_limits self.parsed lines →
            Describes result (end_fault format_limits lines) (description_of format_limits lines) }
    {
        let Scan {
            echo: _,
            parser,
            rest: _,
        } = self;
        let line = parser.lines();
        match parser.finish() {
            Ok(pla) => Ok(pla),
            Err(kind) => Err(ReadFault { line, kind }),
        }
    }

    /// Takes how reading ended and answers the description, or the fault of the text with that
    /// ending; a failed read is one only if no line had ended the description. Writes the echo of a
    /// last line that no line feed ended.
    pub fn finish<W: Output>(mut self, ending: Ending, output: &mut W) -> Result<Pla, ReadFault>
        ensures answer { (text : List ℕ) → StandsFor format_limits self text →
            Answers result (fault_of format_limits ending text)
            (described format_limits ending text) }
        ensures written { (text : List ℕ) → StandsFor format_limits self text →
            WritesGrowth (W.taken output.old) (W.taken output.new) result
            (due format_limits self.echo None text)
            (due format_limits self.echo (Some ending) text) }
        ensures count { (text : List ℕ) → StandsFor format_limits self text →
            CountsWrites (W.calls output.old) (W.calls output.new) result }
    {
        if self.done() {
            return self.describe();
        }
        match ending {
            Ending::Failed => Err(ReadFault {
                line: self.parser.lines() + 1,
                kind: ReadKind::ReadFailed,
            }),
            Ending::End => {
                self.take_last_line(output)?;
                self.describe()
            }
        }
    }
}
