//! What the lines of a file have given so far; each is taken as a keyword line or a row line.
ghost use Rattle.std.specs.Prelude.{◌≡◌, ◌+◌, ◌<◌, ◌≤◌, ◌++◌, ◌∷◌, [], List, ℕ, Some, None, true, false, option_map, IfErr, MatchResult, OnOk};
ghost use Rattle.std.specs.Option.{option_or};
ghost use Rattle.cube.specs.Limits.{format_limits};
ghost use Rattle.pla.specs.Lines.{is_keyword_line, row_code};
ghost use Rattle.pla.specs.Scan.{StandsForLines, Refuses};
ghost use Rattle.pla.specs.Header.{header_of, type_in};
ghost use Rattle.pla.specs.HeadView.{seen, keyword_fault, with_keyword};
ghost use Rattle.pla.specs.Reading.{rows_of};
ghost use Rattle.pla.specs.Parsing.{IsTied, unfinished_of, opened, with_row_code, read_row, IsBadRow, IsKeywordFault};
ghost use Rattle.pla.specs.Fault.{end_kind};
ghost use Rattle.pla.specs.Description.{description_of};

use crate::description::Pla;
use crate::fault::{LineError, ReadKind};
use crate::file_type::FileType;
use crate::header::{Head, too_long};
use crate::line::{begins_keyword, has_symbol, keyword_code_of, words_of};
use crate::row_lines::Rows;
use cube::Shape;
use std::alloc::Global;
use std::marker::Model;

/// What the lines so far have given: the settings of keyword lines, and the cubes of rows.
pub struct Parser {
    /// What keyword lines have set, and how many lines were taken.
    head: Head,
    /// The rows; `None` until the shape is given.
    rows: Option<Rows>,
    alloc: Global,
}

// Written out, so that where a parser ends a proof has one call, and no case for what its header has.
impl Drop for Parser {
    fn drop(self) {
        let Parser {
            head: _,
            rows: _,
            alloc: _,
        } = self;
    }
}

impl Model for Parser {
    ghost use Rattle.pla.specs.Scan.{Parsed};

    ghost Value = { Parsed };

    ghost use Rattle.pla.specs.HeadView.{seen};
    ghost use Rattle.pla.specs.Parsing.{IsTied, unfinished_of, parsed_by};

    ghost view = { λ p. parsed_by (seen p.head (unfinished_of p.rows)) p.rows };

    ghost invariant = { λ p. IsTied (seen p.head 0) p.rows };
}

/// Takes a keyword line: sets what it gives, if it has no fault, and begins the rows once the shape
/// is given.
fn take_keyword_line(
    head: &mut Head,
    rows: &mut Option<Rows>,
    alloc: Global,
    line: &[u8],
) -> Result<(), LineError>
    requires { is_keyword_line line.now ≡ true }
    ensures lines { head.new.lines ≡ head.old.lines }
    ensures tied { IsTied (seen head.old 0) rows.old → IsTied (seen head.new 0) rows.new }
    ensures faultless { OnOk result
        (keyword_fault format_limits (seen head.old (unfinished_of rows.old)) line.now ≡ None) }
    ensures head { OnOk result
        ((unfinished : ℕ)
        → seen head.new unfinished
        ≡ with_keyword format_limits (seen head.old unfinished) line.now) }
    ensures rows { OnOk result (rows.new ≡ opened rows.old (seen head.new 0)) }
    ensures fault { IfErr result
        (IsKeywordFault format_limits (seen head.old (unfinished_of rows.old)) line.now) }
{
    let words = words_of(alloc, keyword_code_of(line))?;
    let unfinished = pending_count_of(rows);
    if let Some(kind) = head.keyword_fault(unfinished, &words) {
        return Err(LineError::Fault(kind));
    }
    head.set(alloc, &words)?;
    open_rows(rows, alloc, head.shape());
    Ok(())
}

/// How many symbols an unfinished row has so far; 0 if none is begun.
fn pending_count_of(rows: &Option<Rows>) -> usize
    ensures { result ≡ unfinished_of rows.now }
{
    match rows {
        Some(rows) => rows.pending_count(),
        None => 0,
    }
}

/// Begins the rows, none of which is read, if the shape is given; rows that are there stay.
fn open_rows(rows: &mut Option<Rows>, alloc: Global, shape: Option<Shape>)
    ensures { rows.new
        ≡ option_or rows.old (option_map (λ size. rows_of FileType.Fd size []) shape) }
{
    if let (None, Some(shape)) = (&rows, shape) {
        *rows = Some(Rows::new(alloc, shape));
    }
}

/// Takes a row line, of which this is the code: adds its symbols to the rows. A symbol before the
/// shape is a fault.
fn take_row_line(head: &mut Head, rows: &mut Option<Rows>, code: &[u8]) -> Result<(), LineError>
    ensures lines { head.new.lines ≡ head.old.lines }
    ensures tied { IsTied (seen head.old 0) rows.old → IsTied (seen head.new 0) rows.new }
    ensures head { OnOk result
        ((unfinished : ℕ)
        → seen head.new unfinished ≡ with_row_code (seen head.old unfinished) code.now) }
    ensures rows { OnOk result
        (read_row (type_in (seen head.old 0)) rows.old code.now ≡ Some rows.new) }
    ensures fault { IfErr result (IsBadRow (type_in (seen head.old 0)) rows.old code.now) }
{
    let has_symbols = has_symbol(code);
    match rows {
        Some(rows) => rows.take(head.file_type_or_fd(), code)?,
        None if has_symbols => return Err(LineError::Fault(ReadKind::RowBeforeShape)),
        None => {}
    }
    head.has_symbols |= has_symbols;
    Ok(())
}

impl Parser {
    /// No line yet.
    pub fn new(alloc: Global) -> Parser
        ensures { StandsForLines format_limits result [] }
    {
        Parser {
            head: Head::new(),
            rows: None,
            alloc,
        }
    }

    /// Whether a line has ended the description.
    pub fn is_ended(&self) -> bool
        ensures { result ≡ self.now.header.ended }
    {
        self.head.ended
    }

    /// How many lines were taken.
    pub fn lines(&self) -> u64
        ensures value { result ≡ self.now.header.lines }
        ensures fits { result ≤ 16777216 }
    {
        self.head.lines
    }

    /// Takes the next line. `code` is its code if it is a row line, and is not used otherwise.
    pub fn take(&mut self, line: &[u8], code: &[u8]) -> Result<(), LineError>
        requires open { self.old.header.ended ≡ false }
        requires code { code.now ≡ row_code line.now }
        ensures stands { (before : List (List ℕ)) → StandsForLines format_limits self.old before →
            MatchResult result
            (λ _. StandsForLines format_limits self.new (before ++ line.now ∷ []))
            (Refuses format_limits before line.now) }
        ensures onward { OnOk result
            ((self.new.header.lines ≡ self.old.header.lines + 1)
            × (self.old.header.lines < 16777216)) }
    {
        if self.head.past_limit() {
            return Err(LineError::Fault(ReadKind::TooManyLines));
        }
        if too_long(line) {
            return Err(LineError::Fault(ReadKind::LineTooLong));
        }
        if begins_keyword(line) {
            take_keyword_line(&mut self.head, &mut self.rows, self.alloc, line)?;
        } else {
            take_row_line(&mut self.head, &mut self.rows, code)?;
        }
        self.head.lines += 1;
        Ok(())
    }

    /// The description, once all lines are taken; `ShapeMissing` without `.i` or `.o`,
    /// `UnfinishedRow` inside a row.
    pub fn finish(self) -> Result<Pla, ReadKind>
        ensures { (lines : List (List ℕ)) → StandsForLines format_limits self lines →
            MatchResult result
            (λ pla. (end_kind (header_of format_limits lines) ≡ None)
            × (pla ≡ description_of format_limits lines))
            (λ kind. end_kind (header_of format_limits lines) ≡ Some kind) }
    {
        let Parser {
            head,
            rows,
            alloc: _,
        } = self;
        let Some(rows) = rows else {
            return Err(ReadKind::ShapeMissing);
        };
        if rows.is_unfinished() {
            return Err(ReadKind::UnfinishedRow);
        }
        Ok(rows.into_pla(head))
    }
}
