//! The symbols of row lines, cut into rows, and the cubes of the rows.
ghost use Rattle.std.specs.Prelude.{◌≡◌, ℕ, ◌++◌, ◌+◌, ◌<◌, ◌≤◌, ◌^◌, ◌≢◌, [], IfErr, IfOk, OnOk, Some, true, false, bit_and, length, map, take, slice_index, nat_lt, option_to_list};
ghost use Rattle.std.specs.List.{list_all};
ghost use Rattle.cube.specs.Bytes.{has_mark};
ghost use Rattle.pla.specs.Symbols.{is_byte_of, is_symbol_at, width};
ghost use Rattle.pla.specs.Lists.{part_symbols, input_symbol as symbol_of, cube_by};
ghost use Rattle.pla.specs.Names.{owned_names};
ghost use Rattle.pla.specs.Header.{type_in};
ghost use Rattle.pla.specs.HeadView.{seen};
ghost use Rattle.pla.specs.Reading.{rows_of, with_row, with_run, read_code, BeginsRow, IsRun, IsBadCode};

use crate::description::Pla;
use crate::fault::{LineError, ReadKind};
use crate::file_type::FileType;
use crate::header::Head;
use crate::line::row_blank;
use cover::Cover;
use cube::{Cube, Shape};
use std::alloc::{AllocError, Global};
use std::marker::Model;

/// The lists of a description: where the function is true, where it may be either, where it is
/// false.
#[derive(Clone, Copy)]
pub enum Part {
    On,
    DontCare,
    Off,
}

// What each byte is in a row. Bit 4: a symbol of an input. Bit 5: a symbol of an output. Then one
// bit for the list that it puts the output into: bit 0 for OFF, bit 1 for ON, bit 2 for DC, bit 3
// for none.
static MARKS: [u8; 256] = [
    0, 0, 0, 0, 0, 0, 0, 0, 0, 0, 0, 0, 0, 0, 0, 0, 0, 0, 0, 0, 0, 0, 0, 0, 0, 0, 0, 0, 0, 0, 0, 0,
    0, 0, 0, 0, 0, 0, 0, 0, 0, 0, 0, 0, 0, 52, 0, 0, 49, 50, 52, 40, 34, 0, 0, 0, 0, 0, 0, 0, 0, 0,
    0, 0, 0, 0, 0, 0, 0, 0, 0, 0, 0, 0, 0, 0, 0, 0, 0, 0, 0, 0, 0, 0, 0, 0, 0, 0, 0, 0, 0, 0, 0, 0,
    0, 0, 0, 0, 0, 0, 0, 0, 0, 0, 0, 0, 0, 0, 0, 0, 0, 0, 0, 0, 0, 0, 0, 0, 0, 0, 0, 0, 0, 0, 0, 0,
    40, 0, 0, 0, 0, 0, 0, 0, 0, 0, 0, 0, 0, 0, 0, 0, 0, 0, 0, 0, 0, 0, 0, 0, 0, 0, 0, 0, 0, 0, 0,
    0, 0, 0, 0, 0, 0, 0, 0, 0, 0, 0, 0, 0, 0, 0, 0, 0, 0, 0, 0, 0, 0, 0, 0, 0, 0, 0, 0, 0, 0, 0, 0,
    0, 0, 0, 0, 0, 0, 0, 0, 0, 0, 0, 0, 0, 0, 0, 0, 0, 0, 0, 0, 0, 0, 0, 0, 0, 0, 0, 0, 0, 0, 0, 0,
    0, 0, 0, 0, 0, 0, 0, 0, 0, 0, 0, 0, 0, 0, 0, 0, 0, 0, 0, 0, 0, 0, 0, 0, 0, 0, 0, 0, 0, 0, 0, 0,
    0, 0, 0,
];

// The mark of symbols of inputs.
const INPUT_MARK: u8 = 16;

// The mark of symbols of outputs.
const OUTPUT_MARK: u8 = 32;

/// The mark of the bytes that put an output into a list, under the type of the rows; 0 if the type
/// does not give the list.
fn marks_of(file_type: FileType, part: Part) -> u8
    ensures { (b : ℕ) → b < 256
        → has_mark MARKS result b ≡ is_byte_of (part_symbols file_type part) b }
{
    match (part, file_type) {
        (Part::On, _) => 2,
        (Part::DontCare, FileType::Fd) => 4,
        (Part::DontCare, FileType::Fdr) => 4,
        (Part::Off, FileType::Fr) => 1,
        (Part::Off, FileType::Fdr) => 1,
        _ => 0,
    }
}

/// Whether a byte has one of the marks.
fn is_marked(mask: u8, b: u8) -> bool
    ensures { result ≡ has_mark MARKS mask b }
{
    MARKS[b as usize] & mask != 0
}

/// Whether a byte is a symbol at this index of a row, which begins with `n` inputs.
fn is_symbol(n: usize, place: usize, b: u8) -> bool
    ensures { result ≡ is_symbol_at n place b }
{
    if place < n {
        is_marked(INPUT_MARK, b)
    } else {
        is_marked(OUTPUT_MARK, b)
    }
}

/// The marks that all of the bytes have, every mark if there are none. It has no branch, so that
/// each byte costs a look at a table.
fn shared_marks(bytes: &[u8]) -> u8
    ensures { (mask : ℕ) → bit_and result mask ≢ 0 → list_all (has_mark MARKS mask) bytes.now ≡ true }
{
    let mut shared = u8::MAX;
    for k in 0..bytes.len() {
        shared &= MARKS[bytes[k] as usize];
    }
    shared
}

/// Whether all of the bytes are seen to be symbols of the part of a row that has this index: its
/// first `n` are inputs. It may answer `false` for symbols.
fn are_symbols(n: usize, place: usize, bytes: &[u8]) -> bool
    ensures { result ≡ true → list_all (λ b. is_symbol_at n place b) bytes.now ≡ true }
{
    let shared = shared_marks(bytes);
    if place < n {
        shared & INPUT_MARK != 0
    } else {
        shared & OUTPUT_MARK != 0
    }
}

/// Where the part of a row ends that has this index: at the end of the inputs, or of the row; one
/// after the index if that is past the row.
fn run_end(shape: Shape, place: usize) -> usize
    requires { place < 2 ^ 63 }
    ensures some { place < result }
    ensures part { place < shape.inputs → result ≡ shape.inputs }
    ensures row { place + 1 < result → result ≤ width shape }
{
    if place < shape.inputs() {
        shape.inputs()
    } else {
        (shape.inputs() + shape.outputs()).max(place + 1)
    }
}

/// The rows read so far: the symbols since the last whole row (the pending ones), and the cubes of
/// the whole rows.
pub struct Rows {
    shape: Shape,
    /// The symbols since the last whole row, without blanks.
    pending: Vec<u8>,
    on: Cover,
    dc: Cover,
    off: Cover,
}

// Written out, so that where rows end a proof has one call.
impl Drop for Rows {
    fn drop(self) {
        let Rows {
            shape: _,
            pending: _,
            on: _,
            dc: _,
            off: _,
        } = self;
    }
}

impl Model for Rows {
    ghost use Rattle.std.specs.Prelude.{◌≡◌};
    ghost use Rattle.pla.specs.Reading.{RowsRead};

    ghost Value = { RowsRead };

    ghost view = { λ r. record {
      size = r.shape;
      pending = r.pending.items;
      on = r.on.cubes;
      dc = r.dc.cubes;
      off = r.off.cubes;
    } };

    ghost invariant = { λ r. (r.on.size ≡ r.shape) × (r.dc.size ≡ r.shape)
        × (r.off.size ≡ r.shape) };
}

/// Adds the cube that a row's bytes put into a list, if it has an output there.
fn push_cube(
    list: &mut Cover,
    alloc: Global,
    file_type: FileType,
    part: Part,
    inputs: &[u8],
    outputs: &[u8],
) -> Result<(), AllocError>
    requires inputs { length inputs.now ≡ list.old.size.inputs }
    requires outputs { length outputs.now ≡ list.old.size.outputs }
    ensures size { list.new.size ≡ list.old.size }
    ensures cubes { OnOk result (list.new.cubes ≡ list.old.cubes
        ++ option_to_list
        (cube_by (map symbol_of inputs.now)
        (map (is_byte_of (part_symbols file_type part)) outputs.now))) }
{
    let shape = list.shape();
    let mask = marks_of(file_type, part);
    if mask == 0 {
        return Ok(());
    }
    let Some(cube) = Cube::from_bytes(alloc, shape, inputs, outputs, &MARKS, mask)? else {
        return Ok(());
    };
    match list.push(cube) {
        Ok(()) => Ok(()),
        Err(_) => Err(AllocError),
    }
}

/// Adds the cubes that a row's bytes put into the lists.
fn push_row(
    on: &mut Cover,
    dc: &mut Cover,
    off: &mut Cover,
    alloc: Global,
    file_type: FileType,
    inputs: &[u8],
    outputs: &[u8],
) -> Result<(), AllocError>
    requires dc_size { dc.old.size ≡ on.old.size }
    requires off_size { off.old.size ≡ on.old.size }
    requires inputs { length inputs.now ≡ on.old.size.inputs }
    requires outputs { length outputs.now ≡ on.old.size.outputs }
    ensures on_size { on.new.size ≡ on.old.size }
    ensures dc_size { dc.new.size ≡ dc.old.size }
    ensures off_size { off.new.size ≡ off.old.size }
    ensures on { OnOk result (on.new.cubes ≡ on.old.cubes
        ++ option_to_list
        (cube_by (map symbol_of inputs.now)
        (map (is_byte_of (part_symbols file_type Part.On)) outputs.now))) }
    ensures dc { OnOk result (dc.new.cubes ≡ dc.old.cubes
        ++ option_to_list
        (cube_by (map symbol_of inputs.now)
        (map (is_byte_of (part_symbols file_type Part.DontCare)) outputs.now))) }
    ensures off { OnOk result (off.new.cubes ≡ off.old.cubes
        ++ option_to_list
        (cube_by (map symbol_of inputs.now)
        (map (is_byte_of (part_symbols file_type Part.Off)) outputs.now))) }
{
    push_cube(on, alloc, file_type, Part::On, inputs, outputs)?;
    push_cube(dc, alloc, file_type, Part::DontCare, inputs, outputs)?;
    push_cube(off, alloc, file_type, Part::Off, inputs, outputs)
}

impl Rows {
    /// No symbol and no row of this shape yet.
    pub fn new(alloc: Global, shape: Shape) -> Rows
        ensures { (file_type : FileType) → result ≡ rows_of file_type shape [] }
    {
        Rows {
            shape,
            pending: Vec::new(alloc),
            on: Cover::new(alloc, shape),
            dc: Cover::new(alloc, shape),
            off: Cover::new(alloc, shape),
        }
    }

    /// Adds the cubes of the pending symbols, which are a whole row.
    fn end_row(&mut self, file_type: FileType) -> Result<(), AllocError>
        requires { length self.old.pending ≡ width self.old.size }
        ensures size { self.new.size ≡ self.old.size }
        ensures ok { OnOk result (self.new ≡ with_row file_type self.old self.old.pending) }
    {
        let alloc = *self.pending.allocator();
        let (inputs, outputs) = self.pending.split_at(self.shape.inputs());
        push_row(
            &mut self.on,
            &mut self.dc,
            &mut self.off,
            alloc,
            file_type,
            inputs,
            outputs,
        )?;
        self.pending.clear();
        Ok(())
    }

    /// Adds a run of symbols to the pending ones, and ends the row if it is whole then. The run
    /// lies in one row.
    fn push_run(&mut self, file_type: FileType, run: &[u8]) -> Result<(), AllocError>
        ensures size { self.new.size ≡ self.old.size }
        ensures ok { OnOk result (self.new ≡ with_run file_type self.old run.now) }
    {
        self.pending.extend_from_slice(run)?;
        if self.pending.len() == self.shape.inputs() + self.shape.outputs() {
            self.end_row(file_type)?;
        }
        Ok(())
    }

    /// The length of the run that the code begins with: symbols up to the end of the inputs or of
    /// the row; 0 if it begins with no symbol.
    fn run_length(&self, code: &[u8]) -> usize
        ensures fits { result ≤ length code.now }
        ensures run { IsRun self.now (take result code.now) }
        ensures none { result ≡ 0 → 0 < length code.now
            → is_symbol_at self.now.size.inputs (length self.now.pending) (slice_index code.now 0)
            ≡ false }
    {
        let (inputs, place) = (self.shape.inputs(), self.pending.len());
        let most = (run_end(self.shape, place) - place).min(code.len());
        for k in 0..most {
            if !is_symbol(inputs, place, code[k]) {
                return k;
            }
        }
        most
    }

    /// Whether the code is seen to begin with a whole row, with a blank between inputs and outputs.
    /// It may answer `false` for such a row.
    fn begins_whole_row(&self, code: &[u8]) -> bool
        ensures { result ≡ true → BeginsRow self.now code.now }
    {
        let (n, m) = (self.shape.inputs(), self.shape.outputs());
        if !self.pending.is_empty() || n == 0 || code.len() <= n + m {
            return false;
        }
        if !row_blank(code[n]) || !are_symbols(n, 0, &code[..n]) {
            return false;
        }
        are_symbols(n, n, &code[n + 1..n + 1 + m])
    }

    /// Takes the whole row that the code begins with, if it does, straight from the code, and
    /// answers what follows it; else takes nothing and answers all of the code.
    fn take_whole_row<'a>(
        &mut self,
        file_type: FileType,
        code: &'a [u8],
    ) -> Result<&'a [u8], AllocError>
        ensures size { self.new.size ≡ self.old.size }
        ensures read { IfOk result (λ rest. read_code file_type self.old code.now
            ≡ read_code file_type self.new rest.now) }
    {
        if !self.begins_whole_row(code) {
            return Ok(code);
        }
        let (n, m) = (self.shape.inputs(), self.shape.outputs());
        let alloc = *self.pending.allocator();
        push_row(
            &mut self.on,
            &mut self.dc,
            &mut self.off,
            alloc,
            file_type,
            &code[..n],
            &code[n + 1..n + 1 + m],
        )?;
        Ok(&code[n + 1 + m..])
    }

    /// Takes the symbols of a row line's code: adds the cubes of each row that they make whole, and
    /// keeps the last ones pending. The first byte that is no symbol of its place and no blank is a
    /// `BadSymbol`; what stands before it is taken.
    pub fn take(&mut self, file_type: FileType, code: &[u8]) -> Result<(), LineError>
        ensures size { self.new.size ≡ self.old.size }
        ensures ok { OnOk result (read_code file_type self.old code.now ≡ Some self.new) }
        ensures err { IfErr result (IsBadCode file_type self.old code.now) }
    {
        let mut rest = self.take_whole_row(file_type, code)?;
        while !rest.is_empty() {
            let count = self.run_length(rest);
            if count > 0 {
                self.push_run(file_type, &rest[..count])?;
                rest = &rest[count..];
            } else if row_blank(rest[0]) {
                rest = &rest[1..];
            } else {
                return Err(LineError::Fault(ReadKind::BadSymbol));
            }
        }
        Ok(())
    }

    /// Whether a row is unfinished.
    pub fn is_unfinished(&self) -> bool
        ensures { result ≡ nat_lt 0 (length self.now.pending) }
    {
        !self.pending.is_empty()
    }

    /// How many symbols are pending: those of a row that is not whole yet.
    pub fn pending_count(&self) -> usize
        ensures { result ≡ length self.now.pending }
    {
        self.pending.len()
    }

    /// The description of these rows with the names and the type of a header; fd if it has no type.
    /// Pending symbols are left out.
    pub fn into_pla(self, head: Head) -> Pla
        ensures { result ≡ record {
          size = self.size;
          input_names = owned_names head.input_names;
          output_names = owned_names head.output_names;
          file_type = type_in (seen head 0);
          on = self.on;
          dc = self.dc;
          off = self.off;
        } }
    {
        let file_type = head.file_type_or_fd();
        let Rows {
            shape,
            pending: _,
            on,
            dc,
            off,
        } = self;
        Pla::new(
            shape,
            head.input_names,
            head.output_names,
            file_type,
            on,
            dc,
            off,
        )
    }
}
