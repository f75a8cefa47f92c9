//! The printed text of a description.
//!
//! A text begins with the shape, the names and the output type, and counts its rows before it gives
//! them. It is put together in one buffer on the stack and handed to the output in few and large
//! writes, so printing takes no memory, and its time grows with the names and the symbols alone.
ghost use Rattle.std.specs.Prelude.{◌≡◌, ◌∷◌, ◌++◌, codes, decimal, length, flat_map, sum_by};
ghost use Rattle.pla.specs.Device.{CountsOn, PutsOn, TellsFailure, Writes};
ghost use Rattle.pla.specs.Names.{lent_names, name_bytes};
ghost use Rattle.pla.specs.Sets.{lists_of};
ghost use Rattle.pla.specs.Text.{elsewhere, names_text, rows_text, sections, text_of, type_text};

use crate::description::Pla;
use crate::device::Output;
use crate::out_type::OutType;
use crate::print_buffer::PrintBuffer;
use crate::set_lists::Sets;
use crate::writing::WriteFault;
use cover::Cover;
use itoa::Buffer;

/// Writes the description's shape and names, and of the sets those lists that the output type
/// names, as espresso(5) has them. Takes no memory, and writes many rows at once.
///
/// # Errors
///
/// `WriteFault` if the output fails; it took a prefix of the text then.
pub fn write_pla<W: Output>(
    pla: &Pla,
    sets: &Sets,
    out_type: OutType,
    out: &mut W,
) -> Result<(), WriteFault>
    requires { sets.now.size ≡ pla.now.size }
    ensures bytes { Writes (W.taken out.old) (W.taken out.new) result
        (text_of pla.now out_type sets.now) }
    ensures count { TellsFailure (W.calls out.old) (W.calls out.new) result }
{
    write_covers(pla, out_type, sets.on(), sets.dc(), sets.off(), out)
}

/// Writes what [`write_pla`] does, with each list by itself: so a caller can lend the lists of the
/// description, and need not copy them.
///
/// # Errors
///
/// `WriteFault` if the output fails; it took a prefix of the text then.
pub fn write_covers<W: Output>(
    pla: &Pla,
    out_type: OutType,
    on: &Cover,
    dc: &Cover,
    off: &Cover,
    out: &mut W,
) -> Result<(), WriteFault>
    requires on_size { on.now.size ≡ pla.now.size }
    requires dc_size { dc.now.size ≡ pla.now.size }
    requires off_size { off.now.size ≡ pla.now.size }
    ensures bytes { Writes (W.taken out.old) (W.taken out.new) result
        (text_of pla.now out_type (lists_of on.now dc.now off.now)) }
    ensures count { TellsFailure (W.calls out.old) (W.calls out.new) result }
{
    let shape = pla.shape();
    let mut buffer = PrintBuffer::new();
    let done = write_number(&mut buffer, out, Ok(()), b".i ", shape.inputs() as u128);
    let done = write_number(&mut buffer, out, done, b".o ", shape.outputs() as u128);
    let done = write_names(&mut buffer, out, done, b".ilb", pla.input_names());
    let done = write_names(&mut buffer, out, done, b".ob", pla.output_names());
    let done = buffer.write_next(out, done, type_line(out_type));
    let rows = row_count(out_type, on, dc, off);
    let done = write_number(&mut buffer, out, done, b".p ", rows);
    let done = write_sections(&mut buffer, out, done, out_type, on, dc, off);
    let done = buffer.write_next(out, done, b".e\n");
    buffer.flush_to(out, done)
}

// Writes the line of a keyword, whose text ends with a space, with a number.
fn write_number<W: Output>(
    buffer: &mut PrintBuffer,
    out: &mut W,
    done: Result<(), WriteFault>,
    keyword: &[u8],
    number: u128,
) -> Result<(), WriteFault>
    ensures bytes { PutsOn (W.taken out.old) buffer.old done (W.taken out.new) buffer.new result
        (keyword.now ++ decimal number ++ codes "\n") }
    ensures count { CountsOn (W.calls out.old) done (W.calls out.new) result }
{
    let mut digits = Buffer::new();
    let done = buffer.write_next(out, done, keyword);
    let done = buffer.write_next(out, done, digits.format(number).as_bytes());
    buffer.write_next(out, done, b"\n")
}

// The line that says the type; empty under f, which has none.
fn type_line(out_type: OutType) -> &'static [u8]
    ensures { result.now ≡ type_text out_type }
{
    match out_type {
        OutType::F => b"",
        OutType::Fd => b".type fd\n",
        OutType::Fr => b".type fr\n",
        OutType::Fdr => b".type fdr\n",
    }
}

// How many rows are printed. The sum of three counts may pass the last value of a u64.
fn row_count(out_type: OutType, on: &Cover, dc: &Cover, off: &Cover) -> u128
    ensures { result
        ≡ sum_by (λ section. length section.1)
        (sections out_type (lists_of on.now dc.now off.now)) }
{
    let on = on.len() as u128;
    let dc = dc.len() as u128;
    let off = off.len() as u128;
    match out_type {
        OutType::F => on,
        OutType::Fd => on + dc,
        OutType::Fr => on + off,
        OutType::Fdr => on + dc + off,
    }
}

// Writes the line of the keyword with each name after a space; nothing if there are no names.
fn write_names<W: Output>(
    buffer: &mut PrintBuffer,
    out: &mut W,
    done: Result<(), WriteFault>,
    keyword: &[u8],
    names: Option<&[Vec<u8>]>,
) -> Result<(), WriteFault>
    ensures bytes { PutsOn (W.taken out.old) buffer.old done (W.taken out.new) buffer.new result
        (names_text keyword.now (lent_names names.entry)) }
    ensures count { CountsOn (W.calls out.old) done (W.calls out.new) result }
{
    match names {
        Some(names) => {
            let done = buffer.write_next(out, done, keyword);
            let done = write_each_name(buffer, out, done, names);
            buffer.write_next(out, done, b"\n")
        }
        None => done,
    }
}

// Writes each name after a space.
fn write_each_name<W: Output>(
    buffer: &mut PrintBuffer,
    out: &mut W,
    done: Result<(), WriteFault>,
    names: &[Vec<u8>],
) -> Result<(), WriteFault>
    ensures bytes { PutsOn (W.taken out.old) buffer.old done (W.taken out.new) buffer.new result
        (flat_map (λ name. 32 ∷ name) (name_bytes names.now)) }
    ensures count { CountsOn (W.calls out.old) done (W.calls out.new) result }
{
    let mut done = done;
    for name in names {
        done = buffer.write_next(out, done, b" ");
        done = buffer.write_next(out, done, name);
    }
    done
}

// Writes the rows of each list that the type prints: ON, then DC, then OFF.
fn write_sections<W: Output>(
    buffer: &mut PrintBuffer,
    out: &mut W,
    done: Result<(), WriteFault>,
    out_type: OutType,
    on: &Cover,
    dc: &Cover,
    off: &Cover,
) -> Result<(), WriteFault>
    ensures bytes { PutsOn (W.taken out.old) buffer.old done (W.taken out.new) buffer.new result
        (flat_map (rows_text (elsewhere out_type))
        (sections out_type (lists_of on.now dc.now off.now))) }
    ensures count { CountsOn (W.calls out.old) done (W.calls out.new) result }
{
    match out_type {
        OutType::F => write_rows(buffer, out, done, on, b'1', b'0'),
        OutType::Fd => {
            let done = write_rows(buffer, out, done, on, b'1', b'~');
            write_rows(buffer, out, done, dc, b'-', b'~')
        }
        OutType::Fr => {
            let done = write_rows(buffer, out, done, on, b'1', b'~');
            write_rows(buffer, out, done, off, b'0', b'~')
        }
        OutType::Fdr => {
            let done = write_rows(buffer, out, done, on, b'1', b'~');
            let done = write_rows(buffer, out, done, dc, b'-', b'~');
            write_rows(buffer, out, done, off, b'0', b'~')
        }
    }
}

// Writes the rows of a list: `mark` for an output in the cube, `other` for any other output.
fn write_rows<W: Output>(
    buffer: &mut PrintBuffer,
    out: &mut W,
    done: Result<(), WriteFault>,
    list: &Cover,
    mark: u8,
    other: u8,
) -> Result<(), WriteFault>
    ensures bytes { PutsOn (W.taken out.old) buffer.old done (W.taken out.new) buffer.new result
        (rows_text other (mark, list.now.cubes)) }
    ensures count { CountsOn (W.calls out.old) done (W.calls out.new) result }
{
    let mut done = done;
    for cube in list.as_slice() {
        if done.is_err() {
            return done;
        }
        done = buffer.write_next_row(out, done, cube, mark, other);
    }
    done
}
