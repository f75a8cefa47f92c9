//! Long texts of a few pieces.
use std::alloc::{AllocError, Global};

#[derive(Clone, Copy)]
pub(crate) enum Piece {
    Text(&'static [u8]),
    // A text so many times.
    Times(usize, &'static [u8]),
    // Rows of so many inputs and one output of this mark, with each number from one to before
    // another at the last 15 inputs.
    Points(usize, usize, usize, u8),
    // The same with 1024 inputs and outputs.
    Widest(usize, usize, u8),
}

// The byte of a number at the input of this place, from the last one on.
fn byte_of(number: usize, place: usize) -> u8 {
    if place >= 15 {
        b'-'
    } else if number >> place & 1 == 1 {
        b'1'
    } else {
        b'0'
    }
}

// Adds a row of a number, with this mark at each output.
fn add_row(
    text: &mut Vec<u8>,
    inputs: usize,
    outputs: usize,
    number: usize,
    mark: u8,
) -> Result<(), AllocError> {
    for place in (0..inputs).rev() {
        text.push(byte_of(number, place))?;
    }
    text.push(b' ')?;
    for _ in 0..outputs {
        text.push(mark)?;
    }
    text.push(b'\n')?;
    Ok(())
}

fn add_rows(
    text: &mut Vec<u8>,
    inputs: usize,
    outputs: usize,
    from: usize,
    to: usize,
    mark: u8,
) -> Result<(), AllocError> {
    for number in from..to {
        add_row(text, inputs, outputs, number, mark)?;
    }
    Ok(())
}

fn add_times(text: &mut Vec<u8>, count: usize, piece: &[u8]) -> Result<(), AllocError> {
    for _ in 0..count {
        text.extend_from_slice(piece)?;
    }
    Ok(())
}

fn add(text: &mut Vec<u8>, piece: Piece) -> Result<(), AllocError> {
    match piece {
        Piece::Text(piece) => add_times(text, 1, piece),
        Piece::Times(count, piece) => add_times(text, count, piece),
        Piece::Points(inputs, from, to, mark) => add_rows(text, inputs, 1, from, to, mark),
        Piece::Widest(from, to, mark) => add_rows(text, 1024, 1024, from, to, mark),
    }
}

// The text of the pieces, one after another.
pub(crate) fn text_of(alloc: Global, pieces: &[Piece]) -> Result<Vec<u8>, AllocError> {
    let mut text = Vec::new(alloc);
    for piece in pieces {
        add(&mut text, *piece)?;
    }
    Ok(text)
}
