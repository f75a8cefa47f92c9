//! Rows of descriptions and of answers by rule, also of wide and long ones.
//!
//! Pairs of inputs and rings of three are numbered from the last inputs on, so that the rows of an
//! answer, which are in row order, are numbered as they come.
use cover::Cover;
use cube::{Cube, Symbol};
use std::alloc::AllocError;

// What bytes the row with number k has. All other inputs have `-`.
#[derive(Clone, Copy)]
pub(crate) enum Rule {
    // `11`, `10` and `0-` at pair k, and `1-`, which the first two make.
    Both,
    First,
    NotFirst,
    Prime,
    // `0-` at each pair: what no prime of the above holds.
    Neither,
    // Point k of those of the first ring, then of the second and so on: 000, 001, 010, 101, 110,
    // 111.
    Ring,
    // At each ring one of its two other points, by the bits of k.
    Gap,
    // The six primes of each ring, and the first, third and sixth of them: a least cover.
    RingPrime,
    RingLeast,
    // The same behind codes at all other inputs, first those of the code 0, and so on. The ones of a
    // code are even, so that no two codes are neighbours.
    CodedRing,
    CodedGap,
    CodedPrime,
    CodedLeast,
    // Tables of truth: all points with a point of a ring at the last three inputs, or another one;
    // and all with 1 at the last input but one, or with 0.
    RingTable,
    GapTable,
    OneTable,
    ZeroTable,
    // The number at the last six inputs.
    Point,
    // The number at the twelve inputs before the last, where it makes the ones odd, or even. No two
    // of 4,096 such points are neighbours; with twelve inputs in all they are all points.
    Odd,
    Even,
    Universe,
}

const POINTS: [&[u8; 3]; 6] = [b"000", b"001", b"010", b"101", b"110", b"111"];

const GAPS: [&[u8; 3]; 2] = [b"011", b"100"];

const PRIMES: [&[u8; 3]; 6] = [b"-01", b"-10", b"0-0", b"00-", b"1-1", b"11-"];

const LEAST: [&[u8; 3]; 3] = [b"-01", b"0-0", b"11-"];

// The byte of a pair that is one of these at its input.
fn pair_byte(is_meant: bool, place: usize, first: u8, second: u8) -> u8 {
    if !is_meant {
        b'-'
    } else if place % 2 == 1 {
        first
    } else {
        second
    }
}

// The byte at the input of a ring's code.
fn ring_byte(codes: &[&[u8; 3]], number: usize, place: usize) -> u8 {
    match codes.get(number) {
        Some(code) => code[2 - place % 3],
        None => b'-',
    }
}

// The byte of the row where each ring has so many.
fn rings_byte(codes: &[&[u8; 3]], number: usize, place: usize) -> u8 {
    let begin = (place / 3).saturating_mul(codes.len());
    if number < begin {
        return b'-';
    }
    ring_byte(codes, number - begin, place)
}

fn digit(is_one: bool) -> u8 {
    if is_one { b'1' } else { b'0' }
}

// The byte of the number where the last input makes the ones odd, or even.
fn parity_byte(number: usize, place: usize, is_odd: bool) -> u8 {
    match place {
        0 => digit((number.count_ones() % 2 == 1) != is_odd),
        1..=12 => digit(number >> (place - 1) & 1 == 1),
        _ => b'-',
    }
}

// The byte of the number whose bits stand from this place on.
fn bit_byte(number: usize, place: usize, first: usize) -> u8 {
    digit(number >> place.saturating_sub(first).min(63) & 1 == 1)
}

// The byte of the row where each code is followed by so many.
fn coded_byte(codes: &[&[u8; 3]], number: usize, place: usize) -> u8 {
    if codes.is_empty() {
        return b'-';
    }
    let code = number / codes.len();
    match place {
        0..=2 => ring_byte(codes, number % codes.len(), place),
        3 => digit(code.count_ones() % 2 == 1),
        _ => bit_byte(code, place, 4),
    }
}

// The byte of the row of a table of all points with one of these at the last inputs.
fn table_byte(codes: &[&[u8; 3]], number: usize, place: usize) -> u8 {
    if codes.is_empty() {
        return b'-';
    }
    match place {
        0..=2 => ring_byte(codes, number % codes.len(), place),
        _ => bit_byte(number / codes.len(), place, 3),
    }
}

// The byte of the row of a table of all points with this byte at the last input but one.
fn half_byte(byte: u8, number: usize, place: usize) -> u8 {
    match place {
        0 => digit(number % 2 == 1),
        1 => byte,
        _ => bit_byte(number / 2, place, 2),
    }
}

// The byte at the input of this place, from the last one on.
fn byte_of(rule: Rule, number: usize, place: usize) -> u8 {
    let is_pair = place / 2 == number;
    match rule {
        Rule::Both => pair_byte(is_pair, place, b'1', b'1'),
        Rule::First => pair_byte(is_pair, place, b'1', b'0'),
        Rule::NotFirst => pair_byte(is_pair, place, b'0', b'-'),
        Rule::Prime => pair_byte(is_pair, place, b'1', b'-'),
        Rule::Neither => pair_byte(true, place, b'0', b'-'),
        Rule::Ring => rings_byte(&POINTS, number, place),
        Rule::RingPrime => rings_byte(&PRIMES, number, place),
        Rule::RingLeast => rings_byte(&LEAST, number, place),
        Rule::CodedRing => coded_byte(&POINTS, number, place),
        Rule::CodedGap => coded_byte(&GAPS, number, place),
        Rule::CodedPrime => coded_byte(&PRIMES, number, place),
        Rule::CodedLeast => coded_byte(&LEAST, number, place),
        Rule::RingTable => table_byte(&POINTS, number, place),
        Rule::GapTable => table_byte(&GAPS, number, place),
        Rule::OneTable => half_byte(b'1', number, place),
        Rule::ZeroTable => half_byte(b'0', number, place),
        Rule::Point if place < 6 => digit(number >> place & 1 == 1),
        Rule::Odd => parity_byte(number, place, true),
        Rule::Even => parity_byte(number, place, false),
        Rule::Point | Rule::Universe => b'-',
        Rule::Gap => ring_byte(&GAPS, number >> (place / 3).min(63) & 1, place),
    }
}

// Which outputs the rows have: all, or each the one with its number, or that of its ring.
#[derive(Clone, Copy)]
pub(crate) enum Outputs {
    All,
    Own,
    OfRing,
}

fn has_output(outputs: Outputs, rule: Rule, number: usize, output: usize) -> bool {
    match outputs {
        Outputs::All => true,
        Outputs::Own => number == output,
        Outputs::OfRing => match rule {
            Rule::Ring | Rule::RingPrime => number / 6 == output,
            Rule::RingLeast => number / 3 == output,
            _ => number == output,
        },
    }
}

// So many rows of a rule, with this mark at their outputs.
pub(crate) type Rows = (Rule, usize, u8);

fn place_of(inputs: usize, input: usize) -> usize {
    inputs.saturating_sub(input).saturating_sub(1)
}

// Adds a row of a file.
fn add_row(
    text: &mut Vec<u8>,
    shape: (usize, usize, Outputs),
    rule: Rule,
    number: usize,
    mark: u8,
) -> Result<(), AllocError> {
    let (inputs, outputs, which) = shape;
    for i in 0..inputs {
        text.push(byte_of(rule, number, place_of(inputs, i)))?;
    }
    text.push(b' ')?;
    for j in 0..outputs {
        text.push(if has_output(which, rule, number, j) {
            mark
        } else {
            b'~'
        })?;
    }
    text.push(b'\n')?;
    Ok(())
}

// Adds some rows of a file.
pub(crate) fn add_rows(
    text: &mut Vec<u8>,
    shape: (usize, usize, Outputs),
    rows: Rows,
) -> Result<(), AllocError> {
    let (rule, count, mark) = rows;
    for number in 0..count {
        add_row(text, shape, rule, number, mark)?;
    }
    Ok(())
}

// Whether the cube is this row.
fn is_row(cube: &Cube, which: Outputs, rule: Rule, number: usize) -> bool {
    let shape = cube.shape();
    for i in 0..shape.inputs() {
        let symbol = match byte_of(rule, number, place_of(shape.inputs(), i)) {
            b'0' => Symbol::Zero,
            b'1' => Symbol::One,
            _ => Symbol::Dash,
        };
        if cube.symbol(i) != symbol {
            return false;
        }
    }
    for j in 0..shape.outputs() {
        if cube.output(j) != has_output(which, rule, number, j) {
            return false;
        }
    }
    true
}

// Whether the list is these rows.
pub(crate) fn has_rows(list: &Cover, which: Outputs, rule: Rule, count: usize) -> bool {
    for (k, cube) in list.as_slice().iter().enumerate() {
        if !is_row(cube, which, rule, k) {
            return false;
        }
    }
    list.len() == count
}
