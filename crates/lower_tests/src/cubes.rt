//! Small cubes by hand.
use crate::row_texts::{
    are_written, cube_of, cube_of_bytes, cube_of_symbols, is_written, same_shape,
};
use crate::wide::{Operation, answer};
use cube::{Cube, Shape, Symbol, laws, limits};
use std::alloc::{AllocError, Global};
use std::test::Fail;

// Whether the cube `-01-0 101` puts these bytes, and leaves what follows.
fn puts_bytes(cube: &Cube) -> bool {
    let shape = cube.shape();
    if shape.inputs() != 5 || shape.outputs() != 3 {
        return false;
    }
    let mut row = *b"........";
    cube.put_symbols(&mut row, b'd', b'z', b'o');
    let symbols = row == *b"dzodz...";
    cube.put_outputs(&mut row, b'+', b'-');
    symbols && row == *b"+-+dz..."
}

// Whether the cube of these symbols and outputs is written so, as its copy is, and puts its bytes;
// nothing is written for none.
fn symbols_are(
    alloc: Global,
    symbols: &[Symbol],
    outputs: &[bool],
    row: &str,
) -> Result<bool, AllocError> {
    match cube_of_symbols(alloc, symbols, outputs)? {
        Some(cube) => {
            let is_row = puts_bytes(&cube) && is_written(&cube, row);
            Ok(is_written(&cube.try_clone()?, row) && is_row)
        }
        None => Ok(row.is_empty()),
    }
}

const SYMBOLS: [Symbol; 5] = [
    Symbol::Dash,
    Symbol::Zero,
    Symbol::One,
    Symbol::Dash,
    Symbol::Zero,
];

// Symbols, outputs and the mask of the outputs that are set, with the row that is read.
const BYTES: [(&str, &str, u8, &str); 5] = [
    ("-01-0", "101", 1, "-01-0 101"),
    ("-012x", "1-4", 1, "-01-- 101"),
    ("-012x", "1-4", 2, "-01-- 010"),
    // No output is set.
    ("-012x", "1-4", 4, ""),
    // More of each than a word has.
    (
        "011--11011--11011--11011--11011--11011--11011--110",
        "011--11011--11011--11011--11011--11011--11011--110",
        1,
        "011--11011--11011--11011--11011--11011--11011--110 \
         01100110110011011001101100110110011011001101100110",
    ),
];

// Whether the bytes are read as the row of the case; nothing is written for none.
fn bytes_are(alloc: Global, case: &(&str, &str, u8, &str)) -> Result<bool, AllocError> {
    let (inputs, outputs, mask, row) = *case;
    match cube_of_bytes(alloc, inputs.as_bytes(), outputs.as_bytes(), mask)? {
        Some(cube) => Ok(is_written(&cube, row)),
        None => Ok(row.is_empty()),
    }
}

// The first words of a row, its literals, the inputs with literals and those with `1`, its outputs,
// and its key. The next words have no bits.
struct Bits {
    row: &'static str,
    literals: u64,
    inputs: u64,
    ones: u64,
    outputs: u64,
    key: u64,
}

const BITS: [Bits; 4] = [
    Bits {
        row: "01-1 1",
        literals: 0b01_00_01_10,
        inputs: 0b01_00_01_01,
        ones: 0b01_00_01_00,
        outputs: 0b1,
        key: 0b01_10_00_10 << 56,
    },
    Bits {
        row: "01 1011",
        literals: 0b01_10,
        inputs: 0b01_01,
        ones: 0b01_00,
        outputs: 0b1101,
        key: 0b01_10 << 60,
    },
    Bits {
        row: "--- 1",
        literals: 0,
        inputs: 0,
        ones: 0,
        outputs: 0b1,
        key: 0,
    },
    Bits {
        row: "-0 11",
        literals: 0b10_00,
        inputs: 0b01_00,
        ones: 0,
        outputs: 0b11,
        key: 1 << 60,
    },
];

fn has_bits(cube: &Cube, bits: &Bits) -> bool {
    cube.literal_bits(0) == bits.literals
        && cube.literal_bits(1) == 0
        && cube.output_bits(0) == bits.outputs
        && cube.output_bits(1) == 0
}

fn has_sets(cube: &Cube, bits: &Bits) -> bool {
    cube.literal_inputs(0) == bits.inputs
        && cube.literal_inputs(1) == 0
        && cube.one_inputs(0) == bits.ones
        && cube.has_literal(0) == (bits.inputs & 1 == 1)
        && !cube.has_literal(32)
        && cube.order_key_of_32_inputs() == bits.key
}

fn bits_are(alloc: Global, bits: &Bits) -> Result<bool, AllocError> {
    let cube = cube_of(alloc, bits.row)?;
    Ok(has_bits(&cube, bits) && has_sets(&cube, bits))
}

fn limits_are_kept() -> bool {
    Shape::new(limits::INPUTS, limits::OUTPUTS).is_some()
        && Shape::new(0, 1).is_some()
        && Shape::new(1, 0).is_none()
        && Shape::new(1025, 1).is_none()
        && Shape::new(1, 1025).is_none()
        && limits::LINE_BYTES == 131_072
        && limits::LINES == 16_777_216
}

#[test]
fn cubes_are_read(rt: HostRuntime) -> Result<(), Fail> {
    assert!(rt; symbols_are(rt.alloc(), &SYMBOLS, &[true, false, true], "-01-0 101")?);
    assert!(rt; symbols_are(rt.alloc(), &[Symbol::Zero], &[false, false], "")?);
    for case in &BYTES {
        assert!(rt; bytes_are(rt.alloc(), case)?);
    }
    for case in &BITS {
        assert!(rt; bits_are(rt.alloc(), case)?);
    }
    assert!(rt; limits_are_kept());
    laws::complete_sum_is_maximal_cubes();
    laws::same_places_same_cube();
    laws::limits_are_constants();
    Ok(())
}

// What is made of two cubes.
#[derive(Clone, Copy)]
enum Product {
    // The row of both where they are equal.
    Equal,
    Sharp,
    By(Operation),
}

const PRODUCTS: [(Product, &str, &str, &[&str]); 20] = [
    (Product::Equal, "01- 10", "01- 10", &["01- 10"]),
    (Product::Equal, "01- 10", "01- 11", &[]),
    // Other literals.
    (Product::Equal, "01- 10", "011 10", &[]),
    (Product::Equal, "01- 10", "0-- 10", &[]),
    // Other shapes.
    (Product::Equal, "01- 10", "01 10", &[]),
    (Product::Equal, "01- 10", "01- 1", &[]),
    (Product::Sharp, "-- 1", "11 1", &["-0 1", "0- 1"]),
    (Product::Sharp, "1- 11", "11 01", &["1- 10", "10 11"]),
    (Product::Sharp, "11 10", "1- 11", &[]),
    // Cubes apart.
    (Product::Sharp, "1- 10", "1- 01", &["1- 10"]),
    (Product::Sharp, " 11", " 10", &[" 01"]),
    (Product::By(Operation::Meet), "1- 10", "-1 01", &[]),
    (Product::By(Operation::Meet), "1- 11", "-1 01", &["11 01"]),
    (Product::By(Operation::Join), "11 10", "10 01", &["1- 11"]),
    (
        Product::By(Operation::OutputConsensus),
        "1- 10",
        "-0 01",
        &["10 11"],
    ),
    (
        Product::By(Operation::OutputConsensus),
        "1- 10",
        "0- 11",
        &[],
    ),
    (Product::By(Operation::Rest), "1- 11", "-0 01", &["1- 10"]),
    (Product::By(Operation::Rest), "1- 01", "-0 11", &[]),
    (
        Product::By(Operation::Cofactor),
        "10-0 100",
        "1--0 110",
        &["-0-- 101"],
    ),
    (Product::By(Operation::Cofactor), "1 10", "0 11", &[]),
];

// Whether the two are found equal or not, whichever is asked.
fn is_told(a: &Cube, b: &Cube, are_equal: bool) -> bool {
    a.is_equal(b) == are_equal && b.is_equal(a) == are_equal
}

// Whether the two cubes make these rows.
fn product_is(product: Product, a: &Cube, b: &Cube, rows: &[&str]) -> Result<bool, AllocError> {
    if let Product::Equal = product {
        return Ok(is_told(a, b, !rows.is_empty()));
    }
    same_shape(a.shape(), b.shape())?;
    match product {
        Product::Equal => Ok(false),
        Product::Sharp => Ok(are_written(a.sharp(b)?.as_slice(), rows)),
        Product::By(operation) => match answer(operation, a, b)? {
            Some(cube) => Ok(rows.len() == 1 && is_written(&cube, rows[0])),
            None => Ok(rows.is_empty()),
        },
    }
}

// Whether the two cubes of the case make its rows.
fn makes(alloc: Global, case: &(Product, &str, &str, &[&str])) -> Result<bool, AllocError> {
    let (product, a, b, rows) = *case;
    let a = cube_of(alloc, a)?;
    let b = cube_of(alloc, b)?;
    product_is(product, &a, &b, rows)
}

// Two rows, the inputs at which they have opposite literals, and those at which the first has a
// literal that the second does not have.
const LITERALS: [(&str, &str, &[usize], &[usize]); 5] = [
    ("01-1 1", "10-1 1", &[0, 1], &[0, 1]),
    ("0--1 1", "-0-1 1", &[], &[0]),
    ("---- 1", "0101 1", &[], &[]),
    ("1-0 1", "0-0 1", &[0], &[0]),
    // More inputs than a word has.
    (
        "0--------------------------------1---0 1",
        "1--------------------------------0---- 1",
        &[0, 33],
        &[0, 33, 37],
    ),
];

// Whether the inputs with opposite literals are these, one after the other.
fn are_opposite(a: &Cube, b: &Cube, inputs: &[usize]) -> bool {
    let mut from = 0;
    for i in inputs {
        if a.next_opposite(b, from) != Some(*i) {
            return false;
        }
        from = i.saturating_add(1);
    }
    a.next_opposite(b, from).is_none()
}

// Whether the inputs with literals that the second cube does not have are these, one after the
// other.
fn are_beyond(a: &Cube, b: &Cube, inputs: &[usize]) -> bool {
    let mut from = 0;
    for i in inputs {
        if a.next_beyond(b, from) != Some(*i) {
            return false;
        }
        from = i.saturating_add(1);
    }
    a.next_beyond(b, from).is_none()
}

// Whether the two cubes have these literals.
fn literals_compare(a: &Cube, b: &Cube, opposites: &[usize], beyond: &[usize]) -> bool {
    are_opposite(a, b, opposites)
        && are_beyond(a, b, beyond)
        && a.opposites(b) as usize == opposites.len()
        && a.literals_beyond(b) as usize == beyond.len()
}

// Whether the two rows of the case have its literals.
fn has_literals(
    alloc: Global,
    case: &(&str, &str, &[usize], &[usize]),
) -> Result<bool, AllocError> {
    let (a, b, opposites, beyond) = *case;
    let a = cube_of(alloc, a)?;
    let b = cube_of(alloc, b)?;
    Ok(literals_compare(&a, &b, opposites, beyond))
}

#[test]
fn two_cubes_make_rows_and_compare(rt: HostRuntime) -> Result<(), Fail> {
    for case in &PRODUCTS {
        assert!(rt; makes(rt.alloc(), case)?);
    }
    for case in &LITERALS {
        assert!(rt; has_literals(rt.alloc(), case)?);
    }
    Ok(())
}
