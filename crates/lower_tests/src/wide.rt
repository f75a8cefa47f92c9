//! Wide cubes against forms that go symbol by symbol.
ghost use Rattle.cube.specs.Cube.{SameSize};

use crate::row_texts::{byte_of, cube_of_symbols, same_shape};
use cube::{Cube, Symbol};
use std::alloc::{AllocError, Global};
use std::cmp::Ordering;
use std::test::Fail;

// What tells the rows of one shape apart.
#[derive(Clone, Copy, PartialEq, Eq)]
enum Kind {
    Plain,
    FirstSymbol,
    LastSymbol,
    FirstOutput,
    LastOutput,
    Universal,
}

const KINDS: [Kind; 6] = [
    Kind::Plain,
    Kind::FirstSymbol,
    Kind::LastSymbol,
    Kind::FirstOutput,
    Kind::LastOutput,
    Kind::Universal,
];

// A row whose elements are computed one by one, with the input where its kind's symbol is replaced.
#[derive(Clone, Copy)]
struct Row {
    inputs: usize,
    outputs: usize,
    kind: Kind,
    replaced: Option<usize>,
}

fn next_symbol(symbol: Symbol) -> Symbol {
    match symbol {
        Symbol::Dash => Symbol::Zero,
        Symbol::Zero => Symbol::One,
        Symbol::One => Symbol::Dash,
    }
}

fn symbol_of_kind(row: Row, i: usize) -> Symbol {
    let symbol = match i % 3 {
        0 => Symbol::Zero,
        1 => Symbol::One,
        _ => Symbol::Dash,
    };
    match row.kind {
        Kind::Universal => Symbol::Dash,
        Kind::FirstSymbol if i == 0 => next_symbol(symbol),
        Kind::LastSymbol if i.wrapping_add(1) == row.inputs => next_symbol(symbol),
        _ => symbol,
    }
}

fn symbol_at(row: Row, i: usize) -> Symbol {
    let symbol = symbol_of_kind(row, i);
    if row.replaced == Some(i) {
        next_symbol(symbol)
    } else {
        symbol
    }
}

fn output_at(row: Row, j: usize) -> bool {
    let output = j % 2 == 0;
    match row.kind {
        Kind::Universal => true,
        Kind::FirstOutput if j == 0 => !output,
        Kind::LastOutput if j.wrapping_add(1) == row.outputs => !output,
        _ => output,
    }
}

// The cube of the row, if it has an output.
fn cube_of_row(alloc: Global, row: Row) -> Result<Option<Cube>, AllocError> {
    let (inputs, outputs) = (row.inputs.min(1024), row.outputs.min(1024));
    let mut symbols = [Symbol::Dash; 1024];
    for i in 0..inputs {
        symbols[i] = symbol_at(row, i);
    }
    let mut bits = [false; 1024];
    for j in 0..outputs {
        bits[j] = output_at(row, j);
    }
    cube_of_symbols(alloc, &symbols[..inputs], &bits[..outputs])
}

// Whether no literal of the first stands beside another symbol; where they are to meet, it may
// stand beside `-`.
fn symbols_fit(a: Row, b: Row, are_to_meet: bool) -> bool {
    for i in 0..a.inputs {
        let (s, t) = (symbol_at(a, i), symbol_at(b, i));
        if s != Symbol::Dash && s != t && !(are_to_meet && t == Symbol::Dash) {
            return false;
        }
    }
    true
}

// Whether a bit of the first stands where the second has this one.
fn has_bit_beside(a: Row, b: Row, bit: bool) -> bool {
    for j in 0..a.outputs {
        if output_at(a, j) && output_at(b, j) == bit {
            return true;
        }
    }
    false
}

fn row_contains(a: Row, b: Row) -> bool {
    symbols_fit(a, b, false) && !has_bit_beside(b, a, false)
}

fn rows_meet(a: Row, b: Row) -> bool {
    symbols_fit(a, b, true) && has_bit_beside(a, b, true)
}

fn row_order(a: Row, b: Row) -> Ordering {
    for i in 0..a.inputs {
        let (s, t) = (symbol_at(a, i), symbol_at(b, i));
        if s != t {
            return s.cmp(&t);
        }
    }
    for j in 0..a.outputs {
        let (x, y) = (output_at(a, j), output_at(b, j));
        if x != y {
            return x.cmp(&y);
        }
    }
    Ordering::Equal
}

// What a call makes of two cubes.
#[derive(Clone, Copy, PartialEq, Eq)]
pub(crate) enum Operation {
    Meet,
    Join,
    OutputConsensus,
    // The first without the outputs of the second.
    Rest,
    Cofactor,
}

const OPERATIONS: [Operation; 5] = [
    Operation::Meet,
    Operation::Join,
    Operation::OutputConsensus,
    Operation::Rest,
    Operation::Cofactor,
];

// What the call makes of two cubes, if it makes one.
pub(crate) fn answer(operation: Operation, p: &Cube, q: &Cube) -> Result<Option<Cube>, AllocError>
    requires { SameSize p.now q.now }
{
    match operation {
        Operation::Meet => p.meet(q),
        Operation::Join => Ok(Some(p.join(q)?)),
        Operation::OutputConsensus => p.output_consensus(q),
        Operation::Rest if !p.has_outputs_beyond(q) => Ok(None),
        Operation::Rest => Ok(Some(p.without_outputs(q)?)),
        Operation::Cofactor => p.cofactor(q),
    }
}

fn symbol_of(operation: Operation, s: Symbol, t: Symbol) -> Symbol {
    match operation {
        Operation::Meet | Operation::OutputConsensus if s == Symbol::Dash => t,
        Operation::Meet | Operation::OutputConsensus | Operation::Rest => s,
        Operation::Join if s == t => s,
        Operation::Cofactor if t == Symbol::Dash => s,
        _ => Symbol::Dash,
    }
}

fn output_of(operation: Operation, x: bool, y: bool) -> bool {
    match operation {
        Operation::Meet => x && y,
        Operation::Join | Operation::OutputConsensus => x || y,
        Operation::Rest => x && !y,
        Operation::Cofactor => x || !y,
    }
}

// Whether the operation has an answer for these rows.
fn has_answer(operation: Operation, a: Row, b: Row) -> bool {
    match operation {
        Operation::Meet | Operation::Cofactor => rows_meet(a, b),
        Operation::Join => true,
        Operation::OutputConsensus => symbols_fit(a, b, true),
        Operation::Rest => has_bit_beside(a, b, false),
    }
}

// Whether the cube is the row that the operation makes of two others, element by element.
fn is_made_of(cube: &Cube, operation: Operation, a: Row, b: Row) -> bool {
    let shape = cube.shape();
    if shape.inputs() != a.inputs || shape.outputs() != a.outputs {
        return false;
    }
    for i in 0..shape.inputs() {
        if cube.symbol(i) != symbol_of(operation, symbol_at(a, i), symbol_at(b, i)) {
            return false;
        }
    }
    for j in 0..shape.outputs() {
        if cube.output(j) != output_of(operation, output_at(a, j), output_at(b, j)) {
            return false;
        }
    }
    true
}

// Whether the cube is the row, which is what the row has in common with itself.
fn is_row(cube: &Cube, row: Row) -> bool {
    is_made_of(cube, Operation::Meet, row, row)
}

// Whether the call makes of two cubes what the operation makes of their rows.
fn call_agrees(operation: Operation, a: Row, b: Row, p: &Cube, q: &Cube) -> Result<bool, AllocError>
    requires { SameSize p.now q.now }
{
    match answer(operation, p, q)? {
        Some(cube) => Ok(has_answer(operation, a, b) && is_made_of(&cube, operation, a, b)),
        None => Ok(!has_answer(operation, a, b)),
    }
}

// Whether two cubes compare as their rows do.
fn comparisons_agree(a: Row, b: Row, p: &Cube, q: &Cube) -> bool
    requires { SameSize p.now q.now }
{
    p.contains(q) == row_contains(a, b)
        && p.disjoint(q) != rows_meet(a, b)
        && p.row_cmp(q) == row_order(a, b)
}

// Whether each call on two cubes agrees with the form that goes symbol by symbol.
fn calls_agree(a: Row, b: Row, p: &Cube, q: &Cube) -> Result<bool, AllocError> {
    same_shape(p.shape(), q.shape())?;
    for operation in &OPERATIONS {
        if !call_agrees(*operation, a, b, p, q)? {
            return Ok(false);
        }
    }
    Ok(comparisons_agree(a, b, p, q))
}

// Whether the calls agree on the cube of the first row and that of the second, if it has one.
fn pair_agrees(alloc: Global, a: Row, b: Row, p: &Cube) -> Result<bool, AllocError> {
    match cube_of_row(alloc, b)? {
        Some(q) => calls_agree(a, b, p, &q),
        None => Ok(true),
    }
}

// Whether the literals are found one after another.
fn finds_literals(cube: &Cube, row: Row) -> bool {
    let inputs = cube.shape().inputs();
    let mut next = None;
    for from in (0..inputs).rev() {
        if symbol_at(row, from) != Symbol::Dash {
            next = Some(from);
        }
        if cube.next_literal(from) != next {
            return false;
        }
    }
    cube.next_literal(inputs).is_none()
}

// Whether the counts of the cube are those of the row.
fn counts_agree(cube: &Cube, row: Row) -> bool {
    let mut literals = 0usize;
    for i in 0..row.inputs {
        if symbol_at(row, i) != Symbol::Dash {
            literals = literals.wrapping_add(1);
        }
    }
    let mut universal = literals == 0;
    for j in 0..row.outputs {
        universal = universal && output_at(row, j);
    }
    cube.literals() == literals && cube.is_universal() == universal
}

// Whether the cube puts bytes for just these symbols, and leaves what follows.
fn puts_symbols(cube: &Cube, row: Row) -> bool {
    let inputs = cube.shape().inputs();
    let mut bytes = [7u8; 1025];
    cube.put_symbols(&mut bytes, b'-', b'0', b'1');
    for i in 0..inputs {
        if bytes[i] != byte_of(symbol_at(row, i)) {
            return false;
        }
    }
    bytes[inputs] == 7
}

// The same for outputs.
fn puts_outputs(cube: &Cube, row: Row) -> bool {
    let outputs = cube.shape().outputs();
    let mut bytes = [7u8; 1025];
    cube.put_outputs(&mut bytes, b'4', b'~');
    for j in 0..outputs {
        if bytes[j] != if output_at(row, j) { b'4' } else { b'~' } {
            return false;
        }
    }
    bytes[outputs] == 7
}

// Whether each call that only reads the cube agrees with the row.
fn row_agrees(cube: &Cube, row: Row) -> bool {
    is_row(cube, row)
        && counts_agree(cube, row)
        && finds_literals(cube, row)
        && puts_symbols(cube, row)
        && puts_outputs(cube, row)
}

// Whether a copy is as the row, and as the replaced one once the symbol was set in it.
fn copy_agrees(cube: &Cube, row: Row, i: usize) -> Result<bool, AllocError> {
    let mut copy = cube.try_clone()?;
    let is_same = is_row(&copy, row);
    if i < copy.shape().inputs() {
        copy.set_symbol(i, next_symbol(symbol_at(row, i)));
    }
    let replaced = Some(i);
    Ok(is_same && is_row(&copy, Row { replaced, ..row }))
}

// Whether the cube with a symbol replaced is as the row where it was replaced too.
fn replaced_agrees(cube: &Cube, row: Row, i: usize) -> Result<bool, AllocError> {
    if i >= cube.shape().inputs() {
        return Ok(true);
    }
    let replaced = Some(i);
    let other = cube.with_symbol(i, next_symbol(symbol_at(row, i)))?;
    Ok(is_row(&other, Row { replaced, ..row }))
}

// Whether each call agrees on the cube and on it beside those of each kind, and nothing is left of
// it without itself.
fn all_agree(alloc: Global, row: Row, cube: &Cube) -> Result<bool, AllocError> {
    let middle = row.inputs / 2;
    let is_alike = row_agrees(cube, row) && copy_agrees(cube, row, middle)?;
    if !is_alike || !replaced_agrees(cube, row, middle)? {
        return Ok(false);
    }
    if !cube.sharp(cube)?.is_empty() {
        return Ok(false);
    }
    for kind in &KINDS {
        let kind = *kind;
        if !pair_agrees(alloc, row, Row { kind, ..row }, cube)? {
            return Ok(false);
        }
    }
    Ok(true)
}

fn row_and_cube_agree(alloc: Global, row: Row) -> Result<bool, AllocError> {
    match cube_of_row(alloc, row)? {
        Some(cube) => all_agree(alloc, row, &cube),
        None => Ok(true),
    }
}

const INPUTS: [usize; 10] = [0, 1, 31, 32, 33, 127, 128, 129, 256, 1024];

const OUTPUTS: [usize; 6] = [1, 63, 64, 65, 256, 1024];

// Whether the cubes of so many inputs agree with their rows.
fn cubes_of_width_agree(alloc: Global, inputs: usize) -> Result<bool, AllocError> {
    let replaced = None;
    for outputs in &OUTPUTS {
        for kind in &KINDS {
            let (outputs, kind) = (*outputs, *kind);
            let row = Row {
                inputs,
                outputs,
                kind,
                replaced,
            };
            if !row_and_cube_agree(alloc, row)? {
                return Ok(false);
            }
        }
    }
    Ok(true)
}

#[test]
fn wide_cubes_agree(rt: HostRuntime) -> Result<(), Fail> {
    for inputs in &INPUTS {
        assert!(rt; cubes_of_width_agree(rt.alloc(), *inputs)?);
    }
    Ok(())
}
