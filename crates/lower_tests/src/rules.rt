//! Lists by rule, also wide and long ones.
ghost use Rattle.std.specs.Prelude.{◌≡◌, IfOk};

use crate::row_texts::{cube_of_symbols, push, same_shape};
use cover::Cover;
use cube::{Cube, Shape, Symbol};
use std::alloc::{AllocError, Global};

// What symbols the row with number k has. All other inputs have `-`.
#[derive(Clone, Copy)]
pub(crate) enum Rule {
    // None at all, in any row.
    Universe,
    // The number at the last 16 inputs.
    Points,
    // The number at the first 13 inputs.
    Front,
    // Twice the number and the next one: as points, without the last input.
    Halves,
    // The number of those before 2047.
    Backwards,
    // `1` at input k and `0` at all before it.
    Stairs,
    // `0` at all inputs before k.
    Zeros,
    // `1` at the input with number k from the last one on.
    Lone,
    // `0` at inputs 2k and 2k + 1.
    Pairs,
    // `1` at the first twelve inputs and then `10`, again and again: Pairs miss it.
    Free,
    // The largest cubes with this point that Pairs miss, in row order.
    Choices,
    // The cubes of two inputs and two outputs.
    Small,
    // Three of them.
    Three([usize; 3]),
    // Stairs of 180 inputs from the last one on, each with two outputs of three and with two
    // others, without the row of this number.
    Steps(usize),
    // Seven pigeons and six holes, where an input says whether a pigeon is in a hole: a pigeon is
    // in no hole, or two are in one.
    Pigeons,
    // `0` at the first input, `1` there, `0` at the second, and so on.
    Literals,
}

// How many inputs number points, from the last one on and from the first.
const BITS: usize = 16;

const FRONT_BITS: usize = 13;

// The rows of a rule from one number to before another.
pub(crate) type Rows = (Rule, usize, usize);

// The symbol that stands for a bit of a number.
fn bit_of(number: usize, place: usize) -> Symbol {
    if place < BITS && number >> place & 1 == 1 {
        Symbol::One
    } else if place < BITS {
        Symbol::Zero
    } else {
        Symbol::Dash
    }
}

// The symbol of Choices: of each of the first six pairs, and of the rest the first.
fn choice_of(number: usize, i: usize) -> Symbol {
    let is_first = i % 2 == 0;
    let takes_first = i >= 12 || number >> (5usize.saturating_sub(i / 2).min(5)) & 1 == 1;
    if is_first == takes_first {
        Symbol::One
    } else {
        Symbol::Dash
    }
}

// The symbol of Stairs.
fn stair_of(number: usize, i: usize) -> Symbol {
    if i < number {
        Symbol::Zero
    } else if i == number {
        Symbol::One
    } else {
        Symbol::Dash
    }
}

// Which of the symbols stands at an input of the small cube of this number.
pub(crate) fn small_symbol(number: usize, i: usize) -> Symbol {
    let digit = if i == 0 { number % 3 } else { number / 3 % 3 };
    match digit {
        0 => Symbol::Dash,
        1 => Symbol::Zero,
        _ => Symbol::One,
    }
}

// Whether the small cube of this number has an output.
pub(crate) fn small_output(number: usize, j: usize) -> bool {
    match number / 9 {
        0 => j == 0,
        1 => j == 1,
        _ => true,
    }
}

fn one_of(numbers: [usize; 3], k: usize) -> usize {
    let [one, two, three] = numbers;
    match k {
        0 => one,
        1 => two,
        _ => three,
    }
}

// Which step the row of this number is: rows begin with the last step, and the row that would have
// the number `left_out` is skipped.
fn step_of(left_out: usize, number: usize) -> usize {
    let row = if number < left_out {
        number
    } else {
        number.saturating_add(1)
    };
    361usize.saturating_sub(row)
}

// Two pigeons.
const PIGEONS: [(usize, usize); 21] = [
    (1, 0),
    (2, 0),
    (2, 1),
    (3, 0),
    (3, 1),
    (3, 2),
    (4, 0),
    (4, 1),
    (4, 2),
    (4, 3),
    (5, 0),
    (5, 1),
    (5, 2),
    (5, 3),
    (5, 4),
    (6, 0),
    (6, 1),
    (6, 2),
    (6, 3),
    (6, 4),
    (6, 5),
];

// The symbol of Pigeons: first a pigeon in no hole, and then two in each hole.
fn pigeon_symbol(number: usize, i: usize) -> Symbol {
    let pigeon = i / 6;
    if number < 7 {
        return if pigeon == number {
            Symbol::Zero
        } else {
            Symbol::Dash
        };
    }
    match PIGEONS.get((number - 7) / 6) {
        Some((one, other)) if i % 6 == (number - 7) % 6 && (pigeon == *one || pigeon == *other) => {
            Symbol::One
        }
        _ => Symbol::Dash,
    }
}

fn literal_symbol(number: usize, i: usize) -> Symbol {
    if i != number / 2 {
        Symbol::Dash
    } else if number % 2 == 0 {
        Symbol::Zero
    } else {
        Symbol::One
    }
}

// Whether a row has an output. By most rules, it has all.
fn output_of(rule: Rule, number: usize, j: usize) -> bool {
    match rule {
        Rule::Small => small_output(number, j),
        Rule::Three(numbers) => small_output(one_of(numbers, number), j),
        Rule::Steps(left_out) if step_of(left_out, number) % 2 == 0 => j != 0,
        Rule::Steps(_) => j != 2,
        _ => true,
    }
}

fn symbol_of(rule: Rule, inputs: usize, number: usize, i: usize) -> Symbol {
    let place = inputs.saturating_sub(i).saturating_sub(1);
    match rule {
        Rule::Points => bit_of(number, place),
        Rule::Front if i < FRONT_BITS => bit_of(number, FRONT_BITS - 1 - i),
        Rule::Backwards => bit_of(2047usize.saturating_sub(number), place),
        Rule::Halves if place > 0 => bit_of(number.saturating_mul(2), place),
        Rule::Stairs => stair_of(number, i),
        Rule::Zeros if i < number => Symbol::Zero,
        Rule::Lone if place == number => Symbol::One,
        Rule::Pairs if i / 2 == number => Symbol::Zero,
        Rule::Free if i >= 12 && i % 2 == 1 => Symbol::Zero,
        Rule::Free => Symbol::One,
        Rule::Choices => choice_of(number, i),
        Rule::Small => small_symbol(number, i),
        Rule::Three(numbers) => small_symbol(one_of(numbers, number), i),
        Rule::Steps(left_out) => stair_of(step_of(left_out, number) / 2, i),
        Rule::Pigeons => pigeon_symbol(number, i),
        Rule::Literals => literal_symbol(number, i),
        _ => Symbol::Dash,
    }
}

// The cube of the row.
pub(crate) fn cube_of_rule(
    alloc: Global,
    shape: Shape,
    rule: Rule,
    number: usize,
) -> Result<Cube, AllocError> {
    let (inputs, outputs) = (shape.inputs().min(1024), shape.outputs().min(1024));
    let mut symbols = [Symbol::Dash; 1024];
    for i in 0..inputs {
        symbols[i] = symbol_of(rule, inputs, number, i);
    }
    let mut bits = [true; 1024];
    for j in 0..outputs {
        bits[j] = output_of(rule, number, j);
    }
    cube_of_symbols(alloc, &symbols[..inputs], &bits[..outputs])?.ok_or(AllocError)
}

// The list of these rows.
pub(crate) fn list_of(alloc: Global, shape: Shape, rows: Rows) -> Result<Cover, AllocError>
    ensures { IfOk result (λ c. c.size ≡ shape) }
{
    let (rule, from, to) = rows;
    let mut list = Cover::new(alloc, shape);
    for number in from..to {
        push(&mut list, cube_of_rule(alloc, shape, rule, number)?)?;
    }
    same_shape(shape, list.shape())?;
    Ok(list)
}

// Whether the cube is the row of this number.
pub(crate) fn is_row(cube: &Cube, rule: Rule, number: usize) -> bool {
    let shape = cube.shape();
    for i in 0..shape.inputs() {
        if cube.symbol(i) != symbol_of(rule, shape.inputs(), number, i) {
            return false;
        }
    }
    for j in 0..shape.outputs() {
        if cube.output(j) != output_of(rule, number, j) {
            return false;
        }
    }
    true
}

// Whether the cubes are just these rows.
pub(crate) fn are_rows(cubes: &[Cube], rows: Rows) -> bool {
    let (rule, from, to) = rows;
    if cubes.len() != to.saturating_sub(from) {
        return false;
    }
    for (k, cube) in cubes.iter().enumerate() {
        if !is_row(cube, rule, from.saturating_add(k)) {
            return false;
        }
    }
    true
}

// Whether the list has just these rows.
pub(crate) fn has_rows(list: &Cover, rows: Rows) -> bool {
    are_rows(list.as_slice(), rows)
}
