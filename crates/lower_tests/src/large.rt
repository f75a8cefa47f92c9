//! Long lists and wide rows on each call, with answers that are known from how the lists are made.
//!
//! A call may be refused memory at any time, and would still meet its contract. So each is asked
//! here for more than a list that it might be tempted to keep short has: for 32,768 rows, and for
//! 4,096 of the most inputs and outputs.
ghost use Rattle.std.specs.Prelude.{◌≡◌};

use crate::covers::{Operation, Question, answer, result_of};
use crate::lists::{
    HALF, LONG, LONG_HALF, LONG_REST, NONE, REST, Size, UNIVERSE, WIDE, WIDE_HALF, WIDE_REST,
    shape_of,
};
use crate::row_texts::{cube_of_bytes, new_shape, same_shape};
use crate::rules::{Rows, Rule, are_rows, cube_of_rule, has_rows, is_row, list_of};
use cube::{Cube, Shape};
use std::alloc::{AllocError, Global};
use std::test::Fail;

// Size, operation, the two lists and the rows that are made.
type Made = (Size, Operation, Rows, Rows, Rows);

const MADE: [Made; 23] = [
    (Size::Long, Operation::Clone, LONG_HALF, NONE, LONG_HALF),
    (Size::Long, Operation::Cubes, LONG_HALF, NONE, LONG_HALF),
    (Size::Long, Operation::CompleteSum, LONG_HALF, NONE, HALF),
    (Size::Long, Operation::Complement, LONG_HALF, NONE, REST),
    (Size::Long, Operation::Contain, LONG_HALF, NONE, LONG_HALF),
    (Size::Long, Operation::Merge, LONG_HALF, NONE, HALF),
    (Size::Long, Operation::Append, LONG_HALF, LONG_REST, LONG),
    (Size::Long, Operation::Intersect, LONG_HALF, LONG, HALF),
    (Size::Long, Operation::Difference, LONG, LONG_HALF, REST),
    (
        Size::Long,
        Operation::Cofactor,
        LONG_HALF,
        UNIVERSE,
        LONG_HALF,
    ),
    (
        Size::Long,
        Operation::Cofactor,
        LONG,
        (Rule::Points, 7, 8),
        UNIVERSE,
    ),
    (Size::Wide, Operation::Clone, WIDE_HALF, NONE, WIDE_HALF),
    (Size::Wide, Operation::Cubes, WIDE_HALF, NONE, WIDE_HALF),
    (Size::Wide, Operation::CompleteSum, WIDE_HALF, NONE, HALF),
    (Size::Wide, Operation::Complement, WIDE_HALF, NONE, REST),
    (Size::Wide, Operation::Contain, WIDE_HALF, NONE, WIDE_HALF),
    (Size::Wide, Operation::Merge, WIDE_HALF, NONE, WIDE_HALF),
    (
        Size::Wide,
        Operation::Contain,
        (Rule::Zeros, 0, 1024),
        NONE,
        UNIVERSE,
    ),
    (Size::Wide, Operation::Append, WIDE_HALF, WIDE_REST, WIDE),
    (Size::Wide, Operation::Intersect, WIDE_HALF, WIDE, HALF),
    (Size::Wide, Operation::Difference, WIDE, WIDE_HALF, REST),
    (
        Size::Wide,
        Operation::Cofactor,
        WIDE_HALF,
        UNIVERSE,
        WIDE_HALF,
    ),
    (
        Size::Wide,
        Operation::Cofactor,
        WIDE,
        (Rule::Front, 7, 8),
        UNIVERSE,
    ),
];

// Whether the operation of the case makes its last rows of the others.
fn makes(alloc: Global, case: &Made) -> Result<bool, AllocError> {
    let (size, operation, first, second, made) = *case;
    let shape = shape_of(size)?;
    let list = list_of(alloc, shape, first)?;
    let other = list_of(alloc, shape, second)?;
    Ok(has_rows(&result_of(operation, &list, &other)?, made))
}

// Size, question, the three lists and the answer.
type Answer = (Size, Question, Rows, Rows, Rows, bool);

const ANSWERS: [Answer; 18] = [
    (Size::Long, Question::Tautology, LONG, NONE, NONE, true),
    (
        Size::Long,
        Question::Tautology,
        LONG_HALF,
        NONE,
        NONE,
        false,
    ),
    (Size::Long, Question::HoldsCube, LONG_HALF, HALF, NONE, true),
    (
        Size::Long,
        Question::HoldsCube,
        LONG_HALF,
        UNIVERSE,
        NONE,
        false,
    ),
    (
        Size::Long,
        Question::Intersects,
        LONG_HALF,
        LONG_REST,
        NONE,
        false,
    ),
    (
        Size::Long,
        Question::Intersects,
        LONG,
        LONG_REST,
        NONE,
        true,
    ),
    (Size::Long, Question::Agrees, LONG_HALF, HALF, NONE, true),
    (
        Size::Long,
        Question::Agrees,
        LONG_HALF,
        LONG_REST,
        NONE,
        false,
    ),
    (
        Size::Long,
        Question::Agrees,
        LONG_HALF,
        UNIVERSE,
        LONG_REST,
        true,
    ),
    (Size::Wide, Question::Tautology, WIDE, NONE, NONE, true),
    (
        Size::Wide,
        Question::Tautology,
        WIDE_HALF,
        NONE,
        NONE,
        false,
    ),
    (Size::Wide, Question::HoldsCube, WIDE_HALF, HALF, NONE, true),
    (
        Size::Wide,
        Question::HoldsCube,
        WIDE_HALF,
        UNIVERSE,
        NONE,
        false,
    ),
    (
        Size::Wide,
        Question::Intersects,
        WIDE_HALF,
        WIDE_REST,
        NONE,
        false,
    ),
    (
        Size::Wide,
        Question::Intersects,
        WIDE,
        WIDE_REST,
        NONE,
        true,
    ),
    (Size::Wide, Question::Agrees, WIDE_HALF, HALF, NONE, true),
    (
        Size::Wide,
        Question::Agrees,
        WIDE_HALF,
        WIDE_REST,
        NONE,
        false,
    ),
    (
        Size::Wide,
        Question::Agrees,
        WIDE_HALF,
        UNIVERSE,
        WIDE_REST,
        true,
    ),
];

// Whether the lists of the case answer its question so.
fn answers(alloc: Global, case: &Answer) -> Result<bool, AllocError> {
    let (size, question, first, second, third, yes) = *case;
    let shape = shape_of(size)?;
    let list = list_of(alloc, shape, first)?;
    let other = list_of(alloc, shape, second)?;
    let free = list_of(alloc, shape, third)?;
    Ok(answer(question, &list, &other, &free)? == yes)
}

// Whether the bytes that the cube puts are read as an equal one.
fn is_read_again(alloc: Global, cube: &Cube) -> Result<bool, AllocError> {
    let shape = cube.shape();
    if shape.inputs() != 1024 || shape.outputs() != 1024 {
        return Ok(false);
    }
    let (mut inputs, mut outputs) = ([0u8; 1024], [0u8; 1024]);
    cube.put_symbols(&mut inputs, b'-', b'0', b'1');
    cube.put_outputs(&mut outputs, b'1', b'0');
    match cube_of_bytes(alloc, &inputs, &outputs, 1)? {
        Some(other) => Ok(cube.is_equal(&other) && is_row(&other, Rule::Free, 0)),
        None => Ok(false),
    }
}

// Whether the last words of the cube have their bits, and the next ones none.
fn has_last_bits(cube: &Cube) -> bool {
    cube.literal_bits(31) == 0x9999_9999_9999_9999
        && cube.literal_bits(32) == 0
        && cube.output_bits(15) == u64::MAX
        && cube.output_bits(16) == 0
}

// Whether all places without those with `0` at each input are those with `1` at one of them.
fn leaves_a_cube_an_input(alloc: Global, shape: Shape) -> Result<bool, AllocError> {
    let whole = cube_of_rule(alloc, shape, Rule::Universe, 0)?;
    let zeros = cube_of_rule(alloc, shape, Rule::Zeros, shape.inputs())?;
    same_shape(whole.shape(), zeros.shape())?;
    Ok(are_rows(
        whole.sharp(&zeros)?.as_slice(),
        (Rule::Lone, 0, shape.inputs()),
    ))
}

fn is_widest_read(alloc: Global, shape: Shape) -> Result<bool, AllocError> {
    let cube = cube_of_rule(alloc, shape, Rule::Free, 0)?;
    Ok(has_last_bits(&cube) && is_read_again(alloc, &cube)?)
}

#[test]
fn long_and_wide_lists_make_lists_and_answer(rt: HostRuntime) -> Result<(), Fail> {
    for case in &MADE {
        assert!(rt; makes(rt.alloc(), case)?);
    }
    for case in &ANSWERS {
        assert!(rt; answers(rt.alloc(), case)?);
    }
    let shape = new_shape(1024, 1024)?;
    assert!(rt; is_widest_read(rt.alloc(), shape)?);
    assert!(rt; leaves_a_cube_an_input(rt.alloc(), shape)?);
    Ok(())
}
