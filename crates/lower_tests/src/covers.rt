//! Small lists by hand. What the program prints of longer ones is tested on the built program.
ghost use Rattle.std.specs.Prelude.{◌≡◌};

use crate::row_texts::{are_written, cover_of, is_written, new_shape};
use cover::{Cover, agree_outside, complete_sum, contain, difference, intersect, merge_rows};
use std::alloc::{AllocError, Global};
use std::test::Fail;

// What is made of a list, or of two.
#[derive(Clone, Copy)]
pub(crate) enum Operation {
    Clone,
    Cubes,
    CompleteSum,
    Complement,
    Contain,
    Append,
    Intersect,
    Difference,
    Merge,
    // By the one cube of the other list.
    Cofactor,
}

const THREE_ROWS: [&str; 3] = ["1- 10", "0- 11", "-1 01"];

// Operation, inputs, outputs, the two lists and the rows that are made.
type Made = (
    Operation,
    usize,
    usize,
    &'static [&'static str],
    &'static [&'static str],
    &'static [&'static str],
);

const MADE: [Made; 17] = [
    (
        Operation::Clone,
        2,
        1,
        &["1- 1", "01 1"],
        &[],
        &["1- 1", "01 1"],
    ),
    (
        Operation::Cubes,
        2,
        1,
        &["1- 1", "01 1"],
        &[],
        &["1- 1", "01 1"],
    ),
    (
        Operation::CompleteSum,
        2,
        2,
        &["00 10", "01 11", "11 01"],
        &[],
        &["-1 01", "0- 10", "01 11"],
    ),
    (
        Operation::CompleteSum,
        4,
        1,
        &["01-- 1", "10-- 1", "--01 1", "--10 1"],
        &[],
        &["--01 1", "--10 1", "01-- 1", "10-- 1"],
    ),
    // A part that holds everything.
    (
        Operation::CompleteSum,
        4,
        2,
        &["01-- 11", "10-- 11", "--0- 11", "--11 11", "--10 11"],
        &[],
        &["---- 11"],
    ),
    // Cut cubes that hold everything, each output by others and with rows that overlap.
    (
        Operation::CompleteSum,
        5,
        3,
        &[
            "1---- 110",
            "0-1-- 011",
            "0-0-- 111",
            "0-1-1 100",
            "0-1-0 110",
            "1--0- 001",
            "1-11- 001",
            "1-01- 011",
        ],
        &[],
        &["----- 111"],
    ),
    // The same without a point of the last output.
    (
        Operation::CompleteSum,
        3,
        2,
        &["1-- 11", "0-1 11", "000 11", "010 10", "-11 11"],
        &[],
        &["--- 10", "--1 11", "-0- 11", "1-- 11"],
    ),
    // Rows of more points than there are, which leave out one.
    (
        Operation::CompleteSum,
        3,
        1,
        &["1-- 1", "-1- 1", "--0 1"],
        &[],
        &["--0 1", "-1- 1", "1-- 1"],
    ),
    // With other outputs the parts are not apart.
    (
        Operation::CompleteSum,
        2,
        2,
        &["0- 10", "-1 11"],
        &[],
        &["-1 11", "0- 10"],
    ),
    (
        Operation::Complement,
        1,
        2,
        &["1 10"],
        &[],
        &["- 01", "0 11"],
    ),
    (
        Operation::Contain,
        2,
        1,
        &["11 1", "1- 1", "1- 1", "0- 1"],
        &[],
        &["1- 1", "0- 1"],
    ),
    (
        Operation::Merge,
        2,
        1,
        &["11 1", "10 1"],
        &[],
        &["11 1", "10 1"],
    ),
    (
        Operation::Append,
        2,
        1,
        &["11 1"],
        &["0- 1", "11 1"],
        &["11 1", "0- 1", "11 1"],
    ),
    (
        Operation::Intersect,
        2,
        2,
        &["1- 11"],
        &["11 01"],
        &["11 01"],
    ),
    (
        Operation::Difference,
        2,
        2,
        &["1- 11"],
        &["11 01"],
        &["1- 10", "10 11"],
    ),
    (Operation::Difference, 2, 2, &["1- 11"], &["1- 11"], &[]),
    (
        Operation::Cofactor,
        2,
        2,
        &THREE_ROWS,
        &["1- 01"],
        &["-1 11"],
    ),
];

// The first list and then the second.
fn both(list: &Cover, other: &Cover) -> Result<Cover, AllocError>
    requires { other.now.size ≡ list.now.size }
{
    let mut all = list.try_clone()?;
    all.append(other)?;
    Ok(all)
}

// The list made again of its cubes.
fn again(list: &Cover) -> Result<Cover, AllocError> {
    Ok(Cover::from_cubes(list.shape(), list.try_clone()?.into_cubes()))
}

// The list with fewer rows, or as it is where merging rows does not pay.
fn merged(list: &Cover) -> Result<Cover, AllocError> {
    match merge_rows(list)? {
        Some(fewer) => Ok(fewer),
        None => list.try_clone(),
    }
}

pub(crate) fn result_of(
    operation: Operation,
    list: &Cover,
    other: &Cover,
) -> Result<Cover, AllocError>
    requires { other.now.size ≡ list.now.size }
{
    match operation {
        Operation::Clone => list.try_clone(),
        Operation::Cubes => again(list),
        Operation::CompleteSum => complete_sum(list),
        Operation::Complement => list.complement(),
        Operation::Contain => contain(list),
        Operation::Append => both(list, other),
        Operation::Intersect => intersect(list, other),
        Operation::Difference => difference(list, other),
        Operation::Merge => merged(list),
        Operation::Cofactor => match other.get(0) {
            Some(by) => list.cofactor(by),
            None => list.try_clone(),
        },
    }
}

// More inputs than four words have.
const MANY: usize = 140;

// So many inputs stand before those of a case, each time.
const BEFORE: [usize; 2] = [0, MANY];

// Whether the operation of the case makes its last rows of the others.
fn makes(alloc: Global, case: &Made, before: usize) -> Result<bool, AllocError> {
    let (operation, inputs, outputs, rows, others, made) = *case;
    let shape = new_shape(inputs.saturating_add(before), outputs)?;
    let list = cover_of(alloc, shape, rows)?;
    let other = cover_of(alloc, shape, others)?;
    Ok(are_written(result_of(operation, &list, &other)?.as_slice(), made))
}

// What is asked of up to three lists.
#[derive(Clone, Copy)]
pub(crate) enum Question {
    ListsRows,
    IsEmpty,
    Tautology,
    // Of the one cube of the second list.
    HoldsCube,
    Intersects,
    // The third says where the others are free.
    Agrees,
}

// Question, inputs, outputs, the three lists and the answer.
type Answer = (
    Question,
    usize,
    usize,
    &'static [&'static str],
    &'static [&'static str],
    &'static [&'static str],
    bool,
);

const ANSWERS: [Answer; 13] = [
    (Question::ListsRows, 2, 1, &["1- 1", "01 1"], &[], &[], true),
    (Question::IsEmpty, 2, 1, &[], &[], &[], true),
    (Question::Tautology, 1, 2, &["- 10"], &[], &[], false),
    (Question::Tautology, 1, 2, &["- 10", "- 01"], &[], &[], true),
    (
        Question::HoldsCube,
        2,
        2,
        &THREE_ROWS,
        &["1- 01"],
        &[],
        false,
    ),
    (
        Question::HoldsCube,
        2,
        2,
        &THREE_ROWS,
        &["11 01"],
        &[],
        true,
    ),
    (
        Question::Intersects,
        2,
        2,
        &["11 10", "0- 01"],
        &["-1 01"],
        &[],
        true,
    ),
    (
        Question::Intersects,
        2,
        2,
        &["11 10", "0- 01"],
        &["1- 01", "0- 10", "10 11"],
        &[],
        false,
    ),
    (
        Question::Intersects,
        2,
        2,
        &["11 10", "0- 01"],
        &[],
        &[],
        false,
    ),
    (
        Question::Agrees,
        2,
        1,
        &["1- 1"],
        &["11 1", "10 1"],
        &[],
        true,
    ),
    (
        Question::Agrees,
        2,
        1,
        &["1- 1"],
        &["-1 1"],
        &["10 1", "01 1"],
        true,
    ),
    (
        Question::Agrees,
        2,
        1,
        &["1- 1"],
        &["-1 1"],
        &["10 1"],
        false,
    ),
    (Question::Agrees, 2, 1, &["1- 1"], &[], &[], false),
];

// Whether the list has two rows of two inputs, the second of them `01 1`.
fn lists_rows(list: &Cover) -> bool {
    match list.get(1) {
        Some(cube) => {
            let inputs = list.shape().inputs();
            let is_rest = list.get(2).is_none() && (inputs == 2 || inputs == MANY + 2);
            is_rest && list.len() == 2 && !list.is_empty() && is_written(cube, "01 1")
        }
        None => false,
    }
}

pub(crate) fn answer(
    question: Question,
    list: &Cover,
    other: &Cover,
    free: &Cover,
) -> Result<bool, AllocError>
    requires other { other.now.size ≡ list.now.size }
    requires free { free.now.size ≡ list.now.size }
{
    match question {
        Question::ListsRows => Ok(lists_rows(list)),
        Question::IsEmpty => Ok(list.is_empty()),
        Question::Tautology => list.tautology(),
        Question::HoldsCube => match other.get(0) {
            Some(cube) => list.holds_cube(cube),
            None => Ok(false),
        },
        Question::Intersects => list.intersects(other),
        Question::Agrees => agree_outside(list, other, free),
    }
}

// Whether the lists of the case answer its question so.
fn answers(alloc: Global, case: &Answer, before: usize) -> Result<bool, AllocError> {
    let (question, inputs, outputs, rows, others, frees, yes) = *case;
    let shape = new_shape(inputs.saturating_add(before), outputs)?;
    let list = cover_of(alloc, shape, rows)?;
    let other = cover_of(alloc, shape, others)?;
    let free = cover_of(alloc, shape, frees)?;
    Ok(answer(question, &list, &other, &free)? == yes)
}

#[test]
fn lists_make_lists_and_answer(rt: HostRuntime) -> Result<(), Fail> {
    for before in &BEFORE {
        for case in &MADE {
            assert!(rt; makes(rt.alloc(), case, *before)?);
        }
        for case in &ANSWERS {
            assert!(rt; answers(rt.alloc(), case, *before)?);
        }
    }
    Ok(())
}
