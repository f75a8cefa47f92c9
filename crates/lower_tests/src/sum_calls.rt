//! Each public call of `sums`, on small, long and wide lists.
ghost use Rattle.std.specs.Prelude.{◌≡◌};

use crate::lists::{
    HALF, LONG, LONG_HALF, LONG_REST, NONE, REST, Size, UNIVERSE, WIDE, WIDE_HALF, WIDE_REST,
    copies_of, first_of, shape_of,
};
use crate::rules::{Rows, Rule, are_rows, list_of};
use cover::Cover;
use cube::{Cube, Shape};
use std::alloc::{AllocError, Global};
use std::test::Fail;
use sums::{largest_containing, rows_containing, sum_of_both, sum_of_difference};

// More cubes than any answer has.
const MOST: usize = 3000;

#[derive(Clone, Copy)]
enum Call {
    Difference,
    Both,
    // Of the places outside the rows, what contains the first of the others.
    Largest,
    // The rows that contain the first of the others.
    Containing,
}

// A call on two lists, and the rows of its answer.
#[derive(Clone, Copy)]
struct Case {
    call: Call,
    size: Size,
    rows: Rows,
    others: Rows,
    answer: Rows,
}

const CASES: [Case; 16] = [
    Case {
        call: Call::Difference,
        size: Size::Small,
        rows: (Rule::Points, 0, 4),
        others: HALF,
        answer: REST,
    },
    Case {
        call: Call::Difference,
        size: Size::Small,
        rows: HALF,
        others: HALF,
        answer: NONE,
    },
    Case {
        call: Call::Difference,
        size: Size::Long,
        rows: LONG,
        others: LONG_HALF,
        answer: REST,
    },
    Case {
        call: Call::Difference,
        size: Size::Wide,
        rows: WIDE,
        others: WIDE_HALF,
        answer: REST,
    },
    Case {
        call: Call::Both,
        size: Size::Small,
        rows: (Rule::Points, 0, 3),
        others: HALF,
        answer: HALF,
    },
    Case {
        call: Call::Both,
        size: Size::Small,
        rows: HALF,
        others: REST,
        answer: NONE,
    },
    Case {
        call: Call::Both,
        size: Size::Long,
        rows: LONG_HALF,
        others: LONG,
        answer: HALF,
    },
    Case {
        call: Call::Both,
        size: Size::Wide,
        rows: WIDE_HALF,
        others: WIDE,
        answer: HALF,
    },
    Case {
        call: Call::Largest,
        size: Size::Small,
        rows: HALF,
        others: (Rule::Points, 2, 3),
        answer: REST,
    },
    Case {
        call: Call::Largest,
        size: Size::Long,
        rows: LONG_REST,
        others: (Rule::Points, 1234, 1235),
        answer: HALF,
    },
    Case {
        call: Call::Largest,
        size: Size::Wide,
        rows: WIDE_REST,
        others: (Rule::Front, 1234, 1235),
        answer: HALF,
    },
    Case {
        call: Call::Largest,
        size: Size::Odd,
        rows: (Rule::Pairs, 0, 150),
        others: (Rule::Free, 0, 1),
        answer: (Rule::Choices, 0, 64),
    },
    Case {
        call: Call::Containing,
        size: Size::Small,
        rows: UNIVERSE,
        others: HALF,
        answer: UNIVERSE,
    },
    Case {
        call: Call::Containing,
        size: Size::Small,
        rows: HALF,
        others: UNIVERSE,
        answer: NONE,
    },
    Case {
        call: Call::Containing,
        size: Size::Long,
        rows: LONG,
        others: (Rule::Points, 1234, 1235),
        answer: (Rule::Points, 1234, 1235),
    },
    Case {
        call: Call::Containing,
        size: Size::Wide,
        rows: WIDE,
        others: (Rule::Front, 1234, 1235),
        answer: (Rule::Front, 1234, 1235),
    },
];

// What a call makes of copies of two lists.
fn sum_of_copies(
    alloc: Global,
    call: Call,
    shape: Shape,
    list: &Cover,
    others: &Cover,
) -> Result<Vec<Cube>, AllocError>
    requires rows { list.now.size ≡ shape }
    requires others { others.now.size ≡ shape }
{
    let mine = copies_of(alloc, list)?;
    let theirs = copies_of(alloc, others)?;
    match call {
        Call::Both => sum_of_both(alloc, shape, mine, theirs),
        _ => sum_of_difference(alloc, shape, mine, theirs),
    }
}

// What contains the first of the others, of the places outside the list.
fn largest(
    alloc: Global,
    shape: Shape,
    list: &Cover,
    others: &Cover,
) -> Result<Vec<Cube>, AllocError>
    requires rows { list.now.size ≡ shape }
    requires others { others.now.size ≡ shape }
{
    let region = first_of(others)?;
    let sum = largest_containing(alloc, shape, region, list.as_slice(), MOST)?;
    sum.ok_or(AllocError)
}

// What the call makes of two lists.
fn answer_of(
    alloc: Global,
    call: Call,
    shape: Shape,
    list: &Cover,
    others: &Cover,
) -> Result<Vec<Cube>, AllocError>
    requires rows { list.now.size ≡ shape }
    requires others { others.now.size ≡ shape }
{
    match call {
        Call::Difference | Call::Both => sum_of_copies(alloc, call, shape, list, others),
        Call::Largest => largest(alloc, shape, list, others),
        Call::Containing => Ok(rows_containing(alloc, first_of(others)?, list.as_slice())?),
    }
}

// Whether the call answers the rows of the case.
fn is_answered(alloc: Global, case: Case) -> Result<bool, AllocError> {
    let shape = shape_of(case.size)?;
    let list = list_of(alloc, shape, case.rows)?;
    let others = list_of(alloc, shape, case.others)?;
    let made = answer_of(alloc, case.call, shape, &list, &others)?;
    Ok(are_rows(made.as_slice(), case.answer))
}

#[test]
fn sums_are_answered(rt: HostRuntime) -> Result<(), Fail> {
    for case in &CASES {
        assert!(rt; is_answered(rt.alloc(), *case)?);
    }
    Ok(())
}
