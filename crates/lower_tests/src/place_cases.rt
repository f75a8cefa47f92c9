//! What [`crate::places`] asks, and of which lists: small ones, long ones of 600 to 2,048 rows, and
//! wide ones of 70 inputs and outputs and of 300 inputs.
use crate::lists::{
    HALF, LONG, LONG_HALF, LONG_REST, NONE, REST, UNIVERSE, WIDE, WIDE_HALF, WIDE_REST,
};
use crate::places::{Case, Question, answers};
use crate::rules::{Rows, Rule};
use std::test::Fail;

const FREE: Rows = (Rule::Free, 0, 1);

const OUTSIDE: [Case; 12] = [
    (
        Question::Outside,
        2,
        1,
        (Rule::Stairs, 0, 2),
        NONE,
        (Rule::Zeros, 2, 3),
        true,
    ),
    (
        Question::Outside,
        2,
        1,
        (Rule::Stairs, 0, 2),
        NONE,
        UNIVERSE,
        false,
    ),
    (Question::Outside, 2, 3, UNIVERSE, NONE, NONE, true),
    (
        Question::Outside,
        11,
        2,
        (Rule::Points, 0, 600),
        NONE,
        (Rule::Points, 600, 2048),
        true,
    ),
    (
        Question::Outside,
        70,
        70,
        (Rule::Stairs, 0, 20),
        NONE,
        (Rule::Zeros, 20, 21),
        true,
    ),
    (
        Question::Outside,
        300,
        1,
        (Rule::Stairs, 0, 70),
        NONE,
        (Rule::Zeros, 70, 71),
        true,
    ),
    (
        Question::Subtract,
        2,
        1,
        UNIVERSE,
        (Rule::Zeros, 2, 3),
        (Rule::Stairs, 0, 2),
        true,
    ),
    (
        Question::Subtract,
        2,
        1,
        UNIVERSE,
        (Rule::Zeros, 2, 3),
        UNIVERSE,
        false,
    ),
    (
        Question::Subtract,
        11,
        1,
        (Rule::Halves, 0, 1000),
        (Rule::Points, 1000, 2048),
        (Rule::Points, 0, 1000),
        true,
    ),
    (
        Question::Subtract,
        70,
        70,
        (Rule::Stairs, 0, 70),
        (Rule::Zeros, 70, 71),
        (Rule::Stairs, 0, 70),
        true,
    ),
    (
        Question::Subtract,
        70,
        70,
        UNIVERSE,
        (Rule::Stairs, 0, 70),
        (Rule::Zeros, 70, 71),
        true,
    ),
    (
        Question::Subtract,
        300,
        1,
        UNIVERSE,
        (Rule::Stairs, 0, 70),
        (Rule::Zeros, 70, 71),
        true,
    ),
];

const CONTAINING: [Case; 12] = [
    (
        Question::Containing,
        2,
        1,
        (Rule::Stairs, 0, 2),
        (Rule::Zeros, 2, 3),
        NONE,
        true,
    ),
    (
        Question::Containing,
        11,
        1,
        (Rule::Halves, 0, 1024),
        (Rule::Points, 1401, 1402),
        (Rule::Halves, 700, 701),
        true,
    ),
    (
        Question::Containing,
        70,
        70,
        (Rule::Pairs, 0, 35),
        (Rule::Zeros, 60, 61),
        (Rule::Pairs, 0, 30),
        true,
    ),
    (
        Question::Containing,
        300,
        1,
        (Rule::Pairs, 0, 150),
        (Rule::Zeros, 300, 301),
        (Rule::Pairs, 0, 150),
        true,
    ),
    (
        Question::SumContaining,
        12,
        1,
        (Rule::Pairs, 0, 6),
        FREE,
        (Rule::Choices, 0, 64),
        true,
    ),
    (
        Question::SumContaining,
        70,
        70,
        (Rule::Pairs, 0, 35),
        FREE,
        (Rule::Choices, 0, 64),
        true,
    ),
    (
        Question::SumContaining,
        300,
        1,
        (Rule::Pairs, 0, 150),
        FREE,
        (Rule::Choices, 0, 64),
        true,
    ),
    (
        Question::SumContaining,
        300,
        1,
        (Rule::Stairs, 0, 300),
        (Rule::Zeros, 300, 301),
        (Rule::Zeros, 300, 301),
        true,
    ),
    (
        Question::SumContaining,
        11,
        2,
        (Rule::Points, 0, 2047),
        (Rule::Points, 2047, 2048),
        (Rule::Points, 2047, 2048),
        true,
    ),
    (
        Question::RowOrder,
        11,
        1,
        (Rule::Backwards, 0, 2048),
        (Rule::Points, 0, 1000),
        (Rule::Points, 0, 2048),
        true,
    ),
    (
        Question::RowOrder,
        70,
        70,
        (Rule::Backwards, 1000, 2048),
        (Rule::Points, 0, 1000),
        (Rule::Points, 0, 1048),
        true,
    ),
    (
        Question::RowOrder,
        300,
        1,
        (Rule::Backwards, 1348, 2048),
        NONE,
        (Rule::Points, 0, 700),
        true,
    ),
];

const WITHIN: [Case; 9] = [
    (
        Question::Within,
        11,
        1,
        (Rule::Points, 0, 2000),
        (Rule::Halves, 0, 500),
        (Rule::Points, 1000, 2000),
        true,
    ),
    (
        Question::Within,
        11,
        1,
        (Rule::Points, 0, 2000),
        (Rule::Halves, 0, 500),
        (Rule::Points, 1001, 2000),
        false,
    ),
    (
        Question::Within,
        70,
        70,
        (Rule::Points, 0, 2000),
        NONE,
        (Rule::Halves, 0, 1000),
        true,
    ),
    (
        Question::Within,
        300,
        1,
        (Rule::Points, 0, 2000),
        NONE,
        (Rule::Halves, 1, 1000),
        false,
    ),
    (
        Question::MeetsWithin,
        11,
        1,
        (Rule::Points, 500, 1500),
        (Rule::Points, 1000, 2000),
        (Rule::Halves, 500, 750),
        true,
    ),
    (
        Question::MeetsWithin,
        11,
        1,
        (Rule::Points, 500, 1500),
        (Rule::Points, 1000, 2000),
        (Rule::Halves, 501, 750),
        false,
    ),
    (
        Question::MeetsWithin,
        70,
        70,
        (Rule::Points, 0, 1000),
        (Rule::Points, 1000, 2000),
        NONE,
        true,
    ),
    (
        Question::MeetsWithin,
        70,
        70,
        UNIVERSE,
        (Rule::Zeros, 70, 71),
        (Rule::Pairs, 0, 35),
        true,
    ),
    (
        Question::MeetsWithin,
        300,
        1,
        (Rule::Halves, 0, 1000),
        (Rule::Points, 1000, 2000),
        (Rule::Halves, 500, 999),
        false,
    ),
];

// A row of each half.
const LONG_ROW: Rows = (Rule::Points, 1234, 1235);

const WIDE_ROW: Rows = (Rule::Front, 1234, 1235);

const LONG_PLACES: [Case; 9] = [
    (Question::Outside, 16, 1, LONG_HALF, NONE, REST, true),
    (Question::Subtract, 16, 1, LONG, LONG_HALF, REST, true),
    (Question::Containing, 16, 1, LONG, LONG_ROW, LONG_ROW, true),
    (
        Question::SumContaining,
        16,
        1,
        LONG_REST,
        LONG_ROW,
        HALF,
        true,
    ),
    (Question::RowOrder, 16, 1, LONG_REST, LONG_HALF, LONG, true),
    (Question::Within, 16, 1, LONG, LONG_HALF, REST, true),
    (Question::Within, 16, 1, LONG, LONG_HALF, HALF, false),
    (Question::MeetsWithin, 16, 1, LONG, HALF, HALF, true),
    (
        Question::MeetsWithin,
        16,
        1,
        UNIVERSE,
        LONG_HALF,
        REST,
        false,
    ),
];

const WIDE_PLACES: [Case; 9] = [
    (Question::Outside, 1024, 1024, HALF, NONE, REST, true),
    (Question::Subtract, 1024, 1024, WIDE, WIDE_HALF, REST, true),
    (
        Question::Containing,
        1024,
        1024,
        WIDE,
        WIDE_ROW,
        WIDE_ROW,
        true,
    ),
    (
        Question::SumContaining,
        1024,
        1024,
        WIDE_REST,
        WIDE_ROW,
        HALF,
        true,
    ),
    (
        Question::RowOrder,
        1024,
        1024,
        WIDE_REST,
        WIDE_HALF,
        WIDE,
        true,
    ),
    (Question::Within, 1024, 1024, WIDE, WIDE_HALF, REST, true),
    (Question::Within, 1024, 1024, WIDE, WIDE_HALF, HALF, false),
    (
        Question::MeetsWithin,
        1024,
        1024,
        WIDE,
        WIDE_HALF,
        HALF,
        true,
    ),
    (
        Question::MeetsWithin,
        1024,
        1024,
        WIDE,
        WIDE_HALF,
        REST,
        false,
    ),
];

// Of places outside, of cubes of a region, and of lists within others.
const TABLES: [&[Case]; 5] = [&OUTSIDE, &CONTAINING, &WITHIN, &LONG_PLACES, &WIDE_PLACES];

#[test]
fn places_are_found(rt: HostRuntime) -> Result<(), Fail> {
    for cases in &TABLES {
        for case in *cases {
            assert!(rt; answers(rt.alloc(), case)?);
        }
    }
    Ok(())
}
