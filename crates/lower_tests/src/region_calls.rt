//! Each public call of `regions`, on small, long and wide lists.
ghost use Rattle.std.specs.Prelude.{◌≡◌};

use crate::lists::{
    HALF, LONG, LONG_HALF, LONG_REST, NONE, REST, Size, UNIVERSE, WIDE, WIDE_HALF, WIDE_REST,
    first_of, references_to, shape_of,
};
use crate::rules::{Rows, Rule, are_rows, list_of};
use cover::Cover;
use cube::Cube;
use regions::{
    Relation, are_disjoint, are_meets_held_by_halves, are_related, part_left_out,
    part_left_out_of_each, rows_not_among,
};
use rows::clone_referents;
use std::alloc::{AllocError, Global};
use std::test::Fail;

#[derive(Clone, Copy)]
enum Question {
    // Whether the rows hold the first of the others.
    HoldsFirst,
    // Whether the rows hold each of the others, one by one.
    HoldsEach,
    // Whether the others hold all rows.
    Contained,
    // Whether the lists have no place in common, in two ways.
    Disjoint,
    // Whether the others hold what the rows have in common with themselves.
    MeetsHeld,
    // Whether none of the rows stands among the others.
    NotAmong,
}

// A question about two lists, and its answer.
#[derive(Clone, Copy)]
struct Case {
    question: Question,
    size: Size,
    rows: Rows,
    others: Rows,
    answer: bool,
}

const CASES: [Case; 29] = [
    Case {
        question: Question::HoldsFirst,
        size: Size::Small,
        rows: (Rule::Points, 0, 2),
        others: HALF,
        answer: true,
    },
    Case {
        question: Question::HoldsFirst,
        size: Size::Small,
        rows: NONE,
        others: HALF,
        answer: false,
    },
    Case {
        question: Question::HoldsFirst,
        size: Size::Long,
        rows: LONG_HALF,
        others: HALF,
        answer: true,
    },
    Case {
        question: Question::HoldsFirst,
        size: Size::Long,
        rows: LONG_HALF,
        others: UNIVERSE,
        answer: false,
    },
    Case {
        question: Question::HoldsFirst,
        size: Size::Wide,
        rows: WIDE_HALF,
        others: HALF,
        answer: true,
    },
    Case {
        question: Question::HoldsFirst,
        size: Size::Wide,
        rows: WIDE_HALF,
        others: UNIVERSE,
        answer: false,
    },
    Case {
        question: Question::HoldsEach,
        size: Size::Small,
        rows: HALF,
        others: (Rule::Points, 0, 2),
        answer: true,
    },
    Case {
        question: Question::HoldsEach,
        size: Size::Small,
        rows: HALF,
        others: (Rule::Points, 0, 3),
        answer: false,
    },
    Case {
        question: Question::HoldsEach,
        size: Size::Long,
        rows: HALF,
        others: LONG_HALF,
        answer: true,
    },
    Case {
        question: Question::HoldsEach,
        size: Size::Long,
        rows: LONG_HALF,
        others: (Rule::Points, 32_000, 32_769),
        answer: false,
    },
    Case {
        question: Question::HoldsEach,
        size: Size::Wide,
        rows: WIDE_HALF,
        others: WIDE_HALF,
        answer: true,
    },
    Case {
        question: Question::HoldsEach,
        size: Size::Wide,
        rows: HALF,
        others: WIDE,
        answer: false,
    },
    Case {
        question: Question::Contained,
        size: Size::Small,
        rows: (Rule::Points, 0, 2),
        others: HALF,
        answer: true,
    },
    Case {
        question: Question::Contained,
        size: Size::Small,
        rows: (Rule::Points, 0, 3),
        others: HALF,
        answer: false,
    },
    Case {
        question: Question::Contained,
        size: Size::Long,
        rows: LONG_HALF,
        others: LONG,
        answer: true,
    },
    Case {
        question: Question::Contained,
        size: Size::Long,
        rows: LONG,
        others: LONG_HALF,
        answer: false,
    },
    Case {
        question: Question::Contained,
        size: Size::Wide,
        rows: WIDE_REST,
        others: WIDE,
        answer: true,
    },
    Case {
        question: Question::Contained,
        size: Size::Wide,
        rows: WIDE,
        others: WIDE_REST,
        answer: false,
    },
    Case {
        question: Question::Disjoint,
        size: Size::Small,
        rows: HALF,
        others: REST,
        answer: true,
    },
    Case {
        question: Question::Disjoint,
        size: Size::Small,
        rows: HALF,
        others: UNIVERSE,
        answer: false,
    },
    Case {
        question: Question::Disjoint,
        size: Size::Long,
        rows: LONG_HALF,
        others: LONG_REST,
        answer: true,
    },
    Case {
        question: Question::Disjoint,
        size: Size::Long,
        rows: LONG,
        others: (Rule::Points, 65_535, 65_536),
        answer: false,
    },
    Case {
        question: Question::Disjoint,
        size: Size::Wide,
        rows: WIDE_HALF,
        others: WIDE_REST,
        answer: true,
    },
    Case {
        question: Question::Disjoint,
        size: Size::Wide,
        rows: WIDE,
        others: WIDE_REST,
        answer: false,
    },
    Case {
        question: Question::MeetsHeld,
        size: Size::Small,
        rows: (Rule::Points, 0, 3),
        others: HALF,
        answer: false,
    },
    Case {
        question: Question::MeetsHeld,
        size: Size::Long,
        rows: (Rule::Points, 0, 1000),
        others: LONG_HALF,
        answer: true,
    },
    Case {
        question: Question::MeetsHeld,
        size: Size::Wide,
        rows: (Rule::Front, 4000, 4100),
        others: WIDE_HALF,
        answer: false,
    },
    Case {
        question: Question::NotAmong,
        size: Size::Long,
        rows: LONG_HALF,
        others: LONG_REST,
        answer: true,
    },
    Case {
        question: Question::NotAmong,
        size: Size::Wide,
        rows: WIDE_HALF,
        others: WIDE,
        answer: false,
    },
];

// Whether no part of the region is left out. Fails where one that is left out is no part of it.
fn is_none_left_out(region: &Cube, part: &Option<Cube>) -> Result<bool, AllocError> {
    match part {
        Some(part) => {
            let is_part = region.shape() == part.shape() && part.literals() >= region.literals();
            if !is_part {
                return Err(AllocError);
            }
            Ok(false)
        }
        None => Ok(true),
    }
}

// Whether the rows hold the first of the others. Fails where the part that they leave out is none.
fn holds_first(alloc: Global, list: &Cover, others: &Cover) -> Result<bool, AllocError>
    requires { others.now.size ≡ list.now.size }
{
    let region = first_of(others)?;
    let rows = references_to(alloc, list)?;
    let part = part_left_out(alloc, &rows, region)?;
    is_none_left_out(region, &part)
}

// Whether there are so many parts, none of which is left out. Fails where there are others.
fn are_none(parts: &[Option<Cube>], count: usize) -> Result<bool, AllocError> {
    if parts.len() != count {
        return Err(AllocError);
    }
    for part in parts {
        if part.is_some() {
            return Ok(false);
        }
    }
    Ok(true)
}

// Whether the rows hold each of the others, which are as many as the answers.
fn holds_each(alloc: Global, list: &Cover, others: &Cover) -> Result<bool, AllocError>
    requires { others.now.size ≡ list.now.size }
{
    let rows = references_to(alloc, list)?;
    let parts = part_left_out_of_each(alloc, list.shape(), &rows, others.as_slice())?;
    are_none(&parts, others.len())
}

// Whether the relation holds, with as many splits as there are inputs and without any.
fn is_related(
    alloc: Global,
    relation: Relation,
    list: &Cover,
    others: &Cover,
) -> Result<bool, AllocError>
    requires { others.now.size ≡ list.now.size }
{
    let rows = references_to(alloc, list)?;
    let all = references_to(alloc, others)?;
    let shape = list.shape();
    are_related(alloc, shape, relation, shape.inputs(), &rows, &all)
}

// Whether the lists have no place in common. Fails where the two calls differ.
fn have_no_common_place(alloc: Global, list: &Cover, others: &Cover) -> Result<bool, AllocError>
    requires { others.now.size ≡ list.now.size }
{
    let apart = are_disjoint(alloc, list.shape(), list.as_slice(), others.as_slice())?;
    if is_related(alloc, Relation::Disjoint, list, others)? != apart {
        return Err(AllocError);
    }
    Ok(apart)
}

fn meets_are_held(alloc: Global, list: &Cover, others: &Cover) -> Result<bool, AllocError>
    requires { others.now.size ≡ list.now.size }
{
    let all = references_to(alloc, others)?;
    let rows = list.as_slice();
    are_meets_held_by_halves(alloc, list.shape(), rows, rows, &all)
}

// The rows that are not among the others.
fn not_among(alloc: Global, list: &Cover, others: &Cover) -> Result<Vec<Cube>, AllocError> {
    let rows = references_to(alloc, list)?;
    let all = references_to(alloc, others)?;
    let rest = rows_not_among(alloc, list.shape(), &rows, &all)?;
    clone_referents(alloc, &rest)
}

fn answer_of(alloc: Global, case: Case, list: &Cover, others: &Cover) -> Result<bool, AllocError>
    requires { others.now.size ≡ list.now.size }
{
    match case.question {
        Question::HoldsFirst => holds_first(alloc, list, others),
        Question::HoldsEach => holds_each(alloc, list, others),
        Question::Contained => is_related(alloc, Relation::Contained, list, others),
        Question::Disjoint => have_no_common_place(alloc, list, others),
        Question::MeetsHeld => meets_are_held(alloc, list, others),
        Question::NotAmong => Ok(are_rows(not_among(alloc, list, others)?.as_slice(), case.rows)),
    }
}

// Whether the lists of the case answer its question so.
fn is_answered(alloc: Global, case: Case) -> Result<bool, AllocError> {
    let shape = shape_of(case.size)?;
    let list = list_of(alloc, shape, case.rows)?;
    let others = list_of(alloc, shape, case.others)?;
    Ok(answer_of(alloc, case, &list, &others)? == case.answer)
}

#[test]
fn questions_about_regions_are_answered(rt: HostRuntime) -> Result<(), Fail> {
    for case in &CASES {
        assert!(rt; is_answered(rt.alloc(), *case)?);
    }
    Ok(())
}
