//! Places outside, inside and in common, asked for by the calls that list them.
ghost use Rattle.std.specs.Prelude.{◌≡◌};

use crate::row_texts::new_shape;
use crate::rules::{Rows, has_rows, list_of};
use cover::{
    Budget, Cover, agree_outside, are_meets_within_either, cubes_containing, in_row_order,
    is_within_either, outside, subtract, sum_containing,
};
use std::alloc::{AllocError, Global};

// What is asked of up to three lists.
#[derive(Clone, Copy)]
pub(crate) enum Question {
    // Whether the places outside the first are those of the third, and what exceeds a budget is
    // refused.
    Outside,
    // Whether the first without the second has the places of the third.
    Subtract,
    // Whether just the third's rows of the first contain the second's only row.
    Containing,
    // Whether the third's rows are the largest that contain this row and miss the first, and where
    // they are several, one is not enough.
    SumContaining,
    // Whether the first and the second are the third, in order.
    RowOrder,
    // Whether the first is in the second or the third.
    Within,
    // Whether what the first has in common with the second is in the third.
    MeetsWithin,
}

// Question, inputs, outputs, the three lists and the answer.
pub(crate) type Case = (Question, usize, usize, Rows, Rows, Rows, bool);

// More cubes than any answer has.
const MOST: usize = 3000;

// More than any answer takes.
const AMPLE: Budget = Budget {
    cubes: MOST,
    rows: 10_000_000,
};

const NO_CUBES: Budget = Budget {
    cubes: 0,
    rows: 10_000_000,
};

const NO_ROWS: Budget = Budget {
    cubes: MOST,
    rows: 0,
};

// Whether the lists have the same places.
fn agree(alloc: Global, list: &Cover, other: &Cover) -> Result<bool, AllocError>
    requires { other.now.size ≡ list.now.size }
{
    agree_outside(list, other, &Cover::new(alloc, list.shape()))
}

// Whether some cubes outside the list are found, with the places of the rest; not where no cube is
// allowed, and not where no row of some may be looked at.
fn outside_is(alloc: Global, list: &Cover, rest: &Cover) -> Result<bool, AllocError>
    requires { rest.now.size ≡ list.now.size }
{
    let none = outside(list, NO_CUBES)?;
    let unseen = outside(list, NO_ROWS)?;
    match outside(list, AMPLE)? {
        Some(off) => Ok(
            none.is_none() != off.is_empty()
                && unseen.is_none() != list.is_empty()
                && agree(alloc, &off, rest)?,
        ),
        None => Ok(false),
    }
}

fn subtract_is(alloc: Global, list: &Cover, other: &Cover, rest: &Cover) -> Result<bool, AllocError>
    requires other { other.now.size ≡ list.now.size }
    requires rest { rest.now.size ≡ list.now.size }
{
    match subtract(list, other, AMPLE)? {
        Some(left) => agree(alloc, &left, rest),
        None => Ok(false),
    }
}

// Whether the cubes of the list that contain the first region are just these rows, in their order;
// `false` if there is no region.
fn containing_is(list: &Cover, regions: &Cover, rows: Rows) -> Result<bool, AllocError>
    requires { regions.now.size ≡ list.now.size }
{
    match regions.get(0) {
        Some(region) => Ok(has_rows(&cubes_containing(region, list)?, rows)),
        None => Ok(false),
    }
}

// Whether these rows are found, and one alone where there is no other.
fn sum_is(off: &Cover, regions: &Cover, rows: Rows) -> Result<bool, AllocError>
    requires { regions.now.size ≡ off.now.size }
{
    let Some(region) = regions.get(0) else {
        return Ok(false);
    };
    let one = sum_containing(region, off, 1)?;
    match sum_containing(region, off, MOST)? {
        Some(sum) => Ok(one.is_some() == (sum.len() <= 1) && has_rows(&sum, rows)),
        None => Ok(false),
    }
}

fn order_is(list: &Cover, other: &Cover, rows: Rows) -> Result<bool, AllocError>
    requires { other.now.size ≡ list.now.size }
{
    let mut all = list.try_clone()?;
    all.append(other)?;
    Ok(has_rows(&in_row_order(&all)?, rows))
}

// Whether the meets are in the other list. It is asked for once as it is and once as free places.
fn meets_are_within(
    alloc: Global,
    list: &Cover,
    mask: &Cover,
    other: &Cover,
) -> Result<bool, AllocError>
    requires mask { mask.now.size ≡ list.now.size }
    requires other { other.now.size ≡ list.now.size }
{
    let none = Cover::new(alloc, list.shape());
    let is_held = are_meets_within_either(list, mask, other, &none)?;
    if are_meets_within_either(list, mask, &none, other)? != is_held {
        return Err(AllocError);
    }
    Ok(is_held)
}

fn answer(
    alloc: Global,
    question: Question,
    list: &Cover,
    other: &Cover,
    third: &Cover,
    rows: Rows,
) -> Result<bool, AllocError>
    requires other { other.now.size ≡ list.now.size }
    requires third { third.now.size ≡ list.now.size }
{
    match question {
        Question::Outside => outside_is(alloc, list, third),
        Question::Subtract => subtract_is(alloc, list, other, third),
        Question::Containing => containing_is(list, other, rows),
        Question::SumContaining => sum_is(list, other, rows),
        Question::RowOrder => order_is(list, other, rows),
        Question::Within => is_within_either(list, other, third),
        Question::MeetsWithin => meets_are_within(alloc, list, other, third),
    }
}

// Whether the lists of the case answer its question so.
pub(crate) fn answers(alloc: Global, case: &Case) -> Result<bool, AllocError> {
    let (question, inputs, outputs, first, second, third, yes) = *case;
    let shape = new_shape(inputs, outputs)?;
    let list = list_of(alloc, shape, first)?;
    let other = list_of(alloc, shape, second)?;
    let rest = list_of(alloc, shape, third)?;
    Ok(answer(alloc, question, &list, &other, &rest, third)? == yes)
}
