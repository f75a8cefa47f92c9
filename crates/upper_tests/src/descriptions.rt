//! The answers for descriptions by rule, which are certain by how these are made.
use crate::rules::{Outputs, Rows, Rule, add_rows, has_rows};
use crate::tables::read;
use cover::{Budget, Cover, subtract};
use minimum::{
    Choice, essential, essential_of_pla, exact, exact_of_pla, find_essential,
    find_essential_outside, primes, primes_of_pla,
};
use pla::{Pla, Sets};
use std::alloc::{AllocError, Global};
use std::test::Fail;

// What is asked for.
#[derive(Clone, Copy)]
pub(crate) enum Call {
    Primes,
    Essential,
    Exact(Choice),
    // From sets, whose DC list is made.
    OfSets,
    ExactOfSets(Choice),
    // From the ON list and the OFF list.
    Outside,
    // From sets, by a list of all primes.
    OfPrimes,
    // From the wanted places and those outside ON-set and DC-set.
    OutsideSets,
}

fn essential_of_primes(alloc: Global, sets: &Sets) -> Result<Cover, AllocError> {
    let all = primes(sets)?;
    essential(alloc, sets, &all)
}

const AMPLE: Budget = Budget {
    cubes: usize::MAX,
    rows: usize::MAX,
};

fn essential_outside(alloc: Global, sets: &Sets) -> Result<Cover, AllocError> {
    let (on, dc) = (sets.on(), sets.dc());
    let Some(wanted) = subtract(on, dc, AMPLE)? else {
        return Err(AllocError);
    };
    let mut inside = on.try_clone()?;
    inside.append(dc)?;
    find_essential_outside(alloc, &wanted, &inside.complement()?)
}

pub(crate) fn answer(alloc: Global, call: Call, pla: &Pla) -> Result<Cover, AllocError> {
    match call {
        Call::Primes => primes_of_pla(alloc, pla),
        Call::Essential => essential_of_pla(alloc, pla),
        Call::Exact(choice) => exact_of_pla(alloc, pla, choice),
        Call::OfSets => find_essential(alloc, &pla::sets(alloc, pla, true, false)?),
        Call::ExactOfSets(choice) => exact(alloc, &pla::sets(alloc, pla, true, false)?, choice),
        Call::Outside => find_essential_outside(alloc, pla.on(), pla.off()),
        Call::OfPrimes => essential_of_primes(alloc, &pla::sets(alloc, pla, true, false)?),
        Call::OutsideSets => essential_outside(alloc, &pla::sets(alloc, pla, true, false)?),
    }
}

pub(crate) const FIRST: Choice = Choice::First;

pub(crate) const LITERALS: Choice = Choice::Literals;

pub(crate) const ALL: &[Call] = &[
    Call::Primes,
    Call::Essential,
    Call::Exact(FIRST),
    Call::Exact(LITERALS),
    Call::OfSets,
    Call::ExactOfSets(FIRST),
    Call::ExactOfSets(LITERALS),
];
// No DC list is made.
pub(crate) const SAMPLED: &[Call] = &[
    Call::Primes,
    Call::Essential,
    Call::Exact(FIRST),
    Call::Exact(LITERALS),
];
// Not all primes, of which there are two to the power of the pairs.
pub(crate) const ESSENTIAL: &[Call] = &[Call::Essential, Call::Exact(FIRST), Call::Exact(LITERALS)];

pub(crate) const LISTED: &[Call] = &[Call::Primes];

pub(crate) const NO_PRIMES: &[Call] = &[Call::Essential, Call::OfSets];

pub(crate) const LEAST_OF: &[Call] = &[
    Call::Exact(FIRST),
    Call::Exact(LITERALS),
    Call::ExactOfSets(FIRST),
];

pub(crate) const OUTSIDE: &[Call] = &[Call::Outside];

// The head of a file, inputs, outputs and which of them rows have, the rows, the calls and the rows
// that they answer.
pub(crate) type Case = (
    &'static [u8],
    usize,
    usize,
    Outputs,
    &'static [Rows],
    &'static [Call],
    Rule,
    usize,
);

// The answer to a call.
pub(crate) fn answers(alloc: Global, case: &Case) -> Result<bool, Fail> {
    let (head, inputs, outputs, which, rows, calls, rule, count) = *case;
    let mut text = head.to_vec(alloc)?;
    for some in rows {
        add_rows(&mut text, (inputs, outputs, which), *some)?;
    }
    let pla = read(alloc, &text)?;
    all_answer(alloc, &pla, which, calls, rule, count)
}

// Whether each call answers these rows.
fn all_answer(
    alloc: Global,
    pla: &Pla,
    which: Outputs,
    calls: &[Call],
    rule: Rule,
    count: usize,
) -> Result<bool, Fail> {
    for call in calls {
        if !has_rows(&answer(alloc, *call, pla)?, which, rule, count) {
            return Ok(false);
        }
    }
    Ok(true)
}
