//! The meets of two lists, mostly without a look at each pair.
//!
//! Of rows in row order with equal symbols at the inputs before one, those with `-`, with `0` and
//! with `1` there stand one after the other. So both lists are cut in three at input after input,
//! and rows with other literals never come together. Lists in another order are met pair by pair,
//! and lists whose rows have literals at the same inputs by numbers of their symbols.
ghost use Rattle.std.specs.Prelude.{◌≡◌, ◌<◌, ◌≤◌, IfOk, IfSome, All, length, take, slice_index_or};
ghost use Rattle.cube.specs.Size.{Size};
ghost use Rattle.rows.specs.Cubes.{AreCubes};
ghost use Rattle.rows.specs.Reduced.{IsMeets, IsMeetsWithBoth, IsInThirds};

use crate::keys::{keys_of, literal_pairs, meets_by_keys};
use cube::{Cube, Shape, Symbol};
use rows::{has_symbol_at, meets_by_pairs, rows_of_both};
use std::alloc::{AllocError, Global};

// Lists of at most this many pairs are not cut further, but met pair by pair.
const FEW: usize = 64;

// Lists of at most this many pairs are met pair by pair at once: keys would cost more.
const FEWER: usize = 16;

// The rows with `-`, with `0` and with `1` at an input.
#[derive(Clone, Copy)]
struct Thirds<'a> {
    dashes: &'a [Cube],
    zeros: &'a [Cube],
    ones: &'a [Cube],
}

// How many rows at the front have this symbol at input `i`.
fn count_leading(rows: &[Cube], i: usize, symbol: Symbol) -> usize
    requires { All (λ c. i < length c.symbols) rows.now }
    ensures bound { result ≤ length rows.now }
    ensures symbol { All (λ c. slice_index_or c.symbols i Symbol.Dash ≡ symbol)
        (take result rows.now) }
{
    for at in 0..rows.len() {
        if !has_symbol_at(&rows[at], i, symbol) {
            return at;
        }
    }
    rows.len()
}

// The rows cut in three by their symbols at input `i`, if they stand in the order `-`, `0`, `1`.
fn cut_in_three<'a>(rows: &'a [Cube], i: usize) -> Option<Thirds<'a>>
    requires { All (λ c. i < length c.symbols) rows.now }
    ensures { IfSome result (λ t. (size : Size) → AreCubes size rows.now
        → IsInThirds size i rows.now t.dashes.now t.zeros.now t.ones.now) }
{
    let (dashes, rest) = rows.split_at(count_leading(rows, i, Symbol::Dash));
    let (zeros, ones) = rest.split_at(count_leading(rest, i, Symbol::Zero));
    if count_leading(ones, i, Symbol::One) < ones.len() {
        return None;
    }
    Some(Thirds {
        dashes,
        zeros,
        ones,
    })
}

/// The meets of a row of one list with a row of the other, of each pair that has a place in common.
/// They are in no order, and some may be equal.
pub fn meets(
    alloc: Global,
    shape: Shape,
    rows: &[Cube],
    others: &[Cube],
) -> Result<Vec<Cube>, AllocError>
    requires rows { AreCubes shape rows.now }
    requires others { AreCubes shape others.now }
    ensures { IfOk result (λ all. IsMeets shape rows.now others.now all.items) }
{
    if rows.len().saturating_mul(others.len()) <= FEWER {
        return meets_by_pairs(alloc, rows, others);
    }
    let inputs = match rows.first() {
        Some(first) => literal_pairs(first.order_key_of_32_inputs()),
        None => 0,
    };
    let Some(keys) = keys_of(alloc, rows, inputs)? else {
        return meets_by_thirds(alloc, shape, 0, rows, others);
    };
    let Some(other_keys) = keys_of(alloc, others, inputs)? else {
        return meets_by_thirds(alloc, shape, 0, rows, others);
    };
    meets_by_keys(alloc, rows, &keys, others, &other_keys)
}

// The meets of a row of each list. The lists are cut at the inputs from `at` on.
#[cycle(meets_by_thirds)]
fn meets_by_thirds(
    alloc: Global,
    shape: Shape,
    at: usize,
    rows: &[Cube],
    others: &[Cube],
) -> Result<Vec<Cube>, AllocError>
    requires rows { AreCubes shape rows.now }
    requires others { AreCubes shape others.now }
    ensures { IfOk result (λ all. IsMeets shape rows.now others.now all.items) }
{
    if rows.len().saturating_mul(others.len()) <= FEW || at >= shape.inputs() {
        return meets_by_pairs(alloc, rows, others);
    }
    let Some(mine) = cut_in_three(rows, at) else {
        return meets_by_pairs(alloc, rows, others);
    };
    let Some(theirs) = cut_in_three(others, at) else {
        return meets_by_pairs(alloc, rows, others);
    };
    let next = at + 1;
    let all = meets_with_both(alloc, shape, next, mine.dashes, theirs.dashes, theirs.zeros)?;
    let more = meets_by_thirds(alloc, shape, next, mine.dashes, theirs.ones)?;
    let all = rows_of_both(all, more)?;
    let more = meets_with_both(alloc, shape, next, mine.zeros, theirs.dashes, theirs.zeros)?;
    let all = rows_of_both(all, more)?;
    let more = meets_with_both(alloc, shape, next, mine.ones, theirs.dashes, theirs.ones)?;
    rows_of_both(all, more)
}

// The meets of the rows with one list, and then their meets with another.
#[cycle(meets_by_thirds)]
fn meets_with_both(
    alloc: Global,
    shape: Shape,
    at: usize,
    rows: &[Cube],
    others: &[Cube],
    more: &[Cube],
) -> Result<Vec<Cube>, AllocError>
    requires rows { AreCubes shape rows.now }
    requires others { AreCubes shape others.now }
    requires more { AreCubes shape more.now }
    ensures { IfOk result (λ all. IsMeetsWithBoth shape rows.now others.now more.now all.items) }
{
    let all = meets_by_thirds(alloc, shape, at, rows, others)?;
    let rest = meets_by_thirds(alloc, shape, at, rows, more)?;
    rows_of_both(all, rest)
}
