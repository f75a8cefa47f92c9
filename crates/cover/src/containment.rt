//! A list without its contained cubes (`contain`).
//!
//! The indices of the cubes are split three ways by the symbol at an input: a cube with `0` there
//! lies only in cubes with `0` or `-`, one with `1` only in those with `1` or `-`, and one with `-`
//! only in those with `-`. Each part is split at the next input until it is small; the pairs that
//! are left are looked at one by one. The inputs with most literals on either side come first. For
//! rows that have literals at many inputs, the pairs that are looked at are far fewer than all.
ghost use Rattle.std.specs.Prelude.{◌≡◌, ℕ, ◌<◌, true, false, IfOk, OnOk, length, slice_index_or, All, filter};
ghost use Rattle.std.specs.List.{list_any, range_with_len};
ghost use Rattle.rows.specs.Contained.{contained, is_within as is_within_of};
ghost use Rattle.rows.specs.Cubes.{AreCubes};
ghost use Rattle.rows.specs.Marks.{cube_at, is_contained_at, is_absorbed_by, symbol_at, is_symbol, is_over, Marks, MarksPart};

use crate::list::Cover;
use cube::Symbol;
use rows::{LiteralCounts, is_same_symbol, references_to_cubes, symbol_contains};
use std::alloc::{AllocError, Global};

// Parts of at most this many cubes are not split: a look at their pairs costs no more.
const SMALL: usize = 8;

// Whether the cube at `k` lies in that at `j`.
fn is_within(list: &Cover, k: usize, j: usize) -> bool
    requires k { k < length list.now.cubes }
    requires j { j < length list.now.cubes }
    ensures { result
        ≡ is_within_of list.now.size (cube_at list.now.cubes k) (cube_at list.now.cubes j) }
{
    let cubes = list.as_slice();
    cubes[j].contains(&cubes[k])
}

// Whether the cube at `k` is absorbed by that at `j`: it lies in it, and `j` is earlier or its cube
// is not equal.
fn is_absorbed_by_one(list: &Cover, k: usize, j: usize) -> bool
    requires k { k < length list.now.cubes }
    requires j { j < length list.now.cubes }
    ensures { result ≡ is_absorbed_by list.now.size list.now.cubes k j }
{
    is_within(list, k, j) && (j < k || (k < j && !is_within(list, j, k)))
}

// Whether the cube at `k` is absorbed by the cube at one of the indices `outer`.
fn is_absorbed_by_some(list: &Cover, k: usize, outer: &[usize]) -> bool
    requires k { k < length list.now.cubes }
    requires outer { All (λ j. j < length list.now.cubes) outer.now }
    ensures { result ≡ list_any (is_absorbed_by list.now.size list.now.cubes k) outer.now }
{
    outer.iter().any(|j| is_absorbed_by_one(list, k, *j))
}

// Marks the indices of `inner` whose cubes are absorbed by cubes of `outer`, by a look at each
// pair. Other marks stay.
fn mark_absorbed_by_pairs(list: &Cover, inner: &[usize], outer: &[usize], marks: &mut [bool])
    requires inner { All (λ k. k < length list.now.cubes) inner.now }
    requires outer { All (λ j. j < length list.now.cubes) outer.now }
    requires marks { length marks.old ≡ length list.now.cubes }
    ensures { Marks list.now.size list.now.cubes inner.now outer.now marks.old marks.new }
{
    for k in inner {
        if is_absorbed_by_some(list, *k, outer) {
            marks[*k] = true;
        }
    }
}

// The symbol at input `i` of the cube at `k`.
fn symbol_of_cube(list: &Cover, i: usize, k: usize) -> Symbol
    requires k { k < length list.now.cubes }
    requires input { i < list.now.size.inputs }
    ensures { result ≡ symbol_at list.now.cubes i k }
{
    list.as_slice()[k].symbol(i)
}

// Those of the indices whose cubes have this symbol at input `i`.
fn indices_with_symbol(
    alloc: Global,
    list: &Cover,
    indices: &[usize],
    i: usize,
    symbol: Symbol,
) -> Result<Vec<usize>, AllocError>
    requires indices { All (λ k. k < length list.now.cubes) indices.now }
    requires input { i < list.now.size.inputs }
    ensures { IfOk result
        (λ kept. kept.items
        ≡ filter (λ k. is_symbol (symbol_at list.now.cubes i k) symbol) indices.now) }
{
    let mut kept = Vec::new(alloc);
    for k in indices {
        if is_same_symbol(symbol_of_cube(list, i, *k), symbol) {
            kept.push(*k)?;
        }
    }
    Ok(kept)
}

// Those of the indices whose cubes have a symbol at input `i` that contains this one.
fn indices_with_containing_symbol(
    alloc: Global,
    list: &Cover,
    indices: &[usize],
    i: usize,
    symbol: Symbol,
) -> Result<Vec<usize>, AllocError>
    requires indices { All (λ k. k < length list.now.cubes) indices.now }
    requires input { i < list.now.size.inputs }
    ensures { IfOk result
        (λ kept. kept.items
        ≡ filter (λ k. is_over (symbol_at list.now.cubes i k) symbol) indices.now) }
{
    let mut kept = Vec::new(alloc);
    for k in indices {
        if symbol_contains(symbol_of_cube(list, i, *k), symbol) {
            kept.push(*k)?;
        }
    }
    Ok(kept)
}

// Marks the indices of `inner` whose cubes are absorbed by cubes of `outer`, by splits at the
// inputs in this order. Other marks stay.
#[cycle(mark_absorbed)]
fn mark_absorbed(
    alloc: Global,
    list: &Cover,
    order: &[usize],
    inner: &[usize],
    outer: &[usize],
    marks: &mut [bool],
) -> Result<(), AllocError>
    requires cubes { AreCubes list.now.size list.now.cubes }
    requires order { All (λ i. i < list.now.size.inputs) order.now }
    requires inner { All (λ k. k < length list.now.cubes) inner.now }
    requires outer { All (λ j. j < length list.now.cubes) outer.now }
    requires marks { length marks.old ≡ length list.now.cubes }
    ensures { OnOk result
        (Marks list.now.size list.now.cubes inner.now outer.now marks.old marks.new) }
{
    let [input, rest @ ..] = order else {
        mark_absorbed_by_pairs(list, inner, outer, marks);
        return Ok(());
    };
    if inner.len() <= SMALL || outer.len() <= SMALL {
        mark_absorbed_by_pairs(list, inner, outer, marks);
        return Ok(());
    }
    mark_absorbed_at(
        alloc,
        list,
        rest,
        (*input, Symbol::Dash),
        inner,
        outer,
        marks,
    )?;
    mark_absorbed_at(
        alloc,
        list,
        rest,
        (*input, Symbol::Zero),
        inner,
        outer,
        marks,
    )?;
    mark_absorbed_at(
        alloc,
        list,
        rest,
        (*input, Symbol::One),
        inner,
        outer,
        marks,
    )
}

// Marks the indices of `inner` whose cubes have the symbol at the input `at` and are absorbed by
// cubes of `outer`, by further splits at the inputs in this order. Other marks stay.
#[cycle(mark_absorbed)]
fn mark_absorbed_at(
    alloc: Global,
    list: &Cover,
    order: &[usize],
    at: (usize, Symbol),
    inner: &[usize],
    outer: &[usize],
    marks: &mut [bool],
) -> Result<(), AllocError>
    requires cubes { AreCubes list.now.size list.now.cubes }
    requires order { All (λ i. i < list.now.size.inputs) order.now }
    requires input { at.0 < list.now.size.inputs }
    requires inner { All (λ k. k < length list.now.cubes) inner.now }
    requires outer { All (λ j. j < length list.now.cubes) outer.now }
    requires marks { length marks.old ≡ length list.now.cubes }
    ensures { OnOk result
        (MarksPart list.now.size list.now.cubes at.0 at.1 inner.now outer.now marks.old marks.new) }
{
    let having = indices_with_symbol(alloc, list, inner, at.0, at.1)?;
    let containing = indices_with_containing_symbol(alloc, list, outer, at.0, at.1)?;
    mark_absorbed(alloc, list, order, &having, &containing, marks)
}

// The inputs at which a split divides the cubes, each with a rank before it: the lower, the better
// the split.
fn ranked_inputs(alloc: Global, list: &Cover) -> Result<Vec<(u64, usize)>, AllocError>
    ensures { IfOk result (λ weighed. All (λ p. p.1 < list.now.size.inputs) weighed.items) }
{
    let inputs = list.shape().inputs();
    let rows = references_to_cubes(alloc, list.as_slice())?;
    let counts = LiteralCounts::of(alloc, &rows, inputs)?;
    let all = list.len() as u64;
    let mut weighed: Vec<(u64, usize)> = Vec::new(alloc);
    for i in 0..inputs {
        let weight = split_weight(counts.zeros[i] as u64, counts.ones[i] as u64, all);
        if weight > 0 {
            weighed.push((u64::MAX - weight, i))?;
        }
    }
    Ok(weighed)
}

// The inputs at which a split divides the cubes, the best first.
fn inputs_best_first(alloc: Global, list: &Cover) -> Result<Vec<usize>, AllocError>
    ensures { IfOk result (λ order. All (λ i. i < list.now.size.inputs) order.items) }
{
    let mut weighed = ranked_inputs(alloc, list)?;
    weighed.sort()?;
    let mut order = Vec::with_capacity(alloc, weighed.len())?;
    for (_, i) in &weighed {
        order.push(*i)?;
    }
    Ok(order)
}

// How well a split at an input divides `all` cubes, of which `zeros` and `ones` have each literal:
// the larger, the better; 0 if all have the same symbol there.
fn split_weight(zeros: u64, ones: u64, all: u64) -> u64 {
    let by_zeros = zeros.min(all.saturating_sub(zeros));
    let by_ones = ones.min(all.saturating_sub(ones));
    by_zeros.saturating_add(by_ones)
}

// Copies of the cubes that are not marked, in their order.
fn unmarked_cubes(alloc: Global, list: &Cover, marks: &[bool]) -> Result<Cover, AllocError>
    requires len { length marks.now ≡ length list.now.cubes }
    requires marks { (k : ℕ) → k < length list.now.cubes → slice_index_or marks.now k false
        ≡ is_contained_at list.now.size list.now.cubes k }
    ensures { IfOk result
        (λ kept. kept
        ≡ record { size = list.now.size; cubes = contained list.now.size list.now.cubes }) }
{
    let cubes = list.as_slice();
    let mut kept = Vec::new(alloc);
    for k in 0..cubes.len() {
        if !marks[k] {
            kept.push(cubes[k].try_clone()?)?;
        }
    }
    Ok(Cover::from_cubes(list.shape(), kept))
}

// The numbers below `count`.
fn indices_below(alloc: Global, count: usize) -> Result<Vec<usize>, AllocError>
    ensures { IfOk result (λ all. all.items ≡ range_with_len 0 count) }
{
    let mut all = Vec::with_capacity(alloc, count)?;
    for k in 0..count {
        all.push(k)?;
    }
    Ok(all)
}

/// The list without its contained cubes: a cube is dropped if its places lie within those of an
/// earlier cube, or within those of a later one that isn't equal to it. The other cubes keep their
/// order.
pub fn contain(list: &Cover) -> Result<Cover, AllocError>
    ensures { IfOk result
        (λ kept. kept
        ≡ record { size = list.now.size; cubes = contained list.now.size list.now.cubes }) }
{
    let alloc = list.allocator();
    let order = inputs_best_first(alloc, list)?;
    let cubes = list.as_slice();
    let all = indices_below(alloc, cubes.len())?;
    let mut marks = vec![in alloc; false; cubes.len()]?;
    mark_absorbed(alloc, list, &order, &all, &all, &mut marks)?;
    unmarked_cubes(alloc, list, &marks)
}
