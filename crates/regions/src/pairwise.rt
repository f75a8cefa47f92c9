//! Whether all places of a list are in another, or none is, by pairs of rows.
//!
//! The rows of the first list are split three ways by their symbol at an input. To those with `0`
//! or `1` there the rows of the second list with the other literal do not count; to those with `-`
//! all do. So each pair of rows comes together once at most. The input is taken at which most pairs
//! have opposite literals. Once few rows are left or no split pays, the second list is asked for
//! each row by itself, or, if they are to be disjoint, each pair is looked at.
ghost use Rattle.std.specs.Prelude.{◌↔◌, ◌<◌, ◌≤◌, ◌∷◌, [], IsTrue, IfOk, IfSome, All, filter, length, slice_index_or};
ghost use Rattle.cube.specs.Size.{Size};
ghost use Rattle.cube.specs.Cube.{HasSize, IsDisjoint, holds};
ghost use Rattle.rows.specs.Places.{places, behind};
ghost use Rattle.rows.specs.Marks.{is_symbol};
ghost use Rattle.regions.specs.Relation.{AreRelated};
ghost use Rattle.rows.specs.Cubes.{AreCubes};

use crate::region::nearest_first::{are_both_long, are_held_one_by_one};
use cube::{Cube, Shape, Symbol};
use rows::{
    LiteralCounts, is_disjoint_from_all, references_to_cubes, rows_with_compatible_symbol,
    rows_with_symbol, sample_size,
};
use std::alloc::{AllocError, Global};

// Lists of at most this many rows are not split: asking row by row costs no more.
const SMALL: usize = 8;

/// A relation of the places of a list to those of another: all are in it, or none is.
#[derive(Clone, Copy)]
pub enum Relation {
    Contained,
    Disjoint,
}

// Whether the lists have no place in common, by a look at each pair.
fn are_disjoint_by_pairs(rows: &[&Cube], others: &[&Cube]) -> bool
    requires { (size : Size) × All (λ d. HasSize d.now size) rows.now
        × All (λ d. HasSize d.now size) others.now }
    ensures { IsTrue result ↔ IsDisjoint (places (behind rows.now)) (places (behind others.now)) }
{
    for row in rows {
        if !is_disjoint_from_all(row, others) {
            return false;
        }
    }
    true
}

// How many pairs of a row of each list have opposite literals at input `i`.
fn count_opposite_pairs(rows: &LiteralCounts, others: &LiteralCounts, i: usize) -> u64
    requires { All (λ n. i < n)
        (length rows.now.zeros.items ∷ length rows.now.ones.items ∷ length others.now.zeros.items ∷
        length others.now.ones.items ∷ []) }
{
    let low = (rows.zeros[i] as u64).saturating_mul(others.ones[i] as u64);
    let high = (rows.ones[i] as u64).saturating_mul(others.zeros[i] as u64);
    low.saturating_add(high)
}

// If both lists are long, a split pays if it separates more than one pair in this many.
const SHARE: u64 = 32;

// A split pays for one more pass if it separates more sampled pairs than this. A row that is left
// is compared with all others, so a split has to save two rows' worth of pairs, and `pairs / SHARE`
// where bits compare 64 rows at once. Disjoint lists are compared pair by pair, so each split pays
// that separates a pair.
fn least_opposite_pairs(relation: Relation, rows: usize, others: usize) -> u64 {
    let pairs = (sample_size(rows) as u64).saturating_mul(sample_size(others) as u64);
    match relation {
        Relation::Disjoint => 0,
        Relation::Contained => {
            if are_both_long(rows, others) {
                pairs / SHARE
            } else {
                pairs.saturating_mul(2) / (rows as u64).max(1)
            }
        }
    }
}

// The input at which most pairs of counted rows have opposite literals, if they are more than
// `least`.
fn most_opposite_input(
    mine: &LiteralCounts,
    theirs: &LiteralCounts,
    inputs: usize,
    least: u64,
) -> Option<usize>
    requires { All (λ n. inputs ≤ n)
        (length mine.now.zeros.items ∷ length mine.now.ones.items ∷ length theirs.now.zeros.items ∷
        length theirs.now.ones.items ∷ []) }
    ensures { IfSome result (λ i. i < inputs) }
{
    let mut best = None;
    let mut most = least;
    for i in 0..inputs {
        let weight = count_opposite_pairs(mine, theirs, i);
        if weight > most {
            best = Some(i);
            most = weight;
        }
    }
    best
}

// The input to split at: that at which most pairs of a row of each list have opposite literals, by
// a sample of the rows. `None` if no split there pays, a list has few rows, or `depth`, the number
// of inputs that may be split at, is 0.
fn split_input_of_pairs(
    alloc: Global,
    shape: Shape,
    relation: Relation,
    depth: usize,
    rows: &[&Cube],
    others: &[&Cube],
) -> Result<Option<usize>, AllocError>
    requires rows { All (λ d. HasSize d.now shape) rows.now }
    requires others { All (λ d. HasSize d.now shape) others.now }
    ensures input { IfOk result (λ found. IfSome found (λ i. i < shape.inputs)) }
    ensures depth { IfOk result (λ found. IfSome found (λ _. 1 ≤ depth)) }
{
    if depth == 0 || rows.len() <= SMALL || others.len() <= SMALL {
        return Ok(None);
    }
    let mine = LiteralCounts::of_sample(alloc, shape, rows)?;
    let theirs = LiteralCounts::of_sample(alloc, shape, others)?;
    let least = least_opposite_pairs(relation, rows.len(), others.len());
    Ok(most_opposite_input(&mine, &theirs, shape.inputs(), least))
}

/// Whether the places of the rows have the relation to those of the others: all are among them, or
/// none is. At most `depth` inputs are split at, one below the other.
#[cycle(are_related)]
pub fn are_related(
    alloc: Global,
    shape: Shape,
    relation: Relation,
    depth: usize,
    rows: &[&Cube],
    others: &[&Cube],
) -> Result<bool, AllocError>
    requires rows { All (λ d. HasSize d.now shape) rows.now }
    requires others { All (λ d. HasSize d.now shape) others.now }
    ensures { IfOk result
        (λ held. IsTrue held ↔ AreRelated relation (behind rows.now) (behind others.now)) }
{
    let Some(i) = split_input_of_pairs(alloc, shape, relation, depth, rows, others)? else {
        return match relation {
            Relation::Contained => are_held_one_by_one(alloc, shape, rows, others),
            Relation::Disjoint => Ok(are_disjoint_by_pairs(rows, others)),
        };
    };
    let rest = depth - 1;
    if !are_related_at(
        alloc,
        shape,
        relation,
        rest,
        (i, Symbol::Zero),
        rows,
        others,
    )? {
        return Ok(false);
    }
    if !are_related_at(alloc, shape, relation, rest, (i, Symbol::One), rows, others)? {
        return Ok(false);
    }
    are_related_at(
        alloc,
        shape,
        relation,
        rest,
        (i, Symbol::Dash),
        rows,
        others,
    )
}

// Whether the relation holds between the rows that have the symbol at the input and the others.
#[cycle(are_related)]
fn are_related_at(
    alloc: Global,
    shape: Shape,
    relation: Relation,
    depth: usize,
    at: (usize, Symbol),
    rows: &[&Cube],
    others: &[&Cube],
) -> Result<bool, AllocError>
    requires input { at.0 < shape.inputs }
    requires rows { All (λ d. HasSize d.now shape) rows.now }
    requires others { All (λ d. HasSize d.now shape) others.now }
    ensures { IfOk result (λ held. IsTrue held
        ↔ AreRelated relation
        (behind (filter (λ d. is_symbol at.1 (slice_index_or d.now.symbols at.0 Symbol.Dash))
        rows.now)) (behind others.now)) }
{
    let having = rows_with_symbol(alloc, rows, at.0, at.1)?;
    let compatible = rows_with_compatible_symbol(alloc, others, at.0, at.1)?;
    are_related(alloc, shape, relation, depth, &having, &compatible)
}

/// Whether no place is in a row and in a cube of the mask.
pub fn are_disjoint(
    alloc: Global,
    shape: Shape,
    rows: &[Cube],
    mask: &[Cube],
) -> Result<bool, AllocError>
    requires rows { AreCubes shape rows.now }
    requires mask { AreCubes shape mask.now }
    ensures { IfOk result (λ apart. IsTrue apart ↔ IsDisjoint (places rows.now) (places mask.now)) }
{
    let mine = references_to_cubes(alloc, rows)?;
    let theirs = references_to_cubes(alloc, mask)?;
    let depth = shape.inputs();
    are_related(alloc, shape, Relation::Disjoint, depth, &mine, &theirs)
}
