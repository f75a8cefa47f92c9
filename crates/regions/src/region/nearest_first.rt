//! Whether a list holds each of many regions, and what it leaves out of them.
//!
//! What a search learns of the list is kept from one region to the next. If there are many rows and
//! many regions, the rows nearest to a region are asked first, and then of all rows those that
//! share a literal with it are looked at before the others.
ghost use Rattle.std.specs.Prelude.{◌↔◌, IsTrue, IfOk, OnOk, All};
ghost use Rattle.std.specs.List.{AllZip};
ghost use Rattle.cube.specs.Cube.{HasSize, IsSubset, size_of};
ghost use Rattle.rows.specs.Places.{places, behind};
ghost use Rattle.regions.specs.LeftOut.{LeavesOut};
ghost use Rattle.regions.specs.Reason.{AreAmong, AreLearned, AreRowsWithLearned};

use crate::region::learned::Learned;
use crate::region::nearest_rows::RowBits;
use crate::region::{holds_by_splits, part_left_out_by_splits_or_search};
use cube::{Cube, Shape};
use std::alloc::{AllocError, Global};

// Bits of the rows (`RowBits`) are kept only if both lists have more rows than this.
const FEW: usize = 64;

/// Whether both lists are so long that bits of the rows pay.
pub(crate) fn are_both_long(rows: usize, others: usize) -> bool {
    rows.min(others) > FEW
}

// The words of the cube's literals that are not empty, each with its index.
fn literal_words(
    alloc: Global,
    shape: Shape,
    cube: &Cube,
) -> Result<Vec<(usize, u64)>, AllocError> {
    let mut words = Vec::new(alloc);
    for w in 0..shape.inputs() / 32 + 1 {
        let bits = cube.literal_bits(w);
        if bits != 0 {
            words.push((w, bits))?;
        }
    }
    Ok(words)
}

// Whether a row has one of the literals that [`literal_words`] answered.
fn shares_literal(row: &Cube, words: &[(usize, u64)]) -> bool {
    for (w, bits) in words {
        if row.literal_bits(*w) & *bits != 0 {
            return true;
        }
    }
    false
}

// The rows that share a literal with the region. (Nothing depends on it.)
fn rows_sharing_literal<'a>(
    alloc: Global,
    shape: Shape,
    rows: &[&'a Cube],
    region: &Cube,
) -> Result<Vec<&'a Cube>, AllocError>
    ensures { IfOk result (λ some. AreAmong some.items rows.now) }
{
    let mut some = Vec::new(alloc);
    let words = literal_words(alloc, shape, region)?;
    for row in rows {
        if shares_literal(row, &words) {
            some.push(*row)?;
        }
    }
    Ok(some)
}

// The bits of the rows, if the rows and the regions to ask for are many.
fn bits_if_both_long(
    alloc: Global,
    shape: Shape,
    regions: usize,
    rows: &[&Cube],
) -> Result<Option<RowBits>, AllocError> {
    if are_both_long(regions, rows.len()) {
        return Ok(Some(RowBits::of(alloc, shape, rows)?));
    }
    Ok(None)
}

// A part of the region of which the rows hold no place, or `None` if they hold the region. With
// bits, the rows nearest to the region are asked first, since they often hold it alone; if they do
// not, the rows that share a literal with it are looked at before the others.
fn part_left_out_nearest_first(
    alloc: Global,
    shape: Shape,
    rows: &[&Cube],
    bits: &Option<RowBits>,
    region: &Cube,
    learned: &mut Learned,
) -> Result<Option<Cube>, AllocError>
    requires { AreRowsWithLearned region.now rows.now learned.old.known.items }
    ensures known { OnOk result (AreLearned region.now rows.now learned.new.known.items) }
    ensures part { IfOk result (LeavesOut (size_of region.now) (behind rows.now) region.now) }
{
    let Some(bits) = bits else {
        return part_left_out_by_splits_or_search(alloc, rows, &[], 0, region, learned);
    };
    let nearest = bits.nearest(alloc, rows, region)?;
    if holds_by_splits(alloc, &nearest, region, rows.len())? {
        return Ok(None);
    }
    let near = rows_sharing_literal(alloc, shape, rows, region)?;
    let bound = bits.fewest_literals();
    part_left_out_by_splits_or_search(alloc, rows, &near, bound, region, learned)
}

/// Whether the others hold each row, by a question for each.
pub(crate) fn are_held_one_by_one(
    alloc: Global,
    shape: Shape,
    rows: &[&Cube],
    others: &[&Cube],
) -> Result<bool, AllocError>
    requires rows { All (λ d. HasSize d.now shape) rows.now }
    requires others { All (λ d. HasSize d.now shape) others.now }
    ensures { IfOk result
        (λ held. IsTrue held ↔ IsSubset (places (behind rows.now)) (places (behind others.now))) }
{
    let bits = bits_if_both_long(alloc, shape, rows.len(), others)?;
    let mut learned = Learned::new(alloc);
    for row in rows {
        if part_left_out_nearest_first(alloc, shape, others, &bits, row, &mut learned)?.is_some() {
            return Ok(false);
        }
    }
    Ok(true)
}

/// For each region a part of it of which the rows hold no place, or `None` if they hold the region.
/// What a search learns of the rows is kept for the next regions.
pub fn part_left_out_of_each(
    alloc: Global,
    shape: Shape,
    rows: &[&Cube],
    regions: &[Cube],
) -> Result<Vec<Option<Cube>>, AllocError>
    requires rows { All (λ d. HasSize d.now shape) rows.now }
    requires regions { All (λ d. HasSize d shape) regions.now }
    ensures { IfOk result
        (λ parts. AllZip (LeavesOut shape (behind rows.now)) regions.now parts.items) }
{
    let mut parts = Vec::with_capacity(alloc, regions.len())?;
    let bits = bits_if_both_long(alloc, shape, regions.len(), rows)?;
    let mut learned = Learned::new(alloc);
    for region in regions {
        let part = part_left_out_nearest_first(alloc, shape, rows, &bits, region, &mut learned)?;
        parts.push(part)?;
    }
    Ok(parts)
}
