//! The cubes of a complete sum that contain a region.
//!
//! They are found without the other cubes of the sum: the universal cube is cut by each row of the
//! places outside, and only pieces that contain the region are made. So a place that few primes
//! hold costs little, however many primes there are (the recursion of sharps is that of Brayton et
//! al. 1984).
//!
//! The *distance* of a row from the region is the number of inputs at which they have opposite
//! literals, and one more if they share no output. A row at distance 1 leaves one piece of a cube,
//! with the opposite of its literal. Such rows come first: then one cube is left, and the rows that
//! do not meet it need no cut. Of the pieces that are left at the end those in no larger one are kept.
ghost use Rattle.std.specs.Prelude.{◌≡◌, false, All, IfOk, IfSome, not, filter};
ghost use Rattle.std.specs.List.{Contains};
ghost use Rattle.cube.specs.Size.{Size};
ghost use Rattle.cube.specs.Cube.{HasSize, SameSize, Cube as Row, holds, size_of};
ghost use Rattle.cube.specs.Sharp.{rest_rows};
ghost use Rattle.rows.specs.Cubes.{AreCubes};
ghost use Rattle.rows.specs.Sizes.{HaveOneSize, ShareOneSize};
ghost use Rattle.rows.specs.Places.{places};
ghost use Rattle.rows.specs.Contained.{is_within};
ghost use Rattle.sums.specs.Outside.{AreNear};
ghost use Rattle.rows.specs.Reduced.{HasSameCubes, IsPartlyAbsorbed};
ghost use Rattle.sums.specs.Containing.{ArePieces, Cuts, lies_in_larger as is_in_larger, largest as largest_of, sum_containing as sum_containing_of};

use crate::absorb::{absorb, drop_absorbed_by};
use cube::{Cube, Shape};
use rows::{any_meets, push_copy, rows_of_both, share_output, universal_cube};
use std::alloc::{AllocError, Global};

// Rows at a distance less than this come before all others, as a cut by them makes few pieces.
const MANY: u32 = 6;

// Whether the cube contains the region.
fn contains(cube: &Cube, region: &Cube) -> bool
    requires { SameSize cube.now region.now }
    ensures { result ≡ is_within (size_of region.now) region.now cube.now }
{
    cube.contains(region)
}

/// Copies of the cubes that contain the region, in their order.
///
/// # Errors
///
/// [`AllocError`] if memory is refused.
pub fn rows_containing(
    alloc: Global,
    region: &Cube,
    cubes: &[Cube],
) -> Result<Vec<Cube>, AllocError>
    requires { All (λ c. SameSize c region.now) cubes.now }
    ensures { IfOk result (λ kept. kept.items
        ≡ filter (is_within (size_of region.now) region.now) cubes.now) }
{
    let mut kept = Vec::new(alloc);
    for cube in cubes {
        if contains(cube, region) {
            push_copy(&mut kept, cube)?;
        }
    }
    Ok(kept)
}

// The cube without the outputs of the row, alone in a list, if it has others and then contains the
// region; else an empty list.
fn rest_containing(
    alloc: Global,
    region: &Cube,
    row: &Cube,
    cube: &Cube,
) -> Result<Vec<Cube>, AllocError>
    requires region { SameSize cube.now region.now }
    requires row { SameSize cube.now row.now }
    ensures { IfOk result (λ v. v.items
        ≡ filter (is_within (size_of region.now) region.now) (rest_rows cube.now row.now)) }
{
    let mut rests = Vec::new(alloc);
    if cube.has_outputs_beyond(row) {
        let rest = cube.without_outputs(row)?;
        if contains(&rest, region) {
            rests.push(rest)?;
        }
    }
    Ok(rests)
}

// The pieces of the cube outside the row that contain the region: the cube without the row's
// outputs, and for each input where the region and the row have opposite literals the cube with
// the region's literal. Other pieces do not contain the region and are not made.
fn pieces_containing(
    alloc: Global,
    region: &Cube,
    row: &Cube,
    cube: &Cube,
) -> Result<Vec<Cube>, AllocError>
    requires region { SameSize cube.now region.now }
    requires row { SameSize cube.now row.now }
    ensures { IfOk result (λ v.
        ArePieces (size_of region.now) region.now row.now cube.now v.items) }
{
    if !contains(cube, region) {
        return Ok(Vec::new(alloc));
    }
    let mut pieces = rest_containing(alloc, region, row, cube)?;
    let inputs = region.shape().inputs();
    let mut from = 0;
    while from < inputs {
        let Some(i) = region.next_opposite(row, from) else {
            return Ok(pieces);
        };
        pieces.push(cube.with_symbol(i, region.symbol(i))?)?;
        from = i + 1;
    }
    Ok(pieces)
}

// Whether the row has one output. False if the shape has more than 64.
fn has_one_output(shape: Shape, row: &Cube) -> bool {
    shape.outputs() <= 64 && row.output_bits(0).count_ones() == 1
}

// The pieces that a cut by the row made, in row order and without pieces that lie in earlier ones.
// If the row has one output they stay as they are: none lies in another, as long as no cube of the
// list does.
fn absorb_pieces(
    alloc: Global,
    shape: Shape,
    row: &Cube,
    pieces: Vec<Cube>,
) -> Result<Vec<Cube>, AllocError>
    requires { AreCubes shape pieces.items }
    ensures { IfOk result (λ fewer. IsPartlyAbsorbed pieces.items fewer.items) }
{
    if has_one_output(shape, row) {
        return Ok(pieces);
    }
    absorb(alloc, pieces)
}

// The list with each cube that meets the row replaced by its pieces outside the row that contain
// the region. The other cubes come first, and pieces that lie in one of them are left out.
fn cut_by_row(
    alloc: Global,
    shape: Shape,
    region: &Cube,
    row: &Cube,
    cubes: Vec<Cube>,
) -> Result<Vec<Cube>, AllocError>
    requires region { HasSize region.now shape }
    requires row { HasSize row.now shape }
    requires cubes { AreCubes shape cubes.items }
    ensures cubes { IfOk result (λ v. AreCubes shape v.items) }
    ensures cuts { IfOk result (λ v. Cuts shape region.now (holds row.now) cubes.items v.items) }
{
    if !any_meets(&cubes, row) {
        return Ok(cubes);
    }
    let mut kept = Vec::new(alloc);
    let mut rest = Vec::new(alloc);
    for cube in &cubes {
        if cube.disjoint(row) {
            push_copy(&mut kept, cube)?;
        } else {
            let more = pieces_containing(alloc, region, row, cube)?;
            rest = rows_of_both(rest, more)?;
        }
    }
    let pieces = absorb_pieces(alloc, shape, row, rest)?;
    let left = drop_absorbed_by(alloc, &pieces, &kept)?;
    rows_of_both(kept, left)
}

// The list cut by one row after the other, or `None` once it is longer than `most`.
fn cut_by_rows(
    alloc: Global,
    shape: Shape,
    region: &Cube,
    rows: &[Cube],
    cubes: Vec<Cube>,
    most: usize,
) -> Result<Option<Vec<Cube>>, AllocError>
    requires region { HasSize region.now shape }
    requires rows { AreCubes shape rows.now }
    requires cubes { AreCubes shape cubes.items }
    ensures cubes { IfOk result (λ o. IfSome o (λ v. AreCubes shape v.items)) }
    ensures cuts { IfOk result (λ o. IfSome o (λ v.
        Cuts shape region.now (places rows.now) cubes.items v.items)) }
{
    let mut left = cubes;
    for row in rows {
        left = cut_by_row(alloc, shape, region, row, left)?;
        if left.len() > most {
            return Ok(None);
        }
    }
    Ok(Some(left))
}

// The distance of two cubes: the number of inputs at which they have opposite literals, and one
// more if they share no output. A cut by the row makes at most this many pieces that contain the
// region.
fn distance(region: &Cube, row: &Cube) -> u32 {
    let outputs = if share_output(region, row) { 0 } else { 1 };
    region.opposites(row).saturating_add(outputs)
}

// The rows at this distance from the region.
fn rows_at_distance(
    alloc: Global,
    region: &Cube,
    rows: &[Cube],
    count: u32,
) -> Result<Vec<Cube>, AllocError>
    ensures { IfOk result (λ kept. (c : Row) → Contains kept.items c → Contains rows.now c) }
{
    let mut kept = Vec::new(alloc);
    for row in rows {
        if distance(region, row) == count {
            push_copy(&mut kept, row)?;
        }
    }
    Ok(kept)
}

// The rows at distances 2 to 5 from the region, the nearest first, and then all rows: some stand
// twice. A cut by a near row makes few pieces, and many other rows do not meet those.
fn near_rows_then_all(
    alloc: Global,
    region: &Cube,
    rows: Vec<Cube>,
) -> Result<Vec<Cube>, AllocError>
    ensures { IfOk result (λ all. HasSameCubes rows.items all.items) }
{
    let mut all = Vec::new(alloc);
    for count in 2..MANY {
        let some = rows_at_distance(alloc, region, &rows, count)?;
        all = rows_of_both(all, some)?;
    }
    rows_of_both(all, rows)
}

// The rows that meet some cube of the list.
fn rows_meeting_any(alloc: Global, cubes: &[Cube], rows: &[Cube]) -> Result<Vec<Cube>, AllocError>
    requires { ShareOneSize cubes.now rows.now }
    ensures { IfOk result (λ v. (size : Size) → AreCubes size rows.now
        → AreNear size (places cubes.now) rows.now v.items) }
{
    let mut meeting = Vec::new(alloc);
    for row in rows {
        if any_meets(cubes, row) {
            push_copy(&mut meeting, row)?;
        }
    }
    Ok(meeting)
}

// The list cut by all rows, those at distance 1 first and then by distance, or `None` once it is
// longer than `most`.
fn cut_in_order(
    alloc: Global,
    shape: Shape,
    region: &Cube,
    rows: &[Cube],
    cubes: Vec<Cube>,
    most: usize,
) -> Result<Option<Vec<Cube>>, AllocError>
    requires region { HasSize region.now shape }
    requires rows { AreCubes shape rows.now }
    requires cubes { AreCubes shape cubes.items }
    ensures { IfOk result (λ o. IfSome o (λ v.
        Cuts shape region.now (places rows.now) cubes.items v.items)) }
{
    let at_distance_one = rows_at_distance(alloc, region, rows, 1)?;
    let Some(core) = cut_by_rows(alloc, shape, region, &at_distance_one, cubes, most)? else {
        return Ok(None);
    };
    let meeting = rows_meeting_any(alloc, &core, rows)?;
    let meeting = near_rows_then_all(alloc, region, meeting)?;
    cut_by_rows(alloc, shape, region, &meeting, core, most)
}

// Whether the cube lies in a larger one of the cubes.
fn lies_in_larger(cubes: &[Cube], cube: &Cube) -> bool
    requires { All (λ c. SameSize c cube.now) cubes.now }
    ensures { result ≡ is_in_larger (size_of cube.now) cubes.now cube.now }
{
    for other in cubes {
        if contains(other, cube) && !contains(cube, other) {
            return true;
        }
    }
    false
}

// The cubes that lie in no larger one.
fn largest_cubes(alloc: Global, cubes: &[Cube]) -> Result<Vec<Cube>, AllocError>
    requires { HaveOneSize cubes.now }
    ensures { IfOk result (λ v. (size : Size) → AreCubes size cubes.now
        → v.items ≡ largest_of size cubes.now) }
{
    let mut kept = Vec::new(alloc);
    for cube in cubes {
        if !lies_in_larger(cubes, cube) {
            push_copy(&mut kept, cube)?;
        }
    }
    Ok(kept)
}

/// The cubes of the complete sum of the places outside the rows that contain the region, in row
/// order: the largest cubes that contain it and have no place of a row. `None` once the list of
/// cubes so far is longer than `most`.
///
/// Each row that meets a cube of the list cuts it. The list is never longer than the number of
/// cubes that are largest beside some of the rows.
///
/// # Errors
///
/// [`AllocError`] if memory is refused.
pub fn largest_containing(
    alloc: Global,
    shape: Shape,
    region: &Cube,
    rows: &[Cube],
    most: usize,
) -> Result<Option<Vec<Cube>>, AllocError>
    requires region { HasSize region.now shape }
    requires rows { AreCubes shape rows.now }
    ensures cubes { IfOk result (λ o. IfSome o (λ sum. AreCubes shape sum.items)) }
    ensures sum { IfOk result (λ o. IfSome o (λ sum.
        sum.items ≡ sum_containing_of shape (λ p. not (places rows.now p)) region.now)) }
{
    let mut cubes = Vec::new(alloc);
    let everything = universal_cube(alloc, shape)?;
    cubes.push(everything)?;
    let Some(cubes) = cut_in_order(alloc, shape, region, rows, cubes, most)? else {
        return Ok(None);
    };
    let cubes = absorb(alloc, cubes)?;
    let cubes = largest_cubes(alloc, &cubes)?;
    Ok(Some(cubes))
}
