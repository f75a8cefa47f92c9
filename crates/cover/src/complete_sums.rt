//! Complete sums of covers, which `sums` makes: of a list, of the places outside it (`complement`), of
//! those in two lists (`intersect`) or in the first alone (`difference`). Also the cubes that contain a
//! region, of a list (`cubes_containing`) or of the sum outside one (`sum_containing`).
ghost use Rattle.std.specs.Prelude.{◌≡◌, ◌<◌, true, IfOk, not, IfSome, filter};
ghost use Rattle.cube.specs.Cube.{intersection, difference as difference_of, HasSize, Place};
ghost use Rattle.cube.specs.Sum.{complete_sum as complete_sum_of};
ghost use Rattle.rows.specs.Cubes.{AreCubes};
ghost use Rattle.rows.specs.Places.{places, holds_all};
ghost use Rattle.rows.specs.Contained.{is_within};
ghost use Rattle.sums.specs.Containing.{sum_containing as sum_containing_of};
ghost use Rattle.cover.specs.NotHeld.{is_not_held};

use crate::full_list_hint::may_hold_everything;
use crate::list::Cover;
use cube::Cube;
use rows::universal_cube;
use std::alloc::AllocError;
use sums::{largest_containing, rows_containing, sum_of_both, sum_of_difference};

/// Whether every place is in the list. It is asked only where cheap looks allow it: so `true` is
/// sure, and `false` is a hint.
fn holds_everything(list: &Cover) -> Result<bool, AllocError>
    ensures { IfOk result (λ all. all ≡ true
        → holds_all list.now.size (places list.now.cubes) ≡ true) }
{
    Ok(may_hold_everything(list)? && list.tautology()?)
}

/// Rows with the places of the list: the universal cube alone if it holds everything, or else its
/// own.
///
/// The sum of such a list is found at once, while that of its rows may take long: each split at an
/// input leaves parts that hold everything, and many others.
fn rows_to_sum(list: &Cover) -> Result<Vec<Cube>, AllocError>
    ensures cubes { IfOk result (λ rows. AreCubes list.now.size rows.items) }
    ensures sum { IfOk result (λ rows. complete_sum_of list.now.size (places rows.items)
        ≡ complete_sum_of list.now.size (places list.now.cubes)) }
{
    if !holds_everything(list)? {
        return Ok(list.try_clone()?.into_cubes());
    }
    let alloc = list.allocator();
    let everything = universal_cube(alloc, list.shape())?;
    let mut rows = Vec::new(alloc);
    rows.push(everything)?;
    Ok(rows)
}

/// The complete sum of the places of the list: all cubes that hold only such places and lie in no
/// larger such cube, in row order. These are the primes of a function of several outputs.
///
/// There may be exponentially many in the inputs, and time grows at least with their number. Lists
/// whose sum was made before in the same call cost a copy of it; the sums that are kept for this
/// are forgotten if they become many.
///
/// # Errors
///
/// [`AllocError`] if memory is refused.
pub fn complete_sum(list: &Cover) -> Result<Cover, AllocError>
    ensures { IfOk result
        (λ sum. sum
        ≡ record {
          size = list.now.size;
          cubes = complete_sum_of list.now.size (places list.now.cubes);
        }) }
{
    let alloc = list.allocator();
    let shape = list.shape();
    let rows = rows_to_sum(list)?;
    let sum = sum_of_difference(alloc, shape, rows, Vec::new(alloc))?;
    Ok(Cover::from_cubes(shape, sum))
}

/// The complete sum of the places that are in both lists, of one shape.
///
/// The meets of all pairs of cubes of the two are formed first; the cost of their sum is that of
/// [`complete_sum`].
///
/// # Errors
///
/// [`AllocError`] if memory is refused.
pub fn intersect(list: &Cover, other: &Cover) -> Result<Cover, AllocError>
    requires { other.now.size ≡ list.now.size }
    ensures { IfOk result (λ sum. sum ≡ record {
      size = list.now.size;
      cubes = complete_sum_of list.now.size
          (intersection (places list.now.cubes) (places other.now.cubes));
    }) }
{
    let alloc = list.allocator();
    let shape = list.shape();
    let mine = list.try_clone()?.into_cubes();
    let theirs = other.try_clone()?.into_cubes();
    let sum = sum_of_both(alloc, shape, mine, theirs)?;
    Ok(Cover::from_cubes(shape, sum))
}

/// The rows that are not wholly in the list, in their order.
fn rows_not_held(rows: &[Cube], list: &Cover) -> Result<Vec<Cube>, AllocError>
    requires { AreCubes list.now.size rows.now }
    ensures { IfOk result (λ kept. kept.items
        ≡ filter (is_not_held list.now.size (places list.now.cubes)) rows.now) }
{
    let are_held = list.holds_cubes(rows)?;
    let mut kept = Vec::new(list.allocator());
    for k in 0..rows.len() {
        if !are_held[k] {
            kept.push(rows[k].try_clone()?)?;
        }
    }
    Ok(kept)
}

// Of more pairs of rows it is not asked which rows lie in the other list: a question may look at all of
// its rows, and the sum of so many small rows is made sooner.
const MOST_PAIRS: usize = 10_000_000;

/// Rows that have the places of the list outside the other: those that are not wholly in it, as a
/// row that is has no such place. All where there is one at most, since the sum is then found as soon
/// as the question is answered, or where both lists are long.
fn rows_to_subtract_from(list: &Cover, other: &Cover) -> Result<Vec<Cube>, AllocError>
    requires { other.now.size ≡ list.now.size }
    ensures cubes { IfOk result (λ rows. AreCubes list.now.size rows.items) }
    ensures places { IfOk result (λ rows. (p : Place)
        → difference_of (places rows.items) (places other.now.cubes) p
        ≡ difference_of (places list.now.cubes) (places other.now.cubes) p) }
{
    let rows = list.as_slice();
    if rows.len() < 2 || rows.len().saturating_mul(other.len()) > MOST_PAIRS {
        return Ok(list.try_clone()?.into_cubes());
    }
    rows_not_held(rows, other)
}

/// The complete sum of the places that are in the first list and not in the second, of one shape.
///
/// Rows of the first list that lie wholly in the second are left out first: for two versions of one
/// function little is left then. Both lists are then split together, so no complement is formed.
/// The cost is that of a question to the second list for each row of the first, where these are
/// several and not too many, and that of [`complete_sum`], with the cubes that are left of both.
///
/// # Errors
///
/// [`AllocError`] if memory is refused.
pub fn difference(list: &Cover, other: &Cover) -> Result<Cover, AllocError>
    requires { other.now.size ≡ list.now.size }
    ensures { IfOk result (λ sum. sum ≡ record {
      size = list.now.size;
      cubes = complete_sum_of list.now.size
          (difference_of (places list.now.cubes) (places other.now.cubes));
    }) }
{
    let alloc = list.allocator();
    let shape = list.shape();
    let minuend = rows_to_subtract_from(list, other)?;
    let subtrahend = other.try_clone()?.into_cubes();
    let sum = sum_of_difference(alloc, shape, minuend, subtrahend)?;
    Ok(Cover::from_cubes(shape, sum))
}

impl Cover {
    /// The complete sum of the places that are in no cube of the list: the [`difference`] between
    /// all places and the list, at the cost of its sum.
    ///
    /// # Errors
    ///
    /// [`AllocError`] if memory is refused.
    pub fn complement(&self) -> Result<Cover, AllocError>
        ensures { IfOk result (λ sum. sum ≡ record {
          size = self.now.size;
          cubes = complete_sum_of self.now.size (λ p. not (places self.now.cubes p));
        }) }
    {
        let alloc = self.allocator();
        let shape = self.shape();
        let mut minuend = Vec::new(alloc);
        let everything = universal_cube(alloc, shape)?;
        minuend.push(everything)?;
        let subtrahend = self.try_clone()?.into_cubes();
        let sum = sum_of_difference(alloc, shape, minuend, subtrahend)?;
        Ok(Cover::from_cubes(shape, sum))
    }
}

/// The cubes of the list that contain the region, in their order.
///
/// # Errors
///
/// [`AllocError`] if memory is refused.
pub fn cubes_containing(region: &Cube, list: &Cover) -> Result<Cover, AllocError>
    requires { HasSize region.now list.now.size }
    ensures { IfOk result (λ kept. kept ≡ record {
      size = list.now.size;
      cubes = filter (is_within list.now.size region.now) list.now.cubes;
    }) }
{
    let shape = list.shape();
    let kept = rows_containing(list.allocator(), region, list.as_slice())?;
    Ok(Cover::from_cubes(shape, kept))
}

/// The cubes of the complete sum of the places outside `off` that contain the region, in row order:
/// the largest cubes that contain it and have no place of `off`. `None` once the list of cubes so
/// far is longer than `most`.
///
/// Each row of `off` that meets a cube of the list cuts it. The list is never longer than the
/// number of cubes that are largest beside some of the rows.
///
/// # Errors
///
/// [`AllocError`] if memory is refused.
pub fn sum_containing(region: &Cube, off: &Cover, most: usize) -> Result<Option<Cover>, AllocError>
    requires { HasSize region.now off.now.size }
    ensures { IfOk result (λ o. IfSome o (λ sum. sum ≡ record {
      size = off.now.size;
      cubes = sum_containing_of off.now.size (λ p. not (places off.now.cubes p)) region.now;
    })) }
{
    let alloc = off.allocator();
    let shape = off.shape();
    let Some(cubes) = largest_containing(alloc, shape, region, off.as_slice(), most)? else {
        return Ok(None);
    };
    Ok(Some(Cover::from_cubes(shape, cubes)))
}
