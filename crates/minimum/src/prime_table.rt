//! The table of the primes.
//!
//! Its rows come from regions that are split until their places lie in the same primes, output by
//! output; no point is listed. A region of many ON cubes is halved first, so that primes and ON
//! cubes that are far apart never come together. It takes a look at each cube that is left for each
//! region, and memory for the rows and for a list of numbers at each level of the splits.

ghost use Rattle.std.specs.Prelude.{◌≡◌, ◌≤◌, IfOk, length, map};
ghost use Rattle.cube.specs.Cube.{literals as literals_of};
ghost use Rattle.cube.specs.Limits.{IsWithinLimits, format_limits};
ghost use Rattle.cover.specs.Cubes.{AreCubes};
ghost use Rattle.covering.specs.Table.{items_of};
ghost use Rattle.pla.specs.Sets.{SetLists};
ghost use Rattle.minimum.specs.declared.points.source.Source.{Source};
ghost use Rattle.minimum.specs.Points.{lists_of, IsSource, StandsFor};
ghost use Rattle.minimum.specs.Primes.{primes_of};
ghost use Rattle.minimum.specs.PrimeTable.{HasPrimeColumns, HasPrimeCovers};
ghost use Rattle.minimum.specs.PrimeRows.{AreEnough, AreRowsOf};

mod halving_input;
mod known_rows;
mod split_rows;

use crate::prime_table::known_rows::KnownRows;
use crate::prime_table::split_rows::{Candidates, Lists};
use cover::Cover;
use covering::{Table, numbers};
use cube::{Cube, Shape};
use pla::Sets;
use rows::cube_of_output;
use std::alloc::{AllocError, Global};
use std::mem::replace;

/// The number of literals.
fn weight(cube: &Cube) -> u32
    requires { length cube.now.symbols ≤ format_limits.inputs }
    ensures { result ≡ literals_of cube.now }
{
    cube.literals() as u32
}

/// Each cube's number of literals: the weight of its column.
pub(crate) fn weights(alloc: Global, list: &Cover) -> Result<Vec<u32>, AllocError>
    requires { IsWithinLimits format_limits list.now.size }
    ensures { IfOk result (λ v. v.items ≡ map literals_of list.now.cubes) }
{
    let mut weights = Vec::with_capacity(alloc, list.len())?;
    for cube in list.as_slice() {
        weights.push(weight(cube))?;
    }
    Ok(weights)
}

/// Rows for all wanted places, output by output: each has the rising numbers of the primes that
/// hold its places. Places of which an earlier row asks more have none of their own.
fn rows_of(alloc: Global, lists: &Lists, shape: Shape) -> Result<Vec<Vec<usize>>, AllocError>
    requires primes { AreCubes shape lists.now.primes.now }
    requires on { AreCubes shape lists.now.on.now }
    requires dc { AreCubes shape lists.now.dc.now }
    requires enough { AreEnough lists.now.primes.now lists.now.on.now lists.now.dc.now }
    ensures rows { IfOk result (λ v. AreRowsOf lists.now.primes.now lists.now.on.now
        lists.now.dc.now (items_of v.items)) }
    ensures limits { IfOk result (λ v. IsWithinLimits format_limits shape) }
{
    let candidates = Candidates {
        primes: numbers(alloc, lists.primes.len())?,
        on: numbers(alloc, lists.on.len())?,
        dc: numbers(alloc, lists.dc.len())?,
    };
    let mut known = KnownRows::new(alloc, lists.primes.len())?;
    for j in 0..shape.outputs() {
        let region = cube_of_output(alloc, shape, j)?;
        lists.add_rows_by_halves(alloc, &candidates, &region, &mut known)?;
    }
    Ok(replace(&mut known.rows, Vec::new(alloc)))
}

/// What is made of all primes, for callers who have them: a table knows no cubes, so `Table::build` is
/// called through this.
pub trait OfPrimes: Sized {
    /// The table of the primes, as [`crate::primes`] answers them: a column for each, none taken
    /// and all live, weighed by its literals. Its covers are the lists of primes that together hold
    /// each place of the ON-set that is not in the DC-set.
    ///
    /// It may have as many rows as there are such places that lie in different primes; no point is
    /// listed.
    fn build(alloc: Global, primes: &Cover, sets: &Sets) -> Result<Self, AllocError>
        requires { primes.now ≡ record { size = sets.now.size; cubes = primes_of sets.now } };
}

/// The table of all primes of three sets, by an ON list and a DC list that tell which places are
/// wanted.
pub(crate) fn table_of_primes(
    alloc: Global,
    primes: &Cover,
    on: &Cover,
    dc: &Cover,
) -> Result<Table, AllocError>
    ghost sets: { SetLists }
    requires dc { dc.now.size ≡ on.now.size }
    requires primes { IsSource on.now.size (Source.Primes primes.now) }
    requires same { StandsFor sets (lists_of on.now dc.now) (Source.Primes primes.now) }
    ensures columns { IfOk result (HasPrimeColumns sets) }
    ensures covers { IfOk result (HasPrimeCovers sets) }
{
    let lists = Lists {
        primes: primes.as_slice(),
        on: on.as_slice(),
        dc: dc.as_slice(),
    };
    let rows = rows_of(alloc, &lists, primes.shape())?;
    let weights = weights(alloc, primes)?;
    match Table::new(alloc, rows, weights)? {
        Some(table) => Ok(table),
        None => unreachable!(),
    }
}

impl OfPrimes for Table {
    fn build(alloc: Global, primes: &Cover, sets: &Sets) -> Result<Table, AllocError>
        requires { primes.now ≡ record { size = sets.now.size; cubes = primes_of sets.now } }
        ensures columns { IfOk result (HasPrimeColumns sets.now) }
        ensures covers { IfOk result (HasPrimeCovers sets.now) }
    {
        table_of_primes(alloc, primes, sets.on(), sets.dc())
    }
}
