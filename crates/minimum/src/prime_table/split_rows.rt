//! Rows from split cubes.
//!
//! A region is a cube of one output. The primes, the ON cubes and the DC cubes that have a place of
//! it are known by their numbers. If no ON cube is left, or a DC cube holds the region, no place of
//! it is wanted; if each column of an earlier row holds the region, that row already asks for more.
//! If no DC cube is left and one prime alone, or if nothing has a literal inside the region, the
//! primes that are left are the row of its wanted places. Else the region is split at such a
//! literal. So places that the same primes hold are looked at together, and mostly once.

ghost use Rattle.std.specs.Prelude.{◌≡◌, ◌==◌, ℕ, true, IfOk, OnOk, MatchOption, MatchBool, IfSome, length};
ghost use Rattle.std.specs.List.{list_any};
ghost use Rattle.cube.specs.Cube.{Place, holds, difference};
ghost use Rattle.cover.specs.Places.{places};
ghost use Rattle.covering.specs.Table.{has, RisesFrom, items_of};
ghost use Rattle.covering.specs.Reduce.{holds_all};
ghost use Rattle.minimum.specs.PrimeRows.{holds_at, IsFree, IsSplit, IsIntersecting, IsSettled, IsOpen, HasRowsFor, AddsRows};

use crate::numbered_cubes::{any_contains, first_inside, numbers_containing, numbers_intersecting};
use crate::prime_table::halving_input::halving_input;
use crate::prime_table::known_rows::KnownRows;
use covering::{copy_of, is_blank};
use cube::{Cube, Symbol};
use std::alloc::{AllocError, Global};
use std::mem::replace;

/// The lists that are split against each other.
#[derive(Clone, Copy)]
pub(crate) struct Lists<'a> {
    pub(crate) primes: &'a [Cube],
    pub(crate) on: &'a [Cube],
    pub(crate) dc: &'a [Cube],
}

/// Those of their cubes that may have a place of a region, by their numbers.
pub(crate) struct Candidates {
    pub(crate) primes: Vec<usize>,
    pub(crate) on: Vec<usize>,
    pub(crate) dc: Vec<usize>,
}

// Written out, so that where they end a proof has one call, and no case for each list.
impl Drop for Candidates {
    fn drop(self) {
        let Candidates {
            primes: _,
            on: _,
            dc: _,
        } = self;
    }
}

/// Whether there is exactly one number.
fn is_alone(numbers: &[usize]) -> bool
    ensures { result ≡ (length numbers.now == 1) }
{
    numbers.len() == 1
}

impl<'a> Lists<'a> {
    /// Of these candidates those whose cubes have a place of the region.
    fn candidates(
        &self,
        alloc: Global,
        candidates: &Candidates,
        region: &Cube,
    ) -> Result<Candidates, AllocError>
        requires { IsSplit self.now.primes.now self.now.on.now self.now.dc.now region.now
            candidates.now.primes.items candidates.now.on.items candidates.now.dc.items }
        ensures { IfOk result (λ n. IsIntersecting self.now.primes.now self.now.on.now self.now.dc.now
            region.now n.primes.items n.on.items n.dc.items) }
    {
        Ok(Candidates {
            primes: numbers_intersecting(alloc, self.primes, region, &candidates.primes)?,
            on: numbers_intersecting(alloc, self.on, region, &candidates.on)?,
            dc: numbers_intersecting(alloc, self.dc, region, &candidates.dc)?,
        })
    }

    /// The rising numbers of primes that hold each wanted place of the region: the one candidate,
    /// or those that contain the region.
    fn common_primes(
        &self,
        alloc: Global,
        candidates: &Candidates,
        region: &Cube,
    ) -> Result<Vec<usize>, AllocError>
        requires { IsIntersecting self.now.primes.now self.now.on.now self.now.dc.now region.now
            candidates.now.primes.items candidates.now.on.items candidates.now.dc.items }
        ensures rises { IfOk result (λ v. RisesFrom 0 v.items) }
        ensures hold { IfOk result (λ v. (i : ℕ) (p : Place) → has i v.items ≡ true
            → holds region.now p ≡ true → difference (places self.now.on.now)
            (places self.now.dc.now) p ≡ true → holds_at self.now.primes.now i p ≡ true) }
    {
        if is_alone(&candidates.primes) {
            return copy_of(alloc, &candidates.primes);
        }
        numbers_containing(alloc, self.primes, region, &candidates.primes)
    }

    /// Whether it is seen that no place of the region is wanted, or that a known row asks for more
    /// than its places do.
    fn needs_no_row(
        &self,
        alloc: Global,
        candidates: &Candidates,
        region: &Cube,
        known: &KnownRows,
    ) -> Result<bool, AllocError>
        requires { IsIntersecting self.now.primes.now self.now.on.now self.now.dc.now region.now
            candidates.now.primes.items candidates.now.on.items candidates.now.dc.items }
        ensures { IfOk result (λ b. MatchBool b (HasRowsFor self.now.primes.now self.now.on.now
            self.now.dc.now (holds region.now) (items_of known.now.rows.items))
            (IsOpen self.now.dc.now region.now candidates.now.on.items candidates.now.dc.items)) }
    {
        if is_blank(&candidates.on) || any_contains(self.dc, region, &candidates.dc) {
            return Ok(true);
        }
        let common_primes = self.common_primes(alloc, candidates, region)?;
        Ok(known.any_within(&common_primes))
    }

    /// An input to split the region at; `None` if its wanted places are in the same primes.
    fn split(&self, candidates: &Candidates, region: &Cube) -> Option<usize>
        requires touched { IsIntersecting self.now.primes.now self.now.on.now self.now.dc.now region.now
            candidates.now.primes.items candidates.now.on.items candidates.now.dc.items }
        requires open { IsOpen self.now.dc.now region.now candidates.now.on.items
            candidates.now.dc.items }
        ensures { MatchOption result (IsSettled self.now.primes.now self.now.on.now self.now.dc.now
            region.now candidates.now.primes.items) (IsFree region.now) }
    {
        if is_alone(&candidates.primes) && is_blank(&candidates.dc) {
            return None;
        }
        match first_inside(self.primes, region, &candidates.primes) {
            Some(i) => Some(i),
            None => first_inside(self.dc, region, &candidates.dc),
        }
    }

    /// Adds the rows of the region's wanted places, but for those that rows have already.
    pub(crate) fn add_rows(
        &self,
        alloc: Global,
        candidates: &Candidates,
        region: &Cube,
        known: &mut KnownRows,
    ) -> Result<(), AllocError>
        requires { IsSplit self.now.primes.now self.now.on.now self.now.dc.now region.now
            candidates.now.primes.items candidates.now.on.items candidates.now.dc.items }
        ensures { OnOk result (AddsRows self.now.primes.now self.now.on.now self.now.dc.now
            (holds region.now) (items_of known.old.rows.items) (items_of known.new.rows.items)) }
    {
        let mut candidates = self.candidates(alloc, candidates, region)?;
        if self.needs_no_row(alloc, &candidates, region, known)? {
            return Ok(());
        }
        let Some(i) = self.split(&candidates, region) else {
            known.push(replace(&mut candidates.primes, Vec::new(alloc)))?;
            return Ok(());
        };
        {
            let low = region.with_symbol(i, Symbol::Zero)?;
            self.add_rows(alloc, &candidates, &low, known)?;
        }
        let high = region.with_symbol(i, Symbol::One)?;
        self.add_rows(alloc, &candidates, &high, known)
    }

    /// Adds the rows of the region's wanted places ON cube by ON cube: so primes that are of no use
    /// to a cube's places do not multiply its splits.
    fn add_rows_by_cubes(
        &self,
        alloc: Global,
        candidates: &Candidates,
        region: &Cube,
        known: &mut KnownRows,
    ) -> Result<(), AllocError>
        requires { IsSplit self.now.primes.now self.now.on.now self.now.dc.now region.now
            candidates.now.primes.items candidates.now.on.items candidates.now.dc.items }
        ensures { OnOk result (AddsRows self.now.primes.now self.now.on.now self.now.dc.now
            (holds region.now) (items_of known.old.rows.items) (items_of known.new.rows.items)) }
    {
        for number in &candidates.on {
            if let Some(part) = self.on[*number].meet(region)? {
                self.add_rows(alloc, candidates, &part, known)?;
            }
        }
        Ok(())
    }

    /// An input to halve the region at, if that sets its ON cubes apart.
    fn halving_input(&self, candidates: &Candidates, region: &Cube) -> Option<usize>
        ensures { IfSome result (IsFree region.now) }
    {
        let i = halving_input(self.on, &candidates.on, region)?;
        if i < region.shape().inputs() && region.symbol(i) == Symbol::Dash {
            return Some(i);
        }
        None
    }

    /// Adds the rows of the region's wanted places half by half while a region has many ON cubes,
    /// and then ON cube by ON cube: so a prime and an ON cube that lie in different halves never
    /// come together.
    pub(crate) fn add_rows_by_halves(
        &self,
        alloc: Global,
        candidates: &Candidates,
        region: &Cube,
        known: &mut KnownRows,
    ) -> Result<(), AllocError>
        requires { IsSplit self.now.primes.now self.now.on.now self.now.dc.now region.now
            candidates.now.primes.items candidates.now.on.items candidates.now.dc.items }
        ensures { OnOk result (AddsRows self.now.primes.now self.now.on.now self.now.dc.now
            (holds region.now) (items_of known.old.rows.items) (items_of known.new.rows.items)) }
    {
        let candidates = self.candidates(alloc, candidates, region)?;
        let Some(i) = self.halving_input(&candidates, region) else {
            return self.add_rows_by_cubes(alloc, &candidates, region, known);
        };
        {
            let low = region.with_symbol(i, Symbol::Zero)?;
            self.add_rows_by_halves(alloc, &candidates, &low, known)?;
        }
        let high = region.with_symbol(i, Symbol::One)?;
        self.add_rows_by_halves(alloc, &candidates, &high, known)
    }
}
