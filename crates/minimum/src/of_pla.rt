//! Steps to the answers for a description, whose lists are made as far as they are needed: cubes with the
//! places of OFF alone under fr, primes outside them, essential primes. (`primes_of_pla` and its like, which
//! take these steps, stand in `fewer_rows`.)

ghost use Rattle.std.specs.Prelude.{◌≡◌, ◌||◌, IfOk, IfSome, not, true};
ghost use Rattle.cube.specs.Cube.{IsPlace, Place, difference as difference_of};
ghost use Rattle.cover.specs.Places.{places};
ghost use Rattle.pla.specs.Completed.{sets_of};
ghost use Rattle.minimum.specs.Primes.{essential_of, primes_of};

use crate::essential_by_neighbours::{find_essential, find_essential_outside};
use crate::essential_primes::essential;
use crate::prime_implicants::primes;
use crate::way_hints::{budget_of_dont_cares, budget_of_off, uses_growth};
use cover::{Cover, complete_sum, outside, subtract};
use pla::{FileType, Pla, Sets};
use std::alloc::{AllocError, Global};

// Cubes of the places of the OFF list that the ON list does not hold, under fr, unless that is too
// much: outside them are the places of the ON-set with what neither list holds.
pub(crate) fn off_alone(pla: &Pla) -> Result<Option<Cover>, AllocError>
    ensures file_type { IfOk result (λ o. IfSome o (λ _. pla.now.file_type ≡ FileType.Fr)) }
    ensures size { IfOk result (λ o. IfSome o (λ off. off.size ≡ pla.now.size)) }
    ensures places { IfOk result (λ o. IfSome o (λ off. (p : Place) → IsPlace pla.now.size p
        → places off.cubes p ≡ difference_of (places pla.now.off) (places pla.now.on) p)) }
{
    match pla.file_type() {
        FileType::Fr => subtract(pla.off(), pla.on(), budget_of_off(pla)),
        FileType::F | FileType::Fd | FileType::Fdr => Ok(None),
    }
}

// Cubes of the places that neither list holds, where these take few.
fn few_dont_cares(pla: &Pla) -> Result<Option<Cover>, AllocError>
    ensures size { IfOk result (λ o. IfSome o (λ dc. dc.size ≡ pla.now.size)) }
    ensures places { IfOk result (λ o. IfSome o (λ dc. (p : Place) → IsPlace pla.now.size p
        → places dc.cubes p ≡ not (places pla.now.on p || places pla.now.off p))) }
{
    let mut all = pla.on().try_clone()?;
    all.append(pla.off())?;
    outside(&all, budget_of_dont_cares(pla))
}

// The primes under fr, where OFF alone holds these places: the complete sum of the ON list with what
// neither list holds, where that is few cubes, or else of all places outside. In machines few codes
// are no state, and the former is made in a tenth of the time of the latter; of samples nearly all
// places are don't-cares.
pub(crate) fn primes_under_fr(pla: &Pla, off: &Cover) -> Result<Cover, AllocError>
    requires file_type { pla.now.file_type ≡ FileType.Fr }
    requires size { off.now.size ≡ pla.now.size }
    requires places { (p : Place) → IsPlace pla.now.size p
        → places off.now.cubes p ≡ difference_of (places pla.now.off) (places pla.now.on) p }
    ensures { IfOk result (λ list. list ≡ record {
      size = pla.now.size;
      cubes = primes_of (sets_of pla.now true true);
    }) }
{
    let Some(dc) = few_dont_cares(pla)? else {
        return off.complement();
    };
    let mut valid = pla.on().try_clone()?;
    valid.append(&dc)?;
    complete_sum(&valid)
}

// The essential primes of the sets.
pub(crate) fn essential_of_sets(alloc: Global, sets: &Sets) -> Result<Cover, AllocError>
    ensures { IfOk result (λ list. list ≡ record {
      size = sets.now.size;
      cubes = essential_of sets.now (primes_of sets.now);
    }) }
{
    if uses_growth(sets)? {
        return find_essential(alloc, sets);
    }
    let primes = primes(sets)?;
    essential(alloc, sets, &primes)
}

// The essential primes under fr, outside these places, which OFF alone holds.
pub(crate) fn essential_outside(alloc: Global, pla: &Pla, off: &Cover) -> Result<Cover, AllocError>
    requires file_type { pla.now.file_type ≡ FileType.Fr }
    requires size { off.now.size ≡ pla.now.size }
    requires places { (p : Place) → IsPlace pla.now.size p
        → places off.now.cubes p ≡ difference_of (places pla.now.off) (places pla.now.on) p }
    ensures { IfOk result (λ list. list ≡ record {
      size = pla.now.size;
      cubes = essential_of (sets_of pla.now true true) (primes_of (sets_of pla.now true true));
    }) }
{
    find_essential_outside(alloc, pla.on(), off)
}
