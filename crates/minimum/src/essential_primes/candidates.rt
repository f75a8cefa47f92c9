//! Candidates for essential primes: those that alone hold a cube of the ON-set.
//!
//! An essential prime holds a wanted place that no other prime holds. The place is in a cube of the
//! ON-set; this cube lies in some prime, as each such cube does, and that is a prime with the
//! place: the essential one, and no other. So a prime that holds no cube of the ON-set alone is not
//! essential, and there are no more candidates than such cubes.

ghost use Rattle.std.specs.Prelude.{◌≡◌, ◌<◌, ◌≤◌, ◌+◌, ℕ, true, false, IfOk, All, length};
ghost use Rattle.cube.specs.Cube.{SameSize};
ghost use Rattle.minimum.specs.PrimeRows.{contains_region};
ghost use Rattle.minimum.specs.EssentialPrimes.{UnmarksCandidate, AreNonCandidates};

use crate::numbered_cubes::contains_region;
use covering::{all_marked, unmark};
use cube::Cube;
use std::alloc::{AllocError, Global};

/// The number of the first prime from a number on that holds the cube; how many primes there are if
/// none does.
fn containing_prime(primes: &[Cube], cube: &Cube, from: usize) -> usize
    requires size { All (λ d. SameSize d cube.now) primes.now }
    requires from { from ≤ length primes.now }
    ensures range { (from ≤ result) × (result ≤ length primes.now) }
    ensures before { (n : ℕ) → from ≤ n → n < result → contains_region primes.now cube.now n ≡ false }
    ensures holds { result < length primes.now → contains_region primes.now cube.now result ≡ true }
{
    for number in from..primes.len() {
        if contains_region(primes, cube, number) {
            return number;
        }
    }
    primes.len()
}

/// Takes the mark from the prime that alone holds the cube, if there is one.
fn unmark_candidate(non_candidates: &mut Vec<bool>, primes: &[Cube], cube: &Cube)
    requires { All (λ d. SameSize d cube.now) primes.now }
    ensures { UnmarksCandidate primes.now cube.now non_candidates.old.items
        non_candidates.new.items }
{
    let first = containing_prime(primes, cube, 0);
    if first == primes.len() {
        return;
    }
    if containing_prime(primes, cube, first + 1) == primes.len() {
        unmark(non_candidates, first);
    }
}

/// A mark for each prime: it is set where each cube of the ON-set that the prime holds lies in
/// another prime too. An empty list if that is not less work than to ask each prime.
pub(crate) fn non_candidates(
    alloc: Global,
    primes: &[Cube],
    on: &[Cube],
) -> Result<Vec<bool>, AllocError>
    requires { All (λ c. All (λ d. SameSize d c) primes.now) on.now }
    ensures { IfOk result (λ v. AreNonCandidates primes.now on.now (length on.now) v.items) }
{
    if primes.len() <= on.len() {
        return Ok(Vec::new(alloc));
    }
    let mut non_candidates = all_marked(alloc, primes.len())?;
    for cube in on {
        unmark_candidate(&mut non_candidates, primes, cube);
    }
    Ok(non_candidates)
}
