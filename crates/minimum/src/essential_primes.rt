//! The essential primes, from a list of all primes. `essential_by_neighbours` finds them without
//! that list.

ghost use Rattle.std.specs.Prelude.{◌≡◌, ◌<◌, ◌||◌, IfOk, All, filter, length};
ghost use Rattle.cube.specs.Cube.{SameSize, IsCube, IsSubset, holds};
ghost use Rattle.cover.specs.Cubes.{AreCubes};
ghost use Rattle.cover.specs.Places.{places};
ghost use Rattle.cover.specs.Marks.{cube_at};
ghost use Rattle.minimum.specs.Primes.{primes_of, essential_of, is_essential};
ghost use Rattle.minimum.specs.EssentialPrimes.{intersects_cube, is_rival, AreNonCandidates};

mod candidates;

use crate::essential_primes::candidates::non_candidates;
use cover::Cover;
use covering::is_marked;
use cube::Cube;
use growth::add_copy;
use pla::Sets;
use std::alloc::{AllocError, Global};

/// Whether the cube has a place of the prime.
#[inline(always)]
fn intersects_cube(prime: &Cube, cube: &Cube) -> bool
    requires { SameSize cube.now prime.now }
    ensures { result ≡ intersects_cube prime.now cube.now }
{
    !cube.disjoint(prime)
}

/// Whether it is another cube with a place of the prime.
fn is_rival(prime: &Cube, cube: &Cube) -> bool
    requires { SameSize cube.now prime.now }
    ensures { result ≡ is_rival prime.now cube.now }
{
    intersects_cube(prime, cube) && !cube.row_cmp(prime).is_eq()
}

/// Copies of the cubes that have a place of the prime, in their order.
fn intersecting_cubes(alloc: Global, cubes: &[Cube], prime: &Cube) -> Result<Vec<Cube>, AllocError>
    requires { All (λ d. SameSize d prime.now) cubes.now }
    ensures { IfOk result (λ v. v.items ≡ filter (intersects_cube prime.now) cubes.now) }
{
    let mut kept = Vec::new(alloc);
    for cube in cubes {
        if intersects_cube(prime, cube) {
            kept.push(cube.try_clone()?)?;
        }
    }
    Ok(kept)
}

/// Copies of the cubes other than the prime that have a place of it, in their order.
fn rivals(alloc: Global, cubes: &[Cube], prime: &Cube) -> Result<Vec<Cube>, AllocError>
    requires { All (λ d. SameSize d prime.now) cubes.now }
    ensures { IfOk result (λ v. v.items ≡ filter (is_rival prime.now) cubes.now) }
{
    let mut kept = Vec::new(alloc);
    for cube in cubes {
        if is_rival(prime, cube) {
            kept.push(cube.try_clone()?)?;
        }
    }
    Ok(kept)
}

/// Whether other primes and the DC-set together leave out a place of the prime: such a place is
/// wanted, as the prime lies in the ON-set with the DC-set.
fn is_essential(
    alloc: Global,
    sets: &Sets,
    primes: &Cover,
    prime: &Cube,
) -> Result<bool, AllocError>
    requires size { primes.now.size ≡ sets.now.size }
    requires is_cube { IsCube sets.now.size prime.now }
    requires within { IsSubset (holds prime.now) (λ p. places sets.now.on p
        || places sets.now.dc p) }
    ensures { IfOk result (λ b. b ≡ is_essential sets.now primes.now.cubes prime.now) }
{
    let mut rest = rivals(alloc, primes.as_slice(), prime)?;
    let mut dc = intersecting_cubes(alloc, sets.dc().as_slice(), prime)?;
    rest.append(&mut dc)?;
    let held = Cover::from_cubes(primes.shape(), rest).holds_cube(prime)?;
    Ok(!held)
}

/// Whether the prime with this number is essential; one that is marked, as it holds no cube of the
/// ON-set alone, is not.
fn is_essential_at(
    alloc: Global,
    sets: &Sets,
    primes: &Cover,
    non_candidates: &[bool],
    number: usize,
    prime: &Cube,
) -> Result<bool, AllocError>
    requires primes { primes.now ≡ record { size = sets.now.size; cubes = primes_of sets.now } }
    requires on { AreCubes sets.now.size sets.now.on }
    requires below { number < length (primes_of sets.now) }
    requires at { prime.now ≡ cube_at (primes_of sets.now) number }
    requires non_candidates { AreNonCandidates (primes_of sets.now) sets.now.on (length sets.now.on)
        non_candidates.now }
    ensures { IfOk result (λ b. b ≡ is_essential sets.now (primes_of sets.now) prime.now) }
{
    if is_marked(non_candidates, number) {
        return Ok(false);
    }
    is_essential(alloc, sets, primes, prime)
}

/// The essential primes among the primes, as [`primes`] answers them, in their order: those that
/// hold a place of the ON-set that is neither in the DC-set nor in another prime (Brayton et al.
/// 1984).
///
/// If the ON-set has fewer cubes than there are primes, it first finds the primes that hold one of
/// its cubes alone, as no other is essential. Each of them is compared with all primes; whether
/// those that have a place of it hold all of it is asked by cofactors.
pub fn essential(alloc: Global, sets: &Sets, primes: &Cover) -> Result<Cover, AllocError>
    requires { primes.now ≡ record { size = sets.now.size; cubes = primes_of sets.now } }
    ensures { IfOk result (λ list. list ≡ record
        { size = sets.now.size; cubes = essential_of sets.now (primes_of sets.now) }) }
{
    let non_candidates = non_candidates(alloc, primes.as_slice(), sets.on().as_slice())?;
    let mut list = Cover::new(alloc, primes.shape());
    for (number, prime) in primes.as_slice().iter().enumerate() {
        if is_essential_at(alloc, sets, primes, &non_candidates, number, prime)? {
            add_copy(&mut list, prime)?;
        }
    }
    Ok(list)
}
