//! All primes of a function: the complete sum of its ON-set and DC-set together, and the list of both.

ghost use Rattle.std.specs.Prelude.{◌≡◌, ◌++◌, IfOk};
ghost use Rattle.minimum.specs.Primes.{primes_of};

use cover::{Cover, complete_sum};
use pla::Sets;
use std::alloc::AllocError;

/// The ON cubes and then the DC cubes.
pub(crate) fn on_and_dc(sets: &Sets) -> Result<Cover, AllocError>
    ensures { IfOk result (λ rows. rows ≡ record { size = sets.now.size; cubes = sets.now.on ++ sets.now.dc }) }
{
    let mut rows = sets.on().try_clone()?;
    rows.append(sets.dc())?;
    Ok(rows)
}

/// The primes, in row order: the largest cubes of places that are in the ON-set or the DC-set
/// (Brayton et al. 1984). Those that lie in the DC-set alone are among them. Costs what
/// [`complete_sum`] does, and a copy of both lists.
pub fn primes(sets: &Sets) -> Result<Cover, AllocError>
    ensures { IfOk result (λ sum. sum ≡ record {
      size = sets.now.size;
      cubes = primes_of sets.now;
    }) }
{
    complete_sum(&on_and_dc(sets)?)
}
