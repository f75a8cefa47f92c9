//! Copies of those cubes of a list that have some numbers.

ghost use Rattle.std.specs.Prelude.{◌≡◌, IfOk};
ghost use Rattle.minimum.specs.Primes.{chosen};

use cover::Cover;
use growth::add_copy;
use std::alloc::{AllocError, Global};

/// Copies of the list's cubes with these numbers, in the order of the numbers; a number past the
/// end adds none.
pub(crate) fn cubes_at(alloc: Global, list: &Cover, numbers: &[usize]) -> Result<Cover, AllocError>
    ensures { IfOk result (λ l. l ≡ record {
      size = list.now.size;
      cubes = chosen list.now.cubes numbers.now;
    }) }
{
    let mut picked = Cover::new(alloc, list.shape());
    for number in numbers {
        if let Some(cube) = list.get(*number) {
            add_copy(&mut picked, cube)?;
        }
    }
    Ok(picked)
}
