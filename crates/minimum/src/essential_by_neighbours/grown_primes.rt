//! The primes that were grown so far.
//!
//! An essential prime that has a place of its own in a cube is the only prime that contains it. So
//! a cube that lies in some prime of which it is known whether it is essential need not be grown.

ghost use Rattle.std.specs.Prelude.{◌≡◌, ◌⊎◌, [], true, OnOk, All};
ghost use Rattle.cube.specs.Cube.{SameSize};
ghost use Rattle.growth.specs.Growth.{LiesInOneOf};
ghost use Rattle.minimum.specs.Neighbours.{AddsPrime};

use cube::Cube;
use growth::lies_in_one_of;
use std::alloc::{AllocError, Global};

/// The primes that were grown so far.
#[derive(Drop)]
pub(crate) struct GrownPrimes {
    /// Those that are essential.
    pub(crate) essential: Vec<Cube>,
    /// Those that are not.
    pub(crate) others: Vec<Cube>,
}

impl GrownPrimes {
    /// No prime.
    pub(crate) fn new(alloc: Global) -> GrownPrimes
        ensures essential { result.essential.items ≡ [] }
        ensures others { result.others.items ≡ [] }
    {
        GrownPrimes {
            essential: Vec::new(alloc),
            others: Vec::new(alloc),
        }
    }

    /// Whether one of them contains the cube.
    pub(crate) fn contain(&self, cube: &Cube) -> bool
        requires essential { All (λ d. SameSize d cube.now) self.now.essential.items }
        requires others { All (λ d. SameSize d cube.now) self.now.others.items }
        ensures { result ≡ true → LiesInOneOf self.now.essential.items cube.now
            ⊎ LiesInOneOf self.now.others.items cube.now }
    {
        lies_in_one_of(cube, &self.essential) || lies_in_one_of(cube, &self.others)
    }

    /// Adds a prime.
    pub(crate) fn add(&mut self, prime: Cube, is_essential: bool) -> Result<(), AllocError>
        ensures { OnOk result (AddsPrime self.old self.new prime is_essential) }
    {
        if is_essential {
            self.essential.push(prime)?;
        } else {
            self.others.push(prime)?;
        }
        Ok(())
    }
}
