//! What proposes places of a function: the calls of this crate.

use crate::function::Function;
use crate::prime_list::PrimeList;
use crate::rows::{Place, Rows};
use crate::search::Search;
use std::alloc::{AllocError, Global};

// Up to so many rows and outputs of samples, all places are proposed at once: a search for maximal
// signature cubes leaves few of them out, and takes far longer than their columns.
const FEW_PLACES: usize = 2_000;

/// A function, of which places are proposed.
pub struct Proposer {
    alloc: Global,
    function: Function,
    // All primes, where they are known.
    primes: Option<PrimeList>,
}

impl Drop for Proposer {
    fn drop(self) {
        let Proposer {
            alloc: _,
            function: _,
            primes: _,
        } = self;
    }
}

impl Proposer {
    /// By the OFF rows, which hold all places that neither ON nor DC holds, and no other. With
    /// `samples` DC is all that neither ON nor OFF holds, and the DC rows are empty.
    pub fn by_off(
        alloc: Global,
        on: &Rows,
        dc: &Rows,
        off: &Rows,
        samples: bool,
    ) -> Result<Proposer, AllocError> {
        let function = Function::new(alloc, on, dc, off, samples)?;
        Ok(Proposer {
            alloc,
            function,
            primes: None,
        })
    }

    /// By a list of all primes in place of OFF rows. With `samples` wanted places lie in ON rows
    /// alone.
    pub fn by_primes(
        alloc: Global,
        on: &Rows,
        dc: &Rows,
        primes: Rows,
        samples: bool,
    ) -> Result<Proposer, AllocError> {
        let function = Function::without_off(alloc, on, dc, samples)?;
        Ok(Proposer {
            alloc,
            function,
            primes: Some(PrimeList::new(alloc, primes)?),
        })
    }

    // Whether the ON rows are samples that are few, and points, and the primes are not known.
    fn takes_all_places(&self, on: &Rows) -> bool {
        self.function.samples
            && self.primes.is_none()
            && on.len().saturating_mul(on.outputs()) <= FEW_PLACES
            && on.are_points()
    }

    /// Wanted places, one for each signature cube of these ON rows that has a place of its own; of
    /// samples, where they are few, all places.
    pub fn first_places(&self, on: &Rows) -> Result<Vec<Place>, AllocError> {
        if self.takes_all_places(on) {
            return on.places(self.alloc);
        }
        let mut search = Search::new(self.alloc, &self.function, self.primes.as_ref())?;
        search.add_signatures_of_rows(on)?;
        search.maximal_places()
    }

    /// Wanted places of these ON rows that the cover leaves out, at most one for each row and each
    /// of its outputs. One that is not found within the limits is missed.
    pub fn places_left_out(&self, on: &Rows, cover: &Rows) -> Result<Vec<Place>, AllocError> {
        let mut search = Search::new(self.alloc, &self.function, self.primes.as_ref())?;
        search.add_signatures_left_out(on, cover)?;
        search.maximal_places()
    }
}
