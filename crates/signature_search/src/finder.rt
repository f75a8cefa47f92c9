//! Finds signature cubes, and whether they have a place of their own.
//!
//! The signature cube of a cube is the meet of the primes that contain it: it keeps the literals
//! and lacks the outputs that occur in minimal rows of the blocking matrix (McGeer, Sanghavi,
//! Brayton and Sangiovanni-Vincentelli, Espresso-Signature: a new exact minimizer for logic
//! functions, 1993). A wanted place of it is its own if only the primes that contain all of it hold
//! the place. To test a place, exchange the literals of a minimal row for their opposites, under
//! the output of the row if it has one: the place is an own one if for each row the place that
//! comes of this is outside ON and DC. Which ON and DC cubes hold an exchanged place (`exchanges`)
//! depends only on the inputs where the cube has no literal; so the tests of all rows together are
//! one question.

use crate::bits::{
    Literals, drop_bit, has_bit, join_literals, meets, narrow_at, row_at, row_count,
};
use crate::blocking_matrix::BlockingMatrix;
use crate::blocking_rows::{BlockingRows, Group};
use crate::cube::Cube;
use crate::exchanges::Exchanges;
use crate::function::{Function, list_at};
use crate::lists::{Outside, push_cofactors};
use crate::prime_list::PrimeList;
use crate::question::Question;
use crate::rows::Place;
use std::alloc::{AllocError, Global};
use std::collections::BTreeSet;

// At most this many regions are looked at for a place of a cube's own, or as many as there are
// inputs, if those are more: parts that share no input are decided one after the other.
const MOST_REGIONS_OF_OWN: u64 = 300;

/// A signature cube with a place of its own.
pub(crate) struct Signature {
    pub(crate) cube: Cube,
    /// A place of its own, once it is found.
    pub(crate) place: Place,
    /// The minimal rows of the blocking matrix.
    pub(crate) rows: BlockingRows,
}

// Written out, so that where one ends a proof has one call, and not one for each of its lists.
impl Drop for Signature {
    fn drop(self) {
        let Signature {
            cube: _,
            place: _,
            rows: _,
        } = self;
    }
}

impl Signature {
    /// The signature cube of a cube with these minimal rows, without a place.
    pub(crate) fn of_rows(
        alloc: Global,
        function: &Function,
        cube: &Cube,
        rows: BlockingRows,
    ) -> Result<Signature, AllocError> {
        let mut inputs: Vec<u64> = vec![in alloc; 0; function.width]?;
        rows.join_inputs(&mut inputs);
        let mut meet = Cube::whole(alloc, function.width, function.outputs)?;
        join_literals(&mut meet.literals, &cube.literals, &inputs);
        for output in 0..function.outputs {
            if !rows.of_output(output).is_empty() {
                drop_bit(&mut meet.outputs, output);
            }
        }
        Ok(Signature {
            cube: meet,
            place: Place::none(alloc),
            rows,
        })
    }
}

/// Finds signature cubes.
#[derive(Drop)]
pub(crate) struct Finder<'a> {
    pub(crate) alloc: Global,
    pub(crate) function: &'a Function,
    pub(crate) question: Question,
    matrix: BlockingMatrix,
    // All primes, where they are known.
    pub(crate) primes: Option<&'a PrimeList>,
    // The cubes that a place must avoid, without the literals at inputs of the signature cube.
    pub(crate) avoided: Vec<Literals>,
    // The hashes of signature cubes that have no place of their own.
    without_own_place: BTreeSet<u64>,
    exchanges: Exchanges,
}

impl<'a> Finder<'a> {
    /// A finder of signature cubes of the function, by its OFF cubes or, where they are known, by
    /// all primes. None was looked for yet.
    pub(crate) fn new(
        alloc: Global,
        function: &'a Function,
        primes: Option<&'a PrimeList>,
    ) -> Result<Finder<'a>, AllocError> {
        let question = Question::new(alloc, function.width)?;
        Ok(Finder {
            alloc,
            function,
            question,
            matrix: BlockingMatrix::new(alloc, function.width),
            primes,
            avoided: Vec::new(alloc),
            without_own_place: BTreeSet::new(alloc),
            exchanges: Exchanges::new(alloc),
        })
    }

    /// The signature cube of a cube, without a place. `None` if the cube meets OFF.
    pub(crate) fn signature_cube(&mut self, cube: &Cube) -> Result<Option<Signature>, AllocError> {
        let (alloc, function) = (self.alloc, self.function);
        if let Some(primes) = self.primes {
            return Signature::of_primes(alloc, function, primes, cube);
        }
        match self.matrix.rows_of(alloc, function, cube)? {
            Some(rows) => Ok(Some(Signature::of_rows(alloc, function, cube, rows)?)),
            None => Ok(None),
        }
    }

    /// The signature cube of a cube, with a place of its own; `None` if none is found, or if the
    /// cube meets OFF.
    pub(crate) fn signature_of(&mut self, cube: &Cube) -> Result<Option<Signature>, AllocError> {
        let Some(mut signature) = self.signature_cube(cube)? else {
            return Ok(None);
        };
        if self.finds_own_place(&mut signature)? {
            Ok(Some(signature))
        } else {
            Ok(None)
        }
    }

    /// Whether a place of a signature cube's own is found, which is then put into it; not looked
    /// for where there was none before.
    pub(crate) fn finds_own_place(
        &mut self,
        signature: &mut Signature,
    ) -> Result<bool, AllocError> {
        let hash = signature.cube.hash();
        if self.without_own_place.contains(&hash) {
            return Ok(false);
        }
        let Some(output) = self.output_of_own_place(signature)? else {
            self.without_own_place.insert(hash)?;
            return Ok(false);
        };
        signature.place = Place::of(self.alloc, self.question.answer(), output)?;
        Ok(true)
    }

    // An output of the cube under which it has a place of its own, which is then the answer of the
    // question.
    fn output_of_own_place(&mut self, signature: &Signature) -> Result<Option<usize>, AllocError> {
        self.avoided.clear();
        self.exchanges.begin(&signature.cube.literals)?;
        if self.primes.is_none()
            && let Outside::Nothing = self.avoid_rows_with_outputs(signature)?
        {
            return Ok(None);
        }
        let common = self.avoided.len();
        for output in 0..self.function.outputs {
            self.avoided.truncate(common);
            if has_bit(&signature.cube.outputs, output) && self.has_own_place(signature, output)? {
                return Ok(Some(output));
            }
        }
        Ok(None)
    }

    // How many regions are looked at for a place of a cube's own.
    fn most_regions_of_own(&self) -> u64 {
        MOST_REGIONS_OF_OWN.max(64u64.saturating_mul(self.function.width as u64))
    }

    // Whether a place of the cube's own under this output is found, which is then the answer of the
    // question. `false` too if the budget is spent.
    fn has_own_place(&mut self, signature: &Signature, output: usize) -> Result<bool, AllocError> {
        if list_at(&self.function.on, output).is_empty() {
            return Ok(false);
        }
        if self.guess_own_place(&signature.cube, output)? {
            return Ok(true);
        }
        if let Outside::Nothing = self.avoid_all(signature, output)? {
            return Ok(false);
        }
        if self.function.samples {
            return self.has_on_place_outside_avoided(&signature.cube.literals, output);
        }
        let mut budget = self.most_regions_of_own();
        self.question
            .ask(&signature.cube.literals, &self.avoided, &mut budget)
    }

    // Gathers the cubes to be avoided for the rows with an output. Stops with `Nothing` at one that
    // leaves no place to the signature cube.
    fn avoid_rows_with_outputs(&mut self, signature: &Signature) -> Result<Outside, AllocError> {
        for output in 0..self.function.outputs {
            let rows = signature.rows.of_output(output);
            if !rows.is_empty()
                && let Outside::Nothing = self.avoid_exchanged(rows, output)?
            {
                return Ok(Outside::Nothing);
            }
        }
        Ok(Outside::Unknown)
    }

    // Gathers the ON and DC cubes of an output that the signature cube meets with a row exchanged.
    fn avoid_exchanged(&mut self, rows: Group<'_>, output: usize) -> Result<Outside, AllocError> {
        let list = list_at(&self.function.on_and_dc, output);
        match self.function.occurrences.get(output) {
            Some(occurrences) => {
                self.exchanges
                    .push_met(&mut self.avoided, list, occurrences, rows)
            }
            None => Ok(Outside::Unknown),
        }
    }

    // Gathers the cubes to be avoided under this output.
    fn avoid_all(&mut self, signature: &Signature, output: usize) -> Result<Outside, AllocError> {
        let cube = &signature.cube;
        let outside = match self.primes {
            Some(primes) => primes.push_others(self.alloc, &mut self.avoided, cube, output)?,
            None => self.avoid_exchanged(signature.rows.without_output(), output)?,
        };
        if let Outside::Nothing = outside {
            return Ok(Outside::Nothing);
        }
        let dc = list_at(&self.function.dc, output);
        push_cofactors(&mut self.avoided, dc, &cube.literals, self.function.width)
    }

    // Whether a place that the cube shares with an ON cube is found outside all that was gathered.
    fn has_on_place_outside_avoided(
        &mut self,
        cube: &[Literals],
        output: usize,
    ) -> Result<bool, AllocError> {
        let width = self.function.width;
        let mut budget = self.most_regions_of_own();
        let list = list_at(&self.function.on, output);
        for index in 0..row_count(list, width) {
            let wanted = row_at(list, index.wrapping_mul(width), width);
            if meets(wanted, cube) && self.ask_for_meet(cube, wanted, &mut budget)? {
                return Ok(true);
            }
        }
        Ok(false)
    }

    // Whether the cubes share a place outside all that was gathered.
    fn ask_for_meet(
        &mut self,
        cube: &[Literals],
        other: &[Literals],
        budget: &mut u64,
    ) -> Result<bool, AllocError> {
        let mut inside = cube.to_vec(self.alloc)?;
        narrow_at(&mut inside, 0, other);
        self.question.ask(&inside, &self.avoided, budget)
    }
}
