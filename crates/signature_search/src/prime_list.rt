//! Signature cubes where all primes are known.
//!
//! The signature cube of a cube is the meet of the primes that contain it, and a place of it is its
//! own if it lies in no other prime. This is used where the primes are few and the OFF cubes many.
//! Which primes contain a cube, or meet it, is read off sets of primes: for each literal the set of
//! those that have it, and for each output likewise.

use crate::bits::{
    Literals, drop_bits_at, has_bit, has_bits, literal_at, meet_bits, members, narrow_at, put_bit,
    row_at, words_for,
};
use crate::blocking_rows::BlockingRows;
use crate::cube::Cube;
use crate::finder::{Finder, Signature};
use crate::function::{Function, list_at};
use crate::lists::{Outside, any_meets, push_cofactor};
use crate::occurrences::Occurrences;
use crate::rows::{Place, Rows};
use std::alloc::{AllocError, Global};

/// All primes, with sets of those that have each literal and each output.
pub(crate) struct PrimeList {
    rows: Rows,
    literals: Occurrences,
    // By output, the primes that have it.
    outputs: Vec<u64>,
}

// Written out, so that where a list ends a proof has one call, and not one for each of its fields.
impl Drop for PrimeList {
    fn drop(self) {
        let PrimeList {
            rows: _,
            literals: _,
            outputs: _,
        } = self;
    }
}

impl PrimeList {
    /// These primes. The sets take as much memory again as the primes do.
    pub(crate) fn new(alloc: Global, rows: Rows) -> Result<PrimeList, AllocError> {
        let mut literals = Occurrences::new(alloc);
        literals.take(rows.literals(), words_for(rows.inputs()))?;
        let size = rows.outputs().saturating_mul(literals.words());
        let outputs: Vec<u64> = vec![in alloc; 0; size]?;
        let mut list = PrimeList {
            rows,
            literals,
            outputs,
        };
        for prime in 0..list.rows.len() {
            list.put_outputs(prime);
        }
        Ok(list)
    }

    // Puts the prime into the sets of its outputs.
    fn put_outputs(&mut self, prime: usize) {
        let words = self.literals.words();
        for output in 0..self.rows.outputs() {
            if has_bit(self.rows.outputs_of(prime), output) {
                let begin = output.wrapping_mul(words).wrapping_mul(64);
                put_bit(&mut self.outputs, begin.wrapping_add(prime));
            }
        }
    }

    // The primes that have the output; no words past the last output.
    fn with_output(&self, output: usize) -> &[u64] {
        let words = self.literals.words();
        row_at(&self.outputs, output.saturating_mul(words), words)
    }

    // Takes the primes away that have the opposite of a literal of the cube: they do not meet it.
    fn drop_apart(&self, set: &mut [u64], cube: &[Literals]) {
        for input in 0..self.rows.inputs() {
            if let Some(one) = literal_at(cube, input) {
                drop_bits_at(set, 0, self.literals.of(input, !one));
            }
        }
    }

    // Takes the primes away that have a literal where the cube has none.
    fn drop_narrower(&self, set: &mut [u64], cube: &[Literals]) {
        for input in 0..self.rows.inputs() {
            if literal_at(cube, input).is_none() {
                drop_bits_at(set, 0, self.literals.of(input, false));
                drop_bits_at(set, 0, self.literals.of(input, true));
            }
        }
    }

    // Takes the primes away that lack one of these outputs.
    fn drop_without(&self, set: &mut [u64], outputs: &[u64]) {
        for output in 0..self.rows.outputs() {
            if has_bit(outputs, output) {
                meet_bits(set, self.with_output(output));
            }
        }
    }

    // The primes that contain the cube.
    fn primes_containing(&self, alloc: Global, cube: &Cube) -> Result<Vec<u64>, AllocError> {
        let mut set = self.literals.whole().to_vec(alloc)?;
        self.drop_without(&mut set, &cube.outputs);
        self.drop_apart(&mut set, &cube.literals);
        self.drop_narrower(&mut set, &cube.literals);
        Ok(set)
    }

    // The primes with the output that meet the literals `met`, and do not contain the cube.
    fn others(
        &self,
        alloc: Global,
        cube: &Cube,
        met: &[Literals],
        output: usize,
    ) -> Result<Vec<u64>, AllocError> {
        let mut set = self.with_output(output).to_vec(alloc)?;
        self.drop_apart(&mut set, met);
        if has_bits(&set) {
            drop_bits_at(&mut set, 0, &self.primes_containing(alloc, cube)?);
        }
        Ok(set)
    }

    // The meet of the primes that contain the cube; `None` if there is none.
    fn meet_containing(
        &self,
        alloc: Global,
        function: &Function,
        cube: &Cube,
    ) -> Result<Option<Cube>, AllocError> {
        let containing = members(alloc, &self.primes_containing(alloc, cube)?)?;
        if containing.is_empty() {
            return Ok(None);
        }
        let mut meet = Cube::whole(alloc, function.width, function.outputs)?;
        for prime in &containing {
            narrow_at(&mut meet.literals, 0, self.rows.literals_of(*prime));
            meet_bits(&mut meet.outputs, self.rows.outputs_of(*prime));
        }
        Ok(Some(meet))
    }

    /// Adds the cofactors of the primes with the output that meet the cube and do not contain it.
    /// Stops with `Nothing` at one that holds all of it under this output.
    pub(crate) fn push_others(
        &self,
        alloc: Global,
        avoided: &mut Vec<Literals>,
        cube: &Cube,
        output: usize,
    ) -> Result<Outside, AllocError> {
        let others = members(alloc, &self.others(alloc, cube, &cube.literals, output)?)?;
        for prime in &others {
            let literals = self.rows.literals_of(*prime);
            if let Outside::Nothing = push_cofactor(avoided, literals, &cube.literals)? {
                return Ok(Outside::Nothing);
            }
        }
        Ok(Outside::Unknown)
    }
}

/// All inputs of a cube's literals as a row, without an output and with each output that the cube
/// lacks: no literal is a row by itself, so each may be left out.
fn rows_of_all_literals(
    alloc: Global,
    function: &Function,
    cube: &Cube,
) -> Result<BlockingRows, AllocError> {
    let mut rows = BlockingRows::new(alloc, function.width);
    rows.push_inputs_of(&cube.literals)?;
    rows.end_group(&[], &[])?;
    for output in 0..function.outputs {
        if !has_bit(&cube.outputs, output) {
            rows.push_inputs_of(&cube.literals)?;
        }
        rows.end_group(&[], &[])?;
    }
    Ok(rows)
}

impl Signature {
    /// The meet of the primes that contain a cube, without a place, and with rows that let each
    /// literal be left out. `None` if there is no such prime.
    pub(crate) fn of_primes(
        alloc: Global,
        function: &Function,
        primes: &PrimeList,
        cube: &Cube,
    ) -> Result<Option<Signature>, AllocError> {
        let Some(meet) = primes.meet_containing(alloc, function, cube)? else {
            return Ok(None);
        };
        let rows = rows_of_all_literals(alloc, function, &meet)?;
        Ok(Some(Signature {
            cube: meet,
            place: Place::none(alloc),
            rows,
        }))
    }
}

impl Finder<'_> {
    /// Whether former answers give a place of the cube that lies in no other prime and in no DC
    /// cube under this output, if all primes are known. It is then the answer of the question.
    pub(crate) fn guess_own_place(
        &mut self,
        cube: &Cube,
        output: usize,
    ) -> Result<bool, AllocError> {
        let Some(primes) = self.primes else {
            return Ok(false);
        };
        if self.function.samples {
            return Ok(false);
        }
        self.question.guess(&cube.literals)?;
        let guess = self.question.answer();
        let dc = list_at(&self.function.dc, output);
        if any_meets(dc, guess, self.function.width) {
            return Ok(false);
        }
        Ok(!has_bits(&primes.others(self.alloc, cube, guess, output)?))
    }
}
