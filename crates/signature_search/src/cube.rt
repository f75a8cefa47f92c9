//! A cube by itself: its literals and its outputs. The search makes such cubes; those that it is
//! given are rows of a list.

use crate::bits::{Literals, put_bit, words_for};
use std::alloc::{AllocError, Global};

/// One step of a hash over words (Knuth, The art of computer programming, volume 3).
fn hash_step(number: u64, word: u64) -> u64 {
    let next = (number ^ word).wrapping_mul(0x9E3779B97F4A7C15);
    next ^ (next >> 29)
}

/// A cube by itself.
pub(crate) struct Cube {
    pub(crate) literals: Vec<Literals>,
    pub(crate) outputs: Vec<u64>,
}

// Written out, so that where a cube ends a proof has one call, and not one for each of its lists.
impl Drop for Cube {
    fn drop(self) {
        let Cube {
            literals: _,
            outputs: _,
        } = self;
    }
}

impl Cube {
    /// These literals and outputs.
    pub(crate) fn of(
        alloc: Global,
        literals: &[Literals],
        outputs: &[u64],
    ) -> Result<Cube, AllocError> {
        Ok(Cube {
            literals: literals.to_vec(alloc)?,
            outputs: outputs.to_vec(alloc)?,
        })
    }

    /// The cube of all points under all of so many outputs, with `width` words of literals.
    pub(crate) fn whole(alloc: Global, width: usize, outputs: usize) -> Result<Cube, AllocError> {
        let mut all: Vec<u64> = vec![in alloc; 0; words_for(outputs)]?;
        for output in 0..outputs {
            put_bit(&mut all, output);
        }
        Ok(Cube {
            literals: vec![in alloc; Literals::NONE; width]?,
            outputs: all,
        })
    }

    /// These literals with one output, in so many words of outputs.
    pub(crate) fn of_output(
        alloc: Global,
        literals: &[Literals],
        output: usize,
        words: usize,
    ) -> Result<Cube, AllocError> {
        let mut outputs: Vec<u64> = vec![in alloc; 0; words]?;
        put_bit(&mut outputs, output);
        Ok(Cube {
            literals: literals.to_vec(alloc)?,
            outputs,
        })
    }

    /// A hash of the cube.
    pub(crate) fn hash(&self) -> u64 {
        let mut number: u64 = 0;
        for k in 0..self.literals.len() {
            let word = self.literals[k];
            number = hash_step(hash_step(number, word.zeros), word.ones);
        }
        for k in 0..self.outputs.len() {
            number = hash_step(number, self.outputs[k]);
        }
        number
    }
}
