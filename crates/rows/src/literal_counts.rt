//! How many rows have each literal.
ghost use Rattle.std.specs.Prelude.{◌≡◌, [], IfOk, length, All};
ghost use Rattle.cube.specs.Cube.{HasSize};
ghost use Rattle.rows.specs.Places.{behind};
ghost use Rattle.rows.specs.Splits.{CountsLiterals, Grows};

use cube::{Cube, Shape, Symbol};
use std::alloc::{AllocError, Global};

// At most this many rows of a list are counted to choose an input, so that the choice costs less
// than the split.
const SAMPLE: usize = 64;

/// How many of so many rows [`LiteralCounts::of_sample`] counts: all if these are fewer than
/// `SAMPLE`, and otherwise at least half of `SAMPLE` and at most `SAMPLE`.
pub fn sample_size(rows: usize) -> usize {
    rows.saturating_add(rows / SAMPLE) / (rows / SAMPLE + 1)
}

/// By input how many rows have `0`, and how many have `1`.
pub struct LiteralCounts {
    /// How many rows have `0` at each input.
    pub zeros: Vec<u32>,
    /// How many rows have `1` at each input.
    pub ones: Vec<u32>,
}

// Written out, so that where counts end a proof has one call, and not one for each of the lists.
impl Drop for LiteralCounts {
    fn drop(self) {
        let LiteralCounts { zeros: _, ones: _ } = self;
    }
}

impl LiteralCounts {
    /// Counts the literals of the rows, each of which has so many inputs.
    pub fn of(alloc: Global, rows: &[&Cube], inputs: usize) -> Result<LiteralCounts, AllocError>
        requires { All (λ d. length d.now.symbols ≡ inputs) rows.now }
        ensures { IfOk result
            (λ t. CountsLiterals inputs t.zeros.items t.ones.items (behind rows.now)) }
    {
        let mut counts = LiteralCounts::new(alloc, inputs)?;
        for row in rows {
            counts.add(row);
        }
        Ok(counts)
    }

    /// Counts the literals of at most `SAMPLE` rows, evenly from the list; [`sample_size`] says of
    /// how many.
    pub fn of_sample(
        alloc: Global,
        shape: Shape,
        rows: &[&Cube],
    ) -> Result<LiteralCounts, AllocError>
        requires { All (λ d. HasSize d.now shape) rows.now }
        ensures zeros { IfOk result (λ t. length t.zeros.items ≡ shape.inputs) }
        ensures ones { IfOk result (λ t. length t.ones.items ≡ shape.inputs) }
    {
        let step = rows.len() / SAMPLE + 1;
        let mut counts = LiteralCounts::new(alloc, shape.inputs())?;
        for k in 0..SAMPLE {
            if let Some(row) = rows.get(k.saturating_mul(step)) {
                counts.add(row);
            }
        }
        Ok(counts)
    }

    // The counts of no row: 0 at each input.
    fn new(alloc: Global, inputs: usize) -> Result<LiteralCounts, AllocError>
        ensures { IfOk result (λ t. CountsLiterals inputs t.zeros.items t.ones.items []) }
    {
        Ok(LiteralCounts {
            zeros: vec![in alloc; 0u32; inputs]?,
            ones: vec![in alloc; 0u32; inputs]?,
        })
    }

    // Adds the literals of one more row to the counts.
    fn add(&mut self, row: &Cube)
        requires zeros { length self.old.zeros.items ≡ length row.now.symbols }
        requires ones { length self.old.ones.items ≡ length row.now.symbols }
        ensures zeros { Grows Symbol.Zero row.now
            (length row.now.symbols) self.old.zeros.items self.new.zeros.items }
        ensures ones { Grows Symbol.One row.now
            (length row.now.symbols) self.old.ones.items self.new.ones.items }
    {
        let mut from = 0;
        while let Some(i) = row.next_literal(from) {
            if row.symbol(i) == Symbol::Zero {
                self.zeros[i] = self.zeros[i].saturating_add(1);
            } else {
                self.ones[i] = self.ones[i].saturating_add(1);
            }
            from = i + 1;
        }
    }
}
