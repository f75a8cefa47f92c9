//! Where a cube has literals and how many, and where those of two cubes are opposite or only in
//! one.
//!
//! The literals of 32 inputs stand in a word, so that a call looks at a word for each 32 inputs.
//! Inputs past the last count as `-`.
ghost use Rattle.std.specs.Prelude.{◌≡◌, ℕ, ◌+◌, ◌*◌, ◌<◌, ◌≤◌, IfSome, IfNone, if◌then◌else◌, not, true, false, length, slice_index_or};
ghost use Rattle.std.specs.Int.{bit_at};
ghost use Rattle.cube.specs.Literals.{has_literal as has_literal_of, has_one, is_opposite, is_beyond, count_inputs, IsNextInput, IsInputSet};
ghost use Rattle.cube.specs.Cube.{Cube as Row, literals as literals_of, IsNextLiteral};
ghost use Rattle.cube.specs.Packing.{PacksInputs};
ghost use Rattle.cube.specs.Pattern.{agrees};
ghost use Rattle.cube.specs.Words.{Marks};

use crate::cube::Cube;
use crate::symbol::Symbol;
use crate::words::{
    clear_from, count_clear, empty_pairs, even_bits, first_clear, from_pair, minus_word,
};

// The inputs of word `w` at which the two have opposite literals, as lower bits of their pairs.
fn opposite_marks(mine: &[u64], theirs: &[u64], w: usize) -> u64
    requires { w < length mine.now }
    ensures { (c d : Row) → PacksInputs c.symbols mine.now → PacksInputs d.symbols theirs.now
        → Marks (is_opposite c d) w result }
{
    match theirs.get(w) {
        Some(word) => empty_pairs(mine[w] & *word),
        None => 0,
    }
}

// The inputs of word `w` at which the first has a literal that the second does not have, each by
// the bit of its pair that the second has alone.
fn beyond_marks(mine: &[u64], theirs: &[u64], w: usize) -> u64
    requires { w < length mine.now }
    ensures { (c d : Row) → PacksInputs c.symbols mine.now → PacksInputs d.symbols theirs.now
        → Marks (is_beyond c d) w result }
{
    match theirs.get(w) {
        Some(word) => minus_word(*word, mine[w]),
        None => clear_from(mine[w], 0),
    }
}

impl Cube {
    /// Whether input `i` has a literal; not so past the last input.
    pub fn has_literal(&self, i: usize) -> bool
        ensures { result ≡ has_literal_of self.now i }
    {
        i < self.shape().inputs() && self.symbol(i) != Symbol::Dash
    }

    /// The number of literals: how many inputs have `0` or `1`.
    pub fn literals(&self) -> usize
        ensures value { result ≡ literals_of self.now }
        ensures at_most { result ≤ length self.now.symbols }
    {
        let words = self.input_part();
        count_clear(words)
    }

    /// The first input from `from` on that has a literal, or `None` if each of them has `-`.
    ///
    /// It costs a look at each word on the way, not at each symbol.
    pub fn next_literal(&self, from: usize) -> Option<usize>
        requires { from ≤ length self.now.symbols }
        ensures found { IfSome result (λ i. IsNextLiteral self.now from i) }
        ensures none { IfNone result
            ((k : ℕ) → from ≤ k → slice_index_or self.now.symbols k Symbol.Dash ≡ Symbol.Dash) }
    {
        let words = self.input_part();
        match first_clear(words, 2 * from) {
            Some(at) => Some(at / 2),
            None => None,
        }
    }

    /// The literals at the 32 inputs from `32 w` on, as bits: `0` at input `32 w + k` is bit
    /// `2 k + 1`, and `1` bit `2 k`; both are clear for `-` and past the last input. So lists can
    /// count their literals word by word.
    #[inline(always)]
    pub fn literal_bits(&self, w: usize) -> u64
        ensures zeros { (k : ℕ) → k < 32 → bit_at result (2 * k + 1)
            ≡ (if not (agrees (slice_index_or self.now.symbols (32 * w + k) Symbol.Dash) true)
            then 1 else 0) }
        ensures ones { (k : ℕ) → k < 32 → bit_at result (2 * k)
            ≡ (if not (agrees (slice_index_or self.now.symbols (32 * w + k) Symbol.Dash) false)
            then 1 else 0) }
    {
        match self.input_part().get(w) {
            Some(word) => clear_from(*word, 0),
            None => 0,
        }
    }

    /// The inputs from `32 w` on that have a literal, as a set of 32: input `32 w + k` is bit
    /// `2 k`. So lists can count and join their inputs 32 at a time.
    #[inline(always)]
    pub fn literal_inputs(&self, w: usize) -> u64
        ensures { IsInputSet (has_literal_of self.now) w result }
    {
        let word = self.literal_bits(w);
        even_bits(word | (word >> 1))
    }

    /// The inputs from `32 w` on that have `1`, as a set of 32 like that of
    /// [`Cube::literal_inputs`].
    pub fn one_inputs(&self, w: usize) -> u64
        ensures { IsInputSet (has_one self.now) w result }
    {
        even_bits(self.literal_bits(w))
    }

    /// The first input from `from` on at which the two cubes have opposite literals, or `None` if
    /// there is none. Where there is none from 0 on, they have a point in common.
    pub fn next_opposite(&self, other: &Cube, from: usize) -> Option<usize>
        ensures found { IfSome result (λ i. IsNextInput (is_opposite self.now other.now) from i) }
        ensures within { IfSome result (λ i. i < length self.now.symbols) }
        ensures none { IfNone result
            ((k : ℕ) → from ≤ k → is_opposite self.now other.now k ≡ false) }
    {
        let (mine, theirs) = (self.input_part(), other.input_part());
        for w in from / 32..mine.len() {
            let marks = from_pair(opposite_marks(mine, theirs, w), from.saturating_sub(32 * w));
            if marks != 0 {
                return Some(32 * w + marks.trailing_zeros() as usize / 2);
            }
        }
        None
    }

    /// At how many inputs the two cubes have opposite literals.
    pub fn opposites(&self, other: &Cube) -> u32
        ensures { result ≡ count_inputs (is_opposite self.now other.now)
            (length self.now.symbols) }
    {
        let (mine, theirs) = (self.input_part(), other.input_part());
        let mut count = 0;
        for w in 0..mine.len() {
            count += opposite_marks(mine, theirs, w).count_ones();
        }
        count
    }

    /// The first input from `from` on at which this cube has a literal that the other does not
    /// have, as that has `-` there or the opposite literal; `None` if there is none.
    pub fn next_beyond(&self, other: &Cube, from: usize) -> Option<usize>
        ensures found { IfSome result (λ i. IsNextInput (is_beyond self.now other.now) from i) }
        ensures within { IfSome result (λ i. i < length self.now.symbols) }
        ensures none { IfNone result
            ((k : ℕ) → from ≤ k → is_beyond self.now other.now k ≡ false) }
    {
        let (mine, theirs) = (self.input_part(), other.input_part());
        for w in from / 32..mine.len() {
            let marks = from_pair(beyond_marks(mine, theirs, w), from.saturating_sub(32 * w));
            if marks != 0 {
                return Some(32 * w + marks.trailing_zeros() as usize / 2);
            }
        }
        None
    }

    /// How many literals this cube has that the other does not have: at inputs where the other has
    /// `-` or the opposite literal.
    pub fn literals_beyond(&self, other: &Cube) -> u32
        ensures { result ≡ count_inputs (is_beyond self.now other.now) (length self.now.symbols) }
    {
        let (mine, theirs) = (self.input_part(), other.input_part());
        let mut count = 0;
        for w in 0..mine.len() {
            count += beyond_marks(mine, theirs, w).count_ones();
        }
        count
    }
}
