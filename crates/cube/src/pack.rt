//! Words from symbols and outputs.
//!
//! Input `i` is the two bits `2 (i mod 32)` and `2 (i mod 32) + 1` of word `i div 32`: the lower
//! says that its symbol agrees with 0, the higher that it agrees with 1. So `0` has the lower bit
//! alone, `1` the higher alone, and `-` both, which the spare pairs of the last word have too.
//! After the words of the inputs, output `j` is bit `j mod 64` of word `j div 64`, set if the
//! cube has the output; the spare bits of the last word are clear. So equal cubes have equal words.
ghost use Rattle.std.specs.Prelude.{◌≡◌, ◌<◌, ◌^◌, true};
ghost use Rattle.cube.specs.Packing.{input_words as input_words_of, output_words as output_words_of, IsInputWord, IsOutputWord};
ghost use Rattle.cube.specs.Limits.{IsWithinLimits, format_limits};

use crate::shape::Shape;
use crate::symbol::Symbol;
use crate::words::{kept_bit, with_bit};

/// How many words hold the inputs.
pub(crate) fn input_words(shape: Shape) -> usize
    ensures value { result ≡ input_words_of shape.inputs }
    ensures limits { IsWithinLimits format_limits shape }
{
    (shape.inputs() + 31) / 32
}

/// How many words hold the outputs.
pub(crate) fn output_words(shape: Shape) -> usize
    ensures value { result ≡ output_words_of shape.outputs }
    ensures limits { IsWithinLimits format_limits shape }
{
    (shape.outputs() + 63) / 64
}

/// Whether one word holds the inputs, and one the outputs. Not so if there are no inputs.
pub(crate) fn is_in_two_words(shape: Shape) -> bool
    ensures inputs { result ≡ true → input_words_of shape.inputs ≡ 1 }
    ensures outputs { result ≡ true → output_words_of shape.outputs ≡ 1 }
{
    0 < shape.inputs() && shape.inputs() <= 32 && shape.outputs() <= 64
}

/// Word `w` of the inputs: two bits a symbol, and `-` past the last.
pub(crate) fn input_word(symbols: &[Symbol], w: usize) -> u64
    requires { w < 2 ^ 32 }
    ensures { IsInputWord symbols.now w result }
{
    let mut word = u64::MAX;
    let count = symbols.len().saturating_sub(32 * w).min(32);
    for k in 0..count {
        let symbol = symbols[32 * w + k];
        word = kept_bit(word, 2 * k, symbol.allows(false));
        word = kept_bit(word, 2 * k + 1, symbol.allows(true));
    }
    word
}

/// Word `w` of the outputs: a bit an output, and clear past the last.
pub(crate) fn output_word(outputs: &[bool], w: usize) -> u64
    requires { w < 2 ^ 32 }
    ensures { IsOutputWord outputs.now w result }
{
    let mut word = 0u64;
    let count = outputs.len().saturating_sub(64 * w).min(64);
    for k in 0..count {
        word = with_bit(word, k, outputs[64 * w + k]);
    }
    word
}
