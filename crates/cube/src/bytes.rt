//! Words from the bytes of a row.
//!
//! A word is shifted in from its last symbol or output on, so that each byte costs a look at a
//! table and no branch.
ghost use Rattle.std.specs.Prelude.{◌≡◌, ℕ, ◌+◌, ◌≤◌, ◌<◌, ◌^◌, true, false, IfOk, IsOk, length, map};
ghost use Rattle.std.specs.Int.{bit_at};
ghost use Rattle.std.specs.List.{list_any};
ghost use Rattle.cube.specs.Bytes.{byte_symbol, has_mark};
ghost use Rattle.cube.specs.Packing.{IsInputWord, IsOutputWord, Packs, bit_of, input_words as input_words_of, output_words as output_words_of};
ghost use Rattle.cube.specs.Pattern.{agrees};
ghost use Rattle.cube.specs.Size.{words_of_size};

use crate::pack::{input_words, output_words};
use crate::shape::Shape;
use smallvec::SmallVec;
use std::alloc::{AllocError, Global};

// The two bits of the symbol that a byte asks for.
static PAIRS: [u8; 256] = [
    3, 3, 3, 3, 3, 3, 3, 3, 3, 3, 3, 3, 3, 3, 3, 3, 3, 3, 3, 3, 3, 3, 3, 3, 3, 3, 3, 3, 3, 3, 3, 3,
    3, 3, 3, 3, 3, 3, 3, 3, 3, 3, 3, 3, 3, 3, 3, 3, 1, 2, 3, 3, 3, 3, 3, 3, 3, 3, 3, 3, 3, 3, 3, 3,
    3, 3, 3, 3, 3, 3, 3, 3, 3, 3, 3, 3, 3, 3, 3, 3, 3, 3, 3, 3, 3, 3, 3, 3, 3, 3, 3, 3, 3, 3, 3, 3,
    3, 3, 3, 3, 3, 3, 3, 3, 3, 3, 3, 3, 3, 3, 3, 3, 3, 3, 3, 3, 3, 3, 3, 3, 3, 3, 3, 3, 3, 3, 3, 3,
    3, 3, 3, 3, 3, 3, 3, 3, 3, 3, 3, 3, 3, 3, 3, 3, 3, 3, 3, 3, 3, 3, 3, 3, 3, 3, 3, 3, 3, 3, 3, 3,
    3, 3, 3, 3, 3, 3, 3, 3, 3, 3, 3, 3, 3, 3, 3, 3, 3, 3, 3, 3, 3, 3, 3, 3, 3, 3, 3, 3, 3, 3, 3, 3,
    3, 3, 3, 3, 3, 3, 3, 3, 3, 3, 3, 3, 3, 3, 3, 3, 3, 3, 3, 3, 3, 3, 3, 3, 3, 3, 3, 3, 3, 3, 3, 3,
    3, 3, 3, 3, 3, 3, 3, 3, 3, 3, 3, 3, 3, 3, 3, 3, 3, 3, 3, 3, 3, 3, 3, 3, 3, 3, 3, 3, 3, 3, 3, 3,
];

// The two bits of the symbol that a byte asks for: the lower is set if it agrees with 0, the higher
// if it agrees with 1. A byte other than `0` and `1` asks for `-`.
fn pair_of(b: u8) -> u64
    ensures fits { result < 4 }
    ensures low { bit_at result 0 ≡ bit_of (agrees (byte_symbol b) false) }
    ensures high { bit_at result 1 ≡ bit_of (agrees (byte_symbol b) true) }
{
    PAIRS[b as usize] as u64
}

// The word moved up by two bits, with the pair below; its highest two bits are lost.
fn with_pair(word: u64, pair: u64) -> u64
    requires { pair < 4 }
    ensures low { bit_at result 0 ≡ bit_at pair 0 }
    ensures high { bit_at result 1 ≡ bit_at pair 1 }
    ensures others { (k : ℕ) → k < 62 → bit_at result (k + 2) ≡ bit_at word k }
{
    (word << 2) | pair
}

// The word moved up by one bit, with the given one below; its highest bit is lost.
fn with_next(word: u64, bit: bool) -> u64
    ensures first { bit_at result 0 ≡ bit_of bit }
    ensures others { (k : ℕ) → k < 63 → bit_at result (k + 1) ≡ bit_at word k }
{
    (word << 1) | bit as u64
}

/// Word `w` of the inputs, whose bytes these are: two bits a byte, and `-` past the last.
pub(crate) fn input_word_of(bytes: &[u8], w: usize) -> u64
    requires { w < 2 ^ 32 }
    ensures { IsInputWord (map byte_symbol bytes.now) w result }
{
    let mut word = u64::MAX;
    let count = bytes.len().saturating_sub(32 * w).min(32);
    for k in (0..count).rev() {
        word = with_pair(word, pair_of(bytes[32 * w + k]));
    }
    word
}

/// Word `w` of the outputs, whose bytes these are: a bit a byte, set if the mark of the byte has a
/// bit of the mask, and clear past the last.
pub(crate) fn output_word_of(bytes: &[u8], w: usize, marks: &[u8; 256], mask: u8) -> u64
    requires { w < 2 ^ 32 }
    ensures { IsOutputWord (map (has_mark marks.now mask) bytes.now) w result }
{
    let mut word = 0u64;
    let count = bytes.len().saturating_sub(64 * w).min(64);
    for k in (0..count).rev() {
        word = with_next(word, marks[bytes[64 * w + k] as usize] & mask != 0);
    }
    word
}

/// The words of the cube of a row's bytes: those of the inputs, and then those of the outputs.
/// Whether there is an output is not asked.
pub(crate) fn words_of(
    alloc: Global,
    shape: Shape,
    inputs: &[u8],
    outputs: &[u8],
    marks: &[u8; 256],
    mask: u8,
) -> Result<SmallVec<u64, 4>, AllocError>
    requires inputs { length inputs.now ≡ shape.inputs }
    requires outputs { length outputs.now ≡ shape.outputs }
    ensures words { IfOk result (λ v. Packs (record {
      symbols = map byte_symbol inputs.now;
      outputs = map (has_mark marks.now mask) outputs.now;
    }) v.items) }
    ensures inline { words_of_size shape ≤ 4 → IsOk result }
{
    let inputs_end = input_words(shape);
    let outputs_end = output_words(shape);
    let mut words = SmallVec::with_capacity(alloc, inputs_end + outputs_end)?;
    for w in 0..inputs_end + outputs_end {
        words.push_reserved(if w < inputs_end {
            input_word_of(inputs, w)
        } else {
            output_word_of(outputs, w - inputs_end, marks, mask)
        });
    }
    Ok(words)
}

/// The words of the cube of a row's bytes, if they are two: quicker than by a loop over words.
pub(crate) fn two_words_of(
    alloc: Global,
    inputs: &[u8],
    outputs: &[u8],
    marks: &[u8; 256],
    mask: u8,
) -> Result<SmallVec<u64, 4>, AllocError>
    requires inputs { input_words_of (length inputs.now) ≡ 1 }
    requires outputs { output_words_of (length outputs.now) ≡ 1 }
    ensures words { IfOk result (λ v. Packs (record {
      symbols = map byte_symbol inputs.now;
      outputs = map (has_mark marks.now mask) outputs.now;
    }) v.items) }
    ensures inline { IsOk result }
{
    let mut words = SmallVec::with_capacity(alloc, 2)?;
    words.push_reserved(input_word_of(inputs, 0));
    words.push_reserved(output_word_of(outputs, 0, marks, mask));
    Ok(words)
}

/// Whether the mark of one of the bytes has a bit of the mask.
pub(crate) fn has_any_mark(bytes: &[u8], marks: &[u8; 256], mask: u8) -> bool
    ensures { result ≡ list_any (has_mark marks.now mask) bytes.now }
{
    for b in bytes {
        if marks[*b as usize] & mask != 0 {
            return true;
        }
    }
    false
}
