//! Kernels over words, four at a time.
//!
//! If there are few words, and for those after the last four, the plain kernels serve.
ghost use Rattle.std.specs.Prelude.{◌≡◌, ℕ, ◌↔◌, ◌<◌, ◌≤◌, ◌/◌, IsTrue, IsOk, IfOk, length, slice_index, bit_and, bit_or};
ghost use Rattle.std.specs.Int.{bit_not, w64};
ghost use Rattle.cube.specs.Words.{CoversWords, HasNoEmptyPair, PairsMeet, ShareBit, AreCommon};

use crate::words::{
    covers_word_by_word, pairs_meet_word_by_word, put_common_word_by_word, share_bit_word_by_word,
    zip_words,
};
use smallvec::SmallVec;
use std::alloc::{AllocError, Global};
use std::simd::prelude::*;

// The lower bit of each pair.
const LOWER_BITS: u64 = 0x5555_5555_5555_5555;

// Lists of at least this many words are taken four words at a time.
const MANY: usize = 8;

// Whether each bit of four words of `b` is in `a`.
fn covers_four(a: &[u64; 4], b: &[u64; 4]) -> bool
    ensures { IsTrue result
        ↔ ((k : ℕ) → k < 4 → bit_and (slice_index b.now k) (bit_not w64 (slice_index a.now k))
        ≡ 0) }
{
    let mine = u64x4::from_array(*a);
    let theirs = u64x4::from_array(*b);
    (theirs & !mine).reduce_or() == 0
}

// Whether each pair of bits of four words has one that is in both.
fn pairs_meet_four(a: &[u64; 4], b: &[u64; 4]) -> bool
    ensures { IsTrue result
        ↔ ((k : ℕ) → k < 4 → let both = bit_and (slice_index a.now k) (slice_index b.now k) in
        bit_and LOWER_BITS (bit_not w64 (bit_or both (both / 2))) ≡ 0) }
{
    let both = u64x4::from_array(*a) & u64x4::from_array(*b);
    let either = both | (both >> u64x4::splat(1));
    (u64x4::splat(LOWER_BITS) & !either).reduce_or() == 0
}

// Whether four words have no bit in both.
fn share_none_of_four(a: &[u64; 4], b: &[u64; 4]) -> bool
    ensures { IsTrue result
        ↔ ((k : ℕ) → k < 4 → bit_and (slice_index a.now k) (slice_index b.now k) ≡ 0) }
{
    (u64x4::from_array(*a) & u64x4::from_array(*b)).reduce_or() == 0
}

// The bits that four words have in both.
fn common_of_four(a: &[u64; 4], b: &[u64; 4]) -> [u64; 4]
    ensures { (k : ℕ) → k < 4 → slice_index result k
        ≡ bit_and (slice_index a.now k) (slice_index b.now k) }
{
    (u64x4::from_array(*a) & u64x4::from_array(*b)).to_array()
}

/// Whether each pair of bits of a word has one that is set.
pub(crate) fn has_no_empty_pair(word: u64) -> bool
    ensures { IsTrue result ↔ HasNoEmptyPair word }
{
    (word | (word >> 1)) & LOWER_BITS == LOWER_BITS
}

/// Whether each bit of `b` is in `a`. The first word decides for most cubes, before the length is
/// asked for.
pub(crate) fn covers_by_lanes(a: &[u64], b: &[u64]) -> bool
    requires { length a.now ≡ length b.now }
    ensures { IsTrue result ↔ CoversWords a.now b.now }
{
    if !a.is_empty() && b[0] & !a[0] != 0 {
        return false;
    }
    if a.len() < MANY {
        return covers_word_by_word(a, b);
    }
    let (mine, my_rest) = a.as_chunks::<4>();
    let (theirs, their_rest) = b.as_chunks::<4>();
    for k in 0..mine.len() {
        if !covers_four(&mine[k], &theirs[k]) {
            return false;
        }
    }
    covers_word_by_word(my_rest, their_rest)
}

/// Whether each pair of bits has one that is in both. The first word decides for most cubes, and is
/// looked at where the call stands.
#[inline(always)]
pub(crate) fn pairs_meet_by_lanes(a: &[u64], b: &[u64]) -> bool
    requires { length a.now ≡ length b.now }
    ensures { IsTrue result ↔ PairsMeet a.now b.now }
{
    if !a.is_empty() && !has_no_empty_pair(a[0] & b[0]) {
        return false;
    }
    if a.len() < 2 {
        return true;
    }
    if a.len() < MANY {
        return pairs_meet_word_by_word(a, b, 1);
    }
    pairs_of_many_meet(a, b)
}

// Whether each pair of bits of the words, of which there may be many, has one that is in both.
fn pairs_of_many_meet(a: &[u64], b: &[u64]) -> bool
    requires { length a.now ≡ length b.now }
    ensures { IsTrue result ↔ PairsMeet a.now b.now }
{
    let (mine, my_rest) = a.as_chunks::<4>();
    let (theirs, their_rest) = b.as_chunks::<4>();
    for k in 0..mine.len() {
        if !pairs_meet_four(&mine[k], &theirs[k]) {
            return false;
        }
    }
    pairs_meet_word_by_word(my_rest, their_rest, 0)
}

/// Whether some bit is in both.
#[inline(always)]
pub(crate) fn share_bit_by_lanes(a: &[u64], b: &[u64]) -> bool
    requires { length a.now ≡ length b.now }
    ensures { IsTrue result ↔ ShareBit a.now b.now }
{
    if a.len() < MANY {
        return share_bit_word_by_word(a, b);
    }
    bits_of_many_are_shared(a, b)
}

// Whether some bit is in both, where there may be many words.
fn bits_of_many_are_shared(a: &[u64], b: &[u64]) -> bool
    requires { length a.now ≡ length b.now }
    ensures { IsTrue result ↔ ShareBit a.now b.now }
{
    let (mine, my_rest) = a.as_chunks::<4>();
    let (theirs, their_rest) = b.as_chunks::<4>();
    for k in 0..mine.len() {
        if !share_none_of_four(&mine[k], &theirs[k]) {
            return true;
        }
    }
    share_bit_word_by_word(my_rest, their_rest)
}

/// The bits that are in both, word by word.
pub(crate) fn common_words(
    alloc: Global,
    a: &[u64],
    b: &[u64],
) -> Result<SmallVec<u64, 4>, AllocError>
    requires { length a.now ≡ length b.now }
    ensures words { IfOk result (λ v. AreCommon a.now b.now v.items) }
    ensures inline { length a.now ≤ 4 → IsOk result }
{
    if a.len() < MANY {
        return zip_words(alloc, a, b, |_, mine, theirs| mine & theirs);
    }
    let mut words = SmallVec::from_slice(alloc, a)?;
    put_common_of_many(a, b, words.as_mut_slice());
    Ok(words)
}

// Puts the bits that are in both over the words, of which there may be many.
fn put_common_of_many(a: &[u64], b: &[u64], words: &mut [u64])
    requires same { length a.now ≡ length b.now }
    requires room { length words.old ≡ length a.now }
    ensures { AreCommon a.now b.now words.new }
{
    let (mine, _) = a.as_chunks::<4>();
    let (theirs, _) = b.as_chunks::<4>();
    for k in 0..mine.len() {
        words[4 * k..4 * k + 4].copy_from_slice(&common_of_four(&mine[k], &theirs[k]));
    }
    put_common_word_by_word(a, b, 4 * mine.len(), words);
}
