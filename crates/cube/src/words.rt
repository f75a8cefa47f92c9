//! Kernels over words, which know nothing of symbols. Each looks at each word once.
ghost use Rattle.std.specs.Prelude.{◌≡◌, ◌==◌, ℕ, ◌↔◌, ◌≤◌, ◌<◌, ◌+◌, ◌^◌, IsTrue, IsOk, IfOk, IfSome, IfNone, length, slice_index, bit_and, ◌≢◌, if◌then◌else◌, max, ◌-◌, ◌*◌, ◌/◌, sum_by};
ghost use Rattle.std.specs.Int.{bit_at, count_zeros, w64};
ghost use Rattle.cube.specs.Words.{CoversWords, PairsMeetFrom, ShareBit, AreCommon, IsBitDifference, IsExchangeMask, exchanged, freed_bit, HasAll, DiffersFirstAt, IsFirstClear, bit_of_words};

use smallvec::SmallVec;
use std::alloc::{AllocError, Global};

// The lower bit of each pair.
const LOWER_BITS: u64 = 0x5555_5555_5555_5555;

/// Whether each bit of `b` is in `a`.
pub(crate) fn covers_word_by_word(a: &[u64], b: &[u64]) -> bool
    requires { length a.now ≡ length b.now }
    ensures { IsTrue result ↔ CoversWords a.now b.now }
{
    for k in 0..a.len() {
        if b[k] & !a[k] != 0 {
            return false;
        }
    }
    true
}

/// Whether each pair of bits of the words from number `from` on has one that is in both.
pub(crate) fn pairs_meet_word_by_word(a: &[u64], b: &[u64], from: usize) -> bool
    requires { length a.now ≡ length b.now }
    ensures { IsTrue result ↔ PairsMeetFrom from a.now b.now }
{
    for k in from..a.len() {
        let both = a[k] & b[k];
        if (both | (both >> 1)) & LOWER_BITS != LOWER_BITS {
            return false;
        }
    }
    true
}

/// Whether some bit is in both.
pub(crate) fn share_bit_word_by_word(a: &[u64], b: &[u64]) -> bool
    requires { length a.now ≡ length b.now }
    ensures { IsTrue result ↔ ShareBit a.now b.now }
{
    for k in 0..a.len() {
        if a[k] & b[k] != 0 {
            return true;
        }
    }
    false
}

/// Puts the bits that are in both over the words from number `from` on.
pub(crate) fn put_common_word_by_word(a: &[u64], b: &[u64], from: usize, words: &mut [u64])
    requires same { length a.now ≡ length b.now }
    requires room { length words.old ≡ length a.now }
    requires front { (k : ℕ) → k < from → k < length a.now → slice_index words.old k
        ≡ bit_and (slice_index a.now k) (slice_index b.now k) }
    ensures { AreCommon a.now b.now words.new }
{
    for k in from..a.len() {
        words[k] = a[k] & b[k];
    }
}

/// What `op` makes of the words of both lists, number by number; it is given the number, the word
/// of `a` and that of `b`.
pub(crate) fn zip_words<F: Fn(usize, u64, u64) -> u64>(
    alloc: Global,
    a: &[u64],
    b: &[u64],
    op: F,
) -> Result<SmallVec<u64, 4>, AllocError>
    requires same_len { length a.now ≡ length b.now }
    requires callable { F.IsAlwaysCallable op }
    ensures len { IfOk result (λ v. length v.items ≡ length a.now) }
    ensures words { IfOk result (λ v. (k : ℕ) → k < length a.now
        → F.post op k (slice_index a.now k) (slice_index b.now k) (slice_index v.items k)) }
    ensures inline { length a.now ≤ 4 → IsOk result }
{
    if a.len() == 2 {
        let mut words = SmallVec::new(alloc);
        words.push_reserved(op(0, a[0], b[0]));
        words.push_reserved(op(1, a[1], b[1]));
        return Ok(words);
    }
    let mut words = SmallVec::with_capacity(alloc, a.len())?;
    for k in 0..a.len() {
        words.push_reserved(op(k, a[k], b[k]));
    }
    Ok(words)
}

/// A copy of the words. Two, as most cubes have, are put in their places without a loop or a call.
#[inline(always)]
pub(crate) fn copied_words(alloc: Global, words: &[u64]) -> Result<SmallVec<u64, 4>, AllocError>
    ensures value { IfOk result (λ v. v.items ≡ words.now) }
    ensures inline { length words.now ≤ 4 → IsOk result }
{
    if words.len() == 2 {
        let mut copy = SmallVec::new(alloc);
        copy.push_reserved(words[0]);
        copy.push_reserved(words[1]);
        return Ok(copy);
    }
    copied_words_of_any_number(alloc, words)
}

// A copy of the words, however many. Few are put in their places one by one, which is quicker than
// a copy by length.
#[inline(never)]
fn copied_words_of_any_number(alloc: Global, words: &[u64]) -> Result<SmallVec<u64, 4>, AllocError>
    ensures value { IfOk result (λ v. v.items ≡ words.now) }
    ensures inline { length words.now ≤ 4 → IsOk result }
{
    if words.len() > 4 {
        return SmallVec::from_slice(alloc, words);
    }
    let mut copy = SmallVec::with_capacity(alloc, words.len())?;
    for k in 0..words.len() {
        copy.push_reserved(words[k]);
    }
    Ok(copy)
}

/// The word with bit `at` as given.
pub(crate) fn with_bit(word: u64, at: usize, bit: bool) -> u64
    requires { at < 64 }
    ensures same { bit_at result at ≡ (if bit then 1 else 0) }
    ensures others { (k : ℕ) → k < 64 → k ≢ at → bit_at result k ≡ bit_at word k }
{
    (word & !(1 << at)) | ((bit as u64) << at)
}

/// The word with bit `at` cleared unless it is to be kept. It has no branch, so that words are
/// packed at one speed whatever the symbols.
pub(crate) fn kept_bit(word: u64, at: usize, keep: bool) -> u64
    requires { at < 64 }
    ensures same { bit_at result at ≡ (if keep then bit_at word at else 0) }
    ensures others { (k : ℕ) → k < 64 → k ≢ at → bit_at result k ≡ bit_at word k }
{
    word & !((!keep as u64) << at)
}

/// The bits of `a` that are not in `b`.
pub(crate) fn minus_word(a: u64, b: u64) -> u64
    ensures { IsBitDifference result a b }
{
    a & !b
}

/// The pairs of `a` where those of `b` have both bits set, and pairs with both bits set elsewhere.
pub(crate) fn freed_word(a: u64, b: u64) -> u64
    ensures low { (k : ℕ) → k < 32 → bit_at result (2 * k) ≡ freed_bit (bit_at a (2 * k)) b k }
    ensures high { (k : ℕ) → k < 32 → bit_at result (2 * k + 1)
        ≡ freed_bit (bit_at a (2 * k + 1)) b k }
{
    let dashes = b & (b >> 1) & LOWER_BITS;
    a | !(dashes | (dashes << 1))
}

/// Word `w` of a set that has the first `len` bits and no other.
pub(crate) fn full_word(len: usize, w: usize) -> u64
    ensures within { (k : ℕ) → k < 64 → 64 * w + k < len → bit_at result k ≡ 1 }
    ensures past { (k : ℕ) → k < 64 → len ≤ 64 * w + k → bit_at result k ≡ 0 }
{
    if w < len / 64 {
        u64::MAX
    } else if w == len / 64 {
        (1 << (len % 64)) - 1
    } else {
        0
    }
}

/// Word `w` of a set: the bits of `a`, and those of the first `len` bits of the set that are not in
/// `b`.
pub(crate) fn or_not_word(len: usize, w: usize, a: u64, b: u64) -> u64
    ensures within { (k : ℕ) → k < 64 → 64 * w + k < len → bit_at result k
        ≡ max (bit_at a k) (1 - bit_at b k) }
    ensures past { (k : ℕ) → k < 64 → len ≤ 64 * w + k → bit_at result k ≡ bit_at a k }
{
    a | (full_word(len, w) & !b)
}

/// Whether the lowest `len` bits of the words are all set, as far as the words go.
pub(crate) fn has_all(len: usize, words: &[u64]) -> bool
    ensures { IsTrue result ↔ HasAll len words.now }
{
    for w in 0..words.len() {
        if full_word(len, w) & !words[w] != 0 {
            return false;
        }
    }
    true
}

/// How many bits are clear.
pub(crate) fn count_clear(words: &[u64]) -> usize
    requires { length words.now < 2 ^ 32 }
    ensures { result ≡ sum_by (count_zeros w64) words.now }
{
    let mut count = 0;
    for word in words {
        count += word.count_zeros() as usize;
    }
    count
}

/// The number of the first word in which they differ, and whether `a` has the lowest bit that
/// differs there; `None` if they are equal.
#[inline(always)]
pub(crate) fn first_difference(a: &[u64], b: &[u64]) -> Option<(usize, bool)>
    requires { length a.now ≡ length b.now }
    ensures found { IfSome result (λ found. (at : ℕ) × DiffersFirstAt a.now b.now at
        × (found.0 ≡ at / 64) × (found.1 ≡ (bit_of_words a.now at == 1))) }
    ensures none { IfNone result (a.now ≡ b.now) }
{
    for w in 0..a.len() {
        let difference = a[w] ^ b[w];
        if difference != 0 {
            return Some((w, (a[w] >> difference.trailing_zeros()) & 1 == 1));
        }
    }
    None
}

/// The bits of a word from `bit` on that are clear, as bits that are set; those below are clear.
pub(crate) fn clear_from(word: u64, bit: usize) -> u64
    requires { bit < 64 }
    ensures from_on { (k : ℕ) → bit ≤ k → k < 64 → bit_at result k ≡ 1 - bit_at word k }
    ensures before { (k : ℕ) → k < bit → bit_at result k ≡ 0 }
{
    !word & (u64::MAX << bit)
}

/// The number of the first clear bit from `from` on, each word's lowest bit first; `None` if there
/// is none in the words.
pub(crate) fn first_clear(words: &[u64], from: usize) -> Option<usize>
    requires { length words.now < 2 ^ 32 }
    ensures found { IfSome result (λ at. IsFirstClear words.now from at) }
    ensures none { IfNone result ((k : ℕ) → from ≤ k → k < 64 * length words.now
        → bit_of_words words.now k ≡ 1) }
{
    for w in from / 64..words.len() {
        let clear = clear_from(words[w], from.saturating_sub(64 * w));
        if clear != 0 {
            return Some(64 * w + clear.trailing_zeros() as usize);
        }
    }
    None
}

/// The lower bits of all pairs.
pub(crate) fn even_bits(word: u64) -> u64
    ensures even { (k : ℕ) → k < 32 → bit_at result (2 * k) ≡ bit_at word (2 * k) }
    ensures odd { (k : ℕ) → k < 32 → bit_at result (2 * k + 1) ≡ 0 }
{
    word & LOWER_BITS
}

/// The pairs of which no bit is set, as lower bits.
pub(crate) fn empty_pairs(word: u64) -> u64
    ensures even { (k : ℕ) → k < 32 → bit_at result (2 * k)
        ≡ 1 - max (bit_at word (2 * k)) (bit_at word (2 * k + 1)) }
    ensures odd { (k : ℕ) → k < 32 → bit_at result (2 * k + 1) ≡ 0 }
{
    even_bits(!(word | (word >> 1)))
}

/// The word with the pairs before number `pair` cleared.
pub(crate) fn from_pair(word: u64, pair: usize) -> u64
    requires { pair < 32 }
    ensures from_on { (k : ℕ) → 2 * pair ≤ k → k < 64 → bit_at result k ≡ bit_at word k }
    ensures before { (k : ℕ) → k < 2 * pair → bit_at result k ≡ 0 }
{
    word & (u64::MAX << (2 * pair))
}

// The word with each group of `width` bits that the mask has exchanged with the one above it.
fn exchange(word: u64, width: u32, mask: u64) -> u64
    requires width { width < 64 }
    requires mask { IsExchangeMask width mask }
    ensures { (k : ℕ) → k < 64 → bit_at result k ≡ bit_at word (exchanged width mask k) }
{
    ((word >> width) & mask) | ((word & mask) << width)
}

/// The word with its bits in the opposite order, the lowest one highest.
pub(crate) fn reversal(word: u64) -> u64
    ensures { (k : ℕ) → k < 64 → bit_at result k ≡ bit_at word (63 - k) }
{
    let word = exchange(word, 1, 0x5555_5555_5555_5555);
    let word = exchange(word, 2, 0x3333_3333_3333_3333);
    let word = exchange(word, 4, 0x0F0F_0F0F_0F0F_0F0F);
    let word = exchange(word, 8, 0x00FF_00FF_00FF_00FF);
    let word = exchange(word, 16, 0x0000_FFFF_0000_FFFF);
    exchange(word, 32, 0x0000_0000_FFFF_FFFF)
}
