//! Sets of bits as words, and the input parts of cubes as words of literals.
ghost use Rattle.std.specs.Prelude.{◌<◌};

use std::alloc::{AllocError, Global};

/// The literals of a cube at 64 inputs: a bit for each that has `0`, and a bit for each with `1`.
#[derive(Clone, Copy)]
pub(crate) struct Literals {
    pub(crate) zeros: u64,
    pub(crate) ones: u64,
}

impl Literals {
    pub(crate) const NONE: Literals = Literals { zeros: 0, ones: 0 };

    /// The inputs that have a literal.
    pub(crate) fn inputs(self) -> u64 {
        self.zeros | self.ones
    }

    /// The inputs at which both have literals that differ.
    pub(crate) fn opposites(self, other: Literals) -> u64 {
        (self.zeros & other.ones) | (self.ones & other.zeros)
    }

    /// The inputs at which both have the same literal.
    pub(crate) fn agreements(self, other: Literals) -> u64 {
        (self.zeros & other.zeros) | (self.ones & other.ones)
    }

    /// The literals of both: the meet of the cubes, unless they have opposite literals.
    pub(crate) fn meet(self, other: Literals) -> Literals {
        Literals {
            zeros: self.zeros | other.zeros,
            ones: self.ones | other.ones,
        }
    }

    /// The literals at these inputs alone.
    pub(crate) fn at(self, inputs: u64) -> Literals {
        Literals {
            zeros: self.zeros & inputs,
            ones: self.ones & inputs,
        }
    }
}

/// The literals at an index of a row, none past the end.
pub(crate) fn literals_at(row: &[Literals], index: usize) -> Literals {
    match row.get(index) {
        Some(word) => *word,
        None => Literals::NONE,
    }
}

/// The word at an index, 0 past the end.
pub(crate) fn word_at(words: &[u64], index: usize) -> u64 {
    match words.get(index) {
        Some(word) => *word,
        None => 0,
    }
}

/// Whether the cubes share a point.
pub(crate) fn meets(a: &[Literals], b: &[Literals]) -> bool {
    for k in 0..a.len().min(b.len()) {
        if literals_at(a, k).opposites(literals_at(b, k)) != 0 {
            return false;
        }
    }
    true
}

/// Whether the first cube contains the second: each literal of the first is one of the second.
/// Words past the end of the shorter one are not looked at.
pub(crate) fn contains(a: &[Literals], b: &[Literals]) -> bool {
    for k in 0..a.len().min(b.len()) {
        let (one, other) = (literals_at(a, k), literals_at(b, k));
        if (one.zeros & !other.zeros) | (one.ones & !other.ones) != 0 {
            return false;
        }
    }
    true
}

/// Whether the cube has a literal.
pub(crate) fn has_literal(row: &[Literals]) -> bool {
    for word in row {
        if word.inputs() != 0 {
            return true;
        }
    }
    false
}

/// How many literals the cube has.
pub(crate) fn literal_count(row: &[Literals]) -> u32 {
    let mut count: u32 = 0;
    for word in row {
        count = count.wrapping_add(word.inputs().count_ones());
    }
    count
}

/// Adds the opposites of a cube's literals to the forced ones.
pub(crate) fn force_opposites(row: &[Literals], forced: &mut [Literals]) {
    for k in 0..row.len().min(forced.len()) {
        forced[k].zeros |= row[k].ones;
        forced[k].ones |= row[k].zeros;
    }
}

/// Narrows the cube that begins at an index to its meet with the other one, by adding its literals.
pub(crate) fn narrow_at(rows: &mut [Literals], begin: usize, other: &[Literals]) {
    for k in 0..other.len() {
        let at = begin.wrapping_add(k);
        if at < rows.len() {
            rows[at] = rows[at].meet(other[k]);
        }
    }
}

/// Adds the literals of another cube at these inputs.
pub(crate) fn join_literals(row: &mut [Literals], other: &[Literals], inputs: &[u64]) {
    for k in 0..row.len().min(inputs.len()) {
        row[k] = row[k].meet(literals_at(other, k).at(inputs[k]));
    }
}

/// The `width` words from an index on, none if not all of them are there.
pub(crate) fn row_at<T>(rows: &[T], begin: usize, width: usize) -> &[T] {
    let end = begin.saturating_add(width);
    if begin <= end && end <= rows.len() {
        &rows[begin..end]
    } else {
        &[]
    }
}

/// Adds a copy of the `width` words from an index on, at the end of the same list.
pub(crate) fn push_copy<T: Copy>(
    rows: &mut Vec<T>,
    begin: usize,
    width: usize,
) -> Result<(), AllocError> {
    for k in 0..width {
        if let Some(word) = rows.get(begin.wrapping_add(k)) {
            let copied = *word;
            rows.push(copied)?;
        }
    }
    Ok(())
}

/// How many rows of `width` words there are.
pub(crate) fn row_count<T>(rows: &[T], width: usize) -> usize {
    rows.len() / width.max(1)
}

/// The words from an index on, none past the end.
pub(crate) fn tail<T>(rows: &[T], begin: usize) -> &[T] {
    if begin <= rows.len() {
        &rows[begin..]
    } else {
        &[]
    }
}

/// Whether an input has a literal; `false` past the end.
pub(crate) fn has_literal_at(row: &[Literals], input: usize) -> bool {
    match row.get(input / 64) {
        Some(word) => word.inputs() >> (input % 64) & 1 != 0,
        None => false,
    }
}

/// Whether the literal at an input is `1`; `None` if it has none, or past the end.
pub(crate) fn literal_at(row: &[Literals], input: usize) -> Option<bool> {
    let bit = 1 << (input % 64);
    let word = row.get(input / 64)?;
    if word.ones & bit != 0 {
        Some(true)
    } else if word.zeros & bit != 0 {
        Some(false)
    } else {
        None
    }
}

/// Gives an input the literal `1`, or `0`, in place of any other. Nothing changes past the end.
pub(crate) fn put_literal(row: &mut [Literals], input: usize, one: bool) {
    let (k, bit) = (input / 64, 1 << (input % 64));
    if k < row.len() {
        let mut word = row[k].at(!bit);
        if one {
            word.ones |= bit;
        } else {
            word.zeros |= bit;
        }
        row[k] = word;
    }
}

/// Takes away the literal of an input.
pub(crate) fn free_input(row: &mut [Literals], input: usize) {
    let k = input / 64;
    if k < row.len() {
        row[k] = row[k].at(!(1 << (input % 64)));
    }
}

/// How many words hold this many bits; at least one.
pub(crate) fn words_for(bits: usize) -> usize
    ensures { 0 < result }
{
    (bits / 64).saturating_add((bits % 64 != 0) as usize).max(1)
}

/// Whether the bit at an index is set; `false` past the end.
pub(crate) fn has_bit(words: &[u64], index: usize) -> bool {
    match words.get(index / 64) {
        Some(word) => *word >> (index % 64) & 1 != 0,
        None => false,
    }
}

/// Sets the bit at an index; none past the end.
pub(crate) fn put_bit(words: &mut [u64], index: usize) {
    let k = index / 64;
    if k < words.len() {
        words[k] |= 1 << (index % 64);
    }
}

/// Takes away the bit at an index.
pub(crate) fn drop_bit(words: &mut [u64], index: usize) {
    let k = index / 64;
    if k < words.len() {
        words[k] &= !(1 << (index % 64));
    }
}

/// Whether each bit of the first set is in the second. Words past the end of the shorter one are
/// not looked at.
pub(crate) fn is_within(a: &[u64], b: &[u64]) -> bool {
    for k in 0..a.len().min(b.len()) {
        if word_at(a, k) & !word_at(b, k) != 0 {
            return false;
        }
    }
    true
}

/// Whether some bit is in both sets.
pub(crate) fn share_bit(a: &[u64], b: &[u64]) -> bool {
    for k in 0..a.len().min(b.len()) {
        if word_at(a, k) & word_at(b, k) != 0 {
            return true;
        }
    }
    false
}

/// How many bits are set.
pub(crate) fn bit_count(words: &[u64]) -> u32 {
    let mut count: u32 = 0;
    for word in words {
        count = count.wrapping_add(word.count_ones());
    }
    count
}

/// Adds the bits of another set.
pub(crate) fn join_bits(words: &mut [u64], others: &[u64]) {
    for k in 0..words.len().min(others.len()) {
        words[k] |= others[k];
    }
}

/// Adds the bits of another set to the one that begins at the word at an index.
pub(crate) fn join_bits_at(words: &mut [u64], begin: usize, others: &[u64]) {
    for k in 0..others.len() {
        let at = begin.wrapping_add(k);
        if at < words.len() {
            words[at] |= others[k];
        }
    }
}

/// Whether a bit is set.
pub(crate) fn has_bits(words: &[u64]) -> bool {
    for word in words {
        if *word != 0 {
            return true;
        }
    }
    false
}

/// Adds the bits of word `k` to the list of numbers.
fn push_members_of_word(numbers: &mut Vec<usize>, k: usize, word: u64) -> Result<(), AllocError> {
    let mut rest = word;
    for _ in 0..word.count_ones() {
        let bit = rest.trailing_zeros() as usize;
        numbers.push(k.wrapping_mul(64).wrapping_add(bit))?;
        rest &= rest.wrapping_sub(1);
    }
    Ok(())
}

/// The bits that are set, as numbers that rise.
pub(crate) fn members(alloc: Global, words: &[u64]) -> Result<Vec<usize>, AllocError> {
    let mut numbers = Vec::new(alloc);
    for k in 0..words.len() {
        push_members_of_word(&mut numbers, k, words[k])?;
    }
    Ok(numbers)
}

/// Takes the bits of another set away from the one that begins at the word at an index.
pub(crate) fn drop_bits_at(words: &mut [u64], begin: usize, others: &[u64]) {
    for k in 0..others.len() {
        let at = begin.wrapping_add(k);
        if at < words.len() {
            words[at] &= !others[k];
        }
    }
}

/// How many bits are in both sets.
pub(crate) fn shared_count(a: &[u64], b: &[u64]) -> u32 {
    let mut count: u32 = 0;
    for k in 0..a.len().min(b.len()) {
        count = count.wrapping_add((a[k] & b[k]).count_ones());
    }
    count
}

/// Takes the bits away that the other set lacks. Words past its end stay.
pub(crate) fn meet_bits(words: &mut [u64], others: &[u64]) {
    for k in 0..words.len().min(others.len()) {
        words[k] &= others[k];
    }
}

/// 0, 1 or 2: as none of the word's bits is set, one, or more.
pub(crate) fn few_in_word(word: u64) -> u32 {
    ((word != 0) as u32).wrapping_add((word & word.wrapping_sub(1) != 0) as u32)
}
