//! Words of bits, for hints.

/// The word at this index, 0 past the end.
#[inline(always)]
pub(crate) fn word(list: &[u64], at: usize) -> u64 {
    if at < list.len() { list[at] } else { 0 }
}

/// Takes the lowest bit out of the word, and says where it was; `None` where no bit is set.
#[inline(always)]
pub(crate) fn take_lowest(word: &mut u64) -> Option<usize> {
    if *word == 0 {
        return None;
    }
    let at = word.trailing_zeros() as usize;
    *word &= word.wrapping_sub(1);
    Some(at)
}
