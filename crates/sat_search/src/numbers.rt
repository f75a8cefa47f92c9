//! Reads and writes at indices that may be out of range: 32-bit numbers, of which [`NONE`] is none.

/// No number.
pub(crate) const NONE: u32 = u32::MAX;

/// The number in 32 bits; a larger one becomes the largest of these.
pub(crate) fn saturating_u32(number: usize) -> u32 {
    u32::try_from(number).unwrap_or(u32::MAX)
}

/// The number at the index, or [`NONE`] past the end.
pub(crate) fn at(numbers: &[u32], index: u32) -> u32 {
    let index = index as usize;
    if index < numbers.len() {
        numbers[index]
    } else {
        NONE
    }
}

/// Adds a number to a list that has room for it. A list without room grows; where memory is refused
/// then, the number is left out.
pub(crate) fn add(numbers: &mut Vec<u32>, number: u32) {
    let _ = numbers.push(number);
}

/// Sets the number at the index; does nothing past the end.
pub(crate) fn put(numbers: &mut Vec<u32>, index: u32, number: u32) {
    let index = index as usize;
    if index < numbers.len() {
        numbers[index] = number;
    }
}
