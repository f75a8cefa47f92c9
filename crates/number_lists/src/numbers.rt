//! Lists of numbers and of marks: reads and writes at indices that may be out of range, sums, and
//! marks at many indices. Also numbers in 32 bits, and a fixed pseudo-random sequence.

use std::alloc::{AllocError, Global};

/// The first seed of the pseudo-random sequence.
pub const SEED: u64 = 0x9E3779B97F4A7C15;

/// The next number of the pseudo-random sequence, which is the next seed too (Marsaglia, Xorshift
/// RNGs, 2003); 0 for the seed 0.
pub fn next_random(seed: u64) -> u64 {
    let a = seed ^ (seed << 13);
    let b = a ^ (a >> 7);
    b ^ (b << 17)
}

/// The number in 32 bits; a larger one becomes the largest of these.
pub fn small(number: usize) -> u32 {
    u32::try_from(number).unwrap_or(u32::MAX)
}

/// The number at the index, or 0 past the end.
pub fn at(numbers: &[i64], index: usize) -> i64 {
    if index < numbers.len() {
        numbers[index]
    } else {
        0
    }
}

/// Sets the number at the index; does nothing past the end.
pub fn put(numbers: &mut Vec<i64>, index: usize, number: i64) {
    if index < numbers.len() {
        numbers[index] = number;
    }
}

/// Adds `amount` to the number at the index, which may wrap; does nothing past the end.
pub fn add_at(numbers: &mut Vec<i64>, index: usize, amount: i64) {
    if index < numbers.len() {
        numbers[index] = numbers[index].wrapping_add(amount);
    }
}

/// Adds `amount` to the number of each of the row's columns; does nothing for those past the end.
pub fn add_to_each(numbers: &mut [i64], row: &[u32], amount: i64) {
    for column in row {
        let column = *column as usize;
        if column < numbers.len() {
            numbers[column] = numbers[column].wrapping_add(amount);
        }
    }
}

/// Overwrites entries with the others, from the first on, until either list ends.
pub fn overwrite<T: Copy>(entries: &mut [T], others: &[T]) {
    let length = entries.len().min(others.len());
    entries[..length].copy_from_slice(&others[..length]);
}

/// The sum of the numbers, which wraps.
pub fn total(numbers: &[i64]) -> i64 {
    let mut sum: i64 = 0;
    for number in numbers {
        sum = sum.wrapping_add(*number);
    }
    sum
}

/// The number at the index, or 0 past the end.
pub fn number(numbers: &[usize], index: usize) -> usize {
    if index < numbers.len() {
        numbers[index]
    } else {
        0
    }
}

/// Sets the number at the index; does nothing past the end.
pub fn set(numbers: &mut Vec<usize>, index: usize, number: usize) {
    if index < numbers.len() {
        numbers[index] = number;
    }
}

/// Adds `amount` to the number at the index, and answers the sum, which wraps; past the end it
/// changes nothing, and answers `amount`.
pub fn add_to(numbers: &mut Vec<usize>, index: usize, amount: usize) -> usize {
    let sum = number(numbers, index).wrapping_add(amount);
    set(numbers, index, sum);
    sum
}

/// Whether the index is marked; not so past the end.
pub fn flag(flags: &[bool], index: usize) -> bool {
    index < flags.len() && flags[index]
}

/// Sets or clears the mark at the index; does nothing past the end.
pub fn mark(flags: &mut Vec<bool>, index: usize, to: bool) {
    if index < flags.len() {
        flags[index] = to;
    }
}

/// `end` marks, of which those at the indices are set; indices past the end set none.
pub fn marked(alloc: Global, indices: &[usize], end: usize) -> Result<Vec<bool>, AllocError> {
    let mut marks = vec![in alloc; false; end]?;
    for index in indices {
        mark(&mut marks, *index, true);
    }
    Ok(marks)
}

/// Marks for `end` columns: those of the live columns at these indices of `live` are set. An index
/// past the end of `live` sets none.
pub fn marks_of(
    alloc: Global,
    live: &[usize],
    indices: &[usize],
    end: usize,
) -> Result<Vec<bool>, AllocError> {
    let mut marks = vec![in alloc; false; end]?;
    for index in indices {
        if *index < live.len() {
            mark(&mut marks, live[*index], true);
        }
    }
    Ok(marks)
}
