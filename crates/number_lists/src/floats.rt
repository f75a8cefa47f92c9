//! Lists of floating-point numbers: reads and writes at indices that may be out of range, and whole numbers of
//! them.

use std::alloc::{AllocError, Global};
use std::num::{nearest_i64_to_f64, saturating_f64_to_u64};

/// The number at the index, or 0 past the end.
pub fn float(numbers: &[f64], index: usize) -> f64 {
    if index < numbers.len() {
        numbers[index]
    } else {
        0.0
    }
}

/// Sets the number at the index; does nothing past the end.
pub fn put_float(numbers: &mut [f64], index: usize, number: f64) {
    if index < numbers.len() {
        numbers[index] = number;
    }
}

/// The sum of the numbers at these indices.
pub fn sum_at(numbers: &[f64], indices: &[u32]) -> f64 {
    let mut sum = 0.0;
    for index in indices {
        sum += float(numbers, *index as usize);
    }
    sum
}

/// The numbers times `unit`, as whole numbers, and 0 for one below 0.
pub fn in_whole_numbers(alloc: Global, floats: &[f64], unit: i64) -> Result<Vec<i64>, AllocError> {
    let unit = nearest_i64_to_f64(unit);
    let mut numbers = Vec::with_capacity(alloc, floats.len())?;
    for float in floats {
        let number = saturating_f64_to_u64((*float * unit).max(0.0));
        numbers.push(i64::try_from(number).unwrap_or(i64::MAX))?;
    }
    Ok(numbers)
}
