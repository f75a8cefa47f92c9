//! Lists of floating-point numbers: what is added at indices that may be out of range, and sums of lists.

pub(crate) use number_lists::{float, put_float, sum_at};

/// Adds `amount` to the number at the index; does nothing past the end.
pub(crate) fn add_float(numbers: &mut [f64], index: usize, amount: f64) {
    if index < numbers.len() {
        numbers[index] += amount;
    }
}

/// Adds `amount` to the number at each of these indices.
pub(crate) fn add_float_to_each(numbers: &mut [f64], indices: &[u32], amount: f64) {
    for index in indices {
        add_float(numbers, *index as usize, amount);
    }
}

/// Sets each number to this one.
pub(crate) fn fill_floats(numbers: &mut [f64], to: f64) {
    for number in numbers.iter_mut() {
        *number = to;
    }
}

/// Adds `factor` times the other numbers, as far as both lists go.
pub(crate) fn add_multiple(numbers: &mut [f64], others: &[f64], factor: f64) {
    for index in 0..numbers.len().min(others.len()) {
        numbers[index] += factor * others[index];
    }
}

/// The sum of the squares of the numbers.
pub(crate) fn sum_of_squares(numbers: &[f64]) -> f64 {
    let mut sum = 0.0;
    for number in numbers {
        sum += *number * *number;
    }
    sum
}
