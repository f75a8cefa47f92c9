//! Cutoffs, scaled costs (`one` a column, `each` a unit of its cost), columns that a gap leaves. The weights
//! of rows and of cuts come from `warm_start`, whose steps are in `heuristics`; here, in `lagrangian` and in
//! `cuts` they are checked.

ghost use Rattle.std.specs.Prelude.{◌≡◌, ◌<◌, ◌*◌, ◌+◌, ◌-◌, IfOk, IfSome, length, map, nat_le};
ghost use Rattle.std.specs.List.{range_with_len};
ghost use Rattle.covering.specs.Cover.{counted};
ghost use Rattle.covering.specs.Weights.{at};

use crate::choice::{Choice, cost};
use std::alloc::{AllocError, Global};

/// What a cover may have at most.
#[derive(Clone, Copy)]
pub(crate) struct Cutoff {
    /// The number of its columns.
    pub(crate) columns: usize,
    /// Their cost, all together.
    pub(crate) cost: u128,
}

/// The number for the column, 0 if there is none.
pub(crate) fn at(numbers: &[u64], column: usize) -> u64
    ensures { result ≡ at numbers.now column }
{
    if column < numbers.len() {
        numbers[column]
    } else {
        0
    }
}

/// The scaled cost of a column: `one` for itself, and `each` for each unit of its cost.
fn scaled_cost(choice: Choice, literals: &[u32], one: u32, each: u32, column: usize) -> u64
    ensures { result ≡ one + each * counted choice literals.now column }
{
    u64::from(one) + u64::from(each) * u64::from(cost(choice, literals, column))
}

/// The scaled cost of each column: `one` for itself, and `each` for each unit of its cost.
pub(crate) fn scaled_costs(
    alloc: Global,
    choice: Choice,
    literals: &[u32],
    one: u32,
    each: u32,
) -> Result<Vec<u64>, AllocError>
    ensures { IfOk result (λ v. v.items ≡ map (λ c. one + each * counted choice literals.now c)
        (range_with_len 0 (length literals.now))) }
{
    let mut costs = vec![in alloc; 0; literals.len()]?;
    for column in 0..literals.len() {
        costs[column] = scaled_cost(choice, literals, one, each, column);
    }
    Ok(costs)
}

/// The scaled cost of so many columns with that cost, and the overloads; `None` if the sum is too
/// large.
pub(crate) fn limit_of(one: u32, columns: usize, each: u32, cost: u128, over: u128) -> Option<u128>
    ensures { IfSome result (λ limit. limit ≡ one * columns + each * cost + over) }
{
    let first = u128::from(one) * (columns as u128);
    let Some(second) = u128::from(each).checked_mul(cost) else {
        return None;
    };
    let Some(both) = first.checked_add(second) else {
        return None;
    };
    both.checked_add(over)
}

/// Marks the columns whose slack is no more than the gap (fixing columns by reduced costs).
pub(crate) fn columns_within_gap(
    alloc: Global,
    scaled_costs: &[u64],
    loads: &[u128],
    gap: u128,
) -> Result<Vec<bool>, AllocError>
    ensures { IfOk result (λ v. v.items ≡ map (λ c. nat_le (at scaled_costs.now c - at loads.now c)
        gap) (range_with_len 0 (length scaled_costs.now))) }
{
    let mut keep = vec![in alloc; false; scaled_costs.len()]?;
    for column in 0..scaled_costs.len() {
        keep[column] = is_within_gap(scaled_costs, loads, gap, column);
    }
    Ok(keep)
}

/// Whether the column's slack, 0 if its load is more than its cost, is no more than the gap.
fn is_within_gap(scaled_costs: &[u64], loads: &[u128], gap: u128, column: usize) -> bool
    ensures { result ≡ nat_le (at scaled_costs.now column - at loads.now column) gap }
{
    let load = if column < loads.len() {
        loads[column]
    } else {
        0
    };
    u128::from(at(scaled_costs, column)).saturating_sub(load) <= gap
}
