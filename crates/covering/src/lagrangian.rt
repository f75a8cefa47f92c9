//! The Lagrangian bound, for any weights of rows.
//!
//! The load of a column is the weight of its rows; its overload is the load less its scaled cost,
//! its slack the scaled cost less the load. A list that has a column of each row carries the weight
//! of all rows, so that weight is at most the list's scaled costs and all overloads. The slack of a
//! column of the list, or the overload of one outside it, can be added to the weight.

ghost use Rattle.std.specs.Prelude.{◌≡◌, ◌≤◌, ◌<◌, ◌+◌, ◌-◌, ◌*◌, ◌^◌, ◌⊎◌, ℕ, IfOk, cond, length};
ghost use Rattle.std.specs.List.{AllByRecursion, range_with_len};
ghost use Rattle.covering.specs.Cover.{sum_over};
ghost use Rattle.covering.specs.Lagrange.{BoundsCovers, BoundsCoversLacking, Carries, IsLoaded, beyond};
ghost use Rattle.covering.specs.Table.{RisesFrom, has, items_of};
ghost use Rattle.covering.specs.Weights.{at, total};

use crate::bound::at;
use std::alloc::{AllocError, Global};

/// The loads of columns, and what they come to.
#[derive(Drop)]
pub(crate) struct Loads {
    /// The load of each column.
    pub(crate) loads: Vec<u128>,
    /// The weight of all rows.
    pub(crate) total: u128,
    /// The overloads of all columns together.
    pub(crate) over: u128,
}

/// Adds the weight to the load of each column of the row, but for columns past the end.
pub(crate) fn charge(loads: &mut Vec<u128>, row: &[usize], weight: u64)
    requires rises { RisesFrom 0 row.now }
    requires fits { (c : ℕ) → at loads.old.items c + weight < 2 ^ 128 }
    ensures charged { (c : ℕ) → c < length loads.old.items
        → at loads.new.items c ≡ at loads.old.items c + cond (has c row.now) weight 0 }
    ensures length { length loads.new.items ≡ length loads.old.items }
{
    for column in row {
        if *column < loads.len() {
            loads[*column] += u128::from(weight);
        }
    }
}

/// The weight of all rows.
fn total(weights: &[u64]) -> u128
    ensures sum { result ≡ total weights.now }
    ensures bound { result ≤ length weights.now * 2 ^ 64 }
{
    let mut total: u128 = 0;
    for weight in weights {
        total += u128::from(*weight);
    }
    total
}

/// The overloads of all columns together, or the largest number if they are larger.
pub(crate) fn over(loads: &[u128], scaled_costs: &[u64]) -> u128
    ensures { (result ≡ sum_over (beyond loads.now scaled_costs.now)
        (range_with_len 0 (length loads.now))) ⊎ (result ≡ 2 ^ 128 - 1) }
{
    let mut over: u128 = 0;
    for column in 0..loads.len() {
        let beyond = loads[column].saturating_sub(u128::from(at(scaled_costs, column)));
        let Some(sum) = over.checked_add(beyond) else {
            return u128::MAX;
        };
        over = sum;
    }
    over
}

/// The loads of the weights, which bound each list with a column of each row.
pub(crate) fn lagrangian(
    alloc: Global,
    rows: &[Vec<usize>],
    weights: &[u64],
    scaled_costs: &[u64],
) -> Result<Loads, AllocError>
    requires length { length weights.now ≡ length rows.now }
    requires few { length rows.now < 2 ^ 62 }
    requires rise { AllByRecursion (RisesFrom 0) (items_of rows.now) }
    ensures loaded { IfOk result (λ l. IsLoaded (items_of rows.now) weights.now scaled_costs.now
        l.loads.items l.total l.over) }
    ensures length { IfOk result (λ l. length l.loads.items ≡ length scaled_costs.now) }
    ensures carries { IfOk result (λ l. Carries (items_of rows.now) l.loads.items l.total) }
    ensures covers { IfOk result (λ l. BoundsCovers (items_of rows.now) scaled_costs.now
        l.loads.items l.total l.over) }
    ensures lacking { IfOk result (λ l. BoundsCoversLacking (items_of rows.now) scaled_costs.now
        l.loads.items l.total l.over) }
{
    let mut loads: Vec<u128> = vec![in alloc; 0; scaled_costs.len()]?;
    for (i, row) in rows.iter().enumerate() {
        charge(&mut loads, row, weights[i]);
    }
    let total = total(weights);
    let over = over(&loads, scaled_costs);
    Ok(Loads { loads, total, over })
}
