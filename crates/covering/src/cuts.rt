//! Cuts of rows, by which the loads of the rows bound more.
//!
//! A cut is a list of rows. A list of columns with a column of each row of the cut meets these rows at
//! least as often as there are rows, so half of that, rounded up for each column, is at least half of
//! the number of rows, rounded up (Caprara and Fischetti, {0, 1/2}-Chvatal-Gomory cuts, 1996). With a
//! weight it is charged as a row is: it raises the load of each column by half of the column's count, and
//! what all covers carry by half of the number of rows. Any list of rows makes a cut. A sum that is too
//! large is the largest number: a load as large is as much as can be carried.

ghost use Rattle.std.specs.Prelude.{◌≡◌, ◌≤◌, ◌<◌, ◌^◌, ℕ, IfOk, length};
ghost use Rattle.std.specs.List.{AllByRecursion};
ghost use Rattle.covering.specs.Cuts.{raised};
ghost use Rattle.covering.specs.Lagrange.{BoundsCovers, Carries};
ghost use Rattle.covering.specs.Table.{RisesFrom, items_of};
ghost use Rattle.covering.specs.Weights.{at};

use crate::lagrangian::{Loads, charge, lagrangian, over};
use heuristics::{Cut, Multipliers};
use std::alloc::{AllocError, Global};

/// How often the columns stand in the rows of a cut.
#[derive(Drop)]
struct Counts {
    /// In how many of the rows each column is.
    counts: Vec<u128>,
    /// The number of the rows.
    number: u128,
}

/// Counts in how many rows of the cut each column is, and the rows; indices of no row do not count.
fn counts_of(
    alloc: Global,
    rows: &[Vec<usize>],
    cut: &[usize],
    columns: usize,
) -> Result<Counts, AllocError>
    requires rise { AllByRecursion (RisesFrom 0) (items_of rows.now) }
    ensures length { IfOk result (λ c. length c.counts.items ≡ columns) }
    ensures carries { IfOk result (λ c. Carries (items_of rows.now) c.counts.items c.number) }
{
    let mut counts: Vec<u128> = vec![in alloc; 0; columns]?;
    let mut number: u128 = 0;
    for row in cut {
        if *row < rows.len() {
            charge(&mut counts, &rows[*row], 1);
            number += 1;
        }
    }
    Ok(Counts { counts, number })
}

/// The load, with the weight as many times as half of the count, or the largest number if that is
/// larger.
fn raised(weight: u64, load: u128, count: u128) -> u128
    ensures { result ≡ raised weight load count }
{
    load.saturating_add(u128::from(weight).saturating_mul(count.div_ceil(2)))
}

/// Raises the load of each column by half of its count, as many times as the weight.
fn charge_halves(loads: &mut Vec<u128>, counts: &[u128], weight: u64)
    requires length { length counts.now ≡ length loads.old.items }
    ensures charged { (c : ℕ) → c < length loads.old.items
        → at loads.new.items c ≡ raised weight (at loads.old.items c) (at counts.now c) }
    ensures length { length loads.new.items ≡ length loads.old.items }
{
    for column in 0..counts.len() {
        loads[column] = raised(weight, loads[column], counts[column]);
    }
}

/// The loads with those of the cuts, which bound each list with a column of each row.
fn with_cuts(
    alloc: Global,
    rows: &[Vec<usize>],
    cuts: &[Cut],
    scaled_costs: &[u64],
    from: Loads,
) -> Result<Loads, AllocError>
    requires rise { AllByRecursion (RisesFrom 0) (items_of rows.now) }
    requires length { length from.loads.items ≡ length scaled_costs.now }
    requires carries { Carries (items_of rows.now) from.loads.items from.total }
    ensures { IfOk result (λ l. BoundsCovers (items_of rows.now) scaled_costs.now
        l.loads.items l.total l.over) }
{
    let mut loads = from.loads;
    let mut total = from.total;
    for cut in cuts {
        let counted = counts_of(alloc, rows, &cut.rows, loads.len())?;
        charge_halves(&mut loads, &counted.counts, cut.weight);
        total = raised(cut.weight, total, counted.number);
    }
    let over = over(&loads, scaled_costs);
    Ok(Loads { loads, total, over })
}

/// The loads of the multipliers' weights and cuts, which bound each list with a column of each row.
pub(crate) fn loads_of(
    alloc: Global,
    rows: &[Vec<usize>],
    multipliers: &Multipliers,
    scaled_costs: &[u64],
) -> Result<Loads, AllocError>
    requires length { length multipliers.now.weights.items ≡ length rows.now }
    requires few { length rows.now < 2 ^ 62 }
    requires rise { AllByRecursion (RisesFrom 0) (items_of rows.now) }
    ensures { IfOk result (λ l. BoundsCovers (items_of rows.now) scaled_costs.now
        l.loads.items l.total l.over) }
{
    let loads = lagrangian(alloc, rows, &multipliers.weights, scaled_costs)?;
    if multipliers.cuts.is_empty() {
        return Ok(loads);
    }
    with_cuts(alloc, rows, &multipliers.cuts, scaled_costs, loads)
}
