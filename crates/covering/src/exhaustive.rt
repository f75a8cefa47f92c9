//! The exhaustive search (`least_cover_plain`): every choice of live columns, in rising size.

ghost use Rattle.std.specs.Prelude.{◌≡◌, ◌<◌, ◌^◌, [], IfOk, option_map, length, Some, None};
ghost use Rattle.std.specs.List.{list_all};
ghost use Rattle.itertools.specs.Odometer.{ways};
ghost use Rattle.itertools.specs.Pool.{ascending_low, ascending_high, combination_can, combination_left};
ghost use Rattle.covering.specs.Table.{IsTable};
ghost use Rattle.covering.specs.Cover.{meets, counted, IsLeast};
ghost use Rattle.covering.specs.Choices.{choices, union_of, better, best_of, best_choice};

use crate::choice::{Choice, total_cost};
use crate::columns::{all_met, union_of};
use crate::table::Table;
use itertools::{Combinations, Itertools};
use std::alloc::{AllocError, Global};

/// The choices of `size` of the live columns, one by one, in list order; none if they are fewer.
fn live_choices(
    alloc: Global,
    live: &[usize],
    size: usize,
) -> Result<Combinations<usize, Global>, AllocError>
    ensures can { IfOk result combination_can }
    ensures pool { IfOk result (λ c. c.pool.items ≡ live.now) }
    ensures places { IfOk result (λ c. combination_left c
        ≡ ways ascending_low (ascending_high (length c.pool.items) size) size []) }
{
    live.iter().copied().combinations(alloc, size)
}

/// The one of the two that costs less, `best` if they cost the same; `chosen` if there is no best.
fn better_of(
    choice: Choice,
    literals: &[u32],
    best: Option<Vec<usize>>,
    chosen: Vec<usize>,
) -> Vec<usize>
    ensures { better (counted choice literals.now) (option_map (λ v. v.items) best) chosen.items
        ≡ Some result.items }
{
    let Some(best) = best else {
        return chosen;
    };
    if total_cost(choice, literals, &chosen) < total_cost(choice, literals, &best) {
        chosen
    } else {
        best
    }
}

/// The cheapest choice of so many live columns that has a column of each row, the first of several;
/// `None` if no choice has.
fn best_choice(
    alloc: Global,
    choice: Choice,
    literals: &[u32],
    live: &[usize],
    rows: &[Vec<usize>],
    size: usize,
) -> Result<Option<Vec<usize>>, AllocError>
    ensures { IfOk result (λ o. option_map (λ v. v.items) o
        ≡ best_of (counted choice literals.now) (λ s. list_all (λ row. meets s row.items) rows.now)
        None (choices size live.now)) }
{
    let mut best: Option<Vec<usize>> = None;
    for chosen in live_choices(alloc, live, size)? {
        let chosen = chosen?;
        if all_met(&chosen, rows) {
            best = Some(better_of(choice, literals, best, chosen));
        }
    }
    Ok(best)
}

impl Table {
    /// The cheapest choice of so many live columns that has a column of each row, the first of
    /// several; `None` if no choice has.
    fn best_choice(
        &self,
        alloc: Global,
        choice: Choice,
        size: usize,
    ) -> Result<Option<Vec<usize>>, AllocError>
        ensures found { IfOk result (λ o. option_map (λ v. v.items) o
            ≡ best_choice choice self.now size) }
        ensures table { IsTable self.now }
        ensures long { length self.now.live < 2 ^ 64 }
    {
        best_choice(alloc, choice, &self.literals, &self.live, &self.rows, size)
    }

    /// The rising list of the taken columns and these.
    fn with_taken(&self, alloc: Global, columns: &[usize]) -> Result<Vec<usize>, AllocError>
        ensures { IfOk result (λ v. v.items ≡ union_of self.now.taken columns.now) }
    {
        union_of(alloc, &self.taken, columns)
    }
}

/// The first of the shortest covers under the choice, by trying all choices of live columns in
/// rising size.
///
/// It looks at every choice of the least size, so that it serves only small tables: the solver
/// calls it where no more than eight columns are live. It also stands for comparison.
pub fn least_cover_plain(table: &Table, choice: Choice) -> Result<Vec<usize>, AllocError>
    ensures { IfOk result (λ v. IsLeast choice table.now v.items) }
{
    let alloc = *table.rows.allocator();
    let mut size = 0;
    loop {
        if let Some(best) = table.best_choice(alloc, choice, size)? {
            return table.with_taken(alloc, &best);
        }
        size += 1;
    }
}
