//! What a cutoff leaves of a table: the columns and the cost that are left beside the taken columns, and
//! the live columns that a cover within it may have, by weights of the rows (the dual bound). If the
//! weights are more than what is left there is no cover within the cutoff, and a column with more slack
//! than the remaining gap is in none.

ghost use Rattle.std.specs.Prelude.{◌≡◌, ◌≤◌, ◌-◌, ℕ, IfOk, MatchOption, MatchBool, length, true, false};
ghost use Rattle.covering.specs.Table.{IsTable, has};
ghost use Rattle.covering.specs.Cover.{counted, sum_over};
ghost use Rattle.covering.specs.Search.{NoneWithin, IsPruned, IsOutside, marked};

use crate::bound::{Cutoff, columns_within_gap, limit_of, scaled_costs};
use crate::choice::{Choice, cost, total_cost};
use crate::cuts::loads_of;
use crate::marks::{all_kept, all_marked};
use crate::table::Table;
use heuristics::{Goal, Multipliers};
use number_lists::Compact;
use std::alloc::{AllocError, Global};
use warm_start::WarmStart;

/// A table is wide if it has more live columns than this many times its rows.
const WIDE: usize = 16;

/// The cost of each live column, for hints.
fn live_costs(
    alloc: Global,
    choice: Choice,
    literals: &[u32],
    live: &[usize],
) -> Result<Vec<i64>, AllocError> {
    let mut costs = Vec::with_capacity(alloc, live.len())?;
    for column in live {
        costs.push(i64::from(cost(choice, literals, *column)))?;
    }
    Ok(costs)
}

impl Table {
    /// Whether the taken columns alone go past the cutoff.
    pub(crate) fn is_over_cutoff(&self, choice: Choice, cutoff: Cutoff) -> bool
        ensures { MatchBool result (NoneWithin choice self.now cutoff.columns cutoff.cost)
            ((length self.now.taken ≤ cutoff.columns)
            × (sum_over (counted choice self.now.weights) self.now.taken ≤ cutoff.cost)) }
    {
        if self.taken_columns().len() > cutoff.columns {
            return true;
        }
        total_cost(choice, self.literals(), self.taken_columns()) > cutoff.cost
    }

    /// The cutoff less the taken columns: what a cover within it may have beside these; 0 where
    /// they go past it.
    pub(crate) fn remaining_cutoff(&self, choice: Choice, cutoff: Cutoff) -> Cutoff
        ensures columns { result.columns ≡ cutoff.columns - length self.now.taken }
        ensures cost { result.cost ≡ cutoff.cost
            - sum_over (counted choice self.now.weights) self.now.taken }
    {
        let taken = self.taken_columns();
        Cutoff {
            columns: cutoff.columns.saturating_sub(taken.len()),
            cost: cutoff
                .cost
                .saturating_sub(total_cost(choice, self.literals(), taken)),
        }
    }

    /// What is left of the cutoff beside the taken columns, as hints take it: a number that is too
    /// large for them is the largest.
    pub(crate) fn goal(&self, choice: Choice, cutoff: Cutoff) -> Goal {
        let rest = self.remaining_cutoff(choice, cutoff);
        Goal {
            columns: i64::try_from(rest.columns).unwrap_or(i64::MAX),
            cost: i64::try_from(rest.cost).unwrap_or(i64::MAX),
        }
    }

    /// The rows with the live columns as their indices, and what each of these costs, for hints.
    pub(crate) fn compact(&self, alloc: Global, choice: Choice) -> Result<Compact, AllocError>
        ensures { IsTable self.now }
    {
        let live = self.live_columns();
        let costs = live_costs(alloc, choice, self.literals(), live)?;
        Compact::of(alloc, self.row_lists(), live, self.columns(), costs)
    }

    /// All columns marked, as by a bound that excludes none.
    fn all_columns_marked(&self, alloc: Global) -> Result<Vec<bool>, AllocError>
        ensures { IfOk result (λ v. (c : ℕ) → has c self.now.live ≡ true
            → marked v.items c ≡ true) }
    {
        all_marked(alloc, self.columns())
    }

    /// Marks the columns that a cover within the cutoff may have, as far as these multipliers show;
    /// `None` if they show that there is no such cover.
    fn columns_by_bound(
        &self,
        alloc: Global,
        choice: Choice,
        cutoff: Cutoff,
        multipliers: &Multipliers,
    ) -> Result<Option<Vec<bool>>, AllocError>
        ensures { IfOk result (λ o. MatchOption o (NoneWithin choice self.now cutoff.columns
            cutoff.cost) (λ v. (c : ℕ) → has c self.now.live ≡ true → marked v.items c ≡ false
            → IsOutside choice self.now cutoff.columns cutoff.cost c)) }
    {
        let rows = self.row_lists();
        if multipliers.weights.len() != rows.len() || rows.len() >= 4611686018427387904 {
            return Ok(Some(self.all_columns_marked(alloc)?));
        }
        let scaled_costs = scaled_costs(
            alloc,
            choice,
            self.literals(),
            multipliers.column,
            multipliers.cost,
        )?;
        let loads = loads_of(alloc, rows, multipliers, &scaled_costs)?;
        let rest = self.remaining_cutoff(choice, cutoff);
        let Some(limit) = limit_of(
            multipliers.column,
            rest.columns,
            multipliers.cost,
            rest.cost,
            loads.over,
        ) else {
            return Ok(Some(self.all_columns_marked(alloc)?));
        };
        if loads.total > limit {
            return Ok(None);
        }
        Ok(Some(columns_within_gap(alloc, &scaled_costs, &loads.loads, limit - loads.total)?))
    }

    /// Marks the columns that a cover within the cutoff may have, as far as the multipliers show that
    /// subgradient steps find, or the linear relaxation where the search has one; `None` if they show
    /// that there is no such cover.
    pub(crate) fn columns_within_cutoff(
        &self,
        alloc: Global,
        choice: Choice,
        cutoff: Cutoff,
        warm_start: &mut WarmStart,
    ) -> Result<Option<Vec<bool>>, AllocError>
        ensures marks { IfOk result (λ o. MatchOption o (NoneWithin choice self.now cutoff.columns
            cutoff.cost) (λ v. (c : ℕ) → has c self.now.live ≡ true → marked v.items c ≡ false
            → IsOutside choice self.now cutoff.columns cutoff.cost c)) }
        ensures table { IsTable self.now }
    {
        let compact = self.compact(alloc, choice)?;
        let goal = self.goal(choice, cutoff);
        let multipliers = warm_start.multipliers(
            alloc,
            &compact,
            self.live_columns(),
            self.taken_columns(),
            self.row_lists(),
            self.columns(),
            goal,
        )?;
        self.columns_by_bound(alloc, choice, cutoff, &multipliers)
    }

    /// The table without the columns that no cover within the cutoff has, as far as row weights
    /// show; `None` if they show that there is no such cover.
    pub(crate) fn drop_by_bound(
        self,
        alloc: Global,
        choice: Choice,
        cutoff: Cutoff,
        warm_start: &mut WarmStart,
    ) -> Result<Option<Table>, AllocError>
        ensures { IfOk result (λ o. MatchOption o (NoneWithin choice self cutoff.columns
            cutoff.cost) (IsPruned choice cutoff.columns cutoff.cost self)) }
    {
        let Some(keep) = self.columns_within_cutoff(alloc, choice, cutoff, warm_start)? else {
            return Ok(None);
        };
        if all_kept(self.live_columns(), &keep) {
            return Ok(Some(self));
        }
        Ok(self.keep_marked(&keep))
    }

    /// What `drop_by_bound` gives, if columns are so many beside the rows that column dominance is dear;
    /// else the table as it is.
    pub(crate) fn drop_by_bound_if_wide(
        self,
        alloc: Global,
        choice: Choice,
        cutoff: Cutoff,
        warm_start: &mut WarmStart,
    ) -> Result<Option<Table>, AllocError>
        ensures { IfOk result (λ o. MatchOption o (NoneWithin choice self cutoff.columns
            cutoff.cost) (IsPruned choice cutoff.columns cutoff.cost self)) }
    {
        if self.live_columns().len() / WIDE <= self.row_lists().len() {
            return Ok(Some(self));
        }
        self.drop_by_bound(alloc, choice, cutoff, warm_start)
    }
}
