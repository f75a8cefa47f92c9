//! A cover of the least length: shorter ones are asked for until there is none.
//!
//! It begins with a cover that is likely short (`Table::short_cover`): after a greedy one, row weights tell
//! a bound on the length, at which a local search ends early.

ghost use Rattle.std.specs.Prelude.{IfOk};
ghost use Rattle.covering.specs.Cover.{IsCover};
ghost use Rattle.covering.specs.Search.{IsBest};

use crate::bound::Cutoff;
use crate::choice::Choice;
use crate::columns::union_of;
use crate::search::UNLIMITED;
use crate::table::Table;
use heuristics::Goal;
use std::alloc::{AllocError, Global};
use warm_start::WarmStart;

impl Table {
    /// All taken and live columns: a cover.
    fn all_columns(&self, alloc: Global) -> Result<Vec<usize>, AllocError>
        ensures { IfOk result (λ v. IsCover self.now v.items) }
    {
        union_of(alloc, self.taken_columns(), self.live_columns())
    }

    /// The best cover of a local search of `steps` steps a row, which starts with the live columns
    /// of `near` and ends early at a cover of no more than `columns` columns and cost 0. All
    /// columns if it finds none.
    fn some_cover(
        &self,
        alloc: Global,
        choice: Choice,
        near: &[usize],
        columns: usize,
        steps: usize,
    ) -> Result<Vec<usize>, AllocError>
        ensures { IfOk result (λ v. IsCover self.now v.items) }
    {
        let cutoff = Cutoff {
            columns: self.columns(),
            cost: u128::MAX,
        };
        let others = columns.saturating_sub(self.taken_columns().len());
        let goal = Goal {
            columns: i64::try_from(others).unwrap_or(0),
            cost: 0,
        };
        let steps = steps.saturating_mul(self.row_lists().len());
        match self.find_by_local_search(alloc, choice, cutoff, goal, near, steps)? {
            None => self.all_columns(alloc),
            Some(cover) => Ok(cover),
        }
    }

    /// A hint, from row weights: a lower bound on the length of covers, of which one has `columns`
    /// columns.
    fn length_bound_hint(
        &self,
        alloc: Global,
        columns: usize,
        warm_start: &mut WarmStart,
    ) -> Result<usize, AllocError> {
        let fewer = columns.saturating_sub(1);
        let cutoff = Cutoff {
            columns: fewer,
            cost: 0,
        };
        match self.columns_within_cutoff(alloc, Choice::First, cutoff, warm_start)? {
            None => Ok(columns),
            Some(_) => {
                let missing = usize::try_from(warm_start.shortfall()).unwrap_or(usize::MAX);
                Ok(fewer.saturating_sub(missing))
            }
        }
    }

    /// A cover that is likely short: a bound on the length says when a local search, from the live
    /// columns of `near` on, is at its end.
    pub(crate) fn short_cover(
        &self,
        alloc: Global,
        choice: Choice,
        near: &[usize],
        warm_start: &mut WarmStart,
    ) -> Result<Vec<usize>, AllocError>
        ensures { IfOk result (λ v. IsCover self.now v.items) }
    {
        let greedy = self.some_cover(alloc, Choice::First, &[], 0, 1)?;
        let least = self.length_bound_hint(alloc, greedy.len(), warm_start)?;
        self.some_cover(alloc, choice, near, least, 20)
    }

    /// A cover of the least length; the choice only sets the costs of the first local search.
    pub(crate) fn shortest_cover(
        &self,
        alloc: Global,
        choice: Choice,
        warm_start: &mut WarmStart,
    ) -> Result<Vec<usize>, AllocError>
        ensures { IfOk result (λ v. IsBest Choice.First self.now v.items) }
    {
        let mut cover = self.short_cover(alloc, choice, &[], warm_start)?;
        warm_start.set_hint(alloc, &cover)?;
        while let Some(columns) = cover.len().checked_sub(1) {
            let cutoff = Cutoff { columns, cost: 0 };
            match self.find_or_refute_in_stages(
                alloc,
                Choice::First,
                cutoff,
                warm_start,
                UNLIMITED,
            )? {
                Some(shorter) => cover = shorter,
                None => return Ok(cover),
            }
        }
        Ok(cover)
    }
}
