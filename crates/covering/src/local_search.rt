//! Covers within a cutoff that a local search finds. (The search itself is `local_search` of
//! `heuristics`, in its `swaps`.)
//!
//! The columns that a local search answers are a hint. With the taken ones they are an answer if
//! they are a cover and within the cutoff, which is tested; if not, there may still be another one.

ghost use Rattle.std.specs.Prelude.{◌≡◌, ◌&&◌, ◌||◌, IfOk, IfSome, filter};
ghost use Rattle.std.specs.List.{range_with_len};
ghost use Rattle.covering.specs.Table.{has, RisesFrom};
ghost use Rattle.covering.specs.Search.{IsAnswer, marked};

use crate::bound::Cutoff;
use crate::choice::{Choice, total_cost};
use crate::columns::{rising_contains, rising_meets_all};
use crate::marks::is_marked;
use crate::table::Table;
use heuristics::{Goal, local_search};
use number_lists::marks_of;
use std::alloc::{AllocError, Global};

/// The most steps of a local search.
const MOST_STEPS: usize = 1_000_000;

/// Whether the column is taken, or live and marked.
fn is_chosen(taken: &[usize], live: &[usize], marks: &[bool], column: usize) -> bool
    requires taken { RisesFrom 0 taken.now }
    requires live { RisesFrom 0 live.now }
    ensures { result ≡ (has column taken.now || (marked marks.now column && has column live.now)) }
{
    rising_contains(taken, column) || (is_marked(marks, column) && rising_contains(live, column))
}

/// The rising list of the taken columns and the marked live ones, below the end.
fn taken_and_marked(
    alloc: Global,
    taken: &[usize],
    live: &[usize],
    marks: &[bool],
    end: usize,
) -> Result<Vec<usize>, AllocError>
    requires taken { RisesFrom 0 taken.now }
    requires live { RisesFrom 0 live.now }
    ensures { IfOk result (λ v. v.items ≡ filter
        (λ n. has n taken.now || (marked marks.now n && has n live.now)) (range_with_len 0 end)) }
{
    let mut columns = Vec::new(alloc);
    for n in 0..end {
        if is_chosen(taken, live, marks, n) {
            columns.push(n)?;
        }
    }
    Ok(columns)
}

impl Table {
    /// The rising list of the taken columns and the marked live ones; `None` if it is no cover or
    /// not within the cutoff.
    fn cover_from_marks(
        &self,
        alloc: Global,
        choice: Choice,
        cutoff: Cutoff,
        marks: &[bool],
    ) -> Result<Option<Vec<usize>>, AllocError>
        ensures { IfOk result (λ o. IfSome o (λ v. IsAnswer choice self.now cutoff.columns
            cutoff.cost v.items)) }
    {
        let cover = taken_and_marked(
            alloc,
            self.taken_columns(),
            self.live_columns(),
            marks,
            self.columns(),
        )?;
        if cutoff.columns < cover.len() {
            return Ok(None);
        }
        if cutoff.cost < total_cost(choice, self.literals(), &cover) {
            return Ok(None);
        }
        if !rising_meets_all(&cover, self.row_lists()) {
            return Ok(None);
        }
        Ok(Some(cover))
    }

    /// A cover within the cutoff, if a local search of so many steps finds one; `None` does not say
    /// that there is none. It starts with the live columns of the hint, and ends early at the goal.
    pub(crate) fn find_by_local_search(
        &self,
        alloc: Global,
        choice: Choice,
        cutoff: Cutoff,
        goal: Goal,
        hint: &[usize],
        steps: usize,
    ) -> Result<Option<Vec<usize>>, AllocError>
        ensures { IfOk result (λ o. IfSome o (λ v. IsAnswer choice self.now cutoff.columns
            cutoff.cost v.items)) }
    {
        let compact = self.compact(alloc, choice)?;
        let steps = steps.min(MOST_STEPS);
        let live = self.live_columns();
        let found = local_search(alloc, &compact, live, self.columns(), hint, goal, steps)?;
        let marks = marks_of(alloc, self.live_columns(), &found, self.columns())?;
        self.cover_from_marks(alloc, choice, cutoff, &marks)
    }
}
