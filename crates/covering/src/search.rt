//! Whether there is a cover within a cutoff.
//!
//! A cutoff is a number of columns and a cost. A search answers a cover within it, or that there is
//! none: it prunes the table, branches on a column, first taken and then dropped, and prunes on. A
//! table is pruned by the steps of a reduction, by dropping columns that another one dominates and
//! that cost no less, and by weights of its rows (`drop_by_bound`). Any cover within the cutoff is a
//! right answer, so any order of branches serves. A search that looked at many tables is begun anew,
//! with its tables bounded by their linear relaxation, which cuts make stronger
//! (`find_or_refute_in_stages`).

ghost use Rattle.std.specs.Prelude.{◌≡◌, ◌<◌, [], IfOk, IfSome, MatchOption, length, true};
ghost use Rattle.covering.specs.Table.{IsTable, has};
ghost use Rattle.covering.specs.Search.{NoneWithin, AnswersWithin, IsAnswer, IsOutcome, IsPruned};
ghost use Rattle.covering.specs.Parts.{IsRenumbered};
ghost use Rattle.covering.specs.Steps.{take_column};

use crate::bound::Cutoff;
use crate::choice::Choice;
use crate::columns::{contains, copy_of};
use crate::reduction::Due;
use crate::table::Table;
use heuristics::{Goal, likeliest, row_counts, steps_of_long_search};
use std::alloc::{AllocError, Global};
use warm_start::{WarmStart, is_worth_a_bound};

/// More tables than any search looks at.
pub(crate) const UNLIMITED: u64 = u64::MAX;

/// A brief look with the linear relaxation is at no more than so many tables.
const BRIEF_TABLES: u64 = 400;

/// A local search before a brief look takes the steps of one before a long look, divided by this.
const BRIEF_PART: usize = 16;

/// A local search near the last cover takes three steps a row, and no more than so many: in a large table
/// what a question changes is near what it asks for.
const MOST_STEPS_NEAR: usize = 2_000;

/// A local search in the reduced table takes twelve steps a row, and no more than so many.
const MOST_STEPS_REDUCED: usize = 5_000;

/// A search in the support of a fractional cover looks at no more than so many tables.
const SUPPORT_TABLES: u64 = 500;

/// How many steps a local search near the last cover takes in a table of so many rows.
fn steps_near(rows: usize) -> usize {
    rows.saturating_mul(3).min(MOST_STEPS_NEAR)
}

/// How many steps a local search takes in a reduced table of so many rows.
pub(crate) fn steps_in_reduced(rows: usize) -> usize {
    rows.saturating_mul(12).min(MOST_STEPS_REDUCED)
}

/// Why a question has no answer.
#[derive(Drop)]
pub(crate) enum Stop {
    /// A growth of memory was refused.
    Memory,
    /// The search would look at more tables than it may.
    Spent,
}

/// For a search of [`UNLIMITED`] tables, which only memory stops.
impl From<Stop> for AllocError {
    fn from(_: Stop) -> AllocError {
        AllocError
    }
}

impl From<AllocError> for Stop {
    ghost use Rattle.covering.specs.declared.search.Stop.TheVariants.{Memory};

    ghost from_gives = { λ _ e. e ≡ Memory };

    fn from(_: AllocError) -> Stop {
        Stop::Memory
    }
}

/// What a branch on a column shows.
#[derive(Drop)]
enum Outcome {
    /// A cover within the cutoff, or none if there is none.
    Answer(Option<Vec<usize>>),
    /// A table with fewer live columns, in which to search instead.
    Rest(Table),
}

/// Whether a search ended because it looked at as many tables as it may.
fn is_spent(found: &Result<Option<Vec<usize>>, Stop>) -> bool {
    match found {
        Err(Stop::Spent) => true,
        _ => false,
    }
}

impl Table {
    /// The table as far as a search within the cutoff has to look at it, after the passes that are
    /// due and the bound by row weights, with which a wide table begins; `None` if these show that
    /// there is no such cover. The lists are memory for the rows of each column.
    fn prune(
        self,
        alloc: Global,
        choice: Choice,
        cutoff: Cutoff,
        due: Due,
        warm_start: &mut WarmStart,
        lists: &mut Vec<Vec<usize>>,
    ) -> Result<Option<Table>, AllocError>
        ensures { IfOk result (λ o. MatchOption o (NoneWithin choice self cutoff.columns
            cutoff.cost) (IsPruned choice cutoff.columns cutoff.cost self)) }
    {
        let Some(bounded) = self.drop_by_bound_if_wide(alloc, choice, cutoff, warm_start)? else {
            return Ok(None);
        };
        let mut table = bounded.reduce_weakly(alloc, choice, due, lists)?;
        loop {
            let live = table.live_columns().len();
            let Some(next) = table.drop_by_bound(alloc, choice, cutoff, warm_start)? else {
                return Ok(None);
            };
            if live <= next.live_columns().len() {
                return Ok(Some(next));
            }
            table = next.reduce_weakly(alloc, choice, Due::ROWS, lists)?;
            if !is_worth_a_bound(live, table.live_columns().len()) {
                return Ok(Some(table));
            }
        }
    }

    /// Whether the live columns are a quarter of all, or fewer.
    fn has_few_live_columns(&self) -> bool {
        self.live_columns().len() <= self.columns() / 4
    }

    /// A live column to branch on: one that the linear relaxation tells, or the likeliest one of a
    /// short row whose columns are in many rows; `None` if no column is live.
    fn branching_column(
        &self,
        alloc: Global,
        goal: Goal,
        warm_start: &mut WarmStart,
    ) -> Result<Option<usize>, AllocError>
        ensures live { IfOk result (λ o. MatchOption o (self.now.live ≡ [])
            (λ c. has c self.now.live ≡ true)) }
        ensures table { IsTable self.now }
    {
        let live = self.live_columns();
        let hint = warm_start.branching_column(alloc, live, self.taken_columns(), goal)?;
        if let Some(column) = hint {
            if contains(live, column) {
                return Ok(Some(column));
            }
        }
        let numbers = row_counts(alloc, self.row_lists(), self.columns())?;
        let hint = likeliest(self.row_lists(), warm_start.likely(), &numbers);
        if contains(self.live_columns(), hint) {
            return Ok(Some(hint));
        }
        Ok(self.live.first().copied())
    }

    /// A cover within the cutoff, or none if there is none: prunes, first by the passes that are
    /// due, and branches. It looks at no more than `tables_left` tables, subtracts those that it
    /// looked at, and is `Spent` if they do not suffice. What it learns of row weights goes back to
    /// the warm start.
    #[cycle(search)]
    fn search(
        self,
        alloc: Global,
        choice: Choice,
        cutoff: Cutoff,
        due: Due,
        warm_start: &mut WarmStart,
        tables_left: &mut u64,
        lists: &mut Vec<Vec<usize>>,
    ) -> Result<Option<Vec<usize>>, Stop>
        ensures { IfOk result (AnswersWithin choice self cutoff) }
    {
        let Some(rest) = tables_left.checked_sub(1) else {
            return Err(Stop::Spent);
        };
        *tables_left = rest;
        let mut own = WarmStart::new(alloc, warm_start.effort());
        own.take_copy(alloc, warm_start)?;
        own.count_table();
        own.take_relaxation(warm_start);
        let found = match self.prune(alloc, choice, cutoff, due, &mut own, lists)? {
            None => Ok(None),
            Some(table) => table.branch_in_fewer_columns(
                alloc,
                choice,
                cutoff,
                &mut own,
                tables_left,
                lists,
            ),
        };
        warm_start.learn(&own);
        warm_start.take_relaxation(&mut own);
        found
    }

    /// What is answered by `branch`, in a renumbered table if few columns are live, so that what is done
    /// for each column is done for these alone. A linear relaxation knows columns by their numbers:
    /// where there is one they are kept.
    #[cycle(search)]
    fn branch_in_fewer_columns(
        &self,
        alloc: Global,
        choice: Choice,
        cutoff: Cutoff,
        warm_start: &mut WarmStart,
        tables_left: &mut u64,
        lists: &mut Vec<Vec<usize>>,
    ) -> Result<Option<Vec<usize>>, Stop>
        ensures { IfOk result (AnswersWithin choice self.now cutoff) }
    {
        if warm_start.is_relaxing() || !self.has_few_live_columns() {
            return self.branch(alloc, choice, cutoff, warm_start, tables_left, lists);
        }
        let Some(fewer) = self.renumber(alloc)? else {
            return self.branch(alloc, choice, cutoff, warm_start, tables_left, lists);
        };
        self.branch_renumbered(alloc, choice, cutoff, &fewer, warm_start, tables_left)
    }

    /// What is answered by `branch` of the renumbered table. A function of its own, so that a search whose
    /// columns keep their numbers needs no stack for it.
    #[cycle(search)]
    fn branch_renumbered(
        &self,
        alloc: Global,
        choice: Choice,
        cutoff: Cutoff,
        fewer: &Table,
        warm_start: &mut WarmStart,
        tables_left: &mut u64,
    ) -> Result<Option<Vec<usize>>, Stop>
        requires { IsRenumbered self.now fewer.now }
        ensures { IfOk result (AnswersWithin choice self.now cutoff) }
    {
        if self.is_over_cutoff(choice, cutoff) {
            return Ok(None);
        }
        let (rows, live) = (self.row_lists(), self.live_columns());
        let mut own = warm_start.renumber(alloc, rows, live, self.columns(), fewer.row_lists())?;
        let rest = self.remaining_cutoff(choice, cutoff);
        let mut lists = Vec::new(alloc);
        let found = fewer.branch(alloc, choice, rest, &mut own, tables_left, &mut lists);
        warm_start.learn(&own);
        match found? {
            None => Ok(None),
            Some(numbers) => Ok(Some(self.cover_of_numbers(alloc, &numbers)?)),
        }
    }

    /// The table without the column, which no cover within the cutoff has, as far as a search has to look
    /// at it; `None` if that shows that there is no such cover. Subtracts it from `tables_left`, and is
    /// `Spent` if that is 0.
    fn prune_without(
        &self,
        alloc: Global,
        choice: Choice,
        cutoff: Cutoff,
        column: usize,
        warm_start: &mut WarmStart,
        tables_left: &mut u64,
        lists: &mut Vec<Vec<usize>>,
    ) -> Result<Option<Table>, Stop>
        requires table { IsTable self.now }
        requires live { has column self.now.live ≡ true }
        requires none { NoneWithin choice (take_column column self.now) cutoff.columns cutoff.cost }
        ensures pruned { IfOk result (λ o. MatchOption o (NoneWithin choice self.now cutoff.columns
            cutoff.cost) (IsPruned choice cutoff.columns cutoff.cost self.now)) }
        ensures fewer { IfOk result (λ o. IfSome o (λ t. length t.live < length self.now.live)) }
    {
        let Some(rest) = tables_left.checked_sub(1) else {
            return Err(Stop::Spent);
        };
        *tables_left = rest;
        warm_start.count_table();
        match self.drop_live(alloc, column)? {
            None => Ok(None),
            Some(table) => Ok(table.prune(alloc, choice, cutoff, Due::ROWS, warm_start, lists)?),
        }
    }

    /// What a branch on a live column shows: a cover within the cutoff that has the column, or that no
    /// cover is within the cutoff, or else the table without it, as far as a search has to look at that.
    /// Subtracts the tables that it branches into from `tables_left`, and is `Spent` if they do not
    /// suffice.
    #[cycle(search)]
    fn take_or_drop(
        &self,
        alloc: Global,
        choice: Choice,
        cutoff: Cutoff,
        column: usize,
        warm_start: &mut WarmStart,
        tables_left: &mut u64,
        lists: &mut Vec<Vec<usize>>,
    ) -> Result<Outcome, Stop>
        requires table { IsTable self.now }
        requires live { has column self.now.live ≡ true }
        ensures { IfOk result (IsOutcome choice self.now cutoff) }
    {
        let basis = warm_start.branch(alloc, column)?;
        let with = self.take(alloc, column)?;
        let found = with.search(
            alloc,
            choice,
            cutoff,
            Due::COLUMNS,
            warm_start,
            tables_left,
            lists,
        )?;
        if let Some(cover) = found {
            return Ok(Outcome::Answer(Some(cover)));
        }
        warm_start.go_back(alloc, basis)?;
        match self.prune_without(
            alloc,
            choice,
            cutoff,
            column,
            warm_start,
            tables_left,
            lists,
        )? {
            None => Ok(Outcome::Answer(None)),
            Some(rest) => Ok(Outcome::Rest(rest)),
        }
    }

    /// A cover within the cutoff, or none if there is none: branches on a live column, which is
    /// first taken, and dropped if no such cover has it, and so on. Subtracts the tables that it branches
    /// into from `tables_left`, and is `Spent` if they do not suffice.
    #[cycle(search)]
    fn branch(
        &self,
        alloc: Global,
        choice: Choice,
        cutoff: Cutoff,
        warm_start: &mut WarmStart,
        tables_left: &mut u64,
        lists: &mut Vec<Vec<usize>>,
    ) -> Result<Option<Vec<usize>>, Stop>
        ensures { IfOk result (AnswersWithin choice self.now cutoff) }
    {
        let mut table = self.copy(alloc)?;
        loop {
            if table.is_over_cutoff(choice, cutoff) {
                return Ok(None);
            }
            if table.is_solved() {
                return Ok(Some(copy_of(alloc, table.taken_columns())?));
            }
            let goal = table.goal(choice, cutoff);
            let Some(column) = table.branching_column(alloc, goal, warm_start)? else {
                return Ok(None);
            };
            let rest = match table.take_or_drop(
                alloc,
                choice,
                cutoff,
                column,
                warm_start,
                tables_left,
                lists,
            )? {
                Outcome::Answer(found) => return Ok(found),
                Outcome::Rest(rest) => rest,
            };
            if !warm_start.is_relaxing() && rest.has_few_live_columns() {
                return rest.branch_in_fewer_columns(
                    alloc,
                    choice,
                    cutoff,
                    warm_start,
                    tables_left,
                    lists,
                );
            }
            table = rest;
        }
    }

    /// How many tables a search looks at before it is begun anew with the linear relaxation: all it
    /// needs if the table is too large for the relaxation.
    fn quick_tables(&self, choice: Choice, warm_start: &WarmStart) -> u64 {
        let rows = self.row_lists().len();
        let columns = self.live_columns().len();
        match choice {
            Choice::First => warm_start.quick_tables(rows, columns),
            Choice::Literals => warm_start.quick_tables_by_cost(rows, columns),
        }
    }

    /// From now on the tables of a search from this one are bounded by their linear relaxation.
    fn relax(
        &self,
        alloc: Global,
        choice: Choice,
        cutoff: Cutoff,
        warm_start: &mut WarmStart,
    ) -> Result<(), AllocError> {
        let compact = self.compact(alloc, choice)?;
        let goal = self.goal(choice, cutoff);
        let (live, rows) = (self.live_columns(), self.row_lists());
        warm_start.relax(alloc, &compact, live, rows, self.columns(), goal)
    }

    /// A cover within the cutoff, or none if there is none: a search with the linear relaxation, which
    /// is `Spent` if `most_tables` tables do not suffice. The relaxation is kept for another search.
    fn search_with_relaxation(
        self,
        alloc: Global,
        choice: Choice,
        cutoff: Cutoff,
        warm_start: &mut WarmStart,
        most_tables: u64,
        lists: &mut Vec<Vec<usize>>,
    ) -> Result<Option<Vec<usize>>, Stop>
        ensures { IfOk result (AnswersWithin choice self cutoff) }
    {
        self.relax(alloc, choice, cutoff, warm_start)?;
        let mut tables_left = most_tables;
        match self.prune(alloc, choice, cutoff, Due::ALL, warm_start, lists)? {
            None => Ok(None),
            Some(table) => {
                table.branch(alloc, choice, cutoff, warm_start, &mut tables_left, lists)
            }
        }
    }

    /// A cover within the cutoff, or none if there is none: a local search of `steps` steps a row
    /// looks for one, and then a search with the linear relaxation, of no more than `most_tables`
    /// tables.
    fn find_or_refute_by_relaxation(
        &self,
        alloc: Global,
        choice: Choice,
        cutoff: Cutoff,
        warm_start: &mut WarmStart,
        steps: usize,
        most_tables: u64,
        lists: &mut Vec<Vec<usize>>,
    ) -> Result<Option<Vec<usize>>, Stop>
        ensures { IfOk result (AnswersWithin choice self.now cutoff) }
    {
        let goal = self.goal(choice, cutoff);
        let hint = warm_start.hint();
        let steps = steps.saturating_mul(self.row_lists().len());
        let found = self.find_by_local_search(alloc, choice, cutoff, goal, hint, steps)?;
        if let Some(cover) = found {
            return Ok(Some(cover));
        }
        let copy = self.copy(alloc)?;
        copy.search_with_relaxation(alloc, choice, cutoff, warm_start, most_tables, lists)
    }

    /// A cover within the cutoff, or none if there is none: a brief look, which mostly is enough,
    /// and then a long one, of no more than `most_tables` tables.
    fn find_or_refute_in_two_looks(
        &self,
        alloc: Global,
        choice: Choice,
        cutoff: Cutoff,
        warm_start: &mut WarmStart,
        most_tables: u64,
        lists: &mut Vec<Vec<usize>>,
    ) -> Result<Option<Vec<usize>>, Stop>
        ensures { IfOk result (AnswersWithin choice self.now cutoff) }
    {
        let steps = steps_of_long_search(self.row_lists(), self.live_columns().len());
        let found = self.find_or_refute_by_relaxation(
            alloc,
            choice,
            cutoff,
            warm_start,
            steps / BRIEF_PART,
            most_tables.min(BRIEF_TABLES),
            lists,
        );
        if most_tables <= BRIEF_TABLES || !is_spent(&found) {
            return found;
        }
        self.find_or_refute_by_relaxation(
            alloc,
            choice,
            cutoff,
            warm_start,
            steps,
            most_tables,
            lists,
        )
    }

    /// A cover within the cutoff, or none if there is none: what is answered by
    /// `find_or_refute_in_two_looks` of the renumbered table. What branches gained is kept.
    fn find_or_refute_in_fewer_columns(
        &self,
        alloc: Global,
        choice: Choice,
        cutoff: Cutoff,
        fewer: &Table,
        warm_start: &mut WarmStart,
        most_tables: u64,
    ) -> Result<Option<Vec<usize>>, Stop>
        requires { IsRenumbered self.now fewer.now }
        ensures { IfOk result (AnswersWithin choice self.now cutoff) }
    {
        if self.is_over_cutoff(choice, cutoff) {
            return Ok(None);
        }
        let (rows, live) = (self.row_lists(), self.live_columns());
        let mut own = warm_start.renumber(alloc, rows, live, self.columns(), fewer.row_lists())?;
        own.take_gains_at(alloc, warm_start, live)?;
        let rest = self.remaining_cutoff(choice, cutoff);
        let mut lists = Vec::new(alloc);
        let found = fewer.find_or_refute_in_two_looks(
            alloc,
            choice,
            rest,
            &mut own,
            most_tables,
            &mut lists,
        );
        own.stop_relaxing();
        warm_start.learn(&own);
        warm_start.take_gains_back(alloc, &own, live, self.columns())?;
        match found? {
            None => Ok(None),
            Some(numbers) => Ok(Some(self.cover_of_numbers(alloc, &numbers)?)),
        }
    }

    /// A cover within the cutoff, or none if there is none, where a search did not end soon: the
    /// table is pruned, renumbered if no more than half of its columns are live, and then looked at with
    /// the linear relaxation, in no more than `most_tables` tables.
    fn find_or_refute_with_relaxation(
        self,
        alloc: Global,
        choice: Choice,
        cutoff: Cutoff,
        warm_start: &mut WarmStart,
        most_tables: u64,
    ) -> Result<Option<Vec<usize>>, Stop>
        ensures { IfOk result (AnswersWithin choice self cutoff) }
    {
        let mut lists = Vec::new(alloc);
        let Some(table) = self.prune(alloc, choice, cutoff, Due::ALL, warm_start, &mut lists)?
        else {
            return Ok(None);
        };
        if table.live_columns().len() <= table.columns() / 2 {
            if let Some(fewer) = table.renumber(alloc)? {
                return table.find_or_refute_in_fewer_columns(
                    alloc,
                    choice,
                    cutoff,
                    &fewer,
                    warm_start,
                    most_tables,
                );
            }
        }
        let found = table.find_or_refute_in_two_looks(
            alloc,
            choice,
            cutoff,
            warm_start,
            most_tables,
            &mut lists,
        );
        warm_start.stop_relaxing();
        found
    }

    /// A cover within the cutoff, or none if there is none: if a search does not end soon, it is begun
    /// anew with the linear relaxation, and branches into no more than `most_tables` tables.
    pub(crate) fn find_or_refute_in_stages(
        &self,
        alloc: Global,
        choice: Choice,
        cutoff: Cutoff,
        warm_start: &mut WarmStart,
        most_tables: u64,
    ) -> Result<Option<Vec<usize>>, Stop>
        ensures { IfOk result (AnswersWithin choice self.now cutoff) }
    {
        let quick_tables = self.quick_tables(choice, warm_start).min(most_tables);
        let found = self.find_or_refute(alloc, choice, cutoff, warm_start, quick_tables);
        if quick_tables == most_tables || !is_spent(&found) {
            return found;
        }
        let copy = self.copy(alloc)?;
        copy.find_or_refute_with_relaxation(alloc, choice, cutoff, warm_start, most_tables)
    }

    /// A cover within the cutoff, if a search finds one of the columns of which a fractional cover has some
    /// part (Berthold, RENS: the optimal rounding, 2014). `None` does not say that there is none.
    fn find_in_support(
        &self,
        alloc: Global,
        choice: Choice,
        cutoff: Cutoff,
        warm_start: &mut WarmStart,
        lists: &mut Vec<Vec<usize>>,
    ) -> Result<Option<Vec<usize>>, AllocError>
        ensures { IfOk result (λ o. IfSome o (λ v. IsAnswer choice self.now cutoff.columns
            cutoff.cost v.items)) }
    {
        let Some(keep) = warm_start.support(alloc, self.columns())? else {
            return Ok(None);
        };
        let copy = self.copy(alloc)?;
        let Some(table) = copy.keep_marked(&keep) else {
            return Ok(None);
        };
        let mut own = warm_start.copy(alloc)?;
        let mut tables_left = SUPPORT_TABLES;
        let found = table.search(
            alloc,
            choice,
            cutoff,
            Due::ALL,
            &mut own,
            &mut tables_left,
            lists,
        );
        warm_start.learn(&own);
        match found {
            Ok(cover) => Ok(cover),
            Err(Stop::Spent) => Ok(None),
            Err(Stop::Memory) => Err(AllocError),
        }
    }

    /// A cover within the cutoff, or none if there is none: local searches look for one first, then one
    /// in the support of a fractional cover, where there is one, and then a search that branches into no
    /// more than `most_tables` tables.
    pub(crate) fn find_or_refute(
        &self,
        alloc: Global,
        choice: Choice,
        cutoff: Cutoff,
        warm_start: &mut WarmStart,
        most_tables: u64,
    ) -> Result<Option<Vec<usize>>, Stop>
        ensures { IfOk result (AnswersWithin choice self.now cutoff) }
    {
        warm_start.count_question();
        warm_start.count_table();
        let goal = self.goal(choice, cutoff);
        let steps = steps_near(self.row_lists().len());
        let found = self.find_by_local_search(
            alloc,
            choice,
            cutoff,
            goal,
            warm_start.hint(),
            steps,
        )?;
        if let Some(cover) = found {
            return Ok(Some(cover));
        }
        let mut lists = Vec::new(alloc);
        let copy = self.copy(alloc)?;
        let Some(table) = copy.prune(alloc, choice, cutoff, Due::ALL, warm_start, &mut lists)?
        else {
            return Ok(None);
        };
        let goal = table.goal(choice, cutoff);
        let steps = steps_in_reduced(table.row_lists().len());
        let near = warm_start.likely_cover(alloc, table.live_columns())?;
        let found = table.find_by_local_search(alloc, choice, cutoff, goal, &near, steps)?;
        if let Some(cover) = found {
            return Ok(Some(cover));
        }
        let found = table.find_in_support(alloc, choice, cutoff, warm_start, &mut lists)?;
        if let Some(cover) = found {
            return Ok(Some(cover));
        }
        let mut tables_left = most_tables;
        let mut own = warm_start.copy(alloc)?;
        let found = table.branch_in_fewer_columns(
            alloc,
            choice,
            cutoff,
            &mut own,
            &mut tables_left,
            &mut lists,
        );
        warm_start.learn(&own);
        found
    }
}
