//! The first of the best covers in list order: columns are decided one by one.
//!
//! If the witness, a cover within the cutoff, has the next column, so has the least cover; else it is
//! asked whether some cover within the cutoff has it, which gives a new witness or drops the column. A
//! batch of columns is asked for at once, by a further row of them: if then no cover is within the
//! cutoff, all are dropped. From time to time what is left is reduced: without the columns that were
//! dropped, more of them are dominated.

ghost use Rattle.std.specs.Prelude.{◌≡◌, ◌≤◌, ℕ, IfOk, filter, length, map, true, false};
ghost use Rattle.std.specs.List.{list_any};
ghost use Rattle.covering.specs.Table.{has};
ghost use Rattle.covering.specs.Cover.{IsLeast};
ghost use Rattle.covering.specs.Search.{Continues, IsPartial, IsPartialWithin, is_blank, keep_columns, marked};

use crate::bound::Cutoff;
use crate::choice::Choice;
use crate::columns::{contains, copy_of};
use crate::marks::{all_but, others};
use crate::questions::Questions;
use crate::search::{UNLIMITED, steps_in_reduced};
use crate::table::Table;
use heuristics::batch;
use std::alloc::{AllocError, Global};
use warm_start::is_worth_a_bound;

/// A partial solution: the table of what is undecided, and a cover of it within the cutoff.
pub(crate) struct Partial {
    pub(crate) table: Table,
    witness: Vec<usize>,
}

// Written out, so that where a partial solution ends a proof has one call, and no case for each of
// its lists.
impl Drop for Partial {
    fn drop(self) {
        let Partial {
            table: _,
            witness: _,
        } = self;
    }
}

impl Partial {
    /// The table with the marked columns alone, of which each row has one.
    fn keep_columns_marked(self, keep: &[bool]) -> Partial
        requires { list_any is_blank (map (filter (marked keep.now)) self.table.rows) ≡ false }
        ensures table { result.table ≡ keep_columns (marked keep.now) self.table }
        ensures witness { result.witness ≡ self.witness }
    {
        let Partial { table, witness } = self;
        match table.keep_marked(keep) {
            Some(table) => Partial { table, witness },
            None => unreachable!(),
        }
    }

    /// Drops a batch of live columns, from `column` on, if no cover within the cutoff has one of
    /// them; else such a cover is the witness. Nothing changes if they are fewer than two or the
    /// question is given up.
    fn ask_for_many(
        mut self,
        alloc: Global,
        choice: Choice,
        cutoff: Cutoff,
        column: usize,
        questions: &mut Questions,
    ) -> Result<Partial, AllocError>
        requires { IsPartialWithin choice cutoff self }
        ensures partial { IfOk result (IsPartialWithin choice cutoff) }
        ensures next { IfOk result (λ s. Continues choice self.table s.table) }
    {
        let marks = batch(
            alloc,
            self.table.live_columns(),
            &self.witness,
            column,
            questions.batch_size,
            self.table.columns(),
        )?;
        let Some(answer) = questions.ask_for_marked(alloc, choice, cutoff, &self.table, &marks)?
        else {
            return Ok(self);
        };
        match answer {
            Some(witness) => {
                self.witness = witness;
                Ok(self)
            }
            None => {
                let keep = others(alloc, &marks, self.table.columns())?;
                Ok(self.keep_columns_marked(&keep))
            }
        }
    }

    /// Takes `column`, the first live one, if a cover within the cutoff has it, and else drops it.
    fn ask_for_one(
        mut self,
        alloc: Global,
        choice: Choice,
        cutoff: Cutoff,
        column: usize,
        questions: &mut Questions,
    ) -> Result<Partial, AllocError>
        requires partial { IsPartialWithin choice cutoff self }
        requires live { has column self.table.live ≡ true }
        requires first { (c : ℕ) → has c self.table.live ≡ true → column ≤ c }
        ensures partial { IfOk result (IsPartialWithin choice cutoff) }
        ensures next { IfOk result (λ s. Continues choice self.table s.table) }
        ensures gone { IfOk result (λ s. has column s.table.live ≡ false) }
    {
        let with = self.table.take(alloc, column)?;
        if contains(&self.witness, column) {
            self.table = with;
            return Ok(self);
        }
        match questions.ask(alloc, choice, cutoff, &with, UNLIMITED)? {
            Some(witness) => Ok(Partial {
                table: with,
                witness,
            }),
            None => {
                let keep = all_but(alloc, column, self.table.columns())?;
                Ok(self.keep_columns_marked(&keep))
            }
        }
    }

    /// Drops the columns that row weights show to be in no cover within the cutoff.
    fn drop_columns_over_cutoff_once(
        self,
        alloc: Global,
        choice: Choice,
        cutoff: Cutoff,
        questions: &mut Questions,
    ) -> Result<Partial, AllocError>
        requires { IsPartialWithin choice cutoff self }
        ensures partial { IfOk result (IsPartialWithin choice cutoff) }
        ensures next { IfOk result (λ s. Continues choice self.table s.table) }
        ensures rows { IfOk result (λ s. length s.table.rows ≡ length self.table.rows) }
    {
        match self
            .table
            .columns_within_cutoff(alloc, choice, cutoff, &mut questions.warm_start)?
        {
            Some(keep) => Ok(self.keep_columns_marked(&keep)),
            None => unreachable!(),
        }
    }

    /// Drops columns that are in no cover within the cutoff, until row weights show few more.
    fn drop_columns_over_cutoff(
        self,
        alloc: Global,
        choice: Choice,
        cutoff: Cutoff,
        questions: &mut Questions,
    ) -> Result<Partial, AllocError>
        requires { IsPartialWithin choice cutoff self }
        ensures partial { IfOk result (IsPartialWithin choice cutoff) }
        ensures next { IfOk result (λ s. Continues choice self.table s.table) }
        ensures rows { IfOk result (λ s. length s.table.rows ≡ length self.table.rows) }
    {
        let mut partial = self;
        loop {
            let live = partial.table.live_columns().len();
            partial = partial.drop_columns_over_cutoff_once(alloc, choice, cutoff, questions)?;
            let still_live = partial.table.live_columns().len();
            if live <= still_live || !is_worth_a_bound(live, still_live) {
                return Ok(partial);
            }
        }
    }

    /// The reduced table and a cover of it that a local search finds; unchanged where it is not
    /// worth a reduction or no cover within the cutoff is found.
    fn reduce(
        self,
        alloc: Global,
        choice: Choice,
        cutoff: Cutoff,
        questions: &mut Questions,
    ) -> Result<Partial, AllocError>
        requires { IsPartialWithin choice cutoff self }
        ensures partial { IfOk result (IsPartialWithin choice cutoff) }
        ensures next { IfOk result (λ s. Continues choice self.table s.table) }
    {
        if !questions.is_worth_a_reduction(self.table.live_columns().len()) {
            return Ok(self);
        }
        let table = self.table.cyclic_core(alloc, choice)?;
        let goal = table.goal(choice, cutoff);
        let steps = steps_in_reduced(table.row_lists().len());
        match table.find_by_local_search(alloc, choice, cutoff, goal, &self.witness, steps)? {
            Some(witness) => {
                questions.note_reduction(table.live_columns().len());
                Ok(Partial { table, witness })
            }
            None => {
                questions.note_reduction(self.table.live_columns().len());
                Ok(self)
            }
        }
    }

    /// Takes or drops the column, if it is live; none before it is. Others may be dropped too.
    fn decide_column(
        self,
        alloc: Global,
        choice: Choice,
        cutoff: Cutoff,
        column: usize,
        questions: &mut Questions,
    ) -> Result<Partial, AllocError>
        requires partial { IsPartialWithin choice cutoff self }
        requires first { (c : ℕ) → has c self.table.live ≡ true → column ≤ c }
        ensures partial { IfOk result (IsPartialWithin choice cutoff) }
        ensures next { IfOk result (λ s. Continues choice self.table s.table) }
        ensures gone { IfOk result (λ s. has column s.table.live ≡ false) }
    {
        if !contains(self.table.live_columns(), column) {
            return Ok(self);
        }
        let partial = self.ask_for_many(alloc, choice, cutoff, column, questions)?;
        if !contains(partial.table.live_columns(), column) {
            return partial.drop_columns_over_cutoff(alloc, choice, cutoff, questions);
        }
        if contains(&partial.witness, column) {
            return partial.ask_for_one(alloc, choice, cutoff, column, questions);
        }
        let partial = partial.ask_for_one(alloc, choice, cutoff, column, questions)?;
        partial.drop_columns_over_cutoff(alloc, choice, cutoff, questions)
    }
}

impl Partial {
    /// The first of the covers within the cutoff, below which there is none.
    pub(crate) fn first(
        self,
        alloc: Global,
        choice: Choice,
        cutoff: Cutoff,
        questions: &mut Questions,
    ) -> Result<Vec<usize>, AllocError>
        requires { IsPartialWithin choice cutoff self }
        ensures { IfOk result (λ v. IsLeast choice self.table v.items) }
    {
        questions.warm_start.hurry();
        let columns = self.table.columns();
        let mut partial = self;
        for column in 0..columns {
            if partial.table.is_solved() {
                return copy_of(alloc, partial.table.taken_columns());
            }
            partial = partial.decide_column(alloc, choice, cutoff, column, questions)?;
            partial = partial.reduce(alloc, choice, cutoff, questions)?;
        }
        copy_of(alloc, partial.table.taken_columns())
    }
}

impl Table {
    /// What is undecided of a table with a cover within the cutoff and none below it: without columns that
    /// row weights show to be in no such cover.
    pub(crate) fn undecided(
        &self,
        alloc: Global,
        choice: Choice,
        cutoff: Cutoff,
        witness: Vec<usize>,
        questions: &mut Questions,
    ) -> Result<Partial, AllocError>
        requires { IsPartial choice cutoff.columns cutoff.cost self.now witness.items }
        ensures partial { IfOk result (IsPartialWithin choice cutoff) }
        ensures next { IfOk result (λ p. Continues choice self.now p.table) }
        ensures rows { IfOk result (λ p. length p.table.rows ≡ length self.now.rows) }
    {
        questions.warm_start.set_hint(alloc, &witness)?;
        let table = self.copy(alloc)?;
        let partial = Partial { table, witness };
        partial.drop_columns_over_cutoff(alloc, choice, cutoff, questions)
    }
}
