//! Questions on the way to the least cover: whether there is a cover within a cutoff.
//!
//! Each starts from the row weights of the one before, and is counted. A question about a batch of
//! columns may look at a few tables only; if they do not suffice the first column is asked for alone.
//! Where the length was hard to find, columns are asked for alone from the first one on, until answers
//! come soon.

ghost use Rattle.std.specs.Prelude.{◌≡◌, ◌≢◌, ◌<◌, ◌++◌, ◌∷◌, [], IfOk, IfSome, MatchOption, filter, length};
ghost use Rattle.covering.specs.Table.{IsWithin, RisesFrom};
ghost use Rattle.covering.specs.Search.{AnswersWithin, marked};
ghost use Rattle.covering.specs.Steps.{with_rows};

use crate::bound::Cutoff;
use crate::choice::Choice;
use crate::marks::marked_columns;
use crate::search::Stop;
use crate::table::Table;
use std::alloc::{AllocError, Global};
use warm_start::{Effort, WarmStart, is_worth_a_bound};

/// A question about a batch of columns is given up after this many tables, or after more if the last no
/// took many.
const BATCH_TABLES: u64 = 600;

/// It is given up after no fewer than this many times the tables that the last no to one took: what a
/// search has shown is lost where it is given up, and a larger batch takes few tables for each column.
const TIMES_THE_LAST_NO: u64 = 10;

/// The undecided columns are reduced again once so many tables were looked at, if some are gone.
const TABLES_TO_REDUCE: u64 = 8;

/// How many columns the first batch has, where the length was not hard to find.
const FIRST_BATCH: usize = 4;

/// A length is hard to find if it takes so many tables.
const HARD_LENGTH: u64 = 400;

/// Where the length was hard to find, a no is hard to show if it takes so many tables; one for more
/// columns would take far more.
const HARD_NO: u64 = 100;

/// How questions are asked: from which row weights, and for how many columns at once.
pub(crate) struct Questions {
    /// Row weights and the last cover, from which the next question starts.
    pub(crate) warm_start: WarmStart,
    /// How many columns the next batch has at most.
    pub(crate) batch_size: usize,
    /// How many tables had been looked at when the undecided columns were last reduced.
    tables: u64,
    /// How many live columns were left then.
    live: usize,
    /// Whether the length was hard to find.
    hard: bool,
    /// How many tables the last no to a question about a batch took.
    tables_of_last_no: u64,
}

// Written out, so that where questions end a proof has one call, and no case for each list.
impl Drop for Questions {
    fn drop(self) {
        let Questions {
            warm_start: _,
            batch_size: _,
            tables: _,
            live: _,
            hard: _,
            tables_of_last_no: _,
        } = self;
    }
}

impl Questions {
    /// None asked yet; `effort` is the work before.
    pub(crate) fn new(alloc: Global, effort: Effort) -> Questions {
        Questions {
            warm_start: WarmStart::new(alloc, effort),
            batch_size: FIRST_BATCH,
            tables: 0,
            live: usize::MAX,
            hard: false,
            tables_of_last_no: 0,
        }
    }

    /// Whether to reduce the undecided columns, so many of which are live. There is a first reduction
    /// in any case; after the last one some of the columns that it left have to be gone, and either an
    /// eighth of them is or some tables were looked at.
    pub(crate) fn is_worth_a_reduction(&self, live: usize) -> bool {
        let tables = self.warm_start.effort().tables.saturating_sub(self.tables);
        live < self.live && (tables >= TABLES_TO_REDUCE || is_worth_a_bound(self.live, live))
    }

    /// Notes a reduction, which left so many live columns.
    pub(crate) fn note_reduction(&mut self, live: usize) {
        self.tables = self.warm_start.effort().tables;
        self.live = live;
    }

    /// Notes that the length is known; `before` is the work before it was looked for. If it was
    /// hard to find the next batch has one column.
    pub(crate) fn note_length(&mut self, before: Effort) {
        if self.tables_since(before) >= HARD_LENGTH {
            self.hard = true;
            self.batch_size = 1;
        }
    }

    /// How many tables were looked at after the work `before`.
    fn tables_since(&self, before: Effort) -> u64 {
        let tables = self.warm_start.effort().tables;
        tables.saturating_sub(before.tables)
    }

    /// After a cover the next batch has a quarter as many columns, and the next cover is looked for
    /// near this one; after none, which took so many tables, it has twice as many unless that was
    /// hard.
    fn adapt(
        &mut self,
        alloc: Global,
        witness: &Option<Vec<usize>>,
        tables: u64,
    ) -> Result<(), AllocError> {
        match witness {
            Some(cover) => {
                self.batch_size = (self.batch_size / 4).max(1);
                self.warm_start.set_hint(alloc, cover)
            }
            None => {
                if !self.hard || tables < HARD_NO {
                    self.batch_size = self.batch_size.saturating_mul(2);
                }
                Ok(())
            }
        }
    }

    /// A cover of the table within the cutoff, or none if there is none; branches into no more than
    /// `most_tables` tables, and is `Spent` if they do not suffice. Learns for the next question.
    pub(crate) fn ask(
        &mut self,
        alloc: Global,
        choice: Choice,
        cutoff: Cutoff,
        table: &Table,
        most_tables: u64,
    ) -> Result<Option<Vec<usize>>, Stop>
        ensures { IfOk result (AnswersWithin choice table.now cutoff) }
    {
        let before = self.warm_start.effort();
        let answer = {
            let mut warm_start = self.warm_start.copy(alloc)?;
            warm_start.take_gains(&mut self.warm_start);
            let answer = table.find_or_refute_in_stages(
                alloc,
                choice,
                cutoff,
                &mut warm_start,
                most_tables,
            );
            self.warm_start.learn(&warm_start);
            self.warm_start.take_gains(&mut warm_start);
            self.warm_start.take_first_cuts(alloc, &mut warm_start);
            answer
        };
        let witness = answer?;
        let tables = self.tables_since(before);
        self.adapt(alloc, &witness, tables)?;
        Ok(witness)
    }

    /// How many tables a question about a batch may take.
    fn most_of_a_batch(&self) -> u64 {
        let times = self.tables_of_last_no.saturating_mul(TIMES_THE_LAST_NO);
        times.max(BATCH_TABLES)
    }

    /// What `ask` answers, if it takes no more tables than a question about a batch may; else `None`,
    /// and the next batch has one column. A cover that has one of many columns can be far harder to
    /// rule out than a cover that has the first of them.
    fn ask_briefly(
        &mut self,
        alloc: Global,
        choice: Choice,
        cutoff: Cutoff,
        table: &Table,
    ) -> Result<Option<Option<Vec<usize>>>, AllocError>
        ensures { IfOk result (λ r. IfSome r (AnswersWithin choice table.now cutoff)) }
    {
        let before = self.warm_start.effort();
        let most_tables = self.most_of_a_batch();
        match self.ask(alloc, choice, cutoff, table, most_tables) {
            Ok(None) => {
                self.tables_of_last_no = self.tables_since(before);
                Ok(Some(None))
            }
            Ok(witness) => Ok(Some(witness)),
            Err(Stop::Spent) => {
                self.batch_size = 1;
                Ok(None)
            }
            Err(Stop::Memory) => Err(AllocError),
        }
    }

    /// What `ask_briefly` answers of the table with a further row of the marked columns; `None` too
    /// if they are fewer than two.
    pub(crate) fn ask_for_marked(
        &mut self,
        alloc: Global,
        choice: Choice,
        cutoff: Cutoff,
        table: &Table,
        marks: &[bool],
    ) -> Result<Option<Option<Vec<usize>>>, AllocError>
        ensures { IfOk result (λ r. IfSome r (AnswersWithin choice (with_rows table.now
            (table.now.rows ++ filter (marked marks.now) table.now.live ∷ [])) cutoff)) }
    {
        match table.with_marked_row(alloc, marks)? {
            None => Ok(None),
            Some(extended) => self.ask_briefly(alloc, choice, cutoff, &extended),
        }
    }
}

impl Table {
    /// The table with a further row: a rising list of live columns, at least one.
    fn with_row(&self, alloc: Global, row: Vec<usize>) -> Result<Table, AllocError>
        requires some { row.items ≢ [] }
        requires rises { RisesFrom 0 row.items }
        requires within { IsWithin row.items self.now.live }
        ensures { IfOk result (λ t. t ≡ with_rows self.now (self.now.rows ++ row.items ∷ [])) }
    {
        let mut table = self.copy(alloc)?;
        table.rows.push(row)?;
        Ok(table)
    }

    /// The table with a further row of the marked columns; `None` if they are fewer than two.
    fn with_marked_row(&self, alloc: Global, marks: &[bool]) -> Result<Option<Table>, AllocError>
        ensures { IfOk result (λ o. MatchOption o (length (filter (marked marks.now)
            self.now.live) < 2) (λ t. t ≡ with_rows self.now (self.now.rows
            ++ filter (marked marks.now) self.now.live ∷ []))) }
    {
        let row = marked_columns(alloc, self.live_columns(), marks)?;
        if row.len() < 2 {
            return Ok(None);
        }
        Ok(Some(self.with_row(alloc, row)?))
    }
}
