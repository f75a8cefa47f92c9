//! The least cover, part by part.
//!
//! If the rows fall into parts that share no column, a list is a cover if it has a cover of each
//! part, whatever columns it has of the others. Lists compare by their length, then by their cost,
//! and then by the least column in which they differ; so the least covers of the parts together are
//! the least cover. Without this, each question on the way to the least cover would be asked of all
//! parts together. Which columns make a part is a hint; it is checked that each row lies on one
//! side.
//!
//! A large table in which all hangs together often falls into parts where only its length is asked for,
//! as then a column leaves under any other that is in all its rows; and once its length is known, as
//! most columns are in no cover of that length. Then their lengths are found anew, which is cheap unless
//! one part has most of the rows: such a table is decided as a whole.

ghost use Rattle.std.specs.Prelude.{◌≡◌, ◌||◌, IfOk, IfSome};
ghost use Rattle.std.specs.List.{list_all};
ghost use Rattle.covering.specs.Table.{IsWithin, RisesFrom};
ghost use Rattle.covering.specs.Cover.{IsLeast};
ghost use Rattle.covering.specs.Search.{IsBest, marked};
ghost use Rattle.covering.specs.Parts.{AreParts, is_on_one_side, part_of};

use crate::bound::Cutoff;
use crate::choice::{Choice, total_cost};
use crate::columns::{copy_of, union_of};
use crate::exhaustive::least_cover_plain;
use crate::marks::{all_kept, marked_columns, others, untouched_rows};
use crate::questions::Questions;
use crate::reduction::Due;
use crate::table::Table;
use heuristics::side_hint;
use std::alloc::{AllocError, Global};
use warm_start::Effort;

/// A table with so few live columns is solved by trying all choices.
const FEW: usize = 8;

/// What is undecided is solved by parts if none has more than so many quarters of the rows.
const QUARTERS: usize = 3;

/// Two tables of parts that share no column.
#[derive(Drop)]
struct Parts {
    one: Table,
    other: Table,
}

/// Whether all columns of the row have marks of the one list, or all of the other.
fn is_on_one_side(row: &[usize], marks: &[bool], others: &[bool]) -> bool
    ensures { result ≡ is_on_one_side marks.now others.now row.now }
{
    all_kept(row, marks) || all_kept(row, others)
}

/// Whether each row lies on one side.
fn are_apart(rows: &[Vec<usize>], marks: &[bool], others: &[bool]) -> bool
    ensures { result ≡ list_all (λ row. is_on_one_side marks.now others.now row.items) rows.now }
{
    for row in rows {
        if !is_on_one_side(row, marks, others) {
            return false;
        }
    }
    true
}

impl Table {
    /// The table of the marked live columns and the rows that have no others, with these taken
    /// columns.
    fn part(&self, alloc: Global, taken: Vec<usize>, marks: &[bool]) -> Result<Table, AllocError>
        requires rises { RisesFrom 0 taken.items }
        requires taken { IsWithin taken.items self.now.taken }
        ensures { IfOk result (λ t. t ≡ part_of (marked marks.now) taken.items self.now) }
    {
        let live = marked_columns(alloc, self.live_columns(), marks)?;
        let rows = untouched_rows(alloc, self.row_lists(), marks)?;
        self.with(alloc, taken, live, rows)
    }

    /// Two tables of whole parts that share no column, each with about half of the rows unless one
    /// part has more; `one` has the taken columns. `None` if a hint does not show such parts.
    fn parts(&self, alloc: Global) -> Result<Option<Parts>, AllocError>
        ensures { IfOk result (λ o. IfSome o (λ p. AreParts self.now p.one p.other)) }
    {
        let Some(marks) = side_hint(alloc, self.row_lists(), self.columns())? else {
            return Ok(None);
        };
        let others = others(alloc, &marks, self.columns())?;
        if !are_apart(self.row_lists(), &marks, &others) {
            return Ok(None);
        }
        let taken = copy_of(alloc, self.taken_columns())?;
        let one = self.part(alloc, taken, &marks)?;
        let other = self.part(alloc, Vec::new(alloc), &others)?;
        let larger = one.row_count().max(other.row_count());
        if self.row_count() <= larger {
            return Ok(None);
        }
        Ok(Some(Parts { one, other }))
    }

    /// The least cover, by a renumbered table, which is cheaper if many columns are not live. Adds
    /// the work to `effort`.
    #[cycle(parts)]
    pub(crate) fn least_renumbered(
        &self,
        alloc: Global,
        choice: Choice,
        effort: &mut Effort,
    ) -> Result<Vec<usize>, AllocError>
        ensures { IfOk result (λ v. IsLeast choice self.now v.items) }
    {
        match self.renumber(alloc)? {
            None => self.least_by_parts(alloc, choice, effort),
            Some(table) => {
                let numbers = table.least_by_parts(alloc, choice, effort)?;
                self.cover_of_numbers(alloc, &numbers)
            }
        }
    }

    /// The least cover, of each part by itself, or of the whole if there are no parts. Adds the
    /// work to `effort`.
    #[cycle(parts)]
    fn least_by_parts(
        &self,
        alloc: Global,
        choice: Choice,
        effort: &mut Effort,
    ) -> Result<Vec<usize>, AllocError>
        ensures { IfOk result (λ v. IsLeast choice self.now v.items) }
    {
        let most_rows = self.row_count();
        if let Some(least) = self.least_of_parts(alloc, choice, most_rows, effort)? {
            return Ok(least);
        }
        self.least_of_whole(alloc, choice, effort)
    }

    /// The least covers of two parts together, if each has at most so many rows; `None` if there are no
    /// such parts. Adds the work to `effort`.
    #[cycle(parts)]
    fn least_of_parts(
        &self,
        alloc: Global,
        choice: Choice,
        most_rows: usize,
        effort: &mut Effort,
    ) -> Result<Option<Vec<usize>>, AllocError>
        ensures { IfOk result (λ o. IfSome o (λ v. IsLeast choice self.now v.items)) }
    {
        let Some(Parts { one, other }) = self.parts(alloc)? else {
            return Ok(None);
        };
        if one.row_count().max(other.row_count()) > most_rows {
            return Ok(None);
        }
        let first = one.least_renumbered(alloc, choice, effort)?;
        let second = other.least_renumbered(alloc, choice, effort)?;
        Ok(Some(union_of(alloc, &first, &second)?))
    }

    /// A shortest cover, by parts of what is left where a column leaves under any other that is in all its
    /// rows; `None` if that does not fall into parts. Adds the work to `effort`.
    #[cycle(parts)]
    fn shortest_by_parts(
        &self,
        alloc: Global,
        effort: &mut Effort,
    ) -> Result<Option<Vec<usize>>, AllocError>
        ensures { IfOk result (λ o. IfSome o (λ v. IsBest Choice.First self.now v.items)) }
    {
        let mut lists = Vec::new(alloc);
        let copy = self.copy(alloc)?;
        let table = copy.reduce_weakly(alloc, Choice::First, Due::ALL, &mut lists)?;
        let rows = table.row_count();
        if rows >= self.row_count() {
            return Ok(None);
        }
        table.least_of_parts(alloc, Choice::First, rows / 4 * QUARTERS, effort)
    }

    /// The least cover, of all rows at once, unless what is undecided once the length is known falls into
    /// parts. Adds the work to `effort`.
    #[cycle(parts)]
    fn least_of_whole(
        &self,
        alloc: Global,
        choice: Choice,
        effort: &mut Effort,
    ) -> Result<Vec<usize>, AllocError>
        ensures { IfOk result (λ v. IsLeast choice self.now v.items) }
    {
        if self.live_columns().len() <= FEW {
            return least_cover_plain(self, choice);
        }
        let deciding = self.deciding_choice(choice);
        let shortest = self.shortest_by_parts(alloc, effort)?;
        let mut questions = Questions::new(alloc, *effort);
        let best = self.best_cover(alloc, deciding, shortest, &mut questions)?;
        let cutoff = Cutoff {
            columns: best.len(),
            cost: total_cost(deciding, self.literals(), &best),
        };
        let partial = self.undecided(alloc, deciding, cutoff, best, &mut questions)?;
        *effort = questions.warm_start.effort();
        let most_rows = self.row_count() / 4 * QUARTERS;
        if let Some(least) = partial
            .table
            .least_of_parts(alloc, deciding, most_rows, effort)?
        {
            return Ok(least);
        }
        let first = partial.first(alloc, deciding, cutoff, &mut questions)?;
        *effort = questions.warm_start.effort();
        Ok(first)
    }
}
