//! What a search carries over from table to table: its multipliers, how likely each column is, the
//! last cover (`hint`, near which the next one is looked for), and how much work was done, which is
//! counted here. Also whether a bound is worth computing again. A table of many rows is bounded by
//! primal-dual steps, whose fractional cover tells how likely columns are.
//!
//! The first weights are perturbed at random, since with even ones all columns of a symmetric table
//! would be overloaded together. A later table starts with the weights of the table that it came
//! from, row by row. A row keeps its number from table to table, so that a branch hands back what
//! it has learned.

mod relaxing;

use crate::cuts::{Cuts, whole};
use crate::effort::Effort;
use heuristics::{
    Ascent, Course, FEW_STEPS, Goal, LIKELIEST, Multipliers, NEAR_PACE, NEAR_REACH, PACE, REACH,
    STEPS,
};
use number_lists::{
    Compact, Lists, SEED, UNIT, at, is_live_part_of, mark, marked, next_random, number, put, set,
};
use primal_dual::PrimalDual;
use relaxation::{PseudoCosts, Relaxation};
use std::alloc::{AllocError, Global};

/// Whether to compute a bound again: `before` is how many columns there were at the last one, `now`
/// how many are left, and at least an eighth, rounded down, has to be gone.
pub fn is_worth_a_bound(before: usize, now: usize) -> bool {
    now <= before.saturating_sub(before / 8)
}

/// The index of the first of the rows, from an index on, whose live columns are this row; the
/// number of rows if there is none.
fn matching_row(rows: &Lists, row: &[usize], live: &[bool], from: usize) -> usize {
    for index in from..rows.len() {
        if row.len() <= rows.list(index).len() && is_live_part_of(row, rows.list(index), live) {
            return index;
        }
    }
    rows.len()
}

/// The entries at these places; 0 past the end.
fn entries_at(alloc: Global, numbers: &[i64], places: &[usize]) -> Result<Vec<i64>, AllocError> {
    let mut entries = Vec::with_capacity(alloc, places.len())?;
    for place in places {
        entries.push(at(numbers, *place))?;
    }
    Ok(entries)
}

/// The index in `live`, whose columns rise, of each of the columns that is there.
fn indices_of(alloc: Global, live: &[usize], columns: &[usize]) -> Result<Vec<usize>, AllocError> {
    let mut indices = Vec::new(alloc);
    for column in columns {
        if let Ok(index) = live.binary_search(column) {
            indices.push(index)?;
        }
    }
    Ok(indices)
}

/// The most rows that a column of the row is in; at least 1.
fn most_rows(table: &Compact, row: usize) -> i64 {
    let mut most: usize = 1;
    for column in table.rows.list(row) {
        most = most.max(table.column_rows.list(*column as usize).len());
    }
    i64::try_from(most).unwrap_or(i64::MAX)
}

/// A weight for each row: `UNIT` divided by the most rows that a column of the row is in, and
/// perturbed at random by up to a half.
fn first_weights(alloc: Global, table: &Compact) -> Result<Vec<i64>, AllocError> {
    let mut seed = SEED;
    let mut weights = vec![in alloc; 0; table.rows.len()]?;
    for row in 0..table.rows.len() {
        let most = most_rows(table, row);
        seed = next_random(seed);
        let part = 512i64.wrapping_add(i64::try_from(seed >> 54).unwrap_or(0));
        let even = UNIT.wrapping_div(most.max(1)) >> 10;
        put(&mut weights, row, even.wrapping_mul(part));
    }
    Ok(weights)
}

/// A table of so many rows is bounded by primal-dual steps, if its columns cost the same: steps of the
/// subgradient end far below its optimum.
const MANY_ROWS: usize = 1_000;

/// A table of so many is, where there are cuts of its rows, which only those steps use.
const MANY_ROWS_WITH_CUTS: usize = 250;

/// The most spans of primal-dual steps for a bound.
const SPANS: u32 = 20;

/// The most for a bound that only drops columns.
const FEW_SPANS: u32 = 4;

/// The most spans of primal-dual steps after cuts were added.
const SPANS_OF_CUTS: u32 = 16;

/// How often cuts are added for a bound, at most; once for one that only drops columns.
const TIMES_OF_CUTS: u32 = 8;

/// A fractional cover has some part of a column if it has no less than this.
const LEAST_PART: i64 = LIKELIEST / 100;

/// What a search remembers from table to table, and how much work it did.
pub struct WarmStart {
    /// The rows of the last bound; none before the first.
    rows: Lists,
    /// The number of each row of the last bound, by which its weight is remembered.
    numbers: Vec<usize>,
    /// The weight of each row, by its number.
    weights: Vec<i64>,
    /// The cuts of the last bound.
    cuts: Cuts,
    /// The multiplier of a column.
    column: i64,
    /// How likely each column is thought to be in a cover: a larger number is likelier.
    likely: Vec<i64>,
    /// Whether `likely` is a fractional cover, of primal-dual steps.
    fractional: bool,
    /// By how much the last bound fell short.
    missing: u64,
    /// The most steps of a bound that continues from another.
    steps: u32,
    /// The last cover, near which the next one is looked for.
    hint: Vec<usize>,
    /// The work so far.
    effort: Effort,
    /// The linear relaxation, where it is what bounds tables.
    relaxation: Option<Relaxation>,
    /// What branches on columns gained in the relaxations before.
    gains: Option<PseudoCosts>,
    /// Whether a question was so hard that the relaxation was wanted.
    hard: bool,
}

// Written out, so that where one ends a proof has one call, and not one for each of its lists.
impl Drop for WarmStart {
    fn drop(self) {
        let WarmStart {
            rows: _,
            numbers: _,
            weights: _,
            cuts: _,
            column: _,
            likely: _,
            fractional: _,
            missing: _,
            steps: _,
            hint: _,
            effort: _,
            relaxation: _,
            gains: _,
            hard: _,
        } = self;
    }
}

impl WarmStart {
    /// Remembers nothing yet; `effort` is the work before.
    pub fn new(alloc: Global, effort: Effort) -> WarmStart {
        WarmStart {
            rows: Lists::new(alloc),
            numbers: Vec::new(alloc),
            weights: Vec::new(alloc),
            cuts: Cuts::new(alloc),
            column: 4 * UNIT,
            likely: Vec::new(alloc),
            fractional: false,
            missing: 0,
            steps: STEPS,
            hint: Vec::new(alloc),
            effort,
            relaxation: None,
            gains: None,
            hard: false,
        }
    }

    /// From now on a bound that continues from another takes few steps; one of a copy takes as many
    /// as ever.
    pub fn hurry(&mut self) {
        self.steps = FEW_STEPS;
    }

    /// Sets the cover near which the next one is looked for.
    pub fn set_hint(&mut self, alloc: Global, cover: &[usize]) -> Result<(), AllocError> {
        self.hint = cover.to_vec(alloc)?;
        Ok(())
    }

    /// The cover near which the next one is looked for; empty if there is none yet.
    pub fn hint(&self) -> &[usize] {
        &self.hint
    }

    /// The columns near which a cover is looked for in a table with these live ones: those of which a
    /// fractional cover has a half or more, if there is one, else the last cover.
    pub fn likely_cover(&self, alloc: Global, live: &[usize]) -> Result<Vec<usize>, AllocError> {
        if !self.fractional {
            return self.hint.to_vec(alloc);
        }
        let mut columns = Vec::new(alloc);
        for column in live {
            if at(&self.likely, *column) >= LIKELIEST / 2 {
                columns.push(*column)?;
            }
        }
        Ok(columns)
    }

    /// Marks for `columns` columns: those of which the last fractional cover has some part are set, its
    /// support. `None` if there is no such cover, or once a search was hard: then one with the linear
    /// relaxation mostly ends sooner than one in the support.
    pub fn support(&self, alloc: Global, columns: usize) -> Result<Option<Vec<bool>>, AllocError> {
        if !self.fractional || self.hard {
            return Ok(None);
        }
        let mut marks = vec![in alloc; false; columns]?;
        for (column, part) in self.likely.iter().enumerate() {
            mark(&mut marks, column, *part >= LEAST_PART);
        }
        Ok(Some(marks))
    }

    /// The work so far.
    pub fn effort(&self) -> Effort {
        self.effort
    }

    /// Counts a table that is looked at.
    pub fn count_table(&mut self) {
        self.effort.tables = self.effort.tables.saturating_add(1);
    }

    /// Counts a question that is asked.
    pub fn count_question(&mut self) {
        self.effort.questions = self.effort.questions.saturating_add(1);
    }

    /// How likely each column is thought to be in a cover, by the last bound by steps: a larger number is
    /// likelier. Empty before the first.
    pub fn likely(&self) -> &[i64] {
        &self.likely
    }

    /// By how much the last bound by steps fell short of its goal, in columns, or in
    /// cost where columns have different costs; rounded down, and 0 if it did not.
    pub fn shortfall(&self) -> u64 {
        self.missing
    }

    /// A copy of what is remembered for a branch or a question, without the relaxation and what branches
    /// gained; its bounds take all steps again.
    pub fn copy(&self, alloc: Global) -> Result<WarmStart, AllocError> {
        let mut copy = WarmStart::new(alloc, self.effort);
        copy.take_copy(alloc, self)?;
        Ok(copy)
    }

    /// Makes one that remembers nothing a copy of another, where it stands.
    pub fn take_copy(&mut self, alloc: Global, from: &WarmStart) -> Result<(), AllocError> {
        self.column = from.column;
        self.missing = from.missing;
        self.hard = from.hard;
        self.fractional = from.fractional;
        self.rows.extend_from(&from.rows)?;
        self.numbers.extend_from_slice(&from.numbers)?;
        self.weights.extend_from_slice(&from.weights)?;
        self.cuts = from.cuts.copy(alloc)?;
        self.likely.extend_from_slice(&from.likely)?;
        self.hint.extend_from_slice(&from.hint)?;
        Ok(())
    }

    /// A copy for a branch in a table whose columns are renumbered, each of the live ones by its index in
    /// `live`: `rows` are the rows of the table before, and `renumbered` the same with the new numbers.
    /// `columns` is above all columns of the table before.
    pub fn renumber(
        &self,
        alloc: Global,
        rows: &[Vec<usize>],
        live: &[usize],
        columns: usize,
        renumbered: &[Vec<usize>],
    ) -> Result<WarmStart, AllocError> {
        let mut copy = WarmStart::new(alloc, self.effort);
        copy.column = self.column;
        copy.missing = self.missing;
        copy.hard = self.hard;
        copy.fractional = self.fractional;
        copy.weights.extend_from_slice(&self.weights)?;
        copy.cuts = self.cuts.copy(alloc)?;
        if !self.is_new() {
            let numbers = self.row_ids(alloc, rows, live, columns)?;
            copy.keep_weights(&numbers, &self.weights_of(alloc, &numbers)?)?;
            copy.rows = Lists::of(alloc, renumbered)?;
            copy.numbers = numbers;
        }
        copy.likely = entries_at(alloc, &self.likely, live)?;
        copy.hint = indices_of(alloc, live, &self.hint)?;
        Ok(copy)
    }

    /// Takes over what a branch or a question has learned, which started with a copy: the weights
    /// of the rows that are known here, the multiplier of a column, the work, and whether it was
    /// hard. Weights that belong to a fractional cover stay as they are.
    pub fn learn(&mut self, branch: &WarmStart) {
        if !self.fractional {
            self.learn_weights(&branch.weights);
        }
        self.column = branch.column;
        self.effort = branch.effort;
        self.hard = branch.hard;
    }

    /// Takes over weights of the rows that are known here.
    fn learn_weights(&mut self, weights: &[i64]) {
        for (number, weight) in weights.iter().enumerate() {
            put(&mut self.weights, number, *weight);
        }
    }

    /// The number of the remembered row that each row comes from; columns are below `columns`.
    fn row_ids(
        &self,
        alloc: Global,
        rows: &[Vec<usize>],
        live: &[usize],
        columns: usize,
    ) -> Result<Vec<usize>, AllocError> {
        let marks = marked(alloc, live, columns)?;
        self.numbers_of(alloc, rows, &marks)
    }

    /// The number of the remembered row that each row comes from. Since then rows may have been
    /// dropped, have lost columns, or been added at the end; an added row gets a new number.
    fn numbers_of(
        &self,
        alloc: Global,
        rows: &[Vec<usize>],
        live: &[bool],
    ) -> Result<Vec<usize>, AllocError> {
        let mut numbers = vec![in alloc; 0; rows.len()]?;
        let mut from: usize = 0;
        let mut next = self.weights.len();
        for (i, row) in rows.iter().enumerate() {
            let index = matching_row(&self.rows, row, live, from);
            if index < self.numbers.len() {
                set(&mut numbers, i, number(&self.numbers, index));
                from = index.saturating_add(1);
            } else {
                set(&mut numbers, i, next);
                next = next.saturating_add(1);
            }
        }
        Ok(numbers)
    }

    /// The weights of the rows with these numbers; half of `UNIT` for new numbers.
    fn weights_of(&self, alloc: Global, numbers: &[usize]) -> Result<Vec<i64>, AllocError> {
        let mut weights = vec![in alloc; UNIT / 2; numbers.len()]?;
        for (i, number) in numbers.iter().enumerate() {
            if *number < self.weights.len() {
                put(&mut weights, i, at(&self.weights, *number));
            }
        }
        Ok(weights)
    }

    /// Whether no rows are remembered, as there was no bound by subgradient steps yet.
    fn is_new(&self) -> bool {
        self.rows.len() == 0
    }

    /// The start of the steps: from the remembered weights of the rows with these numbers, or from
    /// first weights if no rows are remembered.
    fn ascent(
        &self,
        alloc: Global,
        table: &Compact,
        numbers: &[usize],
    ) -> Result<Ascent, AllocError> {
        if self.is_new() {
            let weights = first_weights(alloc, table)?;
            return Ascent::new(alloc, table, weights, self.column, PACE);
        }
        let weights = self.weights_of(alloc, numbers)?;
        let pace = if table.is_uneven() { PACE } else { NEAR_PACE };
        Ascent::new(alloc, table, weights, self.column, pace)
    }

    /// The course of the steps; `uneven` is whether columns have different costs.
    fn course(&self, uneven: bool) -> Course {
        if self.is_new() {
            Course::new(STEPS, REACH)
        } else if uneven {
            Course::new(self.steps, REACH)
        } else {
            Course::new(self.steps, NEAR_REACH)
        }
    }

    /// Makes the steps, until they show that no cover reaches the goal, gain too little, or are spent,
    /// and keeps how likely each live column is; columns are below `columns`.
    fn climb(
        &mut self,
        alloc: Global,
        table: &Compact,
        live: &[usize],
        columns: usize,
        goal: Goal,
        ascent: &mut Ascent,
    ) -> Result<(), AllocError> {
        let mut course = self.course(ascent.cost > 0);
        for step in 0..STEPS * 2 + 2 {
            if ascent.go_on(alloc, table, goal, step, &mut course)? {
                break;
            }
        }
        self.keep_likely(alloc, live, ascent.likely(), columns)
    }

    /// Keeps how likely each live column is, which `likely` tells in their order; columns are below
    /// `columns`, and the others get 0.
    fn keep_likely(
        &mut self,
        alloc: Global,
        live: &[usize],
        likely: &[i64],
        columns: usize,
    ) -> Result<(), AllocError> {
        let mut all = vec![in alloc; 0; columns]?;
        for (i, column) in live.iter().enumerate() {
            put(&mut all, *column, at(likely, i));
        }
        self.likely = all;
        Ok(())
    }

    /// Multipliers that may show that no cover reaches the goal, or which columns are in no cover
    /// that does.
    ///
    /// `rows` are the rows of the table before its columns, which are below `columns`, were
    /// renumbered, `live` its live columns in their order, and `taken` those that every cover of the
    /// search has. Up to 1,202 steps, each of which reads all rows some times; where rows are many up to
    /// 1,000 primal-dual steps, and up to 800 each time that cuts are added; or the linear relaxation.
    pub fn multipliers(
        &mut self,
        alloc: Global,
        table: &Compact,
        live: &[usize],
        taken: &[usize],
        rows: &[Vec<usize>],
        columns: usize,
        goal: Goal,
    ) -> Result<Multipliers, AllocError> {
        self.effort.rounds = self.effort.rounds.saturating_add(1);
        if let Some(relaxation) = &mut self.relaxation {
            return relaxation.multipliers(alloc, rows, live, taken, goal);
        }
        let numbers = self.row_ids(alloc, rows, live, columns)?;
        self.fractional = rows.len() >= self.least_rows_of_steps() && !table.is_uneven();
        if self.fractional {
            return self.multipliers_by_steps(alloc, table, live, rows, columns, &numbers, goal);
        }
        let mut ascent = self.ascent(alloc, table, &numbers)?;
        if !rows.is_empty() {
            self.climb(alloc, table, live, columns, goal, &mut ascent)?;
            self.remember(alloc, rows, &numbers, &ascent)?;
        }
        ascent.multipliers(alloc)
    }

    /// From so many rows on a table is bounded by primal-dual steps, if its columns cost the same.
    fn least_rows_of_steps(&self) -> usize {
        if self.cuts.is_empty() {
            MANY_ROWS
        } else {
            MANY_ROWS_WITH_CUTS
        }
    }

    /// The start of primal-dual steps: from the remembered weights of the rows with these numbers and of their
    /// cuts, or from first weights if no rows are remembered.
    fn primal_dual(
        &self,
        alloc: Global,
        table: &Compact,
        live: &[usize],
        numbers: &[usize],
    ) -> Result<PrimalDual, AllocError> {
        let likely = entries_at(alloc, &self.likely, live)?;
        if self.is_new() {
            let weights = first_weights(alloc, table)?;
            return PrimalDual::new(alloc, table, Lists::new(alloc), &weights, &likely);
        }
        let mut weights = self.weights_of(alloc, numbers)?;
        let cuts = self
            .cuts
            .among(alloc, numbers, self.weights.len(), &mut weights)?;
        PrimalDual::new(alloc, table, cuts, &weights, &likely)
    }

    /// Makes primal-dual steps, with cuts, and keeps their fractional cover. A bound that only drops columns
    /// makes none where the weights tell as much already, as they mostly do once a column was taken.
    fn approach(
        &mut self,
        alloc: Global,
        table: &Compact,
        live: &[usize],
        columns: usize,
        numbers: &[usize],
        goal: Goal,
    ) -> Result<PrimalDual, AllocError> {
        let mut pair = self.primal_dual(alloc, table, live, numbers)?;
        let hurried = self.steps < STEPS;
        if hurried && pair.is_near_goal(goal) {
            return Ok(pair);
        }
        let spans = if hurried { FEW_SPANS } else { SPANS };
        let times = if hurried { 1 } else { TIMES_OF_CUTS };
        pair.approach(alloc, goal, spans)?;
        pair.strengthen(alloc, table, goal, times, SPANS_OF_CUTS)?;
        self.keep_likely(alloc, live, &pair.parts(alloc)?, columns)?;
        Ok(pair)
    }

    /// Multipliers by primal-dual steps, with cuts; the arguments are those of `multipliers`, and the numbers
    /// of the rows. Where there are no cuts weights are polished.
    fn multipliers_by_steps(
        &mut self,
        alloc: Global,
        table: &Compact,
        live: &[usize],
        rows: &[Vec<usize>],
        columns: usize,
        numbers: &[usize],
        goal: Goal,
    ) -> Result<Multipliers, AllocError> {
        let pair = self.approach(alloc, table, live, columns, numbers, goal)?;
        if pair.cuts().len() == 0 {
            self.cuts = Cuts::new(alloc);
            let weights = pair.weights(alloc)?;
            let mut ascent = Ascent::new(alloc, table, weights, self.column, NEAR_PACE)?;
            ascent.go_on(alloc, table, goal, 0, &mut Course::new(0, REACH))?;
            self.remember(alloc, rows, numbers, &ascent)?;
            return ascent.multipliers(alloc);
        }
        let weights = pair.weights(alloc)?;
        let weights = self.remember_steps(alloc, rows, numbers, pair.cuts(), weights)?;
        self.missing = pair.shortfall(goal);
        Ok(Multipliers {
            weights: whole(alloc, &weights)?,
            cuts: self.cuts.weighted(alloc, pair.cuts())?,
            column: UNIT as u32,
            cost: 0,
        })
    }

    /// Remembers the rows, their numbers, cuts of them, and weights of the rows and then of the cuts; answers
    /// the weights of the rows.
    fn remember_steps(
        &mut self,
        alloc: Global,
        rows: &[Vec<usize>],
        numbers: &[usize],
        cuts: &Lists,
        mut weights: Vec<i64>,
    ) -> Result<Vec<i64>, AllocError> {
        self.cuts = Cuts::of(alloc, cuts, numbers, &weights)?;
        weights.truncate(numbers.len());
        self.remember_rows(alloc, rows, numbers, &weights)?;
        Ok(weights)
    }

    /// Keeps the best weights of the steps, by the numbers of their rows; new numbers are
    /// consecutive.
    fn keep_weights(&mut self, numbers: &[usize], weights: &[i64]) -> Result<(), AllocError> {
        for (i, number) in numbers.iter().enumerate() {
            let weight = at(weights, i);
            if *number < self.weights.len() {
                put(&mut self.weights, *number, weight);
            } else {
                self.weights.push(weight)?;
            }
        }
        Ok(())
    }

    /// Remembers the rows, their numbers, and the result of the steps.
    fn remember(
        &mut self,
        alloc: Global,
        rows: &[Vec<usize>],
        numbers: &[usize],
        ascent: &Ascent,
    ) -> Result<(), AllocError> {
        self.remember_rows(alloc, rows, numbers, &ascent.best.weights)?;
        self.note_shortfall(ascent);
        Ok(())
    }

    /// Remembers the rows, their numbers and their weights.
    fn remember_rows(
        &mut self,
        alloc: Global,
        rows: &[Vec<usize>],
        numbers: &[usize],
        weights: &[i64],
    ) -> Result<(), AllocError> {
        self.keep_weights(numbers, weights)?;
        self.rows = Lists::of(alloc, rows)?;
        self.numbers = numbers.to_vec(alloc)?;
        Ok(())
    }

    /// Notes by how much the steps fell short, and their multiplier of a column if columns have
    /// different costs.
    fn note_shortfall(&mut self, ascent: &Ascent) {
        let short = 0i64.wrapping_sub(ascent.best.value).max(0);
        let mut unit = UNIT;
        if ascent.cost > 0 {
            self.column = ascent.top.column;
            unit = ascent.cost;
        }
        self.missing = u64::try_from(short.wrapping_div(unit.max(1))).unwrap_or(0);
    }
}
