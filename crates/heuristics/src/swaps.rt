//! A local search for a cover that reaches a goal.
//!
//! It adds columns until each row is covered, drops one, and goes on by swaps: it drops the column
//! whose loss is least, and adds a column of some uncovered row. Rows that stay uncovered get
//! larger weights, so that the search does not cycle, and a column that was dropped is added again
//! only after another column of its rows was added (Cai, Su, Luo and Sattar, NuMVC: an efficient
//! local search algorithm for minimum vertex cover, 2013). Of a long list some columns are looked at for
//! one to drop, at random (Cai, Balance between complexity and quality: local search for minimum vertex
//! cover in massive graphs, 2015).

use crate::goal::Goal;
use number_lists::{
    Compact, SEED, add_at, add_to, add_to_each, at, flag, mark, marked, next_random, number, put,
    set,
};
use std::alloc::{AllocError, Global};
use std::cmp::Reverse;
use std::collections::BinaryHeap;

/// In a longer list of chosen columns only some are looked at for one to drop,
const LONG_LIST: usize = 2_000;

/// so many.
const LOOKS: usize = 100;

/// How good a column is to add: what it would gain; what it costs and when it was last added or dropped, both
/// below 0; and the column, the first of equals first.
type Rank = (i64, i64, i64, Reverse<usize>);

/// The present list of columns, and the best one so far.
struct LocalSearch {
    /// The weight of each row.
    weights: Vec<i64>,
    /// How many chosen columns each row has.
    held: Vec<usize>,
    /// The sum of the numbers of each row's chosen columns: the column itself where there is one.
    holders: Vec<usize>,
    /// The rows without a chosen column.
    open: Vec<usize>,
    /// The index of each of these rows in `open`; for other rows it means nothing.
    places: Vec<usize>,
    /// What it would gain to add each column that is not chosen.
    scores: Vec<i64>,
    /// Whether each column is chosen.
    inside: Vec<bool>,
    /// The chosen columns.
    chosen: Vec<usize>,
    /// What it would gain to drop each of these; at most 0.
    losses: Vec<i64>,
    /// The index of each chosen column in `chosen`.
    slots: Vec<usize>,
    /// The cost of the chosen columns.
    cost: i64,
    /// Whether each column may be added.
    fresh: Vec<bool>,
    /// When each column was last added or dropped; no two chosen columns have one number.
    stamps: Vec<usize>,
    /// The best list so far.
    best: Vec<usize>,
    /// By which the columns of a long list are picked.
    seed: u64,
}

// Written out, so that where one ends a proof has one call, and not one for each of its lists.
impl Drop for LocalSearch {
    fn drop(self) {
        let LocalSearch {
            weights: _,
            held: _,
            holders: _,
            open: _,
            places: _,
            scores: _,
            inside: _,
            chosen: _,
            losses: _,
            slots: _,
            cost: _,
            fresh: _,
            stamps: _,
            best: _,
            seed: _,
        } = self;
    }
}

impl LocalSearch {
    /// A search that has not started.
    fn new(alloc: Global) -> LocalSearch {
        LocalSearch {
            weights: Vec::new(alloc),
            held: Vec::new(alloc),
            holders: Vec::new(alloc),
            open: Vec::new(alloc),
            places: Vec::new(alloc),
            scores: Vec::new(alloc),
            inside: Vec::new(alloc),
            chosen: Vec::new(alloc),
            losses: Vec::new(alloc),
            slots: Vec::new(alloc),
            cost: 0,
            fresh: Vec::new(alloc),
            stamps: Vec::new(alloc),
            best: Vec::new(alloc),
            seed: SEED,
        }
    }

    /// Starts with so many uncovered rows, each of which weighs one.
    fn start_rows(&mut self, rows: usize) -> Result<(), AllocError> {
        self.weights.resize(rows, 1)?;
        self.held.resize(rows, 0)?;
        self.holders.resize(rows, 0)?;
        self.open.resize(rows, 0)?;
        number_each(&mut self.open);
        self.places.extend_from_slice(&self.open)?;
        Ok(())
    }

    /// Starts with no chosen column.
    fn start_columns(&mut self, alloc: Global, table: &Compact) -> Result<(), AllocError> {
        let columns = table.costs.len();
        self.inside.resize(columns, false)?;
        self.slots.resize(columns, 0)?;
        self.fresh.resize(columns, true)?;
        self.stamps.resize(columns, 0)?;
        self.scores = first_scores(alloc, table)?;
        Ok(())
    }

    /// Adds `more`, which may be negative, to the scores of the row's columns other than `column`,
    /// and lets these be added.
    fn raise_others(&mut self, row: &[u32], column: usize, more: i64) {
        for other in row {
            let other = *other as usize;
            if other != column {
                add_at(&mut self.scores, other, more);
                mark(&mut self.fresh, other, true);
            }
        }
    }

    /// Adds `more`, which may be negative, to what it would gain to drop the only chosen column of
    /// the row.
    fn raise_holder(&mut self, row: usize, more: i64) {
        let slot = number(&self.slots, number(&self.holders, row));
        add_at(&mut self.losses, slot, more);
    }

    /// Takes the row, which is covered now, from the uncovered ones.
    fn close(&mut self, row: usize) {
        let place = number(&self.places, row);
        if place < self.open.len() {
            self.open.swap_remove(place);
            if place < self.open.len() {
                let moved = self.open[place];
                set(&mut self.places, moved, place);
            }
        }
    }

    /// Enters the column into the list of chosen ones, with its loss, and adds its cost; `now` is
    /// the step. What becomes of its rows is left to the caller.
    fn choose(&mut self, table: &Compact, column: usize, now: usize) -> Result<(), AllocError> {
        set(&mut self.stamps, column, now);
        mark(&mut self.inside, column, true);
        set(&mut self.slots, column, self.chosen.len());
        self.chosen.push(column)?;
        self.losses
            .push(0i64.wrapping_sub(at(&self.scores, column)))?;
        self.cost = self.cost.wrapping_add(at(&table.costs, column));
        Ok(())
    }

    /// Takes the column from the list of chosen ones, with its cost, and makes a score of its loss;
    /// `now` is the step. What becomes of its rows is left to the caller.
    fn discard(&mut self, table: &Compact, column: usize, now: usize) {
        set(&mut self.stamps, column, now);
        mark(&mut self.inside, column, false);
        let slot = number(&self.slots, column);
        if slot >= self.chosen.len() || slot >= self.losses.len() {
            return;
        }
        self.chosen.swap_remove(slot);
        let loss = self.losses.swap_remove(slot);
        put(&mut self.scores, column, 0i64.wrapping_sub(loss));
        if slot < self.chosen.len() {
            let moved = self.chosen[slot];
            set(&mut self.slots, moved, slot);
        }
        self.cost = self.cost.wrapping_sub(at(&table.costs, column));
    }

    /// Adds the column to the list, and counts it in each of its rows; `now` is the step.
    fn add(&mut self, table: &Compact, column: usize, now: usize) -> Result<(), AllocError> {
        self.choose(table, column, now)?;
        for row in table.column_rows.list(column) {
            self.hold(table, *row as usize, column);
        }
        Ok(())
    }

    /// Counts the column, which is added, among the chosen ones of its row; adjusts the uncovered
    /// rows, and the scores or the loss of the row's other columns.
    fn hold(&mut self, table: &Compact, row: usize, column: usize) {
        let held = add_to(&mut self.held, row, 1);
        let weight = at(&self.weights, row);
        if held == 1 {
            self.close(row);
            self.raise_others(table.rows.list(row), column, 0i64.wrapping_sub(weight));
        } else if held == 2 {
            self.raise_holder(row, weight);
        }
        add_to(&mut self.holders, row, column);
    }

    /// Drops the column from the list and from the counts of its rows; `now` is the step. It may be
    /// added again only after another column has covered or uncovered one of its rows.
    fn remove(&mut self, table: &Compact, column: usize, now: usize) -> Result<(), AllocError> {
        self.discard(table, column, now);
        mark(&mut self.fresh, column, false);
        for row in table.column_rows.list(column) {
            self.release(table, *row as usize, column)?;
        }
        Ok(())
    }

    /// Takes the column, which is dropped, from the chosen ones of its row; adjusts the uncovered
    /// rows, and the scores or the loss of the row's other columns.
    fn release(&mut self, table: &Compact, row: usize, column: usize) -> Result<(), AllocError> {
        let held = add_to(&mut self.held, row, 0usize.wrapping_sub(1));
        add_to(&mut self.holders, row, 0usize.wrapping_sub(column));
        let weight = at(&self.weights, row);
        if held == 0 {
            set(&mut self.places, row, self.open.len());
            self.open.push(row)?;
            self.raise_others(table.rows.list(row), column, weight);
        } else if held == 1 {
            self.raise_holder(row, 0i64.wrapping_sub(weight));
        }
        Ok(())
    }

    /// Whether to add the first column rather than the second, which gains as much: it costs less;
    /// or as much, and was dropped longer ago.
    fn is_better_to_add(&self, table: &Compact, first: usize, second: usize) -> bool {
        let a = at(&table.costs, first);
        let b = at(&table.costs, second);
        a < b || (a == b && number(&self.stamps, first) < number(&self.stamps, second))
    }

    /// Whether to drop the first column rather than the second, where as much is lost: it costs
    /// more; or as much, and was added longer ago.
    fn is_better_to_drop(&self, table: &Compact, first: usize, second: usize) -> bool {
        let a = at(&table.costs, first);
        let b = at(&table.costs, second);
        a > b || (a == b && number(&self.stamps, first) < number(&self.stamps, second))
    }

    /// The chosen column other than `last` that is best to drop: that of the least loss, and among
    /// equals by `is_better_to_drop`; of a long list, of some of them. `usize::MAX` if there is none.
    fn column_to_drop(&mut self, table: &Compact, last: usize) -> usize {
        if self.losses.len() > LONG_LIST {
            self.best_to_drop_of_some(table, last)
        } else {
            self.best_to_drop(table, last)
        }
    }

    /// What `column_to_drop` answers, of all chosen columns.
    fn best_to_drop(&self, table: &Compact, last: usize) -> usize {
        let mut best = usize::MAX;
        let mut top = i64::MIN;
        for (slot, loss) in self.losses.iter().enumerate() {
            if *loss >= top {
                let column = number(&self.chosen, slot);
                if column != last && (*loss > top || self.is_better_to_drop(table, column, best)) {
                    best = column;
                    top = *loss;
                }
            }
        }
        best
    }

    /// The slot of a chosen column, at random.
    fn random_slot(&mut self) -> usize {
        self.seed = next_random(self.seed);
        usize::try_from(self.seed >> 1).unwrap_or(0) % self.chosen.len().max(1)
    }

    /// What `column_to_drop` answers, of some chosen columns.
    fn best_to_drop_of_some(&mut self, table: &Compact, last: usize) -> usize {
        let mut best = usize::MAX;
        let mut top = i64::MIN;
        for _ in 0..LOOKS {
            let slot = self.random_slot();
            let loss = at(&self.losses, slot);
            let column = number(&self.chosen, slot);
            let is_better = loss > top || self.is_better_to_drop(table, column, best);
            if loss >= top && column != last && is_better {
                best = column;
                top = loss;
            }
        }
        best
    }

    /// The column of the row that is best to add, of those that may be added: that of the highest
    /// score, and among equals by `is_better_to_add`; `usize::MAX` if there is none.
    fn column_to_add(&self, table: &Compact, row: &[u32]) -> usize {
        let mut best = usize::MAX;
        let mut top = i64::MIN;
        for column in row {
            let column = *column as usize;
            let score = at(&self.scores, column);
            if score >= top
                && flag(&self.fresh, column)
                && (score > top || self.is_better_to_add(table, column, best))
            {
                best = column;
                top = score;
            }
        }
        best
    }

    /// How good the column is to add.
    fn rank(&self, table: &Compact, column: usize) -> Rank {
        let stamp = i64::try_from(number(&self.stamps, column)).unwrap_or(i64::MAX);
        let cost = 0i64.wrapping_sub(at(&table.costs, column));
        let since = 0i64.wrapping_sub(stamp);
        (at(&self.scores, column), cost, since, Reverse(column))
    }

    /// The columns that are not chosen, the best to add first.
    fn queue(&self, alloc: Global, table: &Compact) -> Result<BinaryHeap<Rank>, AllocError> {
        let mut queue = BinaryHeap::new(alloc);
        for (column, inside) in self.inside.iter().enumerate() {
            if !*inside {
                queue.push(self.rank(table, column))?;
            }
        }
        Ok(queue)
    }

    /// Raises the weight of each uncovered row by one, and so the scores of its columns.
    fn raise_uncovered_weights(&mut self, table: &Compact) {
        for i in 0..self.open.len() {
            let row = number(&self.open, i);
            add_at(&mut self.weights, row, 1);
            add_to_each(&mut self.scores, table.rows.list(row), 1);
        }
    }

    /// How many columns are chosen.
    fn size(&self) -> i64 {
        i64::try_from(self.chosen.len()).unwrap_or(i64::MAX)
    }

    /// Whether the list has no more columns than the goal, and costs no more. Whether it covers all
    /// rows is not asked.
    fn reaches(&self, goal: Goal) -> bool {
        self.size() <= goal.columns && self.cost <= goal.cost
    }

    /// Adds, one after the other, those of the live columns that the hint marks and that some
    /// uncovered row has. The hint may be poor.
    fn begin_with(
        &mut self,
        table: &Compact,
        live: &[usize],
        hint: &[bool],
    ) -> Result<(), AllocError> {
        for (i, column) in live.iter().enumerate() {
            if flag(hint, *column) && at(&self.scores, i) > 0 {
                let now = self.chosen.len();
                self.add(table, i, now)?;
            }
        }
        Ok(())
    }

    /// Adds the best column to add, again and again, until each row is covered. What a column would gain
    /// only falls on the way: one that is met with the rank of before goes back.
    fn cover_greedily(&mut self, alloc: Global, table: &Compact) -> Result<(), AllocError> {
        let mut queue = self.queue(alloc, table)?;
        for _ in 0..usize::MAX {
            if self.open.is_empty() {
                break;
            }
            let Some(rank) = queue.pop() else {
                break;
            };
            let (_, _, _, Reverse(column)) = rank;
            let rank_now = self.rank(table, column);
            if rank_now < rank {
                queue.push(rank_now)?;
            } else {
                let now = self.chosen.len();
                self.add(table, column, now)?;
            }
        }
        Ok(())
    }

    /// Drops a column other than `last` if the list is as long as the goal or longer, adds one of
    /// an uncovered row that `seed` picks, and raises the weights of the rows that stay uncovered.
    /// Answers which column it added, or `last` if none.
    fn swap(
        &mut self,
        table: &Compact,
        goal: Goal,
        last: usize,
        now: usize,
        seed: u64,
    ) -> Result<usize, AllocError> {
        if self.size() >= goal.columns {
            let column = self.column_to_drop(table, last);
            if column == usize::MAX {
                return Ok(last);
            }
            self.remove(table, column, now)?;
        }
        if self.open.is_empty() {
            return Ok(last);
        }
        let row = number(
            &self.open,
            usize::try_from(seed >> 1).unwrap_or(0) % self.open.len(),
        );
        let column = self.column_to_add(table, table.rows.list(row));
        if column == usize::MAX {
            return Ok(last);
        }
        self.add(table, column, now)?;
        self.raise_uncovered_weights(table);
        Ok(column)
    }

    /// Notes the list as the best one so far.
    fn keep(&mut self, alloc: Global) -> Result<(), AllocError> {
        self.best = self.chosen.to_vec(alloc)?;
        Ok(())
    }

    /// Searches for `steps` steps for the best list; it stops once a list reaches the goal.
    fn go_on(
        &mut self,
        alloc: Global,
        table: &Compact,
        goal: Goal,
        steps: usize,
    ) -> Result<(), AllocError> {
        self.cover_greedily(alloc, table)?;
        self.keep(alloc)?;
        let mut least = (i64::MAX, i64::MAX);
        let mut last = usize::MAX;
        let mut seed = SEED;
        let begun = self.chosen.len();
        for step in 1..steps {
            let now = begun.saturating_add(step);
            if self.open.is_empty() {
                if self.keep_and_drop(alloc, table, goal, now, &mut least)? {
                    break;
                }
            } else {
                seed = next_random(seed);
                last = self.swap(table, goal, last, now, seed)?;
            }
        }
        Ok(())
    }

    /// Keeps the list, which covers all rows, if it is less than the least so far, and drops a
    /// column; answers whether the search is over: at the goal, or with no column to drop, and then
    /// none is dropped.
    fn keep_and_drop(
        &mut self,
        alloc: Global,
        table: &Compact,
        goal: Goal,
        now: usize,
        least: &mut (i64, i64),
    ) -> Result<bool, AllocError> {
        let here = (self.size(), self.cost);
        if here < *least {
            *least = here;
            self.keep(alloc)?;
        }
        let column = self.column_to_drop(table, usize::MAX);
        if self.reaches(goal) || column == usize::MAX {
            return Ok(true);
        }
        self.remove(table, column, now)?;
        Ok(false)
    }
}

/// Sets each number to its index.
fn number_each(numbers: &mut [usize]) {
    for index in 0..numbers.len() {
        numbers[index] = index;
    }
}

/// What it would gain to add each column first: how many rows it has.
fn first_scores(alloc: Global, table: &Compact) -> Result<Vec<i64>, AllocError> {
    let mut scores = vec![in alloc; 0; table.costs.len()]?;
    for column in 0..table.costs.len() {
        let rows = table.column_rows.list(column).len();
        put(&mut scores, column, i64::try_from(rows).unwrap_or(0));
    }
    Ok(scores)
}

/// How many steps for each row a long local search takes: from 12 to 1000, fewer where a step costs
/// more since rows and columns are long.
pub fn steps_of_long_search(rows: &[Vec<usize>], columns: usize) -> usize {
    let mut entries: usize = 0;
    for row in rows {
        entries = entries.saturating_add(row.len());
    }
    let step = entries.saturating_mul(entries) / columns.max(1);
    (100_000_000 / step.max(1)).clamp(12, 1000)
}

/// The best list of columns that a search of `steps` steps finds, as indices of `live`: a cover of
/// the fewest columns, of these one that costs least, within the goal or not; it stops once a list
/// reaches the goal. It starts with the live columns of `hint`, which may be poor; columns are
/// below `columns`. A step reads some rows of two columns.
pub fn local_search(
    alloc: Global,
    table: &Compact,
    live: &[usize],
    columns: usize,
    hint: &[usize],
    goal: Goal,
    steps: usize,
) -> Result<Vec<usize>, AllocError> {
    let hint = marked(alloc, hint, columns)?;
    let mut search = LocalSearch::new(alloc);
    search.start_rows(table.rows.len())?;
    search.start_columns(alloc, table)?;
    search.begin_with(table, live, &hint)?;
    search.go_on(alloc, table, goal, steps)?;
    search.best.to_vec(alloc)
}
