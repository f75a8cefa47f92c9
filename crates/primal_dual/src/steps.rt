//! A fractional cover of a large table, and weights of its rows, by primal-dual steps: as good as those of
//! the simplex method but for a small gap, in some hundred passes over the rows.
//!
//! A step moves each column's part against its slack, and each row's weight by what the parts of its columns
//! fall short of one (Chambolle and Pock, A first-order primal-dual algorithm for convex problems, 2011). Its
//! lengths are by the numbers of rows and columns (Pock and Chambolle, Diagonal preconditioning for first
//! order primal-dual algorithms, 2011). Steps are reflected, and drawn back to where they began, the less the
//! more there were; from time to time they begin anew (Lu and Yang, Restarted Halpern PDHG for linear
//! programming, 2024). All columns cost the same here. A column without part that has much slack sleeps: for a
//! span of steps it is left out, and the bounds at its end see it again. Cuts are rows that need more than
//! one column.

use heuristics::{Constraints, Goal, LIKELIEST, violated_cuts};
use number_lists::{
    Compact, Lists, UNIT, at, flag, float, in_whole_numbers, mark, overwrite, put_float, sum_at,
};
use std::alloc::{AllocError, Global};
use std::num::{nearest_i64_to_f64, nearest_u64_to_f64, saturating_f64_to_u64};

/// After so many steps it is looked at how near they came.
const SPAN: u64 = 50;

/// Steps of weights are longer by this factor, and those of parts shorter.
const BALANCE: f64 = 1.7;

/// Steps begin anew where the gap between the bounds is this part of that at the last beginning,
const MUCH_NEARER: f64 = 0.4;

/// or this part of it,
const NEARER: f64 = 0.8;

/// where this part of all steps were made since.
const LONG: f64 = 0.36;

/// The steps end once the gap is no more than this, in columns,
const SMALL_GAP: f64 = 0.05;

/// or no more than this part of what the lower bound falls short of the goal,
const SMALL_PART: f64 = 0.2;

/// or no more than this where the upper bound is within the goal, so that no weights go past it.
const GAP_WITHIN_GOAL: f64 = 0.25;

/// More than any gap.
const NO_GAP: f64 = 1e300;

/// A column of which there is no part sleeps for a span of steps where it has so much slack.
const SLEEPING_SLACK: f64 = 0.3;

/// Cuts are looked for where the weights fall short of the goal by less than this, in columns,
const MOST_SHORT: f64 = 3.0;

/// or by less than this part of it, as in a large table they fall short at many places by a little,
const MOST_SHORT_PART: f64 = 0.00025;

/// and again where the last ones gained this,
const LEAST_GAIN: f64 = 0.02;

/// and so many times what they gained would reach the goal.
const REACH: f64 = 8.0;

/// A cut is left out again where it has less weight than this, in columns.
const LEAST_WEIGHT: f64 = 0.005;

/// Bounds on the size of the least fractional cover.
#[derive(Clone, Copy)]
struct Bounds {
    /// What weights of rows show: none is smaller.
    low: f64,
    /// The size of one: parts of columns, and what rows miss of them added.
    high: f64,
}

/// The sum of the numbers.
fn sum(numbers: &[f64]) -> f64 {
    let mut sum = 0.0;
    for number in numbers {
        sum += *number;
    }
    sum
}

/// What the constraints need beyond these parts of columns, all together. Of one that has more than it
/// needs nothing is subtracted.
fn shortage(constraints: &Constraints, parts: &[f64]) -> f64 {
    let mut shortage = 0.0;
    for (index, need) in constraints.needs.iter().enumerate() {
        let short = *need - sum_at(parts, constraints.columns.list(index));
        shortage += short.max(0.0);
    }
    shortage
}

/// The weights times what the constraints need, added up.
fn weight_of_needs(needs: &[f64], weights: &[f64]) -> f64 {
    let mut sum = 0.0;
    for (index, need) in needs.iter().enumerate() {
        sum += *need * float(weights, index);
    }
    sum
}

/// By how much the lists, whose numbers are added up, go past one together.
fn excess(lists: &Lists, numbers: &[f64]) -> f64 {
    let mut excess = 0.0;
    for index in 0..lists.len() {
        let over = sum_at(numbers, lists.list(index)) - 1.0;
        excess += over.max(0.0);
    }
    excess
}

impl Bounds {
    /// No bounds yet.
    const NONE: Bounds = Bounds {
        low: 0.0,
        high: NO_GAP,
    };

    /// The bounds of these parts of columns and weights of rows.
    fn of(constraints: &Constraints, parts: &[f64], weights: &[f64]) -> Bounds {
        let needed = weight_of_needs(&constraints.needs, weights);
        Bounds {
            low: needed - excess(&constraints.column_rows, weights),
            high: sum(parts) + shortage(constraints, parts),
        }
    }

    /// The gap between them.
    fn gap(&self) -> f64 {
        self.high - self.low
    }

    /// Whether more steps would hardly tell more: no cover has so few columns as the goal, or the gap is
    /// small beside what is to be shown.
    fn is_enough(&self, goal: f64) -> bool {
        let small = SMALL_GAP.max(SMALL_PART * (goal - self.low));
        self.low > goal || self.gap() < small || (self.high < goal && self.gap() < GAP_WITHIN_GOAL)
    }

    /// Whether cuts may show that no cover has so few columns as the goal, or which columns one lacks.
    fn is_worth_cuts(&self, goal: f64) -> bool {
        self.low <= goal && goal - self.low < MOST_SHORT.max(MOST_SHORT_PART * goal)
    }
}

/// One by the number of entries of each list; one where it has none.
fn one_by_lengths(alloc: Global, lists: &Lists) -> Result<Vec<f64>, AllocError> {
    let mut parts = Vec::with_capacity(alloc, lists.len())?;
    for index in 0..lists.len() {
        parts.push(1.0 / nearest_u64_to_f64(lists.list(index).len().max(1) as u64))?;
    }
    Ok(parts)
}

/// How long steps are (Pock and Chambolle, 2011).
struct Paces {
    /// Of each constraint's weight: one by its number of columns.
    rows: Vec<f64>,
    /// Of each column's part: one by its number of constraints.
    columns: Vec<f64>,
}

// Written out, so that where one ends a proof has one call, and not one for each of its lists.
impl Drop for Paces {
    fn drop(self) {
        let Paces {
            rows: _,
            columns: _,
        } = self;
    }
}

impl Paces {
    /// Those of the constraints.
    fn of(alloc: Global, constraints: &Constraints) -> Result<Paces, AllocError> {
        Ok(Paces {
            rows: one_by_lengths(alloc, &constraints.columns)?,
            columns: one_by_lengths(alloc, &constraints.column_rows)?,
        })
    }
}

/// Adds a list of those of the columns that are marked.
fn push_marked(columns: &mut Lists, list: &[u32], marks: &[bool]) -> Result<(), AllocError> {
    for column in list {
        if flag(marks, *column as usize) {
            columns.push(*column)?;
        }
    }
    columns.end()
}

/// The lists without those that are not marked.
fn awake_columns(alloc: Global, lists: &Lists, marks: &[bool]) -> Result<Lists, AllocError> {
    let mut columns = Lists::with_capacity(alloc, lists.len(), 0)?;
    for index in 0..lists.len() {
        push_marked(&mut columns, lists.list(index), marks)?;
    }
    Ok(columns)
}

/// A number for each column and each row.
struct Pair {
    /// How much of each column a fractional cover has: from 0 to 1.
    parts: Vec<f64>,
    /// The weight of each row, in columns.
    weights: Vec<f64>,
}

// Written out, so that where one ends a proof has one call, and not one for each of its lists.
impl Drop for Pair {
    fn drop(self) {
        let Pair {
            parts: _,
            weights: _,
        } = self;
    }
}

impl Pair {
    /// A copy.
    fn copy(&self, alloc: Global) -> Result<Pair, AllocError> {
        Ok(Pair {
            parts: self.parts.to_vec(alloc)?,
            weights: self.weights.to_vec(alloc)?,
        })
    }

    /// Becomes the same as another of as many numbers.
    fn become_as(&mut self, other: &Pair) {
        overwrite(&mut self.parts, &other.parts);
        overwrite(&mut self.weights, &other.weights);
    }
}

/// A fractional cover and weights of rows and cuts, which steps bring nearer to the best ones.
pub struct PrimalDual {
    /// The rows, and cuts beside them.
    constraints: Constraints,
    /// How long steps are.
    paces: Paces,
    /// The rows of each cut.
    cuts: Lists,
    /// Where the next step begins.
    here: Pair,
    /// Where the last step led, before it was reflected.
    found: Pair,
    /// Where the steps began.
    begin: Pair,
    /// Of each column the part that was found, and what the last step added to it once more.
    ahead: Vec<f64>,
    /// The columns that steps move; the others sleep, and have no part.
    awake: Vec<usize>,
    /// Those of each constraint.
    awake_columns: Lists,
    /// How many steps were made.
    all_steps: u64,
    /// How many since they began anew.
    steps: u64,
    /// The gap then.
    gap: f64,
    /// The last bounds.
    bounds: Bounds,
}

// Written out, so that where one ends a proof has one call, and not one for each of its lists.
impl Drop for PrimalDual {
    fn drop(self) {
        let PrimalDual {
            constraints: _,
            paces: _,
            cuts: _,
            here: _,
            found: _,
            begin: _,
            ahead: _,
            awake: _,
            awake_columns: _,
            all_steps: _,
            steps: _,
            gap: _,
            bounds: _,
        } = self;
    }
}

/// The first so many of the numbers, each divided by `unit`, and 0 for those past the end.
fn in_units(alloc: Global, numbers: &[i64], unit: i64, len: usize) -> Result<Vec<f64>, AllocError> {
    let unit = nearest_i64_to_f64(unit);
    let mut floats = Vec::with_capacity(alloc, len)?;
    for index in 0..len {
        floats.push(nearest_i64_to_f64(at(numbers, index)) / unit)?;
    }
    Ok(floats)
}

impl PrimalDual {
    /// The start, with these cuts, from these weights, one for each row and then one for each cut, in which a
    /// column is `UNIT`, and from how likely each column is to be in a cover, at most `LIKELIEST`.
    pub fn new(
        alloc: Global,
        table: &Compact,
        cuts: Lists,
        weights: &[i64],
        likely: &[i64],
    ) -> Result<PrimalDual, AllocError> {
        let constraints = Constraints::of(alloc, table, &cuts)?;
        let columns = table.costs.len();
        let here = Pair {
            parts: in_units(alloc, likely, LIKELIEST, columns)?,
            weights: in_units(alloc, weights, UNIT, constraints.needs.len())?,
        };
        Ok(PrimalDual {
            paces: Paces::of(alloc, &constraints)?,
            constraints,
            cuts,
            found: here.copy(alloc)?,
            begin: here.copy(alloc)?,
            here,
            ahead: vec![in alloc; 0.0; columns]?,
            awake: Vec::new(alloc),
            awake_columns: Lists::new(alloc),
            all_steps: 0,
            steps: 0,
            gap: NO_GAP,
            bounds: Bounds::NONE,
        })
    }

    /// Whether steps may move the part of this column: it has some, or little slack.
    fn is_awake(&self, column: usize) -> bool {
        if float(&self.found.parts, column) > 0.0 || float(&self.begin.parts, column) > 0.0 {
            return true;
        }
        let rows = self.constraints.column_rows.list(column);
        1.0 - sum_at(&self.found.weights, rows) < SLEEPING_SLACK
    }

    /// Wakes the columns that steps may move, and lets the others sleep.
    fn wake(&mut self, alloc: Global) -> Result<(), AllocError> {
        let mut marks = vec![in alloc; false; self.ahead.len()]?;
        self.awake.clear();
        for column in 0..self.ahead.len() {
            if self.is_awake(column) {
                mark(&mut marks, column, true);
                self.awake.push(column)?;
            } else {
                put_float(&mut self.ahead, column, 0.0);
                put_float(&mut self.here.parts, column, 0.0);
            }
        }
        self.awake_columns = awake_columns(alloc, &self.constraints.columns, &marks)?;
        Ok(())
    }

    /// Moves the part of each column that is awake: less where its constraints have more weight than it costs,
    /// which is one. `share` is how much of the reflected step is made.
    fn move_parts(&mut self, share: f64) {
        for column in self.awake.iter() {
            let column = *column;
            let rows = self.constraints.column_rows.list(column);
            let slack = 1.0 - sum_at(&self.here.weights, rows);
            let before = float(&self.here.parts, column);
            let pace = float(&self.paces.columns, column) / BALANCE;
            let part = (before - slack * pace).max(0.0).min(1.0);
            let ahead = part + part - before;
            let back = float(&self.begin.parts, column);
            put_float(&mut self.ahead, column, ahead);
            put_float(&mut self.found.parts, column, part);
            put_float(&mut self.here.parts, column, back + share * (ahead - back));
        }
    }

    /// Moves the weight of each constraint: up where the parts of its columns are less than it needs.
    /// `share` is how much of the reflected step is made.
    fn move_weights(&mut self, share: f64) {
        for (row, need) in self.constraints.needs.iter().enumerate() {
            let short = *need - sum_at(&self.ahead, self.awake_columns.list(row));
            let before = float(&self.here.weights, row);
            let pace = float(&self.paces.rows, row) * BALANCE;
            let weight = (before + short * pace).max(0.0);
            let ahead = weight + weight - before;
            let back = float(&self.begin.weights, row);
            put_float(&mut self.found.weights, row, weight);
            put_float(&mut self.here.weights, row, back + share * (ahead - back));
        }
    }

    /// Makes `SPAN` steps.
    fn make_steps(&mut self) {
        for _ in 0..SPAN {
            self.steps = self.steps.saturating_add(1);
            let steps = nearest_u64_to_f64(self.steps);
            let share = steps / (steps + 1.0);
            self.move_parts(share);
            self.move_weights(share);
        }
        self.all_steps = self.all_steps.saturating_add(SPAN);
    }

    /// Whether the steps are to begin anew at this gap.
    fn is_near(&self, gap: f64) -> bool {
        let long = LONG * nearest_u64_to_f64(self.all_steps);
        gap < MUCH_NEARER * self.gap
            || (nearest_u64_to_f64(self.steps) >= long && gap < NEARER * self.gap)
    }

    /// Begins anew from what was found.
    fn begin_anew(&mut self, gap: f64) {
        self.here.become_as(&self.found);
        self.begin.become_as(&self.found);
        self.steps = 0;
        self.gap = gap;
    }

    /// Makes `SPAN` steps, after which they begin anew if they came near. Answers whether more would hardly
    /// tell more.
    fn go_on(&mut self, alloc: Global, goal: f64) -> Result<bool, AllocError> {
        self.wake(alloc)?;
        self.make_steps();
        let bounds = Bounds::of(&self.constraints, &self.found.parts, &self.found.weights);
        self.bounds = bounds;
        if self.is_near(bounds.gap()) {
            self.begin_anew(bounds.gap());
        }
        Ok(bounds.is_enough(goal))
    }

    /// Whether the weights, as they are, fall so little short of the goal that steps would hardly tell more of
    /// a table which has a cover of so few columns.
    pub fn is_near_goal(&mut self, goal: Goal) -> bool {
        let bounds = Bounds::of(&self.constraints, &self.found.parts, &self.found.weights);
        self.bounds = bounds;
        nearest_i64_to_f64(goal.columns) - bounds.low < SMALL_GAP
    }

    /// Makes up to so many spans of 50 steps: until the weights show that no cover has so few columns as the
    /// goal, or more steps would hardly tell more.
    pub fn approach(&mut self, alloc: Global, goal: Goal, spans: u32) -> Result<(), AllocError> {
        let columns = nearest_i64_to_f64(goal.columns);
        for _ in 0..spans {
            if self.go_on(alloc, columns)? {
                break;
            }
        }
        Ok(())
    }

    /// Adds cuts that the fractional cover violates, up to so many times, each time with up to so many spans
    /// of 50 steps, as long as the weights fall little short of the goal and gain by it. `table` is that of
    /// the rows.
    pub fn strengthen(
        &mut self,
        alloc: Global,
        table: &Compact,
        goal: Goal,
        times: u32,
        spans: u32,
    ) -> Result<(), AllocError> {
        let columns = nearest_i64_to_f64(goal.columns);
        for _ in 0..times {
            if !self.bounds.is_worth_cuts(columns) {
                break;
            }
            let gain = self.strengthen_once(alloc, table, goal, spans)?;
            if gain < LEAST_GAIN || gain * REACH < columns - self.bounds.low {
                break;
            }
        }
        Ok(())
    }

    /// Adds cuts, and makes steps; answers what the weights gain by it, in columns.
    fn strengthen_once(
        &mut self,
        alloc: Global,
        table: &Compact,
        goal: Goal,
        spans: u32,
    ) -> Result<f64, AllocError> {
        let before = self.bounds.low;
        if !self.add_cuts(alloc, table)? {
            return Ok(0.0);
        }
        self.approach(alloc, goal, spans)?;
        Ok(self.bounds.low - before)
    }

    /// Adds cuts that the fractional cover violates, and leaves out those without weight; the steps begin
    /// anew. Answers whether there are more.
    fn add_cuts(&mut self, alloc: Global, table: &Compact) -> Result<bool, AllocError> {
        let more = violated_cuts(alloc, &table.rows, &self.parts(alloc)?)?;
        if more.len() == 0 {
            return Ok(false);
        }
        let (cuts, weights) = self.cuts_with_weight(alloc, table.rows.len())?;
        self.cuts = cuts;
        self.found.weights = weights;
        for cut in 0..more.len() {
            self.cuts.push_list(more.list(cut))?;
            self.found.weights.push(0.0)?;
        }
        self.constraints = Constraints::of(alloc, table, &self.cuts)?;
        self.paces = Paces::of(alloc, &self.constraints)?;
        self.here = self.found.copy(alloc)?;
        self.begin = self.found.copy(alloc)?;
        self.all_steps = 0;
        self.steps = 0;
        self.gap = NO_GAP;
        Ok(true)
    }

    /// The cuts that have some weight, and the weights of so many rows and of these.
    fn cuts_with_weight(
        &self,
        alloc: Global,
        rows: usize,
    ) -> Result<(Lists, Vec<f64>), AllocError> {
        let mut cuts = Lists::new(alloc);
        let mut weights = self.found.weights.to_vec(alloc)?;
        weights.truncate(rows);
        for cut in 0..self.cuts.len() {
            let weight = float(&self.found.weights, rows.saturating_add(cut));
            if weight > LEAST_WEIGHT {
                cuts.push_list(self.cuts.list(cut))?;
                weights.push(weight)?;
            }
        }
        Ok((cuts, weights))
    }

    /// The rows of each cut.
    pub fn cuts(&self) -> &Lists {
        &self.cuts
    }

    /// By how much the weights fall short of the goal, in columns, rounded down; 0 if they do not.
    pub fn shortfall(&self, goal: Goal) -> u64 {
        saturating_f64_to_u64((nearest_i64_to_f64(goal.columns) - self.bounds.low).max(0.0))
    }

    /// The weight of each row, and then of each cut; a column is `UNIT`.
    pub fn weights(&self, alloc: Global) -> Result<Vec<i64>, AllocError> {
        in_whole_numbers(alloc, &self.found.weights, UNIT)
    }

    /// How much of each column the fractional cover has, where `LIKELIEST` is all of it.
    pub fn parts(&self, alloc: Global) -> Result<Vec<i64>, AllocError> {
        in_whole_numbers(alloc, &self.found.parts, LIKELIEST)
    }
}
