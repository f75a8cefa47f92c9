//! Multipliers of the Lagrangian relaxation of the covering problem, by subgradient steps.
//!
//! Whole-number subgradient steps with momentum (Held and Karp, The traveling-salesman problem and
//! minimum spanning trees, 1970 and 1971). A column has a scaled cost: a multiplier for itself, and
//! one for each unit of its cost. Its load is the sum of its rows' weights. A step lowers the
//! weights of rows whose columns are overloaded, which have more load than scaled cost, and raises
//! the others. From time to time the weights are polished: lowered where more than one column of a
//! row is overloaded, and raised by the least slack of the row's columns. If the steps end just
//! short of the goal, they go on from weights a quarter of the way to their mean. A step reads all
//! rows some times.

use crate::goal::Goal;
use number_lists::{
    Compact, Lists, UNIT, add_at, add_to_each, at, flag, number, overwrite, put, total,
};
use std::alloc::{AllocError, Global};

/// The highest likelihood of a column.
pub const LIKELIEST: i64 = 1048576;

/// The most steps for a bound before a restart, after which as many may follow.
pub const STEPS: u32 = 600;

/// The most for a bound that continues from another and only drops columns.
pub const FEW_STEPS: u32 = 30;

/// The first length of a step.
pub const PACE: i64 = 4096;

/// The first length where the steps continue from another table's and columns cost the same.
pub const NEAR_PACE: i64 = 2048;

/// Once in this many steps the weights are polished, and it is tested whether the goal is within
/// reach.
const SPAN: u32 = 25;

/// The steps are given up if this many times the last gain would not reach the goal.
pub const REACH: i64 = 20;

/// The same number as `REACH`, where the steps continue from another table's and columns cost the
/// same.
pub const NEAR_REACH: i64 = 4;

/// The least length of a step; shorter ones gain nothing.
const LAST_PACE: i64 = 16;

/// What an overloaded column of a row counts in its direction.
const SLOPE: i64 = 16;

/// After this many steps without a gain the steps become shorter.
const PATIENCE: u32 = 10;

/// A cut with its weight: some rows of the table, of which each cover has so many columns, counted by
/// halves of their rows and rounded up, as are half of the rows (a {0, 1/2}-cut).
#[derive(Drop)]
pub struct Cut {
    /// The indices of the rows.
    pub rows: Vec<usize>,
    /// The weight.
    pub weight: u64,
}

/// The multipliers of the relaxation: weights of rows and of cuts, and the parts of a column's scaled
/// cost, for itself and for each unit of its cost.
#[derive(Drop)]
pub struct Multipliers {
    /// The weight of each row.
    pub weights: Vec<u64>,
    /// Cuts, which strengthen the bound of the rows alone; mostly none.
    pub cuts: Vec<Cut>,
    /// The multiplier of a column.
    pub column: u32,
    /// The multiplier of each unit of a column's cost.
    pub cost: u32,
}

/// Weights of rows and the multiplier of a column, with their value.
#[derive(Drop)]
pub struct Point {
    /// The Lagrangian bound less the goal.
    pub value: i64,
    /// The weight of each row.
    pub weights: Vec<i64>,
    /// The multiplier of a column.
    pub column: i64,
}

/// Which columns are overloaded, and what this means for rows.
#[derive(Drop)]
struct Marks {
    /// Which columns are overloaded.
    overloaded: Vec<bool>,
    /// The columns whose mark changed last, before others.
    changed: Vec<usize>,
    /// How many columns are overloaded.
    number: i64,
    /// The subgradient of each row, times `SLOPE`: one less how many overloaded columns it has.
    slopes: Vec<i64>,
    /// How likely each column is in a cover: the more, the more often it was overloaded of late.
    likely: Vec<i64>,
}

/// The state of the steps: the present weights, their direction, and the best weights so far.
pub struct Ascent {
    /// The weight of each row.
    weights: Vec<i64>,
    /// The multiplier of a column.
    column: i64,
    /// The multiplier of each unit of a column's cost; 0 where columns cost the same.
    pub cost: i64,
    /// The direction of each weight.
    direction: Vec<i64>,
    /// The direction of the multiplier of a column.
    column_direction: i64,
    /// The scaled cost of each column.
    scaled_costs: Vec<i64>,
    /// Sums of weights: the load of a column is what comes between two of them.
    partial: Vec<i64>,
    /// Which columns are overloaded.
    marks: Marks,
    /// The weights of the step with the best value, since the restart if there was one.
    pub top: Point,
    /// The polished weights with the best value.
    pub best: Point,
    /// The length of a step.
    pace: i64,
    /// How many steps there were without a gain.
    idle: u32,
}

// Written out, so that where one ends a proof has one call, and not one for each of its lists.
impl Drop for Ascent {
    fn drop(self) {
        let Ascent {
            weights: _,
            column: _,
            cost: _,
            direction: _,
            column_direction: _,
            scaled_costs: _,
            partial: _,
            marks: _,
            top: _,
            best: _,
            pace: _,
            idle: _,
        } = self;
    }
}

/// How long the steps go on.
#[derive(Clone, Copy)]
pub struct Course {
    /// The last step.
    last: u32,
    /// How many steps there are before a restart.
    steps: u32,
    /// The steps are given up if this many times the last gain would not reach the goal.
    reach: i64,
    /// Whether they were restarted, or may not be.
    again: bool,
    /// The best value when this was last tested.
    before: i64,
}

impl Course {
    /// The course of at most `steps` steps, which are given up if `reach` times the last gain would
    /// not reach the goal. They may be restarted once if they are no fewer than `STEPS`.
    pub fn new(steps: u32, reach: i64) -> Course {
        Course {
            last: steps,
            steps,
            reach,
            again: steps < STEPS,
            before: i64::MIN,
        }
    }

    /// Notes a restart after this step: `steps` more may follow, and no other restart.
    fn restart(&mut self, step: u32) {
        self.again = true;
        self.last = step.wrapping_add(self.steps);
        self.before = i64::MIN;
    }

    /// Whether the last steps gained too little to reach the goal; tested every `SPAN` steps, when
    /// the best value is noted for the next test. At other steps, and at step 0, it is `false`.
    fn gives_up(&mut self, step: u32, value: i64) -> bool {
        if step == 0 || step % SPAN != 0 {
            return false;
        }
        let gain = value.saturating_sub(self.before);
        self.before = value;
        value.saturating_add(gain.saturating_mul(self.reach)) < 0
    }
}

/// By how much the columns with these slacks are overloaded together.
fn overload(slacks: &[i64]) -> i64 {
    let mut overload: i64 = 0;
    for slack in slacks {
        overload = overload.wrapping_add(0i64.wrapping_sub(*slack).max(0));
    }
    overload
}

/// How much less the row must weigh so that one more of its columns is not overloaded, at most its
/// `weight`; 0 if at most one is.
fn weight_decrease(row: &[u32], weight: i64, slacks: &[i64]) -> i64 {
    let mut number: u32 = 0;
    let mut least = weight;
    for column in row {
        let over = 0i64.wrapping_sub(at(slacks, *column as usize));
        if over > 0 {
            number = number.wrapping_add(1);
            least = least.min(over);
        }
    }
    if number > 1 { least } else { 0 }
}

/// The least slack of the row's columns; 0 if one has none or is overloaded, or the row is empty.
fn least_slack(row: &[u32], slacks: &[i64]) -> i64 {
    let mut least = i64::MAX;
    for column in row {
        least = least.min(at(slacks, *column as usize));
        if least <= 0 {
            return 0;
        }
    }
    if row.is_empty() { 0 } else { least }
}

/// The multiplier of each unit of a column's cost, by which columns cost `UNIT` on average; at
/// least 1, and at most what 32 bits hold.
fn cost_multiplier(table: &Compact) -> i64 {
    let number = i64::try_from(table.costs.len()).unwrap_or(i64::MAX);
    UNIT.wrapping_mul(number)
        .wrapping_div(total(&table.costs).max(1))
        .max(1)
        .min(4294967295)
}

/// Lowers the weights of rows with several overloaded columns, the least weight first, and adjusts
/// the slacks; `order` is room for these rows.
fn lower(
    table: &Compact,
    slopes: &[i64],
    slacks: &mut [i64],
    order: &mut Vec<(i64, usize)>,
    weights: &mut Vec<i64>,
) -> Result<(), AllocError> {
    order.clear();
    for (i, weight) in weights.iter().enumerate() {
        if *weight > 0 && at(slopes, i) < 0 {
            order.push((*weight, i))?;
        }
    }
    order.sort_unstable();
    for (weight, i) in order.iter() {
        let row = table.rows.list(*i);
        let less = weight_decrease(row, *weight, slacks);
        if less > 0 {
            put(weights, *i, weight.wrapping_sub(less));
            add_to_each(slacks, row, less);
        }
    }
    Ok(())
}

/// Raises the weights of rows by the least slack of their columns, the row first that weighed most
/// before rows were lowered, and adjusts the slacks; `order` is room for these rows.
fn raise(
    table: &Compact,
    before: &[i64],
    slacks: &mut [i64],
    order: &mut Vec<(i64, usize)>,
    weights: &mut Vec<i64>,
) -> Result<(), AllocError> {
    order.clear();
    for (i, weight) in before.iter().enumerate() {
        if least_slack(table.rows.list(i), slacks) > 0 {
            order.push((*weight, i))?;
        }
    }
    order.sort_unstable();
    order.reverse();
    for (_, i) in order.iter() {
        let row = table.rows.list(*i);
        let more = least_slack(row, slacks);
        if more > 0 {
            add_at(weights, *i, more);
            add_to_each(slacks, row, 0i64.wrapping_sub(more));
        }
    }
    Ok(())
}

/// The slack of each column, from its scaled cost and from sums of weights.
fn slacks_of(
    alloc: Global,
    column_rows: &Lists,
    scaled_costs: &[i64],
    partial: &[i64],
) -> Result<Vec<i64>, AllocError> {
    let mut slacks = vec![in alloc; 0; scaled_costs.len()]?;
    let mut before: i64 = 0;
    for (column, scaled_cost) in scaled_costs.iter().enumerate() {
        let now = at(partial, column_rows.end_of(column) as usize);
        let load = now.wrapping_sub(before);
        put(&mut slacks, column, scaled_cost.wrapping_sub(load));
        before = now;
    }
    Ok(slacks)
}

/// Moves the likelihood of overloaded columns half the way to `LIKELIEST`, and the others' half the
/// way to 0; all the way if `fresh`.
fn note_likely(likely: &mut [i64], overloaded: &[bool], fresh: bool) {
    for column in 0..overloaded.len().min(likely.len()) {
        let now = if overloaded[column] { LIKELIEST } else { 0 };
        let before = if fresh { now } else { likely[column] };
        likely[column] = before.wrapping_add(now.wrapping_sub(before) >> 1);
    }
}

impl Point {
    /// No weights yet, with a value below all others.
    fn new(alloc: Global, column: i64) -> Point {
        Point {
            value: i64::MIN,
            weights: Vec::new(alloc),
            column,
        }
    }
}

impl Marks {
    /// No rows and no columns yet.
    fn new(alloc: Global) -> Marks {
        Marks {
            overloaded: Vec::new(alloc),
            changed: Vec::new(alloc),
            number: 0,
            slopes: Vec::new(alloc),
            likely: Vec::new(alloc),
        }
    }

    /// Makes room for so many rows and columns, none of which is overloaded.
    fn make_room(&mut self, rows: usize, columns: usize) -> Result<(), AllocError> {
        self.overloaded.resize(columns, false)?;
        self.changed.resize(columns, 0)?;
        self.slopes.resize(rows, SLOPE)?;
        self.likely.resize(columns, 0)?;
        Ok(())
    }

    /// Marks the overloaded columns; answers by how much they are overloaded together. The loads
    /// are what comes between two of the sums in `partial`. Which marks change is hard to foretell,
    /// so that nothing branches on it here.
    fn mark_overloaded(
        &mut self,
        column_rows: &Lists,
        scaled_costs: &[i64],
        partial: &[i64],
    ) -> i64 {
        let ends = column_rows.ends();
        let overloaded: &mut [bool] = &mut self.overloaded;
        let changed: &mut [usize] = &mut self.changed;
        let mut overload: i64 = 0;
        let mut before: i64 = 0;
        let mut changes: usize = 0;
        let columns = ends.len().min(scaled_costs.len());
        for column in 0..columns.min(overloaded.len()) {
            let now = at(partial, ends[column] as usize);
            let load = now.wrapping_sub(before);
            let over = load.wrapping_sub(scaled_costs[column]).max(0);
            before = now;
            overload = overload.wrapping_add(over);
            if changes < changed.len() {
                changed[changes] = column;
            }
            changes = changes.wrapping_add(usize::from(overloaded[column] != (over > 0)));
            overloaded[column] = over > 0;
        }
        self.count_changes(column_rows, changes);
        overload
    }

    /// Counts the changes of marks in `number`, and in the slopes of the rows of the columns, which
    /// are the first `changes` in `changed`.
    fn count_changes(&mut self, column_rows: &Lists, changes: usize) {
        for index in 0..changes {
            let column = number(&self.changed, index);
            let more = if flag(&self.overloaded, column) {
                1
            } else {
                -1
            };
            self.number = self.number.wrapping_add(more);
            let less = 0i64.wrapping_sub(SLOPE.wrapping_mul(more));
            add_to_each(&mut self.slopes, column_rows.list(column), less);
        }
    }
}

/// Turns the direction: three quarters of the last one, plus the subgradient. Answers the square of
/// its length, without the rows whose weight is 0 and would become less.
fn turn(direction: &mut [i64], slopes: &[i64], weights: &[i64]) -> i64 {
    let mut square: i64 = 0;
    let rows = slopes.len().min(weights.len());
    for row in 0..rows.min(direction.len()) {
        let next = slopes[row].wrapping_add(direction[row].wrapping_mul(12) >> 4);
        direction[row] = next;
        let moved = if next.max(weights[row]) > 0 { next } else { 0 };
        square = square.wrapping_add(moved.wrapping_mul(moved));
    }
    square
}

/// The number after a step of `pace` times `direction` over 256; at least 0.
fn number_after_step(number: i64, direction: i64, pace: i64) -> i64 {
    number
        .wrapping_add(pace.wrapping_mul(direction) >> 8)
        .max(0)
}

/// Moves each weight by a step of `pace` times its direction over 256, but not below 0.
fn move_each(weights: &mut [i64], direction: &[i64], pace: i64) {
    for row in 0..weights.len().min(direction.len()) {
        weights[row] = number_after_step(weights[row], direction[row], pace);
    }
}

/// Moves weights a quarter of the way to their mean.
fn draw_to_mean(weights: &mut [i64]) {
    let number = i64::try_from(weights.len()).unwrap_or(i64::MAX);
    let mean = total(weights).wrapping_div(number.max(1));
    for weight in weights.iter_mut() {
        *weight = weight.wrapping_mul(3).wrapping_add(mean) >> 2;
    }
}

/// Sets each number to 0.
fn clear(numbers: &mut [i64]) {
    for number in numbers.iter_mut() {
        *number = 0;
    }
}

impl Ascent {
    /// The start of the steps, from these weights, one for each row, with steps of this length.
    /// `column` is the multiplier of a column where columns have different costs; where they cost
    /// the same it is `UNIT`.
    pub fn new(
        alloc: Global,
        table: &Compact,
        weights: Vec<i64>,
        column: i64,
        pace: i64,
    ) -> Result<Ascent, AllocError> {
        let uneven = table.is_uneven();
        let column = if uneven { column } else { UNIT };
        let mut ascent = Ascent {
            column,
            cost: if uneven { cost_multiplier(table) } else { 0 },
            direction: Vec::new(alloc),
            column_direction: 0,
            scaled_costs: Vec::new(alloc),
            partial: Vec::new(alloc),
            marks: Marks::new(alloc),
            top: Point::new(alloc, column),
            best: Point::new(alloc, column),
            pace,
            idle: 0,
            weights,
        };
        ascent.make_room(table)?;
        ascent.set_scaled_costs(&table.costs, column);
        Ok(ascent)
    }

    /// Makes room for numbers of rows and of columns.
    fn make_room(&mut self, table: &Compact) -> Result<(), AllocError> {
        let rows = self.weights.len();
        let columns = table.costs.len();
        self.direction.resize(rows, 0)?;
        self.top.weights.resize(rows, 0)?;
        self.scaled_costs.resize(columns, 0)?;
        self.partial
            .resize(table.column_rows.size().saturating_add(1), 0)?;
        self.marks.make_room(rows, columns)
    }

    /// Sets the scaled costs, for this multiplier of a column.
    fn set_scaled_costs(&mut self, costs: &[i64], column: i64) {
        let each = self.cost;
        for (i, scaled_cost) in self.scaled_costs.iter_mut().enumerate() {
            *scaled_cost = column.wrapping_add(each.wrapping_mul(at(costs, i)));
        }
    }

    /// The Lagrangian bound of these weights less the goal; columns are overloaded by `overload`
    /// together. If it is positive, no cover reaches the goal.
    fn value(&self, weights: &[i64], overload: i64, goal: Goal) -> i64 {
        total(weights)
            .wrapping_sub(overload)
            .wrapping_sub(self.column.wrapping_mul(goal.columns))
            .wrapping_sub(self.cost.wrapping_mul(goal.cost))
    }

    /// Keeps polished weights if their bound is better than the best so far; columns are overloaded
    /// by `overload` together.
    fn keep_if_best(&mut self, weights: Vec<i64>, overload: i64, goal: Goal) {
        let value = self.value(&weights, overload, goal);
        if value > self.best.value {
            self.best.value = value;
            self.best.weights = weights;
            self.best.column = self.column;
        }
    }

    /// A step in the direction of the subgradient plus three quarters of the last direction. Its
    /// length is `far` over the square of that direction; there is no step if the square is 0.
    fn step(&mut self, goal: Goal, far: i64) {
        let mut square = turn(&mut self.direction, &self.marks.slopes, &self.weights);
        if self.cost > 0 {
            let above = self.marks.number.wrapping_sub(goal.columns);
            let last = self.column_direction.wrapping_mul(12) >> 4;
            let next = above.wrapping_mul(SLOPE).wrapping_add(last);
            self.column_direction = next;
            square = square.wrapping_add(next.wrapping_mul(next));
        }
        if square <= 0 {
            return;
        }
        let pace = far.wrapping_div(square.max(1));
        move_each(&mut self.weights, &self.direction, pace);
        self.column = number_after_step(self.column, self.column_direction, pace);
    }

    /// Notes the value of the present weights, and keeps them in `top` if it is the best so far.
    /// The step counts as idle if it gains a thousandth of `UNIT` at most.
    fn note(&mut self, value: i64) {
        if value > self.top.value.saturating_add(UNIT / 1000) {
            self.idle = 0;
        } else {
            self.idle = self.idle.wrapping_add(1);
        }
        if value > self.top.value {
            self.top.value = value;
            overwrite(&mut self.top.weights, &self.weights);
            self.top.column = self.column;
        }
    }

    /// The value of the present weights; marks the columns that they overload.
    fn present_value(&mut self, table: &Compact, goal: Goal) -> i64 {
        if self.cost > 0 {
            self.set_scaled_costs(&table.costs, self.column);
        }
        table.column_rows.add_up(&self.weights, &mut self.partial);
        let overload = self
            .marks
            .mark_overloaded(&table.column_rows, &self.scaled_costs, &self.partial);
        self.value(&self.weights, overload, goal)
    }

    /// Whether the steps gain nothing and cannot become shorter.
    fn is_slow(&self) -> bool {
        self.idle > PATIENCE && self.pace.wrapping_mul(3) / 5 < LAST_PACE
    }

    /// Whether to end the steps: there were enough, or they gain nothing, or too little to reach
    /// the goal.
    fn is_over(&self, step: u32, course: &mut Course) -> bool {
        step >= course.last || self.is_slow() || course.gives_up(step, self.top.value)
    }

    /// Returns to the weights and the multiplier of a column in `top`.
    fn return_to_top(&mut self) {
        self.column = self.top.column;
        overwrite(&mut self.weights, &self.top.weights);
    }

    /// Returns to the weights in `top`, with steps of three fifths of the length.
    fn slow_down(&mut self) {
        self.idle = 0;
        self.pace = self.pace.wrapping_mul(3) / 5;
        self.return_to_top();
    }

    /// Notes the present weights, and goes on from them to the next; `step` is the number of the
    /// step, from 0 on. Answers whether the steps are over.
    pub fn go_on(
        &mut self,
        alloc: Global,
        table: &Compact,
        goal: Goal,
        step: u32,
        course: &mut Course,
    ) -> Result<bool, AllocError> {
        let value = self.present_value(table, goal);
        if step % 4 == 0 {
            let marks = &mut self.marks;
            note_likely(&mut marks.likely, &marks.overloaded, step == 0);
        }
        self.note(value);
        if self.is_over(step, course) {
            self.end_or_restart(alloc, table, goal, step, course)
        } else {
            self.polish_and_step(alloc, table, goal, step, value)
        }
    }

    /// Polishes every `SPAN` steps, and answers `true` if this shows that no cover reaches the
    /// goal; otherwise makes a step. `value` is that of the present weights.
    fn polish_and_step(
        &mut self,
        alloc: Global,
        table: &Compact,
        goal: Goal,
        step: u32,
        value: i64,
    ) -> Result<bool, AllocError> {
        if step % SPAN == 0 {
            self.polish(alloc, table, goal)?;
            if self.best.value > 0 {
                return Ok(true);
            }
        }
        if self.idle > PATIENCE {
            self.slow_down();
        }
        let far = UNIT
            .wrapping_sub(value)
            .max(UNIT / 50)
            .wrapping_mul(self.pace);
        self.step(goal, far);
        Ok(false)
    }

    /// Polishes a copy of the present weights, whose sums and overloaded columns are known: lowers
    /// them where columns are overloaded, and then raises them by what is left of the slacks. Keeps
    /// it in `best` if its bound is the best so far.
    fn polish(&mut self, alloc: Global, table: &Compact, goal: Goal) -> Result<(), AllocError> {
        let mut slacks = slacks_of(alloc, &table.column_rows, &self.scaled_costs, &self.partial)?;
        let mut weights = self.weights.to_vec(alloc)?;
        let mut order: Vec<(i64, usize)> = Vec::new(alloc);
        lower(
            table,
            &self.marks.slopes,
            &mut slacks,
            &mut order,
            &mut weights,
        )?;
        raise(table, &self.weights, &mut slacks, &mut order, &mut weights)?;
        self.keep_if_best(weights, overload(&slacks), goal);
        Ok(())
    }

    /// Polishes the weights in `top`. If the best polished ones end just short of the goal, the
    /// steps are restarted, once. Answers whether the steps are over.
    fn end_or_restart(
        &mut self,
        alloc: Global,
        table: &Compact,
        goal: Goal,
        step: u32,
        course: &mut Course,
    ) -> Result<bool, AllocError> {
        self.return_to_top();
        self.present_value(table, goal);
        self.polish(alloc, table, goal)?;
        if course.again || self.best.value > 0 || self.best.value <= 0 - UNIT / 8 {
            return Ok(true);
        }
        course.restart(step);
        self.restart_near_best();
        Ok(false)
    }

    /// Moves the present weights, which are the best, a quarter of the way to their mean, and
    /// forgets the direction and the value in `top`, for a restart.
    fn restart_near_best(&mut self) {
        draw_to_mean(&mut self.weights);
        clear(&mut self.direction);
        self.column_direction = 0;
        self.pace = PACE;
        self.idle = 0;
        self.top.value = i64::MIN;
    }

    /// How likely each column is in a cover, as far as the steps tell; a larger number is likelier.
    pub fn likely(&self) -> &[i64] {
        &self.marks.likely
    }

    /// The best polished multipliers, as the caller checks them; without weights before the first
    /// step.
    pub fn multipliers(&self, alloc: Global) -> Result<Multipliers, AllocError> {
        let mut weights = Vec::with_capacity(alloc, self.best.weights.len())?;
        for weight in &self.best.weights {
            weights.push(u64::try_from((*weight).max(0)).unwrap_or(0))?;
        }
        Ok(Multipliers {
            weights,
            cuts: Vec::new(alloc),
            column: u32::try_from(self.best.column).unwrap_or(u32::MAX),
            cost: u32::try_from(self.cost).unwrap_or(u32::MAX),
        })
    }
}
