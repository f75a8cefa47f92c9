//! Reliability branching (Achterberg, Koch and Martin, Branching rules revisited, 2005).
//!
//! A column that was seldom branched on is tried: some steps of the dual simplex method with the
//! column at 1, and some with it at 0, tell how much the bound would gain. What trials and branches
//! gained, for each unit that the value moved, is the column's pseudo-cost, and stands for trials
//! once there were enough of them. The product of both gains is what counts. Columns are looked at
//! from the most promising one on, until some in a row are no better.

use crate::floats::{add_float, float, put_float};
use crate::relaxation::{MARGIN, Relaxation};
use crate::simplex::{End, NONE, Saved};
use heuristics::Goal;
use number_lists::{add_to, number, set};
use std::alloc::{AllocError, Global};
use std::num::{nearest_u64_to_f64, saturating_f64_to_u64};

/// So many gains of a column either way make its pseudo-costs reliable.
const RELIABLE: usize = 8;

/// So many columns in a row that are no better than the best one end the choice.
const LOOKAHEAD: u32 = 6;

/// The most steps of a trial.
const TRIAL_STEPS: u32 = 20;

/// A gain counts at least as much.
const LEAST_GAIN: f64 = 1e-4;

/// A value is fractional if it is at least so far from 0 and 1.
const FRACTION: f64 = 1e-4;

/// A gain is noted only of a value at least so far from 0 and 1: it is divided by how far it moved.
const LEAST_MOVE: f64 = 1e-3;

/// The unit of scores as whole numbers, by which columns are put in order: of the least gains either way
/// the product is some ten thousand.
const SCORE_UNIT: f64 = 1e12;

/// The gains of one direction, for each unit that a value moved.
struct Direction {
    /// The sum for each column.
    sums: Vec<f64>,
    /// How many there were for each column.
    counts: Vec<usize>,
}

/// What branches on each column gained: numbers for each column, however many branches there were.
pub struct PseudoCosts {
    /// With the column.
    up: Direction,
    /// Without it.
    down: Direction,
}

// Written out, so that where one ends a proof has one call, and not one for each of its lists.
impl Drop for Direction {
    fn drop(self) {
        let Direction { sums: _, counts: _ } = self;
    }
}

impl Drop for PseudoCosts {
    fn drop(self) {
        let PseudoCosts { up: _, down: _ } = self;
    }
}

impl Direction {
    /// No gains yet.
    fn new(alloc: Global, columns: usize) -> Result<Direction, AllocError> {
        Ok(Direction {
            sums: vec![in alloc; 0.0; columns]?,
            counts: vec![in alloc; 0; columns]?,
        })
    }

    /// Notes the gain of a move by `distance`.
    fn note(&mut self, column: usize, gain: f64, distance: f64) {
        add_float(&mut self.sums, column, gain / distance.max(FRACTION));
        add_to(&mut self.counts, column, 1);
    }

    /// The gains of these columns, each by its index.
    fn at(&self, alloc: Global, columns: &[usize]) -> Result<Direction, AllocError> {
        let mut sums = Vec::with_capacity(alloc, columns.len())?;
        let mut counts = Vec::with_capacity(alloc, columns.len())?;
        for column in columns {
            sums.push(float(&self.sums, *column))?;
            counts.push(number(&self.counts, *column))?;
        }
        Ok(Direction { sums, counts })
    }

    /// Takes the gains of these columns from those by their indices.
    fn take(&mut self, columns: &[usize], from: &Direction) {
        for (index, column) in columns.iter().enumerate() {
            put_float(&mut self.sums, *column, float(&from.sums, index));
            set(&mut self.counts, *column, number(&from.counts, index));
        }
    }

    /// The pseudo-cost of a column, or the other number if there were no gains.
    fn cost(&self, column: usize, otherwise: f64) -> f64 {
        let count = number(&self.counts, column);
        if count == 0 {
            return otherwise;
        }
        float(&self.sums, column) / nearest_u64_to_f64(count as u64)
    }

    /// The mean of all pseudo-costs; 1 if there are none.
    fn mean(&self) -> f64 {
        let mut sum = 0.0;
        let mut known: u64 = 0;
        for column in 0..self.counts.len() {
            if number(&self.counts, column) > 0 {
                sum += self.cost(column, 0.0);
                known = known.saturating_add(1);
            }
        }
        if known == 0 {
            1.0
        } else {
            sum / nearest_u64_to_f64(known)
        }
    }
}

impl PseudoCosts {
    /// No gains yet; columns are below `columns`.
    pub fn new(alloc: Global, columns: usize) -> Result<PseudoCosts, AllocError> {
        Ok(PseudoCosts {
            up: Direction::new(alloc, columns)?,
            down: Direction::new(alloc, columns)?,
        })
    }

    /// What was gained on these columns, each by its index.
    pub fn at(&self, alloc: Global, columns: &[usize]) -> Result<PseudoCosts, AllocError> {
        Ok(PseudoCosts {
            up: self.up.at(alloc, columns)?,
            down: self.down.at(alloc, columns)?,
        })
    }

    /// Takes what was gained on these columns from what was on their indices.
    pub fn take(&mut self, columns: &[usize], from: &PseudoCosts) {
        self.up.take(columns, &from.up);
        self.down.take(columns, &from.down);
    }

    /// Notes what it gained to move a column from its value to 1, if `up`, or to 0. A value too
    /// near to 0 or 1 is passed over.
    pub(crate) fn note(&mut self, column: usize, value: f64, up: bool, gain: f64) {
        if value < LEAST_MOVE || value > 1.0 - LEAST_MOVE {
            return;
        }
        if up {
            self.up.note(column, gain, 1.0 - value);
        } else {
            self.down.note(column, gain, value);
        }
    }

    /// Whether both pseudo-costs of a column are reliable.
    fn is_reliable(&self, column: usize) -> bool {
        let ups = number(&self.up.counts, column);
        let downs = number(&self.down.counts, column);
        ups.min(downs) >= RELIABLE
    }
}

/// How good it is to branch on a column that gains so much either way.
fn score_of(up: f64, down: f64) -> f64 {
    up.max(LEAST_GAIN) * down.max(LEAST_GAIN)
}

/// What came of a look at a column.
#[derive(Clone, Copy)]
enum Look {
    /// How good it is.
    Score(f64),
    /// A trial shows that a branch has no cover.
    Refuted,
}

impl Relaxation {
    /// A live column to branch on, if one can be told, in the table with these live and taken
    /// columns, where a cover may have no more than the goal beside these.
    pub fn branching_column(
        &mut self,
        alloc: Global,
        live: &[usize],
        taken: &[usize],
        goal: Goal,
    ) -> Result<Option<usize>, AllocError> {
        self.note_branching();
        self.look_at(alloc, live, taken)?;
        self.solve(alloc, goal)?;
        let order = self.fractional_columns(alloc)?;
        if order.is_empty() {
            return Ok(self.highest_column());
        }
        let saved = self.simplex.save(alloc, &mut self.saved)?;
        let best = self.best_of(alloc, &order, saved)?;
        Ok(self.columns.get(best).copied())
    }

    /// The indices of the free columns with fractional values, each after a number that is less the
    /// more promising it is; the most promising ones first.
    fn fractional_columns(&self, alloc: Global) -> Result<Vec<(u64, usize)>, AllocError> {
        let up = self.gains.up.mean();
        let down = self.gains.down.mean();
        let mut order: Vec<(u64, usize)> = Vec::new(alloc);
        for index in 0..self.columns.len() {
            let value = self.simplex.value(index);
            if self.simplex.is_free(index) && value > FRACTION && value < 1.0 - FRACTION {
                let column = number(&self.columns, index);
                let gain_up = self.gains.up.cost(column, up) * (1.0 - value);
                let gain_down = self.gains.down.cost(column, down) * value;
                let score = score_of(gain_up, gain_down) * SCORE_UNIT;
                order.push((u64::MAX - saturating_f64_to_u64(score), index))?;
            }
        }
        order.sort_unstable();
        Ok(order)
    }

    /// The first free column whose value is above one half, which is 1 where none is fractional;
    /// `None` if there is none.
    fn highest_column(&self) -> Option<usize> {
        for index in 0..self.columns.len() {
            if self.simplex.is_free(index) && self.simplex.value(index) > 0.5 {
                return Some(self.columns[index]);
            }
        }
        None
    }

    /// The index of the best of these columns to branch on, which `fractional_columns` gives: the
    /// first one of which a branch has no cover, or that of the highest score. `NONE` if there are
    /// no columns.
    fn best_of(
        &mut self,
        alloc: Global,
        order: &[(u64, usize)],
        saved: Saved,
    ) -> Result<usize, AllocError> {
        let mut best = NONE;
        let mut highest = -1.0;
        let mut idle: u32 = 0;
        for (_, index) in order {
            match self.look_at_column(alloc, *index, saved)? {
                Look::Refuted => return Ok(*index),
                Look::Score(score) => {
                    if score > highest {
                        highest = score;
                        best = *index;
                        idle = 0;
                    } else {
                        idle = idle.saturating_add(1);
                    }
                }
            }
            if idle >= LOOKAHEAD {
                return Ok(best);
            }
        }
        Ok(best)
    }

    /// How good it is to branch on a column: by its pseudo-costs where these are reliable, and else
    /// by a trial either way.
    fn look_at_column(
        &mut self,
        alloc: Global,
        index: usize,
        saved: Saved,
    ) -> Result<Look, AllocError> {
        let value = self.simplex.value(index);
        let room = self.room();
        let column = number(&self.columns, index);
        if self.gains.is_reliable(column) {
            let up = self.gains.up.cost(column, 0.0) * (1.0 - value);
            let down = self.gains.down.cost(column, 0.0) * value;
            return Ok(Look::Score(score_of(up.min(room), down.min(room))));
        }
        let (up, up_ends) = self.trial(alloc, index, 1.0, saved)?;
        let (down, down_ends) = self.trial(alloc, index, 0.0, saved)?;
        self.gains.note(column, value, true, up);
        self.gains.note(column, value, false, down);
        if up_ends || down_ends {
            return Ok(Look::Refuted);
        }
        Ok(Look::Score(score_of(up, down)))
    }

    /// How much the objective may rise before it is past the goal; at least `MARGIN`.
    fn room(&self) -> f64 {
        (self.cutoff - self.simplex.basis.objective).max(MARGIN)
    }

    /// What it gains to fix a column at a value, as far as some steps tell, and whether they show
    /// that no cover is left. It returns to the saved basis and frees the column.
    fn trial(
        &mut self,
        alloc: Global,
        index: usize,
        value: f64,
        saved: Saved,
    ) -> Result<(f64, bool), AllocError> {
        let before = self.simplex.basis.objective;
        let room = self.room();
        self.simplex.fix(index, value);
        self.simplex.is_trial = true;
        let end = self.simplex.optimize(alloc, self.cutoff, TRIAL_STEPS)?;
        self.simplex.is_trial = false;
        let refuted = end == End::Infeasible || end == End::Past;
        let gain = if refuted {
            room
        } else {
            (self.simplex.basis.objective - before).max(0.0).min(room)
        };
        self.simplex.restore(alloc, &self.saved, saved)?;
        self.simplex.set_bounds(index, 0.0, 1.0);
        Ok((gain, refuted))
    }
}
