//! The linear relaxation over a search: bounds of its tables, and columns to branch on.
//!
//! A table of the search is the first one with some columns fixed: the taken ones at 1, those that
//! are no longer live at 0. Only rows of the table are active. The steps go on from table to table;
//! where a search returns to a table, a [`BranchBasis`] tells its basis.

use crate::floats::{add_float, float, put_float};
use crate::reliability::PseudoCosts;
use crate::simplex::{Basis, End, NONE, Simplex};
use heuristics::{Cut, Goal, LIKELIEST, Multipliers};
use number_lists::{
    Compact, Lists, UNIT, flag, in_whole_numbers, is_live_part_of, mark, marked, number, set,
};
use std::alloc::{AllocError, Global};
use std::num::{nearest_i64_to_f64, nearest_u64_to_f64, saturating_f64_to_u64};

/// The most rows, beside the limit.
const MOST_ROWS: usize = 2_500;

/// The most columns.
const MOST_COLUMNS: usize = 100_000;

/// The most places, rows times columns.
const MOST_PLACES: usize = 50_000_000;

/// The most steps at a table.
const MOST_STEPS: u32 = 5_000;

/// How far past the goal an objective shows that no cover reaches it, at first.
pub(crate) const MARGIN: f64 = 1e-3;

/// Where the caller found that it does not, the margin grows by this factor,
const MARGIN_FACTOR: f64 = 8.0;

/// up to this, in columns.
const MOST_MARGIN: f64 = 1.0;

/// The multiplier of a column, in whole numbers, is at most about this: it is of 32 bits.
const MOST_COLUMN: f64 = 4294967295.0;

/// A weight of a row that is not in the table is handed over only if it is more than this, which in whole
/// numbers is less than one.
const LEAST_WEIGHT: f64 = 1e-9;

/// A column that was branched on, with what it was like before.
#[derive(Clone, Copy)]
pub(crate) struct Branching {
    /// The index of the column, or `NONE`.
    pub(crate) index: usize,
    /// Its value.
    pub(crate) value: f64,
    /// The objective.
    pub(crate) objective: f64,
}

/// A basis from which a search branched, and to which it returns.
pub struct BranchBasis {
    /// The variable of each position.
    basic: Vec<usize>,
    /// The norm of the row of the inverse at each position.
    norms: Vec<f64>,
    /// For each row whether it was looked at.
    active: Vec<bool>,
    /// The column that was branched on.
    branching: Branching,
}

// Written out, so that where one ends a proof has one call, and not one for each of its lists.
impl Drop for BranchBasis {
    fn drop(self) {
        let BranchBasis {
            basic: _,
            norms: _,
            active: _,
            branching: _,
        } = self;
    }
}

impl BranchBasis {
    /// No basis, for a search without a relaxation.
    pub fn none(alloc: Global) -> BranchBasis {
        BranchBasis {
            basic: Vec::new(alloc),
            norms: Vec::new(alloc),
            active: Vec::new(alloc),
            branching: Branching {
                index: NONE,
                value: 0.0,
                objective: 0.0,
            },
        }
    }
}

/// The linear relaxation of the tables of a search.
pub struct Relaxation {
    /// The relaxation of the present table.
    pub(crate) simplex: Simplex,
    /// The column of each index: the live columns of the first table, in their order.
    pub(crate) columns: Vec<usize>,
    /// The index of each column, or `NONE`.
    indices: Vec<usize>,
    /// The rows of the first table.
    pub(crate) rows: Lists,
    /// Cuts of these rows, each a list of their indices.
    pub(crate) cuts: Lists,
    /// The live columns of the present table.
    live: Vec<bool>,
    /// The taken columns of the present table.
    taken: Vec<bool>,
    /// How much branches on each column gain.
    pub(crate) gains: PseudoCosts,
    /// Where the last column was branched on, and whether it was taken then; its gain is not noted
    /// yet.
    branched: Option<(Branching, bool)>,
    /// The basis to which trials return.
    pub(crate) saved: Basis,
    /// How the last steps ended.
    pub(crate) end: End,
    /// How far past the goal the steps go.
    margin: f64,
    /// The objective past which no cover reaches the goal.
    pub(crate) cutoff: f64,
}

// Written out, so that where one ends a proof has one call, and not one for each of its lists.
impl Drop for Relaxation {
    fn drop(self) {
        let Relaxation {
            simplex: _,
            columns: _,
            indices: _,
            rows: _,
            cuts: _,
            live: _,
            taken: _,
            gains: _,
            branched: _,
            saved: _,
            end: _,
            margin: _,
            cutoff: _,
        } = self;
    }
}

/// Whether a table is small enough for the relaxation.
pub fn is_small_enough(rows: usize, columns: usize) -> bool {
    rows <= MOST_ROWS && columns <= MOST_COLUMNS && rows.saturating_mul(columns) <= MOST_PLACES
}

/// For each column below `columns` its index among the live ones, or `NONE` if it is not live.
fn indices_of(alloc: Global, live: &[usize], columns: usize) -> Result<Vec<usize>, AllocError> {
    let mut indices = vec![in alloc; NONE; columns]?;
    for (index, column) in live.iter().enumerate() {
        set(&mut indices, *column, index);
    }
    Ok(indices)
}

/// Whether all columns of the row are marked.
fn is_marked_throughout(row: &[usize], marks: &[bool]) -> bool {
    for column in row {
        if !flag(marks, *column) {
            return false;
        }
    }
    true
}

/// Whether a column of the list is marked.
fn has_marked(list: &[u32], marks: &[bool]) -> bool {
    for column in list {
        if flag(marks, *column as usize) {
            return true;
        }
    }
    false
}

/// Marks the columns of the list, or clears their marks.
fn mark_each(marks: &mut Vec<bool>, list: &[u32], to: bool) {
    for column in list {
        mark(marks, *column as usize, to);
    }
}

/// The index of the first of the rows whose columns are all marked; the number of rows if there is
/// none.
fn first_inside(rows: &[Vec<usize>], marks: &[bool]) -> usize {
    for (index, row) in rows.iter().enumerate() {
        if is_marked_throughout(row, marks) {
            return index;
        }
    }
    rows.len()
}

/// For each of so many rows of the first table its index in the present one, or `NONE`; `origins` has those
/// of the present one.
fn places_of(alloc: Global, origins: &[usize], rows: usize) -> Result<Vec<usize>, AllocError> {
    let mut places = vec![in alloc; NONE; rows]?;
    for (index, origin) in origins.iter().enumerate() {
        set(&mut places, *origin, index);
    }
    Ok(places)
}

/// What one counts in whole numbers: `UNIT`, or less where this number of them would not fit into 32
/// bits.
fn unit_for(most: f64) -> u32 {
    let unit = nearest_i64_to_f64(UNIT).min(MOST_COLUMN / (most + 1.0));
    u32::try_from(saturating_f64_to_u64(unit))
        .unwrap_or(u32::MAX)
        .max(1)
}

/// The weights times `unit`, rounded down to whole numbers.
fn whole(alloc: Global, weights: &[f64], unit: u32) -> Result<Vec<u64>, AllocError> {
    let factor = nearest_u64_to_f64(u64::from(unit));
    let mut numbers = Vec::with_capacity(alloc, weights.len())?;
    for weight in weights {
        numbers.push(saturating_f64_to_u64(*weight * factor))?;
    }
    Ok(numbers)
}

impl Relaxation {
    /// The relaxation of a table with these rows and live columns, which are below `columns`, and with
    /// these cuts, each a list of its rows, if its columns cost the same; `gains` is what branches on
    /// columns gained so far.
    pub fn new(
        alloc: Global,
        table: &Compact,
        rows: &[Vec<usize>],
        live: &[usize],
        columns: usize,
        cuts: Lists,
        gains: PseudoCosts,
    ) -> Result<Relaxation, AllocError> {
        let simplex = Simplex::new(alloc, table, &cuts)?;
        let no_costs = vec![in alloc; 0.0; live.len()]?;
        Ok(Relaxation {
            saved: Basis::new(alloc, simplex.row_count(), &no_costs)?,
            simplex,
            columns: live.to_vec(alloc)?,
            indices: indices_of(alloc, live, columns)?,
            rows: Lists::of(alloc, rows)?,
            cuts,
            live: vec![in alloc; false; columns]?,
            taken: vec![in alloc; false; columns]?,
            gains,
            branched: None,
            end: End::Spent,
            margin: MARGIN,
            cutoff: 0.0,
        })
    }

    /// What branches on columns gained, for the relaxation of another table with columns of the same
    /// numbers.
    pub fn into_gains(self) -> PseudoCosts {
        let Relaxation {
            simplex: _,
            columns: _,
            indices: _,
            rows: _,
            cuts: _,
            live: _,
            taken: _,
            gains,
            branched: _,
            saved: _,
            end: _,
            margin: _,
            cutoff: _,
        } = self;
        gains
    }

    /// Returns to the first table, from which another search begins. The basis stays as it is.
    pub fn begin_anew(&mut self, alloc: Global) -> Result<(), AllocError> {
        let all = vec![in alloc; true; self.simplex.row_count()]?;
        self.branched = None;
        self.simplex.set_active(&all);
        self.simplex.factor(alloc)
    }

    /// Solves the relaxation of the first table, or stops where its objective shows that no cover reaches the
    /// goal.
    pub(crate) fn solve_first(&mut self, alloc: Global, goal: Goal) -> Result<(), AllocError> {
        let columns = self.columns.to_vec(alloc)?;
        self.look_at(alloc, &columns, &[])?;
        self.solve(alloc, goal)
    }

    /// How much of each column of the first table the fractional cover has, where `LIKELIEST` is all of it.
    pub fn parts(&self, alloc: Global) -> Result<Vec<i64>, AllocError> {
        let mut parts = Vec::with_capacity(alloc, self.columns.len())?;
        for index in 0..self.columns.len() {
            parts.push(self.simplex.value(index).min(1.0))?;
        }
        in_whole_numbers(alloc, &parts, LIKELIEST)
    }

    /// The weight of each row of the first table, and then of each cut; a column is `UNIT`.
    pub fn weights(&self, alloc: Global) -> Result<Vec<i64>, AllocError> {
        in_whole_numbers(alloc, self.simplex.weights(self.end), UNIT)
    }

    /// The rows of each cut.
    pub fn cuts(&self) -> &Lists {
        &self.cuts
    }

    /// Makes the table with these live and these taken columns the present one.
    pub(crate) fn look_at(
        &mut self,
        alloc: Global,
        live: &[usize],
        taken: &[usize],
    ) -> Result<(), AllocError> {
        let columns = self.indices.len();
        self.live = marked(alloc, live, columns)?;
        self.taken = marked(alloc, taken, columns)?;
        Ok(())
    }

    /// Fixes the columns that are not live, at 1 if they are taken and else at 0, and frees the
    /// others; answers how many are taken, and what these cost.
    fn fix_columns(&mut self) -> (i64, f64) {
        let mut ones: i64 = 0;
        let mut cost = 0.0;
        for index in 0..self.columns.len() {
            let column = number(&self.columns, index);
            if flag(&self.live, column) {
                self.simplex.free(index);
            } else if flag(&self.taken, column) {
                ones = ones.saturating_add(1);
                cost += self.simplex.cost(index);
                self.simplex.set_bounds(index, 1.0, 1.0);
            } else {
                self.simplex.set_bounds(index, 0.0, 0.0);
            }
        }
        (ones, cost)
    }

    /// Solves the relaxation of the present table, or stops where its objective shows that no cover
    /// reaches the goal beside the taken columns; notes how the steps ended.
    pub(crate) fn solve(&mut self, alloc: Global, goal: Goal) -> Result<(), AllocError> {
        let (ones, cost) = self.fix_columns();
        let most = nearest_i64_to_f64(goal.columns.saturating_add(ones));
        self.cutoff = if self.simplex.is_limited() {
            self.simplex.set_most(most);
            nearest_i64_to_f64(goal.cost) + cost + self.margin
        } else {
            most + self.margin
        };
        self.simplex.list_open(alloc)?;
        self.simplex.settle();
        self.end = self.simplex.optimize(alloc, self.cutoff, MOST_STEPS)?;
        Ok(())
    }

    /// Widens the margin where the last steps ended past the goal, or without values within the bounds: the
    /// caller branches, so that the weights did not show it.
    pub(crate) fn note_branching(&mut self) {
        if self.end == End::Past || self.end == End::Infeasible {
            self.margin = (self.margin * MARGIN_FACTOR).min(MOST_MARGIN);
        }
    }

    /// The index of the first active row of the first table, from an index on, that this row is the
    /// live part of; the number of rows if there is none.
    fn matching_row(&self, row: &[usize], from: usize) -> usize {
        for index in from..self.rows.len() {
            if self.simplex.is_active(index)
                && is_live_part_of(row, self.rows.list(index), &self.live)
            {
                return index;
            }
        }
        self.rows.len()
    }

    /// For each row the index of the row of the first table that it is the live part of, in rising
    /// order; `NONE` if none is found.
    fn first_rows(&self, alloc: Global, rows: &[Vec<usize>]) -> Result<Vec<usize>, AllocError> {
        let mut origins = vec![in alloc; NONE; rows.len()]?;
        let mut from: usize = 0;
        for (index, row) in rows.iter().enumerate() {
            let origin = self.matching_row(row, from);
            if origin < self.rows.len() {
                set(&mut origins, index, origin);
                from = origin.saturating_add(1);
            }
        }
        Ok(origins)
    }

    /// The multipliers of the table with these live and taken columns: those of the relaxation, solved
    /// until its objective is past the goal. Notes what the last branch gained.
    pub fn multipliers(
        &mut self,
        alloc: Global,
        rows: &[Vec<usize>],
        live: &[usize],
        taken: &[usize],
        goal: Goal,
    ) -> Result<Multipliers, AllocError> {
        self.look_at(alloc, live, taken)?;
        let origins = self.first_rows(alloc, rows)?;
        let mut used = marked(alloc, &origins, self.rows.len())?;
        self.mark_cuts(&mut used)?;
        self.simplex.set_active(&used);
        self.solve(alloc, goal)?;
        self.note_gain();
        let mut weights = self.own_weights(alloc, &origins)?;
        self.hand_over(alloc, rows, &used, &mut weights)?;
        let cuts = self.weighted_cuts(alloc, rows, &origins)?;
        self.in_whole_numbers(alloc, &weights, cuts)
    }

    /// Adds a mark for each cut: all are looked at.
    fn mark_cuts(&self, marks: &mut Vec<bool>) -> Result<(), AllocError> {
        for _ in 0..self.cuts.len() {
            marks.push(true)?;
        }
        Ok(())
    }

    /// These weights of rows, and cuts, with the parts of a column's cost, in whole numbers: where columns
    /// cost the same that is `UNIT`, and else a number for each unit of its cost beside the weight of the
    /// limit.
    fn in_whole_numbers(
        &self,
        alloc: Global,
        weights: &[f64],
        cuts: Vec<Cut>,
    ) -> Result<Multipliers, AllocError> {
        let more = self.simplex.limit_weight(self.end);
        let unit = unit_for(more);
        let weights = whole(alloc, weights, unit)?;
        if !self.simplex.is_limited() {
            return Ok(Multipliers {
                weights,
                cuts,
                column: unit,
                cost: 0,
            });
        }
        let column = saturating_f64_to_u64(more * nearest_u64_to_f64(u64::from(unit)));
        Ok(Multipliers {
            weights,
            cuts,
            column: u32::try_from(column).unwrap_or(u32::MAX),
            cost: unit,
        })
    }

    /// The cuts that have some weight, each by the rows of the present table that stand for its own: the
    /// rows themselves, or the first row inside one that is not in the table. Those with a taken column are
    /// left out: a cut then needs as much less as the column counts there.
    fn weighted_cuts(
        &self,
        alloc: Global,
        rows: &[Vec<usize>],
        origins: &[usize],
    ) -> Result<Vec<Cut>, AllocError> {
        let mut weighted = Vec::new(alloc);
        let factor = nearest_i64_to_f64(UNIT);
        let mut places = Vec::new(alloc);
        for cut in 0..self.cuts.len() {
            let row = self.rows.len().saturating_add(cut);
            let weight = float(self.simplex.weights(self.end), row);
            if weight > LEAST_WEIGHT {
                if places.is_empty() {
                    places = places_of(alloc, origins, self.rows.len())?;
                }
                weighted.push(Cut {
                    rows: self.present_rows(alloc, rows, &places, cut)?,
                    weight: saturating_f64_to_u64(weight * factor),
                })?;
            }
        }
        Ok(weighted)
    }

    /// The rows of the present table that stand for those of a cut.
    fn present_rows(
        &self,
        alloc: Global,
        rows: &[Vec<usize>],
        places: &[usize],
        cut: usize,
    ) -> Result<Vec<usize>, AllocError> {
        let mut present = Vec::new(alloc);
        let mut marks = vec![in alloc; false; self.indices.len()]?;
        for row in self.cuts.list(cut) {
            let row = *row as usize;
            let list = self.rows.list(row);
            let place = number(places, row);
            if place != NONE {
                present.push(place)?;
            } else if !has_marked(list, &self.taken) {
                mark_each(&mut marks, list, true);
                present.push(first_inside(rows, &marks))?;
                mark_each(&mut marks, list, false);
            }
        }
        Ok(present)
    }

    /// The weights of these rows of the first table, at least 0; 0 for `NONE`.
    fn own_weights(&self, alloc: Global, origins: &[usize]) -> Result<Vec<f64>, AllocError> {
        let all = self.simplex.weights(self.end);
        let mut weights = Vec::with_capacity(alloc, origins.len())?;
        for origin in origins {
            weights.push(float(all, *origin).max(0.0))?;
        }
        Ok(weights)
    }

    /// Hands the weights of rows of the first table that are not used over to `weights`, each to
    /// the first of the rows inside it. Those of rows with a taken column, or with no row inside,
    /// are dropped.
    fn hand_over(
        &mut self,
        alloc: Global,
        rows: &[Vec<usize>],
        used: &[bool],
        weights: &mut [f64],
    ) -> Result<(), AllocError> {
        let mut marks = vec![in alloc; false; self.indices.len()]?;
        for index in 0..self.rows.len() {
            let weight = float(self.simplex.weights(self.end), index);
            let list = self.rows.list(index);
            if !flag(used, index) && weight > LEAST_WEIGHT && !has_marked(list, &self.taken) {
                mark_each(&mut marks, list, true);
                add_float(weights, first_inside(rows, &marks), weight);
                mark_each(&mut marks, list, false);
            }
        }
        Ok(())
    }

    /// Notes what the last branch gained, unless this was done already or the steps were spent.
    fn note_gain(&mut self) {
        let Some((branching, taken)) = self.branched else {
            return;
        };
        self.branched = None;
        let room = (self.cutoff - branching.objective).max(MARGIN);
        let gain = match self.end {
            End::Optimal => {
                (self.simplex.basis.objective - branching.objective)
                    .max(0.0)
                    .min(room)
            }
            End::Spent => return,
            _ => room,
        };
        let column = number(&self.columns, branching.index);
        self.gains.note(column, branching.value, taken, gain);
    }

    /// The present basis, from which the search branches on the column, first taking it: the gain that
    /// is noted next is that of this branch.
    pub fn branch(&mut self, alloc: Global, column: usize) -> Result<BranchBasis, AllocError> {
        let index = number(&self.indices, column);
        let branching = Branching {
            index,
            value: self.simplex.value(index),
            objective: self.simplex.basis.objective,
        };
        self.branched = Some((branching, true));
        Ok(BranchBasis {
            basic: self.simplex.basis.basic.to_vec(alloc)?,
            norms: self.simplex.basis.norms.to_vec(alloc)?,
            active: self.simplex.active().to_vec(alloc)?,
            branching,
        })
    }

    /// Returns to the basis from which a search branched; the gain that is noted next is that of the
    /// branch without the column. No column is fixed here: `multipliers` does that by its table.
    pub fn go_back(&mut self, alloc: Global, to: &BranchBasis) -> Result<(), AllocError> {
        self.simplex.set_active(&to.active);
        self.simplex.go_to(alloc, &to.basic, &to.norms)?;
        self.branched = Some((to.branching, false));
        Ok(())
    }
}
