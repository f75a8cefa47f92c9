//! Where tables of a search are bounded by their linear relaxation: when it is wanted, the cuts that make it
//! stronger, and columns to branch on.

use super::WarmStart;
use crate::cuts::Cuts;
use heuristics::{Goal, LIKELIEST};
use number_lists::{Compact, Lists, at};
use relaxation::{BranchBasis, PseudoCosts, Relaxation, is_small_enough};
use std::alloc::{AllocError, Global};
use std::mem::replace;

/// A search looks at so many tables before it is begun anew with the linear relaxation,
const QUICK_TABLES: u64 = 200;

/// and at so many once another one was.
const QUICK_TABLES_ONCE_HARD: u64 = 2;

/// Where columns have different costs it looks at so many,
const QUICK_TABLES_BY_COST: u64 = 100;

/// and at so many once another search was hard;
const QUICK_TABLES_BY_COST_ONCE_HARD: u64 = 40;

/// but at no fewer than the square of the number of rows, divided by this.
const SQUARE_OF_ROWS: u64 = 4_000;

/// A column is branched on where its part of a fractional cover is so far from 0 and from 1.
const LEAST_FRACTION: i64 = LIKELIEST / 10;

/// The live column of which a fractional cover has a part nearest to one half; `None` if each is nearly 0
/// or 1.
fn most_fractional(likely: &[i64], live: &[usize]) -> Option<usize> {
    let mut found = None;
    let mut most = LEAST_FRACTION;
    for column in live {
        let part = at(likely, *column);
        let fraction = part.min(LIKELIEST.wrapping_sub(part));
        if fraction > most {
            most = fraction;
            found = Some(*column);
        }
    }
    found
}

impl WarmStart {
    /// How many tables a search looks at before it is begun anew with the linear relaxation of its
    /// first one, which has so many rows and columns; `u64::MAX` if that is too large for it.
    pub fn quick_tables(&self, rows: usize, columns: usize) -> u64 {
        if !is_small_enough(rows, columns) {
            u64::MAX
        } else if self.hard {
            QUICK_TABLES_ONCE_HARD
        } else {
            QUICK_TABLES
        }
    }

    /// The same where columns have different costs. The relaxation then bounds far better than
    /// subgradient steps do, but the more rows there are the longer it takes.
    pub fn quick_tables_by_cost(&self, rows: usize, columns: usize) -> u64 {
        if !is_small_enough(rows, columns) {
            return u64::MAX;
        }
        let least = if self.hard {
            QUICK_TABLES_BY_COST_ONCE_HARD
        } else {
            QUICK_TABLES_BY_COST
        };
        least.max(rows.saturating_mul(rows) as u64 / SQUARE_OF_ROWS)
    }

    /// From now on tables are bounded by their linear relaxation, with cuts. This is the first; the
    /// arguments are those of `multipliers`. If they are bounded so already, it was the first of the search
    /// before.
    pub fn relax(
        &mut self,
        alloc: Global,
        table: &Compact,
        live: &[usize],
        rows: &[Vec<usize>],
        columns: usize,
        goal: Goal,
    ) -> Result<(), AllocError> {
        self.hard = true;
        if let Some(relaxation) = &mut self.relaxation {
            return relaxation.begin_anew(alloc);
        }
        let numbers = self.row_ids(alloc, rows, live, columns)?;
        let cuts = self.cuts_of_rows(alloc, table, &numbers)?;
        let gains = match self.gains.take() {
            Some(gains) => gains,
            None => PseudoCosts::new(alloc, columns)?,
        };
        let mut relaxation = Relaxation::new(alloc, table, rows, live, columns, cuts, gains)?;
        if !table.is_uneven() {
            relaxation.strengthen(alloc, table, goal)?;
            self.remember_cuts(alloc, live, rows, columns, &numbers, &relaxation)?;
        }
        self.relaxation = Some(relaxation);
        Ok(())
    }

    /// The remembered cuts of the rows with these numbers, each a list of rows; none where columns have
    /// different costs.
    fn cuts_of_rows(
        &self,
        alloc: Global,
        table: &Compact,
        numbers: &[usize],
    ) -> Result<Lists, AllocError> {
        if table.is_uneven() {
            return Ok(Lists::new(alloc));
        }
        self.cuts
            .among(alloc, numbers, self.weights.len(), &mut Vec::new(alloc))
    }

    /// Remembers the cuts of the relaxation, if there are some, with the weights and the fractional cover to
    /// which they belong; the arguments are those of `multipliers`, and the numbers of the rows.
    fn remember_cuts(
        &mut self,
        alloc: Global,
        live: &[usize],
        rows: &[Vec<usize>],
        columns: usize,
        numbers: &[usize],
        relaxation: &Relaxation,
    ) -> Result<(), AllocError> {
        if relaxation.cuts().len() > 0 {
            self.fractional = true;
            self.keep_likely(alloc, live, &relaxation.parts(alloc)?, columns)?;
            let weights = relaxation.weights(alloc)?;
            self.remember_steps(alloc, rows, numbers, relaxation.cuts(), weights)?;
        }
        Ok(())
    }

    /// Takes over the cuts of a question, with the rows, their weights and the fractional cover to which they
    /// belong, where there are none yet.
    pub fn take_first_cuts(&mut self, alloc: Global, from: &mut WarmStart) {
        if !self.cuts.is_empty() || from.cuts.is_empty() {
            return;
        }
        self.cuts = replace(&mut from.cuts, Cuts::new(alloc));
        self.rows = replace(&mut from.rows, Lists::new(alloc));
        self.numbers = replace(&mut from.numbers, Vec::new(alloc));
        self.weights = replace(&mut from.weights, Vec::new(alloc));
        self.likely = replace(&mut from.likely, Vec::new(alloc));
        self.fractional = from.fractional;
    }

    /// Gives the relaxation up, but for what branches gained.
    pub fn stop_relaxing(&mut self) {
        if let Some(relaxation) = self.relaxation.take() {
            self.gains = Some(relaxation.into_gains());
        }
    }

    /// Whether tables are bounded by their linear relaxation.
    pub fn is_relaxing(&self) -> bool {
        self.relaxation.is_some()
    }

    /// Takes over what branches gained. It is handed from question to question of one table, whose
    /// columns keep their numbers, and is not copied.
    pub fn take_gains(&mut self, from: &mut WarmStart) {
        self.gains = from.gains.take();
    }

    /// Takes over what branches gained in another table, of which these are the live columns, each by its
    /// index.
    pub fn take_gains_at(
        &mut self,
        alloc: Global,
        from: &WarmStart,
        live: &[usize],
    ) -> Result<(), AllocError> {
        if let Some(gains) = &from.gains {
            self.gains = Some(gains.at(alloc, live)?);
        }
        Ok(())
    }

    /// Takes back what branches gained in a table with only these columns, each by its index; the columns
    /// are below `columns`.
    pub fn take_gains_back(
        &mut self,
        alloc: Global,
        from: &WarmStart,
        live: &[usize],
        columns: usize,
    ) -> Result<(), AllocError> {
        let Some(gained) = &from.gains else {
            return Ok(());
        };
        let mut gains = match self.gains.take() {
            Some(gains) => gains,
            None => PseudoCosts::new(alloc, columns)?,
        };
        gains.take(live, gained);
        self.gains = Some(gains);
        Ok(())
    }

    /// Takes the relaxation over from another, which is left without one; drops its own.
    pub fn take_relaxation(&mut self, from: &mut WarmStart) {
        self.relaxation = from.relaxation.take();
    }

    /// A column to branch on, if the relaxation of the table with these live and taken columns tells
    /// one, or the last fractional cover; it may be none of them.
    pub fn branching_column(
        &mut self,
        alloc: Global,
        live: &[usize],
        taken: &[usize],
        goal: Goal,
    ) -> Result<Option<usize>, AllocError> {
        match &mut self.relaxation {
            None if self.fractional => Ok(most_fractional(&self.likely, live)),
            None => Ok(None),
            Some(relaxation) => relaxation.branching_column(alloc, live, taken, goal),
        }
    }

    /// The basis of the relaxation, for `go_back`; no basis if there is no relaxation. The column, which
    /// a search branches on and first takes, is noted for what that gains; the basis stays as it is.
    pub fn branch(&mut self, alloc: Global, column: usize) -> Result<BranchBasis, AllocError> {
        match &mut self.relaxation {
            None => Ok(BranchBasis::none(alloc)),
            Some(relaxation) => relaxation.branch(alloc, column),
        }
    }

    /// Returns the relaxation, if there is one, to the basis from which a search branched, to go on
    /// without the column.
    pub fn go_back(&mut self, alloc: Global, to: BranchBasis) -> Result<(), AllocError> {
        match &mut self.relaxation {
            None => Ok(()),
            Some(relaxation) => relaxation.go_back(alloc, &to),
        }
    }
}
