//! Cuts that make the linear relaxation stronger: those that its fractional covers violate.
//!
//! A vertex of the relaxation has many rows that are tight and many columns of one half, of which
//! {0, 1/2}-cuts are made ([`heuristics::violated_cuts`]). They are made of the rows of the first table, and
//! stay over the search.

use crate::relaxation::Relaxation;
use crate::simplex::{Basis, End, Simplex};
use heuristics::{Goal, violated_cuts};
use number_lists::{Compact, Lists};
use std::alloc::{AllocError, Global};

/// How often cuts are added, at most,
const TIMES: u32 = 20;

/// and only as long as they gain so much, in columns.
const LEAST_GAIN: f64 = 0.02;

impl Relaxation {
    /// Solves the relaxation of the first table, and adds cuts that the fractional cover violates, until they
    /// gain little or show that no cover reaches the goal; leaves out those that are not tight. Where columns
    /// have different costs there are none.
    pub fn strengthen(
        &mut self,
        alloc: Global,
        table: &Compact,
        goal: Goal,
    ) -> Result<(), AllocError> {
        self.solve_first(alloc, goal)?;
        for _ in 0..TIMES {
            if self.end != End::Optimal || self.simplex.is_limited() {
                break;
            }
            let cuts = violated_cuts(alloc, &table.rows, &self.parts(alloc)?)?;
            if cuts.len() == 0 {
                break;
            }
            let before = self.simplex.basis.objective;
            self.add_cuts(alloc, table, &cuts)?;
            self.solve_first(alloc, goal)?;
            if self.simplex.basis.objective - before < LEAST_GAIN {
                break;
            }
        }
        Ok(())
    }

    /// The cuts that are tight, and then the others; and which of those before are.
    fn cuts_with(&self, alloc: Global, more: &Lists) -> Result<(Lists, Vec<bool>), AllocError> {
        let mut cuts = Lists::new(alloc);
        let mut tight: Vec<bool> = Vec::new(alloc);
        for cut in 0..self.cuts.len() {
            let is_tight = self.is_tight(cut);
            tight.push(is_tight)?;
            if is_tight {
                cuts.push_list(self.cuts.list(cut))?;
            }
        }
        for cut in 0..more.len() {
            cuts.push_list(more.list(cut))?;
        }
        Ok((cuts, tight))
    }

    /// Whether a cut is tight.
    fn is_tight(&self, cut: usize) -> bool {
        let row = self.rows.len().saturating_add(cut);
        self.simplex.basis.is_tight(row)
    }

    /// Adds cuts, and leaves out those that are not tight. The basis stays, with the surpluses of the new ones.
    fn add_cuts(&mut self, alloc: Global, table: &Compact, more: &Lists) -> Result<(), AllocError> {
        let (cuts, tight) = self.cuts_with(alloc, more)?;
        let mut simplex = Simplex::new(alloc, table, &cuts)?;
        simplex.begin_from(alloc, &self.simplex, self.rows.len(), &tight)?;
        let no_costs = vec![in alloc; 0.0; self.columns.len()]?;
        self.saved = Basis::new(alloc, simplex.row_count(), &no_costs)?;
        self.simplex = simplex;
        self.cuts = cuts;
        Ok(())
    }
}
