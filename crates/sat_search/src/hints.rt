//! Hints: the clauses that show a learned one. Where the learned clause is false, each hint, after
//! the hints before it, has one literal that is not false yet, and the last has none (Cruz-Filipe
//! et al. 2017).
//!
//! The hints are the reasons of all variables that were resolved on or left out, in the order of
//! the trail. Literals of level 0 have clauses of one literal (units), so that no clause repeats
//! the hints of these.

use crate::analysis::{Analysis, Mark};
use crate::assignment::Assignment;
use crate::numbers::{NONE, add, at, saturating_u32};

impl Analysis {
    /// Collects the hints of the learned clause: units, then the reasons in the order of the trail,
    /// and then the clause that was false, if there was one. Forgets the marks.
    pub(crate) fn collect_hints(&mut self, assignment: &Assignment, conflict: u32) {
        self.hints.clear();
        self.stack.clear();
        for k in 0..saturating_u32(self.marked.len()) {
            let variable = at(&self.marked, k);
            if self.mark_of(variable) == Mark::Resolved {
                let setting = assignment.setting_of(variable);
                if setting.level == 0 {
                    add(&mut self.hints, setting.unit);
                } else {
                    self.push_on_stack(setting.position, setting.reason);
                }
            }
        }
        self.clear_marks();
        self.stack.sort_unstable();
        self.push_reasons();
        if conflict != NONE {
            add(&mut self.hints, conflict);
        }
    }

    // Adds the reasons, each beside its position in the trail, as hints.
    fn push_reasons(&mut self) {
        for (_, reason) in &self.stack {
            add(&mut self.hints, *reason);
        }
    }

    /// Collects the hints of what is left of a clause of these literals: the units of the negations
    /// of all but `literal`, which are false at level 0, and the clause last.
    pub(crate) fn collect_unit_hints(
        &mut self,
        literals: &[u32],
        assignment: &Assignment,
        literal: u32,
        clause: u32,
    ) {
        self.hints.clear();
        for other in literals {
            if *other != literal {
                add(&mut self.hints, assignment.setting_of(*other / 2).unit);
            }
        }
        add(&mut self.hints, clause);
    }
}
