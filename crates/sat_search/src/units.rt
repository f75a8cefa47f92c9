//! Learned clauses of one literal, for the literals of level 0, and the clause without any.
//!
//! With a clause of one literal for each literal of level 0, no other clause repeats what shows it.

use crate::numbers::{NONE, add, at, saturating_u32};
use crate::search::Search;
use std::alloc::AllocError;

impl Search {
    /// Learns, at level 0, for each literal of the trail that has none yet, a clause of that
    /// literal alone, and notes it as the literal's unit.
    pub(crate) fn learn_units(&mut self) -> Result<(), AllocError> {
        let first = self.unit_count;
        self.unit_count = saturating_u32(self.assignment.trail.len());
        for position in first..self.unit_count {
            let literal = at(&self.assignment.trail, position);
            let unit = self.unit_clause_of(literal)?;
            self.assignment.put_unit(literal / 2, unit);
        }
        Ok(())
    }

    // Learns the clause of this literal alone from its reason at level 0, and answers its number;
    // that of the reason itself if it has no other literal.
    fn unit_clause_of(&mut self, literal: u32) -> Result<u32, AllocError> {
        let reason = self.assignment.reason_of(literal / 2);
        if self.clauses.literals_of(reason).len() == 1 {
            return Ok(reason);
        }
        self.analysis.learned.clear();
        add(&mut self.analysis.learned, literal);
        self.learn_at_level_0(literal, reason)
    }

    // Adds the learned clause: `literal`, or no literal if this is [`NONE`], is all that is left of
    // a clause whose other literals are false at level 0. Answers its number.
    fn learn_at_level_0(&mut self, literal: u32, clause: u32) -> Result<u32, AllocError> {
        let literals = self.clauses.literals_of(clause);
        self.analysis
            .collect_unit_hints(literals, &self.assignment, literal, clause);
        self.add_learned()
    }

    /// Learns the clause without literals from one whose literals are all false at level 0, and
    /// notes it: no point is left.
    pub(crate) fn learn_contradiction(&mut self, clause: u32) -> Result<(), AllocError> {
        self.analysis.learned.clear();
        self.contradiction = self.learn_at_level_0(NONE, clause)?;
        Ok(())
    }
}
