//! Minimisation of learned clauses (Soerensson and Biere 2009): a literal is left out if, by the
//! reasons, it follows from other literals of the clause.

use crate::analysis::{Analysis, Mark};
use crate::assignment::Assignment;
use crate::clauses::Clauses;
use crate::numbers::{NONE, at, put, saturating_u32};

impl Analysis {
    /// Leaves out the literals of the learned clause that follow from others of it. The first one
    /// stays.
    pub(crate) fn minimise(&mut self, clauses: &Clauses, assignment: &Assignment) {
        let mut kept: u32 = 1;
        for k in 1..saturating_u32(self.learned.len()) {
            let literal = at(&self.learned, k);
            if self.is_redundant(clauses, assignment, literal / 2) {
                self.change_mark(literal / 2, Mark::Resolved);
            } else {
                put(&mut self.learned, kept, literal);
                kept = kept.saturating_add(1);
            }
        }
        self.learned.truncate(kept as usize);
    }

    // Whether the literal of a variable follows from others that are kept: the reasons are followed
    // down to the kept literals, by a stack.
    fn is_redundant(&mut self, clauses: &Clauses, assignment: &Assignment, first: u32) -> bool {
        let reason = assignment.reason_of(first);
        if reason == NONE {
            return false;
        }
        self.stack.clear();
        self.push_on_stack(first, clauses.literals_begin(reason));
        for _ in 0..u32::MAX {
            let Some((variable, offset)) = self.stack.pop() else {
                return true;
            };
            if offset >= clauses.literals_end(assignment.reason_of(variable)) {
                self.put_mark(variable, Mark::Resolved);
            } else if !self.check_reason_literal(clauses, assignment, variable, offset) {
                self.mark_stack_needed();
                return false;
            }
        }
        false
    }

    // Looks at the literal at an offset in a variable's reason, and puts what is still to be read
    // on the stack. Whether the variable may still follow. A literal's reason need not be read if
    // the literal is known to follow, or is kept, or was set at level 0, which is noted.
    fn check_reason_literal(
        &mut self,
        clauses: &Clauses,
        assignment: &Assignment,
        variable: u32,
        offset: u32,
    ) -> bool {
        self.push_on_stack(variable, offset.saturating_add(1));
        let other = clauses.literal_at(offset) / 2;
        if other == variable {
            return true;
        }
        match self.mark_of(other) {
            Mark::Kept | Mark::Resolved => return true,
            Mark::Needed => return false,
            Mark::Unseen => (),
        }
        let setting = assignment.setting_of(other);
        if setting.level == 0 {
            self.put_mark(other, Mark::Resolved);
        } else if setting.reason == NONE {
            return false;
        } else {
            self.push_on_stack(other, clauses.literals_begin(setting.reason));
        }
        true
    }

    // Empties the stack: of its variables those without a mark are marked as such that do not follow.
    fn mark_stack_needed(&mut self) {
        for _ in 0..self.stack.len() {
            if let Some((variable, _)) = self.stack.pop() {
                self.put_mark(variable, Mark::Needed);
            }
        }
    }
}
