//! Decisions: assumptions come first (Een and Soerensson 2003), then literals of the search's own
//! choice. Also the clause that is learned where an assumption is false.

use crate::analysis::{Analysis, Mark};
use crate::assignment::{Assignment, Value};
use crate::clauses::Clauses;
use crate::numbers::{NONE, add, at, saturating_u32};

/// What comes of a decision.
#[derive(Clone, Copy)]
pub(crate) enum Decision {
    /// A literal was set.
    Made,
    /// This literal is true, and an assumption says that it is false.
    Failed(u32),
    /// All literals are set.
    Full,
}

impl Assignment {
    /// Decides the next literal: an assumption that is unset, else one of its own choice. An
    /// assumption before it that is true already gets a level without a literal.
    pub(crate) fn decide(&mut self, assumptions: &[u32]) -> Decision {
        for k in self.current_level()..assumptions.len() {
            let literal = assumptions[k];
            match self.value(literal) {
                Value::False => return Decision::Failed(literal ^ 1),
                Value::True => self.begin_level(),
                Value::Unset => return self.set_decision(literal),
            }
        }
        match self.branching_literal() {
            None => Decision::Full,
            Some(literal) => self.set_decision(literal),
        }
    }

    // Begins a level with a literal.
    fn set_decision(&mut self, literal: u32) -> Decision {
        self.begin_level();
        self.set(literal, NONE);
        Decision::Made
    }

    // Takes variables out of the order up to the most active unset one, and answers its literal
    // with the sign that it had last; `None` if all are set.
    fn branching_literal(&mut self) -> Option<u32> {
        for _ in 0..=self.variables() {
            let Some(variable) = self.order.pop() else {
                break;
            };
            let literal = variable.saturating_mul(2);
            if self.value(literal) == Value::Unset {
                return Some(literal.saturating_add(self.phase_of(variable) as u32));
            }
        }
        None
    }

    // Whether a variable was false when it was set last, or is to be tried as false; `false` past
    // the end.
    fn phase_of(&self, variable: u32) -> bool {
        match self.phases.get(variable as usize) {
            Some(phase) => *phase,
            None => false,
        }
    }
}

impl Analysis {
    /// Puts a clause in `learned`, and what shows it in `hints`: `failed`, which another assumption
    /// says is false, and the negations of the assumptions from which it comes that `failed` is
    /// true.
    pub(crate) fn analyse_failed_assumption(
        &mut self,
        clauses: &Clauses,
        assignment: &Assignment,
        failed: u32,
    ) {
        self.learned.clear();
        add(&mut self.learned, failed);
        self.put_mark(failed / 2, Mark::Resolved);
        for position in (0..saturating_u32(assignment.trail.len())).rev() {
            let literal = at(&assignment.trail, position);
            if self.mark_of(literal / 2) == Mark::Resolved {
                self.trace_literal(clauses, assignment, failed, literal);
            }
        }
        self.collect_hints(assignment, NONE);
    }

    // Goes on to where a literal comes from: nowhere at level 0, the literals of its reason, which
    // are marked, or a decision, whose negation goes into the learned clause.
    fn trace_literal(
        &mut self,
        clauses: &Clauses,
        assignment: &Assignment,
        failed: u32,
        literal: u32,
    ) {
        let setting = assignment.setting_of(literal / 2);
        if setting.level == 0 {
            return;
        }
        if setting.reason != NONE {
            self.mark_resolved(clauses.literals_of(setting.reason));
            return;
        }
        self.change_mark(literal / 2, Mark::Kept);
        if literal ^ 1 != failed {
            add(&mut self.learned, literal ^ 1);
        }
    }

    // Marks the variables of a reason to be traced.
    fn mark_resolved(&mut self, literals: &[u32]) {
        for literal in literals {
            self.put_mark(*literal / 2, Mark::Resolved);
        }
    }
}
