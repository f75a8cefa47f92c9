//! The search: its state, its nogoods, and the loop of propagation, conflicts and decisions that
//! answers a question.

use crate::analysis::Analysis;
use crate::assignment::{Assignment, Value};
use crate::clauses::Clauses;
use crate::decisions::Decision;
use crate::numbers::{NONE, at, saturating_u32};
use crate::refutation::Refutation;
use crate::restarts::Pace;
use crate::walk::Walks;
use crate::watches::Watches;
use std::alloc::{AllocError, Global};

/// What a search answers.
#[derive(Drop)]
pub enum Answer {
    /// The literals of all variables, in any order, at a point at which all assumptions are true
    /// and no nogood is.
    Point(Vec<u32>),
    /// The assumptions forbid each point that the nogoods leave.
    Refutation(Refutation),
    /// Nothing within the limits.
    Unknown,
}

/// How much a question may cost.
#[derive(Clone, Copy)]
pub struct Limits {
    /// How many watches may be looked at, and clauses in walks.
    pub steps: u64,
    /// How many numbers the search may keep of all clauses, with those of earlier questions.
    pub size: usize,
}

/// Nogoods, what was learned of them, and what is set.
///
/// It keeps what it learned as long as it lives, since that is what shows what it learns later. A
/// number is of four bytes, and a clause has thirteen beside its literals and hints; [`Limits`]
/// says how many there may be. Beyond those it keeps some twenty numbers for each variable, room to
/// grow, which is no more than it has filled, while clauses are dropped three numbers for each, and
/// while it walks two for each literal of the nogoods, four for each nogood and six for each
/// variable.
pub struct Search {
    pub(crate) alloc: Global,
    pub(crate) clauses: Clauses,
    pub(crate) watches: Watches,
    pub(crate) assignment: Assignment,
    // How many literals of the trail have a clause of one literal: the first ones.
    pub(crate) unit_count: u32,
    pub(crate) analysis: Analysis,
    // The clause without a literal, once there is one.
    pub(crate) contradiction: u32,
    pub(crate) pace: Pace,
    // When the next walk is due.
    pub(crate) walks: Walks,
    // How many watches were looked at, and clauses in walks.
    pub(crate) steps: u64,
}

// Written out, so that where a search ends a proof has one call, and not one for each of its lists.
impl Drop for Search {
    fn drop(self) {
        let Search {
            alloc: _,
            clauses: _,
            watches: _,
            assignment: _,
            unit_count: _,
            analysis: _,
            contradiction: _,
            pace: _,
            walks: _,
            steps: _,
        } = self;
    }
}

impl Search {
    /// A search over this many variables, without nogoods.
    pub fn new(alloc: Global, variables: usize) -> Result<Search, AllocError> {
        let mut search = Search {
            alloc,
            watches: Watches::new(alloc),
            assignment: Assignment::new(alloc),
            clauses: Clauses::new(alloc),
            unit_count: 0,
            analysis: Analysis::new(alloc),
            contradiction: NONE,
            pace: Pace::new(),
            walks: Walks::new(),
            steps: 0,
        };
        search.watches.make_room(alloc, variables)?;
        search.assignment.make_room(variables)?;
        search.analysis.make_room(variables)?;
        Ok(search)
    }

    /// Adds a nogood under a name, which is below `u32::MAX - 1`, before `begin` is called. Its
    /// variables are below the number of variables, and no two of them are equal.
    pub fn add_nogood(&mut self, literals: &[u32], name: u32) -> Result<(), AllocError> {
        self.assignment.order.count_occurrences(literals);
        self.analysis.put_negated(literals)?;
        let clause = self.clauses.push(&self.analysis.learned, 0, name)?;
        self.watches.watch_first_two(&self.clauses, clause)
    }

    /// Prepares the first question, once all nogoods are there.
    pub fn begin(&mut self) -> Result<(), AllocError> {
        self.clauses.given = self.clauses.len();
        self.pace.schedule_drop(self.clauses.given, 0);
        for variable in 0..saturating_u32(self.assignment.variables()) {
            self.assignment.order.insert(variable);
            self.choose_first_phase(variable);
        }
        for clause in 0..self.clauses.given {
            let count = self.clauses.literals_of(clause).len();
            if count == 0 {
                self.contradiction = clause;
            }
            if count == 1 {
                self.set_given_unit(clause)?;
            }
        }
        Ok(())
    }

    // The literal of a variable that is in more clauses is tried first. The other one came to
    // fewer conflicts on pigeonholes, and took twenty times as long to find one point at which two
    // lists of 300 inputs differ.
    fn choose_first_phase(&mut self, variable: u32) {
        let literal = variable.saturating_mul(2);
        let negated = self.watches.count_of(literal) < self.watches.count_of(literal ^ 1);
        self.assignment.put_phase(variable, negated);
    }

    // Sets the literal of a given clause of one literal, and learns what follows: units, or, if the
    // literal is false already, that no point is left.
    fn set_given_unit(&mut self, clause: u32) -> Result<(), AllocError> {
        let literal = at(self.clauses.literals_of(clause), 0);
        match self.assignment.value(literal) {
            Value::True => (),
            Value::False => {
                if self.contradiction == NONE {
                    self.learn_contradiction(clause)?;
                }
            }
            Value::Unset => {
                self.assignment.set(literal, clause);
                self.learn_units()?;
            }
        }
        Ok(())
    }

    /// How many numbers the search keeps of all clauses: their literals, hints and watches, and
    /// what else is kept of each. [`Limits::size`] bounds it.
    pub fn size(&self) -> usize {
        self.clauses.size()
    }

    /// Looks for a point at which all assumptions are true and no nogood is. The first nogood of a
    /// refutation gets this name, and each further one the next number.
    pub fn ask(
        &mut self,
        assumptions: &[u32],
        limits: Limits,
        name: u32,
    ) -> Result<Answer, AllocError> {
        self.assignment.backjump(0);
        let last = self.steps.saturating_add(limits.steps);
        for _ in 0..u64::MAX {
            if self.contradiction != NONE {
                let goal = self.contradiction;
                return self.clauses.refutation_of(self.alloc, goal, name);
            }
            let conflict = self.propagate()?;
            if conflict != NONE {
                self.handle_conflict(conflict)?;
                continue;
            }
            if self.assignment.current_level() == 0 {
                self.learn_units()?;
            }
            self.restart_if_due()?;
            if self.steps > last || self.clauses.size() > limits.size {
                break;
            }
            if let Some(answer) = self.walk_or_decide(assumptions, name)? {
                return Ok(answer);
            }
        }
        Ok(Answer::Unknown)
    }

    // Walks if that is due, and decides a literal unless a point is found; answers what ends the
    // question, `None` if it goes on.
    fn walk_or_decide(
        &mut self,
        assumptions: &[u32],
        name: u32,
    ) -> Result<Option<Answer>, AllocError> {
        if let Some(point) = self.walk(assumptions)? {
            return Ok(Some(Answer::Point(point)));
        }
        match self.assignment.decide(assumptions) {
            Decision::Made => Ok(None),
            Decision::Full => {
                let point = self.assignment.trail.to_vec(self.alloc)?;
                Ok(Some(Answer::Point(point)))
            }
            Decision::Failed(literal) => {
                self.analysis
                    .analyse_failed_assumption(&self.clauses, &self.assignment, literal);
                let clause = self.add_learned()?;
                let answer = self.clauses.refutation_of(self.alloc, clause, name)?;
                Ok(Some(answer))
            }
        }
    }

    // Learns from a clause that is false; at level 0, that no point is left.
    fn handle_conflict(&mut self, conflict: u32) -> Result<(), AllocError> {
        self.pace.count_conflict();
        if self.assignment.current_level() == 0 {
            self.learn_units()?;
            self.learn_contradiction(conflict)
        } else {
            self.learn_from_conflict(conflict)
        }
    }

    // Adds the learned clause with its hints, and answers its number.
    pub(crate) fn add_learned(&mut self) -> Result<u32, AllocError> {
        let conflicts = self.pace.conflict_count();
        self.clauses
            .push_learned(&self.analysis.learned, &self.analysis.hints, conflicts)
    }
}
