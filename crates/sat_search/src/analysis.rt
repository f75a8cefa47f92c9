//! Analysis of conflicts: from a clause that is false, the clause at the first unique implication
//! point (UIP) of the current decision level (Marques-Silva and Sakallah 1996). Of the new
//! clause, and of those that have a part in the conflict, it notes at how many levels their literals were
//! set: the distance by which `clauses` drops them.

use crate::assignment::Assignment;
use crate::clauses::Clauses;
use crate::numbers::{NONE, add, at, put, saturating_u32};
use crate::search::Search;
use std::alloc::{AllocError, Global};

/// What is known of a variable while a clause is learned.
#[derive(Clone, Copy, PartialEq)]
pub(crate) enum Mark {
    /// Nothing.
    Unseen,
    /// A literal of it is in the new clause.
    Kept,
    /// It is resolved on, or follows from others that are kept: in each case by its reason, or by
    /// its unit if it was set at level 0.
    Resolved,
    /// Its literal does not follow from the kept ones.
    Needed,
}

/// The clause that is being learned.
#[derive(Drop)]
pub(crate) struct Analysis {
    /// Its literals, first the one that it will set.
    pub(crate) learned: Vec<u32>,
    /// The clauses that show it.
    pub(crate) hints: Vec<u32>,
    // By variable: what is known of it.
    marks: Vec<Mark>,
    /// The variables that have a mark.
    pub(crate) marked: Vec<u32>,
    /// The variables whose reasons are being read, each with the offset of the next literal to
    /// read; and later the reasons that are hints, each after its position in the trail.
    pub(crate) stack: Vec<(u32, u32)>,
    // By level: the stamp of the last clause for which it was counted.
    level_stamps: Vec<u32>,
    stamp: u32,
}

impl Analysis {
    /// No variables, and no clause.
    pub(crate) fn new(alloc: Global) -> Analysis {
        Analysis {
            learned: Vec::new(alloc),
            hints: Vec::new(alloc),
            marks: Vec::new(alloc),
            marked: Vec::new(alloc),
            stack: Vec::new(alloc),
            level_stamps: Vec::new(alloc),
            stamp: 0,
        }
    }

    /// Makes room for this many variables.
    pub(crate) fn make_room(&mut self, variables: usize) -> Result<(), AllocError> {
        let room = variables.saturating_add(1);
        self.learned.reserve(room)?;
        self.hints.reserve(room)?;
        self.marks.resize(variables, Mark::Unseen)?;
        self.marked.reserve(room)?;
        self.stack.reserve(room)?;
        self.level_stamps.resize(room.saturating_mul(2), 0)
    }

    /// Takes the negations of these literals for the learned clause.
    pub(crate) fn put_negated(&mut self, literals: &[u32]) -> Result<(), AllocError> {
        self.learned.clear();
        for literal in literals {
            self.learned.push(*literal ^ 1)?;
        }
        Ok(())
    }

    /// What is known of a variable.
    pub(crate) fn mark_of(&self, variable: u32) -> Mark {
        let index = variable as usize;
        if index < self.marks.len() {
            self.marks[index]
        } else {
            Mark::Unseen
        }
    }

    /// Marks a variable, if it has no mark yet.
    pub(crate) fn put_mark(&mut self, variable: u32, mark: Mark) {
        if self.mark_of(variable) == Mark::Unseen {
            add(&mut self.marked, variable);
            self.change_mark(variable, mark);
        }
    }

    /// Sets the mark of a variable that has one already.
    pub(crate) fn change_mark(&mut self, variable: u32, mark: Mark) {
        let index = variable as usize;
        if index < self.marks.len() {
            self.marks[index] = mark;
        }
    }

    /// Puts a pair on the stack: a variable and a place in its reason, or a place and a reason. It is
    /// dropped if there is no room, as what it is for is a hint.
    pub(crate) fn push_on_stack(&mut self, one: u32, other: u32) {
        let _ = self.stack.push((one, other));
    }

    /// Forgets all marks.
    pub(crate) fn clear_marks(&mut self) {
        for k in 0..saturating_u32(self.marked.len()) {
            let variable = at(&self.marked, k);
            self.change_mark(variable, Mark::Unseen);
        }
        self.marked.clear();
    }

    /// Learns a clause from `conflict`, one that is false, after so many `conflicts`: its literals,
    /// of which those at the first two indices are to be watched, and its hints. Answers the level
    /// to go back to, 0 if it has one literal.
    fn analyse(
        &mut self,
        clauses: &mut Clauses,
        assignment: &mut Assignment,
        conflict: u32,
        conflicts: u32,
    ) -> u32 {
        self.resolve_to_first_uip(clauses, assignment, conflict, conflicts);
        self.minimise(clauses, assignment);
        self.collect_hints(assignment, conflict);
        self.put_backjump_literal_second(assignment)
    }

    // Resolves a clause that is false with reasons of its literals, the last one first, until it
    // has one literal of the current level.
    fn resolve_to_first_uip(
        &mut self,
        clauses: &mut Clauses,
        assignment: &mut Assignment,
        conflict: u32,
        conflicts: u32,
    ) {
        self.learned.clear();
        add(&mut self.learned, NONE);
        let mut unresolved: u32 = 0;
        let mut clause = conflict;
        let mut position = saturating_u32(assignment.trail.len());
        for _ in 0..=position {
            self.note_use(clauses, assignment, clause, conflicts);
            let more = self.resolve_with(clauses.literals_of(clause), assignment);
            unresolved = unresolved.saturating_add(more).saturating_sub(1);
            position = self.last_resolved_before(&assignment.trail, position);
            let literal = at(&assignment.trail, position);
            if unresolved == 0 {
                self.change_mark(literal / 2, Mark::Kept);
                put(&mut self.learned, 0, literal ^ 1);
                break;
            }
            clause = assignment.reason_of(literal / 2);
        }
    }

    // Adds the literals of a clause to the resolvent, and answers how many new ones were set at the
    // current level.
    fn resolve_with(&mut self, literals: &[u32], assignment: &mut Assignment) -> u32 {
        let mut count: u32 = 0;
        for literal in literals {
            if self.mark_of(*literal / 2) == Mark::Unseen
                && self.add_to_resolvent(*literal, assignment)
            {
                count = count.saturating_add(1);
            }
        }
        count
    }

    // Adds a literal without a mark to the resolvent. Whether it was set at the current level, and
    // so will be resolved on, unless it is the last.
    fn add_to_resolvent(&mut self, literal: u32, assignment: &mut Assignment) -> bool {
        let variable = literal / 2;
        let level = assignment.level_of(variable);
        if level == 0 {
            self.put_mark(variable, Mark::Resolved);
            return false;
        }
        assignment.order.bump(variable);
        if level == saturating_u32(assignment.current_level()) {
            self.put_mark(variable, Mark::Resolved);
            return true;
        }
        self.put_mark(variable, Mark::Kept);
        add(&mut self.learned, literal);
        false
    }

    // The position of the last literal of the trail before this position that is to be resolved on;
    // 0 if there is none.
    fn last_resolved_before(&self, trail: &[u32], position: u32) -> u32 {
        for before in (0..position).rev() {
            if self.mark_of(at(trail, before) / 2) == Mark::Resolved {
                return before;
            }
        }
        0
    }

    // Notes that a clause had a part in a conflict. Its literals may be at fewer levels than
    // before: then its distance is lowered.
    fn note_use(
        &mut self,
        clauses: &mut Clauses,
        assignment: &Assignment,
        clause: u32,
        conflicts: u32,
    ) {
        clauses.put_last_use(clause, conflicts);
        let before = clauses.record_of(clause).distance;
        if clause >= clauses.given && before > 2 {
            self.note_distance(clauses, assignment, clause, before);
        }
    }

    // Notes the literal block distance of a clause: at how many levels its literals were set, but
    // this many at most.
    fn note_distance(
        &mut self,
        clauses: &mut Clauses,
        assignment: &Assignment,
        clause: u32,
        most: u32,
    ) {
        self.stamp = self.stamp.wrapping_add(1);
        let mut distance: u32 = 0;
        for literal in clauses.literals_of(clause) {
            let level = assignment.level_of(*literal / 2);
            if at(&self.level_stamps, level) != self.stamp {
                put(&mut self.level_stamps, level, self.stamp);
                distance = distance.saturating_add(1);
            }
        }
        clauses.put_distance(clause, distance.min(most));
    }

    // Puts a literal of the highest level below the current one at index 1 of the learned clause,
    // where it is watched, and answers its level: the one to go back to, 0 if there is no second
    // literal.
    fn put_backjump_literal_second(&mut self, assignment: &Assignment) -> u32 {
        let mut highest: u32 = 0;
        for k in 1..saturating_u32(self.learned.len()) {
            let literal = at(&self.learned, k);
            let level = assignment.level_of(literal / 2);
            if level > highest {
                highest = level;
                let second = at(&self.learned, 1);
                put(&mut self.learned, 1, literal);
                put(&mut self.learned, k, second);
            }
        }
        highest
    }
}

impl Search {
    /// Learns a clause from one that is false, goes back to an earlier level, and sets the literal
    /// that the learned clause leaves.
    pub(crate) fn learn_from_conflict(&mut self, conflict: u32) -> Result<(), AllocError> {
        let level = self.analysis.analyse(
            &mut self.clauses,
            &mut self.assignment,
            conflict,
            self.pace.conflict_count(),
        );
        let clause = self.add_learned()?;
        self.analysis
            .note_distance(&mut self.clauses, &self.assignment, clause, NONE);
        self.assignment.backjump(level as usize);
        if self.analysis.learned.len() > 1 {
            self.watches.watch_first_two(&self.clauses, clause)?;
            self.clauses.allow_dropping(clause)?;
        }
        self.assignment.set(at(&self.analysis.learned, 0), clause);
        self.assignment.order.decay();
        Ok(())
    }
}
