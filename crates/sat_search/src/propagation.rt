//! Propagation by watched literals (Moskewicz et al. 2001).
//!
//! The first two literals of a clause are watched. While neither is false, or one is true, it sets
//! nothing; so it is looked at only when a watched literal becomes false, and then watches another
//! one if it can. Nothing has to be mended when literals are taken back.

use crate::assignment::{Assignment, Value};
use crate::clauses::Clauses;
use crate::numbers::NONE;
use crate::search::Search;
use crate::watches::{Watch, Watches};
use std::alloc::AllocError;

// What a look at a clause finds. Each has the literal that is watched and not the one that is false
// now: the first of the clause.
#[derive(Clone, Copy)]
enum Finding {
    // That literal is true.
    True(u32),
    // The second literal here is watched now instead of the false one.
    Moved(u32, u32),
    // All other literals are false.
    Last(u32),
}

// Finds a clause another literal to watch instead of one that is false now, unless its other
// watched literal is true. The watched literals are the first two.
fn find_watch(assignment: &Assignment, literals: &mut [u32], failed: u32) -> Finding {
    if literals.len() < 2 {
        return Finding::True(NONE);
    }
    if literals[0] == failed {
        literals[0] = literals[1];
        literals[1] = failed;
    }
    let first = literals[0];
    if assignment.value(first) == Value::True {
        return Finding::True(first);
    }
    for k in 2..literals.len() {
        let literal = literals[k];
        if assignment.value(literal) != Value::False {
            literals[1] = literal;
            literals[k] = failed;
            return Finding::Moved(first, literal);
        }
    }
    Finding::Last(first)
}

// Puts a watch at an index of a list; does nothing past the end.
fn put_watch(watches: &mut Vec<Watch>, index: usize, watch: Watch) {
    if index < watches.len() {
        watches[index] = watch;
    }
}

// Sets a literal, as all others of the clause at this offset are false; answers the clause if the
// literal is false too, and [`NONE`] else.
fn set_or_conflict(
    clauses: &Clauses,
    assignment: &mut Assignment,
    literal: u32,
    offset: u32,
) -> u32 {
    let clause = clauses.clause_at(offset);
    if assignment.value(literal) == Value::False {
        return clause;
    }
    assignment.set(literal, clause);
    NONE
}

impl Watches {
    // Looks at the clauses that watch a literal that is false now, sets what follows, and answers a
    // clause that is false, or [`NONE`]. Of the watches those stay that were not moved.
    fn visit(
        &mut self,
        clauses: &mut Clauses,
        assignment: &mut Assignment,
        failed: u32,
        watches: &mut Vec<Watch>,
    ) -> Result<u32, AllocError> {
        let mut conflict = NONE;
        let mut kept: usize = 0;
        for k in 0..watches.len() {
            let Some(found) = watches.get(k) else {
                break;
            };
            let mut watch = *found;
            if conflict == NONE && assignment.value(watch.blocker) != Value::True {
                match find_watch(assignment, clauses.literals_at(watch.offset), failed) {
                    Finding::True(first) => watch.blocker = first,
                    Finding::Moved(first, second) => {
                        watch.blocker = first;
                        self.push(second, watch)?;
                        continue;
                    }
                    Finding::Last(first) => {
                        watch.blocker = first;
                        conflict = set_or_conflict(clauses, assignment, first, watch.offset);
                    }
                }
            }
            put_watch(watches, kept, watch);
            kept = kept.wrapping_add(1);
        }
        watches.truncate(kept);
        Ok(conflict)
    }
}

impl Search {
    /// Sets the literals that follow from those that are set, each by a clause whose other literals
    /// are all false, and answers a clause that is false, or [`NONE`].
    pub(crate) fn propagate(&mut self) -> Result<u32, AllocError> {
        for _ in 0..=self.assignment.variables() {
            let Some(found) = self.assignment.trail.get(self.assignment.propagated) else {
                return Ok(NONE);
            };
            let failed = *found ^ 1;
            self.assignment.propagated = self.assignment.propagated.wrapping_add(1);
            let mut list = self.watches.take_list(self.alloc, failed);
            self.steps = self.steps.saturating_add(list.len() as u64);
            let conflict = self
                .watches
                .visit(&mut self.clauses, &mut self.assignment, failed, &mut list)?;
            self.watches.put_list(failed, list);
            if conflict != NONE {
                return Ok(conflict);
            }
        }
        Ok(NONE)
    }
}
