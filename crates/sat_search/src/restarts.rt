//! When a search begins anew, with what it learned, and when clauses are dropped.

use crate::search::Search;
use std::alloc::AllocError;

// The number of conflicts between two restarts is this one times a member of Luby's sequence.
const RESTART_UNIT: u64 = 100;

// Half of the learned clauses is dropped for the first time after half as many conflicts as there
// are nogoods, but not before the first number and not after the second: among few nogoods many
// learned clauses take most of the time. Later the time between is longer by a quarter of the
// clauses that are left.
const FIRST_DROP: (u64, u64) = (100, 2000);

/// How many conflicts and restarts there were, and at which numbers of conflicts the next restart
/// and the next dropping of clauses are due.
#[derive(Clone, Copy)]
pub(crate) struct Pace {
    conflicts: u64,
    restarts: u64,
    next_restart: u64,
    next_drop: u64,
}

impl Pace {
    /// No conflict so far.
    pub(crate) fn new() -> Pace {
        Pace {
            conflicts: 0,
            restarts: 0,
            next_restart: RESTART_UNIT,
            next_drop: 0,
        }
    }

    /// Counts a conflict.
    pub(crate) fn count_conflict(&mut self) {
        self.conflicts = self.conflicts.saturating_add(1);
    }

    /// How many conflicts there were.
    pub(crate) fn conflict_count(&self) -> u32 {
        u32::try_from(self.conflicts).unwrap_or(u32::MAX)
    }

    // Counts a restart, and sets when the next is due.
    fn schedule_restart(&mut self) {
        self.restarts = self.restarts.saturating_add(1);
        let more = RESTART_UNIT.saturating_mul(luby(self.restarts));
        self.next_restart = self.conflicts.saturating_add(more);
    }

    /// Sets when clauses are dropped next, if this many were given and this many learned ones are
    /// left now.
    pub(crate) fn schedule_drop(&mut self, given: u32, left: usize) {
        let (least, most) = FIRST_DROP;
        let first = u64::from(given / 2).max(least).min(most);
        let more = first.saturating_add(left as u64 / 4);
        self.next_drop = self.conflicts.saturating_add(more);
    }
}

// The member at an index, from 0 on, of the sequence 1 1 2 1 1 2 4 .. (Luby, Sinclair and
// Zuckerman, Optimal speedup of Las Vegas algorithms, 1993).
fn luby(index: u64) -> u64 {
    let mut rest = index;
    let mut size: u64 = u64::MAX;
    for _ in 0..64 {
        if size <= rest {
            rest -= size;
        }
        if size == rest.saturating_add(1) {
            return size / 2 + 1;
        }
        size /= 2;
    }
    1
}

impl Search {
    /// Restarts if that is due, and then drops clauses if that is due too.
    pub(crate) fn restart_if_due(&mut self) -> Result<(), AllocError> {
        if self.pace.conflicts >= self.pace.next_restart {
            self.pace.schedule_restart();
            self.assignment.backjump(0);
            if self.pace.conflicts >= self.pace.next_drop {
                self.drop_clauses()?;
            }
        }
        Ok(())
    }

    // Drops half of the learned clauses whose distance is over two, takes out their watches, and
    // schedules the next drop.
    fn drop_clauses(&mut self) -> Result<(), AllocError> {
        self.clauses.drop_half(self.alloc)?;
        self.watches.remove_dropped(&self.clauses);
        self.pace
            .schedule_drop(self.clauses.given, self.clauses.watched_count());
        Ok(())
    }
}
