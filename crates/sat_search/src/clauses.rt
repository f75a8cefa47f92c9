//! The clauses, given and learned.
//!
//! A clause is never taken out, as the learned ones are the proof: one that is dropped is no longer
//! watched. Clauses whose literals were set at many levels are dropped first: their literal block
//! distance is large (Audemard and Simon, Predicting learnt clauses quality in modern SAT solvers,
//! 2009). `analysis` counts these levels.

use crate::lists::Lists;
use crate::numbers::{NONE, at, put, saturating_u32};
use std::alloc::{AllocError, Global};

// The record of a clause that is not there.
const NO_RECORD: Record = Record {
    begin: NONE,
    end: NONE,
    distance: NONE,
    last_use: NONE,
    name: NONE,
};

// The numbers that are kept of a clause beside its number, its literals and its hints: where the
// literals begin and end and where the hints end, its distance, its last use, its entry among those
// that may be dropped, its name, and two watches of two numbers.
const BY_CLAUSE: usize = 11;

/// What is kept of a clause beside its literals and its hints.
#[derive(Clone, Copy)]
pub(crate) struct Record {
    // Where its literals begin, and where they end.
    begin: u32,
    end: u32,
    /// Its literal block distance, and 0 once it is dropped.
    pub(crate) distance: u32,
    // After how many conflicts it last had a part in one.
    last_use: u32,
    /// The name by which the caller knows it, or [`NONE`].
    pub(crate) name: u32,
}

/// The clauses. The search watches the first two literals of each.
#[derive(Drop)]
pub(crate) struct Clauses {
    // Of each clause, one after the other, its number, how many literals it has, and the literals.
    // An offset is an index here: of a clause, that of its number.
    arena: Vec<u32>,
    /// What else is kept of each clause.
    pub(crate) records: Vec<Record>,
    /// How many of them were given.
    pub(crate) given: u32,
    /// The hints of each learned clause.
    pub(crate) hints: Lists,
    // The learned clauses that are watched: they may be dropped.
    watched: Vec<u32>,
}

impl Clauses {
    /// No clauses.
    pub(crate) fn new(alloc: Global) -> Clauses {
        Clauses {
            arena: Vec::new(alloc),
            records: Vec::new(alloc),
            given: 0,
            hints: Lists::new(alloc),
            watched: Vec::new(alloc),
        }
    }

    /// How many clauses there are, dropped ones too.
    pub(crate) fn len(&self) -> u32 {
        saturating_u32(self.records.len())
    }

    /// How many numbers the search keeps of all clauses, in all its lists.
    pub(crate) fn size(&self) -> usize {
        let numbers = self.arena.len().saturating_add(self.hints.size());
        numbers.saturating_add(self.records.len().saturating_mul(BY_CLAUSE))
    }

    /// What is kept of a clause; [`NONE`] is each number of one that is not there.
    pub(crate) fn record_of(&self, clause: u32) -> Record {
        let index = clause as usize;
        if index < self.records.len() {
            self.records[index]
        } else {
            NO_RECORD
        }
    }

    /// The literals of a clause, none if it is not there.
    pub(crate) fn literals_of(&self, clause: u32) -> &[u32] {
        let record = self.record_of(clause);
        let (begin, end) = (record.begin as usize, record.end as usize);
        if begin <= end && end <= self.arena.len() {
            &self.arena[begin..end]
        } else {
            &[]
        }
    }

    /// The literals of the clause at an offset, none if no clause can be there.
    pub(crate) fn literals_at(&mut self, offset: u32) -> &mut [u32] {
        let begin = offset as usize;
        if begin < self.arena.len() && self.arena.len() - begin > 1 {
            let count = self.arena[begin + 1] as usize;
            if count <= self.arena.len() - begin - 2 {
                return &mut self.arena[begin + 2..begin + 2 + count];
            }
        }
        &mut []
    }

    /// The number of the clause at an offset, [`NONE`] past the end.
    pub(crate) fn clause_at(&self, offset: u32) -> u32 {
        at(&self.arena, offset)
    }

    /// The offset of a clause: that of its number, two before its literals.
    pub(crate) fn offset_of(&self, clause: u32) -> u32 {
        self.literals_begin(clause).saturating_sub(2)
    }

    /// The offset at which the literals of a clause begin, [`NONE`] if it is not there.
    pub(crate) fn literals_begin(&self, clause: u32) -> u32 {
        self.record_of(clause).begin
    }

    /// The offset at which the literals of a clause end, [`NONE`] if it is not there.
    pub(crate) fn literals_end(&self, clause: u32) -> u32 {
        self.record_of(clause).end
    }

    /// The literal at an offset, [`NONE`] past the end.
    pub(crate) fn literal_at(&self, offset: u32) -> u32 {
        at(&self.arena, offset)
    }

    /// Adds a clause under a name, or [`NONE`], that counts as used after this many conflicts, and
    /// answers its number.
    pub(crate) fn push(
        &mut self,
        literals: &[u32],
        last_use: u32,
        name: u32,
    ) -> Result<u32, AllocError> {
        let clause = self.len();
        self.arena
            .extend_from_slice(&[clause, saturating_u32(literals.len())])?;
        let begin = saturating_u32(self.arena.len());
        self.arena.extend_from_slice(literals)?;
        let end = saturating_u32(self.arena.len());
        self.records.push(Record {
            begin,
            end,
            distance: 1,
            last_use,
            name,
        })?;
        Ok(clause)
    }

    /// Adds a clause that is learned after this many conflicts, with its hints, and answers its
    /// number.
    pub(crate) fn push_learned(
        &mut self,
        literals: &[u32],
        hints: &[u32],
        conflicts: u32,
    ) -> Result<u32, AllocError> {
        self.hints.push_list(hints)?;
        self.push(literals, conflicts, NONE)
    }

    /// Lets a learned clause, which is watched now, be dropped.
    pub(crate) fn allow_dropping(&mut self, clause: u32) -> Result<(), AllocError> {
        self.watched.extend_from_slice(&[clause])
    }

    /// How many learned clauses are watched.
    pub(crate) fn watched_count(&self) -> usize {
        self.watched.len()
    }

    /// The hints of a learned clause, none for a given one.
    pub(crate) fn hints_of(&self, clause: u32) -> &[u32] {
        match clause.checked_sub(self.given) {
            Some(index) => self.hints.list(index),
            None => &[],
        }
    }

    /// Whether the clause at an offset was dropped.
    pub(crate) fn is_dropped_at(&self, offset: u32) -> bool {
        self.record_of(self.clause_at(offset)).distance == 0
    }

    /// Notes the literal block distance of a clause.
    pub(crate) fn put_distance(&mut self, clause: u32, distance: u32) {
        let index = clause as usize;
        if index < self.records.len() {
            self.records[index].distance = distance;
        }
    }

    /// Notes that a clause had a part in a conflict, after this many of them.
    pub(crate) fn put_last_use(&mut self, clause: u32, conflicts: u32) {
        let index = clause as usize;
        if index < self.records.len() {
            self.records[index].last_use = conflicts;
        }
    }

    /// Notes that a clause has this name.
    pub(crate) fn put_name(&mut self, clause: u32, name: u32) {
        let index = clause as usize;
        if index < self.records.len() {
            self.records[index].name = name;
        }
    }

    /// Drops half of the watched clauses of distances over two: those of the largest, and among
    /// equal ones those that had no part in a conflict for long. Their watches are still to be
    /// taken out.
    pub(crate) fn drop_half(&mut self, alloc: Global) -> Result<(), AllocError> {
        let mut order: Vec<(u32, u32, u32)> = Vec::with_capacity(alloc, self.watched.len())?;
        for clause in &self.watched {
            let record = self.record_of(*clause);
            if record.distance > 2 && record.distance != NONE {
                let unused = u32::MAX - record.last_use;
                let _ = order.push((record.distance, unused, *clause));
            }
        }
        order.sort_unstable();
        self.drop_second_half(&order);
        self.forget_dropped();
        Ok(())
    }

    // Drops the second half of these clauses. Each comes after its distance and a number that is
    // the larger the longer it had no part in a conflict.
    fn drop_second_half(&mut self, order: &[(u32, u32, u32)]) {
        for k in order.len() / 2..order.len() {
            let (_, _, clause) = order[k];
            self.put_distance(clause, 0);
        }
    }

    // Takes the dropped clauses out of those that are watched.
    fn forget_dropped(&mut self) {
        let mut kept: u32 = 0;
        for k in 0..saturating_u32(self.watched.len()) {
            let clause = at(&self.watched, k);
            if self.record_of(clause).distance != 0 {
                put(&mut self.watched, kept, clause);
                kept = kept.saturating_add(1);
            }
        }
        self.watched.truncate(kept as usize);
    }
}
