//! What shows that no point is left: the learned clauses that have a part in that, and no others.

use crate::clauses::{Clauses, Record};
use crate::lists::Lists;
use crate::numbers::{NONE, at, saturating_u32};
use crate::search::Answer;
use std::alloc::{AllocError, Global};

// The name of a clause until it gets one in the refutation.
const PENDING: u32 = u32::MAX - 1;

/// Nogoods that follow from those that are known, each with the names of those that show it.
///
/// Where all literals of a nogood are true, each of its hints but the last has one literal that is
/// open, which is false then, and the last hint has none.
#[derive(Drop)]
pub struct Refutation {
    // For each nogood, its literals and then its hints.
    lists: Lists,
    last: u32,
}

impl Refutation {
    /// How many nogoods there are.
    pub fn len(&self) -> usize {
        self.lists.len() / 2
    }

    /// Whether there is none.
    pub fn is_empty(&self) -> bool {
        self.lists.len() == 0
    }

    /// The literals of a nogood, none past the last.
    pub fn nogood(&self, index: usize) -> &[u32] {
        self.lists.list(saturating_u32(index.saturating_mul(2)))
    }

    /// The names of the nogoods that show this one, in their order; none past the last.
    pub fn hints(&self, index: usize) -> &[u32] {
        self.lists
            .list(saturating_u32(index.saturating_mul(2).saturating_add(1)))
    }

    /// The name of the nogood whose literals are all assumptions: the last one here, or, if there
    /// is none, one that is known already.
    pub fn last(&self) -> u32 {
        self.last
    }

    // Adds the nogood of a clause.
    fn push_nogood(&mut self, clause: &[u32]) -> Result<(), AllocError> {
        for literal in clause {
            self.lists.push(*literal ^ 1)?;
        }
        self.lists.end()
    }

    // Adds the hints of a clause by their names.
    fn push_hints(&mut self, hints: &[u32], clauses: &Clauses) -> Result<(), AllocError> {
        for hint in hints {
            self.lists.push(clauses.record_of(*hint).name)?;
        }
        self.lists.end()
    }
}

impl Clauses {
    /// The refutation that ends with the clause `goal`: it, and all that show it and have no name
    /// yet. They get names from `name` on, in the order in which they were learned; if `goal` has
    /// one, there are none.
    pub(crate) fn refutation_of(
        &mut self,
        alloc: Global,
        goal: u32,
        name: u32,
    ) -> Result<Answer, AllocError> {
        let found = self.unnamed_clauses_for(alloc, goal)?;
        let mut refutation = Refutation {
            lists: Lists::new(alloc),
            last: NONE,
        };
        let mut next = name;
        for clause in &found {
            refutation.push_nogood(self.literals_of(*clause))?;
            refutation.push_hints(self.hints_of(*clause), self)?;
            self.put_name(*clause, next);
            next = next.saturating_add(1);
        }
        refutation.last = self.record_of(goal).name;
        Ok(Answer::Refutation(refutation))
    }

    // The clauses without a name by which a clause is shown, itself too, in the order in which they
    // were learned. Each gets the name `PENDING`.
    fn unnamed_clauses_for(&mut self, alloc: Global, goal: u32) -> Result<Vec<u32>, AllocError> {
        let mut found: Vec<u32> = Vec::new(alloc);
        push_unnamed(&mut self.records, &[goal], &mut found)?;
        for k in 0..self.len() {
            let clause = at(&found, k);
            if clause == NONE {
                break;
            }
            if let Some(index) = clause.checked_sub(self.given) {
                push_unnamed(&mut self.records, self.hints.list(index), &mut found)?;
            }
        }
        found.sort_unstable();
        Ok(found)
    }
}

// Adds those of the clauses that have no name yet to `found`, each once: it gets the name
// `PENDING`.
fn push_unnamed(
    records: &mut Vec<Record>,
    clauses: &[u32],
    found: &mut Vec<u32>,
) -> Result<(), AllocError> {
    for clause in clauses {
        let index = *clause as usize;
        if index < records.len() && records[index].name == NONE {
            records[index].name = PENDING;
            found.push(*clause)?;
        }
    }
    Ok(())
}
