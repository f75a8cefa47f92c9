//! Which clauses watch a literal (Moskewicz et al. 2001).

use crate::clauses::Clauses;
use std::alloc::{AllocError, Global};
use std::mem::replace;

/// The offset of a clause that watches a literal, and another literal of it: if that one is true,
/// the clause needs no look (Een and Sorensson, An extensible SAT-solver, 2003).
#[derive(Clone, Copy)]
pub(crate) struct Watch {
    pub(crate) offset: u32,
    pub(crate) blocker: u32,
}

/// The watches of all literals.
#[derive(Drop)]
pub(crate) struct Watches {
    by_literal: Vec<Vec<Watch>>,
}

impl Watches {
    /// No literals, and so no watches.
    pub(crate) fn new(alloc: Global) -> Watches {
        Watches {
            by_literal: Vec::new(alloc),
        }
    }

    /// Makes room for the watches of this many more variables.
    pub(crate) fn make_room(&mut self, alloc: Global, variables: usize) -> Result<(), AllocError> {
        for _ in 0..variables.saturating_mul(2) {
            self.by_literal.push(Vec::new(alloc))?;
        }
        Ok(())
    }

    /// Adds a watch at the end of a literal's; does nothing if there is no such literal.
    pub(crate) fn push(&mut self, literal: u32, watch: Watch) -> Result<(), AllocError> {
        if let Some(list) = self.by_literal.get_mut(literal as usize) {
            list.push(watch)?;
        }
        Ok(())
    }

    /// Lets a clause watch its first two literals; one with fewer watches none.
    pub(crate) fn watch_first_two(
        &mut self,
        clauses: &Clauses,
        clause: u32,
    ) -> Result<(), AllocError> {
        let literals = clauses.literals_of(clause);
        if literals.len() > 1 {
            let (one, other) = (literals[0], literals[1]);
            let offset = clauses.offset_of(clause);
            self.push(
                one,
                Watch {
                    offset,
                    blocker: other,
                },
            )?;
            self.push(
                other,
                Watch {
                    offset,
                    blocker: one,
                },
            )?;
        }
        Ok(())
    }

    /// Takes out the watches of a literal, which has none then.
    pub(crate) fn take_list(&mut self, alloc: Global, literal: u32) -> Vec<Watch> {
        match self.by_literal.get_mut(literal as usize) {
            Some(list) => replace(list, Vec::new(alloc)),
            None => Vec::new(alloc),
        }
    }

    /// Puts the watches of a literal back, in place of those that it has.
    pub(crate) fn put_list(&mut self, literal: u32, watches: Vec<Watch>) {
        if let Some(list) = self.by_literal.get_mut(literal as usize) {
            *list = watches;
        }
    }

    /// How many clauses watch a literal.
    pub(crate) fn count_of(&self, literal: u32) -> usize {
        match self.by_literal.get(literal as usize) {
            Some(list) => list.len(),
            None => 0,
        }
    }

    /// Takes out the watches of dropped clauses.
    pub(crate) fn remove_dropped(&mut self, clauses: &Clauses) {
        for list in self.by_literal.iter_mut() {
            list.retain(|watch| !clauses.is_dropped_at(watch.offset));
        }
    }
}
