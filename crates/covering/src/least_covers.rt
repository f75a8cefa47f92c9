//! The least cover: its length, then its cost, and then the first such cover in list order.
//!
//! A cover of the least length is found first (`shortest`), with literals one of these with the fewest
//! (`fewest_literals`), and then the first such cover (`in_order`). Parts of the table that share no
//! column are solved by themselves (`partition`).

ghost use Rattle.std.specs.Prelude.{◌≡◌, ℕ, List, IfOk, IfSome, ◌==◌};
ghost use Rattle.std.specs.List.{list_all};
ghost use Rattle.covering.specs.Cover.{IsLeast, counted};
ghost use Rattle.covering.specs.Search.{IsBest};

use crate::choice::{Choice, cost};
use crate::questions::Questions;
use crate::table::Table;
use std::alloc::{AllocError, Global};
use warm_start::Effort;

/// Whether each of the columns has this cost.
fn all_cost(choice: Choice, literals: &[u32], columns: &[usize], same: u32) -> bool
    ensures { result ≡ list_all (λ c. counted choice literals.now c == same) columns.now }
{
    for column in columns {
        if cost(choice, literals, *column) != same {
            return false;
        }
    }
    true
}

impl Table {
    /// The choice that decides: `First` if all live columns cost the same, since covers of one
    /// length then do too.
    pub(crate) fn deciding_choice(&self, choice: Choice) -> Choice
        ensures { (s : List ℕ) → IsLeast result self.now s → IsLeast choice self.now s }
    {
        let Some(first) = self.live_columns().first() else {
            return choice;
        };
        let same = cost(choice, self.literals(), *first);
        if all_cost(choice, self.literals(), self.live_columns(), same) {
            return Choice::First;
        }
        choice
    }

    /// A cover of the least length, which `shortest` is where it is known, and among those, where columns
    /// have costs, of the least cost.
    pub(crate) fn best_cover(
        &self,
        alloc: Global,
        choice: Choice,
        shortest: Option<Vec<usize>>,
        questions: &mut Questions,
    ) -> Result<Vec<usize>, AllocError>
        requires { IfSome shortest (λ v. IsBest Choice.First self.now v.items) }
        ensures { IfOk result (λ v. IsBest choice self.now v.items) }
    {
        let before = questions.warm_start.effort();
        let shortest = match shortest {
            Some(cover) => cover,
            None => self.shortest_cover(alloc, choice, &mut questions.warm_start)?,
        };
        questions.note_length(before);
        match choice {
            Choice::First => Ok(shortest),
            Choice::Literals => self.fewest_literals(alloc, shortest, &mut questions.warm_start),
        }
    }
}

/// The least cover: the first of the shortest; with `Choice::Literals`, of those with the fewest
/// literals.
pub fn least_cover(table: &Table, choice: Choice) -> Result<Vec<usize>, AllocError>
    ensures { IfOk result (λ v. IsLeast choice table.now v.items) }
{
    let alloc = *table.rows.allocator();
    let mut effort = Effort::none();
    let core = table.cyclic_core(alloc, choice)?;
    core.least_renumbered(alloc, choice, &mut effort)
}

/// The least cover, as [`least_cover`] gives it; adds what was done to find it, figures that no
/// contract speaks of.
pub fn least_cover_with_effort(
    table: &Table,
    choice: Choice,
    effort: &mut Effort,
) -> Result<Vec<usize>, AllocError>
    ensures { IfOk result (λ v. IsLeast choice table.now v.items) }
{
    let alloc = *table.rows.allocator();
    let core = table.cyclic_core(alloc, choice)?;
    core.least_renumbered(alloc, choice, effort)
}
