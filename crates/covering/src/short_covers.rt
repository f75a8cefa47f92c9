//! A short cover, soon (`short_cover`), for a table that will have more rows: the table is reduced, and
//! then looked at by `Table::short_cover`, which stands in `shortest`.

ghost use Rattle.std.specs.Prelude.{IfOk};
ghost use Rattle.covering.specs.Cover.{IsCover};

use crate::choice::Choice;
use crate::reduction::Due;
use crate::table::Table;
use std::alloc::{AllocError, Global};
use warm_start::{Effort, WarmStart};

/// A short cover: the best of a local search, on the table as a search reduces it. It costs these
/// reductions and some steps a row, and never a branch. The search starts with the columns that
/// `near` lists, in any order, as far as they are left: what it finds is near them.
///
/// Where a table grows as long as its covers are refused, that does before the last one; each
/// found near the one before, they soon differ by little.
pub fn short_cover(table: &Table, near: &[usize]) -> Result<Vec<usize>, AllocError>
    ensures { IfOk result (λ v. IsCover table.now v.items) }
{
    let alloc = *table.rows.allocator();
    let mut lists = Vec::new(alloc);
    let copy = table.copy(alloc)?;
    let core = copy.reduce_weakly(alloc, Choice::First, Due::ALL, &mut lists)?;
    let mut warm_start = WarmStart::new(alloc, Effort::none());
    core.short_cover(alloc, Choice::First, near, &mut warm_start)
}
