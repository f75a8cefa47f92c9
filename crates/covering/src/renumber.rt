//! A table with its live columns renumbered, and its covers in the old numbers.
//!
//! Once the live columns are numbered in their order, what is done for each column is done for
//! these alone. The least cover in the new numbers stands for the least cover, since the order of
//! columns is kept.

ghost use Rattle.std.specs.Prelude.{◌≡◌, IfOk, IfSome, map, slice_index_or};
ghost use Rattle.covering.specs.Table.{items_of};
ghost use Rattle.covering.specs.Choices.{union_of};
ghost use Rattle.covering.specs.Parts.{IsRenumbered, pick};

use crate::choice::{Choice, cost};
use crate::columns::union_of;
use crate::table::Table;
use std::alloc::{AllocError, Global};

/// The live column at the index, 0 past the end.
fn column_at(live: &[usize], number: usize) -> usize
    ensures { result ≡ pick live.now number }
{
    if number < live.len() { live[number] } else { 0 }
}

/// The index of the column in `live`, whose columns rise; `None` if it is not live.
fn number_of(live: &[usize], column: usize) -> Option<usize>
    ensures { IfSome result (λ i. pick live.now i ≡ column) }
{
    match live.binary_search(&column) {
        Ok(number) => {
            if column_at(live, number) == column {
                Some(number)
            } else {
                None
            }
        }
        Err(_) => None,
    }
}

/// The row with each column as its index in `live`, whose columns rise; `None` if one is not live.
fn numbers_of(
    alloc: Global,
    live: &[usize],
    row: &[usize],
) -> Result<Option<Vec<usize>>, AllocError>
    ensures { IfOk result (λ o. IfSome o (λ v. map (pick live.now) v.items ≡ row.now)) }
{
    let mut numbers = Vec::new(alloc);
    for column in row {
        let Some(number) = number_of(live, *column) else {
            return Ok(None);
        };
        numbers.push(number)?;
    }
    Ok(Some(numbers))
}

/// The rows with each column as its index in `live`, whose columns rise; `None` if one is not live.
fn numbers_of_rows(
    alloc: Global,
    live: &[usize],
    rows: &[Vec<usize>],
) -> Result<Option<Vec<Vec<usize>>>, AllocError>
    ensures { IfOk result (λ o. IfSome o (λ v. map (map (pick live.now)) (items_of v.items)
        ≡ items_of rows.now)) }
{
    let mut lists = Vec::new(alloc);
    for row in rows {
        let Some(numbers) = numbers_of(alloc, live, row)? else {
            return Ok(None);
        };
        lists.push(numbers)?;
    }
    Ok(Some(lists))
}

/// The live columns at these indices, in the same order; 0 for an index past the end.
fn columns_of(alloc: Global, live: &[usize], numbers: &[usize]) -> Result<Vec<usize>, AllocError>
    ensures { IfOk result (λ v. v.items ≡ map (pick live.now) numbers.now) }
{
    let mut columns = vec![in alloc; 0; numbers.len()]?;
    for i in 0..numbers.len() {
        columns[i] = column_at(live, numbers[i]);
    }
    Ok(columns)
}

/// The number of literals of each live column, in their order.
fn literals_of(alloc: Global, literals: &[u32], live: &[usize]) -> Result<Vec<u32>, AllocError>
    ensures { IfOk result (λ v. v.items ≡ map (λ c. slice_index_or literals.now c 0) live.now) }
{
    let mut kept = vec![in alloc; 0; live.len()]?;
    for i in 0..live.len() {
        kept[i] = cost(Choice::Literals, literals, live[i]);
    }
    Ok(kept)
}

impl Table {
    /// The table of the rows with each column as its index in the live ones, none of them taken;
    /// `None` if all columns are live.
    pub(crate) fn renumber(&self, alloc: Global) -> Result<Option<Table>, AllocError>
        ensures { IfOk result (λ o. IfSome o (IsRenumbered self.now)) }
    {
        let live = self.live_columns();
        if live.len() == self.columns() {
            return Ok(None);
        }
        let Some(rows) = numbers_of_rows(alloc, live, self.row_lists())? else {
            return Ok(None);
        };
        let literals = literals_of(alloc, self.literals(), live)?;
        Table::new(alloc, rows, literals)
    }

    /// The rising list of the taken columns and the live ones at these indices.
    pub(crate) fn cover_of_numbers(
        &self,
        alloc: Global,
        numbers: &[usize],
    ) -> Result<Vec<usize>, AllocError>
        ensures { IfOk result (λ v. v.items ≡ union_of self.now.taken
            (map (pick self.now.live) numbers.now)) }
    {
        let columns = columns_of(alloc, self.live_columns(), numbers)?;
        union_of(alloc, self.taken_columns(), &columns)
    }
}
