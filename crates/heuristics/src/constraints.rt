//! The constraints on a cover: the rows of a table, and cuts beside them.
//!
//! A cut says how many columns of some rows a cover has: of an odd number of rows the constraints are
//! added up, halved, and rounded up, each column's part and what is needed (Caprara and Fischetti,
//! {0, 1/2}-Chvátal-Gomory cuts, 1996). Of the rows {0,1}, {1,2} and {0,2} a cover has two columns, where
//! a fractional one has three halves.

use number_lists::{Compact, Lists, flag, mark};
use std::alloc::{AllocError, Global};
use std::num::nearest_u64_to_f64;

/// What a cover needs of some columns: one of each row, and more of a cut.
pub struct Constraints {
    /// The columns of each constraint: the rows come first, then the cuts. A column stands there as often
    /// as it counts.
    pub columns: Lists,
    /// The constraints of each column, each as often as the column counts there.
    pub column_rows: Lists,
    /// How many each needs.
    pub needs: Vec<f64>,
}

// Written out, so that where one ends a proof has one call, and not one for each of its lists.
impl Drop for Constraints {
    fn drop(self) {
        let Constraints {
            columns: _,
            column_rows: _,
            needs: _,
        } = self;
    }
}

/// Adds a column of the row to the last list where an even number of rows before had it, and changes
/// its mark, which says whether that number is odd.
fn push_at_even(columns: &mut Lists, row: &[u32], odd: &mut Vec<bool>) -> Result<(), AllocError> {
    for column in row {
        let is_odd = flag(odd, *column as usize);
        if !is_odd {
            columns.push(*column)?;
        }
        mark(odd, *column as usize, !is_odd);
    }
    Ok(())
}

/// Clears the marks at these indices.
fn clear_marks(marks: &mut Vec<bool>, indices: &[u32]) {
    for index in indices {
        mark(marks, *index as usize, false);
    }
}

/// Adds a list with the columns of a cut: each as often as half of the cut's rows that have it, rounded
/// up. `odd` is room for a mark of each column; none is set before and after.
fn push_cut(
    columns: &mut Lists,
    rows: &Lists,
    cut: &[u32],
    odd: &mut Vec<bool>,
) -> Result<(), AllocError> {
    for row in cut {
        push_at_even(columns, rows.list(*row as usize), odd)?;
    }
    for row in cut {
        clear_marks(odd, rows.list(*row as usize));
    }
    columns.end()
}

/// What the constraints need: one each of so many rows, and of a cut half of its rows, rounded up.
fn needs(alloc: Global, rows: usize, cuts: &Lists) -> Result<Vec<f64>, AllocError> {
    let mut needs = vec![in alloc; 1.0; rows]?;
    for cut in 0..cuts.len() {
        needs.push(nearest_u64_to_f64(cuts.list(cut).len().div_ceil(2) as u64))?;
    }
    Ok(needs)
}

impl Constraints {
    /// The rows of the table, and then these cuts, each a list of rows.
    pub fn of(alloc: Global, table: &Compact, cuts: &Lists) -> Result<Constraints, AllocError> {
        let rows = &table.rows;
        let mut columns = Lists::new(alloc);
        columns.extend_from(rows)?;
        let mut odd = vec![in alloc; false; table.costs.len()]?;
        for cut in 0..cuts.len() {
            push_cut(&mut columns, rows, cuts.list(cut), &mut odd)?;
        }
        Ok(Constraints {
            column_rows: columns.transpose(alloc, table.costs.len())?,
            columns,
            needs: needs(alloc, rows.len(), cuts)?,
        })
    }

    /// The columns of each constraint, the constraints of each column, and what each needs.
    pub fn into_parts(self) -> (Lists, Lists, Vec<f64>) {
        let Constraints {
            columns,
            column_rows,
            needs,
        } = self;
        (columns, column_rows, needs)
    }
}
