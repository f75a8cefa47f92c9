//! Cuts that a fractional cover violates: combinations of an odd number of rows.
//!
//! By how much the rows go past one, and the parts of the columns that are in an odd number of them, come
//! to less than one together: then half of the sum of the rows, rounded up, is violated. Combinations are
//! found by elimination modulo two: the columns of which there is much go first, each by the combination
//! that has it and the fewest rows (Koster, Zymolka and Kutschka, Algorithms to separate
//! {0, 1/2}-Chvátal-Gomory cuts, 2009).

use crate::subgradient::LIKELIEST;
use number_lists::{Lists, add_to, at, number, small};
use std::alloc::{AllocError, Global};
use std::mem::replace;

/// Of a column of which the fractional cover has no more than this it has no part.
const NO_PART: i64 = LIKELIEST / 50;

/// The rows of a combination go past one by no more than this, all together.
const MOST_EXCESS: i64 = LIKELIEST * 9 / 10;

/// A single row goes past one by no more than this.
const MOST_EXCESS_OF_ROW: i64 = LIKELIEST * 3 / 10;

/// A combination of more rows is given up.
const MOST_ROWS: usize = 40;

/// A cut is used where twice what its fractional cover falls short of is no less than this.
const LEAST_VIOLATION: i64 = LIKELIEST * 15 / 100;

/// A row is in no more cuts of one call.
const MOST_CUTS_OF_ROW: usize = 3;

/// The sum of some rows modulo two.
struct Combination {
    /// The rows, which rise.
    rows: Vec<u32>,
    /// The columns that are in an odd number of them, and of which the fractional cover has a part; they
    /// rise.
    columns: Vec<u32>,
    /// By how much the rows go past one, all together.
    excess: i64,
}

// Written out, so that where one ends a proof has one call, and not one for each of its lists.
impl Drop for Combination {
    fn drop(self) {
        let Combination {
            rows: _,
            columns: _,
            excess: _,
        } = self;
    }
}

/// The numbers that are in one of two lists, and not in both; they rise.
fn in_one_alone(alloc: Global, ours: &[u32], theirs: &[u32]) -> Result<Vec<u32>, AllocError> {
    let mut all = ours.to_vec(alloc)?;
    all.extend_from_slice(theirs)?;
    all.sort_unstable();
    let mut left: Vec<u32> = Vec::new(alloc);
    for number in all.iter() {
        if left.last() == Some(number) {
            left.pop();
        } else {
            left.push(*number)?;
        }
    }
    Ok(left)
}

/// The parts of these columns together.
fn parts_of(columns: &[u32], parts: &[i64]) -> i64 {
    let mut sum: i64 = 0;
    for column in columns {
        sum = sum.wrapping_add(at(parts, *column as usize));
    }
    sum
}

/// The columns of which the fractional cover has a part.
fn columns_with_parts(alloc: Global, row: &[u32], parts: &[i64]) -> Result<Vec<u32>, AllocError> {
    let mut columns = Vec::new(alloc);
    for column in row {
        if at(parts, *column as usize) > NO_PART {
            columns.push(*column)?;
        }
    }
    Ok(columns)
}

impl Combination {
    /// The sum of no rows.
    fn new(alloc: Global) -> Combination {
        Combination {
            rows: Vec::new(alloc),
            columns: Vec::new(alloc),
            excess: 0,
        }
    }

    /// Whether the column is in an odd number of the rows.
    fn has(&self, column: u32) -> bool {
        self.columns.binary_search(&column).is_ok()
    }

    /// Adds another one.
    fn add(&mut self, alloc: Global, other: &Combination) -> Result<(), AllocError> {
        self.rows = in_one_alone(alloc, &self.rows, &other.rows)?;
        self.columns = in_one_alone(alloc, &self.columns, &other.columns)?;
        self.excess = self.excess.wrapping_add(other.excess);
        Ok(())
    }

    /// Becomes the sum of no rows where it has too many, or they go too far past one.
    fn give_up_if_large(&mut self, alloc: Global) {
        if self.rows.len() > MOST_ROWS || self.excess > MOST_EXCESS {
            *self = Combination::new(alloc);
        }
    }

    /// Twice what the fractional cover falls short of by the cut of these rows; 0 where they are no odd number,
    /// or a single one.
    fn violation(&self, parts: &[i64]) -> i64 {
        if self.rows.len() % 2 == 0 || self.rows.len() < 3 {
            return 0;
        }
        LIKELIEST
            .wrapping_sub(self.excess)
            .wrapping_sub(parts_of(&self.columns, parts))
    }
}

/// Cuts that were found, each a list of rows, and how good each is.
#[derive(Drop)]
struct Found {
    /// The rows of each.
    cuts: Lists,
    /// The better, the larger: the square of what it is violated by, divided by its number of rows; with
    /// its index.
    scores: Vec<(i64, usize)>,
}

impl Found {
    /// Notes the cut of a combination if it is violated enough.
    fn note(&mut self, combination: &Combination, parts: &[i64]) -> Result<(), AllocError> {
        let violation = combination.violation(parts);
        if violation < LEAST_VIOLATION {
            return Ok(());
        }
        let rows = i64::try_from(combination.rows.len()).unwrap_or(i64::MAX);
        let score = violation.wrapping_mul(violation).wrapping_div(rows.max(1));
        self.scores.push((score, self.cuts.len()))?;
        for row in &combination.rows {
            self.cuts.push(*row)?;
        }
        self.cuts.end()
    }
}

/// The rows that hardly go past one, each by itself.
fn single_rows(alloc: Global, rows: &Lists, parts: &[i64]) -> Result<Vec<Combination>, AllocError> {
    let mut combinations = Vec::new(alloc);
    for index in 0..rows.len() {
        let row = rows.list(index);
        let excess = parts_of(row, parts).wrapping_sub(LIKELIEST).max(0);
        if excess <= MOST_EXCESS_OF_ROW {
            combinations.push(Combination {
                rows: vec![in alloc; small(index)]?,
                columns: columns_with_parts(alloc, row, parts)?,
                excess,
            })?;
        }
    }
    Ok(combinations)
}

/// The columns of which the fractional cover has a part, those of which there is most first.
fn columns_by_part(alloc: Global, parts: &[i64]) -> Result<Vec<(i64, usize)>, AllocError> {
    let mut columns = Vec::new(alloc);
    for (column, part) in parts.iter().enumerate() {
        if *part > NO_PART {
            columns.push((0i64.wrapping_sub(*part), column))?;
        }
    }
    columns.sort_unstable();
    Ok(columns)
}

/// Notes the combination at the index for each of these columns.
fn note_columns(
    having: &mut Vec<Vec<usize>>,
    columns: &[u32],
    index: usize,
) -> Result<(), AllocError> {
    for column in columns {
        let column = *column as usize;
        if column < having.len() {
            having[column].push(index)?;
        }
    }
    Ok(())
}

/// So many empty lists.
fn empty_lists(alloc: Global, number: usize) -> Result<Vec<Vec<usize>>, AllocError> {
    let mut lists = Vec::with_capacity(alloc, number)?;
    for _ in 0..number {
        lists.push(Vec::new(alloc))?;
    }
    Ok(lists)
}

/// Combinations whose columns are eliminated one after the other.
struct Elimination {
    /// The combinations; the sum of no rows stands where one was left out.
    combinations: Vec<Combination>,
    /// Of each column the indices of combinations that have it, and of some that had it.
    having: Vec<Vec<usize>>,
}

// Written out, so that where one ends a proof has one call, and not one for each of its lists.
impl Drop for Elimination {
    fn drop(self) {
        let Elimination {
            combinations: _,
            having: _,
        } = self;
    }
}

impl Elimination {
    /// The start, with these combinations of so many columns.
    fn new(
        alloc: Global,
        combinations: Vec<Combination>,
        columns: usize,
    ) -> Result<Elimination, AllocError> {
        let mut having = empty_lists(alloc, columns)?;
        for (index, combination) in combinations.iter().enumerate() {
            note_columns(&mut having, &combination.columns, index)?;
        }
        Ok(Elimination {
            combinations,
            having,
        })
    }

    /// Whether the combination at the index has the column; not so past the end.
    fn has(&self, index: usize, column: u32) -> bool {
        index < self.combinations.len() && self.combinations[index].has(column)
    }

    /// The index of the combination, among these, that has the column and the fewest rows; the number of
    /// combinations if none has it.
    fn smallest(&self, among: &[usize], column: u32) -> usize {
        let mut found = self.combinations.len();
        let mut least = (usize::MAX, i64::MAX);
        for index in among {
            if *index < self.combinations.len() {
                let combination = &self.combinations[*index];
                let size = (combination.rows.len(), combination.excess);
                if size < least && combination.has(column) {
                    least = size;
                    found = *index;
                }
            }
        }
        found
    }

    /// Takes out the combination at the index; the sum of no rows past the end.
    fn take(&mut self, alloc: Global, index: usize) -> Combination {
        if index < self.combinations.len() {
            replace(&mut self.combinations[index], Combination::new(alloc))
        } else {
            Combination::new(alloc)
        }
    }

    /// Adds a combination to that at the index, and notes the cut that comes of it if it is violated.
    fn add(
        &mut self,
        alloc: Global,
        index: usize,
        other: &Combination,
        parts: &[i64],
        found: &mut Found,
    ) -> Result<(), AllocError> {
        if index < self.combinations.len() {
            let combination = &mut self.combinations[index];
            combination.add(alloc, other)?;
            combination.give_up_if_large(alloc);
            found.note(combination, parts)?;
        }
        note_columns(&mut self.having, &other.columns, index)
    }

    /// Eliminates the column: the smallest combination that has it is taken out, and added to all others that
    /// have it. What is found on the way is noted.
    fn eliminate(
        &mut self,
        alloc: Global,
        column: usize,
        parts: &[i64],
        found: &mut Found,
    ) -> Result<(), AllocError> {
        if column >= self.having.len() {
            return Ok(());
        }
        let among = replace(&mut self.having[column], Vec::new(alloc));
        let smallest = self.smallest(&among, small(column));
        let smallest = self.take(alloc, smallest);
        for index in among.iter() {
            if self.has(*index, small(column)) {
                self.add(alloc, *index, &smallest, parts, found)?;
            }
        }
        Ok(())
    }
}

/// Whether one of these rows is in as many cuts as it may be.
fn is_used_up(cut: &[u32], uses: &[usize]) -> bool {
    for row in cut {
        if number(uses, *row as usize) >= MOST_CUTS_OF_ROW {
            return true;
        }
    }
    false
}

/// Adds a cut to the chosen ones, and counts it for each of its rows.
fn choose(cut: &[u32], uses: &mut Vec<usize>, chosen: &mut Lists) -> Result<(), AllocError> {
    for row in cut {
        add_to(uses, *row as usize, 1);
        chosen.push(*row)?;
    }
    chosen.end()
}

/// The best of the cuts that were found, each row in a few of them at most. There are so many rows.
fn best_cuts(alloc: Global, found: &mut Found, rows: usize) -> Result<Lists, AllocError> {
    found.scores.sort_unstable();
    found.scores.reverse();
    let mut uses: Vec<usize> = vec![in alloc; 0; rows]?;
    let mut chosen = Lists::new(alloc);
    for (_, index) in found.scores.iter() {
        let cut = found.cuts.list(*index);
        if !is_used_up(cut, &uses) {
            choose(cut, &mut uses, &mut chosen)?;
        }
    }
    Ok(chosen)
}

/// Cuts of these rows that a fractional cover violates, the best first, each a list of an odd number of rows.
/// `parts` is how much of each column it has, where `LIKELIEST` is all of it. Takes memory and time for the
/// entries of combinations, of at most some ten rows each.
pub fn violated_cuts(alloc: Global, rows: &Lists, parts: &[i64]) -> Result<Lists, AllocError> {
    let rows_alone = single_rows(alloc, rows, parts)?;
    let mut elimination = Elimination::new(alloc, rows_alone, parts.len())?;
    let mut found = Found {
        cuts: Lists::new(alloc),
        scores: Vec::new(alloc),
    };
    for (_, column) in columns_by_part(alloc, parts)?.iter() {
        elimination.eliminate(alloc, *column, parts, &mut found)?;
    }
    best_cuts(alloc, &mut found, rows.len())
}
