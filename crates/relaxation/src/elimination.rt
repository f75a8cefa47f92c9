//! The elimination that makes the factors of a basis: of its columns that are not surpluses.
//!
//! A row with one column left is a pivot that changes no other column; else a column with the fewest
//! entries is taken, and of its entries that are not small one in a row with the fewest columns
//! (Markowitz, The elimination form of the inverse and its application to linear programming, 1957).

use crate::factors::Factors;
use crate::floats::{float, put_float};
use crate::simplex::NONE;
use crate::vectors::Entry;
use number_lists::{flag, mark, number, set};
use std::alloc::{AllocError, Global};
use std::cmp::Reverse;
use std::collections::BinaryHeap;
use std::mem::replace;

/// A pivot is at least this part of the largest entry of its column.
const LEAST_PART: f64 = 0.05;

/// Smaller entries are no pivots: where a column has no other, it stays out of the basis.
const LEAST_PIVOT_TO_FACTOR: f64 = 1e-6;

/// What a difference is at least, that is not 0.
const LEAST_ENTRY: f64 = 1e-11;

/// The columns of a basis that are not surpluses, and what is left to eliminate.
pub(crate) struct Elimination {
    /// The position of each column, or `NONE` once it has a pivot.
    positions: Vec<usize>,
    /// The entries of each column in rows without a pivot.
    columns: Vec<Vec<Entry>>,
    /// The entries of each column in rows with a pivot.
    upper: Vec<Vec<Entry>>,
    /// The columns without a pivot that have an entry in a row; empty for rows with a pivot.
    row_columns: Vec<Vec<usize>>,
    /// Whether each row has a pivot.
    has_pivot: Vec<bool>,
    /// Columns, those with the fewest entries first; some have other numbers of entries by now.
    queue: BinaryHeap<Reverse<(usize, usize)>>,
    /// Rows that had one column left.
    single_rows: Vec<usize>,
    /// Room for a number for each row; all are 0 between calls.
    room: Vec<f64>,
}

// Written out, so that where one ends a proof has one call, and not one for each of its lists.
impl Drop for Elimination {
    fn drop(self) {
        let Elimination {
            positions: _,
            columns: _,
            upper: _,
            row_columns: _,
            has_pivot: _,
            queue: _,
            single_rows: _,
            room: _,
        } = self;
    }
}

/// How many there are in the list at the index.
fn length_at<T>(lists: &[Vec<T>], index: usize) -> usize {
    if index < lists.len() {
        lists[index].len()
    } else {
        0
    }
}

/// Adds an entry to the list at the index.
fn push_entry_at(lists: &mut [Vec<Entry>], index: usize, entry: Entry) -> Result<(), AllocError> {
    if index < lists.len() {
        lists[index].push(entry)?;
    }
    Ok(())
}

/// Adds a number to the list at the index.
fn push_number_at(lists: &mut [Vec<usize>], index: usize, number: usize) -> Result<(), AllocError> {
    if index < lists.len() {
        lists[index].push(number)?;
    }
    Ok(())
}

/// Takes the entries at the index away, and leaves none.
fn take_entries(alloc: Global, lists: &mut [Vec<Entry>], index: usize) -> Vec<Entry> {
    if index < lists.len() {
        replace(&mut lists[index], Vec::new(alloc))
    } else {
        Vec::new(alloc)
    }
}

/// Takes the numbers at the index away, and leaves none.
fn take_numbers(alloc: Global, lists: &mut [Vec<usize>], index: usize) -> Vec<usize> {
    if index < lists.len() {
        replace(&mut lists[index], Vec::new(alloc))
    } else {
        Vec::new(alloc)
    }
}

/// Takes one number out of a list, if it is there; the others change their order.
fn remove(numbers: &mut Vec<usize>, number: usize) {
    for place in 0..numbers.len() {
        if numbers[place] == number {
            numbers.swap_remove(place);
            return;
        }
    }
}

/// Takes the entry at the index out of a list; answers its number, or 0 if there is none.
fn remove_entry(entries: &mut Vec<Entry>, index: usize) -> f64 {
    for place in 0..entries.len() {
        if entries[place].index == index {
            return entries.swap_remove(place).number;
        }
    }
    0.0
}

/// The number of the entry at the index; 0 if there is none.
fn entry_at(entries: &[Entry], index: usize) -> f64 {
    for entry in entries {
        if entry.index == index {
            return entry.number;
        }
    }
    0.0
}

/// How far the entry farthest from 0 is.
fn largest(entries: &[Entry]) -> f64 {
    let mut largest: f64 = 0.0;
    for entry in entries {
        largest = largest.max(entry.number.abs());
    }
    largest
}

impl Elimination {
    /// No columns, of so many rows.
    pub(crate) fn new(alloc: Global, rows: usize) -> Result<Elimination, AllocError> {
        let mut row_columns = Vec::with_capacity(alloc, rows)?;
        for _ in 0..rows {
            row_columns.push(Vec::new(alloc))?;
        }
        Ok(Elimination {
            positions: Vec::new(alloc),
            columns: Vec::new(alloc),
            upper: Vec::new(alloc),
            row_columns,
            has_pivot: vec![in alloc; false; rows]?,
            queue: BinaryHeap::new(alloc),
            single_rows: Vec::new(alloc),
            room: vec![in alloc; 0.0; rows]?,
        })
    }

    /// Notes that a row has a pivot: that of its surplus. These come before the columns.
    pub(crate) fn note_surplus(&mut self, row: usize) {
        mark(&mut self.has_pivot, row, true);
    }

    /// Adds a column for a position, which counts as often in each row as that is listed, and -1 in the
    /// limit, if that is a row.
    pub(crate) fn push_column(
        &mut self,
        alloc: Global,
        position: usize,
        rows: &[u32],
        limit: usize,
    ) -> Result<(), AllocError> {
        self.positions.push(position)?;
        self.columns.push(Vec::new(alloc))?;
        self.upper.push(Vec::new(alloc))?;
        for row in rows {
            let count = float(&self.room, *row as usize);
            put_float(&mut self.room, *row as usize, count + 1.0);
        }
        for row in rows {
            let count = float(&self.room, *row as usize);
            self.push_entry(*row as usize, count)?;
            put_float(&mut self.room, *row as usize, 0.0);
        }
        if limit < self.has_pivot.len() {
            self.push_entry(limit, -1.0)?;
        }
        Ok(())
    }

    /// Adds an entry to the last column, unless it is 0.
    fn push_entry(&mut self, row: usize, entry: f64) -> Result<(), AllocError> {
        let Some(last) = self.columns.len().checked_sub(1) else {
            return Ok(());
        };
        let entry = Entry {
            index: row,
            number: entry,
        };
        if entry.number == 0.0 {
            return Ok(());
        }
        if flag(&self.has_pivot, row) {
            return push_entry_at(&mut self.upper, last, entry);
        }
        push_number_at(&mut self.row_columns, row, last)?;
        push_entry_at(&mut self.columns, last, entry)
    }

    /// Finds a pivot for each column, as far as there are some, and adds them to the factors.
    pub(crate) fn eliminate(
        &mut self,
        alloc: Global,
        factors: &mut Factors,
    ) -> Result<(), AllocError> {
        for column in 0..self.columns.len() {
            self.queue_up(column)?;
        }
        for row in 0..self.row_columns.len() {
            self.note_if_single(row)?;
        }
        for _ in 0..self.columns.len() {
            let pivot = match self.single_row() {
                None => self.shortest_column(),
                found => found,
            };
            let Some((row, column)) = pivot else {
                return Ok(());
            };
            self.take_pivot(alloc, row, column, factors)?;
        }
        Ok(())
    }

    /// Puts a column in the queue, by how many entries it has.
    fn queue_up(&mut self, column: usize) -> Result<(), AllocError> {
        let length = length_at(&self.columns, column);
        self.queue.push(Reverse((length, column)))?;
        Ok(())
    }

    /// Lists a row if it has one column left.
    fn note_if_single(&mut self, row: usize) -> Result<(), AllocError> {
        if length_at(&self.row_columns, row) == 1 {
            self.single_rows.push(row)?;
        }
        Ok(())
    }

    /// A row with one column left, and this, if the entry may be a pivot.
    fn single_row(&mut self) -> Option<(usize, usize)> {
        for _ in 0..usize::MAX {
            let Some(row) = self.single_rows.pop() else {
                break;
            };
            if let Some(column) = self.only_column(row) {
                if self.may_be_pivot(row, column) {
                    return Some((row, column));
                }
            }
        }
        None
    }

    /// The only column that a row has left, if it has one.
    fn only_column(&self, row: usize) -> Option<usize> {
        if row < self.row_columns.len() && self.row_columns[row].len() == 1 {
            self.row_columns[row].first().copied()
        } else {
            None
        }
    }

    /// Whether the entry of a column in a row is large enough for a pivot.
    fn may_be_pivot(&self, row: usize, column: usize) -> bool {
        if column >= self.columns.len() {
            return false;
        }
        let entries = &self.columns[column];
        let size = entry_at(entries, row).abs();
        size > LEAST_PIVOT_TO_FACTOR && size >= LEAST_PART * largest(entries)
    }

    /// A column with the fewest entries, and the row of the entry that may be its pivot.
    fn shortest_column(&mut self) -> Option<(usize, usize)> {
        for _ in 0..usize::MAX {
            let Some(Reverse((length, column))) = self.queue.pop() else {
                break;
            };
            if column < self.columns.len() && length > 0 && length == self.columns[column].len() {
                if let Some(row) = self.row_of_pivot(&self.columns[column]) {
                    return Some((row, column));
                }
            }
        }
        None
    }

    /// Of the rows of entries that are large enough for a pivot one with the fewest columns.
    fn row_of_pivot(&self, entries: &[Entry]) -> Option<usize> {
        let least = (LEAST_PART * largest(entries)).max(LEAST_PIVOT_TO_FACTOR);
        let mut best = None;
        let mut fewest = usize::MAX;
        for entry in entries {
            let length = length_at(&self.row_columns, entry.index);
            if entry.number.abs() >= least && length < fewest {
                fewest = length;
                best = Some(entry.index);
            }
        }
        best
    }

    /// Makes an entry the next pivot: adds it to the factors, and takes multiples of its row from the other
    /// rows of its column.
    fn take_pivot(
        &mut self,
        alloc: Global,
        row: usize,
        column: usize,
        factors: &mut Factors,
    ) -> Result<(), AllocError> {
        let entries = take_entries(alloc, &mut self.columns, column);
        let pivot = entry_at(&entries, row);
        let above = take_entries(alloc, &mut self.upper, column);
        factors.push_pivot(row, number(&self.positions, column), pivot)?;
        set(&mut self.positions, column, NONE);
        mark(&mut self.has_pivot, row, true);
        for entry in &entries {
            if entry.index != row {
                factors.push_multiple(entry.index, entry.number / pivot)?;
                self.leave_row(entry.index, column);
            }
        }
        factors.end_pivot(&above)?;
        let others = take_numbers(alloc, &mut self.row_columns, row);
        for other in &others {
            if *other != column {
                self.eliminate_in(*other, row, &entries, pivot)?;
            }
        }
        for entry in &entries {
            self.note_if_single(entry.index)?;
        }
        Ok(())
    }

    /// Takes a column from the list of those of a row.
    fn leave_row(&mut self, row: usize, column: usize) {
        if row < self.row_columns.len() {
            remove(&mut self.row_columns[row], column);
        }
    }

    /// Takes multiples of the row of a pivot from the other rows of its column, in another column; `entries`
    /// are those of the pivot's column.
    fn eliminate_in(
        &mut self,
        column: usize,
        row: usize,
        entries: &[Entry],
        pivot: f64,
    ) -> Result<(), AllocError> {
        if column >= self.columns.len() {
            return Ok(());
        }
        let entry = remove_entry(&mut self.columns[column], row);
        push_entry_at(
            &mut self.upper,
            column,
            Entry {
                index: row,
                number: entry,
            },
        )?;
        if entries.len() > 1 {
            self.set_room(entries, row, entry / pivot);
            self.subtract_room(column);
            self.fill_in(column, entries)?;
        }
        self.queue_up(column)
    }

    /// Sets room to `factor` times the entries that are not in the row.
    fn set_room(&mut self, entries: &[Entry], row: usize, factor: f64) {
        for entry in entries {
            if entry.index != row {
                put_float(&mut self.room, entry.index, factor * entry.number);
            }
        }
    }

    /// Subtracts room from the entries of a column, drops those that become 0, and clears room there.
    fn subtract_room(&mut self, column: usize) {
        for place in (0..length_at(&self.columns, column)).rev() {
            self.subtract_room_at(column, place);
        }
    }

    /// Subtracts room from one entry of a column, drops it if it becomes 0, and clears room there.
    fn subtract_room_at(&mut self, column: usize, place: usize) {
        if column >= self.columns.len() || place >= self.columns[column].len() {
            return;
        }
        let entry = self.columns[column][place];
        let less = float(&self.room, entry.index);
        if less == 0.0 {
            return;
        }
        put_float(&mut self.room, entry.index, 0.0);
        let left = entry.number - less;
        if left.abs() > LEAST_ENTRY {
            self.columns[column][place].number = left;
        } else {
            self.columns[column].swap_remove(place);
            self.leave_row(entry.index, column);
        }
    }

    /// Adds what is left in room to a column as new entries, and clears room.
    fn fill_in(&mut self, column: usize, entries: &[Entry]) -> Result<(), AllocError> {
        for entry in entries {
            let less = float(&self.room, entry.index);
            if less != 0.0 {
                put_float(&mut self.room, entry.index, 0.0);
                push_entry_at(
                    &mut self.columns,
                    column,
                    Entry {
                        index: entry.index,
                        number: 0.0 - less,
                    },
                )?;
                push_number_at(&mut self.row_columns, entry.index, column)?;
            }
        }
        Ok(())
    }

    /// The positions whose columns have no pivot.
    pub(crate) fn positions_left(&self, alloc: Global) -> Result<Vec<usize>, AllocError> {
        let mut left = Vec::new(alloc);
        for position in &self.positions {
            if *position != NONE {
                left.push(*position)?;
            }
        }
        Ok(left)
    }

    /// The rows that have no pivot.
    pub(crate) fn rows_left(&self, alloc: Global) -> Result<Vec<usize>, AllocError> {
        let mut left = Vec::new(alloc);
        for (row, has_pivot) in self.has_pivot.iter().enumerate() {
            if !*has_pivot {
                left.push(row)?;
            }
        }
        Ok(left)
    }
}
