//! The rows with fewest open literals in a region, found 64 at a time.
//!
//! A literal of a row is open where the region has none at its input. For each literal and for each
//! output a column has which rows have it, and further columns have the binary digits of each row's
//! number of literals: a bit a row, 64 rows a word. The literals of a region are subtracted from
//! these numbers one after the other, with borrows from digit to digit, for 64 rows at once. So a
//! question costs a few steps a literal of the region for each 64 rows, where a look at each row
//! costs as many for each row. The bits take no more memory than the rows.
//!
//! The rows that are found are a hint: they are some of the rows, and no contract says more.
ghost use Rattle.std.specs.Prelude.{IfOk, OnOk};
ghost use Rattle.regions.specs.Reason.{AreAmong};

use cube::{Cube, Shape, Symbol};
use std::alloc::{AllocError, Global};

// A row has at most 1024 literals, a number of this many binary digits.
const DIGITS: usize = 11;

/// Which rows of a list have each literal and each output, and how many literals each row has.
#[derive(Drop)]
pub(crate) struct RowBits {
    // For each input the rows with `1` and the rows with `0`, then for each output the rows that
    // have it, and then the digits of the numbers of literals, the lowest first.
    columns: Vec<Vec<u64>>,
    // Where the columns of the outputs begin.
    outputs: usize,
    // Where the digits begin.
    first_digit: usize,
    // How many words a column has.
    words: usize,
    // The fewest literals of a row, `u32::MAX` if there is none.
    fewest: u32,
}

// The fewest literals of a row, `u32::MAX` if there is none.
fn fewest_literals(rows: &[&Cube]) -> u32 {
    let mut fewest = u32::MAX;
    for row in rows {
        fewest = fewest.min(u32::try_from(row.literals()).unwrap_or(u32::MAX));
    }
    fewest
}

// `count` columns without a row, of `words` words each.
fn empty_columns(alloc: Global, count: usize, words: usize) -> Result<Vec<Vec<u64>>, AllocError> {
    let mut columns = Vec::new(alloc);
    for _ in 0..count {
        columns.push(vec![in alloc; 0u64; words]?)?;
    }
    Ok(columns)
}

// Puts row `k` into the column at an index. Nothing changes past the last column, or past its end.
fn put_row(columns: &mut [Vec<u64>], at: usize, k: usize) {
    if let Some(column) = columns.get_mut(at) {
        if let Some(word) = column.get_mut(k / 64) {
            *word |= 1 << (k % 64);
        }
    }
}

// Puts row `k` into the columns of the bits that are set, where bit 0 is column `first`.
fn put_row_at_bits(columns: &mut [Vec<u64>], first: usize, bits: u64, k: usize) {
    let mut left = bits;
    for _ in 0..64 {
        if left == 0 {
            return;
        }
        let at = first.saturating_add(left.trailing_zeros() as usize);
        put_row(columns, at, k);
        left &= left - 1;
    }
}

// The column at an index, or one without words past the last.
fn column(columns: &[Vec<u64>], at: usize) -> &[u64] {
    match columns.get(at) {
        Some(column) => column.as_slice(),
        None => &[],
    }
}

// Word `w` of a column, or no bits past its end.
fn word_at(column: &[u64], w: usize) -> u64 {
    match column.get(w) {
        Some(word) => *word,
        None => 0,
    }
}

// The rows of word `w` that are in all columns, as bits; all 64 if there is no column.
fn rows_in_all(columns: &[&[u64]], w: usize) -> u64 {
    let mut rows = u64::MAX;
    for column in columns {
        rows &= word_at(column, w);
    }
    rows
}

// Subtracts one from the numbers of the rows whose bits are set, which are not 0.
fn decrement_numbers(numbers: &mut [u64; DIGITS], rows: u64) {
    let mut borrow = rows;
    for digit in 0..DIGITS {
        if borrow == 0 {
            return;
        }
        let before = numbers[digit];
        numbers[digit] = before ^ borrow;
        borrow &= !before;
    }
}

// The rows, among these, whose number is least, and that number, which says nothing if there is no
// row. The numbers have `digits` digits.
fn rows_with_least(numbers: &[u64; DIGITS], digits: usize, rows: u64) -> (u64, u32) {
    let mut rows = rows;
    let mut number = 0u32;
    for digit in (0..digits.min(DIGITS)).rev() {
        let fewer = rows & !numbers[digit];
        if fewer == 0 {
            number |= 1 << digit;
        } else {
            rows = fewer;
        }
    }
    (rows, number)
}

// Adds the rows of word `w` whose bits are set.
fn push_rows_at_bits<'a>(
    rows: &[&'a Cube],
    w: usize,
    bits: u64,
    some: &mut Vec<&'a Cube>,
) -> Result<(), AllocError>
    requires { AreAmong some.old.items rows.now }
    ensures { OnOk result (AreAmong some.new.items rows.now) }
{
    let mut left = bits;
    for _ in 0..64 {
        if left == 0 {
            return Ok(());
        }
        let k = w
            .saturating_mul(64)
            .saturating_add(left.trailing_zeros() as usize);
        if let Some(row) = rows.get(k) {
            some.push(*row)?;
        }
        left &= left - 1;
    }
    Ok(())
}

// Adds the rows of word `w` whose bits are set, which have `open` open literals, unless those of
// `some` have fewer than that: `fewest`. If those have more, they are dropped. Answers how many
// open literals the rows of `some` have then.
fn add_nearest<'a>(
    rows: &[&'a Cube],
    w: usize,
    bits: u64,
    open: u32,
    fewest: u32,
    some: &mut Vec<&'a Cube>,
) -> Result<u32, AllocError>
    requires { AreAmong some.old.items rows.now }
    ensures { OnOk result (AreAmong some.new.items rows.now) }
{
    if bits == 0 || open > fewest {
        return Ok(fewest);
    }
    if open < fewest {
        some.clear();
    }
    push_rows_at_bits(rows, w, bits, some)?;
    Ok(open)
}

// The columns that a question looks at.
struct Columns<'a> {
    // For each literal of the region the rows that have it, and the rows that have its opposite.
    literals: Vec<(&'a [u64], &'a [u64])>,
    // For each output of the region the rows that have it.
    outputs: Vec<&'a [u64]>,
}

// Written out, so that where the columns end a proof has one call, and not one for each list.
impl<'a> Drop for Columns<'a> {
    fn drop(self) {
        let Columns {
            literals: _,
            outputs: _,
        } = self;
    }
}

impl RowBits {
    /// The bits of these rows: bit k of each set is that of `rows[k]`.
    pub(crate) fn of(alloc: Global, shape: Shape, rows: &[&Cube]) -> Result<RowBits, AllocError> {
        let words = rows.len() / 64 + 1;
        let outputs = shape.inputs().saturating_mul(2);
        let first_digit = outputs.saturating_add(shape.outputs());
        let digits = usize::BITS.saturating_sub(shape.inputs().leading_zeros()) as usize;
        let mut bits = RowBits {
            columns: empty_columns(alloc, first_digit.saturating_add(digits), words)?,
            outputs,
            first_digit,
            words,
            fewest: fewest_literals(rows),
        };
        for k in 0..rows.len() {
            bits.add_row(shape, rows[k], k);
        }
        Ok(bits)
    }

    /// The fewest literals of a row, `u32::MAX` if there is none.
    pub(crate) fn fewest_literals(&self) -> u32 {
        self.fewest
    }

    // Adds row `k` with its literals, their number, and its outputs.
    fn add_row(&mut self, shape: Shape, row: &Cube, k: usize) {
        let columns = self.columns.as_mut_slice();
        for w in 0..shape.inputs() / 32 + 1 {
            put_row_at_bits(columns, w.saturating_mul(64), row.literal_bits(w), k);
        }
        for w in 0..shape.outputs() / 64 + 1 {
            let first = self.outputs.saturating_add(w.saturating_mul(64));
            put_row_at_bits(columns, first, row.output_bits(w), k);
        }
        put_row_at_bits(columns, self.first_digit, row.literals() as u64, k);
    }

    // For each literal of the region its column, and that of its opposite.
    fn literal_columns(
        &self,
        alloc: Global,
        region: &Cube,
    ) -> Result<Vec<(&[u64], &[u64])>, AllocError> {
        let inputs = region.shape().inputs();
        let mut columns = Vec::new(alloc);
        let mut from = 0;
        while from < inputs {
            let Some(i) = region.next_literal(from) else {
                break;
            };
            let ones = column(&self.columns, i.saturating_mul(2));
            let zeros = column(&self.columns, i.saturating_mul(2).saturating_add(1));
            let pair = if region.symbol(i) == Symbol::One {
                (ones, zeros)
            } else {
                (zeros, ones)
            };
            columns.push(pair)?;
            from = i + 1;
        }
        Ok(columns)
    }

    // For each output of the region its column: a bit for each row that has it.
    fn output_columns(&self, alloc: Global, region: &Cube) -> Result<Vec<&[u64]>, AllocError> {
        let mut columns = Vec::new(alloc);
        for j in 0..region.shape().outputs() {
            if region.output(j) {
                columns.push(column(&self.columns, self.outputs.saturating_add(j)))?;
            }
        }
        Ok(columns)
    }

    // The rows with fewest open literals among the rows of word `w` that meet the region and have
    // all of its outputs, as bits, and how many open literals they have, which says nothing if
    // there is no such row.
    fn nearest_in_word(&self, columns: &Columns, w: usize) -> (u64, u32) {
        let mut numbers = [0u64; DIGITS];
        let mut digits = 0;
        for at in self.first_digit..self.columns.len() {
            if digits < DIGITS {
                numbers[digits] = word_at(column(&self.columns, at), w);
                digits += 1;
            }
        }
        let mut rows = rows_in_all(&columns.outputs, w);
        for (own, opposite) in &columns.literals {
            rows &= !word_at(opposite, w);
            decrement_numbers(&mut numbers, word_at(own, w));
        }
        rows_with_least(&numbers, digits, rows)
    }

    /// The rows with fewest open literals among the rows, whose bits these are, that meet the
    /// region and have all of its outputs. It stops at a row that contains the region.
    pub(crate) fn nearest<'a>(
        &self,
        alloc: Global,
        rows: &[&'a Cube],
        region: &Cube,
    ) -> Result<Vec<&'a Cube>, AllocError>
        ensures { IfOk result (λ some. AreAmong some.items rows.now) }
    {
        let columns = Columns {
            literals: self.literal_columns(alloc, region)?,
            outputs: self.output_columns(alloc, region)?,
        };
        let mut some = Vec::new(alloc);
        let mut fewest = u32::MAX;
        for w in 0..self.words {
            let (bits, open) = self.nearest_in_word(&columns, w);
            fewest = add_nearest(rows, w, bits, open, fewest, &mut some)?;
            if fewest == 0 {
                return Ok(some);
            }
        }
        Ok(some)
    }
}
