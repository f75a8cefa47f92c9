//! Tables of worked functions, written as rows.
use covering::short_cover;
use minimum::{
    Choice, Effort, Table, least_cover, least_cover_plain, least_cover_with_effort, reduce,
};
use pla::{Echo, Ending, Pla, read_pla};
use std::alloc::{AllocError, Global};
use std::test::Fail;
use test_devices::{Given, Taken};

/// What a file describes.
pub(crate) fn read(alloc: Global, text: &[u8]) -> Result<Pla, Fail> {
    let mut input = Given::new(text.to_vec(alloc)?, 4096, Ending::End);
    let mut output = Taken::new(alloc, 0, 1, false)?;
    let read = read_pla(alloc, &mut input, &mut output, Echo::Eat);
    Ok(read.ok().ok_or("the file has a fault")?)
}

/// The numbers that digits stand for.
fn digits(alloc: Global, text: &[u8]) -> Result<Vec<usize>, AllocError> {
    let mut numbers = Vec::new(alloc);
    for c in text {
        numbers.push((*c).saturating_sub(b'0') as usize)?;
    }
    Ok(numbers)
}

/// The table of these rows of columns, each column a digit; `None` where they aren't rows.
fn table_of(alloc: Global, rows: &[u8], literals: &[u32]) -> Result<Option<Table>, AllocError> {
    let mut lists = Vec::new(alloc);
    for row in rows.split(|c| *c == b' ') {
        lists.push(digits(alloc, row)?)?;
    }
    Table::new(alloc, lists, literals.to_vec(alloc)?)
}

/// The same, of rows.
fn table(alloc: Global, rows: &[u8], literals: &[u32]) -> Result<Table, Fail> {
    match table_of(alloc, rows, literals)? {
        Some(table) => Ok(table),
        None => Err("rows")?,
    }
}

/// Whether the search answers these columns.
pub(crate) fn least_is(
    table: &Table,
    choice: Choice,
    columns: &[usize],
) -> Result<bool, AllocError> {
    let least = least_cover(table, choice)?;
    Ok(least.as_slice() == columns)
}

/// Whether the plain search answers these columns.
pub(crate) fn plain_is(
    table: &Table,
    choice: Choice,
    columns: &[usize],
) -> Result<bool, AllocError> {
    let plain = least_cover_plain(table, choice)?;
    Ok(plain.as_slice() == columns)
}

/// Whether no column is taken and all are live.
fn are_all_live(table: &Table) -> bool {
    for column in 0..table.columns() {
        if table.is_taken(column) || !table.is_live(column) {
            return false;
        }
    }
    true
}

/// Whether just these columns are taken, none is live and no row is left.
pub(crate) fn has_taken(table: &Table, columns: &[usize]) -> bool {
    for column in 0..table.columns() {
        if table.is_live(column) || table.is_taken(column) != columns.contains(&column) {
            return false;
        }
    }
    table.row_count() == 0
}

/// Six columns in a ring, each row two neighbours: the function 000, 001, 010, 101, 110, 111.
const RING: &[u8] = b"23 03 12 04 15 45";

/// Three columns; the last stands where the first does and once more, and yet the first is taken.
const THREE: &[u8] = b"02 12 1";

/// Rows, the literals of each column, a choice, and the least columns.
const LEAST: [(&[u8], &[u32], Choice, &[usize]); 6] = [
    // The first of two.
    (RING, &[2, 2, 2, 2, 2, 2], Choice::First, &[0, 2, 5]),
    (RING, &[2, 2, 2, 2, 2, 2], Choice::Literals, &[0, 2, 5]),
    (b"0", &[2], Choice::First, &[0]),
    (THREE, &[2, 2, 2], Choice::First, &[0, 1]),
    // One row with two columns, of which the second has fewer literals.
    (b"01", &[2, 1], Choice::First, &[0]),
    (b"01", &[2, 1], Choice::Literals, &[1]),
];

/// Whether both searches answer the columns, and no column is taken before.
fn is_solved(
    alloc: Global,
    rows: &[u8],
    literals: &[u32],
    choice: Choice,
    columns: &[usize],
) -> Result<bool, Fail> {
    let made = table(alloc, rows, literals)?;
    let is_whole = made.columns() == literals.len() && are_all_live(&made);
    Ok(is_whole && least_is(&made, choice, columns)? && plain_is(&made, choice, columns)?)
}

#[test]
fn least_columns_are_found(rt: HostRuntime) -> Result<(), Fail> {
    for (rows, literals, choice, columns) in LEAST {
        assert!(rt; is_solved(rt.alloc(), rows, literals, choice, columns)?);
    }
    Ok(())
}

/// Rows, the literals of each column, a choice, and the columns that a reduction takes. It leaves no
/// row then, and else the six of the ring.
const REDUCED: [(&[u8], &[u32], Choice, &[usize]); 6] = [
    (RING, &[2, 2, 2, 2, 2, 2], Choice::First, &[]),
    (RING, &[2, 2, 2, 2, 2, 2], Choice::Literals, &[]),
    (b"0", &[2], Choice::First, &[0]),
    (THREE, &[2, 2, 2], Choice::First, &[0, 1]),
    // The column of fewer literals stays, and the first where literals do not count.
    (b"01", &[2, 1], Choice::Literals, &[1]),
    (b"01", &[2, 1], Choice::First, &[0]),
];

/// Whether these columns are taken of so many, and are the least then; where none is, all are live.
fn is_left(table: &Table, columns: usize, taken: &[usize]) -> Result<bool, AllocError> {
    if table.columns() != columns {
        return Ok(false);
    }
    if taken.is_empty() {
        return Ok(table.row_count() == 6 && are_all_live(table));
    }
    Ok(has_taken(table, taken) && least_is(table, Choice::First, taken)?)
}

#[test]
fn tables_are_reduced(rt: HostRuntime) -> Result<(), Fail> {
    for (rows, literals, choice, taken) in REDUCED {
        let reduced = reduce(table(rt.alloc(), rows, literals)?, choice)?;
        assert!(rt; is_left(&reduced, literals.len(), taken)?);
    }
    Ok(())
}

/// Rows that do not rise, or are empty, or name a column that there is not.
const NO_ROWS: [&[u8]; 3] = [b"10", b"", b"02"];

/// No table is made of them.
#[test]
fn a_row_that_does_not_rise_is_refused(rt: HostRuntime) -> Result<(), Fail> {
    for rows in NO_ROWS {
        assert!(rt; table_of(rt.alloc(), rows, &[2, 1])?.is_none());
    }
    Ok(())
}

/// A row for each two of nine columns: a half of each column holds every row, and no cover lacks
/// two columns. So nothing is reduced, and no bound tells that eight columns are the fewest.
const PAIRS: &[u8] = b"01 02 03 04 05 06 07 08 12 13 14 15 16 17 18 23 24 25 26 27 28 \
    34 35 36 37 38 45 46 47 48 56 57 58 67 68 78";

/// Whether the search answers these columns; what it did is added.
fn least_is_counted(
    table: &Table,
    columns: &[usize],
    effort: &mut Effort,
) -> Result<bool, AllocError> {
    let least = least_cover_with_effort(table, Choice::First, effort)?;
    Ok(least.as_slice() == columns)
}

/// Whether nothing was done.
fn is_none(effort: Effort) -> bool {
    effort.tables == 0 && effort.questions == 0 && effort.rounds == 0
}

/// Whether the figures are twice those of the other.
fn is_twice(effort: Effort, other: Effort) -> bool {
    effort.tables == other.tables.wrapping_mul(2)
        && effort.questions == other.questions.wrapping_mul(2)
        && effort.rounds == other.rounds.wrapping_mul(2)
}

/// Whether the search for these columns does something, and twice as much if it is made twice.
fn adds_up(table: &Table, columns: &[usize]) -> Result<bool, AllocError> {
    let mut effort = Effort::none();
    let is_first = is_none(effort) && least_is_counted(table, columns, &mut effort)?;
    let once = effort;
    let is_second = least_is_counted(table, columns, &mut effort)?;
    let is_some = once.tables > 0 && once.questions > 0 && once.rounds > 0;
    Ok(is_first && is_second && is_some && is_twice(effort, once))
}

#[test]
fn an_effort_adds_up(rt: HostRuntime) -> Result<(), Fail> {
    let pairs = table(rt.alloc(), PAIRS, &[2, 2, 2, 2, 2, 2, 2, 2, 2])?;
    assert!(rt; adds_up(&pairs, &[0, 1, 2, 3, 4, 5, 6, 7])?);
    Ok(())
}

#[test]
fn no_rows_take_no_effort(rt: HostRuntime) -> Result<(), Fail> {
    let reduced = reduce(table(rt.alloc(), THREE, &[2, 2, 2])?, Choice::First)?;
    let mut effort = Effort::none();
    assert!(rt; least_is_counted(&reduced, &[0, 1], &mut effort)? && is_none(effort));
    Ok(())
}

/// So many rings side by side.
pub(crate) fn rings(alloc: Global, count: usize) -> Result<Option<Table>, AllocError> {
    let ring: [[usize; 2]; 6] = [[2, 3], [0, 3], [1, 2], [0, 4], [1, 5], [4, 5]];
    let mut rows: Vec<Vec<usize>> = Vec::new(alloc);
    for k in 0..count {
        let first = k.wrapping_mul(6);
        for pair in &ring {
            let mut row = Vec::new(alloc);
            row.push(pair[0].wrapping_add(first))?;
            row.push(pair[1].wrapping_add(first))?;
            rows.push(row)?;
        }
    }
    let weights: Vec<u32> = vec![in alloc; 6; count.wrapping_mul(6)]?;
    Table::new(alloc, rows, weights)
}

/// The first columns of each of so many rings.
pub(crate) fn firsts(alloc: Global, count: usize) -> Result<Vec<usize>, AllocError> {
    let mut columns: Vec<usize> = Vec::new(alloc);
    for k in 0..count {
        let first = k.wrapping_mul(6);
        columns.push(first)?;
        columns.push(first.wrapping_add(2))?;
        columns.push(first.wrapping_add(5))?;
    }
    Ok(columns)
}

/// Whether the search answers these columns with each choice, and a short cover has no fewer.
fn has_least(table: &Table, columns: &[usize]) -> Result<bool, AllocError> {
    Ok(
        least_is(table, Choice::First, columns)?
            && least_is(table, Choice::Literals, columns)?
            && short_cover(table, &[])?.len() >= columns.len(),
    )
}

/// Whether the search answers the first columns of so many rings, also as reduced.
pub(crate) fn rings_are_solved(
    alloc: Global,
    table: Table,
    count: usize,
) -> Result<bool, AllocError> {
    let columns = firsts(alloc, count)?;
    let is_solved = has_least(&table, &columns)?;
    let reduced = reduce(table, Choice::First)?;
    Ok(is_solved && are_all_live(&reduced) && least_is(&reduced, Choice::First, &columns)?)
}

/// The next number of a fixed sequence.
fn shuffled(seed: u64) -> u64 {
    let x = seed
        .wrapping_mul(6364136223846793005)
        .wrapping_add(1442695040888963407);
    x ^ (x >> 29)
}

/// A table of four to twelve columns whose rows and weights go by the seed.
fn drawn(alloc: Global, seed: u64) -> Result<Option<Table>, AllocError> {
    let mut state = shuffled(seed);
    let columns = 4 + usize::try_from(state % 9).unwrap_or(0);
    let mut rows: Vec<Vec<usize>> = Vec::new(alloc);
    for _ in 0..9 {
        state = shuffled(state);
        let mut row: Vec<usize> = Vec::new(alloc);
        for column in 0..12usize {
            if column < columns && (state >> (5 * column)) % 3 == 0 {
                row.push(column)?;
            }
        }
        if row.is_empty() {
            row.push(3)?;
        }
        rows.push(row)?;
    }
    let mut weights: Vec<u32> = Vec::new(alloc);
    for _ in 0..columns {
        state = shuffled(state);
        weights.push(if state % 2 == 0 { 2 } else { 1 })?;
    }
    Table::new(alloc, rows, weights)
}

/// Whether the search answers these columns, also where its work is counted, and a short cover near them
/// has no fewer.
pub(crate) fn search_answers(
    table: &Table,
    choice: Choice,
    columns: &[usize],
) -> Result<bool, AllocError> {
    let mut effort = Effort::none();
    let counted = least_cover_with_effort(table, choice, &mut effort)?;
    Ok(
        counted.as_slice() == columns
            && least_is(table, choice, columns)?
            && short_cover(table, columns)?.len() >= columns.len(),
    )
}

/// Whether both searches answer the same, on the table as it is and as reduced.
pub(crate) fn searches_agree(made: Table, choice: Choice) -> Result<bool, AllocError> {
    let plain = least_cover_plain(&made, choice)?;
    let is_answered = search_answers(&made, choice, &plain)?;
    let reduced = reduce(made, choice)?;
    Ok(
        is_answered
            && search_answers(&reduced, choice, &plain)?
            && plain_is(&reduced, choice, &plain)?,
    )
}

#[test]
fn searches_agree_on_drawn_tables(rt: HostRuntime) -> Result<(), Fail> {
    for seed in 0..2000u64 {
        for choice in [Choice::First, Choice::Literals] {
            let made = drawn(rt.alloc(), seed)?.ok_or("rows")?;
            assert!(rt; searches_agree(made, choice)?);
        }
    }
    Ok(())
}
