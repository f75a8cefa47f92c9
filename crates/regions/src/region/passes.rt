//! How long splits go on before a search is asked. No answer depends on it.

use cube::Cube;

// At most this many rows are counted.
const SAMPLE: usize = 64;

// Rows with at most this many literals on average are short.
const SHORT: usize = 4;

// Row `k` of those that are counted, evenly from the list; `None` past the last. The step is odd, so
// that of rows in pairs both kinds are counted.
fn sampled_row<'a>(rows: &[&'a Cube], k: usize) -> Option<&'a Cube> {
    let step = (rows.len() / SAMPLE + 1) | 1;
    match rows.get(k.saturating_mul(step)) {
        Some(row) => Some(*row),
        None => None,
    }
}

// Whether the rows are short on average, as far as some of them show; `true` if there is no row.
fn are_short(rows: &[&Cube]) -> bool {
    let mut literals: usize = 0;
    let mut counted: usize = 0;
    for k in 0..SAMPLE {
        let Some(row) = sampled_row(rows, k) else {
            break;
        };
        literals = literals.saturating_add(row.literals());
        counted = counted.saturating_add(1);
    }
    literals <= counted.saturating_mul(SHORT)
}

/// How many passes over the rows the splits of the first question may make: about four times the
/// root of their number, and an eighth of that if they are short.
///
/// Easy questions about many rows, such as decision trees and symmetric functions, make at most half
/// as many, and a search has to read all rows before it begins. Short rows are read sooner, and one
/// literal after the other follows from them in a search.
pub(crate) fn passes_before_search(rows: &[&Cube]) -> u64 {
    let bits = usize::BITS.saturating_sub(rows.len().leading_zeros());
    let root: u64 = 1 << (bits / 2);
    if are_short(rows) {
        root / 2 + 1
    } else {
        root.saturating_mul(4)
    }
}

/// How many outputs of the region the row has.
pub(crate) fn count_common_outputs(row: &Cube, region: &Cube) -> usize {
    let mut common: usize = 0;
    for w in 0..region.shape().outputs() / 64 + 1 {
        let both = row.output_bits(w) & region.output_bits(w);
        common = common.saturating_add(both.count_ones() as usize);
    }
    common
}

// How many literals of a row the searches for the region read, on average of some rows: each once
// for each output.
fn literals_read(rows: &[&Cube], region: &Cube) -> usize {
    let mut read: usize = 0;
    let mut counted: usize = 0;
    for k in 0..SAMPLE {
        let Some(row) = sampled_row(rows, k) else {
            break;
        };
        let times = count_common_outputs(row, region);
        read = read.saturating_add(row.literals().saturating_mul(times));
        counted = counted.saturating_add(1);
    }
    read / counted.max(1)
}

/// How many passes a second try may make, from the start, where the first was not enough: one for
/// each literal that searches read of a row; 0 if that is less than four times the first try.
///
/// Each output has a search of its own. With many outputs and long rows, and one literal after the
/// other that follows, splits are done long before all searches are built.
pub(crate) fn passes_for_second_try(rows: &[&Cube], region: &Cube) -> u64 {
    let read = literals_read(rows, region) as u64;
    if read / 2 < passes_before_search(rows) {
        return 0;
    }
    read
}
