//! A hint: the inputs in two groups, such that no row has literals in both.
//!
//! Two inputs are connected if a row has literals at both. Mostly all rows are connected, which
//! some passes over their words show. Only if they are not, the connected components are found by
//! union-find, and the first of them make one group, until it has half of the rows.

use cube::{Cube, Shape};
use std::alloc::{AllocError, Global};

// The most words that the inputs of a cube take.
const WORDS: usize = 32;

// At most this many passes over the rows look for the component of the first row.
const PASSES: usize = 8;

// Whether the row has a literal at one of these inputs.
fn has_literal_among(row: &Cube, words: usize, reached: &[u64; WORDS]) -> bool {
    for w in 0..words.min(WORDS) {
        if row.literal_inputs(w) & reached[w] != 0 {
            return true;
        }
    }
    false
}

// Adds the inputs at which the row has a literal.
fn add_inputs(row: &Cube, words: usize, reached: &mut [u64; WORDS]) {
    for w in 0..words.min(WORDS) {
        reached[w] |= row.literal_inputs(w);
    }
}

// Adds the inputs of the rows that have a literal at an input that was reached.
fn add_reached_inputs(rows: &[Cube], words: usize, reached: &mut [u64; WORDS]) {
    for row in rows {
        if has_literal_among(row, words, reached) {
            add_inputs(row, words, reached);
        }
    }
}

// Whether all rows are seen to be connected, in at most `PASSES` passes.
fn are_connected(shape: Shape, rows: &[Cube]) -> bool {
    let words = shape.inputs() / 32 + 1;
    let mut used = [0u64; WORDS];
    for row in rows {
        add_inputs(row, words, &mut used);
    }
    let mut reached = [0u64; WORDS];
    if let Some(first) = rows.first() {
        add_inputs(first, words, &mut reached);
    }
    for _ in 0..PASSES {
        let before = reached;
        add_reached_inputs(rows, words, &mut reached);
        if reached == used {
            return true;
        }
        if reached == before {
            return false;
        }
    }
    false
}

// The input that stands for the component of input `i` (union-find).
fn leader(leaders: &[usize], i: usize) -> usize {
    let mut at = i;
    for _ in 0..leaders.len() {
        match leaders.get(at) {
            Some(next) if *next != at => at = *next,
            _ => return at,
        }
    }
    at
}

// Joins the components of the inputs at which the row has literals.
fn join_inputs(row: &Cube, leaders: &mut [usize]) {
    let inputs = row.shape().inputs();
    let Some(first) = row.next_literal(0) else {
        return;
    };
    let own = leader(leaders, first);
    let mut from = first + 1;
    while from < inputs {
        let Some(i) = row.next_literal(from) else {
            return;
        };
        if let Some(slot) = leaders.get_mut(leader(leaders, i)) {
            *slot = own;
        }
        from = i + 1;
    }
}

// How many rows have literals in each component, at the input that stands for it, and 0 at other
// inputs. A row without a literal counts for the component of input 0.
fn group_sizes(alloc: Global, rows: &[Cube], leaders: &[usize]) -> Result<Vec<usize>, AllocError> {
    let mut sizes = vec![in alloc; 0usize; leaders.len()]?;
    for row in rows {
        if let Some(size) = sizes.get_mut(leader(leaders, row.next_literal(0).unwrap_or(0))) {
            *size = size.saturating_add(1);
        }
    }
    Ok(sizes)
}

// The links of the union-find: for each input the next one on the way to that which stands for its
// component.
fn input_leaders(alloc: Global, shape: Shape, rows: &[Cube]) -> Result<Vec<usize>, AllocError> {
    let mut leaders = Vec::with_capacity(alloc, shape.inputs())?;
    for i in 0..shape.inputs() {
        leaders.push(i)?;
    }
    for row in rows {
        join_inputs(row, &mut leaders);
    }
    Ok(leaders)
}

// The components of the one group, each marked at the input that stands for it: the first ones,
// until they have half of the rows, but not all that have rows.
fn first_half_of_groups(
    alloc: Global,
    sizes: &[usize],
    rows: usize,
) -> Result<Vec<bool>, AllocError> {
    let mut groups = Vec::with_capacity(alloc, sizes.len())?;
    let mut taken = 0usize;
    for size in sizes {
        let with = taken.saturating_add(*size);
        let is_taken = *size > 0 && taken < rows / 2 && with < rows;
        if is_taken {
            taken = with;
        }
        groups.push(is_taken)?;
    }
    Ok(groups)
}

// For each input whether its component is marked.
fn inputs_of_groups(
    alloc: Global,
    leaders: &[usize],
    groups: &[bool],
) -> Result<Vec<bool>, AllocError> {
    let mut inputs = Vec::with_capacity(alloc, leaders.len())?;
    for i in 0..leaders.len() {
        inputs.push(groups.get(leader(leaders, i)).copied().unwrap_or(false))?;
    }
    Ok(inputs)
}

/// For each input whether it is in the one group, or `None` if all rows are seen to be connected.
/// There may be no row with a literal in one of the groups.
pub(crate) fn groups_hint(
    alloc: Global,
    shape: Shape,
    rows: &[Cube],
) -> Result<Option<Vec<bool>>, AllocError> {
    if are_connected(shape, rows) {
        return Ok(None);
    }
    let leaders = input_leaders(alloc, shape, rows)?;
    let sizes = group_sizes(alloc, rows, &leaders)?;
    let groups = first_half_of_groups(alloc, &sizes, rows.len())?;
    Ok(Some(inputs_of_groups(alloc, &leaders, &groups)?))
}
