//! A list with the same places and fewer rows, for tables of truth and for rows that were cut in
//! pieces.
//!
//! The rows of each output are taken by themselves. Input by input, two of them that have opposite
//! literals there and differ nowhere else become one without a literal. What is left of all outputs
//! is put together: rows with equal symbols become one with the outputs of both. Which rows may
//! become one is found by hashes of their symbols, so that no pairs are formed; in which order
//! inputs are taken is a hint from a sample. All this is done again while the list gets shorter.
pub(crate) mod input_order;
pub(crate) mod row_table;

ghost use Rattle.std.specs.Prelude.{◌≡◌, ◌<◌, ◌≤◌, ◌&&◌, ◌∷◌, [], IfOk, IfSome, OnOk, All, length, nat_eq, slice_index_or};
ghost use Rattle.cube.specs.Cube.{Cube as Row, HasSize, Place, SameSize, holds};
ghost use Rattle.rows.specs.Places.{places};
ghost use Rattle.cover.specs.Merging.{Adds, IsUnion, StandsFor};

use crate::list::Cover;
use crate::merging::input_order::{have_neighbours, order_of_inputs};
use crate::merging::row_table::{RowTable, hash_at, hashes_of, symbol_hash};
use cube::{Cube, Shape, Symbol};
use rows::{cube_of_output, is_same_symbol, opposite};
use std::alloc::{AllocError, Global};

// Lists of fewer rows stay as they are.
const LEAST_ROWS: usize = 8;

// Lists of which a pass may take more steps than this stay as they are: rows times inputs times
// outputs.
const MOST_STEPS: usize = 1_000_000_000;

// At most this many passes are made.
const MOST_PASSES: usize = 8;

// How many steps a pass takes at most.
fn most_steps(list: &Cover) -> usize {
    let shape = list.shape();
    let outputs = shape.outputs();
    list.len()
        .saturating_mul(shape.inputs())
        .saturating_mul(outputs)
}

// One cube with the places of both, if they have opposite literals at input `i` and differ nowhere
// else; `None` if not.
fn merge_at(row: &Cube, other: &Cube, i: usize) -> Result<Option<Cube>, AllocError>
    requires size { SameSize row.now other.now }
    requires input { i < length row.now.symbols }
    ensures size { IfOk result (λ found. IfSome found (λ c. SameSize c row.now)) }
    ensures places { IfOk result (λ found. IfSome found (λ c. IsUnion row.now other.now c)) }
{
    if !is_same_symbol(other.symbol(i), opposite(row.symbol(i))) {
        return Ok(None);
    }
    let freed = row.with_symbol(i, Symbol::Dash)?;
    let other_freed = other.with_symbol(i, Symbol::Dash)?;
    if freed.is_equal(&other_freed) {
        Ok(Some(freed))
    } else {
        Ok(None)
    }
}

// One cube with the places of both, if their symbols are equal: with the outputs of either. `None`
// if they are not.
fn join_outputs(row: &Cube, other: &Cube) -> Result<Option<Cube>, AllocError>
    requires { SameSize row.now other.now }
    ensures size { IfOk result (λ found. IfSome found (λ c. SameSize c row.now)) }
    ensures places { IfOk result (λ found. IfSome found (λ c. IsUnion row.now other.now c)) }
{
    let Some(joined) = row.output_consensus(other)? else {
        return Ok(None);
    };
    if joined.contains(row) && joined.contains(other) {
        Ok(Some(joined))
    } else {
        Ok(None)
    }
}

// One cube with the places of both, if they become one at this input, or, where none is given, if
// their symbols are equal.
fn union_of(row: &Cube, other: &Cube, input: Option<usize>) -> Result<Option<Cube>, AllocError>
    requires size { SameSize row.now other.now }
    requires input { IfSome input (λ i. i < length row.now.symbols) }
    ensures size { IfOk result (λ found. IfSome found (λ c. SameSize c row.now)) }
    ensures places { IfOk result (λ found. IfSome found (λ c. IsUnion row.now other.now c)) }
{
    match input {
        Some(i) => merge_at(row, other, i),
        None => join_outputs(row, other),
    }
}

// The hash under which a row is found that may become one with this: that of its symbols, without
// the literal at this input; `None` if it has none there.
fn key_of(row: &Cube, hash: u64, input: Option<usize>) -> Option<u64>
    requires { IfSome input (λ i. i < length row.now.symbols) }
{
    let Some(i) = input else {
        return Some(hash);
    };
    match row.symbol(i) {
        Symbol::Dash => None,
        literal => Some(hash ^ symbol_hash(i, literal)),
    }
}

// Rows, and the hashes of their symbols.
#[derive(Drop)]
struct HashedRows {
    rows: Cover,
    hashes: Vec<u64>,
}

impl HashedRows {
    // No rows.
    fn new(alloc: Global, shape: Shape) -> HashedRows
        ensures { result.rows ≡ record { size = shape; cubes = [] } }
    {
        HashedRows {
            rows: Cover::new(alloc, shape),
            hashes: Vec::new(alloc),
        }
    }

    // Adds a row at the end.
    fn add(&mut self, row: Cube, hash: u64) -> Result<(), AllocError>
        requires { HasSize row self.old.rows.size }
        ensures { OnOk result (Adds self.old.rows (row ∷ []) self.new.rows) }
    {
        self.hashes.push(hash)?;
        match self.rows.push(row) {
            Ok(()) => Ok(()),
            Err(_) => Err(AllocError),
        }
    }

    // Puts a cube in place of the row at an index, with its hash.
    fn put(&mut self, at: usize, cube: Cube, hash: u64)
        requires index { at < length self.old.rows.cubes }
        requires size { HasSize cube self.old.rows.size }
        ensures { (row : Row) → IsUnion row (slice_index_or self.old.rows.cubes at cube) cube
            → Adds self.old.rows (row ∷ []) self.new.rows }
    {
        self.rows.replace(at, cube);
        if let Some(known) = self.hashes.get_mut(at) {
            *known = hash;
        }
    }

    // One cube with the places of a row and of that at an index, if they become one; `None` if not,
    // and past the end.
    fn union_at(
        &self,
        at: usize,
        row: &Cube,
        input: Option<usize>,
    ) -> Result<Option<Cube>, AllocError>
        requires size { HasSize row.now self.now.rows.size }
        requires input { IfSome input (λ i. i < self.now.rows.size.inputs) }
        ensures index { IfOk result
            (λ found. IfSome found (λ c. at < length self.now.rows.cubes)) }
        ensures size { IfOk result (λ found. IfSome found (λ c. HasSize c self.now.rows.size)) }
        ensures places { IfOk result (λ found. IfSome found
            (λ c. IsUnion row.now (slice_index_or self.now.rows.cubes at c) c)) }
    {
        match self.rows.get(at) {
            Some(other) => union_of(row, other, input),
            None => Ok(None),
        }
    }

    // Adds a row at the end; or puts one cube in place of the row that the table has for it, if the
    // two become one at this input, or, where none is given, by their outputs.
    fn add_or_merge(
        &mut self,
        table: &mut RowTable,
        input: Option<usize>,
        row: Cube,
        hash: u64,
    ) -> Result<(), AllocError>
        requires size { HasSize row self.old.rows.size }
        requires input { IfSome input (λ i. i < self.old.rows.size.inputs) }
        ensures { OnOk result (Adds self.old.rows (row ∷ []) self.new.rows) }
    {
        let Some(key) = key_of(&row, hash, input) else {
            return self.add(row, hash);
        };
        let Some(at) = table.find_or_keep(key, self.rows.len()) else {
            return self.add(row, hash);
        };
        match self.union_at(at, &row, input)? {
            Some(joined) => {
                self.put(at, joined, key);
                Ok(())
            }
            None => self.add(row, hash),
        }
    }
}

// Adds rows, from the last one on, each merged with one that is there if it can be: at this input,
// or, where none is given, by their outputs.
fn add_rows(
    all: &mut HashedRows,
    table: &mut RowTable,
    input: Option<usize>,
    more: HashedRows,
) -> Result<(), AllocError>
    requires size { more.rows.size ≡ all.old.rows.size }
    requires input { IfSome input (λ i. i < all.old.rows.size.inputs) }
    ensures { OnOk result (Adds all.old.rows more.rows.cubes all.new.rows) }
{
    let HashedRows { rows, mut hashes } = more;
    let mut waiting = rows.into_cubes();
    while let Some(row) = waiting.pop() {
        let hash = hashes.pop().unwrap_or(0);
        all.add_or_merge(table, input, row, hash)?;
    }
    Ok(())
}

// The rows, those made one that can be at input `i`.
fn merge_rows_at(alloc: Global, i: usize, rows: HashedRows) -> Result<HashedRows, AllocError>
    requires { i < rows.rows.size.inputs }
    ensures { IfOk result (λ merged. StandsFor rows.rows merged.rows) }
{
    let mut table = RowTable::new(alloc, rows.rows.len())?;
    let mut merged = HashedRows::new(alloc, rows.rows.shape());
    add_rows(&mut merged, &mut table, Some(i), rows)?;
    Ok(merged)
}

// The rows, those made one that can be at these inputs, one input after the other.
fn merge_at_inputs(
    alloc: Global,
    order: &[usize],
    rows: HashedRows,
) -> Result<HashedRows, AllocError>
    requires { All (λ i. i < rows.rows.size.inputs) order.now }
    ensures { IfOk result (λ merged. StandsFor rows.rows merged.rows) }
{
    let mut merged = rows;
    for i in order {
        merged = merge_rows_at(alloc, *i, merged)?;
    }
    Ok(merged)
}

// The meets of the list's rows with a cube without literals, those that have a place, in their
// order: each keeps the hash of its row.
fn rows_within(
    alloc: Global,
    list: &Cover,
    hashes: &[u64],
    only: &Cube,
) -> Result<HashedRows, AllocError>
    requires { HasSize only.now list.now.size }
    ensures size { IfOk result (λ part. part.rows.size ≡ list.now.size) }
    ensures places { IfOk result (λ part. (p : Place)
        → places part.rows.cubes p ≡ (places list.now.cubes p && holds only.now p)) }
{
    let cubes = list.as_slice();
    let mut part = HashedRows::new(alloc, list.shape());
    for k in 0..cubes.len() {
        if let Some(row) = cubes[k].meet(only)? {
            part.add(row, hash_at(hashes, k))?;
        }
    }
    Ok(part)
}

// Rows of output `j` alone, merged input by input: the places that the list has there.
fn merge_rows_of_output(
    alloc: Global,
    list: &Cover,
    hashes: &[u64],
    j: usize,
) -> Result<HashedRows, AllocError>
    requires { j < list.now.size.outputs }
    ensures size { IfOk result (λ part. part.rows.size ≡ list.now.size) }
    ensures places { IfOk result (λ part. (p : Place) → places part.rows.cubes p
        ≡ (places list.now.cubes p && nat_eq p.output j)) }
{
    let only = cube_of_output(alloc, list.shape(), j)?;
    let rows = rows_within(alloc, list, hashes, &only)?;
    let order = order_of_inputs(alloc, &rows.rows, &rows.hashes)?;
    merge_at_inputs(alloc, &order, rows)
}

// The merged rows of all outputs, those with equal symbols made one; `None` if they are no fewer
// than those of the list.
fn merge_rows_of_outputs(
    alloc: Global,
    list: &Cover,
    hashes: &[u64],
) -> Result<Option<Cover>, AllocError>
    ensures { IfOk result (λ found. IfSome found (λ fewer. StandsFor list.now fewer)) }
{
    let mut table = RowTable::new(alloc, list.len())?;
    let mut all = HashedRows::new(alloc, list.shape());
    for j in 0..list.shape().outputs() {
        let rows = merge_rows_of_output(alloc, list, hashes, j)?;
        add_rows(&mut all, &mut table, None, rows)?;
        if all.rows.len() >= list.len() {
            return Ok(None);
        }
    }
    let HashedRows { rows, hashes: _ } = all;
    if rows.len() > list.len() {
        return Ok(None);
    }
    Ok(Some(rows))
}

// A list with the same places and no more rows, by one pass over all inputs; `None` where there are
// few rows or too many steps, where a sample shows that it does not pay, or where it leaves no fewer
// rows.
fn merge_rows_once(list: &Cover) -> Result<Option<Cover>, AllocError>
    ensures size { IfOk result (λ found. IfSome found (λ fewer. fewer.size ≡ list.now.size)) }
    ensures places { IfOk result (λ found. IfSome found (λ fewer. (p : Place)
        → places fewer.cubes p ≡ places list.now.cubes p)) }
    ensures no_more { IfOk result (λ found. IfSome found (λ fewer.
        length fewer.cubes ≤ length list.now.cubes)) }
{
    if list.len() < LEAST_ROWS || most_steps(list) > MOST_STEPS {
        return Ok(None);
    }
    let alloc = list.allocator();
    let hashes = hashes_of(alloc, list.as_slice())?;
    if !have_neighbours(alloc, list, &hashes)? {
        return Ok(None);
    }
    merge_rows_of_outputs(alloc, list, &hashes)
}

/// A list with the same places and no more rows; `None` where the rows are few or merging takes too
/// many steps, where a sample shows that it does not pay, or where it leaves no fewer rows.
///
/// Rows of one output that differ in one literal alone become one, input by input, and rows with
/// equal symbols become one with the outputs of both. It takes time in the number of rows times
/// inputs, for each output that they have, and memory for some copies of the list at most. Rows that
/// were cut several times may need a pass for each cut: after one that made the list shorter another
/// follows, eight in all at most.
///
/// # Errors
///
/// [`AllocError`] if memory is refused.
pub fn merge_rows(list: &Cover) -> Result<Option<Cover>, AllocError>
    ensures size { IfOk result (λ found. IfSome found (λ fewer. fewer.size ≡ list.now.size)) }
    ensures places { IfOk result (λ found. IfSome found (λ fewer. (p : Place)
        → places fewer.cubes p ≡ places list.now.cubes p)) }
    ensures no_more { IfOk result (λ found. IfSome found (λ fewer.
        length fewer.cubes ≤ length list.now.cubes)) }
{
    let Some(mut merged) = merge_rows_once(list)? else {
        return Ok(None);
    };
    for _ in 1..MOST_PASSES {
        match merge_rows_once(&merged)? {
            Some(fewer) => merged = fewer,
            None => break,
        }
    }
    Ok(Some(merged))
}
