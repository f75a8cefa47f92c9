//! The meets of two lists whose rows have literals at the same inputs, as lists of points have.
//!
//! Of such rows two that share a place have the same symbols. So each row has a key of its symbols
//! at the first 32 inputs, and is met only with the others of its key. In row order the keys rise,
//! and both lists are gone through once.
ghost use Rattle.std.specs.Prelude.{ℕ, ◌<◌, ◌≤◌, IfOk, IfSome, length, slice_index_or};
ghost use Rattle.cube.specs.Size.{Size};
ghost use Rattle.cube.specs.Cube.{Cube as Row};
ghost use Rattle.cube.specs.Literals.{IsOrderKey};
ghost use Rattle.rows.specs.Cubes.{AreCubes};
ghost use Rattle.sums.specs.Keys.{HasKeys, HasLiteralsAt};
ghost use Rattle.rows.specs.Reduced.{IsMeets};
ghost use Rattle.rows.specs.Sizes.{ShareOneSize};

use cube::Cube;
use rows::push_meets;
use std::alloc::{AllocError, Global};

// The lower bit of each pair.
const LOWER_BITS: u64 = 0x5555_5555_5555_5555;

/// The inputs with a literal, as the lower bits of their pairs: of the literals of 32 inputs, or of
/// a key, in whose order bit `62 - 2 k` is for input `k`.
pub(crate) fn literal_pairs(literals: u64) -> u64
    ensures { (c : Row) → IsOrderKey c literals → HasLiteralsAt result c }
{
    (literals | (literals >> 1)) & LOWER_BITS
}

/// The keys of the rows, if they do not fall and, of the first 32 inputs, each row has literals at
/// exactly `inputs`, a set as [`literal_pairs`] makes it.
pub(crate) fn keys_of(
    alloc: Global,
    rows: &[Cube],
    inputs: u64,
) -> Result<Option<Vec<u64>>, AllocError>
    ensures { IfOk result (λ found. IfSome found (λ keys. HasKeys inputs rows.now keys.items)) }
{
    let mut keys = Vec::with_capacity(alloc, rows.len())?;
    let mut last = 0u64;
    for row in rows {
        let key = row.order_key_of_32_inputs();
        if literal_pairs(key) != inputs || key < last {
            return Ok(None);
        }
        last = key;
        keys.push(key)?;
    }
    Ok(Some(keys))
}

// The first index from `from` on whose key is not below `key`; the number of keys if there is none.
fn first_key_not_below(keys: &[u64], from: usize, key: u64) -> usize
    requires { from ≤ length keys.now }
    ensures from_on { from ≤ result }
    ensures bound { result ≤ length keys.now }
    ensures below { (j : ℕ) → from ≤ j → j < result → slice_index_or keys.now j 0 < key }
{
    for at in from..keys.len() {
        if keys[at] >= key {
            return at;
        }
    }
    keys.len()
}

// The first index from `from` on whose key is above `key`; the number of keys if there is none.
fn first_key_above(keys: &[u64], from: usize, key: u64) -> usize
    requires { from ≤ length keys.now }
    ensures from_on { from ≤ result }
    ensures bound { result ≤ length keys.now }
    ensures above { result < length keys.now → key < slice_index_or keys.now result 0 }
{
    for at in from..keys.len() {
        if keys[at] > key {
            return at;
        }
    }
    keys.len()
}

/// The meets of a row of one list with a row of the other that has the same key. The keys are those
/// that `keys_of` gives for the same inputs: rows with other keys have no place in common.
pub(crate) fn meets_by_keys(
    alloc: Global,
    rows: &[Cube],
    keys: &[u64],
    others: &[Cube],
    other_keys: &[u64],
) -> Result<Vec<Cube>, AllocError>
    requires size { ShareOneSize rows.now others.now }
    requires keys { (inputs : ℕ) × HasKeys inputs rows.now keys.now
        × HasKeys inputs others.now other_keys.now }
    ensures { IfOk result (λ all. (size : Size) → AreCubes size rows.now → AreCubes size others.now
        → IsMeets size rows.now others.now all.items) }
{
    let mut all = Vec::with_capacity(alloc, rows.len().min(others.len()))?;
    let mut from = 0;
    for k in 0..rows.len() {
        let start = first_key_not_below(other_keys, from, keys[k]);
        let end = first_key_above(other_keys, start, keys[k]);
        let (front, _) = others.split_at(end);
        let (_, equal) = front.split_at(start);
        push_meets(&rows[k], equal, &mut all)?;
        from = start;
    }
    Ok(all)
}
