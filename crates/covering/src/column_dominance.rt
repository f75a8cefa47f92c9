//! Column dominance: drop a column if another is in all its rows and may replace it.
//!
//! In a reduction the other one costs less, or as much and has a smaller number. In a search within
//! a cutoff, which asks for any cover, it costs no more. It is in each row of the dropped column,
//! so candidates are looked for in a shortest one. Most of these are ruled out by one word: the
//! signature of a column has the bits of its rows, and a column that is in all rows of another has
//! all bits of that one's.
//!
//! Where columns are many beside the rows and most of them are dropped, each is compared with those
//! that were kept before it; then it is not promised that none is left.

ghost use Rattle.std.specs.Prelude.{◌≡◌, ◌<◌, ◌==◌, ◌&&◌, ◌||◌, ℕ, [], IfOk, MatchBool, MatchOption, length, map, slice_index_or, true};
ghost use Rattle.std.specs.List.{list_any};
ghost use Rattle.covering.specs.Table.{IsWithin, RisesFrom, items_of, has};
ghost use Rattle.covering.specs.Cover.{counted};
ghost use Rattle.covering.specs.Search.{IsWeakStep};
ghost use Rattle.covering.specs.Reduce.{row_at, IsTranspose, LeavesNoDominatedColumn, bit_of, signature_of, has_bits, is_preferred, dominates, AreDominatedByKept, HasNoDominatedColumn, Shrinks};

use crate::choice::{Choice, cost};
use crate::columns::{entry, is_rising_within};
use crate::kept_columns::{KeptColumns, are_columns_many, by_falling_rows};
use crate::marks::{
    all_kept, all_marked, is_marked, marks_of, retain_marked, retain_marked_in_rows, unmark,
};
use crate::table::Table;
use std::alloc::{AllocError, Global};

/// The bit of a row in a signature, which has 64.
fn bit_of(row: usize) -> u64
    ensures { result ≡ bit_of row }
{
    1 << (row % 64)
}

/// The signature of some rows: the bits of all of them.
pub(crate) fn signature_of(rows: &[usize]) -> u64
    ensures { result ≡ signature_of rows.now }
{
    let mut signature: u64 = 0;
    for row in rows {
        signature = signature | bit_of(*row);
    }
    signature
}

/// The signature of each list of rows.
pub(crate) fn signatures_of(alloc: Global, transpose: &[Vec<usize>]) -> Result<Vec<u64>, AllocError>
    ensures { IfOk result (λ v. v.items ≡ map signature_of (items_of transpose.now)) }
{
    let mut signatures = Vec::with_capacity(alloc, transpose.len())?;
    for rows in transpose {
        signatures.push(signature_of(rows))?;
    }
    Ok(signatures)
}

/// Whether the signature of the column, 0 past the end, has all bits of `signature`.
pub(crate) fn has_bits(signatures: &[u64], column: usize, signature: u64) -> bool
    ensures { result ≡ has_bits (slice_index_or signatures.now column 0) signature }
{
    let bits = if column < signatures.len() {
        signatures[column]
    } else {
        0
    };
    signature | bits == bits
}

/// Which columns may replace another one.
#[derive(Clone, Copy)]
pub(crate) enum Preference {
    /// Those that cost less, or as much and have a smaller number.
    Earlier,
    /// Those that cost no more.
    NoDearer,
}

/// Whether `b` may replace `a`.
pub(crate) fn may_replace(
    preference: Preference,
    choice: Choice,
    literals: &[u32],
    b: usize,
    a: usize,
) -> bool
    ensures { result ≡ is_preferred preference (counted choice literals.now) b a }
{
    let first = cost(choice, literals, b);
    let second = cost(choice, literals, a);
    match preference {
        Preference::Earlier => first < second || (first == second && b < a),
        Preference::NoDearer => first <= second,
    }
}

/// Whether `b` is another column than `a`, is kept, may replace it and is in all its rows.
fn is_dominated_by(
    preference: Preference,
    choice: Choice,
    literals: &[u32],
    transpose: &[Vec<usize>],
    keep: &[bool],
    a: usize,
    b: usize,
) -> bool
    requires { (c : ℕ) → RisesFrom 0 (row_at (items_of transpose.now) c) }
    ensures { result ≡ dominates (is_preferred preference (counted choice literals.now))
        (items_of transpose.now) keep.now a b }
{
    a != b
        && is_marked(keep, b)
        && may_replace(preference, choice, literals, b, a)
        && is_rising_within(entry(transpose, a), entry(transpose, b))
}

/// Whether one of the columns `among` that are still kept dominates `a`.
// Inlined with its callers, so that the preference is known where columns are compared.
#[inline(always)]
fn any_dominates(
    preference: Preference,
    choice: Choice,
    literals: &[u32],
    transpose: &[Vec<usize>],
    keep: &[bool],
    signatures: &[u64],
    a: usize,
    among: &[usize],
) -> bool
    requires rises { (c : ℕ) → RisesFrom 0 (row_at (items_of transpose.now) c) }
    requires signatures { signatures.now ≡ map signature_of (items_of transpose.now) }
    ensures { result ≡ list_any (dominates (is_preferred preference (counted choice literals.now))
        (items_of transpose.now) keep.now a) among.now }
{
    let signature = signature_of(entry(transpose, a));
    for b in among {
        if has_bits(signatures, *b, signature)
            && is_dominated_by(preference, choice, literals, transpose, keep, a, *b)
        {
            return true;
        }
    }
    false
}

/// The number of the shortest of the rows `among`, the first of several; `None` for none.
pub(crate) fn shortest_row(rows: &[Vec<usize>], among: &[usize]) -> Option<usize>
    ensures { MatchOption result (among.now ≡ []) (λ i. has i among.now ≡ true) }
{
    if among.is_empty() {
        return None;
    }
    let mut shortest = among[0];
    for number in among {
        if entry(rows, *number).len() < entry(rows, shortest).len() {
            shortest = *number;
        }
    }
    Some(shortest)
}

/// Whether a live column that is still kept dominates `a`. Such a column is in each row of `a`, so
/// that only the columns of a shortest one are tried, and all live ones if `a` is in none.
#[inline(always)]
fn is_dominated(
    preference: Preference,
    choice: Choice,
    literals: &[u32],
    live: &[usize],
    rows: &[Vec<usize>],
    transpose: &[Vec<usize>],
    keep: &[bool],
    signatures: &[u64],
    a: usize,
) -> bool
    requires transpose { IsTranspose (length transpose.now) (items_of rows.now)
        (items_of transpose.now) }
    requires signatures { signatures.now ≡ map signature_of (items_of transpose.now) }
    requires within { (i : ℕ) → IsWithin (row_at (items_of rows.now) i) live.now }
    requires below { (c : ℕ) → has c live.now ≡ true → c < length transpose.now }
    ensures { result ≡ list_any (dominates (is_preferred preference (counted choice literals.now))
        (items_of transpose.now) keep.now a) live.now }
{
    match shortest_row(rows, entry(transpose, a)) {
        None => any_dominates(
            preference, choice, literals, transpose, keep, signatures, a, live,
        ),
        Some(number) => {
            any_dominates(
                preference,
                choice,
                literals,
                transpose,
                keep,
                signatures,
                a,
                entry(rows, number),
            )
        }
    }
}

/// Marks live columns so that each one without a mark is dominated by a marked one: asks them by
/// falling numbers of rows, and compares each with marked ones asked before it.
#[inline(always)]
fn dominance_by_kept(
    alloc: Global,
    preference: Preference,
    choice: Choice,
    literals: &[u32],
    live: &[usize],
    rows: &[Vec<usize>],
    transpose: &[Vec<usize>],
    signatures: &[u64],
) -> Result<Vec<bool>, AllocError>
    requires rises { (c : ℕ) → RisesFrom 0 (row_at (items_of transpose.now) c) }
    requires signatures { signatures.now ≡ map signature_of (items_of transpose.now) }
    requires below { (c : ℕ) → has c live.now ≡ true → c < length transpose.now }
    ensures { IfOk result (λ v. AreDominatedByKept
        (is_preferred preference (counted choice literals.now)) live.now (items_of transpose.now)
        v.items) }
{
    let order = by_falling_rows(
        alloc, preference, choice, literals, live, transpose, signatures,
    )?;
    let mut kept = KeptColumns::new(
        alloc,
        preference,
        choice,
        literals,
        rows.len(),
        transpose,
        signatures,
    )?;
    let mut keep = marks_of(alloc, live, transpose.len())?;
    for column in &order {
        let among = kept.candidates(*column)?;
        if any_dominates(
            preference, choice, literals, transpose, &keep, signatures, *column, among,
        ) {
            unmark(&mut keep, *column);
        } else {
            kept.add(*column)?;
        }
    }
    Ok(keep)
}

/// Marks columns so that each unmarked live column is dominated by a marked one; all are marked
/// only if none is dominated.
#[inline(always)]
fn complete_dominance(
    alloc: Global,
    preference: Preference,
    choice: Choice,
    literals: &[u32],
    live: &[usize],
    rows: &[Vec<usize>],
    transpose: &[Vec<usize>],
    signatures: &[u64],
) -> Result<Vec<bool>, AllocError>
    requires transpose { IsTranspose (length transpose.now) (items_of rows.now)
        (items_of transpose.now) }
    requires signatures { signatures.now ≡ map signature_of (items_of transpose.now) }
    requires within { (i : ℕ) → IsWithin (row_at (items_of rows.now) i) live.now }
    requires below { (c : ℕ) → has c live.now ≡ true → c < length transpose.now }
    ensures { IfOk result (λ v. LeavesNoDominatedColumn
        (is_preferred preference (counted choice literals.now)) live.now (items_of transpose.now)
        v.items) }
{
    let mut keep = all_marked(alloc, transpose.len())?;
    for column in live {
        if is_dominated(
            preference, choice, literals, live, rows, transpose, &keep, signatures, *column,
        ) {
            unmark(&mut keep, *column);
        }
    }
    Ok(keep)
}

/// Marks columns so that each unmarked live column is dominated by a marked one; with
/// `is_complete` all are marked only if none is dominated.
#[inline(always)]
fn column_dominance(
    alloc: Global,
    is_complete: bool,
    preference: Preference,
    choice: Choice,
    literals: &[u32],
    live: &[usize],
    rows: &[Vec<usize>],
    transpose: &[Vec<usize>],
) -> Result<Vec<bool>, AllocError>
    requires transpose { IsTranspose (length transpose.now) (items_of rows.now)
        (items_of transpose.now) }
    requires within { (i : ℕ) → IsWithin (row_at (items_of rows.now) i) live.now }
    requires below { (c : ℕ) → has c live.now ≡ true → c < length transpose.now }
    ensures dominated { IfOk result (λ v. AreDominatedByKept
        (is_preferred preference (counted choice literals.now)) live.now (items_of transpose.now)
        v.items) }
    ensures complete { is_complete ≡ true → IfOk result (λ v. LeavesNoDominatedColumn
        (is_preferred preference (counted choice literals.now)) live.now (items_of transpose.now)
        v.items) }
{
    let signatures = signatures_of(alloc, transpose)?;
    if !is_complete && are_columns_many(live, rows) {
        dominance_by_kept(
            alloc,
            preference,
            choice,
            literals,
            live,
            rows,
            transpose,
            &signatures,
        )
    } else {
        complete_dominance(
            alloc,
            preference,
            choice,
            literals,
            live,
            rows,
            transpose,
            &signatures,
        )
    }
}

impl Table {
    /// Drops columns that others dominate which cost less, or as much and have a smaller number;
    /// answers whether there was one. With `is_complete` it finds one if there is one.
    pub(crate) fn drop_dominated_columns(
        &mut self,
        alloc: Global,
        choice: Choice,
        transpose: &[Vec<usize>],
        is_complete: bool,
    ) -> Result<bool, AllocError>
        requires transpose { IsTranspose self.old.columns self.old.rows (items_of transpose.now) }
        requires long { length transpose.now ≡ self.old.columns }
        ensures { IfOk result (λ is_changed. MatchBool is_changed (Shrinks choice self.old self.new)
            ((self.new ≡ self.old) × (is_complete ≡ true → HasNoDominatedColumn choice self.old))) }
    {
        let keep = column_dominance(
            alloc,
            is_complete,
            Preference::Earlier,
            choice,
            &self.literals,
            &self.live,
            &self.rows,
            transpose,
        )?;
        if all_kept(&self.live, &keep) {
            return Ok(false);
        }
        retain_marked(&mut self.live, &keep);
        retain_marked_in_rows(&mut self.rows, &keep);
        Ok(true)
    }

    /// Drops columns that others dominate which cost no more, in a search for some cover within a
    /// cutoff; answers whether there was one.
    pub(crate) fn drop_weakly_dominated_columns(
        &mut self,
        alloc: Global,
        choice: Choice,
        transpose: &[Vec<usize>],
    ) -> Result<bool, AllocError>
        requires transpose { IsTranspose self.old.columns self.old.rows (items_of transpose.now) }
        requires long { length transpose.now ≡ self.old.columns }
        ensures { IfOk result (λ is_changed. MatchBool is_changed
            (IsWeakStep choice self.old self.new) (self.new ≡ self.old)) }
    {
        let keep = column_dominance(
            alloc,
            false,
            Preference::NoDearer,
            choice,
            &self.literals,
            &self.live,
            &self.rows,
            transpose,
        )?;
        if all_kept(&self.live, &keep) {
            return Ok(false);
        }
        retain_marked(&mut self.live, &keep);
        retain_marked_in_rows(&mut self.rows, &keep);
        Ok(true)
    }
}
