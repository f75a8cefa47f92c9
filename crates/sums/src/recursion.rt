//! The recursion that makes complete sums.
//!
//! `difference_sum` makes the complete sum of the places of one list, the minuend, that are not in
//! another, the subtrahend. It is put together from three smaller sums at an input:
//!
//! - that of the consensus, the places that are there with both values of the input: its cubes have
//!   no literal at the input;
//! - those of the cofactors at `0` and at `1`: their cubes that are not in the first sum get that
//!   literal.
//!
//! The consensus of the minuend has its cubes without a literal at the input, and the meets of its
//! cubes with `0` and its cubes with `1`; of the subtrahend the smoothing is taken, all of its
//! cubes without their literals there. If one cofactor has all places of the other, the consensus
//! is the other, and two sums are enough. This recursion is that of Coudert and Madre (Implicit and
//! Incremental Computation of Primes and Essential Primes of Boolean Functions, 1992). They keep
//! the sets as decision diagrams; here they are lists of cubes, whose sums are kept in a table to
//! be found again. So no products of primes are formed, and no prime is compared with the others:
//! each merge takes time in the lengths of its lists, which are in row order.
//!
//! The input with most literals is split at. A unate list is its own sum but for the cubes that lie
//! in others (Brayton et al. 1984). Of a list in two parts without a common input the sums of the
//! parts are made one after the other, so that they do not multiply each other's steps. Two rows
//! with opposite literals, and four with the four pairs of literals at two inputs, are ends of
//! their own: functions of several outputs come to few other lists so often.
ghost use Rattle.std.specs.Prelude.{◌≡◌, ◌<◌, ◌||◌, ◌++◌, IfOk, not, true};
ghost use Rattle.cube.specs.Cube.{intersection, difference as difference_of};
ghost use Rattle.cube.specs.Sum.{complete_sum as complete_sum_of};
ghost use Rattle.sums.specs.Apart.{IsInParts};
ghost use Rattle.rows.specs.Cubes.{AreCubes};
ghost use Rattle.rows.specs.Complete.{cofactor_at};
ghost use Rattle.rows.specs.Parts.{has_literal};
ghost use Rattle.rows.specs.Places.{places};
ghost use Rattle.rows.specs.Reduced.{IsBranch};
ghost use Rattle.sums.specs.Sides.{IsSide};

use crate::absorb::{absorb, absorb_if_short, drop_absorbed_by_if_short, is_part_absorbed};
use crate::branch::{Branches, absorbed_cofactor_at, branches_at, combine_branches, smoothing_at};
use crate::by_symbol::has_symbol;
use crate::computed_table::{ComputedTable, hash_of_lists};
use crate::constant_outputs::{constant_row, with_constant_outputs, without_constant_outputs};
use crate::ends::{has_row_without_literals, has_universal_row, is_unate, sum_without_literals};
use crate::four_rows::sum_of_few_rows;
use crate::independent_parts::{Parts, independent_parts};
use crate::meets::meets;
use crate::split_input::{input_order_hint, split_input_of_lists};
use cube::{Cube, Shape};
use rows::{literal_of_value, merge, sort_rows};
use std::alloc::{AllocError, Global};

// The complete sum of the places of the minuend that are not in the subtrahend. Rows of the minuend
// that lie in one of the subtrahend are left out first, if the lists are short.
#[cycle(sum)]
fn difference_sum(
    alloc: Global,
    shape: Shape,
    table: &mut ComputedTable,
    minuend: Vec<Cube>,
    subtrahend: Vec<Cube>,
) -> Result<Vec<Cube>, AllocError>
    requires minuend { AreCubes shape minuend.items }
    requires subtrahend { AreCubes shape subtrahend.items }
    ensures { IfOk result
        (λ rows. rows.items
        ≡ complete_sum_of shape (difference_of (places minuend.items) (places subtrahend.items))) }
{
    let left = drop_absorbed_by_if_short(alloc, minuend, &subtrahend)?;
    sum_by_case(alloc, shape, table, left, subtrahend)
}

// The complete sum of the places of the minuend that are not in the subtrahend: by one of the ends
// of the recursion, without its constant outputs, or from the table.
#[cycle(sum)]
fn sum_by_case(
    alloc: Global,
    shape: Shape,
    table: &mut ComputedTable,
    minuend: Vec<Cube>,
    subtrahend: Vec<Cube>,
) -> Result<Vec<Cube>, AllocError>
    requires minuend { AreCubes shape minuend.items }
    requires subtrahend { AreCubes shape subtrahend.items }
    ensures { IfOk result
        (λ rows. rows.items
        ≡ complete_sum_of shape (difference_of (places minuend.items) (places subtrahend.items))) }
{
    if minuend.is_empty() {
        return Ok(minuend);
    }
    if subtrahend.is_empty() {
        if minuend.len() == 1 {
            return Ok(minuend);
        }
        if let Some(sum) = sum_of_few_rows(alloc, &minuend)? {
            return Ok(sum);
        }
        if is_unate(shape, &minuend)? {
            return absorb(alloc, minuend);
        }
        if let Some(constant) = constant_row(&minuend)? {
            let rest = without_constant_outputs(alloc, &minuend, &constant)?;
            let sum = remembered_sum(alloc, shape, table, rest, subtrahend)?;
            return with_constant_outputs(alloc, sum, constant);
        }
    }
    if minuend.len() == 1 && subtrahend.len() == 1 {
        return minuend[0].sharp(&subtrahend[0]);
    }
    if has_universal_row(&subtrahend) {
        return Ok(Vec::new(alloc));
    }
    remembered_sum(alloc, shape, table, minuend, subtrahend)
}

// The complete sum of the places of the minuend that are not in the subtrahend, from the table or
// by a split, and then kept in the table.
#[cycle(sum)]
fn remembered_sum(
    alloc: Global,
    shape: Shape,
    table: &mut ComputedTable,
    minuend: Vec<Cube>,
    subtrahend: Vec<Cube>,
) -> Result<Vec<Cube>, AllocError>
    requires minuend { AreCubes shape minuend.items }
    requires subtrahend { AreCubes shape subtrahend.items }
    ensures { IfOk result
        (λ rows. rows.items
        ≡ complete_sum_of shape (difference_of (places minuend.items) (places subtrahend.items))) }
{
    let hash = hash_of_lists(shape, &minuend, &subtrahend);
    if let Some(sum) = table.find(alloc, shape, hash, &minuend, &subtrahend)? {
        return Ok(sum);
    }
    let sum = sum_by_split(alloc, shape, table, &minuend, &subtrahend)?;
    table.keep(alloc, shape, hash, minuend, subtrahend, &sum)?;
    Ok(sum)
}

// The complete sum of the places of the minuend that are not in the subtrahend, by two parts
// without a common input, or by the branches at an input, if one has a literal.
#[cycle(sum)]
fn sum_by_split(
    alloc: Global,
    shape: Shape,
    table: &mut ComputedTable,
    minuend: &[Cube],
    subtrahend: &[Cube],
) -> Result<Vec<Cube>, AllocError>
    requires minuend { AreCubes shape minuend.now }
    requires subtrahend { AreCubes shape subtrahend.now }
    ensures { IfOk result
        (λ rows. rows.items
        ≡ complete_sum_of shape (difference_of (places minuend.now) (places subtrahend.now))) }
{
    let Some(split) = split_input_of_lists(shape, minuend, subtrahend, table.order()) else {
        return sum_without_literals(alloc, shape, minuend, subtrahend);
    };
    let i = split.input;
    if subtrahend.is_empty() && !split.is_in_each_row {
        if let Some(parts) = independent_parts(alloc, shape, minuend)? {
            return sum_by_parts(alloc, shape, table, parts);
        }
    }
    let Branches {
        both: both_minuend,
        low: low_minuend,
        high: high_minuend,
    } = branches_at(alloc, shape, minuend, i)?;
    let both_subtrahend = smoothing_at(alloc, shape, subtrahend, i)?;
    let both = difference_sum(alloc, shape, table, both_minuend, both_subtrahend)?;
    let low = sum_at_value(
        alloc,
        shape,
        table,
        i,
        false,
        minuend,
        subtrahend,
        low_minuend,
        split.is_in_each_row,
    )?;
    let high = sum_at_value(
        alloc,
        shape,
        table,
        i,
        true,
        minuend,
        subtrahend,
        high_minuend,
        split.is_in_each_row,
    )?;
    combine_branches(alloc, i, both, low, high)
}

// The complete sum of the places of two parts that have no input in common: the sums of both, or
// that of one part alone, if it has a row without literals. (The parts have the same outputs.)
#[cycle(sum)]
fn sum_by_parts(
    alloc: Global,
    shape: Shape,
    table: &mut ComputedTable,
    parts: Parts,
) -> Result<Vec<Cube>, AllocError>
    requires { IsInParts shape
        (parts.one.items ++ parts.other.items) parts.one.items parts.other.items }
    ensures { IfOk result
        (λ rows. rows.items
        ≡ complete_sum_of shape (places (parts.one.items ++ parts.other.items))) }
{
    let Parts { one, other } = parts;
    let sum = sum_by_case(alloc, shape, table, one, Vec::new(alloc))?;
    if has_row_without_literals(&sum) {
        return Ok(sum);
    }
    let other_sum = sum_by_case(alloc, shape, table, other, Vec::new(alloc))?;
    if has_row_without_literals(&other_sum) {
        return Ok(other_sum);
    }
    merge(alloc, sum, other_sum)
}

// The complete sum of the cofactor at one value of input `i`, or nothing if the other cofactor has
// all of its places, so that the consensus has them. `cofactor` is that of the minuend, and
// `is_in_each_row` says whether each row had a literal there: then it is in the order of the
// minuend, and has no row that lies in another unless the minuend has.
#[cycle(sum)]
fn sum_at_value(
    alloc: Global,
    shape: Shape,
    table: &mut ComputedTable,
    i: usize,
    value: bool,
    minuend: &[Cube],
    subtrahend: &[Cube],
    cofactor: Vec<Cube>,
    is_in_each_row: bool,
) -> Result<Vec<Cube>, AllocError>
    requires input { i < shape.inputs }
    requires cofactor { IsBranch shape i minuend.now
        (cofactor_at i value (places minuend.now)) cofactor.items }
    requires literal { (has_literal i minuend.now || has_literal i subtrahend.now) ≡ true }
    requires minuend { AreCubes shape minuend.now }
    requires subtrahend { AreCubes shape subtrahend.now }
    ensures { IfOk result
        (λ rows. IsSide shape i value (difference_of (places minuend.now) (places subtrahend.now))
        rows.items) }
{
    if !has_symbol(minuend, i, literal_of_value(value))
        && !has_symbol(subtrahend, i, literal_of_value(!value))
    {
        return Ok(Vec::new(alloc));
    }
    let is_absorbed = is_in_each_row && is_part_absorbed(minuend, &cofactor);
    let minuend_at_value = absorb_if_short(alloc, shape, cofactor, is_absorbed)?;
    let subtrahend_at_value = absorbed_cofactor_at(alloc, shape, subtrahend, i, value)?;
    difference_sum(alloc, shape, table, minuend_at_value, subtrahend_at_value)
}

/// The complete sum of the places of the minuend that are not in the subtrahend. Sorts both lists
/// into row order first.
///
/// # Errors
///
/// [`AllocError`] if memory is refused.
pub fn sum_of_difference(
    alloc: Global,
    shape: Shape,
    minuend: Vec<Cube>,
    subtrahend: Vec<Cube>,
) -> Result<Vec<Cube>, AllocError>
    requires minuend { AreCubes shape minuend.items }
    requires subtrahend { AreCubes shape subtrahend.items }
    ensures { IfOk result
        (λ rows. rows.items
        ≡ complete_sum_of shape (difference_of (places minuend.items) (places subtrahend.items))) }
{
    let minuend = sort_rows(alloc, minuend)?;
    let subtrahend = sort_rows(alloc, subtrahend)?;
    let order = input_order_hint(alloc, shape, &minuend, &subtrahend)?;
    difference_sum(
        alloc,
        shape,
        &mut ComputedTable::new(alloc, order),
        minuend,
        subtrahend,
    )
}

/// The complete sum of the places that are in both lists: that of the meets of all pairs of a row of
/// each.
///
/// # Errors
///
/// [`AllocError`] if memory is refused.
pub fn sum_of_both(
    alloc: Global,
    shape: Shape,
    rows: Vec<Cube>,
    others: Vec<Cube>,
) -> Result<Vec<Cube>, AllocError>
    requires rows { AreCubes shape rows.items }
    requires others { AreCubes shape others.items }
    ensures { IfOk result
        (λ sum. sum.items
        ≡ complete_sum_of shape (intersection (places rows.items) (places others.items))) }
{
    let mine = sort_rows(alloc, rows)?;
    let theirs = sort_rows(alloc, others)?;
    let met = meets(alloc, shape, &mine, &theirs)?;
    let fewer = absorb(alloc, met)?;
    sum_of_difference(alloc, shape, fewer, Vec::new(alloc))
}
