//! Long lists, wide rows and tables of many columns on each call, with answers that are known from
//! how these are made.
//!
//! A call may be refused memory at any time, and would still meet its contract. So each is asked
//! here for more than it might be tempted to keep short.
use crate::descriptions::{
    ALL, Case, ESSENTIAL, LEAST_OF, LISTED, NO_PRIMES, OUTSIDE, SAMPLED, answers,
};
use crate::rules::{Outputs, Rule};
use crate::signatures::{decoder, outside_decoder};
use crate::tables::{has_taken, least_is, plain_is, rings, rings_are_solved, search_answers};
use covering::{all_marked, copy_of, is_marked, numbers, short_cover, unmark};
use minimum::{Choice, Table, reduce};
use signature_search::{Proposer, Rows};
use std::alloc::{AllocError, Global};
use std::test::Fail;

const LARGE: [Case; 14] = [
    // Points of which each is an essential prime, and these in a table of 4,096 columns.
    (
        b".i 13\n.o 1\n.type f\n",
        13,
        1,
        Outputs::All,
        &[(Rule::Odd, 4096, b'1')],
        ALL,
        Rule::Odd,
        4096,
    ),
    // The same with two outputs.
    (
        b".i 13\n.o 2\n.type f\n",
        13,
        2,
        Outputs::All,
        &[(Rule::Odd, 4096, b'1')],
        ALL,
        Rule::Odd,
        4096,
    ),
    // And with the other points outside.
    (
        b".i 13\n.o 1\n.type fr\n",
        13,
        1,
        Outputs::All,
        &[(Rule::Odd, 4096, b'1'), (Rule::Even, 4096, b'0')],
        OUTSIDE,
        Rule::Odd,
        4096,
    ),
    // All points of twelve inputs.
    (
        b".i 12\n.o 1\n.type f\n",
        12,
        1,
        Outputs::All,
        &[(Rule::Odd, 4096, b'1')],
        ALL,
        Rule::Universe,
        1,
    ),
    // The most inputs.
    (
        b".i 1024\n.o 1\n.type f\n",
        1024,
        1,
        Outputs::All,
        &[(Rule::Prime, 128, b'1')],
        ALL,
        Rule::Prime,
        128,
    ),
    // The most inputs and outputs.
    (
        b".i 1024\n.o 1024\n.type f\n",
        1024,
        1024,
        Outputs::Own,
        &[(Rule::Both, 128, b'1')],
        ESSENTIAL,
        Rule::Both,
        128,
    ),
    // A hundred rings with an output each.
    (
        b".i 300\n.o 100\n.type f\n",
        300,
        100,
        Outputs::OfRing,
        &[(Rule::Ring, 600, b'1')],
        LEAST_OF,
        Rule::RingLeast,
        300,
    ),
    // A ring behind each of 512 codes.
    (
        b".i 13\n.o 1\n.type f\n",
        13,
        1,
        Outputs::All,
        &[(Rule::CodedRing, 3072, b'1')],
        LISTED,
        Rule::CodedPrime,
        3072,
    ),
    (
        b".i 13\n.o 1\n.type f\n",
        13,
        1,
        Outputs::All,
        &[(Rule::CodedRing, 3072, b'1')],
        LEAST_OF,
        Rule::CodedLeast,
        1536,
    ),
    // Tables of truth.
    (
        b".i 13\n.o 2\n.type f\n",
        13,
        2,
        Outputs::All,
        &[(Rule::RingTable, 6144, b'1')],
        LISTED,
        Rule::RingPrime,
        6,
    ),
    (
        b".i 13\n.o 2\n.type f\n",
        13,
        2,
        Outputs::All,
        &[(Rule::RingTable, 6144, b'1')],
        NO_PRIMES,
        Rule::RingPrime,
        0,
    ),
    (
        b".i 13\n.o 2\n.type f\n",
        13,
        2,
        Outputs::All,
        &[(Rule::RingTable, 6144, b'1')],
        LEAST_OF,
        Rule::RingLeast,
        3,
    ),
    (
        b".i 13\n.o 2\n.type fr\n",
        13,
        2,
        Outputs::All,
        &[(Rule::RingTable, 6144, b'1'), (Rule::GapTable, 2048, b'0')],
        LEAST_OF,
        Rule::RingLeast,
        3,
    ),
    (
        b".i 13\n.o 2\n.type fr\n",
        13,
        2,
        Outputs::All,
        &[(Rule::OneTable, 4096, b'1'), (Rule::ZeroTable, 4096, b'0')],
        SAMPLED,
        Rule::Prime,
        1,
    ),
];

#[test]
fn large_descriptions_answer(rt: HostRuntime) -> Result<(), Fail> {
    for case in &LARGE {
        assert!(rt; answers(rt.alloc(), case)?);
    }
    Ok(())
}

#[test]
fn a_table_of_many_rings_is_solved(rt: HostRuntime) -> Result<(), Fail> {
    let made = rings(rt.alloc(), 256)?.ok_or("rows")?;
    assert!(rt; made.columns() == 1536 && made.row_count() == 1536);
    assert!(rt; rings_are_solved(rt.alloc(), made, 256)?);
    Ok(())
}

/// So many columns, and 20,000 rows of which each has the first and one more.
fn fan(alloc: Global, columns: usize) -> Result<Option<Table>, AllocError> {
    let mut rows: Vec<Vec<usize>> = Vec::new(alloc);
    for k in 0..20_000usize {
        let mut row = Vec::new(alloc);
        row.push(0)?;
        row.push((k % 4095).wrapping_add(1))?;
        rows.push(row)?;
    }
    let weights: Vec<u32> = vec![in alloc; 1; columns]?;
    Table::new(alloc, rows, weights)
}

/// Whether each search answers the first column of the table, and a reduction takes it.
fn is_met_by_the_first(table: Table) -> Result<bool, AllocError> {
    let is_short = short_cover(&table, &[])?.as_slice() == [0].as_slice();
    let is_least = search_answers(&table, Choice::First, &[0])?
        && plain_is(&table, Choice::First, &[0])?;
    let is_fewest = least_is(&table, Choice::Literals, &[0])?;
    Ok(is_short && is_least && is_fewest && has_taken(&reduce(table, Choice::First)?, &[0]))
}

#[test]
fn a_table_of_many_rows_is_solved(rt: HostRuntime) -> Result<(), Fail> {
    let made = fan(rt.alloc(), 4096)?.ok_or("rows")?;
    assert!(rt; made.columns() == 4096 && made.row_count() == 20_000);
    assert!(rt; is_met_by_the_first(made)?);
    assert!(rt; fan(rt.alloc(), 4095)?.is_none());
    Ok(())
}

/// A ring of six columns from number `ring` on, each row two of these, and so many more columns for
/// each row, which are in that row alone: from number 6 on if the ring comes first, else from 0 on.
fn ring_beside(alloc: Global, ring: usize, more: usize) -> Result<Option<Table>, AllocError> {
    let first: usize = if ring == 0 { 6 } else { 0 };
    let mut rows: Vec<Vec<usize>> = Vec::new(alloc);
    for (k, pair) in RING_ROWS.iter().enumerate() {
        let mut row: Vec<usize> = Vec::new(alloc);
        for column in pair {
            row.push(ring.wrapping_add(*column))?;
        }
        for t in 0..more {
            row.push(first.wrapping_add(k).wrapping_add(t.wrapping_mul(6)))?;
        }
        row.sort_unstable();
        rows.push(row)?;
    }
    let columns = more.wrapping_mul(6).wrapping_add(6);
    let weights: Vec<u32> = vec![in alloc; 1; columns]?;
    Table::new(alloc, rows, weights)
}

const RING_ROWS: [[usize; 2]; 6] = [[0, 3], [0, 4], [1, 2], [1, 5], [2, 3], [4, 5]];

/// Where the ring begins, and the least cover.
const RINGS_BESIDE: [(usize, [usize; 3]); 2] = [(0, [0, 2, 5]), (6000, [6000, 6002, 6005])];

#[test]
fn tables_of_many_columns_are_solved(rt: HostRuntime) -> Result<(), Fail> {
    for (ring, least) in &RINGS_BESIDE {
        let made = ring_beside(rt.alloc(), *ring, 1000)?.ok_or("rows")?;
        assert!(rt; made.columns() == 6006 && made.row_count() == 6);
        assert!(rt; short_cover(&made, &[])?.len() == 3);
        assert!(rt; search_answers(&made, Choice::First, least.as_slice())?);
        assert!(rt; least_is(&made, Choice::Literals, least.as_slice())?);
    }
    Ok(())
}

/// Whether the list is the numbers from the first on.
fn rises_from(list: &[usize], first: usize) -> bool {
    for (k, number) in list.iter().enumerate() {
        if *number != k.wrapping_add(first) {
            return false;
        }
    }
    true
}

#[test]
fn long_lists_of_numbers_are_made(rt: HostRuntime) -> Result<(), Fail> {
    let all = numbers(rt.alloc(), 20_000)?;
    let copy = copy_of(rt.alloc(), &all)?;
    assert!(rt; all.len() == 20_000 && copy.len() == 20_000);
    assert!(rt; rises_from(&all, 0) && rises_from(&copy, 0));
    Ok(())
}

#[test]
fn long_lists_of_marks_are_made(rt: HostRuntime) -> Result<(), Fail> {
    let mut marks = all_marked(rt.alloc(), 20_000)?;
    assert!(rt; marks.len() == 20_000 && is_marked(&marks, 0) && is_marked(&marks, 19_999));
    unmark(&mut marks, 19_999);
    assert!(rt; is_marked(&marks, 19_998) && !is_marked(&marks, 19_999));
    assert!(rt; !is_marked(&marks, 20_000));
    Ok(())
}

#[test]
fn each_row_of_a_large_decoder_has_a_place(rt: HostRuntime) -> Result<(), Fail> {
    let alloc = rt.alloc();
    let (on, off) = (
        decoder(alloc, 10, 1024, 1024)?,
        outside_decoder(alloc, 10, 1024)?,
    );
    let none = Rows::new(alloc, 10, 1024);
    let proposer = Proposer::by_off(alloc, &on, &none, &off, false)?;
    assert!(rt; proposer.first_places(&on)?.len() == 1024);
    assert!(rt; proposer.places_left_out(&on, &none)?.len() == 1024);
    assert!(rt; proposer.places_left_out(&on, &on)?.is_empty());
    Ok(())
}
