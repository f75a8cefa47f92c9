//! The places that a search by signatures proposes of a decoder: one for each row, as each row is
//! the only prime of its output.
use signature_search::{Place, Proposer, Rows};
use std::alloc::{AllocError, Global};
use std::test::Fail;

/// A row for each number of some bits below `count`, with the output of this number.
pub(crate) fn decoder(
    alloc: Global,
    bits: usize,
    outputs: usize,
    count: usize,
) -> Result<Rows, AllocError> {
    let mut rows = Rows::new(alloc, bits, outputs);
    for number in 0..count {
        rows.begin_row()?;
        for input in 0..bits.min(16) {
            rows.put_literal(input, number >> input & 1 == 1);
        }
        rows.put_output(number);
    }
    Ok(rows)
}

/// The rows outside: with each output those that differ from its number at an input.
pub(crate) fn outside_decoder(
    alloc: Global,
    bits: usize,
    outputs: usize,
) -> Result<Rows, AllocError> {
    let mut rows = Rows::new(alloc, bits, outputs);
    for number in 0..outputs {
        for input in 0..bits.min(16) {
            rows.begin_row()?;
            rows.put_literal(input, number >> input & 1 == 0);
            rows.put_output(number);
        }
    }
    Ok(rows)
}

/// The rows of six bits below `count`.
fn small_decoder(alloc: Global, count: usize) -> Result<Rows, AllocError> {
    decoder(alloc, 6, 64, count)
}

/// The number of the place's point.
fn number_of(place: &Place) -> usize {
    let mut number: usize = 0;
    for input in 0..6usize {
        if place.bit(input) {
            number |= 1 << input;
        }
    }
    number
}

/// Whether each place is that of a row, and none is there twice.
fn are_of_rows(places: &[Place]) -> bool {
    let mut is_seen = [false; 64];
    for place in places {
        let number = number_of(place).min(63);
        if place.output() != number || is_seen[number] {
            return false;
        }
        is_seen[number] = true;
    }
    true
}

/// Whether no place has an output before this one.
fn have_outputs_from(places: &[Place], first: usize) -> bool {
    for place in places {
        if place.output() < first {
            return false;
        }
    }
    true
}

/// What proposes places of the decoder, by the rows outside.
fn proposer(alloc: Global) -> Result<Proposer, AllocError> {
    let (on, off) = (small_decoder(alloc, 64)?, outside_decoder(alloc, 6, 64)?);
    Proposer::by_off(alloc, &on, &Rows::new(alloc, 6, 64), &off, false)
}

#[test]
fn each_row_of_a_decoder_has_a_place(rt: HostRuntime) -> Result<(), Fail> {
    let alloc = rt.alloc();
    let places = proposer(alloc)?.first_places(&small_decoder(alloc, 64)?)?;
    assert!(rt; places.len() == 64 && are_of_rows(&places));
    Ok(())
}

#[test]
fn each_row_that_a_cover_leaves_out_has_a_place(rt: HostRuntime) -> Result<(), Fail> {
    let alloc = rt.alloc();
    for count in [0usize, 1, 40, 63, 64] {
        let places = proposer(alloc)?.places_left_out(
            &small_decoder(alloc, 64)?,
            &small_decoder(alloc, count)?,
        )?;
        assert!(rt; places.len() == 64 - count && are_of_rows(&places));
        assert!(rt; have_outputs_from(&places, count));
    }
    Ok(())
}

#[test]
fn the_primes_of_a_decoder_show_the_same(rt: HostRuntime) -> Result<(), Fail> {
    let alloc = rt.alloc();
    let (on, dc) = (small_decoder(alloc, 64)?, Rows::new(alloc, 6, 64));
    let by_primes = Proposer::by_primes(alloc, &on, &dc, small_decoder(alloc, 64)?, false)?;
    assert!(rt; are_of_rows(&by_primes.first_places(&on)?));
    let places = by_primes.places_left_out(&on, &small_decoder(alloc, 60)?)?;
    assert!(rt; places.len() == 4 && are_of_rows(&places));
    Ok(())
}
