//! Descriptions of more than twelve inputs: by rule, and functions of a few inputs set apart among
//! many.
//!
//! The answers of the latter are those of the few inputs by the definitions
//! (`tests/definition.py`): inputs that play no part change neither the cubes nor their order.
use crate::descriptions::{
    ALL, Call, Case, ESSENTIAL, FIRST, LEAST_OF, LISTED, LITERALS, NO_PRIMES, OUTSIDE, SAMPLED,
    answer, answers,
};
use crate::rules::{Outputs, Rule};
use crate::tables::read;
use cover::Cover;
use pla::Pla;
use std::alloc::{AllocError, Global};
use std::test::Fail;

// Also from sets, and not all primes.
const OF_SETS: &[Call] = &[
    Call::OfSets,
    Call::ExactOfSets(FIRST),
    Call::ExactOfSets(LITERALS),
];

const WIDE: [Case; 28] = [
    (
        b".i 600\n.o 16\n.type f\n",
        600,
        16,
        Outputs::Own,
        &[(Rule::Both, 16, b'1')],
        ESSENTIAL,
        Rule::Both,
        16,
    ),
    (
        b".i 600\n.o 16\n.type f\n",
        600,
        16,
        Outputs::Own,
        &[(Rule::Both, 16, b'1')],
        OF_SETS,
        Rule::Both,
        16,
    ),
    (
        b".i 130\n.o 20\n.type fd\n",
        130,
        20,
        Outputs::Own,
        &[(Rule::Both, 20, b'1'), (Rule::First, 20, b'-')],
        ESSENTIAL,
        Rule::Prime,
        20,
    ),
    (
        b".i 130\n.o 20\n.type fd\n",
        130,
        20,
        Outputs::Own,
        &[(Rule::Both, 20, b'1'), (Rule::First, 20, b'-')],
        OF_SETS,
        Rule::Prime,
        20,
    ),
    (
        b".i 70\n.o 20\n.type fdr\n",
        70,
        20,
        Outputs::Own,
        &[
            (Rule::Both, 20, b'1'),
            (Rule::First, 20, b'-'),
            (Rule::NotFirst, 20, b'0'),
        ],
        ESSENTIAL,
        Rule::Prime,
        20,
    ),
    (
        b".i 70\n.o 20\n.type fdr\n",
        70,
        20,
        Outputs::Own,
        &[
            (Rule::Both, 20, b'1'),
            (Rule::First, 20, b'-'),
            (Rule::NotFirst, 20, b'0'),
        ],
        OF_SETS,
        Rule::Prime,
        20,
    ),
    (
        b".i 600\n.o 16\n.type fr\n",
        600,
        16,
        Outputs::Own,
        &[
            (Rule::Both, 16, b'1'),
            (Rule::NotFirst, 16, b'0'),
            (Rule::Both, 16, b'0'),
        ],
        ESSENTIAL,
        Rule::Prime,
        16,
    ),
    (
        b".i 130\n.o 20\n.type fr\n",
        130,
        20,
        Outputs::Own,
        &[(Rule::Both, 20, b'1'), (Rule::NotFirst, 20, b'0')],
        OUTSIDE,
        Rule::Prime,
        20,
    ),
    (
        b".i 70\n.o 2\n.type fr\n",
        70,
        2,
        Outputs::All,
        &[(Rule::Both, 35, b'1'), (Rule::Neither, 1, b'0')],
        SAMPLED,
        Rule::Prime,
        35,
    ),
    (
        b".i 33\n.o 1\n.type f\n",
        33,
        1,
        Outputs::All,
        &[(Rule::Ring, 66, b'1')],
        LISTED,
        Rule::RingPrime,
        66,
    ),
    (
        b".i 33\n.o 1\n.type f\n",
        33,
        1,
        Outputs::All,
        &[(Rule::Ring, 66, b'1')],
        NO_PRIMES,
        Rule::RingPrime,
        0,
    ),
    (
        b".i 33\n.o 1\n.type f\n",
        33,
        1,
        Outputs::All,
        &[(Rule::Ring, 66, b'1')],
        LEAST_OF,
        Rule::RingLeast,
        33,
    ),
    (
        b".i 33\n.o 2\n.type f\n",
        33,
        2,
        Outputs::All,
        &[(Rule::Ring, 30, b'1')],
        NO_PRIMES,
        Rule::RingPrime,
        0,
    ),
    (
        b".i 33\n.o 2\n.type f\n",
        33,
        2,
        Outputs::All,
        &[(Rule::Ring, 30, b'1')],
        LEAST_OF,
        Rule::RingLeast,
        15,
    ),
    (
        b".i 130\n.o 2\n.type f\n",
        130,
        2,
        Outputs::All,
        &[(Rule::Ring, 24, b'1')],
        LEAST_OF,
        Rule::RingLeast,
        12,
    ),
    (
        b".i 15\n.o 1\n.type fr\n",
        15,
        1,
        Outputs::All,
        &[(Rule::Ring, 30, b'1'), (Rule::Gap, 32, b'0')],
        LISTED,
        Rule::RingPrime,
        30,
    ),
    (
        b".i 15\n.o 1\n.type fr\n",
        15,
        1,
        Outputs::All,
        &[(Rule::Ring, 30, b'1'), (Rule::Gap, 32, b'0')],
        NO_PRIMES,
        Rule::RingPrime,
        0,
    ),
    (
        b".i 15\n.o 1\n.type fr\n",
        15,
        1,
        Outputs::All,
        &[(Rule::Ring, 30, b'1'), (Rule::Gap, 32, b'0')],
        LEAST_OF,
        Rule::RingLeast,
        15,
    ),
    (
        b".i 600\n.o 16\n.type f\n",
        600,
        16,
        Outputs::Own,
        &[(Rule::Point, 16, b'1')],
        ALL,
        Rule::Point,
        16,
    ),
    (
        b".i 600\n.o 16\n.type fr\n",
        600,
        16,
        Outputs::Own,
        &[(Rule::Point, 16, b'1'), (Rule::Universe, 16, b'0')],
        SAMPLED,
        Rule::Point,
        16,
    ),
    // Rings with an output each.
    (
        b".i 60\n.o 20\n.type f\n",
        60,
        20,
        Outputs::OfRing,
        &[(Rule::Ring, 120, b'1')],
        NO_PRIMES,
        Rule::RingPrime,
        0,
    ),
    (
        b".i 60\n.o 20\n.type f\n",
        60,
        20,
        Outputs::OfRing,
        &[(Rule::Ring, 120, b'1')],
        LEAST_OF,
        Rule::RingLeast,
        60,
    ),
    (
        b".i 600\n.o 20\n.type f\n",
        600,
        20,
        Outputs::OfRing,
        &[(Rule::Ring, 120, b'1')],
        LEAST_OF,
        Rule::RingLeast,
        60,
    ),
    // Rings behind codes.
    (
        b".i 40\n.o 1\n.type f\n",
        40,
        1,
        Outputs::All,
        &[(Rule::CodedRing, 192, b'1')],
        LISTED,
        Rule::CodedPrime,
        192,
    ),
    (
        b".i 40\n.o 1\n.type f\n",
        40,
        1,
        Outputs::All,
        &[(Rule::CodedRing, 192, b'1')],
        NO_PRIMES,
        Rule::CodedPrime,
        0,
    ),
    (
        b".i 40\n.o 1\n.type f\n",
        40,
        1,
        Outputs::All,
        &[(Rule::CodedRing, 192, b'1')],
        LEAST_OF,
        Rule::CodedLeast,
        96,
    ),
    (
        b".i 40\n.o 2\n.type f\n",
        40,
        2,
        Outputs::All,
        &[(Rule::CodedRing, 192, b'1')],
        LEAST_OF,
        Rule::CodedLeast,
        96,
    ),
    (
        b".i 130\n.o 1\n.type f\n",
        130,
        1,
        Outputs::All,
        &[(Rule::Ring, 240, b'1')],
        LEAST_OF,
        Rule::RingLeast,
        120,
    ),
];

#[test]
fn wide_descriptions_answer(rt: HostRuntime) -> Result<(), Fail> {
    for case in &WIDE {
        assert!(rt; answers(rt.alloc(), case)?);
    }
    Ok(())
}

// A function of a few inputs, and what it has: its primes, the essential ones, the least cover and
// that of fewest literals. Rows stand with `/` between them.
struct Few {
    inputs: usize,
    outputs: &'static [u8],
    kind: &'static [u8],
    rows: &'static [u8],
    primes: &'static [u8],
    essential: &'static [u8],
    first: &'static [u8],
    literals: &'static [u8],
}

const FEW: [Few; 9] = [
    Few {
        inputs: 6,
        outputs: b".o 4\n",
        kind: b".type f\n",
        rows: b"111010 0111/011-10 0111/0011-1 1110/-0-001 1111/100010 0101/---011 0110\
            /-00110 1101/01-110 1001/011001 1111/1-0110 0011",
        primes: b"---011 0110/--0110 0001/-0-0-1 0110/-0-001 1111/-00110 1101/-1101- 0110\
            /-11010 0111/0-0110 1001/0-10-1 0110/0-1001 1111/001--1 0110/001-01 1110\
            /0011-1 1110/01-110 1001/011-10 0111/011110 1111/1-0110 0011/100-10 0101\
            /10001- 0100/100110 1111",
        essential: b"---011 0110/-0-001 1111/-00110 1101/-11010 0111/0-1001 1111/0011-1 1110\
            /1-0110 0011/100-10 0101",
        first: b"---011 0110/-0-001 1111/-00110 1101/-11010 0111/0-0110 1001/0-1001 1111\
            /0011-1 1110/011110 1111/1-0110 0011/100-10 0101",
        literals: b"---011 0110/-0-001 1111/-00110 1101/-11010 0111/0-1001 1111/0011-1 1110\
            /01-110 1001/011-10 0111/1-0110 0011/100-10 0101",
    },
    Few {
        inputs: 5,
        outputs: b".o 3\n",
        kind: b".type fd\n",
        rows: b"0---- 01-/01111 -00/0--10 -0-/010-0 -10/0-100 -00/-1011 101/00000 10-\
            /10011 1-1/1000- -10",
        primes: b"--011 001/-00-1 010/-000- 010/-0000 110/-0011 011/-1011 101/0---- 011\
            /0---0 111/01-1- 111/1-011 101/100-1 110/1000- 110/10011 111",
        essential: b"0---- 011",
        first: b"--011 001/-0000 110/-1011 101/0---- 011/100-1 110",
        literals: b"-000- 010/0---- 011/0---0 111/01-1- 111/1-011 101",
    },
    Few {
        inputs: 5,
        outputs: b".o 3\n",
        kind: b".type fr\n",
        rows: b"1-11- 0~~/-00-1 1~1/01001 010/-0001 001/--1-0 0~1/001-0 001/010-0 000\
            /11-00 1~0/10010 011",
        primes: b"---11 011/--011 111/--1-- 001/--1-1 011/--101 111/-0--- 001/-0-01 101\
            /-00-0 011/-00-1 101/-000- 101/-0000 111/-001- 011/-1--1 010/-11-- 011\
            /0--11 111/0-1-1 111/00--1 101/000-- 101/000-0 111/0001- 111/1---0 010\
            /1---1 001/1--01 101/1--1- 011/1-0-1 101/1-00- 100/1-000 110/1-1-- 011\
            /10--0 011/11--- 010/11--1 011/11-0- 110/11-01 111/110-- 110/110-1 111\
            /1101- 111/1110- 111",
        essential: b"-1--1 010",
        first: b"--1-- 001/-00-0 011/-00-1 101/-1--1 010/11-0- 110",
        literals: b"--1-- 001/-00-1 101/-1--1 010/1--1- 011/11-0- 110",
    },
    Few {
        inputs: 5,
        outputs: b".o 3\n",
        kind: b".type fdr\n",
        rows: b"011-0 100/011-0 1~1/0-101 010/0000- -~-/1-101 011/-1010 0-1/-0001 1-1\
            /11111 --1/10--0 10-",
        primes: b"--101 010/-0-01 010/-000- 101/-0001 111/-1010 011/01-10 001/011-0 101\
            /1-010 001/1-101 011/10--0 101/10-0- 001/10-01 011/111-1 011/11111 111",
        essential: b"--101 010/011-0 101/10--0 101",
        first: b"--101 010/-000- 101/-1010 011/011-0 101/1-101 011/10--0 101/111-1 011",
        literals: b"--101 010/-000- 101/-1010 011/011-0 101/10--0 101/10-0- 001/111-1 011",
    },
    Few {
        inputs: 10,
        outputs: b".o 2\n",
        kind: b".type f\n",
        rows: b"1-------00 10/-1------00 01/--1-----10 10/---1----10 01/----1---01 10\
            /-----1--01 01/------1-11 10/-------111 01",
        primes: b"-------111 01/------1-11 10/------1111 11/-----1--01 01/-----1-1-1 01\
            /----1---01 10/----1-1--1 10/----11--01 11/----1111-1 11/---1----10 01\
            /---1---11- 01/--1-----10 10/--1---1-1- 10/--11----10 11/--11--111- 11\
            /-1------00 01/-1---1--0- 01/-1-1-----0 01/-1-1-1-1-- 01/1-------00 10\
            /1---1---0- 10/1-1------0 10/1-1-1-1--- 10/11------00 11/11--11--0- 11\
            /1111-----0 11/11111111-- 11",
        essential: b"-------111 01/------1-11 10/-----1--01 01/----1---01 10/---1----10 01\
            /--1-----10 10/-1------00 01/1-------00 10",
        first: b"-------111 01/------1-11 10/-----1--01 01/----1---01 10/---1----10 01\
            /--1-----10 10/-1------00 01/1-------00 10",
        literals: b"-------111 01/------1-11 10/-----1--01 01/----1---01 10/---1----10 01\
            /--1-----10 10/-1------00 01/1-------00 10",
    },
    Few {
        inputs: 6,
        outputs: b".o 2\n",
        kind: b".type f\n",
        rows: b"000--- 11/001--- 11/010--- 11/101--- 11/110--- 11/111--- 11/---000 01\
            /---001 01/---010 01/---101 01/---110 01/---111 01",
        primes: b"----01 01/----10 01/---0-0 01/---00- 01/---1-1 01/---11- 01/-01--- 11\
            /-10--- 11/0-0--- 11/00---- 11/1-1--- 11/11---- 11",
        essential: b"",
        first: b"----01 01/---0-0 01/---11- 01/-01--- 11/0-0--- 11/11---- 11",
        literals: b"----01 01/---0-0 01/---11- 01/-01--- 11/0-0--- 11/11---- 11",
    },
    // Many pairs of rows have a consensus.
    Few {
        inputs: 6,
        outputs: b".o 1\n",
        kind: b".type f\n",
        rows: b"--11-0 1/-100-- 1/-00--1 1/11--1- 1/--1-10 1/-1-10- 1/0-0-1- 1/--10-0 1\
            /1--1-- 1/1--0-0 1/-0-0-1 1/---1-1 1/1----0 1",
        primes: b"----10 1/---1-1 1/---11- 1/--0--1 1/--0-1- 1/--1--0 1/--11-- 1/-0---1 1\
            /-0--1- 1/-01--- 1/-1---0 1/-1-1-- 1/-10--- 1/1----0 1/1---1- 1/1--1-- 1\
            /1-0--- 1/10---- 1",
        essential: b"1---1- 1",
        first: b"----10 1/---1-1 1/--0--1 1/-01--- 1/-1---0 1/1----0 1/1---1- 1",
        literals: b"----10 1/---1-1 1/--0--1 1/-01--- 1/-1---0 1/1----0 1/1---1- 1",
    },
    Few {
        inputs: 3,
        outputs: b".o 3\n",
        kind: b".type fd\n",
        rows: b"01- 110/1-1 011/--- ---",
        primes: b"--- 111",
        essential: b"",
        first: b"",
        literals: b"",
    },
    Few {
        inputs: 3,
        outputs: b".o 2\n",
        kind: b".type fr\n",
        rows: b"01- 1~/1-1 01/101 ~0",
        primes: b"--- 01/--0 11/0-- 11",
        essential: b"--- 01/0-- 11",
        first: b"--- 01/0-- 11",
        literals: b"--- 01/0-- 11",
    },
];

// Numbers of inputs, with the lines that say so.
const WIDTHS: [(usize, &[u8]); 5] = [
    (14, b".i 14\n"),
    (33, b".i 33\n"),
    (70, b".i 70\n"),
    (130, b".i 130\n"),
    (600, b".i 600\n"),
];

// The byte of a row of some inputs at this input of many: the first stands at the second, and each
// next one so many behind.
fn byte_at(row: &[u8], few: usize, step: usize, input: usize) -> u8 {
    for k in 0..few.min(row.len()) {
        if k.wrapping_mul(step).wrapping_add(1) == input {
            return row[k];
        }
    }
    b'-'
}

// Adds a row of a file with the inputs apart.
fn add_row(text: &mut Vec<u8>, width: usize, few: usize, row: &[u8]) -> Result<(), AllocError> {
    for input in 0..width {
        text.push(byte_at(row, few, width / 11, input))?;
    }
    text.extend_from_slice(row.get(few..).unwrap_or(b""))?;
    text.push(b'\n')?;
    Ok(())
}

// What a file with these rows describes.
fn spread(
    alloc: Global,
    width: (usize, &[u8]),
    few: &Few,
    kind: &[u8],
    rows: &[u8],
) -> Result<Pla, Fail> {
    let mut text = width.1.to_vec(alloc)?;
    text.extend_from_slice(few.outputs)?;
    text.extend_from_slice(kind)?;
    for row in rows.split(|c| *c == b'/') {
        if !row.is_empty() {
            add_row(&mut text, width.0, few.inputs, row)?;
        }
    }
    read(alloc, &text)
}

// Whether the lists are one.
fn are_one(list: &Cover, other: &Cover) -> bool {
    for (k, cube) in list.as_slice().iter().enumerate() {
        match other.get(k) {
            Some(due) if cube.is_equal(due) => {}
            _ => return false,
        }
    }
    list.len() == other.len()
}

// Whether each call answers the rows.
fn all_have(
    alloc: Global,
    width: (usize, &[u8]),
    few: &Few,
    calls: &[Call],
    rows: &[u8],
) -> Result<bool, Fail> {
    let pla = spread(alloc, width, few, few.kind, few.rows)?;
    let due = spread(alloc, width, few, b".type f\n", rows)?;
    for call in calls {
        if !are_one(&answer(alloc, *call, &pla)?, due.on()) {
            return Ok(false);
        }
    }
    Ok(true)
}

const ESSENTIAL_ALL: &[Call] = &[
    Call::Essential,
    Call::OfSets,
    Call::OfPrimes,
    Call::OutsideSets,
];

const LEAST_FIRST: &[Call] = &[Call::Exact(FIRST), Call::ExactOfSets(FIRST)];

const LEAST_LITERALS: &[Call] = &[Call::Exact(LITERALS), Call::ExactOfSets(LITERALS)];

#[test]
fn inputs_that_play_no_part_change_nothing(rt: HostRuntime) -> Result<(), Fail> {
    let alloc = rt.alloc();
    for width in WIDTHS {
        for few in &FEW {
            assert!(rt; all_have(alloc, width, few, LISTED, few.primes)?);
            assert!(rt; all_have(alloc, width, few, ESSENTIAL_ALL, few.essential)?);
            assert!(rt; all_have(alloc, width, few, LEAST_FIRST, few.first)?);
            assert!(rt; all_have(alloc, width, few, LEAST_LITERALS, few.literals)?);
        }
    }
    Ok(())
}
