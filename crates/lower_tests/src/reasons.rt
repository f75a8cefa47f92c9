//! Tautology and containment against the plain definition, and on wide lists.
use crate::lists::{HALF, LONG_HALF, NONE, UNIVERSE, WIDE_HALF};
use crate::row_texts::{held_of, new_shape};
use crate::rules::{Rows, Rule, list_of, small_output, small_symbol};
use cover::Cover;
use cube::Symbol;
use std::alloc::{AllocError, Global};
use std::test::Fail;

// Which of the cubes are held.
#[derive(Clone, Copy)]
enum Held {
    All,
    None,
    // All but the one of this number.
    AllBut(usize),
    // Those of which the definition says so, by the three small cubes with these numbers.
    Defined([usize; 3]),
    // The literals by which the first of seven pigeons has a hole.
    FirstHole,
}

// A list and cubes of so many inputs and outputs, whether the list holds everything, and which of
// the cubes it holds.
#[derive(Clone, Copy)]
struct Case {
    inputs: usize,
    outputs: usize,
    rows: Rows,
    cubes: Rows,
    is_tautology: bool,
    held: Held,
}

fn agrees(symbol: Symbol, bit: bool) -> bool {
    match symbol {
        Symbol::Dash => true,
        Symbol::Zero => !bit,
        Symbol::One => bit,
    }
}

// Whether a small cube holds one of the eight places, by the definition.
fn holds(number: usize, place: usize) -> bool {
    small_output(number, place / 4 % 2)
        && agrees(small_symbol(number, 0), place % 2 == 1)
        && agrees(small_symbol(number, 1), place / 2 % 2 == 1)
}

// Whether each place of a small cube is in one of the three with these numbers.
fn hold_all(numbers: [usize; 3], of: usize) -> bool {
    let [one, two, three] = numbers;
    for place in 0..8usize {
        let is_held = holds(one, place) || holds(two, place) || holds(three, place);
        if holds(of, place) && !is_held {
            return false;
        }
    }
    true
}

// Whether the cube of this number is held.
fn is_held(held: Held, number: usize) -> bool {
    match held {
        Held::All => true,
        Held::None => false,
        Held::AllBut(left_out) => number != left_out,
        Held::Defined(numbers) => hold_all(numbers, number),
        Held::FirstHole => number < 12 && number % 2 == 1,
    }
}

// Whether just those cubes are held.
fn are_these(answers: &[bool], held: Held) -> bool {
    for number in 0..answers.len() {
        if answers[number] != is_held(held, number) {
            return false;
        }
    }
    true
}

// Whether the list of the case holds what it is to hold of the cubes.
fn holds_as_defined(alloc: Global, case: Case, cubes: &Cover) -> Result<bool, AllocError> {
    let list = list_of(alloc, cubes.shape(), case.rows)?;
    let held = held_of(&list, cubes)?;
    Ok(list.tautology()? == case.is_tautology && are_these(&held, case.held))
}

fn cubes_of(alloc: Global, case: Case) -> Result<Cover, AllocError> {
    list_of(alloc, new_shape(case.inputs, case.outputs)?, case.cubes)
}

fn is_as_defined(alloc: Global, case: Case) -> Result<bool, AllocError> {
    holds_as_defined(alloc, case, &cubes_of(alloc, case)?)
}

// All cubes of two inputs and two outputs, and none of them in a list.
const SMALL: Case = Case {
    inputs: 2,
    outputs: 2,
    rows: NONE,
    cubes: (Rule::Small, 0, 27),
    is_tautology: false,
    held: Held::None,
};

// The list of three of them.
fn three(one: usize, two: usize, three: usize) -> Case {
    let numbers = [one, two, three];
    Case {
        rows: (Rule::Three(numbers), 0, 3),
        // That cube holds every place.
        is_tautology: hold_all(numbers, 18),
        held: Held::Defined(numbers),
        ..SMALL
    }
}

// Whether all lists of three small cubes hold what they are to hold.
fn all_hold(alloc: Global, cubes: &Cover) -> Result<bool, AllocError> {
    for one in 0..27usize {
        for two in 0..one + 1 {
            for last in 0..two + 1 {
                if !holds_as_defined(alloc, three(one, two, last), cubes)? {
                    return Ok(false);
                }
            }
        }
    }
    Ok(true)
}

#[test]
fn all_small_covers(rt: HostRuntime) -> Result<(), Fail> {
    assert!(rt; is_as_defined(rt.alloc(), SMALL)?);
    assert!(rt; all_hold(rt.alloc(), &cubes_of(rt.alloc(), SMALL)?)?);
    Ok(())
}

// Cubes of seven words and three outputs, each step in two rows. Together they hold everything, but
// not without one row.
const STEPS: Rows = (Rule::Steps(362), 0, 362);

// Seven pigeons and six holes: an input says whether a pigeon is in a hole. Splits do not answer
// soon whether each literal is held.
const LITERALS: Rows = (Rule::Literals, 0, 84);

const LARGE: [Case; 9] = [
    Case {
        inputs: 180,
        outputs: 3,
        rows: STEPS,
        cubes: STEPS,
        is_tautology: true,
        held: Held::All,
    },
    Case {
        inputs: 180,
        outputs: 3,
        rows: (Rule::Steps(1), 0, 361),
        cubes: STEPS,
        is_tautology: false,
        held: Held::AllBut(1),
    },
    Case {
        inputs: 180,
        outputs: 3,
        rows: (Rule::Steps(207), 0, 361),
        cubes: STEPS,
        is_tautology: false,
        held: Held::AllBut(207),
    },
    // Each literal is held if all seven are to have a hole.
    Case {
        inputs: 42,
        outputs: 1,
        rows: (Rule::Pigeons, 0, 133),
        cubes: LITERALS,
        is_tautology: true,
        held: Held::All,
    },
    // Where the first of them needs none, those are with which it has one.
    Case {
        inputs: 42,
        outputs: 1,
        rows: (Rule::Pigeons, 1, 133),
        cubes: LITERALS,
        is_tautology: false,
        held: Held::FirstHole,
    },
    Case {
        inputs: 16,
        outputs: 1,
        rows: LONG_HALF,
        cubes: HALF,
        is_tautology: false,
        held: Held::All,
    },
    Case {
        inputs: 16,
        outputs: 1,
        rows: LONG_HALF,
        cubes: UNIVERSE,
        is_tautology: false,
        held: Held::None,
    },
    Case {
        inputs: 1024,
        outputs: 1024,
        rows: WIDE_HALF,
        cubes: HALF,
        is_tautology: false,
        held: Held::All,
    },
    Case {
        inputs: 1024,
        outputs: 1024,
        rows: WIDE_HALF,
        cubes: UNIVERSE,
        is_tautology: false,
        held: Held::None,
    },
];

#[test]
fn large_covers(rt: HostRuntime) -> Result<(), Fail> {
    for case in &LARGE {
        assert!(rt; is_as_defined(rt.alloc(), *case)?);
    }
    Ok(())
}
