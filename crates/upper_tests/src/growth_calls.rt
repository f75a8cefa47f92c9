//! Each public call of `growth`, on small, long and wide lists: what cubes grow to, and what is asked
//! on the way.
ghost use Rattle.std.specs.Prelude.{◌≡◌, OnOk};

use crate::rules::{Outputs, Rows, Rule, add_rows, has_rows};
use crate::tables::read;
use cover::{Cover, contain, in_row_order};
use covering::Choice;
use cube::{Cube, Shape};
use growth::{
    Growth, RowsByOutput, Side, add_copy, are_apart, columns_of_point, grow, hold_cube,
    large_first, lies_in_one_of, outputs_at, rows_to_ask,
};
use pla::Pla;
use rows::references_to_cubes;
use std::alloc::{AllocError, Global};
use std::test::Fail;

// What is made of the ON rows.
#[derive(Clone, Copy)]
enum Call {
    // Primes that they grow to within them, or outside the OFF rows.
    Grow(Side),
    // Their columns among all of them, outside the OFF rows.
    Columns(Choice),
    // What the first of them becomes by the outputs that the OFF rows reach in it.
    Reached,
    // Copies of them.
    Copies,
}

// A call on so many of the ON rows, and what it makes, in row order and without cubes in others.
struct Case {
    call: Call,
    head: &'static [u8],
    inputs: usize,
    outputs: usize,
    which: Outputs,
    rows: &'static [Rows],
    asked: usize,
    made: (Outputs, Rule, usize),
}

const PAIRS: &[Rows] = &[
    (Rule::Both, 3, b'1'),
    (Rule::First, 3, b'1'),
    (Rule::NotFirst, 3, b'0'),
];

const MANY_PAIRS: &[Rows] = &[
    (Rule::Both, 128, b'1'),
    (Rule::First, 128, b'1'),
    (Rule::NotFirst, 128, b'0'),
];

const POINTS: &[Rows] = &[(Rule::Odd, 4096, b'1'), (Rule::Even, 4096, b'0')];

const GROWN: [Case; 6] = [
    Case {
        call: Call::Grow(Side::Inside),
        head: b".i 6\n.o 3\n.type fr\n",
        inputs: 6,
        outputs: 3,
        which: Outputs::Own,
        rows: PAIRS,
        asked: 6,
        made: (Outputs::Own, Rule::Prime, 3),
    },
    Case {
        call: Call::Grow(Side::Outside),
        head: b".i 6\n.o 3\n.type fr\n",
        inputs: 6,
        outputs: 3,
        which: Outputs::Own,
        rows: PAIRS,
        asked: 6,
        made: (Outputs::Own, Rule::Prime, 3),
    },
    Case {
        call: Call::Grow(Side::Inside),
        head: b".i 13\n.o 1\n.type fr\n",
        inputs: 13,
        outputs: 1,
        which: Outputs::All,
        rows: POINTS,
        asked: 4096,
        made: (Outputs::All, Rule::Odd, 4096),
    },
    Case {
        call: Call::Grow(Side::Outside),
        head: b".i 13\n.o 1\n.type fr\n",
        inputs: 13,
        outputs: 1,
        which: Outputs::All,
        rows: POINTS,
        asked: 4096,
        made: (Outputs::All, Rule::Odd, 4096),
    },
    Case {
        call: Call::Grow(Side::Inside),
        head: b".i 1024\n.o 1024\n.type fr\n",
        inputs: 1024,
        outputs: 1024,
        which: Outputs::Own,
        rows: MANY_PAIRS,
        asked: 256,
        made: (Outputs::Own, Rule::Prime, 128),
    },
    Case {
        call: Call::Grow(Side::Outside),
        head: b".i 1024\n.o 128\n.type fr\n",
        inputs: 1024,
        outputs: 128,
        which: Outputs::Own,
        rows: MANY_PAIRS,
        asked: 256,
        made: (Outputs::Own, Rule::Prime, 128),
    },
];

const COLUMNS: [Case; 6] = [
    Case {
        call: Call::Columns(Choice::First),
        head: b".i 6\n.o 3\n.type fr\n",
        inputs: 6,
        outputs: 3,
        which: Outputs::Own,
        rows: PAIRS,
        asked: 6,
        made: (Outputs::Own, Rule::Prime, 3),
    },
    // Each point of a ring is in two primes, which contain other points too.
    Case {
        call: Call::Columns(Choice::First),
        head: b".i 12\n.o 1\n.type fr\n",
        inputs: 12,
        outputs: 1,
        which: Outputs::All,
        rows: &[(Rule::Ring, 24, b'1'), (Rule::Gap, 16, b'0')],
        asked: 24,
        made: (Outputs::All, Rule::RingPrime, 24),
    },
    Case {
        call: Call::Columns(Choice::Literals),
        head: b".i 12\n.o 1\n.type fr\n",
        inputs: 12,
        outputs: 1,
        which: Outputs::All,
        rows: &[(Rule::Ring, 24, b'1'), (Rule::Gap, 16, b'0')],
        asked: 24,
        made: (Outputs::All, Rule::RingPrime, 24),
    },
    Case {
        call: Call::Columns(Choice::First),
        head: b".i 13\n.o 1\n.type fr\n",
        inputs: 13,
        outputs: 1,
        which: Outputs::All,
        rows: POINTS,
        asked: 64,
        made: (Outputs::All, Rule::Odd, 64),
    },
    Case {
        call: Call::Columns(Choice::Literals),
        head: b".i 13\n.o 1\n.type fr\n",
        inputs: 13,
        outputs: 1,
        which: Outputs::All,
        rows: POINTS,
        asked: 64,
        made: (Outputs::All, Rule::Odd, 64),
    },
    Case {
        call: Call::Columns(Choice::First),
        head: b".i 1024\n.o 128\n.type fr\n",
        inputs: 1024,
        outputs: 128,
        which: Outputs::Own,
        rows: MANY_PAIRS,
        asked: 256,
        made: (Outputs::Own, Rule::Prime, 128),
    },
];

const COPIED: [Case; 6] = [
    Case {
        call: Call::Reached,
        head: b".i 6\n.o 3\n.type fr\n",
        inputs: 6,
        outputs: 3,
        which: Outputs::Own,
        rows: &[(Rule::Universe, 1, b'1'), (Rule::Neither, 3, b'0')],
        asked: 1,
        made: (Outputs::All, Rule::Neither, 1),
    },
    Case {
        call: Call::Reached,
        head: b".i 13\n.o 1\n.type fr\n",
        inputs: 13,
        outputs: 1,
        which: Outputs::All,
        rows: POINTS,
        asked: 1,
        made: (Outputs::All, Rule::Odd, 1),
    },
    Case {
        call: Call::Reached,
        head: b".i 1024\n.o 1024\n.type fr\n",
        inputs: 1024,
        outputs: 1024,
        which: Outputs::Own,
        rows: &[(Rule::Universe, 1, b'1'), (Rule::Neither, 1024, b'0')],
        asked: 1,
        made: (Outputs::All, Rule::Neither, 1),
    },
    Case {
        call: Call::Copies,
        head: b".i 6\n.o 3\n.type fr\n",
        inputs: 6,
        outputs: 3,
        which: Outputs::Own,
        rows: &[(Rule::Both, 3, b'1'), (Rule::Prime, 3, b'1')],
        asked: 6,
        made: (Outputs::Own, Rule::Prime, 3),
    },
    Case {
        call: Call::Copies,
        head: b".i 13\n.o 1\n.type fr\n",
        inputs: 13,
        outputs: 1,
        which: Outputs::All,
        rows: POINTS,
        asked: 4096,
        made: (Outputs::All, Rule::Odd, 4096),
    },
    Case {
        call: Call::Copies,
        head: b".i 1024\n.o 1024\n.type fr\n",
        inputs: 1024,
        outputs: 1024,
        which: Outputs::Own,
        rows: &[(Rule::Both, 128, b'1'), (Rule::Prime, 128, b'1')],
        asked: 256,
        made: (Outputs::Own, Rule::Prime, 128),
    },
];

// Fails where the shapes are not the same.
fn same_shape(mine: Shape, theirs: Shape) -> Result<(), AllocError>
    ensures { OnOk result (theirs ≡ mine) }
{
    if mine != theirs {
        return Err(AllocError);
    }
    Ok(())
}

// Whether the rows hold the cube.
fn are_holding(alloc: Global, list: &Cover, cube: &Cube) -> Result<bool, AllocError> {
    same_shape(list.shape(), cube.shape())?;
    let rows = references_to_cubes(alloc, list.as_slice())?;
    hold_cube(alloc, &rows, cube)
}

// Whether no row has a place of the cube.
fn are_outside(list: &Cover, cube: &Cube) -> Result<bool, AllocError> {
    same_shape(list.shape(), cube.shape())?;
    Ok(are_apart(list.as_slice(), cube))
}

// Whether the cube lies on that side of the rows.
fn is_on_side(alloc: Global, side: Side, list: &Cover, cube: &Cube) -> Result<bool, AllocError> {
    match side {
        Side::Inside => are_holding(alloc, list, cube),
        Side::Outside => are_outside(list, cube),
    }
}

fn add(list: &mut Cover, cube: &Cube) -> Result<(), AllocError> {
    same_shape(list.shape(), cube.shape())?;
    add_copy(list, cube)
}

fn append(list: &mut Cover, more: &Cover) -> Result<(), AllocError> {
    same_shape(list.shape(), more.shape())?;
    list.append(more)
}

// Adds what the cube grows to. Fails where the rows near it tell that it is on the other side.
fn add_grown(
    alloc: Global,
    side: Side,
    rows: &RowsByOutput,
    cube: &Cube,
    list: &mut Cover,
) -> Result<(), AllocError> {
    same_shape(rows.shape(), cube.shape())?;
    let Growth { cube: prime, near } = grow(alloc, side, rows, cube)?;
    if !is_on_side(alloc, side, rows_to_ask(&*rows, &near), &prime)? {
        return Err(AllocError);
    }
    add(list, &prime)
}

// What the first of these cubes grow to, on a side of the rows.
fn grown(
    alloc: Global,
    side: Side,
    list: &Cover,
    cubes: &Cover,
    count: usize,
) -> Result<Cover, AllocError> {
    let rows = RowsByOutput::new(alloc, list)?;
    let mut made = Cover::new(alloc, rows.list().shape());
    for k in 0..count {
        let cube = cubes.get(k).ok_or(AllocError)?;
        add_grown(alloc, side, &rows, cube, &mut made)?;
    }
    Ok(made)
}

// The columns of the first of these points.
fn columns(
    alloc: Global,
    choice: Choice,
    off: &Cover,
    points: &Cover,
    count: usize,
) -> Result<Cover, AllocError>
    requires { off.now.size ≡ points.now.size }
{
    let mut made = Cover::new(alloc, off.shape());
    for k in 0..count.min(points.len()) {
        match columns_of_point(alloc, off, points.as_slice(), k, choice, usize::MAX)? {
            Some(found) => append(&mut made, &found)?,
            None => return Err(AllocError),
        }
    }
    Ok(made)
}

// The first cube with the outputs that the rows reach in it.
fn reached(alloc: Global, list: &Cover, cubes: &Cover) -> Result<Cover, AllocError> {
    let region = cubes.get(0).ok_or(AllocError)?.try_clone()?;
    same_shape(list.shape(), region.shape())?;
    let here = outputs_at(list, region)?;
    let mut made = Cover::new(alloc, list.shape());
    add(&mut made, &here)?;
    Ok(made)
}

// Copies of the first cubes.
fn copies(alloc: Global, cubes: &Cover, count: usize) -> Result<Cover, AllocError> {
    let mut made = Cover::new(alloc, cubes.shape());
    for k in 0..count {
        add(&mut made, cubes.get(k).ok_or(AllocError)?)?;
    }
    Ok(made)
}

// What the call makes of the lists.
fn made(alloc: Global, case: &Case, on: &Cover, off: &Cover) -> Result<Cover, AllocError>
    requires { off.now.size ≡ on.now.size }
{
    match case.call {
        Call::Grow(Side::Inside) => grown(alloc, Side::Inside, on, on, case.asked),
        Call::Grow(Side::Outside) => grown(alloc, Side::Outside, off, on, case.asked),
        Call::Columns(choice) => columns(alloc, choice, off, on, case.asked),
        Call::Reached => reached(alloc, off, on),
        Call::Copies => copies(alloc, on, case.asked),
    }
}

// What a file with these rows describes.
fn read_rows(
    alloc: Global,
    head: &[u8],
    shape: (usize, usize, Outputs),
    rows: &[Rows],
) -> Result<Pla, Fail> {
    let mut text = head.to_vec(alloc)?;
    for some in rows {
        add_rows(&mut text, shape, *some)?;
    }
    read(alloc, &text)
}

// Whether the call makes what it is to make.
fn makes(alloc: Global, case: &Case) -> Result<bool, Fail> {
    let shape = (case.inputs, case.outputs, case.which);
    let pla = read_rows(alloc, case.head, shape, case.rows)?;
    let all = large_first(made(alloc, case, pla.on(), pla.off())?)?;
    let list = in_row_order(&contain(&all)?)?;
    let (which, rule, count) = case.made;
    Ok(has_rows(&list, which, rule, count))
}

#[test]
fn cubes_grow_to_primes(rt: HostRuntime) -> Result<(), Fail> {
    for case in &GROWN {
        assert!(rt; makes(rt.alloc(), case)?);
    }
    Ok(())
}

#[test]
fn points_have_columns(rt: HostRuntime) -> Result<(), Fail> {
    for case in &COLUMNS {
        assert!(rt; makes(rt.alloc(), case)?);
    }
    Ok(())
}

#[test]
fn copies_are_those_of_large_cubes(rt: HostRuntime) -> Result<(), Fail> {
    for case in &COPIED {
        assert!(rt; makes(rt.alloc(), case)?);
    }
    Ok(())
}

// What is asked of the first ON row.
#[derive(Clone, Copy)]
enum Question {
    // Whether the OFF rows hold it.
    IsHeld,
    // Whether none of the OFF rows has a place of it.
    IsApart,
    // Whether it lies in one of the OFF rows.
    LiesInOne,
}

// A question about ON and OFF rows, and its answer.
struct Asked {
    question: Question,
    head: &'static [u8],
    inputs: usize,
    outputs: usize,
    rows: &'static [Rows],
    answer: bool,
}

const ASKED: [Asked; 12] = [
    Asked {
        question: Question::IsHeld,
        head: b".i 6\n.o 1\n.type fr\n",
        inputs: 6,
        outputs: 1,
        rows: &[
            (Rule::Prime, 1, b'1'),
            (Rule::Both, 1, b'0'),
            (Rule::First, 1, b'0'),
        ],
        answer: true,
    },
    Asked {
        question: Question::IsHeld,
        head: b".i 6\n.o 1\n.type fr\n",
        inputs: 6,
        outputs: 1,
        rows: &[(Rule::Universe, 1, b'1'), (Rule::Prime, 3, b'0')],
        answer: false,
    },
    Asked {
        question: Question::IsHeld,
        head: b".i 12\n.o 1\n.type fr\n",
        inputs: 12,
        outputs: 1,
        rows: &[(Rule::Universe, 1, b'1'), (Rule::Odd, 4096, b'0')],
        answer: true,
    },
    Asked {
        question: Question::IsHeld,
        head: b".i 1024\n.o 1024\n.type fr\n",
        inputs: 1024,
        outputs: 1024,
        rows: &[(Rule::Universe, 1, b'1'), (Rule::Prime, 512, b'0')],
        answer: false,
    },
    Asked {
        question: Question::IsApart,
        head: b".i 6\n.o 1\n.type fr\n",
        inputs: 6,
        outputs: 1,
        rows: &[(Rule::Prime, 1, b'1'), (Rule::NotFirst, 1, b'0')],
        answer: true,
    },
    Asked {
        question: Question::IsApart,
        head: b".i 6\n.o 1\n.type fr\n",
        inputs: 6,
        outputs: 1,
        rows: &[(Rule::Prime, 1, b'1'), (Rule::NotFirst, 3, b'0')],
        answer: false,
    },
    Asked {
        question: Question::IsApart,
        head: b".i 13\n.o 1\n.type fr\n",
        inputs: 13,
        outputs: 1,
        rows: POINTS,
        answer: true,
    },
    Asked {
        question: Question::IsApart,
        head: b".i 1024\n.o 1024\n.type fr\n",
        inputs: 1024,
        outputs: 1024,
        rows: &[(Rule::Universe, 1, b'1'), (Rule::Prime, 512, b'0')],
        answer: false,
    },
    Asked {
        question: Question::LiesInOne,
        head: b".i 6\n.o 1\n.type fr\n",
        inputs: 6,
        outputs: 1,
        rows: &[(Rule::Both, 1, b'1'), (Rule::Prime, 3, b'0')],
        answer: true,
    },
    Asked {
        question: Question::LiesInOne,
        head: b".i 6\n.o 1\n.type fr\n",
        inputs: 6,
        outputs: 1,
        rows: &[(Rule::Prime, 1, b'1'), (Rule::Both, 3, b'0')],
        answer: false,
    },
    Asked {
        question: Question::LiesInOne,
        head: b".i 13\n.o 1\n.type fr\n",
        inputs: 13,
        outputs: 1,
        rows: POINTS,
        answer: false,
    },
    Asked {
        question: Question::LiesInOne,
        head: b".i 1024\n.o 1024\n.type fr\n",
        inputs: 1024,
        outputs: 1024,
        rows: &[(Rule::Both, 1, b'1'), (Rule::Prime, 512, b'0')],
        answer: true,
    },
];

// The answer of the rows for the cube.
fn answer(
    alloc: Global,
    question: Question,
    cube: &Cube,
    list: &Cover,
) -> Result<bool, AllocError> {
    match question {
        Question::IsHeld => are_holding(alloc, list, cube),
        Question::IsApart => are_outside(list, cube),
        Question::LiesInOne => {
            same_shape(list.shape(), cube.shape())?;
            Ok(lies_in_one_of(cube, list.as_slice()))
        }
    }
}

// Whether the question has its answer.
fn is_answered(alloc: Global, case: &Asked) -> Result<bool, Fail> {
    let shape = (case.inputs, case.outputs, Outputs::All);
    let pla = read_rows(alloc, case.head, shape, case.rows)?;
    let cube = pla.on().get(0).ok_or(AllocError)?;
    Ok(answer(alloc, case.question, cube, pla.off())? == case.answer)
}

#[test]
fn questions_about_a_cube_are_answered(rt: HostRuntime) -> Result<(), Fail> {
    for case in &ASKED {
        assert!(rt; is_answered(rt.alloc(), case)?);
    }
    Ok(())
}
