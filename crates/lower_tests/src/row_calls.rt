//! Each public call of `rows` that answers rows, on small, long and wide lists.
ghost use Rattle.std.specs.Prelude.{◌≡◌, ◌<◌, All, length};

use crate::lists::{
    HALF, LONG, LONG_HALF, LONG_REST, NONE, REST, Size, UNIVERSE, WIDE, WIDE_HALF, WIDE_REST,
    copies_of, first_of, references_to, shape_of,
};
use crate::rules::{Rows, Rule, are_rows, list_of};
use cover::Cover;
use cube::{Cube, Shape, Symbol};
use rows::{
    clone_cubes, clone_referents, meets_by_pairs, merge, push_copy, push_meets,
    references_to_cubes, rows_of_both, rows_with_compatible_symbol, rows_with_symbol, sort_rows,
    universal_cube, with_copies,
};
use std::alloc::{AllocError, Global};
use std::test::Fail;

#[derive(Clone, Copy)]
enum Call {
    Clone,
    CloneReferents,
    // The rows, each added by itself.
    PushCopies,
    WithCopies,
    RowsOfBoth,
    Merge,
    // The rows, sorted.
    Sort,
    Meets,
    // The meets of the first row with the others.
    PushMeets,
    // The rows with `0` at the first input.
    WithZero,
    // The rows with `0` or `-` there.
    WithZeroOrDash,
    // The cube of all places.
    Universal,
}

// A call on two lists, and the rows of its answer.
#[derive(Clone, Copy)]
struct Case {
    call: Call,
    size: Size,
    rows: Rows,
    others: Rows,
    answer: Rows,
}

const COPIES: [Case; 15] = [
    Case {
        call: Call::Clone,
        size: Size::Small,
        rows: HALF,
        others: NONE,
        answer: HALF,
    },
    Case {
        call: Call::Clone,
        size: Size::Long,
        rows: LONG,
        others: NONE,
        answer: LONG,
    },
    Case {
        call: Call::Clone,
        size: Size::Wide,
        rows: WIDE_HALF,
        others: NONE,
        answer: WIDE_HALF,
    },
    Case {
        call: Call::CloneReferents,
        size: Size::Small,
        rows: HALF,
        others: NONE,
        answer: HALF,
    },
    Case {
        call: Call::CloneReferents,
        size: Size::Long,
        rows: LONG,
        others: NONE,
        answer: LONG,
    },
    Case {
        call: Call::CloneReferents,
        size: Size::Wide,
        rows: WIDE_HALF,
        others: NONE,
        answer: WIDE_HALF,
    },
    Case {
        call: Call::PushCopies,
        size: Size::Small,
        rows: (Rule::Points, 0, 3),
        others: NONE,
        answer: (Rule::Points, 0, 3),
    },
    Case {
        call: Call::PushCopies,
        size: Size::Long,
        rows: LONG,
        others: NONE,
        answer: LONG,
    },
    Case {
        call: Call::PushCopies,
        size: Size::Wide,
        rows: WIDE_HALF,
        others: NONE,
        answer: WIDE_HALF,
    },
    Case {
        call: Call::WithCopies,
        size: Size::Small,
        rows: NONE,
        others: HALF,
        answer: HALF,
    },
    Case {
        call: Call::WithCopies,
        size: Size::Long,
        rows: LONG_HALF,
        others: LONG_REST,
        answer: LONG,
    },
    Case {
        call: Call::WithCopies,
        size: Size::Wide,
        rows: WIDE_HALF,
        others: WIDE_REST,
        answer: WIDE,
    },
    Case {
        call: Call::RowsOfBoth,
        size: Size::Small,
        rows: HALF,
        others: NONE,
        answer: HALF,
    },
    Case {
        call: Call::RowsOfBoth,
        size: Size::Long,
        rows: LONG_HALF,
        others: LONG_REST,
        answer: LONG,
    },
    Case {
        call: Call::RowsOfBoth,
        size: Size::Wide,
        rows: WIDE_HALF,
        others: WIDE_REST,
        answer: WIDE,
    },
];

const ORDERS: [Case; 7] = [
    Case {
        call: Call::Merge,
        size: Size::Small,
        rows: HALF,
        others: HALF,
        answer: HALF,
    },
    Case {
        call: Call::Merge,
        size: Size::Long,
        rows: LONG_REST,
        others: LONG,
        answer: LONG,
    },
    Case {
        call: Call::Merge,
        size: Size::Wide,
        rows: WIDE,
        others: WIDE_HALF,
        answer: WIDE,
    },
    Case {
        call: Call::Sort,
        size: Size::Small,
        rows: (Rule::Backwards, 2044, 2048),
        others: NONE,
        answer: (Rule::Points, 0, 4),
    },
    Case {
        call: Call::Sort,
        size: Size::Long,
        rows: LONG,
        others: NONE,
        answer: LONG,
    },
    Case {
        call: Call::Sort,
        size: Size::Long,
        rows: (Rule::Backwards, 0, 2048),
        others: NONE,
        answer: (Rule::Points, 0, 2048),
    },
    Case {
        call: Call::Sort,
        size: Size::Wide,
        rows: (Rule::Backwards, 0, 2048),
        others: NONE,
        answer: (Rule::Points, 0, 2048),
    },
];

const CHOICES: [Case; 14] = [
    Case {
        call: Call::Meets,
        size: Size::Small,
        rows: HALF,
        others: (Rule::Points, 0, 4),
        answer: (Rule::Points, 0, 2),
    },
    Case {
        call: Call::Meets,
        size: Size::Long,
        rows: HALF,
        others: LONG,
        answer: LONG_HALF,
    },
    Case {
        call: Call::Meets,
        size: Size::Wide,
        rows: WIDE,
        others: HALF,
        answer: WIDE_HALF,
    },
    Case {
        call: Call::PushMeets,
        size: Size::Small,
        rows: REST,
        others: (Rule::Points, 0, 4),
        answer: (Rule::Points, 2, 4),
    },
    Case {
        call: Call::PushMeets,
        size: Size::Long,
        rows: REST,
        others: LONG,
        answer: LONG_REST,
    },
    Case {
        call: Call::PushMeets,
        size: Size::Wide,
        rows: HALF,
        others: WIDE,
        answer: WIDE_HALF,
    },
    Case {
        call: Call::WithZero,
        size: Size::Small,
        rows: (Rule::Points, 0, 4),
        others: NONE,
        answer: (Rule::Points, 0, 2),
    },
    Case {
        call: Call::WithZero,
        size: Size::Long,
        rows: LONG,
        others: NONE,
        answer: LONG_HALF,
    },
    Case {
        call: Call::WithZero,
        size: Size::Wide,
        rows: (Rule::Zeros, 0, 1000),
        others: NONE,
        answer: (Rule::Zeros, 1, 1000),
    },
    Case {
        call: Call::WithZeroOrDash,
        size: Size::Small,
        rows: UNIVERSE,
        others: NONE,
        answer: UNIVERSE,
    },
    Case {
        call: Call::WithZeroOrDash,
        size: Size::Long,
        rows: LONG,
        others: NONE,
        answer: LONG_HALF,
    },
    Case {
        call: Call::WithZeroOrDash,
        size: Size::Wide,
        rows: (Rule::Stairs, 0, 1000),
        others: NONE,
        answer: (Rule::Stairs, 1, 1000),
    },
    Case {
        call: Call::Universal,
        size: Size::Small,
        rows: NONE,
        others: NONE,
        answer: UNIVERSE,
    },
    Case {
        call: Call::Universal,
        size: Size::Wide,
        rows: NONE,
        others: NONE,
        answer: UNIVERSE,
    },
];

// Copies of the cubes, added one by one.
fn pushed_copies(alloc: Global, cubes: &[Cube]) -> Result<Vec<Cube>, AllocError> {
    let mut rows = Vec::new(alloc);
    for cube in cubes {
        push_copy(&mut rows, cube)?;
    }
    Ok(rows)
}

// What a call that copies makes of two lists.
fn copied(
    alloc: Global,
    call: Call,
    list: &[Cube],
    others: &[Cube],
) -> Result<Vec<Cube>, AllocError> {
    match call {
        Call::CloneReferents => clone_referents(alloc, &references_to_cubes(alloc, list)?),
        Call::PushCopies => pushed_copies(alloc, list),
        Call::WithCopies => with_copies(clone_cubes(alloc, list)?, others),
        Call::RowsOfBoth => rows_of_both(clone_cubes(alloc, list)?, clone_cubes(alloc, others)?),
        _ => clone_cubes(alloc, list),
    }
}

fn merged(alloc: Global, list: &Cover, others: &Cover) -> Result<Vec<Cube>, AllocError>
    requires { others.now.size ≡ list.now.size }
{
    let mine = copies_of(alloc, list)?;
    let theirs = copies_of(alloc, others)?;
    merge(alloc, mine, theirs)
}

fn sorted(alloc: Global, list: &Cover) -> Result<Vec<Cube>, AllocError> {
    sort_rows(alloc, copies_of(alloc, list)?)
}

fn meets_of_pairs(alloc: Global, list: &Cover, others: &Cover) -> Result<Vec<Cube>, AllocError>
    requires { others.now.size ≡ list.now.size }
{
    let mine = list.as_slice();
    let theirs = others.as_slice();
    meets_by_pairs(alloc, mine, theirs)
}

// The meets of the list's first row with those of `others`, in their order; an error if the list is
// empty.
fn meets_of_first(alloc: Global, list: &Cover, others: &Cover) -> Result<Vec<Cube>, AllocError>
    requires { others.now.size ≡ list.now.size }
{
    let mut all = Vec::new(alloc);
    push_meets(first_of(list)?, others.as_slice(), &mut all)?;
    Ok(all)
}

// The rows with `0`, or with `0` or `-`, at the first input.
fn kept<'a>(alloc: Global, call: Call, rows: &[&'a Cube]) -> Result<Vec<&'a Cube>, AllocError>
    requires { All (λ d. 0 < length d.now.symbols) rows.now }
{
    match call {
        Call::WithZero => rows_with_symbol(alloc, rows, 0, Symbol::Zero),
        _ => rows_with_compatible_symbol(alloc, rows, 0, Symbol::Zero),
    }
}

fn chosen(alloc: Global, call: Call, list: &Cover) -> Result<Vec<Cube>, AllocError>
    requires { 0 < list.now.size.inputs }
{
    let rows = references_to(alloc, list)?;
    let kept = kept(alloc, call, &rows)?;
    clone_referents(alloc, &kept)
}

fn universal(alloc: Global, shape: Shape) -> Result<Vec<Cube>, AllocError> {
    let mut all = Vec::new(alloc);
    all.push(universal_cube(alloc, shape)?)?;
    Ok(all)
}

fn answer_of(
    alloc: Global,
    call: Call,
    list: &Cover,
    others: &Cover,
) -> Result<Vec<Cube>, AllocError>
    requires { others.now.size ≡ list.now.size }
{
    match call {
        Call::Merge => merged(alloc, list, others),
        Call::Sort => sorted(alloc, list),
        Call::Meets => meets_of_pairs(alloc, list, others),
        Call::PushMeets => meets_of_first(alloc, list, others),
        Call::WithZero | Call::WithZeroOrDash => {
            if list.shape().inputs() == 0 {
                return Err(AllocError);
            }
            chosen(alloc, call, list)
        }
        Call::Universal => universal(alloc, list.shape()),
        _ => copied(alloc, call, list.as_slice(), others.as_slice()),
    }
}

// Whether the call answers the rows of the case.
fn is_answered(alloc: Global, case: Case) -> Result<bool, AllocError> {
    let shape = shape_of(case.size)?;
    let list = list_of(alloc, shape, case.rows)?;
    let others = list_of(alloc, shape, case.others)?;
    let made = answer_of(alloc, case.call, &list, &others)?;
    Ok(are_rows(made.as_slice(), case.answer))
}

// Of calls that copy rows, put them in order, and meet or choose them.
const TABLES: [&[Case]; 3] = [&COPIES, &ORDERS, &CHOICES];

#[test]
fn rows_are_answered(rt: HostRuntime) -> Result<(), Fail> {
    for cases in &TABLES {
        for case in *cases {
            assert!(rt; is_answered(rt.alloc(), *case)?);
        }
    }
    Ok(())
}
