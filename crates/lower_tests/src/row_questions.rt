//! Each public call of `rows` that answers a question about rows or symbols, or counts.
ghost use Rattle.std.specs.Prelude.{◌<◌, All, length};
ghost use Rattle.cube.specs.Cube.{HasSize};

use crate::lists::{
    LONG, LONG_HALF, NONE, Size, WIDE, WIDE_HALF, first_of, references_to, shape_of,
};
use crate::row_texts::new_shape;
use crate::rules::{Rows, Rule, cube_of_rule, list_of};
use cover::Cover;
use cube::{Cube, Shape, Symbol};
use rows::{
    LiteralCounts, agrees_at, any_meets, count_bits, count_open_literals, cube_of_output,
    first_open_literal, first_row_not_below, has_symbol_at, is_disjoint_from_all, is_same_symbol,
    lacks_output, literal_of_value, open_bits, opposite, row_hash, sample_size, share_output,
    symbol_contains, universal_cube, word_hash,
};
use std::alloc::{AllocError, Global};
use std::test::Fail;

// Two lists, whether the first of the others meets none of the rows, and where it stands among them
// or is to stand.
#[derive(Clone, Copy)]
struct Place {
    size: Size,
    rows: Rows,
    others: Rows,
    is_apart: bool,
    at: usize,
    is_there: bool,
}

const PLACES: [Place; 6] = [
    Place {
        size: Size::Small,
        rows: (Rule::Points, 0, 2),
        others: (Rule::Points, 2, 3),
        is_apart: true,
        at: 2,
        is_there: false,
    },
    Place {
        size: Size::Small,
        rows: (Rule::Points, 0, 4),
        others: (Rule::Points, 2, 3),
        is_apart: false,
        at: 2,
        is_there: true,
    },
    Place {
        size: Size::Long,
        rows: LONG_HALF,
        others: (Rule::Points, 40_000, 40_001),
        is_apart: true,
        at: 32_768,
        is_there: false,
    },
    Place {
        size: Size::Long,
        rows: LONG,
        others: (Rule::Points, 40_000, 40_001),
        is_apart: false,
        at: 40_000,
        is_there: true,
    },
    Place {
        size: Size::Wide,
        rows: WIDE_HALF,
        others: (Rule::Front, 5000, 5001),
        is_apart: true,
        at: 4096,
        is_there: false,
    },
    Place {
        size: Size::Wide,
        rows: WIDE,
        others: (Rule::Front, 5000, 5001),
        is_apart: false,
        at: 5000,
        is_there: true,
    },
];

// Whether the row stands at its place among the rows, and meets some of them or none.
fn is_placed(alloc: Global, place: Place, list: &Cover, row: &Cube) -> Result<bool, AllocError>
    requires { HasSize row.now list.now.size }
{
    let rows = list.as_slice();
    let refs = references_to(alloc, list)?;
    let (at, is_there) = first_row_not_below(rows, 0, row);
    Ok(
        at == place.at
            && is_there == place.is_there
            && any_meets(rows, row) != place.is_apart
            && is_disjoint_from_all(row, &refs) == place.is_apart,
    )
}

fn place_is_found(alloc: Global, place: Place) -> Result<bool, AllocError> {
    let shape = shape_of(place.size)?;
    let list = list_of(alloc, shape, place.rows)?;
    let others = list_of(alloc, shape, place.others)?;
    is_placed(alloc, place, &list, first_of(&others)?)
}

// A list, and how many rows have `0` and how many `1` at the last input.
#[derive(Clone, Copy)]
struct Counted {
    size: Size,
    rows: Rows,
    zeros: u32,
    ones: u32,
}

const COUNTS: [Counted; 4] = [
    Counted {
        size: Size::Small,
        rows: (Rule::Points, 0, 3),
        zeros: 2,
        ones: 1,
    },
    Counted {
        size: Size::Long,
        rows: LONG,
        zeros: 32_768,
        ones: 32_768,
    },
    Counted {
        size: Size::Wide,
        rows: (Rule::Lone, 0, 1024),
        zeros: 0,
        ones: 1,
    },
    Counted {
        size: Size::Wide,
        rows: WIDE,
        zeros: 0,
        ones: 0,
    },
];

// The two counts of literals at an input, where there are some.
fn counts_at(counts: &LiteralCounts, i: usize) -> Option<(u32, u32)> {
    match (counts.zeros.get(i), counts.ones.get(i)) {
        (Some(zeros), Some(ones)) => Some((*zeros, *ones)),
        _ => None,
    }
}

fn counts_of(
    alloc: Global,
    shape: Shape,
    rows: &[&Cube],
    i: usize,
) -> Result<Option<(u32, u32)>, AllocError>
    requires { All (λ d. HasSize d.now shape) rows.now }
{
    Ok(counts_at(&LiteralCounts::of(alloc, rows, shape.inputs())?, i))
}

fn sampled_counts_of(
    alloc: Global,
    shape: Shape,
    rows: &[&Cube],
    i: usize,
) -> Result<Option<(u32, u32)>, AllocError>
    requires { All (λ d. HasSize d.now shape) rows.now }
{
    Ok(counts_at(&LiteralCounts::of_sample(alloc, shape, rows)?, i))
}

// Whether so many rows have each literal at the last input. A sample counts one row in some, and
// none that has another literal.
fn counts_are(alloc: Global, counted: Counted, list: &Cover) -> Result<bool, AllocError> {
    let rows = references_to(alloc, list)?;
    let shape = list.shape();
    let last = shape.inputs().saturating_sub(1);
    let all = counts_of(alloc, shape, &rows, last)?;
    let is_sampled = match sampled_counts_of(alloc, shape, &rows, last)? {
        Some((zeros, ones)) => zeros <= counted.zeros && ones <= counted.ones,
        None => false,
    };
    Ok(is_sampled && all == Some((counted.zeros, counted.ones)))
}

fn literals_are_counted(alloc: Global, counted: Counted) -> Result<bool, AllocError> {
    let list = list_of(alloc, shape_of(counted.size)?, counted.rows)?;
    Ok(counts_are(alloc, counted, &list)? && sample_size(list.len()) <= 64)
}

#[test]
fn rows_are_placed_and_counted(rt: HostRuntime) -> Result<(), Fail> {
    for place in &PLACES {
        assert!(rt; place_is_found(rt.alloc(), *place)?);
    }
    for counted in &COUNTS {
        assert!(rt; literals_are_counted(rt.alloc(), *counted)?);
    }
    Ok(())
}

// A symbol, its opposite, and the bits that it agrees with.
#[derive(Clone, Copy)]
struct Meaning {
    symbol: Symbol,
    opposite: Symbol,
    allows_zero: bool,
    allows_one: bool,
}

const MEANINGS: [Meaning; 3] = [
    Meaning {
        symbol: Symbol::Dash,
        opposite: Symbol::Dash,
        allows_zero: true,
        allows_one: true,
    },
    Meaning {
        symbol: Symbol::Zero,
        opposite: Symbol::One,
        allows_zero: true,
        allows_one: false,
    },
    Meaning {
        symbol: Symbol::One,
        opposite: Symbol::Zero,
        allows_zero: false,
        allows_one: true,
    },
];

fn symbols_compare(one: Meaning, other: Meaning) -> bool {
    let is_over = (one.allows_zero || !other.allows_zero) && (one.allows_one || !other.allows_one);
    symbol_contains(one.symbol, other.symbol) == is_over
        && is_same_symbol(one.symbol, other.symbol) == (one.symbol == other.symbol)
        && opposite(one.symbol) == one.opposite
}

#[test]
fn symbols_are_compared(rt: HostRuntime) -> Result<(), Fail> {
    assert!(rt; literal_of_value(false) == Symbol::Zero);
    assert!(rt; literal_of_value(true) == Symbol::One);
    for one in &MEANINGS {
        for other in &MEANINGS {
            assert!(rt; symbols_compare(*one, *other));
        }
    }
    Ok(())
}

// Whether the tests of a symbol at an input agree with the cube.
fn tests_agree(cube: &Cube, i: usize) -> bool
    requires { i < length cube.now.symbols }
{
    let symbol = cube.symbol(i);
    has_symbol_at(cube, i, symbol)
        && !has_symbol_at(
            cube,
            i,
            if symbol == Symbol::Dash {
                Symbol::One
            } else {
                Symbol::Dash
            },
        )
        && agrees_at(cube, i, false) == (symbol != Symbol::One)
        && agrees_at(cube, i, true) == (symbol != Symbol::Zero)
}

fn symbols_are_tested(cube: &Cube) -> bool {
    for i in 0..cube.shape().inputs() {
        if !tests_agree(cube, i) {
            return false;
        }
    }
    true
}

// Whether the open literals of a row beside one with `0` at the first 32 inputs are found: `0` up to
// input 149 and `1` at input 150.
fn finds_open_literals(shape: Shape, row: &Cube, region: &Cube) -> bool {
    open_bits(row, region, 0) == 0
        && open_bits(row, region, 1) == 0xAAAA_AAAA_AAAA_AAAA
        && !lacks_output(shape, row, region)
        && count_open_literals(shape, row, region, 1000) == 119
        && first_open_literal(row, region) == (32, Symbol::Zero)
}

// Whether these literals count three times each.
fn counts_open_literals(row: &Cube, region: &Cube) -> bool {
    let mut counts = [0u32; 64];
    count_bits(open_bits(row, region, 1), 3, &mut counts);
    counts[0] == 0 && counts[1] == 3 && counts[63] == 3
}

// Whether the row of stairs beside one with `0` at the first 32 inputs is told so.
fn open_literals_are_found(alloc: Global, shape: Shape) -> Result<bool, AllocError> {
    let row = cube_of_rule(alloc, shape, Rule::Stairs, 150)?;
    let region = cube_of_rule(alloc, shape, Rule::Zeros, 32)?;
    Ok(
        symbols_are_tested(&row)
            && finds_open_literals(shape, &row, &region)
            && counts_open_literals(&row, &region),
    )
}

// Whether the cube has `-` at each input, and this output alone.
fn is_of_output(cube: &Cube, output: usize) -> bool {
    let shape = cube.shape();
    for j in 0..shape.outputs() {
        if cube.output(j) != (j == output) {
            return false;
        }
    }
    cube.literals() == 0
}

// Whether the cube of an output has it in common with the cube of all places, and with that of
// another output only if the outputs are one.
fn output_is_shared(
    alloc: Global,
    shape: Shape,
    j: usize,
    other: usize,
) -> Result<bool, AllocError> {
    if j >= shape.outputs() || other >= shape.outputs() {
        return Ok(false);
    }
    let cube = cube_of_output(alloc, shape, j)?;
    let all = universal_cube(alloc, shape)?;
    let second = cube_of_output(alloc, shape, other)?;
    Ok(
        is_of_output(&cube, j)
            && share_output(&cube, &all)
            && share_output(&cube, &second) == (j == other),
    )
}

// Two outputs.
const OUTPUTS: [(usize, usize); 10] = [
    (0, 64),
    (0, 129),
    (1, 64),
    (1, 129),
    (63, 64),
    (63, 129),
    (64, 64),
    (64, 129),
    (129, 64),
    (129, 129),
];

fn hash_of_stairs(alloc: Global, shape: Shape, number: usize) -> Result<u64, AllocError> {
    Ok(row_hash(shape, &cube_of_rule(alloc, shape, Rule::Stairs, number)?, 1))
}

// Whether equal rows have equal hashes, and others have others.
fn hashes_tell_rows_apart(alloc: Global, shape: Shape) -> Result<bool, AllocError> {
    let hash = hash_of_stairs(alloc, shape, 150)?;
    let is_same = hash == hash_of_stairs(alloc, shape, 150)?;
    Ok(is_same && hash != hash_of_stairs(alloc, shape, 151)? && word_hash(1) != word_hash(2))
}

#[test]
fn cubes_of_several_words_are_told(rt: HostRuntime) -> Result<(), Fail> {
    let shape = new_shape(300, 130)?;
    assert!(rt; open_literals_are_found(rt.alloc(), shape)?);
    assert!(rt; hashes_tell_rows_apart(rt.alloc(), shape)?);
    for (j, other) in &OUTPUTS {
        assert!(rt; output_is_shared(rt.alloc(), shape, *j, *other)?);
    }
    Ok(())
}
