//! Symbols: the literal of a value, opposite literals, tests, and rows chosen by their symbol at an
//! input.
ghost use Rattle.std.specs.Prelude.{◌≡◌, ◌<◌, IfOk, All, length, slice_index_or, filter};
ghost use Rattle.cube.specs.Pattern.{agrees};
ghost use Rattle.cube.specs.Sharp.{opposite as opposite_of};
ghost use Rattle.rows.specs.Complete.{literal as literal_of};
ghost use Rattle.rows.specs.Marks.{is_symbol, is_over, is_compatible};

use cube::{Cube, Symbol};
use std::alloc::{AllocError, Global};

/// Whether `outer` agrees with each bit that `inner` agrees with.
pub fn symbol_contains(outer: Symbol, inner: Symbol) -> bool
    ensures { result ≡ is_over outer inner }
{
    match (outer, inner) {
        (Symbol::Dash, _) => true,
        (Symbol::Zero, Symbol::Zero) => true,
        (Symbol::One, Symbol::One) => true,
        _ => false,
    }
}

/// Whether the symbols are equal.
pub fn is_same_symbol(one: Symbol, other: Symbol) -> bool
    ensures { result ≡ is_symbol one other }
{
    match (one, other) {
        (Symbol::Dash, Symbol::Dash) => true,
        (Symbol::Zero, Symbol::Zero) => true,
        (Symbol::One, Symbol::One) => true,
        _ => false,
    }
}

/// The other literal, or `-` for `-`.
pub fn opposite(symbol: Symbol) -> Symbol
    ensures { result ≡ opposite_of symbol }
{
    match symbol {
        Symbol::Dash => Symbol::Dash,
        Symbol::Zero => Symbol::One,
        Symbol::One => Symbol::Zero,
    }
}

/// The symbol that agrees with this bit alone.
pub fn literal_of_value(value: bool) -> Symbol
    ensures { result ≡ literal_of value }
{
    if value { Symbol::One } else { Symbol::Zero }
}

/// Whether a row has this symbol at input `i`.
pub fn has_symbol_at(row: &Cube, i: usize, symbol: Symbol) -> bool
    requires { i < length row.now.symbols }
    ensures { result ≡ is_symbol symbol (slice_index_or row.now.symbols i Symbol.Dash) }
{
    is_same_symbol(symbol, row.symbol(i))
}

/// Whether a row's symbol at input `i` agrees with a bit.
pub fn agrees_at(row: &Cube, i: usize, bit: bool) -> bool
    requires { i < length row.now.symbols }
    ensures { result ≡ agrees (slice_index_or row.now.symbols i Symbol.Dash) bit }
{
    match row.symbol(i) {
        Symbol::Dash => true,
        Symbol::Zero => !bit,
        Symbol::One => bit,
    }
}

// Whether a row and one with this symbol at input `i` can have a place in common.
fn is_compatible_at(row: &Cube, i: usize, symbol: Symbol) -> bool
    requires { i < length row.now.symbols }
    ensures { result ≡ is_compatible symbol (slice_index_or row.now.symbols i Symbol.Dash) }
{
    let own = row.symbol(i);
    symbol_contains(symbol, own) || symbol_contains(own, symbol)
}

/// The rows that have this symbol at input `i`.
pub fn rows_with_symbol<'a>(
    alloc: Global,
    rows: &[&'a Cube],
    i: usize,
    symbol: Symbol,
) -> Result<Vec<&'a Cube>, AllocError>
    requires { All (λ d. i < length d.now.symbols) rows.now }
    ensures { IfOk result
        (λ kept. kept.items
        ≡ filter (λ d. is_symbol symbol (slice_index_or d.now.symbols i Symbol.Dash)) rows.now) }
{
    let mut kept = Vec::new(alloc);
    for row in rows {
        if has_symbol_at(row, i, symbol) {
            kept.push(*row)?;
        }
    }
    Ok(kept)
}

/// The rows that can have a place in common with one that has this symbol at input `i`.
pub fn rows_with_compatible_symbol<'a>(
    alloc: Global,
    rows: &[&'a Cube],
    i: usize,
    symbol: Symbol,
) -> Result<Vec<&'a Cube>, AllocError>
    requires { All (λ d. i < length d.now.symbols) rows.now }
    ensures { IfOk result
        (λ kept. kept.items
        ≡ filter (λ d. is_compatible symbol (slice_index_or d.now.symbols i Symbol.Dash))
        rows.now) }
{
    let mut kept = Vec::new(alloc);
    for row in rows {
        if is_compatible_at(row, i, symbol) {
            kept.push(*row)?;
        }
    }
    Ok(kept)
}
