//! A list of rows split by the symbol at an input.
ghost use Rattle.std.specs.Prelude.{◌≡◌, ◌<◌, ◌++◌, ◌∷◌, [], IfOk, OnOk, All, length, false, true};
ghost use Rattle.cube.specs.Cube.{with_symbol};
ghost use Rattle.rows.specs.Parts.{part as part_of, has_symbol as has_symbol_of};

use cube::{Cube, Symbol};
use rows::has_symbol_at;
use std::alloc::{AllocError, Global};

/// Three lists of rows, by the symbol that the rows had at an input. They have `-` there.
#[derive(Drop)]
pub(crate) struct BySymbol {
    pub(crate) dashes: Vec<Cube>,
    pub(crate) zeros: Vec<Cube>,
    pub(crate) ones: Vec<Cube>,
}

/// Adds a copy of a row, with `-` at input `i`.
#[inline(always)]
pub(crate) fn push_freed(rows: &mut Vec<Cube>, row: &Cube, i: usize) -> Result<(), AllocError>
    requires { i < length row.now.symbols }
    ensures { OnOk result
        (rows.new.items ≡ rows.old.items ++ with_symbol row.now i Symbol.Dash ∷ []) }
{
    let mut freed = row.try_clone()?;
    freed.set_symbol(i, Symbol::Dash);
    rows.push(freed)?;
    Ok(())
}

/// Copies of the rows, split by their symbol at input `i`, with `-` there. Each part keeps their
/// order.
pub(crate) fn split_by_symbol(
    alloc: Global,
    rows: &[Cube],
    i: usize,
) -> Result<BySymbol, AllocError>
    requires { All (λ c. i < length c.symbols) rows.now }
    ensures dashes { IfOk result (λ b. b.dashes.items ≡ part_of i Symbol.Dash rows.now) }
    ensures zeros { IfOk result (λ b. b.zeros.items ≡ part_of i Symbol.Zero rows.now) }
    ensures ones { IfOk result (λ b. b.ones.items ≡ part_of i Symbol.One rows.now) }
{
    let mut dashes = Vec::new(alloc);
    // Of a list of points each takes about half.
    let room = rows.len() / 2 + rows.len() / 8 + 2;
    let mut zeros = Vec::with_capacity(alloc, room)?;
    let mut ones = Vec::with_capacity(alloc, room)?;
    for row in rows {
        match row.symbol(i) {
            Symbol::Dash => push_freed(&mut dashes, row, i)?,
            Symbol::Zero => push_freed(&mut zeros, row, i)?,
            Symbol::One => push_freed(&mut ones, row, i)?,
        }
    }
    Ok(BySymbol {
        dashes,
        zeros,
        ones,
    })
}

/// Whether some row has this symbol at input `i`.
#[inline(always)]
pub(crate) fn has_symbol(rows: &[Cube], i: usize, symbol: Symbol) -> bool
    requires { All (λ c. i < length c.symbols) rows.now }
    ensures { result ≡ has_symbol_of i symbol rows.now }
{
    // In row order the rows with `1` are last, of those with equal symbols at the inputs before
    // `i`. So where some row has `1`, the last one mostly has it.
    if let Some(last) = rows.last() {
        if has_symbol_at(last, i, symbol) {
            return true;
        }
    }
    for row in rows {
        if has_symbol_at(row, i, symbol) {
            return true;
        }
    }
    false
}
