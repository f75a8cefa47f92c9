//! Primes by hand.
use crate::tables::read;
use cube::{Cube, Symbol};
use minimum::primes;
use pla::Pla;
use std::alloc::Global;
use std::test::Fail;

/// Whether the cube has these two symbols, and no more inputs.
fn is_pair(cube: &Cube, first: Symbol, second: Symbol) -> bool {
    cube.shape().inputs() == 2 && cube.symbol(0) == first && cube.symbol(1) == second
}

/// Whether the file has one prime alone, of these two symbols.
fn has_one_prime(alloc: Global, pla: &Pla, first: Symbol, second: Symbol) -> Result<bool, Fail> {
    let found = primes(&pla::sets(alloc, pla, true, false)?)?;
    match found.get(0) {
        Some(prime) => Ok(found.len() == 1 && is_pair(prime, first, second)),
        None => Ok(false),
    }
}

#[test]
fn primes_with_dont_cares(rt: HostRuntime) -> Result<(), Fail> {
    let pla = read(rt.alloc(), b".i 2\n.o 1\n11 1\n01 -\n")?;
    assert!(rt; has_one_prime(rt.alloc(), &pla, Symbol::Dash, Symbol::One)?);
    Ok(())
}
