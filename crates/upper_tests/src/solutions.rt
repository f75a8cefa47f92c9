//! Functions written as files, solved and printed.
ghost use Rattle.std.specs.Prelude.{◌≡◌};

use crate::tables::{read, rings_are_solved, searches_agree};
use cover::Cover;
use minimum::{Choice, OfPrimes, Table, essential, exact, primes};
use pla::{OutType, Pla, write_covers};
use std::alloc::{AllocError, Global};
use std::test::Fail;
use test_devices::Taken;

/// The table of a file's primes.
fn table(alloc: Global, text: &[u8]) -> Result<Table, Fail> {
    let pla = read(alloc, text)?;
    let sets = pla::sets(alloc, &pla, true, false)?;
    Ok(Table::build(alloc, &primes(&sets)?, &sets)?)
}

#[test]
fn a_table_is_built(rt: HostRuntime) -> Result<(), Fail> {
    let ring = b".i 3\n.o 1\n000 1\n001 1\n010 1\n101 1\n110 1\n111 1\n.e\n";
    let ring = table(rt.alloc(), ring)?;
    assert!(rt; ring.columns() == 6);
    assert!(rt; ring.row_count() == 6);
    Ok(())
}

/// The same ring at each of four points of two more inputs: so many points that their output is
/// halved.
fn many_points(alloc: Global) -> Result<Vec<u8>, AllocError> {
    let mut text = b".i 5\n.o 1\n".to_vec(alloc)?;
    for point in 0..32usize {
        for bit in [16usize, 8, 4, 2, 1] {
            text.push(if point & bit == 0 { b'0' } else { b'1' })?;
        }
        text.push(b' ')?;
        text.push(if point % 8 == 3 || point % 8 == 4 {
            b'0'
        } else {
            b'1'
        })?;
        text.push(b'\n')?;
    }
    Ok(text)
}

#[test]
fn a_table_of_many_points_is_built(rt: HostRuntime) -> Result<(), Fail> {
    let ring = table(rt.alloc(), &many_points(rt.alloc())?)?;
    assert!(rt; ring.columns() == 6);
    assert!(rt; ring.row_count() == 6);
    assert!(rt; searches_agree(ring, Choice::First)?);
    Ok(())
}

const BEHIND: [&[u8]; 8] = [
    b"0000", b"0011", b"0101", b"0110", b"1001", b"1010", b"1100", b"1111",
];

const RING: [&[u8]; 6] = [b"000", b"001", b"010", b"101", b"110", b"111"];

/// Adds the ring behind these inputs.
fn add_ring(text: &mut Vec<u8>, behind: &[u8]) -> Result<(), AllocError> {
    for point in RING {
        text.extend_from_slice(behind)?;
        text.extend_from_slice(point)?;
        text.extend_from_slice(b" 1\n")?;
    }
    Ok(())
}

/// The ring behind each of eight points, no two of which are neighbours: 48 rows and 48 primes.
fn eight_rings(alloc: Global) -> Result<Vec<u8>, AllocError> {
    let mut text = b".i 7\n.o 1\n".to_vec(alloc)?;
    for behind in BEHIND {
        add_ring(&mut text, behind)?;
    }
    Ok(text)
}

/// The exhaustive search would not end on it.
#[test]
fn a_table_of_eight_rings_is_built_and_solved(rt: HostRuntime) -> Result<(), Fail> {
    let alloc = rt.alloc();
    let made = table(alloc, &eight_rings(alloc)?)?;
    assert!(rt; made.columns() == 48 && made.row_count() == 48);
    assert!(rt; rings_are_solved(alloc, made, 8)?);
    Ok(())
}

/// Whether the list is printed so.
fn is_printed(alloc: Global, pla: &Pla, list: &Cover, text: &[u8]) -> Result<bool, Fail>
    requires { list.now.size ≡ pla.now.size }
{
    let mut output = Taken::new(alloc, 100, 100, false)?;
    write_covers(pla, OutType::F, list, pla.dc(), pla.off(), &mut output)?;
    Ok(output.bytes() == text)
}

/// The second of its primes stands in every row of the first, and in one more, and yet the first is
/// taken.
const THREE_POINTS: &[u8] = b".i 3\n.o 1\n000 1\n001 1\n011 1\n100 -\n.e\n";

/// Whether the file's minimum is printed so.
fn minimum_is(alloc: Global, pla: &Pla, text: &[u8]) -> Result<bool, Fail> {
    let sets = pla::sets(alloc, pla, true, false)?;
    is_printed(alloc, pla, &exact(alloc, &sets, Choice::First)?, text)
}

/// Whether the file's essential primes are printed so.
fn essential_primes_are(alloc: Global, pla: &Pla, text: &[u8]) -> Result<bool, Fail> {
    let sets = pla::sets(alloc, pla, true, false)?;
    let found = essential(alloc, &sets, &primes(&sets)?)?;
    is_printed(alloc, pla, &found, text)
}

#[test]
fn a_minimum_is_printed(rt: HostRuntime) -> Result<(), Fail> {
    let pla = read(rt.alloc(), THREE_POINTS)?;
    let text = b".i 3\n.o 1\n.p 2\n-00 1\n0-1 1\n.e\n";
    assert!(rt; minimum_is(rt.alloc(), &pla, text)?);
    Ok(())
}

#[test]
fn essential_primes_are_printed(rt: HostRuntime) -> Result<(), Fail> {
    let pla = read(rt.alloc(), THREE_POINTS)?;
    let text = b".i 3\n.o 1\n.p 1\n0-1 1\n.e\n";
    assert!(rt; essential_primes_are(rt.alloc(), &pla, text)?);
    Ok(())
}

#[test]
fn a_wide_cube_alone_is_essential(rt: HostRuntime) -> Result<(), Fail> {
    let mut text = b".i 140\n.o 1\n".to_vec(rt.alloc())?;
    for _ in 0..140 {
        text.push(b'1')?;
    }
    text.extend_from_slice(b" 1\n.e\n")?;
    let pla = read(rt.alloc(), &text)?;
    let sets = pla::sets(rt.alloc(), &pla, true, false)?;
    let found = essential(rt.alloc(), &sets, &primes(&sets)?)?;
    assert!(rt; found.len() == 1);
    Ok(())
}

/// The function of three inputs that gives point k the k-th of these digits: on, free or off.
fn function(alloc: Global, code: usize) -> Result<Vec<u8>, AllocError> {
    let mut text = b".i 3\n.o 1\n".to_vec(alloc)?;
    let mut rest = code;
    for point in 0..8usize {
        for bit in [4usize, 2, 1] {
            text.push(if point & bit == 0 { b'0' } else { b'1' })?;
        }
        text.push(b' ')?;
        text.push(match rest % 3 {
            0 => b'1',
            1 => b'-',
            _ => b'~',
        })?;
        text.push(b'\n')?;
        rest = rest / 3;
    }
    Ok(text)
}

#[test]
fn searches_agree_on_all_functions_of_three_inputs(rt: HostRuntime) -> Result<(), Fail> {
    for code in 0..6561usize {
        let text = function(rt.alloc(), code)?;
        for choice in [Choice::First, Choice::Literals] {
            let built = table(rt.alloc(), &text)?;
            assert!(rt; searches_agree(built, choice)?);
        }
    }
    Ok(())
}
