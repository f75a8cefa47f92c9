//! Texts and lists on an output that takes them and on one that fails.
use crate::reading::read;
use pla::{OutType, WriteFault, write_bytes, write_covers, write_next};
use std::alloc::{AllocError, Global};
use std::test::Fail;
use test_devices::Taken;

// How much room an output has that takes two bytes a write, whether it takes two parts, one behind
// another, and what it takes.
const PARTS: [(usize, bool, &[u8]); 2] = [(10, true, b"abcde"), (2, false, b"ab")];

// Whether the parts are written, or nothing behind a failure.
fn are_written(
    alloc: Global,
    room: usize,
    is_done: bool,
    taken: &[u8],
) -> Result<bool, AllocError> {
    let mut out = Taken::new(alloc, room, 2, false)?;
    let wanted = if is_done { Ok(()) } else { Err(WriteFault) };
    let first = write_bytes(&mut out, b"abc");
    let is_first = first == wanted;
    let both = write_next(&mut out, first, b"de");
    Ok(is_first && both == wanted && out.bytes() == taken)
}

const TEXT: &[u8] = b".i 2\n.o 2\n.ilb a bb\n.ob f g#1\n.type fdr\n11 1-\n0- 00\n.e\n";

// How much room an output has, whether it takes the three lists, and what it takes.
const PRINTED: [(usize, bool, &[u8]); 2] = [
    (
        100,
        true,
        b".i 2\n.o 2\n.ilb a bb\n.ob f g#1\n.type fdr\n.p 3\n11 1~\n11 ~-\n0- 00\n.e\n",
    ),
    (5, false, b".i 2\n"),
];

// Whether the three lists are printed, or nothing behind a failure.
fn are_printed(
    alloc: Global,
    room: usize,
    is_done: bool,
    taken: &[u8],
) -> Result<bool, AllocError> {
    let pla = read(alloc, TEXT)?;
    let mut out = Taken::new(alloc, room, 3, false)?;
    let done = write_covers(&pla, OutType::Fdr, pla.on(), pla.dc(), pla.off(), &mut out);
    Ok(done.is_ok() == is_done && out.bytes() == taken)
}

#[test]
fn outputs_are_written(rt: HostRuntime) -> Result<(), Fail> {
    for (room, is_done, taken) in &PARTS {
        assert!(rt; are_written(rt.alloc(), *room, *is_done, taken)?);
    }
    for (room, is_done, taken) in &PRINTED {
        assert!(rt; are_printed(rt.alloc(), *room, *is_done, taken)?);
    }
    Ok(())
}
