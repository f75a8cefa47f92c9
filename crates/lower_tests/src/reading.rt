//! Reading on devices that tell their bytes. What is read of whole texts is tested on the built
//! program.
ghost use Rattle.std.specs.Prelude.{◌<◌};

use crate::text_pieces::{Piece, text_of};
use pla::{Echo, Ending, FileType, Pla, ReadFault, ReadKind, Scan, read_pla};
use std::alloc::{AllocError, Global};
use std::test::Fail;
use test_devices::{Given, Taken};

// What a file describes.
pub(crate) fn read(alloc: Global, text: &[u8]) -> Result<Pla, AllocError> {
    let mut input = Given::new(text.to_vec(alloc)?, 4096, Ending::End);
    let mut output = Taken::new(alloc, 0, 1, false)?;
    let read = read_pla(alloc, &mut input, &mut output, Echo::Eat);
    read.ok().ok_or(AllocError)
}

// A description without lines that are passed on.
const PLAIN: &[u8] = b".i 2\n.o 2\n.ilb a b\n.ob f g\n11 1-\n0- 0\n0\n.e\n";

// Whether the three lists have so many rows.
fn has_rows(pla: &Pla, on: usize, dc: usize, off: usize) -> bool {
    pla.on().len() == on && pla.dc().len() == dc && pla.off().len() == off
}

fn are_two(names: Option<&[Vec<u8>]>) -> bool {
    match names {
        Some(names) => names.len() == 2,
        None => false,
    }
}

// Whether the file says its sizes, its type, its lists and its names.
fn is_plain(pla: &Pla) -> bool {
    pla.shape().inputs() == 2
        && pla.shape().outputs() == 2
        && pla.file_type() == FileType::Fd
        && has_rows(pla, 1, 1, 0)
        && are_two(pla.input_names())
        && are_two(pla.output_names())
}

#[test]
fn a_file_is_described(rt: HostRuntime) -> Result<(), Fail> {
    assert!(rt; is_plain(&read(rt.alloc(), PLAIN)?));
    Ok(())
}

// How the devices of a file behave, and what comes of reading it.
#[derive(Clone, Copy)]
struct Case {
    text: &'static [Piece],
    // How many bytes a read, and a write, is of at most.
    most: usize,
    ending: Ending,
    // The numbers of the read and of the write that fail alone.
    failing_read: u64,
    failing_write: u64,
    room: usize,
    fault: Option<ReadFault>,
    on: usize,
    dc: usize,
    echoes: &'static [Piece],
    delivered: usize,
}

// A number that no call has.
const NEVER: u64 = 1_000_000;

// A small file: comments, an unknown keyword, names, and rows that go over lines.
const TEXT: Piece = Piece::Text(
    b"# two gates\n.i 2\n.o 2\n.ilb a b\n.ob f g\n.unknown x # y\n11 1-\n0- 0\n0 # last\n.e # end\njunk",
);

// Read in pieces, and no further than its end.
const SMALL: Case = Case {
    text: &[TEXT],
    most: 3,
    ending: Ending::Failed,
    failing_read: NEVER,
    failing_write: NEVER,
    room: 100,
    fault: None,
    on: 1,
    dc: 1,
    echoes: &[Piece::Text(b"# two gates\n.unknown x # y\n# last\n# end\n")],
    delivered: 84,
};

const EMPTY: Case = Case {
    on: 0,
    dc: 0,
    ..SMALL
};

const WRITE_FAILED: Option<ReadFault> = Some(ReadFault {
    line: 0,
    kind: ReadKind::WriteFailed,
});

const CASES: [Case; 6] = [
    SMALL,
    // No more is asked for behind the end.
    Case {
        text: &[
            Piece::Text(b".i 1\n.o 1\n.e\n"),
            Piece::Times(3000, b"junk"),
        ],
        most: 100,
        echoes: &[],
        delivered: 100,
        ..EMPTY
    },
    // A failed read is told with its line.
    Case {
        text: &[Piece::Text(b".i 1\n.o ")],
        most: 100,
        fault: Some(ReadFault {
            line: 2,
            kind: ReadKind::ReadFailed,
        }),
        echoes: &[],
        delivered: 8,
        ..EMPTY
    },
    // A failed write is told before a fault behind it.
    Case {
        text: &[Piece::Text(b"# a\n.i 1\n.o 1\nz 1\n")],
        most: 100,
        room: 2,
        fault: WRITE_FAILED,
        echoes: &[Piece::Text(b"# ")],
        delivered: 18,
        ..EMPTY
    },
    Case {
        most: 100,
        room: 20,
        fault: WRITE_FAILED,
        echoes: &[Piece::Text(b"# two gates\n.unknown")],
        delivered: 87,
        ..EMPTY
    },
    // Many comments, and a long one.
    Case {
        text: &[
            Piece::Times(20_000, b"# comment\n"),
            Piece::Text(b"# "),
            Piece::Times(60_000, b"n"),
            Piece::Text(b"\n.i 1\n.o 1\n.e\n"),
        ],
        most: 4096,
        room: 2_000_000,
        echoes: &[
            Piece::Times(20_000, b"# comment\n"),
            Piece::Text(b"# "),
            Piece::Times(60_000, b"n"),
            Piece::Text(b"\n"),
        ],
        delivered: 260_016,
        ..EMPTY
    },
];

// Whether the lists of the case are read, or its fault is told.
fn is_told(alloc: Global, case: &Case, input: &mut Given, output: &mut Taken) -> bool {
    match read_pla(alloc, input, output, Echo::Keep) {
        Ok(pla) => case.fault.is_none() && has_rows(&pla, case.on, case.dc, 0),
        Err(fault) => case.fault == Some(fault),
    }
}

// Whether the file is read, or not, as the case says.
fn is_read(alloc: Global, case: &Case) -> Result<bool, AllocError> {
    let most = case.most.max(1);
    let input = Given::new(text_of(alloc, case.text)?, most, case.ending);
    let mut input = input.failing_once_after(case.failing_read);
    let output = Taken::new(alloc, case.room, most, false)?;
    let mut output = output.failing_once_after(case.failing_write);
    let is_told = is_told(alloc, case, &mut input, &mut output);
    let echoes = text_of(alloc, case.echoes)?;
    Ok(is_told && output.bytes() == echoes.as_slice() && input.delivered() == case.delivered)
}

// A file of four lines, in pieces of one byte.
const FOUR_LINES: Case = Case {
    text: &[Piece::Text(b"# a\n.i 1\n.o 1\n.e\n")],
    most: 1,
    ending: Ending::End,
    echoes: &[],
    ..EMPTY
};

// The numbers of the read and of the write that fails alone, the fault that is told of it, how much
// was delivered until then, and what was passed on.
type Failing = (u64, u64, Option<ReadFault>, usize, &'static [Piece]);

const FIRST_LINE: Option<ReadFault> = Some(ReadFault {
    line: 1,
    kind: ReadKind::ReadFailed,
});

const SECOND_LINE: Option<ReadFault> = Some(ReadFault {
    line: 2,
    kind: ReadKind::ReadFailed,
});

const THIRD_LINE: Option<ReadFault> = Some(ReadFault {
    line: 3,
    kind: ReadKind::ReadFailed,
});

const COMMENT: &[Piece] = &[Piece::Text(b"# a\n")];

const FAILING: [Failing; 14] = [
    (0, NEVER, FIRST_LINE, 0, &[]),
    (1, NEVER, FIRST_LINE, 1, &[]),
    (2, NEVER, FIRST_LINE, 2, &[]),
    (3, NEVER, FIRST_LINE, 3, &[]),
    (4, NEVER, SECOND_LINE, 4, COMMENT),
    (5, NEVER, SECOND_LINE, 5, COMMENT),
    (6, NEVER, SECOND_LINE, 6, COMMENT),
    (7, NEVER, SECOND_LINE, 7, COMMENT),
    (8, NEVER, SECOND_LINE, 8, COMMENT),
    (9, NEVER, THIRD_LINE, 9, COMMENT),
    (NEVER, 0, WRITE_FAILED, 4, &[]),
    (NEVER, 1, WRITE_FAILED, 4, &[Piece::Text(b"#")]),
    (NEVER, 2, WRITE_FAILED, 4, &[Piece::Text(b"# ")]),
    (NEVER, 3, WRITE_FAILED, 4, &[Piece::Text(b"# a")]),
];

// Nothing follows the call that fails alone.
fn failing(case: Failing) -> Case {
    let (failing_read, failing_write, fault, delivered, echoes) = case;
    Case {
        failing_read,
        failing_write,
        fault,
        delivered,
        echoes,
        ..FOUR_LINES
    }
}

#[test]
fn files_are_read(rt: HostRuntime) -> Result<(), Fail> {
    for case in &CASES {
        assert!(rt; is_read(rt.alloc(), case)?);
    }
    for case in &FAILING {
        assert!(rt; is_read(rt.alloc(), &failing(*case))?);
    }
    Ok(())
}

// What these pieces describe, and whether the scan was done before the end.
fn scan_pieces(
    alloc: Global,
    echo: Echo,
    pieces: &[&[u8]],
    output: &mut Taken,
) -> Result<(Pla, bool), ReadFault> {
    let mut scan = Scan::new(alloc, echo);
    for piece in pieces {
        scan = scan.feed(piece, output)?;
    }
    let is_done = scan.done();
    Ok((scan.finish(Ending::End, output)?, is_done))
}

// Whether these pieces describe so many rows, and are done before the end or not, behind these
// echoes.
fn is_scanned(
    alloc: Global,
    pieces: &[&[u8]],
    done: bool,
    lists: [usize; 3],
    echoes: &[u8],
) -> Result<bool, AllocError> {
    let echo = if echoes.is_empty() {
        Echo::Eat
    } else {
        Echo::Keep
    };
    let mut output = Taken::new(alloc, 100, 100, false)?;
    let [on, dc, off] = lists;
    match scan_pieces(alloc, echo, pieces, &mut output) {
        Ok((pla, is_done)) => {
            let is_told = is_done == done && has_rows(&pla, on, dc, off);
            Ok(is_told && output.bytes() == echoes)
        }
        Err(_) => Err(AllocError),
    }
}

// The points of 15 inputs in three lists.
const LONG: [Piece; 5] = [
    Piece::Text(b".i 15\n.o 1\n.type fdr\n"),
    Piece::Points(15, 0, 20_000, b'1'),
    Piece::Points(15, 20_000, 26_000, b'-'),
    Piece::Points(15, 26_000, 32_768, b'0'),
    Piece::Text(b".e\n"),
];

fn is_long_text_scanned(alloc: Global) -> Result<bool, AllocError> {
    let text = text_of(alloc, &LONG)?;
    is_scanned(alloc, &[text.as_slice()], true, [20_000, 6000, 6768], b"")
}

// They end in the middle of a row and of a comment.
const UNFINISHED: [&[u8]; 2] = [b".i 1\n.o 1\n1 ", b"1 # a"];

const DONE: [&[u8]; 1] = [b".i 1\n.o 1\n.e\n"];

// Texts in one piece and in two: how many rows each list gets, the echoes, and whether `.e` was read.
#[test]
fn pieces_are_scanned(rt: HostRuntime) -> Result<(), Fail> {
    assert!(rt; is_scanned(rt.alloc(), &UNFINISHED, false, [1, 0, 0], b"# a\n")?);
    assert!(rt; is_scanned(rt.alloc(), &DONE, true, [0, 0, 0], b"")?);
    assert!(rt; is_long_text_scanned(rt.alloc())?);
    Ok(())
}
