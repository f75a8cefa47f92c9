//! The lists of the four types, asked for and not, and printed.
use crate::reading::read;
use crate::text_pieces::{Piece, text_of};
use cover::Cover;
use pla::{
    OutType, Pla, Sets, WriteFault, dc_unless_given, off_unless_given, write_covers, write_pla,
};
use std::alloc::{AllocError, Global};
use std::test::Fail;
use test_devices::Taken;

// A text, whether its lists are computed that its type leaves open, DC and OFF, or written as they
// are, and what is printed.
struct Printed {
    text: &'static [Piece],
    computed: Option<(bool, bool)>,
    printed: &'static [Piece],
}

// Half of the points of 13 inputs, and a quarter that is not in it.
const ONES: Piece = Piece::Points(13, 0, 4096, b'1');

const ZEROS: Piece = Piece::Points(13, 4096, 6144, b'0');

const SAMPLES: &[Piece] = &[Piece::Text(b".i 13\n.o 1\n.type fr\n"), ONES, ZEROS];

// Points of 15 inputs in the three lists.
const ON: Piece = Piece::Points(15, 0, 20_000, b'1');

const DC: Piece = Piece::Points(15, 20_000, 26_000, b'-');

const OFF: Piece = Piece::Points(15, 26_000, 32_768, b'0');

const LETTERS: Piece = Piece::Times(60_000, b"n");

const END: Piece = Piece::Text(b".e\n");

const PRINTED: [Printed; 8] = [
    Printed {
        text: &[Piece::Text(b".i 2\n.o 1\n11 1\n0- -\n")],
        computed: Some((true, true)),
        printed: &[Piece::Text(b".i 2\n.o 1\n.type fdr\n.p 3\n11 1\n0- -\n10 0\n.e\n")],
    },
    Printed {
        text: &[Piece::Text(b".i 2\n.o 1\n.type fr\n11 1\n0- 0\n")],
        computed: Some((true, true)),
        printed: &[Piece::Text(b".i 2\n.o 1\n.type fdr\n.p 3\n11 1\n10 -\n0- 0\n.e\n")],
    },
    // Lists that are not asked for.
    Printed {
        text: &[Piece::Text(b".i 1\n.o 1\n.type fr\n1 1\n")],
        computed: Some((false, true)),
        printed: &[Piece::Text(b".i 1\n.o 1\n.type fdr\n.p 1\n1 1\n.e\n")],
    },
    Printed {
        text: &[Piece::Text(b".i 1\n.o 1\n1 1\n")],
        computed: Some((true, false)),
        printed: &[Piece::Text(b".i 1\n.o 1\n.type fdr\n.p 1\n1 1\n.e\n")],
    },
    // Long lists, wide rows and long names.
    Printed {
        text: SAMPLES,
        computed: Some((true, true)),
        printed: &[
            Piece::Text(b".i 13\n.o 1\n.type fdr\n.p 6145\n"),
            ONES,
            Piece::Text(b"11----------- -\n"),
            ZEROS,
            END,
        ],
    },
    Printed {
        text: &[Piece::Text(b".i 15\n.o 1\n.type fdr\n"), ON, DC, OFF, END],
        computed: None,
        printed: &[
            Piece::Text(b".i 15\n.o 1\n.type fdr\n.p 32768\n"),
            ON,
            DC,
            OFF,
            END,
        ],
    },
    Printed {
        text: &[
            Piece::Text(b".i 1024\n.o 1024\n.type fdr\n"),
            Piece::Widest(0, 600, b'1'),
            END,
        ],
        computed: None,
        printed: &[
            Piece::Text(b".i 1024\n.o 1024\n.type fdr\n.p 600\n"),
            Piece::Widest(0, 600, b'1'),
            END,
        ],
    },
    Printed {
        text: &[
            Piece::Text(b".i 1\n.o 1\n.ilb "),
            LETTERS,
            Piece::Text(b"\n.ob "),
            LETTERS,
            Piece::Text(b"\n.type fdr\n1 1\n.e\n"),
        ],
        computed: None,
        printed: &[
            Piece::Text(b".i 1\n.o 1\n.ilb "),
            LETTERS,
            Piece::Text(b"\n.ob "),
            LETTERS,
            Piece::Text(b"\n.type fdr\n.p 1\n1 1\n.e\n"),
        ],
    },
];

// Writes the lists of the file, or, where it is asked for, those that are computed of it.
fn write(
    alloc: Global,
    pla: &Pla,
    computed: Option<(bool, bool)>,
    out: &mut Taken,
) -> Result<Result<(), WriteFault>, AllocError> {
    match computed {
        Some((dc, off)) => {
            let sets = pla::sets(alloc, pla, dc, off)?;
            Ok(write_pla(pla, &sets, OutType::Fdr, out))
        }
        None => Ok(write_covers(pla, OutType::Fdr, pla.on(), pla.dc(), pla.off(), out)),
    }
}

// Whether the lists of the text are printed so.
fn is_printed(alloc: Global, case: &Printed) -> Result<bool, AllocError> {
    let pla = read(alloc, &text_of(alloc, case.text)?)?;
    let mut out = Taken::new(alloc, 2_000_000, 2_000_000, false)?;
    let done = write(alloc, &pla, case.computed, &mut out)?;
    Ok(done.is_ok() && out.bytes() == text_of(alloc, case.printed)?.as_slice())
}

#[test]
fn lists_are_printed(rt: HostRuntime) -> Result<(), Fail> {
    for case in &PRINTED {
        assert!(rt; is_printed(rt.alloc(), case)?);
    }
    Ok(())
}

// A text, and how many rows the lists have that its type leaves open, DC and OFF.
type Open = (&'static [Piece], Option<usize>, Option<usize>);

const OPEN: [Open; 6] = [
    (
        &[Piece::Text(b".i 1\n.o 1\n.type f\n1 1\n")],
        Some(0),
        Some(1),
    ),
    (
        &[Piece::Text(b".i 1\n.o 1\n.type fd\n1 1\n")],
        None,
        Some(1),
    ),
    (
        &[Piece::Text(b".i 1\n.o 1\n.type fr\n1 1\n")],
        Some(1),
        None,
    ),
    (&[Piece::Text(b".i 1\n.o 1\n.type fdr\n1 1\n")], None, None),
    (
        &[Piece::Text(b".i 13\n.o 1\n.type f\n"), ONES],
        Some(0),
        Some(1),
    ),
    (SAMPLES, Some(1), None),
];

fn row_count(list: &Option<Cover>) -> Option<usize> {
    match list {
        Some(list) => Some(list.len()),
        None => None,
    }
}

// Whether the lists of the case that its type leaves open have its numbers of rows.
fn are_open(alloc: Global, case: &Open) -> Result<bool, AllocError> {
    let (text, dc, off) = *case;
    let pla = read(alloc, &text_of(alloc, text)?)?;
    let is_dc = row_count(&dc_unless_given(alloc, &pla, true)?) == dc;
    Ok(is_dc && row_count(&off_unless_given(alloc, &pla, true)?) == off)
}

// Whether the sets have so many rows.
fn has_rows(sets: &Sets, on: usize, dc: usize, off: usize) -> bool {
    sets.on().len() == on && sets.dc().len() == dc && sets.off().len() == off
}

// Whether sets hold the lists of the file, first OFF in place of ON, and then ON itself.
fn are_put_together(pla: &Pla) -> Result<bool, AllocError> {
    let off = pla.off().try_clone()?;
    let sets = Sets::new(off, pla.dc().try_clone()?, pla.off().try_clone()?);
    let first = has_rows(&sets, 1, 2, 1);
    let sets = sets.with_on(pla.on().try_clone()?);
    Ok(first && has_rows(&sets, 3, 2, 1))
}

#[test]
fn lists_are_left_open_and_put_together(rt: HostRuntime) -> Result<(), Fail> {
    for case in &OPEN {
        assert!(rt; are_open(rt.alloc(), case)?);
    }
    let text = b".i 1\n.o 1\n.type fdr\n1 1\n1 1\n1 1\n1 -\n1 -\n0 0\n";
    assert!(rt; are_put_together(&read(rt.alloc(), text)?)?);
    Ok(())
}
