//! Reads and writes of the devices for tests.
use pla::{Ending, Input, Output};
use std::alloc::{AllocError, Global};
use std::test::Fail;
use test_devices::{Given, Taken};

// An input, and what each read into a room of three leaves there: how many bytes it delivers, or
// `None` where it fails.
struct Delivery {
    bytes: &'static [u8],
    most: usize,
    ending: Ending,
    // The number of the read that fails alone.
    failing: u64,
    reads: &'static [(Option<usize>, [u8; 3])],
}

// A number that no call has.
const NEVER: u64 = 1000;

const DELIVERIES: [Delivery; 3] = [
    Delivery {
        bytes: b"abcde",
        most: 2,
        ending: Ending::End,
        failing: NEVER,
        reads: &[
            (Some(2), *b"ab\0"),
            (Some(2), *b"cd\0"),
            (Some(1), *b"e\0\0"),
            (Some(0), *b"\0\0\0"),
        ],
    },
    Delivery {
        bytes: b"a",
        most: 8,
        ending: Ending::Failed,
        failing: NEVER,
        reads: &[(Some(1), *b"a\0\0"), (None, *b"\0\0\0")],
    },
    Delivery {
        bytes: b"abcde",
        most: 2,
        ending: Ending::End,
        failing: 1,
        reads: &[
            (Some(2), *b"ab\0"),
            (None, *b"\0\0\0"),
            (Some(2), *b"cd\0"),
            (Some(1), *b"e\0\0"),
            (Some(0), *b"\0\0\0"),
        ],
    },
];

// Whether the reads are so, one after another, and as many bytes are told as were delivered.
fn delivers(given: &mut Given, reads: &[(Option<usize>, [u8; 3])]) -> bool {
    let mut delivered = 0usize;
    for (count, room) in reads {
        let mut buffer = [0; 3];
        let is_read = given.read(&mut buffer).ok() == *count && buffer == *room;
        delivered = delivered.saturating_add(count.unwrap_or(0));
        if !is_read || given.delivered() != delivered {
            return false;
        }
    }
    true
}

fn is_delivered(alloc: Global, case: &Delivery) -> Result<bool, AllocError> {
    let bytes = Vec::from_slice(alloc, case.bytes)?;
    let given = Given::new(bytes, case.most.max(1), case.ending);
    Ok(delivers(&mut given.failing_once_after(case.failing), case.reads))
}

// An output with room for five bytes, three a write, how many bytes each write takes, or `None`
// where it fails, and all that it took.
struct Taking {
    flush_fails: bool,
    // The number of the write that fails alone.
    failing: u64,
    writes: &'static [(&'static [u8], Option<usize>)],
    taken: &'static [u8],
}

const TAKINGS: [Taking; 3] = [
    Taking {
        flush_fails: true,
        failing: NEVER,
        writes: &[
            (b"abcd", Some(3)),
            (b"efgh", Some(2)),
            (b"i", None),
            (b"", Some(0)),
        ],
        taken: b"abcef",
    },
    Taking {
        flush_fails: false,
        failing: 1,
        writes: &[(b"ab", Some(2)), (b"cd", None), (b"cd", Some(2))],
        taken: b"abcd",
    },
    Taking {
        flush_fails: false,
        failing: NEVER,
        writes: &[],
        taken: b"",
    },
];

// Whether the writes are so, one after another, and the failed ones are counted.
fn takes(taken: &mut Taken, writes: &[(&[u8], Option<usize>)]) -> bool {
    let mut failures = 0u64;
    for (bytes, count) in writes {
        let is_written = taken.write(bytes).ok() == *count;
        failures = failures.saturating_add(u64::from(count.is_none()));
        let calls = taken.calls();
        if !is_written || calls.broken != count.is_none() || calls.counts.failures != failures {
            return false;
        }
    }
    true
}

// Whether a flush is counted, and fails if it is to.
fn is_flushed(taken: &mut Taken, fails: bool) -> bool {
    let is_told = taken.flush().is_err() == fails;
    let calls = taken.calls();
    is_told && calls.flushed && calls.counts.flushes == 1
}

fn is_taken(alloc: Global, case: &Taking) -> Result<bool, AllocError> {
    let taken = Taken::new(alloc, 5, 3, case.flush_fails)?;
    let mut taken = taken.failing_once_after(case.failing);
    Ok(
        takes(&mut taken, case.writes)
            && is_flushed(&mut taken, case.flush_fails)
            && taken.bytes() == case.taken,
    )
}

#[test]
fn devices_deliver_and_take(rt: HostRuntime) -> Result<(), Fail> {
    for case in &DELIVERIES {
        assert!(rt; is_delivered(rt.alloc(), case)?);
    }
    for case in &TAKINGS {
        assert!(rt; is_taken(rt.alloc(), case)?);
    }
    Ok(())
}
