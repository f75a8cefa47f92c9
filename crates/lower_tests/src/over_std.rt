//! Devices over readers and writers of std.
use pla::{Input, Output, Reading, Writing};
use std::alloc::{AllocError, Global};
use std::cell::Cell;
use std::io;
use std::io::{Cursor, ErrorKind, Read, Write};
use std::test::Fail;

// How often a device was called.
#[derive(Drop)]
struct Tries {
    reads: Cell<u64>,
    writes: Cell<u64>,
    flushes: Cell<u64>,
}

impl Tries {
    fn new() -> Tries {
        Tries {
            reads: Cell::new(0),
            writes: Cell::new(0),
            flushes: Cell::new(0),
        }
    }

    // Whether these are the reads, the writes and the flushes so far.
    fn are(&self, reads: u64, writes: u64, flushes: u64) -> bool {
        self.reads.get() == reads && self.writes.get() == writes && self.flushes.get() == flushes
    }
}

// A reader and writer whose call of this number fails alone, for reads, writes and flushes each.
#[derive(Drop)]
struct Once<'a> {
    failing: u64,
    tries: &'a Tries,
}

// Counts one more call, which fails where it has this number.
fn called(count: &Cell<u64>, failing: u64) -> io::Result<()> {
    count.set(count.get().saturating_add(1));
    if count.get() == failing {
        return Err(io::Error::from(ErrorKind::Interrupted));
    }
    Ok(())
}

impl Read for Once<'_> {
    ghost use Rattle.std.specs.Prelude.{None};

    ghost remaining = { λ _. None };

    fn read(&mut self, buffer: &mut [u8]) -> io::Result<usize> {
        called(&self.tries.reads, self.failing)?;
        buffer.fill(b'a');
        Ok(buffer.len())
    }
}

impl Write for Once<'_> {
    ghost use Rattle.std.specs.Prelude.{None};

    ghost contents = { λ _. None };

    fn write(&mut self, bytes: &[u8]) -> io::Result<usize> {
        called(&self.tries.writes, self.failing)?;
        Ok(bytes.len())
    }

    fn flush(&mut self) -> io::Result<()> {
        called(&self.tries.flushes, self.failing)
    }
}

// Whether a slice is read in two pieces, of which the second leaves the rest of its room.
fn is_slice_read() -> bool {
    let mut reading = Reading::new(b"abc".as_slice());
    let mut buffer = [0; 2];
    reading.read(&mut buffer) == Ok(2)
        && reading.read(&mut buffer) == Ok(1)
        && buffer == *b"cb"
        && reading.read(&mut buffer) == Ok(0)
}

// Whether 5,000 times an `a` is read into buffers of 1, 2 and 4,096 bytes, and then nothing.
fn is_read_in_pieces(text: &[u8]) -> bool {
    let mut reading = Reading::new(text);
    let mut one = [0; 1];
    let mut two = [0; 2];
    let mut piece = [0; 4096];
    reading.read(&mut one) == Ok(1)
        && one[0] == b'a'
        && reading.read(&mut two) == Ok(2)
        && two == [b'a'; 2]
        && reading.read(&mut piece) == Ok(4096)
        && piece[4095] == b'a'
        && reading.read(&mut piece) == Ok(901)
        && reading.read(&mut piece) == Ok(0)
}

// Whether a failed read is told, and not tried again.
fn is_failed_read_told() -> bool {
    let tries = Tries::new();
    let mut reading = Reading::new(Once {
        failing: 2,
        tries: &tries,
    });
    let mut buffer = [0; 3];
    reading.read(&mut buffer) == Ok(3)
        && reading.read(&mut buffer).is_err()
        && tries.are(2, 0, 0)
        && reading.read(&mut buffer) == Ok(3)
        && tries.are(3, 0, 0)
}

// Whether a failed write is told and not tried again, and a flush passed on once and its failure
// told.
fn are_failed_calls_told() -> bool {
    let tries = Tries::new();
    let mut writing = Writing::new(Once {
        failing: 2,
        tries: &tries,
    });
    writing.write(b"abc") == Ok(3)
        && writing.write(b"abc").is_err()
        && tries.are(0, 2, 0)
        && writing.write(b"ab") == Ok(2)
        && tries.are(0, 3, 0)
        && writing.flush().is_ok()
        && tries.are(0, 3, 1)
        && writing.flush().is_err()
        && tries.are(0, 3, 2)
        && writing.flush().is_ok()
        && tries.are(0, 3, 3)
}

fn is_long_text_read(alloc: Global) -> Result<bool, AllocError> {
    let text = vec![in alloc; b'a'; 5000]?;
    Ok(is_read_in_pieces(&text))
}

// Whether a long text is taken whole, in one write.
fn is_taken_whole(text: &[u8], room: &mut [u8]) -> bool {
    let mut writing = Writing::new(Cursor::new(room));
    writing.write(text) == Ok(131_073)
}

fn is_long_text_taken(alloc: Global) -> Result<bool, AllocError> {
    let text = vec![in alloc; b'a'; 131_073]?;
    let mut room = vec![in alloc; 0; 131_073]?;
    let is_whole = is_taken_whole(&text, &mut room);
    Ok(is_whole && room.last().copied() == Some(b'a'))
}

// Whether a writer's bytes are taken until it takes none.
fn are_taken_until_full() -> bool {
    let mut room = [0; 3];
    let mut writing = Writing::new(Cursor::new(room.as_mut_slice()));
    writing.write(b"ab") == Ok(2)
        && writing.write(b"cd") == Ok(1)
        && writing.write(b"d").is_err()
        && writing.write(b"") == Ok(0)
        && writing.flush().is_ok()
}

#[test]
fn readers_and_writers_are_devices(rt: HostRuntime) -> Result<(), Fail> {
    assert!(rt; is_slice_read());
    assert!(rt; is_failed_read_told());
    assert!(rt; are_failed_calls_told());
    assert!(rt; are_taken_until_full());
    assert!(rt; is_long_text_read(rt.alloc())?);
    assert!(rt; is_long_text_taken(rt.alloc())?);
    Ok(())
}
