//! Whole processes: words, files by name, both outputs, the status.
use espresso::{LineFault, Opener, Status, execute};
use pla::{Broken, Ending, Output, WriteCalls};
use std::alloc::Global;
use std::cell::Cell;
use std::test::Fail;
use test_devices::{Given, Taken};

// Two files by name, and standard input.
#[derive(Drop)]
struct Shelf {
    alloc: Global,
    a: &'static str,
    b: &'static str,
    input: &'static str,
}

impl Shelf {
    fn given(&self, text: &str) -> Option<Given> {
        match text.as_bytes().to_vec(self.alloc) {
            Ok(bytes) => Some(Given::new(bytes, 3, Ending::End)),
            Err(_) => None,
        }
    }
}

impl Opener for Shelf {
    ghost use Rattle.std.specs.Prelude.{⊤};

    type Device = Given;

    ghost file = { λ _ _ _ _. ⊤ };

    ghost input = { λ _ _ _. ⊤ };

    fn open(&mut self, name: &str) -> Option<Given> {
        match name {
            "a" => self.given(self.a),
            "b" => self.given(self.b),
            "-" => self.given("a file that a hyphen names"),
            "fault" => self.given(".i 1\n.o 1\nx 1\n"),
            _ => None,
        }
    }

    fn standard_input(&mut self) -> Given {
        match self.given(self.input) {
            Some(given) => given,
            None => Given::new(Vec::new(self.alloc), 1, Ending::Failed),
        }
    }
}

// What a process left.
#[derive(Drop)]
struct Left {
    output: Taken,
    message: Taken,
    code: u8,
}

fn two_files(alloc: Global) -> Shelf {
    Shelf {
        alloc,
        a: ".i 1\n.o 1\n1 1\n",
        b: "# b\n.i 1\n.o 1\n0 1\n",
        input: "# in\n.i 1\n.o 1\n- 1\n",
    }
}

fn words_of(alloc: Global, words: &[&str]) -> Result<Vec<String>, Fail> {
    let mut list = Vec::new(alloc);
    for word in words {
        list.push(String::from_str(alloc, word)?)?;
    }
    Ok(list)
}

fn left_by(alloc: Global, words: Result<Vec<String>, LineFault>) -> Result<Left, Fail> {
    let mut output = Taken::new(alloc, 200, 200, false)?;
    let mut message = Taken::new(alloc, 200, 200, false)?;
    let mut files = two_files(alloc);
    let status = execute(alloc, words, &mut files, &mut output, &mut message);
    Ok(Left {
        output,
        message,
        code: status.code(),
    })
}

// Whether a process with these words answers so.
fn answers(
    alloc: Global,
    words: &[&str],
    output: &str,
    message: &str,
    code: u8,
) -> Result<bool, Fail> {
    let left = left_by(alloc, Ok(words_of(alloc, words)?))?;
    Ok(
        left.output.bytes() == output.as_bytes()
            && left.message.bytes() == message.as_bytes()
            && left.code == code,
    )
}

const USAGE: &str = "usage: espresso -Dcommand [-o type] [-e eat] [file [file]]\n";

const WRITE_FAILED: &[u8] = b"espresso: write failed\n";

const CLOSED: &str = "espresso: cannot open c\n";

const B: &str = "# b\n.i 1\n.o 1\n.p 1\n0 1\n.e\n";

const INPUT: &str = "# in\n.i 1\n.o 1\n.p 1\n- 1\n.e\n";

const INPUT_WITHOUT_A: &str = "# in\n.i 1\n.o 1\n.p 1\n0 1\n.e\n";

const B_WITHOUT_INPUT: &str = "# b\n# in\n.i 1\n.o 1\n.p 0\n.e\n";

// Words, and what a process with them leaves: its output, its message and its status.
const ANSWERS: [(&[&str], &str, &str, u8); 11] = [
    // A word names its file.
    (&["x", "-Decho", "a"], ".i 1\n.o 1\n.p 1\n1 1\n.e\n", "", 0),
    (&["-Decho", "-Decho", "b"], B, "", 0),
    // A hyphen is standard input, and so is no word.
    (&["x", "-Decho", "-"], INPUT, "", 0),
    (&["x", "-D", "echo"], INPUT, "", 0),
    // A run does not answer yes.
    (&["x", "-Decho", "c"], "", CLOSED, 2),
    (
        &["x", "-Dtautology", "a"],
        "ON-set is not a tautology\n",
        "",
        1,
    ),
    (&["x", "-Decho", "-Decho"], "", USAGE, 2),
    // Each of two words names its own source.
    (&["x", "-Dsharp", "-", "a"], INPUT_WITHOUT_A, "", 0),
    (&["x", "-Dsharp", "b", "-"], B_WITHOUT_INPUT, "", 0),
    // One of two cannot be opened.
    (&["x", "-Dsharp", "a", "c"], "", CLOSED, 2),
    (&["x", "-Dsharp", "c", "a"], "", CLOSED, 2),
];

#[test]
fn a_process_answers(rt: HostRuntime) -> Result<(), Fail> {
    for (words, output, message, code) in ANSWERS {
        assert!(rt; answers(rt.alloc(), words, output, message, code)?);
    }
    Ok(())
}

// Whether a process without words says so why, and leaves its output alone.
fn refuses(alloc: Global, fault: LineFault, message: &str, code: u8) -> Result<bool, Fail> {
    let left = left_by(alloc, Err(fault))?;
    Ok(
        left.message.bytes() == message.as_bytes()
            && left.code == code
            && left.output.calls() == WriteCalls::new(),
    )
}

#[test]
fn words_that_are_none_are_told(rt: HostRuntime) -> Result<(), Fail> {
    let alloc = rt.alloc();
    assert!(rt; refuses(alloc, LineFault::Usage, USAGE, 2)?);
    assert!(rt; refuses(alloc, LineFault::Memory, "espresso: out of memory\n", 3)?);
    Ok(())
}

// A slate with a digit for each call, the last after the others: 1 for a write of the first output,
// 2 for its flush, 3 for a write of the second, and for what is opened 4 if it is `a`, 5 if it is
// `b`, 6 if it is another file, and 7 if it is standard input.
fn put(slate: &Cell<u64>, mark: u64) {
    slate.set(slate.get().wrapping_mul(10).wrapping_add(mark));
}

// The files, with a mark for each that is opened.
#[derive(Drop)]
struct Watched<'a> {
    slate: &'a Cell<u64>,
    shelf: Shelf,
}

impl Opener for Watched<'_> {
    ghost use Rattle.std.specs.Prelude.{⊤};

    type Device = Given;

    ghost file = { λ _ _ _ _. ⊤ };

    ghost input = { λ _ _ _. ⊤ };

    /// Puts the mark of the name on the slate too, also where there is no such file.
    fn open(&mut self, name: &str) -> Option<Given> {
        let mark = match name {
            "a" => 4,
            "b" => 5,
            _ => 6,
        };
        put(self.slate, mark);
        self.shelf.open(name)
    }

    fn standard_input(&mut self) -> Given {
        put(self.slate, 7);
        self.shelf.standard_input()
    }
}

// An output with a mark for each call.
#[derive(Drop)]
struct Marking<'a> {
    slate: &'a Cell<u64>,
    mark: u64,
    calls: WriteCalls,
}

impl Output for Marking<'_> {
    ghost use Rattle.std.specs.Prelude.{None};

    ghost taken = { λ _. None };

    ghost calls = { λ s. s.calls };

    fn write(&mut self, bytes: &[u8]) -> Result<usize, Broken> {
        put(self.slate, self.mark);
        self.calls = self.calls.after_write();
        Ok(bytes.len())
    }

    fn flush(&mut self) -> Result<(), Broken> {
        put(self.slate, 2);
        self.calls = self.calls.after_flush();
        Ok(())
    }
}

// The marks of a process with these words.
fn marks_of(alloc: Global, words: &[&str]) -> Result<u64, Fail> {
    let slate = Cell::new(0);
    let mut out = Marking {
        slate: &slate,
        mark: 1,
        calls: WriteCalls::new(),
    };
    let mut err = Marking {
        slate: &slate,
        mark: 3,
        calls: WriteCalls::new(),
    };
    let mut files = Watched {
        slate: &slate,
        shelf: two_files(alloc),
    };
    let words = words_of(alloc, words)?;
    let _ = execute(alloc, Ok(words), &mut files, &mut out, &mut err);
    Ok(slate.get())
}

// Words, and the marks of a process with them.
const MARKS: [(&[&str], u64); 8] = [
    // A message comes after the flush, and after the echoes.
    (&["x", "-Decho", "a"], 412),
    (&["x", "-Decho", "c"], 62333),
    (&["x", "-Dsharp", "b", "c"], 5162333),
    (&["x", "-Dsharp"], 3),
    // A second file is opened after a first without a fault, and stays closed after one with a
    // fault.
    (&["x", "-Dverify", "b", "a"], 51412),
    (&["x", "-Dverify", "a", "-"], 47112),
    (&["x", "-Dverify", "c", "a"], 62333),
    (&["x", "-Dverify", "fault", "a"], 623333333),
];

#[test]
fn calls_come_in_order(rt: HostRuntime) -> Result<(), Fail> {
    for (words, marks) in MARKS {
        assert!(rt; marks_of(rt.alloc(), words)? == marks);
    }
    Ok(())
}

// Whether a process on an output whose write of this number fails alone says so, and calls the
// output no more but for one flush.
fn ends_at_write<O: Opener>(
    alloc: Global,
    words: Vec<String>,
    files: &mut O,
    writes: u64,
) -> Result<bool, Fail> {
    let output = Taken::new(alloc, 200, 10, false)?;
    let mut output = output.failing_once_after(writes);
    let mut message = Taken::new(alloc, 200, 200, false)?;
    let status = execute(alloc, Ok(words), files, &mut output, &mut message);
    Ok(
        status == Status::Fault
            && message.bytes() == WRITE_FAILED
            && is_flushed_after_a_failure(output.calls()),
    )
}

// Whether one write failed, and one flush did not fail.
fn is_flushed_after_a_failure(calls: WriteCalls) -> bool {
    let counts = calls.counts;
    calls.broken
        && calls.flushed
        && counts.failures == 1
        && counts.flushes == 1
        && counts.failed_flushes == 0
}

#[test]
fn a_second_file_stays_closed_after_a_failed_write(rt: HostRuntime) -> Result<(), Fail> {
    let alloc = rt.alloc();
    let slate = Cell::new(0);
    let mut files = Watched {
        slate: &slate,
        shelf: two_files(alloc),
    };
    let words = words_of(alloc, &["x", "-Dverify", "b", "a"])?;
    assert!(rt; ends_at_write(alloc, words, &mut files, 0)?);
    assert!(rt; slate.get() == 5);
    Ok(())
}

#[test]
fn a_failed_call_is_the_last_of_its_kind(rt: HostRuntime) -> Result<(), Fail> {
    let alloc = rt.alloc();
    for writes in 0..2 {
        let words = words_of(alloc, &["x", "-Decho", "a"])?;
        assert!(rt; ends_at_write(alloc, words, &mut two_files(alloc), writes)?);
    }
    Ok(())
}
