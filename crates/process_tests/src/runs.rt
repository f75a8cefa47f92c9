//! Each public call once with ample memory, and runs on devices that fail. What a run prints of
//! whole texts is tested on the built program.
ghost use Rattle.std.specs.Prelude.{◌≡◌, ◌<◌, ◌≤◌, IfOk, IfSome, is_some};
ghost use Rattle.espresso.specs.Run.{name_of};
ghost use Rattle.espresso.specs.Tool.{first_name, second_name};
ghost use Rattle.espresso.specs.Words.{takes_two};

use espresso::{
    Line, LineFault, Source, Status, after_first, refuse, run, source_name,
    tool_is_outcome_or_refusal,
};
use pla::Ending;
use std::alloc::Global;
use std::test::Fail;
use test_devices::{Given, Taken};

const TEXT: &[u8] = b"# a\n.i 2\n.o 1\n11 1\n.e\n";

const PRINTED: &[u8] = b"# a\n.i 2\n.o 1\n.p 1\n11 1\n.e\n";

const WRITE_FAILED: &[u8] = b"espresso: write failed\n";

// What a run left, and how many bytes of its files it has asked for.
#[derive(Drop)]
pub(crate) struct Ran {
    output: Taken,
    message: Taken,
    status: Status,
    first: usize,
    second: usize,
}

fn line_of(alloc: Global, words: &[&str]) -> Result<Line, Fail> {
    let mut list = Vec::new(alloc);
    for word in words {
        list.push(String::from_str(alloc, word)?)?;
    }
    Ok(Line::read(alloc, &list).map_err(|_| "the words say no line")?)
}

fn given(alloc: Global, text: &[u8], ending: Ending) -> Result<Given, Fail> {
    Ok(Given::new(text.to_vec(alloc)?, 3, ending))
}

// The second source of the line, if its command takes two.
fn second_source(alloc: Global, line: &Line, input: Given) -> Result<Option<Source<Given>>, Fail>
    ensures pair { IfOk result (λ source. is_some source ≡ takes_two line.now.command) }
    ensures name { IfOk result
        (λ source. IfSome source (λ s. name_of s ≡ second_name line.now.files)) }
{
    if !line.pair() {
        return Ok(None);
    }
    let name = source_name(alloc, after_first(line.files()))?;
    Ok(Some(Source::Open { name, input }))
}

fn delivered(source: &Source<Given>) -> usize {
    match source {
        Source::Open { name: _, input } => input.delivered(),
        Source::Closed { name: _ } => 0,
    }
}

// A run of the line on these sources.
fn run_line(
    alloc: Global,
    line: &Line,
    mut first: Source<Given>,
    mut second: Option<Source<Given>>,
    mut output: Taken,
) -> Result<Ran, Fail>
    requires pair { is_some second ≡ takes_two line.now.command }
    requires first_name { name_of first ≡ first_name line.now.files }
    requires second_name { IfSome second (λ s. name_of s ≡ second_name line.now.files) }
{
    let mut message = Taken::new(alloc, 70_000, 7, false)?;
    let status = run(
        alloc,
        line,
        &mut first,
        &mut second,
        &mut output,
        &mut message,
    );
    Ok(Ran {
        output,
        message,
        status,
        first: delivered(&first),
        second: second.as_ref().map_or(0, delivered),
    })
}

// A run of the words on these files.
pub(crate) fn run_on(
    alloc: Global,
    words: &[&str],
    first: Given,
    second: Given,
    output: Taken,
) -> Result<Ran, Fail> {
    let line = line_of(alloc, words)?;
    let name = source_name(alloc, line.files())?;
    let first = Source::Open { name, input: first };
    let second = second_source(alloc, &line, second)?;
    run_line(alloc, &line, first, second, output)
}

// A run of an echo of this text.
fn echo_on(alloc: Global, text: &[u8], output: Taken) -> Result<Ran, Fail> {
    let none = given(alloc, b"", Ending::End)?;
    let text = given(alloc, text, Ending::End)?;
    run_on(alloc, &["-Decho"], text, none, output)
}

// Whether the run has this output, this message and this status.
pub(crate) fn has_left(ran: &Ran, output: &[u8], message: &[u8], status: Status) -> bool {
    ran.output.bytes() == output && ran.message.bytes() == message && ran.status == status
}

// Whether an echo of this text leaves so.
fn echo_leaves(
    alloc: Global,
    text: &[u8],
    output: Taken,
    printed: &[u8],
    message: &[u8],
    status: Status,
) -> Result<bool, Fail> {
    let ran = echo_on(alloc, text, output)?;
    Ok(has_left(&ran, printed, message, status))
}

// Whether the words say a line of so many files, the first of which is this, and of a pair or not.
fn says(
    alloc: Global,
    words: &[&str],
    pair: bool,
    files: usize,
    first: &str,
) -> Result<bool, Fail> {
    let line = line_of(alloc, words)?;
    let found = line.files();
    Ok(
        line.pair() == pair
            && found.len() == files
            && found.first().is_some_and(|file| file.as_str() == first),
    )
}

#[test]
fn words_are_read(rt: HostRuntime) -> Result<(), Fail> {
    let alloc = rt.alloc();
    assert!(rt; says(alloc, &["-Decho", "--", "-x"], false, 1, "-x")?);
    assert!(rt; says(alloc, &["-Dsharp", "-of", "-", "b"], true, 2, "-")?);
    Ok(())
}

#[test]
fn no_words_are_refused(rt: HostRuntime) -> Result<(), Fail> {
    assert!(rt; Line::read(rt.alloc(), &[]).err() == Some(LineFault::Usage));
    tool_is_outcome_or_refusal();
    Ok(())
}

// Whether a refusal is told so, where there is room for so many bytes.
fn refuses(
    alloc: Global,
    fault: LineFault,
    room: usize,
    text: &[u8],
    code: u8,
) -> Result<bool, Fail> {
    let mut message = Taken::new(alloc, room, 7, false)?;
    let status = refuse(&fault, &mut message);
    Ok(status.code() == code && message.bytes() == text)
}

// A fault, the room for its message, what is written of it and the status.
const REFUSALS: [(LineFault, usize, &[u8], u8); 3] = [
    (
        LineFault::Usage,
        200,
        b"usage: espresso -Dcommand [-o type] [-e eat] [file [file]]\n",
        2,
    ),
    (LineFault::Memory, 200, b"espresso: out of memory\n", 3),
    (LineFault::Usage, 5, b"usage", 2),
];

#[test]
fn a_refusal_is_one_line_and_a_status(rt: HostRuntime) -> Result<(), Fail> {
    for (fault, room, text, code) in REFUSALS {
        assert!(rt; refuses(rt.alloc(), fault, room, text, code)?);
    }
    Ok(())
}

#[test]
fn statuses_are_numbers(rt: HostRuntime) -> Result<(), Fail> {
    assert!(rt; Status::Done.code() == 0 && Status::No.code() == 1);
    Ok(())
}

// A comparison of two files, the output of which may fail at its flush.
fn verify_on(alloc: Global, text: &[u8], fails: bool) -> Result<Ran, Fail> {
    let one = given(alloc, text, Ending::Failed)?;
    let other = given(alloc, b"# b\n.i 2\n.o 1\n1- 1\n.e\n", Ending::Failed)?;
    let output = Taken::new(alloc, 100, 3, fails)?;
    run_on(alloc, &["-Dverify", "a", "b"], one, other, output)
}

#[test]
fn two_files_are_read_one_behind_the_other(rt: HostRuntime) -> Result<(), Fail> {
    let ran = verify_on(rt.alloc(), TEXT, false)?;
    let printed = b"# a\n# b\nPLA comparison failed; the PLAs are not equivalent\n";
    assert!(rt; has_left(&ran, printed, b"", Status::No));
    Ok(())
}

#[test]
fn a_second_file_is_not_read_behind_a_fault(rt: HostRuntime) -> Result<(), Fail> {
    let ran = verify_on(rt.alloc(), b"# a\n", true)?;
    let message = b"espresso: a:2: read failed\n";
    assert!(rt; has_left(&ran, b"# a\n", message, Status::Fault));
    assert!(rt; ran.first == 4 && ran.second == 0);
    Ok(())
}

// Whether an output of this room, which takes such pieces, has taken its part of the echo at the
// end.
fn takes_a_beginning(alloc: Global, room: usize, piece: usize) -> Result<bool, Fail>
    requires { 1 ≤ piece }
{
    let output = Taken::new(alloc, room, piece, false)?;
    let printed = PRINTED.get(..room).ok_or("room")?;
    echo_leaves(alloc, TEXT, output, printed, WRITE_FAILED, Status::Fault)
}

#[test]
fn an_output_that_fails_has_taken_a_beginning(rt: HostRuntime) -> Result<(), Fail> {
    let alloc = rt.alloc();
    for room in 0..PRINTED.len() {
        for piece in [1, 5, 100] {
            assert!(rt; takes_a_beginning(alloc, room, piece)?);
        }
    }
    Ok(())
}

// A text, whether the flush fails, and what an echo of the text leaves.
const ECHOES: [(&[u8], bool, &[u8], &[u8], Status); 3] = [
    (TEXT, false, PRINTED, b"", Status::Done),
    // A flush that fails at the end is reported, and not after a fault.
    (TEXT, true, PRINTED, WRITE_FAILED, Status::Fault),
    (
        b"",
        true,
        b"",
        b"espresso: (stdin):0: .i or .o missing\n",
        Status::Fault,
    ),
];

#[test]
fn an_echo_leaves_what_its_output_has_taken(rt: HostRuntime) -> Result<(), Fail> {
    for (text, fails, printed, message, status) in ECHOES {
        let output = Taken::new(rt.alloc(), 100, 100, fails)?;
        assert!(rt; echo_leaves(rt.alloc(), text, output, printed, message, status)?);
    }
    Ok(())
}
