//! Where the words and the bytes of a run come from, and the names of sources in messages.
ghost use Rattle.std.specs.IoError.{error_kind};
ghost use Rattle.std.specs.Prelude.{◌≡◌, ◌≢◌, Err, IfErr, IfOk, List, Option, drop, map, string_bytes, ℕ, ⊤};
ghost use Rattle.espresso.specs.Run.{name_of};
ghost use Rattle.espresso.specs.Tool.{first_name};

use crate::line::LineFault;
use pla::{Input, Reading};
use std::alloc::{AllocError, AllocGlobal, Global};
use std::env::{Args, Env};
use std::fs::File;
use std::io::{ErrorKind, Read};
use std::rt::Stdin;
use std::{env, fs, io};

/// A file of a run, opened or not, with its name for messages.
#[derive(Debug, Drop)]
pub enum Source<R> {
    /// It was opened: what is read from here on is its content.
    Open { name: String, input: R },
    /// It could not be opened.
    Closed { name: String },
}

impl<R> Source<R> {
    // The name for messages.
    pub(crate) fn name(&self) -> &str
        ensures { result.now ≡ name_of self.now }
    {
        match self {
            Source::Open { name, input: _ } | Source::Closed { name } => name.as_str(),
        }
    }
}

/// What opens files by their names and has standard input, and can do nothing else. A contract sees
/// what each call gave, and the opener before and after it: so what was opened, and in which order,
/// is seen from the opener before and after all calls.
pub trait Opener {
    /// What is read from.
    type Device: Input + Drop;

    /// From the first state to the last, the file of this name was opened as this device, or could
    /// not be opened.
    ghost file: { Self → List ℕ → Option Self.Device → Self → Type 0 };

    /// From the first state to the last, this device was given for standard input.
    ghost input: { Self → Self.Device → Self → Type 0 };

    /// Opens the file of this name; `None` if it cannot be opened.
    fn open(&mut self, name: &str) -> Option<Self::Device>
        ensures { file self.old name.now result self.new };

    /// Standard input.
    fn standard_input(&mut self) -> Self::Device
        ensures { input self.old result self.new };
}

// The files and the standard input of the system.
#[derive(Drop)]
pub(crate) struct Files<'a> {
    pub(crate) rt: &'a HostRuntime,
}

// No contract says what a file of the system holds.
impl Opener for Files<'_> {
    type Device = Reading<Content<File, Stdin>>;

    ghost file = { λ _ _ _ _. ⊤ };

    ghost input = { λ _ _ _. ⊤ };

    fn open(&mut self, name: &str) -> Option<Reading<Content<File, Stdin>>> {
        match fs::open(self.rt, name) {
            Ok(file) => Some(Reading::new(Content::File(file))),
            Err(_) => None,
        }
    }

    fn standard_input(&mut self) -> Reading<Content<File, Stdin>> {
        Reading::new(Content::Input(self.rt.stdin()))
    }
}

// What a source gives: a file, or standard input.
#[derive(Drop)]
pub enum Content<F, I> {
    File(F),
    Input(I),
}

impl<F: Read, I: Read> Read for Content<F, I> {
    ghost use Rattle.espresso.specs.Contents.{remaining_of};

    ghost remaining = { remaining_of F.remaining I.remaining };

    fn read(&mut self, buffer: &mut [u8]) -> io::Result<usize> {
        match self {
            Content::File(file) => file.read(buffer),
            Content::Input(input) => input.read(buffer),
        }
    }
}

// The words of the process, the program's name first.
pub(crate) fn process_words<R: Env + AllocGlobal>(rt: &R) -> Result<Vec<String>, LineFault> {
    words_in(rt.alloc(), env::args(rt))
}

// The words that were found. Words that are no text say no line.
fn words_in(alloc: Global, found: io::Result<Args>) -> Result<Vec<String>, LineFault>
    ensures refused { IfOk found (λ _. IfErr result (λ fault. fault ≡ LineFault.Memory)) }
    ensures no_memory { IfErr found
        (λ error. error_kind error ≡ ErrorKind.OutOfMemory → result ≡ Err LineFault.Memory) }
    ensures no_text { IfErr found
        (λ error. error_kind error ≢ ErrorKind.OutOfMemory → result ≡ Err LineFault.Usage) }
{
    match found {
        Ok(words) => words.collect(alloc).map_err(|_| LineFault::Memory),
        Err(error) => match error.kind() {
            ErrorKind::OutOfMemory => Err(LineFault::Memory),
            _ => Err(LineFault::Usage),
        },
    }
}

// The name of a source in messages: the first of these file words, or `(stdin)` if there is none or
// it is `-`.
pub(crate) fn name_in_messages(files: &[String]) -> &str
    ensures { result.now ≡ first_name (map string_bytes files.now) }
{
    match files.first() {
        Some(file) if file.as_str() != "-" => file.as_str(),
        _ => "(stdin)",
    }
}

/// The name of a source in messages, and so in a [`Source`]: the first of these file words, or
/// `(stdin)` if there is none or it is `-`.
pub fn source_name(alloc: Global, files: &[String]) -> Result<String, AllocError>
    ensures { IfOk result (λ name. string_bytes name ≡ first_name (map string_bytes files.now)) }
{
    String::from_str(alloc, name_in_messages(files))
}

/// The file words after the first, none if there is none: of the files of a pair, what
/// [`source_name`] takes for the second.
pub fn after_first(files: &[String]) -> &[String]
    ensures { map string_bytes result.now ≡ drop 1 (map string_bytes files.now) }
{
    match files.split_first() {
        Some((_, rest)) => rest,
        None => files,
    }
}
