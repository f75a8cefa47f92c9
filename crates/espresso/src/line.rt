//! A command line that was read. (A line of a file is `pla`'s.)
ghost use Rattle.std.specs.Prelude.{◌≡◌, IfOk, Some, None, Err, map, string_bytes};
ghost use Rattle.espresso.specs.Tool.{echo_by};
ghost use Rattle.espresso.specs.Words.{line_of, request_by, takes_two};

use crate::command::Command;
use crate::parser::{espresso_command, fault_from, line_in};
use minimum::Choice;
use pla::{Echo, OutType};
use std::alloc::Global;
use std::marker::Model;

/// What a list of words asks for: a command, an output type, whether comments are left out, a
/// choice among covers, and files.
#[derive(Debug, Drop)]
pub struct Line {
    command: Command,
    out: OutType,
    eat: bool,
    choice: Choice,
    files: Vec<String>,
}

impl Model for Line {
    ghost use Rattle.std.specs.Prelude.{map, string_bytes};
    ghost use Rattle.espresso.specs.Words.{Request, request_by};

    ghost Value = { Request };

    ghost view = { λ l.
        request_by l.command l.out l.eat l.choice (map string_bytes l.files.items) };
}

/// Why a list of words gave no line.
#[derive(Clone, Copy, Debug, PartialEq, Eq)]
pub enum LineFault {
    /// The words say no line.
    Usage,
    /// A growth of memory was refused.
    Memory,
}

impl Line {
    /// Reads the words after the program's name, at a cost in proportion to their number. Words
    /// that say no line are a usage fault.
    pub fn read(alloc: Global, words: &[String]) -> Result<Line, LineFault>
        ensures ok { IfOk result (λ l. line_of (map string_bytes words.now) ≡ Some l) }
        ensures usage { result ≡ Err LineFault.Usage
            → line_of (map string_bytes words.now) ≡ None }
    {
        let command = match espresso_command(alloc) {
            Ok(command) => command,
            Err(_) => return Err(LineFault::Memory),
        };
        match command.try_get_matches_from(words) {
            Ok(matches) => line_in(alloc, &matches),
            Err(error) => Err(fault_from(&error)),
        }
    }

    // The line of these parts; whether they fit together is not asked.
    pub(crate) fn new(
        command: Command,
        out: OutType,
        eat: bool,
        choice: Choice,
        files: Vec<String>,
    ) -> Line
        ensures { result ≡ request_by command out eat choice (map string_bytes files.items) }
    {
        Line {
            command,
            out,
            eat,
            choice,
            files,
        }
    }

    // The command.
    pub(crate) fn command(&self) -> Command
        ensures { result ≡ self.now.command }
    {
        self.command
    }

    // The output type.
    pub(crate) fn out(&self) -> OutType
        ensures { result ≡ self.now.out }
    {
        self.out
    }

    // The choice among covers.
    pub(crate) fn choice(&self) -> Choice
        ensures { result ≡ self.now.choice }
    {
        self.choice
    }

    // What is passed on of comments.
    pub(crate) fn echo(&self) -> Echo
        ensures { result ≡ echo_by self.now.eat }
    {
        if self.eat { Echo::Eat } else { Echo::Keep }
    }

    /// Whether the command takes two files.
    pub fn pair(&self) -> bool
        ensures { result ≡ takes_two self.now.command }
    {
        self.command.takes_two()
    }

    /// The file words, in order. There may be none, which stands for standard input.
    pub fn files(&self) -> &[String]
        ensures { map string_bytes result.now ≡ self.now.files }
    {
        self.files.as_slice()
    }
}
