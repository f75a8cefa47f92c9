//! The parse of the words by `clap`, and the line that its matches say.
ghost use Rattle.std.specs.Prelude.{◌≡◌, ◌≢◌, IfOk, Some, None, Err, map, string_bytes, codes, false, option_and_then};
ghost use Rattle.std.specs.Option.{option_map_or};
ghost use Rattle.clap.specs.Words.{app_of, first_value, found_of, kind_of, rule_of};
ghost use Rattle.espresso.specs.Parser.{bare_app, espresso_app, files_arg, literals_arg, option_arg};
ghost use Rattle.espresso.specs.Matches.{choice_in, request_in};
ghost use Rattle.espresso.specs.Words.{eat_named, fits, request, command_named, type_named};

use crate::command::{Command, command_of, eat_of, out_type_of};
use crate::line::{Line, LineFault};
use clap::error::ErrorKind;
use clap::{Arg, ArgAction, ArgMatches, Error};
use minimum::Choice;
use pla::OutType;
use std::alloc::{AllocError, Global};

// The parser of the words, without the program's name before them, before its options are added.
fn bare_command<'a>(alloc: Global) -> clap::Command<'a>
    ensures { app_of result ≡ bare_app }
{
    clap::Command::new(alloc, "espresso")
        .no_binary_name(true)
        .disable_help_flag(true)
        .disable_version_flag(true)
}

// An option with a value.
fn option_with_value<'a>(alloc: Global, name: &'a str, letter: char) -> Arg<'a>
    ensures rule { rule_of result ≡ option_arg name.entry.now letter }
    ensures local { result.global ≡ false }
{
    Arg::new(alloc, name).short(letter)
}

// The argument that takes all words for files; how many there may be is checked later.
fn files_argument<'a>(alloc: Global) -> Arg<'a>
    ensures rule { rule_of result ≡ files_arg }
    ensures local { result.global ≡ false }
{
    Arg::new(alloc, "files").action(ArgAction::Append)
}

// The option without a value.
fn literals_option<'a>(alloc: Global) -> Arg<'a>
    ensures rule { rule_of result ≡ literals_arg }
    ensures local { result.global ≡ false }
{
    Arg::new(alloc, "literals")
        .long("literals")
        .action(ArgAction::SetTrue)
}

// The parser of the words: three options with a value each, files, and an option without a value.
pub(crate) fn espresso_command<'a>(alloc: Global) -> Result<clap::Command<'a>, AllocError>
    ensures { IfOk result (λ c. app_of c ≡ espresso_app) }
{
    let command = option_with_value(alloc, "command", 'D');
    let out = option_with_value(alloc, "type", 'o');
    let eat = option_with_value(alloc, "eat", 'e');
    let args = vec![in alloc;
        command,
        out,
        eat,
        files_argument(alloc),
        literals_option(alloc),
    ]?;
    bare_command(alloc).args(args)
}

// Out of memory if the parse was, and else a usage fault.
pub(crate) fn fault_from(error: &Error) -> LineFault
    ensures memory { kind_of error.now ≡ ErrorKind.OutOfMemory → result ≡ LineFault.Memory }
    ensures usage { kind_of error.now ≢ ErrorKind.OutOfMemory → result ≡ LineFault.Usage }
{
    match error.kind() {
        ErrorKind::OutOfMemory => LineFault::Memory,
        _ => LineFault::Usage,
    }
}

// The line that the matches say; a usage fault if they say none.
pub(crate) fn line_in(alloc: Global, matches: &ArgMatches<'_>) -> Result<Line, LineFault>
    ensures ok { IfOk result (λ l. request_in (found_of matches.now) ≡ Some l) }
    ensures usage { result ≡ Err LineFault.Usage → request_in (found_of matches.now) ≡ None }
{
    let command = given_command(matches);
    let out = given_type(matches);
    let eat = given_eat(matches);
    let choice = given_choice(matches);
    match matches.get_raw("files") {
        Some(names) => line_with(alloc, command, out, eat, choice, names),
        None => line_with(alloc, command, out, eat, choice, &[]),
    }
}

// The command that the words name; `None` if they name none or there is no such command.
fn given_command(matches: &ArgMatches<'_>) -> Option<Command>
    ensures { result
        ≡ option_and_then command_named (first_value (found_of matches.now) (codes "command")) }
{
    match matches.get_str("command") {
        Some(name) => command_of(name),
        None => None,
    }
}

// The output type that the words name, f if they name none; `None` if there is no such type.
fn given_type(matches: &ArgMatches<'_>) -> Option<OutType>
    ensures { result
        ≡ option_map_or type_named (first_value (found_of matches.now) (codes "type"))
        (Some OutType.F) }
{
    match matches.get_str("type") {
        Some(name) => out_type_of(name),
        None => Some(OutType::F),
    }
}

// Whether comments are left out: `false` if no word says so, `None` if the value is not `eat`.
fn given_eat(matches: &ArgMatches<'_>) -> Option<bool>
    ensures { result
        ≡ option_map_or eat_named (first_value (found_of matches.now) (codes "eat")) (Some false) }
{
    match matches.get_str("eat") {
        Some(name) => eat_of(name),
        None => Some(false),
    }
}

// The choice among covers: by literals if `--literals` is there, and else the first.
fn given_choice(matches: &ArgMatches<'_>) -> Choice
    ensures { result ≡ choice_in (found_of matches.now) }
{
    match matches.get_str("literals") {
        Some("true") => Choice::Literals,
        _ => Choice::First,
    }
}

// The line of these values; a usage fault if one is missing or they do not fit together.
fn line_with(
    alloc: Global,
    command: Option<Command>,
    out: Option<OutType>,
    eat: Option<bool>,
    choice: Choice,
    names: &[&str],
) -> Result<Line, LineFault>
    ensures ok { IfOk result
        (λ l. request command out eat (Some choice) (map (λ s. s.now) names.now) ≡ Some l) }
    ensures usage { result ≡ Err LineFault.Usage
        → request command out eat (Some choice) (map (λ s. s.now) names.now) ≡ None }
{
    let Some(command) = command else {
        return Err(LineFault::Usage);
    };
    let Some(out) = out else {
        return Err(LineFault::Usage);
    };
    let Some(eat) = eat else {
        return Err(LineFault::Usage);
    };
    if !is_fitting(command, out, choice, names) {
        return Err(LineFault::Usage);
    }
    match copy_names(alloc, names) {
        Ok(files) => Ok(Line::new(command, out, eat, choice, files)),
        Err(_) => Err(LineFault::Memory),
    }
}

// Whether the command takes this type, this choice and this many files, of which at most one is
// standard input.
fn is_fitting(command: Command, out: OutType, choice: Choice, files: &[&str]) -> bool
    ensures { result ≡ fits command out choice (map (λ s. s.now) files.now) }
{
    let is_count = match files {
        [] | [_] => !command.takes_two(),
        [first, second] => command.takes_two() && (*first != "-" || *second != "-"),
        _ => false,
    };
    command.allows(out, choice) && is_count
}

// The names, copied in their order.
fn copy_names(alloc: Global, names: &[&str]) -> Result<Vec<String>, AllocError>
    ensures { IfOk result (λ v. map string_bytes v.items ≡ map (λ s. s.now) names.now) }
{
    let mut files = Vec::new(alloc);
    for name in names {
        files.push(String::from_str(alloc, name)?)?;
    }
    Ok(files)
}
