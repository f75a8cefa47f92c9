//! Opening a source (`open_source`), reading it (`read_source`), and reading the second file of a
//! run (`read_other`): its source is given or opened first, and its sizes have to be those of the
//! first.
ghost use Rattle.std.specs.Prelude.{◌≡◌, IfErr, IfOk, Option, Some, map, string_bytes, true};
ghost use Rattle.espresso.specs.Program.{IsOpenedAs, named_file};
ghost use Rattle.espresso.specs.Run.{Intake, Takes, name_of, trace};
ghost use Rattle.espresso.specs.Steps.{IsReadAs, IsSecondReadAs, ReadsOther, ReadsSecond};
ghost use Rattle.espresso.specs.Tool.{first_name, second_name};
ghost use Rattle.espresso.specs.Words.{Request, takes_two};

use crate::failure::{Failure, Operand};
use crate::line::Line;
use crate::sources::{Opener, Source, after_first, source_name};
use pla::{Input, Output, Pla, read_pla};
use std::alloc::{AllocError, Global};

// What gives the second source of a run.
pub(crate) trait SecondSource {
    // It can give the second source of this line.
    ghost fits: { Request → Self → Type 0 };

    // Between these two states this was read of the second source of this line.
    ghost asked: { Request → Self → Intake → Self → Type 0 };

    // Reads the second source of a line whose command takes two.
    fn read<W: Output>(&mut self, alloc: Global, line: &Line, out: &mut W) -> Result<Pla, Failure>
        requires two { takes_two line.now.command ≡ true }
        requires second { fits line.now self.old }
        ensures { (taken : Option Intake) × ReadsSecond (asked line.now) line.now self.old taken
            self.new
            (trace (W.taken out.old) (W.taken out.new) (W.calls out.old) (W.calls out.new)) result };
}

// A second source that is there.
impl<R: Input> SecondSource for Option<Source<R>> {
    ghost use Rattle.std.specs.Prelude.{◌≡◌, IfSome, is_some};
    ghost use Rattle.espresso.specs.Run.{TakesSome, name_of};
    ghost use Rattle.espresso.specs.Tool.{second_name};
    ghost use Rattle.espresso.specs.Words.{takes_two};

    ghost fits = { λ line second. (is_some second ≡ takes_two line.command)
        × IfSome second (λ source. name_of source ≡ second_name line.files) };

    ghost asked = { λ line. TakesSome R.left R.calls };

    fn read<W: Output>(&mut self, alloc: Global, line: &Line, out: &mut W) -> Result<Pla, Failure> {
        match self {
            Some(source) => read_second(alloc, line, source, out),
            None => unreachable!(),
        }
    }
}

// A second source that has to be opened.
impl<O: Opener> SecondSource for O {
    ghost use Rattle.std.specs.Prelude.{drop, ⊤};
    ghost use Rattle.espresso.specs.Program.{IsOpenedAs, OpensAndTakes, named_file};
    ghost use Rattle.espresso.specs.Run.{Takes};

    ghost fits = { λ _ _. ⊤ };

    ghost asked = { λ line. OpensAndTakes (IsOpenedAs O.file O.input)
        (Takes O.Device.left O.Device.calls) (named_file (drop 1 line.files)) };

    fn read<W: Output>(&mut self, alloc: Global, line: &Line, out: &mut W) -> Result<Pla, Failure> {
        match open_source(alloc, self, after_first(line.files())) {
            Ok(mut source) => read_second(alloc, line, &mut source, out),
            Err(AllocError) => Err(Failure::OutOfMemory),
        }
    }
}

// The first of these files, opened, or standard input if there is none or it is `-`. A file that
// cannot be opened is a closed source.
pub(crate) fn open_source<O: Opener>(
    alloc: Global,
    opener: &mut O,
    files: &[String],
) -> Result<Source<O::Device>, AllocError>
    ensures name { IfOk result (λ s. name_of s ≡ first_name (map string_bytes files.now)) }
    ensures source { IfOk result (λ s.
        IsOpenedAs O.file O.input (named_file (map string_bytes files.now)) opener.old s
        opener.new) }
    ensures unopened { IfErr result (λ _. opener.new ≡ opener.old) }
{
    let name = source_name(alloc, files)?;
    let input = match files.first() {
        Some(file) if file.as_str() != "-" => match opener.open(file.as_str()) {
            Some(input) => input,
            None => return Ok(Source::Closed { name }),
        },
        _ => opener.standard_input(),
    };
    Ok(Source::Open { name, input })
}

// Reads the second source of the line.
fn read_second<R: Input, W: Output>(
    alloc: Global,
    line: &Line,
    source: &mut Source<R>,
    out: &mut W,
) -> Result<Pla, Failure>
    requires { name_of source.old ≡ second_name line.now.files }
    ensures { (taken : Intake) × Takes R.left R.calls source.old source.new taken
        × IsSecondReadAs line.now (Some taken)
        (trace (W.taken out.old) (W.taken out.new) (W.calls out.old) (W.calls out.new)) result }
{
    read_source(alloc, line, Operand::Second, source, out)
}

// Reads the second source of a line whose command takes two. If its description is not of the size
// of the first, the sizes differ, which is a failure.
pub(crate) fn read_other<S: SecondSource, W: Output>(
    alloc: Global,
    line: &Line,
    pla: &Pla,
    second: &mut S,
    out: &mut W,
) -> Result<Pla, Failure>
    requires two { takes_two line.now.command ≡ true }
    requires second { S.fits line.now second.old }
    ensures { (taken : Option Intake) × ReadsOther (S.asked line.now) line.now pla.now second.old
        taken second.new
        (trace (W.taken out.old) (W.taken out.new) (W.calls out.old) (W.calls out.new)) result }
{
    let other = second.read(alloc, line, out)?;
    let (size, other_size) = (pla.shape(), other.shape());
    if size.inputs() == other_size.inputs() && size.outputs() == other_size.outputs() {
        Ok(other)
    } else {
        Err(Failure::SizesDiffer)
    }
}

// Reads a source that was opened, whose echoes go out piece by piece; a closed one is a failure.
pub(crate) fn read_source<R: Input, W: Output>(
    alloc: Global,
    line: &Line,
    operand: Operand,
    source: &mut Source<R>,
    out: &mut W,
) -> Result<Pla, Failure>
    ensures { (taken : Intake) × Takes R.left R.calls source.old source.new taken
        × IsReadAs line.now operand (name_of source.old) taken
        (trace (W.taken out.old) (W.taken out.new) (W.calls out.old) (W.calls out.new)) result }
{
    match source {
        Source::Open { name: _, input } => match read_pla(alloc, input, out, line.echo()) {
            Ok(pla) => Ok(pla),
            Err(fault) => Err(Failure::by(operand, fault)),
        },
        Source::Closed { name: _ } => Err(Failure::NotOpened(operand)),
    }
}
