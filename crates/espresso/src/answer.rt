//! What each command answers on the descriptions of its files, and the whole of `tautology`; `check` and
//! `verify` have modules of their own.
ghost use Rattle.std.specs.Prelude.{Option};
ghost use Rattle.espresso.specs.Answer.{answer_of};
ghost use Rattle.espresso.specs.Run.{Intake, trace};
ghost use Rattle.espresso.specs.Steps.{Follows, PutsOutOne};

use crate::check::check;
use crate::command::Command;
use crate::failure::Failure;
use crate::line::Line;
use crate::printing::{judge, print_lists, print_with};
use crate::source_reading::{SecondSource, read_other};
use crate::status::Status;
use crate::verify::verify;
use cover::{contain, difference, intersect};
use minimum::{Choice, essential_of_pla, exact_of_pla, primes_of_pla};
use pla::{OutType, Output, Pla};
use std::alloc::Global;

// Prints what the line's command answers, behind a first file with this description. A command on
// two files reads the second.
pub(crate) fn answer<S: SecondSource, W: Output>(
    alloc: Global,
    line: &Line,
    pla: &Pla,
    second: &mut S,
    out: &mut W,
) -> Result<Status, Failure>
    requires { S.fits line.now second.old }
    ensures { (taken : Option Intake) × Follows (S.asked line.now) line.now pla.now second.old
        taken second.new
        (trace (W.taken out.old) (W.taken out.new) (W.calls out.old) (W.calls out.new)) result }
{
    let out_type = line.out();
    match line.command() {
        Command::Echo => print_lists(alloc, pla, out_type, pla.on(), out),
        Command::Check => check(pla, out),
        Command::Contain => print_with(alloc, pla, out_type, contain(pla.on()), out),
        Command::Primes => print_with(alloc, pla, out_type, primes_of_pla(alloc, pla), out),
        Command::Essen => print_with(alloc, pla, out_type, essential_of_pla(alloc, pla), out),
        Command::Exact => {
            let least = exact_of_pla(alloc, pla, line.choice());
            print_with(alloc, pla, out_type, least, out)
        }
        Command::Tautology => tautology(pla, out),
        Command::Verify => {
            let other = read_other(alloc, line, pla, second, out)?;
            verify(alloc, pla, &other, out)
        }
        Command::Intersect => {
            let other = read_other(alloc, line, pla, second, out)?;
            let both = intersect(pla.on(), other.on());
            print_with(alloc, pla, OutType::F, both, out)
        }
        Command::Sharp => {
            let other = read_other(alloc, line, pla, second, out)?;
            let first_alone = difference(pla.on(), other.on());
            print_with(alloc, pla, OutType::F, first_alone, out)
        }
    }
}

// Prints whether the ON-set is everything, and answers a no if it is not.
fn tautology<W: Output>(pla: &Pla, out: &mut W) -> Result<Status, Failure>
    ensures { PutsOutOne (answer_of Command.Tautology OutType.F Choice.First) pla.now
        (trace (W.taken out.old) (W.taken out.new) (W.calls out.old) (W.calls out.new)) result }
{
    let yes = b"ON-set is a tautology\n";
    let no = b"ON-set is not a tautology\n";
    judge(pla.on().tautology(), yes, no, out)
}
