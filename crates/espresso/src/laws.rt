//! A law of the definitions: what calls promise one by one is together what the tool answers.
ghost use Rattle.std.specs.Prelude.{◌≡◌, List, Some, None};
ghost use Rattle.espresso.specs.Tool.{File, outcome_of, refusal_of, tool};
ghost use Rattle.espresso.specs.Words.{Request, Text, line_of};

use crate::line::LineFault;

/// What [`Line::read`](crate::Line::read), [`run`](crate::run) and [`refuse`](crate::refuse)
/// promise one by one is together what the tool answers: if the words say a line, its outcome on
/// the files, and otherwise the usage.
pub fn tool_is_outcome_or_refusal()
    ensures lines { (words : List Text) (line : Request) → line_of words ≡ Some line
        → (first second : File)
        → tool words first second ≡ outcome_of line first second }
    ensures refusals { (words : List Text) → line_of words ≡ None
        → (first second : File)
        → tool words first second ≡ refusal_of LineFault.Usage }
{}
