//! The echo of a line: what of it is passed on.
ghost use Rattle.std.specs.Prelude.{◌≡◌, ◌++◌, ◌∷◌, [], if◌then◌else◌, codes};
ghost use Rattle.pla.specs.Device.{TellsFailure, Writes};
ghost use Rattle.pla.specs.Lines.{code as code_on, comment, row_code as row_code_on};
ghost use Rattle.pla.specs.Keywords.{is_unknown as is_unknown_line, is_one_of, settings, endings, refused_keywords};
ghost use Rattle.pla.specs.Echoes.{echo_of, kept_comment};

use crate::device::Output;
use crate::header::{is_end, is_refused_keyword};
use crate::line::{begins_keyword, is, keyword_code_of, keyword_of};
use crate::writing::{WriteFault, write_bytes, write_next};

/// Whether comments are passed on (`Keep`) or left out (`Eat`).
#[derive(Clone, Copy, Debug, PartialEq, Eq)]
pub enum Echo {
    Keep,
    Eat,
}

/// What stands before the comment of a line. `row_code` is that of a row line, and is answered if
/// it is one.
fn before_comment<'a>(line: &'a [u8], row_code: &'a [u8]) -> &'a [u8]
    requires { row_code.now ≡ row_code_on line.now }
    ensures { result.now ≡ code_on line.now }
{
    if begins_keyword(line) {
        keyword_code_of(line)
    } else {
        row_code
    }
}

/// The comment, from its `#` to the line's end: empty if the line has none.
fn comment_of<'a>(line: &'a [u8], row_code: &'a [u8]) -> &'a [u8]
    requires { row_code.now ≡ row_code_on line.now }
    ensures { result.now ≡ comment line.now }
{
    let end = before_comment(line, row_code).len();
    &line[end.min(line.len())..]
}

/// Whether the line has a keyword that this format does not know.
fn is_unknown(line: &[u8]) -> bool
    ensures { result ≡ is_unknown_line line.now }
{
    let keyword = keyword_of(line);
    !(keyword.is_empty() || is_known(keyword))
}

/// Whether the keyword, with its dot, is one of this format or one that it refuses.
fn is_known(keyword: &[u8]) -> bool
    ensures { result
        ≡ is_one_of (settings ++ endings ++ refused_keywords ++ codes ".p" ∷ []) keyword.now }
{
    is(keyword, b".i")
        || is(keyword, b".o")
        || is(keyword, b".ilb")
        || is(keyword, b".ob")
        || is(keyword, b".type")
        || is_end(keyword)
        || is_refused_keyword(keyword)
        || is(keyword, b".p")
}

/// What is passed on of a line, without a line feed; empty if nothing is. `row_code` is what stands
/// before the comment if it is a row line.
fn echo_text<'a>(echo: Echo, line: &'a [u8], row_code: &'a [u8]) -> &'a [u8]
    requires { row_code.now ≡ row_code_on line.now }
    ensures { result.now
        ≡ (if is_unknown_line line.now then line.now else kept_comment echo line.now) }
{
    if is_unknown(line) {
        return line;
    }
    match echo {
        Echo::Keep => comment_of(line, row_code),
        Echo::Eat => &[],
    }
}

/// Writes the echo of a line: the whole line if its keyword is unknown, otherwise its comment if it
/// has one and comments are kept, with a line feed. `row_code` is what stands before the comment if
/// it is a row line. Takes no memory.
pub fn write_echo<W: Output>(
    echo: Echo,
    line: &[u8],
    row_code: &[u8],
    output: &mut W,
) -> Result<(), WriteFault>
    requires { row_code.now ≡ row_code_on line.now }
    ensures bytes { Writes (W.taken output.old) (W.taken output.new) result
        (echo_of echo line.now) }
    ensures count { TellsFailure (W.calls output.old) (W.calls output.new) result }
{
    let text = echo_text(echo, line, row_code);
    if text.is_empty() {
        return Ok(());
    }
    let done = write_bytes(output, text);
    write_next(output, done, b"\n")
}
