//! What a line holds: its words, its keyword, a number, and its code, which is what stands before a comment.
ghost use Rattle.std.specs.Prelude.{◌≡◌, [], slice_index_or, ◌<◌, ◌^◌, IfOk, position, ◌==◌, not, filter, bytes_eq};
ghost use Rattle.std.specs.List.{list_any};
ghost use Rattle.pla.specs.Lines.{is_blank, is_row_blank, is_keyword_line, words, is_empty, row_code, keyword_code, keyword};
ghost use Rattle.pla.specs.Keywords.{texts, number_within};

use memchr::memchr;
use std::alloc::{AllocError, Global};

/// Whether the byte is a blank in any line: a space, tab, vertical tab, form feed or carriage
/// return.
pub fn blank(b: u8) -> bool
    ensures { result ≡ is_blank b }
{
    matches!(b, b' ' | b'\t' | 11 | 12 | b'\r')
}

/// Whether the byte is a blank in a row line, where a bar is one too.
pub fn row_blank(b: u8) -> bool
    ensures { result ≡ is_row_blank b }
{
    blank(b) || b == b'|'
}

/// Whether the line is a keyword line: its first byte that is no blank is a dot.
pub fn begins_keyword(line: &[u8]) -> bool
    ensures { result ≡ is_keyword_line line.now }
{
    for b in line {
        if !blank(*b) {
            return *b == b'.';
        }
    }
    false
}

/// The words of a line: what stands between blanks.
pub fn words_of(alloc: Global, line: &[u8]) -> Result<Vec<&[u8]>, AllocError>
    ensures { IfOk result (λ v. texts v.items ≡ words line.now) }
{
    line.split(|b| blank(*b))
        .filter(|word| !word.is_empty())
        .collect(alloc)
}

/// Whether a word is this text.
pub(crate) fn is(word: &[u8], text: &[u8]) -> bool
    ensures { result ≡ bytes_eq word.now text.now }
{
    word == text
}

/// Whether a row line's code has a byte that is no blank of a row line.
pub fn has_symbol(code: &[u8]) -> bool
    ensures { result ≡ list_any (λ b. not (is_row_blank b)) code.now }
{
    for b in code {
        if !row_blank(*b) {
            return true;
        }
    }
    false
}

/// The decimal number that the words are, if they are one word of digits alone and the number is
/// from `low` to `high`; it may have leading zeros.
pub fn number_in(low: usize, high: usize, words: &[&[u8]]) -> Option<usize>
    requires { high < 2 ^ 32 }
    ensures { result ≡ number_within low high (texts words.now) }
{
    let [word] = words else {
        return None;
    };
    let mut number: usize = 0;
    for b in *word {
        if !b.is_ascii_digit() {
            return None;
        }
        number = number
            .saturating_mul(10)
            .saturating_add((*b - b'0') as usize);
    }
    if low <= number && number <= high {
        Some(number)
    } else {
        None
    }
}

/// The index of the first `#`; `None` if there is none.
fn comment_at(line: &[u8]) -> Option<usize>
    ensures { result ≡ position (λ b. b == 35) line.now }
{
    memchr(b'#', line)
}

/// The code of a row line: what stands before the first `#`; the whole line if it has none.
pub fn row_code_of(line: &[u8]) -> &[u8]
    ensures { result.now ≡ row_code line.now }
{
    match comment_at(line) {
        Some(end) if end <= line.len() => &line[..end],
        _ => line,
    }
}

/// The code of a keyword line: what stands before the first `#` that follows a blank; the whole
/// line if it has none.
pub fn keyword_code_of(line: &[u8]) -> &[u8]
    ensures { result.now ≡ keyword_code line.now }
{
    for (i, b) in line.iter().enumerate() {
        if i > 0 && *b == b'#' && blank(line[i - 1]) {
            return &line[..i];
        }
    }
    line
}

/// The first word of a code; empty if it has none.
fn first_word(code: &[u8]) -> &[u8]
    ensures { result.now ≡ slice_index_or (words code.now) 0 [] }
{
    match code.split(|b| blank(*b)).find(|word| !word.is_empty()) {
        Some(word) => word,
        None => &[],
    }
}

/// The keyword with its dot: empty if the line has none.
pub fn keyword_of(line: &[u8]) -> &[u8]
    ensures { result.now ≡ keyword line.now }
{
    if begins_keyword(line) {
        first_word(keyword_code_of(line))
    } else {
        &[]
    }
}
