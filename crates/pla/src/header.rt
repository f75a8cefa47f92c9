//! What the keyword lines so far have set (`.i`, `.o`, `.ilb`, `.ob`, `.type`), and the tests of
//! the next line against it, in the order of their faults.
ghost use Rattle.std.specs.Prelude.{◌≡◌, ℕ, ◌<◌, ◌≤◌, [], ◌∷◌, IfOk, OnOk, OnErr, Some, None, List, slice_index_or, drop, false};
ghost use Rattle.std.specs.Option.{ForSome};
ghost use Rattle.cube.specs.Limits.{format_limits};
ghost use Rattle.pla.specs.Keywords.{texts, is_one_of, endings, refused_keywords, type_by};
ghost use Rattle.pla.specs.Lines.{keyword as keyword_on, arguments as arguments_on};
ghost use Rattle.pla.specs.Fault.{differs_count, is_too_long, is_inside_row, is_bad_number, is_bad_type};
ghost use Rattle.pla.specs.Header.{Header};
ghost use Rattle.pla.specs.Names.{name_bytes};

use crate::fault::ReadKind;
use crate::file_type::FileType;
use crate::line::{is, number_in};
use cube::Shape;
use cube::limits::{INPUTS, LINE_BYTES, LINES, OUTPUTS};
use std::alloc::{AllocError, Global};

/// What the lines so far have set; none of them had a fault.
#[derive(Drop)]
pub struct Head {
    /// How many lines were taken, row lines too.
    pub lines: u64,
    /// The number that `.i` gave.
    pub inputs: Option<usize>,
    /// The number that `.o` gave.
    pub outputs: Option<usize>,
    /// The names that `.ilb` gave, in order.
    pub input_names: Option<Vec<Vec<u8>>>,
    /// The names that `.ob` gave, in order.
    pub output_names: Option<Vec<Vec<u8>>>,
    /// The type that `.type` gave.
    pub file_type: Option<FileType>,
    /// Whether a row line had a symbol.
    pub has_symbols: bool,
    /// Whether a line has ended the description.
    pub ended: bool,
    ghost inputs_fit: { ForSome inputs (λ n. n ≤ 1024) },
    ghost outputs_fit: { ForSome outputs (λ m. (1 ≤ m) × (m ≤ 1024)) },
    ghost lines_fit: { lines ≤ 16777216 },
}

/// The keyword of a keyword line's words, the first of them; empty if there are none.
fn keyword_in<'a>(words: &[&'a [u8]]) -> &'a [u8]
    ensures { result.now ≡ slice_index_or (texts words.now) 0 [] }
{
    match words.first() {
        Some(word) => *word,
        None => &[],
    }
}

/// The words after the keyword, which is the first.
fn arguments_in<'a, 'b>(words: &'b [&'a [u8]]) -> &'b [&'a [u8]]
    ensures { texts result.now ≡ drop 1 (texts words.now) }
{
    if words.is_empty() { words } else { &words[1..] }
}

/// Whether the count differs from the number wanted; `false` if none is wanted.
fn is_other_count(count: usize, wanted: Option<usize>) -> bool
    ensures { result ≡ differs_count count wanted }
{
    match wanted {
        Some(n) => count != n,
        None => false,
    }
}

/// The type that a word names; `None` unless it is `f`, `fd`, `fr` or `fdr`.
fn file_type_named(word: &[u8]) -> Option<FileType>
    ensures { result ≡ type_by (word.now ∷ []) }
{
    if is(word, b"f") {
        Some(FileType::F)
    } else if is(word, b"fd") {
        Some(FileType::Fd)
    } else if is(word, b"fr") {
        Some(FileType::Fr)
    } else if is(word, b"fdr") {
        Some(FileType::Fdr)
    } else {
        None
    }
}

/// The type that the words name; `None` unless they are one word that names one.
fn file_type_of(words: &[&[u8]]) -> Option<FileType>
    ensures { result ≡ type_by (texts words.now) }
{
    let [word] = words else {
        return None;
    };
    file_type_named(word)
}

/// The words as names: copies of them.
fn names_of(alloc: Global, words: &[&[u8]]) -> Result<Vec<Vec<u8>>, AllocError>
    ensures { IfOk result (λ names. name_bytes names.items ≡ texts words.now) }
{
    let mut names = Vec::with_capacity(alloc, words.len())?;
    for word in words {
        names.push(Vec::from_slice(alloc, word)?)?;
    }
    Ok(names)
}

/// Whether the keyword ends the description: `.e` or `.end`.
pub fn is_end(keyword: &[u8]) -> bool
    ensures { result ≡ is_one_of endings keyword.now }
{
    is(keyword, b".e") || is(keyword, b".end")
}

/// Whether the keyword is one that this format refuses.
pub(crate) fn is_refused_keyword(keyword: &[u8]) -> bool
    ensures { result ≡ is_one_of refused_keywords keyword.now }
{
    is(keyword, b".mv")
        || is(keyword, b".label")
        || is(keyword, b".phase")
        || is(keyword, b".pair")
        || is(keyword, b".symbolic")
        || is(keyword, b".symbolic-output")
        || is(keyword, b".kiss")
}

/// Whether a line has more bytes than the limit.
#[tactic(auto, unfolding(crate::specs::Fault::is_too_long))]
pub(crate) fn too_long(line: &[u8]) -> bool
    ensures { (header : Header) → result ≡ is_too_long format_limits header line.now }
{
    line.len() > LINE_BYTES
}

/// Whether the keyword stands inside a row, of which `unfinished` symbols are there. The empty one,
/// `.e` and `.end` do not count.
#[tactic(auto, unfolding(crate::specs::Fault::is_inside_row))]
fn inside_row(unfinished: usize, keyword: &[u8]) -> bool
    ensures { (header : Header) → (line : List ℕ) → header.unfinished ≡ unfinished
        → keyword.now ≡ keyword_on line → result ≡ is_inside_row header line }
{
    !keyword.is_empty() && !is_end(keyword) && unfinished > 0
}

/// Whether the keyword is .i or .o without exactly one number in its range.
#[tactic(auto, unfolding(crate::specs::Fault::is_bad_number))]
fn bad_number(keyword: &[u8], arguments: &[&[u8]]) -> bool
    ensures { (header : Header) → (line : List ℕ) → keyword.now ≡ keyword_on line
        → texts arguments.now ≡ arguments_on line
        → result ≡ is_bad_number format_limits header line }
{
    is(keyword, b".i") && number_in(0, INPUTS, arguments).is_none()
        || is(keyword, b".o") && number_in(1, OUTPUTS, arguments).is_none()
}

/// Whether the keyword is .type without exactly one name of a type.
#[tactic(auto, unfolding(crate::specs::Fault::is_bad_type))]
fn bad_type(keyword: &[u8], arguments: &[&[u8]]) -> bool
    ensures { (header : Header) → (line : List ℕ) → keyword.now ≡ keyword_on line
        → texts arguments.now ≡ arguments_on line
        → result ≡ is_bad_type header line }
{
    is(keyword, b".type") && file_type_of(arguments).is_none()
}

impl Head {
    ghost use Rattle.pla.specs.Lines.{keyword_words};
    ghost use Rattle.pla.specs.Fault.{is_past_limit, is_repeated, is_name_too_early, is_wrong_count, is_type_too_late};
    ghost use Rattle.pla.specs.Header.{header_of, size_in, type_in};
    ghost use Rattle.pla.specs.HeadView.{seen, keyword_fault, with_keyword};

    /// No line yet.
    pub fn new() -> Head
        ensures { seen result 0 ≡ header_of format_limits [] }
    {
        Head {
            lines: 0,
            inputs: None,
            outputs: None,
            input_names: None,
            output_names: None,
            file_type: None,
            has_symbols: false,
            ended: false,
        }
    }

    /// The shape, once both numbers are given.
    pub fn shape(&self) -> Option<Shape>
        ensures { (unfinished : ℕ) → result ≡ size_in (seen self.now unfinished) }
    {
        match (self.inputs, self.outputs) {
            (Some(inputs), Some(outputs)) => Shape::new(inputs, outputs),
            _ => None,
        }
    }

    /// The type of the file's rows: fd if no line has given one.
    pub fn file_type_or_fd(&self) -> FileType
        ensures { (unfinished : ℕ) → result ≡ type_in (seen self.now unfinished) }
    {
        self.file_type.unwrap_or(FileType::Fd)
    }

    /// Whether as many lines were taken as may be, so that the next one is past the limit.
    #[tactic(auto, unfolding(crate::specs::Fault::is_past_limit))]
    pub fn past_limit(&self) -> bool
        ensures value { (unfinished : ℕ) → (line : List ℕ)
            → result ≡ is_past_limit format_limits (seen self.now unfinished) line }
        ensures room { result ≡ false → self.now.lines < 16777216 }
    {
        self.lines >= LINES
    }

    /// Whether the keyword is that of a setting that is given already.
    #[tactic(auto, unfolding(crate::specs::Fault::is_repeated))]
    fn is_repeated(&self, keyword: &[u8]) -> bool
        ensures { (unfinished : ℕ) → (line : List ℕ) → keyword.now ≡ keyword_on line
            → result ≡ is_repeated (seen self.now unfinished) line }
    {
        is(keyword, b".i") && self.inputs.is_some()
            || is(keyword, b".o") && self.outputs.is_some()
            || is(keyword, b".ilb") && self.input_names.is_some()
            || is(keyword, b".ob") && self.output_names.is_some()
            || is(keyword, b".type") && self.file_type.is_some()
    }

    /// Whether the keyword is .ilb or .ob, and .i or .o has not given its number yet.
    #[tactic(auto, unfolding(crate::specs::Fault::is_name_too_early))]
    fn name_too_early(&self, keyword: &[u8]) -> bool
        ensures { (unfinished : ℕ) → (line : List ℕ) → keyword.now ≡ keyword_on line
            → result ≡ is_name_too_early (seen self.now unfinished) line }
    {
        (is(keyword, b".ilb") || is(keyword, b".ob"))
            && (self.inputs.is_none() || self.outputs.is_none())
    }

    /// Whether the keyword is .ilb with more or fewer names than inputs, or .ob than outputs;
    /// `false` if that number is not given.
    #[tactic(auto, unfolding(crate::specs::Fault::is_wrong_count))]
    fn wrong_count(&self, keyword: &[u8], arguments: &[&[u8]]) -> bool
        ensures { (unfinished : ℕ) → (line : List ℕ) → keyword.now ≡ keyword_on line
            → texts arguments.now ≡ arguments_on line
            → result ≡ is_wrong_count (seen self.now unfinished) line }
    {
        let count = arguments.len();
        is(keyword, b".ilb") && is_other_count(count, self.inputs)
            || is(keyword, b".ob") && is_other_count(count, self.outputs)
    }

    /// Whether the keyword is .type, and a row line had a symbol before.
    #[tactic(auto, unfolding(crate::specs::Fault::is_type_too_late))]
    fn type_too_late(&self, keyword: &[u8]) -> bool
        ensures { (unfinished : ℕ) → (line : List ℕ) → keyword.now ≡ keyword_on line
            → result ≡ is_type_too_late (seen self.now unfinished) line }
    {
        is(keyword, b".type") && self.has_symbols
    }

    /// The first fault of a keyword line with these words, before which a row has `unfinished`
    /// symbols; `None` if it has none.
    #[tactic(auto, unfolding(crate::specs::HeadView::keyword_fault, crate::specs::Fault::is_refused))]
    pub fn keyword_fault(&self, unfinished: usize, words: &[&[u8]]) -> Option<ReadKind>
        ensures { (line : List ℕ) → texts words.now ≡ keyword_words line
            → result ≡ keyword_fault format_limits (seen self.now unfinished) line }
    {
        let keyword = keyword_in(words);
        let arguments = arguments_in(words);
        if is_refused_keyword(keyword) {
            return Some(ReadKind::RefusedKeyword);
        }
        if inside_row(unfinished, keyword) {
            return Some(ReadKind::KeywordInsideRow);
        }
        if self.is_repeated(keyword) {
            return Some(ReadKind::KeywordRepeated);
        }
        if bad_number(keyword, arguments) {
            return Some(ReadKind::BadNumber);
        }
        if self.name_too_early(keyword) {
            return Some(ReadKind::NamesBeforeShape);
        }
        if self.wrong_count(keyword, arguments) {
            return Some(ReadKind::WrongNumberOfNames);
        }
        if self.type_too_late(keyword) {
            return Some(ReadKind::TypeAfterRow);
        }
        if bad_type(keyword, arguments) {
            return Some(ReadKind::BadType);
        }
        None
    }

    /// Sets what a keyword line of these words gives; it has no fault. An unknown keyword sets
    /// nothing, and neither does any if memory is refused.
    pub fn set(&mut self, alloc: Global, words: &[&[u8]]) -> Result<(), AllocError>
        ensures ok { OnOk result
            ((unfinished : ℕ) → (line : List ℕ) → texts words.now ≡ keyword_words line
            → seen self.new unfinished
            ≡ with_keyword format_limits (seen self.old unfinished) line) }
        ensures err { OnErr result
            ((unfinished : ℕ) → seen self.new unfinished ≡ seen self.old unfinished) }
        ensures lines { self.new.lines ≡ self.old.lines }
    {
        let keyword = keyword_in(words);
        let arguments = arguments_in(words);
        if is(keyword, b".i") {
            self.inputs = number_in(0, INPUTS, arguments);
        } else if is(keyword, b".o") {
            self.outputs = number_in(1, OUTPUTS, arguments);
        } else if is(keyword, b".ilb") {
            self.input_names = Some(names_of(alloc, arguments)?);
        } else if is(keyword, b".ob") {
            self.output_names = Some(names_of(alloc, arguments)?);
        } else if is(keyword, b".type") {
            self.file_type = file_type_of(arguments);
        } else {
            self.ended = is_end(keyword);
        }
        Ok(())
    }
}
