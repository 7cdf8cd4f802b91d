//! A domain and a problem, as texts and as trees.

ghost use Rattle.std.specs.Prelude.{◌≡◌, ◌≤◌, length};
ghost use Rattle.std.specs.List.{prefix_len};
ghost use Rattle.hddl_words.specs.Word.{is_word_byte as is_word};
ghost use Rattle.pair_messages.specs.Heads as spec;
ghost use Rattle.pair_messages.specs.Heads.{word_from};

use diagnostics::{Source, Spot};
use hddl_meaning::{At, CheckFault, Source as Side};
use hddl_words::{DomainText, ProblemText};

/// A domain, with a problem or alone. A domain alone has an empty problem's tree.
#[derive(Clone, Copy, Drop)]
pub struct PairTexts<'a> {
    pub domain: &'a Source<'a>,
    pub problem: Option<&'a Source<'a>>,
    pub domain_tree: &'a DomainText,
    pub problem_tree: &'a ProblemText,
}

/// Where a fault stands, unless memory was refused.
pub(crate) fn at_of(fault: CheckFault) -> Option<At>
    ensures { result ≡ spec.at_of fault }
{
    match fault {
        CheckFault::Duplicate(at)
        | CheckFault::UnknownType(at)
        | CheckFault::TypeCycle(at)
        | CheckFault::UnknownName(at)
        | CheckFault::Arity(at)
        | CheckFault::TypeClash(at)
        | CheckFault::OrderCycle(at)
        | CheckFault::UnknownSubtask(at)
        | CheckFault::TooMany(at) => Some(at),
        CheckFault::OutOfMemory => None,
    }
}

/// The problem's text, or the domain's where there is no problem.
fn problem_of<'a>(texts: &PairTexts<'a>) -> &'a Source<'a>
    ensures { result.now ≡ spec.problem_text texts.now }
{
    match texts.problem {
        Some(problem) => problem,
        None => texts.domain,
    }
}

/// The text of a side, or the domain's where there is no problem.
fn source_of<'a>(texts: &PairTexts<'a>, side: Side) -> &'a Source<'a>
    ensures { result.now ≡ spec.text_of texts.now side }
{
    match side {
        Side::Domain => texts.domain,
        Side::Problem => problem_of(texts),
    }
}

/// A byte of a word other than a bracket.
fn is_word_byte(byte: u8) -> bool
    ensures { result ≡ is_word byte }
{
    33 <= byte && byte <= 126 && !(byte == b'(' || byte == b')' || byte == b';')
}

/// How many bytes the word at the front has; none at a bracket or at the end.
fn word_len(bytes: &[u8]) -> usize
    ensures value { result ≡ prefix_len is_word bytes.now }
    ensures within { result ≤ length bytes.now }
{
    let mut len = 0;
    while len < bytes.len() && is_word_byte(bytes[len]) {
        len += 1;
    }
    len
}

/// The word that begins at a place; of a bracket or at the end no bytes.
fn word_at<'a>(source: &'a Source<'a>, place: usize) -> &'a [u8]
    ensures { result.now ≡ word_from source.now place }
{
    let text = source.lines.text();
    let rest = &text[place.min(text.len())..];
    &rest[..word_len(rest)]
}

/// The word at a place of a pair.
pub(crate) fn word_of<'a>(texts: &PairTexts<'a>, at: At) -> &'a [u8]
    ensures { result.now ≡ word_from (spec.text_of texts.now at.source) at.place }
{
    word_at(source_of(texts, at.source), at.place)
}

/// A place with the length of the word there, 1 at a bracket. What stands past the end of the text is its end.
fn spot_at<'a>(source: &'a Source<'a>, place: usize) -> Spot<'a>
    ensures { spec.IsSpotAt source.now place result }
{
    let len = source.lines.text().len();
    Spot {
        source,
        place: place.min(len),
        word_len: word_at(source, place).len().max(1),
    }
}

/// A word of a pair that begins at a place; of a place past the end of the text the end. Without a problem the domain's
/// text stands for its text.
pub fn spot_of<'a>(texts: &PairTexts<'a>, at: At) -> Spot<'a>
    ensures { spec.IsSpotAt (spec.text_of texts.now at.source) at.place result }
{
    spot_at(source_of(texts, at.source), at.place)
}

/// A place of a pair that is underlined for a number of bytes.
pub(crate) fn wide_spot<'a>(texts: &PairTexts<'a>, at: At, word_len: usize) -> Spot<'a>
    ensures { spec.IsSpotAt (spec.text_of texts.now at.source) at.place result }
{
    let spot = spot_of(texts, at);
    Spot {
        source: spot.source,
        place: spot.place,
        word_len,
    }
}
