//! Messages about a word that can't be where it is.

use crate::candidates::{Candidates, expected};
use crate::instead::instead_of;
use crate::said::{Said, plain, plain_words};
use crate::spots::{spot_at, word_at};
use crate::words::{first_twin, index_at, open_after, words_or_none};
use diagnostics::{Part, Role, Source};
use hddl_words::{Kind, Token, is_same};
use std::alloc::{AllocError, Global};

/// The most words that are said to be expected.
const SHOWN: usize = 8;

/// A place that the grammar refuses, and what it would have there.
struct RefusedPlace<'a> {
    source: &'a Source<'a>,
    /// The bytes of the word at the place; none at the end of the text.
    word: &'a [u8],
    /// The words before it.
    before: Vec<Token<'a>>,
    /// How many brackets are open there.
    open: usize,
    /// What may stand there: a word of each class, and keywords.
    expected: Candidates,
}

impl Drop for RefusedPlace<'_> {
    fn drop(self) {
        let RefusedPlace {
            source: _,
            word: _,
            before: _,
            open: _,
            expected: _,
        } = self;
    }
}

/// Looks at a place that is refused.
fn refused_place<'a>(
    alloc: Global,
    source: &'a Source<'a>,
    place: usize,
) -> Result<RefusedPlace<'a>, AllocError> {
    let text = source.lines.text();
    let mut before = words_or_none(alloc, text)?;
    let index = index_at(before.as_slice(), place);
    before.truncate(index);
    let open = open_after(before.as_slice()).unwrap_or(0);
    let front = &text[..place.min(text.len())];
    let expected = expected(alloc, source.role, front, open)?;
    Ok(RefusedPlace {
        source,
        word: word_at(source, place),
        before,
        open,
        expected,
    })
}

/// Whether a word is among these.
fn has(words: &[&'static [u8]], word: &[u8]) -> bool {
    words.iter().any(|one| *one == word)
}

/// Whether a word is a keyword.
pub(crate) fn is_keyword(word: &[u8]) -> bool {
    matches!(word, [b':', _, ..])
}

/// How a word that may stand somewhere is named, where it is named among these.
fn named(word: &'static [u8], expected: &[&'static [u8]]) -> Option<Part<'static>> {
    match word {
        b":any" => None,
        b"a-name" => Some(Part::Words("a name")),
        b"?x" => Some(Part::Words("a variable")),
        // These are names where any name may stand.
        b"define" | b"domain" | b"problem" if has(expected, b"a-name") => None,
        _ => Some(Part::Name(word)),
    }
}

/// The words that may stand at a place as they are named: each once, keywords last.
fn names_of(alloc: Global, expected: &Candidates) -> Result<Vec<Part<'static>>, AllocError> {
    let words = expected.words.as_slice();
    let mut names = Vec::new(alloc);
    for word in words {
        if let Some(name) = named(*word, words) {
            names.push(name)?;
        }
    }
    if has(words, b":any") {
        names.push(Part::Words("a keyword"))?;
        return Ok(names);
    }
    for keyword in expected.keywords.as_slice() {
        names.push(Part::Name(*keyword))?;
    }
    Ok(names)
}

/// `A`, `A or B`, `A, B or C`, after other words.
fn add_listed<'a>(
    message: &mut Vec<Part<'a>>,
    names: &[Part<'a>],
    last: &'static str,
) -> Result<(), AllocError> {
    let mut left = names.len();
    for name in names {
        if left < names.len() {
            message.push(Part::Words(if left == 1 { last } else { ", " }))?;
        }
        message.push(*name)?;
        left = left.saturating_sub(1);
    }
    Ok(())
}

/// The words that may stand at a place as they are named: eight at most, and then `...`.
fn shown_names(alloc: Global, expected: &Candidates) -> Result<Vec<Part<'static>>, AllocError> {
    let mut names = names_of(alloc, expected)?;
    if names.len() > SHOWN {
        names.truncate(SHOWN);
        names.extend_from_slice(&[Part::Words("...")])?;
    }
    Ok(names)
}

/// `expected A or B`.
fn expectation_of<'a>(alloc: Global, names: &[Part<'a>]) -> Result<Vec<Part<'a>>, AllocError> {
    let first = if names.is_empty() {
        "expected nothing"
    } else {
        "expected "
    };
    let mut message = vec![in alloc; Part::Words(first)]?;
    add_listed(&mut message, names, " or ")?;
    Ok(message)
}

/// `expected A or B`: eight at most, and then `...`.
fn expectation<'a>(alloc: Global, expected: &Candidates) -> Result<Vec<Part<'a>>, AllocError> {
    let names = shown_names(alloc, expected)?;
    expectation_of(alloc, names.as_slice())
}

/// Whether what may stand at a place wasn't looked for: something may wherever a bracket is open.
fn is_unknown(refusal: &RefusedPlace<'_>) -> bool {
    refusal.expected.is_empty() && refusal.open > 0
}

/// The label beside the carets: the words that may be there, if they are known.
fn label_of<'a>(alloc: Global, refusal: &RefusedPlace<'a>) -> Result<Vec<Part<'a>>, AllocError> {
    if is_unknown(refusal) {
        return Ok(Vec::new(alloc));
    }
    expectation(alloc, &refusal.expected)
}

/// A word that the language has not.
fn left_out<'a>(alloc: Global, word: &'a [u8]) -> Result<Said<'a>, AllocError> {
    plain(
        alloc,
        &[
            Part::Name(word),
            Part::Words(" is not in the language that htnplan reads"),
        ],
    )
}

/// The label beside the carets of a place that is refused.
fn label_at<'a>(
    alloc: Global,
    source: &'a Source<'a>,
    place: usize,
) -> Result<Vec<Part<'a>>, AllocError> {
    let refusal = refused_place(alloc, source, place)?;
    label_of(alloc, &refusal)
}

/// A word that means what the language leaves out, with a label.
fn unsupported_word<'a>(
    alloc: Global,
    word: &'a [u8],
    label: &[Part<'a>],
) -> Result<Said<'a>, AllocError> {
    if matches!(word, b"(") {
        return plain_words(alloc, "a bracket can't stand here")?
            .labelled(alloc, label)?
            .helped_by(
                alloc,
                "if this is `either`: declare a type above both in `:types`, and name that",
            );
    }
    left_out(alloc, word)?.labelled(alloc, label)
}

/// A word that means what the language leaves out, where these keywords may be meant.
pub(crate) fn unsupported<'a>(
    alloc: Global,
    source: &'a Source<'a>,
    place: usize,
    is_near: bool,
) -> Result<Said<'a>, AllocError> {
    let word = word_at(source, place);
    if is_near {
        return plain(alloc, &[Part::Words("unknown keyword "), Part::Name(word)]);
    }
    if let Some(instead) = instead_of(source.role, word) {
        return left_out(alloc, word)?.helped_by(alloc, instead);
    }
    let label = label_at(alloc, source, place)?;
    unsupported_word(alloc, word, label.as_slice())
}

/// A problem where a domain is wanted, or the other way round.
fn exchanged<'a>(
    alloc: Global,
    refusal: &RefusedPlace<'a>,
) -> Result<Option<Said<'a>>, AllocError> {
    let (is, wanted): (&str, &str) = match refusal.source.role {
        Role::Domain if is_same(refusal.word, b"problem") => ("problem", "domain"),
        Role::Problem if is_same(refusal.word, b"domain") => ("domain", "problem"),
        _ => return Ok(None),
    };
    // `(define (` stands before the word.
    if refusal.before.len() != 3 {
        return Ok(None);
    }
    let said = plain(
        alloc,
        &[
            Part::Words("this text is a "),
            Part::Words(is),
            Part::Words(", and a "),
            Part::Words(wanted),
            Part::Words(" is wanted"),
        ],
    )?
    .helped_by(alloc, "are the two files exchanged?")?;
    Ok(Some(said))
}

/// Where the first word like the refused one stands in its list.
fn first_like(refusal: &RefusedPlace<'_>) -> Option<usize> {
    let words = refusal.before.as_slice();
    let index = first_twin(words, refusal.word)?;
    let first = words.get(index)?;
    Some(first.place)
}

/// That a word can't stand where it does.
fn cannot_stand<'a>(alloc: Global, word: &'a [u8]) -> Result<Said<'a>, AllocError> {
    plain(alloc, &[Part::Name(word), Part::Words(" can't stand here")])
}

/// A keyword that can't stand somewhere, or stands there a second time.
fn misplaced_keyword<'a>(
    alloc: Global,
    refusal: &RefusedPlace<'a>,
) -> Result<Said<'a>, AllocError> {
    if let Some(place) = first_like(refusal) {
        let spot = spot_at(refusal.source, place);
        return plain(
            alloc,
            &[
                Part::Name(refusal.word),
                Part::Words(" stands here a second time"),
            ],
        )?
        .noted_by(alloc, spot, "the first one");
    }
    let label = label_of(alloc, refusal)?;
    cannot_stand(alloc, refusal.word)?.labelled(alloc, label.as_slice())
}

/// Whether some word is this one.
fn has_word(words: &[Token<'_>], text: &[u8]) -> bool {
    words.iter().any(|word| is_same(word.text, text))
}

/// A problem that has no domain or no network.
fn unfinished_problem<'a>(
    alloc: Global,
    refusal: &RefusedPlace<'a>,
) -> Result<Option<Said<'a>>, AllocError> {
    let words = refusal.before.as_slice();
    let (has_domain, has_htn) = (has_word(words, b":domain"), has_word(words, b":htn"));
    let missing = match (has_domain, has_htn) {
        (false, false) => "this problem has no `(:domain ..)` and no `(:htn ..)`",
        (false, true) => "this problem has no `(:domain ..)`",
        (true, false) => "this problem has no `(:htn ..)`",
        (true, true) => return Ok(None),
    };
    let said = plain_words(alloc, missing)?;
    if has_htn {
        return Ok(Some(said));
    }
    let said = said.helped_by(
        alloc,
        "a problem without `:htn` is one for a classical planner",
    )?;
    Ok(Some(said))
}

/// A closing bracket before something that is required.
fn unfinished<'a>(
    alloc: Global,
    refusal: &RefusedPlace<'a>,
) -> Result<Option<Said<'a>>, AllocError> {
    if !matches!(refusal.word, b")") {
        return Ok(None);
    }
    match (refusal.source.role, refusal.open) {
        (Role::Problem, 1) => unfinished_problem(alloc, refusal),
        (Role::Domain, 2) if has(refusal.expected.keywords.as_slice(), b":task") => {
            let said = plain_words(
                alloc,
                "this method doesn't say which task it decomposes",
            )?.labelled_by(alloc, "`:task` is missing")?;
            Ok(Some(said))
        }
        _ => Ok(None),
    }
}

/// A word where others are expected.
fn found_instead<'a>(alloc: Global, refusal: &RefusedPlace<'a>) -> Result<Said<'a>, AllocError> {
    let found = if refusal.word.is_empty() {
        Part::Words("the end of the text")
    } else {
        Part::Name(refusal.word)
    };
    let mut message = expectation(alloc, &refusal.expected)?;
    message.extend_from_slice(&[Part::Words(", found "), found])?;
    plain(alloc, message.as_slice())
}

/// A word that the grammar has not at a refused place.
fn not_expected_at<'a>(alloc: Global, refusal: &RefusedPlace<'a>) -> Result<Said<'a>, AllocError> {
    if let Some(said) = exchanged(alloc, refusal)? {
        return Ok(said);
    }
    if is_keyword(refusal.word) {
        return misplaced_keyword(alloc, refusal);
    }
    if let Some(said) = unfinished(alloc, refusal)? {
        return Ok(said);
    }
    if is_unknown(refusal) {
        return cannot_stand(alloc, refusal.word);
    }
    found_instead(alloc, refusal)
}

/// A word that the grammar has not where it stands.
pub(crate) fn not_expected<'a>(
    alloc: Global,
    source: &'a Source<'a>,
    place: usize,
) -> Result<Said<'a>, AllocError> {
    let refusal = refused_place(alloc, source, place)?;
    not_expected_at(alloc, &refusal)
}
