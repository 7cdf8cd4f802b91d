//! The words of a text, and the lists that they stand in.

ghost use Rattle.std.specs.Prelude.{◌≡◌, ◌+◌, ◌<◌, ◌^◌, suc, IfOk, IfSome, MatchOption, Ok, Some, drop, map, slice_get};
ghost use Rattle.hddl_words.specs.Faults.{Leads, LeadsBy};
ghost use Rattle.hddl_words.specs.Words as spec;
ghost use Rattle.hddl_words.specs.Words.{word_of};
ghost use Rattle.hddl_words.specs.declared.token.Kind.TheVariants as kinds;
ghost use Rattle.text_messages.specs.Notes.{HasTwins, IsFirstTwin};

use hddl_words::{Kind, TextFault, Token, is_same, lex};
use std::alloc::{AllocError, Global};

/// The words of a text, or none where they have a fault.
pub(crate) fn words_or_none<'a>(
    alloc: Global,
    text: &'a [u8],
) -> Result<Vec<Token<'a>>, AllocError> {
    match lex(alloc, text) {
        Ok(words) => Ok(words),
        Err(TextFault::OutOfMemory) => Err(AllocError),
        Err(_) => Ok(Vec::new(alloc)),
    }
}

/// The words of a text, or none where they have a fault.
pub(crate) fn lexed<'a>(alloc: Global, text: &'a [u8]) -> Result<Option<Vec<Token<'a>>>, AllocError>
    ensures { IfOk result (λ found. IfSome found (λ tokens. spec.words text.now ≡ Ok (map word_of tokens.items))) }
{
    match lex(alloc, text) {
        Ok(words) => Ok(Some(words)),
        Err(TextFault::OutOfMemory) => Err(AllocError),
        Err(_) => Ok(None),
    }
}

/// The word of an index.
pub(crate) fn token_at<'b, 'a>(words: &'b [Token<'a>], index: usize) -> Option<&'b Token<'a>>
    ensures { IfSome result (λ w. slice_get (map word_of words.now) index ≡ Some (word_of w.now)) }
{
    words.get(index)
}

/// How many brackets are open after one word more; none where it closes none.
fn next_open(kind: Kind, depth: usize) -> Option<usize>
    ensures { IfSome result (λ next. LeadsBy kind depth (λ n. n ≡ next)) }
{
    match kind {
        Kind::Open => depth.checked_add(1),
        Kind::Close => depth.checked_sub(1),
        _ => Some(depth),
    }
}

/// How many brackets are open after some words; none where one closes none.
#[tactic(auto, using(crate::proofs::Leading::leads_more))]
pub(crate) fn open_after(words: &[Token<'_>]) -> Option<usize>
    ensures { IfSome result (Leads 0 (map word_of words.now)) }
{
    let mut depth: usize = 0;
    for word in words {
        depth = next_open(word.kind, depth)?;
    }
    Some(depth)
}

/// The index of the word at a place, or how many words there are.
pub(crate) fn index_at(words: &[Token<'_>], place: usize) -> usize {
    words
        .iter()
        .position(|word| word.place == place)
        .unwrap_or(words.len())
}

/// The word at a place, with its index.
pub(crate) fn found_at<'b, 'a>(
    words: &'b [Token<'a>],
    place: usize,
) -> Option<(usize, &'b Token<'a>)>
    ensures { IfSome result (λ f. (slice_get (map word_of words.now) f.0 ≡ Some (word_of f.1.now)) × (f.1.now.place ≡ place)) }
{
    let index = index_at(words, place);
    let word = token_at(words, index)?;
    if word.place != place {
        return None;
    }
    Some((index, word))
}

/// How many brackets have to be open before a word so that this many are open after it; none before an opening bracket
/// where none are.
fn open_before(kind: Kind, after: usize) -> Option<usize>
    requires { after + 1 < 2 ^ 64 }
    ensures { MatchOption result ((kind ≡ kinds.Open) × (after ≡ 0)) (λ before. LeadsBy kind before (λ n. n ≡ after)) }
{
    match kind {
        Kind::Open => after.checked_sub(1),
        Kind::Close => Some(after + 1),
        _ => Some(after),
    }
}

/// The first of the words with this text in the list that is open after some words, from an index on, where those after
/// it have that one, the word there is this one, and this many brackets are open before it.
fn twin_with(
    words: &[Token<'_>],
    text: &[u8],
    index: usize,
    word: &Token<'_>,
    depth: usize,
    found: Option<usize>,
) -> Option<usize>
    requires { slice_get (map word_of words.now) index ≡ Some (word_of word.now) }
    ensures { Leads depth (drop index (map word_of words.now)) 0 → HasTwins (map word_of words.now) text.now (suc index) found → HasTwins (map word_of words.now) text.now index result }
{
    if depth > 0 {
        return found;
    }
    if is_same(word.text, text) {
        return Some(index);
    }
    found
}

/// The index of the first word with this text in the list that is open after some words.
pub(crate) fn first_twin(words: &[Token<'_>], text: &[u8]) -> Option<usize>
    ensures { IfSome result (IsFirstTwin (map word_of words.now) text.now) }
{
    let mut found: Option<usize> = None;
    let mut depth: usize = 0;
    let mut index = words.len();
    while index > 0 {
        index -= 1;
        if depth >= usize::MAX {
            return None;
        }
        let Some(word) = token_at(words, index) else {
            return None;
        };
        let Some(before) = open_before(word.kind, depth) else {
            return found;
        };
        depth = before;
        found = twin_with(words, text, index, word, depth, found);
    }
    found
}
