//! Where notes stand: each place is looked up in the words of the text again, so no contract rests on how it was found.

ghost use Rattle.std.specs.Prelude.{◌≡◌, ◌≢◌, ℕ, [], true, IfOk, IfSome, Ok, OnOk, Some, map, slice_get, take};
ghost use Rattle.std.specs.List.{All};
ghost use Rattle.hddl_words.specs.Faults.{Leads};
ghost use Rattle.hddl_words.specs.Words.{word_of, words as words_of, Word};
ghost use Rattle.hddl_words.specs.declared.fault.TextFault.TheVariants as fault_of;
ghost use Rattle.hddl_words.specs.declared.token.Kind.TheVariants as kinds;
ghost use Rattle.text_messages.specs.Notes.{Completes, IsFirstTwin, IsInside, IsNote, IsNoteOf, StandsAt};

use crate::brackets::begins_section;
use crate::spots::spot_at;
use crate::words::{first_twin, found_at, lexed, open_after, token_at};
use diagnostics::{Note, Part, Source, Spot};
use hddl_words::{Kind, TextFault, Token};
use std::alloc::{AllocError, Global};

/// How many brackets are open before the word of an index.
fn open_at(words: &[Token<'_>], index: usize) -> Option<usize>
    ensures { IfSome result (Leads 0 (take index (map word_of words.now))) }
{
    if index > words.len() {
        return None;
    }
    open_after(&words[..index])
}

/// Whether two brackets or more are open before the word of an index.
fn is_inside(words: &[Token<'_>], index: usize) -> bool
    ensures { result ≡ true → IsInside (map word_of words.now) index }
{
    match open_at(words, index) {
        Some(open) => open >= 2,
        None => false,
    }
}

/// Whether the word of an index is a closing bracket.
fn is_closing(words: &[Token<'_>], index: usize) -> bool
    ensures { result ≡ true → (w : Word) × (slice_get (map word_of words.now) index ≡ Some w) × (w.kind ≡ kinds.Close) }
{
    match token_at(words, index) {
        Some(word) => word.kind == Kind::Close,
        None => false,
    }
}

/// Whether the word of an index closes the only bracket that is open.
fn completes(words: &[Token<'_>], index: usize) -> bool
    ensures { result ≡ true → Completes (map word_of words.now) index }
{
    match open_at(words, index) {
        Some(open) => open == 1 && is_closing(words, index),
        None => false,
    }
}

/// Whether a section begins at a place, inside another list.
fn is_section_inside(words: &[Token<'_>], place: usize) -> bool
    ensures { result ≡ true → (at : ℕ) → IsNoteOf (map word_of words.now) (fault_of.Unclosed at) place }
{
    match found_at(words, place) {
        Some((index, _)) => begins_section(words, index) && is_inside(words, index),
        None => false,
    }
}

/// Whether the text is complete at a place.
fn is_complete_at(words: &[Token<'_>], place: usize) -> bool
    ensures { result ≡ true → (at : ℕ) → IsNoteOf (map word_of words.now) (fault_of.ExtraClose at) place }
{
    match found_at(words, place) {
        Some((index, _)) => completes(words, index),
        None => false,
    }
}

/// The index of the first word like the one of an index in its list.
fn twin_of(words: &[Token<'_>], index: usize, text: &[u8]) -> Option<usize>
    ensures { IfSome result (IsFirstTwin (take index (map word_of words.now)) text.now) }
{
    if index > words.len() {
        return None;
    }
    first_twin(&words[..index], text)
}

/// Whether the word of an index is at a place.
fn stands_at(words: &[Token<'_>], index: usize, place: usize) -> bool
    ensures { result ≡ true → StandsAt (map word_of words.now) index place }
{
    match token_at(words, index) {
        Some(word) => word.place == place,
        None => false,
    }
}

/// Whether the first word like the one at a refused place is at another.
fn is_twin(words: &[Token<'_>], refused: usize, place: usize) -> bool
    ensures { result ≡ true → IsNoteOf (map word_of words.now) (fault_of.Expected refused) place }
{
    let Some((index, word)) = found_at(words, refused) else {
        return false;
    };
    match twin_of(words, index, word.text) {
        Some(twin) => stands_at(words, twin, place),
        None => false,
    }
}

/// Whether a note of a fault may stand at a place.
fn is_note(words: &[Token<'_>], fault: TextFault, place: usize) -> bool
    ensures { result ≡ true → IsNoteOf (map word_of words.now) fault place }
{
    match fault {
        TextFault::Unclosed(_) => is_section_inside(words, place),
        TextFault::ExtraClose(_) => is_complete_at(words, place),
        TextFault::Expected(refused) => is_twin(words, refused, place),
        _ => false,
    }
}

/// The word at a place of a text that has these words, if a note of a fault may stand there.
fn noted_spot<'a>(
    source: &'a Source<'a>,
    words: &[Token<'_>],
    fault: TextFault,
    place: usize,
) -> Option<Spot<'a>>
    requires { words_of source.now.lines ≡ Ok (map word_of words.now) }
    ensures { IfSome result (IsNote source.now fault) }
{
    if is_note(words, fault, place) {
        return Some(spot_at(source, place));
    }
    None
}

/// The notes that stand where they may, in their order.
fn looked_up<'a>(
    alloc: Global,
    source: &'a Source<'a>,
    fault: TextFault,
    notes: Vec<Note<'a>>,
) -> Result<Vec<Note<'a>>, AllocError>
    ensures { IfOk result (λ v. All (λ note. IsNote source.now fault note.spot) v.items) }
{
    if notes.is_empty() {
        return Ok(Vec::new(alloc));
    }
    let found = lexed(alloc, source.lines.text())?;
    let Some(words) = found else {
        return Ok(Vec::new(alloc));
    };
    let mut noted: Vec<Note<'a>> = Vec::new(alloc);
    for note in notes {
        let place = note.spot.place;
        if let Some(spot) = noted_spot(source, words.as_slice(), fault, place) {
            noted.push(Note {
                spot,
                message: note.message,
            })?;
        }
    }
    Ok(noted)
}

/// Leaves only the notes that stand where they may.
pub(crate) fn look_up<'a>(
    alloc: Global,
    source: &'a Source<'a>,
    fault: TextFault,
    notes: &mut Vec<Note<'a>>,
) -> Result<(), AllocError>
    ensures { OnOk result (All (λ note. IsNote source.now fault note.spot) notes.new.items) }
{
    let found = std::mem::replace(notes, Vec::new(alloc));
    *notes = looked_up(alloc, source, fault, found)?;
    Ok(())
}

/// Adds the name of the fault to a message that is empty.
pub(crate) fn or_code<'a>(message: &mut Vec<Part<'a>>, code: &'static str) -> Result<(), AllocError>
    ensures { OnOk result (message.new.items ≢ []) }
{
    if message.is_empty() {
        message.push(Part::Words(code))?;
    }
    Ok(())
}
