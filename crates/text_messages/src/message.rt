//! The diagnostic of a text's fault.

ghost use Rattle.std.specs.Prelude.{◌≡◌, ◌≢◌, [], IfOk, OnOk};
ghost use Rattle.std.specs.List.{All};
ghost use Rattle.diagnostics.specs.Near.{names_of};
ghost use Rattle.diagnostics.specs.Offers.{offered};
ghost use Rattle.text_messages.specs.Following.{OffersMeant};
ghost use Rattle.text_messages.specs.Notes.{IsNote};
ghost use Rattle.text_messages.specs.Messages as spec;
ghost use Rattle.text_messages.specs.Messages.{IsAbout};

use crate::brackets::{extra_close, unclosed};
use crate::grammar::{not_expected, unsupported};
use crate::near::{ask, near_words};
use crate::noted::{look_up, or_code};
use crate::said::{Said, plain, plain_words};
use crate::spots::{spot_at, word_at};
use diagnostics::{Diagnostic, Part, Severity, Source, Where};
use hddl_words::TextFault;
use std::alloc::{AllocError, Global};

/// The name of a fault.
fn code_of(fault: TextFault) -> &'static str
    ensures { result.now ≡ spec.code_of fault }
{
    match fault {
        TextFault::NotAscii(_) => "NotAscii",
        TextFault::BadWord(_) => "BadWord",
        TextFault::Unclosed(_) => "Unclosed",
        TextFault::ExtraClose(_) => "ExtraClose",
        TextFault::TooDeep(_) => "TooDeep",
        TextFault::Expected(_) => "Expected",
        TextFault::Unsupported(_) => "Unsupported",
        TextFault::TooLong(_) => "TooLong",
        TextFault::OutOfMemory => "OutOfMemory",
    }
}

/// What a fault is about: its place, or the text as a whole where that is too long.
fn about<'a>(source: &'a Source<'a>, fault: TextFault) -> Where<'a>
    ensures { IsAbout source.now fault result }
{
    match fault {
        TextFault::NotAscii(place)
        | TextFault::BadWord(place)
        | TextFault::Unclosed(place)
        | TextFault::ExtraClose(place)
        | TextFault::TooDeep(place)
        | TextFault::Expected(place)
        | TextFault::Unsupported(place) => Where::Place(spot_at(source, place)),
        TextFault::TooLong(_) | TextFault::OutOfMemory => Where::Text(source),
    }
}

/// A byte that isn't printable ASCII.
fn not_ascii<'a>(
    alloc: Global,
    source: &'a Source<'a>,
    place: usize,
) -> Result<Said<'a>, AllocError> {
    let said = plain_words(
        alloc,
        "a byte that is no printable ASCII may stand in a comment only",
    )?;
    match source.lines.text().get(place) {
        Some(byte) => said.labelled(alloc, &[Part::Words("byte "), Part::Number(*byte as u64)]),
        None => Ok(said),
    }
}

/// A word of no kind.
fn bad_word<'a>(
    alloc: Global,
    source: &'a Source<'a>,
    place: usize,
) -> Result<Said<'a>, AllocError> {
    let word = word_at(source, place);
    let said = plain(alloc, &[Part::Name(word), Part::Words(" is no word")])?;
    match word {
        b"->" => said.helped_by(alloc, "`->` belongs to plans"),
        [b'?', ..] => said.labelled_by(alloc, "a variable needs a name"),
        [b':', ..] => said.labelled_by(alloc, "a keyword needs a name"),
        _ => said
            .labelled_by(alloc, "a number or a comparison")?
            .helped_by(
                alloc,
                "numbers are left out; a name can begin with none of `?`, `:`, `-`, `=`, `<`",
            ),
    }
}

/// The content of the diagnostic of a fault, but for the question for keywords that may be meant.
fn said_of<'a>(
    alloc: Global,
    source: &'a Source<'a>,
    fault: TextFault,
    is_near: bool,
) -> Result<Said<'a>, AllocError> {
    match fault {
        TextFault::NotAscii(place) => not_ascii(alloc, source, place),
        TextFault::BadWord(place) => bad_word(alloc, source, place),
        TextFault::Unclosed(_) => unclosed(alloc, source),
        TextFault::ExtraClose(_) => extra_close(alloc, source),
        TextFault::TooDeep(_) => plain_words(alloc, "more than 64 brackets are open here"),
        TextFault::Expected(place) => not_expected(alloc, source, place),
        TextFault::Unsupported(place) => unsupported(alloc, source, place, is_near),
        TextFault::TooLong(_) => plain_words(alloc, "the text is longer than 16,777,216 bytes"),
        TextFault::OutOfMemory => Err(AllocError),
    }
}

/// Completes what is said of a fault: its message isn't empty, it offers these keywords alone, and its notes stand
/// where they may.
fn complete<'a>(
    alloc: Global,
    source: &'a Source<'a>,
    fault: TextFault,
    said: &mut Said<'a>,
    near: &[&'static [u8]],
) -> Result<(), AllocError>
    ensures message { OnOk result (said.new.message.items ≢ []) }
    ensures offers { OnOk result (offered said.new.remarks.items ≡ names_of near.now) }
    ensures notes { OnOk result (All (λ note. IsNote source.now fault note.spot) said.new.notes.items) }
{
    or_code(&mut said.message, code_of(fault))?;
    ask(alloc, &mut said.remarks, near)?;
    look_up(alloc, source, fault, &mut said.notes)?;
    Ok(())
}

/// The diagnostic of a fault that offers these keywords.
fn diagnostic_with<'a>(
    alloc: Global,
    source: &'a Source<'a>,
    fault: TextFault,
    near: &[&'static [u8]],
) -> Result<Diagnostic<'a>, AllocError>
    ensures severity { IfOk result (λ d. d.severity ≡ Severity.Error) }
    ensures code { IfOk result (λ d. d.code.now ≡ spec.code_of fault) }
    ensures about { IfOk result (λ d. IsAbout source.now fault d.about) }
    ensures message { IfOk result (λ d. d.message.items ≢ []) }
    ensures offers { IfOk result (λ d. offered d.remarks.items ≡ names_of near.now) }
    ensures notes { IfOk result (λ d. All (λ note. IsNote source.now fault note.spot) d.notes.items) }
{
    let mut said = said_of(alloc, source, fault, !near.is_empty())?;
    complete(alloc, source, fault, &mut said, near)?;
    Ok(Diagnostic {
        severity: Severity::Error,
        code: code_of(fault),
        about: about(source, fault),
        message: said.message,
        label: said.label,
        remarks: said.remarks,
        notes: said.notes,
    })
}

/// The diagnostic of a fault of a text. The text's role says whether it was read as a problem or as a domain. An error
/// where memory was refused, and for the fault `OutOfMemory`, which has no diagnostic. Takes time linear in the text:
/// some hundred runs of the reader over at most half a megabyte, and a few passes over the rest.
pub fn text_diagnostic<'a>(
    alloc: Global,
    source: &'a Source<'a>,
    fault: TextFault,
) -> Result<Diagnostic<'a>, AllocError>
    ensures severity { IfOk result (λ d. d.severity ≡ Severity.Error) }
    ensures code { IfOk result (λ d. d.code.now ≡ spec.code_of fault) }
    ensures about { IfOk result (λ d. IsAbout source.now fault d.about) }
    ensures message { IfOk result (λ d. d.message.items ≢ []) }
    // Each word that `did you mean` offers may stand at the place, and none that may is nearer.
    ensures offers { IfOk result (λ d. OffersMeant source.now fault d.remarks.items) }
    // Each note is at a section inside an open list, where the text is complete, or at the first of two equal words.
    ensures notes { IfOk result (λ d. All (λ note. IsNote source.now fault note.spot) d.notes.items) }
{
    let near = near_words(alloc, source, fault)?;
    let told = diagnostic_with(alloc, source, fault, near.as_slice())?;
    Ok(told)
}
