//! The keywords that may be meant by a word that the language has not.

ghost use Rattle.std.specs.Prelude.{◌≡◌, [], IfOk, OnOk};
ghost use Rattle.std.specs.List.{All};
ghost use Rattle.diagnostics.specs.Near.{names_of};
ghost use Rattle.diagnostics.specs.Offers.{offered};
ghost use Rattle.text_messages.specs.Following.{IsNearestKeyword, MayBeMeant};
ghost use Rattle.text_messages.specs.Near.{ArePicked};

use crate::candidates::{following_keywords, is_far, may_follow};
use crate::grammar::is_keyword;
use crate::instead::instead_of;
use crate::spots::run_at;
use crate::words::{index_at, open_after, words_or_none};
use diagnostics::{Remark, RemarkKind, Role, Source, did_you_mean, is_question, nearest};
use hddl_words::TextFault;
use std::alloc::{AllocError, Global};

/// How many brackets are open before a place.
fn open_before(alloc: Global, text: &[u8], place: usize) -> Result<usize, AllocError> {
    let mut words = words_or_none(alloc, text)?;
    let index = index_at(words.as_slice(), place);
    words.truncate(index);
    Ok(open_after(words.as_slice()).unwrap_or(0))
}

/// The keywords of these numbers that may follow some bytes, as far as some text shows it.
fn picked(
    alloc: Global,
    role: Role,
    before: &[u8],
    open: usize,
    keywords: &[&'static [u8]],
    numbers: &[usize],
) -> Result<Vec<&'static [u8]>, AllocError>
    ensures { IfOk result (λ found. ArePicked role before.now (names_of keywords.now) numbers.now (names_of found.items)) }
{
    let mut found: Vec<&'static [u8]> = Vec::new(alloc);
    for number in numbers {
        let Some(keyword) = keywords.get(*number) else {
            continue;
        };
        let may = may_follow(alloc, role, before, open, *keyword)?;
        if may {
            found.push(*keyword)?;
        }
    }
    Ok(found)
}

/// The keywords that may be meant by a word after some bytes.
fn near_keywords(
    alloc: Global,
    role: Role,
    before: &[u8],
    open: usize,
    word: &[u8],
) -> Result<Vec<&'static [u8]>, AllocError>
    ensures { IfOk result (λ near. All (IsNearestKeyword role before.now word.now) (names_of near.items)) }
{
    let keywords = following_keywords(alloc, role, before, open)?;
    let numbers = nearest(alloc, word, keywords.as_slice())?;
    let near = picked(
        alloc,
        role,
        before,
        open,
        keywords.as_slice(),
        numbers.as_slice(),
    )?;
    Ok(near)
}

/// The keywords that may be meant by the word at a place.
fn near_at(
    alloc: Global,
    source: &Source<'_>,
    place: usize,
) -> Result<Vec<&'static [u8]>, AllocError>
    ensures { IfOk result (λ near. All (MayBeMeant source.now (TextFault.Unsupported place)) (names_of near.items)) }
{
    let text = source.lines.text();
    let word = run_at(source, place);
    if place > text.len() || !is_keyword(word) || instead_of(source.role, word).is_some() {
        return Ok(Vec::new(alloc));
    }
    let before = &text[..place];
    if is_far(before) {
        return Ok(Vec::new(alloc));
    }
    let open = open_before(alloc, text, place)?;
    let near = near_keywords(alloc, source.role, before, open, word)?;
    Ok(near)
}

/// The keywords that may be meant by the word of a fault, if the language has not that word.
pub(crate) fn near_words(
    alloc: Global,
    source: &Source<'_>,
    fault: TextFault,
) -> Result<Vec<&'static [u8]>, AllocError>
    ensures { IfOk result (λ near. All (MayBeMeant source.now fault) (names_of near.items)) }
{
    match fault {
        TextFault::Unsupported(place) => {
            let near = near_at(alloc, source, place)?;
            Ok(near)
        }
        _ => Ok(Vec::new(alloc)),
    }
}

/// The remarks that ask for no name.
#[tactic(auto, using(crate::proofs::Offered::offered_more))]
fn without_questions<'a>(
    alloc: Global,
    remarks: Vec<Remark<'a>>,
) -> Result<Vec<Remark<'a>>, AllocError>
    ensures { IfOk result (λ kept. offered kept.items ≡ []) }
{
    let mut kept: Vec<Remark<'a>> = Vec::new(alloc);
    for remark in remarks {
        let is = is_question(remark.message.as_slice());
        if !is {
            kept.push(remark)?;
        }
    }
    Ok(kept)
}

/// Makes remarks ask for these names alone, if there are any.
#[tactic(auto, using(crate::proofs::Offered::offered_more))]
pub(crate) fn ask<'a>(
    alloc: Global,
    remarks: &mut Vec<Remark<'a>>,
    near: &[&'static [u8]],
) -> Result<(), AllocError>
    ensures { OnOk result (offered remarks.new.items ≡ names_of near.now) }
{
    let others = std::mem::replace(remarks, Vec::new(alloc));
    *remarks = without_questions(alloc, others)?;
    if near.is_empty() {
        return Ok(());
    }
    let message = did_you_mean(alloc, near)?;
    remarks.push(Remark {
        kind: RemarkKind::Help,
        message,
    })?;
    Ok(())
}
