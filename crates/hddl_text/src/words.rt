//! Reads single words of the grammar.

ghost use Rattle.std.specs.Prelude.{◌≡◌, ◌≤◌, suc, false, length, OnOk, IsSome, MatchResult};
ghost use Rattle.hddl_words.specs.declared.cursor.Stop.TheVariants.{Refused};
ghost use Rattle.hddl_words.specs.Class.{class_of as class};
ghost use Rattle.hddl_words.specs.Reading.{Reads, is_close as is_closing};
ghost use Rattle.hddl_words.specs.Words.{word_of};
ghost use Rattle.hddl_text.specs.Readers as spec;

use hddl_words::{Class, Cursor, Name, Stop, Token, class_of, is_same};
use std::alloc::Global;

pub fn is_close(word: &Token<'_>) -> bool
    ensures { result ≡ is_closing (class (word_of word.now)) }
{
    matches!(class_of(word), Class::Close)
}

/// Refuses the word that was read last where its part stands already.
pub fn once<T>(cursor: &Cursor<'_>, part: &Option<T>) -> Result<(), Stop>
    ensures { MatchResult result (λ _. part.now ≡ None) (λ stop. IsSome part.now × (stop ≡ Refused false (suc (length cursor.now)))) }
{
    if part.is_some() {
        Err(cursor.refuse())
    } else {
        Ok(())
    }
}

/// An opening bracket.
#[tactic(auto, unfolding(crate::specs::Readers::opening))]
pub fn opening(cursor: &mut Cursor<'_>) -> Result<(), Stop>
    ensures reads { Reads (spec.opening cursor.old) result cursor.new }
    ensures shorter { OnOk result (length cursor.new ≤ length cursor.old) }
{
    let word = cursor.next()?;
    match class_of(&word) {
        Class::Open => Ok(()),
        _ => Err(cursor.refuse()),
    }
}

/// A closing bracket.
#[tactic(auto, unfolding(crate::specs::Readers::closing))]
pub fn closing(cursor: &mut Cursor<'_>) -> Result<(), Stop>
    ensures reads { Reads (spec.closing cursor.old) result cursor.new }
    ensures shorter { OnOk result (length cursor.new ≤ length cursor.old) }
{
    let word = cursor.next()?;
    match class_of(&word) {
        Class::Close => Ok(()),
        _ => Err(cursor.refuse()),
    }
}

/// An opening bracket and a closing one.
#[tactic(auto, unfolding(crate::specs::Readers::empty))]
pub fn empty(cursor: &mut Cursor<'_>) -> Result<(), Stop>
    ensures reads { Reads (spec.empty cursor.old) result cursor.new }
    ensures shorter { OnOk result (length cursor.new ≤ length cursor.old) }
{
    opening(cursor)?;
    closing(cursor)
}

/// A name that isn't reserved.
#[tactic(auto, unfolding(crate::specs::Readers::any_name))]
pub fn any_name(alloc: Global, cursor: &mut Cursor<'_>) -> Result<Name, Stop>
    ensures reads { Reads (spec.any_name cursor.old) result cursor.new }
    ensures shorter { OnOk result (length cursor.new ≤ length cursor.old) }
{
    let word = cursor.next()?;
    match class_of(&word) {
        Class::Name => Ok(Name::new(alloc, &word)?),
        Class::Forall | Class::Reserved => Err(cursor.refuse_unsupported()),
        _ => Err(cursor.refuse()),
    }
}

/// This name, in any case.
#[tactic(auto, unfolding(crate::specs::Readers::spelled_word))]
pub fn spelled_word(cursor: &mut Cursor<'_>, text: &[u8]) -> Result<(), Stop>
    ensures reads { Reads (spec.spelled_word text.now cursor.old) result cursor.new }
    ensures shorter { OnOk result (length cursor.new ≤ length cursor.old) }
{
    let word = cursor.next()?;
    match class_of(&word) {
        Class::Name => {
            if is_same(word.text, text) {
                Ok(())
            } else {
                Err(cursor.refuse())
            }
        }
        _ => Err(cursor.refuse()),
    }
}

/// The sign `<`.
#[tactic(auto, unfolding(crate::specs::Readers::less_sign))]
pub fn less_sign(cursor: &mut Cursor<'_>) -> Result<(), Stop>
    ensures reads { Reads (spec.less_sign cursor.old) result cursor.new }
    ensures shorter { OnOk result (length cursor.new ≤ length cursor.old) }
{
    let word = cursor.next()?;
    match class_of(&word) {
        Class::Less => Ok(()),
        _ => Err(cursor.refuse()),
    }
}

/// The sign `=`.
#[tactic(auto, unfolding(crate::specs::Readers::equal_sign))]
pub fn equal_sign(cursor: &mut Cursor<'_>) -> Result<(), Stop>
    ensures reads { Reads (spec.equal_sign cursor.old) result cursor.new }
    ensures shorter { OnOk result (length cursor.new ≤ length cursor.old) }
{
    let word = cursor.next()?;
    match class_of(&word) {
        Class::Equal => Ok(()),
        Class::Forall | Class::Reserved => Err(cursor.refuse_unsupported()),
        _ => Err(cursor.refuse()),
    }
}

/// What follows the first bracket of a text: `define (` this word, its name and `)`.
#[tactic(auto, unfolding(crate::specs::Readers::head_rest))]
pub fn head_rest(alloc: Global, cursor: &mut Cursor<'_>, kind: &[u8]) -> Result<Name, Stop>
    ensures reads { Reads (spec.head_rest kind.now cursor.old) result cursor.new }
    ensures shorter { OnOk result (length cursor.new ≤ length cursor.old) }
{
    spelled_word(cursor, b"define")?;
    opening(cursor)?;
    spelled_word(cursor, kind)?;
    let name = any_name(alloc, cursor)?;
    closing(cursor)?;
    Ok(name)
}
