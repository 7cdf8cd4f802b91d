//! Reads terms, atoms and equalities.

ghost use Rattle.std.specs.Prelude.{◌≡◌, ◌≤◌, length, OnOk};
ghost use Rattle.hddl_words.specs.Class.{class_of as class};
ghost use Rattle.hddl_words.specs.Reading.{Reads, run, until, adds};
ghost use Rattle.hddl_words.specs.Words.{word_of};
ghost use Rattle.hddl_text.specs.Readers as spec;

use crate::words::{any_name, closing, equal_sign, is_close, opening};
use hddl_words::{
    AtomText, Class, Cursor, EqualityText, Items, LiteralText, Name, Stop, Term, Token, Variable,
    class_of,
};
use std::alloc::Global;

/// A term from its first word on.
fn term(alloc: Global, cursor: &mut Cursor<'_>, word: &Token<'_>) -> Result<Term, Stop>
    ensures reads { Reads (run (spec.term_item (class (word_of word.now)) (word_of word.now)) cursor.old) result cursor.new }
    ensures shorter { OnOk result (length cursor.new ≤ length cursor.old) }
{
    match class_of(word) {
        Class::Variable => Ok(Term::Variable(Variable::new(alloc, word)?)),
        Class::Name => Ok(Term::Object(Name::new(alloc, word)?)),
        Class::Open | Class::Forall | Class::Reserved => Err(cursor.refuse_unsupported()),
        _ => Err(cursor.refuse()),
    }
}

#[tactic(auto, unfolding(crate::specs::Readers::next_term))]
fn next_term(alloc: Global, cursor: &mut Cursor<'_>) -> Result<Term, Stop>
    ensures reads { Reads (spec.next_term cursor.old) result cursor.new }
    ensures shorter { OnOk result (length cursor.new ≤ length cursor.old) }
{
    let word = cursor.next()?;
    term(alloc, cursor, &word)
}

/// The terms up to the closing bracket, after those that were read before.
#[tactic(auto, using(crate::proofs::Turns::term_turns))]
pub fn terms_after(
    alloc: Global,
    cursor: &mut Cursor<'_>,
    before: Items<Term>,
) -> Result<Items<Term>, Stop>
    ensures reads { Reads (until (adds spec.term_item) before cursor.old) result cursor.new }
    ensures shorter { OnOk result (length cursor.new ≤ length cursor.old) }
{
    let mut terms = before;
    'terms: loop {
        let word = cursor.next()?;
        if is_close(&word) {
            return Ok(terms);
        }
        let term = term(alloc, cursor, &word)?;
        terms.push(term)?;
    }
}

/// An atom after its name.
#[tactic(auto, unfolding(crate::specs::Readers::atom_rest))]
pub fn atom_rest(alloc: Global, cursor: &mut Cursor<'_>, name: Name) -> Result<AtomText, Stop>
    ensures reads { Reads (spec.atom_rest name cursor.old) result cursor.new }
    ensures shorter { OnOk result (length cursor.new ≤ length cursor.old) }
{
    let terms = terms_after(alloc, cursor, Items::new(alloc))?;
    Ok(AtomText { name, terms })
}

/// An atom in its brackets.
#[tactic(auto, unfolding(crate::specs::Readers::atom))]
pub fn atom(alloc: Global, cursor: &mut Cursor<'_>) -> Result<AtomText, Stop>
    ensures reads { Reads (spec.atom cursor.old) result cursor.new }
    ensures shorter { OnOk result (length cursor.new ≤ length cursor.old) }
{
    opening(cursor)?;
    let name = any_name(alloc, cursor)?;
    atom_rest(alloc, cursor, name)
}

/// An equality after its sign.
#[tactic(auto, unfolding(crate::specs::Readers::equality_rest))]
pub fn equality_rest(
    alloc: Global,
    cursor: &mut Cursor<'_>,
    is_positive: bool,
) -> Result<EqualityText, Stop>
    ensures reads { Reads (spec.equality_rest is_positive cursor.old) result cursor.new }
    ensures shorter { OnOk result (length cursor.new ≤ length cursor.old) }
{
    let left = next_term(alloc, cursor)?;
    let right = next_term(alloc, cursor)?;
    closing(cursor)?;
    Ok(EqualityText {
        is_positive,
        left,
        right,
    })
}

/// A negated atom, after `not`.
#[tactic(auto, unfolding(crate::specs::Readers::negated_literal))]
fn negated_literal(alloc: Global, cursor: &mut Cursor<'_>) -> Result<LiteralText, Stop>
    ensures reads { Reads (spec.negated_literal cursor.old) result cursor.new }
    ensures shorter { OnOk result (length cursor.new ≤ length cursor.old) }
{
    let atom = atom(alloc, cursor)?;
    closing(cursor)?;
    Ok(LiteralText {
        is_positive: false,
        atom,
    })
}

/// An atom or a negated one, from its head on.
pub fn literal(
    alloc: Global,
    cursor: &mut Cursor<'_>,
    word: &Token<'_>,
) -> Result<LiteralText, Stop>
    ensures reads { Reads (run (spec.literal (class (word_of word.now)) (word_of word.now)) cursor.old) result cursor.new }
    ensures shorter { OnOk result (length cursor.new ≤ length cursor.old) }
{
    match class_of(word) {
        Class::Name => {
            let name = Name::new(alloc, word)?;
            let atom = atom_rest(alloc, cursor, name)?;
            Ok(LiteralText {
                is_positive: true,
                atom,
            })
        }
        Class::Not => negated_literal(alloc, cursor),
        Class::Forall | Class::Reserved => Err(cursor.refuse_unsupported()),
        _ => Err(cursor.refuse()),
    }
}

/// A negated equality, after `not`.
#[tactic(auto, unfolding(crate::specs::Readers::negated_equality))]
fn negated_equality(alloc: Global, cursor: &mut Cursor<'_>) -> Result<EqualityText, Stop>
    ensures reads { Reads (spec.negated_equality cursor.old) result cursor.new }
    ensures shorter { OnOk result (length cursor.new ≤ length cursor.old) }
{
    opening(cursor)?;
    equal_sign(cursor)?;
    let equality = equality_rest(alloc, cursor, false)?;
    closing(cursor)?;
    Ok(equality)
}

/// An equality or a negated one, from its head on.
pub fn equality(
    alloc: Global,
    cursor: &mut Cursor<'_>,
    word: &Token<'_>,
) -> Result<EqualityText, Stop>
    ensures reads { Reads (run (spec.equality (class (word_of word.now)) (word_of word.now)) cursor.old) result cursor.new }
    ensures shorter { OnOk result (length cursor.new ≤ length cursor.old) }
{
    match class_of(word) {
        Class::Equal => equality_rest(alloc, cursor, true),
        Class::Not => negated_equality(alloc, cursor),
        Class::Forall | Class::Reserved => Err(cursor.refuse_unsupported()),
        _ => Err(cursor.refuse()),
    }
}
