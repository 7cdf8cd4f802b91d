//! Reads conditions, effects and constraints, which nest.

ghost use Rattle.std.specs.Prelude.{◌≡◌, ◌≤◌, length, OnOk};
ghost use Rattle.hddl_words.specs.Class.{class_of as class};
ghost use Rattle.hddl_words.specs.Reading.{Reads, Leaves, run, until};
ghost use Rattle.hddl_words.specs.Words.{word_of};
ghost use Rattle.hddl_text.specs.Readers as spec;

use crate::lists::parameters;
use crate::terms::{atom_rest, equality, equality_rest, literal};
use crate::words::{closing, is_close, opening};
use hddl_words::{
    Class, Condition, Cursor, EqualityText, Items, LiteralText, Name, Stop, Token, class_of,
};
use std::alloc::Global;

/// What is negated in a condition, from its head on.
fn negated_part(alloc: Global, cursor: &mut Cursor<'_>, word: &Token<'_>) -> Result<Condition, Stop>
    ensures reads { Reads (run (spec.negated_part (class (word_of word.now)) (word_of word.now)) cursor.old) result cursor.new }
    ensures shorter { OnOk result (length cursor.new ≤ length cursor.old) }
{
    match class_of(word) {
        Class::Name => {
            let name = Name::new(alloc, word)?;
            let atom = atom_rest(alloc, cursor, name)?;
            Ok(Condition::Literal(LiteralText {
                is_positive: false,
                atom,
            }))
        }
        Class::Equal => {
            let equality = equality_rest(alloc, cursor, false)?;
            Ok(Condition::Equality(equality))
        }
        Class::Forall | Class::Reserved => Err(cursor.refuse_unsupported()),
        _ => Err(cursor.refuse()),
    }
}

/// A negated atom or equality, after `not`.
#[tactic(auto, unfolding(crate::specs::Readers::negated_condition))]
fn negated_condition(alloc: Global, cursor: &mut Cursor<'_>) -> Result<Condition, Stop>
    ensures reads { Reads (spec.negated_condition cursor.old) result cursor.new }
    ensures shorter { OnOk result (length cursor.new ≤ length cursor.old) }
{
    opening(cursor)?;
    let word = cursor.next()?;
    let part = negated_part(alloc, cursor, &word)?;
    closing(cursor)?;
    Ok(part)
}

/// `forall` after its word.
#[cycle(condition)]
#[tactic(auto, unfolding(crate::specs::Readers::forall_rest))]
fn forall_rest(alloc: Global, cursor: &mut Cursor<'_>) -> Result<Condition, Stop>
    ensures reads { Reads (spec.forall_rest spec.condition_rest cursor.old) result cursor.new }
    ensures shorter { OnOk result (length cursor.new ≤ length cursor.old) }
{
    let parameters = parameters(alloc, cursor)?;
    opening(cursor)?;
    let mut body = Items::new(alloc);
    condition_rest(alloc, cursor, &mut body)?;
    closing(cursor)?;
    Ok(Condition::Forall(parameters, body))
}

/// A part of a condition, from its head on.
#[cycle(condition)]
fn condition_part(
    alloc: Global,
    cursor: &mut Cursor<'_>,
    word: &Token<'_>,
) -> Result<Condition, Stop>
    ensures reads { Reads (run (spec.condition_part spec.condition_rest (class (word_of word.now)) (word_of word.now)) cursor.old) result cursor.new }
    ensures shorter { OnOk result (length cursor.new ≤ length cursor.old) }
{
    match class_of(word) {
        Class::Name => {
            let name = Name::new(alloc, word)?;
            let atom = atom_rest(alloc, cursor, name)?;
            Ok(Condition::Literal(LiteralText {
                is_positive: true,
                atom,
            }))
        }
        Class::Equal => {
            let equality = equality_rest(alloc, cursor, true)?;
            Ok(Condition::Equality(equality))
        }
        Class::Not => negated_condition(alloc, cursor),
        Class::Forall => forall_rest(alloc, cursor),
        Class::Reserved => Err(cursor.refuse_unsupported()),
        _ => Err(cursor.refuse()),
    }
}

/// A condition after its opening bracket: adds its parts to those before it.
#[cycle(condition)]
#[tactic(auto, using(crate::proofs::ConditionsAgree::condition_rest_is))]
fn condition_rest(
    alloc: Global,
    cursor: &mut Cursor<'_>,
    parts: &mut Items<Condition>,
) -> Result<(), Stop>
    ensures reads { Leaves (spec.condition_rest parts.old cursor.old) result parts.new cursor.new }
    ensures shorter { OnOk result (length cursor.new ≤ length cursor.old) }
{
    let word = cursor.next()?;
    match class_of(&word) {
        Class::Close => Ok(()),
        Class::And => conditions(alloc, cursor, parts),
        _ => {
            let part = condition_part(alloc, cursor, &word)?;
            parts.push(part)?;
            Ok(())
        }
    }
}

/// Conditions up to the closing bracket.
#[cycle(condition)]
#[tactic(auto, using(crate::proofs::Turns::condition_turns))]
fn conditions(
    alloc: Global,
    cursor: &mut Cursor<'_>,
    parts: &mut Items<Condition>,
) -> Result<(), Stop>
    ensures reads { Leaves (until (spec.nested spec.condition_rest) parts.old cursor.old) result parts.new cursor.new }
    ensures shorter { OnOk result (length cursor.new ≤ length cursor.old) }
{
    'parts: loop {
        let word = cursor.next()?;
        if is_close(&word) {
            return Ok(());
        }
        nested_condition(alloc, cursor, &word, parts)?;
    }
}

/// A condition from its first word on.
#[cycle(condition)]
#[tactic(auto, unfolding(crate::specs::Readers::nested))]
fn nested_condition(
    alloc: Global,
    cursor: &mut Cursor<'_>,
    word: &Token<'_>,
    parts: &mut Items<Condition>,
) -> Result<(), Stop>
    ensures reads { Leaves (run (spec.nested spec.condition_rest parts.old (class (word_of word.now)) (word_of word.now)) cursor.old) result parts.new cursor.new }
    ensures shorter { OnOk result (length cursor.new ≤ length cursor.old) }
{
    match class_of(word) {
        Class::Open => condition_rest(alloc, cursor, parts),
        _ => Err(cursor.refuse()),
    }
}

/// A condition in its brackets.
#[tactic(auto, unfolding(crate::specs::Readers::whole_condition))]
pub fn condition(alloc: Global, cursor: &mut Cursor<'_>) -> Result<Items<Condition>, Stop>
    ensures reads { Reads (spec.whole_condition cursor.old) result cursor.new }
    ensures shorter { OnOk result (length cursor.new ≤ length cursor.old) }
{
    opening(cursor)?;
    let mut parts = Items::new(alloc);
    condition_rest(alloc, cursor, &mut parts)?;
    Ok(parts)
}

/// An effect after its opening bracket: adds its parts to those before it.
#[cycle(effect)]
#[tactic(auto, using(crate::proofs::ConditionsAgree::effect_rest_is))]
fn effect_rest(
    alloc: Global,
    cursor: &mut Cursor<'_>,
    parts: &mut Items<LiteralText>,
) -> Result<(), Stop>
    ensures reads { Leaves (spec.effect_rest parts.old cursor.old) result parts.new cursor.new }
    ensures shorter { OnOk result (length cursor.new ≤ length cursor.old) }
{
    let word = cursor.next()?;
    match class_of(&word) {
        Class::Close => Ok(()),
        Class::And => effects(alloc, cursor, parts),
        _ => {
            let part = literal(alloc, cursor, &word)?;
            parts.push(part)?;
            Ok(())
        }
    }
}

/// Effects up to the closing bracket.
#[cycle(effect)]
#[tactic(auto, using(crate::proofs::Turns::effect_turns))]
fn effects(
    alloc: Global,
    cursor: &mut Cursor<'_>,
    parts: &mut Items<LiteralText>,
) -> Result<(), Stop>
    ensures reads { Leaves (until (spec.nested spec.effect_rest) parts.old cursor.old) result parts.new cursor.new }
    ensures shorter { OnOk result (length cursor.new ≤ length cursor.old) }
{
    'parts: loop {
        let word = cursor.next()?;
        if is_close(&word) {
            return Ok(());
        }
        nested_effect(alloc, cursor, &word, parts)?;
    }
}

/// An effect from its first word on.
#[cycle(effect)]
#[tactic(auto, unfolding(crate::specs::Readers::nested))]
fn nested_effect(
    alloc: Global,
    cursor: &mut Cursor<'_>,
    word: &Token<'_>,
    parts: &mut Items<LiteralText>,
) -> Result<(), Stop>
    ensures reads { Leaves (run (spec.nested spec.effect_rest parts.old (class (word_of word.now)) (word_of word.now)) cursor.old) result parts.new cursor.new }
    ensures shorter { OnOk result (length cursor.new ≤ length cursor.old) }
{
    match class_of(word) {
        Class::Open => effect_rest(alloc, cursor, parts),
        _ => Err(cursor.refuse()),
    }
}

/// An effect in its brackets.
#[tactic(auto, unfolding(crate::specs::Readers::whole_effect))]
pub fn effect(alloc: Global, cursor: &mut Cursor<'_>) -> Result<Items<LiteralText>, Stop>
    ensures reads { Reads (spec.whole_effect cursor.old) result cursor.new }
    ensures shorter { OnOk result (length cursor.new ≤ length cursor.old) }
{
    opening(cursor)?;
    let mut parts = Items::new(alloc);
    effect_rest(alloc, cursor, &mut parts)?;
    Ok(parts)
}

/// A constraint after its opening bracket: adds its parts to those before it.
#[cycle(constraint)]
#[tactic(auto, using(crate::proofs::ConditionsAgree::constraint_rest_is))]
fn constraint_rest(
    alloc: Global,
    cursor: &mut Cursor<'_>,
    parts: &mut Items<EqualityText>,
) -> Result<(), Stop>
    ensures reads { Leaves (spec.constraint_rest parts.old cursor.old) result parts.new cursor.new }
    ensures shorter { OnOk result (length cursor.new ≤ length cursor.old) }
{
    let word = cursor.next()?;
    match class_of(&word) {
        Class::Close => Ok(()),
        Class::And => constraints(alloc, cursor, parts),
        _ => {
            let part = equality(alloc, cursor, &word)?;
            parts.push(part)?;
            Ok(())
        }
    }
}

/// Constraints up to the closing bracket.
#[cycle(constraint)]
#[tactic(auto, using(crate::proofs::Turns::constraint_turns))]
fn constraints(
    alloc: Global,
    cursor: &mut Cursor<'_>,
    parts: &mut Items<EqualityText>,
) -> Result<(), Stop>
    ensures reads { Leaves (until (spec.nested spec.constraint_rest) parts.old cursor.old) result parts.new cursor.new }
    ensures shorter { OnOk result (length cursor.new ≤ length cursor.old) }
{
    'parts: loop {
        let word = cursor.next()?;
        if is_close(&word) {
            return Ok(());
        }
        nested_constraint(alloc, cursor, &word, parts)?;
    }
}

/// A constraint from its first word on.
#[cycle(constraint)]
#[tactic(auto, unfolding(crate::specs::Readers::nested))]
fn nested_constraint(
    alloc: Global,
    cursor: &mut Cursor<'_>,
    word: &Token<'_>,
    parts: &mut Items<EqualityText>,
) -> Result<(), Stop>
    ensures reads { Leaves (run (spec.nested spec.constraint_rest parts.old (class (word_of word.now)) (word_of word.now)) cursor.old) result parts.new cursor.new }
    ensures shorter { OnOk result (length cursor.new ≤ length cursor.old) }
{
    match class_of(word) {
        Class::Open => constraint_rest(alloc, cursor, parts),
        _ => Err(cursor.refuse()),
    }
}

/// A constraint in its brackets.
#[tactic(auto, unfolding(crate::specs::Readers::whole_constraint))]
pub fn constraint(alloc: Global, cursor: &mut Cursor<'_>) -> Result<Items<EqualityText>, Stop>
    ensures reads { Reads (spec.whole_constraint cursor.old) result cursor.new }
    ensures shorter { OnOk result (length cursor.new ≤ length cursor.old) }
{
    opening(cursor)?;
    let mut parts = Items::new(alloc);
    constraint_rest(alloc, cursor, &mut parts)?;
    Ok(parts)
}
