//! Reads the sections that declare predicates, tasks, actions and methods, and the requirements.

ghost use Rattle.std.specs.Prelude.{◌≡◌, ◌≤◌, [], length, OnOk, unwrap_or};
ghost use Rattle.hddl_words.specs.Class.{class_of as class};
ghost use Rattle.hddl_words.specs.Reading.{Reads, Leaves, run, opened};
ghost use Rattle.hddl_words.specs.Words.{word_of};
ghost use Rattle.hddl_text.specs.Drafts as drafts;
ghost use Rattle.hddl_text.specs.Readers as spec;

use crate::conditions::{condition, effect};
use crate::lists::{parameters, variables};
use crate::networks::network_part;
use crate::parts::{
    ActionParts, MethodParts, NetworkParts, TaskParts, no_action_parts, no_method_parts,
    no_task_parts,
};
use crate::terms::atom;
use crate::words::{any_name, empty, is_close, once};
use hddl_words::{
    ActionText, Class, Cursor, Items, Keyword, MethodText, Name, NetworkText, PredicateText,
    Requirement, Stop, TaskText, Token, class_of,
};
use std::alloc::Global;

/// The items, or none where they aren't written.
pub fn items_or_none<T: Drop>(alloc: Global, items: Option<Items<T>>) -> Items<T>
    ensures { result ≡ unwrap_or items [] }
{
    match items {
        Some(items) => items,
        None => Items::new(alloc),
    }
}

/// The network that its parts make.
pub fn network_of(alloc: Global, parts: NetworkParts) -> NetworkText
    ensures { result ≡ drafts.network_of parts }
{
    let NetworkParts {
        is_ordered,
        subtasks,
        orderings,
        constraints,
    } = parts;
    NetworkText {
        is_ordered,
        subtasks: items_or_none(alloc, subtasks),
        orderings: items_or_none(alloc, orderings),
        constraints: items_or_none(alloc, constraints),
    }
}

/// A requirement from its first word on.
fn requirement(
    alloc: Global,
    cursor: &mut Cursor<'_>,
    word: &Token<'_>,
) -> Result<Requirement, Stop>
    ensures reads { Reads (run (spec.requirement_item (class (word_of word.now)) (word_of word.now)) cursor.old) result cursor.new }
    ensures shorter { OnOk result (length cursor.new ≤ length cursor.old) }
{
    match class_of(word) {
        Class::Keyword(_) => Ok(Requirement {
            place: word.place,
            text: Items::from_slice(alloc, word.text)?,
        }),
        _ => Err(cursor.refuse()),
    }
}

/// Requirements up to the closing bracket.
#[tactic(auto, unfolding(crate::specs::Readers::requirements), using(crate::proofs::Turns::requirement_turns))]
pub fn requirements(alloc: Global, cursor: &mut Cursor<'_>) -> Result<Items<Requirement>, Stop>
    ensures reads { Reads (spec.requirements cursor.old) result cursor.new }
    ensures shorter { OnOk result (length cursor.new ≤ length cursor.old) }
{
    let mut parts = Items::new(alloc);
    'parts: loop {
        let word = cursor.next()?;
        if is_close(&word) {
            return Ok(parts);
        }
        let part = requirement(alloc, cursor, &word)?;
        parts.push(part)?;
    }
}

/// A predicate after its opening bracket.
#[tactic(auto, unfolding(crate::specs::Readers::predicate_rest))]
fn predicate_rest(alloc: Global, cursor: &mut Cursor<'_>) -> Result<PredicateText, Stop>
    ensures reads { Reads (spec.predicate_rest cursor.old) result cursor.new }
    ensures shorter { OnOk result (length cursor.new ≤ length cursor.old) }
{
    let name = any_name(alloc, cursor)?;
    let parameters = variables(alloc, cursor)?;
    Ok(PredicateText { name, parameters })
}

/// A predicate from its first word on.
fn predicate(
    alloc: Global,
    cursor: &mut Cursor<'_>,
    word: &Token<'_>,
) -> Result<PredicateText, Stop>
    ensures reads { Reads (run (opened spec.predicate_rest (class (word_of word.now)) (word_of word.now)) cursor.old) result cursor.new }
    ensures shorter { OnOk result (length cursor.new ≤ length cursor.old) }
{
    match class_of(word) {
        Class::Open => predicate_rest(alloc, cursor),
        _ => Err(cursor.refuse()),
    }
}

/// Predicates up to the closing bracket.
#[tactic(auto, using(crate::proofs::Turns::predicate_turns))]
pub fn predicates(alloc: Global, cursor: &mut Cursor<'_>) -> Result<Items<PredicateText>, Stop>
    ensures reads { Reads (spec.predicates cursor.old) result cursor.new }
    ensures shorter { OnOk result (length cursor.new ≤ length cursor.old) }
{
    let mut parts = Items::new(alloc);
    'parts: loop {
        let word = cursor.next()?;
        if is_close(&word) {
            return Ok(parts);
        }
        let part = predicate(alloc, cursor, &word)?;
        parts.push(part)?;
    }
}

/// A part of a compound task, which stands at most once.
fn task_part(
    alloc: Global,
    cursor: &mut Cursor<'_>,
    word: &Token<'_>,
    parts: &mut TaskParts,
) -> Result<(), Stop>
    ensures reads { Leaves (run (spec.task_part parts.old (class (word_of word.now)) (word_of word.now)) cursor.old) result parts.new cursor.new }
    ensures shorter { OnOk result (length cursor.new ≤ length cursor.old) }
{
    match class_of(word) {
        Class::Keyword(Keyword::Parameters) => {
            once(cursor, &parts.parameters)?;
            parts.parameters = Some(parameters(alloc, cursor)?);
            Ok(())
        }
        Class::Keyword(Keyword::Precondition) => {
            if parts.has_precondition {
                return Err(cursor.refuse());
            }
            empty(cursor)?;
            parts.has_precondition = true;
            Ok(())
        }
        Class::Keyword(Keyword::Effect) => {
            if parts.has_effect {
                return Err(cursor.refuse());
            }
            empty(cursor)?;
            parts.has_effect = true;
            Ok(())
        }
        Class::Keyword(_) => Err(cursor.refuse_unsupported()),
        _ => Err(cursor.refuse()),
    }
}

/// The parts of a compound task up to the closing bracket.
#[tactic(auto, unfolding(crate::specs::Readers::task_parts), using(crate::proofs::Turns::task_turns))]
fn task_parts(alloc: Global, cursor: &mut Cursor<'_>) -> Result<TaskParts, Stop>
    ensures reads { Reads (spec.task_parts cursor.old) result cursor.new }
    ensures shorter { OnOk result (length cursor.new ≤ length cursor.old) }
{
    let mut parts = no_task_parts();
    'parts: loop {
        let word = cursor.next()?;
        if is_close(&word) {
            return Ok(parts);
        }
        task_part(alloc, cursor, &word, &mut parts)?;
    }
}

fn task_of(alloc: Global, name: Name, parts: TaskParts) -> TaskText
    ensures { result ≡ drafts.task_of name parts }
{
    TaskText {
        name,
        parameters: items_or_none(alloc, parts.parameters),
    }
}

/// A compound task after its keyword.
#[tactic(auto, unfolding(crate::specs::Readers::task))]
pub fn task(alloc: Global, cursor: &mut Cursor<'_>) -> Result<TaskText, Stop>
    ensures reads { Reads (spec.task cursor.old) result cursor.new }
    ensures shorter { OnOk result (length cursor.new ≤ length cursor.old) }
{
    let name = any_name(alloc, cursor)?;
    let parts = task_parts(alloc, cursor)?;
    Ok(task_of(alloc, name, parts))
}

/// A part of an action, which stands at most once.
fn action_part(
    alloc: Global,
    cursor: &mut Cursor<'_>,
    word: &Token<'_>,
    parts: &mut ActionParts,
) -> Result<(), Stop>
    ensures reads { Leaves (run (spec.action_part parts.old (class (word_of word.now)) (word_of word.now)) cursor.old) result parts.new cursor.new }
    ensures shorter { OnOk result (length cursor.new ≤ length cursor.old) }
{
    match class_of(word) {
        Class::Keyword(Keyword::Parameters) => {
            once(cursor, &parts.parameters)?;
            parts.parameters = Some(parameters(alloc, cursor)?);
            Ok(())
        }
        Class::Keyword(Keyword::Precondition) => {
            once(cursor, &parts.precondition)?;
            parts.precondition = Some(condition(alloc, cursor)?);
            Ok(())
        }
        Class::Keyword(Keyword::Effect) => {
            once(cursor, &parts.effect)?;
            parts.effect = Some(effect(alloc, cursor)?);
            Ok(())
        }
        Class::Keyword(_) => Err(cursor.refuse_unsupported()),
        _ => Err(cursor.refuse()),
    }
}

/// The parts of an action up to the closing bracket.
#[tactic(auto, unfolding(crate::specs::Readers::action_parts), using(crate::proofs::Turns::action_turns))]
fn action_parts(alloc: Global, cursor: &mut Cursor<'_>) -> Result<ActionParts, Stop>
    ensures reads { Reads (spec.action_parts cursor.old) result cursor.new }
    ensures shorter { OnOk result (length cursor.new ≤ length cursor.old) }
{
    let mut parts = no_action_parts();
    'parts: loop {
        let word = cursor.next()?;
        if is_close(&word) {
            return Ok(parts);
        }
        action_part(alloc, cursor, &word, &mut parts)?;
    }
}

fn action_of(alloc: Global, name: Name, parts: ActionParts) -> ActionText
    ensures { result ≡ drafts.action_of name parts }
{
    let ActionParts {
        parameters,
        precondition,
        effect,
    } = parts;
    ActionText {
        name,
        parameters: items_or_none(alloc, parameters),
        precondition: items_or_none(alloc, precondition),
        effect: items_or_none(alloc, effect),
    }
}

/// An action after its keyword.
#[tactic(auto, unfolding(crate::specs::Readers::action))]
pub fn action(alloc: Global, cursor: &mut Cursor<'_>) -> Result<ActionText, Stop>
    ensures reads { Reads (spec.action cursor.old) result cursor.new }
    ensures shorter { OnOk result (length cursor.new ≤ length cursor.old) }
{
    let name = any_name(alloc, cursor)?;
    let parts = action_parts(alloc, cursor)?;
    Ok(action_of(alloc, name, parts))
}

/// A part of a method, which stands at most once.
#[tactic(auto, using(hddl_words::proofs::Agree::followed_run))]
fn method_part(
    alloc: Global,
    cursor: &mut Cursor<'_>,
    word: &Token<'_>,
    parts: &mut MethodParts,
) -> Result<(), Stop>
    ensures reads { Leaves (run (spec.method_part parts.old (class (word_of word.now)) (word_of word.now)) cursor.old) result parts.new cursor.new }
    ensures shorter { OnOk result (length cursor.new ≤ length cursor.old) }
{
    match class_of(word) {
        Class::Keyword(Keyword::Parameters) => {
            once(cursor, &parts.parameters)?;
            parts.parameters = Some(parameters(alloc, cursor)?);
            Ok(())
        }
        Class::Keyword(Keyword::Task) => {
            once(cursor, &parts.task)?;
            parts.task = Some(atom(alloc, cursor)?);
            Ok(())
        }
        Class::Keyword(Keyword::Precondition) => {
            once(cursor, &parts.precondition)?;
            parts.precondition = Some(condition(alloc, cursor)?);
            Ok(())
        }
        _ => network_part(alloc, cursor, word, &mut parts.network),
    }
}

/// The method that its parts make, or None where its task isn't written.
fn method_of(alloc: Global, place: usize, name: Name, parts: MethodParts) -> Option<MethodText>
    ensures { result ≡ drafts.method_of place name parts }
{
    let MethodParts {
        parameters,
        task,
        precondition,
        network,
    } = parts;
    let task = task?;
    Some(MethodText {
        place,
        name,
        parameters: items_or_none(alloc, parameters),
        task,
        precondition: items_or_none(alloc, precondition),
        network: network_of(alloc, network),
    })
}

/// A method after its name.
#[tactic(auto, unfolding(crate::specs::Readers::named_method))]
fn named_method(
    alloc: Global,
    cursor: &mut Cursor<'_>,
    place: usize,
    name: Name,
) -> Result<MethodText, Stop>
    ensures reads { Reads (spec.named_method place name cursor.old) result cursor.new }
    ensures shorter { OnOk result (length cursor.new ≤ length cursor.old) }
{
    let mut parts = no_method_parts();
    'parts: loop {
        let word = cursor.next()?;
        if is_close(&word) {
            return match method_of(alloc, place, name, parts) {
                Some(method) => Ok(method),
                None => Err(cursor.refuse()),
            };
        }
        method_part(alloc, cursor, &word, &mut parts)?;
    }
}

/// A method after its keyword, where the place of its opening bracket is given.
#[tactic(auto, unfolding(crate::specs::Readers::method))]
pub fn method(alloc: Global, cursor: &mut Cursor<'_>, place: usize) -> Result<MethodText, Stop>
    ensures reads { Reads (spec.method place cursor.old) result cursor.new }
    ensures shorter { OnOk result (length cursor.new ≤ length cursor.old) }
{
    let name = any_name(alloc, cursor)?;
    named_method(alloc, cursor, place, name)
}
