//! Reads task networks.

ghost use Rattle.std.specs.Prelude.{◌≡◌, ◌≤◌, [], ◌∷◌, length, IfOk, OnOk};
ghost use Rattle.hddl_words.specs.Class.{class_of as class};
ghost use Rattle.hddl_words.specs.Reading.{Reads, Leaves, run, list_of, opened};
ghost use Rattle.hddl_words.specs.Words.{word_of};
ghost use Rattle.hddl_text.specs.Readers as spec;

use crate::conditions::constraint;
use crate::parts::NetworkParts;
use crate::terms::{atom_rest, terms_after};
use crate::words::{any_name, closing, is_close, less_sign, once, opening};
use hddl_words::{
    AtomText, Class, Cursor, Items, Keyword, Name, OrderingText, Stop, SubtaskText, Term, Token,
    Variable, class_of,
};
use std::alloc::{AllocError, Global};

/// A list of one item.
fn only<T: Drop>(alloc: Global, item: T) -> Result<Items<T>, AllocError>
    ensures { IfOk result (λ items. items ≡ item ∷ []) }
{
    let mut items = Items::new(alloc);
    items.push(item)?;
    Ok(items)
}

/// A subtask with a name, after the second bracket.
#[tactic(auto, unfolding(crate::specs::Readers::labelled_subtask))]
fn labelled_subtask(
    alloc: Global,
    cursor: &mut Cursor<'_>,
    label: Name,
) -> Result<SubtaskText, Stop>
    ensures reads { Reads (spec.labelled_subtask label cursor.old) result cursor.new }
    ensures shorter { OnOk result (length cursor.new ≤ length cursor.old) }
{
    let name = any_name(alloc, cursor)?;
    let task = atom_rest(alloc, cursor, name)?;
    closing(cursor)?;
    Ok(SubtaskText {
        label: Some(label),
        task,
    })
}

/// A subtask without a name, after its first term.
#[tactic(auto, unfolding(crate::specs::Readers::unlabelled))]
fn unlabelled(
    alloc: Global,
    cursor: &mut Cursor<'_>,
    name: Name,
    first: Term,
) -> Result<SubtaskText, Stop>
    ensures reads { Reads (spec.unlabelled name first cursor.old) result cursor.new }
    ensures shorter { OnOk result (length cursor.new ≤ length cursor.old) }
{
    let before = only(alloc, first)?;
    let terms = terms_after(alloc, cursor, before)?;
    Ok(SubtaskText {
        label: None,
        task: AtomText { name, terms },
    })
}

/// A subtask after its first name.
#[tactic(auto, unfolding(crate::specs::Readers::named_subtask))]
fn named_subtask(alloc: Global, cursor: &mut Cursor<'_>, name: Name) -> Result<SubtaskText, Stop>
    ensures reads { Reads (spec.named_subtask name cursor.old) result cursor.new }
    ensures shorter { OnOk result (length cursor.new ≤ length cursor.old) }
{
    let word = cursor.next()?;
    match class_of(&word) {
        Class::Open => labelled_subtask(alloc, cursor, name),
        Class::Close => Ok(SubtaskText {
            label: None,
            task: AtomText {
                name,
                terms: Items::new(alloc),
            },
        }),
        Class::Variable => {
            let first = Term::Variable(Variable::new(alloc, &word)?);
            unlabelled(alloc, cursor, name, first)
        }
        Class::Name => {
            let first = Term::Object(Name::new(alloc, &word)?);
            unlabelled(alloc, cursor, name, first)
        }
        Class::Forall | Class::Reserved => Err(cursor.refuse_unsupported()),
        _ => Err(cursor.refuse()),
    }
}

/// A subtask after its opening bracket.
#[tactic(auto, unfolding(crate::specs::Readers::subtask_rest))]
fn subtask_rest(alloc: Global, cursor: &mut Cursor<'_>) -> Result<SubtaskText, Stop>
    ensures reads { Reads (spec.subtask_rest cursor.old) result cursor.new }
    ensures shorter { OnOk result (length cursor.new ≤ length cursor.old) }
{
    let name = any_name(alloc, cursor)?;
    named_subtask(alloc, cursor, name)
}

/// A subtask from its first word on.
fn subtask(alloc: Global, cursor: &mut Cursor<'_>, word: &Token<'_>) -> Result<SubtaskText, Stop>
    ensures reads { Reads (run (opened spec.subtask_rest (class (word_of word.now)) (word_of word.now)) cursor.old) result cursor.new }
    ensures shorter { OnOk result (length cursor.new ≤ length cursor.old) }
{
    match class_of(word) {
        Class::Open => subtask_rest(alloc, cursor),
        _ => Err(cursor.refuse()),
    }
}

/// Subtasks up to the closing bracket.
#[tactic(auto, using(crate::proofs::Turns::subtask_turns))]
fn subtasks(alloc: Global, cursor: &mut Cursor<'_>) -> Result<Items<SubtaskText>, Stop>
    ensures reads { Reads (list_of (opened spec.subtask_rest) cursor.old) result cursor.new }
    ensures shorter { OnOk result (length cursor.new ≤ length cursor.old) }
{
    let mut parts = Items::new(alloc);
    'parts: loop {
        let word = cursor.next()?;
        if is_close(&word) {
            return Ok(parts);
        }
        let part = subtask(alloc, cursor, &word)?;
        parts.push(part)?;
    }
}

/// The subtasks of a network, in its brackets.
#[tactic(auto, unfolding(crate::specs::Readers::net))]
fn net(alloc: Global, cursor: &mut Cursor<'_>) -> Result<Items<SubtaskText>, Stop>
    ensures reads { Reads (spec.net cursor.old) result cursor.new }
    ensures shorter { OnOk result (length cursor.new ≤ length cursor.old) }
{
    opening(cursor)?;
    let word = cursor.next()?;
    match class_of(&word) {
        Class::Close => Ok(Items::new(alloc)),
        Class::And => subtasks(alloc, cursor),
        Class::Name => {
            let name = Name::new(alloc, &word)?;
            let subtask = named_subtask(alloc, cursor, name)?;
            Ok(only(alloc, subtask)?)
        }
        Class::Forall | Class::Reserved => Err(cursor.refuse_unsupported()),
        _ => Err(cursor.refuse()),
    }
}

/// A pair after `<`.
#[tactic(auto, unfolding(crate::specs::Readers::prefix_pair))]
fn prefix_pair(alloc: Global, cursor: &mut Cursor<'_>) -> Result<OrderingText, Stop>
    ensures reads { Reads (spec.prefix_pair cursor.old) result cursor.new }
    ensures shorter { OnOk result (length cursor.new ≤ length cursor.old) }
{
    let before = any_name(alloc, cursor)?;
    let after = any_name(alloc, cursor)?;
    closing(cursor)?;
    Ok(OrderingText { before, after })
}

/// A pair after its first name.
#[tactic(auto, unfolding(crate::specs::Readers::infix_pair))]
fn infix_pair(alloc: Global, cursor: &mut Cursor<'_>, before: Name) -> Result<OrderingText, Stop>
    ensures reads { Reads (spec.infix_pair before cursor.old) result cursor.new }
    ensures shorter { OnOk result (length cursor.new ≤ length cursor.old) }
{
    less_sign(cursor)?;
    let after = any_name(alloc, cursor)?;
    closing(cursor)?;
    Ok(OrderingText { before, after })
}

/// A pair from its first word inside the bracket on.
fn pair_body(alloc: Global, cursor: &mut Cursor<'_>, word: &Token<'_>) -> Result<OrderingText, Stop>
    ensures reads { Reads (run (spec.pair_body (class (word_of word.now)) (word_of word.now)) cursor.old) result cursor.new }
    ensures shorter { OnOk result (length cursor.new ≤ length cursor.old) }
{
    match class_of(word) {
        Class::Less => prefix_pair(alloc, cursor),
        Class::Name => {
            let before = Name::new(alloc, word)?;
            infix_pair(alloc, cursor, before)
        }
        Class::Forall | Class::Reserved => Err(cursor.refuse_unsupported()),
        _ => Err(cursor.refuse()),
    }
}

/// A pair after its opening bracket.
#[tactic(auto, unfolding(crate::specs::Readers::pair_rest))]
fn pair_rest(alloc: Global, cursor: &mut Cursor<'_>) -> Result<OrderingText, Stop>
    ensures reads { Reads (spec.pair_rest cursor.old) result cursor.new }
    ensures shorter { OnOk result (length cursor.new ≤ length cursor.old) }
{
    let word = cursor.next()?;
    pair_body(alloc, cursor, &word)
}

/// A pair from its first word on.
fn pair(alloc: Global, cursor: &mut Cursor<'_>, word: &Token<'_>) -> Result<OrderingText, Stop>
    ensures reads { Reads (run (opened spec.pair_rest (class (word_of word.now)) (word_of word.now)) cursor.old) result cursor.new }
    ensures shorter { OnOk result (length cursor.new ≤ length cursor.old) }
{
    match class_of(word) {
        Class::Open => pair_rest(alloc, cursor),
        _ => Err(cursor.refuse()),
    }
}

/// Pairs up to the closing bracket.
#[tactic(auto, using(crate::proofs::Turns::pair_turns))]
fn pairs(alloc: Global, cursor: &mut Cursor<'_>) -> Result<Items<OrderingText>, Stop>
    ensures reads { Reads (list_of (opened spec.pair_rest) cursor.old) result cursor.new }
    ensures shorter { OnOk result (length cursor.new ≤ length cursor.old) }
{
    let mut parts = Items::new(alloc);
    'parts: loop {
        let word = cursor.next()?;
        if is_close(&word) {
            return Ok(parts);
        }
        let part = pair(alloc, cursor, &word)?;
        parts.push(part)?;
    }
}

/// The pairs of an ordering, in its brackets.
#[tactic(auto, unfolding(crate::specs::Readers::orderings))]
fn orderings(alloc: Global, cursor: &mut Cursor<'_>) -> Result<Items<OrderingText>, Stop>
    ensures reads { Reads (spec.orderings cursor.old) result cursor.new }
    ensures shorter { OnOk result (length cursor.new ≤ length cursor.old) }
{
    opening(cursor)?;
    let word = cursor.next()?;
    match class_of(&word) {
        Class::Close => Ok(Items::new(alloc)),
        Class::And => pairs(alloc, cursor),
        _ => {
            let pair = pair_body(alloc, cursor, &word)?;
            Ok(only(alloc, pair)?)
        }
    }
}

/// The subtasks of a network, which stand at most once.
fn subtasks_part(
    alloc: Global,
    cursor: &mut Cursor<'_>,
    is_ordered: bool,
    parts: &mut NetworkParts,
) -> Result<(), Stop>
    ensures reads { Leaves (run (spec.subtasks_part is_ordered parts.old) cursor.old) result parts.new cursor.new }
    ensures shorter { OnOk result (length cursor.new ≤ length cursor.old) }
{
    once(cursor, &parts.subtasks)?;
    parts.subtasks = Some(net(alloc, cursor)?);
    parts.is_ordered = is_ordered;
    Ok(())
}

/// A part of a network, which stands at most once.
pub fn network_part(
    alloc: Global,
    cursor: &mut Cursor<'_>,
    word: &Token<'_>,
    parts: &mut NetworkParts,
) -> Result<(), Stop>
    ensures reads { Leaves (run (spec.network_part parts.old (class (word_of word.now)) (word_of word.now)) cursor.old) result parts.new cursor.new }
    ensures shorter { OnOk result (length cursor.new ≤ length cursor.old) }
{
    match class_of(word) {
        Class::Keyword(Keyword::Subtasks) => subtasks_part(alloc, cursor, false, parts),
        Class::Keyword(Keyword::OrderedSubtasks) => subtasks_part(alloc, cursor, true, parts),
        Class::Keyword(Keyword::Ordering) => {
            once(cursor, &parts.orderings)?;
            parts.orderings = Some(orderings(alloc, cursor)?);
            Ok(())
        }
        Class::Keyword(Keyword::Constraints) => {
            once(cursor, &parts.constraints)?;
            parts.constraints = Some(constraint(alloc, cursor)?);
            Ok(())
        }
        Class::Keyword(_) => Err(cursor.refuse_unsupported()),
        _ => Err(cursor.refuse()),
    }
}
