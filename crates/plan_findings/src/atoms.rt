//! Atoms, literals and tasks as they are written.

ghost use Rattle.std.specs.Prelude.{◌≡◌, ◌++◌, ◌∷◌, [], IfOk, OnOk, false, map};
ghost use Rattle.std.specs.List.{flat_map};
ghost use Rattle.htn_ground.specs.Naming as naming;
ghost use Rattle.htn_task.specs.Literals.{literal_of};
ghost use Rattle.plan_findings.specs.Words as spec;
ghost use Rattle.plan_findings.specs.Words.{spaced};

use htn_task::{Atom, Literal, Task};
use plan_text::{ActionLine, Word};
use std::alloc::{AllocError, Global};

/// The name of an object.
pub(crate) fn object_name(task: &Task, object: u16) -> &[u8]
    ensures { result.now ≡ naming.object_name task.now object }
{
    match task.objects().get(object as usize) {
        Some(name) => name.as_bytes(),
        None => b"?",
    }
}

/// The name of a predicate.
pub(crate) fn predicate_name(task: &Task, predicate: u16) -> &[u8]
    ensures { result.now ≡ spec.predicate_name task.now predicate }
{
    match task.predicates().get(predicate as usize) {
        Some(declared) => declared.name().as_bytes(),
        None => b"?",
    }
}

/// Adds a word after a blank.
fn push_word(text: &mut Vec<u8>, word: &[u8]) -> Result<(), AllocError>
    ensures { OnOk result (text.new.items ≡ text.old.items ++ spaced word.now) }
{
    text.push(b' ')?;
    text.extend_from_slice(word)?;
    Ok(())
}

/// Adds the names of objects, each after a blank.
fn push_objects(text: &mut Vec<u8>, task: &Task, objects: &[u16]) -> Result<(), AllocError>
    ensures { OnOk result (text.new.items ≡ text.old.items ++ flat_map spaced (map (naming.object_name task.now) objects.now)) }
{
    for object in objects {
        push_word(text, object_name(task, *object))?;
    }
    Ok(())
}

/// A word and the names of objects in brackets, as `(at truck junction)`.
fn bracketed(
    alloc: Global,
    task: &Task,
    word: &[u8],
    objects: &[u16],
) -> Result<Vec<u8>, AllocError>
    ensures { IfOk result (λ v. v.items ≡ spec.bracketed word.now (map (naming.object_name task.now) objects.now)) }
{
    let mut text = Vec::new(alloc);
    text.push(b'(')?;
    text.extend_from_slice(word)?;
    push_objects(&mut text, task, objects)?;
    text.push(b')')?;
    Ok(text)
}

/// An atom, as `(at truck junction)`.
fn written_atom(alloc: Global, task: &Task, atom: &Atom) -> Result<Vec<u8>, AllocError>
    ensures { IfOk result (λ v. v.items ≡ spec.atom_text task.now atom.now) }
{
    let name = predicate_name(task, atom.predicate());
    bracketed(alloc, task, name, atom.arguments())
}

/// The atom or the equality of a literal, without its sign, as `(at truck junction)` or `(= a b)`.
pub fn core_text(alloc: Global, task: &Task, literal: &Literal) -> Result<Vec<u8>, AllocError>
    ensures { IfOk result (λ v. v.items ≡ spec.core_text task.now (literal_of literal.now)) }
{
    match literal {
        Literal::Positive(atom) | Literal::Negative(atom) => written_atom(alloc, task, atom),
        Literal::Same(left, right) | Literal::Different(left, right) => {
            bracketed(alloc, task, b"=", &[*left, *right])
        }
    }
}

/// Whether a literal is positive.
fn is_positive(literal: &Literal) -> bool
    ensures { result ≡ spec.is_positive (literal_of literal.now) }
{
    match literal {
        Literal::Positive(_) | Literal::Same(_, _) => true,
        Literal::Negative(_) | Literal::Different(_, _) => false,
    }
}

/// A literal, as `(at truck junction)` or `(not (full box))`.
pub fn literal_text(alloc: Global, task: &Task, literal: &Literal) -> Result<Vec<u8>, AllocError>
    ensures { IfOk result (λ v. v.items ≡ spec.literal_text task.now (literal_of literal.now)) }
{
    let core = core_text(alloc, task, literal)?;
    if is_positive(literal) {
        return Ok(core);
    }
    let text = negated(alloc, core.as_slice())?;
    Ok(text)
}

/// A text under `not`.
fn negated(alloc: Global, core: &[u8]) -> Result<Vec<u8>, AllocError>
    ensures { IfOk result (λ v. v.items ≡ spec.signed false core.now) }
{
    let mut text = Vec::new(alloc);
    text.extend_from_slice(b"(not ")?;
    text.extend_from_slice(core)?;
    text.push(b')')?;
    Ok(text)
}

/// Adds words, each after a blank.
fn push_words(text: &mut Vec<u8>, words: &[Word]) -> Result<(), AllocError>
    ensures { OnOk result (text.new.items ≡ text.old.items ++ flat_map spaced words.now) }
{
    for word in words {
        push_word(text, word.as_bytes())?;
    }
    Ok(())
}

/// The action of a line: `(pick-up truck junction grain)`.
pub(crate) fn action_text(alloc: Global, line: &ActionLine) -> Result<Vec<u8>, AllocError>
    ensures { IfOk result (λ v. v.items ≡ spec.bracketed line.now.name line.now.arguments) }
{
    let mut text = Vec::new(alloc);
    text.push(b'(')?;
    text.extend_from_slice(line.name().as_bytes())?;
    push_words(&mut text, line.arguments())?;
    text.push(b')')?;
    Ok(text)
}
