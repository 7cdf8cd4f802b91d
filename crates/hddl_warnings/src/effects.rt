//! Warnings of effects.
ghost use Rattle.std.specs.Prelude.{◌≡◌, ◌++◌, IfOk, OnOk, is_some, not};
ghost use Rattle.hddl_meaning.specs.Mentions.{folded};
ghost use Rattle.hddl_scope.specs.Numbers.{number_at};
ghost use Rattle.hddl_warnings.specs.Known.{Learns};
ghost use Rattle.hddl_warnings.specs.Tells.{Tells};
ghost use Rattle.hddl_warnings.specs.Effects.{effect_text, term_tail};
ghost use Rattle.hddl_warnings.specs.Warnings.{IsAddedAndDeleted, IsOpposed};

use crate::known::learn;
use crate::tell::{in_domain, tell_if};
use crate::warning::{Warning, WarningKind};
use hddl_scope::Numbers;
use hddl_words::{ActionText, AtomText, DomainText, LiteralText, Term};
use std::alloc::{AllocError, Global};

/// Adds bytes in lower case.
fn push_folded(text: &mut Vec<u8>, bytes: &[u8]) -> Result<(), AllocError>
    ensures { OnOk result (text.new.items ≡ text.old.items ++ folded bytes.now) }
{
    for byte in bytes {
        text.push(byte.to_ascii_lowercase())?;
    }
    Ok(())
}

/// Adds a blank and a term in lower case.
fn push_term(text: &mut Vec<u8>, term: &Term) -> Result<(), AllocError>
    ensures { OnOk result (text.new.items ≡ text.old.items ++ term_tail term.now) }
{
    text.push(b' ')?;
    match term {
        Term::Variable(variable) => {
            push_folded(text, variable.text())?;
            Ok(())
        }
        Term::Object(name) => {
            push_folded(text, name.text())?;
            Ok(())
        }
    }
}

/// An atom in lower case, one blank between its words, after a sign.
fn signed_text(alloc: Global, is_positive: bool, atom: &AtomText) -> Result<Vec<u8>, AllocError>
    ensures { IfOk result (λ text. text.items ≡ effect_text is_positive atom.now) }
{
    let mut text = Vec::new(alloc);
    text.push(if is_positive { b'+' } else { b'-' })?;
    push_folded(&mut text, atom.name.text())?;
    for term in atom.terms.as_slice() {
        push_term(&mut text, term)?;
    }
    Ok(text)
}

/// Whether the opposite of an effect is known.
fn is_opposed(alloc: Global, known: &Numbers, literal: &LiteralText) -> Result<bool, AllocError>
    ensures { IfOk result (λ told. told ≡ is_some (number_at known.now (effect_text (not literal.now.is_positive) literal.now.atom))) }
{
    let opposite = signed_text(alloc, !literal.is_positive, &literal.atom)?;
    Ok(known.get(&opposite).is_some())
}

/// Adds an effect, unless it is known.
fn learn_effect(alloc: Global, known: &mut Numbers, literal: &LiteralText) -> Result<(), AllocError>
    ensures { OnOk result (Learns known.old known.new (effect_text literal.now.is_positive literal.now.atom)) }
{
    let own = signed_text(alloc, literal.is_positive, &literal.atom)?;
    learn(alloc, known, &own)?;
    Ok(())
}

/// Warns of effects on an atom on which an earlier effect of the action is the opposite.
fn tell_action(
    alloc: Global,
    out: &mut Vec<Warning>,
    effects: &[LiteralText],
) -> Result<(), AllocError>
    ensures { OnOk result (Tells out.old.items out.new.items (IsOpposed effects.now)) }
{
    let mut known = Numbers::with_capacity(alloc, effects.len())?;
    for literal in effects {
        let is_told = is_opposed(alloc, &known, literal)?;
        let warning = in_domain(WarningKind::AddedAndDeleted, literal.atom.name.place());
        tell_if(out, is_told, warning)?;
        learn_effect(alloc, &mut known, literal)?;
    }
    Ok(())
}

/// Warns of atoms that an action adds and deletes.
pub(crate) fn tell_effects(
    alloc: Global,
    out: &mut Vec<Warning>,
    domain: &DomainText,
) -> Result<(), AllocError>
    ensures { OnOk result (Tells out.old.items out.new.items (IsAddedAndDeleted domain.now)) }
{
    for action in domain.actions.as_slice() {
        tell_action(alloc, out, action.effect.as_slice())?;
    }
    Ok(())
}
