//! Texts that are known: those that a domain and a problem use.
ghost use Rattle.std.specs.Prelude.{◌≡◌, IfOk, OnOk, map};
ghost use Rattle.hddl_meaning.specs.Mentions.{folded};
ghost use Rattle.hddl_warnings.specs.Known.{Knows, Learns};
ghost use Rattle.hddl_warnings.specs.Used.{name_text, term_text};

use hddl_names::fold;
use hddl_scope::Numbers;
use hddl_words::{AtomText, Name, Term};
use std::alloc::{AllocError, Global};

/// Adds a text, unless it is known.
pub(crate) fn learn(alloc: Global, known: &mut Numbers, text: &[u8]) -> Result<(), AllocError>
    ensures { OnOk result (Learns known.old known.new text.now) }
{
    if known.get(text).is_some() {
        return Ok(());
    }
    known.add(alloc, text, 0)?;
    Ok(())
}

/// Adds bytes in lower case, unless they are known.
fn learn_folded(alloc: Global, known: &mut Numbers, bytes: &[u8]) -> Result<(), AllocError>
    ensures { OnOk result (Learns known.old known.new (folded bytes.now)) }
{
    let text = fold(alloc, bytes)?;
    learn(alloc, known, text.as_slice())?;
    Ok(())
}

/// Adds the text of a term.
fn learn_term(alloc: Global, known: &mut Numbers, term: &Term) -> Result<(), AllocError>
    ensures { OnOk result (Learns known.old known.new (term_text term.now)) }
{
    match term {
        Term::Variable(variable) => {
            learn_folded(alloc, known, variable.text())?;
            Ok(())
        }
        Term::Object(name) => {
            learn_folded(alloc, known, name.text())?;
            Ok(())
        }
    }
}

/// The texts of names.
pub(crate) fn known_names(alloc: Global, names: &[&Name]) -> Result<Numbers, AllocError>
    ensures { IfOk result (λ known. Knows known (map name_text (map (λ x. x.now) names.now))) }
{
    let mut known = Numbers::with_capacity(alloc, names.len())?;
    for name in names {
        learn_folded(alloc, &mut known, name.text())?;
    }
    Ok(known)
}

/// The texts of terms.
pub(crate) fn known_terms(alloc: Global, terms: &[&Term]) -> Result<Numbers, AllocError>
    ensures { IfOk result (λ known. Knows known (map term_text (map (λ x. x.now) terms.now))) }
{
    let mut known = Numbers::with_capacity(alloc, terms.len())?;
    for term in terms {
        learn_term(alloc, &mut known, term)?;
    }
    Ok(known)
}

/// The names of the predicates of atoms.
pub(crate) fn known_predicates(alloc: Global, atoms: &[&AtomText]) -> Result<Numbers, AllocError>
    ensures { IfOk result (λ known. Knows known (map (λ a. name_text a.name) (map (λ x. x.now) atoms.now))) }
{
    let mut known = Numbers::with_capacity(alloc, atoms.len())?;
    for atom in atoms {
        learn_folded(alloc, &mut known, atom.name.text())?;
    }
    Ok(known)
}
