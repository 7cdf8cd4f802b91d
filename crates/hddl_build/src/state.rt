//! The initial atoms.
ghost use Rattle.std.specs.Prelude.{◌≡◌, [], map, IfOk};
ghost use Rattle.htn_model.specs.State.{set_of};
ghost use Rattle.htn_model.specs.Instances.{ground_atom, value_of};
ghost use Rattle.hddl_meaning.specs.Building as building;
ghost use Rattle.hddl_build.specs.Vocabularies.{IsNumbered};

use crate::number::number_of;
use hddl_names::Vocabulary;
use hddl_words::{AtomText, Term};
use htn_task::{Atom, State};
use std::alloc::{AllocError, Global};

/// The number of an object, or 0 for a variable, which no initial atom of a pair that fits together has.
fn object_of(alloc: Global, vocabulary: &Vocabulary, term: &Term) -> Result<u16, AllocError>
    requires { IsNumbered vocabulary.now }
    ensures { IfOk result (λ o. o ≡ value_of [] (building.term_of vocabulary.now [] term.now)) }
{
    match term {
        Term::Variable(_) => Ok(0),
        Term::Object(name) => {
            let number = number_of(alloc, vocabulary.objects(), name)?;
            Ok(number)
        }
    }
}

fn ground_atom_of(
    alloc: Global,
    vocabulary: &Vocabulary,
    atom: &AtomText,
) -> Result<Atom, AllocError>
    requires { IsNumbered vocabulary.now }
    ensures { IfOk result (λ a. a ≡ ground_atom [] (building.atom_of vocabulary.now [] atom.now)) }
{
    let predicate = number_of(alloc, vocabulary.predicates(), &atom.name)?;
    let mut objects = Vec::with_capacity(alloc, atom.terms.len())?;
    for term in atom.terms.as_slice() {
        objects.push(object_of(alloc, vocabulary, term)?)?;
    }
    let ground = Atom::new(alloc, predicate, &objects)?;
    Ok(ground)
}

/// The initial atoms, as a set.
pub(crate) fn state_of(
    alloc: Global,
    vocabulary: &Vocabulary,
    init: &[AtomText],
) -> Result<State, AllocError>
    requires { IsNumbered vocabulary.now }
    ensures { IfOk result (λ s. s ≡ set_of (map (λ a. ground_atom [] (building.atom_of vocabulary.now [] a)) init.now)) }
{
    let mut atoms = Vec::with_capacity(alloc, init.len())?;
    for atom in init {
        atoms.push(ground_atom_of(alloc, vocabulary, atom)?)?;
    }
    let state = State::of(alloc, &atoms)?;
    Ok(state)
}
