//! Terms, and atoms, tasks and equalities over them.
ghost use Rattle.std.specs.Prelude.{◌≡◌, map, IfOk};
ghost use Rattle.hddl_meaning.specs.Building as building;
ghost use Rattle.hddl_build.specs.Vocabularies.{IsNumbered};
ghost use Rattle.htn_task.specs.Views as views;

use crate::number::{number_of, number_of_task};
use crate::scope::Scope;
use hddl_names::Vocabulary;
use hddl_words::{AtomText, EqualityText, Term};
use htn_task::{AtomSchema, EqualitySchema, TaskSchema, TermList};
use std::alloc::{AllocError, Global};

/// A term under the variables in force.
fn term_of(
    alloc: Global,
    vocabulary: &Vocabulary,
    scope: &Scope<'_>,
    term: &Term,
) -> Result<htn_task::Term, AllocError>
    requires { IsNumbered vocabulary.now }
    ensures { IfOk result (λ t. views.term_of t ≡ building.term_of vocabulary.now scope.now term.now) }
{
    match term {
        Term::Variable(variable) => {
            let number = scope.number_of(alloc, variable)?;
            Ok(htn_task::Term::Parameter(number))
        }
        Term::Object(name) => {
            let number = number_of(alloc, vocabulary.objects(), name)?;
            Ok(htn_task::Term::Object(number))
        }
    }
}

fn terms_of(
    alloc: Global,
    vocabulary: &Vocabulary,
    scope: &Scope<'_>,
    terms: &[Term],
) -> Result<TermList, AllocError>
    requires { IsNumbered vocabulary.now }
    ensures { IfOk result (λ l. l ≡ map (building.term_of vocabulary.now scope.now) terms.now) }
{
    let mut found = Vec::with_capacity(alloc, terms.len())?;
    for term in terms {
        found.push(term_of(alloc, vocabulary, scope, term)?)?;
    }
    Ok(TermList::of(found))
}

/// A predicate at terms.
pub(crate) fn atom_of(
    alloc: Global,
    vocabulary: &Vocabulary,
    scope: &Scope<'_>,
    atom: &AtomText,
) -> Result<AtomSchema, AllocError>
    requires { IsNumbered vocabulary.now }
    ensures { IfOk result (λ a. a ≡ building.atom_of vocabulary.now scope.now atom.now) }
{
    let predicate = number_of(alloc, vocabulary.predicates(), &atom.name)?;
    let arguments = terms_of(alloc, vocabulary, scope, atom.terms.as_slice())?;
    Ok(AtomSchema::new(predicate, arguments))
}

/// A compound task or an action at terms.
pub(crate) fn subtask_of(
    alloc: Global,
    vocabulary: &Vocabulary,
    scope: &Scope<'_>,
    task: &AtomText,
) -> Result<TaskSchema, AllocError>
    requires { IsNumbered vocabulary.now }
    ensures { IfOk result (λ s. s ≡ building.subtask_of vocabulary.now scope.now task.now) }
{
    let name = number_of_task(alloc, vocabulary.tasks(), &task.name)?;
    let arguments = terms_of(alloc, vocabulary, scope, task.terms.as_slice())?;
    Ok(TaskSchema::new(name, arguments))
}

pub(crate) fn equality_of(
    alloc: Global,
    vocabulary: &Vocabulary,
    scope: &Scope<'_>,
    equality: &EqualityText,
) -> Result<EqualitySchema, AllocError>
    requires { IsNumbered vocabulary.now }
    ensures { IfOk result (λ e. e ≡ building.equality_of vocabulary.now scope.now equality.now) }
{
    let left = term_of(alloc, vocabulary, scope, &equality.left)?;
    let right = term_of(alloc, vocabulary, scope, &equality.right)?;
    Ok(EqualitySchema::new(equality.is_positive, left, right))
}
