//! The types of each object, where they are known.
ghost use Rattle.std.specs.Prelude.{◌≡◌, ◌↔◌, IfOk, IsTrue, MatchOption};
ghost use Rattle.hddl_meaning.specs.Building.{vocabulary_of};
ghost use Rattle.hddl_meaning.specs.Mentions.{typed_names};
ghost use Rattle.hddl_names.specs.Members.{AreDeclaredTypes};
ghost use Rattle.hddl_uses.specs.Known.{AllTyped, AreKnown};

use hddl_names::{DeclaredTypes, TypeHierarchy, Vocabulary};
use hddl_words::{NameGroup, ProblemText};
use std::alloc::{AllocError, Global};

/// As many as sixteen bits number.
const MOST_OBJECTS: usize = 65_536;

/// Whether the type of each name of a typed list is declared.
fn are_typed(alloc: Global, types: &TypeHierarchy, groups: &[NameGroup]) -> Result<bool, AllocError>
    ensures { IfOk result (λ typed. IsTrue typed ↔ AllTyped types.now (typed_names groups.now)) }
{
    for group in groups {
        if !group.names.is_empty() && types.type_of(alloc, &group.of_type)?.is_none() {
            return Ok(false);
        }
    }
    Ok(true)
}

/// The types of each object. None where one of these isn't declared, or there are more objects than can be numbered.
pub(crate) fn known_objects(
    alloc: Global,
    problem: &ProblemText,
    vocabulary: &Vocabulary,
    types: &TypeHierarchy,
) -> Result<Option<DeclaredTypes>, AllocError>
    requires { vocabulary.now ≡ vocabulary_of types.now problem.now }
    ensures { IfOk result (λ objects. MatchOption objects (AreKnown types.now problem.now → ⊥)
        (λ o. AreKnown types.now problem.now × AreDeclaredTypes types.now problem.now o)) }
{
    let constants = are_typed(alloc, types, types.domain().constants.as_slice())?;
    let objects = are_typed(alloc, types, problem.objects.as_slice())?;
    if !constants || !objects || vocabulary.objects().len() > MOST_OBJECTS {
        return Ok(None);
    }
    let all = DeclaredTypes::of(alloc, problem, vocabulary, types)?;
    Ok(Some(all))
}
