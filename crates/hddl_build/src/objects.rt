//! Objects and types.
ghost use Rattle.std.specs.Prelude.{◌≡◌, ◌<◌, ◌≤◌, [], length, map, get_or, IfOk};
ghost use Rattle.hddl_meaning.specs.Building.{vocabulary_of};
ghost use Rattle.hddl_meaning.specs.Names.{object_names, type_names};
ghost use Rattle.hddl_names.specs.Members.{AreNamedMembersOf, AreTyped};
ghost use Rattle.hddl_names.specs.Rows.{lists_of};

use hddl_names::{Names, ObjectsByType, TypeHierarchy, Vocabulary};
use hddl_words::ProblemText;
use htn_task::{Name, ObjectType};
use std::alloc::{AllocError, Global};

/// The name of that number.
fn name_at(alloc: Global, names: &Names, number: usize) -> Result<Name, AllocError>
    requires { number < length names.now }
    ensures { IfOk result (λ n. n ≡ get_or names.now number []) }
{
    match names.get(number) {
        Some(text) => {
            let name = Name::new(alloc, text)?;
            Ok(name)
        }
        None => unreachable!(),
    }
}

/// The names in the order of their numbers.
pub(crate) fn names_of(alloc: Global, names: &Names) -> Result<Vec<Name>, AllocError>
    ensures { IfOk result (λ found. found.items ≡ names.now) }
{
    let mut found = Vec::new(alloc);
    for number in 0..names.len() {
        found.push(name_at(alloc, names, number)?)?;
    }
    Ok(found)
}

/// The type of a number, with its objects.
fn object_type(
    alloc: Global,
    names: &Names,
    number: usize,
    objects: Vec<u16>,
) -> Result<ObjectType, AllocError>
    requires { number < length names.now }
    ensures name { IfOk result (λ t. t.name ≡ get_or names.now number []) }
    ensures objects { IfOk result (λ t. t.objects ≡ objects.items) }
{
    let name = name_at(alloc, names, number)?;
    Ok(ObjectType::new(name, objects))
}

/// The types, each with its objects.
fn object_types(
    alloc: Global,
    names: &Names,
    lists: Vec<Vec<u16>>,
) -> Result<Vec<ObjectType>, AllocError>
    requires { length lists.items ≡ length names.now }
    ensures names { IfOk result (λ found. map (λ t. t.name) found.items ≡ names.now) }
    ensures objects { IfOk result (λ found. map (λ t. t.objects) found.items ≡ lists_of lists.items) }
{
    let mut found = Vec::new(alloc);
    for objects in lists {
        let number = found.len();
        found.push(object_type(alloc, names, number, objects)?)?;
    }
    Ok(found)
}

/// The types, each with its objects where its number is named, and with none where it isn't.
pub(crate) fn types_with_objects(
    alloc: Global,
    problem: &ProblemText,
    vocabulary: &Vocabulary,
    types: &TypeHierarchy,
    named: &[u16],
) -> Result<Vec<ObjectType>, AllocError>
    requires vocabulary { vocabulary.now ≡ vocabulary_of types.now problem.now }
    requires few { length (object_names types.now problem.now) ≤ 65536 }
    requires typed { AreTyped types.now problem.now }
    ensures names { IfOk result (λ found. map (λ t. t.name) found.items ≡ type_names types.now) }
    ensures objects { IfOk result (λ found. AreNamedMembersOf types.now problem.now named.now (map (λ t. t.objects) found.items)) }
{
    let objects = ObjectsByType::of_named(alloc, problem, vocabulary, types, named)?;
    let found = object_types(alloc, vocabulary.types(), objects.into_lists())?;
    Ok(found)
}
