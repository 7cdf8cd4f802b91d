//! The objects of each type.
ghost use Rattle.std.specs.Prelude.{◌≡◌, ℕ, ◌<◌, ◌≤◌, ◌++◌, ◌∷◌, [], false, IfOk, OnOk, All, length, get_or, slice_set, replicate, nat_eq, cond};
ghost use Rattle.std.specs.List.{filter, list_any, IsDistinct};
ghost use Rattle.hddl_meaning.specs.Names.{object_names, type_names};
ghost use Rattle.hddl_meaning.specs.Building.{vocabulary_of};
ghost use Rattle.hddl_names.specs.Members.{AreTyped, AreNamedMembersOf, AreFilled, IsFlaggedAbove};
ghost use Rattle.hddl_names.specs.TypeNumbers.{numbered_pairs};
ghost use Rattle.hddl_names.specs.Rows.{lists_of};

use crate::declared_types::DeclaredTypes;
use crate::hierarchy::TypeHierarchy;
use crate::vocabulary::Vocabulary;
use hddl_words::ProblemText;
use indexmap::IndexSet;
use std::alloc::{AllocError, Global};
use std::marker::Model;

/// The objects of each type, by number. Contracts see the lists, one for each type.
#[derive(Drop)]
pub struct ObjectsByType {
    lists: Vec<Vec<u16>>,
}

impl Model for ObjectsByType {
    ghost use Rattle.std.specs.Prelude.{List, ℕ};
    ghost use Rattle.hddl_names.specs.Rows.{lists_of};

    ghost Value = { List (List ℕ) };

    ghost view = { λ objects. lists_of objects.lists.items };
}

/// For each number below a count, whether it is among these.
fn flags_of(alloc: Global, count: usize, numbers: &[u16]) -> Result<Vec<bool>, AllocError>
    ensures { IfOk result (λ flags. (k : ℕ) → k < count → get_or flags.items k false ≡ list_any (nat_eq k) numbers.now) }
{
    let mut flags = vec![in alloc; false; count]?;
    for number in numbers {
        let number = *number as usize;
        if number < flags.len() {
            flags[number] = true;
        }
    }
    Ok(flags)
}

/// Whether a number has a flag.
fn has_flag(flags: &[bool], number: usize) -> bool
    ensures { result ≡ get_or flags.now number false }
{
    match flags.get(number) {
        Some(flag) => *flag,
        None => false,
    }
}

/// The numbers that have a flag, of a list in which each number comes once.
fn flagged(alloc: Global, flags: &[bool], numbers: &[usize]) -> Result<Vec<usize>, AllocError>
    requires { IsDistinct nat_eq numbers.now }
    ensures items { IfOk result (λ found. found.items ≡ filter (λ n. get_or flags.now n false) numbers.now) }
    ensures different { IfOk result (λ found. IsDistinct nat_eq found.items) }
{
    let mut found = Vec::new(alloc);
    for number in numbers {
        if has_flag(flags, *number) {
            found.push(*number)?;
        }
    }
    Ok(found)
}

/// The types that have a flag, of the types in a row and those above them.
fn flagged_above(
    alloc: Global,
    types: &TypeHierarchy,
    flags: &[bool],
    row: &[usize],
) -> Result<Vec<usize>, AllocError>
    requires { All (λ t. t < length (type_names types.now)) row.now }
    ensures { IfOk result (λ found. IsFlaggedAbove (numbered_pairs types.now) flags.now row.now found.items) }
{
    let all = types.all_above(alloc, row)?;
    let found = flagged(alloc, flags, all.as_slice())?;
    Ok(found)
}

impl ObjectsByType {
    /// No objects.
    fn new(alloc: Global, types: usize) -> Result<ObjectsByType, AllocError>
        ensures { IfOk result (λ objects. objects ≡ replicate types []) }
    {
        let mut lists = Vec::new(alloc);
        for i in 0..types {
            let _list = i;
            lists.push(Vec::new(alloc))?;
        }
        Ok(ObjectsByType { lists })
    }

    /// Adds an object to a type's list.
    fn push(&mut self, of_type: usize, object: u16) -> Result<(), AllocError>
        requires { of_type < length self.old }
        ensures { OnOk result (self.new ≡ slice_set self.old of_type (get_or self.old of_type [] ++ object ∷ [])) }
    {
        self.lists[of_type].push(object)?;
        Ok(())
    }

    /// Adds an object to the lists of some types, each of which is named once.
    fn push_all(&mut self, types: &[usize], object: u16) -> Result<(), AllocError>
        requires within { All (λ t. t < length self.old) types.now }
        requires different { IsDistinct nat_eq types.now }
        ensures count { OnOk result (length self.new ≡ length self.old) }
        ensures lists { OnOk result ((k : ℕ) → get_or self.new k [] ≡ get_or self.old k [] ++ cond (list_any (nat_eq k) types.now) (object ∷ []) []) }
    {
        for of_type in types {
            self.push(*of_type, object)?;
        }
        Ok(())
    }

    /// Adds each object to those of its types that have a flag. Its types are the ones in its row and those above them.
    fn filled(
        alloc: Global,
        types: &TypeHierarchy,
        flags: &[bool],
        count: usize,
        declared: &DeclaredTypes,
        objects: usize,
    ) -> Result<ObjectsByType, AllocError>
        requires few { objects ≤ 65536 }
        requires count { count ≡ length (type_names types.now) }
        requires rows { objects ≤ length declared.now }
        requires types { All (All (λ t. t < length (type_names types.now))) declared.now }
        ensures { IfOk result (λ all. AreFilled (numbered_pairs types.now) declared.now flags.now count objects all) }
    {
        let mut all = ObjectsByType::new(alloc, count)?;
        let mut row: &[usize] = &[];
        let mut above = Vec::new(alloc);
        for object in 0..objects {
            // Most objects are declared beside others of the same type.
            if declared.row(object) != row {
                row = declared.row(object);
                above = flagged_above(alloc, types, flags, row)?;
            }
            all.push_all(&above, object as u16)?;
        }
        Ok(all)
    }

    /// The objects of each type whose number is named, and none of another type, or an error where memory was refused.
    pub fn of_named(
        alloc: Global,
        problem: &ProblemText,
        vocabulary: &Vocabulary,
        types: &TypeHierarchy,
        named: &[u16],
    ) -> Result<ObjectsByType, AllocError>
        requires vocabulary { vocabulary.now ≡ vocabulary_of types.now problem.now }
        requires few { length (object_names types.now problem.now) ≤ 65536 }
        requires typed { AreTyped types.now problem.now }
        ensures { IfOk result (λ all. AreNamedMembersOf types.now problem.now named.now all) }
    {
        let declared = DeclaredTypes::of(alloc, problem, vocabulary, types)?;
        let count = vocabulary.types().len();
        let flags = flags_of(alloc, count, named)?;
        let objects = vocabulary.objects().len();
        let all = ObjectsByType::filled(alloc, types, &flags, count, &declared, objects)?;
        Ok(all)
    }

    /// The lists, one for each type.
    pub fn into_lists(self) -> Vec<Vec<u16>>
        ensures { lists_of result.items ≡ self }
    {
        self.lists
    }
}
