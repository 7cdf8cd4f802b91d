//! The types that the constants and objects are declared with.
ghost use Rattle.std.specs.Prelude.{◌≡◌, ℕ, ◌<◌, ◌++◌, ◌∷◌, [], ◌↔◌, IsTrue, IfOk, OnOk, Contains, All, length, get_or};
ghost use Rattle.hddl_meaning.specs.Building.{vocabulary_of};
ghost use Rattle.hddl_meaning.specs.Names.{type_names};
ghost use Rattle.hddl_names.specs.Members.{AreTyped, AreDeclaredTypes, declared_in};
ghost use Rattle.hddl_names.specs.Reach.{Reaches};
ghost use Rattle.hddl_names.specs.TypeNumbers.{numbered_pairs};

use crate::edges::rows_of;
use crate::hierarchy::TypeHierarchy;
use crate::names::Names;
use crate::pairs::{parent_number, push_pairs};
use crate::rows::Rows;
use crate::vocabulary::Vocabulary;
use hddl_words::{NameGroup, ProblemText};
use std::alloc::{AllocError, Global};
use std::marker::Model;

/// The types that each constant and object has by its declarations, without those above them, by number. Contracts see
/// the lists, one for each object.
#[derive(Drop)]
pub struct DeclaredTypes {
    rows: Rows,
}

impl Model for DeclaredTypes {
    ghost use Rattle.std.specs.Prelude.{List, ℕ};

    ghost Value = { List (List ℕ) };

    ghost view = { λ types. types.rows };
}

/// Adds the numbers of a group's names, each with that of its type.
fn push_declared(
    pairs: &mut Vec<(usize, usize)>,
    buffer: &mut Vec<u8>,
    objects: &Names,
    types: &Names,
    group: &NameGroup,
) -> Result<(), AllocError>
    ensures { OnOk result (pairs.new.items ≡ pairs.old.items ++ declared_in objects.now types.now (group.now ∷ [])) }
{
    let parent = parent_number(buffer, types, &group.of_type)?;
    push_pairs(pairs, buffer, objects, group.names.as_slice(), parent)?;
    Ok(())
}

/// The numbers of all constants and objects that are declared, each with that of its type.
fn declarations(
    alloc: Global,
    vocabulary: &Vocabulary,
    constants: &[NameGroup],
    objects: &[NameGroup],
) -> Result<Vec<(usize, usize)>, AllocError>
    ensures { IfOk result (λ pairs. pairs.items ≡ declared_in vocabulary.now.objects vocabulary.now.types constants.now
        ++ declared_in vocabulary.now.objects vocabulary.now.types objects.now) }
{
    let mut pairs = Vec::new(alloc);
    let mut buffer = Vec::new(alloc);
    for group in constants {
        push_declared(
            &mut pairs,
            &mut buffer,
            vocabulary.objects(),
            vocabulary.types(),
            group,
        )?;
    }
    for group in objects {
        push_declared(
            &mut pairs,
            &mut buffer,
            vocabulary.objects(),
            vocabulary.types(),
            group,
        )?;
    }
    Ok(pairs)
}

impl DeclaredTypes {
    /// The types of a problem's constants and objects, or an error where memory was refused.
    pub fn of(
        alloc: Global,
        problem: &ProblemText,
        vocabulary: &Vocabulary,
        types: &TypeHierarchy,
    ) -> Result<DeclaredTypes, AllocError>
        requires vocabulary { vocabulary.now ≡ vocabulary_of types.now problem.now }
        requires typed { AreTyped types.now problem.now }
        ensures { IfOk result (AreDeclaredTypes types.now problem.now) }
    {
        let domain = types.domain();
        let pairs = declarations(
            alloc,
            vocabulary,
            domain.constants.as_slice(),
            problem.objects.as_slice(),
        )?;
        let count = vocabulary.types().len();
        let objects = vocabulary.objects().len();
        let rows = rows_of(alloc, objects.max(count), &pairs)?;
        Ok(DeclaredTypes { rows })
    }

    /// The types that an object is declared with.
    pub(crate) fn row(&self, object: usize) -> &[usize]
        ensures { result.now ≡ get_or self.now object [] }
    {
        self.rows.row_or_empty(object)
    }

    /// Whether an object has a type, both by number: whether one of the types that it is declared with is below that.
    pub fn has_type(
        &self,
        alloc: Global,
        types: &TypeHierarchy,
        of_type: usize,
        object: usize,
    ) -> Result<bool, AllocError>
        requires typed { All (All (λ t. t < length (type_names types.now))) self.now }
        requires of_type { of_type < length (type_names types.now) }
        ensures { IfOk result (λ has. IsTrue has
            ↔ ((t : ℕ) × Contains (get_or self.now object []) t × Reaches (numbered_pairs types.now) t of_type)) }
    {
        for own in self.row(object) {
            if types.is_below(alloc, *own, of_type)? {
                return Ok(true);
            }
        }
        Ok(false)
    }
}
