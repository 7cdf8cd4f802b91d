//! The names of types and of objects, in lower case, each once.

ghost use Rattle.std.specs.Prelude.{◌≡◌, IfOk, OnOk, fold};
ghost use Rattle.hddl_meaning.specs.Mentions.{mentions_of, texts, typed_names};
ghost use Rattle.hddl_meaning.specs.Names.{object_names, with_name};
ghost use Rattle.diagnostics.specs.Near.{names_of};
ghost use Rattle.pair_messages.specs.Known.{known_types};

use crate::summary::{add_group, add_types};
use hddl_names::{Names, fold_to_vec};
use hddl_words::{DomainText, NameGroup, ProblemText};
use std::alloc::{AllocError, Global};

/// The names that a pair declares: types with `object`, and constants with objects.
pub(crate) struct Known {
    pub(crate) types: Names,
    pub(crate) objects: Names,
}

impl Drop for Known {
    fn drop(self) {
        let Known {
            types: _,
            objects: _,
        } = self;
    }
}

/// Adds the names of a typed list.
fn add_names(alloc: Global, names: &mut Names, groups: &[NameGroup]) -> Result<(), AllocError>
    ensures { OnOk result (names.new ≡ fold with_name names.old (texts (mentions_of (typed_names groups.now)))) }
{
    for group in groups {
        add_group(alloc, names, group.names.as_slice())?;
    }
    Ok(())
}

/// The types, in the order in which they are named, and then `object`.
fn types_in(alloc: Global, domain: &DomainText) -> Result<Names, AllocError>
    ensures { IfOk result (λ names. names ≡ known_types domain.now) }
{
    let mut names = Names::new(alloc);
    add_types(alloc, &mut names, domain.types.as_slice())?;
    names.declare(fold_to_vec(alloc, b"object")?)?;
    Ok(names)
}

/// The constants, and then the objects.
fn objects_in(
    alloc: Global,
    domain: &DomainText,
    problem: &ProblemText,
) -> Result<Names, AllocError>
    ensures { IfOk result (λ names. names ≡ object_names domain.now problem.now) }
{
    let mut names = Names::new(alloc);
    add_names(alloc, &mut names, domain.constants.as_slice())?;
    add_names(alloc, &mut names, problem.objects.as_slice())?;
    Ok(names)
}

/// The names that a pair declares.
pub(crate) fn known_names(
    alloc: Global,
    domain: &DomainText,
    problem: &ProblemText,
) -> Result<Known, AllocError>
    ensures types { IfOk result (λ known. known.types ≡ known_types domain.now) }
    ensures objects { IfOk result (λ known. known.objects ≡ object_names domain.now problem.now) }
{
    let types = types_in(alloc, domain)?;
    let objects = objects_in(alloc, domain, problem)?;
    Ok(Known { types, objects })
}

/// The texts of names, in their order.
pub(crate) fn texts_in(alloc: Global, names: &Names) -> Result<Vec<&[u8]>, AllocError>
    ensures { IfOk result (λ found. names_of found.items ≡ names.now) }
{
    let mut found = Vec::new(alloc);
    for number in 0..names.len() {
        if let Some(text) = names.get(number) {
            found.push(text)?;
        }
    }
    Ok(found)
}
