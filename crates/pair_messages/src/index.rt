//! The declarations of a pair, by name.

ghost use Rattle.std.specs.Prelude.{◌≡◌, IfOk};
ghost use Rattle.hddl_meaning.specs.Names.{object_names};
ghost use Rattle.pair_messages.specs.Firsts.{AreFirstCalled, AreFirstTyped};
ghost use Rattle.pair_messages.specs.Known.{known_types};

use crate::firsts::{FirstCalled, FirstTyped, first_called, first_typed};
use crate::known::{Known, known_names};
use crate::texts::PairTexts;
use hddl_meaning::Source;
use hddl_names::fold_to_vec;
use hddl_words::{DomainText, Name, NameGroup, ProblemText};
use indexmap::IndexMap;
use std::alloc::{AllocError, Global};

/// What is known of each name in lower case, in the order of the first declarations.
pub(crate) type ByName<T> = IndexMap<Vec<u8>, T>;

/// A constant or an object.
#[derive(Drop)]
pub(crate) struct Object<'a> {
    pub(crate) source: Source,
    pub(crate) name: &'a Name,
    /// The type of each declaration.
    pub(crate) types: Vec<&'a Option<Name>>,
}

/// A type.
#[derive(Drop)]
pub(crate) struct Type<'a> {
    pub(crate) name: &'a Name,
    /// The parent of each declaration.
    pub(crate) parents: Vec<&'a Option<Name>>,
}

/// What has types: the types, and the constants and objects.
pub(crate) struct Typed<'a> {
    pub(crate) types: ByName<Type<'a>>,
    pub(crate) objects: ByName<Object<'a>>,
}

impl Drop for Typed<'_> {
    fn drop(self) {
        let Typed {
            types: _,
            objects: _,
        } = self;
    }
}

/// The texts of a pair with their declarations by name, made once for all faults of the pair.
pub struct PairIndex<'a> {
    pub(crate) texts: &'a PairTexts<'a>,
    pub(crate) known: Known,
    pub(crate) typed: Typed<'a>,
    pub(crate) first_typed: FirstTyped,
    pub(crate) first_called: FirstCalled,
    /// How many bytes the declared names have in all, those of methods apart.
    pub(crate) names_len: usize,
    ghost types: { known.types ≡ known_types texts.now.domain_tree.now },
    ghost objects: { known.objects ≡ object_names texts.now.domain_tree.now texts.now.problem_tree.now },
    ghost are_typed: { AreFirstTyped texts.now.domain_tree.now texts.now.problem_tree.now first_typed },
    ghost are_called: { AreFirstCalled texts.now.domain_tree.now first_called },
}

impl Drop for PairIndex<'_> {
    fn drop(self) {
        let PairIndex {
            texts: _,
            known: _,
            typed: _,
            first_typed: _,
            first_called: _,
            names_len: _,
        } = self;
    }
}

/// Adds a type, if it is new, and a parent of it, if one is given.
fn declare_type<'a>(
    alloc: Global,
    types: &mut ByName<Type<'a>>,
    name: &'a Name,
    parent: Option<&'a Option<Name>>,
) -> Result<(), AllocError> {
    let key = fold_to_vec(alloc, name.text())?;
    if let Some(known) = types.get_mut(key.as_slice()) {
        if let Some(parent) = parent {
            known.parents.push(parent)?;
        }
        return Ok(());
    }
    let mut parents = Vec::new(alloc);
    if let Some(parent) = parent {
        parents.push(parent)?;
    }
    let _ = types.insert(key, Type { name, parents })?;
    Ok(())
}

/// Adds the types of a group, and their parent.
fn declare_type_group<'a>(
    alloc: Global,
    types: &mut ByName<Type<'a>>,
    group: &'a NameGroup,
) -> Result<(), AllocError> {
    for name in group.names.as_slice() {
        declare_type(alloc, types, name, Some(&group.of_type))?;
    }
    if let Some(parent) = &group.of_type {
        declare_type(alloc, types, parent, None)?;
    }
    Ok(())
}

fn types_of(alloc: Global, domain: &DomainText) -> Result<ByName<Type<'_>>, AllocError> {
    let mut types = IndexMap::new(alloc);
    for group in domain.types.as_slice() {
        declare_type_group(alloc, &mut types, group)?;
    }
    Ok(types)
}

/// Adds a constant or an object, or one more type of it.
fn declare_object<'a>(
    alloc: Global,
    objects: &mut ByName<Object<'a>>,
    source: Source,
    name: &'a Name,
    of_type: &'a Option<Name>,
) -> Result<(), AllocError> {
    let key = fold_to_vec(alloc, name.text())?;
    if let Some(known) = objects.get_mut(key.as_slice()) {
        known.types.push(of_type)?;
        return Ok(());
    }
    let mut types = Vec::new(alloc);
    types.push(of_type)?;
    let _ = objects.insert(
        key,
        Object {
            source,
            name,
            types,
        },
    )?;
    Ok(())
}

/// Adds the constants or objects of a typed list.
fn declare_objects<'a>(
    alloc: Global,
    objects: &mut ByName<Object<'a>>,
    source: Source,
    groups: &'a [NameGroup],
) -> Result<(), AllocError> {
    for group in groups {
        for name in group.names.as_slice() {
            declare_object(alloc, objects, source, name, &group.of_type)?;
        }
    }
    Ok(())
}

fn objects_of<'a>(
    alloc: Global,
    domain: &'a DomainText,
    problem: &'a ProblemText,
) -> Result<ByName<Object<'a>>, AllocError> {
    let mut objects = IndexMap::new(alloc);
    declare_objects(
        alloc,
        &mut objects,
        Source::Domain,
        domain.constants.as_slice(),
    )?;
    declare_objects(
        alloc,
        &mut objects,
        Source::Problem,
        problem.objects.as_slice(),
    )?;
    Ok(objects)
}

fn typed_of<'a>(
    alloc: Global,
    domain: &'a DomainText,
    problem: &'a ProblemText,
) -> Result<Typed<'a>, AllocError> {
    let types = types_of(alloc, domain)?;
    let objects = objects_of(alloc, domain, problem)?;
    Ok(Typed { types, objects })
}

/// How many bytes the names of a typed list have in all.
fn group_names_len(groups: &[NameGroup]) -> usize {
    let mut total: usize = 0;
    for group in groups {
        for name in group.names.as_slice() {
            total = total.saturating_add(name.text().len());
        }
    }
    total
}

/// How many bytes the names of predicates, tasks and actions have in all.
fn called_len(domain: &DomainText) -> usize {
    let mut total: usize = 0;
    for predicate in domain.predicates.as_slice() {
        total = total.saturating_add(predicate.name.text().len());
    }
    for task in domain.tasks.as_slice() {
        total = total.saturating_add(task.name.text().len());
    }
    for action in domain.actions.as_slice() {
        total = total.saturating_add(action.name.text().len());
    }
    total
}

/// How many bytes declared names have in all.
fn names_len(domain: &DomainText, problem: &ProblemText) -> usize {
    called_len(domain)
        .saturating_add(group_names_len(domain.types.as_slice()))
        .saturating_add(group_names_len(domain.constants.as_slice()))
        .saturating_add(group_names_len(problem.objects.as_slice()))
}

impl<'a> PairIndex<'a> {
    /// The declarations of a pair. An error means that memory was refused. Takes time and memory that are linear in the
    /// trees.
    pub fn new(alloc: Global, texts: &'a PairTexts<'a>) -> Result<PairIndex<'a>, AllocError>
        ensures { IfOk result (λ index. index.texts.now ≡ texts.now) }
    {
        let known = known_names(alloc, texts.domain_tree, texts.problem_tree)?;
        let first_typed = first_typed(alloc, texts.domain_tree, texts.problem_tree)?;
        let first_called = first_called(alloc, texts.domain_tree)?;
        let typed = typed_of(alloc, texts.domain_tree, texts.problem_tree)?;
        let names_len = names_len(texts.domain_tree, texts.problem_tree);
        Ok(PairIndex {
            texts,
            known,
            typed,
            first_typed,
            first_called,
            names_len,
        })
    }
}
