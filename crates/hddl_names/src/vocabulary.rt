//! The names that a domain and a problem declare, by kind.
ghost use Rattle.std.specs.Prelude.{◌≡◌, map, fold, IfOk, OnOk};
ghost use Rattle.hddl_meaning.specs.Mentions.{folded, texts, mentions_of, typed_names};
ghost use Rattle.hddl_meaning.specs.Names.{with_name, optional_mention, type_names, object_names, predicate_names, task_names, distinct};
ghost use Rattle.hddl_meaning.specs.Building.{vocabulary_of};
ghost use Rattle.hddl_names.specs.Texts.{mentions_in};

use crate::names::Names;
use crate::text::fold_to_vec;
use hddl_words::{ActionText, DomainText, Name, NameGroup, PredicateText, ProblemText, TaskText};
use std::alloc::{AllocError, Global};
use std::marker::Model;

/// The names that a domain and a problem declare, by kind. A name's number is its position among those of its kind.
pub struct Vocabulary {
    types: Names,
    objects: Names,
    predicates: Names,
    tasks: Names,
}

impl Drop for Vocabulary {
    fn drop(self) {
        let Vocabulary {
            types: _,
            objects: _,
            predicates: _,
            tasks: _,
        } = self;
    }
}

impl Model for Vocabulary {
    ghost Value = { Rattle.hddl_meaning.specs.Building.Vocabulary };

    ghost view = { λ v. record { types = v.types; objects = v.objects; predicates = v.predicates; tasks = v.tasks } };
}

/// Declares a name as it is written.
fn declare_name(alloc: Global, names: &mut Names, name: &Name) -> Result<(), AllocError>
    ensures { OnOk result (names.new ≡ with_name names.old (folded name.now.text)) }
{
    let text = fold_to_vec(alloc, name.text())?;
    names.declare(text)?;
    Ok(())
}

/// Declares the names of a group.
fn declare_group(alloc: Global, names: &mut Names, group: &[Name]) -> Result<(), AllocError>
    ensures { OnOk result (names.new ≡ fold with_name names.old (map (λ x. folded x.text) group.now)) }
{
    for name in group {
        declare_name(alloc, names, name)?;
    }
    Ok(())
}

/// Declares the constants or objects of a typed list.
fn declare_groups(alloc: Global, names: &mut Names, groups: &[NameGroup]) -> Result<(), AllocError>
    ensures { OnOk result (names.new ≡ fold with_name names.old (texts (mentions_of (typed_names groups.now)))) }
{
    for group in groups {
        declare_group(alloc, names, group.names.as_slice())?;
    }
    Ok(())
}

/// Declares the type that a group's names have, if one is written.
fn declare_parent(alloc: Global, names: &mut Names, parent: &Option<Name>) -> Result<(), AllocError>
    ensures { OnOk result (names.new ≡ fold with_name names.old (texts (optional_mention parent.now))) }
{
    if let Some(name) = parent {
        declare_name(alloc, names, name)?;
    }
    Ok(())
}

/// Declares the types of a typed list, names and parents.
fn declare_types(alloc: Global, names: &mut Names, groups: &[NameGroup]) -> Result<(), AllocError>
    ensures { OnOk result (names.new ≡ fold with_name names.old (texts (mentions_in groups.now))) }
{
    for group in groups {
        declare_group(alloc, names, group.names.as_slice())?;
        declare_parent(alloc, names, &group.of_type)?;
    }
    Ok(())
}

fn types_of(alloc: Global, domain: &DomainText) -> Result<Names, AllocError>
    ensures { IfOk result (λ names. names ≡ type_names domain.now) }
{
    let mut names = Names::new(alloc);
    names.declare(fold_to_vec(alloc, b"object")?)?;
    declare_types(alloc, &mut names, domain.types.as_slice())?;
    Ok(names)
}

fn objects_of(
    alloc: Global,
    domain: &DomainText,
    problem: &ProblemText,
) -> Result<Names, AllocError>
    ensures { IfOk result (λ names. names ≡ object_names domain.now problem.now) }
{
    let mut names = Names::new(alloc);
    declare_groups(alloc, &mut names, domain.constants.as_slice())?;
    declare_groups(alloc, &mut names, problem.objects.as_slice())?;
    Ok(names)
}

fn predicates_of(alloc: Global, predicates: &[PredicateText]) -> Result<Names, AllocError>
    ensures { IfOk result (λ names. names ≡ distinct (map (λ x. folded x.name.text) predicates.now)) }
{
    let mut names = Names::new(alloc);
    for predicate in predicates {
        declare_name(alloc, &mut names, &predicate.name)?;
    }
    Ok(names)
}

/// Declares the compound tasks.
fn declare_tasks(alloc: Global, names: &mut Names, tasks: &[TaskText]) -> Result<(), AllocError>
    ensures { OnOk result (names.new ≡ fold with_name names.old (map (λ x. folded x.name.text) tasks.now)) }
{
    for task in tasks {
        declare_name(alloc, names, &task.name)?;
    }
    Ok(())
}

/// Declares the actions.
fn declare_actions(
    alloc: Global,
    names: &mut Names,
    actions: &[ActionText],
) -> Result<(), AllocError>
    ensures { OnOk result (names.new ≡ fold with_name names.old (map (λ x. folded x.name.text) actions.now)) }
{
    for action in actions {
        declare_name(alloc, names, &action.name)?;
    }
    Ok(())
}

fn tasks_of(alloc: Global, domain: &DomainText) -> Result<Names, AllocError>
    ensures { IfOk result (λ names. names ≡ distinct (task_names domain.now)) }
{
    let mut names = Names::new(alloc);
    declare_tasks(alloc, &mut names, domain.tasks.as_slice())?;
    declare_actions(alloc, &mut names, domain.actions.as_slice())?;
    Ok(names)
}

impl Vocabulary {
    /// The names that the two texts declare, or an error where memory was refused.
    pub fn of(
        alloc: Global,
        domain: &DomainText,
        problem: &ProblemText,
    ) -> Result<Vocabulary, AllocError>
        ensures { IfOk result (λ v. v ≡ vocabulary_of domain.now problem.now) }
    {
        Ok(Vocabulary {
            types: types_of(alloc, domain)?,
            objects: objects_of(alloc, domain, problem)?,
            predicates: predicates_of(alloc, domain.predicates.as_slice())?,
            tasks: tasks_of(alloc, domain)?,
        })
    }

    /// `object` first, then the types in the order in which they are named.
    pub fn types(&self) -> &Names
        ensures { result.now ≡ self.now.types }
    {
        &self.types
    }

    /// The domain's constants, then the problem's objects.
    pub fn objects(&self) -> &Names
        ensures { result.now ≡ self.now.objects }
    {
        &self.objects
    }

    pub fn predicates(&self) -> &Names
        ensures { result.now ≡ self.now.predicates }
    {
        &self.predicates
    }

    /// The compound tasks, then the actions.
    pub fn tasks(&self) -> &Names
        ensures { result.now ≡ self.now.tasks }
    {
        &self.tasks
    }
}
