//! The names of typed lists and of declarations, as they are compared.
ghost use Rattle.std.specs.Prelude.{◌≡◌, [], ◌∷◌, ◌++◌, map, IfOk, OnOk};
ghost use Rattle.std.specs.List.{flat_map};
ghost use Rattle.hddl_meaning.specs.Names.{optional_mention};
ghost use Rattle.hddl_meaning.specs.Mentions.{mention_of, mentions_of, typed_names, typed_variables, variable_mention};

use crate::mention::Mention;
use hddl_words::{
    ActionText, MethodText, Name, NameGroup, PredicateText, TaskText, Variable, VariableGroup,
};
use std::alloc::{AllocError, Global};

fn push_variables<'a>(
    alloc: Global,
    mentions: &mut Vec<Mention<'a>>,
    variables: &'a [Variable],
) -> Result<(), AllocError>
    ensures { OnOk result (mentions.new.items ≡ mentions.old.items ++ map variable_mention variables.now) }
{
    mentions.reserve(variables.len())?;
    for variable in variables {
        mentions.push(Mention::of_variable(alloc, variable)?)?;
    }
    Ok(())
}

/// Adds a name as it is compared.
fn push_mention<'a>(
    alloc: Global,
    mentions: &mut Vec<Mention<'a>>,
    name: &'a Name,
) -> Result<(), AllocError>
    ensures { OnOk result (mentions.new.items ≡ mentions.old.items ++ mention_of name.now ∷ []) }
{
    let mention = Mention::of_name(alloc, name)?;
    mentions.push(mention)?;
    Ok(())
}

fn push_names<'a>(
    alloc: Global,
    mentions: &mut Vec<Mention<'a>>,
    names: &'a [Name],
) -> Result<(), AllocError>
    ensures { OnOk result (mentions.new.items ≡ mentions.old.items ++ map mention_of names.now) }
{
    mentions.reserve(names.len())?;
    for name in names {
        push_mention(alloc, mentions, name)?;
    }
    Ok(())
}

/// The variables of a typed list.
pub fn variables_in(alloc: Global, groups: &[VariableGroup]) -> Result<Vec<Mention<'_>>, AllocError>
    ensures { IfOk result (λ mentions. mentions.items ≡ mentions_of (typed_variables groups.now)) }
{
    let mut mentions = Vec::with_capacity(alloc, groups.len())?;
    for group in groups {
        push_variables(alloc, &mut mentions, group.variables.as_slice())?;
    }
    Ok(mentions)
}

/// The names of a typed list.
pub fn names_in(alloc: Global, groups: &[NameGroup]) -> Result<Vec<Mention<'_>>, AllocError>
    ensures { IfOk result (λ mentions. mentions.items ≡ mentions_of (typed_names groups.now)) }
{
    let mut mentions = Vec::with_capacity(alloc, groups.len())?;
    for group in groups {
        push_names(alloc, &mut mentions, group.names.as_slice())?;
    }
    Ok(mentions)
}

fn push_parent<'a>(
    alloc: Global,
    mentions: &mut Vec<Mention<'a>>,
    parent: &'a Option<Name>,
) -> Result<(), AllocError>
    ensures { OnOk result (mentions.new.items ≡ mentions.old.items ++ optional_mention parent.now) }
{
    if let Some(name) = parent {
        push_mention(alloc, mentions, name)?;
    }
    Ok(())
}

/// The types that a typed list declares, with their parents.
pub fn types_in(alloc: Global, groups: &[NameGroup]) -> Result<Vec<Mention<'_>>, AllocError>
    ensures { IfOk result (λ mentions. mentions.items ≡ flat_map (λ g. map mention_of g.names ++ optional_mention g.of_type) groups.now) }
{
    let mut mentions = Vec::with_capacity(alloc, groups.len())?;
    for group in groups {
        push_names(alloc, &mut mentions, group.names.as_slice())?;
        push_parent(alloc, &mut mentions, &group.of_type)?;
    }
    Ok(mentions)
}

/// The names of predicates.
pub fn predicate_names(
    alloc: Global,
    predicates: &[PredicateText],
) -> Result<Vec<Mention<'_>>, AllocError>
    ensures { IfOk result (λ mentions. mentions.items ≡ map (λ x. mention_of x.name) predicates.now) }
{
    let mut mentions = Vec::with_capacity(alloc, predicates.len())?;
    for predicate in predicates {
        push_mention(alloc, &mut mentions, &predicate.name)?;
    }
    Ok(mentions)
}

/// The names of methods.
pub fn method_names(alloc: Global, methods: &[MethodText]) -> Result<Vec<Mention<'_>>, AllocError>
    ensures { IfOk result (λ mentions. mentions.items ≡ map (λ x. mention_of x.name) methods.now) }
{
    let mut mentions = Vec::with_capacity(alloc, methods.len())?;
    for method in methods {
        push_mention(alloc, &mut mentions, &method.name)?;
    }
    Ok(mentions)
}

/// The names of compound tasks, and then those of actions.
pub fn task_names<'a>(
    alloc: Global,
    tasks: &'a [TaskText],
    actions: &'a [ActionText],
) -> Result<Vec<Mention<'a>>, AllocError>
    ensures { IfOk result (λ mentions. mentions.items ≡ map (λ x. mention_of x.name) tasks.now ++ map (λ x. mention_of x.name) actions.now) }
{
    let mut mentions = Vec::with_capacity(alloc, tasks.len().saturating_add(actions.len()))?;
    for task in tasks {
        push_mention(alloc, &mut mentions, &task.name)?;
    }
    for action in actions {
        push_mention(alloc, &mut mentions, &action.name)?;
    }
    Ok(mentions)
}
