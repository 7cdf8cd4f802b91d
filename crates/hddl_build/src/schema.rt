//! Declarations, methods, actions and the initial network.
ghost use Rattle.std.specs.Prelude.{◌≡◌, ◌≤◌, length, map, IfOk};
ghost use Rattle.std.specs.List.{All, AllZip};
ghost use Rattle.htn_order.specs.Closure.{IsAcyclic};
ghost use Rattle.hddl_meaning.specs.Mentions.{folded};
ghost use Rattle.hddl_meaning.specs.Networks.{order_pairs};
ghost use Rattle.hddl_meaning.specs.Building as building;
ghost use Rattle.hddl_meaning.specs.Building.{IsMethodOf, IsNetworkOf, variables_of};
ghost use Rattle.hddl_build.specs.InForce.{IsBounded, most_in_force};
ghost use Rattle.hddl_build.specs.Vocabularies.{IsNumbered};
ghost use Rattle.hddl_build.specs.Initial.{IsInitialOf};

use crate::formula::{adds_of, deletes_of, formulas_of};
use crate::network::{constraints_of, network_of};
use crate::scope::Scope;
use crate::term::subtask_of;
use crate::types::types_of;
use hddl_names::{Vocabulary, fold};
use hddl_words::{
    ActionText, HtnText, MethodText, NetworkText, PredicateText, TaskText, VariableGroup,
};
use htn_task::{
    ActionSchema, Declaration, EqualitySchema, InitialSchema, MethodSchema, Name, NetworkSchema,
};
use std::alloc::{AllocError, Global};

/// A name in lower case.
pub(crate) fn name_of(alloc: Global, name: &hddl_words::Name) -> Result<Name, AllocError>
    ensures { IfOk result (λ n. n ≡ folded name.now.text) }
{
    let text = fold(alloc, name.text())?;
    let name = Name::new(alloc, text.as_slice())?;
    Ok(name)
}

fn predicate_of(
    alloc: Global,
    vocabulary: &Vocabulary,
    predicate: &PredicateText,
) -> Result<Declaration, AllocError>
    requires { IsNumbered vocabulary.now }
    ensures { IfOk result (λ d. d ≡ building.predicate_of vocabulary.now predicate.now) }
{
    let name = name_of(alloc, &predicate.name)?;
    let types = types_of(alloc, vocabulary, predicate.parameters.as_slice())?;
    Ok(Declaration::new(name, types))
}

fn compound_of(
    alloc: Global,
    vocabulary: &Vocabulary,
    task: &TaskText,
) -> Result<Declaration, AllocError>
    requires { IsNumbered vocabulary.now }
    ensures { IfOk result (λ d. d ≡ building.compound_of vocabulary.now task.now) }
{
    let name = name_of(alloc, &task.name)?;
    let types = types_of(alloc, vocabulary, task.parameters.as_slice())?;
    Ok(Declaration::new(name, types))
}

/// The name of a schema, and the types of its parameters.
fn head_of(
    alloc: Global,
    vocabulary: &Vocabulary,
    name: &hddl_words::Name,
    groups: &[VariableGroup],
) -> Result<(Name, Vec<u16>), AllocError>
    requires { IsNumbered vocabulary.now }
    ensures name { IfOk result (λ head. head.0 ≡ folded name.now.text) }
    ensures types { IfOk result (λ head. head.1.items ≡ building.types_of vocabulary.now groups.now) }
{
    let name = name_of(alloc, name)?;
    let types = types_of(alloc, vocabulary, groups)?;
    Ok((name, types))
}

/// The constraints and the subtasks of a network.
fn body_of(
    alloc: Global,
    vocabulary: &Vocabulary,
    scope: &Scope<'_>,
    network: &NetworkText,
) -> Result<(Vec<EqualitySchema>, NetworkSchema), AllocError>
    requires numbered { IsNumbered vocabulary.now }
    requires acyclic { IsAcyclic (order_pairs network.now) }
    ensures constraints { IfOk result (λ body. body.0.items ≡ map (building.equality_of vocabulary.now scope.now) network.now.constraints) }
    ensures network { IfOk result (λ body. IsNetworkOf vocabulary.now scope.now network.now body.1) }
{
    let constraints = constraints_of(alloc, vocabulary, scope, network.constraints.as_slice())?;
    let subtasks = network_of(alloc, vocabulary, scope, network)?;
    Ok((constraints, subtasks))
}

/// An action with these variables in force.
fn action_in<'a>(
    alloc: Global,
    vocabulary: &Vocabulary,
    action: &'a ActionText,
    scope: &mut Scope<'a>,
) -> Result<ActionSchema, AllocError>
    requires numbered { IsNumbered vocabulary.now }
    requires bounded { IsBounded action.now.parameters action.now.precondition }
    requires in_force { scope.old ≡ variables_of action.now.parameters }
    ensures { IfOk result (λ a. a ≡ building.action_of vocabulary.now action.now) }
{
    let precondition = formulas_of(alloc, vocabulary, scope, action.precondition.as_slice())?;
    let deletes = deletes_of(alloc, vocabulary, scope, action.effect.as_slice())?;
    let adds = adds_of(alloc, vocabulary, scope, action.effect.as_slice())?;
    let head = head_of(
        alloc,
        vocabulary,
        &action.name,
        action.parameters.as_slice(),
    )?;
    Ok(ActionSchema::new(head.0, head.1, precondition, deletes, adds))
}

fn action_of(
    alloc: Global,
    vocabulary: &Vocabulary,
    action: &ActionText,
) -> Result<ActionSchema, AllocError>
    requires numbered { IsNumbered vocabulary.now }
    requires bounded { IsBounded action.now.parameters action.now.precondition }
    ensures { IfOk result (λ a. a ≡ building.action_of vocabulary.now action.now) }
{
    let mut scope = Scope::of(alloc, action.parameters.as_slice())?;
    let made = action_in(alloc, vocabulary, action, &mut scope)?;
    Ok(made)
}

/// A method with these variables in force.
fn method_in<'a>(
    alloc: Global,
    vocabulary: &Vocabulary,
    method: &'a MethodText,
    scope: &mut Scope<'a>,
) -> Result<MethodSchema, AllocError>
    requires numbered { IsNumbered vocabulary.now }
    requires bounded { IsBounded method.now.parameters method.now.precondition }
    requires acyclic { IsAcyclic (order_pairs method.now.network) }
    requires in_force { scope.old ≡ variables_of method.now.parameters }
    ensures { IfOk result (IsMethodOf vocabulary.now method.now) }
{
    let task = subtask_of(alloc, vocabulary, scope, &method.task)?;
    let precondition = formulas_of(alloc, vocabulary, scope, method.precondition.as_slice())?;
    let body = body_of(alloc, vocabulary, scope, &method.network)?;
    let head = head_of(
        alloc,
        vocabulary,
        &method.name,
        method.parameters.as_slice(),
    )?;
    Ok(MethodSchema::new(head.0, head.1, task, precondition, body.0, body.1))
}

fn method_of(
    alloc: Global,
    vocabulary: &Vocabulary,
    method: &MethodText,
) -> Result<MethodSchema, AllocError>
    requires numbered { IsNumbered vocabulary.now }
    requires bounded { IsBounded method.now.parameters method.now.precondition }
    requires acyclic { IsAcyclic (order_pairs method.now.network) }
    ensures { IfOk result (IsMethodOf vocabulary.now method.now) }
{
    let mut scope = Scope::of(alloc, method.parameters.as_slice())?;
    let made = method_in(alloc, vocabulary, method, &mut scope)?;
    Ok(made)
}

/// The initial network with these variables in force.
fn initial_in(
    alloc: Global,
    vocabulary: &Vocabulary,
    htn: &HtnText,
    scope: &Scope<'_>,
) -> Result<InitialSchema, AllocError>
    requires numbered { IsNumbered vocabulary.now }
    requires acyclic { IsAcyclic (order_pairs htn.now.network) }
    requires in_force { scope.now ≡ variables_of htn.now.parameters }
    ensures { IfOk result (IsInitialOf vocabulary.now htn.now) }
{
    let constraints = constraints_of(alloc, vocabulary, scope, htn.network.constraints.as_slice())?;
    let network = network_of(alloc, vocabulary, scope, &htn.network)?;
    let parameters = types_of(alloc, vocabulary, htn.parameters.as_slice())?;
    Ok(InitialSchema::new(parameters, constraints, network))
}

/// The initial network.
pub(crate) fn initial_of(
    alloc: Global,
    vocabulary: &Vocabulary,
    htn: &HtnText,
) -> Result<InitialSchema, AllocError>
    requires numbered { IsNumbered vocabulary.now }
    requires bounded { length (variables_of htn.now.parameters) ≤ most_in_force }
    requires acyclic { IsAcyclic (order_pairs htn.now.network) }
    ensures { IfOk result (IsInitialOf vocabulary.now htn.now) }
{
    let scope = Scope::of(alloc, htn.parameters.as_slice())?;
    let made = initial_in(alloc, vocabulary, htn, &scope)?;
    Ok(made)
}

pub(crate) fn predicates_of(
    alloc: Global,
    vocabulary: &Vocabulary,
    predicates: &[PredicateText],
) -> Result<Vec<Declaration>, AllocError>
    requires { IsNumbered vocabulary.now }
    ensures { IfOk result (λ found. found.items ≡ map (building.predicate_of vocabulary.now) predicates.now) }
{
    let mut found = Vec::with_capacity(alloc, predicates.len())?;
    for predicate in predicates {
        found.push(predicate_of(alloc, vocabulary, predicate)?)?;
    }
    Ok(found)
}

/// The compound tasks.
pub(crate) fn compounds_of(
    alloc: Global,
    vocabulary: &Vocabulary,
    tasks: &[TaskText],
) -> Result<Vec<Declaration>, AllocError>
    requires { IsNumbered vocabulary.now }
    ensures { IfOk result (λ found. found.items ≡ map (building.compound_of vocabulary.now) tasks.now) }
{
    let mut found = Vec::with_capacity(alloc, tasks.len())?;
    for task in tasks {
        found.push(compound_of(alloc, vocabulary, task)?)?;
    }
    Ok(found)
}

pub(crate) fn actions_of(
    alloc: Global,
    vocabulary: &Vocabulary,
    actions: &[ActionText],
) -> Result<Vec<ActionSchema>, AllocError>
    requires numbered { IsNumbered vocabulary.now }
    requires bounded { All (λ a. IsBounded a.parameters a.precondition) actions.now }
    ensures { IfOk result (λ found. found.items ≡ map (building.action_of vocabulary.now) actions.now) }
{
    let mut found = Vec::with_capacity(alloc, actions.len())?;
    for action in actions {
        found.push(action_of(alloc, vocabulary, action)?)?;
    }
    Ok(found)
}

pub(crate) fn methods_of(
    alloc: Global,
    vocabulary: &Vocabulary,
    methods: &[MethodText],
) -> Result<Vec<MethodSchema>, AllocError>
    requires numbered { IsNumbered vocabulary.now }
    requires bounded { All (λ m. IsBounded m.parameters m.precondition) methods.now }
    requires acyclic { All (λ m. IsAcyclic (order_pairs m.network)) methods.now }
    ensures { IfOk result (λ found. AllZip (IsMethodOf vocabulary.now) methods.now found.items) }
{
    let mut found = Vec::with_capacity(alloc, methods.len())?;
    for method in methods {
        found.push(method_of(alloc, vocabulary, method)?)?;
    }
    Ok(found)
}
