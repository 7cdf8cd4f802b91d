//! The task of a domain and a problem.
ghost use Rattle.std.specs.Prelude.{◌≡◌, ◌≤◌, [], true, length, map, IfOk};
ghost use Rattle.std.specs.List.{All, AllZip};
ghost use Rattle.htn_model.specs.State.{set_of};
ghost use Rattle.htn_model.specs.Instances.{ground_atom};
ghost use Rattle.htn_model.specs.Task.{types_named_in};
ghost use Rattle.htn_order.specs.Closure.{IsAcyclic};
ghost use Rattle.hddl_meaning.specs.Networks.{order_pairs};
ghost use Rattle.hddl_meaning.specs.Items.{IsWellTypedPair};
ghost use Rattle.hddl_meaning.specs.Names.{object_names, type_names};
ghost use Rattle.hddl_meaning.specs.Building as building;
ghost use Rattle.hddl_meaning.specs.Building.{IsMethodOf, IsTaskOf, variables_of, vocabulary_of};
ghost use Rattle.hddl_build.specs.Initial.{IsInitialOf};
ghost use Rattle.hddl_build.specs.InForce.{IsBounded, all_fit, most_in_force};
ghost use Rattle.hddl_names.specs.Members.{AreNamedMembersOf, AreTyped};
ghost use Rattle.hddl_build.specs.Vocabularies.{IsNumbered};

use crate::formula::goal_of;
use crate::objects::{names_of, types_with_objects};
use crate::schema::{actions_of, compounds_of, initial_of, methods_of, predicates_of};
use crate::state::state_of;
use hddl_meaning::tasks_are_well_typed;
use hddl_names::{TypeHierarchy, Vocabulary};
use hddl_words::{DomainText, ProblemText};
use htn_task::{
    ActionSchema, Declaration, FormulaList, InitialSchema, MethodSchema, Name, ObjectType, State,
    Task, TaskParts, named_types,
};
use std::alloc::{AllocError, Global};

/// The objects, the predicates and the compound tasks of a task.
#[derive(Drop)]
struct Declared {
    objects: Vec<Name>,
    predicates: Vec<Declaration>,
    tasks: Vec<Declaration>,
}

/// The methods and the actions of a task.
#[derive(Drop)]
struct Schemas {
    methods: Vec<MethodSchema>,
    actions: Vec<ActionSchema>,
}

/// What holds and what is to be done initially, and the goal.
#[derive(Drop)]
struct Start {
    initial_network: InitialSchema,
    initial_atoms: State,
    goal: FormulaList,
}

fn declared_of(
    alloc: Global,
    domain: &DomainText,
    vocabulary: &Vocabulary,
) -> Result<Declared, AllocError>
    requires { IsNumbered vocabulary.now }
    ensures objects { IfOk result (λ x. x.objects.items ≡ vocabulary.now.objects) }
    ensures predicates { IfOk result (λ x. x.predicates.items ≡ map (building.predicate_of vocabulary.now) domain.now.predicates) }
    ensures tasks { IfOk result (λ x. x.tasks.items ≡ map (building.compound_of vocabulary.now) domain.now.tasks) }
{
    let objects = names_of(alloc, vocabulary.objects())?;
    let predicates = predicates_of(alloc, vocabulary, domain.predicates.as_slice())?;
    let tasks = compounds_of(alloc, vocabulary, domain.tasks.as_slice())?;
    Ok(Declared {
        objects,
        predicates,
        tasks,
    })
}

fn schemas_of(
    alloc: Global,
    domain: &DomainText,
    vocabulary: &Vocabulary,
) -> Result<Schemas, AllocError>
    requires numbered { IsNumbered vocabulary.now }
    requires actions { All (λ a. IsBounded a.parameters a.precondition) domain.now.actions }
    requires methods { All (λ m. IsBounded m.parameters m.precondition) domain.now.methods }
    requires orders { All (λ m. IsAcyclic (order_pairs m.network)) domain.now.methods }
    ensures methods { IfOk result (λ x. AllZip (IsMethodOf vocabulary.now) domain.now.methods x.methods.items) }
    ensures actions { IfOk result (λ x. x.actions.items ≡ map (building.action_of vocabulary.now) domain.now.actions) }
{
    let methods = methods_of(alloc, vocabulary, domain.methods.as_slice())?;
    let actions = actions_of(alloc, vocabulary, domain.actions.as_slice())?;
    Ok(Schemas { methods, actions })
}

fn start_of(
    alloc: Global,
    problem: &ProblemText,
    vocabulary: &Vocabulary,
) -> Result<Start, AllocError>
    requires numbered { IsNumbered vocabulary.now }
    requires initial { length (variables_of problem.now.htn.parameters) ≤ most_in_force }
    requires order { IsAcyclic (order_pairs problem.now.htn.network) }
    requires goal { all_fit 0 problem.now.goal ≡ true }
    ensures network { IfOk result (λ x. IsInitialOf vocabulary.now problem.now.htn x.initial_network) }
    ensures atoms { IfOk result (λ x. x.initial_atoms ≡ set_of (map (λ a. ground_atom [] (building.atom_of vocabulary.now [] a)) problem.now.init)) }
    ensures goal { IfOk result (λ x. x.goal ≡ building.formulas_of vocabulary.now [] problem.now.goal) }
{
    let initial_network = initial_of(alloc, vocabulary, &problem.htn)?;
    let initial_atoms = state_of(alloc, vocabulary, problem.init.as_slice())?;
    let goal = goal_of(alloc, vocabulary, problem.goal.as_slice())?;
    Ok(Start {
        initial_network,
        initial_atoms,
        goal,
    })
}

/// The types, each with its objects where these parts name it.
fn types_for(
    alloc: Global,
    problem: &ProblemText,
    vocabulary: &Vocabulary,
    types: &TypeHierarchy,
    declared: &Declared,
    schemas: &Schemas,
    start: &Start,
) -> Result<Vec<ObjectType>, AllocError>
    requires vocabulary { vocabulary.now ≡ vocabulary_of types.now problem.now }
    requires few { length (object_names types.now problem.now) ≤ 65536 }
    requires typed { AreTyped types.now problem.now }
    ensures names { IfOk result (λ found. map (λ t. t.name) found.items ≡ type_names types.now) }
    ensures objects { IfOk result (λ found. AreNamedMembersOf types.now problem.now
        (types_named_in declared.now.predicates.items declared.now.tasks.items schemas.now.methods.items schemas.now.actions.items start.now.initial_network start.now.goal)
        (map (λ t. t.objects) found.items)) }
{
    let named = named_types(
        alloc,
        &declared.predicates,
        &declared.tasks,
        &schemas.methods,
        &schemas.actions,
        &start.initial_network,
        &start.goal,
    )?;
    let found = types_with_objects(alloc, problem, vocabulary, types, &named)?;
    Ok(found)
}

/// The parts of the task.
fn parts_of(
    alloc: Global,
    domain: &DomainText,
    problem: &ProblemText,
    vocabulary: &Vocabulary,
    types: &TypeHierarchy,
) -> Result<TaskParts, AllocError>
    requires vocabulary { vocabulary.now ≡ vocabulary_of domain.now problem.now }
    requires numbered { IsNumbered vocabulary.now }
    requires types { types.now ≡ domain.now }
    requires typed { AreTyped domain.now problem.now }
    requires actions { All (λ a. IsBounded a.parameters a.precondition) domain.now.actions }
    requires methods { All (λ m. IsBounded m.parameters m.precondition) domain.now.methods }
    requires orders { All (λ m. IsAcyclic (order_pairs m.network)) domain.now.methods }
    requires initial { length (variables_of problem.now.htn.parameters) ≤ most_in_force }
    requires order { IsAcyclic (order_pairs problem.now.htn.network) }
    requires goal { all_fit 0 problem.now.goal ≡ true }
    ensures { IfOk result (IsTaskOf domain.now problem.now) }
{
    let declared = declared_of(alloc, domain, vocabulary)?;
    let schemas = schemas_of(alloc, domain, vocabulary)?;
    let start = start_of(alloc, problem, vocabulary)?;
    let types = types_for(
        alloc, problem, vocabulary, types, &declared, &schemas, &start,
    )?;
    Ok(TaskParts {
        objects: declared.objects,
        types,
        predicates: declared.predicates,
        tasks: declared.tasks,
        methods: schemas.methods,
        actions: schemas.actions,
        initial_network: start.initial_network,
        initial_atoms: start.initial_atoms,
        goal: start.goal,
    })
}

/// The task of a domain and a problem that fit together, with their vocabulary and types, or an error where memory was
/// refused. Objects are listed for the types of places, parameters and quantified variables alone.
pub fn build(
    alloc: Global,
    domain: &DomainText,
    problem: &ProblemText,
    vocabulary: &Vocabulary,
    types: &TypeHierarchy,
) -> Result<Task, AllocError>
    requires fits { IsWellTypedPair domain.now problem.now }
    requires vocabulary { vocabulary.now ≡ vocabulary_of domain.now problem.now }
    requires types { types.now ≡ domain.now }
    requires typed { AreTyped domain.now problem.now }
    ensures { IfOk result (IsTaskOf domain.now problem.now) }
{
    tasks_are_well_typed();
    let parts = parts_of(alloc, domain, problem, vocabulary, types)?;
    Task::new(alloc, parts)
}
