//! What was read of a list, a section or a text so far.

ghost use Rattle.std.specs.Prelude.{◌≡◌};
ghost use Rattle.hddl_text.specs.Drafts as spec;

use hddl_words::{
    ActionText, AtomText, Condition, EqualityText, HtnText, Items, LiteralText, MethodText, Name,
    NameGroup, OrderingText, PredicateText, Requirement, SubtaskText, TaskText, Variable,
    VariableGroup,
};
use std::alloc::Global;

/// Names so far: groups with their types, and the names that no type has followed.
#[derive(Drop)]
pub struct NameParts {
    pub groups: Items<NameGroup>,
    pub names: Items<Name>,
}

/// Variables so far: groups with their types, and the variables that no type has followed.
#[derive(Drop)]
pub struct VariableParts {
    pub groups: Items<VariableGroup>,
    pub variables: Items<Variable>,
}

/// The parts of a network.
#[derive(Drop)]
pub struct NetworkParts {
    pub is_ordered: bool,
    pub subtasks: Option<Items<SubtaskText>>,
    pub orderings: Option<Items<OrderingText>>,
    pub constraints: Option<Items<EqualityText>>,
}

/// The parts of a compound task.
#[derive(Drop)]
pub struct TaskParts {
    pub parameters: Option<Items<VariableGroup>>,
    pub has_precondition: bool,
    pub has_effect: bool,
}

/// The parts of an action.
#[derive(Drop)]
pub struct ActionParts {
    pub parameters: Option<Items<VariableGroup>>,
    pub precondition: Option<Items<Condition>>,
    pub effect: Option<Items<LiteralText>>,
}

/// The parts of a method.
#[derive(Drop)]
pub struct MethodParts {
    pub parameters: Option<Items<VariableGroup>>,
    pub task: Option<AtomText>,
    pub precondition: Option<Items<Condition>>,
    pub network: NetworkParts,
}

/// The parts of `:htn`.
#[derive(Drop)]
pub struct HtnParts {
    pub parameters: Option<Items<VariableGroup>>,
    pub network: NetworkParts,
}

/// The sections of a domain.
#[derive(Drop)]
pub struct DomainParts {
    pub requirements: Option<Items<Requirement>>,
    pub types: Option<Items<NameGroup>>,
    pub constants: Option<Items<NameGroup>>,
    pub predicates: Option<Items<PredicateText>>,
    pub tasks: Items<TaskText>,
    pub methods: Items<MethodText>,
    pub actions: Items<ActionText>,
}

/// The sections of a problem.
#[derive(Drop)]
pub struct ProblemParts {
    pub domain: Option<Name>,
    pub requirements: Option<Items<Requirement>>,
    pub objects: Option<Items<NameGroup>>,
    pub init: Option<Items<AtomText>>,
    pub goal: Option<Items<Condition>>,
    pub htn: Option<HtnText>,
}

pub fn no_name_parts(alloc: Global) -> NameParts
    ensures { result ≡ spec.no_name_parts }
{
    NameParts {
        groups: Items::new(alloc),
        names: Items::new(alloc),
    }
}

pub fn no_variable_parts(alloc: Global) -> VariableParts
    ensures { result ≡ spec.no_variable_parts }
{
    VariableParts {
        groups: Items::new(alloc),
        variables: Items::new(alloc),
    }
}

pub fn no_network_parts() -> NetworkParts
    ensures { result ≡ spec.no_network_parts }
{
    NetworkParts {
        is_ordered: false,
        subtasks: None,
        orderings: None,
        constraints: None,
    }
}

pub fn no_task_parts() -> TaskParts
    ensures { result ≡ spec.no_task_parts }
{
    TaskParts {
        parameters: None,
        has_precondition: false,
        has_effect: false,
    }
}

pub fn no_action_parts() -> ActionParts
    ensures { result ≡ spec.no_action_parts }
{
    ActionParts {
        parameters: None,
        precondition: None,
        effect: None,
    }
}

pub fn no_method_parts() -> MethodParts
    ensures { result ≡ spec.no_method_parts }
{
    MethodParts {
        parameters: None,
        task: None,
        precondition: None,
        network: no_network_parts(),
    }
}

pub fn no_htn_parts() -> HtnParts
    ensures { result ≡ spec.no_htn_parts }
{
    HtnParts {
        parameters: None,
        network: no_network_parts(),
    }
}

pub fn no_domain_parts(alloc: Global) -> DomainParts
    ensures { result ≡ spec.no_domain_parts }
{
    DomainParts {
        requirements: None,
        types: None,
        constants: None,
        predicates: None,
        tasks: Items::new(alloc),
        methods: Items::new(alloc),
        actions: Items::new(alloc),
    }
}

pub fn no_problem_parts() -> ProblemParts
    ensures { result ≡ spec.no_problem_parts }
{
    ProblemParts {
        domain: None,
        requirements: None,
        objects: None,
        init: None,
        goal: None,
        htn: None,
    }
}
