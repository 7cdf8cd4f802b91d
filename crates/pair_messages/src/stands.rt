//! The item at a place: a name or an argument of a use, or a side of an equality.

ghost use Rattle.std.specs.Prelude.{◌≡◌, IfOk, IfSome};
ghost use Rattle.hddl_meaning.specs.Uses as uses;
ghost use Rattle.pair_messages.specs.Stands.{in_force, schema_of_atom, schema_of_conditions, schema_of_equality, schema_of_subtasks, section_parameters, StandsAt, StandsIn, StandsInDomain, StandsInProblem};

use crate::index::PairIndex;
use crate::phrases::Section;
use hddl_locate::{
    action_by, argument_at, atom_by, condition_by, equality_by, literal_by, method_by, subtask_by,
    term_place,
};
use hddl_meaning::{At, Source as Side};
use hddl_words::{
    ActionText, AtomText, Condition, DomainText, EqualityText, MethodText, NetworkText,
    ProblemText, Term, VariableGroup,
};
use std::alloc::{AllocError, Global};

/// As deep as brackets are open in a text, at most.
const MOST_DEPTH: usize = 64;

/// What a use names.
#[derive(Clone, Copy, Debug, PartialEq, Eq)]
pub(crate) enum Kind {
    Predicate,
    /// The task that a method decomposes.
    Compound,
    /// A subtask.
    Task,
}

/// The variables in force: those of a section, and of each `forall` around, from the outermost.
#[derive(Drop)]
pub(crate) struct InForce<'a> {
    pub(crate) section: Section<'a>,
    pub(crate) quantified: Vec<&'a [VariableGroup]>,
}

/// An atom of a predicate or a task, with the variables in force.
#[derive(Drop)]
pub(crate) struct Use<'a> {
    pub(crate) kind: Kind,
    pub(crate) scope: InForce<'a>,
    pub(crate) atom: &'a AtomText,
}

/// The item at a place.
#[derive(Drop)]
pub(crate) enum Stand<'a> {
    /// The name of a use.
    Name(Use<'a>),
    /// The argument of a use, by its position.
    Argument(Use<'a>, usize),
    /// A side of an equality.
    Side(InForce<'a>, &'a Term),
}

/// A section's parameters alone.
fn parameters_of<'a>(alloc: Global, section: Section<'a>) -> InForce<'a>
    ensures { in_force result ≡ uses.parameters_of (section_parameters section.entry) }
{
    InForce {
        section,
        quantified: Vec::new(alloc),
    }
}

/// The item at a place of an atom.
fn in_atom<'a>(
    scope: InForce<'a>,
    kind: Kind,
    atom: &'a AtomText,
    place: usize,
) -> Option<Stand<'a>>
    ensures { IfSome result (StandsIn (schema_of_atom kind (record { variables = in_force scope.entry; atom = atom.now })) place) }
{
    if atom.name.place() == place {
        return Some(Stand::Name(Use { kind, scope, atom }));
    }
    let position = argument_at(atom, place)?;
    Some(Stand::Argument(Use { kind, scope, atom }, position))
}

/// The item at a place of an equality.
fn in_equality<'a>(
    scope: InForce<'a>,
    equality: &'a EqualityText,
    place: usize,
) -> Option<Stand<'a>>
    ensures { IfSome result (StandsIn (schema_of_equality (in_force scope.entry) equality.now) place) }
{
    if term_place(&equality.left) == place {
        return Some(Stand::Side(scope, &equality.left));
    }
    if term_place(&equality.right) == place {
        return Some(Stand::Side(scope, &equality.right));
    }
    None
}

/// The item at a place of a condition.
fn in_conditions<'a>(
    alloc: Global,
    section: Section<'a>,
    conditions: &'a [Condition],
    place: usize,
) -> Result<Option<Stand<'a>>, AllocError>
    ensures { IfOk result (λ found. IfSome found (StandsIn (schema_of_conditions (uses.parameters_of (section_parameters section.entry)) conditions.now) place)) }
{
    let mut scope = parameters_of(alloc, section);
    let mut inner = conditions;
    for _ in 0..MOST_DEPTH {
        let Some(condition) = condition_by(inner, place) else {
            return Ok(None);
        };
        match condition {
            Condition::Literal(literal) => {
                return Ok(in_atom(scope, Kind::Predicate, &literal.atom, place));
            }
            Condition::Equality(equality) => return Ok(in_equality(scope, equality, place)),
            Condition::Forall(groups, body) => {
                let own = groups.as_slice();
                let parts = body.as_slice();
                scope.quantified.push(own)?;
                inner = parts;
            }
        }
    }
    Ok(None)
}

/// The item at a place of the constraints of a network.
fn in_constraints<'a>(
    alloc: Global,
    section: Section<'a>,
    network: &'a NetworkText,
    place: usize,
) -> Option<Stand<'a>>
    ensures { IfSome result (StandsIn (schema_of_subtasks (uses.parameters_of (section_parameters section.entry)) network.now) place) }
{
    let equality = equality_by(network.constraints.as_slice(), place)?;
    in_equality(parameters_of(alloc, section), equality, place)
}

/// The item at a place of the subtasks of a network.
fn in_subtasks<'a>(
    alloc: Global,
    section: Section<'a>,
    network: &'a NetworkText,
    place: usize,
) -> Option<Stand<'a>>
    ensures { IfSome result (StandsIn (schema_of_subtasks (uses.parameters_of (section_parameters section.entry)) network.now) place) }
{
    let subtask = subtask_by(network.subtasks.as_slice(), place)?;
    let scope = parameters_of(alloc, section);
    in_atom(scope, Kind::Task, &subtask.task, place)
}

/// The item at a place of a network.
pub(crate) fn in_network<'a>(
    alloc: Global,
    section: Section<'a>,
    network: &'a NetworkText,
    place: usize,
) -> Option<Stand<'a>>
    ensures { IfSome result (StandsIn (schema_of_subtasks (uses.parameters_of (section_parameters section.entry)) network.now) place) }
{
    match in_subtasks(alloc, section, network, place) {
        Some(found) => Some(found),
        None => in_constraints(alloc, section, network, place),
    }
}

/// The item at a place of a method.
pub(crate) fn in_method<'a>(
    alloc: Global,
    method: &'a MethodText,
    place: usize,
) -> Result<Option<Stand<'a>>, AllocError>
    ensures { IfOk result (λ found. IfSome found (StandsIn (uses.schema_of_method method.now) place)) }
{
    let section = Section::Method(method);
    let scope = parameters_of(alloc, section);
    if let Some(found) = in_atom(scope, Kind::Compound, &method.task, place) {
        return Ok(Some(found));
    }
    if let Some(found) = in_network(alloc, section, &method.network, place) {
        return Ok(Some(found));
    }
    let found = in_conditions(alloc, section, method.precondition.as_slice(), place)?;
    Ok(found)
}

/// The item at a place of the methods.
fn in_methods<'a>(
    alloc: Global,
    domain: &'a DomainText,
    place: usize,
) -> Result<Option<Stand<'a>>, AllocError>
    ensures { IfOk result (λ found. IfSome found (StandsInDomain domain.now place)) }
{
    let Some(method) = method_by(domain.methods.as_slice(), place) else {
        return Ok(None);
    };
    let found = in_method(alloc, method, place)?;
    Ok(found)
}

/// The item at a place of an action.
pub(crate) fn in_action<'a>(
    alloc: Global,
    action: &'a ActionText,
    place: usize,
) -> Result<Option<Stand<'a>>, AllocError>
    ensures { IfOk result (λ found. IfSome found (StandsIn (uses.schema_of_action action.now) place)) }
{
    let section = Section::Action(action);
    if let Some(literal) = literal_by(action.effect.as_slice(), place) {
        let scope = parameters_of(alloc, section);
        if let Some(found) = in_atom(scope, Kind::Predicate, &literal.atom, place) {
            return Ok(Some(found));
        }
    }
    let found = in_conditions(alloc, section, action.precondition.as_slice(), place)?;
    Ok(found)
}

/// The item at a place of the actions.
fn in_actions<'a>(
    alloc: Global,
    domain: &'a DomainText,
    place: usize,
) -> Result<Option<Stand<'a>>, AllocError>
    ensures { IfOk result (λ found. IfSome found (StandsInDomain domain.now place)) }
{
    let Some(action) = action_by(domain.actions.as_slice(), place) else {
        return Ok(None);
    };
    let found = in_action(alloc, action, place)?;
    Ok(found)
}

/// The item at a place of a domain.
fn in_domain<'a>(
    alloc: Global,
    domain: &'a DomainText,
    place: usize,
) -> Result<Option<Stand<'a>>, AllocError>
    ensures { IfOk result (λ found. IfSome found (StandsInDomain domain.now place)) }
{
    if let Some(found) = in_methods(alloc, domain, place)? {
        return Ok(Some(found));
    }
    in_actions(alloc, domain, place)
}

/// The item at a place of a problem.
fn in_problem<'a>(
    alloc: Global,
    problem: &'a ProblemText,
    place: usize,
) -> Result<Option<Stand<'a>>, AllocError>
    ensures { IfOk result (λ found. IfSome found (StandsInProblem problem.now place)) }
{
    let htn = &problem.htn;
    if let Some(found) = in_network(alloc, Section::Htn(htn), &htn.network, place) {
        return Ok(Some(found));
    }
    if let Some(atom) = atom_by(problem.init.as_slice(), place) {
        let scope = parameters_of(alloc, Section::States);
        if let Some(found) = in_atom(scope, Kind::Predicate, atom, place) {
            return Ok(Some(found));
        }
    }
    let found = in_conditions(alloc, Section::States, problem.goal.as_slice(), place)?;
    Ok(found)
}

/// The item at a place of a pair, if it is a name, an argument or a side.
fn stand_at<'a>(
    alloc: Global,
    domain: &'a DomainText,
    problem: &'a ProblemText,
    at: At,
) -> Result<Option<Stand<'a>>, AllocError>
    ensures { IfOk result (λ found. IfSome found (StandsAt domain.now problem.now at)) }
{
    match at.source {
        Side::Domain => in_domain(alloc, domain, at.place),
        Side::Problem => in_problem(alloc, problem, at.place),
    }
}

/// The item at a place of a pair with its declarations.
pub(crate) fn stand_of<'a>(
    alloc: Global,
    index: &PairIndex<'a>,
    at: At,
) -> Result<Option<Stand<'a>>, AllocError>
    ensures { IfOk result (λ found. IfSome found (StandsAt index.now.texts.now.domain_tree.now index.now.texts.now.problem_tree.now at)) }
{
    stand_at(alloc, index.texts.domain_tree, index.texts.problem_tree, at)
}
