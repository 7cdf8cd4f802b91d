//! What schemas declare and use: methods, actions, the initial network, and the initial atoms with the goal.
ghost use Rattle.std.specs.Prelude.{◌≡◌, [], OnOk};
ghost use Rattle.std.specs.List.{flat_map};
ghost use Rattle.hddl_meaning.specs.Uses.{parameters_of, schema_of_network, schema_of_states};
ghost use Rattle.hddl_uses.specs.Contexts.{Fails, PassedOver};
ghost use Rattle.hddl_scope.specs.Findings.{AddsAny};
ghost use Rattle.hddl_check.specs.TextParts.{action_parts, method_network_parts, method_parts, parameter_parts, schema_parts};

use hddl_scope::{Findings, MOST_PARAMETERS, Scope};
use hddl_uses::{
    Context, check_atoms, check_conditions, check_constraints, check_count, check_decomposed,
    check_effects, check_network, check_repeats, check_tasks_used, check_variable_types,
};
use hddl_words::{ActionText, MethodText, ProblemText, VariableGroup};
use std::alloc::AllocError;

/// Faults of parameters, which are the variables in force.
fn check_parameters(
    context: &Context<'_, '_>,
    groups: &[VariableGroup],
    scope: &Scope<'_>,
    found: &mut Findings,
) -> Result<(), AllocError>
    requires { scope.now ≡ parameters_of groups.now }
    ensures { OnOk result (AddsAny (PassedOver context.now) (Fails context.now) (parameter_parts groups.now) found.old found.new) }
{
    check_repeats(context, scope, 0, found)?;
    check_count(context, MOST_PARAMETERS, scope, found)?;
    check_variable_types(context, groups, found)?;
    Ok(())
}

/// Faults of a method with these variables in force, but for its network's order.
fn check_method_in<'a>(
    context: &Context<'_, '_>,
    method: &'a MethodText,
    scope: &mut Scope<'a>,
    found: &mut Findings,
) -> Result<(), AllocError>
    requires { scope.old ≡ parameters_of method.now.parameters }
    ensures { OnOk result (AddsAny (PassedOver context.now) (Fails context.now) (method_parts method.now) found.old found.new) }
{
    let network = &method.network;
    check_parameters(context, method.parameters.as_slice(), scope, found)?;
    check_conditions(context, scope, method.precondition.as_slice(), found)?;
    check_constraints(context, scope, network.constraints.as_slice(), found)?;
    check_decomposed(context, scope, &method.task, found)?;
    check_tasks_used(context, scope, network.subtasks.as_slice(), found)?;
    Ok(())
}

/// Faults of a method, but for its network's order.
fn check_method(
    context: &Context<'_, '_>,
    method: &MethodText,
    found: &mut Findings,
) -> Result<(), AllocError>
    ensures { OnOk result (AddsAny (PassedOver context.now) (Fails context.now) (method_parts method.now) found.old found.new) }
{
    let mut scope = Scope::of(context.alloc, method.parameters.as_slice())?;
    check_method_in(context, method, &mut scope, found)?;
    Ok(())
}

/// Faults of an action with these variables in force.
fn check_action_in<'a>(
    context: &Context<'_, '_>,
    action: &'a ActionText,
    scope: &mut Scope<'a>,
    found: &mut Findings,
) -> Result<(), AllocError>
    requires { scope.old ≡ parameters_of action.now.parameters }
    ensures { OnOk result (AddsAny (PassedOver context.now) (Fails context.now) (action_parts action.now) found.old found.new) }
{
    check_parameters(context, action.parameters.as_slice(), scope, found)?;
    check_conditions(context, scope, action.precondition.as_slice(), found)?;
    check_effects(context, scope, action.effect.as_slice(), found)?;
    Ok(())
}

/// Faults of an action.
fn check_action(
    context: &Context<'_, '_>,
    action: &ActionText,
    found: &mut Findings,
) -> Result<(), AllocError>
    ensures { OnOk result (AddsAny (PassedOver context.now) (Fails context.now) (action_parts action.now) found.old found.new) }
{
    let mut scope = Scope::of(context.alloc, action.parameters.as_slice())?;
    check_action_in(context, action, &mut scope, found)?;
    Ok(())
}

/// Faults of the initial network with these variables in force, but for its order.
fn check_initial_in(
    context: &Context<'_, '_>,
    problem: &ProblemText,
    scope: &Scope<'_>,
    found: &mut Findings,
) -> Result<(), AllocError>
    requires { scope.now ≡ parameters_of problem.now.htn.parameters }
    ensures { OnOk result (AddsAny (PassedOver context.now) (Fails context.now) (schema_parts (schema_of_network problem.now)) found.old found.new) }
{
    let network = &problem.htn.network;
    check_parameters(context, problem.htn.parameters.as_slice(), scope, found)?;
    check_constraints(context, scope, network.constraints.as_slice(), found)?;
    check_tasks_used(context, scope, network.subtasks.as_slice(), found)?;
    Ok(())
}

/// Faults of the initial network, but for its order.
pub(crate) fn check_initial(
    context: &Context<'_, '_>,
    problem: &ProblemText,
    found: &mut Findings,
) -> Result<(), AllocError>
    ensures { OnOk result (AddsAny (PassedOver context.now) (Fails context.now) (schema_parts (schema_of_network problem.now)) found.old found.new) }
{
    let scope = Scope::of(context.alloc, problem.htn.parameters.as_slice())?;
    check_initial_in(context, problem, &scope, found)?;
    Ok(())
}

/// Faults of the initial atoms and the goal, with no variables in force.
fn check_states_in<'a>(
    context: &Context<'_, '_>,
    problem: &'a ProblemText,
    scope: &mut Scope<'a>,
    found: &mut Findings,
) -> Result<(), AllocError>
    requires { scope.old ≡ [] }
    ensures { OnOk result (AddsAny (PassedOver context.now) (Fails context.now) (schema_parts (schema_of_states problem.now)) found.old found.new) }
{
    check_parameters(context, &[], scope, found)?;
    check_atoms(context, scope, problem.init.as_slice(), found)?;
    check_conditions(context, scope, problem.goal.as_slice(), found)?;
    Ok(())
}

/// Faults of the initial atoms and the goal.
pub(crate) fn check_states(
    context: &Context<'_, '_>,
    problem: &ProblemText,
    found: &mut Findings,
) -> Result<(), AllocError>
    ensures { OnOk result (AddsAny (PassedOver context.now) (Fails context.now) (schema_parts (schema_of_states problem.now)) found.old found.new) }
{
    let mut scope = Scope::new(context.alloc);
    check_states_in(context, problem, &mut scope, found)?;
    Ok(())
}

/// Faults of methods.
pub(crate) fn check_methods(
    context: &Context<'_, '_>,
    methods: &[MethodText],
    found: &mut Findings,
) -> Result<(), AllocError>
    ensures { OnOk result (AddsAny (PassedOver context.now) (Fails context.now) (flat_map method_parts methods.now) found.old found.new) }
{
    for method in methods {
        check_method(context, method, found)?;
    }
    Ok(())
}

/// Faults of the networks of methods.
pub(crate) fn check_method_networks(
    context: &Context<'_, '_>,
    methods: &[MethodText],
    found: &mut Findings,
) -> Result<(), AllocError>
    ensures { OnOk result (AddsAny (PassedOver context.now) (Fails context.now) (flat_map method_network_parts methods.now) found.old found.new) }
{
    for method in methods {
        check_network(context, method.place, &method.network, found)?;
    }
    Ok(())
}

/// Faults of actions.
pub(crate) fn check_actions(
    context: &Context<'_, '_>,
    actions: &[ActionText],
    found: &mut Findings,
) -> Result<(), AllocError>
    ensures { OnOk result (AddsAny (PassedOver context.now) (Fails context.now) (flat_map action_parts actions.now) found.old found.new) }
{
    for action in actions {
        check_action(context, action, found)?;
    }
    Ok(())
}
