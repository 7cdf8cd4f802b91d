//! The types that declarations, schemas and conditions name.
ghost use Rattle.std.specs.Prelude.{◌≡◌, ◌++◌, IfOk, OnOk};
ghost use Rattle.std.specs.List.{flat_map};
ghost use Rattle.htn_model.specs.Task.{formula_types, types_named_in};
ghost use Rattle.htn_task.specs.Formulas.{formula_of};

use crate::formula::{Formula, FormulaList};
use crate::schema::{ActionSchema, InitialSchema, MethodSchema};
use crate::task::Declaration;
use std::alloc::{AllocError, Global};

/// Appends the types of the variables of a formula, also of those under a `forall`.
fn push_formula_types(formula: &Formula, found: &mut Vec<u16>) -> Result<(), AllocError>
    ensures { OnOk result (found.new.items ≡ found.old.items ++ formula_types (formula_of formula.now)) }
{
    match formula {
        Formula::Literal(_, _) | Formula::Equation(_) => {}
        Formula::ForAll(types, body) => {
            found.extend_from_slice(types)?;
            for part in body {
                push_formula_types(part, found)?;
            }
        }
    }
    Ok(())
}

fn push_conjunction_types(formulas: &FormulaList, found: &mut Vec<u16>) -> Result<(), AllocError>
    ensures { OnOk result (found.new.items ≡ found.old.items ++ flat_map formula_types formulas.now) }
{
    for formula in formulas.as_slice() {
        push_formula_types(formula, found)?;
    }
    Ok(())
}

fn push_place_types(declarations: &[Declaration], found: &mut Vec<u16>) -> Result<(), AllocError>
    ensures { OnOk result (found.new.items ≡ found.old.items ++ flat_map (λ d. d.types) declarations.now) }
{
    for declaration in declarations {
        found.extend_from_slice(declaration.types())?;
    }
    Ok(())
}

fn push_method_types(methods: &[MethodSchema], found: &mut Vec<u16>) -> Result<(), AllocError>
    ensures { OnOk result (found.new.items ≡ found.old.items ++ flat_map (λ m. m.parameters ++ flat_map formula_types m.precondition) methods.now) }
{
    for method in methods {
        found.extend_from_slice(method.parameters())?;
        push_conjunction_types(method.precondition(), found)?;
    }
    Ok(())
}

fn push_action_types(actions: &[ActionSchema], found: &mut Vec<u16>) -> Result<(), AllocError>
    ensures { OnOk result (found.new.items ≡ found.old.items ++ flat_map (λ a. a.parameters ++ flat_map formula_types a.precondition) actions.now) }
{
    for action in actions {
        found.extend_from_slice(action.parameters())?;
        push_conjunction_types(action.precondition(), found)?;
    }
    Ok(())
}

/// The numbers of the types of the places, the parameters and the quantified variables of these, or an error where
/// memory was refused. A number may come more than once.
pub fn named_types(
    alloc: Global,
    predicates: &[Declaration],
    tasks: &[Declaration],
    methods: &[MethodSchema],
    actions: &[ActionSchema],
    initial_network: &InitialSchema,
    goal: &FormulaList,
) -> Result<Vec<u16>, AllocError>
    ensures { IfOk result (λ found. found.items ≡ types_named_in predicates.now tasks.now methods.now actions.now initial_network.now goal.now) }
{
    let mut found = Vec::new(alloc);
    push_place_types(predicates, &mut found)?;
    push_place_types(tasks, &mut found)?;
    push_method_types(methods, &mut found)?;
    push_action_types(actions, &mut found)?;
    found.extend_from_slice(initial_network.parameters())?;
    push_conjunction_types(goal, &mut found)?;
    Ok(found)
}
