//! Atoms, tasks and conjunctions at objects.
ghost use Rattle.std.specs.Prelude.{◌≡◌, ◌++◌, ◌∷◌, [], IfOk, OnOk, map};
ghost use Rattle.std.specs.List.{flat_map};
ghost use Rattle.htn_model.specs.Instances as model;
ghost use Rattle.htn_model.specs.Literal as literals;
ghost use Rattle.htn_task.specs.Literals.{literal_of, literals_of};
ghost use Rattle.htn_task.specs.Formulas.{formula_of, formulas_view};
ghost use Rattle.htn_task.specs.Views.{term_of, terms_of};
ghost use Rattle.htn_ground.specs.Assigned.{lengthened};

use crate::ground_task::GroundTask;
use crate::object_list::ObjectList;
use htn_task::{
    Atom, AtomSchema, EqualitySchema, Formula, FormulaList, Literal, LiteralList, Task, TaskSchema,
    Term,
};
use std::alloc::{AllocError, Global};

/// The object that a term stands for.
pub(crate) fn value_of(values: &[u16], term: Term) -> u16
    ensures { result ≡ model.value_of values.now (term_of term) }
{
    match term {
        Term::Parameter(place) => match values.get(place as usize) {
            Some(value) => *value,
            None => 0,
        },
        Term::Object(object) => object,
    }
}

/// The objects that terms stand for.
pub(crate) fn ground_arguments(
    alloc: Global,
    terms: &[Term],
    values: &[u16],
) -> Result<ObjectList, AllocError>
    ensures { IfOk result (λ l. l ≡ map (model.value_of values.now) (terms_of terms.now)) }
{
    let mut arguments = ObjectList::new(alloc);
    for term in terms {
        arguments.push(value_of(values, *term))?;
    }
    Ok(arguments)
}

/// An atom at the objects that its parameters stand for.
pub(crate) fn ground_atom(
    alloc: Global,
    atom: &AtomSchema,
    values: &[u16],
) -> Result<Atom, AllocError>
    ensures { IfOk result (λ a. a ≡ model.ground_atom values.now atom.now) }
{
    let arguments = ground_arguments(alloc, atom.arguments(), values)?;
    let ground = Atom::new(alloc, atom.predicate(), arguments.as_slice())?;
    Ok(ground)
}

/// A task at the objects that its parameters stand for.
pub(crate) fn ground_task(
    alloc: Global,
    task: &TaskSchema,
    values: &[u16],
) -> Result<GroundTask, AllocError>
    ensures { IfOk result (λ t. t ≡ model.ground_task values.now task.now) }
{
    let arguments = ground_arguments(alloc, task.arguments(), values)?;
    Ok(GroundTask::new(task.name(), arguments))
}

fn ground_literal(
    alloc: Global,
    positive: bool,
    atom: &AtomSchema,
    values: &[u16],
) -> Result<Literal, AllocError>
    ensures { IfOk result (λ l. literal_of l ≡ literals.atom positive (model.ground_atom values.now atom.now)) }
{
    let ground = ground_atom(alloc, atom, values)?;
    if positive {
        return Ok(Literal::Positive(ground));
    }
    Ok(Literal::Negative(ground))
}

fn ground_equality(equality: &EqualitySchema, values: &[u16]) -> Literal
    ensures { literal_of result ≡ model.ground_equality values.now equality.now }
{
    let left = value_of(values, equality.left());
    let right = value_of(values, equality.right());
    if equality.is_positive() {
        Literal::Same(left, right)
    } else {
        Literal::Different(left, right)
    }
}

/// Appends a choice lengthened by each of some objects.
fn push_longer(
    choice: &ObjectList,
    objects: &[u16],
    found: &mut Vec<ObjectList>,
) -> Result<(), AllocError>
    ensures { OnOk result (found.new.items ≡ found.old.items ++ map (λ o. choice.now ++ o ∷ []) objects.now) }
{
    for object in objects {
        let mut longer = choice.clone()?;
        longer.push(*object)?;
        found.push(longer)?;
    }
    Ok(())
}

/// Each choice lengthened by each of some objects.
fn lengthen(
    alloc: Global,
    choices: &[ObjectList],
    objects: &[u16],
) -> Result<Vec<ObjectList>, AllocError>
    ensures { IfOk result (λ v. v.items ≡ lengthened choices.now objects.now) }
{
    let mut longer = Vec::new(alloc);
    for choice in choices {
        push_longer(choice, objects, &mut longer)?;
    }
    Ok(longer)
}

/// All choices of an object of each type, in lexicographic order.
fn assignments(alloc: Global, task: &Task, types: &[u16]) -> Result<Vec<ObjectList>, AllocError>
    ensures { IfOk result (λ v. v.items ≡ model.assignments (model.domains_of task.now types.now)) }
{
    let mut choices = vec![in alloc; ObjectList::new(alloc)]?;
    for type_number in types {
        choices = lengthen(alloc, &choices, task.objects_of(*type_number))?;
    }
    Ok(choices)
}

/// Some values, and others after them.
fn joined(alloc: Global, values: &[u16], more: &[u16]) -> Result<ObjectList, AllocError>
    ensures { IfOk result (λ l. l ≡ values.now ++ more.now) }
{
    let mut all = ObjectList::of(alloc, values)?;
    for value in more {
        all.push(*value)?;
    }
    Ok(all)
}

/// Appends the literals of a formula: a `forall` is all that its body gives, in the order of its
/// substitutions.
fn push_literals(
    alloc: Global,
    task: &Task,
    formula: &Formula,
    values: &[u16],
    found: &mut Vec<Literal>,
) -> Result<(), AllocError>
    ensures { OnOk result (literals_of found.new.items ≡ literals_of found.old.items ++ model.literals_in task.now values.now (formula_of formula.now)) }
{
    match formula {
        Formula::Literal(positive, atom) => {
            found.push(ground_literal(alloc, *positive, atom, values)?)?;
        }
        Formula::Equation(equality) => {
            found.push(ground_equality(equality, values))?;
        }
        Formula::ForAll(types, body) => {
            let choices = assignments(alloc, task, types)?;
            for choice in &choices {
                let longer = joined(alloc, values, choice.as_slice())?;
                let all = longer.as_slice();
                for part in body {
                    push_literals(alloc, task, part, all, found)?;
                }
            }
        }
    }
    Ok(())
}

/// Whether a formula is an equality outside every `forall`.
pub(crate) fn is_equation(formula: &Formula) -> bool
    ensures { result ≡ model.is_equation (formula_of formula.now) }
{
    match formula {
        Formula::Equation(_) => true,
        Formula::Literal(_, _) | Formula::ForAll(_, _) => false,
    }
}

/// The literals of a conjunction that are left to hold in a state: all but the equalities outside
/// every `forall`.
pub(crate) fn state_literals(
    alloc: Global,
    task: &Task,
    formulas: &FormulaList,
    values: &[u16],
) -> Result<LiteralList, AllocError>
    ensures { IfOk result (λ l. l ≡ model.literals_of task.now values.now (model.state_formulas formulas.now)) }
{
    let mut found = Vec::new(alloc);
    for formula in formulas.as_slice() {
        if !is_equation(formula) {
            push_literals(alloc, task, formula, values, &mut found)?;
        }
    }
    Ok(LiteralList::of(found))
}

/// The literals of the goal.
pub fn goal_literals(alloc: Global, task: &Task) -> Result<LiteralList, AllocError>
    ensures { IfOk result (λ l. l ≡ model.literals_of task.now [] task.now.goal) }
{
    let mut found = Vec::new(alloc);
    for formula in task.goal().as_slice() {
        push_literals(alloc, task, formula, &[], &mut found)?;
    }
    Ok(LiteralList::of(found))
}
