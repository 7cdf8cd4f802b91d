//! The instances of a task's methods, of its initial network and of its actions.
ghost use Rattle.std.specs.Prelude.{◌≡◌, ◌+◌, ◌++◌, [], List, ℕ, IfNone, IfOk, IfSome, OnOk, length, map};
ghost use Rattle.std.specs.List.{All, enumerate_from};
ghost use Rattle.htn_model.specs.Instances as model;
ghost use Rattle.htn_model.specs.Task.{IsMethodSchema};
ghost use Rattle.htn_ground.specs.Fixed.{IsFixed};
ghost use Rattle.htn_ground.specs.Counted.{counted, fitted, fitting};
ghost use Rattle.htn_ground.specs.Methods.{fits_task, instances_for, live_instances, numbered_instances};
ghost use Rattle.htn_ground.specs.Search.{AreBound, AreLiteralsOf, live_from};

use crate::conditions::{
    Conditions, action_conditions, initial_conditions, method_conditions, pin,
};
use crate::dead::{fixed_literals, is_dead};
use crate::fixed::FixedLiteral;
use crate::ground_task::GroundTask;
use crate::instance::Instance;
use crate::instances::{is_instance, live_values};
use crate::literals::{ground_atom, state_literals};
use crate::network::{children_for, order_for};
use crate::object_list::ObjectList;
use htn_task::{
    Action, ActionSchema, Atom, AtomSchema, FormulaList, MethodSchema, State, Task, TaskSchema,
};
use std::alloc::{AllocError, Global};

/// The place of an element of a list as a 16-bit number. A task that is checked from texts has at most 65,535 methods,
/// so there each one has a number. The type of a `Task` does not guarantee that: where the place of a method is past 16
/// bits, the answer is as if memory had been refused.
pub(crate) fn number_at(place: usize) -> Result<u16, AllocError>
    ensures { IfOk result (λ n. n ≡ place) }
{
    match u16::try_from(place) {
        Ok(number) => Ok(number),
        Err(_) => Err(AllocError),
    }
}

/// Whether a schema's task has the number of a ground task, and as many arguments.
fn fits_task(schema: &TaskSchema, goal: &GroundTask) -> bool
    ensures { result ≡ fits_task schema.now goal.now }
{
    schema.name() == goal.name() && schema.arguments().len() == goal.arguments().len()
}

/// The conditions on the values of a method's instances for a ground task; none where the method is for
/// another task.
pub(crate) fn conditions_for(
    alloc: Global,
    task: &Task,
    goal: &GroundTask,
    method: &MethodSchema,
) -> Result<Option<Conditions>, AllocError>
    requires { IsMethodSchema task.now method.now }
    ensures none { IfOk result (λ o. IfNone o (instances_for task.now goal.now method.now ≡ [])) }
    ensures instances { IfOk result (λ o. IfSome o (λ c. model.instances task.now c ≡ instances_for task.now goal.now method.now)) }
    ensures parameters { IfOk result (λ o. IfSome o (λ c. c.parameters ≡ method.now.parameters)) }
    ensures bound { IfOk result (λ o. IfSome o (λ c. AreBound c)) }
{
    if !fits_task(method.task(), goal) {
        return Ok(None);
    }
    let conditions = method_conditions(alloc, task, method)?;
    let pinned = pin(conditions, method.task().arguments(), goal.arguments())?;
    Ok(Some(pinned))
}

/// The literals of a method's precondition that rule values out for a ground task. None are sought where
/// the method is for another task, since to see whether a predicate changes takes all actions.
pub(crate) fn literals_for(
    alloc: Global,
    task: &Task,
    goal: &GroundTask,
    method: &MethodSchema,
) -> Result<Vec<FixedLiteral>, AllocError>
    ensures { IfOk result (λ literals. All (IsFixed task.now method.now.precondition) literals.items) }
{
    if !fits_task(method.task(), goal) {
        return Ok(Vec::new(alloc));
    }
    let literals = fixed_literals(alloc, task, method.precondition())?;
    Ok(literals)
}

/// The values of a method's instances for a ground task that no literal rules out, each with its
/// number among all of them, from `first` on, if that fits; and the number after the last.
fn values_for(
    alloc: Global,
    task: &Task,
    goal: &GroundTask,
    method: &MethodSchema,
    literals: &[FixedLiteral],
    first: Option<u64>,
) -> Result<(Vec<(Option<u64>, ObjectList)>, Option<u64>), AllocError>
    requires typed { IsMethodSchema task.now method.now }
    requires literals { AreLiteralsOf literals.now (length method.now.parameters) }
    ensures found { IfOk result (λ r. (n : ℕ) → first ≡ fitting n → r.0.items ≡ map fitted (live_from task.now.initial_atoms literals.now n (instances_for task.now goal.now method.now))) }
    ensures next { IfOk result (λ r. (n : ℕ) → first ≡ fitting n → r.1 ≡ fitting (n + length (instances_for task.now goal.now method.now))) }
{
    let Some(conditions) = conditions_for(alloc, task, goal, method)? else {
        return Ok((Vec::new(alloc), first));
    };
    let found = live_values(alloc, task, &conditions, literals, first)?;
    Ok(found)
}

/// The instance of a method at values.
pub fn method_instance(
    alloc: Global,
    task: &Task,
    number: u16,
    method: &MethodSchema,
    values: ObjectList,
) -> Result<Instance, AllocError>
    ensures { IfOk result (λ i. i ≡ model.method_instance task.now number method.now values) }
{
    let children = children_for(
        alloc,
        task,
        method.precondition(),
        method.network(),
        values.as_slice(),
    )?;
    let order = order_for(alloc, method.precondition(), method.network())?;
    Ok(Instance::new(Some(number), values, children, order))
}

/// Appends the instances of a method at these values.
fn push_instances(
    alloc: Global,
    task: &Task,
    number: u16,
    method: &MethodSchema,
    values: Vec<(Option<u64>, ObjectList)>,
    found: &mut Vec<Instance>,
) -> Result<(), AllocError>
    ensures { OnOk result (found.new.items ≡ found.old.items ++ map (λ p. model.method_instance task.now number method.now p.1) values.items) }
{
    for (_, choice) in &values {
        found.push(method_instance(alloc, task, number, method, choice.clone()?)?)?;
    }
    Ok(())
}

/// All instances of a ground task's methods: by the methods' declaration, and then by the values of
/// their parameters in the order of the objects. An instance's number is its place in the list.
/// An action has none. An error means that memory was refused, or that the task has more than 65,536
/// methods, as no checked text has.
pub fn methods_of(
    alloc: Global,
    task: &Task,
    goal: &GroundTask,
) -> Result<Vec<Instance>, AllocError>
    ensures { IfOk result (λ v. v.items ≡ model.methods_of task.now goal.now) }
{
    let mut found = Vec::new(alloc);
    for (place, method) in task.methods().iter().enumerate() {
        let number = number_at(place)?;
        let (values, _) = values_for(alloc, task, goal, method, &[], Some(0))?;
        push_instances(alloc, task, number, method, values, &mut found)?;
    }
    Ok(found)
}

/// Appends those instances of a method at numbered values that are not dead, with their numbers, so far
/// as these fit.
fn push_live_instances(
    alloc: Global,
    task: &Task,
    number: u16,
    method: &MethodSchema,
    values: Vec<(Option<u64>, ObjectList)>,
    found: &mut Vec<(Option<u64>, Instance)>,
) -> Result<(), AllocError>
    ensures { OnOk result ((xs : List (ℕ × List ℕ)) → values.items ≡ map fitted xs
        → found.new.items ≡ found.old.items ++ map counted (live_instances task.now (numbered_instances task.now number method.now xs))) }
{
    for (rank, choice) in &values {
        let instance = method_instance(alloc, task, number, method, choice.clone()?)?;
        if is_dead(task, &instance) {
            continue;
        }
        found.push((*rank, instance))?;
    }
    Ok(())
}

/// The instances of a ground task's methods that are not dead, each with its number among all of them
/// where that fits 64 bits. An instance is dead if its precondition step has a literal that is false at
/// first and whose predicate no effect names, or a false equality. An error means that memory was refused,
/// or that the task has more than 65,536 methods, as no checked text has.
pub fn counted_live_methods_of(
    alloc: Global,
    task: &Task,
    goal: &GroundTask,
) -> Result<Vec<(Option<u64>, Instance)>, AllocError>
    ensures { IfOk result (λ v. v.items ≡ map counted (live_instances task.now (enumerate_from 0 (model.methods_of task.now goal.now)))) }
{
    let mut found = Vec::new(alloc);
    let mut first = Some(0);
    for (place, method) in task.methods().iter().enumerate() {
        let number = number_at(place)?;
        let literals = literals_for(alloc, task, goal, method)?;
        let (values, next) = values_for(alloc, task, goal, method, &literals, first)?;
        push_live_instances(alloc, task, number, method, values, &mut found)?;
        first = next;
    }
    Ok(found)
}

/// The instances of a ground task's methods that are not dead, each with its number among all of them.
/// Each of these numbers has to fit. An error means that memory was refused, that the number of an instance
/// that is not dead is past 64 bits (those of dead ones may be as great as they like), or that the task has
/// more than 65,536 methods, as no checked text has.
pub fn live_methods_of(
    alloc: Global,
    task: &Task,
    goal: &GroundTask,
) -> Result<Vec<(u64, Instance)>, AllocError>
    ensures { IfOk result (λ v. v.items ≡ live_instances task.now (enumerate_from 0 (model.methods_of task.now goal.now))) }
{
    let live = counted_live_methods_of(alloc, task, goal)?;
    let mut found = Vec::new(alloc);
    for (number, instance) in live {
        let Some(known) = number else {
            return Err(AllocError);
        };
        found.push((known, instance))?;
    }
    Ok(found)
}

/// The instance of the initial network at values.
pub fn initial_instance(
    alloc: Global,
    task: &Task,
    values: ObjectList,
) -> Result<Instance, AllocError>
    ensures { IfOk result (λ i. i ≡ model.initial_instance task.now values) }
{
    let empty = FormulaList::of(Vec::new(alloc));
    let network = task.initial_network().network();
    let children = children_for(alloc, task, &empty, network, values.as_slice())?;
    let order = order_for(alloc, &empty, network)?;
    Ok(Instance::new(None, values, children, order))
}

/// The instances of the initial network, by the values of its parameters in the order of the
/// objects.
pub fn initials(alloc: Global, task: &Task) -> Result<Vec<Instance>, AllocError>
    ensures { IfOk result (λ v. v.items ≡ model.initials task.now) }
{
    let conditions = initial_conditions(alloc, task, task.initial_network())?;
    let (values, _) = live_values(alloc, task, &conditions, &[], Some(0))?;
    let mut found = Vec::new(alloc);
    for (_, choice) in &values {
        found.push(initial_instance(alloc, task, choice.clone()?)?)?;
    }
    Ok(found)
}

/// Atoms at the objects that their parameters stand for.
fn ground_atoms(
    alloc: Global,
    atoms: &[AtomSchema],
    values: &[u16],
) -> Result<Vec<Atom>, AllocError>
    ensures { IfOk result (λ v. v.items ≡ map (model.ground_atom values.now) atoms.now) }
{
    let mut found = Vec::new(alloc);
    for atom in atoms {
        found.push(ground_atom(alloc, atom, values)?)?;
    }
    Ok(found)
}

/// The action of a schema at values.
fn ground_action(
    alloc: Global,
    task: &Task,
    action: &ActionSchema,
    values: &[u16],
) -> Result<Action, AllocError>
    ensures { IfOk result (λ a. a ≡ model.ground_action task.now values.now action.now) }
{
    let precondition = state_literals(alloc, task, action.precondition(), values)?;
    let deleted = ground_atoms(alloc, action.deletes(), values)?;
    let added = ground_atoms(alloc, action.adds(), values)?;
    let deletes = State::of(alloc, &deleted)?;
    let adds = State::of(alloc, &added)?;
    Ok(Action {
        precondition,
        deletes,
        adds,
    })
}

/// The action of a ground task; none where its arguments are no instance of an action.
pub fn action_of(
    alloc: Global,
    task: &Task,
    goal: &GroundTask,
) -> Result<Option<Action>, AllocError>
    ensures { IfOk result (λ a. a ≡ model.action_of task.now goal.now) }
{
    let Some(action) = task.action_at(goal.name()) else {
        return Ok(None);
    };
    let conditions = action_conditions(alloc, task, action)?;
    if !is_instance(task, &conditions, goal.arguments()) {
        return Ok(None);
    }
    let ground = ground_action(alloc, task, action, goal.arguments())?;
    Ok(Some(ground))
}
