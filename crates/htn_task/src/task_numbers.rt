//! The numbers of what a task declares, by name.
ghost use Rattle.std.specs.Prelude.{◌≡◌, ◌+◌, ◌++◌, map, IfOk, OnOk};
ghost use Rattle.htn_task.specs.Numbers.{AreNumbersOf};
ghost use Rattle.htn_task.specs.TaskNumbers.{AreNumbersIn};

use crate::name::Name;
use crate::numbers::NameNumbers;
use crate::schema::{ActionSchema, MethodSchema};
use crate::task::{Declaration, ObjectType, TaskParts};
use std::alloc::{AllocError, Global};

/// The numbers of what a task declares, by kind and name.
pub(crate) struct TaskNumbers {
    pub(crate) objects: NameNumbers,
    pub(crate) types: NameNumbers,
    pub(crate) predicates: NameNumbers,
    pub(crate) tasks: NameNumbers,
    pub(crate) methods: NameNumbers,
}

// `Drop` is written by hand: a derived one is expanded, and proved, at each way out of each owner.
impl Drop for TaskNumbers {
    fn drop(self) {
        let TaskNumbers {
            objects: _,
            types: _,
            predicates: _,
            tasks: _,
            methods: _,
        } = self;
    }
}

impl TaskNumbers {
    /// The numbers of what these parts declare, or an error where memory was refused.
    pub(crate) fn of(alloc: Global, parts: &TaskParts) -> Result<TaskNumbers, AllocError>
        ensures { IfOk result (AreNumbersIn parts.now) }
    {
        let mut numbers = TaskNumbers::none(alloc);
        numbers.number(alloc, parts)?;
        Ok(numbers)
    }

    /// No numbers.
    fn none(alloc: Global) -> TaskNumbers {
        TaskNumbers {
            objects: NameNumbers::new(alloc),
            types: NameNumbers::new(alloc),
            predicates: NameNumbers::new(alloc),
            tasks: NameNumbers::new(alloc),
            methods: NameNumbers::new(alloc),
        }
    }

    /// Numbers what these parts declare, in place of what was numbered before.
    fn number(&mut self, alloc: Global, parts: &TaskParts) -> Result<(), AllocError>
        ensures { OnOk result (AreNumbersIn parts.now self.new) }
    {
        self.objects = object_numbers(alloc, &parts.objects)?;
        self.types = type_numbers(alloc, &parts.types)?;
        self.predicates = declaration_numbers(alloc, &parts.predicates)?;
        self.tasks = task_numbers(alloc, &parts.tasks, &parts.actions)?;
        self.methods = method_numbers(alloc, &parts.methods)?;
        Ok(())
    }
}

fn object_numbers(alloc: Global, objects: &[Name]) -> Result<NameNumbers, AllocError>
    ensures { IfOk result (AreNumbersOf objects.now) }
{
    let mut numbers = NameNumbers::new(alloc);
    for (number, name) in objects.iter().enumerate() {
        numbers.add(alloc, name.as_bytes(), number)?;
    }
    Ok(numbers)
}

fn type_numbers(alloc: Global, types: &[ObjectType]) -> Result<NameNumbers, AllocError>
    ensures { IfOk result (AreNumbersOf (map (λ d. d.name) types.now)) }
{
    let mut numbers = NameNumbers::new(alloc);
    for (number, declared) in types.iter().enumerate() {
        numbers.add(alloc, declared.name().as_bytes(), number)?;
    }
    Ok(numbers)
}

fn declaration_numbers(
    alloc: Global,
    declarations: &[Declaration],
) -> Result<NameNumbers, AllocError>
    ensures { IfOk result (AreNumbersOf (map (λ d. d.name) declarations.now)) }
{
    let mut numbers = NameNumbers::new(alloc);
    for (number, declared) in declarations.iter().enumerate() {
        numbers.add(alloc, declared.name().as_bytes(), number)?;
    }
    Ok(numbers)
}

/// The sum of two counts of things that are in memory. It fits, since things past the greatest `usize` would not be in
/// memory; otherwise the answer is as if memory had been refused.
fn sum(a: usize, b: usize) -> Result<usize, AllocError>
    ensures { IfOk result (λ n. n ≡ a + b) }
{
    match a.checked_add(b) {
        Some(sum) => Ok(sum),
        None => Err(AllocError),
    }
}

/// The numbers of the compound tasks, and on from these the numbers of the actions.
fn task_numbers(
    alloc: Global,
    tasks: &[Declaration],
    actions: &[ActionSchema],
) -> Result<NameNumbers, AllocError>
    ensures { IfOk result (AreNumbersOf (map (λ d. d.name) tasks.now ++ map (λ a. a.name) actions.now)) }
{
    let mut numbers = declaration_numbers(alloc, tasks)?;
    for (place, action) in actions.iter().enumerate() {
        let number = sum(tasks.len(), place)?;
        numbers.add(alloc, action.name().as_bytes(), number)?;
    }
    Ok(numbers)
}

fn method_numbers(alloc: Global, methods: &[MethodSchema]) -> Result<NameNumbers, AllocError>
    ensures { IfOk result (AreNumbersOf (map (λ m. m.name) methods.now)) }
{
    let mut numbers = NameNumbers::new(alloc);
    for (number, method) in methods.iter().enumerate() {
        numbers.add(alloc, method.name().as_bytes(), number)?;
    }
    Ok(numbers)
}
