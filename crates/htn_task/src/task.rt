//! Planning tasks.
ghost use Rattle.std.specs.Prelude.{◌≡◌, IfOk, MatchOption};
ghost use Rattle.std.specs.List.Sorted.{IsStrictlySortedBy};
ghost use Rattle.std.specs.Ordering.{nat_cmp};
ghost use Rattle.htn_model.specs.Grounding.{is_changed};
ghost use Rattle.htn_model.specs.Instances.{action_at};
ghost use Rattle.htn_model.specs.Task.{IsWellTyped, is_compound, method_names, objects_of, predicate_names, predicate_types, task_names, task_types, type_names};
ghost use Rattle.htn_task.specs.Fluents.{AreFluents};
ghost use Rattle.htn_task.specs.Numbers.{number_of};
ghost use Rattle.htn_task.specs.TaskNumbers.{AreNumbersIn};

use crate::fluents::fluents_of;
use crate::formula::FormulaList;
use crate::name::Name;
use crate::schema::{ActionSchema, InitialSchema, MethodSchema};
use crate::state::State;
use crate::task_numbers::TaskNumbers;
use std::alloc::{AllocError, Global};
use std::marker::Model;

/// A type, with the objects that have it.
pub struct ObjectType {
    name: Name,
    objects: Vec<u16>,
}

impl Drop for ObjectType {
    fn drop(self) {
        let ObjectType {
            name: _,
            objects: _,
        } = self;
    }
}

impl Model for ObjectType {
    ghost use Rattle.htn_model.specs.Task as model;
    ghost use Rattle.htn_model.specs.TaskCode.{object_type_code};

    ghost Value = { model.ObjectType };

    ghost coded = { object_type_code };

    ghost view = { λ d. record { name = d.name; objects = d.objects.items } };
}

impl ObjectType {
    pub fn new(name: Name, objects: Vec<u16>) -> ObjectType
        ensures { result ≡ record { name = name; objects = objects.items } }
    {
        ObjectType { name, objects }
    }

    pub fn name(&self) -> &Name
        ensures { result.now ≡ self.now.name }
    {
        &self.name
    }

    /// The objects that have it, ascending.
    pub fn objects(&self) -> &[u16]
        ensures { result.now ≡ self.now.objects }
    {
        &self.objects
    }
}

/// A predicate or a compound task, with the types of its places.
pub struct Declaration {
    name: Name,
    types: Vec<u16>,
}

impl Drop for Declaration {
    fn drop(self) {
        let Declaration { name: _, types: _ } = self;
    }
}

impl Model for Declaration {
    ghost use Rattle.htn_model.specs.Task as model;
    ghost use Rattle.htn_model.specs.TaskCode.{declaration_code};

    ghost Value = { model.Declaration };

    ghost coded = { declaration_code };

    ghost view = { λ d. record { name = d.name; types = d.types.items } };
}

impl Declaration {
    pub fn new(name: Name, types: Vec<u16>) -> Declaration
        ensures { result ≡ record { name = name; types = types.items } }
    {
        Declaration { name, types }
    }

    pub fn name(&self) -> &Name
        ensures { result.now ≡ self.now.name }
    {
        &self.name
    }

    /// The types of its places.
    pub fn types(&self) -> &[u16]
        ensures { result.now ≡ self.now.types }
    {
        &self.types
    }
}

/// The parts of a task.
pub struct TaskParts {
    /// The objects, by first declaration.
    pub objects: Vec<Name>,
    pub types: Vec<ObjectType>,
    pub predicates: Vec<Declaration>,
    /// The compound tasks.
    pub tasks: Vec<Declaration>,
    pub methods: Vec<MethodSchema>,
    pub actions: Vec<ActionSchema>,
    pub initial_network: InitialSchema,
    /// The atoms that are true initially.
    pub initial_atoms: State,
    pub goal: FormulaList,
}

impl Model for TaskParts {
    ghost use Rattle.htn_model.specs.Task as model;
    ghost use Rattle.htn_model.specs.TaskCode.{task_code};

    ghost Value = { model.Task };

    ghost coded = { task_code };

    ghost view = { λ t. record {
      objects = t.objects.items;
      types = t.types.items;
      predicates = t.predicates.items;
      tasks = t.tasks.items;
      methods = t.methods.items;
      actions = t.actions.items;
      initial_network = t.initial_network;
      initial_atoms = t.initial_atoms;
      goal = t.goal;
    } };
}

// `Drop` is written by hand: a derived one is expanded, and proved, at each way out of each owner.
impl Drop for TaskParts {
    fn drop(self) {
        let TaskParts {
            objects: _,
            types: _,
            predicates: _,
            tasks: _,
            methods: _,
            actions: _,
            initial_network: _,
            initial_atoms: _,
            goal: _,
        } = self;
    }
}

/// A well-typed planning task: no two objects, types, predicates or methods, and no two tasks or actions, have one
/// name, each number in it names something, each atom and task has its declaration's number of arguments, and the
/// orders of its networks are closed.
pub struct Task {
    parts: TaskParts,
    numbers: TaskNumbers,
    fluents: Vec<bool>,
}

impl Model for Task {
    ghost use Rattle.htn_model.specs.Task as model;
    ghost use Rattle.htn_model.specs.TaskCode.{task_code};
    ghost use Rattle.htn_task.specs.Fluents.{AreFluents};
    ghost use Rattle.htn_task.specs.TaskNumbers.{AreNumbersIn};

    ghost Value = { model.Task };

    ghost coded = { task_code };

    ghost view = { λ t. t.parts };

    ghost invariant = { λ t. model.IsWellTyped t.parts × AreNumbersIn t.parts t.numbers × AreFluents t.parts t.fluents.items };
}

// `Drop` is written by hand: a derived one is expanded, and proved, at each way out of each owner.
impl Drop for Task {
    fn drop(self) {
        let Task {
            parts: _,
            numbers: _,
            fluents: _,
        } = self;
    }
}

/// What is derived from the parts of a task.
#[derive(Drop)]
struct Derived {
    numbers: TaskNumbers,
    fluents: Vec<bool>,
}

fn derived_of(alloc: Global, parts: &TaskParts) -> Result<Derived, AllocError>
    ensures numbers { IfOk result (λ d. AreNumbersIn parts.now d.numbers) }
    ensures fluents { IfOk result (λ d. AreFluents parts.now d.fluents.items) }
{
    Ok(Derived {
        fluents: fluents_of(alloc, parts)?,
        numbers: TaskNumbers::of(alloc, parts)?,
    })
}

impl Task {
    /// The task of these parts, or an error where memory was refused.
    pub fn new(alloc: Global, parts: TaskParts) -> Result<Task, AllocError>
        requires { IsWellTyped parts }
        ensures { IfOk result (λ t. t ≡ parts) }
    {
        let derived = derived_of(alloc, &parts)?;
        Ok(Task {
            parts,
            numbers: derived.numbers,
            fluents: derived.fluents,
        })
    }

    /// The objects' names, by first declaration.
    pub fn objects(&self) -> &[Name]
        ensures value { result.now ≡ self.now.objects }
        ensures typed { IsWellTyped self.now }
    {
        &self.parts.objects
    }

    /// The types, each with its objects.
    pub fn types(&self) -> &[ObjectType]
        ensures value { result.now ≡ self.now.types }
        ensures typed { IsWellTyped self.now }
    {
        &self.parts.types
    }

    pub fn predicates(&self) -> &[Declaration]
        ensures value { result.now ≡ self.now.predicates }
        ensures typed { IsWellTyped self.now }
    {
        &self.parts.predicates
    }

    /// The compound tasks. Their numbers come before those of the actions.
    pub fn tasks(&self) -> &[Declaration]
        ensures value { result.now ≡ self.now.tasks }
        ensures typed { IsWellTyped self.now }
    {
        &self.parts.tasks
    }

    pub fn methods(&self) -> &[MethodSchema]
        ensures value { result.now ≡ self.now.methods }
        ensures typed { IsWellTyped self.now }
    {
        &self.parts.methods
    }

    pub fn actions(&self) -> &[ActionSchema]
        ensures value { result.now ≡ self.now.actions }
        ensures typed { IsWellTyped self.now }
    {
        &self.parts.actions
    }

    pub fn initial_network(&self) -> &InitialSchema
        ensures value { result.now ≡ self.now.initial_network }
        ensures typed { IsWellTyped self.now }
    {
        &self.parts.initial_network
    }

    /// The atoms that are true initially.
    pub fn initial_atoms(&self) -> &State
        ensures value { result.now ≡ self.now.initial_atoms }
        ensures typed { IsWellTyped self.now }
    {
        &self.parts.initial_atoms
    }

    pub fn goal(&self) -> &FormulaList
        ensures value { result.now ≡ self.now.goal }
        ensures typed { IsWellTyped self.now }
    {
        &self.parts.goal
    }

    /// The objects that are listed for a type, ascending; none where no type has the number. The task of two texts
    /// lists the objects of only those types that a place, a parameter or a quantified variable names: for any other
    /// type the list is empty, though objects have it.
    pub fn objects_of(&self, type_number: u16) -> &[u16]
        ensures value { result.now ≡ objects_of self.now type_number }
        ensures ascending { IsStrictlySortedBy nat_cmp result.now }
    {
        match self.parts.types.get(type_number as usize) {
            Some(declared) => declared.objects(),
            None => &[],
        }
    }

    /// The types of a predicate's places; none where no predicate has the number.
    pub fn predicate_types(&self, predicate: u16) -> &[u16]
        ensures { result.now ≡ predicate_types self.now predicate }
    {
        match self.parts.predicates.get(predicate as usize) {
            Some(declared) => declared.types(),
            None => &[],
        }
    }

    /// Whether an effect of some action names the predicate, so that its atoms may change. Takes constant time.
    pub fn is_fluent(&self, predicate: u16) -> bool
        ensures { result ≡ is_changed self.now predicate }
    {
        self.fluents
            .get(predicate as usize)
            .copied()
            .unwrap_or(false)
    }

    /// Whether each predicate is fluent, by number. The list ends with the last fluent predicate.
    pub fn fluents(&self) -> &[bool]
        ensures { AreFluents self.now result.now }
    {
        self.fluents.as_slice()
    }

    /// Whether a number is that of a compound task.
    pub fn is_compound(&self, name: u32) -> bool
        ensures { result ≡ is_compound self.now name }
    {
        (name as usize) < self.parts.tasks.len()
    }

    /// The types of the places of a compound task or an action; none where neither has the number.
    pub fn task_types(&self, name: u32) -> &[u16]
        ensures { result.now ≡ task_types self.now name }
    {
        let count = self.parts.tasks.len();
        let name = name as usize;
        if name < count {
            return self.parts.tasks[name].types();
        }
        match self.parts.actions.get(name - count) {
            Some(action) => action.parameters(),
            None => &[],
        }
    }

    /// The action of a number, if it is that of an action.
    pub fn action_at(&self, name: u32) -> Option<&ActionSchema>
        ensures { MatchOption result (action_at self.now name ≡ None) (λ a. action_at self.now name ≡ Some a.now) }
    {
        let count = self.parts.tasks.len();
        let name = name as usize;
        if name < count {
            return None;
        }
        self.parts.actions.get(name - count)
    }

    /// The number of the object with a name: its place among the objects. Takes no memory.
    pub fn object_number(&self, name: &[u8]) -> Option<usize>
        ensures { result ≡ number_of self.now.objects name.now }
    {
        self.numbers.objects.get(name)
    }

    /// The number of the type with a name. Takes no memory.
    pub fn type_number(&self, name: &[u8]) -> Option<usize>
        ensures { result ≡ number_of (type_names self.now) name.now }
    {
        self.numbers.types.get(name)
    }

    /// The number of the predicate with a name. Takes no memory.
    pub fn predicate_number(&self, name: &[u8]) -> Option<usize>
        ensures { result ≡ number_of (predicate_names self.now) name.now }
    {
        self.numbers.predicates.get(name)
    }

    /// The number of the compound task or the action with a name. Takes no memory.
    pub fn task_number(&self, name: &[u8]) -> Option<usize>
        ensures { result ≡ number_of (task_names self.now) name.now }
    {
        self.numbers.tasks.get(name)
    }

    /// The number of the method with a name: its place among the methods. Takes no memory.
    pub fn method_number(&self, name: &[u8]) -> Option<usize>
        ensures { result ≡ number_of (method_names self.now) name.now }
    {
        self.numbers.methods.get(name)
    }
}
