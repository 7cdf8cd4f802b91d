//! A plan file as a value.

use crate::word::Word;
use std::marker::Model;

/// An action line: the action with these arguments is one step of the plan, under this id.
#[derive(Debug)]
pub struct ActionLine {
    id: u64,
    name: Word,
    arguments: Vec<Word>,
}

impl Drop for ActionLine {
    fn drop(self) {
        let ActionLine {
            id: _,
            name: _,
            arguments: _,
        } = self;
    }
}

impl Model for ActionLine {
    ghost use Rattle.htn_model.specs.PlanFile.{ActionLine};

    ghost Value = { ActionLine };

    ghost view = { λ a. record { id = a.id; name = a.name; arguments = a.arguments.items } };
}

impl ActionLine {
    ghost use Rattle.std.specs.Prelude.{◌≡◌};

    pub fn new(id: u64, name: Word, arguments: Vec<Word>) -> ActionLine
        ensures { result ≡ record { id = id; name = name; arguments = arguments.items } }
    {
        ActionLine {
            id,
            name,
            arguments,
        }
    }

    pub fn id(&self) -> u64
        ensures { result ≡ self.now.id }
    {
        self.id
    }

    /// The action's name.
    pub fn name(&self) -> &Word
        ensures { result.now ≡ self.now.name }
    {
        &self.name
    }

    /// The objects that the action is applied to.
    pub fn arguments(&self) -> &[Word]
        ensures { result.now ≡ self.now.arguments }
    {
        self.arguments.as_slice()
    }
}

/// A decomposition line: the method decomposes the compound task with these arguments, which has this id, into the
/// nodes with the ids of the children.
#[derive(Debug)]
pub struct DecompositionLine {
    id: u64,
    task: Word,
    arguments: Vec<Word>,
    method: Word,
    children: Vec<u64>,
}

impl Drop for DecompositionLine {
    fn drop(self) {
        let DecompositionLine {
            id: _,
            task: _,
            arguments: _,
            method: _,
            children: _,
        } = self;
    }
}

impl Model for DecompositionLine {
    ghost use Rattle.htn_model.specs.PlanFile.{DecompositionLine};

    ghost Value = { DecompositionLine };

    ghost view = { λ d. record { id = d.id; task = d.task; arguments = d.arguments.items; method = d.method; children = d.children.items } };
}

impl DecompositionLine {
    ghost use Rattle.std.specs.Prelude.{◌≡◌};

    pub fn new(
        id: u64,
        task: Word,
        arguments: Vec<Word>,
        method: Word,
        children: Vec<u64>,
    ) -> DecompositionLine
        ensures { result ≡ record { id = id; task = task; arguments = arguments.items; method = method; children = children.items } }
    {
        DecompositionLine {
            id,
            task,
            arguments,
            method,
            children,
        }
    }

    pub fn id(&self) -> u64
        ensures { result ≡ self.now.id }
    {
        self.id
    }

    /// The compound task's name.
    pub fn task(&self) -> &Word
        ensures { result.now ≡ self.now.task }
    {
        &self.task
    }

    /// The objects that the task is about.
    pub fn arguments(&self) -> &[Word]
        ensures { result.now ≡ self.now.arguments }
    {
        self.arguments.as_slice()
    }

    /// The name of the method that decomposes the task.
    pub fn method(&self) -> &Word
        ensures { result.now ≡ self.now.method }
    {
        &self.method
    }

    /// The ids of the nodes that the task is decomposed into.
    pub fn children(&self) -> &[u64]
        ensures { result.now ≡ self.now.children }
    {
        self.children.as_slice()
    }
}

/// A plan of a hierarchical task network: its actions in order of execution, the nodes of the initial task network, and
/// a decomposition for each compound node. Each name, argument and method is a word that a line of a plan text can
/// hold.
#[derive(Debug)]
pub struct PlanFile {
    actions: Vec<ActionLine>,
    roots: Vec<u64>,
    decompositions: Vec<DecompositionLine>,
}

impl Drop for PlanFile {
    fn drop(self) {
        let PlanFile {
            actions: _,
            roots: _,
            decompositions: _,
        } = self;
    }
}

impl Model for PlanFile {
    ghost use Rattle.htn_model.specs.PlanFile.{PlanFile};
    ghost use Rattle.plan_text.specs.PlanFile.{IsPlanFile};

    ghost Value = { PlanFile };

    ghost view = { λ f. record { actions = f.actions.items; roots = f.roots.items; decompositions = f.decompositions.items } };

    ghost invariant = { λ f. IsPlanFile (record { actions = f.actions.items; roots = f.roots.items; decompositions = f.decompositions.items }) };
}

impl PlanFile {
    ghost use Rattle.std.specs.Prelude.{◌≡◌};
    ghost use Rattle.plan_text.specs.PlanFile.{IsPlanFile};

    pub fn new(
        actions: Vec<ActionLine>,
        roots: Vec<u64>,
        decompositions: Vec<DecompositionLine>,
    ) -> PlanFile
        requires { IsPlanFile (record { actions = actions.items; roots = roots.items; decompositions = decompositions.items }) }
        ensures { result ≡ record { actions = actions.items; roots = roots.items; decompositions = decompositions.items } }
    {
        PlanFile {
            actions,
            roots,
            decompositions,
        }
    }

    /// The action lines, in order of execution.
    pub fn actions(&self) -> &[ActionLine]
        ensures value { result.now ≡ self.now.actions }
        ensures file { IsPlanFile self.now }
    {
        self.actions.as_slice()
    }

    /// The ids of the root line.
    pub fn roots(&self) -> &[u64]
        ensures value { result.now ≡ self.now.roots }
        ensures file { IsPlanFile self.now }
    {
        self.roots.as_slice()
    }

    /// The decomposition lines, in the file's order.
    pub fn decompositions(&self) -> &[DecompositionLine]
        ensures value { result.now ≡ self.now.decompositions }
        ensures file { IsPlanFile self.now }
    {
        self.decompositions.as_slice()
    }
}
