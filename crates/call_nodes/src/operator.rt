//! What nodes do.
ghost use Rattle.std.specs.Prelude.{◌≡◌, IfOk, IfSome, List, OnOk, option_map};
ghost use Rattle.call_nodes.specs.Nodes.{AreAtoms, IsOperator};
ghost use Rattle.call_table.specs.Lists.{Lists};
ghost use Rattle.htn_ground.specs.Views.{child_view};
ghost use Rattle.htn_model.specs.Grounding.{problem_of};
ghost use Rattle.htn_model.specs.Problem.{perform};
ghost use Rattle.htn_model.specs.Problem as model;
ghost use Rattle.htn_model.specs.Task as tasks;
ghost use Rattle.state_table.specs.Table.{IsLater, IsSetOf, IsTable, Table, state_of};

use htn_ground::{Child, action_of};
use htn_task::Task;
use state_table::{AtomTable, BitState, CompiledAction, CompiledLiterals};
use std::alloc::{AllocError, Global};

/// What a node does where it is the first of a list.
#[derive(Drop)]
pub enum Operator {
    /// A compound task whose instances were not asked for yet.
    Unlisted,
    /// A compound task: the lists of its instances that are listed, in the order of their ranks.
    Task(Vec<u32>),
    /// A compound task with an instance that is listed and is not totally ordered.
    Partly,
    /// A precondition step wants that its literals hold, and leaves the state.
    Step(CompiledLiterals),
    Action(CompiledAction),
    /// An action at arguments of which it has no instance.
    Never,
}

impl Operator {
    /// The state after a step or an action; none where it can't be performed, and for a compound task.
    pub(crate) fn after(&self, before: &BitState) -> Result<Option<BitState>, AllocError>
        ensures state { IfOk result (λ o. (t : tasks.Task) (atoms : Table) (known : List model.Child) (l : Lists) (x : model.Child)
            → IsTable atoms → IsOperator t atoms known l x self.now
            → option_map (state_of atoms) o ≡ perform (problem_of t) (state_of atoms before.now) x) }
        ensures within { IfOk result (λ o. IfSome o (λ s. (t : tasks.Task) (atoms : Table) (known : List model.Child) (l : Lists)
            (x : model.Child) → IsOperator t atoms known l x self.now → IsSetOf atoms before.now → IsSetOf atoms s)) }
    {
        match self {
            Operator::Unlisted => Ok(None),
            Operator::Task(_) => Ok(None),
            Operator::Partly => Ok(None),
            Operator::Step(literals) => {
                if !literals.hold(before) {
                    return Ok(None);
                }
                let same = before.clone()?;
                Ok(Some(same))
            }
            Operator::Action(action) => {
                if !action.applies(before) {
                    return Ok(None);
                }
                let after = action.after(before)?;
                Ok(Some(after))
            }
            Operator::Never => Ok(None),
        }
    }
}

/// What a node does, before instances are listed.
pub(crate) fn operator_of(
    alloc: Global,
    task: &Task,
    atoms: &mut AtomTable,
    node: &Child,
) -> Result<Operator, AllocError>
    requires { AreAtoms task.now atoms.old }
    ensures later { OnOk result (IsLater atoms.old atoms.new) }
    ensures operator { IfOk result (λ o. (known : List model.Child) (l : Lists)
        → IsOperator task.now atoms.new known l (child_view node.now) o) }
{
    let _initial = task.initial_atoms();
    let _count = atoms.len();
    match node {
        Child::Precondition(literals) => {
            let compiled = CompiledLiterals::of(alloc, atoms, literals.as_slice())?;
            Ok(Operator::Step(compiled))
        }
        Child::Action(goal) => {
            let Some(action) = action_of(alloc, task, goal)? else {
                return Ok(Operator::Never);
            };
            let compiled = CompiledAction::of(alloc, atoms, &action)?;
            Ok(Operator::Action(compiled))
        }
        Child::Task(_) => Ok(Operator::Unlisted),
    }
}
