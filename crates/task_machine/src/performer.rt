//! Steps and actions compiled to the numbers of their atoms.
ghost use Rattle.std.specs.Prelude.{◌≡◌, ◌<◌, ℕ, All, IfOk, IsSome, OnOk, Some, length};
ghost use Rattle.htn_ground.specs.Views.{child_view};
ghost use Rattle.network_table.specs.Networks.{children, expansion_at, IsWhole, Knows};
ghost use Rattle.network_table.specs.declared.expansion.Expansion.{Expansion as Remembered};
ghost use Rattle.state_table.specs.Table.{IsLater};
ghost use Rattle.task_machine.specs.Tables.{AreAtoms, ArePerformers, HasPerformers, IsKnownExpansion, IsPerformer, slot};

use crate::slots::{is_taken, put};
use htn_ground::{Child, action_of};
use htn_task::Task;
use network_table::{Expansion, NetworkTable, Removal};
use state_table::{AtomTable, CompiledAction, CompiledLiterals};
use std::alloc::{AllocError, Global};

/// A node as it is carried out: its precondition and its effects.
#[derive(Drop)]
pub enum Performer {
    /// A precondition step: its literals have to hold, and it changes nothing.
    Step(CompiledLiterals),
    Action(CompiledAction),
    /// A compound task, or an action at arguments of which it has no instance.
    Never,
}

/// Compiles a node. Its atoms get numbers if they have none.
fn performer_of(
    alloc: Global,
    task: &Task,
    atoms: &mut AtomTable,
    node: &Child,
) -> Result<Performer, AllocError>
    requires { AreAtoms task.now atoms.old }
    ensures later { OnOk result (IsLater atoms.old atoms.new) }
    ensures performer { IfOk result (IsPerformer task.now atoms.new (child_view node.now)) }
{
    let _initial = task.initial_atoms();
    let _count = atoms.len();
    match node {
        Child::Precondition(literals) => {
            let compiled = CompiledLiterals::of(alloc, atoms, literals.as_slice())?;
            Ok(Performer::Step(compiled))
        }
        Child::Action(goal) => {
            let Some(action) = action_of(alloc, task, goal)? else {
                return Ok(Performer::Never);
            };
            let compiled = CompiledAction::of(alloc, atoms, &action)?;
            Ok(Performer::Action(compiled))
        }
        Child::Task(_) => Ok(Performer::Never),
    }
}

/// Compiles a node, unless it is compiled already.
fn prepare_node(
    alloc: Global,
    task: &Task,
    atoms: &mut AtomTable,
    networks: &NetworkTable,
    performers: &mut Vec<Option<Performer>>,
    node: u32,
) -> Result<(), AllocError>
    requires atoms { AreAtoms task.now atoms.old }
    requires known { node < length (children networks.now) }
    requires performers { ArePerformers task.now atoms.old networks.now performers.old.items }
    ensures later { OnOk result (IsLater atoms.old atoms.new) }
    ensures performers { OnOk result (ArePerformers task.now atoms.new networks.now performers.new.items) }
    ensures kept { OnOk result ((n : ℕ) → IsSome (slot performers.old.items n) → IsSome (slot performers.new.items n)) }
    ensures there { OnOk result (IsSome (slot performers.new.items node)) }
{
    let _count = atoms.len();
    if is_taken(performers, node) {
        return Ok(());
    }
    let performer = performer_of(alloc, task, atoms, networks.child(node))?;
    put(performers, node, performer)?;
    Ok(())
}

/// Compiles the nodes that some removals carry out, but for those that are compiled already.
fn prepare_nodes(
    alloc: Global,
    task: &Task,
    atoms: &mut AtomTable,
    networks: &NetworkTable,
    performers: &mut Vec<Option<Performer>>,
    removals: &[Removal],
) -> Result<(), AllocError>
    requires atoms { AreAtoms task.now atoms.old }
    requires known { All (λ r. r.node < length (children networks.now)) removals.now }
    requires performers { ArePerformers task.now atoms.old networks.now performers.old.items }
    ensures later { OnOk result (IsLater atoms.old atoms.new) }
    ensures performers { OnOk result (ArePerformers task.now atoms.new networks.now performers.new.items) }
    ensures kept { OnOk result ((n : ℕ) → IsSome (slot performers.old.items n) → IsSome (slot performers.new.items n)) }
    ensures there { OnOk result (All (λ r. IsSome (slot performers.new.items r.node)) removals.now) }
{
    let _count = atoms.len();
    for removal in removals {
        prepare_node(alloc, task, atoms, networks, performers, removal.node)?;
    }
    Ok(())
}

/// Compiles the actions and steps that a network may perform next, if its expansion is known and consists of removals.
pub(crate) fn prepare_performers(
    alloc: Global,
    task: &Task,
    atoms: &mut AtomTable,
    networks: &NetworkTable,
    performers: &mut Vec<Option<Performer>>,
    network: u32,
) -> Result<(), AllocError>
    requires atoms { AreAtoms task.now atoms.old }
    requires whole { IsWhole networks.now }
    requires known { Knows networks.now network }
    requires nodes { (e : Remembered) → expansion_at networks.now network ≡ Some e → IsKnownExpansion networks.now e }
    requires performers { ArePerformers task.now atoms.old networks.now performers.old.items }
    ensures later { OnOk result (IsLater atoms.old atoms.new) }
    ensures performers { OnOk result (ArePerformers task.now atoms.new networks.now performers.new.items) }
    ensures kept { OnOk result ((n : ℕ) → IsSome (slot performers.old.items n) → IsSome (slot performers.new.items n)) }
    ensures there { OnOk result ((e : Remembered) → expansion_at networks.now network ≡ Some e → HasPerformers performers.new.items e) }
{
    let _count = atoms.len();
    let Some(Expansion::Performed(removals)) = networks.expansion(network) else {
        return Ok(());
    };
    prepare_nodes(alloc, task, atoms, networks, performers, removals)?;
    Ok(())
}

/// Compiles the actions and steps that the networks of a block may perform next, for each whose expansion is known.
pub(crate) fn prepare_all_performers(
    alloc: Global,
    task: &Task,
    atoms: &mut AtomTable,
    networks: &NetworkTable,
    performers: &mut Vec<Option<Performer>>,
    block: &[u32],
) -> Result<(), AllocError>
    requires atoms { AreAtoms task.now atoms.old }
    requires whole { IsWhole networks.now }
    requires known { All (Knows networks.now) block.now }
    requires nodes { All (λ n. (e : Remembered)
        → expansion_at networks.now n ≡ Some e → IsKnownExpansion networks.now e) block.now }
    requires performers { ArePerformers task.now atoms.old networks.now performers.old.items }
    ensures later { OnOk result (IsLater atoms.old atoms.new) }
    ensures performers { OnOk result (ArePerformers task.now atoms.new networks.now performers.new.items) }
    ensures kept { OnOk result ((n : ℕ) → IsSome (slot performers.old.items n) → IsSome (slot performers.new.items n)) }
    ensures there { OnOk result (All (λ n. (e : Remembered)
        → expansion_at networks.now n ≡ Some e → HasPerformers performers.new.items e) block.now) }
{
    let _count = atoms.len();
    for network in block {
        prepare_performers(alloc, task, atoms, networks, performers, *network)?;
    }
    Ok(())
}
