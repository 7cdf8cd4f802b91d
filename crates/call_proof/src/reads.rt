//! Whether masks have all that nodes read or write.
ghost use Rattle.std.specs.Prelude.{◌≡◌, ℕ, IfOk, IsTrue, Some, slice_get};
ghost use Rattle.std.specs.List.{list_all};
ghost use Rattle.call_nodes.specs.Nodes.{children};
ghost use Rattle.call_proof.specs.Masks.{frame_of};
ghost use Rattle.call_proof.specs.Parts.{frame_at, masks_of};
ghost use Rattle.call_rules.specs.Local as model;
ghost use Rattle.htn_ground.specs.Views.{child_view};
ghost use Rattle.htn_model.specs.Grounding.{problem_of};
ghost use Rattle.htn_model.specs.Problem.{Child as ModelChild};
ghost use Rattle.htn_task.specs.Literals.{literal_of};

use crate::frames::Frames;
use call_nodes::CallNodes;
use htn_ground::{Child, action_of};
use htn_task::{Action, Atom, Literal, Task};
use state_table::{AtomTable, BitState};
use std::alloc::{AllocError, Global};

/// Whether an atom is in the frame of a mask.
fn is_atom_in(atoms: &AtomTable, mask: &BitState, atom: &Atom) -> bool
    ensures { result ≡ frame_of atoms.now mask.now atom.now }
{
    if !atoms.is_fluent(atom) {
        return true;
    }
    match atoms.number_of(atom) {
        None => false,
        Some(number) => mask.contains(number),
    }
}

/// Whether the atom of a literal is in the frame of a mask.
fn is_literal_in(atoms: &AtomTable, mask: &BitState, literal: &Literal) -> bool
    ensures { result ≡ model.is_literal_in (frame_of atoms.now mask.now) (literal_of literal.now) }
{
    match literal {
        Literal::Positive(atom) => is_atom_in(atoms, mask, atom),
        Literal::Negative(atom) => is_atom_in(atoms, mask, atom),
        Literal::Same(_, _) => true,
        Literal::Different(_, _) => true,
    }
}

/// Whether the atom of each of these literals is in the frame of a mask.
fn are_literals_in(atoms: &AtomTable, mask: &BitState, literals: &[Literal]) -> bool
    ensures { result ≡ list_all (λ l. model.is_literal_in (frame_of atoms.now mask.now) (literal_of l)) literals.now }
{
    for literal in literals {
        if !is_literal_in(atoms, mask, literal) {
            return false;
        }
    }
    true
}

/// Whether each of these atoms is in the frame of a mask.
fn are_atoms_in(atoms: &AtomTable, mask: &BitState, list: &[Atom]) -> bool
    ensures { result ≡ list_all (frame_of atoms.now mask.now) list.now }
{
    for atom in list {
        if !is_atom_in(atoms, mask, atom) {
            return false;
        }
    }
    true
}

/// Whether all that an action reads or writes is in the frame of a mask.
fn is_action_in(atoms: &AtomTable, mask: &BitState, action: &Action) -> bool
    ensures { IsTrue result → model.IsActionIn (frame_of atoms.now mask.now) action.now }
{
    if !are_literals_in(atoms, mask, action.precondition.as_slice()) {
        return false;
    }
    if !are_atoms_in(atoms, mask, action.deletes.atoms()) {
        return false;
    }
    are_atoms_in(atoms, mask, action.adds.atoms())
}

/// Whether all that a node itself reads or writes is in the frame of a mask.
fn is_node_in(
    alloc: Global,
    task: &Task,
    atoms: &AtomTable,
    mask: &BitState,
    node: &Child,
) -> Result<bool, AllocError>
    ensures { IfOk result (λ b. IsTrue b
        → model.IsFrameOf (problem_of task.now) (child_view node.now) (frame_of atoms.now mask.now)) }
{
    match node {
        Child::Task(_) => Ok(true),
        Child::Precondition(literals) => Ok(are_literals_in(atoms, mask, literals.as_slice())),
        Child::Action(goal) => {
            let Some(action) = action_of(alloc, task, goal)? else {
                return Ok(true);
            };
            Ok(is_action_in(atoms, mask, &action))
        }
    }
}

/// Whether each node's mask has all that the node itself reads or writes.
pub(crate) fn are_frames(
    alloc: Global,
    task: &Task,
    nodes: &CallNodes<'_>,
    frames: &Frames,
) -> Result<bool, AllocError>
    ensures { IfOk result (λ b. IsTrue b → (j : ℕ) (x : ModelChild) → slice_get (children nodes.now) j ≡ Some x
        → model.IsFrameOf (problem_of task.now) x (frame_at nodes.now (masks_of frames.now) j)) }
{
    let all = nodes.nodes();
    for k in 0..all.len() {
        let Ok(number) = u32::try_from(k) else {
            return Ok(false);
        };
        let Some(mask) = frames.mask(number) else {
            return Ok(false);
        };
        if !is_node_in(alloc, task, nodes.atoms(), mask, &all[k])? {
            return Ok(false);
        }
    }
    Ok(true)
}
