//! What nodes themselves read or write, as masks.

use htn_ground::{Child, action_of};
use htn_task::{Atom, Literal, Task};
use state_table::{AtomTable, BitState};
use std::alloc::{AllocError, Global};

/// Adds the number of an atom, if it has one.
fn add_atom(atoms: &AtomTable, numbers: &mut Vec<u32>, atom: &Atom) -> Result<(), AllocError> {
    if let Some(number) = atoms.number_of(atom) {
        numbers.push(number)?;
    }
    Ok(())
}

/// Adds the numbers of the atoms of literals.
fn add_literals(
    atoms: &AtomTable,
    numbers: &mut Vec<u32>,
    literals: &[Literal],
) -> Result<(), AllocError> {
    for literal in literals {
        match literal {
            Literal::Positive(atom) => add_atom(atoms, numbers, atom)?,
            Literal::Negative(atom) => add_atom(atoms, numbers, atom)?,
            Literal::Same(_, _) => (),
            Literal::Different(_, _) => (),
        }
    }
    Ok(())
}

/// Adds the numbers of atoms.
fn add_atoms(atoms: &AtomTable, numbers: &mut Vec<u32>, added: &[Atom]) -> Result<(), AllocError> {
    for atom in added {
        add_atom(atoms, numbers, atom)?;
    }
    Ok(())
}

/// The mask of what a node itself reads or writes.
pub(crate) fn own_mask(
    alloc: Global,
    task: &Task,
    atoms: &AtomTable,
    node: &Child,
) -> Result<BitState, AllocError> {
    let mut numbers = Vec::new(alloc);
    match node {
        Child::Task(_) => (),
        Child::Precondition(literals) => add_literals(atoms, &mut numbers, literals.as_slice())?,
        Child::Action(goal) => {
            if let Some(action) = action_of(alloc, task, goal)? {
                add_literals(atoms, &mut numbers, action.precondition.as_slice())?;
                add_atoms(atoms, &mut numbers, action.deletes.atoms())?;
                add_atoms(atoms, &mut numbers, action.adds.atoms())?;
            }
        }
    }
    BitState::new(alloc).changed(&[], &numbers)
}
