//! The initial state as a set of numbers.
ghost use Rattle.std.specs.Prelude.{◌≡◌, ◌&&◌, not, filter, IfOk, OnOk};
ghost use Rattle.htn_model.specs.Atom.{Atom as ModelAtom};
ghost use Rattle.htn_model.specs.State.{contains};
ghost use Rattle.state_table.specs.Compiled.{AreNumbers};
ghost use Rattle.state_table.specs.Table.{IsTable, IsLater, IsSetOf, is_fluent, state_of};

use crate::atom_table::AtomTable;
use crate::bit_state::BitState;
use htn_task::{Atom, State};
use std::alloc::{AllocError, Global};

/// The numbers of the fluent ones among some atoms, each of which gets one if it has none.
fn fluent_numbers(
    alloc: Global,
    table: &mut AtomTable,
    atoms: &[Atom],
) -> Result<Vec<u32>, AllocError>
    ensures later { OnOk result (IsLater table.old table.new) }
    ensures numbers { IfOk result (λ numbers.
        AreNumbers table.new numbers.items (filter (is_fluent table.old) atoms.now)) }
{
    let _count = table.len();
    let mut numbers = Vec::new(alloc);
    for atom in atoms {
        if !table.is_fluent(atom) {
            continue;
        }
        numbers.push(table.number(atom)?)?;
    }
    Ok(numbers)
}

/// The set that stands for the initial state, by a table of its static atoms, in which its fluent ones get numbers.
pub fn initial_state(
    alloc: Global,
    table: &mut AtomTable,
    initial: &State,
) -> Result<BitState, AllocError>
    requires { (a : ModelAtom)
        → contains table.old.statics a ≡ (contains initial.now a && not (is_fluent table.old a)) }
    ensures later { OnOk result (IsLater table.old table.new) }
    ensures state { IfOk result (λ s. state_of table.new s ≡ initial.now) }
    ensures within { IfOk result (IsSetOf table.new) }
{
    let _count = table.len();
    let numbers = fluent_numbers(alloc, table, initial.atoms())?;
    let state = BitState::new(alloc).changed(&[], &numbers)?;
    Ok(state)
}
