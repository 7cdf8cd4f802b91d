//! States as sets of fluent atoms by number, a bit for each, and states by number.
//!
//! An [`AtomTable`] knows which predicates some effect names: their atoms are fluent and get numbers as they are met,
//! all others are static and are in no state. A [`BitState`] is the set of the numbers of the fluent atoms that are
//! true. Literals and actions are compiled to numbers once: their static atoms and equalities are decided then, and the
//! compiled forms stay right as the table grows. A [`StateTable`] gives equal sets one number.
#![tactic(auto)]

mod atom_table;
mod bit_state;
mod bits;
mod compiled;
mod initial;
mod laws;
mod literal;
mod numbering;

pub use atom_table::AtomTable;
pub use bit_state::BitState;
pub use compiled::{CompiledAction, CompiledLiterals};
pub use initial::initial_state;
pub use laws::numbers_stand_for_states;
pub use literal::CompiledLiteral;
pub use numbering::StateTable;
