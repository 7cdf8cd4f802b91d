//! Single literals by the numbers of their atoms.
ghost use Rattle.std.specs.Prelude.{◌≡◌, ℕ, List, IfOk, OnOk};
ghost use Rattle.std.specs.Bool.{beq};
ghost use Rattle.htn_model.specs.State.{contains};
ghost use Rattle.htn_task.specs.Literals.{literal_of};
ghost use Rattle.state_table.specs.Bits.{has};
ghost use Rattle.state_table.specs.Compiled.{is_met, IsCompiledLiteral};
ghost use Rattle.state_table.specs.Table.{Table, IsLater, state_of};

use crate::atom_table::AtomTable;
use htn_task::{Atom, Literal};
use std::alloc::AllocError;

/// A literal by the number of its fluent atom. Static atoms and equalities are decided.
#[derive(Clone, Copy, Drop)]
pub enum CompiledLiteral {
    /// Whether it holds, in every state.
    Decided(bool),
    /// An atom that must be true.
    Positive(u32),
    /// An atom that must be false.
    Negative(u32),
}

/// That the fluent atom of a number is true, or is false.
fn fluent_literal(number: u32, is_positive: bool) -> CompiledLiteral
    ensures { (words : List ℕ) → is_met words result ≡ beq is_positive (has words number) }
{
    if is_positive {
        CompiledLiteral::Positive(number)
    } else {
        CompiledLiteral::Negative(number)
    }
}

impl CompiledLiteral {
    /// Compiles the literal of an atom, and numbers it where it is fluent.
    fn of_atom(table: &mut AtomTable, atom: &Atom, is_positive: bool) -> Result<Self, AllocError>
        ensures later { OnOk result (IsLater table.old table.new) }
        ensures compiled { IfOk result (λ c. (later : Table) → IsLater table.new later → (words : List ℕ)
            → is_met words c ≡ beq is_positive (contains (state_of later words) atom.now)) }
    {
        let _count = table.len();
        if !table.is_fluent(atom) {
            return Ok(CompiledLiteral::Decided(table.is_static(atom) == is_positive));
        }
        let number = table.number(atom)?;
        Ok(fluent_literal(number, is_positive))
    }

    /// Compiles a literal, and numbers its atom where it is fluent.
    pub fn of(table: &mut AtomTable, literal: &Literal) -> Result<Self, AllocError>
        ensures later { OnOk result (IsLater table.old table.new) }
        ensures compiled { IfOk result (λ c. IsCompiledLiteral table.new c (literal_of literal.now)) }
    {
        let _count = table.len();
        match literal {
            Literal::Positive(atom) => {
                let compiled = CompiledLiteral::of_atom(table, atom, true)?;
                Ok(compiled)
            }
            Literal::Negative(atom) => {
                let compiled = CompiledLiteral::of_atom(table, atom, false)?;
                Ok(compiled)
            }
            Literal::Same(x, y) => Ok(CompiledLiteral::Decided(x == y)),
            Literal::Different(x, y) => Ok(CompiledLiteral::Decided(x != y)),
        }
    }
}
