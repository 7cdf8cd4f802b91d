//! Literals and actions by the numbers of their atoms.
ghost use Rattle.std.specs.Prelude.{◌≡◌, ◌&&◌, not, ℕ, Bool, List, true, All, IfOk, OnOk};
ghost use Rattle.std.specs.List.{list_all};
ghost use Rattle.htn_model.specs.Literal.{holds, after, Literal as ModelLiteral, Action as ModelAction};
ghost use Rattle.htn_model.specs.Problem.{AreChanged};
ghost use Rattle.htn_task.specs.Literals.{literals_of};
ghost use Rattle.state_table.specs.Bits.{has};
ghost use Rattle.state_table.specs.Table.{Table, IsTable, IsLater, IsSetOf, is_changed, is_fluent, state_of};
ghost use Rattle.state_table.specs.Compiled.{all_hold, AreCompiled, AreNumbers, IsCompiled, is_met};

use crate::atom_table::AtomTable;
use crate::bit_state::BitState;
use crate::literal::CompiledLiteral;
use htn_task::{Action, Atom, Literal};
use std::alloc::{AllocError, Global};

/// A conjunction of literals by the numbers of its fluent atoms. Static atoms and equalities are decided.
pub struct CompiledLiterals {
    /// Some literal can never hold.
    is_never: bool,
    /// The atoms that must be true.
    positives: Vec<u32>,
    /// The atoms that must be false.
    negatives: Vec<u32>,
}

impl Drop for CompiledLiterals {
    fn drop(self) {
        let CompiledLiterals {
            is_never: _,
            positives: _,
            negatives: _,
        } = self;
    }
}

/// The literals that must hold, the numbers of the atoms that become false, and those of the atoms that become true
/// after that.
pub struct CompiledAction {
    precondition: CompiledLiterals,
    deletes: Vec<u32>,
    adds: Vec<u32>,
}

impl Drop for CompiledAction {
    fn drop(self) {
        let CompiledAction {
            precondition: _,
            deletes: _,
            adds: _,
        } = self;
    }
}

/// Sorts numbers, and drops repeats.
fn keep_once(numbers: &mut Vec<u32>)
    ensures { (test : ℕ → Bool) → list_all test numbers.new.items ≡ list_all test numbers.old.items }
{
    numbers.sort_unstable();
    numbers.dedup();
}

impl CompiledLiterals {
    /// No literals, which always hold.
    pub fn none(alloc: Global) -> Self
        ensures { (words : List ℕ) → all_hold words result ≡ true }
    {
        CompiledLiterals {
            is_never: false,
            positives: Vec::new(alloc),
            negatives: Vec::new(alloc),
        }
    }

    /// Adds a literal of a static atom or an equality, which holds in every state or in none.
    fn decide(&mut self, holds: bool)
        ensures { (words : List ℕ) → all_hold words self.new ≡ (all_hold words self.old && holds) }
    {
        if !holds {
            self.is_never = true;
        }
    }

    /// Adds that the fluent atom of a number is true.
    fn add_positive(&mut self, number: u32) -> Result<(), AllocError>
        ensures { OnOk result ((words : List ℕ)
            → all_hold words self.new ≡ (all_hold words self.old && has words number)) }
    {
        self.positives.push(number)?;
        Ok(())
    }

    /// Adds that the fluent atom of a number is false.
    fn add_negative(&mut self, number: u32) -> Result<(), AllocError>
        ensures { OnOk result ((words : List ℕ)
            → all_hold words self.new ≡ (all_hold words self.old && not (has words number))) }
    {
        self.negatives.push(number)?;
        Ok(())
    }

    /// Adds a literal.
    pub fn push(&mut self, literal: CompiledLiteral) -> Result<(), AllocError>
        ensures { OnOk result ((words : List ℕ)
            → all_hold words self.new ≡ (all_hold words self.old && is_met words literal)) }
    {
        match literal {
            CompiledLiteral::Decided(holds) => self.decide(holds),
            CompiledLiteral::Positive(number) => self.add_positive(number)?,
            CompiledLiteral::Negative(number) => self.add_negative(number)?,
        }
        Ok(())
    }

    /// Drops the repeats, and sorts the numbers. It takes no memory.
    pub fn drop_repeats(&mut self)
        ensures { (words : List ℕ) → all_hold words self.new ≡ all_hold words self.old }
    {
        keep_once(&mut self.positives);
        keep_once(&mut self.negatives);
    }

    /// Compiles a conjunction, and numbers its fluent atoms.
    pub fn of(
        alloc: Global,
        table: &mut AtomTable,
        literals: &[Literal],
    ) -> Result<Self, AllocError>
        ensures later { OnOk result (IsLater table.old table.new) }
        ensures compiled { IfOk result (λ c. AreCompiled table.new c (literals_of literals.now)) }
    {
        let _count = table.len();
        let mut compiled = CompiledLiterals::none(alloc);
        for literal in literals {
            let one = CompiledLiteral::of(table, literal)?;
            compiled.push(one)?;
        }
        Ok(compiled)
    }

    /// Whether all of them hold, bit by bit.
    fn hold_in(&self, state: &BitState) -> bool
        ensures { result ≡ all_hold state.now self.now }
    {
        !self.is_never && state.has_all(&self.positives) && state.has_none(&self.negatives)
    }

    /// Whether all of them hold. It takes no memory.
    pub fn hold(&self, state: &BitState) -> bool
        ensures { (t : Table) (literals : List ModelLiteral) → IsTable t → AreCompiled t self.now literals
            → result ≡ holds (state_of t state.now) literals }
    {
        self.hold_in(state)
    }
}

/// The numbers of fluent atoms, each of which gets one if it has none.
fn numbers_of(alloc: Global, table: &mut AtomTable, atoms: &[Atom]) -> Result<Vec<u32>, AllocError>
    requires { All (λ a. is_fluent table.old a ≡ true) atoms.now }
    ensures later { OnOk result (IsLater table.old table.new) }
    ensures numbers { IfOk result (λ numbers. AreNumbers table.new numbers.items atoms.now) }
{
    let _count = table.len();
    let mut numbers = Vec::with_capacity(alloc, atoms.len())?;
    for atom in atoms {
        numbers.push(table.number(atom)?)?;
    }
    Ok(numbers)
}

impl CompiledAction {
    /// Compiles an action whose effects are all fluent, and numbers its fluent atoms.
    pub fn of(alloc: Global, table: &mut AtomTable, action: &Action) -> Result<Self, AllocError>
        requires deletes { AreChanged (is_changed table.old.fluents) action.now.deletes }
        requires adds { AreChanged (is_changed table.old.fluents) action.now.adds }
        ensures later { OnOk result (IsLater table.old table.new) }
        ensures compiled { IfOk result (λ c. IsCompiled table.new c action.now) }
    {
        let precondition = CompiledLiterals::of(alloc, table, action.precondition.as_slice())?;
        let deletes = numbers_of(alloc, table, action.deletes.atoms())?;
        let adds = numbers_of(alloc, table, action.adds.atoms())?;
        Ok(CompiledAction {
            precondition,
            deletes,
            adds,
        })
    }

    /// Whether the precondition holds. It takes no memory.
    pub fn applies(&self, state: &BitState) -> bool
        ensures { (t : Table) (action : ModelAction) → IsTable t → IsCompiled t self.now action
            → result ≡ holds (state_of t state.now) action.precondition }
    {
        self.precondition.hold(state)
    }

    /// The state after the effects.
    pub fn after(&self, state: &BitState) -> Result<BitState, AllocError>
        ensures state { IfOk result (λ s. (t : Table) (action : ModelAction) → IsTable t → IsCompiled t self.now action
            → state_of t s ≡ after (state_of t state.now) action) }
        ensures within { IfOk result (λ s. (t : Table) (action : ModelAction) → IsCompiled t self.now action
            → IsSetOf t state.now → IsSetOf t s) }
    {
        let next = state.changed(&self.deletes, &self.adds)?;
        Ok(next)
    }
}
