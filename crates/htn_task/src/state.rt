//! States as sets of ground atoms.
ghost use Rattle.std.specs.Prelude.{◌≡◌, ◌↔◌, IfOk, IsTrue};
ghost use Rattle.std.specs.List.Sorted.{IsStrictlySortedBy};
ghost use Rattle.htn_model.specs.State.{set_of, contains, atoms_of};
ghost use Rattle.htn_model.specs.Atom.{atom_cmp};
ghost use Rattle.htn_model.specs.Literal.{after, holds, literal_holds};
ghost use Rattle.htn_task.specs.Literals.{literal_of, literals_of};

use crate::action::Action;
use crate::atom::Atom;
use crate::literal::Literal;
use crate::merge::merge_effects;
use std::alloc::{AllocError, Global};
use std::hash::{Hash, Hasher};
use std::marker::Model;

/// A set of ground atoms. An atom that is not in it is false.
#[derive(Drop)]
pub struct State {
    /// Strictly ascending.
    atoms: Vec<Atom>,
}

impl Model for State {
    ghost use Rattle.htn_model.specs.State as model;
    ghost use Rattle.htn_model.specs.Atom.{atom_cmp};
    ghost use Rattle.std.specs.List.Sorted.{IsStrictlySortedBy};

    ghost Value = { model.State };

    ghost coded = { model.state_code };

    ghost view = { λ s. model.set_of s.atoms.items };

    ghost invariant = { λ s. IsStrictlySortedBy atom_cmp s.atoms.items };
}

impl State {
    /// The set of these atoms.
    pub fn of(alloc: Global, atoms: &[Atom]) -> Result<Self, AllocError>
        ensures { IfOk result (λ s. s ≡ set_of atoms.now) }
    {
        let mut atoms = Vec::from_clones(alloc, atoms)?;
        atoms.sort_unstable();
        atoms.dedup();
        Ok(State { atoms })
    }

    /// The atoms that are true, ascending.
    pub fn atoms(&self) -> &[Atom]
        ensures value { result.now ≡ atoms_of self.now }
        ensures ascending { IsStrictlySortedBy atom_cmp result.now }
    {
        &self.atoms
    }

    /// Whether an atom is true.
    pub fn contains(&self, atom: &Atom) -> bool
        ensures { result ≡ contains self.now atom.now }
    {
        self.atoms.binary_search(atom).is_ok()
    }

    /// Whether a literal holds.
    pub fn literal_holds(&self, literal: &Literal) -> bool
        ensures { result ≡ literal_holds self.now (literal_of literal.now) }
    {
        match literal {
            Literal::Positive(atom) => self.contains(atom),
            Literal::Negative(atom) => !self.contains(atom),
            Literal::Same(x, y) => x == y,
            Literal::Different(x, y) => x != y,
        }
    }

    /// Whether all literals hold. It takes no memory.
    pub fn holds(&self, literals: &[Literal]) -> bool
        ensures { result ≡ holds self.now (literals_of literals.now) }
    {
        for literal in literals {
            if !self.literal_holds(literal) {
                return false;
            }
        }
        true
    }

    /// The state after an action.
    pub fn after(&self, action: &Action) -> Result<Self, AllocError>
        ensures { IfOk result (λ s. s ≡ after self.now action.now) }
    {
        let alloc = *self.atoms.allocator();
        let atoms = merge_effects(alloc, self.atoms(), &action.deletes, action.adds.atoms())?;
        Ok(State { atoms })
    }
}

impl Clone for State {
    ghost is_clone = { λ a b. b ≡ a };

    ghost is_infallible = { λ a. ⊥ };

    fn clone(&self) -> Result<Self, AllocError> {
        Ok(State {
            atoms: Vec::from_clones(*self.atoms.allocator(), &self.atoms)?,
        })
    }
}

impl PartialEq for State {
    ghost use Rattle.htn_model.specs.State.{state_eq};
    ghost use Rattle.htn_model.specs.AtomOrder.{state_eq-partial};

    ghost eq = { state_eq };

    ghost laws = { state_eq-partial };

    fn eq(&self, other: &State) -> bool
        ensures value { result ≡ state_eq self.now other.now }
        ensures same { IsTrue result ↔ (self.now ≡ other.now) }
    {
        self.atoms == other.atoms
    }
}

impl Eq for State {
    ghost use Rattle.htn_model.specs.AtomOrder.{state_eq-laws};

    ghost laws = { state_eq-laws };
}

impl Hash for State {
    ghost use Rattle.htn_model.specs.State.{state_hash};
    ghost use Rattle.htn_task.specs.Laws.{state_hash-Alike};

    ghost hash_input = { state_hash };

    ghost respects_eq = { state_hash-Alike.fed };

    fn hash<H: Hasher>(&self, state: &mut H) {
        self.atoms.hash(state);
    }
}
