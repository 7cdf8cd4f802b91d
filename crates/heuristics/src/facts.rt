//! The facts of relaxed reachability: which atoms may become true, and which may become false.
ghost use Rattle.std.specs.Prelude.{◌≡◌, ◌||◌};
ghost use Rattle.std.specs.List.{list_all};
ghost use Rattle.htn_model.specs.State.{contains};
ghost use Rattle.htn_task.specs.Literals.{literal_of, literals_of};
ghost use Rattle.heuristics.specs.Facts.{are_possible, has_effects, is_possible, is_within, may_fail};
ghost use Rattle.heuristics.specs.ReachTables.{facts_of, is_fluent};

use htn_task::{Action, Atom, Literal, State};

/// The fluent atoms that may become true, and those that are true in each reachable state.
pub(crate) struct FactSets {
    /// Whether each predicate is fluent. A static atom counts as one that may hold: a static precondition that is false
    /// makes the instance of its step dead, or its action barred, without these sets.
    pub(crate) fluents: Vec<bool>,
    pub(crate) possible: State,
    pub(crate) lasting: State,
}

impl Drop for FactSets {
    fn drop(self) {
        let FactSets {
            fluents: _,
            possible: _,
            lasting: _,
        } = self;
    }
}

/// Whether all of the atoms are true in a state.
fn has_all(state: &State, atoms: &[Atom]) -> bool
    ensures { result ≡ list_all (contains state.now) atoms.now }
{
    for atom in atoms {
        if !state.contains(atom) {
            return false;
        }
    }
    true
}

impl FactSets {
    fn is_fluent(&self, predicate: u16) -> bool
        ensures { result ≡ is_fluent self.now predicate }
    {
        self.fluents
            .get(predicate as usize)
            .copied()
            .unwrap_or(false)
    }

    /// Whether an atom may become true.
    fn may_hold(&self, atom: &Atom) -> bool
        ensures { result ≡ (facts_of self.now).may_hold atom.now }
    {
        !self.is_fluent(atom.predicate()) || self.possible.contains(atom)
    }

    /// Whether all of the atoms may become true, each on its own.
    fn may_all_hold(&self, atoms: &[Atom]) -> bool
        ensures { result ≡ list_all (facts_of self.now).may_hold atoms.now }
    {
        for atom in atoms {
            if !self.may_hold(atom) {
                return false;
            }
        }
        true
    }

    /// Whether a literal may become true.
    fn is_possible(&self, literal: &Literal) -> bool
        ensures { result ≡ is_possible (facts_of self.now) (literal_of literal.now) }
    {
        match literal {
            Literal::Positive(atom) => self.may_hold(atom),
            Literal::Negative(atom) => !self.lasting.contains(atom),
            Literal::Same(x, y) => x == y,
            Literal::Different(x, y) => x != y,
        }
    }

    /// Whether all of the literals may become true, each on its own.
    pub(crate) fn are_possible(&self, literals: &[Literal]) -> bool
        ensures { result ≡ are_possible (facts_of self.now) (literals_of literals.now) }
    {
        for literal in literals {
            if !self.is_possible(literal) {
                return false;
            }
        }
        true
    }

    /// Whether the facts allow a state: each of its atoms may be true, and it has all that never become false.
    pub(crate) fn is_within(&self, state: &State) -> bool
        ensures { result ≡ is_within (facts_of self.now) state.now }
    {
        self.may_all_hold(state.atoms()) && has_all(state, self.lasting.atoms())
    }

    /// Whether the facts allow an action to delete the atoms: each may become false, or the action adds it again.
    fn may_delete_all(&self, action: &Action, atoms: &[Atom]) -> bool
        ensures { result
            ≡ list_all (λ x. may_fail (facts_of self.now) x || contains action.now.adds x) atoms.now }
    {
        for atom in atoms {
            if self.lasting.contains(atom) && !action.adds.contains(atom) {
                return false;
            }
        }
        true
    }

    /// Whether the facts allow all effects of an action.
    pub(crate) fn has_effects(&self, action: &Action) -> bool
        ensures { result ≡ has_effects (facts_of self.now) action.now }
    {
        self.may_all_hold(action.adds.atoms())
            && self.may_delete_all(action, action.deletes.atoms())
    }
}
