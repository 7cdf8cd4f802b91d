//! Which atoms may be true, and which are always true.
ghost use Rattle.std.specs.Prelude.{◌≡◌, ◌||◌};
ghost use Rattle.std.specs.List.{list_all};
ghost use Rattle.htn_model.specs.State.{contains};
ghost use Rattle.htn_task.specs.Literals.{literal_of, literals_of};
ghost use Rattle.heuristics.specs.Facts.{are_possible, has_effects, is_possible, is_within, may_fail};
ghost use Rattle.never_applied.specs.Fine.{facts_of};

use htn_task::{Action, Atom, Literal, State};

/// The atoms that may be true, and those that are true in each state.
pub(crate) struct Facts {
    pub(crate) possible: State,
    pub(crate) lasting: State,
}

impl Drop for Facts {
    fn drop(self) {
        let Facts {
            possible: _,
            lasting: _,
        } = self;
    }
}

/// Whether all of the atoms are true in a state.
fn has_all(state: &State, atoms: &[Atom]) -> bool
    ensures { result ≡ list_all (contains state.now) atoms.now }
{
    for atom in atoms {
        if !state.contains(atom) {
            return false;
        }
    }
    true
}

impl Facts {
    /// Whether a literal may be true.
    pub(crate) fn is_possible(&self, literal: &Literal) -> bool
        ensures { result ≡ is_possible (facts_of self.now) (literal_of literal.now) }
    {
        match literal {
            Literal::Positive(atom) => self.possible.contains(atom),
            Literal::Negative(atom) => !self.lasting.contains(atom),
            Literal::Same(x, y) => x == y,
            Literal::Different(x, y) => x != y,
        }
    }

    /// Whether all of the literals may be true, each on its own.
    pub(crate) fn are_possible(&self, literals: &[Literal]) -> bool
        ensures { result ≡ are_possible (facts_of self.now) (literals_of literals.now) }
    {
        for literal in literals {
            if !self.is_possible(literal) {
                return false;
            }
        }
        true
    }

    /// Whether the facts allow a state: each of its atoms may be true, and it has all that are always true.
    pub(crate) fn is_within(&self, state: &State) -> bool
        ensures { result ≡ is_within (facts_of self.now) state.now }
    {
        has_all(&self.possible, state.atoms()) && has_all(state, self.lasting.atoms())
    }

    /// Whether the facts allow an action to delete the atoms: none is always true, unless the action adds it again.
    fn may_delete_all(&self, action: &Action, atoms: &[Atom]) -> bool
        ensures { result
            ≡ list_all (λ x. may_fail (facts_of self.now) x || contains action.now.adds x) atoms.now }
    {
        for atom in atoms {
            if self.lasting.contains(atom) && !action.adds.contains(atom) {
                return false;
            }
        }
        true
    }

    /// Whether the facts allow all effects of an action.
    pub(crate) fn has_effects(&self, action: &Action) -> bool
        ensures { result ≡ has_effects (facts_of self.now) action.now }
    {
        has_all(&self.possible, action.adds.atoms())
            && self.may_delete_all(action, action.deletes.atoms())
    }
}
