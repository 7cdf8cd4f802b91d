//! Dead literals: those that are false in the initial state and that no action can make true.
ghost use Rattle.std.specs.Prelude.{◌≡◌};
ghost use Rattle.std.specs.List.{list_any};
ghost use Rattle.htn_model.specs.Exhaustion.{is_dead_literal};
ghost use Rattle.htn_model.specs.Grounding.{problem_of};
ghost use Rattle.htn_task.specs.Literals.{literal_of, literals_of};

use crate::literal::Literal;
use crate::task::Task;

impl Task {
    /// Whether a literal is dead. An equality is so where it is false.
    fn is_dead_literal(&self, literal: &Literal) -> bool
        ensures { result ≡ is_dead_literal (problem_of self.now) (literal_of literal.now) }
    {
        let initial = self.initial_atoms();
        match literal {
            Literal::Positive(atom) | Literal::Negative(atom) => {
                !self.is_fluent(atom.predicate()) && !initial.literal_holds(literal)
            }
            Literal::Same(_, _) | Literal::Different(_, _) => !initial.literal_holds(literal),
        }
    }

    /// Whether one of the literals of a conjunction is dead, so that the conjunction never holds.
    pub fn has_dead_literal(&self, literals: &[Literal]) -> bool
        ensures { result ≡ list_any (is_dead_literal (problem_of self.now)) (literals_of literals.now) }
    {
        for literal in literals {
            if self.is_dead_literal(literal) {
                return true;
            }
        }
        false
    }
}
