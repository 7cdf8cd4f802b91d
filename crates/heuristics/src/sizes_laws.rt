//! What a measure is good for.
ghost use Rattle.htn_model.specs.Problem.{IsGrounded, Problem};
ghost use Rattle.heuristics.specs.Measure.{MeasuresAreBounds, StatesLast};

/// The sums of a lower measure, capped anywhere, are lower bounds on the numbers that a word must still have.
pub fn measures_are_bounds()
    ensures { MeasuresAreBounds }
{}

/// In each state that is reached the static atoms are the initial ones.
pub fn states_last()
    ensures { (problem : Problem) → IsGrounded problem → StatesLast problem }
{}
