//! The mathematics of call tables: lower bounds on the numbers that a word must still have, found block by block where
//! a task network is a series composition, and checked by local conditions. The definitions are in `specs/`; each
//! function here is a law about them, with an empty body.

ghost use Rattle.htn_calls.specs.Bounds.{CheckedTablesHold, EstimatesHold, LiveEstimatesHold, MeasuresAreBounds};
ghost use Rattle.htn_calls.specs.Cuts.{split};
ghost use Rattle.htn_calls.specs.Leads.{AreInSeries};
ghost use Rattle.htn_calls.specs.Numbered.{NumbersClose};
ghost use Rattle.htn_calls.specs.Series.{FinishesClosed, NothingInFront, RulesLift, SeriesJoin, StepsInFront, WordsSplit, opened_series};
ghost use Rattle.htn_calls.specs.Split.{ClosedTablesBound, EstimatesAreStepBounds, IsSplit, RulesFound};
ghost use Rattle.htn_calls.specs.Worked.{EndlessCalls};
ghost use Rattle.htn_model.specs.Exhaustion.{live_step};
ghost use Rattle.htn_model.specs.Machine.{step_by};
ghost use Rattle.htn_model.specs.Problem.{Problem};

/// The steps of a configuration do not depend on a network that is behind all its open nodes, and that network stays
/// behind them; where nothing is open, the configuration is that network. Series composition is associative, with no
/// nodes as its unit.
pub fn series_steps()
    ensures all_numbers { (problem : Problem) → StepsInFront (step_by problem) }
    ensures live_numbers { (problem : Problem) → StepsInFront (live_step problem) }
    ensures nothing { NothingInFront }
    ensures joined { SeriesJoin }
{}

/// The words that finish with a network behind are those that close what is open and then finish from that network.
/// So blocks in series end one after the other.
pub fn series_words()
    ensures finishing { (problem : Problem) → WordsSplit problem }
    ensures closed { (problem : Problem) → FinishesClosed problem }
    ensures all_numbers { (problem : Problem) → AreInSeries (step_by problem) opened_series }
    ensures live_numbers { (problem : Problem) → AreInSeries (live_step problem) opened_series }
{}

/// The rules of a network alone are its rules in front of any others, and are found by its numbers.
pub fn rules_lift()
    ensures all_numbers { (problem : Problem) → RulesLift (step_by problem) }
    ensures live_numbers { (problem : Problem) → RulesLift (live_step problem) }
    ensures all_found { (problem : Problem) → RulesFound problem (step_by problem) split }
    ensures live_found { (problem : Problem) → RulesFound problem (live_step problem) split }
{}

/// If all calls of a table pass the check, all its claims hold.
pub fn checked_tables_hold()
    ensures all_numbers { (problem : Problem) → CheckedTablesHold (step_by problem) }
    ensures live_numbers { (problem : Problem) → CheckedTablesHold (live_step problem) }
{}

/// If the claims of a table hold, no word that finishes has fewer numbers than the estimate.
pub fn estimates_hold()
    ensures all_numbers { (problem : Problem) → EstimatesHold problem }
    ensures live_numbers { (problem : Problem) → LiveEstimatesHold problem }
{}

/// What bounds words from below step by step is a base bound for tables.
pub fn measures_are_bounds()
    ensures all_numbers { (problem : Problem) → MeasuresAreBounds (step_by problem) }
    ensures live_numbers { (problem : Problem) → MeasuresAreBounds (live_step problem) }
{}

/// The series decomposition splits each network into blocks. Over its rules a closed table keeps its claims, and a step
/// lowers the estimate by it by one at most. It may be checked by the numbers of states and blocks.
pub fn closed_tables_bound()
    ensures splits { IsSplit split }
    ensures numbers { NumbersClose }
    ensures all_estimates { (problem : Problem) → EstimatesAreStepBounds problem (step_by problem) }
    ensures live_estimates { (problem : Problem) → EstimatesAreStepBounds problem (live_step problem) }
    ensures all_numbers { (problem : Problem) → ClosedTablesBound problem (step_by problem) split }
    ensures live_numbers { (problem : Problem) → ClosedTablesBound problem (live_step problem) split }
{}

/// A task that only leads to itself has a closed table without exits and with any floor, so it never ends.
pub fn worked_table_holds()
    ensures endless { EndlessCalls }
{}
