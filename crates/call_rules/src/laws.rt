//! The rules by which the nodes of a task's totally ordered networks step, each alone, and what tables of calls over
//! these rules say of the listing machine. The definitions stand in `specs/`; each function here is a law about them,
//! with an empty body.

ghost use Rattle.call_rules.specs.Bounds.{BoundsAreBelow, BoundsOfOrdered, ClosedAreChecked, NodesAreSizes, SizesAreBounds, TablesClaim};
ghost use Rattle.call_rules.specs.Listing.{StepsAsProblem, listed_step};
ghost use Rattle.call_rules.specs.Lone.{LoneAreNodes, NodesAreOrdered, RulesAreRanked, lone_rules};
ghost use Rattle.call_rules.specs.Measures.{MeasuresAreSizes};
ghost use Rattle.call_rules.specs.Numbers.{NumbersBound};
ghost use Rattle.call_rules.specs.Tables.{TablesStand};
ghost use Rattle.call_rules.specs.Values.{NumbersAreBelow, ValuesAreBelow};
ghost use Rattle.call_rules.specs.Walks.{OrderedStep, StartsAreRanked, TotalAreOrdered};
ghost use Rattle.htn_calls.specs.Bounds.{CheckedTablesHold};
ghost use Rattle.htn_calls.specs.Calls.{Rules, Table};
ghost use Rattle.htn_calls.specs.Leads.{AreInSeries};
ghost use Rattle.htn_calls.specs.Series.{AreRulesAlone, RulesLift, StepsInFront, opened_series};
ghost use Rattle.htn_model.specs.Problem.{Child};
ghost use Rattle.htn_model.specs.State.{State};
ghost use Rattle.htn_model.specs.Task.{Task};
ghost use Rattle.std.specs.Prelude.{Bool, List, ℕ};

/// The listing machine steps as the machine of the problem of what it lists. So a step looks only at what is in front,
/// blocks in series end one after the other, and checked tables keep their claims.
pub fn listing_steps()
    ensures steps { (t : Task) → StepsAsProblem t }
    ensures in_front { (t : Task) → StepsInFront (listed_step t) }
    ensures in_series { (t : Task) → AreInSeries (listed_step t) opened_series }
    ensures lifted { (t : Task) → RulesLift (listed_step t) }
    ensures tables { (t : Task) → CheckedTablesHold (listed_step t) }
{}

/// The rules of lone nodes are, by rank, what the steps of the listing machine lead to.
pub fn lone_rules_hold()
    ensures lone { (t : Task) → LoneAreNodes t }
    ensures alone { (t : Task) → AreRulesAlone (listed_step t) (lone_rules t) }
    ensures ranked { (t : Task) → RulesAreRanked t }
    ensures ordered { NodesAreOrdered }
{}

/// The listing machine starts with the distinct initial networks, and where a totally ordered network is open, a step
/// is one of its first node.
pub fn walks_are_ordered()
    ensures total { TotalAreOrdered }
    ensures starts { (t : Task) → StartsAreRanked t }
    ensures steps { (t : Task) → OrderedStep t }
{}

/// The claims of a table whose calls are checked over these rules hold, and no word that finishes is shorter than the
/// bound by it. Sizes of nodes that a step lowers by one at most are base bounds, as is 1 for each node.
pub fn tables_bound()
    ensures nodes { (t : Task) → NodesAreSizes t }
    ensures sizes { (t : Task) → SizesAreBounds t }
    ensures closed { (t : Task) → ClosedAreChecked t }
    ensures claims { (t : Task) → TablesClaim t }
    ensures below { (t : Task) → BoundsAreBelow t }
    ensures ordered { (t : Task) → BoundsOfOrdered t }
{}

/// A table by numbers is one of what they stand for. Values by numbers that follow from each call and from the
/// values of what is behind it are no more than the estimate of what the numbers stand for.
pub fn values_bound()
    ensures tables { TablesStand }
    ensures values { ValuesAreBelow }
    ensures numbers { NumbersAreBelow }
{}

/// In states that have the initial truth of all that no effect names, a step lowers the sizes of a lower measure by one
/// at most; and it leads from such states to such states.
pub fn measures_bound()
    ensures { (t : Task) → MeasuresAreSizes t }
{}

/// A table and values that are checked by the numbers of states and nodes have an admissible bound, which is no less
/// than the values.
pub fn numbers_bound()
    ensures { (t : Task) (passes : State → Bool) (size : Child → ℕ) (state : ℕ → State) (node : ℕ → Child)
        (numbers : Rules ℕ ℕ) (listing : Table ℕ ℕ) (sites : List (ℕ × ℕ)) (total : List ℕ → ℕ) (cap : ℕ)
        (value : List ℕ → ℕ → ℕ) → NumbersBound t passes size state node numbers listing sites total cap value }
{}
