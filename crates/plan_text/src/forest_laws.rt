//! The plan trees of a forest's lines.

ghost use Rattle.htn_model.specs.PlanFile.{Naming};
ghost use Rattle.plan_text.specs.Plans.{ForestsAreTrees};

/// Where the words of each line of a forest name a task, each line has a plan tree by its number: an
/// action line is itself, any other has the trees of its children below it. The roots' lines show
/// the trees of their numbers.
pub fn forests_are_trees()
    ensures trees { (naming : Naming) → ForestsAreTrees naming }
{}
