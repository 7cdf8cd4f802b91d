//! What the numbers of wrong lines say of a plan file.

ghost use Rattle.std.specs.Prelude.{ℕ};
ghost use Rattle.htn_model.specs.PlanFile.{IsForest, IsIn, IsReached, PlanFile, defined_ids};
ghost use Rattle.plan_causes.specs.Structure.{AreNone, AreWrong};
ghost use Rattle.plan_causes.specs.declared.structure.WrongIds.{WrongIds};

/// The lines of a file are a forest exactly where nothing is wrong with their numbers and the root line reaches each of
/// them. So where they are none, a number is found, or there is a line that the root line doesn't reach.
pub fn wrong_ids_are_found()
    ensures forests { (file : PlanFile) (wrong : WrongIds) → AreWrong file wrong → IsForest file → AreNone wrong }
    ensures others { (file : PlanFile) (wrong : WrongIds) → AreWrong file wrong → AreNone wrong
        → ((id : ℕ) → IsIn id (defined_ids file) → IsReached file id) → IsForest file }
{}
