//! Laws of plan files: when one is the shadow of a solution, and its verdict.

ghost use Rattle.htn_model.specs.Decoupling.{EarliestShowsAll, NetworksDecouple};
ghost use Rattle.htn_model.specs.Greedy.{GreedySpansDecide, LinesDecide};
ghost use Rattle.htn_model.specs.Numbered.{NumberedIsShadow};
ghost use Rattle.htn_model.specs.PlanFile.{Naming};
ghost use Rattle.htn_model.specs.Problem.{IsGrounded, Problem};
ghost use Rattle.htn_model.specs.Shades.{PlacedForestsFit};
ghost use Rattle.htn_model.specs.Shown.{FilesArePlans, FitIsAcceptance, RoomIsVerdict, ValidIsAcceptance};
ghost use Rattle.htn_model.specs.Verdict.{VerdictsAreUnique};
ghost use Rattle.htn_model.specs.WorkedFiles.{FilesHaveVerdicts};

/// The leaves and steps of a forest are placed in its inherited order exactly where each network's
/// children keep to spans of their own, in that network's order.
pub fn networks_decouple()
    ensures decouple { (problem : Problem) → IsGrounded problem → NetworksDecouple problem }
{}

/// Of all that stands below a line only its earliest finish shows, for each gap from which it may
/// start, and that finish never falls where the start moves on.
pub fn earliest_shows_all()
    ensures shows { (naming : Naming) (problem : Problem) → EarliestShowsAll naming problem }
{}

/// Where a forest of an initial network is placed among the action lines, the lines that it shades
/// have room by spans.
pub fn placed_forests_fit()
    ensures fit { (naming : Naming) (problem : Problem) → IsGrounded problem → PlacedForestsFit naming problem }
{}

/// The plan file of a solution, with actions numbered in order of execution and then compound nodes,
/// is a shadow of it, where its words name its actions and tasks.
pub fn numbered_is_shadow()
    ensures shadow { (naming : Naming) (problem : Problem) → NumberedIsShadow naming problem }
{}

/// A plan file has one verdict at most: each denies those that come before it.
pub fn verdicts_are_unique()
    ensures unique { (naming : Naming) (problem : Problem) → VerdictsAreUnique naming problem }
{}

/// The lines of a file that is a forest, each with an instance, are plan trees; and where they run to
/// the goal there are states between them.
pub fn files_are_plans()
    ensures plans { (naming : Naming) (problem : Problem) → FilesArePlans naming problem }
{}

/// A file whose lines are a forest and run to the goal is the shadow of a solution exactly where its
/// lines have room by spans.
pub fn fit_is_acceptance()
    ensures same { (naming : Naming) (problem : Problem) → IsGrounded problem → FitIsAcceptance naming problem }
    ensures verdict { (naming : Naming) (problem : Problem) → IsGrounded problem → RoomIsVerdict naming problem }
{}

/// A plan file is valid exactly where it is the shadow of a solution: then its lines are a forest,
/// have instances and run to the goal.
pub fn valid_is_acceptance()
    ensures same { (naming : Naming) (problem : Problem) → ValidIsAcceptance naming problem }
{}

/// Of the plans at given positions of a network no spans finish earlier than the greedy ones, which
/// exist where any do.
pub fn greedy_spans_decide()
    ensures decide { (naming : Naming) (problem : Problem) → GreedySpansDecide naming problem }
    ensures lines { (naming : Naming) (problem : Problem) → IsGrounded problem → LinesDecide naming problem }
{}

/// Small plan files with their verdicts, as the definitions give them. Roots and children may stand in
/// another order than the declared one, a line has an instance where any method's instance of its name
/// has its children's tasks, and lines that no root reaches are no part of a forest.
pub fn worked_files_hold()
    ensures hold { FilesHaveVerdicts }
{}
