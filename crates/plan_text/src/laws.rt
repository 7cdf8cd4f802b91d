//! Laws of plan texts.

ghost use Rattle.std.specs.Prelude.{◌≡◌, ◌≤◌, ℕ, List, length};
ghost use Rattle.plan_text.specs.Piece.{max_bytes};
ghost use Rattle.htn_model.specs.PlanFile.{PlanFile};
ghost use Rattle.plan_text.specs.PlanFile.{IsPlanFile};
ghost use Rattle.plan_text.specs.FileText.{FileText};
ghost use Rattle.plan_text.specs.Written.{written};

/// A text holds one file at most.
pub fn one_file()
    ensures { (text : List ℕ) (file other : PlanFile) → FileText file text → FileText other text → other ≡ file }
{}

/// The text of a file reads back as that file, where it is not too long.
pub fn reads_back()
    ensures { (file : PlanFile) → IsPlanFile file → length (written file) ≤ max_bytes → FileText file (written file) }
{}
