//! The lines of a plan's text on which the lines of its file stand.
ghost use Rattle.std.specs.Prelude.{◌≡◌, ◌++◌, List, ℕ, IfOk, OnOk, map};
ghost use Rattle.htn_model.specs.PlanFile.{PlanFile};
ghost use Rattle.plan_text.specs.FileText.{FileText};
ghost use Rattle.diagnostics.specs.Places.{position};
ghost use Rattle.htn_review.specs.Trees.{AreLinesIn};

use diagnostics::Lines;
use plan_text::line_places;
use std::alloc::{AllocError, Global};

// Adds the lines on which places stand.
fn push_lines(text: &Lines<'_>, places: &[usize], lines: &mut Vec<usize>) -> Result<(), AllocError>
    ensures { OnOk result (lines.new.items ≡ lines.old.items ++ map (λ place. (position text.now place).line) places.now) }
{
    let end = text.text().len();
    for place in places {
        lines.push(text.position((*place).min(end)).line)?;
    }
    Ok(())
}

/// The lines of a text, from 1 on, on which the lines of the file stand that it holds: those of its actions, and then
/// those of its decompositions.
pub(crate) fn lines_in(alloc: Global, text: &[u8]) -> Result<Vec<usize>, AllocError>
    requires { (file : PlanFile) × FileText file text.now }
    ensures { IfOk result (λ lines. (file : PlanFile) → FileText file text.now → AreLinesIn text.now file lines.items) }
{
    let Some(places) = line_places(alloc, text)? else {
        unreachable!();
    };
    let table = Lines::new(alloc, text)?;
    let mut lines = Vec::new(alloc);
    push_lines(&table, &places.actions, &mut lines)?;
    push_lines(&table, &places.decompositions, &mut lines)?;
    Ok(lines)
}
