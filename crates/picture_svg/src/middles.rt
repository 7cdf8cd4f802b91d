//! How far from the top the boxes of lines are.

ghost use Rattle.std.specs.Prelude.{◌≡◌, ℕ, ◌+◌, ◌<◌, get_or, IfOk};
ghost use Rattle.htn_model.specs.PlanFile.{IsIn, IsWithoutRepeats};
ghost use Rattle.plan_text.specs.Forest.{lists_of};
ghost use Rattle.plan_text.specs.Reached as reached;
ghost use Rattle.plan_picture.specs.Firsts.{AreAfter, lines_of};
ghost use Rattle.plan_picture.specs.Seen.{seen_all};
ghost use Rattle.picture_svg.specs.Grid as spec;

use crate::numbers::{number_at, plus, times};
use plan_picture::{Row, children_at};
use std::alloc::{AllocError, Global};

/// How many places a line with these children has for itself.
fn own_places(children: &[usize]) -> usize
    ensures { result ≡ spec.own_places children.now }
{
    if children.is_empty() { 1 } else { 0 }
}

/// How many places rows have.
pub(crate) fn place_count(actions: usize, children: &[Vec<usize>], rows: &[Row]) -> usize
    ensures { result ≡ spec.place_count (reached.children_at actions (lists_of children.now)) (seen_all rows.now) }
{
    let mut count = 0;
    let mut left = rows.len();
    while left > 0 {
        left -= 1;
        count += own_places(children_at(children, actions, rows[left].line));
    }
    count
}

/// The middle of a line with these children, where theirs are found.
pub(crate) fn middle_of(
    middles: &[usize],
    place: usize,
    children: &[usize],
) -> Result<usize, AllocError>
    ensures { IfOk result (λ middle. middle ≡ spec.middle_of (λ line. get_or middles.now line 0) place children.now) }
{
    if children.is_empty() {
        return plus(31, times(38, place)?);
    }
    let first = number_at(middles, children[0]);
    let last = number_at(middles, children[children.len() - 1]);
    Ok(plus(first, last)? / 2)
}

/// The middle of the box of each line, by the line's number, where each line has one row, before those of its children.
pub(crate) fn middles_of(
    alloc: Global,
    actions: usize,
    decompositions: usize,
    children: &[Vec<usize>],
    rows: &[Row],
) -> Result<Vec<usize>, AllocError>
    requires after { AreAfter (reached.children_at actions (lists_of children.now)) (lines_of (seen_all rows.now)) }
    requires within { (line : ℕ) → IsIn line (lines_of (seen_all rows.now)) → line < actions + decompositions }
    requires once { IsWithoutRepeats (lines_of (seen_all rows.now)) }
    ensures { IfOk result (λ middles. spec.AreCentred (reached.children_at actions (lists_of children.now)) (λ line. get_or middles.items line 0) 0 (seen_all rows.now)) }
{
    let mut middles = vec![in alloc; 0; actions.saturating_add(decompositions)]?;
    let mut place = place_count(actions, children, rows);
    let mut left = rows.len();
    while left > 0 {
        left -= 1;
        let line = rows[left].line;
        let below = children_at(children, actions, line);
        place -= own_places(below);
        let middle = middle_of(middles.as_slice(), place, below)?;
        middles[line] = middle;
    }
    Ok(middles)
}
