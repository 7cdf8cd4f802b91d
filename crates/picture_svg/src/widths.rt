//! How wide the boxes of lines are.

ghost use Rattle.std.specs.Prelude.{◌≡◌, ℕ, ◌++◌, map, get_or, IfOk, OnOk};
ghost use Rattle.picture_svg.specs.Widths as spec;
ghost use Rattle.picture_text.specs.Lines as lines;

use crate::numbers::{larger, plus, times};
use picture_text::{Caption, Line, width_of, words_of};
use plan_text::{ActionLine, DecompositionLine, PlanFile};
use std::alloc::{AllocError, Global};

/// The width of a box with two texts, of which these are the lengths.
fn box_width(upper: usize, lower: usize) -> Result<usize, AllocError>
    ensures { IfOk result (λ width. width ≡ spec.box_width upper lower) }
{
    let longer = larger(times(7, upper)?, times(6, lower)?);
    plus(20, longer)
}

/// The width of the box of the problem.
pub(crate) fn problem_width(caption: &Caption<'_>) -> Result<usize, AllocError>
    ensures { IfOk result (λ width. width ≡ spec.problem_width caption.now) }
{
    box_width(caption.problem.len(), caption.verdict.len())
}

/// The width of an action's box.
fn action_width(alloc: Global, digits: usize, line: &ActionLine) -> Result<usize, AllocError>
    ensures { IfOk result (λ width. width ≡ spec.line_width digits (lines.action line.now)) }
{
    let words = words_of(alloc, Line::Action(line))?;
    let letters = plus(digits, words.len())?;
    plus(32, times(7, letters)?)
}

/// The width of a task's box.
fn task_width(alloc: Global, line: &DecompositionLine) -> Result<usize, AllocError>
    ensures { IfOk result (λ width. width ≡ spec.line_width 0 (lines.task line.now)) }
{
    let words = words_of(alloc, Line::Task(line))?;
    box_width(words.len(), line.method().as_bytes().len())
}

/// Adds the widths of the boxes of actions.
fn push_actions(
    widths: &mut Vec<usize>,
    alloc: Global,
    digits: usize,
    actions: &[ActionLine],
) -> Result<(), AllocError>
    ensures { OnOk result (widths.new.items ≡ widths.old.items ++ map (λ line. spec.line_width digits (lines.action line)) actions.now) }
{
    for line in actions {
        widths.push(action_width(alloc, digits, line)?)?;
    }
    Ok(())
}

/// Adds the widths of the boxes of tasks.
fn push_tasks(
    widths: &mut Vec<usize>,
    alloc: Global,
    tasks: &[DecompositionLine],
) -> Result<(), AllocError>
    ensures { OnOk result (widths.new.items ≡ widths.old.items ++ map (λ line. spec.line_width 0 (lines.task line)) tasks.now) }
{
    for line in tasks {
        widths.push(task_width(alloc, line)?)?;
    }
    Ok(())
}

/// The width of the box of each line, by the line's number.
pub(crate) fn widths_of(alloc: Global, file: &PlanFile) -> Result<Vec<usize>, AllocError>
    ensures { IfOk result (λ widths. (line : ℕ) → get_or widths.items line 0 ≡ spec.width_at file.now line) }
{
    let mut widths = Vec::new(alloc);
    push_actions(&mut widths, alloc, width_of(file), file.actions())?;
    push_tasks(&mut widths, alloc, file.decompositions())?;
    Ok(widths)
}
