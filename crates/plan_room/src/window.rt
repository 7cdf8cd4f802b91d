//! The gaps in which a network is to have room, and whether it may have room there.
ghost use Rattle.std.specs.Prelude.{◌≡◌, ◌≤◌, ◌<◌, ◌↔◌, ℕ, IsTrue, get_or, length};
ghost use Rattle.htn_ground.specs.Views.{child_view};
ghost use Rattle.htn_model.specs.Fits.{StepFits, subtask_positions};
ghost use Rattle.plan_room.specs.Bound.{IsLower};
ghost use Rattle.plan_room.specs.Lines.{AreLines};
ghost use Rattle.plan_room.specs.Seats.{AreAsMany};
ghost use Rattle.plan_room.specs.Windows as spec;
ghost use Rattle.plan_room.specs.Windows.{HoldsWithin, IsLastBetter, StepsHold};

use crate::lines::PlanLines;
use crate::rooms::Finish;
use htn_ground::{Child, Instance};
use htn_task::LiteralList;

/// Gaps from a first to a last one.
#[derive(Clone, Copy)]
pub(crate) struct Window {
    pub first: usize,
    pub last: usize,
}

/// Whether literals hold somewhere in a window.
fn hold_within<L: PlanLines>(lines: &L, literals: &LiteralList, window: Window) -> bool
    requires { window.last ≤ (L.lines lines.now).actions }
    ensures { IsTrue result ↔ StepFits (L.lines lines.now).states literals.now window.first window.last }
{
    lines
        .next_gap(literals, window.first, window.last)
        .is_some()
}

/// Whether a node of a network, where it is a step, holds somewhere in a window.
fn may_hold<L: PlanLines>(lines: &L, child: &Child, window: Window) -> bool
    requires { window.last ≤ (L.lines lines.now).actions }
    ensures { IsTrue result ↔ HoldsWithin (L.lines lines.now).states window.first window.last (child_view child.now) }
{
    match child {
        Child::Precondition(literals) => hold_within(lines, literals, window),
        Child::Action(_) => true,
        Child::Task(_) => true,
    }
}

/// Whether each step of a network holds somewhere in a window.
fn steps_hold<L: PlanLines>(lines: &L, instance: &Instance, window: Window) -> bool
    requires { window.last ≤ (L.lines lines.now).actions }
    ensures { IsTrue result ↔ StepsHold (L.lines lines.now).states window.first window.last instance.now.network.children }
{
    let nodes = instance.children();
    for child in nodes.as_slice() {
        if !may_hold(lines, child, window) {
            return false;
        }
    }
    true
}

/// How many subtasks a network has.
fn subtask_count(instance: &Instance) -> usize
    ensures { result ≡ length (subtask_positions 0 instance.now.network.children) }
{
    let nodes = instance.children();
    let _size = nodes.len();
    let mut count = 0;
    for child in nodes.as_slice() {
        match child {
            Child::Precondition(_) => {}
            _ => count += 1,
        }
    }
    count
}

/// Whether a network has as many subtasks as there are children, and its steps hold somewhere in a window.
pub(crate) fn may_fit<L: PlanLines>(
    lines: &L,
    children: &[usize],
    instance: &Instance,
    window: Window,
) -> bool
    requires { window.last ≤ (L.lines lines.now).actions }
    ensures { IsTrue result ↔ (AreAsMany (L.lines lines.now) children.now instance.now.network
        × StepsHold (L.lines lines.now).states window.first window.last instance.now.network.children) }
{
    if subtask_count(instance) != children.len() {
        return false;
    }
    steps_hold(lines, instance, window)
}

/// A finish where it is no later than a last gap.
pub(crate) fn up_to(finish: Finish, last: usize) -> Finish
    ensures { result ≡ spec.up_to finish last }
{
    match finish {
        Finish::Unknown(question) => Finish::Unknown(question),
        Finish::Never => Finish::Never,
        Finish::At(end) => {
            if last < end {
                Finish::Never
            } else {
                Finish::At(end)
            }
        }
    }
}

/// The finish that the best gap so far is.
pub(crate) fn finish_of(best: Option<usize>) -> Finish
    ensures { result ≡ spec.finish_of best }
{
    match best {
        None => Finish::Never,
        Some(end) => Finish::At(end),
    }
}

/// The last gap before the best so far; none where that is no later than the least that there can be.
pub(crate) fn last_better(best: Option<usize>, least: usize, actions: usize) -> Option<usize>
    ensures { IsLastBetter best least actions result }
{
    match best {
        None => Some(actions),
        Some(end) => { if end <= least { None } else { Some(end - 1) } }
    }
}

/// A gap before which the lines can't all have finished: that after the last action line among them.
pub(crate) fn least_end<L: PlanLines>(lines: &L, children: &[usize], gap: usize) -> usize
    requires lines { AreLines (L.lines lines.now) }
    requires low { (i : ℕ) → i < length children.now → get_or children.now i 0 < (L.lines lines.now).count }
    ensures { IsLower (L.lines lines.now) children.now gap result }
{
    let actions = lines.actions();
    let mut end = gap;
    for child in children {
        if *child < actions {
            end = end.max(*child + 1);
        }
    }
    end
}
