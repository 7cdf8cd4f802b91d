//! What can stand at the positions of a line's network, and how early it can have finished.
ghost use Rattle.std.specs.Prelude.{◌≡◌, ◌≤◌, ◌<◌, ◌+◌, ◌^◌, ℕ, None, Some, get_or, length};
ghost use Rattle.htn_ground.specs.Views.{child_view};
ghost use Rattle.htn_model.specs.Fits.{Fits, child_of};
ghost use Rattle.htn_model.specs.Problem.{action, child_eq, precondition};
ghost use Rattle.htn_model.specs.Problem.{task as compound};
ghost use Rattle.plan_room.specs.Steps.{IsStepRoom};
ghost use Rattle.plan_room.specs.Seats.{is_step_at};
ghost use Rattle.plan_room.specs.Lines.{AreLines};
ghost use Rattle.plan_room.specs.Memo.{IsMemo, IsOpenAt};
ghost use Rattle.plan_room.specs.Placing.{IsFinish};
ghost use Rattle.plan_room.specs.Trials.{IsAsked};

use crate::lines::PlanLines;
use crate::links::{Links, flag_at};
use crate::matching::Choices;
use crate::memo::Memo;
use crate::rooms::{Finish, Question};
use htn_ground::{Child, GroundTask, Instance};
use htn_task::LiteralList;

/// How early everything below a line can have finished.
pub(crate) fn line_finish<L: PlanLines>(lines: &L, memo: &Memo, line: usize, start: usize) -> Finish
    requires lines { AreLines (L.lines lines.now) }
    requires memo { IsMemo (L.lines lines.now) memo.now }
    requires low { line < (L.lines lines.now).count }
    ensures known { IsFinish (Fits (L.lines lines.now).naming (L.lines lines.now).problem (L.lines lines.now).states ((L.lines lines.now).plan_of line) start) (L.lines lines.now).actions result }
    ensures asked { IsAsked (IsOpenAt (L.lines lines.now) memo.now line start) result }
{
    if lines.actions() <= line {
        return memo.finish(Question { line, gap: start });
    }
    if start <= line {
        Finish::At(line + 1)
    } else {
        Finish::Never
    }
}

/// Whether a line is this action.
fn is_action_line<L: PlanLines>(lines: &L, task: &GroundTask, line: usize) -> bool
    requires lines { AreLines (L.lines lines.now) }
    requires low { line < (L.lines lines.now).count }
    ensures { result ≡ child_eq (action task.now) (child_of ((L.lines lines.now).plan_of line)) }
{
    if line < lines.actions() {
        task == lines.task(line)
    } else {
        false
    }
}

/// Whether a line decomposes this task.
fn is_task_line<L: PlanLines>(lines: &L, task: &GroundTask, line: usize) -> bool
    requires lines { AreLines (L.lines lines.now) }
    requires low { line < (L.lines lines.now).count }
    ensures { result ≡ child_eq (compound task.now) (child_of ((L.lines lines.now).plan_of line)) }
{
    if line < lines.actions() {
        false
    } else {
        task == lines.task(line)
    }
}

/// Whether a line can stand for this node of a network.
pub fn takes_line<L: PlanLines>(lines: &L, child: &Child, line: usize) -> bool
    requires lines { AreLines (L.lines lines.now) }
    requires low { line < (L.lines lines.now).count }
    ensures { result ≡ child_eq (child_view child.now) (child_of ((L.lines lines.now).plan_of line)) }
{
    match child {
        Child::Precondition(_) => false,
        Child::Action(task) => is_action_line(lines, task, line),
        Child::Task(task) => is_task_line(lines, task, line),
    }
}

/// Whether this node of a network is a step.
fn is_step(child: &Child) -> bool
    ensures { result ≡ is_step_at (Some (child_view child.now)) }
{
    match child {
        Child::Precondition(_) => true,
        Child::Action(_) => false,
        Child::Task(_) => false,
    }
}

/// How early literals hold.
fn literals_finish<L: PlanLines>(lines: &L, literals: &LiteralList, start: usize) -> Finish
    ensures known { IsFinish (IsStepRoom (L.lines lines.now).states (precondition literals.now) start) (L.lines lines.now).actions result }
    ensures asked { IsAsked (λ q. ⊥) result }
{
    match lines.next_gap(literals, start, lines.actions()) {
        Some(gap) => Finish::At(gap),
        None => Finish::Never,
    }
}

/// How early a step can be taken.
fn step_finish<L: PlanLines>(lines: &L, child: &Child, start: usize) -> Finish
    ensures known { IsFinish (IsStepRoom (L.lines lines.now).states (child_view child.now) start) (L.lines lines.now).actions result }
    ensures asked { IsAsked (λ q. ⊥) result }
{
    match child {
        Child::Precondition(literals) => literals_finish(lines, literals, start),
        Child::Action(_) => Finish::Never,
        Child::Task(_) => Finish::Never,
    }
}

/// The lines below one, and the positions of a network for them.
#[derive(Drop)]
pub(crate) struct Below<'a, L: PlanLines> {
    pub lines: &'a L,
    pub memo: &'a Memo,
    pub children: &'a [usize],
    pub instance: &'a Instance,
    pub sequence: &'a [usize],
    pub links: &'a Links,
    pub gap: usize,
    pub bound: usize,
}

impl<L: PlanLines> Choices for Below<'_, L> {
    ghost use Rattle.std.specs.Prelude.{◌+◌, ◌^◌, ◌<◌, ◌≤◌, ℕ, length};
    ghost use Rattle.plan_room.specs.Matching.{HasMatchedRoom};
    ghost use Rattle.plan_room.specs.Seats.{seating_of, AreBelow};
    ghost use Rattle.plan_room.specs.Links.{AreLinked};
    ghost use Rattle.plan_room.specs.Memo.{IsMemo, IsOpenBelow};

    ghost seating = { λ b. seating_of (L.lines b.lines.now) b.children.now b.instance.now.network b.sequence.now b.gap };

    ghost asks = { λ b. IsOpenBelow (L.lines b.lines.now) b.memo.now b.children.now };

    ghost is_sound = { λ b. AreBelow (L.lines b.lines.now) b.children.now b.instance.now.network × IsMemo (L.lines b.lines.now) b.memo.now
        × AreLinked (seating_of (L.lines b.lines.now) b.children.now b.instance.now.network b.sequence.now b.gap) (length b.children.now) b.links.now
        × ((h : ℕ) → HasMatchedRoom (seating_of (L.lines b.lines.now) b.children.now b.instance.now.network b.sequence.now b.gap) h → b.bound ≤ h) };

    fn size(&self) -> usize {
        self.instance.order().size()
    }

    fn is_before(&self, a: usize, b: usize) -> bool {
        self.instance.order().is_before(a, b)
    }

    fn sequence(&self) -> &[usize] {
        self.sequence
    }

    fn ahead(&self, position: usize) -> (usize, usize) {
        self.links.ahead[position]
    }

    fn gap(&self) -> usize {
        self.gap
    }

    fn bound(&self) -> usize {
        self.bound
    }

    fn count(&self) -> usize {
        self.children.len() + self.instance.children().len()
    }

    fn range(&self, position: usize) -> (usize, usize) {
        let Some(child) = self.instance.children().as_slice().get(position) else {
            return (0, 0);
        };
        if is_step(child) {
            let choice = self.children.len() + position;
            (choice, choice + 1)
        } else {
            (self.links.first[position], self.children.len())
        }
    }

    fn suits(&self, position: usize, choice: usize) -> bool {
        let Some(child) = self.instance.children().as_slice().get(position) else {
            return false;
        };
        if choice < self.children.len() {
            takes_line(self.lines, child, self.children[choice])
        } else {
            is_step(child) && choice - self.children.len() == position
        }
    }

    fn after(&self, choice: usize) -> usize {
        if choice < self.children.len() {
            self.links.after[choice]
        } else {
            self.count()
        }
    }

    fn is_fixed(&self, position: usize) -> bool {
        flag_at(&self.links.fixed, position)
    }

    fn finish(&self, choice: usize, start: usize) -> Finish {
        if choice < self.children.len() {
            return line_finish(self.lines, self.memo, self.children[choice], start);
        }
        let position = choice - self.children.len();
        let Some(child) = self.instance.children().as_slice().get(position) else {
            return Finish::Never;
        };
        step_finish(self.lines, child, start)
    }
}
