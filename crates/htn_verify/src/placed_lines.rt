//! The lines of a plan file with their tasks and the run, as the search for room takes them.
ghost use Rattle.std.specs.Prelude.{◌≡◌, ◌<◌, All, IfOk, length, map};
ghost use Rattle.htn_verify.specs.Placed.{ArePlaced};
ghost use Rattle.htn_verify.specs.Tasks.{task_at};

use htn_ground::{GroundTask, Instance};
use htn_task::{LiteralList, Task};
use plan_lines::{EverTrue, Names, Turns, initials_to_fit, instances_to_fit};
use plan_room::PlanLines;
use plan_text::{Forest, PlanFile};
use std::alloc::{AllocError, Global};
use std::borrow::CowSlice;

/// The tasks of lines, in turn.
fn tasks_of<'a>(
    alloc: Global,
    tasks: &'a [GroundTask],
    lines: &[usize],
) -> Result<Vec<&'a GroundTask>, AllocError>
    requires { All (λ line. line < length tasks.now) lines.now }
    ensures { IfOk result (λ v. map (λ t. t.now) v.items ≡ map (task_at tasks.now) lines.now) }
{
    let mut all = Vec::with_capacity(alloc, lines.len())?;
    for line in lines {
        all.push(&tasks[*line])?;
    }
    Ok(all)
}

/// The lines of a plan file that is a forest, each with its task, and the history of its action lines.
#[derive(Drop)]
pub(crate) struct PlacedLines<'a, 't> {
    pub alloc: Global,
    pub task: &'a Task,
    pub file: &'a PlanFile,
    pub forest: &'a Forest,
    pub tasks: &'a [GroundTask],
    pub turns: &'a Turns<'t>,
    pub ever: &'a EverTrue<'t>,
    ghost placed: { ArePlaced task.now file.now forest.now tasks.now turns.now },
    ghost same: { ever.now ≡ turns.now },
}

impl PlanLines for PlacedLines<'_, '_> {
    ghost use Rattle.htn_verify.specs.Placed.{placed_lines};

    ghost lines = { λ p. placed_lines p.task.now p.file.now p.forest.now p.tasks.now };

    fn actions(&self) -> usize {
        self.file.actions().len()
    }

    fn count(&self) -> usize {
        self.tasks.len()
    }

    fn task(&self, line: usize) -> &GroundTask {
        &self.tasks[line]
    }

    fn children(&self, line: usize) -> &[usize] {
        self.forest.children(line - self.file.actions().len())
    }

    fn roots(&self) -> &[usize] {
        self.forest.roots()
    }

    fn instances(&self, line: usize) -> Result<CowSlice<'_, Instance>, AllocError> {
        let names = Names::new(self.task);
        let place = line - self.file.actions().len();
        let method = self.file.decompositions()[place].method();
        let children = tasks_of(self.alloc, self.tasks, self.forest.children(place))?;
        let goal = &self.tasks[line];
        let found = instances_to_fit(self.alloc, &names, self.ever, goal, method, &children)?;
        Ok(CowSlice::Owned(found))
    }

    fn initials(&self) -> Result<Vec<Instance>, AllocError> {
        let names = Names::new(self.task);
        let roots = tasks_of(self.alloc, self.tasks, self.forest.roots())?;
        let found = initials_to_fit(self.alloc, &names, self.ever, &roots)?;
        Ok(found)
    }

    fn next_gap(&self, literals: &LiteralList, from: usize, last: usize) -> Option<usize> {
        self.turns.next_gap(literals.as_slice(), from, last)
    }
}
