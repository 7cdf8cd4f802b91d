//! The compound nodes of a solution, numbered in preorder.
ghost use Rattle.std.specs.Prelude.{◌≡◌, ◌≤◌, [], ◌∷◌, take, drop, length, map, reverse, IfOk, OnOk};
ghost use Rattle.std.specs.List.{AllByRecursion};
ghost use Rattle.plan_text.specs.PlanFile.{IsDecompositionLine};
ghost use Rattle.htn_plan.specs.Gathered as spec;
ghost use Rattle.htn_plan.specs.Items.{item_of, items_of};
ghost use Rattle.htn_plan.specs.Preorder as seen;

use crate::lines::decomposition_line;
use crate::preorder::Item;
use htn_ground::{GroundTask, Instance};
use htn_task::Task;
use plan_text::DecompositionLine;
use std::alloc::{AllocError, Global};
use std::marker::Model;

/// How many nodes are compound.
pub(crate) fn count_compounds(items: &[Item<'_>]) -> usize
    ensures count { result ≡ seen.compound_count (items_of items.now) }
    ensures within { result ≤ length items.now }
{
    let mut count = 0;
    for item in items {
        match item {
            Item::Action(_) => {}
            Item::Step => {}
            Item::Compound(_, _, _) => count += 1,
        }
    }
    count
}

/// Takes the topmost ids off, the last first, and leaves out those of steps.
fn take_ids(alloc: Global, ids: &mut Vec<Option<u64>>, count: usize) -> Result<Vec<u64>, AllocError>
    ensures taken { IfOk result (λ taken. taken.items ≡ spec.somes (take count (reverse ids.old.items))) }
    ensures left { OnOk result (reverse ids.new.items ≡ drop count (reverse ids.old.items)) }
{
    let mut taken = Vec::new(alloc);
    for _step in 0..count {
        match ids.pop() {
            Some(Some(id)) => taken.push(id)?,
            Some(None) => {}
            None => {}
        }
    }
    Ok(taken)
}

/// What the nodes give, from the last one on.
#[derive(Drop)]
struct Gathering {
    /// The ids of the topmost nodes, the first node last, and none for a step.
    ids: Vec<Option<u64>>,
    /// The lines, the first last.
    lines: Vec<DecompositionLine>,
}

impl Model for Gathering {
    ghost use Rattle.std.specs.Prelude.{reverse};
    ghost use Rattle.std.specs.List.{AllByRecursion};
    ghost use Rattle.htn_plan.specs.Gathered.{Gathered};
    ghost use Rattle.plan_text.specs.PlanFile.{IsDecompositionLine};

    ghost Value = { Gathered };

    ghost view = { λ g. record { ids = reverse g.ids.items; lines = reverse g.lines.items } };

    ghost invariant = { λ g. AllByRecursion IsDecompositionLine g.lines.items };
}

impl Gathering {
    fn new(alloc: Global) -> Gathering
        ensures { result ≡ record { ids = []; lines = [] } }
    {
        Gathering {
            ids: Vec::new(alloc),
            lines: Vec::new(alloc),
        }
    }

    /// Adds a compound node, whose children's ids were added.
    fn add_compound(
        &mut self,
        alloc: Global,
        task: &Task,
        goal: &GroundTask,
        instance: &Instance,
        count: usize,
        end: u64,
    ) -> Result<(), AllocError>
        ensures { OnOk result (self.new ≡ spec.gather task.now (spec.by_instance task.now) end (seen.task goal.now instance.now count) self.old) }
    {
        let id = end
            .saturating_sub(self.lines.len() as u64)
            .saturating_sub(1);
        let children = take_ids(alloc, &mut self.ids, count)?;
        self.lines.push(decomposition_line(alloc, task, goal, instance, id, children)?)?;
        self.ids.push(Some(id))?;
        Ok(())
    }

    /// Adds a node before those that were added.
    fn add(
        &mut self,
        alloc: Global,
        task: &Task,
        item: Item<'_>,
        end: u64,
    ) -> Result<(), AllocError>
        ensures { OnOk result (self.new ≡ spec.gather task.now (spec.by_instance task.now) end (item_of item.entry) self.old) }
    {
        match item {
            Item::Action(id) => self.ids.push(Some(id.unwrap_or(end)))?,
            Item::Step => self.ids.push(None)?,
            Item::Compound(goal, instance, count) => {
                self.add_compound(alloc, task, goal, instance, count, end)?
            }
        }
        Ok(())
    }
}

/// The ids of the roots without steps, and the lines of the compound nodes, whose ids end before `end`.
pub(crate) fn number_compounds(
    alloc: Global,
    task: &Task,
    mut items: Vec<Item<'_>>,
    end: u64,
) -> Result<(Vec<u64>, Vec<DecompositionLine>), AllocError>
    ensures roots { IfOk result (λ r. r.0.items ≡ spec.somes (spec.gather_all task.now (spec.by_instance task.now) end (items_of items.entry.items) spec.nothing).ids) }
    ensures lines { IfOk result (λ r. r.1.items ≡ (spec.gather_all task.now (spec.by_instance task.now) end (items_of items.entry.items) spec.nothing).lines) }
    ensures each { IfOk result (λ r. AllByRecursion IsDecompositionLine r.1.items) }
{
    let mut gathered = Gathering::new(alloc);
    while let Some(item) = items.pop() {
        gathered.add(alloc, task, item, end)?;
    }
    let Gathering { mut ids, mut lines } = gathered;
    let count = ids.len();
    let roots = take_ids(alloc, &mut ids, count)?;
    lines.reverse();
    Ok((roots, lines))
}
