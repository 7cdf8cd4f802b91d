//! Which child may stand at which position of a network.
ghost use Rattle.std.specs.Prelude.{◌<◌, ℕ, get_or, length};

use crate::actions::Span;
use htn_ground::{Child, GroundTask, Instance};
use plan_room::PlanLines;
use std::alloc::{AllocError, Global};

/// A task with a number by which equal tasks are sorted, and the place where it stands.
type Key<'a> = (u32, &'a [u16], usize, usize);

fn key_of(task: &GroundTask, rank: usize, place: usize) -> Key<'_> {
    (task.name(), task.arguments(), rank, place)
}

/// The children, equal ones in the order of their first actions.
fn child_keys<'a, L: PlanLines>(
    alloc: Global,
    lines: &'a L,
    children: &[usize],
    spans: &[Option<Span>],
) -> Result<Vec<Key<'a>>, AllocError>
    requires low { (i : ℕ) → i < length children.now → get_or children.now i 0 < (L.lines lines.now).count }
{
    let mut keys = Vec::with_capacity(alloc, children.len())?;
    for (place, line) in children.iter().enumerate() {
        let rank = match spans.get(place) {
            Some(Some(span)) => span.first,
            _ => lines.actions(),
        };
        keys.push(key_of(lines.task(*line), rank, place))?;
    }
    keys.sort()?;
    Ok(keys)
}

/// The subtasks of a network, equal ones by how many nodes are before them.
fn position_keys(alloc: Global, instance: &Instance) -> Result<Vec<Key<'_>>, AllocError> {
    let ranks = instance.order().predecessor_counts(alloc)?;
    let nodes = instance.children().as_slice();
    let mut keys = Vec::with_capacity(alloc, nodes.len())?;
    for (position, child) in nodes.iter().enumerate() {
        let rank = ranks.get(position).copied().unwrap_or(0);
        match child {
            Child::Precondition(_) => {}
            Child::Action(task) => keys.push(key_of(task, rank, position))?,
            Child::Task(task) => keys.push(key_of(task, rank, position))?,
        }
    }
    keys.sort()?;
    Ok(keys)
}

/// For each position of a network the place of a child that may stand there: of equal children those whose actions
/// come first stand at the positions with the fewest nodes before them.
pub(crate) fn reading_of<L: PlanLines>(
    alloc: Global,
    lines: &L,
    children: &[usize],
    instance: &Instance,
    spans: &[Option<Span>],
) -> Result<Vec<Option<usize>>, AllocError>
    requires low { (i : ℕ) → i < length children.now → get_or children.now i 0 < (L.lines lines.now).count }
{
    let mut reading = vec![in alloc; None; instance.children().len()]?;
    let lines_of_tasks = child_keys(alloc, lines, children, spans)?;
    let positions = position_keys(alloc, instance)?;
    for (position, line) in positions.iter().zip(lines_of_tasks.iter()) {
        if let Some(entry) = reading.get_mut(position.3) {
            *entry = Some(line.3);
        }
    }
    Ok(reading)
}
