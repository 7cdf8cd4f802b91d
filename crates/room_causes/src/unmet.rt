//! Preconditions that hold in no gap of a range.
ghost use Rattle.std.specs.Prelude.{◌≡◌, ◌≤◌, ◌∷◌, [], ⊤, Some, IfOk, MatchOption, slice_get};
ghost use Rattle.htn_task.specs.Literals.{literal_of};
ghost use Rattle.htn_model.specs.Problem.{precondition};
ghost use Rattle.plan_room.specs.Frames.{IsLine};
ghost use Rattle.room_causes.specs.Conflicts.{IsUnmet, IsUnmetIn};
ghost use Rattle.room_causes.specs.Nodes.{IsFalseLiteral};

use crate::cause::Unmet;
use crate::instances::{instance_at, instances_of};
use htn_ground::{Child, Instance, ObjectList};
use htn_task::{Literal, LiteralList};
use plan_room::PlanLines;
use std::alloc::{AllocError, Global};

/// A literal alone.
fn alone(alloc: Global, literal: &Literal) -> Result<LiteralList, AllocError>
    ensures { IfOk result (λ list. list ≡ literal_of literal.now ∷ []) }
{
    let mut literals = Vec::new(alloc);
    literals.push(literal.clone()?)?;
    Ok(LiteralList::of(literals))
}

/// The place of the first literal that is false in each gap of a range.
fn false_literal<L: PlanLines>(
    alloc: Global,
    lines: &L,
    literals: &LiteralList,
    from: usize,
    until: usize,
) -> Result<Option<usize>, AllocError>
    requires within { until ≤ (L.lines lines.now).actions }
    ensures { IfOk result (λ r. MatchOption r ⊤ (IsFalseLiteral (L.lines lines.now) literals.now from until)) }
{
    for (place, literal) in literals.as_slice().iter().enumerate() {
        let single = alone(alloc, literal)?;
        if lines.next_gap(&single, from, until).is_none() {
            return Ok(Some(place));
        }
    }
    Ok(None)
}

/// The literals of an instance's precondition.
fn step_of(instance: &Instance) -> Option<&LiteralList>
    ensures { MatchOption result ⊤ (λ literals. slice_get instance.now.network.children 0 ≡ Some (precondition literals.now)) }
{
    let Some(child) = instance.children().as_slice().get(0) else {
        return None;
    };
    match child {
        Child::Precondition(literals) => Some(literals),
        _ => None,
    }
}

/// The precondition of an instance, if it holds in no gap from one to another.
pub(crate) fn unmet_in<L: PlanLines>(
    alloc: Global,
    lines: &L,
    instance: &Instance,
    from: usize,
    until: usize,
) -> Result<Option<Unmet>, AllocError>
    requires within { until ≤ (L.lines lines.now).actions }
    ensures { IfOk result (λ r. MatchOption r ⊤ (IsUnmetIn (L.lines lines.now) instance.now from until)) }
{
    let Some(literals) = step_of(instance) else {
        return Ok(None);
    };
    if lines.next_gap(literals, from, until).is_some() {
        return Ok(None);
    }
    let values = ObjectList::of(alloc, instance.values())?;
    let literal = false_literal(alloc, lines, literals, from, until)?;
    let literals = literals.clone()?;
    Ok(Some(Unmet {
        values,
        literals,
        literal,
        from,
        until,
    }))
}

/// The precondition of the only instance of a line, if it holds in no gap from one on.
pub(crate) fn unmet_of<L: PlanLines>(
    alloc: Global,
    lines: &L,
    line: usize,
    from: usize,
) -> Result<Option<Unmet>, AllocError>
    requires line { IsLine (L.lines lines.now) line }
    ensures { IfOk result (λ r. MatchOption r ⊤ (IsUnmet (L.lines lines.now) line from)) }
{
    let instances = instances_of(lines, line)?;
    if instances.len() != 1 {
        return Ok(None);
    }
    let instance = instance_at(&instances, 0);
    let found = unmet_in(alloc, lines, instance, from, lines.actions())?;
    Ok(found)
}
