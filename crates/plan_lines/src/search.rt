//! Instances whose subtasks are given tasks.
ghost use Rattle.std.specs.Prelude.{[], ◌≡◌, ◌≤◌, ◌+◌, ◌<◌, ℕ, List, length, map, slice_get, get_or, Some, IfOk, IfSome, IfNone, IsTrue, OnOk, MatchBool, ◌↔◌};
ghost use Rattle.htn_model.specs.Instances as instances;
ghost use Rattle.htn_model.specs.Problem as model;
ghost use Rattle.htn_model.specs.Problem.{ground_task_eq};
ghost use Rattle.plan_lines.specs.Given.{Extends};
ghost use Rattle.plan_lines.specs.Left.{Fill, ShowsWith, left_of, once};

use crate::children::Children;
use crate::completion::{instance_with, meets_so_far};
use crate::given::{bind_all, task_of};
use htn_ground::Conditions;
use htn_task::{Task, TaskSchema};
use std::alloc::{AllocError, Global};

/// Takes the tasks of those schemas whose arguments have objects from what is left. Gives the other
/// schemas; none where a task isn't left.
pub(crate) fn settle<'s>(
    alloc: Global,
    children: &Children,
    schemas: &[&'s TaskSchema],
    given: &[Option<u16>],
    left: &mut Vec<usize>,
) -> Result<Option<Vec<&'s TaskSchema>>, AllocError>
    requires { length left.old.items ≡ length children.now }
    ensures long { OnOk result (length left.new.items ≡ length children.now) }
    ensures none { IfOk result (λ r. IfNone r ((values : List ℕ) → Extends values given.now → Fill children.now left.old.items (map (λ s. s.now) schemas.now) values → ⊥)) }
    ensures kept { IfOk result (λ r. IfSome r (λ kept. (values : List ℕ) → Extends values given.now
        → Fill children.now left.old.items (map (λ s. s.now) schemas.now) values ↔ Fill children.now left.new.items (map (λ s. s.now) kept.items) values)) }
    ensures fewer { IfOk result (λ r. IfSome r (λ kept. length kept.items ≤ length schemas.now)) }
{
    let mut kept = Vec::new(alloc);
    for schema in schemas {
        match task_of(alloc, given, schema)? {
            Some(task) => {
                if !children.take(left, &task) {
                    return Ok(None);
                }
            }
            None => kept.push(*schema)?,
        }
    }
    Ok(Some(kept))
}

/// The values with which a schema's task is one of the children's, and what is left then; none where
/// it can't be.
pub(crate) fn matched(
    alloc: Global,
    children: &Children,
    number: usize,
    schema: &TaskSchema,
    given: &[Option<u16>],
    left: &[usize],
) -> Result<Option<(Vec<Option<u16>>, Vec<usize>)>, AllocError>
    requires number { number < length children.now }
    requires long { length left.now ≡ length children.now }
    ensures none { IfOk result (λ r. IfNone r ((values : List ℕ) → Extends values given.now
        → slice_get children.now number ≡ Some (instances.ground_task values schema.now) → left_of children.now left.now (instances.ground_task values schema.now) ≡ 0)) }
    ensures given { IfOk result (λ r. IfSome r (λ p. (values : List ℕ) → Extends values p.0.items ↔ (Extends values given.now
        × (slice_get children.now number ≡ Some (instances.ground_task values schema.now))))) }
    ensures left { IfOk result (λ r. IfSome r (λ p. (g task : model.GroundTask) → slice_get children.now number ≡ Some task
        → left_of children.now left.now g ≡ once (ground_task_eq g task) + left_of children.now p.1.items g)) }
    ensures long { IfOk result (λ r. IfSome r (λ p. (length p.0.items ≡ length given.now) × (length p.1.items ≡ length children.now))) }
{
    let task = children.task_at(number);
    if task.name() != schema.name() {
        return Ok(None);
    }
    let mut more = Vec::from_slice(alloc, given)?;
    if !bind_all(&mut more, schema.arguments(), task.arguments()) {
        return Ok(None);
    }
    let mut fewer = Vec::from_slice(alloc, left)?;
    if !children.take(&mut fewer, task) {
        return Ok(None);
    }
    Ok(Some((more, fewer)))
}

/// Whether nothing is left.
pub(crate) fn is_used_up(children: &Children, left: &[usize]) -> bool
    requires { length left.now ≡ length children.now }
    ensures { MatchBool result ((g : model.GroundTask) → left_of children.now left.now g ≡ 0) (((g : model.GroundTask) → left_of children.now left.now g ≡ 0) → ⊥) }
{
    for number in 0..children.len() {
        if children.count(left, children.task_at(number)) > 0 {
            return false;
        }
    }
    true
}

/// Whether nothing is left, and there is an instance with the values that are given.
fn is_finished(
    alloc: Global,
    task: &Task,
    conditions: &Conditions,
    children: &Children,
    given: &[Option<u16>],
    left: &[usize],
) -> Result<bool, AllocError>
    requires given { length given.now ≡ length conditions.now.parameters }
    requires left { length left.now ≡ length children.now }
    ensures { IfOk result (λ b. IsTrue b ↔ ShowsWith task.now conditions.now children.now left.now [] given.now) }
{
    if !is_used_up(children, left) {
        return Ok(false);
    }
    let found = instance_with(alloc, task, conditions, given)?;
    Ok(found.is_some())
}

/// Whether some instance with the values that are given has the tasks that are left as those of the
/// schemas. It recurses no deeper than there are parameters.
pub(crate) fn shows(
    alloc: Global,
    task: &Task,
    conditions: &Conditions,
    children: &Children,
    schemas: &[&TaskSchema],
    given: &[Option<u16>],
    mut left: Vec<usize>,
) -> Result<bool, AllocError>
    requires given { length given.now ≡ length conditions.now.parameters }
    requires left { length left.items ≡ length children.now }
    ensures { IfOk result (λ b. IsTrue b ↔ ShowsWith task.now conditions.now children.now left.items (map (λ s. s.now) schemas.now) given.now) }
{
    if !meets_so_far(task, conditions, given) {
        return Ok(false);
    }
    let Some(kept) = settle(alloc, children, schemas, given, &mut left)? else {
        return Ok(false);
    };
    let (first, rest) = match kept.split_first() {
        Some(parts) => parts,
        None => {
            let found = is_finished(alloc, task, conditions, children, given, &left)?;
            return Ok(found);
        }
    };
    for number in 0..children.len() {
        if let Some(next) = matched(alloc, children, number, first, given, &left)? {
            let (more, fewer) = next;
            if shows(alloc, task, conditions, children, rest, &more, fewer)? {
                return Ok(true);
            }
        }
    }
    Ok(false)
}
