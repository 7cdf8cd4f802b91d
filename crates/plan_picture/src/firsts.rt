//! The first action below each line.

ghost use Rattle.std.specs.Prelude.{◌≡◌, ℕ, ◌+◌, ◌<◌, [], length, get_or, None, map, IfOk};
ghost use Rattle.std.specs.List.{All};
ghost use Rattle.htn_model.specs.PlanFile.{IsIn};
ghost use Rattle.plan_text.specs.Forest.{lists_of};
ghost use Rattle.plan_text.specs.Reached as reached;
ghost use Rattle.plan_picture.specs.Below.{IsFirstAction};
ghost use Rattle.plan_picture.specs.Firsts.{AreAfter, earlier as earlier_of, lines_of};
ghost use Rattle.plan_picture.specs.Seen.{seen_all};

use crate::row::Row;
use crate::walk::children_at;
use std::alloc::{AllocError, Global};

/// What is found for a line; none past the end.
pub(crate) fn first_at(firsts: &[Option<usize>], line: usize) -> Option<usize>
    ensures { result ≡ get_or firsts.now line None }
{
    match firsts.get(line) {
        Some(first) => *first,
        None => None,
    }
}

/// The less of two numbers, where there are two.
fn earlier(one: Option<usize>, other: Option<usize>) -> Option<usize>
    ensures { result ≡ earlier_of one other }
{
    match (one, other) {
        (Some(a), Some(b)) => Some(if a <= b { a } else { b }),
        (Some(a), None) => Some(a),
        (None, b) => b,
    }
}

/// The first action at a line or below it, where it is found for the line's children.
fn first_of(
    firsts: &[Option<usize>],
    actions: usize,
    children: &[Vec<usize>],
    line: usize,
) -> Option<usize>
    requires { (child : ℕ) → IsIn child (reached.children_at actions (lists_of children.now) line) → IsFirstAction actions (reached.children_at actions (lists_of children.now)) child (get_or firsts.now child None) }
    ensures { IsFirstAction actions (reached.children_at actions (lists_of children.now)) line result }
{
    if line < actions {
        return Some(line);
    }
    let mut first = None;
    for child in children_at(children, actions, line) {
        first = earlier(first, first_at(firsts, *child));
    }
    first
}

/// The first action at or below each line of some rows, of which each stands before those of its children.
pub(crate) fn firsts_of(
    alloc: Global,
    actions: usize,
    decompositions: usize,
    children: &[Vec<usize>],
    rows: &[Row],
) -> Result<Vec<Option<usize>>, AllocError>
    requires after { AreAfter (reached.children_at actions (lists_of children.now)) (lines_of (seen_all rows.now)) }
    requires within { (line : ℕ) → IsIn line (lines_of (seen_all rows.now)) → line < actions + decompositions }
    ensures { IfOk result (λ firsts. (line : ℕ) → IsIn line (lines_of (seen_all rows.now)) → IsFirstAction actions (reached.children_at actions (lists_of children.now)) line (get_or firsts.items line None)) }
{
    let mut firsts = vec![in alloc; None; actions.saturating_add(decompositions)]?;
    let mut left = rows.len();
    while left > 0 {
        left -= 1;
        let line = rows[left].line;
        let first = first_of(firsts.as_slice(), actions, children, line);
        firsts[line] = first;
    }
    Ok(firsts)
}
