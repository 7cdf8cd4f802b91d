//! A walk through a forest from the top down.

ghost use Rattle.std.specs.Prelude.{◌≡◌, ◌+◌, ◌≤◌, ◌<◌, ◌^◌, [], ◌++◌, length, map, reverse, None, Some, OnOk, IfOk};
ghost use Rattle.std.specs.List.{All};
ghost use Rattle.plan_text.specs.Forest.{lists_of};
ghost use Rattle.plan_text.specs.Reached as reached;
ghost use Rattle.plan_picture.specs.Rows.{ArePreorder, child_rows, root_rows, rows_within, siblings, with_bar};
ghost use Rattle.plan_picture.specs.Seen.{seen, seen_all};

use crate::row::{Row, bars_below};
use std::alloc::{AllocError, Global};

/// The children of a line, where these are those of the decomposition lines: an action line has none.
pub fn children_at(children: &[Vec<usize>], actions: usize, line: usize) -> &[usize]
    ensures { result.now ≡ reached.children_at actions (lists_of children.now) line }
{
    if line < actions {
        return &[];
    }
    match children.get(line - actions) {
        Some(list) => list.as_slice(),
        None => &[],
    }
}

/// Adds the rows of siblings to those that wait, the last sibling first.
fn push_siblings(
    waiting: &mut Vec<Row>,
    alloc: Global,
    lines: &[usize],
    parent: Option<usize>,
    depth: usize,
    above: &[bool],
) -> Result<(), AllocError>
    ensures { OnOk result (seen_all waiting.new.items ≡ seen_all waiting.old.items ++ reverse (siblings parent depth above.now lines.now)) }
{
    let mut left = lines.len();
    while left > 0 {
        let is_last = left == lines.len();
        left -= 1;
        waiting.push(Row {
            line: lines[left],
            parent,
            depth,
            above: Vec::from_slice(alloc, above)?,
            is_last,
        })?;
    }
    Ok(())
}

/// Adds the rows of a row's children to those that wait.
fn push_children(
    waiting: &mut Vec<Row>,
    alloc: Global,
    actions: usize,
    children: &[Vec<usize>],
    row: &Row,
) -> Result<(), AllocError>
    requires { row.now.depth + 1 < 2 ^ 64 }
    ensures { OnOk result (seen_all waiting.new.items ≡ seen_all waiting.old.items ++ reverse (child_rows (reached.children_at actions (lists_of children.now)) (seen row.now))) }
{
    let above = bars_below(row)?;
    let lines = children_at(children, actions, row.line);
    let parent = Some(row.line);
    push_siblings(
        waiting,
        alloc,
        lines,
        parent,
        row.depth + 1,
        above.as_slice(),
    )
}

/// The rows of a forest from the top down, where it is no deeper than it has decomposition lines.
pub(crate) fn rows_of(
    alloc: Global,
    actions: usize,
    roots: &[usize],
    children: &[Vec<usize>],
) -> Result<Vec<Row>, AllocError>
    requires { let below = reached.children_at actions (lists_of children.now) in ArePreorder below (root_rows roots.now) (rows_within below (length children.now + 1) (root_rows roots.now)) }
    ensures { IfOk result (λ rows. seen_all rows.items ≡ rows_within (reached.children_at actions (lists_of children.now)) (length children.now + 1) (root_rows roots.now)) }
{
    let mut rows = Vec::new(alloc);
    let mut waiting = Vec::new(alloc);
    push_siblings(&mut waiting, alloc, roots, None, 0, &[])?;
    while let Some(row) = waiting.pop() {
        push_children(&mut waiting, alloc, actions, children, &row)?;
        rows.push(row)?;
    }
    Ok(rows)
}
