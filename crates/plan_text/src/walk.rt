//! A walk through all lines that the root line reaches.
ghost use Rattle.std.specs.Prelude.{◌≡◌, ℕ, ◌+◌, ◌<◌, ◌↔◌, length, IfOk, IsTrue, OnOk};
ghost use Rattle.std.specs.List.{All};
ghost use Rattle.plan_text.specs.Forest.{lists_of};
ghost use Rattle.plan_text.specs.Reached as spec;
ghost use Rattle.plan_text.specs.Reached.{AreAdded, AreMet, AreWithin, IsReachedFrom};

use std::alloc::{AllocError, Global};

/// The children of a line: an action line has none.
fn children_at(children: &[Vec<usize>], actions: usize, line: usize) -> &[usize]
    ensures { result.now ≡ spec.children_at actions (lists_of children.now) line }
{
    if line < actions {
        return &[];
    }
    match children.get(line - actions) {
        Some(list) => list.as_slice(),
        None => &[],
    }
}

/// Adds those of the lines that the walk hasn't met.
fn meet(met: &mut Vec<bool>, lines: &mut Vec<usize>, more: &[usize]) -> Result<(), AllocError>
    requires walk { AreMet met.old.items lines.old.items }
    requires within { All (λ line. line < length met.old.items) more.now }
    ensures walk { OnOk result (AreMet met.new.items lines.new.items) }
    ensures added { OnOk result (AreAdded lines.old.items lines.new.items more.now) }
    ensures size { OnOk result (length met.new.items ≡ length met.old.items) }
{
    for line in more {
        if !met[*line] {
            lines.push(*line)?;
            met[*line] = true;
        }
    }
    Ok(())
}

/// Whether the roots reach each line, from parents to children.
pub(crate) fn reaches_all(
    alloc: Global,
    count: usize,
    actions: usize,
    roots: &[usize],
    children: &[Vec<usize>],
) -> Result<bool, AllocError>
    requires { AreWithin count roots.now (lists_of children.now) }
    ensures { IfOk result (λ b. IsTrue b ↔ ((line : ℕ) → line < count → IsReachedFrom actions roots.now (lists_of children.now) line)) }
{
    let mut met = vec![in alloc; false; count]?;
    let mut lines = Vec::new(alloc);
    meet(&mut met, &mut lines, roots)?;
    let mut next = 0;
    while next < lines.len() {
        let line = lines[next];
        let below = children_at(children, actions, line);
        meet(&mut met, &mut lines, below)?;
        next += 1;
    }
    Ok(lines.len() == count)
}
