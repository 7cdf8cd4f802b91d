//! The node at a position of a network, and when it can be done.
ghost use Rattle.std.specs.Prelude.{◌≤◌, ◌<◌, ⊤, IfOk, MatchOption, OnOk};
ghost use Rattle.plan_room.specs.Ends.{AreEnds};
ghost use Rattle.plan_room.specs.Frames.{IsLine};
ghost use Rattle.plan_room.specs.Lines.{AreLines};
ghost use Rattle.room_causes.specs.Nodes.{IsChildAt, IsLowNode, IsNotBefore, StandsAt};

use crate::cause::Node;
use htn_ground::{Child, Instance};
use plan_room::{Ends, PlanLines, children_of, takes_line};
use std::alloc::{AllocError, Global};

/// The child at a place of the list, if its task is that of a network's node.
pub(crate) fn child_at<L: PlanLines>(
    lines: &L,
    line: usize,
    instance: &Instance,
    position: usize,
    place: usize,
) -> Option<usize>
    requires lines { AreLines (L.lines lines.now) }
    requires line { IsLine (L.lines lines.now) line }
    ensures child { MatchOption result ⊤ (IsChildAt (L.lines lines.now) line instance.now.network position) }
    ensures low { MatchOption result ⊤ (λ c. c < (L.lines lines.now).count) }
{
    let Some(child) = instance.children().as_slice().get(position) else {
        return None;
    };
    let children = children_of(lines, line);
    if place < children.len() && takes_line(lines, child, children[place]) {
        Some(children[place])
    } else {
        None
    }
}

/// The node of a network: the precondition, or the child at a place of the list, if its task is that of the node.
pub(crate) fn node_at<L: PlanLines>(
    lines: &L,
    line: usize,
    instance: &Instance,
    position: usize,
    place: Option<usize>,
) -> Result<Option<Node>, AllocError>
    requires lines { AreLines (L.lines lines.now) }
    requires line { IsLine (L.lines lines.now) line }
    ensures node { IfOk result (λ r. MatchOption r ⊤ (StandsAt (L.lines lines.now) line instance.now.network position)) }
    ensures low { IfOk result (λ r. MatchOption r ⊤ (IsLowNode (L.lines lines.now))) }
{
    if let Some(Child::Precondition(literals)) = instance.children().as_slice().get(position) {
        let literals = literals.clone()?;
        return Ok(Some(Node::Precondition(literals)));
    }
    let Some(place) = place else {
        return Ok(None);
    };
    match child_at(lines, line, instance, position, place) {
        Some(child) => Ok(Some(Node::Line(child))),
        None => Ok(None),
    }
}

/// The gap before which a node can't be done; none where it can't be done at all.
pub(crate) fn node_end<L: PlanLines>(
    alloc: Global,
    lines: &L,
    ends: &mut Ends,
    node: &Node,
) -> Result<Option<usize>, AllocError>
    requires lines { AreLines (L.lines lines.now) }
    requires ends { AreEnds (L.lines lines.now) ends.old }
    requires low { IsLowNode (L.lines lines.now) node.now }
    ensures ends { OnOk result (AreEnds (L.lines lines.now) ends.new) }
    ensures end { IfOk result (λ r. MatchOption r ⊤ (λ gap. IsNotBefore (L.lines lines.now) node.now gap × (gap ≤ (L.lines lines.now).actions))) }
{
    match node {
        Node::Line(line) => {
            let end = ends.end(alloc, lines, *line, 0)?;
            Ok(end)
        }
        Node::Precondition(literals) => Ok(lines.next_gap(literals, 0, lines.actions())),
    }
}
