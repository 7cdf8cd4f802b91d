//! The moves of a word, and the trees that are built from them backwards.
ghost use Rattle.std.specs.Prelude.{◌≡◌, ◌+◌, ◌≤◌, ◌++◌, [], IfOk, OnOk, drop, length, reverse, take};
ghost use Rattle.htn_ground.specs.Trees.{Numbering, nodes_view};
ghost use Rattle.htn_walk.specs.Trail.{AreWithin, before_move, before_moves};

use htn_ground::Node;
use std::alloc::{AllocError, Global};

/// The choice of one number of a word: an open node, which its children replaced.
#[derive(Drop)]
pub struct Move {
    /// The position of the node among the open nodes.
    pub position: usize,
    /// A compound task with its instance, or the action or the precondition step that was carried out;
    /// without children.
    pub node: Node,
    /// The number of children that replaced it; 0 for an action or a step.
    pub children: usize,
}

/// Removes and returns the trees of a node's children, from a position on, in their order. The trees are stored from
/// the last to the first, so those after the children are not moved.
fn take_out(
    alloc: Global,
    trees: &mut Vec<Node>,
    position: usize,
    count: usize,
) -> Result<Vec<Node>, AllocError>
    requires { position + count ≤ length trees.old.items }
    ensures taken { IfOk result (λ row. row.items ≡ take count (drop position (reverse trees.old.items))) }
    ensures left { OnOk result (reverse trees.new.items
        ≡ take position (reverse trees.old.items) ++ drop (position + count) (reverse trees.old.items)) }
{
    if count == 0 {
        return Ok(Vec::new(alloc));
    }
    let last = trees.len() - position - count;
    let mut row = trees.split_off(last)?;
    let mut earlier = row.split_off(count)?;
    trees.append(&mut earlier)?;
    row.reverse();
    Ok(row)
}

/// Replaces the trees of a move's children by one tree with the move's node over them.
fn put_back(alloc: Global, trees: &mut Vec<Node>, last: Move) -> Result<(), AllocError>
    requires { last.position + last.children ≤ length trees.old.items }
    ensures { OnOk result ((numbers : Numbering) → nodes_view numbers (reverse trees.new.items)
        ≡ before_move numbers last (nodes_view numbers (reverse trees.old.items))) }
{
    let children = take_out(alloc, trees, last.position, last.children)?;
    let place = trees.len() - last.position;
    trees.insert(place, last.node.over(children))?;
    Ok(())
}

/// The trees of the nodes that were open before the moves, where none is open after them.
pub fn grow_back(alloc: Global, mut trail: Vec<Move>) -> Result<Vec<Node>, AllocError>
    requires { AreWithin trail.items 0 }
    ensures { IfOk result (λ trees. (numbers : Numbering) → nodes_view numbers trees.items ≡ before_moves numbers trail.items []) }
{
    let mut trees = Vec::new(alloc);
    while let Some(last) = trail.pop() {
        put_back(alloc, &mut trees, last)?;
    }
    trees.reverse();
    Ok(trees)
}
