//! The nodes of a forest in preorder.
ghost use Rattle.std.specs.Prelude.{◌≡◌, ◌<◌, ◌+◌, ◌++◌, [], IfOk, OnOk};
ghost use Rattle.htn_ground.specs.Trees.{Numbering, node_of, nodes_view};
ghost use Rattle.htn_model.specs.Tree as tree;
ghost use Rattle.htn_plan.specs.Ids.{id_of};
ghost use Rattle.htn_plan.specs.Items.{levels_of, numbered_items};
ghost use Rattle.htn_plan.specs.Preorder as spec;
ghost use Rattle.htn_plan.specs.Walk.{pending, place_of as level_place, steps_left};

use crate::ids::ActionIds;
use htn_ground::{GroundTask, Instance, Node};
use std::alloc::{AllocError, Global};

/// A node, without those below it.
#[derive(Drop)]
pub(crate) enum Item<'a> {
    /// An action, with its id if it is carried out.
    Action(Option<u64>),
    /// A precondition step.
    Step,
    /// A compound task, the method instance that decomposes it, and how many children it has.
    Compound(&'a GroundTask, &'a Instance, usize),
}

/// The children of a node, and how many of them were visited.
#[derive(Drop)]
pub(crate) struct Frame<'a> {
    children: &'a [Node],
    taken: usize,
}

/// The place of the node that was taken last.
fn place_of(alloc: Global, frames: &[Frame<'_>]) -> Result<Vec<usize>, AllocError>
    ensures { IfOk result (λ place. (numbers : Numbering) → place.items ≡ level_place (levels_of numbers frames.now)) }
{
    let mut place = Vec::with_capacity(alloc, frames.len())?;
    for frame in frames {
        place.push(frame.taken.saturating_sub(1))?;
    }
    Ok(place)
}

/// Adds a node that was visited, and continues with its children.
fn visit<'a>(
    alloc: Global,
    node: &'a Node,
    ids: &ActionIds<'_>,
    frames: &mut Vec<Frame<'a>>,
    items: &mut Vec<Item<'a>>,
) -> Result<(), AllocError>
    ensures items { OnOk result ((numbers : Numbering) →
        (numbered_items numbers items.new.items ++ pending (id_of ids.now) (levels_of numbers frames.new.items)
        ≡ numbered_items numbers items.old.items ++ spec.items (id_of ids.now) (level_place (levels_of numbers frames.old.items)) (node_of numbers node.now) ++ pending (id_of ids.now) (levels_of numbers frames.old.items))) }
    ensures fewer { OnOk result ((numbers : Numbering) →
        steps_left (levels_of numbers frames.new.items) < tree.size (node_of numbers node.now) + tree.size (node_of numbers node.now) + steps_left (levels_of numbers frames.old.items)) }
{
    match node {
        Node::Leaf(_) => {
            let place = place_of(alloc, frames)?;
            items.push(Item::Action(ids.get(&place)))?;
        }
        Node::Step(_) => items.push(Item::Step)?,
        Node::Compound(goal, instance, children) => {
            items.push(Item::Compound(goal, instance, children.len()))?;
            frames.push(Frame { children, taken: 0 })?;
        }
    }
    Ok(())
}

/// The nodes of a forest, each before those below it.
pub(crate) fn preorder<'a>(
    alloc: Global,
    trees: &'a [Node],
    ids: &ActionIds<'_>,
) -> Result<Vec<Item<'a>>, AllocError>
    ensures { IfOk result (λ items. (numbers : Numbering) → numbered_items numbers items.items ≡ spec.items_from (id_of ids.now) [] 0 (tree.nodes_of (nodes_view numbers trees.now))) }
{
    let mut items = Vec::new(alloc);
    let mut frames = Vec::new(alloc);
    frames.push(Frame {
        children: trees,
        taken: 0,
    })?;
    while let Some(frame) = frames.pop() {
        let Frame { children, taken } = frame;
        if let Some(node) = children.get(taken) {
            frames.push(Frame {
                children,
                taken: taken + 1,
            })?;
            visit(alloc, node, ids, &mut frames, &mut items)?;
        }
    }
    Ok(items)
}
