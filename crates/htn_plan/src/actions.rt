//! The actions of a solution, numbered in order of execution.
ghost use Rattle.std.specs.Prelude.{◌≡◌, ◌+◌, ◌<◌, false, length, IfOk, OnOk, MatchOption, Some, None};
ghost use Rattle.htn_ground.specs.Trees.{Numbering, node_of, nodes_view, solution_of};
ghost use Rattle.htn_model.specs.Numbered.{is_leaf};
ghost use Rattle.htn_model.specs.Tree as tree;
ghost use Rattle.htn_plan.specs.Ids.{AreNumbered};

use crate::ids::ActionIds;
use crate::lines::action_line;
use htn_ground::{GroundTask, Node, Solution};
use htn_task::Task;
use plan_text::ActionLine;
use std::alloc::{AllocError, Global};

fn children(node: &Node) -> &[Node]
    ensures { (numbers : Numbering) → tree.nodes_of (nodes_view numbers result.now) ≡ tree.children_of (node_of numbers node.now) }
{
    match node {
        Node::Leaf(_) => &[],
        Node::Step(_) => &[],
        Node::Compound(_, _, children) => children,
    }
}

fn child_at(nodes: &[Node], position: usize) -> Option<&Node>
    ensures { (numbers : Numbering) → MatchOption result
        (tree.child_at (tree.nodes_of (nodes_view numbers nodes.now)) position ≡ None)
        (λ n. tree.child_at (tree.nodes_of (nodes_view numbers nodes.now)) position ≡ Some (node_of numbers n.now)) }
{
    nodes.get(position)
}

/// The node at a place of a forest.
fn node_at<'a>(trees: &'a [Node], place: &[usize]) -> Option<&'a Node>
    ensures { (numbers : Numbering) → MatchOption result
        (tree.node_at (tree.nodes_of (nodes_view numbers trees.now)) place.now ≡ None)
        (λ n. tree.node_at (tree.nodes_of (nodes_view numbers trees.now)) place.now ≡ Some (node_of numbers n.now)) }
{
    let (first, below) = place.split_first()?;
    let mut node = child_at(trees, *first)?;
    for position in below {
        node = child_at(children(node), *position)?;
    }
    Some(node)
}

/// The action at a place of a forest, if there is one.
fn action_at<'a>(trees: &'a [Node], place: &[usize]) -> Option<&'a GroundTask>
    ensures { (numbers : Numbering) → MatchOption result
        (is_leaf (tree.node_at (tree.nodes_of (nodes_view numbers trees.now)) place.now) ≡ false)
        (λ g. tree.node_at (tree.nodes_of (nodes_view numbers trees.now)) place.now ≡ Some (tree.leaf g.now)) }
{
    match node_at(trees, place)? {
        Node::Leaf(goal) => Some(goal),
        Node::Step(_) => None,
        Node::Compound(_, _, _) => None,
    }
}

/// Adds the line of the node at the place with this index in the linearisation, if it is an action.
fn add_action<'a>(
    alloc: Global,
    task: &Task,
    solution: &'a Solution,
    index: usize,
    lines: &mut Vec<ActionLine>,
    ids: &mut ActionIds<'a>,
) -> Result<(), AllocError>
    requires within { index < length solution.now.linearisation.items }
    requires before { AreNumbered task.now (solution_of task.now solution.now) index lines.old.items ids.old }
    ensures { OnOk result (AreNumbered task.now (solution_of task.now solution.now) (index + 1) lines.new.items ids.new) }
{
    let place = &solution.linearisation[index];
    let Some(goal) = action_at(&solution.trees, place) else {
        return Ok(());
    };
    let id = ids.number(place, lines.len() as u64)?;
    lines.push(action_line(alloc, task, goal, id)?)?;
    Ok(())
}

/// The lines of the actions, and their ids by their places.
pub(crate) fn number_actions<'a>(
    alloc: Global,
    task: &Task,
    solution: &'a Solution,
) -> Result<(Vec<ActionLine>, ActionIds<'a>), AllocError>
    ensures { IfOk result (λ r. AreNumbered task.now (solution_of task.now solution.now) (length solution.now.linearisation.items) r.0.items r.1) }
{
    let mut lines = Vec::new(alloc);
    let mut ids = ActionIds::new(alloc);
    for index in 0..solution.linearisation.len() {
        add_action(alloc, task, solution, index, &mut lines, &mut ids)?;
    }
    Ok((lines, ids))
}
