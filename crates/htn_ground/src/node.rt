//! Decomposition trees and solutions.
ghost use Rattle.std.specs.Prelude.{◌≡◌, ◌+◌, ◌<◌, ◌≤◌, IfErr, IfNone, IfOk, IfSome};
ghost use Rattle.htn_ground.specs.Trees.{Numbering, node_of, nodes_view, over, size_of, size_of_any};

use crate::ground_task::GroundTask;
use crate::instance::Instance;
use htn_task::LiteralList;
use std::mem;

/// A node of a decomposition tree. It is let go without recursion, however deep it is.
pub enum Node {
    /// An action.
    Leaf(GroundTask),
    /// A precondition step.
    Step(LiteralList),
    /// A compound task, the method instance that decomposes it, and the trees of that instance's children.
    Compound(GroundTask, Instance, Vec<Node>),
}

impl Node {
    /// Takes the last child out and puts another node, if there is one, where it was. A node without
    /// children is let go, and the other one comes back. It takes no memory.
    fn exchange_last(self, other: Option<Node>) -> Result<(Node, Node), Option<Node>>
        ensures child { IfOk result (λ r. size_of r.0 < size_of self) }
        ensures rest { IfOk result (λ r. size_of r.0 + size_of r.1 ≡ size_of self + size_of_any other) }
        ensures childless { IfErr result (λ back. back ≡ other) }
    {
        match self {
            Node::Leaf(_) | Node::Step(_) => Err(other),
            Node::Compound(task, instance, mut children) => {
                let Some(last) = children.len().checked_sub(1) else {
                    children.destroy_empty();
                    return Err(other);
                };
                let child = match other {
                    Some(node) => mem::replace(&mut children[last], node),
                    None => children.remove(last),
                };
                Ok((child, Node::Compound(task, instance, children)))
            }
        }
    }
}

impl Node {
    /// Takes a child out: the one before the last, or the only one, and then the node is let go. It
    /// takes no memory.
    fn take_before_last(self) -> Option<(Node, Option<Node>)>
        ensures within { IfSome result (λ r. size_of r.0 + size_of_any r.1 ≤ size_of self) }
        ensures only { IfSome result (λ r. IfNone r.1 (size_of r.0 < size_of self)) }
    {
        match self {
            Node::Leaf(_) | Node::Step(_) => None,
            Node::Compound(task, instance, mut children) => {
                if let Some(before) = children.len().checked_sub(2) {
                    let child = children.remove(before);
                    return Some((child, Some(Node::Compound(task, instance, children))));
                }
                let only = children.pop();
                children.destroy_empty();
                let only = only?;
                Some((only, None))
            }
        }
    }

    /// Takes a child out of the first node that has two, down by only children, which are let go.
    fn take_next(self) -> Option<(Node, Node)>
        ensures { IfSome result (λ r. size_of r.0 + size_of r.1 ≤ size_of self) }
    {
        let mut here = self;
        loop {
            match here.take_before_last()? {
                (child, Some(rest)) => return Some((child, rest)),
                (only, None) => here = only,
            }
        }
    }
}

impl Node {
    /// The node over these children, in place of its own. An action and a step have none.
    pub fn over(self, children: Vec<Node>) -> Node
        ensures { (numbers : Numbering) → node_of numbers result ≡ over (node_of numbers self) (nodes_view numbers children.items) }
    {
        match self {
            Node::Leaf(task) => Node::Leaf(task),
            Node::Step(literals) => Node::Step(literals),
            Node::Compound(task, instance, _) => Node::Compound(task, instance, children),
        }
    }
}

/// On the way down each node's last child is taken out, and the node above it is put in that place:
/// so the nodes above are a stack, linked by their last children. Where the way ends, the next child
/// is taken from the top of the stack, before its link. (This is known as pointer reversal, after Deutsch, Schorr and
/// Waite.)
impl Drop for Node {
    fn drop(self) {
        let mut here = self;
        let mut above = None;
        loop {
            match here.exchange_last(above) {
                Ok((child, rest)) => {
                    here = child;
                    above = Some(rest);
                }
                Err(None) => return,
                Err(Some(rest)) => {
                    let Some((child, left)) = rest.take_next() else {
                        return;
                    };
                    here = child;
                    above = Some(left);
                }
            }
        }
    }
}

/// A forest of decomposition trees for one instance of the initial network, and an order of all its
/// actions and steps. A place is the list of child positions from the roots down.
pub struct Solution {
    /// The instance of the initial network.
    pub initial: Instance,
    /// The trees of its tasks.
    pub trees: Vec<Node>,
    /// The places of all actions and steps, in the order in which they are carried out.
    pub linearisation: Vec<Vec<usize>>,
}

impl Drop for Solution {
    fn drop(self) {
        let Solution {
            initial: _,
            trees: _,
            linearisation: _,
        } = self;
    }
}
