//! Strongly connected components: nodes that lead to one another, found in one walk down (R. Tarjan, Depth-first search
//! and linear graph algorithms, SIAM Journal on Computing 1, 1972).

use std::alloc::{AllocError, Global};

/// The mark of a node that has a component: it is greater than the marks of visited nodes that have none.
const CLOSED: u32 = u32::MAX;

/// The components of a graph: nodes are in the same one where each leads to the other.
pub(crate) struct Components {
    /// By node, the number of its component. A component that another one leads to has the lesser number.
    pub(crate) numbers: Vec<u32>,
    /// The nodes, by the numbers of their components.
    pub(crate) order: Vec<u32>,
    pub(crate) count: u32,
}

impl Components {
    /// The number of a node's component; a number that none has, where there is no such node.
    pub(crate) fn number(&self, node: u32) -> usize {
        match self.numbers.get(node as usize) {
            Some(number) => *number as usize,
            None => usize::MAX,
        }
    }
}

impl Drop for Components {
    fn drop(self) {
        let Components {
            numbers: _,
            order: _,
            count: _,
        } = self;
    }
}

/// A node on the way down, and how many of those below it were looked at.
#[derive(Clone, Copy, Drop)]
struct Turn {
    node: u32,
    /// The number of nodes that were visited up to it.
    met: u32,
    next: usize,
}

/// A walk down a graph.
struct Walk {
    /// By node, the least visit number among nodes without a component that it is known to lead to; 0 for a node that
    /// is not visited yet.
    low: Vec<u32>,
    /// How many nodes are visited.
    met: u32,
    /// The visited nodes that have no component yet.
    open: Vec<u32>,
    /// The way down to a node.
    way: Vec<Turn>,
    components: Components,
}

impl Drop for Walk {
    fn drop(self) {
        let Walk {
            low: _,
            met: _,
            open: _,
            way: _,
            components: _,
        } = self;
    }
}

/// A list with this number of copies of a number.
fn repeated(alloc: Global, number: u32, count: usize) -> Result<Vec<u32>, AllocError> {
    let mut numbers = Vec::with_capacity(alloc, count)?;
    for _ in 0..count {
        numbers.push(number)?;
    }
    Ok(numbers)
}

/// The node at a place among those below a node.
fn node_below(below: &[Vec<u32>], node: u32, place: usize) -> Option<u32> {
    match below.get(node as usize) {
        Some(nodes) => nodes.get(place).copied(),
        None => None,
    }
}

impl Walk {
    /// A walk of a graph with this number of nodes, which has not begun.
    fn new(alloc: Global, count: usize) -> Result<Walk, AllocError> {
        let low = repeated(alloc, 0, count)?;
        Ok(Walk {
            low,
            met: 0,
            open: Vec::new(alloc),
            way: Vec::new(alloc),
            components: Components {
                numbers: repeated(alloc, 0, count)?,
                order: Vec::new(alloc),
                count: 0,
            },
        })
    }

    /// The mark of a node.
    fn low(&self, node: u32) -> u32 {
        self.low.get(node as usize).copied().unwrap_or(CLOSED)
    }

    /// Gives a node a mark.
    fn set_low(&mut self, node: u32, low: u32) {
        if let Some(own) = self.low.get_mut(node as usize) {
            *own = low;
        }
    }

    /// Visits a node for the first time.
    fn enter(&mut self, node: u32) -> Result<(), AllocError> {
        self.met = self.met.saturating_add(1);
        let met = self.met;
        self.set_low(node, met);
        self.open.push(node)?;
        let next = 0;
        self.way.push(Turn { node, met, next })?;
        Ok(())
    }

    /// Makes a component of its root and of the nodes that were visited later and have none.
    fn close(&mut self, node: u32) -> Result<(), AllocError> {
        let number = self.components.count;
        self.components.count = number.saturating_add(1);
        for _ in 0..u64::MAX {
            let Some(last) = self.open.pop() else {
                break;
            };
            self.set_low(last, CLOSED);
            if let Some(own) = self.components.numbers.get_mut(last as usize) {
                *own = number;
            }
            self.components.order.push(last)?;
            if last == node {
                break;
            }
        }
        Ok(())
    }

    /// Ends the visit of a node, all below which are visited, and closes the component that it is the root of.
    fn leave(&mut self, turn: Turn) -> Result<(), AllocError> {
        if self.low(turn.node) == turn.met {
            self.close(turn.node)?;
        }
        let _ = self.way.pop();
        if let Some(outer) = self.way.last().copied() {
            let low = self.low(turn.node).min(self.low(outer.node));
            self.set_low(outer.node, low);
        }
        Ok(())
    }

    /// Looks at a node below the last one of the way.
    fn look(&mut self, turn: Turn, inner: u32) -> Result<(), AllocError> {
        if let Some(last) = self.way.last_mut() {
            last.next = turn.next.saturating_add(1);
        }
        let low = self.low(inner);
        if low == 0 {
            return self.enter(inner);
        }
        let least = low.min(self.low(turn.node));
        self.set_low(turn.node, least);
        Ok(())
    }

    /// Walks down from a node, and back.
    fn walk(&mut self, below: &[Vec<u32>], node: u32) -> Result<(), AllocError> {
        if self.low(node) != 0 {
            return Ok(());
        }
        self.enter(node)?;
        for _ in 0..u64::MAX {
            let Some(turn) = self.way.last().copied() else {
                break;
            };
            match node_below(below, turn.node, turn.next) {
                Some(inner) => self.look(turn, inner)?,
                None => self.leave(turn)?,
            }
        }
        Ok(())
    }

    /// The components that were found.
    fn into_components(self) -> Components {
        let Walk {
            low: _,
            met: _,
            open: _,
            way: _,
            components,
        } = self;
        components
    }
}

/// The components of a graph, of whose nodes each leads to those below it. It takes time linear in the graph.
pub(crate) fn components_of(alloc: Global, below: &[Vec<u32>]) -> Result<Components, AllocError> {
    let mut walk = Walk::new(alloc, below.len())?;
    for place in 0..below.len() {
        let Ok(node) = u32::try_from(place) else {
            return Err(AllocError);
        };
        walk.walk(below, node)?;
    }
    Ok(walk.into_components())
}
