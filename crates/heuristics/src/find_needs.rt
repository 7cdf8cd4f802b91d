//! Rows for the nodes of decompositions: what compound tasks give is the least fixed point, and what they want the
//! greatest. The rows have no contract, since [`Needs::of`] checks them.

use crate::leaves::Leaves;
use crate::marks::is_marked;
use crate::rows::{Row, Rows};
use htn_ground::{Child, GroundTask};
use htn_order::Order;
use htn_task::{Literal, Task};
use indexmap::IndexSet;
use std::alloc::{AllocError, Global};
use std::mem;
use task_graph::{Decomposition, TaskGraph};

/// The most passes over the decompositions, to find what compound tasks give and what they want.
const MOST_ROUNDS: usize = 1_000;

/// The most marks that the rows have together.
const MOST_MARKS: usize = 1 << 26;

/// The most pairs of nodes of one decomposition, added over all decompositions: the search compares pairs to find
/// whether a network needs a literal.
const MOST_PAIRS: usize = 1 << 22;

/// A node by its number among the compound tasks, or among the others.
#[derive(Clone, Copy, Drop)]
enum Node {
    Task(u32),
    Leaf(u32),
}

/// The state of the search for rows.
struct Search {
    leaves: Leaves,
    /// By decomposition, the number of its task.
    owners: Vec<u32>,
    /// By decomposition, its nodes.
    nodes: Vec<Vec<Node>>,
    /// By task, the marks of the literals that it gives.
    gives: Vec<Vec<u64>>,
    /// By task, the literals that it wants; None until the search has found a decomposition tree of the task.
    wants: Vec<Option<Vec<u32>>>,
}

// `Drop` is written by hand: a derived one is expanded, and proved, at each way out of each owner.
impl Drop for Search {
    fn drop(self) {
        let Search {
            leaves: _,
            owners: _,
            nodes: _,
            gives: _,
            wants: _,
        } = self;
    }
}

/// The number of a compound task; past all others if it has none.
fn task_number(tasks: &IndexSet<GroundTask>, goal: &GroundTask) -> u32 {
    match tasks.get_index_of(goal) {
        Some(number) => u32::try_from(number).unwrap_or(u32::MAX),
        None => u32::MAX,
    }
}

/// The number of pairs of nodes of one decomposition, added over all decompositions.
fn pairs_in(decompositions: &[Decomposition]) -> usize {
    let mut pairs = 0usize;
    for decomposition in decompositions {
        let nodes = decomposition.nodes.len();
        pairs = pairs.saturating_add(nodes.saturating_mul(nodes));
    }
    pairs
}

/// The numbers that two lists have in common, in the order of the first.
fn common(alloc: Global, numbers: &[u32], others: &[u32]) -> Result<Vec<u32>, AllocError> {
    let mut both = Vec::new(alloc);
    for number in numbers {
        if others.contains(number) {
            both.push(*number)?;
        }
    }
    Ok(both)
}

/// Marks at these numbers, with room for as many as there are literals.
fn marks_of(alloc: Global, literals: usize, numbers: &[u32]) -> Result<Vec<u64>, AllocError> {
    let mut marks = vec![in alloc; 0; literals / 64 + 1]?;
    let _ = set_marks(&mut marks, numbers);
    Ok(marks)
}

/// Sets the marks of some numbers, and returns whether one of them was not set before.
fn set_marks(marks: &mut [u64], numbers: &[u32]) -> bool {
    let mut is_more = false;
    for number in numbers {
        if let Some(word) = marks.get_mut((*number / 64) as usize) {
            let mark = 1 << (*number % 64);
            is_more |= *word & mark == 0;
            *word |= mark;
        }
    }
    is_more
}

/// Sets the marks that others have, and returns whether one of them was not set before.
fn join_marks(marks: &mut [u64], others: &[u64]) -> bool {
    let mut is_more = false;
    for (word, other) in marks.iter_mut().zip(others) {
        is_more |= *other & !*word != 0;
        *word |= *other;
    }
    is_more
}

/// Sets all marks, and returns whether one of them was not set before.
fn set_all(marks: &mut [u64]) -> bool {
    let mut is_more = false;
    for word in marks.iter_mut() {
        is_more |= *word != u64::MAX;
        *word = u64::MAX;
    }
    is_more
}

impl Search {
    /// A search without decompositions.
    fn empty(alloc: Global) -> Search {
        Search {
            leaves: Leaves::new(alloc),
            owners: Vec::new(alloc),
            nodes: Vec::new(alloc),
            gives: Vec::new(alloc),
            wants: Vec::new(alloc),
        }
    }

    /// A node of a decomposition by its number.
    fn node_of(
        &mut self,
        alloc: Global,
        task: &Task,
        graph: &TaskGraph,
        tasks: &IndexSet<GroundTask>,
        child: &Child,
    ) -> Result<Node, AllocError> {
        match child {
            Child::Task(goal) => Ok(Node::Task(task_number(tasks, goal))),
            Child::Precondition(_) | Child::Action(_) => {
                let number = self.leaves.meet(alloc, task, graph, child)?;
                Ok(Node::Leaf(number))
            }
        }
    }

    /// Adds a decomposition.
    fn add(
        &mut self,
        alloc: Global,
        task: &Task,
        graph: &TaskGraph,
        tasks: &IndexSet<GroundTask>,
        decomposition: &Decomposition,
    ) -> Result<(), AllocError> {
        let mut numbers = Vec::new(alloc);
        for child in decomposition.children.as_slice() {
            let node = self.node_of(alloc, task, graph, tasks, child)?;
            numbers.push(node)?;
        }
        self.nodes.push(numbers)?;
        let owner = match graph.task(decomposition.task) {
            Some(goal) => task_number(tasks, goal),
            None => u32::MAX,
        };
        self.owners.push(owner)?;
        Ok(())
    }

    /// The search over the nodes of all decompositions.
    fn new(
        alloc: Global,
        task: &Task,
        graph: &TaskGraph,
        tasks: &IndexSet<GroundTask>,
    ) -> Result<Search, AllocError> {
        let mut search = Search::empty(alloc);
        for decomposition in graph.decompositions() {
            search.add(alloc, task, graph, tasks, decomposition)?;
        }
        Ok(search)
    }

    /// The number of the task of a decomposition.
    fn owner(&self, place: usize) -> u32 {
        self.owners.get(place).copied().unwrap_or(u32::MAX)
    }

    /// Whether a node gives the literal of a number.
    fn gives(&self, node: Node, literal: u32) -> bool {
        match node {
            Node::Leaf(number) => match self.leaves.gives.get(number as usize) {
                Some(given) => given.contains(&literal),
                None => true,
            },
            Node::Task(number) => match self.gives.get(number as usize) {
                Some(marks) => is_marked(marks, literal as usize),
                None => true,
            },
        }
    }

    /// Adds the literals that a node gives to those of a task, and returns whether that added any.
    fn join(&self, marks: &mut [u64], node: Node) -> bool {
        match node {
            Node::Leaf(number) => match self.leaves.gives.get(number as usize) {
                Some(given) => set_marks(marks, given),
                None => set_all(marks),
            },
            Node::Task(number) => match self.gives.get(number as usize) {
                Some(given) => join_marks(marks, given),
                None => set_all(marks),
            },
        }
    }

    /// Adds the literals that the nodes of an instance give to those of the task, and returns whether that added any.
    fn join_instance(&mut self, alloc: Global, task: u32, instance: usize) -> bool {
        let Some(own) = self.gives.get_mut(task as usize) else {
            return false;
        };
        let mut marks = mem::replace(own, Vec::new(alloc));
        let mut is_more = false;
        if let Some(nodes) = self.nodes.get(instance) {
            for node in nodes {
                is_more |= self.join(&mut marks, *node);
            }
        }
        if let Some(own) = self.gives.get_mut(task as usize) {
            *own = marks;
        }
        is_more
    }

    /// Finds the literals that compound tasks give: the least fixed point, by passes that begin with none.
    fn find_gives(&mut self, alloc: Global, tasks: usize) -> Result<(), AllocError> {
        let literals = self.leaves.literals.len();
        for _ in 0..tasks {
            self.gives.push(marks_of(alloc, literals, &[])?)?;
        }
        for _ in 0..MOST_ROUNDS {
            let mut is_more = false;
            for place in (0..self.nodes.len()).rev() {
                is_more |= self.join_instance(alloc, self.owner(place), place);
            }
            if !is_more {
                break;
            }
        }
        Ok(())
    }

    /// The literals that a node wants; None for a compound task without a known decomposition tree.
    fn wants(&self, node: Node) -> Option<&[u32]> {
        match node {
            Node::Leaf(number) => match self.leaves.wants.get(number as usize) {
                Some(wants) => Some(wants),
                None => Some(&[]),
            },
            Node::Task(number) => match self.wants.get(number as usize) {
                Some(Some(wants)) => Some(wants),
                Some(None) => None,
                None => Some(&[]),
            },
        }
    }

    /// Whether no node may make a literal true for the one at a position.
    fn is_ungiven(&self, nodes: &[Node], order: &Order, at: usize, literal: u32) -> bool {
        for (position, node) in nodes.iter().enumerate() {
            if position != at && !order.is_before(at, position) && self.gives(*node, literal) {
                return false;
            }
        }
        true
    }

    /// The literals that an instance needs; None where one of its nodes has no known decomposition tree.
    fn needs(
        &self,
        alloc: Global,
        nodes: &[Node],
        order: &Order,
    ) -> Result<Option<Vec<u32>>, AllocError> {
        let mut needs = Vec::new(alloc);
        for (at, node) in nodes.iter().enumerate() {
            let Some(wants) = self.wants(*node) else {
                return Ok(None);
            };
            for literal in wants {
                if !needs.contains(literal) && self.is_ungiven(nodes, order, at, *literal) {
                    needs.push(*literal)?;
                }
            }
        }
        Ok(Some(needs))
    }

    /// Intersects the literals that a task wants with those that an instance of it needs, where all literals stand for
    /// a task without a known decomposition tree, and returns whether that changed them.
    fn lower(&mut self, alloc: Global, task: u32, needs: Vec<u32>) -> Result<bool, AllocError> {
        let Some(own) = self.wants.get_mut(task as usize) else {
            return Ok(false);
        };
        let Some(wants) = own else {
            *own = Some(needs);
            return Ok(true);
        };
        let both = common(alloc, wants, &needs)?;
        let is_less = both.len() < wants.len();
        *own = Some(both);
        Ok(is_less)
    }

    /// Finds the literals that compound tasks want: the greatest fixed point, by passes that begin with all.
    fn find_wants(
        &mut self,
        alloc: Global,
        graph: &TaskGraph,
        tasks: usize,
    ) -> Result<(), AllocError> {
        for _ in 0..tasks {
            self.wants.push(None)?;
        }
        for _ in 0..MOST_ROUNDS {
            let mut is_less = false;
            for (place, decomposition) in graph.decompositions().iter().enumerate().rev() {
                let Some(nodes) = self.nodes.get(place) else {
                    continue;
                };
                if let Some(needs) = self.needs(alloc, nodes, &decomposition.order)? {
                    is_less |= self.lower(alloc, self.owner(place), needs)?;
                }
            }
            if !is_less {
                break;
            }
        }
        Ok(())
    }

    /// Whether marks and pairs of nodes are within their limits.
    fn fits(&self, graph: &TaskGraph, tasks: usize) -> bool {
        let rows = tasks.saturating_add(self.leaves.leaves.len());
        rows.saturating_mul(self.leaves.literals.len()) <= MOST_MARKS
            && pairs_in(graph.decompositions()) <= MOST_PAIRS
    }

    /// The literals of these numbers.
    fn literals_of(&self, alloc: Global, numbers: &[u32]) -> Result<Vec<Literal>, AllocError> {
        let mut literals = Vec::new(alloc);
        for number in numbers {
            if let Some(literal) = self.leaves.literals.get_index(*number as usize) {
                literals.push(literal.clone()?)?;
            }
        }
        Ok(literals)
    }

    /// The row of a compound task.
    fn task_row(&self, alloc: Global, number: usize) -> Result<Row, AllocError> {
        let mut gives = Vec::new(alloc);
        if let Some(marks) = self.gives.get(number) {
            gives.extend_from_slice(marks)?;
        }
        match self.wants.get(number) {
            Some(Some(wants)) => Ok(Row {
                wants: self.literals_of(alloc, wants)?,
                gives,
                is_blocked: false,
            }),
            _ => Ok(Row {
                wants: Vec::new(alloc),
                gives,
                is_blocked: true,
            }),
        }
    }

    /// The row of a step or an action.
    fn leaf_row(&self, alloc: Global, number: usize) -> Result<Row, AllocError> {
        let wants = match self.leaves.wants.get(number) {
            Some(wants) => self.literals_of(alloc, wants)?,
            None => Vec::new(alloc),
        };
        let gives = match self.leaves.gives.get(number) {
            Some(given) => marks_of(alloc, self.leaves.literals.len(), given)?,
            None => Vec::new(alloc),
        };
        Ok(Row {
            wants,
            gives,
            is_blocked: false,
        })
    }

    /// The rows of the compound tasks.
    fn task_rows(&self, alloc: Global, tasks: usize) -> Result<Vec<Row>, AllocError> {
        let mut rows = Vec::new(alloc);
        for number in 0..tasks {
            let row = self.task_row(alloc, number)?;
            rows.push(row)?;
        }
        Ok(rows)
    }

    /// The rows of the other nodes.
    fn leaf_rows(&self, alloc: Global) -> Result<Vec<Row>, AllocError> {
        let mut rows = Vec::new(alloc);
        for number in 0..self.leaves.leaves.len() {
            let row = self.leaf_row(alloc, number)?;
            rows.push(row)?;
        }
        Ok(rows)
    }

    /// The rows of all nodes.
    fn rows(self, alloc: Global, tasks: usize) -> Result<Rows, AllocError> {
        let task_rows = self.task_rows(alloc, tasks)?;
        let leaf_rows = self.leaf_rows(alloc)?;
        let Search {
            leaves,
            owners: _,
            nodes: _,
            gives: _,
            wants: _,
        } = self;
        let (literals, leaves) = leaves.into_sets();
        Ok(Rows {
            literals,
            task_rows,
            leaves,
            leaf_rows,
        })
    }
}

/// Rows for these compound tasks, and for the other nodes of decompositions; none at all where they would be too large.
pub(crate) fn find_rows(
    alloc: Global,
    task: &Task,
    graph: &TaskGraph,
    tasks: &IndexSet<GroundTask>,
) -> Result<Rows, AllocError> {
    let mut search = Search::new(alloc, task, graph, tasks)?;
    if !search.fits(graph, tasks.len()) {
        return Ok(Rows::none(alloc));
    }
    search.find_gives(alloc, tasks.len())?;
    search.find_wants(alloc, graph, tasks.len())?;
    search.rows(alloc, tasks.len())
}
