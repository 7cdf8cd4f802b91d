//! The word, read off the values.
//!
//! From a configuration the word goes on by the least rank whose successor has a value less than the steps that are
//! left. Where all items are taken up to the steps of the least word, the values on the way are exact as far as steps
//! are left: so what is taken is never taken back, and the word is the least.
ghost use Rattle.std.specs.Prelude.{OnOk};
ghost use Rattle.call_nodes.specs.Nodes.{AreNodes};

use crate::values::{Values, lift_first};
use crate::whole::WholeCalls;
use call_nodes::{CallNodes, Operator};
use call_table::Site;
use htn_task::Task;
use indexmap::IndexMap;
use std::alloc::{AllocError, Global};

/// A word so far, and where it leads.
#[derive(Drop)]
pub(crate) struct Trail {
    alloc: Global,
    values: Values,
    word: Vec<u64>,
    /// The state and the list of nodes that are open.
    at: Site,
    /// The steps that are left.
    left: u32,
}

/// The list of the instance of a rank of a compound task.
fn instance_at(nodes: &CallNodes<'_>, node: u32, rank: usize) -> Option<u32> {
    match nodes.operator(node) {
        Some(Operator::Task(instances)) => instances.get(rank).copied(),
        _ => None,
    }
}

impl Trail {
    /// Nothing is read yet of a word of this many steps from the initial state.
    pub(crate) fn new(alloc: Global, values: Values, steps: u32) -> Trail {
        Trail {
            alloc,
            values,
            word: Vec::new(alloc),
            at: Site {
                state: 0,
                number: 0,
            },
            left: steps,
        }
    }

    /// Takes the first list of the start whose value is within the steps. Whether there is one. The values of those
    /// behind it are found too, where their sizes don't show that they take as many steps.
    pub(crate) fn start(
        &mut self,
        task: &Task,
        whole: &mut WholeCalls,
        nodes: &mut CallNodes<'_>,
        starts: &[u32],
    ) -> Result<bool, AllocError>
        requires { AreNodes task.now nodes.old }
        ensures { OnOk result (AreNodes task.now nodes.new) }
    {
        let state = self.at.state;
        for (rank, list) in starts.iter().enumerate() {
            let number = *list;
            if nodes.lists().nodes(number) > u64::from(self.left) {
                continue;
            }
            let site = Site { state, number };
            let value = self.values.value(task, whole, nodes, site)?;
            if value <= self.left && self.word.is_empty() {
                self.at = site;
                self.word.push(rank as u64)?;
            }
        }
        Ok(!self.word.is_empty())
    }

    /// Goes on by a rank to a list in a state.
    fn go(&mut self, rank: usize, site: Site) -> Result<(), AllocError> {
        self.word.push(rank as u64)?;
        self.at = site;
        self.left = self.left.saturating_sub(1);
        Ok(())
    }

    /// The list that an instance before others leads to, if its value is less than the steps that are left. It has a
    /// number either way, by which a check finds it.
    fn decomposed(
        &mut self,
        task: &Task,
        whole: &mut WholeCalls,
        nodes: &mut CallNodes<'_>,
        instance: u32,
        rest: u32,
    ) -> Result<Option<Site>, AllocError>
        requires { AreNodes task.now nodes.old }
        ensures { OnOk result (AreNodes task.now nodes.new) }
    {
        let number = nodes.append(self.alloc, instance, rest)?;
        if nodes.lists().nodes(number) >= u64::from(self.left) {
            return Ok(None);
        }
        let state = self.at.state;
        let site = Site { state, number };
        let value = self.values.value(task, whole, nodes, site)?;
        if value < self.left {
            return Ok(Some(site));
        }
        Ok(None)
    }

    /// Decomposes the first node by the least rank that leads on. Whether there is one.
    fn decompose(
        &mut self,
        task: &Task,
        whole: &mut WholeCalls,
        nodes: &mut CallNodes<'_>,
        node: u32,
        rest: u32,
    ) -> Result<bool, AllocError>
        requires { AreNodes task.now nodes.old }
        ensures { OnOk result (AreNodes task.now nodes.new) }
    {
        for rank in 0..usize::MAX {
            let Some(instance) = instance_at(nodes, node, rank) else {
                return Ok(false);
            };
            if let Some(site) = self.decomposed(task, whole, nodes, instance, rest)? {
                self.go(rank, site)?;
                return Ok(true);
            }
        }
        Ok(false)
    }

    /// Takes a step. Whether one leads on.
    fn step(
        &mut self,
        task: &Task,
        whole: &mut WholeCalls,
        nodes: &mut CallNodes<'_>,
    ) -> Result<bool, AllocError>
        requires { AreNodes task.now nodes.old }
        ensures { OnOk result (AreNodes task.now nodes.new) }
    {
        let Some(link) = nodes.lists().link(self.at.number) else {
            return Ok(false);
        };
        let _lifted = lift_first(task, whole, nodes, self.at)?;
        if let Some(Operator::Task(_)) = nodes.operator(link.first) {
            return self.decompose(task, whole, nodes, link.first, link.rest);
        }
        let inner = Site {
            state: self.at.state,
            number: link.first,
        };
        let Some(call) = whole.lifted.calls.get(&inner) else {
            return Ok(false);
        };
        let Some(exit) = call.exits.first() else {
            return Ok(false);
        };
        let site = Site {
            state: exit.state,
            number: link.rest,
        };
        self.go(0, site)?;
        Ok(true)
    }

    /// The values that are known, and the word.
    pub(crate) fn into_parts(self) -> (IndexMap<Site, u32>, Vec<u64>) {
        let Trail {
            alloc: _,
            values,
            word,
            at: _,
            left: _,
        } = self;
        let Values {
            known,
            pending: _,
            left: _,
        } = values;
        (known, word)
    }

    /// Takes all steps. Whether each leads on, and to no node at last.
    pub(crate) fn finish(
        &mut self,
        task: &Task,
        whole: &mut WholeCalls,
        nodes: &mut CallNodes<'_>,
    ) -> Result<bool, AllocError>
        requires { AreNodes task.now nodes.old }
        ensures { OnOk result (AreNodes task.now nodes.new) }
    {
        for _ in 0..self.left {
            if !self.step(task, whole, nodes)? {
                return Ok(false);
            }
        }
        Ok(nodes.lists().link(self.at.number).is_none())
    }
}
