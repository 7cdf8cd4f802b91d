//! Calls in whole states, lifted from a table of calls in parts as they are asked for.
ghost use Rattle.std.specs.Prelude.{OnOk};
ghost use Rattle.call_nodes.specs.Nodes.{AreNodes};

use crate::masks::Masks;
use crate::parts::{lifted_of, part_of};
use call_nodes::CallNodes;
use call_table::{Call, CallTable, Exit, Rule, Site};
use htn_task::Task;
use indexmap::IndexMap;
use std::alloc::{AllocError, Global};

/// A table of calls in parts, and the calls in whole states that were asked for.
pub(crate) struct WholeCalls {
    alloc: Global,
    masks: Masks,
    framed: CallTable,
    pub(crate) lifted: CallTable,
}

impl Drop for WholeCalls {
    fn drop(self) {
        let WholeCalls {
            alloc: _,
            masks: _,
            framed: _,
            lifted: _,
        } = self;
    }
}

impl WholeCalls {
    /// No call is asked for yet.
    pub(crate) fn new(alloc: Global, masks: Masks, framed: CallTable) -> WholeCalls {
        let calls = IndexMap::new(alloc);
        WholeCalls {
            alloc,
            masks,
            framed,
            lifted: CallTable { calls },
        }
    }

    /// The masks, the calls in parts and those in whole states.
    pub(crate) fn into_parts(self) -> (Masks, CallTable, CallTable) {
        let WholeCalls {
            alloc: _,
            masks,
            framed,
            lifted,
        } = self;
        (masks, framed, lifted)
    }

    /// The call of a node in a part of a state.
    fn framed_call(&self, part: u32, number: u32) -> Option<&Call> {
        let state = part;
        self.framed.calls.get(&Site { state, number })
    }

    /// The whole state of which the part in a node's frame is now another one. What was its part leads to itself.
    fn state_in(
        &self,
        task: &Task,
        nodes: &mut CallNodes<'_>,
        site: Site,
        part: u32,
        other: u32,
    ) -> Result<u32, AllocError>
        requires { AreNodes task.now nodes.old }
        ensures { OnOk result (AreNodes task.now nodes.new) }
    {
        if other == part {
            return Ok(site.state);
        }
        lifted_of(task, nodes, &self.masks, site, other)
    }

    /// The exits of a call in a whole state.
    fn exits_in(
        &self,
        task: &Task,
        nodes: &mut CallNodes<'_>,
        site: Site,
        part: u32,
        call: &Call,
    ) -> Result<Vec<Exit>, AllocError>
        requires { AreNodes task.now nodes.old }
        ensures { OnOk result (AreNodes task.now nodes.new) }
    {
        let mut exits = Vec::with_capacity(self.alloc, call.exits.len())?;
        for exit in &call.exits {
            let cost = exit.cost;
            let state = self.state_in(task, nodes, site, part, exit.state)?;
            exits.push(Exit { state, cost })?;
        }
        Ok(exits)
    }

    /// The rules of a call in a whole state.
    fn rules_in(
        &self,
        task: &Task,
        nodes: &mut CallNodes<'_>,
        site: Site,
        part: u32,
        call: &Call,
    ) -> Result<Vec<Rule>, AllocError>
        requires { AreNodes task.now nodes.old }
        ensures { OnOk result (AreNodes task.now nodes.new) }
    {
        let mut rules = Vec::with_capacity(self.alloc, call.rules.len())?;
        for rule in &call.rules {
            let blocks = rule.blocks;
            let state = self.state_in(task, nodes, site, part, rule.state)?;
            rules.push(Rule { state, blocks })?;
        }
        Ok(rules)
    }

    /// The call of a node in a whole state; none where there is none in the part.
    fn made(
        &self,
        task: &Task,
        nodes: &mut CallNodes<'_>,
        site: Site,
    ) -> Result<Option<Call>, AllocError>
        requires { AreNodes task.now nodes.old }
        ensures { OnOk result (AreNodes task.now nodes.new) }
    {
        let part = part_of(self.alloc, task, nodes, &self.masks, site)?;
        let Some(call) = self.framed_call(part, site.number) else {
            return Ok(None);
        };
        let rules = self.rules_in(task, nodes, site, part, call)?;
        let exits = self.exits_in(task, nodes, site, part, call)?;
        Ok(Some(Call {
            rules,
            exits,
            floor: call.floor,
            places: Vec::new(self.alloc),
        }))
    }

    /// Sees that the call of a node in a whole state is lifted, if there is one in the part. Returns how many rules and
    /// exits that took.
    pub(crate) fn lift(
        &mut self,
        task: &Task,
        nodes: &mut CallNodes<'_>,
        site: Site,
    ) -> Result<usize, AllocError>
        requires { AreNodes task.now nodes.old }
        ensures { OnOk result (AreNodes task.now nodes.new) }
    {
        if self.lifted.calls.contains_key(&site) {
            return Ok(0);
        }
        let Some(call) = self.made(task, nodes, site)? else {
            return Ok(0);
        };
        let count = call.rules.len().saturating_add(call.exits.len());
        self.lifted.calls.insert(site, call)?;
        Ok(count)
    }
}
