//! How many steps are left at least, by calls in whole states.
ghost use Rattle.std.specs.Prelude.{OnOk};
ghost use Rattle.call_nodes.specs.Nodes.{AreNodes};

use crate::chart::is_goal;
use crate::found::OUT_OF_REACH;
use crate::whole::WholeCalls;
use call_nodes::CallNodes;
use call_table::{Exit, Site};
use htn_task::Task;
use indexmap::IndexMap;
use std::alloc::{AllocError, Global};

/// The values of lists of nodes in states, those that were asked for and those that they rest on. The value of the
/// empty list is 0 where the goal holds, and else out of reach. That of another list is at least its size, and at
/// least what follows from the call of its first node: its floor and the size of the others, or the cost of one of
/// its exits and the value of the others there.
#[derive(Drop)]
pub(crate) struct Values {
    pub(crate) known: IndexMap<Site, u32>,
    /// Sites that were asked for, each before those that it rests on.
    pub(crate) pending: Vec<Site>,
    /// How many times sites may still be settled or asked for, and rules and exits lifted. Then what is not known is
    /// taken for 0.
    pub(crate) left: u64,
}

/// A number of steps, at most `OUT_OF_REACH`.
fn capped(steps: u64) -> u32 {
    u32::try_from(steps)
        .unwrap_or(OUT_OF_REACH)
        .min(OUT_OF_REACH)
}

impl Values {
    /// No value is known.
    pub(crate) fn new(alloc: Global, left: u64) -> Values {
        Values {
            known: IndexMap::new(alloc),
            pending: Vec::new(alloc),
            left,
        }
    }

    /// The least cost of an exit with the value of a list there, where that is below a number of steps; else that
    /// number. None where it is not known yet: then further values are asked for, at most one more than are known, so
    /// that exits that cost much are not asked for in vain. The list has this many nodes at least.
    fn least(
        &mut self,
        exits: &[Exit],
        list: u32,
        nodes: u64,
        most: u64,
    ) -> Result<Option<u64>, AllocError> {
        let mut least = most;
        let (mut may_ask, mut asked) = (1u64, 0u64);
        for exit in exits {
            let cost = u64::from(exit.cost);
            if cost.saturating_add(nodes) >= least {
                continue;
            }
            let site = Site {
                state: exit.state,
                number: list,
            };
            if let Some(value) = self.known.get(&site).copied() {
                least = least.min(cost.saturating_add(u64::from(value)));
                may_ask = may_ask.saturating_add(1);
            } else if asked < may_ask {
                self.left = self.left.saturating_sub(1);
                self.pending.push(site)?;
                asked = asked.saturating_add(1);
            }
        }
        Ok(if asked == 0 { Some(least) } else { None })
    }

    /// The value of a site, if all that it rests on is known; else that is asked for.
    fn settled(
        &mut self,
        whole: &WholeCalls,
        nodes: &CallNodes<'_>,
        site: Site,
    ) -> Result<Option<u32>, AllocError> {
        let lists = nodes.lists();
        let Some(link) = lists.link(site.number) else {
            let is_done = is_goal(nodes, site.state);
            return Ok(Some(if is_done { 0 } else { OUT_OF_REACH }));
        };
        let inner = Site {
            state: site.state,
            number: link.first,
        };
        let Some(call) = whole.lifted.calls.get(&inner) else {
            return Ok(Some(capped(link.nodes)));
        };
        let behind = lists.nodes(link.rest);
        let elsewhere = u64::from(call.floor).saturating_add(behind);
        let Some(least) = self.least(&call.exits, link.rest, behind, elsewhere)? else {
            return Ok(None);
        };
        Ok(Some(capped(least.max(link.nodes))))
    }

    /// Settles the site that was asked for last, or asks for what it rests on.
    fn settle(
        &mut self,
        task: &Task,
        whole: &mut WholeCalls,
        nodes: &mut CallNodes<'_>,
        site: Site,
    ) -> Result<(), AllocError>
        requires { AreNodes task.now nodes.old }
        ensures { OnOk result (AreNodes task.now nodes.new) }
    {
        if self.known.contains_key(&site) {
            let _ = self.pending.pop();
            return Ok(());
        }
        let lifted = lift_first(task, whole, nodes, site)?;
        self.left = self.left.saturating_sub(lifted as u64);
        if let Some(value) = self.settled(whole, nodes, site)? {
            self.known.insert(site, value)?;
            let _ = self.pending.pop();
        }
        Ok(())
    }

    /// The value of a site.
    pub(crate) fn value(
        &mut self,
        task: &Task,
        whole: &mut WholeCalls,
        nodes: &mut CallNodes<'_>,
        site: Site,
    ) -> Result<u32, AllocError>
        requires { AreNodes task.now nodes.old }
        ensures { OnOk result (AreNodes task.now nodes.new) }
    {
        self.pending.clear();
        self.pending.push(site)?;
        for _ in 0..self.left {
            let Some(last) = self.pending.last().copied() else {
                break;
            };
            if self.left == 0 {
                break;
            }
            self.left = self.left.saturating_sub(1);
            self.settle(task, whole, nodes, last)?;
        }
        Ok(self.known.get(&site).copied().unwrap_or(0))
    }
}

/// Sees that the call of the first node of a list in a state is lifted. Returns how many rules and exits that took.
pub(crate) fn lift_first(
    task: &Task,
    whole: &mut WholeCalls,
    nodes: &mut CallNodes<'_>,
    site: Site,
) -> Result<usize, AllocError>
    requires { AreNodes task.now nodes.old }
    ensures { OnOk result (AreNodes task.now nodes.new) }
{
    let Some(link) = nodes.lists().link(site.number) else {
        return Ok(0);
    };
    let inner = Site {
        state: site.state,
        number: link.first,
    };
    whole.lift(task, nodes, inner)
}
