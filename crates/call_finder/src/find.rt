//! The finder.
ghost use Rattle.std.specs.Prelude.{OnOk};
ghost use Rattle.call_nodes.specs.Nodes.{AreNodes};

use crate::chart::{Chart, Progress};
use crate::found::Found;
use crate::masks::Masks;
use crate::table::table_of;
use crate::trail::Trail;
use crate::values::Values;
use crate::whole::WholeCalls;
use call_nodes::CallNodes;
use htn_task::Task;
use std::alloc::{AllocError, Global};

/// How many values may be settled or looked up for each item that was met.
const READING: u64 = 16;

/// The word that a search ended with, its calls in whole states, and the values that it needs.
fn read(
    alloc: Global,
    task: &Task,
    nodes: &mut CallNodes<'_>,
    calls: WholeCalls,
    trail: Trail,
    starts: &[u32],
) -> Result<Option<Found>, AllocError>
    requires { AreNodes task.now nodes.old }
    ensures { OnOk result (AreNodes task.now nodes.new) }
{
    let mut lifted = calls;
    let mut reader = trail;
    if !reader.start(task, &mut lifted, nodes, starts)? {
        return Ok(None);
    }
    if !reader.finish(task, &mut lifted, nodes)? {
        return Ok(None);
    }
    let (values, word) = reader.into_parts();
    let (masks, table, whole) = lifted.into_parts();
    let frames = masks.into_frames(alloc, nodes)?;
    Ok(Some(Found {
        frames,
        table,
        whole,
        values,
        word,
    }))
}

/// A search for a word of fewest steps that finishes, by calls in frames.
#[derive(Drop)]
pub struct Finder {
    alloc: Global,
    /// The lists of the initial networks.
    starts: Vec<u32>,
    chart: Chart,
}

impl Finder {
    /// A search that has not begun, for a word of at most `steps` steps. None where an initial network is not totally
    /// ordered. Calls are in frames where at most `most_nodes` nodes are below the start, and else in whole states. The
    /// nodes and states that it meets get numbers.
    pub fn new(
        alloc: Global,
        task: &Task,
        nodes: &mut CallNodes<'_>,
        steps: u32,
        most_nodes: usize,
    ) -> Result<Option<Finder>, AllocError>
        requires { AreNodes task.now nodes.old }
        ensures { OnOk result (AreNodes task.now nodes.new) }
    {
        let Some(starts) = nodes.starts(alloc, task)? else {
            return Ok(None);
        };
        let masks = Masks::of(alloc, task, nodes, &starts, most_nodes)?;
        let mut chart = Chart::new(alloc, steps, masks);
        chart.start(nodes.lists(), &starts)?;
        Ok(Some(Finder {
            alloc,
            starts,
            chart,
        }))
    }

    /// Continues until the number of steps of the word is known, or until more than this number of items were met; one
    /// that is met again counts again.
    pub fn advance(
        &mut self,
        task: &Task,
        nodes: &mut CallNodes<'_>,
        most_work: u64,
    ) -> Result<Progress, AllocError>
        requires { AreNodes task.now nodes.old }
        ensures { OnOk result (AreNodes task.now nodes.new) }
    {
        self.chart.advance(task, nodes, most_work)
    }

    /// No word has fewer steps than these, as far as the search has come.
    pub fn total(&self) -> u32 {
        self.chart.total()
    }

    /// The word of a search that has found how many steps it has, and what should show that it is the least one. None
    /// where it can't be read off.
    pub fn read(
        self,
        task: &Task,
        nodes: &mut CallNodes<'_>,
        steps: u32,
    ) -> Result<Option<Found>, AllocError>
        requires { AreNodes task.now nodes.old }
        ensures { OnOk result (AreNodes task.now nodes.new) }
    {
        let Finder {
            alloc,
            starts,
            chart,
        } = self;
        let table = table_of(alloc, nodes, &chart, steps.saturating_add(1))?;
        let most = chart.work().saturating_mul(READING);
        let calls = WholeCalls::new(alloc, chart.into_masks(), table);
        let values = Values::new(alloc, most);
        let trail = Trail::new(alloc, values, steps);
        read(alloc, task, nodes, calls, trail, &starts)
    }
}
