//! What is reached where each fact is on its own.

use crate::pairs::{CIRCLE, ENDING, ENDLESS, Pair, ROAD};
use crate::questions::{Question, answer_of};
use heuristics::RelaxedReach;
use htn_ground::{Child, distinct_initials};
use htn_task::Task;
use std::alloc::Global;
use std::test::Fail;
use task_graph::enumerate;

// Whether anything ends a node.
fn node_text(reach: &RelaxedReach, child: &Child) -> &'static str {
    if reach.is_lost_node(child) {
        " never"
    } else {
        " ends"
    }
}

/// Whether relaxed reachability is known, where the instances are listed up to a limit; and which nodes of the initial
/// networks never end by it.
pub fn reach_text(alloc: Global, task: &Task, limit: u64) -> Result<String, Fail> {
    let found = enumerate(alloc, task, limit)?;
    let mut text = String::new(alloc);
    let Some(reach) = RelaxedReach::of(alloc, task, &found)? else {
        text.push_str("unknown")?;
        return Ok(text);
    };
    text.push_str("known")?;
    for initial in &distinct_initials(alloc, task)? {
        for child in initial.children().as_slice() {
            text.push_str(node_text(&reach, child))?;
        }
    }
    Ok(text)
}

// A truck that drives; two actions each of which needs what the other makes, beside one that changes an atom; tasks
// without an end, and with one; and a task of which nothing is listed.
#[test]
fn reached_nodes_end_or_never_do(rt: HostRuntime) -> Result<(), Fail> {
    let rows: [(Pair, u64, &str); 5] = [
        (ROAD, 1_000, "known ends"),
        (CIRCLE, 1_000, "known never ends"),
        (ENDLESS, 1_000, "known never"),
        (ENDING, 1_000, "known ends"),
        (CIRCLE, 0, "unknown"),
    ];
    for (pair, limit, expected) in rows {
        let found = answer_of(&rt, rt.alloc(), pair, Question::Reach(limit))?;
        assert_eq!(rt; found.as_str(), expected);
    }
    Ok(())
}
