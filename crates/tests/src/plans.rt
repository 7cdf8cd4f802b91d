//! Plan files of solutions, as they are written.

use htn_ground::Solution;
use htn_plan::{Sink, file_of, write_plan};
use htn_search::{Answer, Bounds, NoGate, search};
use htn_task::Task;
use std::alloc::Global;
use std::sync::Wait;
use std::test::Fail;
use std::thread::Threads;

/// The text of a solution's plan.
pub fn text_of(alloc: Global, task: &Task, solution: &Solution) -> Result<String, Fail> {
    let file = file_of(alloc, task, solution)?;
    let mut out = Sink::new(Vec::new(alloc));
    write_plan(&file, &mut out)?;
    let text = String::from_utf8(out.into_inner()).ok();
    Ok(text.ok_or("is text")?)
}

/// The text of the plan that is found, or why there is none.
pub fn answer_text<R: Threads + Wait + Sync>(
    rt: &R,
    alloc: Global,
    task: &Task,
    bounds: Bounds,
) -> Result<String, Fail> {
    match search(rt, alloc, task, bounds, &NoGate)? {
        Answer::Plan(solution) => text_of(alloc, task, &solution),
        Answer::None => Ok(String::from_str(alloc, "none")?),
        Answer::Unsolvable => Ok(String::from_str(alloc, "unsolvable")?),
    }
}

/// The answer of a search by one worker for plans of at most `nodes` nodes.
pub fn answer_within<R: Threads + Wait + Sync>(
    rt: &R,
    alloc: Global,
    task: &Task,
    nodes: u64,
) -> Result<String, Fail> {
    let bounds = Bounds::new(nodes, 1, 64).ok_or("in range")?;
    answer_text(rt, alloc, task, bounds)
}
