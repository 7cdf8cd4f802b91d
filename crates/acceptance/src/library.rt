//! The library over texts in memory: a plan, and the verdict on it.

use htn_run::{Bounds, NoGate, Outcome, RunFault, Sink, Verdict, run_plan, run_verify};
use std::alloc::Global;
use std::io;
use std::io::Write;
use std::sync::Wait;
use std::thread::Threads;

/// The plan with the fewest nodes, as `htnplan plan` prints it; None where no plan has at most 100.
fn plan_of<R: Threads + Wait + Sync>(
    rt: &R,
    alloc: Global,
    domain: &[u8],
    problem: &[u8],
) -> Result<Option<Vec<u8>>, RunFault> {
    let Some(bounds) = Bounds::new(100, 1, 64) else {
        return Ok(None);
    };
    let mut out = Sink::new(Vec::new(alloc));
    match run_plan(rt, alloc, domain, problem, bounds, &NoGate, &mut out)? {
        Outcome::Found => Ok(Some(out.into_inner())),
        Outcome::NoPlan | Outcome::Unsolvable => Ok(None),
    }
}

/// Whether a text is a valid plan.
pub fn is_valid(
    alloc: Global,
    domain: &[u8],
    problem: &[u8],
    plan: &[u8],
) -> Result<bool, RunFault> {
    let mut out = Sink::new(Vec::new(alloc));
    let verdict = run_verify(alloc, domain, problem, plan, &mut out)?;
    Ok(matches!(verdict, Verdict::Valid))
}

/// Prints the plan for a domain and a problem, and whether it is valid.
pub fn print_plan<R: Threads + Wait + Sync + Print>(
    rt: &R,
    alloc: Global,
    domain: &[u8],
    problem: &[u8],
) -> io::Result<()> {
    let plan = match plan_of(rt, alloc, domain, problem) {
        Ok(Some(plan)) => plan,
        Ok(None) => return println!(rt; "no plan"),
        Err(fault) => return println!(rt; "{fault}"),
    };
    io::writer(rt).write_all(plan.as_slice())?;
    match is_valid(alloc, domain, problem, plan.as_slice()) {
        Ok(is_valid) => println!(rt; "valid: {is_valid}"),
        Err(fault) => println!(rt; "{fault}"),
    }
}
