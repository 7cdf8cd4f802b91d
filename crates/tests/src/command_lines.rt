//! Command lines: what is asked for, and the one that no row of `acceptance` can have.

use crate::text_answers::{shown, status_of};
use std::alloc::{AllocError, Global};
use std::process::Abort;

/// The program's name alone is refused.
#[test]
fn statuses(rt: HostRuntime) -> Result<(), AllocError> {
    let found = status_of(rt.alloc(), "htnplan")?;
    assert!(rt; found.as_str() == "2", "{found}");
    Ok(())
}

/// Expects the request of a command line, or the text that is shown for it.
fn expect_shown<R: Abort>(
    rt: &R,
    alloc: Global,
    line: &str,
    expected: &str,
) -> Result<(), AllocError> {
    let found = shown(alloc, line)?;
    assert!(rt; found.as_str() == expected, "{line}\nfound: {found}");
    Ok(())
}

/// The defaults, how a search is watched, three files, and the options of each command.
#[test]
fn requests(rt: HostRuntime) -> Result<(), AllocError> {
    let alloc = rt.alloc();
    let line = "htnplan plan d.hddl p.hddl";
    let request = "Plan { domain: \"d.hddl\", problem: \"p.hddl\", \
        bounds: Bounds { nodes: 100, workers: 1, piece: 64 }, seconds: None, has_progress: false }";
    expect_shown(&rt, alloc, line, request)?;
    let line = "htnplan plan --progress d p --seconds 10";
    let request = "Plan { domain: \"d\", problem: \"p\", \
        bounds: Bounds { nodes: 100, workers: 1, piece: 64 }, seconds: Some(10), has_progress: true }";
    expect_shown(&rt, alloc, line, request)?;
    let line = "htnplan verify d.hddl p.hddl f.txt";
    let request = "Verify { domain: \"d.hddl\", problem: \"p.hddl\", plan: \"f.txt\" }";
    expect_shown(&rt, alloc, line, request)?;
    let line = "htnplan check d.hddl";
    let request = "Check { domain: \"d.hddl\", problem: None, \
        format: Text, limit: 20, is_strict: false, colour: Auto }";
    expect_shown(&rt, alloc, line, request)?;
    let line = "htnplan check - p.hddl --format json --limit=0 --strict --color never";
    let request = "Check { domain: \"-\", problem: Some(\"p.hddl\"), \
        format: Json, limit: 0, is_strict: true, colour: Never }";
    expect_shown(&rt, alloc, line, request)?;
    let line = "htnplan tree d.hddl p.hddl - --format ascii --details --color always";
    let request = "Tree { domain: \"d.hddl\", problem: \"p.hddl\", plan: \"-\", \
        drawing: Ascii, has_details: true, colour: Always }";
    expect_shown(&rt, alloc, line, request)?;
    let line = "htnplan explain d.hddl p.hddl --states - --format short --color always";
    let request = "Explain { domain: \"d.hddl\", problem: \"p.hddl\", plan: \"-\", \
        format: Short, has_states: true, colour: Always }";
    expect_shown(&rt, alloc, line, request)
}
