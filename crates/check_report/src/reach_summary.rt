//! What a plan may use, counted.
ghost use Rattle.std.specs.Prelude.{◌≡◌, ◌∷◌, [], ◌++◌, IfOk, OnOk, count_by, length, map, not, option_map};
ghost use Rattle.pair_messages.specs.Counts.{numbers_of};
ghost use Rattle.check_report.specs.ReachWarnings.{following, following_counts, reach_counts, usable_counts};

use crate::causes::is_cause;
use diagnostics::Part;
use never_applied::{Findings, Unused};
use pair_messages::push_count;
use std::alloc::{AllocError, Global};

/// How many of some methods or actions follow from others.
fn count_following(unused: &[Unused]) -> usize
    ensures { result ≡ following unused.now }
{
    unused.iter().filter(|one| !is_cause(one.cause)).count()
}

/// A line without numbers.
fn plain_line<'a>(alloc: Global, words: &'a str) -> Result<Vec<Part<'a>>, AllocError>
    ensures { IfOk result (λ line. numbers_of line.items ≡ []) }
{
    let parts = vec![in alloc; Part::Words(words)]?;
    Ok(parts)
}

/// The line of methods and actions that follow from others.
fn following_line<'a>(
    alloc: Global,
    methods: usize,
    actions: usize,
) -> Result<Vec<Part<'a>>, AllocError>
    ensures { IfOk result (λ line. numbers_of line.items ≡ methods ∷ actions ∷ []) }
{
    let mut parts = vec![in alloc; Part::Words("by what is never so, no plan uses ")]?;
    push_count(&mut parts, methods, " method", " methods")?;
    parts.push(Part::Words(" and "))?;
    push_count(&mut parts, actions, " action", " actions")?;
    parts.push(Part::Words(" besides"))?;
    Ok(parts)
}

/// The line of what a plan may use.
fn usable_line<'a>(alloc: Global, findings: &Findings) -> Result<Vec<Part<'a>>, AllocError>
    ensures { IfOk result (λ line. numbers_of line.items ≡ length findings.now.usable.actions.keys ∷ findings.now.usable.instances ∷ findings.now.facts ∷ []) }
{
    let instances = findings.usable.instances;
    let mut parts = vec![in alloc; Part::Words("a plan may use ")]?;
    push_count(
        &mut parts,
        findings.usable.actions.len(),
        " action",
        " actions",
    )?;
    parts.push(Part::Words(", "))?;
    push_count(
        &mut parts,
        instances,
        " method instance",
        " method instances",
    )?;
    parts.push(Part::Words(" and "))?;
    push_count(&mut parts, findings.facts, " fact", " facts")?;
    Ok(parts)
}

/// Adds the line of methods and actions that follow from others, where there are some.
fn push_following<'a>(
    alloc: Global,
    lines: &mut Vec<Vec<Part<'a>>>,
    methods: usize,
    actions: usize,
) -> Result<(), AllocError>
    ensures { OnOk result (map (λ line. numbers_of line.items) lines.new.items ≡ map (λ line. numbers_of line.items) lines.old.items ++ following_counts methods actions) }
{
    if methods == 0 && actions == 0 {
        return Ok(());
    }
    lines.push(following_line(alloc, methods, actions)?)?;
    Ok(())
}

/// The line of what a plan may use, or that there is no plan.
fn last_line<'a>(alloc: Global, findings: &Findings) -> Result<Vec<Part<'a>>, AllocError>
    ensures { IfOk result (λ line. numbers_of line.items ∷ [] ≡ usable_counts findings.now findings.now.no_plan) }
{
    match &findings.no_plan {
        Some(_) => {
            let line = plain_line(alloc, "there is no plan of any size")?;
            Ok(line)
        }
        None => {
            let line = usable_line(alloc, findings)?;
            Ok(line)
        }
    }
}

/// The lines of what is found.
fn found_lines<'a>(alloc: Global, findings: &Findings) -> Result<Vec<Vec<Part<'a>>>, AllocError>
    ensures { IfOk result (λ lines. map (λ line. numbers_of line.items) lines.items
        ≡ following_counts (following findings.now.methods.items) (following findings.now.actions.items) ++ usable_counts findings.now findings.now.no_plan) }
{
    let methods = count_following(findings.methods.as_slice());
    let actions = count_following(findings.actions.as_slice());
    let mut lines = Vec::new(alloc);
    push_following(alloc, &mut lines, methods, actions)?;
    let line = last_line(alloc, findings)?;
    lines.push(line)?;
    Ok(lines)
}

/// The one line that what a plan may use is too much to list.
fn unlisted_lines<'a>(alloc: Global) -> Result<Vec<Vec<Part<'a>>>, AllocError>
    ensures { IfOk result (λ lines. map (λ line. numbers_of line.items) lines.items ≡ [] ∷ []) }
{
    let line = plain_line(alloc, "what a plan may use is too much to list")?;
    let mut lines = Vec::new(alloc);
    lines.push(line)?;
    Ok(lines)
}

/// The lines of a summary about what a plan may use: how many methods and actions follow from others in being unused,
/// and how much a plan may use, or that there is no plan. Where too much would have to be listed one line says so. An
/// error where memory was refused.
pub fn reach_summary<'a>(
    alloc: Global,
    findings: Option<&Findings>,
) -> Result<Vec<Vec<Part<'a>>>, AllocError>
    ensures { IfOk result (λ lines. map (λ line. numbers_of line.items) lines.items ≡ reach_counts (option_map (λ f. f.now) findings.entry)) }
{
    match findings {
        Some(found) => {
            let lines = found_lines(alloc, found)?;
            Ok(lines)
        }
        None => {
            let lines = unlisted_lines(alloc)?;
            Ok(lines)
        }
    }
}
