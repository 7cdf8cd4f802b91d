//! The lines of a summary.
ghost use Rattle.std.specs.Prelude.{◌≡◌, ◌∷◌, ◌++◌, [], IfOk};
ghost use Rattle.pair_messages.specs.Counts.{domain_counts, problem_counts};
ghost use Rattle.check_report.specs.ReachWarnings.{reach_counts};
ghost use Rattle.check_report.specs.Asked.{findings_of};
ghost use Rattle.check_report.specs.Reach.{counts_of};
ghost use Rattle.check_report.specs.Report.{counts_in};

use crate::reach::Reach;
use crate::reach_summary::reach_summary;
use diagnostics::Part;
use hddl_words::{DomainText, ProblemText};
use never_applied::Findings;
use pair_messages::{domain_summary, problem_summary};
use std::alloc::{AllocError, Global};

/// The line of a domain.
pub(crate) fn domain_lines(
    alloc: Global,
    domain: &DomainText,
) -> Result<Vec<Vec<Part<'_>>>, AllocError>
    ensures { IfOk result (λ lines. counts_in lines.items ≡ domain_counts domain.now ∷ []) }
{
    let line = domain_summary(alloc, domain)?;
    let mut lines = Vec::new(alloc);
    lines.push(line)?;
    Ok(lines)
}

/// The line of a problem.
pub(crate) fn problem_lines(
    alloc: Global,
    problem: &ProblemText,
) -> Result<Vec<Vec<Part<'_>>>, AllocError>
    ensures { IfOk result (λ lines. counts_in lines.items ≡ problem_counts problem.now ∷ []) }
{
    let line = problem_summary(alloc, problem)?;
    let mut lines = Vec::new(alloc);
    lines.push(line)?;
    Ok(lines)
}

/// The line of a domain, and that of a problem.
fn pair_lines<'a>(
    alloc: Global,
    domain: &'a DomainText,
    problem: &'a ProblemText,
) -> Result<Vec<Vec<Part<'a>>>, AllocError>
    ensures { IfOk result (λ lines. counts_in lines.items ≡ domain_counts domain.now ∷ problem_counts problem.now ∷ []) }
{
    let mut lines = domain_lines(alloc, domain)?;
    let line = problem_summary(alloc, problem)?;
    lines.push(line)?;
    Ok(lines)
}

/// The lines of what a plan may use.
fn found_lines<'a>(
    alloc: Global,
    findings: &Option<Findings>,
) -> Result<Vec<Vec<Part<'a>>>, AllocError>
    ensures { IfOk result (λ lines. counts_in lines.items ≡ reach_counts findings.now) }
{
    match findings {
        Some(found) => reach_summary(alloc, Some(found)),
        None => reach_summary(alloc, None),
    }
}

/// The lines of what a plan may use, unless that wasn't looked for.
fn reach_lines<'a>(alloc: Global, reach: &Option<Reach>) -> Result<Vec<Vec<Part<'a>>>, AllocError>
    ensures { IfOk result (λ lines. counts_in lines.items ≡ counts_of (findings_of reach.now)) }
{
    match reach {
        Some(known) => found_lines(alloc, &known.findings),
        None => Ok(Vec::new(alloc)),
    }
}

/// The line of a domain, that of a problem, and those of what a plan may use.
pub(crate) fn all_lines<'a>(
    alloc: Global,
    domain: &'a DomainText,
    problem: &'a ProblemText,
    reach: &Option<Reach>,
) -> Result<Vec<Vec<Part<'a>>>, AllocError>
    ensures { IfOk result (λ lines. counts_in lines.items ≡ (domain_counts domain.now ∷ problem_counts problem.now ∷ []) ++ counts_of (findings_of reach.now)) }
{
    let mut lines = pair_lines(alloc, domain, problem)?;
    let mut more = reach_lines(alloc, reach)?;
    lines.append(&mut more)?;
    Ok(lines)
}
