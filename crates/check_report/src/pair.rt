//! The check of a domain and a problem.
ghost use Rattle.std.specs.Prelude.{Some, IfOk, IsSomeAnd, option_map};
ghost use Rattle.hddl_text.specs.Grammar.{DerivesDomain, DerivesProblem};
ghost use Rattle.hddl_text.specs.Spelling.{Spells};
ghost use Rattle.check_report.specs.Checks.{Checks};
ghost use Rattle.check_report.specs.Asked.{findings_of};
ghost use Rattle.check_report.specs.Reach.{AreReached};
ghost use Rattle.check_report.specs.Texts.{ArePairFaults, IsFaulty};
ghost use Rattle.check_report.specs.Told.{named};
ghost use Rattle.check_report.specs.Saying.{ReportsTold, TellsPairTrees, WarnsPairBefore, WarnsPairByPlace};

use crate::order::in_order;
use crate::reach::{Reach, reach_unless, reached, warn_of_reach};
use crate::read::{domain_of, problem_of};
use crate::report::{Checked, Options, report};
use crate::summary::{all_lines, domain_lines, problem_lines};
use crate::tell::{has_faults, text_error, text_errors, tree_errors};
use crate::warnings::{warn_of_other, warn_unless};
use diagnostics::{Diagnostic, Source};
use hddl_check::all_faults;
use hddl_meaning::CheckFault;
use hddl_words::{DomainText, ProblemText, TextFault};
use pair_messages::PairTexts;
use std::alloc::{AllocError, Global};

/// The report of two texts.
pub(crate) fn check_pair(
    alloc: Global,
    domain: &Source<'_>,
    problem: &Source<'_>,
    options: Options,
) -> Result<Checked, AllocError>
    ensures { IfOk result (Checks (named domain.now) (Some (named problem.now)) options) }
{
    match domain_of(alloc, domain.lines.text())? {
        Ok(tree) => check_problem(alloc, domain, &tree, problem, options),
        Err(fault) => refuse_domain(alloc, domain, fault, problem, options),
    }
}

/// The report of two texts of which the domain's spells no tree.
fn refuse_domain(
    alloc: Global,
    domain: &Source<'_>,
    fault: TextFault,
    problem: &Source<'_>,
    options: Options,
) -> Result<Checked, AllocError>
    requires { IsFaulty DerivesDomain domain.now.lines fault }
    ensures { IfOk result (Checks (named domain.now) (Some (named problem.now)) options) }
{
    let mut told = text_errors(alloc, domain, fault)?;
    match problem_of(alloc, problem.lines.text())? {
        Ok(tree) => {
            let summary = problem_lines(alloc, &tree)?;
            let checked = report(alloc, told.as_slice(), summary.as_slice(), None, options)?;
            Ok(checked)
        }
        Err(fault) => {
            told.push(text_error(alloc, problem, fault)?)?;
            let checked = report(alloc, told.as_slice(), &[], None, options)?;
            Ok(checked)
        }
    }
}

/// The report of two texts of which the domain's spells a tree.
fn check_problem(
    alloc: Global,
    domain: &Source<'_>,
    domain_tree: &DomainText,
    problem: &Source<'_>,
    options: Options,
) -> Result<Checked, AllocError>
    requires { Spells DerivesDomain domain.now.lines domain_tree.now }
    ensures { IfOk result (Checks (named domain.now) (Some (named problem.now)) options) }
{
    match problem_of(alloc, problem.lines.text())? {
        Ok(tree) => {
            let texts = PairTexts {
                domain,
                problem: Some(problem),
                domain_tree,
                problem_tree: &tree,
            };
            check_trees(alloc, &texts, options)
        }
        Err(fault) => {
            let told = text_errors(alloc, problem, fault)?;
            let summary = domain_lines(alloc, domain_tree)?;
            let checked = report(alloc, told.as_slice(), summary.as_slice(), None, options)?;
            Ok(checked)
        }
    }
}

/// The report of two trees.
fn check_trees(
    alloc: Global,
    texts: &PairTexts<'_>,
    options: Options,
) -> Result<Checked, AllocError>
    requires domain_spelled { Spells DerivesDomain texts.now.domain.now.lines texts.now.domain_tree.now }
    requires problem_spelled { IsSomeAnd (option_map (λ p. p.now) texts.now.problem) (λ p. Spells DerivesProblem p.lines texts.now.problem_tree.now) }
    ensures { IfOk result (Checks (named texts.now.domain.now) (option_map (λ p. named p.now) texts.now.problem) options) }
{
    let faults = pair_faults(alloc, texts.domain_tree, texts.problem_tree)?;
    check_faults(alloc, texts, faults.as_slice(), options)
}

/// The report of two trees that have these faults.
fn check_faults(
    alloc: Global,
    texts: &PairTexts<'_>,
    faults: &[CheckFault],
    options: Options,
) -> Result<Checked, AllocError>
    requires domain_spelled { Spells DerivesDomain texts.now.domain.now.lines texts.now.domain_tree.now }
    requires problem_spelled { IsSomeAnd (option_map (λ p. p.now) texts.now.problem) (λ p. Spells DerivesProblem p.lines texts.now.problem_tree.now) }
    requires faults { ArePairFaults texts.now.domain_tree.now texts.now.problem_tree.now faults.now }
    ensures { IfOk result (Checks (named texts.now.domain.now) (option_map (λ p. named p.now) texts.now.problem) options) }
{
    let reach = reach_by(alloc, texts, faults)?;
    check_reached(alloc, texts, faults, &reach, options)
}

/// The report of two trees that have these faults, and of which this is found.
fn check_reached(
    alloc: Global,
    texts: &PairTexts<'_>,
    faults: &[CheckFault],
    reach: &Option<Reach>,
    options: Options,
) -> Result<Checked, AllocError>
    requires domain_spelled { Spells DerivesDomain texts.now.domain.now.lines texts.now.domain_tree.now }
    requires problem_spelled { IsSomeAnd (option_map (λ p. p.now) texts.now.problem) (λ p. Spells DerivesProblem p.lines texts.now.problem_tree.now) }
    requires faults { ArePairFaults texts.now.domain_tree.now texts.now.problem_tree.now faults.now }
    requires reached { AreReached texts.now.domain_tree.now texts.now.problem_tree.now faults.now (findings_of reach.now) }
    ensures { IfOk result (Checks (named texts.now.domain.now) (option_map (λ p. named p.now) texts.now.problem) options) }
{
    let told = tell_trees(alloc, texts, faults, reach)?;
    let checked = report_told(alloc, texts, reach, told.as_slice(), options)?;
    Ok(checked)
}

/// The report of the diagnostics of two trees, with what the two declare.
fn report_told(
    alloc: Global,
    texts: &PairTexts<'_>,
    reach: &Option<Reach>,
    told: &[Diagnostic<'_>],
    options: Options,
) -> Result<Checked, AllocError>
    ensures { IfOk result (ReportsTold texts.now reach.now options told.now) }
{
    let summary = all_lines(alloc, texts.domain_tree, texts.problem_tree, reach)?;
    let checked = report(alloc, told, summary.as_slice(), reached(reach), options)?;
    Ok(checked)
}

/// All faults of two trees.
fn pair_faults(
    alloc: Global,
    domain: &DomainText,
    problem: &ProblemText,
) -> Result<Vec<CheckFault>, AllocError>
    ensures { IfOk result (λ faults. ArePairFaults domain.now problem.now faults.items) }
{
    let faults = all_faults(alloc, domain, problem)?;
    Ok(faults)
}

/// What no plan uses of two trees, where they have no faults.
fn reach_by(
    alloc: Global,
    texts: &PairTexts<'_>,
    faults: &[CheckFault],
) -> Result<Option<Reach>, AllocError>
    ensures { IfOk result (λ reach. AreReached texts.now.domain_tree.now texts.now.problem_tree.now faults.now (findings_of reach)) }
{
    let is_faulty = has_faults(faults);
    let reach = reach_unless(alloc, is_faulty, texts.domain_tree, texts.problem_tree)?;
    Ok(reach)
}

/// The diagnostics of two trees that have these faults, and of what no plan uses of them.
fn tell_trees<'a>(
    alloc: Global,
    texts: &'a PairTexts<'a>,
    faults: &[CheckFault],
    reach: &Option<Reach>,
) -> Result<Vec<Diagnostic<'a>>, AllocError>
    ensures { IfOk result (λ told. TellsPairTrees texts.now faults.now reach.now told.items) }
{
    let errors = tree_errors(alloc, texts, faults)?;
    let warned = warn_pair(alloc, texts, faults, reach)?;
    let told = tell_pair(alloc, texts, warned, errors)?;
    Ok(told)
}

/// The warnings of two trees where they have no faults, and those of what no plan uses, by place.
fn warn_pair<'a>(
    alloc: Global,
    texts: &PairTexts<'a>,
    faults: &[CheckFault],
    reach: &Option<Reach>,
) -> Result<Vec<Diagnostic<'a>>, AllocError>
    ensures { IfOk result (λ told. WarnsPairByPlace texts.now faults.now reach.now told.items) }
{
    let is_faulty = has_faults(faults);
    let others = warn_unless(alloc, is_faulty, texts, Some(texts.problem_tree))?;
    let unplanned = warn_of_reach(alloc, texts, reach)?;
    let told = in_order(others, unplanned)?;
    Ok(told)
}

/// The warning of another domain, other warnings, and then the errors.
fn tell_pair<'a>(
    alloc: Global,
    texts: &PairTexts<'a>,
    warned: Vec<Diagnostic<'a>>,
    errors: Vec<Diagnostic<'a>>,
) -> Result<Vec<Diagnostic<'a>>, AllocError>
    ensures { IfOk result (λ told. WarnsPairBefore texts.now warned.entry.items errors.entry.items told.items) }
{
    let mut others = warned;
    let mut errors = errors;
    let mut told = warn_of_other(alloc, texts)?;
    told.append(&mut others)?;
    told.append(&mut errors)?;
    Ok(told)
}
