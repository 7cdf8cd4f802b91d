//! The explanation of a plan, made before anything is written.
ghost use Rattle.std.specs.Prelude.{◌≡◌, true, IfOk, IfErr};
ghost use Rattle.htn_review.specs.Checking.{domain_text, problem_text};
ghost use Rattle.check_report.specs.Told.{named};
ghost use Rattle.htn_ground.specs.Naming.{naming_of};
ghost use Rattle.htn_model.specs.Grounding.{problem_of};
ghost use Rattle.htn_model.specs.Verdict.{IsVerdict};
ghost use Rattle.htn_verify.specs.Verdicts.{verdict_of};
ghost use Rattle.plan_text.specs.FileText.{FileText};
ghost use Rattle.htn_review.specs.Explaining.{Explains, Says, plan_text};
ghost use Rattle.htn_review.specs.Explanations as spec;
ghost use Rattle.htn_review.specs.Inputs.{domain_of, plan_of, problem_of as problem_in};
ghost use Rattle.htn_review.specs.Judgement.{IsFaultyPlan};
ghost use Rattle.htn_review.specs.Sights.{IsPairOf};
ghost use Rattle.htn_review.specs.Reads.{IsReport, is_of_pair as of_pair, report_options};
ghost use Rattle.htn_review.specs.declared.outcome.RunFault.TheVariants.{OutOfMemory};

use crate::caption::verdict_words;
use crate::explain::Explained;
use crate::inputs::Inputs;
use crate::judge::file_in;
use crate::outcome::RunFault;
use crate::texts::{Pair, pair_of};
use crate::tree::{is_of_pair, report_of};
use check_report::Input;
use diagnostics::{Lines, Role, Source};
use htn_plan::{PlanFault, PlanFile, Verdict, verify};
use plan_report::{PairTexts, PlacedPlan, ReportStyle, explain, explain_fault};
use plan_text::line_places;
use std::alloc::{AllocError, Global};

/// The result of an explanation, and its text.
#[derive(Drop)]
pub(crate) struct Explanation {
    pub(crate) came: Explained,
    pub(crate) text: Vec<u8>,
}

/// Reads a domain, a problem and a plan, and explains the verdict on the plan.
pub(crate) fn explanation_of<'a>(
    alloc: Global,
    domain: Input<'a>,
    problem: Input<'a>,
    plan: Input<'a>,
    style: ReportStyle,
) -> Result<Explanation, RunFault>
    ensures explains { IfOk result (λ x. Explains (domain_text domain.entry.name.now domain.entry.text.now) (problem_text problem.entry.name.now problem.entry.text.now)
        (plan_text plan.entry.name.now plan.entry.text.now) style x.came x.text.items) }
    ensures memory { IfErr result (λ fault. fault ≡ OutOfMemory) }
{
    match pair_of(alloc, domain.text, problem.text) {
        Ok(pair) => {
            let inputs = Inputs {
                domain,
                problem,
                plan,
            };
            explain_plan(alloc, &pair, inputs, style)
        }
        Err(fault) => report_pair(alloc, domain, problem, style, fault),
    }
}

// The report on a domain and a problem, for a fault that they have.
fn report_pair(
    alloc: Global,
    domain: Input<'_>,
    problem: Input<'_>,
    style: ReportStyle,
    fault: RunFault,
) -> Result<Explanation, RunFault>
    ensures reported { IfOk result (λ x. (of_pair fault ≡ true) × (x.came ≡ Explained.Refused)
        × IsReport (domain_text domain.entry.name.now domain.entry.text.now) (problem_text problem.entry.name.now problem.entry.text.now)
        (report_options style.format style.colour) x.text.items) }
    ensures memory { IfErr result (λ fault. fault ≡ OutOfMemory) }
{
    if !is_of_pair(fault) {
        return Err(RunFault::OutOfMemory);
    }
    let text = report_of(alloc, domain, problem, style.format, style.colour)?;
    Ok(Explanation {
        came: Explained::Refused,
        text,
    })
}

// A text with its lines.
fn source_of<'a>(alloc: Global, role: Role, input: Input<'a>) -> Result<Source<'a>, AllocError>
    ensures { IfOk result (λ source. named source ≡ spec.text_in role input.entry) }
{
    Ok(Source {
        role,
        name: input.name,
        lines: Lines::new(alloc, input.text)?,
    })
}

// The explanation of a plan's text for a pair.
fn explain_plan<'a>(
    alloc: Global,
    pair: &'a Pair,
    inputs: Inputs<'a>,
    style: ReportStyle,
) -> Result<Explanation, RunFault>
    requires { IsPairOf inputs.domain.text.now inputs.problem.text.now pair.now }
    ensures explained { IfOk result (spec.IsExplainedText inputs.entry style) }
    ensures memory { IfErr result (λ fault. fault ≡ OutOfMemory) }
{
    match file_in(alloc, inputs.plan.text) {
        Ok(file) => {
            let here = Inputs {
                domain: inputs.domain,
                problem: inputs.problem,
                plan: inputs.plan,
            };
            let explanation = explain_file(alloc, pair, &file, here, style)?;
            Ok(explanation)
        }
        Err(RunFault::Plan(fault)) => {
            let explanation = report_plan(alloc, inputs.plan, fault, style)?;
            Ok(explanation)
        }
        Err(_) => Err(RunFault::OutOfMemory),
    }
}

// The report on a plan's text that is refused.
fn report_plan(
    alloc: Global,
    plan: Input<'_>,
    fault: PlanFault,
    style: ReportStyle,
) -> Result<Explanation, AllocError>
    requires { IsFaultyPlan plan.text.now fault }
    ensures { IfOk result (spec.IsRefused (plan_text plan.entry.name.now plan.entry.text.now) style) }
{
    let source = source_of(alloc, Role::Plan, plan)?;
    let text = explain_fault(alloc, &source, fault, style)?;
    Ok(Explanation {
        came: Explained::Refused,
        text,
    })
}

// The verdict on a plan file, and why.
fn explain_file<'a>(
    alloc: Global,
    pair: &'a Pair,
    file: &'a PlanFile,
    inputs: Inputs<'a>,
    style: ReportStyle,
) -> Result<Explanation, AllocError>
    requires pair { IsPairOf inputs.domain.text.now inputs.problem.text.now pair.now }
    requires file { FileText file.now inputs.plan.text.now }
    ensures { IfOk result (spec.IsExplained inputs.entry style) }
{
    let verdict = verify(alloc, &pair.task, file)?;
    let text = explain_verdict(alloc, pair, file, inputs, verdict, style)?;
    Ok(Explanation {
        came: Explained::Judged(verdict),
        text,
    })
}

/// Why a plan file has its verdict.
pub(crate) fn explain_verdict<'a>(
    alloc: Global,
    pair: &'a Pair,
    file: &'a PlanFile,
    inputs: Inputs<'a>,
    verdict: Verdict,
    style: ReportStyle,
) -> Result<Vec<u8>, AllocError>
    requires pair { IsPairOf inputs.domain.text.now inputs.problem.text.now pair.now }
    requires file { FileText file.now inputs.plan.text.now }
    requires verdict { IsVerdict (naming_of pair.now.task) (problem_of pair.now.task) file.now (verdict_of verdict) }
    ensures { IfOk result (λ text. Says (domain_of inputs.entry) (problem_in inputs.entry) (plan_of inputs.entry) style verdict text.items) }
{
    let words = verdict_words(alloc, verdict)?;
    let domain = source_of(alloc, Role::Domain, inputs.domain)?;
    let problem = source_of(alloc, Role::Problem, inputs.problem)?;
    let plan = source_of(alloc, Role::Plan, inputs.plan)?;
    let Some(places) = line_places(alloc, inputs.plan.text)? else {
        unreachable!();
    };
    let text_of_problem = Some(&problem);
    let texts_of_pair = PairTexts {
        domain: &domain,
        problem: text_of_problem,
        domain_tree: &pair.domain,
        problem_tree: &pair.problem,
    };
    let placed = PlacedPlan {
        text: &plan,
        file,
        places: &places,
    };
    let text = explain(
        alloc,
        &texts_of_pair,
        &placed,
        &pair.task,
        verdict,
        words.as_str(),
        style,
    )?;
    Ok(text)
}
