//! Reports of why a plan has its verdict.

ghost use Rattle.std.specs.Prelude.{◌≡◌, IfOk, IfSome};
ghost use Rattle.plan_causes.specs.Reasons.{AreOnce};
ghost use Rattle.diagnostics.specs.declared.format.Format.TheVariants as format;
ghost use Rattle.plan_report.specs.Explained as spec;

use crate::arrangement::arrangement_reason;
use crate::faults::fault_error;
use crate::line::line_reason;
use crate::reason::{Reason, reason_error};
use crate::shorter::shorten;
use diagnostics::{
    Diagnostic, Format, Part, Source, json_verdict, short_report, short_verdict, text_report,
    text_verdict,
};
use htn_task::Task;
use htn_verify::Verdict;
use plan_causes::Cause;
use plan_findings::{PlanCase, counts_of, run_of, run_reason, structure_reason};
use plan_messages::{PairTexts, PlacedPlan, PlanTexts, counts_line, explanation, run_lines};
use plan_text::{PlanFault, PlanFile, forest_of};
use std::alloc::{AllocError, Global};

/// How an explanation is written.
#[derive(Clone, Copy, Debug)]
pub struct ReportStyle {
    pub format: Format,
    /// Whether it has the atoms that are true initially, and those that each action makes true and false.
    pub has_states: bool,
    /// Whether the text has colours.
    pub colour: bool,
}

/// At most how many wrong numbers a text shows.
const MOST_NUMBERS: usize = 100;

/// What is explained: the verdict on a plan, the words of its line, and how it is written.
#[derive(Clone, Copy)]
struct Judged<'a> {
    verdict: Verdict,
    words: &'a str,
    style: ReportStyle,
    /// How many errors are left out.
    left: usize,
}

/// Whether a report has the lines of the run: if they are wanted, and the lines of the plan have one.
fn has_run(verdict: Verdict, style: ReportStyle) -> bool
    ensures { result ≡ spec.has_run verdict style }
{
    match verdict {
        Verdict::Structure | Verdict::NoInstance(_) => false,
        Verdict::NotExecutable(_) | Verdict::GoalFails | Verdict::NoArrangement | Verdict::Valid =>
            style.has_states,
    }
}

/// The lines of the run, if a report has them.
fn states(
    alloc: Global,
    task: &Task,
    file: &PlanFile,
    verdict: Verdict,
    style: ReportStyle,
) -> Result<Vec<u8>, AllocError>
    ensures { IfOk result (λ run. spec.AreRunLines task.now file.now (spec.has_run verdict style) run.items) }
{
    if !has_run(verdict, style) {
        return Ok(Vec::new(alloc));
    }
    let found = run_of(alloc, task, file)?;
    let lines = run_lines(alloc, file, &found)?;
    Ok(lines)
}

/// How many errors are left out, if any are.
fn left_line<'a>(alloc: Global, left: usize) -> Result<Vec<Vec<Part<'a>>>, AllocError>
    ensures { IfOk result (λ lines. spec.AreLeft left lines.items) }
{
    if left == 0 {
        return Ok(Vec::new(alloc));
    }
    let parts = [
        Part::Words("and "),
        Part::Number(left as u64),
        Part::Words(" more: explain --format short shows all"),
    ];
    let line = Vec::from_slice(alloc, &parts)?;
    let lines = vec![in alloc; line]?;
    Ok(lines)
}

/// The last lines: of a valid plan how many nodes its solution has, of another how many errors are left out.
fn last_lines<'a>(
    alloc: Global,
    task: &Task,
    file: &PlanFile,
    verdict: Verdict,
    left: usize,
) -> Result<Vec<Vec<Part<'a>>>, AllocError>
    ensures { IfOk result (λ lines. spec.AreLastLines task.now file.now (spec.is_valid verdict) left lines.items) }
{
    if !is_valid(verdict) {
        let lines = left_line(alloc, left)?;
        return Ok(lines);
    }
    let counts = counts_of(task, file);
    let line = counts_line(alloc, counts)?;
    let lines = vec![in alloc; line]?;
    Ok(lines)
}

/// Whether a verdict is `valid`.
fn is_valid(verdict: Verdict) -> bool
    ensures { result ≡ spec.is_valid verdict }
{
    matches!(verdict, Verdict::Valid)
}

/// A verdict and what is said of it, as people read it.
fn text_of(
    alloc: Global,
    task: &Task,
    file: &PlanFile,
    judged: Judged<'_>,
    errors: &[Diagnostic<'_>],
) -> Result<Vec<u8>, AllocError>
    ensures { IfOk result (λ bytes. spec.IsWrittenIn format.Text task.now file.now judged.entry.verdict judged.entry.words.now judged.entry.style errors.now judged.entry.left bytes.items) }
{
    let run = states(alloc, task, file, judged.verdict, judged.style)?;
    let lines = last_lines(alloc, task, file, judged.verdict, judged.left)?;
    let text = text_verdict(
        alloc,
        judged.words,
        is_valid(judged.verdict),
        run.as_slice(),
        errors,
        lines.as_slice(),
        judged.style.colour,
    )?;
    Ok(text)
}

/// A verdict and what is said of it, as editors read it.
fn short_of(
    alloc: Global,
    task: &Task,
    file: &PlanFile,
    judged: Judged<'_>,
    errors: &[Diagnostic<'_>],
) -> Result<Vec<u8>, AllocError>
    ensures { IfOk result (λ bytes. spec.IsWrittenIn format.Short task.now file.now judged.entry.verdict judged.entry.words.now judged.entry.style errors.now judged.entry.left bytes.items) }
{
    let run = states(alloc, task, file, judged.verdict, judged.style)?;
    let text = short_verdict(alloc, judged.words, run.as_slice(), errors)?;
    Ok(text)
}

/// A verdict and what is said of it, in one of the formats.
fn written(
    alloc: Global,
    task: &Task,
    file: &PlanFile,
    judged: Judged<'_>,
    errors: &[Diagnostic<'_>],
) -> Result<Vec<u8>, AllocError>
    ensures { IfOk result (λ bytes. spec.IsWritten task.now file.now judged.entry.verdict judged.entry.words.now judged.entry.style errors.now judged.entry.left bytes.items) }
{
    match judged.style.format {
        Format::Text => text_of(alloc, task, file, judged, errors),
        Format::Short => short_of(alloc, task, file, judged, errors),
        Format::Json => json_verdict(alloc, Some(judged.words), errors),
    }
}

/// The name of a verdict that has a reason.
fn code_of<'a>(verdict: Verdict) -> &'a str
    ensures { result.now ≡ spec.code_of verdict }
{
    match verdict {
        Verdict::NoInstance(_) => "NoInstance",
        Verdict::NoArrangement => "NoArrangement",
        _ => "",
    }
}

/// The cause of a verdict.
fn cause_of(alloc: Global, case: &PlanCase<'_>, verdict: Verdict) -> Result<Cause, AllocError>
    ensures cause { IfOk result (spec.IsCauseOf case.now.task.now case.now.file.now verdict) }
    ensures once { IfOk result AreOnce }
{
    match verdict {
        Verdict::Structure => structure_reason(alloc, case),
        Verdict::NotExecutable(_) | Verdict::GoalFails => run_reason(alloc, case),
        Verdict::NoInstance(line) => Ok(Cause::NoInstance(line)),
        Verdict::NoArrangement => Ok(Cause::NoArrangement),
        Verdict::Valid => Ok(Cause::Valid),
    }
}

/// Why a line has no instance, or why the lines can't be arranged; none for any other verdict.
fn reason_of(
    alloc: Global,
    case: &PlanCase<'_>,
    plan: &PlacedPlan<'_>,
    verdict: Verdict,
) -> Result<Option<Reason>, AllocError>
    ensures { IfOk result (λ found. IfSome found (λ _. spec.HasReason verdict)) }
{
    match verdict {
        Verdict::NoInstance(line) => {
            let Some(forest) = forest_of(alloc, case.file)? else {
                return Ok(None);
            };
            let here = PlanCase {
                task: case.task,
                domain: case.domain,
                problem: case.problem,
                file: case.file,
            };
            let reason = line_reason(alloc, &here, plan, &forest, line)?;
            Ok(reason)
        }
        Verdict::NoArrangement => arrangement_reason(alloc, case, plan),
        _ => Ok(None),
    }
}

/// The report of a reason.
fn explain_reason<'a>(
    alloc: Global,
    texts: &PlanTexts<'a>,
    task: &Task,
    reason: &'a Reason,
    judged: Judged<'_>,
) -> Result<Vec<u8>, AllocError>
    requires reason { spec.HasReason judged.verdict }
    requires whole { judged.left ≡ 0 }
    ensures { IfOk result (λ bytes. spec.IsExplanation task.now texts.now judged.entry.verdict judged.entry.words.now judged.entry.style bytes.items) }
{
    let code = code_of(judged.verdict);
    let errors = vec![in alloc; reason_error(alloc, texts, code, reason)?]?;
    let text = written(alloc, task, texts.plan.file, judged, errors.as_slice())?;
    Ok(text)
}

/// Leaves what a report shows of a cause, and returns how many numbers are left out.
fn shown_part(cause: &mut Cause, format: Format) -> usize
    ensures shown { spec.IsShownAs format cause.old cause.new result }
    ensures once { AreOnce cause.old → AreOnce cause.new }
{
    match format {
        Format::Text => shorten(cause, MOST_NUMBERS),
        Format::Short | Format::Json => 0,
    }
}

/// The report of a cause, as far as it is shown.
fn explain_cause<'a>(
    alloc: Global,
    texts: &PlanTexts<'a>,
    task: &Task,
    cause: &'a Cause,
    judged: Judged<'_>,
) -> Result<Vec<u8>, AllocError>
    requires once { AreOnce cause.now }
    requires cause { spec.IsShownCauseOf task.now texts.now.plan.file.now judged.verdict judged.style.format cause.now judged.left }
    ensures { IfOk result (λ bytes. spec.IsExplanation task.now texts.now judged.entry.verdict judged.entry.words.now judged.entry.style bytes.items) }
{
    let errors = explanation(alloc, texts, cause)?;
    let text = written(alloc, task, texts.plan.file, judged, errors.as_slice())?;
    Ok(text)
}

/// Why a plan file has its verdict, of which `words` are the line. An error where memory was refused.
pub fn explain<'a>(
    alloc: Global,
    pair: &PairTexts<'a>,
    plan: &PlacedPlan<'a>,
    task: &Task,
    verdict: Verdict,
    words: &str,
    style: ReportStyle,
) -> Result<Vec<u8>, AllocError>
    ensures { IfOk result (λ bytes. spec.IsExplanation task.now (record { pair = pair.now; plan = plan.now }) verdict words.now style bytes.items) }
{
    let case = PlanCase {
        task,
        domain: pair.domain_tree,
        problem: pair.problem_tree,
        file: plan.file,
    };
    let here = PlanTexts {
        pair: PairTexts {
            domain: pair.domain,
            problem: pair.problem,
            domain_tree: pair.domain_tree,
            problem_tree: pair.problem_tree,
        },
        plan: PlacedPlan {
            text: plan.text,
            file: plan.file,
            places: plan.places,
        },
    };
    if let Some(reason) = reason_of(alloc, &case, plan, verdict)? {
        let judged = Judged {
            verdict,
            words,
            style,
            left: 0,
        };
        return explain_reason(alloc, &here, task, &reason, judged);
    }
    let mut cause = cause_of(alloc, &case, verdict)?;
    let left = shown_part(&mut cause, style.format);
    let judged = Judged {
        verdict,
        words,
        style,
        left,
    };
    explain_cause(alloc, &here, task, &cause, judged)
}

/// A report of some errors, in one of the formats.
fn report_of(
    alloc: Global,
    errors: &[Diagnostic<'_>],
    style: ReportStyle,
) -> Result<Vec<u8>, AllocError>
    ensures { IfOk result (λ bytes. spec.IsReportIn style.format style.colour errors.now bytes.items) }
{
    match style.format {
        Format::Text => text_report(alloc, errors, &[], 0, style.colour),
        Format::Short => short_report(alloc, errors),
        Format::Json => json_verdict(alloc, None, errors),
    }
}

/// Why a plan's text is refused. An error where memory was refused.
pub fn explain_fault(
    alloc: Global,
    plan: &Source<'_>,
    fault: PlanFault,
    style: ReportStyle,
) -> Result<Vec<u8>, AllocError>
    ensures { IfOk result (λ bytes. spec.IsRefusal plan.now fault style bytes.items) }
{
    let error = fault_error(alloc, plan, fault)?;
    let errors = vec![in alloc; error]?;
    let text = report_of(alloc, errors.as_slice(), style)?;
    Ok(text)
}
