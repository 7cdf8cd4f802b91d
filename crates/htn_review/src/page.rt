//! The page of a plan.
ghost use Rattle.std.specs.Prelude.{◌≡◌, ◌+◌, drop, length, None, Some, IfOk, option_map};
ghost use Rattle.std.specs.Option.{option_copied};
ghost use Rattle.htn_ground.specs.Naming.{naming_of};
ghost use Rattle.htn_model.specs.Grounding.{problem_of};
ghost use Rattle.htn_model.specs.Verdict.{IsVerdict};
ghost use Rattle.htn_verify.specs.Verdicts.{verdict_of};
ghost use Rattle.picture_html.specs.Page.{IsHtmlOf};
ghost use Rattle.picture_html.specs.declared.remarks.Remarks.{Remarks};
ghost use Rattle.plan_picture.specs.Picture.{IsPictureOf};
ghost use Rattle.htn_review.specs.Judgement.{verdict_text};
ghost use Rattle.htn_review.specs.Sights as sights;
ghost use Rattle.htn_review.specs.Trees as spec;

use crate::explanation::explain_verdict;
use crate::inputs::Inputs;
use crate::sight::Known;
use crate::texts::Pair;
use diagnostics::Format;
use htn_plan::{PlanFile, Verdict};
use htn_task::Task;
use picture_html::{MAX_RUN, Remarks, html};
use picture_text::{Caption, Detail};
use plan_causes::Run;
use plan_findings::run_of;
use plan_picture::Picture;
use plan_report::ReportStyle;
use std::alloc::{AllocError, Global};

/// The page of a picture, which has what `run_explain` says after the line of the verdict, and the run.
pub(crate) fn page_of<'a>(
    alloc: Global,
    pair: &'a Pair,
    file: &'a PlanFile,
    inputs: Inputs<'a>,
    known: Known<'_>,
    caption: &Caption<'_>,
    picture: &Picture<'_>,
) -> Result<Vec<u8>, AllocError>
    requires held { sights.AreHeld inputs pair.now file.now }
    requires verdict { IsVerdict (naming_of pair.now.task) (problem_of pair.now.task) file.now (verdict_of known.verdict) }
    requires caption { spec.IsCaption pair.now.domain pair.now.problem known.verdict caption.now }
    requires picture { IsPictureOf picture.now.file.now picture.now }
    ensures { IfOk result (λ bytes. (r : Remarks) × spec.AreRemarks (sights.subject_of inputs.entry pair.now file.now known.entry.verdict) r
        × (option_map (λ d. d.now) r.details ≡ option_map (λ d. d.now) known.entry.details) × IsHtmlOf caption.now r picture.now bytes.items) }
{
    let style = page_style();
    let text = explain_verdict(alloc, pair, file, inputs, known.verdict, style)?;
    let why = after(text.as_slice(), caption.verdict.len());
    match run_for(alloc, &pair.task, file, known.verdict)? {
        Some(run) => page_with_run(alloc, caption, why, &run, known.details, picture),
        None => page_without_run(alloc, caption, why, known.details, picture),
    }
}

// The page that has these lines and a run.
fn page_with_run(
    alloc: Global,
    caption: &Caption<'_>,
    why: &[u8],
    run: &Run<'_>,
    details: Option<&[Detail]>,
    picture: &Picture<'_>,
) -> Result<Vec<u8>, AllocError>
    requires { IsPictureOf picture.now.file.now picture.now }
    ensures { IfOk result (λ bytes. (r : Remarks) × (r.why.now ≡ why.now) × (option_copied r.run ≡ Some run.now)
        × (option_map (λ d. d.now) r.details ≡ option_map (λ d. d.now) details.entry) × IsHtmlOf caption.now r picture.now bytes.items) }
{
    let remarks = Remarks {
        why,
        run: Some(run),
        details,
    };
    let page = html(alloc, caption, &remarks, picture)?;
    Ok(page)
}

// The page that has these lines and no run.
fn page_without_run(
    alloc: Global,
    caption: &Caption<'_>,
    why: &[u8],
    details: Option<&[Detail]>,
    picture: &Picture<'_>,
) -> Result<Vec<u8>, AllocError>
    requires { IsPictureOf picture.now.file.now picture.now }
    ensures { IfOk result (λ bytes. (r : Remarks) × (r.why.now ≡ why.now) × (r.run ≡ None)
        × (option_map (λ d. d.now) r.details ≡ option_map (λ d. d.now) details.entry) × IsHtmlOf caption.now r picture.now bytes.items) }
{
    let remarks = Remarks {
        why,
        run: None,
        details,
    };
    let page = html(alloc, caption, &remarks, picture)?;
    Ok(page)
}

// How a page says why a verdict is so.
fn page_style() -> ReportStyle
    ensures { result ≡ spec.page_style }
{
    ReportStyle {
        format: Format::Text,
        has_states: false,
        colour: false,
    }
}

// What comes after the first line of a text, which is this long without its line feed.
fn after(text: &[u8], line: usize) -> &[u8]
    ensures { result.now ≡ drop (line + 1) text.now }
{
    let start = line.saturating_add(1).min(text.len());
    &text[start..]
}

// Whether a page has the run of a plan with this many actions.
fn has_run(verdict: Verdict, actions: usize) -> bool
    ensures { result ≡ spec.has_run verdict actions }
{
    match verdict {
        Verdict::Structure | Verdict::NoInstance(_) => false,
        Verdict::NotExecutable(_) | Verdict::GoalFails | Verdict::NoArrangement | Verdict::Valid =>
            actions <= MAX_RUN,
    }
}

// The run of a plan, if its page has one.
fn run_for<'a>(
    alloc: Global,
    task: &'a Task,
    file: &PlanFile,
    verdict: Verdict,
) -> Result<Option<Run<'a>>, AllocError>
    ensures { IfOk result (spec.IsRunIf task.now file.now (spec.has_run verdict (length file.now.actions))) }
{
    if !has_run(verdict, file.actions().len()) {
        return Ok(None);
    }
    let run = run_of(alloc, task, file)?;
    Ok(Some(run))
}
