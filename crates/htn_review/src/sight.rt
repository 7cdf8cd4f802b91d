//! The verdict on a plan's text, and the picture of the plan.
ghost use Rattle.std.specs.Prelude.{◌≡◌, IfOk, IfErr, option_map};
ghost use Rattle.htn_ground.specs.Naming.{naming_of};
ghost use Rattle.htn_model.specs.Grounding.{problem_of};
ghost use Rattle.htn_model.specs.Verdict.{IsVerdict};
ghost use Rattle.htn_verify.specs.Verdicts.{verdict_of};
ghost use Rattle.plan_picture.specs.Picture.{IsPictureOf};
ghost use Rattle.plan_text.specs.FileText.{FileText};
ghost use Rattle.htn_review.specs.Judgement.{IsUnjudged, RefusesPlan};
ghost use Rattle.htn_review.specs.Sights.{IsPairOf};
ghost use Rattle.htn_review.specs.Sights as sights;
ghost use Rattle.htn_review.specs.Trees as spec;

use crate::caption::{mark_of, shown_word, verdict_words};
use crate::details::details_of;
use crate::inputs::Inputs;
use crate::judge::file_in;
use crate::outcome::RunFault;
use crate::page::page_of;
use crate::text_lines::lines_in;
use crate::texts::{Pair, pair_of};
use crate::tree::Look;
use htn_command::Drawing;
use htn_plan::{PlanFile, Verdict, verify};
use picture_svg::svg;
use picture_text::{Caption, Detail, Glyphs, dot, json, text};
use plan_picture::{Picture, picture_of};
use std::alloc::{AllocError, Global};

/// The verdict on a plan, and its picture; none where its lines are no forest.
#[derive(Drop)]
pub(crate) struct Sight {
    pub(crate) verdict: Verdict,
    pub(crate) picture: Option<Vec<u8>>,
}

/// The verdict on a plan, and what a picture shows of a solution.
#[derive(Clone, Copy)]
pub(crate) struct Known<'a> {
    pub(crate) verdict: Verdict,
    pub(crate) details: Option<&'a [Detail]>,
}

/// Reads a domain, a problem and a plan, as `run_verify` does, and draws the plan.
pub(crate) fn sight_of_texts(
    alloc: Global,
    inputs: Inputs<'_>,
    look: Look,
) -> Result<Sight, RunFault>
    ensures sight { IfOk result (sights.IsSightOfTexts inputs.entry look.drawing look.has_details) }
    ensures refused { IfErr result (RefusesPlan inputs.entry.domain.text.now inputs.entry.problem.text.now inputs.entry.plan.text.now) }
{
    let pair = pair_of(alloc, inputs.domain.text, inputs.problem.text)?;
    sight_of_text(alloc, &pair, inputs, look)
}

// Reads a plan, and draws it for a pair.
fn sight_of_text(
    alloc: Global,
    pair: &Pair,
    inputs: Inputs<'_>,
    look: Look,
) -> Result<Sight, RunFault>
    requires { IsPairOf inputs.domain.text.now inputs.problem.text.now pair.now }
    ensures sight { IfOk result (sights.IsSightOfText inputs.entry pair.now look.drawing look.has_details) }
    ensures refused { IfErr result (IsUnjudged inputs.entry.plan.text.now) }
{
    let file = file_in(alloc, inputs.plan.text)?;
    let sight = sight_of(alloc, pair, &file, inputs, look)?;
    Ok(sight)
}

// The verdict on a plan file for the task of a pair, and the picture of the file.
fn sight_of(
    alloc: Global,
    pair: &Pair,
    file: &PlanFile,
    inputs: Inputs<'_>,
    look: Look,
) -> Result<Sight, AllocError>
    requires { sights.AreHeld inputs pair.now file.now }
    ensures { IfOk result (sights.IsSight inputs.entry pair.now file.now look.drawing look.has_details) }
{
    let verdict = verify(alloc, &pair.task, file)?;
    match picture_of(alloc, file)? {
        Some(picture) => {
            let here = Inputs {
                domain: inputs.domain,
                problem: inputs.problem,
                plan: inputs.plan,
            };
            let bytes = drawn(alloc, pair, here, verdict, &picture, look)?;
            Ok(Sight {
                verdict,
                picture: Some(bytes),
            })
        }
        None => Ok(Sight {
            verdict,
            picture: None,
        }),
    }
}

// The picture, with what it shows of a solution.
fn drawn<'a>(
    alloc: Global,
    pair: &'a Pair,
    inputs: Inputs<'a>,
    verdict: Verdict,
    picture: &'a Picture<'a>,
    look: Look,
) -> Result<Vec<u8>, AllocError>
    requires held { sights.AreHeld inputs pair.now picture.now.file.now }
    requires verdict { IsVerdict (naming_of pair.now.task) (problem_of pair.now.task) picture.now.file.now (verdict_of verdict) }
    requires picture { IsPictureOf picture.now.file.now picture.now }
    ensures { IfOk result (λ bytes. spec.AreDrawn look.drawing look.has_details (sights.subject_of inputs.entry pair.now picture.now.file.now verdict) picture.now bytes.items) }
{
    let found = details_for(alloc, pair, picture.file, verdict, look)?;
    let known = Known {
        verdict,
        details: as_slice_of(&found),
    };
    let bytes = captioned(alloc, pair, inputs, known, picture, look.drawing)?;
    Ok(bytes)
}

// Details as a slice.
fn as_slice_of(details: &Option<Vec<Detail>>) -> Option<&[Detail]>
    ensures { option_map (λ d. d.now) result ≡ option_map (λ v. v.items) details.now }
{
    match details {
        Some(details) => Some(details.as_slice()),
        None => None,
    }
}

// What a picture shows of a solution, if it shows anything of one.
fn details_for(
    alloc: Global,
    pair: &Pair,
    file: &PlanFile,
    verdict: Verdict,
    look: Look,
) -> Result<Option<Vec<Detail>>, AllocError>
    ensures { IfOk result (λ found. spec.AreDetailsIf (spec.has_details look.drawing look.has_details) pair.now.domain pair.now.task file.now verdict
        (option_map (λ v. v.items) found)) }
{
    if !has_details(look) {
        return Ok(None);
    }
    match verdict {
        Verdict::Valid => details_of(alloc, &pair.domain, &pair.task, file),
        _ => Ok(None),
    }
}

// Whether a picture shows something of a solution.
fn has_details(look: Look) -> bool
    ensures { result ≡ spec.has_details look.drawing look.has_details }
{
    match look.drawing {
        Drawing::Text | Drawing::Ascii => look.has_details,
        Drawing::Json | Drawing::Svg | Drawing::Html => true,
        Drawing::Dot => false,
    }
}

// The picture with the names of the pair and the words of the verdict.
fn captioned<'a>(
    alloc: Global,
    pair: &'a Pair,
    inputs: Inputs<'a>,
    known: Known<'_>,
    picture: &'a Picture<'a>,
    drawing: Drawing,
) -> Result<Vec<u8>, AllocError>
    requires held { sights.AreHeld inputs pair.now picture.now.file.now }
    requires verdict { IsVerdict (naming_of pair.now.task) (problem_of pair.now.task) picture.now.file.now (verdict_of known.verdict) }
    requires picture { IsPictureOf picture.now.file.now picture.now }
    ensures { IfOk result (λ bytes. sights.AreCaptioned (sights.subject_of inputs.entry pair.now picture.now.file.now known.entry.verdict)
        (option_map (λ d. d.now) known.entry.details) drawing picture.now bytes.items) }
{
    let domain = shown_word(alloc, pair.domain.name.text())?;
    let problem = shown_word(alloc, pair.problem.name.text())?;
    let words = verdict_words(alloc, known.verdict)?;
    let mark = mark_of(known.verdict);
    let caption = Caption {
        domain: domain.as_str(),
        problem: problem.as_str(),
        verdict: words.as_str(),
        mark,
    };
    let bytes = picture_bytes(alloc, pair, inputs, known, drawing, &caption, picture)?;
    Ok(bytes)
}

// The picture in one of the forms.
fn picture_bytes<'a>(
    alloc: Global,
    pair: &'a Pair,
    inputs: Inputs<'a>,
    known: Known<'_>,
    drawing: Drawing,
    caption: &Caption<'_>,
    picture: &'a Picture<'a>,
) -> Result<Vec<u8>, AllocError>
    requires held { sights.AreHeld inputs pair.now picture.now.file.now }
    requires verdict { IsVerdict (naming_of pair.now.task) (problem_of pair.now.task) picture.now.file.now (verdict_of known.verdict) }
    requires caption { spec.IsCaption pair.now.domain pair.now.problem known.verdict caption.now }
    requires picture { IsPictureOf picture.now.file.now picture.now }
    ensures { IfOk result (λ bytes. spec.IsWritten drawing (sights.subject_of inputs.entry pair.now picture.now.file.now known.entry.verdict) caption.now
        (option_map (λ d. d.now) known.entry.details) picture.now bytes.items) }
{
    match drawing {
        Drawing::Text => text(alloc, Glyphs::Unicode, caption, known.details, picture),
        Drawing::Ascii => text(alloc, Glyphs::Ascii, caption, known.details, picture),
        Drawing::Json => json_of(alloc, inputs.plan.text, caption, known.details, picture),
        Drawing::Dot => dot(alloc, caption, picture),
        Drawing::Svg => svg(alloc, caption, known.details, picture),
        Drawing::Html => page_of(alloc, pair, picture.file, inputs, known, caption, picture),
    }
}

// The picture as JSON, with the lines of the plan's text.
fn json_of(
    alloc: Global,
    plan: &[u8],
    caption: &Caption<'_>,
    details: Option<&[Detail]>,
    picture: &Picture<'_>,
) -> Result<Vec<u8>, AllocError>
    requires { FileText picture.now.file.now plan.now }
    ensures { IfOk result (λ bytes. sights.IsJsonOf plan.now caption.now (option_map (λ d. d.now) details.entry) picture.now bytes.items) }
{
    let lines = lines_in(alloc, plan)?;
    let bytes = json(alloc, caption, &lines, details, picture)?;
    Ok(bytes)
}
