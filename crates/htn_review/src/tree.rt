//! The run of a tree: from the bytes of a domain, a problem and a plan to the bytes of the plan's picture.
ghost use Rattle.std.specs.Prelude.{◌≡◌, ◌≢◌, List, ℕ, true, IfOk, IfErr, OnOk};
ghost use Rattle.std.specs.Io.KnownBytes.{Appends};
ghost use Rattle.htn_review.specs.Checking.{domain_text, problem_text};
ghost use Rattle.htn_review.specs.Explaining.{plan_text};
ghost use Rattle.htn_review.specs.Reads as reads;
ghost use Rattle.htn_review.specs.Sights as sights;
ghost use Rattle.htn_review.specs.Trees as spec;
ghost use Rattle.htn_review.specs.declared.outcome.RunFault.TheVariants.{Output};

use crate::inputs::Inputs;
use crate::outcome::RunFault;
use crate::sight::{Sight, sight_of_texts};
use check_report::{Format, Input, Options, check_texts};
use htn_command::Drawing;
use htn_plan::{Out, Verdict, put_all};
use std::alloc::{AllocError, Global};

/// What the run of a tree came to.
#[derive(Debug, Drop)]
pub enum Drawn {
    /// The verdict on the plan. The picture was written, but for `Structure`, of which there is none.
    Judged(Verdict),
    /// The domain or the problem is refused, or they don't fit together. This report says why.
    Refused(Vec<u8>),
}

/// How a picture is written.
#[derive(Clone, Copy, Debug)]
pub struct Look {
    pub drawing: Drawing,
    /// Whether text shows what a solution says of the lines of a valid plan.
    pub has_details: bool,
    /// Whether the report on texts that are refused has colours.
    pub colour: bool,
}

/// Reads a domain, a problem and a plan, and writes the picture of the plan, with the verdict that `run_verify` writes. A
/// page also has what `run_explain` says of that, and the run of the plan's actions. Of a valid plan a picture as JSON, as
/// SVG or on a page, and text where that is wanted, also shows what a solution says whose shadow the plan is: the values
/// of the methods' parameters that the tasks don't show, and when each method's precondition is tested.
/// Nothing is written where the lines of the plan are no forest, which is the verdict `Structure`; nor where the domain
/// or the problem is refused, of which `check_texts` makes the report. Nothing is written before all is known.
///
/// The fault is `Plan`, `OutOfMemory` or `Output`. After `Output` the output has failed, and a beginning of the picture
/// stands in it; after any other fault it is as it was.
pub fn run_tree<'a, O: Out>(
    alloc: Global,
    domain: Input<'a>,
    problem: Input<'a>,
    plan: Input<'a>,
    look: Look,
    out: &mut O,
) -> Result<Drawn, RunFault>
    ensures drawn { IfOk result (λ drawn. (text : List ℕ)
        × spec.Draws (domain_text domain.entry.name.now domain.entry.text.now) (problem_text problem.entry.name.now problem.entry.text.now)
        (plan_text plan.entry.name.now plan.entry.text.now) look drawn text × Appends (O.contents out.old) (O.contents out.new) text) }
    ensures works { OnOk result (O.has_failed out.new ≡ O.has_failed out.old) }
    ensures refused { IfErr result (λ fault. fault ≢ Output → spec.IsUndrawn domain.entry.text.now problem.entry.text.now plan.entry.text.now fault × (out.new ≡ out.old)) }
    ensures cut_short { IfErr result (λ fault. fault ≡ Output
        → spec.IsPictureCutShort (domain_text domain.entry.name.now domain.entry.text.now) (problem_text problem.entry.name.now problem.entry.text.now)
        (plan_text plan.entry.name.now plan.entry.text.now) look.drawing look.has_details (O.contents out.old) (O.contents out.new) × (O.has_failed out.new ≡ true)) }
{
    let inputs = Inputs {
        domain,
        problem,
        plan,
    };
    match sight_of_texts(alloc, inputs, look) {
        Ok(sight) => show(sight, out),
        Err(fault) => refuse(alloc, domain, problem, look.colour, fault),
    }
}

// Writes the picture, if there is one.
fn show<O: Out>(sight: Sight, out: &mut O) -> Result<Drawn, RunFault>
    ensures shown { IfOk result (λ drawn. sights.IsShown sight drawn (O.contents out.old) (O.contents out.new)) }
    ensures works { OnOk result (O.has_failed out.new ≡ O.has_failed out.old) }
    ensures fault { IfErr result (λ fault. fault ≡ Output) }
    ensures cut_short { IfErr result (λ fault. sights.IsBegun sight (O.contents out.old) (O.contents out.new) × (O.has_failed out.new ≡ true)) }
{
    if let Some(bytes) = &sight.picture {
        put_all(out, bytes.as_slice())?;
    }
    Ok(Drawn::Judged(sight.verdict))
}

// The report on a domain and a problem, for a fault that they have. Any other fault stays.
fn refuse(
    alloc: Global,
    domain: Input<'_>,
    problem: Input<'_>,
    colour: bool,
    fault: RunFault,
) -> Result<Drawn, RunFault>
    ensures of_pair { OnOk result (reads.is_of_pair fault ≡ true) }
    ensures reported { IfOk result (sights.IsReported (domain_text domain.entry.name.now domain.entry.text.now) (problem_text problem.entry.name.now problem.entry.text.now) colour) }
    ensures stays { IfErr result (sights.IsLeft fault) }
{
    if !is_of_pair(fault) {
        return Err(fault);
    }
    let report = report_of(alloc, domain, problem, Format::Text, colour)?;
    Ok(Drawn::Refused(report))
}

/// Whether a fault is of the domain, of the problem or of the two together.
pub(crate) fn is_of_pair(fault: RunFault) -> bool
    ensures { result ≡ reads.is_of_pair fault }
{
    matches!(
        fault,
        RunFault::Domain(_) | RunFault::Problem(_) | RunFault::Check(_)
    )
}

/// The bytes of the report on a domain and a problem.
pub(crate) fn report_of(
    alloc: Global,
    domain: Input<'_>,
    problem: Input<'_>,
    format: Format,
    colour: bool,
) -> Result<Vec<u8>, AllocError>
    ensures { IfOk result (λ bytes. reads.IsReport (domain_text domain.entry.name.now domain.entry.text.now) (problem_text problem.entry.name.now problem.entry.text.now)
        (reads.report_options format colour) bytes.items) }
{
    let options = Options {
        format,
        limit: 20,
        is_strict: false,
        colour,
    };
    let checked = check_texts(alloc, domain, Some(problem), options)?;
    Ok(checked.text)
}
