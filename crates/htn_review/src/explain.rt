//! The run of an explanation: from the bytes of a domain, a problem and a plan to the bytes that say why the plan has its
//! verdict.
ghost use Rattle.std.specs.Prelude.{◌≡◌, ◌≢◌, List, ℕ, true, IfOk, IfErr, OnOk};
ghost use Rattle.std.specs.Io.KnownBytes.{Appends};
ghost use Rattle.htn_review.specs.Checking.{domain_text, problem_text};
ghost use Rattle.htn_review.specs.Explaining as spec;
ghost use Rattle.htn_review.specs.declared.outcome.RunFault.TheVariants.{Output, OutOfMemory};

use crate::explanation::explanation_of;
use crate::outcome::RunFault;
use check_report::Input;
use htn_plan::{Out, Verdict, put_all};
use plan_report::ReportStyle;
use std::alloc::Global;

/// The result of an explanation whose text was written.
#[derive(Clone, Copy, Debug, PartialEq, Eq)]
pub enum Explained {
    /// The verdict on the plan.
    Judged(Verdict),
    /// A text is refused, or the domain and the problem don't fit together.
    Refused,
}

/// Reads a domain, a problem and a plan, and writes the verdict that `run_verify` writes, and why it is so. Where the
/// domain or the problem is refused, the report that `check_texts` makes of them is written in its place, and where the
/// plan's text is, a report of that alone. Nothing is written before all is known.
///
/// The fault is `OutOfMemory` or `Output`. After `Output` the output has failed, and a beginning of the text stands in
/// it; after `OutOfMemory` it is as it was.
pub fn run_explain<'a, O: Out>(
    alloc: Global,
    domain: Input<'a>,
    problem: Input<'a>,
    plan: Input<'a>,
    style: ReportStyle,
    out: &mut O,
) -> Result<Explained, RunFault>
    ensures explained { IfOk result (λ came. (text : List ℕ)
        × spec.Explains (domain_text domain.entry.name.now domain.entry.text.now) (problem_text problem.entry.name.now problem.entry.text.now)
        (spec.plan_text plan.entry.name.now plan.entry.text.now) style came text × Appends (O.contents out.old) (O.contents out.new) text) }
    ensures works { OnOk result (O.has_failed out.new ≡ O.has_failed out.old) }
    ensures unwritten { IfErr result (λ fault. fault ≢ Output → (fault ≡ OutOfMemory) × (out.new ≡ out.old)) }
    ensures cut_short { IfErr result (λ fault. fault ≡ Output
        → spec.IsExplanationCutShort (domain_text domain.entry.name.now domain.entry.text.now) (problem_text problem.entry.name.now problem.entry.text.now)
        (spec.plan_text plan.entry.name.now plan.entry.text.now) style (O.contents out.old) (O.contents out.new) × (O.has_failed out.new ≡ true)) }
{
    let explanation = explanation_of(alloc, domain, problem, plan, style)?;
    put_all(out, explanation.text.as_slice())?;
    Ok(explanation.came)
}
