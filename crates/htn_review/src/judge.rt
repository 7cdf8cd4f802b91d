//! The run of a verifier: from the bytes of a domain, a problem and a plan to the bytes of the verdict.
ghost use Rattle.std.specs.Prelude.{◌≡◌, ◌≢◌, ◌↔◌, List, ℕ, true, IfOk, IfErr, OnOk};
ghost use Rattle.std.specs.Io.KnownBytes.{Appends};
ghost use Rattle.htn_verify.specs.declared.verdict.Verdict.TheVariants.{Valid};
ghost use Rattle.plan_text.specs.FileText.{FileText};
ghost use Rattle.htn_review.specs.Judgement.{IsTellingCutShort, IsUnjudged, IsVerdictCutShort, Judges, RefusesPlan, ShowsSolution, Tells};
ghost use Rattle.htn_review.specs.declared.outcome.RunFault.TheVariants.{Output};

use crate::outcome::RunFault;
use crate::texts::task_of;
use crate::verdict::write_verdict;
use htn_plan::{Out, PlanFault, PlanFile, Verdict, read_plan, verify};
use htn_task::Task;
use std::alloc::Global;

/// Reads a domain, a problem and a plan, and writes the verdict with a line feed: `valid`, or `invalid: ` and the first
/// of the causes that hold. It is `valid` exactly where the plan's text has a file that is the shadow of a solution, of
/// any size. Nothing is written before the verdict is known.
///
/// The domain is read first, then the problem, then the pair is checked, and then the plan is read. `NoThread` never
/// comes. After `Output` the output has failed, and a beginning of the verdict's text stands in it; after any other
/// fault it is as it was.
pub fn run_verify<O: Out>(
    alloc: Global,
    domain: &[u8],
    problem: &[u8],
    plan: &[u8],
    out: &mut O,
) -> Result<Verdict, RunFault>
    ensures verdict { IfOk result (λ verdict. (text : List ℕ)
        × Judges domain.now problem.now plan.now verdict text × Appends (O.contents out.old) (O.contents out.new) text) }
    ensures valid { IfOk result (λ verdict. (verdict ≡ Valid) ↔ ShowsSolution domain.now problem.now plan.now) }
    ensures works { OnOk result (O.has_failed out.new ≡ O.has_failed out.old) }
    ensures refused { IfErr result (λ fault. fault ≢ Output → RefusesPlan domain.now problem.now plan.now fault × (out.new ≡ out.old)) }
    ensures cut_short { IfErr result (λ fault. fault ≡ Output
        → IsVerdictCutShort domain.now problem.now plan.now (O.contents out.old) (O.contents out.new) × (O.has_failed out.new ≡ true)) }
{
    let task = task_of(alloc, domain, problem)?;
    judge_task(alloc, &task, plan, out)
}

/// Reads a plan, and writes its verdict for a task, as `run_verify` does from the texts on.
pub(crate) fn judge_task<O: Out>(
    alloc: Global,
    task: &Task,
    plan: &[u8],
    out: &mut O,
) -> Result<Verdict, RunFault>
    ensures verdict { IfOk result (λ verdict. (text : List ℕ)
        × Tells task.now plan.now verdict text × Appends (O.contents out.old) (O.contents out.new) text) }
    ensures works { OnOk result (O.has_failed out.new ≡ O.has_failed out.old) }
    ensures refused { IfErr result (λ fault. fault ≢ Output → IsUnjudged plan.now fault × (out.new ≡ out.old)) }
    ensures cut_short { IfErr result (λ fault. fault ≡ Output
        → IsTellingCutShort task.now plan.now (O.contents out.old) (O.contents out.new) × (O.has_failed out.new ≡ true)) }
{
    let file = file_in(alloc, plan)?;
    let verdict = verify(alloc, task, &file)?;
    write_verdict(verdict, out)?;
    Ok(verdict)
}

/// The plan file that a text holds.
pub(crate) fn file_in(alloc: Global, text: &[u8]) -> Result<PlanFile, RunFault>
    ensures held { IfOk result (λ file. FileText file text.now) }
    ensures refused { IfErr result (IsUnjudged text.now) }
{
    match read_plan(alloc, text) {
        Ok(file) => Ok(file),
        Err(fault) => match fault {
            PlanFault::OutOfMemory => Err(RunFault::OutOfMemory),
            _ => Err(RunFault::Plan(fault)),
        },
    }
}
