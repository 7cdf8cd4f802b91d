//! The run of a check: from the bytes of a domain, and of a problem if there is one, to the bytes of the report.
ghost use Rattle.std.specs.Prelude.{◌≡◌, ◌≢◌, List, ℕ, true, IfOk, IfErr, OnOk};
ghost use Rattle.std.specs.Io.KnownBytes.{Appends};
ghost use Rattle.check_report.specs.Checks.{AreRefused, bytes_of, domain_named, problem_named};
ghost use Rattle.check_report.specs.Texts.{FitTogether};
ghost use Rattle.htn_review.specs.Checking.{IsReportCutShort, Reports};
ghost use Rattle.htn_review.specs.declared.outcome.RunFault.TheVariants.{Output, OutOfMemory};

use crate::outcome::RunFault;
use check_report::{Finding, Input, Options, check_texts};
use htn_plan::{Out, put_all};
use std::alloc::Global;

/// Checks a domain, and a problem if there is one, and writes the report. Nothing is written before all is known. It
/// finds an error exactly where a text is refused or the two don't fit together.
///
/// The fault is `OutOfMemory` or `Output`. After `Output` the output has failed, and a beginning of the report stands in
/// it; after `OutOfMemory` it is as it was.
pub fn run_check<O: Out>(
    alloc: Global,
    domain: Input<'_>,
    problem: Option<Input<'_>>,
    options: Options,
    out: &mut O,
) -> Result<Finding, RunFault>
    ensures report { IfOk result (λ finding. (text : List ℕ)
        × Reports (domain_named domain.entry) (problem_named problem.entry) options finding text × Appends (O.contents out.old) (O.contents out.new) text) }
    ensures refused { IfOk result (λ finding. finding ≡ Finding.Faulty → AreRefused domain.entry.text.now (bytes_of (problem_named problem.entry))) }
    ensures fits { IfOk result (λ finding. finding ≢ Finding.Faulty → FitTogether domain.entry.text.now (bytes_of (problem_named problem.entry))) }
    ensures works { OnOk result (O.has_failed out.new ≡ O.has_failed out.old) }
    ensures unwritten { IfErr result (λ fault. fault ≢ Output → (fault ≡ OutOfMemory) × (out.new ≡ out.old)) }
    ensures cut_short { IfErr result (λ fault. fault ≡ Output
        → IsReportCutShort (domain_named domain.entry) (problem_named problem.entry) options (O.contents out.old) (O.contents out.new) × (O.has_failed out.new ≡ true)) }
{
    let checked = check_texts(alloc, domain, problem, options)?;
    put_all(out, checked.text.as_slice())?;
    Ok(checked.finding)
}
