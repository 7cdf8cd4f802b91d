//! The run of a request for an explanation.
ghost use Rattle.std.specs.Prelude.{◌≡◌, ◌∷◌, [], IfOk, IfErr, OnOk};
ghost use Rattle.htn_command.specs.declared.choice.Colour.{Colour};
ghost use Rattle.htn_command.specs.declared.request.Request.TheVariants as request;
ghost use Rattle.htn_review.specs.Checking as spec;
ghost use Rattle.htn_run.specs.Reading as reading;
ghost use Rattle.htn_review.specs.Checking.{MayColour};
ghost use Rattle.htn_run.specs.Files.{NotesBeginning};
ghost use Rattle.htn_run.specs.Requests.{AddsAnswer};
ghost use Rattle.htn_run.specs.Stops.{Stops};

use crate::reply::Reply;
use crate::source::Source;
use crate::stop::{Stop, Text};
use crate::words::{file_of, read_file, read_texts};
use check_report::Input;
use htn_plan::Out;
use htn_review::run_explain;
use plan_report::ReportStyle;
use std::alloc::Global;

/// The run of a request for an explanation.
pub(crate) fn explain_files<S: Source, O: Out>(
    alloc: Global,
    domain: &str,
    problem: &str,
    plan: &str,
    style: ReportStyle,
    files: &mut S,
    out: &mut O,
) -> Result<Reply, Stop>
    ensures answered { IfOk result (λ reply. (colour : Colour) → MayColour colour style.colour
        → AddsAnswer (S.files files.old) (O.contents out.old) (O.contents out.new) reply (request.Explain domain.entry problem.entry plan.entry style.format style.has_states colour)) }
    ensures works { OnOk result (O.has_failed out.new ≡ O.has_failed out.old) }
    ensures stopped { IfErr result (λ stop. (colour : Colour) → MayColour colour style.colour
        → Stops O.contents O.has_failed (S.files files.old) (request.Explain domain.entry problem.entry plan.entry style.format style.has_states colour) out.old out.new stop) }
    ensures reads { NotesBeginning (S.reads files.old) (S.reads files.new)
        (reading.file_of domain.entry.now ∷ reading.file_of problem.entry.now ∷ reading.file_of plan.entry.now ∷ []) }
{
    let (first, second) = read_texts(alloc, files, file_of(domain), file_of(problem))?;
    let third = read_file(alloc, files, Text::Plan, file_of(plan))?;
    let domain = Input {
        name: domain,
        text: first.as_slice(),
    };
    let problem = Input {
        name: problem,
        text: second.as_slice(),
    };
    let plan = Input {
        name: plan,
        text: third.as_slice(),
    };
    let came = run_explain(alloc, domain, problem, plan, style, out)?;
    Ok(Reply::Explained(came))
}
