//! The run of a request for the picture of a plan.
ghost use Rattle.std.specs.Prelude.{◌≡◌, ◌∷◌, [], IfOk, IfErr, OnOk};
ghost use Rattle.htn_command.specs.declared.choice.Colour.{Colour};
ghost use Rattle.htn_command.specs.declared.request.Request.TheVariants as request;
ghost use Rattle.htn_review.specs.Checking as spec;
ghost use Rattle.htn_run.specs.Reading as reading;
ghost use Rattle.htn_review.specs.Checking.{MayColour};
ghost use Rattle.htn_run.specs.Files.{NotesBeginning};
ghost use Rattle.htn_run.specs.Requests.{AddsAnswer};
ghost use Rattle.htn_run.specs.Stops.{Stops};

use crate::reply::Reply;
use crate::source::Source;
use crate::stop::{Stop, Text};
use crate::words::{file_of, read_file, read_texts};
use check_report::Input;
use htn_plan::Out;
use htn_review::{Look, run_tree};
use std::alloc::Global;

/// The run of a request for a tree.
pub(crate) fn tree_files<S: Source, O: Out>(
    alloc: Global,
    domain: &str,
    problem: &str,
    plan: &str,
    look: Look,
    files: &mut S,
    out: &mut O,
) -> Result<Reply, Stop>
    ensures answered { IfOk result (λ reply. (colour : Colour) → MayColour colour look.colour
        → AddsAnswer (S.files files.old) (O.contents out.old) (O.contents out.new) reply (request.Tree domain.entry problem.entry plan.entry look.drawing look.has_details colour)) }
    ensures works { OnOk result (O.has_failed out.new ≡ O.has_failed out.old) }
    ensures stopped { IfErr result (λ stop. (colour : Colour)
        → Stops O.contents O.has_failed (S.files files.old) (request.Tree domain.entry problem.entry plan.entry look.drawing look.has_details colour) out.old out.new stop) }
    ensures reads { NotesBeginning (S.reads files.old) (S.reads files.new)
        (reading.file_of domain.entry.now ∷ reading.file_of problem.entry.now ∷ reading.file_of plan.entry.now ∷ []) }
{
    let (first, second) = read_texts(alloc, files, file_of(domain), file_of(problem))?;
    let third = read_file(alloc, files, Text::Plan, file_of(plan))?;
    let domain = Input {
        name: domain,
        text: first.as_slice(),
    };
    let problem = Input {
        name: problem,
        text: second.as_slice(),
    };
    let plan = Input {
        name: plan,
        text: third.as_slice(),
    };
    let drawn = run_tree(alloc, domain, problem, plan, look, out)?;
    Ok(Reply::Drawn(drawn))
}
