//! The text of an answer.
ghost use Rattle.std.specs.Prelude.{◌≡◌, ◌≢◌, List, Option, ℕ, true, IfOk, IfErr, OnOk};
ghost use Rattle.std.specs.Io.KnownBytes.{Appends};
ghost use Rattle.htn_search.specs.Answer.{Answers, IsKnown};
ghost use Rattle.htn_review.specs.Headline.{IsCutShort, IsWatchedCutShort, Says, SaysWatched};
ghost use Rattle.htn_review.specs.declared.outcome.RunFault.TheVariants.{OutOfMemory, Output};

use crate::progress::put_unknown;
use htn_plan::{Out, file_of, put_all, write_plan};
use htn_review::{Outcome, RunFault, Watched};
use htn_search::{Answer, Known};
use htn_task::Task;
use std::alloc::Global;

/// Writes the plan of a solution, or `none`, or `unsolvable`, with a line feed.
pub(crate) fn write_answer<O: Out>(
    alloc: Global,
    task: &Task,
    bound: u64,
    answer: &Answer,
    out: &mut O,
) -> Result<Outcome, RunFault>
    requires { Answers task.now bound answer.now }
    ensures says { IfOk result (λ outcome. (text : List ℕ) × Says task.now bound outcome text × Appends (O.contents out.old) (O.contents out.new) text) }
    ensures works { OnOk result (O.has_failed out.new ≡ O.has_failed out.old) }
    ensures faults { IfErr result (λ fault. fault ≢ Output → (fault ≡ OutOfMemory) × (out.new ≡ out.old)) }
    ensures cut_short { IfErr result (λ fault. fault ≡ Output
        → IsCutShort task.now bound (O.contents out.old) (O.contents out.new) × (O.has_failed out.new ≡ true)) }
{
    match answer {
        Answer::Plan(solution) => {
            let file = file_of(alloc, task, solution)?;
            write_plan(&file, out)?;
            Ok(Outcome::Found)
        }
        Answer::None => {
            put_all(out, b"none\n")?;
            Ok(Outcome::NoPlan)
        }
        Answer::Unsolvable => {
            put_all(out, b"unsolvable\n")?;
            Ok(Outcome::Unsolvable)
        }
    }
}

/// Writes the result of a watched search with a line feed: the answer, or `unknown` and the number of nodes within
/// which there is no solution, if one is known.
pub(crate) fn write_known<O: Out>(
    alloc: Global,
    task: &Task,
    bound: u64,
    known: &Known,
    out: &mut O,
) -> Result<Watched, RunFault>
    requires { IsKnown task.now bound known.now }
    ensures says { IfOk result (λ watched. (text : List ℕ)
        × SaysWatched task.now bound ((none : Option ℕ) × (known.now ≡ Known.Unknown none)) watched text
        × Appends (O.contents out.old) (O.contents out.new) text) }
    ensures works { OnOk result (O.has_failed out.new ≡ O.has_failed out.old) }
    ensures faults { IfErr result (λ fault. fault ≢ Output → (fault ≡ OutOfMemory) × (out.new ≡ out.old)) }
    ensures cut_short { IfErr result (λ fault. fault ≡ Output
        → IsWatchedCutShort task.now bound ((none : Option ℕ) × (known.now ≡ Known.Unknown none)) (O.contents out.old) (O.contents out.new)
        × (O.has_failed out.new ≡ true)) }
{
    match known {
        Known::Answer(answer) => {
            let outcome = write_answer(alloc, task, bound, answer, out)?;
            Ok(Watched::Known(outcome))
        }
        Known::Unknown { none_within } => {
            put_unknown(out, *none_within)?;
            Ok(Watched::Unknown {
                none_within: *none_within,
            })
        }
    }
}
