//! The lines that report the progress of a search.
ghost use Rattle.std.specs.Prelude.{◌++◌, codes};
ghost use Rattle.plan_text.specs.Out.{Writes};
ghost use Rattle.htn_review.specs.Headline.{number_text, unknown_text, within_text};
ghost use Rattle.htn_run.specs.Progress.{count_text, end_line, end_text, found_text, progress_line, reach_text};

use htn_plan::{Out, WriteFault, put_all};
use htn_review::{Outcome, Watched, put_id};

/// The progress of a search.
#[derive(Clone, Copy, Debug)]
pub(crate) struct Progress {
    pub(crate) seconds: u64,
    /// The bound on the nodes of the search that is under way.
    pub(crate) bound: u64,
    pub(crate) configurations: u64,
    /// No solution has at most this number of nodes, if there is one.
    pub(crate) none_within: Option<u64>,
}

/// Writes a number in decimal, after some words.
fn put_number<O: Out>(out: &mut O, before: &[u8], number: u64) -> Result<(), WriteFault>
    ensures { Writes (O.contents out.old) (O.contents out.new) (O.has_failed out.old) (O.has_failed out.new) result (number_text before.now number) }
{
    put_all(out, before)?;
    put_id(out, number)
}

/// Writes, after some words, the number of nodes within which there is no solution, if one is known.
fn put_within<O: Out>(
    out: &mut O,
    before: &[u8],
    none_within: Option<u64>,
) -> Result<(), WriteFault>
    ensures { Writes (O.contents out.old) (O.contents out.new) (O.has_failed out.old) (O.has_failed out.new) result (within_text before.now none_within) }
{
    match none_within {
        Some(nodes) => put_number(out, before, nodes),
        None => Ok(()),
    }
}

/// Writes, after some words, the number of nodes within which there is no solution, if one is known, and a line feed.
fn put_tail<O: Out>(out: &mut O, before: &[u8], none_within: Option<u64>) -> Result<(), WriteFault>
    ensures { Writes (O.contents out.old) (O.contents out.new) (O.has_failed out.old) (O.has_failed out.new) result (within_text before.now none_within ++ codes "\n") }
{
    put_within(out, before, none_within)?;
    put_all(out, b"\n")
}

/// Writes `unknown`, the number of nodes within which there is no solution, if one is known, and a line feed.
pub(crate) fn put_unknown<O: Out>(out: &mut O, none_within: Option<u64>) -> Result<(), WriteFault>
    ensures { Writes (O.contents out.old) (O.contents out.new) (O.has_failed out.old) (O.has_failed out.new) result (unknown_text none_within) }
{
    put_all(out, b"unknown")?;
    put_tail(out, b": none within ", none_within)
}

/// Writes the end of a line of progress, from the word `configurations` on.
fn put_found<O: Out>(out: &mut O, progress: Progress) -> Result<(), WriteFault>
    ensures { Writes (O.contents out.old) (O.contents out.new) (O.has_failed out.old) (O.has_failed out.new) result (found_text progress.none_within) }
{
    put_all(out, b" configurations")?;
    put_tail(out, b", none within ", progress.none_within)
}

/// Writes the end of a line of progress, from the number of configurations on.
fn put_count<O: Out>(out: &mut O, progress: Progress) -> Result<(), WriteFault>
    ensures { Writes (O.contents out.old) (O.contents out.new) (O.has_failed out.old) (O.has_failed out.new) result (count_text progress.configurations progress.none_within) }
{
    put_number(out, b" nodes, ", progress.configurations)?;
    put_found(out, progress)
}

/// Writes the end of a line of progress, from the bound on.
fn put_reach<O: Out>(out: &mut O, progress: Progress) -> Result<(), WriteFault>
    ensures { Writes (O.contents out.old) (O.contents out.new) (O.has_failed out.old) (O.has_failed out.new) result (reach_text progress.bound progress.configurations progress.none_within) }
{
    put_number(out, b" s, plans of up to ", progress.bound)?;
    put_count(out, progress)
}

/// Writes a line of progress.
pub(crate) fn put_progress<O: Out>(out: &mut O, progress: Progress) -> Result<(), WriteFault>
    ensures { Writes (O.contents out.old) (O.contents out.new) (O.has_failed out.old) (O.has_failed out.new) result
        (progress_line progress.seconds progress.bound progress.configurations progress.none_within) }
{
    put_number(out, b"progress: ", progress.seconds)?;
    put_reach(out, progress)
}

/// Writes the result of a search, with a line feed.
fn put_end_text<O: Out>(out: &mut O, watched: Watched) -> Result<(), WriteFault>
    ensures { Writes (O.contents out.old) (O.contents out.new) (O.has_failed out.old) (O.has_failed out.new) result (end_text watched) }
{
    match watched {
        Watched::Known(Outcome::Found) => put_all(out, b" s, plan found\n"),
        Watched::Known(Outcome::NoPlan) => put_all(out, b" s, none\n"),
        Watched::Known(Outcome::Unsolvable) => put_all(out, b" s, unsolvable\n"),
        Watched::Unknown { .. } => put_all(out, b" s, stopped\n"),
    }
}

/// Writes the line with the result of a search.
pub(crate) fn put_end<O: Out>(out: &mut O, seconds: u64, watched: Watched) -> Result<(), WriteFault>
    ensures { Writes (O.contents out.old) (O.contents out.new) (O.has_failed out.old) (O.has_failed out.new) result (end_line seconds watched) }
{
    put_number(out, b"progress: ", seconds)?;
    put_end_text(out, watched)
}
