//! The line for each verdict.
ghost use Rattle.std.specs.Fmt.{decimal};
ghost use Rattle.plan_text.specs.Out.{Writes};
ghost use Rattle.htn_review.specs.Judgement.{fault_text, line_text, verdict_text};

use htn_plan::{Out, Verdict, WriteFault, put_all};
use itoa::Buffer;

/// Writes an id in decimal.
pub fn put_id<O: Out>(out: &mut O, id: u64) -> Result<(), WriteFault>
    ensures { Writes (O.contents out.old) (O.contents out.new) (O.has_failed out.old) (O.has_failed out.new) result (decimal id) }
{
    let mut buffer = Buffer::new();
    put_all(out, buffer.format(id).as_bytes())
}

/// Writes the id of a line, or `root` for the root line.
fn put_line<O: Out>(out: &mut O, line: Option<u64>) -> Result<(), WriteFault>
    ensures { Writes (O.contents out.old) (O.contents out.new) (O.has_failed out.old) (O.has_failed out.new) result (line_text line) }
{
    match line {
        Some(id) => put_id(out, id),
        None => put_all(out, b"root"),
    }
}

/// Writes a cause with a line, and a line feed.
fn put_fault<O: Out>(out: &mut O, cause: &[u8], line: Option<u64>) -> Result<(), WriteFault>
    ensures { Writes (O.contents out.old) (O.contents out.new) (O.has_failed out.old) (O.has_failed out.new) result (fault_text cause.now line) }
{
    put_all(out, cause)?;
    put_line(out, line)?;
    put_all(out, b"\n")
}

/// Writes a verdict with a line feed, and takes no memory.
pub fn write_verdict<O: Out>(verdict: Verdict, out: &mut O) -> Result<(), WriteFault>
    ensures { Writes (O.contents out.old) (O.contents out.new) (O.has_failed out.old) (O.has_failed out.new) result (verdict_text verdict) }
{
    match verdict {
        Verdict::Structure => put_all(out, b"invalid: Structure\n"),
        Verdict::NoInstance(line) => put_fault(out, b"invalid: NoInstance ", line),
        Verdict::NotExecutable(id) => put_fault(out, b"invalid: NotExecutable ", Some(id)),
        Verdict::GoalFails => put_all(out, b"invalid: GoalFails\n"),
        Verdict::NoArrangement => put_all(out, b"invalid: NoArrangement\n"),
        Verdict::Valid => put_all(out, b"valid\n"),
    }
}
