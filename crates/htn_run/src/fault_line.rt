//! The line for each fault on the error output. It is the text of the fault's `Display`, which has no contract where it
//! is derived.
ghost use Rattle.plan_text.specs.Out.{Writes};
ghost use Rattle.htn_run.specs.Lines.{at_line, check_line, fault_line, line_of_fault, place_text, plan_line, text_line};

use hddl_meaning::{At, CheckFault, Source};
use hddl_text::TextFault;
use htn_plan::{Out, PlanFault, WriteFault, put_all};
use htn_review::{RunFault, put_id};

/// Writes a place, if there is one.
fn put_place<O: Out>(out: &mut O, place: Option<usize>) -> Result<(), WriteFault>
    ensures { Writes (O.contents out.old) (O.contents out.new) (O.has_failed out.old) (O.has_failed out.new) result (place_text place) }
{
    match place {
        Some(place) => {
            put_all(out, b" at ")?;
            put_id(out, place as u64)
        }
        None => Ok(()),
    }
}

/// Writes the text that a fault is of, its name, its place and a line feed.
fn put_fault_line<O: Out>(
    out: &mut O,
    of: &[u8],
    name: &[u8],
    place: Option<usize>,
) -> Result<(), WriteFault>
    ensures { Writes (O.contents out.old) (O.contents out.new) (O.has_failed out.old) (O.has_failed out.new) result (fault_line of.now name.now place) }
{
    put_all(out, of)?;
    put_all(out, name)?;
    put_place(out, place)?;
    put_all(out, b"\n")
}

/// Writes the line of a fault of a domain's or a problem's text.
fn put_text_fault<O: Out>(out: &mut O, of: &[u8], fault: TextFault) -> Result<(), WriteFault>
    ensures { Writes (O.contents out.old) (O.contents out.new) (O.has_failed out.old) (O.has_failed out.new) result (text_line of.now fault) }
{
    match fault {
        TextFault::NotAscii(place) => put_fault_line(out, of, b"NotAscii", Some(place)),
        TextFault::BadWord(place) => put_fault_line(out, of, b"BadWord", Some(place)),
        TextFault::Unclosed(place) => put_fault_line(out, of, b"Unclosed", Some(place)),
        TextFault::ExtraClose(place) => put_fault_line(out, of, b"ExtraClose", Some(place)),
        TextFault::TooDeep(place) => put_fault_line(out, of, b"TooDeep", Some(place)),
        TextFault::Expected(place) => put_fault_line(out, of, b"Expected", Some(place)),
        TextFault::Unsupported(place) => put_fault_line(out, of, b"Unsupported", Some(place)),
        TextFault::TooLong(place) => put_fault_line(out, of, b"TooLong", Some(place)),
        TextFault::OutOfMemory => put_fault_line(out, of, b"OutOfMemory", None),
    }
}

/// Writes the line of a fault that stands in one of a pair.
fn put_at<O: Out>(out: &mut O, at: At, name: &[u8]) -> Result<(), WriteFault>
    ensures { Writes (O.contents out.old) (O.contents out.new) (O.has_failed out.old) (O.has_failed out.new) result (at_line at name.now) }
{
    match at.source {
        Source::Domain => put_fault_line(out, b"domain: ", name, Some(at.place)),
        Source::Problem => put_fault_line(out, b"problem: ", name, Some(at.place)),
    }
}

/// Writes the line of a fault of a pair.
fn put_check_fault<O: Out>(out: &mut O, fault: CheckFault) -> Result<(), WriteFault>
    ensures { Writes (O.contents out.old) (O.contents out.new) (O.has_failed out.old) (O.has_failed out.new) result (check_line fault) }
{
    match fault {
        CheckFault::Duplicate(at) => put_at(out, at, b"Duplicate"),
        CheckFault::UnknownType(at) => put_at(out, at, b"UnknownType"),
        CheckFault::TypeCycle(at) => put_at(out, at, b"TypeCycle"),
        CheckFault::UnknownName(at) => put_at(out, at, b"UnknownName"),
        CheckFault::Arity(at) => put_at(out, at, b"Arity"),
        CheckFault::TypeClash(at) => put_at(out, at, b"TypeClash"),
        CheckFault::OrderCycle(at) => put_at(out, at, b"OrderCycle"),
        CheckFault::UnknownSubtask(at) => put_at(out, at, b"UnknownSubtask"),
        CheckFault::TooMany(at) => put_at(out, at, b"TooMany"),
        CheckFault::OutOfMemory => put_all(out, b"OutOfMemory\n"),
    }
}

/// Writes the line of a fault of a plan's text.
fn put_plan_fault<O: Out>(out: &mut O, of: &[u8], fault: PlanFault) -> Result<(), WriteFault>
    ensures { Writes (O.contents out.old) (O.contents out.new) (O.has_failed out.old) (O.has_failed out.new) result (plan_line of.now fault) }
{
    match fault {
        PlanFault::NoStart => put_fault_line(out, of, b"NoStart", None),
        PlanFault::NoEnd => put_fault_line(out, of, b"NoEnd", None),
        PlanFault::BadLine(place) => put_fault_line(out, of, b"BadLine", Some(place)),
        PlanFault::TwoRoots(place) => put_fault_line(out, of, b"TwoRoots", Some(place)),
        PlanFault::NoRoot => put_fault_line(out, of, b"NoRoot", None),
        PlanFault::NumberTooLarge(place) => {
            put_fault_line(out, of, b"NumberTooLarge", Some(place))
        }
        PlanFault::NotAscii(place) => put_fault_line(out, of, b"NotAscii", Some(place)),
        PlanFault::TooLong(place) => put_fault_line(out, of, b"TooLong", Some(place)),
        PlanFault::OutOfMemory => put_fault_line(out, of, b"OutOfMemory", None),
    }
}

/// Writes the text of a run's fault, as its `Display` does, and a line feed. It takes no memory.
pub fn write_fault<O: Out>(out: &mut O, fault: RunFault) -> Result<(), WriteFault>
    ensures { Writes (O.contents out.old) (O.contents out.new) (O.has_failed out.old) (O.has_failed out.new) result (line_of_fault fault) }
{
    match fault {
        RunFault::Domain(fault) => put_text_fault(out, b"domain: ", fault),
        RunFault::Problem(fault) => put_text_fault(out, b"problem: ", fault),
        RunFault::Check(fault) => put_check_fault(out, fault),
        RunFault::Plan(fault) => put_plan_fault(out, b"plan: ", fault),
        RunFault::OutOfMemory => put_all(out, b"OutOfMemory\n"),
        RunFault::NoThread => put_all(out, b"NoThread\n"),
        RunFault::Output => put_all(out, b"output: cannot be written\n"),
    }
}
