//! The errors of plan texts that are refused.

ghost use Rattle.std.specs.Prelude.{◌≡◌, IfOk};
ghost use Rattle.plan_report.specs.Explained as spec;

use diagnostics::{Diagnostic, Part, Remark, RemarkKind, Severity, Source, Spot, Where};
use plan_messages::{word_from, words_from};
use plan_text::PlanFault;
use std::alloc::{AllocError, Global};

/// The name of a fault.
fn code_of<'a>(fault: PlanFault) -> &'a str
    ensures { result.now ≡ spec.fault_code fault }
{
    match fault {
        PlanFault::NoStart => "NoStart",
        PlanFault::NoEnd => "NoEnd",
        PlanFault::BadLine(_) => "BadLine",
        PlanFault::TwoRoots(_) => "TwoRoots",
        PlanFault::NoRoot => "NoRoot",
        PlanFault::NumberTooLarge(_) => "NumberTooLarge",
        PlanFault::NotAscii(_) => "NotAscii",
        PlanFault::TooLong(_) => "TooLong",
        PlanFault::OutOfMemory => "OutOfMemory",
    }
}

/// Where a fault stands, if it stands at a place.
fn place_of(fault: PlanFault) -> Option<usize>
    ensures { result ≡ spec.fault_place fault }
{
    match fault {
        PlanFault::BadLine(place)
        | PlanFault::TwoRoots(place)
        | PlanFault::NumberTooLarge(place)
        | PlanFault::NotAscii(place) => Some(place),
        PlanFault::NoStart
        | PlanFault::NoEnd
        | PlanFault::NoRoot
        | PlanFault::TooLong(_)
        | PlanFault::OutOfMemory => None,
    }
}

/// What is wrong.
fn words_of<'a>(fault: PlanFault) -> &'a str {
    match fault {
        PlanFault::NoStart => "no line is `==>`",
        PlanFault::NoEnd => "no line after `==>` is `<==`",
        PlanFault::BadLine(_) => "this line is neither an action, nor `root`, nor a decomposition",
        PlanFault::TwoRoots(_) => "a second `root` line",
        PlanFault::NoRoot => "there is no `root` line",
        PlanFault::NumberTooLarge(_) => "this number is larger than 18,446,744,073,709,551,615",
        PlanFault::NotAscii(_) => "a byte that is no printable ASCII",
        PlanFault::TooLong(_) => "the text is longer than 16,777,216 bytes",
        PlanFault::OutOfMemory => "memory was refused",
    }
}

/// What to do, where there is something to say.
fn help_of<'a>(fault: PlanFault) -> Option<&'a str> {
    match fault {
        PlanFault::NoStart => Some("put `==>` before the plan, and `<==` after it"),
        PlanFault::BadLine(_) => {
            Some("`NUMBER ACTION ARGS`, `root NUMBERS` or `NUMBER TASK ARGS -> METHOD NUMBERS`")
        }
        PlanFault::NoRoot => {
            Some("a plan of a classical planner has no decomposition: nothing to verify")
        }
        _ => None,
    }
}

/// How many bytes are underlined: of a line all to its last word, of a number its digits, of a byte one.
fn len_of<'a>(source: &'a Source<'a>, fault: PlanFault, place: usize) -> usize {
    match fault {
        PlanFault::BadLine(_) | PlanFault::TwoRoots(_) => {
            let spot = words_from(source, place);
            spot.place
                .saturating_add(spot.word_len)
                .saturating_sub(place)
        }
        PlanFault::NumberTooLarge(_) => {
            let spot = word_from(source, place);
            spot.word_len
        }
        _ => 1,
    }
}

/// What an error is about.
fn about<'a>(source: &'a Source<'a>, fault: PlanFault) -> Where<'a>
    ensures { spec.IsAboutFault source.now fault result }
{
    match place_of(fault) {
        Some(place) => {
            let place = place.min(source.lines.text().len());
            Where::Place(Spot {
                source,
                place,
                word_len: len_of(source, fault, place),
            })
        }
        None => Where::Text(source),
    }
}

/// What to do, as a remark.
fn remarks_of<'a>(alloc: Global, fault: PlanFault) -> Result<Vec<Remark<'a>>, AllocError> {
    let mut remarks = Vec::new(alloc);
    if let Some(help) = help_of(fault) {
        let message = vec![in alloc; Part::Words(help)]?;
        remarks.push(Remark {
            kind: RemarkKind::Help,
            message,
        })?;
    }
    Ok(remarks)
}

/// The error of a plan text that is refused.
pub(crate) fn fault_error<'a>(
    alloc: Global,
    source: &'a Source<'a>,
    fault: PlanFault,
) -> Result<Diagnostic<'a>, AllocError>
    ensures { IfOk result (spec.IsFaultError source.now fault) }
{
    let message = vec![in alloc; Part::Words(words_of(fault))]?;
    Ok(Diagnostic {
        severity: Severity::Error,
        code: code_of(fault),
        about: about(source, fault),
        message,
        label: Vec::new(alloc),
        remarks: remarks_of(alloc, fault)?,
        notes: Vec::new(alloc),
    })
}
