//! The actions below a line.
ghost use Rattle.std.specs.Prelude.{◌<◌, IfOk};
ghost use Rattle.plan_room.specs.Lines.{AreLines};
ghost use Rattle.room_causes.specs.Nodes.{IsSpan, IsWidened};

use plan_room::PlanLines;
use std::alloc::{AllocError, Global};

/// The first and the last action of a run.
#[derive(Clone, Copy)]
pub(crate) struct Span {
    pub first: usize,
    pub last: usize,
}

/// A span with one action more.
fn widened(span: Option<Span>, action: usize) -> Span
    ensures { IsWidened span action result }
{
    match span {
        None => Span {
            first: action,
            last: action,
        },
        Some(span) => Span {
            first: span.first.min(action),
            last: span.last.max(action),
        },
    }
}

/// The first and the last action line among a line and those below it; none where there is no action line.
pub(crate) fn span_below<L: PlanLines>(
    alloc: Global,
    lines: &L,
    line: usize,
) -> Result<Option<Span>, AllocError>
    requires lines { AreLines (L.lines lines.now) }
    requires low { line < (L.lines lines.now).count }
    ensures { IfOk result (IsSpan (L.lines lines.now) line) }
{
    let actions = lines.actions();
    let mut waiting = Vec::new(alloc);
    waiting.push(line)?;
    let mut span = None;
    while let Some(next) = waiting.pop() {
        if next < actions {
            span = Some(widened(span, next));
        } else {
            waiting.extend_from_slice(lines.children(next))?;
        }
    }
    Ok(span)
}
