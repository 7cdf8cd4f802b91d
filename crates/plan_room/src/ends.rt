//! How early everything below a line can have finished, once all that it asks for is known.
ghost use Rattle.std.specs.Prelude.{◌≡◌, ◌≤◌, ◌<◌, None, Some, IfOk, OnOk};
ghost use Rattle.plan_room.specs.Ends.{IsEnd};
ghost use Rattle.plan_room.specs.Frames.{IsLine};
ghost use Rattle.plan_room.specs.Lines.{AreLines};
ghost use Rattle.plan_room.specs.Memo.{IsMemo, answer, known};
ghost use Rattle.plan_room.specs.Placing.{IsFinish};
ghost use Rattle.plan_room.specs.Seats.{LineFits};

use crate::below::line_finish;
use crate::frames::frame_of;
use crate::lines::PlanLines;
use crate::memo::Memo;
use crate::rooms::{Finish, Question};
use std::alloc::{AllocError, Global};

/// The answer to a question that isn't known: none where everything below the line can't have finished by the last gap.
fn found_end<L: PlanLines>(
    alloc: Global,
    lines: &L,
    memo: &mut Memo,
    asked: Question,
) -> Result<Option<usize>, AllocError>
    requires lines { AreLines (L.lines lines.now) }
    requires memo { IsMemo (L.lines lines.now) memo.old }
    requires line { IsLine (L.lines lines.now) asked.line }
    requires within { asked.gap ≤ (L.lines lines.now).actions }
    requires unknown { known memo.old asked ≡ None }
    ensures memo { OnOk result (IsMemo (L.lines lines.now) memo.new) }
    ensures end { IfOk result (λ end. IsFinish (LineFits (L.lines lines.now) asked.line asked.gap) (L.lines lines.now).actions (answer asked (Some end))) }
{
    let mut frames = Vec::new(alloc);
    frames.push(frame_of(alloc, lines, asked)?)?;
    while let Some(mut frame) = frames.pop() {
        let end = match frame.go_on(alloc, lines, memo)? {
            Finish::Unknown(question) => {
                let next = frame_of(alloc, lines, question)?;
                frames.push(frame)?;
                frames.push(next)?;
                continue;
            }
            Finish::Never => None,
            Finish::At(end) => Some(end),
        };
        if frames.is_empty() {
            return Ok(end);
        }
        memo.note(frame.question, end)?;
    }
    Ok(None)
}

/// How early everything below a line can have finished that starts at a gap or later: none where it can't by the last
/// gap.
pub(crate) fn line_end<L: PlanLines>(
    alloc: Global,
    lines: &L,
    memo: &mut Memo,
    line: usize,
    gap: usize,
) -> Result<Option<usize>, AllocError>
    requires lines { AreLines (L.lines lines.now) }
    requires memo { IsMemo (L.lines lines.now) memo.old }
    requires line { IsLine (L.lines lines.now) line }
    requires within { gap ≤ (L.lines lines.now).actions }
    ensures memo { OnOk result (IsMemo (L.lines lines.now) memo.new) }
    ensures end { IfOk result (IsEnd (L.lines lines.now) line gap) }
{
    let question = Question { line, gap };
    match memo.finish(question) {
        Finish::Unknown(_) => {
            let end = found_end(alloc, lines, memo, question)?;
            Ok(end)
        }
        Finish::Never => Ok(None),
        Finish::At(end) => Ok(Some(end)),
    }
}

/// The earliest gaps by which lines that start at given gaps can have finished, for the questions that were asked.
#[derive(Drop)]
pub struct Ends {
    memo: Memo,
}

impl Ends {
    ghost use Rattle.plan_room.specs.Ends.{AreEnds, IsEnd};
    ghost use Rattle.plan_room.specs.Lines.{Lines};

    /// Nothing was asked.
    pub fn new(alloc: Global) -> Ends
        ensures { (l : Lines) → AreEnds l result }
    {
        Ends {
            memo: Memo::new(alloc),
        }
    }

    /// The first gap by which everything below a line can have finished that starts at a gap or later; none where it
    /// can't by the last gap.
    pub fn end<L: PlanLines>(
        &mut self,
        alloc: Global,
        lines: &L,
        line: usize,
        gap: usize,
    ) -> Result<Option<usize>, AllocError>
        requires lines { AreLines (L.lines lines.now) }
        requires ends { AreEnds (L.lines lines.now) self.old }
        requires line { line < (L.lines lines.now).count }
        requires within { gap ≤ (L.lines lines.now).actions }
        ensures ends { OnOk result (AreEnds (L.lines lines.now) self.new) }
        ensures end { IfOk result (IsEnd (L.lines lines.now) line gap) }
    {
        match line_finish(lines, &self.memo, line, gap) {
            Finish::Unknown(question) => {
                let end = found_end(alloc, lines, &mut self.memo, question)?;
                Ok(end)
            }
            Finish::Never => Ok(None),
            Finish::At(end) => Ok(Some(end)),
        }
    }
}
