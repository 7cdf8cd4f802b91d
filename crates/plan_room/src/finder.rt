//! Where the lines of a plan file are placed that have room, from the root line down. Nothing is proved of what is
//! found: whoever asks has to check it.
ghost use Rattle.std.specs.Prelude.{◌≤◌, ◌<◌, OnOk, length};
ghost use Rattle.plan_room.specs.Frames.{IsLine};
ghost use Rattle.plan_room.specs.Lines.{AreLines};
ghost use Rattle.plan_room.specs.Memo.{IsMemo};

use crate::ends::line_end;
use crate::frames::children_of;
use crate::guess::number_at;
use crate::lines::PlanLines;
use crate::memo::Memo;
use crate::rooms::{Finish, Question};
use crate::sequence::sequence;
use crate::standing::{Standing, find_standing};
use crate::window::Window;
use htn_ground::{Child, Instance, ObjectList};
use htn_order::Order;
use std::alloc::{AllocError, Global};
use std::borrow::CowSlice;

/// An instance for a line, or an initial network for the root line, and how its nodes are placed: the gaps between
/// which everything below the line is, for each child the position of the network at which it stands, and for each
/// position the gaps between which that is placed.
pub struct PlacedLine {
    instance: Instance,
    window: Window,
    positions: Vec<usize>,
    start: Vec<usize>,
    finish: Vec<usize>,
}

// `Drop` is written by hand: a derived one is expanded, and proved, at each way out of each owner.
impl Drop for PlacedLine {
    fn drop(self) {
        let PlacedLine {
            instance: _,
            window: _,
            positions: _,
            start: _,
            finish: _,
        } = self;
    }
}

impl PlacedLine {
    /// The first and the last of the gaps between which everything below the line is.
    pub fn gaps(&self) -> (usize, usize) {
        (self.window.first, self.window.last)
    }

    /// The instance, the position of each child, and for each position where it starts and finishes.
    pub fn into_parts(self) -> (Instance, Vec<usize>, Vec<usize>, Vec<usize>) {
        let PlacedLine {
            instance,
            window: _,
            positions,
            start,
            finish,
        } = self;
        (instance, positions, start, finish)
    }
}

/// An instance once more.
fn copy_of(alloc: Global, instance: &Instance) -> Result<Instance, AllocError> {
    let values = ObjectList::of(alloc, instance.values())?;
    let children = instance.children().clone()?;
    let order = instance.order().clone()?;
    Ok(Instance::new(instance.method(), values, children, order))
}

/// The gaps by which the first positions of a sequence have finished, for each number of them.
fn highs_of(
    alloc: Global,
    sequence: &[usize],
    finishes: &[usize],
    gap: usize,
) -> Result<Vec<usize>, AllocError> {
    let mut highs = Vec::new(alloc);
    let mut high = gap;
    highs.push(high)?;
    for position in sequence {
        high = high.max(number_at(finishes, *position));
        highs.push(high)?;
    }
    Ok(highs)
}

/// The gap by which all before a position have finished. `ahead` are two places of the sequence: all positions in front
/// of the first one are before the position, and none from the second one on is.
fn start_at(
    order: &Order,
    sequence: &[usize],
    ahead: (usize, usize),
    finishes: &[usize],
    highs: &[usize],
    position: usize,
) -> usize {
    let (sure, end) = ahead;
    let mut start = number_at(highs, sure);
    let mut place = end;
    while place > sure && start < number_at(highs, place) {
        place -= 1;
        let before = number_at(sequence, place);
        if order.is_before(before, position) {
            start = start.max(number_at(finishes, before));
        }
    }
    start
}

/// For each position the gap by which all before it have finished.
fn starts_after(
    alloc: Global,
    order: &Order,
    finishes: &[usize],
    gap: usize,
) -> Result<Vec<usize>, AllocError> {
    let (sequence, ahead) = sequence(alloc, order)?;
    let highs = highs_of(alloc, &sequence, finishes, gap)?;
    let mut starts = Vec::with_capacity(alloc, ahead.len())?;
    for (position, places) in ahead.iter().enumerate() {
        let start = start_at(order, &sequence, *places, finishes, &highs, position);
        starts.push(start)?;
    }
    Ok(starts)
}

/// Lets each step start where it holds, in the gap by which it has finished.
fn start_steps(nodes: &[Child], finishes: &[usize], starts: &mut [usize]) {
    for (position, node) in nodes.iter().enumerate() {
        if let Child::Precondition(_) = node {
            if let Some(start) = starts.get_mut(position) {
                if let Some(finish) = finishes.get(position) {
                    *start = *finish;
                }
            }
        }
    }
}

/// The gaps at which the positions of an instance start.
fn starts_of(
    alloc: Global,
    instance: &Instance,
    finishes: &[usize],
    gap: usize,
) -> Result<Vec<usize>, AllocError> {
    let mut starts = starts_after(alloc, instance.order(), finishes, gap)?;
    start_steps(instance.children().as_slice(), finishes, &mut starts);
    Ok(starts)
}

/// How the children stand that have been matched.
fn placed_of(
    alloc: Global,
    instance: &Instance,
    window: Window,
    standing: Standing,
) -> Result<PlacedLine, AllocError> {
    let start = starts_of(alloc, instance, &standing.finishes, window.first)?;
    let copy = copy_of(alloc, instance)?;
    let Standing {
        positions,
        finishes,
    } = standing;
    Ok(PlacedLine {
        instance: copy,
        window,
        positions,
        start,
        finish: finishes,
    })
}

/// The instances that may fit a line; for the number past all lines the initial networks.
fn networks_for<L: PlanLines>(lines: &L, line: usize) -> Result<CowSlice<'_, Instance>, AllocError>
    requires { IsLine (L.lines lines.now) line }
{
    if line < lines.count() {
        let networks = lines.instances(line)?;
        return Ok(networks);
    }
    let initials = lines.initials()?;
    Ok(CowSlice::Owned(initials))
}

/// How the children of a line stand in an instance; none where they don't, or where the finish of a line has to be
/// known first.
fn place_in<L: PlanLines>(
    alloc: Global,
    lines: &L,
    memo: &Memo,
    line: usize,
    instance: &Instance,
    window: Window,
) -> Result<(Finish, Option<PlacedLine>), AllocError>
    requires lines { AreLines (L.lines lines.now) }
    requires memo { IsMemo (L.lines lines.now) memo.now }
    requires line { IsLine (L.lines lines.now) line }
    requires first { window.first ≤ (L.lines lines.now).actions }
    requires last { window.last ≤ (L.lines lines.now).actions }
{
    if instance.order().size() != instance.children().len() {
        return Ok((Finish::Never, None));
    }
    let children = children_of(lines, line);
    let (finish, found) = find_standing(alloc, lines, memo, children, instance, window)?;
    let Some(standing) = found else {
        return Ok((finish, None));
    };
    let placed = placed_of(alloc, instance, window, standing)?;
    Ok((finish, Some(placed)))
}

/// How the children of a line stand in the first of some instances by which they start and finish in a window.
fn place_among<L: PlanLines>(
    alloc: Global,
    lines: &L,
    memo: &Memo,
    line: usize,
    instances: &[Instance],
    window: Window,
) -> Result<(Finish, Option<PlacedLine>), AllocError>
    requires lines { AreLines (L.lines lines.now) }
    requires memo { IsMemo (L.lines lines.now) memo.now }
    requires line { IsLine (L.lines lines.now) line }
    requires first { window.first ≤ (L.lines lines.now).actions }
    requires last { window.last ≤ (L.lines lines.now).actions }
{
    for instance in instances {
        let (finish, placed) = place_in(alloc, lines, memo, line, instance, window)?;
        match finish {
            Finish::Never => {}
            _ => return Ok((finish, placed)),
        }
    }
    Ok((Finish::Never, None))
}

/// Looks for the finish of a line that has to be known.
fn look_up<L: PlanLines>(
    alloc: Global,
    lines: &L,
    memo: &mut Memo,
    question: Question,
) -> Result<(), AllocError>
    requires lines { AreLines (L.lines lines.now) }
    requires memo { IsMemo (L.lines lines.now) memo.old }
    ensures { OnOk result (IsMemo (L.lines lines.now) memo.new) }
{
    let Question { line, gap } = question;
    if line < lines.actions() || lines.count() < line || lines.actions() < gap {
        return Ok(());
    }
    let end = line_end(alloc, lines, memo, line, gap)?;
    memo.note(question, end)?;
    Ok(())
}

/// How the children of a line stand that start and finish in a window. What has to be known of them is looked for.
fn place_between<L: PlanLines>(
    alloc: Global,
    lines: &L,
    memo: &mut Memo,
    line: usize,
    window: Window,
) -> Result<Option<PlacedLine>, AllocError>
    requires lines { AreLines (L.lines lines.now) }
    requires memo { IsMemo (L.lines lines.now) memo.old }
    requires line { IsLine (L.lines lines.now) line }
    requires first { window.first ≤ (L.lines lines.now).actions }
    requires last { window.last ≤ (L.lines lines.now).actions }
    ensures { OnOk result (IsMemo (L.lines lines.now) memo.new) }
{
    let networks = networks_for(lines, line)?;
    'tries: for _ in 0..u64::MAX {
        let (finish, placed) = place_among(alloc, lines, memo, line, networks.as_slice(), window)?;
        match finish {
            Finish::Unknown(question) => look_up(alloc, lines, memo, question)?,
            _ => return Ok(placed),
        }
    }
    Ok(None)
}

/// How the children of a line stand that starts at a gap, where all below it finishes as early as it can.
fn place_line<L: PlanLines>(
    alloc: Global,
    lines: &L,
    memo: &mut Memo,
    line: usize,
    gap: usize,
) -> Result<Option<PlacedLine>, AllocError>
    requires lines { AreLines (L.lines lines.now) }
    requires memo { IsMemo (L.lines lines.now) memo.old }
    requires line { IsLine (L.lines lines.now) line }
    requires within { gap ≤ (L.lines lines.now).actions }
    ensures { OnOk result (IsMemo (L.lines lines.now) memo.new) }
{
    let Some(end) = line_end(alloc, lines, memo, line, gap)? else {
        return Ok(None);
    };
    if lines.actions() < end {
        return Ok(None);
    }
    let window = Window {
        first: gap,
        last: end,
    };
    let placed = place_between(alloc, lines, memo, line, window)?;
    Ok(placed)
}

/// Adds the children of a line that are no action lines, each with the gap at which it starts.
fn push_children(
    actions: usize,
    children: &[usize],
    placed: &PlacedLine,
    waiting: &mut Vec<(usize, usize)>,
) -> Result<(), AllocError> {
    for (place, child) in children.iter().enumerate() {
        if *child < actions {
            continue;
        }
        if let Some(position) = placed.positions.get(place) {
            if let Some(start) = placed.start.get(*position) {
                waiting.push((*child, *start))?;
            }
        }
    }
    Ok(())
}

/// How the children of all decomposition lines and of the root line, which has the number past all lines, stand, by the
/// lines' numbers. The list ends early, or is empty, where the lines have no room.
fn places_down<L: PlanLines>(
    alloc: Global,
    lines: &L,
) -> Result<Vec<(usize, PlacedLine)>, AllocError>
    requires { AreLines (L.lines lines.now) }
{
    let mut memo = Memo::new(alloc);
    let mut found = Vec::new(alloc);
    let mut waiting = Vec::new(alloc);
    waiting.push((lines.count(), 0))?;
    'lines: for _ in 0..u64::MAX {
        let Some((line, gap)) = waiting.pop() else {
            break 'lines;
        };
        if line < lines.actions() || lines.count() < line || lines.actions() < gap {
            break 'lines;
        }
        let Some(placed) = place_line(alloc, lines, &mut memo, line, gap)? else {
            break 'lines;
        };
        let children = children_of(lines, line);
        push_children(lines.actions(), children, &placed, &mut waiting)?;
        found.push((line, placed))?;
    }
    Ok(found)
}

/// How the children of all decomposition lines stand, in the order of the lines, and last how the roots do. Where the
/// lines have no room the list ends early, or is empty.
pub fn find_places<L: PlanLines>(
    alloc: Global,
    lines: &L,
) -> Result<Vec<(usize, PlacedLine)>, AllocError>
    requires { AreLines (L.lines lines.now) }
{
    let mut found = places_down(alloc, lines)?;
    found.sort_by_key(|pair| pair.0)?;
    Ok(found)
}
