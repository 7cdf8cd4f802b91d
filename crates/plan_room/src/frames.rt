//! A line whose finish is asked, with how far its networks are tried.
ghost use Rattle.std.specs.Prelude.{◌≡◌, ◌≤◌, ◌<◌, ◌+◌, ◌^◌, ℕ, None, Some, IfOk, IsPermutation, MatchOption, ⊤, get_or, length, slice_get};
ghost use Rattle.std.specs.Cow.{cow_slice_items};
ghost use Rattle.htn_model.specs.Problem.{IsClosed, IsSquare};
ghost use Rattle.plan_room.specs.Bound.{IsLower};
ghost use Rattle.plan_room.specs.Frames.{IsFrame, IsLine, IsWork, NetworkHasRoom, unboxed};
ghost use Rattle.plan_room.specs.Lines.{AreLines};
ghost use Rattle.plan_room.specs.Memo.{IsMemo, IsOpenBelow};
ghost use Rattle.plan_room.specs.Placing.{IsFinish};
ghost use Rattle.plan_room.specs.Seats.{AreAsMany, AreBelow, LineFits, children_of};
ghost use Rattle.plan_room.specs.Trials.{IsAsked};

use crate::below::Below;
use crate::bound::{Bound, raise_bound};
use crate::guess::guessed_children;
use crate::lines::PlanLines;
use crate::links::{Links, links_of};
use crate::matching::{Trial, best_matching, start};
use crate::memo::Memo;
use crate::rooms::{Finish, Question};
use crate::sequence::sequence;
use crate::window::{Window, finish_of, last_better, least_end, may_fit, up_to};
use htn_ground::Instance;
use std::alloc::{AllocError, Global};
use std::borrow::CowSlice;

/// How far the matchings of one network are tried.
#[derive(Drop)]
pub(crate) struct Work {
    /// The children in the order in which they are tried.
    pub(crate) children: Vec<usize>,
    pub(crate) sequence: Vec<usize>,
    pub(crate) links: Links,
    pub(crate) trial: Trial,
    pub(crate) bound: Bound,
    /// Whether each position can do with the first free choice, or the children's order was guessed.
    pub(crate) is_settled: bool,
}

/// Work on at most this number of children is begun again rather than stored while a question is open: there may be as
/// many waiting frames as lines.
const FEW: usize = 4;

/// A line whose finish is asked, with the networks that may fit it.
pub(crate) struct Frame<'a> {
    pub question: Question,
    networks: CowSlice<'a, Instance>,
    /// The number of networks that were tried.
    tried: usize,
    /// The first gap by which one of these can have finished.
    best: Option<usize>,
    /// A gap before which none of all can have finished.
    least: usize,
    /// How far the next one was tried, if that was stored.
    work: Option<Box<Work>>,
}

// `Drop` is written by hand: a derived one is expanded, and proved, at each way out of each owner.
impl Drop for Frame<'_> {
    fn drop(self) {
        let Frame {
            question: _,
            networks: _,
            tried: _,
            best: _,
            least: _,
            work: _,
        } = self;
    }
}

/// The children of a line; those of the number past all lines are the roots.
pub fn children_of<L: PlanLines>(lines: &L, line: usize) -> &[usize]
    requires { IsLine (L.lines lines.now) line }
    ensures { result.now ≡ children_of (L.lines lines.now) line }
{
    if line < lines.count() {
        lines.children(line)
    } else {
        lines.roots()
    }
}

/// The frame of a question before its first step.
pub(crate) fn frame_of<'a, L: PlanLines>(
    alloc: Global,
    lines: &'a L,
    question: Question,
) -> Result<Frame<'a>, AllocError>
    requires lines { AreLines (L.lines lines.now) }
    requires line { IsLine (L.lines lines.now) question.line }
    requires within { question.gap ≤ (L.lines lines.now).actions }
    ensures frame { IfOk result (IsFrame (L.lines lines.now)) }
    ensures question { IfOk result (λ f. f.question ≡ question) }
{
    let _alloc = alloc;
    let networks = if question.line < lines.count() {
        lines.instances(question.line)?
    } else {
        CowSlice::Owned(lines.initials()?)
    };
    let children = children_of(lines, question.line);
    let least = least_end(lines, children, question.gap);
    Ok(Frame {
        question,
        networks,
        tried: 0,
        best: None,
        least,
        work: None,
    })
}

/// The search among the matchings of a network before its first step, with the children in some order.
pub(crate) fn work_of<L: PlanLines>(
    alloc: Global,
    lines: &L,
    memo: &Memo,
    listed: &[usize],
    children: Vec<usize>,
    instance: &Instance,
    gap: usize,
    bound: Bound,
    is_guessed: bool,
) -> Result<Work, AllocError>
    requires lines { AreLines (L.lines lines.now) }
    requires memo { IsMemo (L.lines lines.now) memo.now }
    requires same { IsPermutation listed.now children.items }
    requires low { (i : ℕ) → i < length children.items → get_or children.items i 0 < (L.lines lines.now).count }
    requires few { length children.items + length instance.now.network.children < 2 ^ 64 }
    requires square { IsSquare (length instance.now.network.children) instance.now.network.order }
    requires many { AreAsMany (L.lines lines.now) children.items instance.now.network }
    requires within { gap ≤ (L.lines lines.now).actions }
    requires lower { IsLower (L.lines lines.now) listed.now gap bound.end }
    ensures { IfOk result (λ work. IsWork (L.lines lines.now) listed.now instance.now.network gap (Some work)) }
{
    let (sequence, ahead) = sequence(alloc, instance.order())?;
    let links = links_of(alloc, lines, &children, instance, &sequence, ahead)?;
    let below = Below {
        lines,
        memo,
        children: &children,
        instance,
        sequence: &sequence,
        links: &links,
        gap,
        bound: gap,
    };
    let trial = start(alloc, &below)?;
    let is_settled = is_guessed || links.fixed.iter().all(|fixed| *fixed);
    Ok(Work {
        children,
        sequence,
        links,
        trial,
        bound,
        is_settled,
    })
}

/// The search among the matchings from its start, with the children in an order that is guessed.
pub(crate) fn guessed_work<L: PlanLines>(
    alloc: Global,
    lines: &L,
    memo: &Memo,
    children: &[usize],
    instance: &Instance,
    gap: usize,
    current: Work,
) -> Result<Work, AllocError>
    requires lines { AreLines (L.lines lines.now) }
    requires memo { IsMemo (L.lines lines.now) memo.now }
    requires low { (i : ℕ) → i < length children.now → get_or children.now i 0 < (L.lines lines.now).count }
    requires few { length children.now + length instance.now.network.children < 2 ^ 64 }
    requires square { IsSquare (length instance.now.network.children) instance.now.network.order }
    requires within { gap ≤ (L.lines lines.now).actions }
    requires work { IsWork (L.lines lines.now) children.now instance.now.network gap (Some current) }
    ensures { IfOk result (λ work. IsWork (L.lines lines.now) children.now instance.now.network gap (Some work)) }
{
    let Work {
        sequence,
        links,
        bound,
        ..
    } = current;
    let order = instance.order();
    let guessed = guessed_children(alloc, lines, memo, children, order, &sequence, &links, gap)?;
    let work = work_of(
        alloc, lines, memo, children, guessed, instance, gap, bound, true,
    )?;
    Ok(work)
}

/// Goes on with the matchings. It stops where the finish of a child has to be known first.
fn try_matchings<L: PlanLines>(
    lines: &L,
    memo: &Memo,
    listed: &[usize],
    instance: &Instance,
    gap: usize,
    current: Work,
) -> (Finish, Work)
    requires lines { AreLines (L.lines lines.now) }
    requires memo { IsMemo (L.lines lines.now) memo.now }
    requires low { (i : ℕ) → i < length listed.now → get_or listed.now i 0 < (L.lines lines.now).count }
    requires few { length listed.now + length instance.now.network.children < 2 ^ 64 }
    requires square { IsSquare (length instance.now.network.children) instance.now.network.order }
    requires within { gap ≤ (L.lines lines.now).actions }
    requires work { IsWork (L.lines lines.now) listed.now instance.now.network gap (Some current) }
    ensures work { IsWork (L.lines lines.now) listed.now instance.now.network gap (Some result.1) }
    ensures finish { IsFinish (NetworkHasRoom (L.lines lines.now) listed.now instance.now.network gap) (L.lines lines.now).actions result.0 }
    ensures asked { IsAsked (IsOpenBelow (L.lines lines.now) memo.now listed.now) result.0 }
{
    let Work {
        children,
        sequence,
        links,
        mut trial,
        bound,
        is_settled,
    } = current;
    let below = Below {
        lines,
        memo,
        children: &children,
        instance,
        sequence: &sequence,
        links: &links,
        gap,
        bound: bound.end,
    };
    let finish = best_matching(&mut trial, &below);
    let work = Work {
        children,
        sequence,
        links,
        trial,
        bound,
        is_settled,
    };
    (finish, work)
}

/// Goes on matching a network's positions to the children, to finish in a window. It stops where the
/// finish of one of them has to be known first.
fn try_network<L: PlanLines>(
    alloc: Global,
    lines: &L,
    memo: &Memo,
    children: &[usize],
    instance: &Instance,
    window: Window,
    work: &mut Option<Work>,
) -> Result<Finish, AllocError>
    requires lines { AreLines (L.lines lines.now) }
    requires memo { IsMemo (L.lines lines.now) memo.now }
    requires low { (i : ℕ) → i < length children.now → get_or children.now i 0 < (L.lines lines.now).count }
    requires square { IsSquare (length instance.now.network.children) instance.now.network.order }
    requires first { window.first ≤ (L.lines lines.now).actions }
    requires last { window.last ≤ (L.lines lines.now).actions }
    requires work { IsWork (L.lines lines.now) children.now instance.now.network window.first work.old }
    ensures work { IsWork (L.lines lines.now) children.now instance.now.network window.first work.new }
    ensures finish { IfOk result (IsFinish (NetworkHasRoom (L.lines lines.now) children.now instance.now.network window.first) window.last) }
    ensures asked { IfOk result (IsAsked (IsOpenBelow (L.lines lines.now) memo.now children.now)) }
{
    let gap = window.first;
    let Some(_) = children.len().checked_add(instance.children().len()) else {
        return Err(AllocError);
    };
    let mut current = match work.take() {
        Some(current) => current,
        None => {
            if !may_fit(lines, children, instance, window) {
                return Ok(Finish::Never);
            }
            let bound = Bound { end: gap, seen: 0 };
            let list = children.to_vec(alloc)?;
            work_of(
                alloc, lines, memo, children, list, instance, gap, bound, false,
            )?
        }
    };
    if !current.is_settled {
        match raise_bound(lines, memo, children, gap, &mut current.bound) {
            Finish::Unknown(question) => {
                *work = Some(current);
                return Ok(Finish::Unknown(question));
            }
            Finish::Never => return Ok(Finish::Never),
            Finish::At(_) => {}
        }
        current = guessed_work(alloc, lines, memo, children, instance, gap, current)?;
    }
    let (finish, next) = try_matchings(lines, memo, children, instance, gap, current);
    *work = Some(next);
    Ok(up_to(finish, window.last))
}

/// The network with a number.
fn network_of<'n>(networks: &'n CowSlice<'_, Instance>, number: usize) -> &'n Instance
    requires { number < length (cow_slice_items networks.now) }
    ensures { slice_get (cow_slice_items networks.now) number ≡ Some result.now }
{
    let networks = networks.as_slice();
    &networks[number]
}

/// The stored work on a network, if there is some.
fn kept_work(work: &mut Option<Box<Work>>) -> Option<Work>
    ensures work { result ≡ unboxed work.old }
    ensures none { work.new ≡ None }
{
    match work.take() {
        Some(work) => Some(Box::into_inner(work)),
        None => None,
    }
}

/// Work that is worth storing: all but that among few children that all have their places, which is redone as fast.
fn work_to_keep(alloc: Global, work: Option<Work>) -> Result<Option<Box<Work>>, AllocError>
    ensures { IfOk result (λ kept. MatchOption (unboxed kept) ⊤ (λ w. work ≡ Some w)) }
{
    let Some(work) = work else {
        return Ok(None);
    };
    if work.children.len() <= FEW && work.links.fixed.iter().all(|fixed| *fixed) {
        return Ok(None);
    }
    let kept = Box::new(alloc, work)?;
    Ok(Some(kept))
}

impl<'a> Frame<'a> {
    /// Goes on trying the networks. It stops where the finish of a child has to be known first.
    pub(crate) fn go_on<L: PlanLines>(
        &mut self,
        alloc: Global,
        lines: &L,
        memo: &Memo,
    ) -> Result<Finish, AllocError>
        requires lines { AreLines (L.lines lines.now) }
        requires memo { IsMemo (L.lines lines.now) memo.now }
        requires frame { IsFrame (L.lines lines.now) self.old }
        ensures frame { IsFrame (L.lines lines.now) self.new }
        ensures question { self.new.question ≡ self.old.question }
        ensures finish { IfOk result (IsFinish (LineFits (L.lines lines.now) self.old.question.line self.old.question.gap) (L.lines lines.now).actions) }
        ensures asked { IfOk result (IsAsked (IsOpenBelow (L.lines lines.now) memo.now (children_of (L.lines lines.now) self.old.question.line))) }
    {
        let children = children_of(lines, self.question.line);
        while self.tried < self.networks.len() {
            let Some(last) = last_better(self.best, self.least, lines.actions()) else {
                return Ok(finish_of(self.best));
            };
            let window = Window {
                first: self.question.gap,
                last,
            };
            let mut work = kept_work(&mut self.work);
            let instance = network_of(&self.networks, self.tried);
            let finish = try_network(alloc, lines, memo, children, instance, window, &mut work)?;
            match finish {
                Finish::Unknown(question) => {
                    self.work = work_to_keep(alloc, work)?;
                    return Ok(Finish::Unknown(question));
                }
                Finish::Never => {}
                Finish::At(end) => self.best = Some(end),
            }
            self.tried += 1;
        }
        Ok(finish_of(self.best))
    }
}
