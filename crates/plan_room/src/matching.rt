//! The search among the matchings of a network's positions to what can stand at them.
ghost use Rattle.std.specs.Prelude.{◌≡◌, ◌≤◌, ◌<◌, ◌↔◌, ℕ, IfOk, IsTrue, get_or, length, true};
ghost use Rattle.htn_model.specs.Problem as problem;
ghost use Rattle.plan_room.specs.Placing.{IsFinish, IsStart};
ghost use Rattle.plan_room.specs.Matching.{HasMatchedRoom, IsBeaten, IsFirstPlaced, IsNextChoice, IsNoted, IsSeating};
ghost use Rattle.plan_room.specs.Trials.{AreDismissed, IsAsked, IsTried, StepSays};

use crate::rooms::{Finish, Question};
use std::alloc::{AllocError, Global};

/// The choices for the positions of a network, by number: a line for a subtask, and one choice of its own for a step.
pub trait Choices {
    ghost use Rattle.plan_room.specs.Matching.{HasMatchedRoom, IsFixed, Seating};
    ghost use Rattle.plan_room.specs.Placing.{IsAhead};
    ghost use Rattle.plan_room.specs.declared.rooms.Question.{Question};

    // The network, and which choices have room where.
    ghost seating: { Self → Seating };

    // It is open how early a line can have finished.
    ghost asks: { Self → Question → Type 0 };

    // The choices are as they should be.
    ghost is_sound: { Self → Type 0 };

    /// How many positions there are.
    fn size(&self) -> usize
        ensures { result ≡ length (seating self.now).order };

    /// Whether position `a` is before position `b`.
    fn is_before(&self, a: usize, b: usize) -> bool
        ensures { result ≡ problem.is_before (seating self.now).order a b };

    /// All positions, each after those that are before it.
    fn sequence(&self) -> &[usize]
        ensures { result.now ≡ (seating self.now).sequence };

    /// Two places of the sequence: all up to the first are before the position, and none is from the second on.
    fn ahead(&self, position: usize) -> (usize, usize)
        requires sound { is_sound self.now }
        requires low { position < length (seating self.now).order }
        ensures { IsAhead (seating self.now).order (seating self.now).sequence position result.0 result.1 };

    /// The gap from which on the network may start.
    fn gap(&self) -> usize
        ensures { result ≡ (seating self.now).gap };

    /// A gap before which it cannot have finished.
    fn bound(&self) -> usize
        requires { is_sound self.now }
        ensures { (h : ℕ) → HasMatchedRoom (seating self.now) h → result ≤ h };

    /// How many choices there are.
    fn count(&self) -> usize
        requires { is_sound self.now }
        ensures { result ≡ (seating self.now).count };

    /// A range of choices outside which none can stand at the position.
    fn range(&self, position: usize) -> (usize, usize)
        requires { is_sound self.now }
        ensures within { result.1 ≤ (seating self.now).count }
        ensures all { (c : ℕ) → (seating self.now).suits position c ≡ true → (result.0 ≤ c) × (c < result.1) };

    /// Whether the choice can stand at the position: it is a line of the same task.
    fn suits(&self, position: usize, choice: usize) -> bool
        requires { is_sound self.now }
        ensures { result ≡ (seating self.now).suits position choice };

    /// The next choice that can stand where this one can.
    fn after(&self, choice: usize) -> usize
        requires sound { is_sound self.now }
        requires low { choice < (seating self.now).count }
        ensures more { choice < result }
        ensures within { result ≤ (seating self.now).count }
        ensures next { (a c : ℕ) → (seating self.now).suits a choice ≡ true → (seating self.now).suits a c ≡ true → choice < c → result ≤ c };

    /// Whether the position can do with the first choice that is free: the later positions that it
    /// shares choices with are ordered as it is, or come after it, where they can have but later choices.
    fn is_fixed(&self, position: usize) -> bool
        requires { is_sound self.now }
        ensures { IsTrue result → IsFixed (seating self.now) position };

    /// How early the choice can have finished, if it may start at that gap.
    fn finish(&self, choice: usize, start: usize) -> Finish
        requires sound { is_sound self.now }
        requires within { start ≤ (seating self.now).last }
        ensures known { IsFinish ((seating self.now).room choice start) (seating self.now).last result }
        ensures asked { IsAsked (asks self.now) result };
}

/// How far the matchings are tried.
pub struct Trial {
    /// The choices of the first positions of the sequence, `depth` many.
    pub(crate) chosen: Vec<usize>,
    /// The finishes of these positions, by position.
    pub(crate) finishes: Vec<usize>,
    /// For each number of first positions up to `depth`, the gap by which they have finished.
    highs: Vec<usize>,
    /// Which choices are among the chosen ones.
    taken: Vec<bool>,
    depth: usize,
    /// The next choice for the position after them.
    next: usize,
    /// The first gap by which a matching so far has finished.
    best: Option<usize>,
}

// `Drop` is written by hand: a derived one is expanded, and proved, at each way out of each owner.
impl Drop for Trial {
    fn drop(self) {
        let Trial {
            chosen: _,
            finishes: _,
            highs: _,
            taken: _,
            depth: _,
            next: _,
            best: _,
        } = self;
    }
}

/// What a step of the search came to.
enum Step {
    Onward,
    /// The finish of a line has to be known first.
    Unknown(Question),
    Over,
}

/// Whether some matching so far has finished by that gap.
pub(crate) fn is_beaten(best: Option<usize>, end: usize) -> bool
    ensures { IsTrue result ↔ IsBeaten best end }
{
    match best {
        Some(gap) => gap <= end,
        None => false,
    }
}

/// The first gap by which all before the next position have finished.
fn start_of<C: Choices>(trial: &Trial, choices: &C, position: usize) -> usize
    requires sound { C.is_sound choices.now }
    requires seating { IsSeating (C.seating choices.now) }
    requires tried { IsTried (C.seating choices.now) trial.now }
    requires low { trial.now.depth < length (C.seating choices.now).sequence }
    requires next { position ≡ get_or (C.seating choices.now).sequence trial.now.depth 0 }
    ensures { IsStart (C.seating choices.now).order trial.now.finishes.items (C.seating choices.now).gap position result }
{
    let sequence = choices.sequence();
    let _size = choices.size();
    let (sure, end) = choices.ahead(position);
    let mut start = trial.highs[sure];
    let mut place = end;
    while place > sure && start < trial.highs[place] {
        place -= 1;
        let before = sequence[place];
        if start < trial.finishes[before] && choices.is_before(before, position) {
            start = trial.finishes[before];
        }
    }
    start
}

/// The choice to try at the position after this one is done with.
fn next_choice<C: Choices>(choices: &C, position: usize, choice: usize) -> usize
    requires sound { C.is_sound choices.now }
    requires low { choice < (C.seating choices.now).count }
    requires suited { (C.seating choices.now).suits position choice ≡ true }
    ensures { IsNextChoice (C.seating choices.now) position choice result }
{
    if choices.is_fixed(position) {
        choices.count()
    } else {
        choices.after(choice)
    }
}

/// Goes back to the choice before, where the ones from `next` on are done with.
fn back<C: Choices>(trial: &mut Trial, choices: &C) -> Step
    requires sound { C.is_sound choices.now }
    requires seating { IsSeating (C.seating choices.now) }
    requires tried { IsTried (C.seating choices.now) trial.old }
    requires dismissed { AreDismissed (C.seating choices.now) trial.old }
    ensures tried { IsTried (C.seating choices.now) trial.new }
    ensures step { StepSays (C.seating choices.now) (C.asks choices.now) trial.old trial.new result }
{
    let _count = choices.count();
    if trial.depth == 0 {
        return Step::Over;
    }
    trial.depth -= 1;
    let choice = trial.chosen[trial.depth];
    trial.taken[choice] = false;
    trial.next = next_choice(choices, choices.sequence()[trial.depth], choice);
    Step::Onward
}

/// Puts the next choice at the next position.
fn take<C: Choices>(trial: &mut Trial, choices: &C, position: usize, finish: usize)
    requires sound { C.is_sound choices.now }
    requires seating { IsSeating (C.seating choices.now) }
    requires tried { IsTried (C.seating choices.now) trial.old }
    requires first { IsFirstPlaced (C.seating choices.now) trial.old.chosen.items trial.old.finishes.items trial.old.depth trial.old.next position finish }
    ensures tried { IsTried (C.seating choices.now) trial.new }
    ensures step { StepSays (C.seating choices.now) (C.asks choices.now) trial.old trial.new Step.Onward }
{
    let _size = choices.size();
    let _count = choices.count();
    let depth = trial.depth;
    trial.chosen[depth] = trial.next;
    trial.taken[trial.next] = true;
    trial.finishes[position] = finish;
    trial.highs[depth + 1] = trial.highs[depth].max(finish);
    trial.depth += 1;
    trial.next = 0;
}

/// Tries the next choice at the next position.
fn try_choice<C: Choices>(trial: &mut Trial, choices: &C, position: usize) -> Step
    requires sound { C.is_sound choices.now }
    requires seating { IsSeating (C.seating choices.now) }
    requires tried { IsTried (C.seating choices.now) trial.old }
    requires low { trial.old.depth < length (C.seating choices.now).sequence }
    requires here { position ≡ get_or (C.seating choices.now).sequence trial.old.depth 0 }
    requires less { trial.old.next < (C.seating choices.now).count }
    ensures tried { IsTried (C.seating choices.now) trial.new }
    ensures step { StepSays (C.seating choices.now) (C.asks choices.now) trial.old trial.new result }
{
    let choice = trial.next;
    if !choices.suits(position, choice) {
        trial.next += 1;
        return Step::Onward;
    }
    if trial.taken[choice] {
        trial.next = choices.after(choice);
        return Step::Onward;
    }
    let start = start_of(trial, choices, position);
    match choices.finish(choice, start) {
        Finish::Unknown(question) => return Step::Unknown(question),
        Finish::Never => trial.next = next_choice(choices, position, choice),
        Finish::At(finish) => {
            if is_beaten(trial.best, finish) {
                trial.next = next_choice(choices, position, choice);
            } else {
                take(trial, choices, position, finish);
            }
        }
    }
    Step::Onward
}

/// One step of the search.
fn advance<C: Choices>(trial: &mut Trial, choices: &C) -> Step
    requires sound { C.is_sound choices.now }
    requires seating { IsSeating (C.seating choices.now) }
    requires tried { IsTried (C.seating choices.now) trial.old }
    ensures tried { IsTried (C.seating choices.now) trial.new }
    ensures step { StepSays (C.seating choices.now) (C.asks choices.now) trial.old trial.new result }
{
    if is_beaten(trial.best, choices.bound()) {
        return Step::Over;
    }
    let high = trial.highs[trial.depth];
    if is_beaten(trial.best, high) {
        return back(trial, choices);
    }
    let sequence = choices.sequence();
    if trial.depth == sequence.len() {
        trial.best = Some(high);
        return back(trial, choices);
    }
    let position = sequence[trial.depth];
    let (low, end) = choices.range(position);
    if end <= trial.next || end <= low {
        return back(trial, choices);
    }
    if trial.next < low {
        trial.next = low;
        return Step::Onward;
    }
    try_choice(trial, choices, position)
}

/// The search before its first step.
pub fn start<C: Choices>(alloc: Global, choices: &C) -> Result<Trial, AllocError>
    requires sound { C.is_sound choices.now }
    requires seating { IsSeating (C.seating choices.now) }
    ensures { IfOk result (IsTried (C.seating choices.now)) }
{
    let places = choices.sequence().len();
    let Some(ends) = places.checked_add(1) else {
        return Err(AllocError);
    };
    Ok(Trial {
        chosen: vec![in alloc; 0; places]?,
        finishes: vec![in alloc; 0; choices.size()]?,
        highs: vec![in alloc; choices.gap(); ends]?,
        taken: vec![in alloc; false; choices.count()]?,
        depth: 0,
        next: 0,
        best: None,
    })
}

/// Continues the search among the matchings. It stops where the finish of a line has to be known first, and otherwise
/// returns the gap by which the network can have finished, in whichever matching.
pub fn best_matching<C: Choices>(trial: &mut Trial, choices: &C) -> Finish
    requires sound { C.is_sound choices.now }
    requires seating { IsSeating (C.seating choices.now) }
    requires tried { IsTried (C.seating choices.now) trial.old }
    ensures tried { IsTried (C.seating choices.now) trial.new }
    ensures finish { IsFinish (HasMatchedRoom (C.seating choices.now)) (C.seating choices.now).last result }
    ensures asked { IsAsked (C.asks choices.now) result }
{
    loop {
        match advance(trial, choices) {
            Step::Onward => {}
            Step::Unknown(question) => return Finish::Unknown(question),
            Step::Over => break,
        }
    }
    match trial.best {
        Some(end) => Finish::At(end),
        None => Finish::Never,
    }
}

/// Continues the search among the matchings until one has finished by a gap, which is then still chosen. It stops where
/// the finish of a line has to be known first.
pub(crate) fn finish_by<C: Choices>(trial: &mut Trial, choices: &C, end: usize) -> Finish
    requires sound { C.is_sound choices.now }
    requires seating { IsSeating (C.seating choices.now) }
    requires tried { IsTried (C.seating choices.now) trial.old }
    ensures { IsTried (C.seating choices.now) trial.new }
{
    'steps: while !is_beaten(trial.best, end) {
        match advance(trial, choices) {
            Step::Onward => {}
            Step::Unknown(question) => return Finish::Unknown(question),
            Step::Over => break 'steps,
        }
    }
    match trial.best {
        Some(gap) if gap <= end => Finish::At(gap),
        _ => Finish::Never,
    }
}
