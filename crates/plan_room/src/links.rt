//! Which child comes first and next of the same task, and at which positions the first that is free will do.
ghost use Rattle.std.specs.Prelude.{◌≡◌, ◌≤◌, ◌<◌, ◌+◌, ◌^◌, ◌⊎◌, ℕ, IfOk, IsTrue, false, get_or, length, map, true};
ghost use Rattle.htn_ground.specs.Views.{child_view};
ghost use Rattle.htn_model.specs.Problem.{IsSquare};
ghost use Rattle.htn_model.specs.Problem as problem;
ghost use Rattle.plan_room.specs.Lines.{AreLines};
ghost use Rattle.plan_room.specs.Links.{AreFlagged, AreLinked, AreNext, AreRising, IsFirstPlace, first_of, place_of, task_at};
ghost use Rattle.plan_room.specs.Matching.{AreTwins};
ghost use Rattle.plan_room.specs.Placing.{AreAhead, IsSequence};
ghost use Rattle.plan_room.specs.Seats.{seating_of};

use crate::lines::PlanLines;
use crate::places::Places;
use htn_ground::{Child, Instance};
use htn_order::Order;
use std::alloc::{AllocError, Global};

/// What a search among the matchings of a network looks up.
pub(crate) struct Links {
    /// For each position the first child that has its task, or the number past all.
    pub first: Vec<usize>,
    /// For each child the next one that has the same task, or the number past all.
    pub after: Vec<usize>,
    /// For each position whether the first choice that is free will do.
    pub fixed: Vec<bool>,
    /// For each position up to which place of the sequence all are before it, and from which on none is.
    pub ahead: Vec<(usize, usize)>,
}

// `Drop` is written by hand: a derived one is expanded, and proved, at each way out of each owner.
impl Drop for Links {
    fn drop(self) {
        let Links {
            first: _,
            after: _,
            fixed: _,
            ahead: _,
        } = self;
    }
}

/// For each child the next one that has the same task, and where each task comes first.
fn next_places<'a, L: PlanLines>(
    alloc: Global,
    lines: &'a L,
    children: &[usize],
    places: &mut Places<'a>,
) -> Result<Vec<usize>, AllocError>
    requires low { (i : ℕ) → i < length children.now → get_or children.now i 0 < (L.lines lines.now).count }
    requires fresh { (t : problem.GroundTask) → IsFirstPlace (task_at (L.lines lines.now) children.now) (length children.now) (length children.now) t (place_of places.old t) }
    ensures next { IfOk result (λ v. AreNext (task_at (L.lines lines.now) children.now) 0 (length children.now) v.items) }
    ensures first { IfOk result (λ v. (t : problem.GroundTask) → IsFirstPlace (task_at (L.lines lines.now) children.now) 0 (length children.now) t (place_of places.new t)) }
{
    let mut after = vec![in alloc; children.len(); children.len()]?;
    let mut place = children.len();
    while place > 0 {
        place -= 1;
        if let Some(next) = places.note(lines.task(children[place]), place)? {
            after[place] = next;
        }
    }
    Ok(after)
}

/// The first child that has the task of a node, or the number past all.
fn first_place(places: &Places<'_>, count: usize, child: &Child) -> usize
    ensures { result ≡ first_of (place_of places.now) count (child_view child.now) }
{
    let place = match child {
        Child::Precondition(_) => None,
        Child::Action(task) => places.place(task),
        Child::Task(task) => places.place(task),
    };
    place.unwrap_or(count)
}

/// For each node the first child that has its task.
fn first_places(
    alloc: Global,
    places: &Places<'_>,
    count: usize,
    nodes: &[Child],
) -> Result<Vec<usize>, AllocError>
    ensures { IfOk result (λ v. v.items ≡ map (λ c. first_of (place_of places.now) count (child_view c)) nodes.now) }
{
    let mut first = Vec::with_capacity(alloc, nodes.len())?;
    for child in nodes {
        first.push(first_place(places, count, child))?;
    }
    Ok(first)
}

/// Whether two positions are ordered alike.
fn are_twins(order: &Order, a: usize, b: usize) -> bool
    ensures { IsTrue result → AreTwins order.now a b }
{
    for x in 0..order.size() {
        if order.is_before(x, a) != order.is_before(x, b)
            || order.is_before(a, x) != order.is_before(b, x)
        {
            return false;
        }
    }
    true
}

/// The flag at a place, false past all.
pub(crate) fn flag_at(flags: &[bool], place: usize) -> bool
    ensures { result ≡ get_or flags.now place false }
{
    match flags.get(place) {
        Some(flag) => *flag,
        None => false,
    }
}

/// Whether a line is an action's, and the next of its task a later one with which it is so too.
fn rises(children: &[usize], actions: usize, rising: &[bool], place: usize, next: usize) -> bool
    requires { place < length children.now }
    ensures { IsTrue result → (get_or children.now place 0 < actions)
        × ((length children.now ≤ next) ⊎ ((get_or children.now place 0 < get_or children.now next 0) × (get_or rising.now next false ≡ true))) }
{
    if actions <= children[place] {
        return false;
    }
    if children.len() <= next {
        return true;
    }
    flag_at(rising, next) && children[place] < children[next]
}

/// For each child whether it and all later ones of its task are action lines, in their order.
fn rising_places<L: PlanLines>(
    alloc: Global,
    lines: &L,
    children: &[usize],
    after: &[usize],
) -> Result<Vec<bool>, AllocError>
    requires { AreNext (task_at (L.lines lines.now) children.now) 0 (length children.now) after.now }
    ensures { IfOk result (λ v. AreRising (task_at (L.lines lines.now) children.now) children.now (L.lines lines.now).actions 0 v.items) }
{
    let actions = lines.actions();
    let mut rising = vec![in alloc; false; children.len()]?;
    let mut place = children.len();
    while place > 0 {
        place -= 1;
        let is_rising = rises(children, actions, &rising, place, after[place]);
        rising[place] = is_rising;
    }
    Ok(rising)
}

/// Whether a position is the last of its task, or that after it is settled and its twin or behind it.
fn is_settled(order: &Order, fixed: &[bool], is_rising: bool, position: usize, later: usize) -> bool
    ensures { IsTrue result → (later ≡ length order.now) ⊎ ((get_or fixed.now later false ≡ true)
        × (AreTwins order.now position later ⊎ ((problem.is_before order.now position later ≡ true) × (is_rising ≡ true)))) }
{
    if later == order.size() {
        return true;
    }
    if !flag_at(fixed, later) {
        return false;
    }
    if order.is_before(position, later) {
        is_rising
    } else {
        are_twins(order, position, later)
    }
}

/// For each position whether the first choice that is free will do: each later one of the same task is
/// its twin or behind it.
fn fixed_positions(
    alloc: Global,
    order: &Order,
    sequence: &[usize],
    first: &[usize],
    rising: &[bool],
    count: usize,
) -> Result<Vec<bool>, AllocError>
    requires sequence { IsSequence order.now sequence.now }
    requires size { length first.now ≡ length order.now }
    requires within { (a : ℕ) → get_or first.now a 0 ≤ count }
    requires few { count + 1 < 2 ^ 64 }
    ensures { IfOk result (λ v. AreFlagged order.now sequence.now (λ a. get_or first.now a 0) rising.now 0 (λ a. get_or v.items a false ≡ true)) }
{
    let size = order.size();
    let mut fixed = vec![in alloc; false; size]?;
    let mut seen = vec![in alloc; size; count + 1]?;
    let mut place = sequence.len();
    while place > 0 {
        place -= 1;
        let position = sequence[place];
        let later = seen[first[position]];
        let is_rising = flag_at(rising, first[position]);
        fixed[position] = is_settled(order, &fixed, is_rising, position, later);
        seen[first[position]] = position;
    }
    Ok(fixed)
}

/// What a search among the matchings of a network looks up.
pub(crate) fn links_of<L: PlanLines>(
    alloc: Global,
    lines: &L,
    children: &[usize],
    instance: &Instance,
    sequence: &[usize],
    ahead: Vec<(usize, usize)>,
) -> Result<Links, AllocError>
    requires lines { AreLines (L.lines lines.now) }
    requires low { (i : ℕ) → i < length children.now → get_or children.now i 0 < (L.lines lines.now).count }
    requires few { length children.now + length instance.now.network.children < 2 ^ 64 }
    requires square { IsSquare (length instance.now.network.children) instance.now.network.order }
    requires sequence { IsSequence instance.now.network.order sequence.now }
    requires ahead { AreAhead instance.now.network.order sequence.now ahead.items }
    ensures { IfOk result (λ links. (gap : ℕ) → AreLinked (seating_of (L.lines lines.now) children.now instance.now.network sequence.now gap) (length children.now) links) }
{
    let mut places = Places::new(alloc);
    let after = next_places(alloc, lines, children, &mut places)?;
    let first = first_places(
        alloc,
        &places,
        children.len(),
        instance.children().as_slice(),
    )?;
    let rising = rising_places(alloc, lines, children, &after)?;
    let order = instance.order();
    let fixed = fixed_positions(alloc, order, sequence, &first, &rising, children.len())?;
    Ok(Links {
        first,
        after,
        fixed,
        ahead,
    })
}
