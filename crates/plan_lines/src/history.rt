//! The gaps at which atoms turn true or false.
ghost use Rattle.std.specs.Prelude.{◌≡◌, ◌<◌, ◌≤◌, ◌+◌, ◌∷◌, ◌++◌, ◌^◌, ◌↔◌, [], IfOk, IsTrue, List, OnOk, ℕ, length, get_or, ltb, map};
ghost use Rattle.std.specs.Bool.{beq};
ghost use Rattle.std.specs.List.{position_or_len};
ghost use Rattle.std.specs.List.Sorted.{IsStrictlySortedBy};
ghost use Rattle.htn_model.specs.Atom as model;
ghost use Rattle.htn_model.specs.Atom.{atom_cmp};
ghost use Rattle.htn_model.specs.State.{atoms_of, contains};
ghost use Rattle.htn_task.specs.Literals.{literal_of, literals_of};
ghost use Rattle.plan_lines.specs.Turns as spec;
ghost use Rattle.plan_lines.specs.Turns.{AreTurned, IsApplied, IsEverTrue, IsHistory, IsLastGap, IsNextGap, IsOnward, IsStart, IsRising, IsTurnedOver, Splits, is_true_in, literal_truth, literals_truth, truth, turns_of};

use htn_task::{Action, Atom, Literal, State};
use indexmap::IndexSet;
use std::alloc::{AllocError, Global};
use std::marker::Model;

/// The truth of atoms gap by gap, from an initial state on.
pub struct Turns<'a> {
    initial: &'a State,
    /// The last gap so far.
    last: usize,
    /// The atoms that effects have touched.
    atoms: IndexSet<Atom>,
    /// For each of these the gaps at which it turned true or false, ascending.
    turns: Vec<Vec<usize>>,
}

impl Drop for Turns<'_> {
    fn drop(self) {
        let Turns {
            initial: _,
            last: _,
            atoms: _,
            turns: _,
        } = self;
    }
}

impl<'a> Model for Turns<'a> {
    ghost use Rattle.std.specs.Prelude.{map};
    ghost use Rattle.plan_lines.specs.Turns as model;

    ghost Value = { model.History };

    ghost coded = { model.history_code };

    ghost view = { λ t. record { initial = t.initial.now; last = t.last; atoms = t.atoms.keys; turns = map (λ v. v.items) t.turns.items } };
}

/// How many of the gaps, which ascend, are up to this one.
fn count_passed(turns: &[usize], gap: usize) -> usize
    requires { (last : ℕ) × IsRising last turns.now }
    ensures { Splits turns.now gap result }
{
    match turns.binary_search(&gap) {
        Ok(place) => place + 1,
        Err(place) => place,
    }
}

/// What is so at first or not, after that many turns.
fn is_turned(first: bool, turns: usize) -> bool
    ensures { result ≡ spec.is_turned first turns }
{
    if turns % 2 == 0 { first } else { !first }
}

/// The first gap from one on, up to the last, in which something is as wanted that turns in these gaps, ascending.
fn next_wanted(
    first: bool,
    turns: &[usize],
    wanted: bool,
    from: usize,
    last: usize,
) -> Option<usize>
    requires rising { (end : ℕ) × IsRising end turns.now }
    requires within { from ≤ last }
    ensures { IsNextGap (λ k. beq (is_true_in first turns.now k) wanted) from last result }
{
    let passed = count_passed(turns, from);
    if is_turned(first, passed) == wanted {
        return Some(from);
    }
    if turns.len() <= passed {
        return None;
    }
    let turn = turns[passed];
    if last < turn { None } else { Some(turn) }
}

/// The last gap up to one in which something is as wanted that turns in these gaps, ascending.
fn last_wanted(first: bool, turns: &[usize], wanted: bool, gap: usize) -> Option<usize>
    requires { (end : ℕ) × IsRising end turns.now }
    ensures { IsLastGap (λ k. beq (is_true_in first turns.now k) wanted) gap result }
{
    let passed = count_passed(turns, gap);
    if is_turned(first, passed) == wanted {
        return Some(gap);
    }
    if passed == 0 {
        return None;
    }
    let turn = turns[passed - 1];
    if turn == 0 { None } else { Some(turn - 1) }
}

/// Whether the last of the gaps is this one.
fn is_last(turns: &[usize], gap: usize) -> bool
    ensures { IsTrue result ↔ ((front : List ℕ) × (turns.now ≡ front ++ gap ∷ [])) }
{
    match turns.last() {
        Some(last) => *last == gap,
        None => false,
    }
}

/// Turns something over in a gap that is none before those in which it turned.
fn turn_over(turns: &mut Vec<usize>, gap: usize) -> Result<(), AllocError>
    requires { IsRising gap turns.old.items }
    ensures { OnOk result (IsTurnedOver turns.old.items turns.new.items gap) }
{
    if is_last(turns, gap) {
        let _ = turns.pop();
        return Ok(());
    }
    turns.push(gap)?;
    Ok(())
}

/// A set of atoms that ascend.
fn set_of(alloc: Global, atoms: &[Atom]) -> Result<IndexSet<Atom>, AllocError>
    requires { IsStrictlySortedBy atom_cmp atoms.now }
    ensures { IfOk result (λ set. set.keys ≡ atoms.now) }
{
    let mut set = IndexSet::new(alloc);
    for atom in atoms {
        let _ = set.insert(atom.clone()?)?;
    }
    Ok(set)
}

/// `count` lists without turns.
fn no_turns(alloc: Global, count: usize) -> Result<Vec<Vec<usize>>, AllocError>
    ensures many { IfOk result (λ v. length v.items ≡ count) }
    ensures none { IfOk result (λ v. (i : ℕ) → get_or (map (λ turns. turns.items) v.items) i [] ≡ []) }
{
    let mut all = Vec::with_capacity(alloc, count)?;
    for place in 0..count {
        let _ = place;
        all.push(Vec::new(alloc))?;
    }
    Ok(all)
}

impl<'a> Turns<'a> {
    /// Nothing has turned in the gap before all lines.
    pub(crate) fn new(alloc: Global, initial: &'a State) -> Result<Turns<'a>, AllocError>
        ensures { IfOk result (IsStart initial.now) }
    {
        let atoms = set_of(alloc, initial.atoms())?;
        let turns = no_turns(alloc, atoms.len())?;
        Ok(Turns {
            initial,
            last: 0,
            atoms,
            turns,
        })
    }

    /// The atoms that are true at first, and then those that effects have touched besides.
    pub(crate) fn atoms(&self) -> &IndexSet<Atom>
        ensures { result.now.keys ≡ self.now.atoms }
    {
        &self.atoms
    }

    /// Whether the atom at a place is true at first.
    fn is_first(&self, place: usize) -> bool
        ensures { result ≡ ltb place (length (atoms_of self.now.initial)) }
    {
        place < self.initial.atoms().len()
    }

    /// The place of an atom among those that were touched, where it is put if it isn't there.
    fn touch(&mut self, alloc: Global, atom: &Atom) -> Result<usize, AllocError>
        requires { IsHistory self.old }
        ensures history { OnOk result (IsHistory self.new) }
        ensures initial { self.new.initial ≡ self.old.initial }
        ensures last { self.new.last ≡ self.old.last }
        ensures same { OnOk result ((b : model.Atom) → turns_of self.new b ≡ turns_of self.old b) }
        ensures place { IfOk result (λ place. place ≡ position_or_len (model.atom_eq atom.now) self.new.atoms) }
        ensures within { IfOk result (λ place. place < length self.new.turns) }
    {
        if let Some(place) = self.atoms.get_index_of(atom) {
            return Ok(place);
        }
        let place = self.turns.len();
        let _ = self.atoms.insert(atom.clone()?)?;
        self.turns.push(Vec::new(alloc))?;
        Ok(place)
    }

    /// Makes an atom true or false in the last gap.
    fn set(&mut self, alloc: Global, atom: &Atom, value: bool) -> Result<(), AllocError>
        requires { IsHistory self.old }
        ensures history { OnOk result (IsHistory self.new) }
        ensures turned { OnOk result (AreTurned self.old self.new (atom.now ∷ []) value) }
    {
        let place = self.touch(alloc, atom)?;
        let first = self.is_first(place);
        if is_turned(first, self.turns[place].len()) != value {
            turn_over(&mut self.turns[place], self.last)?;
        }
        Ok(())
    }

    /// Makes atoms true or false in the last gap.
    fn set_all(&mut self, alloc: Global, atoms: &[Atom], value: bool) -> Result<(), AllocError>
        requires { IsHistory self.old }
        ensures history { OnOk result (IsHistory self.new) }
        ensures turned { OnOk result (AreTurned self.old self.new atoms.now value) }
    {
        for atom in atoms {
            self.set(alloc, atom, value)?;
        }
        Ok(())
    }

    /// Goes on to the next gap, after an action.
    pub(crate) fn apply(&mut self, alloc: Global, action: &Action) -> Result<(), AllocError>
        requires history { IsHistory self.old }
        requires room { self.old.last + 1 < 2 ^ 64 }
        ensures history { OnOk result (IsHistory self.new) }
        ensures applied { OnOk result (IsApplied self.old self.new action.now) }
    {
        self.last += 1;
        self.set_all(alloc, action.deletes.atoms(), false)?;
        self.set_all(alloc, action.adds.atoms(), true)?;
        Ok(())
    }

    /// Whether an atom is true at first, and the gaps at which it turned.
    fn course_of(&self, atom: &Atom) -> (bool, &[usize])
        requires { IsHistory self.now }
        ensures first { result.0 ≡ contains self.now.initial atom.now }
        ensures turns { result.1.now ≡ turns_of self.now atom.now }
    {
        match self.atoms.get_index_of(atom) {
            Some(place) => (self.is_first(place), self.turns[place].as_slice()),
            None => (false, &[]),
        }
    }

    /// The first gap from one on, up to the last, in which an atom is true or false, as wanted.
    fn next_with(&self, atom: &Atom, wanted: bool, from: usize, last: usize) -> Option<usize>
        requires history { IsHistory self.now }
        requires within { from ≤ last }
        ensures { IsNextGap (λ k. beq (truth self.now atom.now k) wanted) from last result }
    {
        let (first, turns) = self.course_of(atom);
        next_wanted(first, turns, wanted, from, last)
    }

    /// Whether an atom is true in some gap.
    pub(crate) fn is_ever_true(&self, atom: &Atom) -> bool
        requires { IsHistory self.now }
        ensures { IsTrue result ↔ IsEverTrue self.now atom.now }
    {
        self.next_with(atom, true, 0, self.last).is_some()
    }

    /// The first gap from one on, up to the last, in which a literal holds.
    fn next_holding(&self, literal: &Literal, from: usize, last: usize) -> Option<usize>
        requires history { IsHistory self.now }
        requires within { from ≤ last }
        ensures { IsNextGap (literal_truth self.now (literal_of literal.now)) from last result }
    {
        match literal {
            Literal::Positive(atom) => self.next_with(atom, true, from, last),
            Literal::Negative(atom) => self.next_with(atom, false, from, last),
            Literal::Same(x, y) if x == y => Some(from),
            Literal::Different(x, y) if x != y => Some(from),
            _ => None,
        }
    }

    /// The last gap up to one in which an atom is true or false, as wanted.
    fn last_with(&self, atom: &Atom, wanted: bool, gap: usize) -> Option<usize>
        requires { IsHistory self.now }
        ensures { IsLastGap (λ k. beq (truth self.now atom.now k) wanted) gap result }
    {
        let (first, turns) = self.course_of(atom);
        last_wanted(first, turns, wanted, gap)
    }

    /// The last gap up to one in which a literal holds.
    pub fn last_gap(&self, literal: &Literal, gap: usize) -> Option<usize>
        requires { IsHistory self.now }
        ensures { IsLastGap (literal_truth self.now (literal_of literal.now)) gap result }
    {
        match literal {
            Literal::Positive(atom) => self.last_with(atom, true, gap),
            Literal::Negative(atom) => self.last_with(atom, false, gap),
            Literal::Same(x, y) if x == y => Some(gap),
            Literal::Different(x, y) if x != y => Some(gap),
            _ => None,
        }
    }

    /// One round through literals, each of which moves the gap on to the first in which it holds.
    fn onward(&self, literals: &[Literal], from: usize, last: usize) -> Option<usize>
        requires history { IsHistory self.now }
        requires within { from ≤ last }
        ensures { IsOnward (literals_truth self.now (literals_of literals.now)) from last result }
    {
        let mut gap = from;
        for literal in literals {
            let Some(next) = self.next_holding(literal, gap, last) else {
                return None;
            };
            gap = next;
        }
        Some(gap)
    }

    /// The first gap from one on, up to the last, in which all literals hold.
    pub fn next_gap(&self, literals: &[Literal], from: usize, last: usize) -> Option<usize>
        requires { IsHistory self.now }
        ensures { IsNextGap (literals_truth self.now (literals_of literals.now)) from last result }
    {
        if last < from {
            return None;
        }
        let mut gap = from;
        while let Some(next) = self.onward(literals, gap, last) {
            if next == gap {
                return Some(gap);
            }
            gap = next;
        }
        None
    }

    /// Whether all literals hold in a gap.
    pub fn holds(&self, literals: &[Literal], gap: usize) -> bool
        requires { IsHistory self.now }
        ensures { result ≡ literals_truth self.now (literals_of literals.now) gap }
    {
        self.next_gap(literals, gap, gap).is_some()
    }
}
