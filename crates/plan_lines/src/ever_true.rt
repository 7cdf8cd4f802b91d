//! The atoms that are true in some gap of a run, by predicate and by each argument.
ghost use Rattle.std.specs.Prelude.{◌≡◌, ◌↔◌, Some, IfOk, IsTrue, OnOk, length, map, slice_get};
ghost use Rattle.htn_model.specs.Atom as model;
ghost use Rattle.htn_model.specs.PlanFile.{IsIn};
ghost use Rattle.plan_lines.specs.EverTrue.{AreMore, AreOf, IsListed, listed};
ghost use Rattle.plan_lines.specs.Turns.{IsEverTrue, IsHistory};

use crate::history::Turns;
use htn_task::Atom;
use indexmap::IndexSet;
use std::alloc::{AllocError, Global};
use std::hash::{Hash, Hasher};
use std::marker::Model;

/// What atoms have in common that are listed together.
#[derive(Clone, Copy)]
pub(crate) enum Slot {
    /// The predicate.
    Predicate(u16),
    /// The predicate, and the object at a place of the arguments.
    Argument(u16, usize, u16),
}

impl PartialEq for Slot {
    ghost use Rattle.plan_lines.specs.EverTrue.{slot_eq};
    ghost use Rattle.plan_lines.specs.Slots.{slot_eq-partial};

    ghost eq = { slot_eq };

    ghost laws = { slot_eq-partial };

    fn eq(&self, other: &Slot) -> bool {
        match (self, other) {
            (Slot::Predicate(p), Slot::Predicate(q)) => p == q,
            (Slot::Argument(p, i, o), Slot::Argument(q, j, r)) => p == q && i == j && o == r,
            _ => false,
        }
    }
}

impl Eq for Slot {
    ghost use Rattle.plan_lines.specs.Slots.{slot_eq-laws};

    ghost laws = { slot_eq-laws };
}

impl Hash for Slot {
    ghost use Rattle.plan_lines.specs.EverTrue.{slot_hash};
    ghost use Rattle.plan_lines.specs.Slots.{slot_hash-Alike};

    ghost hash_input = { slot_hash };

    ghost respects_eq = { slot_hash-Alike.fed };

    fn hash<H: Hasher>(&self, state: &mut H) {
        match self {
            Slot::Predicate(predicate) => predicate.hash(state),
            Slot::Argument(predicate, place, object) => {
                predicate.hash(state);
                place.hash(state);
                object.hash(state);
            }
        }
    }
}

/// Atoms by their slots.
pub(crate) struct Lists<'a> {
    pub(crate) slots: IndexSet<Slot>,
    /// For each of these the atoms that have it.
    pub(crate) atoms: Vec<Vec<&'a Atom>>,
}

impl Drop for Lists<'_> {
    fn drop(self) {
        let Lists { slots: _, atoms: _ } = self;
    }
}

impl<'a> Lists<'a> {
    /// Lists an atom at a slot.
    fn add(&mut self, alloc: Global, slot: Slot, atom: &'a Atom) -> Result<(), AllocError>
        requires { length self.old.atoms.items ≡ length self.old.slots.keys }
        ensures { OnOk result (AreMore self.old self.new × IsIn atom.now (listed self.new slot)) }
    {
        let (place, is_new) = self.slots.insert_full(slot)?;
        if is_new {
            self.atoms.push(Vec::new(alloc))?;
        }
        self.atoms[place].push(atom)?;
        Ok(())
    }

    /// Lists an atom at all its slots.
    fn add_all(&mut self, alloc: Global, atom: &'a Atom) -> Result<(), AllocError>
        requires { length self.old.atoms.items ≡ length self.old.slots.keys }
        ensures { OnOk result (AreMore self.old self.new × IsListed self.new atom.now) }
    {
        let predicate = atom.predicate();
        self.add(alloc, Slot::Predicate(predicate), atom)?;
        for (place, object) in atom.arguments().iter().enumerate() {
            self.add(alloc, Slot::Argument(predicate, place, *object), atom)?;
        }
        Ok(())
    }

    /// The atoms at a slot.
    fn at(&self, slot: Slot) -> &[&'a Atom]
        requires { length self.now.atoms.items ≡ length self.now.slots.keys }
        ensures { map (λ a. a.now) result.now ≡ listed self.now slot }
    {
        match self.slots.get_index_of(&slot) {
            Some(place) => self.atoms[place].as_slice(),
            None => &[],
        }
    }
}

/// The atoms of a history that are true in some gap, each at all its slots.
fn lists_of<'a>(alloc: Global, turns: &'a Turns<'a>) -> Result<Lists<'a>, AllocError>
    requires { IsHistory turns.now }
    ensures { IfOk result (AreOf turns.now) }
{
    let mut lists = Lists {
        slots: IndexSet::new(alloc),
        atoms: Vec::new(alloc),
    };
    let atoms = turns.atoms();
    for place in 0..atoms.len() {
        let atom = atoms.get_index(place).unwrap();
        if turns.is_ever_true(atom) {
            lists.add_all(alloc, atom)?;
        }
    }
    Ok(lists)
}

/// The atoms that are true in some gap of a run. Contracts see the history of the run.
#[derive(Drop)]
pub struct EverTrue<'a> {
    turns: &'a Turns<'a>,
    lists: Lists<'a>,
}

impl<'a> Model for EverTrue<'a> {
    ghost use Rattle.plan_lines.specs.EverTrue.{AreOf};
    ghost use Rattle.plan_lines.specs.Turns as model;

    ghost Value = { model.History };

    ghost coded = { model.history_code };

    ghost view = { λ e. e.turns.now };

    ghost invariant = { λ e. AreOf e.turns.now e.lists };
}

impl<'a> EverTrue<'a> {
    /// The atoms that are true in some gap of a run.
    pub fn of(alloc: Global, turns: &'a Turns<'a>) -> Result<EverTrue<'a>, AllocError>
        requires { IsHistory turns.now }
        ensures { IfOk result (λ ever. ever ≡ turns.now) }
    {
        let lists = lists_of(alloc, turns)?;
        Ok(EverTrue { turns, lists })
    }

    /// Whether an atom is true in some gap.
    pub fn has(&self, atom: &Atom) -> bool
        ensures { IsTrue result ↔ IsEverTrue self.now atom.now }
    {
        self.turns.is_ever_true(atom)
    }

    /// Atoms among which is each of a predicate that is true in some gap.
    pub fn with_predicate(&self, predicate: u16) -> &[&'a Atom]
        ensures { (a : model.Atom) → IsEverTrue self.now a → a.predicate ≡ predicate → IsIn a (map (λ a. a.now) result.now) }
    {
        self.lists.at(Slot::Predicate(predicate))
    }

    /// Atoms among which is each of a predicate, with an object at a place of its arguments, that is true in some gap.
    pub fn with_argument(&self, predicate: u16, place: usize, object: u16) -> &[&'a Atom]
        ensures { (a : model.Atom) → IsEverTrue self.now a → a.predicate ≡ predicate → slice_get a.arguments place ≡ Some object
            → IsIn a (map (λ a. a.now) result.now) }
    {
        self.lists.at(Slot::Argument(predicate, place, object))
    }
}
