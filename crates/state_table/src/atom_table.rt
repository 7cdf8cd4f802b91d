//! Fluent atoms by numbers.
ghost use Rattle.std.specs.Prelude.{◌≡◌, ◌&&◌, ℕ, [], not, filter, length, slice_get, Some, true, IfOk, IfSome, IfNone, OnErr, OnOk};
ghost use Rattle.htn_model.specs.Atom.{Atom as ModelAtom};
ghost use Rattle.htn_model.specs.State.{contains};
ghost use Rattle.state_table.specs.Table.{IsTable, IsLater, is_fluent, is_fluent_by};

use htn_task::{Atom, State};
use indexmap::IndexSet;
use std::alloc::{AllocError, Global};
use std::marker::Model;

/// The atoms of fluent predicates by number, as they are first asked for, and the static atoms that are true.
pub struct AtomTable {
    /// By predicate: whether some effect names it. A predicate past the last one is static.
    fluents: Vec<bool>,
    /// The initial atoms of static predicates.
    statics: State,
    atoms: IndexSet<Atom>,
}

impl Drop for AtomTable {
    fn drop(self) {
        let AtomTable {
            fluents: _,
            statics: _,
            atoms: _,
        } = self;
    }
}

impl Model for AtomTable {
    ghost use Rattle.state_table.specs.Table.{Table, table_code, IsTable};

    ghost Value = { Table };

    ghost coded = { table_code };

    ghost view = { λ t. record { fluents = t.fluents.items; statics = t.statics; atoms = t.atoms.keys } };

    ghost invariant = { λ t. IsTable (record { fluents = t.fluents.items; statics = t.statics; atoms = t.atoms.keys }) };
}

/// Whether the atom's predicate is fluent.
fn is_fluent(fluents: &[bool], atom: &Atom) -> bool
    ensures { result ≡ is_fluent_by fluents.now atom.now }
{
    fluents
        .get(atom.predicate() as usize)
        .copied()
        .unwrap_or(false)
}

/// The atoms of static predicates.
fn static_atoms(alloc: Global, fluents: &[bool], atoms: &[Atom]) -> Result<Vec<Atom>, AllocError>
    ensures { IfOk result (λ statics. statics.items ≡ filter (λ a. not (is_fluent_by fluents.now a)) atoms.now) }
{
    let mut statics = Vec::new(alloc);
    for atom in atoms {
        if !is_fluent(fluents, atom) {
            statics.push(atom.clone()?)?;
        }
    }
    Ok(statics)
}

impl AtomTable {
    /// The table of a problem with this initial state, of which no atom has a number yet.
    pub fn new(alloc: Global, fluents: Vec<bool>, initial: &State) -> Result<Self, AllocError>
        ensures table { IfOk result IsTable }
        ensures none { IfOk result (λ t. t.atoms ≡ []) }
        ensures fluents { IfOk result (λ t. t.fluents ≡ fluents.items) }
        ensures statics { IfOk result (λ t. (a : ModelAtom)
            → contains t.statics a ≡ (contains initial.now a && not (is_fluent t a))) }
    {
        let statics = static_atoms(alloc, &fluents, initial.atoms())?;
        Ok(AtomTable {
            statics: State::of(alloc, &statics)?,
            atoms: IndexSet::new(alloc),
            fluents,
        })
    }

    /// Whether the atom's predicate is fluent.
    pub fn is_fluent(&self, atom: &Atom) -> bool
        ensures { result ≡ is_fluent self.now atom.now }
    {
        is_fluent(&self.fluents, atom)
    }

    /// Whether the atom is static and true.
    pub fn is_static(&self, atom: &Atom) -> bool
        ensures { result ≡ contains self.now.statics atom.now }
    {
        self.statics.contains(atom)
    }

    /// The number of an atom, if it has one.
    pub fn number_of(&self, atom: &Atom) -> Option<u32>
        ensures table { IsTable self.now }
        ensures some { IfSome result (λ n. slice_get self.now.atoms n ≡ Some atom.now) }
        ensures none { IfNone result ((n : ℕ) → slice_get self.now.atoms n ≡ Some atom.now → ⊥) }
    {
        let place = self.atoms.get_index_of(atom)?;
        Some(place as u32)
    }

    /// The number of an atom, which gets one if it has none.
    pub fn number(&mut self, atom: &Atom) -> Result<u32, AllocError>
        requires { is_fluent self.old atom.now ≡ true }
        ensures later { OnOk result (IsLater self.old self.new) }
        ensures number { IfOk result (λ n. slice_get self.new.atoms n ≡ Some atom.now) }
        ensures unchanged { OnErr result (self.new ≡ self.old) }
    {
        if let Some(number) = self.number_of(atom) {
            return Ok(number);
        }
        // At most 2^32 atoms would have numbers, and an `IndexSet` takes no more than 9 * 2^28. Past these a search
        // answers `OutOfMemory` although no memory was refused. That many atoms take more than 25 GB.
        let Ok(number) = u32::try_from(self.atoms.len()) else {
            return Err(AllocError);
        };
        self.atoms.insert(atom.clone()?)?;
        Ok(number)
    }

    /// The number of atoms.
    pub fn len(&self) -> usize
        ensures table { IsTable self.now }
        ensures count { result ≡ length self.now.atoms }
    {
        self.atoms.len()
    }
}
