//! The objects that the true atoms of a static literal leave to a parameter.
ghost use Rattle.std.specs.Prelude.{◌≡◌, ◌≤◌, ◌<◌, ◌++◌, ◌∷◌, [], List, ℕ, IfOk, IfSome, OnOk, get_or, length, map, true};
ghost use Rattle.std.specs.List.{All, AllWithin};
ghost use Rattle.std.specs.List.Sorted.{IsStrictlySortedBy};
ghost use Rattle.std.specs.Ordering.{is_lt, nat_cmp};
ghost use Rattle.htn_model.specs.Atom.{atom_cmp};
ghost use Rattle.htn_model.specs.Instances.{value_of};
ghost use Rattle.htn_task.specs.Views.{terms_of};
ghost use Rattle.htn_ground.specs.Candidates.{AgreesWith, Excludes, atom_of, is_excluded, is_left_out, moved_atom, moved_atoms, moved_last, rows_of};

use crate::counts::count_assignments;
use crate::fixed::FixedLiteral;
use crate::literals::ground_arguments;
use crate::object_list::ObjectList;
use htn_task::{Atom, State, Term};
use std::alloc::{AllocError, Global};

/// The objects that a literal leaves to the parameter at `depth`, once those before it have values.
pub(crate) struct Candidates {
    depth: usize,
    predicate: u16,
    /// The argument of the parameter is the last.
    arguments: Vec<Term>,
    /// The true atoms with the argument of the parameter moved behind the others; None where it is the last one
    /// already.
    rows: Option<State>,
}

impl Drop for Candidates {
    fn drop(self) {
        let Candidates {
            depth: _,
            predicate: _,
            arguments: _,
            rows: _,
        } = self;
    }
}

impl Candidates {
    fn rows<'a>(&'a self, state: &'a State) -> &'a State
        ensures { result.now ≡ rows_of state.now self.now }
    {
        match &self.rows {
            Some(rows) => rows,
            None => state,
        }
    }

    /// The literal's atom at values and an object after them.
    fn atom_with(&self, values: &[u16], object: u16) -> Result<Atom, AllocError>
        ensures { IfOk result (λ a. a ≡ atom_of (values.now ++ object ∷ []) self.now) }
    {
        let alloc = *self.arguments.allocator();
        let mut longer = ObjectList::of(alloc, values)?;
        longer.push(object)?;
        let objects = ground_arguments(alloc, &self.arguments, longer.as_slice())?;
        Atom::new(alloc, self.predicate, objects.as_slice())
    }

    /// Whether the literal's atom at values and an object after them is below an atom.
    fn is_below(&self, values: &[u16], object: u16, limit: &Atom) -> Result<bool, AllocError>
        ensures { IfOk result (λ b. b ≡ is_lt (atom_cmp (atom_of (values.now ++ object ∷ []) self.now) limit.now)) }
    {
        let atom = self.atom_with(values, object)?;
        Ok(atom < *limit)
    }

    /// A place from `from` on, up to which no object makes the literal true.
    fn next_place(
        &self,
        state: &State,
        values: &[u16],
        objects: &[u16],
        from: usize,
    ) -> Result<usize, AllocError>
        requires from { from < length objects.now }
        requires ascending { IsStrictlySortedBy nat_cmp objects.now }
        ensures within { IfOk result (λ n. (from ≤ n) × (n ≤ length objects.now)) }
        ensures excluded { IfOk result (λ n. AllWithin (λ o. is_excluded state.now self.now values.now o ≡ true) objects.now from n) }
    {
        let lowest = self.atom_with(values, objects[from])?;
        let atoms = self.rows(state).atoms();
        let Err(at) = atoms.binary_search(&lowest) else {
            return Ok(from);
        };
        let Some(next) = atoms.get(at) else {
            return Ok(objects.len());
        };
        let reach = place_of_last(next, objects);
        if reach > from && self.is_below(values, objects[reach - 1], next)? {
            return Ok(reach);
        }
        if self.is_below(values, objects[objects.len() - 1], next)? {
            return Ok(objects.len());
        }
        Ok(from)
    }
}

/// How many objects are below the last argument of an atom.
fn place_of_last(atom: &Atom, objects: &[u16]) -> usize
    ensures { result ≤ length objects.now }
{
    let Some(object) = atom.arguments().last() else {
        return objects.len();
    };
    match objects.binary_search(object) {
        Ok(place) => place,
        Err(place) => place,
    }
}

/// A place from `from` on, up to which some literal leaves out each object.
pub(crate) fn next_place(
    all: &[Candidates],
    state: &State,
    values: &[u16],
    objects: &[u16],
    from: usize,
) -> Result<usize, AllocError>
    requires from { from < length objects.now }
    requires ascending { IsStrictlySortedBy nat_cmp objects.now }
    ensures within { IfOk result (λ n. (from ≤ n) × (n ≤ length objects.now)) }
    ensures left_out { IfOk result (λ n. AllWithin (λ o. is_left_out state.now all.now values.now o ≡ true) objects.now from n) }
{
    for candidates in all {
        if candidates.depth == values.len() {
            let next = candidates.next_place(state, values, objects, from)?;
            if next > from {
                return Ok(next);
            }
        }
    }
    Ok(from)
}

/// A list with the item at a place moved behind the others.
fn moved_last<T: Copy + Drop>(
    alloc: Global,
    items: &[T],
    place: usize,
) -> Result<Vec<T>, AllocError>
    requires { place < length items.now }
    ensures { IfOk result (λ v. v.items ≡ moved_last place items.now) }
{
    let mut moved = Vec::from_slice(alloc, items)?;
    let item = moved.remove(place);
    moved.push(item)?;
    Ok(moved)
}

/// An atom with the argument at a place moved behind the others.
fn moved_atom(alloc: Global, atom: &Atom, place: usize) -> Result<Atom, AllocError>
    requires { place < length atom.now.arguments }
    ensures { IfOk result (λ a. a ≡ moved_atom place atom.now) }
{
    let arguments = moved_last(alloc, atom.arguments(), place)?;
    Atom::new(alloc, atom.predicate(), &arguments)
}

/// The true atoms of a predicate with more arguments than `place`, that argument moved behind the
/// others.
fn moved_atoms(
    alloc: Global,
    state: &State,
    predicate: u16,
    place: usize,
) -> Result<State, AllocError>
    ensures { IfOk result (λ s. s ≡ moved_atoms state.now predicate place) }
{
    let mut rows = Vec::new(alloc);
    for atom in state.atoms() {
        if atom.predicate() == predicate && place < atom.arguments().len() {
            rows.push(moved_atom(alloc, atom, place)?)?;
        }
    }
    State::of(alloc, &rows)
}

/// The last place of a parameter among terms.
pub(crate) fn last_place(terms: &[Term], parameter: usize) -> Option<usize>
    ensures place { IfSome result (λ n. n < length terms.now) }
    ensures at { IfSome result (λ n. (values : List ℕ) → get_or (map (value_of values) (terms_of terms.now)) n 0 ≡ get_or values parameter 0) }
{
    let mut last = None;
    for (place, term) in terms.iter().enumerate() {
        if let Term::Parameter(number) = term {
            if *number as usize == parameter {
                last = Some(place);
            }
        }
    }
    last
}

/// The objects that a literal leaves to the parameter at `depth`, if that is the last parameter that it names. Its
/// atoms are sorted in another order only if `may_sort`.
fn candidates_of(
    alloc: Global,
    literal: &FixedLiteral,
    state: &State,
    depth: usize,
    may_sort: bool,
) -> Result<Option<Candidates>, AllocError>
    requires { literal.now.is_positive ≡ true }
    ensures agrees { IfOk result (λ found. IfSome found (AgreesWith state.now literal.now)) }
    ensures depth { IfOk result (λ found. IfSome found (λ c. c.depth ≡ depth)) }
{
    let Some(place) = last_place(&literal.arguments, depth) else {
        return Ok(None);
    };
    let predicate = literal.predicate;
    if place + 1 == literal.arguments.len() {
        let arguments = Vec::from_slice(alloc, &literal.arguments)?;
        return Ok(Some(Candidates {
            depth,
            predicate,
            arguments,
            rows: None,
        }));
    }
    if !may_sort {
        return Ok(None);
    }
    let arguments = moved_last(alloc, &literal.arguments, place)?;
    let rows = moved_atoms(alloc, state, predicate, place)?;
    Ok(Some(Candidates {
        depth,
        predicate,
        arguments,
        rows: Some(rows),
    }))
}

/// Appends the objects that literals leave to the parameter at `depth`. Atoms are sorted in another order where they
/// are fewer than the choices of objects that they may exclude.
fn push_candidates(
    alloc: Global,
    domains: &[ObjectList],
    literals: &[FixedLiteral],
    state: &State,
    depth: usize,
    all: &mut Vec<Candidates>,
) -> Result<(), AllocError>
    requires depth { depth < length domains.now }
    requires all { All (Excludes state.now literals.now) all.old.items }
    ensures { OnOk result (All (Excludes state.now literals.now) all.new.items) }
{
    let may_sort = match count_assignments(&domains[..depth + 1]) {
        Some(choices) => choices > state.atoms().len() as u64,
        None => true,
    };
    for literal in literals {
        if literal.is_positive && literal.is_bound(depth + 1) {
            if let Some(found) = candidates_of(alloc, literal, state, depth, may_sort)? {
                all.push(found)?;
            }
        }
    }
    Ok(())
}

/// The objects that literals leave to each parameter.
pub(crate) fn all_candidates(
    alloc: Global,
    domains: &[ObjectList],
    literals: &[FixedLiteral],
    state: &State,
) -> Result<Vec<Candidates>, AllocError>
    ensures { IfOk result (λ all. All (Excludes state.now literals.now) all.items) }
{
    let mut all = Vec::new(alloc);
    for depth in 0..domains.len() {
        push_candidates(alloc, domains, literals, state, depth, &mut all)?;
    }
    Ok(all)
}
