//! The closure of pairs of numbers with their parents, in compact form.
//!
//! Where a number has one parent, `0` aside, a line leads from it to that parent, and intervals decide which number
//! leads to which along lines. Lines end at numbers without parents, and at *junctions*, which have several. Past the
//! top of its line a number leads to whatever the junction there leads to. So each number has the set of the junctions
//! that lead to it, a bit for each: then one look-up decides whether a number leads to another, and a pass over two
//! sets whether some number leads to both. It is made in the time of a pass over all pairs, with a set for each pair
//! past a junction.
//!
//! In the words of graphs: reachability by interval labels along trees, and by hubs, the junctions, between them.
ghost use Rattle.std.specs.Prelude.{◌≡◌, ◌<◌, ◌↔◌, ◌⊎◌, ◌||◌, ℕ, [], Some, List, true, replicate, length, get_or, All, Contains, IsTrue, IfOk, IfSome, OnOk};
ghost use Rattle.htn_order.specs.Closure.{AreBelow};
ghost use Rattle.hddl_names.specs.Closures.{along_lines, set_of, AreSound, AreCarried, HaveOwn, IsWithin, LeadsTo, Meet, PassesTo, ShareJunction, Tells};
ghost use Rattle.hddl_names.specs.Intervals.{AreTops, Tell};
ghost use Rattle.hddl_names.specs.NumberSets.{has};
ghost use Rattle.hddl_names.specs.Rows.{AreRows, turned as turned_pairs};

use crate::edges::{rows_of, turned};
use crate::intervals::{Lines, is_inside, lines_of, top_of};
use crate::number_set::NumberSet;
use crate::ranks::in_order;
use crate::rows::Rows;
use indexmap::IndexSet;
use std::alloc::{AllocError, Global};
use std::marker::Model;

/// Which number leads to which. Contracts see its parts as lists.
pub(crate) struct Closure {
    /// The numbers with several parents, `0` aside.
    junctions: IndexSet<usize>,
    lines: Lines,
    /// For each number the positions of the junctions that lead to it.
    sets: Vec<NumberSet>,
}

impl Drop for Closure {
    fn drop(self) {
        let Closure {
            junctions: _,
            lines: _,
            sets: _,
        } = self;
    }
}

impl Model for Closure {
    ghost Value = { Rattle.hddl_names.specs.Closures.Closure };

    ghost view = { λ c. record { junctions = c.junctions.keys; intervals = c.lines.intervals.items; tops = c.lines.tops.items; sets = c.sets.items } };
}

/// The numbers with several parents, `0` aside, in this order.
fn junctions_of(
    alloc: Global,
    parents: &Rows,
    order: &[usize],
) -> Result<IndexSet<usize>, AllocError> {
    let mut junctions = IndexSet::new(alloc);
    for number in order {
        let row = parents.row_or_empty(*number);
        if row.iter().filter(|parent| **parent != 0).count() > 1 {
            let _ = junctions.insert(*number)?;
        }
    }
    Ok(junctions)
}

/// The pairs along lines.
fn line_pairs(
    alloc: Global,
    pairs: &[(usize, usize)],
    junctions: &IndexSet<usize>,
) -> Result<Vec<(usize, usize)>, AllocError>
    ensures { IfOk result (λ found. found.items ≡ along_lines junctions.now.keys pairs.now) }
{
    pairs
        .iter()
        .copied()
        .filter(|p| p.1 != 0 && !junctions.contains(&p.0))
        .collect(alloc)
}

/// The intervals that decide which number leads to which along the lines between junctions. They may be None where
/// there is a cycle.
fn lines_between(
    alloc: Global,
    size: usize,
    pairs: &[(usize, usize)],
    junctions: &IndexSet<usize>,
) -> Result<Option<Lines>, AllocError>
    requires { AreBelow size pairs.now }
    ensures len { IfOk result (λ found. IfSome found (λ lines. length lines.intervals.items ≡ size)) }
    ensures tell { IfOk result (λ found. IfSome found (λ lines. Tell (along_lines junctions.now.keys pairs.now) lines.intervals.items)) }
    ensures tops { IfOk result (λ found. IfSome found (λ lines. AreTops (along_lines junctions.now.keys pairs.now) size lines.tops.items)) }
{
    let along = line_pairs(alloc, pairs, junctions)?;
    let back = turned(alloc, &along)?;
    let parents = rows_of(alloc, size, &along)?;
    let children = rows_of(alloc, size, &back)?;
    let lines = lines_of(alloc, &parents, &children)?;
    Ok(lines)
}

/// Empty sets.
fn empty_sets(alloc: Global, size: usize) -> Result<Vec<NumberSet>, AllocError>
    ensures { IfOk result (λ sets. sets.items ≡ replicate size []) }
{
    let mut sets = Vec::new(alloc);
    for i in 0..size {
        let _set = i;
        sets.push(NumberSet::new(alloc))?;
    }
    Ok(sets)
}

/// Adds the set of a number to another one.
fn add_set(set: &mut NumberSet, sets: &[NumberSet], number: usize) -> Result<(), AllocError>
    ensures { OnOk result ((i : ℕ) → has set.new i ≡ (has set.old i || has (set_of sets.now number) i)) }
{
    if let Some(more) = sets.get(number) {
        set.add_all(more)?;
    }
    Ok(())
}

/// A number's own position, if it has one, and all in the sets of its row.
fn gathered_set(
    alloc: Global,
    sets: &[NumberSet],
    row: &[usize],
    own: Option<usize>,
) -> Result<NumberSet, AllocError>
    ensures { IfOk result (λ set. (i : ℕ) → has set i ≡ true → (own ≡ Some i) ⊎ ((child : ℕ) × Contains row.now child × (has (set_of sets.now child) i ≡ true))) }
{
    let mut set = NumberSet::new(alloc);
    if let Some(position) = own {
        set.insert(position)?;
    }
    for child in row {
        add_set(&mut set, sets, *child)?;
    }
    Ok(set)
}

/// For each number the positions of junctions that lead to it: of all that do, where each number comes in the order
/// after those that lead to it.
fn gathered(
    alloc: Global,
    children: &Rows,
    order: &[usize],
    junctions: &IndexSet<usize>,
) -> Result<Vec<NumberSet>, AllocError>
    ensures { IfOk result (λ sets. (pairs : List (ℕ × ℕ)) → AreRows (turned_pairs pairs) children.now → AreSound pairs junctions.now.keys sets.items) }
{
    let mut sets = empty_sets(alloc, children.len())?;
    for number in order {
        let own = junctions.get_index_of(number);
        let set = gathered_set(alloc, sets.as_slice(), children.row_or_empty(*number), own)?;
        if *number < sets.len() {
            sets[*number] = set;
        }
    }
    Ok(sets)
}

/// Whether a number's set has a position.
fn has_position(sets: &[NumberSet], number: usize, position: usize) -> bool
    ensures { result ≡ has (set_of sets.now number) position }
{
    match sets.get(number) {
        Some(set) => set.contains(position),
        None => false,
    }
}

/// Whether the set of each junction has its position.
fn have_own(sets: &[NumberSet], junctions: &[usize]) -> bool
    ensures { IsTrue result ↔ HaveOwn junctions.now sets.now }
{
    for (position, number) in junctions.iter().enumerate() {
        if !has_position(sets, *number, position) {
            return false;
        }
    }
    true
}

/// Whether a number's set has what those of its row have.
fn has_all(sets: &[NumberSet], row: &[usize], number: usize) -> bool
    requires row { All (λ child. child < length sets.now) row.now }
    requires number { number < length sets.now }
    ensures { IsTrue result ↔ ((child : ℕ) → Contains row.now child → IsWithin (set_of sets.now child) (set_of sets.now number)) }
{
    for child in row {
        if !sets[*child].is_within(&sets[number]) {
            return false;
        }
    }
    true
}

/// Whether the set of each number has what those of its row have.
fn are_carried(sets: &[NumberSet], children: &Rows) -> bool
    requires { length sets.now ≡ length children.now }
    ensures { IsTrue result ↔ AreCarried children.now sets.now }
{
    for number in 0..children.len() {
        if !has_all(sets, children.row(number), number) {
            return false;
        }
    }
    true
}

impl Closure {
    /// The closure of pairs, which are also given by rows in both directions, or an error where memory was refused. It
    /// may be None where there is a cycle.
    pub(crate) fn of(
        alloc: Global,
        pairs: &[(usize, usize)],
        parents: &Rows,
        children: &Rows,
    ) -> Result<Option<Closure>, AllocError>
        requires below { AreBelow (length parents.now) pairs.now }
        requires count { length children.now ≡ length parents.now }
        requires parents { AreRows pairs.now parents.now }
        requires children { AreRows (turned_pairs pairs.now) children.now }
        ensures { IfOk result (λ found. IfSome found (Tells pairs.now (length parents.now))) }
    {
        if !parents.row_or_empty(0).is_empty() {
            return Ok(None);
        }
        let order = in_order(alloc, children)?;
        let junctions = junctions_of(alloc, parents, order.as_slice())?;
        let Some(lines) = lines_between(alloc, parents.len(), pairs, &junctions)? else {
            return Ok(None);
        };
        let sets = gathered(alloc, children, order.as_slice(), &junctions)?;
        if sets.len() != children.len()
            || !have_own(sets.as_slice(), junctions.as_slice())
            || !are_carried(sets.as_slice(), children)
        {
            return Ok(None);
        }
        Ok(Some(Closure {
            junctions,
            lines,
            sets,
        }))
    }

    /// Whether a junction that leads to `b` stands at the top of the line of `a`.
    fn passes_to(&self, a: usize, b: usize) -> bool
        ensures { IsTrue result ↔ PassesTo self.now a b }
    {
        let top = top_of(self.lines.tops.as_slice(), a);
        match self.junctions.get_index_of(&top) {
            Some(position) => has_position(self.sets.as_slice(), b, position),
            None => false,
        }
    }

    /// Whether a number leads to another.
    pub(crate) fn leads_to(&self, a: usize, b: usize) -> bool
        ensures { IsTrue result ↔ LeadsTo self.now a b }
    {
        is_inside(self.lines.intervals.as_slice(), a, b) || self.passes_to(a, b)
    }

    /// Whether a junction leads to both numbers.
    fn share_junction(&self, a: usize, b: usize) -> bool
        ensures { IsTrue result ↔ ShareJunction self.now a b }
    {
        match (self.sets.get(a), self.sets.get(b)) {
            (Some(these), Some(those)) => these.meets(those),
            _ => false,
        }
    }

    /// Whether some number leads to both.
    pub(crate) fn meet(&self, a: usize, b: usize) -> bool
        ensures { IsTrue result ↔ Meet self.now a b }
    {
        self.leads_to(a, b) || self.leads_to(b, a) || self.share_junction(a, b)
    }
}
