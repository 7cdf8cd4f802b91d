//! Which number leads to which, also where there are cycles.
//!
//! Numbers that lead to one another have one *head*, and heads have no cycle. So the closure is that of heads. Where
//! there is no cycle each number is its own head.
//!
//! In the words of graphs: the condensation, whose vertices are the strongly connected components.
ghost use Rattle.std.specs.Prelude.{◌≡◌, ℕ, ◌<◌, ◌↔◌, ◌⊎◌, Contains, IfOk, IfSome, IsTrue, List, OnOk, get_or, length, map};
ghost use Rattle.std.specs.List.{filter};
ghost use Rattle.htn_order.specs.Closure.{AreBelow};
ghost use Rattle.hddl_names.specs.Closures.{Tells};
ghost use Rattle.hddl_names.specs.Heads.{AreHeads, head_at, head_pairs, is_level, HeadLeads, HeadsMeet, TellsAll};
ghost use Rattle.hddl_names.specs.Reach.{Reaches};
ghost use Rattle.hddl_names.specs.Rows.{AreRows, turned as turned_pairs};

use crate::closure::Closure;
use crate::edges::{rows_of, turned};
use crate::ranks::{rank_of, ranks_of};
use crate::reach::reached;
use crate::rows::Rows;
use indexmap::IndexSet;
use std::alloc::{AllocError, Global};
use std::marker::Model;

/// Which number leads to which. Contracts see the heads and their closure.
pub(crate) struct Condensed {
    /// Of each number, or of none where each is its own.
    heads: Vec<usize>,
    closure: Closure,
}

impl Drop for Condensed {
    fn drop(self) {
        let Condensed {
            heads: _,
            closure: _,
        } = self;
    }
}

impl Model for Condensed {
    ghost Value = { Rattle.hddl_names.specs.Heads.Condensed };

    ghost view = { λ c. record { heads = c.heads.items; closure = c.closure } };
}

/// The head of a number: the number itself where the list has none.
fn head_of(heads: &[usize], number: usize) -> usize
    ensures { result ≡ head_at heads.now number }
{
    match heads.get(number) {
        Some(head) => *head,
        None => number,
    }
}

/// The pairs of two numbers of the same rank.
fn level_pairs(
    alloc: Global,
    pairs: &[(usize, usize)],
    ranks: &[usize],
) -> Result<Vec<(usize, usize)>, AllocError>
    ensures { IfOk result (λ found. found.items ≡ filter (is_level ranks.now) pairs.now) }
{
    pairs
        .iter()
        .copied()
        .filter(|p| rank_of(ranks, p.0) == rank_of(ranks, p.1))
        .collect(alloc)
}

/// The numbers below a size, each as its own head.
fn own_heads(alloc: Global, size: usize) -> Result<Vec<usize>, AllocError>
    ensures { IfOk result (λ heads. (t : ℕ) → head_at heads.items t ≡ t) }
{
    let mut heads = Vec::with_capacity(alloc, size)?;
    for number in 0..size {
        heads.push(number)?;
    }
    Ok(heads)
}

/// Gives a number a head, if it has a place for it.
fn put_head(heads: &mut Vec<usize>, number: usize, head: usize)
    ensures { (t : ℕ) → (head_at heads.new.items t ≡ head_at heads.old.items t) ⊎ ((t ≡ number) × (head_at heads.new.items t ≡ head)) }
{
    if number < heads.len() {
        heads[number] = head;
    }
}

/// Makes a number the head of those in both sets.
fn give_head(heads: &mut Vec<usize>, these: &IndexSet<usize>, those: &[usize], head: usize)
    ensures { (t : ℕ) → (head_at heads.new.items t ≡ head_at heads.old.items t)
        ⊎ ((head_at heads.new.items t ≡ head) × Contains these.now.keys t × Contains those.now t) }
{
    for number in those {
        if these.contains(number) {
            put_head(heads, *number, head);
        }
    }
}

/// Whether a number is marked.
fn is_marked(marks: &[bool], number: usize) -> bool {
    match marks.get(number) {
        Some(flag) => *flag,
        None => false,
    }
}

/// Marks numbers.
fn mark(marks: &mut Vec<bool>, numbers: &[usize]) {
    for number in numbers {
        if let Some(flag) = marks.get_mut(*number) {
            *flag = true;
        }
    }
}

/// Makes a number the head of those that it leads to and that lead to it, and marks those that it leads to.
fn give_heads(
    alloc: Global,
    heads: &mut Vec<usize>,
    seen: &mut Vec<bool>,
    up: &Rows,
    down: &Rows,
    number: usize,
) -> Result<(), AllocError>
    requires up { number < length up.now }
    requires down { number < length down.now }
    ensures { OnOk result ((pairs : List (ℕ × ℕ)) → AreRows pairs up.now → AreRows (turned_pairs pairs) down.now
        → (size : ℕ) → number < size → AreHeads pairs size heads.old.items → AreHeads pairs size heads.new.items) }
{
    let above = reached(alloc, up, number)?;
    let below = reached(alloc, down, number)?;
    give_head(heads, &above, below.as_slice(), number);
    mark(seen, above.as_slice());
    Ok(())
}

/// Heads along the pairs of rows in both directions.
fn heads_between(
    alloc: Global,
    size: usize,
    up: &Rows,
    down: &Rows,
) -> Result<Vec<usize>, AllocError>
    requires up { length up.now ≡ size }
    requires down { length down.now ≡ size }
    ensures { IfOk result (λ heads. (pairs : List (ℕ × ℕ)) → AreRows pairs up.now → AreRows (turned_pairs pairs) down.now → AreHeads pairs size heads.items) }
{
    let mut heads = own_heads(alloc, size)?;
    let mut seen = vec![in alloc; false; size]?;
    for number in 0..size {
        if !is_marked(&seen, number) {
            give_heads(alloc, &mut heads, &mut seen, up, down, number)?;
        }
    }
    Ok(heads)
}

/// Heads along pairs: where the two numbers of each pair lead to one another, the work is that of going over the pairs.
fn heads_of(alloc: Global, size: usize, pairs: &[(usize, usize)]) -> Result<Vec<usize>, AllocError>
    requires { AreBelow size pairs.now }
    ensures { IfOk result (λ heads. AreHeads pairs.now size heads.items) }
{
    let back = turned(alloc, pairs)?;
    let up = rows_of(alloc, size, pairs)?;
    let down = rows_of(alloc, size, &back)?;
    let heads = heads_between(alloc, size, &up, &down)?;
    Ok(heads)
}

/// The pairs of heads that differ.
fn pairs_of_heads(
    alloc: Global,
    pairs: &[(usize, usize)],
    heads: &[usize],
) -> Result<Vec<(usize, usize)>, AllocError>
    ensures { IfOk result (λ found. found.items ≡ head_pairs heads.now pairs.now) }
{
    pairs
        .iter()
        .map(|p| (head_of(heads, p.0), head_of(heads, p.1)))
        .filter(|p| p.0 != p.1)
        .collect(alloc)
}

/// The closure of heads.
fn closure_of_heads(
    alloc: Global,
    size: usize,
    pairs: &[(usize, usize)],
    heads: &[usize],
) -> Result<Option<Closure>, AllocError>
    requires below { AreBelow size pairs.now }
    requires small { (a : ℕ) → a < size → head_at heads.now a < size }
    ensures { IfOk result (λ found. IfSome found (Tells (head_pairs heads.now pairs.now) size)) }
{
    let between = pairs_of_heads(alloc, pairs, heads)?;
    let back = turned(alloc, &between)?;
    let parents = rows_of(alloc, size, &between)?;
    let children = rows_of(alloc, size, &back)?;
    let closure = Closure::of(alloc, &between, &parents, &children)?;
    Ok(closure)
}

impl Condensed {
    /// The closure of pairs, which are also given by rows in both directions. An error means that memory was refused.
    pub(crate) fn of(
        alloc: Global,
        pairs: &[(usize, usize)],
        parents: &Rows,
        children: &Rows,
    ) -> Result<Option<Condensed>, AllocError>
        requires below { AreBelow (length parents.now) pairs.now }
        requires count { length children.now ≡ length parents.now }
        requires parents { AreRows pairs.now parents.now }
        requires children { AreRows (turned_pairs pairs.now) children.now }
        requires root { (a : ℕ) → a < length parents.now → Reaches pairs.now a 0 }
        ensures { IfOk result (λ found. IfSome found (TellsAll pairs.now (length parents.now))) }
    {
        if let Some(closure) = Closure::of(alloc, pairs, parents, children)? {
            let heads = Vec::new(alloc);
            return Ok(Some(Condensed { heads, closure }));
        }
        let ranks = ranks_of(alloc, parents, children)?;
        let level = level_pairs(alloc, pairs, &ranks)?;
        let heads = heads_of(alloc, parents.len(), &level)?;
        match closure_of_heads(alloc, parents.len(), pairs, &heads)? {
            Some(closure) => Ok(Some(Condensed { heads, closure })),
            None => Ok(None),
        }
    }

    /// Whether a number leads to another.
    pub(crate) fn leads_to(&self, a: usize, b: usize) -> bool
        ensures { IsTrue result ↔ HeadLeads self.now a b }
    {
        let end = head_of(&self.heads, b);
        end == 0 || self.closure.leads_to(head_of(&self.heads, a), end)
    }

    /// Whether some number leads to both.
    pub(crate) fn meet(&self, a: usize, b: usize) -> bool
        ensures { IsTrue result ↔ HeadsMeet self.now a b }
    {
        let one = head_of(&self.heads, a);
        let other = head_of(&self.heads, b);
        if one == 0 || other == 0 {
            return true;
        }
        self.closure.meet(one, other)
    }
}
