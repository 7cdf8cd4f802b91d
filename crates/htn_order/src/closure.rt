//! Orders that pairs of positions give.
ghost use Rattle.std.specs.Prelude.{◌++◌, ◌<◌, ◌≡◌, ◌≢◌, ◌||◌, Bool, [], All, false, true, get_or, IfErr, IfOk, length, eqb, ℕ};
ghost use Rattle.htn_model.specs.Problem.{IsClosed, IsSquare, is_before};
ghost use Rattle.htn_order.specs.Closing.{Grows, HasPair, IsClosing, joined};
ghost use Rattle.htn_order.specs.Closure.{AreBelow, IsAcyclic, IsClosureOf, successors};
ghost use Rattle.htn_order.specs.Faults.{IsCycle, IsOnCycle};
ghost use Rattle.htn_order.specs.Shapes as shapes;

use crate::bit_rows::BitRows;
use crate::order::Order;
use crate::sequence::best_sequence;
use std::alloc::{AllocError, Global};
use thiserror::Error;

/// Why there is no order with some pairs of positions.
#[derive(Debug, Drop, Error)]
pub enum OrderFault {
    /// The first position of the pair at this index leads to itself.
    #[error("the ordering has a cycle")]
    Cycle(usize),
    #[error("out of memory")]
    OutOfMemory,
}

impl From<AllocError> for OrderFault {
    ghost use Rattle.std.specs.Prelude.{◌≡◌};
    ghost use Rattle.htn_order.specs.declared.closure.OrderFault.TheVariants.{OutOfMemory};

    ghost from_gives = { λ _ e. e ≡ OutOfMemory };

    fn from(_: AllocError) -> Self {
        OrderFault::OutOfMemory
    }
}

/// Whether `a` is `b` or before it.
fn is_at_or_before(rows: &BitRows, a: usize, b: usize) -> bool
    ensures { result ≡ (eqb a b || is_before rows.now a b) }
{
    a == b || rows.is_before(a, b)
}

/// Puts each position that is `a` or before `a` before `b` and all that `b` is before.
fn join(rows: &mut BitRows, a: usize, b: usize, is_entered: bool)
    requires first { a < length rows.old }
    requires second { b < length rows.old }
    requires apart { a ≢ b }
    requires behind { is_before rows.old b a ≡ false }
    requires entered { is_entered ≡ false → (x : ℕ) → is_before rows.old x a ≡ false }
    ensures square { IsSquare (length rows.old) rows.new }
    ensures joined { (x y : ℕ) → is_before rows.new x y ≡ joined rows.old a b x y }
{
    if !is_entered {
        rows.put_before_row(a, b);
        rows.put_before(a, b);
        return;
    }
    for x in 0..rows.size() {
        if is_at_or_before(rows, x, a) {
            rows.put_before_row(x, b);
            rows.put_before(x, b);
        }
    }
}

/// Adds the pair at an index, if there is one and the order does not have it, with all pairs that follow from it.
fn add_pair(
    rows: &mut BitRows,
    entered: &mut [bool],
    pairs: &[(usize, usize)],
    k: usize,
) -> Result<(), OrderFault>
    requires { IsClosing pairs.now rows.old entered.old }
    ensures size { length rows.new ≡ length rows.old }
    ensures closing { IsClosing pairs.now rows.new entered.new }
    ensures grows { Grows rows.old rows.new }
    ensures added { IfOk result (λ _. k < length pairs.now → HasPair rows.new (get_or pairs.now k (0, 0))) }
    ensures fault { IfErr result (IsOnCycle [] pairs.now) }
{
    if k >= pairs.len() {
        return Ok(());
    }
    let (a, b) = pairs[k];
    if rows.is_before(a, b) {
        return Ok(());
    }
    if is_at_or_before(rows, b, a) {
        return Err(OrderFault::Cycle(k));
    }
    join(rows, a, b, entered[a]);
    entered[b] = true;
    Ok(())
}

/// The order that pairs of positions give.
///
/// It takes a bit of memory for each two positions, and the time to unite two rows of bits for each
/// pair.
pub fn close(alloc: Global, size: usize, pairs: &[(usize, usize)]) -> Result<Order, OrderFault>
    requires { AreBelow size pairs.now }
    ensures square { IfOk result (λ order. IsSquare size order) }
    ensures closed { IfOk result IsClosed }
    ensures closure { IfOk result (λ order. IsClosureOf pairs.now order) }
    ensures acyclic { IfOk result (λ _. IsAcyclic pairs.now) }
    ensures fault { IfErr result (IsOnCycle [] pairs.now) }
{
    let mut rows = BitRows::unordered(alloc, size)?;
    let mut entered = vec![in alloc; false; size]?;
    let sequence = best_sequence(alloc, size, pairs)?;
    for k in &sequence {
        add_pair(&mut rows, &mut entered, pairs, *k)?;
    }
    for index in 0..pairs.len() {
        add_pair(&mut rows, &mut entered, pairs, index)?;
    }
    Ok(Order::from_rows(rows))
}

/// The order that pairs of positions give together with the sequence of the list. It takes no memory.
pub fn close_chain(size: usize, pairs: &[(usize, usize)]) -> Result<Order, OrderFault>
    requires { AreBelow size pairs.now }
    ensures chain { IfOk result (λ order. order ≡ shapes.chain size) }
    ensures closure { IfOk result (λ order. IsClosureOf (successors size ++ pairs.now) order) }
    ensures acyclic { IfOk result (λ _. IsAcyclic (successors size ++ pairs.now)) }
    ensures fault { IfErr result (IsCycle (successors size) pairs.now) }
{
    for (k, pair) in pairs.iter().enumerate() {
        if pair.1 <= pair.0 {
            return Err(OrderFault::Cycle(k));
        }
    }
    Ok(Order::chain(size))
}
