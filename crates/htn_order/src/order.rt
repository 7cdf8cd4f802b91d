//! The closed order of a network's nodes.
ghost use Rattle.std.specs.Prelude.{◌+◌, ◌-◌, ◌<◌, ◌^◌, ◌≤◌, ◌≡◌, ◌&&◌, [], IfOk, IfSome, Result, get_or, length, ltb, ℕ};
ghost use Rattle.htn_model.specs.Choice as choice;
ghost use Rattle.htn_model.specs.Machine as machine;
ghost use Rattle.htn_model.specs.Problem.{IsClosed, IsSquare, order_eq};
ghost use Rattle.htn_model.specs.Problem as problem;
ghost use Rattle.htn_order.specs.BitRows.{is_set};
ghost use Rattle.htn_order.specs.Counts.{AreCounted};
ghost use Rattle.htn_order.specs.Words.{AreEnteredIn};
ghost use Rattle.htn_order.specs.Free.{HasNoneFree, IsNextFree};
ghost use Rattle.htn_order.specs.Shapes as shapes;
ghost use Rattle.htn_order.specs.Shapes.{IsRowAdded};
ghost use Rattle.htn_model.specs.Equality.{order_eq-laws, order_eq-partial};
ghost use Rattle.htn_order.specs.OrderHash.{order_alike, order_hash};

use crate::bit_rows::BitRows;
use crate::words::{ones, spliced};
use std::alloc::{AllocError, Global};
use std::hash::{Hash, Hasher};
use std::marker::Model;

/// How an order is stored: one in which each position precedes the next, by its size alone.
#[derive(Drop)]
enum Form {
    Chain(usize),
    Rows(BitRows),
}

/// Which positions of a network are before which others: a strict order, closed under transitivity.
#[derive(Drop)]
pub struct Order {
    form: Form,
}

impl Model for Order {
    ghost use Rattle.std.specs.Prelude.{Bool, List};
    ghost use Rattle.htn_order.specs.Forms.{IsForm, order_of};

    ghost Value = { List (List Bool) };

    ghost view = { λ order. order_of order.form };

    ghost invariant = { λ order. IsForm order.form };
}

impl Order {
    /// The order of a network with no nodes.
    pub fn empty() -> Order
        ensures { result ≡ [] }
    {
        Order::chain(0)
    }

    /// The order in which each position is before all later ones.
    pub fn chain(size: usize) -> Order
        ensures { result ≡ shapes.chain size }
    {
        Order {
            form: Form::Chain(size),
        }
    }

    /// The order in which no position is before another.
    pub fn unordered(alloc: Global, size: usize) -> Result<Order, AllocError>
        ensures { IfOk result (λ order. order ≡ shapes.unordered size) }
    {
        let rows = BitRows::unordered(alloc, size)?;
        Ok(Order::from_rows(rows))
    }

    /// The order of a closed table.
    pub(crate) fn from_rows(rows: BitRows) -> Order
        requires { IsClosed rows }
        ensures { result ≡ rows }
    {
        let size = rows.size();
        if rows.is_chain() {
            return Order::chain(size);
        }
        Order {
            form: Form::Rows(rows),
        }
    }

    /// How many positions there are.
    pub fn size(&self) -> usize
        ensures value { result ≡ length self.now }
        ensures square { IsSquare (length self.now) self.now }
        ensures closed { IsClosed self.now }
    {
        match &self.form {
            Form::Chain(size) => *size,
            Form::Rows(rows) => rows.size(),
        }
    }

    /// Whether position `a` is before position `b`.
    pub fn is_before(&self, a: usize, b: usize) -> bool
        ensures { result ≡ problem.is_before self.now a b }
    {
        match &self.form {
            Form::Chain(size) => a < b && b < *size,
            Form::Rows(rows) => rows.is_before(a, b),
        }
    }

    /// Whether no position is before this one.
    pub fn is_free(&self, position: usize) -> bool
        ensures { result ≡ choice.is_free (length self.now) (problem.is_before self.now) position }
    {
        match &self.form {
            Form::Chain(size) => position == 0 || *size <= position,
            Form::Rows(rows) => rows.is_free(position),
        }
    }

    /// The row of a position in one word.
    fn row_word(&self, a: usize) -> u64
        requires few { length self.now < 64 }
        requires row { a < length self.now }
        ensures { (b : ℕ) → is_set result b ≡ problem.is_before self.now a b }
    {
        match &self.form {
            Form::Chain(size) => ones(*size) - ones(a + 1),
            Form::Rows(rows) => rows.row_word(a),
        }
    }

    /// A position from which on none is free.
    fn free_end(&self) -> usize
        ensures within { result ≤ length self.now }
        ensures none { HasNoneFree self.now result }
    {
        match &self.form {
            Form::Chain(size) => (*size).min(1),
            Form::Rows(rows) => rows.size(),
        }
    }

    /// The positions that some position is before, where that is more than a comparison and they
    /// fit one word.
    fn entered(&self) -> Option<u64>
        ensures { IfSome result (AreEnteredIn self.now) }
    {
        match &self.form {
            Form::Rows(rows) if rows.size() < 64 => Some(rows.entered()),
            _ => None,
        }
    }

    /// Whether no position is before this one, by those that some position is before, if they are known.
    fn is_free_by(&self, entered: Option<u64>, position: usize) -> bool
        requires known { IfSome entered (AreEnteredIn self.now) }
        requires placed { position < length self.now }
        ensures { result ≡ choice.is_free (length self.now) (problem.is_before self.now) position }
    {
        match entered {
            Some(word) => (word >> position) & 1 == 0,
            None => self.is_free(position),
        }
    }

    /// The free positions, ascending.
    pub fn free_positions(&self, alloc: Global) -> Result<Vec<usize>, AllocError>
        ensures { IfOk result (λ free. free.items
            ≡ choice.passing (choice.is_free (length self.now) (problem.is_before self.now)) (length self.now)) }
    {
        let entered = self.entered();
        let mut free = Vec::new(alloc);
        for position in 0..self.free_end() {
            if self.is_free_by(entered, position) {
                free.push(position)?;
            }
        }
        Ok(free)
    }

    /// The first free position that is not below `from`.
    pub fn next_free(&self, from: usize) -> Option<usize>
        ensures { IsNextFree self.now from result }
    {
        let entered = self.entered();
        for position in from..self.free_end() {
            if self.is_free_by(entered, position) {
                return Some(position);
            }
        }
        None
    }

    /// The free position of this number among the free ones.
    pub fn nth_free(&self, number: usize) -> Option<usize>
        ensures { result ≡ choice.nth_free (length self.now) (problem.is_before self.now) number }
    {
        let entered = self.entered();
        let mut left = number;
        for position in 0..self.free_end() {
            if self.is_free_by(entered, position) {
                if left == 0 {
                    return Some(position);
                }
                left -= 1;
            }
        }
        None
    }

    /// For each position, how many positions are before it.
    ///
    /// It adds up whole words of a table, 64 bits in a few steps.
    pub fn predecessor_counts(&self, alloc: Global) -> Result<Vec<usize>, AllocError>
        ensures { IfOk result (λ counts. AreCounted self.now (length self.now) counts.items) }
    {
        match &self.form {
            Form::Chain(size) => numbers_below(alloc, *size),
            Form::Rows(rows) => rows.predecessor_counts(alloc),
        }
    }

    /// The order with a new position before all others, which keep their order behind it.
    pub fn with_first(&self, alloc: Global) -> Result<Order, AllocError>
        ensures { IfOk result (λ order. order ≡ shapes.with_first self.now) }
    {
        let two = Order::chain(2);
        let order = two.replaced(alloc, 1, self)?;
        Ok(order)
    }

    /// The order once the node at a position is replaced by a network: its nodes have their own
    /// order among themselves, and towards all others that of the node replaced.
    pub fn replaced(&self, alloc: Global, at: usize, inner: &Order) -> Result<Order, AllocError>
        requires { at < length self.now }
        ensures { IfOk result (λ order. order
            ≡ machine.table (length self.now - 1 + length inner.now) (machine.replaced_order self.now at (length inner.now) inner.now)) }
    {
        let Some(size) = (self.size() - 1).checked_add(inner.size()) else {
            return Err(AllocError);
        };
        if let (Form::Chain(_), Form::Chain(_)) = (&self.form, &inner.form) {
            return Ok(Order::chain(size));
        }
        let rows = replaced_rows(alloc, self, at, inner, size)?;
        Ok(Order::from_rows(rows))
    }
}

/// The numbers below a size, in their order.
fn numbers_below(alloc: Global, size: usize) -> Result<Vec<usize>, AllocError>
    ensures size { IfOk result (λ numbers. length numbers.items ≡ size) }
    ensures each { IfOk result (λ numbers. (i : ℕ) → i < size → get_or numbers.items i 0 ≡ i) }
{
    let mut numbers = Vec::with_capacity(alloc, size)?;
    for number in 0..size {
        numbers.push(number)?;
    }
    Ok(numbers)
}

/// The position before the replacement of the node that is at a position after it.
fn origin(at: usize, count: usize, position: usize) -> usize
    requires fits { at + count < 2 ^ 64 }
    requires next { position + 1 < 2 ^ 64 }
    ensures { result ≡ machine.origin at count position }
{
    if position < at {
        position
    } else if position < at + count {
        at
    } else {
        position + 1 - count
    }
}

/// Whether position `a` is before position `b` once the node at `at` is replaced.
fn is_before_replaced(order: &Order, at: usize, inner: &Order, a: usize, b: usize) -> bool
    requires fits { at + length inner.now < 2 ^ 64 }
    requires row { a + 1 < 2 ^ 64 }
    requires column { b + 1 < 2 ^ 64 }
    ensures { result ≡ machine.replaced_order order.now at (length inner.now) inner.now a b }
{
    let count = inner.size();
    let from_a = origin(at, count, a);
    let from_b = origin(at, count, b);
    if from_a == at && from_b == at {
        inner.is_before(a - at, b - at)
    } else {
        order.is_before(from_a, from_b)
    }
}

/// What position `a`, which stood at `from`, is before among the nodes that replace the one at `at`,
/// in one word, whose first bit is for the first of them.
fn word_inside(order: &Order, at: usize, inner: &Order, a: usize, from: usize) -> u64
    requires few { length inner.now < 64 }
    requires stood { from ≡ machine.origin at (length inner.now) a }
    ensures { (b : ℕ) → is_set result b ≡ (ltb b (length inner.now) && machine.replaced_order order.now at (length inner.now) inner.now a (at + b)) }
{
    let count = inner.size();
    if from == at {
        return inner.row_word(a - at);
    }
    if order.is_before(from, at) {
        return ones(count);
    }
    0
}

/// The row of position `a` in one word, once the node at `at` is replaced.
fn replaced_word(order: &Order, at: usize, inner: &Order, a: usize) -> u64
    requires place { at < length order.now }
    requires few { length order.now < 64 }
    requires fits { length order.now - 1 + length inner.now < 64 }
    requires row { a < length order.now - 1 + length inner.now }
    ensures { (b : ℕ) → b < 64 → is_set result b ≡ machine.replaced_order order.now at (length inner.now) inner.now a b }
{
    let count = inner.size();
    let from = origin(at, count, a);
    let middle = word_inside(order, at, inner, a, from);
    spliced(order.row_word(from), at, count, middle)
}

/// Puts position `a` before all that it is before once the node at `at` is replaced.
fn put_replaced_row(rows: &mut BitRows, order: &Order, at: usize, inner: &Order, a: usize)
    requires fits { at + length inner.now < 2 ^ 64 }
    requires place { at < length order.now }
    requires whole { length rows.old ≡ length order.now - 1 + length inner.now }
    requires row { a < length rows.old }
    ensures square { IsSquare (length rows.old) rows.new }
    ensures entries { IsRowAdded (machine.replaced_order order.now at (length inner.now) inner.now) a (length rows.old) rows.old rows.new }
{
    if order.size() < 64 && rows.size() < 64 {
        rows.put_row_word(a, replaced_word(order, at, inner, a));
    } else {
        put_replaced_bits(rows, order, at, inner, a);
    }
}

/// Puts position `a` before all that it is before once the node at `at` is replaced, one by one.
fn put_replaced_bits(rows: &mut BitRows, order: &Order, at: usize, inner: &Order, a: usize)
    requires fits { at + length inner.now < 2 ^ 64 }
    requires row { a < length rows.old }
    ensures square { IsSquare (length rows.old) rows.new }
    ensures entries { IsRowAdded (machine.replaced_order order.now at (length inner.now) inner.now) a (length rows.old) rows.old rows.new }
{
    for b in 0..rows.size() {
        if is_before_replaced(order, at, inner, a, b) {
            rows.put_before(a, b);
        }
    }
}

/// The table of the order once the node at `at` is replaced.
fn replaced_rows(
    alloc: Global,
    order: &Order,
    at: usize,
    inner: &Order,
    size: usize,
) -> Result<BitRows, AllocError>
    requires fits { at + length inner.now < 2 ^ 64 }
    requires place { at < length order.now }
    requires whole { size ≡ length order.now - 1 + length inner.now }
    ensures { IfOk result (λ rows. rows ≡ machine.table size (machine.replaced_order order.now at (length inner.now) inner.now)) }
{
    let mut rows = BitRows::unordered(alloc, size)?;
    for a in 0..size {
        put_replaced_row(&mut rows, order, at, inner, a);
    }
    Ok(rows)
}

impl PartialEq for Order {
    ghost eq = { order_eq };

    ghost laws = { order_eq-partial };

    fn eq(&self, other: &Order) -> bool {
        match (&self.form, &other.form) {
            (Form::Chain(size), Form::Chain(other_size)) => size == other_size,
            (Form::Rows(rows), Form::Rows(other_rows)) => rows.is_same(other_rows),
            _ => false,
        }
    }
}

impl Eq for Order {
    ghost laws = { order_eq-laws };
}

impl Hash for Order {
    ghost hash_input = { order_hash };

    ghost respects_eq = { order_alike.fed };

    fn hash<H: Hasher>(&self, state: &mut H) {
        match &self.form {
            Form::Chain(size) => size.hash(state),
            Form::Rows(rows) => rows.feed(state),
        }
    }
}

impl Clone for Order {
    ghost is_clone = { λ a b. b ≡ a };

    ghost is_infallible = { λ a. ⊥ };

    fn clone(&self) -> Result<Self, AllocError> {
        match &self.form {
            Form::Chain(size) => Ok(Order::chain(*size)),
            Form::Rows(rows) => Ok(Order {
                form: Form::Rows(rows.clone()?),
            }),
        }
    }
}
