//! Calls at each place of a slice, which may change the element there.
ghost use Rattle.std.specs.Prelude.{◌≡◌, ◌<◌, ◌+◌, length};
ghost use Rattle.std.specs.Fork.{AcceptsAt, AcceptsEach, ChangesAt, ChangesEach};
ghost use Rattle.std.specs.Thread.{IsSend, IsSync};
ghost use Rattle.workers.specs.Parts.{IsChanged, IsReady};

use std::thread::{Threads, join_mut};

/// Calls `f(i, &mut s[i])` at each place, in at most `threads` threads. With one, all calls are made in the caller's
/// thread. Else that thread only starts the others and waits for them, as in `map_indices`. The stack grows with
/// `threads`.
pub fn for_each_mut<R: Threads + Sync, T: Send, F: Fn(usize, &mut T) + Sync>(
    rt: &R,
    s: &mut [T],
    threads: usize,
    f: &F,
)
    requires threads { 0 < threads }
    requires accepts { AcceptsEach F.Fn f.now s.old }
    ensures { ChangesEach F.Fn f.now s.old s.new }
{
    if threads == 1 {
        in_turn(f, 0, s);
        return;
    }
    let size = s.len().div_ceil(threads);
    in_parts(rt, f, size, 0, s);
}

// Calls f at a place.
fn at_one<T, F: Fn(usize, &mut T)>(f: &F, place: usize, it: &mut T)
    requires { AcceptsAt F.Fn f.now place it.old }
    ensures { ChangesAt F.Fn f.now place it.old it.new }
{
    f(place, it);
}

// Calls f at each place of a part, which begins at a place of the whole.
fn in_turn<T, F: Fn(usize, &mut T)>(f: &F, first: usize, s: &mut [T])
    requires { IsReady (AcceptsAt F.Fn f.now) first s.old }
    ensures { IsChanged (ChangesAt F.Fn f.now) first s.old s.new }
{
    for k in 0..s.len() {
        at_one(f, first + k, &mut s[k]);
    }
}

// The same in threads, each with `size` places. (The slice is the last parameter since the borrow checker does not
// cover a closure that reads a captured `&` after it lends a captured `&mut`.)
#[cycle(parts)]
fn in_parts<R: Threads + Sync, T: Send, F: Fn(usize, &mut T) + Sync>(
    rt: &R,
    f: &F,
    size: usize,
    first: usize,
    s: &mut [T],
)
    requires some { 0 < length s.old → 0 < size }
    requires ready { IsReady (AcceptsAt F.Fn f.now) first s.old }
    ensures { IsChanged (ChangesAt F.Fn f.now) first s.old s.new }
{
    if s.is_empty() {
        return;
    }
    let count = size.min(s.len());
    let (part, rest) = s.split_at_mut(count);
    part_and_rest(rt, f, size, first, part, first + count, rest);
}

// A part in a thread of its own, and the rest in others. (It stands apart from `in_parts`, so that the premises of its
// closures are those of the function.)
#[cycle(parts)]
fn part_and_rest<R: Threads + Sync, T: Send, F: Fn(usize, &mut T) + Sync>(
    rt: &R,
    f: &F,
    size: usize,
    first: usize,
    part: &mut [T],
    next: usize,
    rest: &mut [T],
)
    requires size { 0 < size }
    requires part { IsReady (AcceptsAt F.Fn f.now) first part.old }
    requires rest { IsReady (AcceptsAt F.Fn f.now) next rest.old }
    ensures part { IsChanged (ChangesAt F.Fn f.now) first part.old part.new }
    ensures rest { IsChanged (ChangesAt F.Fn f.now) next rest.old rest.new }
{
    let mut own = ||
        requires { IsReady (AcceptsAt F.Fn f.now) first part.now }
        ensures { IsChanged (ChangesAt F.Fn f.entry.now) first part.entry.now part.exit.now }
    { in_turn(f, first, part) };
    let mut others = ||
        requires { IsSync R.row × IsSync F.row × IsSend T.row × (0 < size) × IsReady (AcceptsAt F.Fn f.now) next rest.now }
        ensures { IsChanged (ChangesAt F.Fn f.entry.now) next rest.entry.now rest.exit.now }
    { in_parts(rt, f, size, next, rest) };
    join_mut(rt, &mut own, &mut others);
}
