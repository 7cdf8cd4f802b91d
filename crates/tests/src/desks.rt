//! Desks, whose passes claim numbers and report places.
ghost use Rattle.std.specs.Prelude.{◌≡◌, ◌<◌, ◌≤◌, ◌^◌, false, replicate, IfOk};
ghost use Rattle.word_machine.specs.Desk.{new_pass};

use crate::gates::push_zeros;
use crate::search_answers::expect_answers;
use std::alloc::{AllocError, Global};
use std::sync::atomic::{AtomicU64, Ordering};
use std::thread::Threads;
use word_machine::{Closed, Desk, Pass};
use workers::for_each_mut;

// Whether two passes see the least place that either has reported.
fn see_the_least(desk: &Desk, first: &mut Pass, second: &mut Pass) -> bool
    requires one { first.old.desk ≡ desk.now }
    requires other { second.old.desk ≡ desk.now }
    ensures one { first.new.desk ≡ desk.now }
    ensures other { second.new.desk ≡ desk.now }
{
    let before = desk.least(first);
    desk.report(first, 90);
    desk.report(second, 10);
    before.is_none() && desk.least(first) == Some(10) && desk.least(second) == Some(10)
}

#[test]
fn both_see_the_least(rt: HostRuntime) -> Result<(), AllocError> {
    let (desk, mut passes) = Desk::new(rt.alloc(), 0, 2)?;
    let (Some(mut first), Some(mut second)) = (passes.pop(), passes.pop()) else {
        panic!(rt; "two passes");
    };
    assert!(rt; see_the_least(&desk, &mut first, &mut second));
    passes.push(first)?;
    passes.push(second)?;
    let closed = desk.close(passes);
    assert!(rt; closed.drawn() == 0 && closed.least() == Some(10));
    Ok(())
}

fn count(counts: Option<&AtomicU64>) {
    if let Some(count) = counts {
        count.fetch_add(1, Ordering::SeqCst);
    }
}

// Claims until no number is left, and counts for each number the claims; the last counts the passes that met the end.
// The numbers rise: one that does not isn't counted.
fn claim_all(desk: &Desk, pass: &mut Pass, counts: &[AtomicU64])
    requires { pass.old.desk ≡ desk.now }
    ensures { pass.new.desk ≡ desk.now }
{
    let mut least: u64 = 0;
    for _ in 0..=1000u64 {
        if pass.ended() {
            break;
        }
        match desk.claim(pass) {
            Some(number) if least <= number => {
                count(counts.get(number as usize));
                least = number.saturating_add(1);
            }
            Some(_) => {}
            None => count(counts.last()),
        }
    }
}

// The desk once each pass has claimed until no number was left, in several threads, or in turn in one.
fn closed_after<R: Threads + Sync>(
    rt: &R,
    desk: Desk,
    mut passes: Vec<Pass>,
    threads: usize,
    counts: &[AtomicU64],
) -> Closed
    requires passes { passes.items ≡ replicate desk.seats (new_pass desk) }
    requires threads { 0 < threads }
{
    let shared = &desk;
    let claim = |_place: usize, pass: &mut Pass|
        requires { pass.now ≡ new_pass shared.now }
        ensures { pass.exit.now.desk ≡ shared.entry.now }
    { claim_all(shared, pass, counts) };
    for_each_mut(rt, passes.as_mut_slice(), threads, &claim);
    desk.close(passes)
}

// A desk, also where memory is refused once.
fn made_again(alloc: Global, pieces: u64, seats: u64) -> Result<(Desk, Vec<Pass>), AllocError>
    requires pieces { pieces ≤ 2 ^ 63 }
    requires seats { (0 < seats) × (seats ≤ 64) }
    ensures seats { IfOk result (λ r. r.0.seats ≡ seats) }
    ensures passes { IfOk result (λ r. r.1.items ≡ replicate seats (new_pass r.0)) }
{
    match Desk::new(alloc, pieces, seats) {
        Ok(made) => Ok(made),
        Err(_) => Desk::new(alloc, pieces, seats),
    }
}

// How many numbers were claimed once.
fn once(counts: &[AtomicU64]) -> u64 {
    let mut numbers: u64 = 0;
    for count in counts {
        if count.load(Ordering::SeqCst) == 1 {
            numbers = numbers.saturating_add(1);
        }
    }
    numbers
}

fn push_closed(closed: &Closed, counts: &[AtomicU64], out: &mut String) -> Result<(), AllocError> {
    match counts.split_last() {
        Some((ends, claims)) => {
            let (once, ends) = (once(claims), ends.load(Ordering::SeqCst));
            write!(
                out,
                "{} drawn, {:?}, {once} once, {ends} ended",
                closed.drawn(),
                closed.least()
            )
        }
        None => out.push_str("which desk?"),
    }
}

/// How many numbers of a desk were drawn and the least place reported; how many were claimed once, and how many passes
/// met the end. The numbers are the pieces, the seats and the threads.
pub fn push_desk<R: Threads + Sync>(
    rt: &R,
    alloc: Global,
    pieces: u64,
    seats: u64,
    threads: u64,
    out: &mut String,
) -> Result<(), AllocError> {
    if 1000 < pieces || seats == 0 || 64 < seats || threads == 0 {
        return out.push_str("which desk?");
    }
    let mut counts = Vec::new(alloc);
    push_zeros(pieces + 1, &mut counts)?;
    let (desk, passes) = made_again(alloc, pieces, seats)?;
    let closed = closed_after(rt, desk, passes, threads as usize, &counts);
    push_closed(&closed, &counts, out)
}

// The second row is to be run with each allocation refused in turn.
const DESKS: &str = "> desk 0 1 1 = 0 drawn, None, 0 once, 1 ended
> desk 2 3 1 = 2 drawn, None, 2 once, 3 ended
> desk 1000 4 4 = 1000 drawn, None, 1000 once, 4 ended";

#[test]
fn passes_claim_each_number_once(rt: HostRuntime) -> Result<(), AllocError> {
    expect_answers(&rt, rt.alloc(), DESKS)
}
