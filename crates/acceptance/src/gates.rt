//! A gate that counts, and at which the first piece waits for a later one.

use htn_run::Gate;
use std::sync::atomic::{AtomicU64, Ordering};
use std::{io, thread};

/// The nth call for piece 0 waits until piece `later` was called n times, for at most `TURNS` turns. It doesn't wait
/// where that is piece 0 itself.
#[derive(Drop)]
pub struct Meeting {
    later: u64,
    calls: AtomicU64,
    firsts: AtomicU64,
    laters: AtomicU64,
    in_vain: AtomicU64,
}

const TURNS: u64 = 10_000_000;

impl Meeting {
    /// The gate at which the first piece waits for this one.
    pub fn new(later: u64) -> Meeting {
        Meeting {
            later,
            calls: AtomicU64::new(0),
            firsts: AtomicU64::new(0),
            laters: AtomicU64::new(0),
            in_vain: AtomicU64::new(0),
        }
    }

    fn wait(&self, before: u64) {
        for _ in 0..TURNS {
            if before < self.laters.load(Ordering::SeqCst) {
                return;
            }
            thread::yield_now();
        }
        self.in_vain.fetch_add(1, Ordering::SeqCst);
    }

    /// Prints how often a wait ended in vain; without waits, how many pieces passed the gate.
    pub fn print_calls<R: Print>(&self, rt: &R) -> io::Result<()> {
        if self.later == 0 {
            let calls = self.calls.load(Ordering::SeqCst);
            return println!(rt; "pieces that passed the gate: {calls}");
        }
        let waits = self.firsts.load(Ordering::SeqCst);
        let in_vain = self.in_vain.load(Ordering::SeqCst);
        println!(rt; "waits of the first piece: {waits}, in vain: {in_vain}")
    }
}

impl Gate for Meeting {
    fn at(&self, piece: u64) {
        self.calls.fetch_add(1, Ordering::SeqCst);
        if piece == self.later {
            self.laters.fetch_add(1, Ordering::SeqCst);
        }
        if piece == 0 {
            let before = self.firsts.fetch_add(1, Ordering::SeqCst);
            self.wait(before);
        }
    }
}
