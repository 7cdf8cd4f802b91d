//! Calls at each index.
ghost use Rattle.std.specs.Prelude.{◌≡◌, ◌<◌, ℕ, IfOk, vec_len};
ghost use Rattle.std.specs.Fork.{GivesEach};
ghost use Rattle.std.specs.Thread.{IsSend, IsSync};

use std::alloc::{AllocError, Global};
use std::thread::{Threads, join};

/// The results of `f(0)` to `f(count - 1)`, in order, each call made in a thread of its own where one can be started. A
/// single call is made in the caller's thread. Else that thread only starts the others and waits for them: a system may
/// put a new thread behind the one that starts it, so a caller that worked too might delay what it started. Where
/// memory for the results is refused, all calls are made all the same, and the results dropped. The stack grows with
/// `count`.
pub fn map_indices<R: Threads + Sync, X: Send + Drop, F: Fn(usize) -> X + Sync>(
    rt: &R,
    alloc: Global,
    count: usize,
    f: &F,
) -> Result<Vec<X>, AllocError>
    requires { (i : ℕ) → i < count → F.pre f.now i }
    ensures len { IfOk result (λ v. vec_len v ≡ count) }
    ensures each { IfOk result (λ v. GivesEach F.Fn f.now count v.items) }
{
    if count == 1 {
        let mut only = Vec::new(alloc);
        only.push(f(0))?;
        return Ok(only);
    }
    call_each(rt, alloc, count, f)
}

// Each in a thread of its own: the last is started first.
#[cycle(calls)]
fn call_each<R: Threads + Sync, X: Send + Drop, F: Fn(usize) -> X + Sync>(
    rt: &R,
    alloc: Global,
    count: usize,
    f: &F,
) -> Result<Vec<X>, AllocError>
    requires { (i : ℕ) → i < count → F.pre f.now i }
    ensures len { IfOk result (λ v. vec_len v ≡ count) }
    ensures each { IfOk result (λ v. GivesEach F.Fn f.now count v.items) }
{
    if count == 0 {
        return Ok(Vec::new(alloc));
    }
    let last = count - 1;
    let own = || -> X
        requires { F.pre f.now last }
        ensures { F.post f.entry.now last result }
    { f(last) };
    let others = || -> Result<Vec<X>, AllocError>
        requires { IsSync R.row × IsSync F.row × IsSend X.row × ((i : ℕ) → i < last → F.pre f.now i) }
        ensures len { IfOk result (λ v. vec_len v ≡ last) }
        ensures each { IfOk result (λ v. GivesEach F.Fn f.entry.now last v.items) }
    { call_each(rt, alloc, last, f) };
    let (value, before) = join(rt, own, others);
    let mut all = before?;
    all.push(value)?;
    Ok(all)
}
