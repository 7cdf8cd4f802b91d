//! The order of faults: by the text, by the place, and then by the kind.
ghost use Rattle.std.specs.Prelude.{◌≡◌, ◌↔◌, map, Contains, IfOk};
ghost use Rattle.hddl_meaning.specs.declared.fault.CheckFault.{CheckFault};
ghost use Rattle.hddl_scope.specs.Ranks.{AreInOrder, at_of, comes_before, fault_of, rank_at, rank_of};

use hddl_meaning::{At, CheckFault, Source};
use std::alloc::{AllocError, Global};

/// Where a fault stands, and its kind, as numbers.
#[derive(Clone, Copy, PartialEq, Eq, PartialOrd, Ord)]
pub(crate) struct Rank {
    pub(crate) text: usize,
    pub(crate) place: usize,
    pub(crate) kind: usize,
}

fn rank_at(at: At, kind: usize) -> Rank
    ensures { result ≡ rank_at at kind }
{
    let text = match at.source {
        Source::Domain => 0,
        Source::Problem => 1,
    };
    Rank {
        text,
        place: at.place,
        kind,
    }
}

/// The rank of a fault. `OutOfMemory` is last.
fn rank_of(fault: CheckFault) -> Rank
    ensures { result ≡ rank_of fault }
{
    match fault {
        CheckFault::Duplicate(at) => rank_at(at, 0),
        CheckFault::UnknownType(at) => rank_at(at, 1),
        CheckFault::TypeCycle(at) => rank_at(at, 2),
        CheckFault::UnknownName(at) => rank_at(at, 3),
        CheckFault::Arity(at) => rank_at(at, 4),
        CheckFault::TypeClash(at) => rank_at(at, 5),
        CheckFault::OrderCycle(at) => rank_at(at, 6),
        CheckFault::UnknownSubtask(at) => rank_at(at, 7),
        CheckFault::TooMany(at) => rank_at(at, 8),
        CheckFault::OutOfMemory => Rank {
            text: 2,
            place: 0,
            kind: 9,
        },
    }
}

/// Whether the first fault comes before the second.
pub(crate) fn comes_before(a: CheckFault, b: CheckFault) -> bool
    ensures { result ≡ comes_before a b }
{
    rank_of(a).cmp(&rank_of(b)).is_lt()
}

/// The place that a rank has.
fn at_of(rank: Rank) -> At
    ensures { result ≡ at_of rank }
{
    let source = match rank.text {
        0 => Source::Domain,
        _ => Source::Problem,
    };
    At {
        source,
        place: rank.place,
    }
}

/// The fault that has a rank.
fn fault_of(rank: Rank) -> CheckFault
    ensures { result ≡ fault_of rank }
{
    let at = at_of(rank);
    match rank.kind {
        0 => CheckFault::Duplicate(at),
        1 => CheckFault::UnknownType(at),
        2 => CheckFault::TypeCycle(at),
        3 => CheckFault::UnknownName(at),
        4 => CheckFault::Arity(at),
        5 => CheckFault::TypeClash(at),
        6 => CheckFault::OrderCycle(at),
        7 => CheckFault::UnknownSubtask(at),
        8 => CheckFault::TooMany(at),
        _ => CheckFault::OutOfMemory,
    }
}

/// The ranks of faults.
fn ranks_of(alloc: Global, faults: &[CheckFault]) -> Result<Vec<Rank>, AllocError>
    ensures { IfOk result (λ ranks. ranks.items ≡ map rank_of faults.now) }
{
    let mut ranks = Vec::with_capacity(alloc, faults.len())?;
    for fault in faults {
        ranks.push(rank_of(*fault))?;
    }
    Ok(ranks)
}

/// The faults that have ranks.
fn faults_of(alloc: Global, ranks: &[Rank]) -> Result<Vec<CheckFault>, AllocError>
    ensures { IfOk result (λ faults. faults.items ≡ map fault_of ranks.now) }
{
    let mut faults = Vec::with_capacity(alloc, ranks.len())?;
    for rank in ranks {
        faults.push(fault_of(*rank))?;
    }
    Ok(faults)
}

/// Faults in their order in the texts, each once.
pub fn in_order(alloc: Global, faults: &[CheckFault]) -> Result<Vec<CheckFault>, AllocError>
    ensures order { IfOk result (λ all. AreInOrder all.items) }
    ensures same { IfOk result (λ all. (f : CheckFault) → Contains all.items f ↔ Contains faults.now f) }
{
    let mut ranks = ranks_of(alloc, faults)?;
    ranks.sort_unstable();
    ranks.dedup();
    let all = faults_of(alloc, &ranks)?;
    Ok(all)
}
