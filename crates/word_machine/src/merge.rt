//! The merge of a level's successors into the closed list.
ghost use Rattle.std.specs.Prelude.{◌≡◌, ◌<◌, ◌++◌, List, length, map, All, OnOk};
ghost use Rattle.word_machine.specs.Answer.{measure_of};
ghost use Rattle.word_machine.specs.Aside.{IsAside, IsPassedBy, with_aside};
ghost use Rattle.word_machine.specs.Contents.{offer_all, initial_successors, AreOffered, IsOffered, IsOriginWithin};
ghost use Rattle.word_machine.specs.Meaning.{AreMeasured, IsGrown, contents_at, successor_at, successors_of};
ghost use Rattle.word_machine.specs.Ranks.{IsOwned};
ghost use Rattle.word_machine.specs.declared.closed.Origin.{Origin};

use crate::chain::Chain;
use crate::closed::{Closed, FEW, Fitting, Measured, Origin, Successor};
use crate::machine::Machine;
use crate::measure::{Measure, measured};
use std::alloc::{AllocError, Global};
use std::thread::Threads;
use workers::workers_for;

/// Offers the initial configurations to the closed list, each with its number; one with more than `room` steps left by
/// this measure is pruned.
pub fn offer_initials<M: Machine, R: Threads + Sync>(
    rt: &R,
    alloc: Global,
    machine: &M,
    tables: &M::Tables,
    closed: &mut Closed<M::Configuration>,
    initials: &[M::Configuration],
    measure: Measure,
    room: u64,
) -> Result<(), AllocError>
    requires own { M.owns machine.now tables.now }
    requires known { All (IsOwned (M.meaning machine.now tables.now) (M.belongs machine.now)) initials.now }
    ensures { OnOk result (closed.new ≡ offer_all M.Configuration.eq (λ c. measure_of (M.words machine.now) (M.estimate machine.now) measure ((M.meaning machine.now tables.now).point c)) room closed.old (initial_successors 0 initials.now)) }
{
    for (i, initial) in initials.iter().enumerate() {
        let left = measured(machine, tables, measure, *initial);
        let origin = Origin::Initial(i as u64);
        let successor = Successor {
            origin,
            configuration: *initial,
        };
        closed.keep(rt, alloc, successor, left, room)?;
    }
    Ok(())
}

// Prunes a configuration past the room, unless it is in the list; what is set aside for the list doesn't matter, since
// all of that is within the room. (The measure is a parameter for the contract alone.)
fn pass_by<M: Machine>(
    machine: &M,
    tables: &M::Tables,
    closed: &mut Closed<M::Configuration>,
    one: &Measured<M::Reached>,
    measure: Measure,
    room: u64,
)
    requires own { M.owns machine.now tables.now }
    requires known { All (M.meaning machine.now tables.now).knows closed.old.keys }
    requires allowed { (M.meaning machine.now tables.now).allows one.now.successor.configuration }
    requires measured { one.now.left ≡ measure_of (M.words machine.now) (M.estimate machine.now) measure
        ((M.meaning machine.now tables.now).point_of one.now.successor.configuration) }
    requires past { room < one.now.left }
    ensures keys { closed.new.keys ≡ closed.old.keys }
    ensures origins { closed.new.origins ≡ closed.old.origins }
    ensures offered { IsPassedBy M.Configuration.eq (M.meaning machine.now tables.now)
        (measure_of (M.words machine.now) (M.estimate machine.now) measure) room one.now.successor closed.old closed.new }
{
    let origin = one.successor.origin;
    let past = one.left - room;
    if closed.has_cut_within(past) {
        closed.count_passed_over(origin, past);
        return;
    }
    let Some(found) = machine.find(tables, &one.successor.configuration) else {
        closed.cut_off(origin, past);
        return;
    };
    closed.leave_out(&found, origin, past);
}

// Sets a successor aside, to be added with the others of its batch, if it is within the room; else prunes it. (The
// measure is a parameter for the contract alone.)
fn put_aside<M: Machine>(
    machine: &M,
    tables: &mut M::Tables,
    closed: &mut Closed<M::Configuration>,
    fits: &mut Fitting<M::Configuration>,
    one: Measured<M::Reached>,
    measure: Measure,
    room: u64,
) -> Result<(), AllocError>
    requires own { M.owns machine.now tables.old }
    requires known { All (M.meaning machine.now tables.old).knows closed.old.keys }
    requires allowed { (M.meaning machine.now tables.old).allows one.successor.configuration }
    requires belongs { M.belongs machine.now ((M.meaning machine.now tables.old).point_of one.successor.configuration) }
    requires measured { one.left ≡ measure_of (M.words machine.now) (M.estimate machine.now) measure
        ((M.meaning machine.now tables.old).point_of one.successor.configuration) }
    requires within { IsOriginWithin (length closed.old.keys) one.successor.origin }
    requires aside { IsAside (M.meaning machine.now tables.old)
        (measure_of (M.words machine.now) (M.estimate machine.now) measure) room (length closed.old.keys) fits.old }
    ensures owned { OnOk result (M.owns machine.now tables.new) }
    ensures grown { OnOk result (IsGrown (M.meaning machine.now tables.old) (M.meaning machine.now tables.new)) }
    ensures keys { OnOk result (closed.new.keys ≡ closed.old.keys) }
    ensures origins { OnOk result (closed.new.origins ≡ closed.old.origins) }
    ensures aside { OnOk result (IsAside (M.meaning machine.now tables.new)
        (measure_of (M.words machine.now) (M.estimate machine.now) measure) room (length closed.old.keys) fits.new) }
    ensures offered { OnOk result (
        let point = (M.meaning machine.now tables.new).point in
        let reached = successor_at (M.meaning machine.now tables.old).point_of one.successor in
        IsOffered (contents_at point (with_aside M.Configuration.eq closed.old fits.old)) reached
        (measure_of (M.words machine.now) (M.estimate machine.now) measure reached.configuration) room
        (contents_at point (with_aside M.Configuration.eq closed.new fits.new))) }
{
    if one.left > room {
        pass_by(machine, tables, closed, &one, measure, room);
        return Ok(());
    }
    let Successor {
        origin,
        configuration,
    } = one.successor;
    // For the prover alone: a list has no more ranks than a number can name.
    let ranks = closed.configurations().len();
    prove!(ranks <= usize::MAX);
    let kept = machine.keep(tables, configuration)?;
    fits.push(origin, kept)?;
    Ok(())
}

// Offers a successor to the list. (The measure is a parameter for the contract alone.)
fn offer_one<M: Machine>(
    machine: &M,
    tables: &mut M::Tables,
    closed: &mut Closed<M::Configuration>,
    one: Measured<M::Reached>,
    measure: Measure,
    room: u64,
) -> Result<(), AllocError>
    requires own { M.owns machine.now tables.old }
    requires known { All (M.meaning machine.now tables.old).knows closed.old.keys }
    requires allowed { (M.meaning machine.now tables.old).allows one.successor.configuration }
    requires belongs { M.belongs machine.now ((M.meaning machine.now tables.old).point_of one.successor.configuration) }
    requires measured { one.left ≡ measure_of (M.words machine.now) (M.estimate machine.now) measure
        ((M.meaning machine.now tables.old).point_of one.successor.configuration) }
    requires within { IsOriginWithin (length closed.old.keys) one.successor.origin }
    ensures owned { OnOk result (M.owns machine.now tables.new) }
    ensures grown { OnOk result (IsGrown (M.meaning machine.now tables.old) (M.meaning machine.now tables.new)) }
    ensures known { OnOk result (All (M.meaning machine.now tables.new).knows closed.new.keys) }
    ensures keys { OnOk result ((more : List M.Configuration) × (closed.new.keys ≡ closed.old.keys ++ more)) }
    ensures origins { OnOk result ((more : List Origin) × (closed.new.origins ≡ closed.old.origins ++ more)) }
    ensures offered { OnOk result (
        let point = (M.meaning machine.now tables.new).point in
        let reached = successor_at (M.meaning machine.now tables.old).point_of one.successor in
        IsOffered (contents_at point closed.old) reached
        (measure_of (M.words machine.now) (M.estimate machine.now) measure reached.configuration) room
        (contents_at point closed.new)) }
{
    if one.left > room {
        pass_by(machine, tables, closed, &one, measure, room);
        return Ok(());
    }
    let Successor {
        origin,
        configuration,
    } = one.successor;
    let configuration = machine.keep(tables, configuration)?;
    closed.keep_one(Successor {
        origin,
        configuration,
    })?;
    Ok(())
}

// The merge of one worker, and of few successors: each is added at once. (The measure is a parameter for the contract
// alone.)
fn merge_alone<M: Machine>(
    machine: &M,
    tables: &mut M::Tables,
    closed: &mut Closed<M::Configuration>,
    batch: Chain<Measured<M::Reached>>,
    measure: Measure,
    room: u64,
) -> Result<(), AllocError>
    requires own { M.owns machine.now tables.old }
    requires known { All (M.meaning machine.now tables.old).knows closed.old.keys }
    requires allowed { All (λ s. (M.meaning machine.now tables.old).allows s.successor.configuration) batch }
    requires belongs { All (λ s. M.belongs machine.now ((M.meaning machine.now tables.old).point_of s.successor.configuration)) batch }
    requires measured { AreMeasured (measure_of (M.words machine.now) (M.estimate machine.now) measure) (M.meaning machine.now tables.old) batch }
    requires within { All (λ s. IsOriginWithin (length closed.old.keys) s.successor.origin) batch }
    ensures owned { OnOk result (M.owns machine.now tables.new) }
    ensures grown { OnOk result (IsGrown (M.meaning machine.now tables.old) (M.meaning machine.now tables.new)) }
    ensures known { OnOk result (All (M.meaning machine.now tables.new).knows closed.new.keys) }
    ensures offered { OnOk result (AreOffered (measure_of (M.words machine.now) (M.estimate machine.now) measure) room (contents_at (M.meaning machine.now tables.new).point closed.old) (map (successor_at (M.meaning machine.now tables.old).point_of) (successors_of batch)) (contents_at (M.meaning machine.now tables.new).point closed.new)) }
    ensures keys { OnOk result ((more : List M.Configuration) × (closed.new.keys ≡ closed.old.keys ++ more)) }
    ensures origins { OnOk result ((more : List Origin) × (closed.new.origins ≡ closed.old.origins ++ more)) }
{
    for one in batch {
        offer_one(machine, tables, closed, one, measure, room)?;
    }
    Ok(())
}

// The merge of several workers: what is within the room is set aside, and added together. (The measure is a parameter
// for the contract alone.)
fn merge_shared<M: Machine, R: Threads + Sync>(
    rt: &R,
    alloc: Global,
    workers: usize,
    machine: &M,
    tables: &mut M::Tables,
    closed: &mut Closed<M::Configuration>,
    batch: Chain<Measured<M::Reached>>,
    measure: Measure,
    room: u64,
) -> Result<(), AllocError>
    requires workers { 0 < workers }
    requires own { M.owns machine.now tables.old }
    requires known { All (M.meaning machine.now tables.old).knows closed.old.keys }
    requires allowed { All (λ s. (M.meaning machine.now tables.old).allows s.successor.configuration) batch }
    requires belongs { All (λ s. M.belongs machine.now ((M.meaning machine.now tables.old).point_of s.successor.configuration)) batch }
    requires measured { AreMeasured (measure_of (M.words machine.now) (M.estimate machine.now) measure) (M.meaning machine.now tables.old) batch }
    requires within { All (λ s. IsOriginWithin (length closed.old.keys) s.successor.origin) batch }
    ensures owned { OnOk result (M.owns machine.now tables.new) }
    ensures grown { OnOk result (IsGrown (M.meaning machine.now tables.old) (M.meaning machine.now tables.new)) }
    ensures known { OnOk result (All (M.meaning machine.now tables.new).knows closed.new.keys) }
    ensures offered { OnOk result (AreOffered (measure_of (M.words machine.now) (M.estimate machine.now) measure) room (contents_at (M.meaning machine.now tables.new).point closed.old) (map (successor_at (M.meaning machine.now tables.old).point_of) (successors_of batch)) (contents_at (M.meaning machine.now tables.new).point closed.new)) }
    ensures keys { OnOk result ((more : List M.Configuration) × (closed.new.keys ≡ closed.old.keys ++ more)) }
    ensures origins { OnOk result ((more : List Origin) × (closed.new.origins ≡ closed.old.origins ++ more)) }
{
    let mut fits = Fitting::with_capacity(alloc, batch.initial_len())?;
    for one in batch {
        put_aside(machine, tables, closed, &mut fits, one, measure, room)?;
    }
    closed.keep_all(rt, alloc, &fits, workers)
}

/// Offers the successors that workers reached to the closed list, in their order; those with more than `room` steps
/// left are pruned. A pruned one gets no number: where the tables have none for it, it is not in the list. Once one was
/// pruned, those that are no nearer to the room are not looked up any more. (The measure is a parameter for the
/// contract alone: each successor comes with its steps left.)
pub fn merge<M: Machine, R: Threads + Sync>(
    rt: &R,
    alloc: Global,
    workers: usize,
    machine: &M,
    tables: &mut M::Tables,
    closed: &mut Closed<M::Configuration>,
    batch: Chain<Measured<M::Reached>>,
    measure: Measure,
    room: u64,
) -> Result<(), AllocError>
    requires workers { 0 < workers }
    requires own { M.owns machine.now tables.old }
    requires known { All (M.meaning machine.now tables.old).knows closed.old.keys }
    requires allowed { All (λ s. (M.meaning machine.now tables.old).allows s.successor.configuration) batch }
    requires belongs { All (λ s. M.belongs machine.now ((M.meaning machine.now tables.old).point_of s.successor.configuration)) batch }
    requires measured { AreMeasured (measure_of (M.words machine.now) (M.estimate machine.now) measure) (M.meaning machine.now tables.old) batch }
    requires within { All (λ s. IsOriginWithin (length closed.old.keys) s.successor.origin) batch }
    ensures owned { OnOk result (M.owns machine.now tables.new) }
    ensures grown { OnOk result (IsGrown (M.meaning machine.now tables.old) (M.meaning machine.now tables.new)) }
    ensures known { OnOk result (All (M.meaning machine.now tables.new).knows closed.new.keys) }
    ensures offered { OnOk result (AreOffered (measure_of (M.words machine.now) (M.estimate machine.now) measure) room (contents_at (M.meaning machine.now tables.new).point closed.old) (map (successor_at (M.meaning machine.now tables.old).point_of) (successors_of batch)) (contents_at (M.meaning machine.now tables.new).point closed.new)) }
    ensures keys { OnOk result ((more : List M.Configuration) × (closed.new.keys ≡ closed.old.keys ++ more)) }
    ensures origins { OnOk result ((more : List Origin) × (closed.new.origins ≡ closed.old.origins ++ more)) }
{
    if workers_for(batch.initial_len(), FEW, workers) == 1 {
        return merge_alone(machine, tables, closed, batch, measure, room);
    }
    merge_shared(
        rt, alloc, workers, machine, tables, closed, batch, measure, room,
    )
}
