//! Tasks that add one or double.
ghost use Rattle.std.specs.Prelude.{◌≡◌, ◌<◌, ◌∷◌, [], OnOk};
ghost use Rattle.tests.specs.Counter.{carried, clipped, counting, doubled, estimate};
ghost use Rattle.tests.specs.Tallies.{is_written, written};
ghost use Rattle.word_machine.specs.Answer.{measure_of};
ghost use Rattle.word_machine.specs.declared.closed.Origin.TheVariants.{Step};

use crate::tables::Tallies;
use crate::tallies::{Numbered, Reached, Tally};
use std::alloc::{AllocError, Global};
use std::thread::Threads;
use word_machine::{Horizon, Machine, Measure, Measured, Origin, Successor};

/// Two tallies to begin with, tasks and values below 1,000,000, and the value that is wanted.
#[derive(Clone, Copy)]
pub struct Counter {
    pub target: u64,
    pub first: Tally,
    pub second: Tally,
    pub alloc: Global,
}

fn clip(tally: Tally) -> Tally
    ensures { result ≡ clipped tally }
{
    Tally {
        tasks: tally.tasks % 1_000_000,
        value: tally.value % 1_000_000,
        ..tally
    }
}

fn carry_out(tally: Tally) -> Tally
    requires some { 0 < tally.tasks }
    requires small { tally.value < 1000000 }
    ensures { result ≡ carried tally }
{
    Tally {
        tasks: tally.tasks - 1,
        value: (tally.value + 1) % 1_000_000,
        stuck: false,
    }
}

fn double(tally: Tally) -> Tally
    requires small { tally.value < 1000000 }
    ensures { result ≡ doubled tally }
{
    Tally {
        tasks: tally.tasks,
        value: (tally.value * 2) % 1_000_000,
        stuck: false,
    }
}

// Whether all is carried out, with the value that is wanted.
fn is_wanted(target: u64, tally: Tally) -> bool
    ensures { result ≡ (counting target []).is_done tally }
{
    !tally.stuck && tally.tasks == 0 && tally.value == target
}

// A lower bound on the steps that are left: one for each task, and one to double where the value does not come out
// otherwise.
fn steps_left(target: u64, tally: Tally) -> u64
    requires few { tally.tasks < 1000000 }
    requires small { tally.value < 1000000 }
    ensures { result ≡ estimate target tally }
{
    if (tally.value + tally.tasks) % 1_000_000 == target % 1_000_000 {
        tally.tasks
    } else {
        tally.tasks + 1
    }
}

/// How many steps are left at least, by this measure.
pub fn left_of(target: u64, measure: Measure, tally: Tally) -> u64
    requires few { tally.tasks < 1000000 }
    requires small { tally.value < 1000000 }
    ensures { result ≡ measure_of (counting target []) (estimate target) measure tally }
{
    match measure {
        Measure::OpenNodes => tally.tasks,
        Measure::LowerBound => steps_left(target, tally),
    }
}

fn successor(tallies: &Tallies, rank: usize, number: u64, tally: Tally) -> Successor<Reached>
    ensures origin { result.origin ≡ Step rank number }
    ensures allowed { is_written tallies.now.tallies.keys result.configuration }
    ensures same { written tallies.now.tallies.keys result.configuration ≡ tally }
{
    Successor {
        origin: Origin::Step {
            parent: rank,
            number,
        },
        configuration: tallies.reached(tally),
    }
}

impl Machine for Counter {
    ghost use Rattle.std.specs.Prelude.{◌≡◌, ◌<◌, ◌∷◌, [], false};
    ghost use Rattle.std.proofs.Common.{rules};
    ghost use Rattle.tests.specs.Counter.{clipped, counting, estimate};
    ghost use Rattle.tests.specs.Laws.{bounded, clipped_small, lawful};
    ghost use Rattle.tests.specs.Tallies.{AreDistinct, tally_meaning};
    ghost use Rattle.tests.specs.Distinct.{one_to_one};
    ghost use Rattle.tests.specs.declared.tallies.Tally.{Tally};

    type Configuration = Numbered;

    type Reached = Reached;

    type Tables = Tallies;

    ghost Point = { Tally };

    ghost words = { λ m. counting m.target (clipped m.first ∷ clipped m.second ∷ []) };

    ghost belongs = { λ m c. (c.tasks < 1000000) × (c.value < 1000000) };

    ghost estimate = { λ m c. estimate m.target c };

    ghost meaning = { λ m t. tally_meaning t.tallies.keys };

    ghost owns = { λ m t. AreDistinct t.tallies.keys };

    ghost is_ready = { λ m t c. Unit {0} };

    ghost same = { λ c d e. Prim.search rules };

    ghost one_to_one = { λ m t own. one_to_one t.tallies.keys own };

    ghost lawful = { λ m. lawful m.target (clipped m.first ∷ clipped m.second ∷ []) (clipped_small m.first m.second) };

    ghost bounded = { λ m. bounded m.target (clipped m.first ∷ clipped m.second ∷ []) };

    fn new_tables(&self) -> Result<Tallies, AllocError> {
        Ok(Tallies::new(self.alloc))
    }

    fn initials(&self, tables: &mut Tallies) -> Result<Vec<Numbered>, AllocError> {
        let first = tables.number(clip(self.first))?;
        let second = tables.number(clip(self.second))?;
        let mut initials = Vec::new(self.alloc);
        initials.push(first)?;
        initials.push(second)?;
        Ok(initials)
    }

    fn prepare_all<R: Threads + Sync>(
        &self,
        _rt: &R,
        _tables: &mut Tallies,
        _at: &[Numbered],
        _workers: usize,
    ) -> Result<(), AllocError> {
        Ok(())
    }

    fn expand(
        &self,
        tables: &Tallies,
        rank: usize,
        from: Numbered,
        horizon: Horizon,
        successors: &mut Vec<Measured<Reached>>,
    ) -> Result<Option<u64>, AllocError> {
        let tally = tables.tally(from);
        if tally.stuck {
            return Ok(None);
        }
        if tally.tasks == 0 {
            return Ok(None);
        }
        let less = carry_out(tally);
        if is_wanted(self.target, less) {
            return Ok(Some(0));
        }
        let more = double(tally);
        successors.push(Measured {
            successor: successor(tables, rank, 0, less),
            left: left_of(self.target, horizon.measure, less),
        })?;
        successors.push(Measured {
            successor: successor(tables, rank, 1, more),
            left: left_of(self.target, horizon.measure, more),
        })?;
        Ok(None)
    }

    fn keep(&self, tables: &mut Tallies, reached: Reached) -> Result<Numbered, AllocError> {
        match reached {
            Reached::Known(numbered) => Ok(numbered),
            Reached::New(tally) => tables.number(tally),
        }
    }

    fn is_done(&self, tables: &Tallies, at: Numbered) -> bool {
        is_wanted(self.target, tables.tally(at))
    }

    fn open_len(&self, tables: &Tallies, at: Numbered) -> u64 {
        tables.tally(at).tasks
    }

    fn lower_bound(&self, tables: &Tallies, at: Numbered) -> u64 {
        steps_left(self.target, tables.tally(at))
    }

    fn find(&self, tables: &Tallies, reached: &Reached) -> Option<Numbered> {
        match reached {
            Reached::Known(numbered) => Some(*numbered),
            Reached::New(tally) => tables.find(tally),
        }
    }
}
