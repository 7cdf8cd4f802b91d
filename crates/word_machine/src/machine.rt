//! Word machines: a number leads from a configuration to the next one.
ghost use Rattle.std.specs.Prelude.{◌≡◌, ℕ, ◌<◌, ◌++◌, List, true, map, All, IfOk, OnOk, OnErr, IfSome, IfNone};
ghost use Rattle.std.specs.Thread.{IsSync};
ghost use Rattle.word_machine.specs.Machine.{WordMachine, IsLawful, IsLowerBound, IsLiveStep, IsDone};
ghost use Rattle.word_machine.specs.Meaning.{Meaning, IsGrown, IsOneToOne, AreMeasured, AreSuccessors, successors_of};
ghost use Rattle.word_machine.specs.Answer.{IsBeyond, measure_of};
ghost use Rattle.word_machine.specs.Expansion.{IsLeastDone};
ghost use Rattle.word_machine.specs.declared.closed.Measured.{Measured};

use crate::closed::Measured;
use crate::measure::Horizon;
use std::alloc::AllocError;
use std::hash::Hash;
use std::thread::Threads;

/// A machine whose steps are numbered. A word is the number of an initial configuration, and then one number for each
/// step. A search numbers the configurations too, in tables that grow, and works on these numbers.
pub trait Machine: Sync {
    /// A configuration, by its numbers in the tables.
    type Configuration: Copy + Eq + Hash + Send + Sync;

    /// A configuration that a worker reached: by its numbers where the tables have them, else in full.
    type Reached: Drop + Send;

    /// What a search has numbered, and what it knows of each number.
    type Tables: Drop + Send + Sync;

    // What a configuration stands for.
    ghost Point: { Type 0 };

    // What the machine does.
    ghost words: { Self → WordMachine Point };

    // The point is one of this machine's.
    ghost belongs: { Self → Point → Type 0 };

    // A lower bound on the steps that are left.
    ghost estimate: { Self → Point → ℕ };

    // What the numbers stand for, by these tables.
    ghost meaning: { Self → Self.Tables → Meaning Self.Configuration Self.Reached Point };

    // The tables are ones that this machine made, and no other has changed them.
    ghost owns: { Self → Self.Tables → Type 0 };

    // The tables have what the steps at this configuration need.
    ghost is_ready: { Self → Self.Tables → Self.Configuration → Type 0 };

    /// The tables at the start of a search.
    fn new_tables(&self) -> Result<Self::Tables, AllocError>
        ensures { IfOk result (owns self.now) };

    /// Numbers the initial configurations, in their order.
    fn initials(&self, tables: &mut Self::Tables) -> Result<Vec<Self::Configuration>, AllocError>
        requires own { owns self.now tables.old }
        ensures owned { OnOk result (owns self.now tables.new) }
        ensures grown { OnOk result (IsGrown (meaning self.now tables.old) (meaning self.now tables.new)) }
        ensures known { IfOk result (λ initials. All (meaning self.now tables.new).knows initials.items) }
        ensures initials { IfOk result (λ initials. map (meaning self.now tables.new).point initials.items ≡ (words self.now).initials) };

    /// Prepares the tables for the steps at these configurations, by at most `workers` workers.
    fn prepare_all<R: Threads + Sync>(
        &self,
        rt: &R,
        tables: &mut Self::Tables,
        at: &[Self::Configuration],
        workers: usize,
    ) -> Result<(), AllocError>
        // The bound on R, which the body could not use otherwise.
        requires threads { IsSync R.row }
        requires workers { 0 < workers }
        requires own { owns self.now tables.old }
        requires known { All (meaning self.now tables.old).knows at.now }
        requires belongs { All (λ c. belongs self.now ((meaning self.now tables.old).point c)) at.now }
        ensures owned { OnOk result (owns self.now tables.new) }
        ensures grown { OnOk result (IsGrown (meaning self.now tables.old) (meaning self.now tables.new)) }
        ensures ready { OnOk result (All (is_ready self.now tables.new) at.now) };

    /// Appends the successors by the numbers that are not dead, in ascending order, each with this rank as its parent
    /// and its steps left by the horizon's measure; one beyond the horizon may be missing. If a successor is done, the
    /// answer is the least number that leads to a done one. Where memory is refused, the list still begins with what it
    /// had.
    fn expand(
        &self,
        tables: &Self::Tables,
        rank: usize,
        from: Self::Configuration,
        horizon: Horizon,
        successors: &mut Vec<Measured<Self::Reached>>,
    ) -> Result<Option<u64>, AllocError>
        requires own { owns self.now tables.now }
        requires known { (meaning self.now tables.now).knows from }
        requires belongs { belongs self.now ((meaning self.now tables.now).point from) }
        requires ready { is_ready self.now tables.now from }
        ensures whole { IfOk result (λ done. IfNone done (
            (more : List (Measured Self.Reached)) × (successors.new.items ≡ successors.old.items ++ more)
            × AreSuccessors (words self.now) (meaning self.now tables.now)
            (IsBeyond (words self.now) (estimate self.now) horizon) rank from (successors_of more)
            × AreMeasured (measure_of (words self.now) (estimate self.now) horizon.measure)
            (meaning self.now tables.now) more)) }
        ensures done { IfOk result (λ done. IfSome done (IsLeastDone (IsLiveStep (words self.now)) (IsDone (words self.now)) ((meaning self.now tables.now).point from))) }
        ensures refused { OnErr result ((more : List (Measured Self.Reached)) × (successors.new.items ≡ successors.old.items ++ more)) };

    /// The numbers of a configuration that a worker reached.
    fn keep(
        &self,
        tables: &mut Self::Tables,
        reached: Self::Reached,
    ) -> Result<Self::Configuration, AllocError>
        requires own { owns self.now tables.old }
        requires allowed { (meaning self.now tables.old).allows reached }
        requires belongs { belongs self.now ((meaning self.now tables.old).point_of reached) }
        ensures owned { OnOk result (owns self.now tables.new) }
        ensures grown { OnOk result (IsGrown (meaning self.now tables.old) (meaning self.now tables.new)) }
        ensures known { IfOk result (meaning self.now tables.new).knows }
        ensures same { IfOk result (λ c. (meaning self.now tables.new).point c ≡ (meaning self.now tables.old).point_of reached) };

    /// Whether the configuration is done.
    fn is_done(&self, tables: &Self::Tables, at: Self::Configuration) -> bool
        requires own { owns self.now tables.now }
        requires known { (meaning self.now tables.now).knows at }
        requires belongs { belongs self.now ((meaning self.now tables.now).point at) }
        ensures { result ≡ (words self.now).is_done ((meaning self.now tables.now).point at) };

    /// How many nodes are open.
    fn open_len(&self, tables: &Self::Tables, at: Self::Configuration) -> u64
        requires own { owns self.now tables.now }
        requires known { (meaning self.now tables.now).knows at }
        requires belongs { belongs self.now ((meaning self.now tables.now).point at) }
        ensures { result ≡ (words self.now).open_len ((meaning self.now tables.now).point at) };

    /// A lower bound on the steps that are left.
    fn lower_bound(&self, tables: &Self::Tables, at: Self::Configuration) -> u64
        requires own { owns self.now tables.now }
        requires known { (meaning self.now tables.now).knows at }
        requires belongs { belongs self.now ((meaning self.now tables.now).point at) }
        ensures { result ≡ estimate self.now ((meaning self.now tables.now).point at) };

    /// The numbers of a configuration that a worker reached, if the tables have them. It takes no memory.
    fn find(&self, tables: &Self::Tables, reached: &Self::Reached) -> Option<Self::Configuration>
        requires own { owns self.now tables.now }
        requires allowed { (meaning self.now tables.now).allows reached.now }
        ensures known { IfSome result (meaning self.now tables.now).knows }
        ensures same { IfSome result (λ c. (meaning self.now tables.now).point c ≡ (meaning self.now tables.now).point_of reached.now) }
        ensures none { IfNone result ((c : Self.Configuration) → (meaning self.now tables.now).knows c → (meaning self.now tables.now).point c ≡ (meaning self.now tables.now).point_of reached.now → ⊥) };

    // Configurations that compare equal are the same.
    ghost same: { (c d : Self.Configuration) → Self.Configuration.eq c d ≡ true → c ≡ d };

    // No point has two numbers.
    ghost one_to_one: { (m : Self) (t : Self.Tables) → owns m t → IsOneToOne (meaning m t) };

    ghost lawful: { (m : Self) → IsLawful (words m) (belongs m) };

    ghost bounded: { (m : Self) → IsLowerBound (words m) (estimate m) };
}
