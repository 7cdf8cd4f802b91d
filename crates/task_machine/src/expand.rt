//! The successors of a configuration.
ghost use Rattle.std.specs.Prelude.{true, false, ◌≡◌, ◌<◌, ◌++◌, ℕ, List, Some, length, option_map, slice_get, IfOk, IfSome, IfNone, IsSome, OnErr};
ghost use Rattle.htn_model.specs.Literal.{Action as ModelAction};
ghost use Rattle.htn_model.specs.Problem.{perform_action};
ghost use Rattle.htn_walk.specs.Listed.{listing_machine};
ghost use Rattle.network_table.specs.declared.expansion.Removal.{Removal as Removals};
ghost use Rattle.network_table.specs.Networks.{expansion_at, Knows};
ghost use Rattle.state_table.specs.Compiled.{IsCompiled};
ghost use Rattle.state_table.specs.Table.{IsSetOf, IsTable, state_of};
ghost use Rattle.word_machine.specs.Expansion.{IsLeastDone};
ghost use Rattle.word_machine.specs.Machine.{IsDone, IsLiveStep};
ghost use Rattle.word_machine.specs.Meaning.{AreMeasured, AreSuccessors, successors_of};
ghost use Rattle.word_machine.specs.declared.closed.Measured.{Measured};
ghost use Rattle.word_machine.specs.declared.closed.Origin.TheVariants.{Step};
ghost use Rattle.task_machine.specs.Bounds.{BelongsTo, left_by, lies_beyond};
ghost use Rattle.task_machine.specs.Owned.{AreOwned};
ghost use Rattle.task_machine.specs.Meaning.{allows, config_in, knows, meaning, point, point_of};
ghost use Rattle.task_machine.specs.Site.{AreTaken, IsSite, LeadsBy, LeadsTo, Takes, point_at};

use crate::configuration::{Configuration, Reached};
use crate::machine::TaskMachine;
use crate::performer::Performer;
use crate::tables::Tables;
use network_table::{Expansion, Removal};
use state_table::{BitState, CompiledAction};
use std::alloc::{AllocError, Global};
use word_machine::{Horizon, Measure, Measured, Origin, Successor};

impl Tables {
    /// A state with a network, by the number of the state if that has one: it takes memory only where it has none.
    fn looked_up(&self, alloc: Global, state: BitState, network: u32) -> Result<Reached, AllocError>
        requires set { IsSetOf self.now.atoms state }
        requires known { Knows self.now.networks network }
        ensures allowed { IfOk result (allows self.now) }
        ensures point { IfOk result (λ r. point_of self.now r ≡ config_in self.now state network) }
    {
        match self.states.number_of(&state) {
            Some(state) => Ok(Reached::Known(state, network)),
            None => {
                let state = Box::new(alloc, state)?;
                Ok(Reached::New(state, network))
            }
        }
    }

    /// The state after an action, if its precondition holds: it is written out.
    fn acted(
        &self,
        before: &BitState,
        action: &CompiledAction,
    ) -> Result<Option<BitState>, AllocError>
        requires table { IsTable self.now.atoms }
        requires compiled { (model : ModelAction) × IsCompiled self.now.atoms action.now model }
        requires set { IsSetOf self.now.atoms before.now }
        ensures set { IfOk result (λ o. IfSome o (IsSetOf self.now.atoms)) }
        ensures leads { IfOk result (λ o. (model : ModelAction) → IsCompiled self.now.atoms action.now model
            → option_map (state_of self.now.atoms) o ≡ perform_action (state_of self.now.atoms before.now) (Some model)) }
    {
        if !action.applies(before) {
            return Ok(None);
        }
        let after = action.after(before)?;
        Ok(Some(after))
    }
}

/// The configuration that is expanded.
#[derive(Clone, Copy)]
struct Site<'a> {
    tables: &'a Tables,
    /// The rank of the configuration.
    rank: usize,
    from: Configuration,
    /// The state of its number.
    before: &'a BitState,
    /// Successors with more steps left than this are dropped.
    horizon: Horizon,
}

// The entry of a successor list for the successor by a number, with a lower bound on the steps that are left of it.
fn measured(site: &Site, number: usize, configuration: Reached, left: u64) -> Measured<Reached>
    ensures { result ≡ record {
      successor = record { origin = Step site.now.rank number; configuration = configuration };
      left = left;
    } }
{
    let origin = Origin::Step {
        parent: site.rank,
        number: number as u64,
    };
    let successor = Successor {
        origin,
        configuration,
    };
    Measured { successor, left }
}

// Whether a number of steps is greater than the horizon's, if it has one.
fn is_past(horizon: Horizon, left: u64) -> bool
    ensures past { result ≡ true → (most : ℕ) × (horizon.most_left ≡ Some most) × (most < left) }
    ensures within { result ≡ false → ((most : ℕ) × (horizon.most_left ≡ Some most) × (most < left)) → ⊥ }
{
    let Some(most) = horizon.most_left else {
        return false;
    };
    left > most
}

impl<'a> TaskMachine<'a> {
    /// A lower bound on the steps that are left of a configuration, by a measure.
    fn left_in(&self, tables: &Tables, state: &BitState, network: u32, measure: Measure) -> u64
        requires own { AreOwned self.now.task.now self.now.sizes self.now.prospects tables.now }
        requires known { Knows tables.now.networks network }
        requires belongs { BelongsTo self.now.task.now self.now.prospects (config_in tables.now state.now network) }
        ensures { result ≡ left_by self.now.task.now self.now.sizes self.now.prospects measure
            (config_in tables.now state.now network) }
    {
        match measure {
            Measure::OpenNodes => tables.networks.open_len(network),
            Measure::LowerBound => tables.lower_bound(state, network),
        }
    }

    /// Adds the successor by a number that leads to another network in the same state, unless it is beyond the horizon.
    /// If it is done, it says so: nobody reads the list then.
    #[inline(always)]
    fn add_known(
        &self,
        site: &Site,
        number: usize,
        network: u32,
        successors: &mut Vec<Measured<Reached>>,
    ) -> Result<bool, AllocError>
        requires own { AreOwned self.now.task.now self.now.sizes self.now.prospects site.now.tables.now }
        requires site { IsSite self.now.task.now self.now.prospects site.now }
        requires known { Knows site.now.tables.now.networks network }
        requires leads { LeadsTo self.now.task.now site.now number (Some (point_at site.now network)) }
        ensures taken { IfOk result (λ is_done. Takes self.now.task.now self.now.sizes self.now.prospects site.now number
            is_done successors.old.items successors.new.items) }
        ensures refused { OnErr result (successors.new.items ≡ successors.old.items) }
    {
        let tables = site.tables;
        if tables.is_finished(site.before, network) {
            return Ok(true);
        }
        let left = self.left_in(tables, site.before, network, site.horizon.measure);
        if is_past(site.horizon, left) {
            return Ok(false);
        }
        let configuration = Reached::Known(site.from.state, network);
        successors.push(measured(site, number, configuration, left))?;
        Ok(false)
    }

    /// Adds the successor by a number that leads to this state and network, unless it is beyond the horizon. If it is
    /// done, it says so: nobody reads the list then.
    fn add_new(
        &self,
        site: &Site,
        number: usize,
        state: BitState,
        network: u32,
        successors: &mut Vec<Measured<Reached>>,
    ) -> Result<bool, AllocError>
        requires own { AreOwned self.now.task.now self.now.sizes self.now.prospects site.now.tables.now }
        requires site { IsSite self.now.task.now self.now.prospects site.now }
        requires set { IsSetOf site.now.tables.now.atoms state }
        requires known { Knows site.now.tables.now.networks network }
        requires leads { LeadsTo self.now.task.now site.now number (Some (config_in site.now.tables.now state network)) }
        ensures taken { IfOk result (λ is_done. Takes self.now.task.now self.now.sizes self.now.prospects site.now number
            is_done successors.old.items successors.new.items) }
        ensures refused { OnErr result (successors.new.items ≡ successors.old.items) }
    {
        let tables = site.tables;
        if tables.is_finished(&state, network) {
            return Ok(true);
        }
        let left = self.left_in(tables, &state, network, site.horizon.measure);
        if is_past(site.horizon, left) {
            return Ok(false);
        }
        let configuration = tables.looked_up(*successors.allocator(), state, network)?;
        successors.push(measured(site, number, configuration, left))?;
        Ok(false)
    }

    /// Adds the successor by a number that performs a free node, if its literals hold and it is not beyond the horizon.
    /// If it is done, it says so: nobody reads the list then.
    fn add_performed(
        &self,
        site: &Site,
        number: usize,
        removal: &Removal,
        successors: &mut Vec<Measured<Reached>>,
    ) -> Result<bool, AllocError>
        requires own { AreOwned self.now.task.now self.now.sizes self.now.prospects site.now.tables.now }
        requires site { IsSite self.now.task.now self.now.prospects site.now }
        requires leads { LeadsBy self.now.task.now site.now number removal.now }
        ensures taken { IfOk result (λ is_done. Takes self.now.task.now self.now.sizes self.now.prospects site.now number
            is_done successors.old.items successors.new.items) }
        ensures refused { OnErr result (successors.new.items ≡ successors.old.items) }
    {
        let network = removal.network;
        let Some(performer) = &site.tables.performers[removal.node as usize] else {
            unreachable!()
        };
        match performer {
            Performer::Step(literals) => {
                if !literals.hold(site.before) {
                    return Ok(false);
                }
                self.add_known(site, number, network, successors)
            }
            Performer::Action(action) => {
                let Some(after) = site.tables.acted(site.before, action)? else {
                    return Ok(false);
                };
                self.add_new(site, number, after, network, successors)
            }
            Performer::Never => Ok(false),
        }
    }

    /// Adds the successors by all ranks of a network that is decomposed into these networks. If one is done, it returns
    /// the least number that leads to a done one.
    fn add_decomposed(
        &self,
        site: &Site,
        networks: &[u32],
        successors: &mut Vec<Measured<Reached>>,
    ) -> Result<Option<u64>, AllocError>
        requires own { AreOwned self.now.task.now self.now.sizes self.now.prospects site.now.tables.now }
        requires site { IsSite self.now.task.now self.now.prospects site.now }
        requires known { (number network : ℕ) → slice_get networks.now number ≡ Some network
            → Knows site.now.tables.now.networks network }
        requires leads { (number network : ℕ) → slice_get networks.now number ≡ Some network
            → LeadsTo self.now.task.now site.now number (Some (point_at site.now network)) }
        ensures taken { IfOk result (AreTaken self.now.task.now self.now.sizes self.now.prospects site.now
            (length networks.now) successors.old.items successors.new.items) }
        ensures refused { OnErr result ((more : List (Measured Reached))
            × (successors.new.items ≡ successors.old.items ++ more)) }
    {
        for number in 0..networks.len() {
            if self.add_known(site, number, networks[number], successors)? {
                return Ok(Some(number as u64));
            }
        }
        Ok(None)
    }

    /// Adds the successors by all ranks of a network without a free compound task, one for each free node. If one is
    /// done, it returns the least number that leads to a done one.
    fn add_removed(
        &self,
        site: &Site,
        removals: &[Removal],
        successors: &mut Vec<Measured<Reached>>,
    ) -> Result<Option<u64>, AllocError>
        requires own { AreOwned self.now.task.now self.now.sizes self.now.prospects site.now.tables.now }
        requires site { IsSite self.now.task.now self.now.prospects site.now }
        requires leads { (number : ℕ) (removal : Removals) → slice_get removals.now number ≡ Some removal
            → LeadsBy self.now.task.now site.now number removal }
        ensures taken { IfOk result (AreTaken self.now.task.now self.now.sizes self.now.prospects site.now
            (length removals.now) successors.old.items successors.new.items) }
        ensures refused { OnErr result ((more : List (Measured Reached))
            × (successors.new.items ≡ successors.old.items ++ more)) }
    {
        for number in 0..removals.len() {
            if self.add_performed(site, number, &removals[number], successors)? {
                return Ok(Some(number as u64));
            }
        }
        Ok(None)
    }

    /// Adds the successors of a configuration in the order of their ranks, each with this rank for its parent's and
    /// with how many steps are left of it at least by the horizon's measure, without those beyond the horizon. If one
    /// is done, it returns the least number that leads to a done one.
    pub(crate) fn add_successors(
        &self,
        tables: &Tables,
        rank: usize,
        from: Configuration,
        horizon: Horizon,
        successors: &mut Vec<Measured<Reached>>,
    ) -> Result<Option<u64>, AllocError>
        requires own { AreOwned self.now.task.now self.now.sizes self.now.prospects tables.now }
        requires known { knows tables.now from }
        requires belongs { BelongsTo self.now.task.now self.now.prospects (point tables.now from) }
        requires ready { IsSome (expansion_at tables.now.networks from.network) }
        ensures whole { IfOk result (λ done. IfNone done ((more : List (Measured Reached))
            × (successors.new.items ≡ successors.old.items ++ more)
            × AreSuccessors (listing_machine self.now.task.now) (meaning tables.now)
            (lies_beyond self.now.task.now self.now.sizes self.now.prospects horizon) rank from (successors_of more)
            × AreMeasured (left_by self.now.task.now self.now.sizes self.now.prospects horizon.measure)
            (meaning tables.now) more)) }
        ensures done { IfOk result (λ done. IfSome done (IsLeastDone
            (IsLiveStep (listing_machine self.now.task.now)) (IsDone (listing_machine self.now.task.now))
            (point tables.now from))) }
        ensures refused { OnErr result ((more : List (Measured Reached))
            × (successors.new.items ≡ successors.old.items ++ more)) }
    {
        let Some(expansion) = tables.networks.expansion(from.network) else {
            unreachable!()
        };
        let site = Site {
            tables,
            rank,
            from,
            before: &tables.states.states()[from.state as usize],
            horizon,
        };
        match expansion {
            Expansion::Decomposed(_, networks) => self.add_decomposed(&site, networks, successors),
            Expansion::Performed(removals) => self.add_removed(&site, removals, successors),
        }
    }
}
