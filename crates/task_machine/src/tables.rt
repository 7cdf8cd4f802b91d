//! The tables of a search: atoms, states and networks by number, with what is derived from them.
ghost use Rattle.std.specs.Prelude.{◌≡◌, ◌<◌, [], IfOk, length};
ghost use Rattle.htn_model.specs.Grounding.{problem_of};
ghost use Rattle.htn_model.specs.Levels.{is_done};
ghost use Rattle.htn_model.specs.Task as model;
ghost use Rattle.htn_model.specs.State.{State};
ghost use Rattle.heuristics.specs.Prospects.{outlook_by};
ghost use Rattle.heuristics.specs.declared.prospects.Prospects.{Prospects};
ghost use Rattle.network_table.specs.Networks.{IsWhole, Knows, network_at};
ghost use Rattle.network_table.specs.Numbered.{config_at};
ghost use Rattle.task_machine.specs.Bounds.{bound_by, most_steps};
ghost use Rattle.task_machine.specs.Owned.{AreOwned, HasSizes};
ghost use Rattle.task_machine.specs.Meaning.{config_in};
ghost use Rattle.task_machine.specs.Tables.{AreTables};
ghost use Rattle.heuristics.specs.Measure.{estimate};
ghost use Rattle.heuristics.specs.Sizes.{size_of};
ghost use Rattle.heuristics.specs.declared.tree_sizes.TreeSizes.{TreeSizes};

use crate::listing::Listing;
use crate::performer::Performer;
use heuristics::NeedsTable;
use htn_ground::goal_literals;
use htn_task::Task;
use network_table::NetworkTable;
use state_table::{AtomTable, BitState, CompiledLiterals, StateTable};
use std::alloc::{AllocError, Global};

/// The most steps that a plan may have. The bound by the sizes of nodes is capped there.
const MOST_STEPS: u64 = 10_000;

/// More steps than any plan may have.
const OUT_OF_REACH: u64 = 10_001;

/// The atoms, states and task networks that a search has met, by number, and what is stored beside them.
pub struct Tables {
    pub(crate) atoms: AtomTable,
    pub(crate) states: StateTable,
    pub(crate) networks: NetworkTable,
    pub(crate) goal: CompiledLiterals,
    /// By the number of a step's or an action's node, once it was free.
    pub(crate) performers: Vec<Option<Performer>>,
    /// By the number of a compound task's node, once it was the first free one: its instances that are
    /// listed.
    pub(crate) instances: Vec<Option<Listing>>,
    /// By the number of a network, what it needs from the start.
    pub(crate) needs: NeedsTable,
}

impl Drop for Tables {
    fn drop(self) {
        let Tables {
            atoms: _,
            states: _,
            networks: _,
            goal: _,
            performers: _,
            instances: _,
            needs: _,
        } = self;
    }
}

impl Tables {
    /// The tables of a task, of which nothing has a number yet but the fluent atoms of the goal.
    pub(crate) fn new(alloc: Global, task: &Task) -> Result<Tables, AllocError>
        ensures own { IfOk result (AreTables task.now) }
        ensures sized { IfOk result (λ t. (sizes : TreeSizes) → HasSizes sizes t.networks) }
        ensures goal { IfOk result (λ t. t.needs.goal ≡ (problem_of task.now).goal) }
        ensures none { IfOk result (λ t. (t.needs.needs.items ≡ []) × (t.networks.networks ≡ [])) }
        ensures nothing_noted { IfOk result (λ t. (t.needs.nodes.items ≡ []) × (t.needs.goals.items ≡ [])
            × (t.needs.lists.items ≡ [])) }
    {
        let fluents = Vec::from_slice(alloc, task.fluents())?;
        let mut atoms = AtomTable::new(alloc, fluents, task.initial_atoms())?;
        let literals = goal_literals(alloc, task)?;
        let goal = CompiledLiterals::of(alloc, &mut atoms, literals.as_slice())?;
        let networks = NetworkTable::new(alloc)?;
        Ok(Tables {
            atoms,
            states: StateTable::new(alloc),
            networks,
            goal,
            performers: Vec::new(alloc),
            instances: Vec::new(alloc),
            needs: NeedsTable::new(alloc, literals),
        })
    }

    /// Whether a network has no node and the goal holds in a state. It takes no memory.
    pub(crate) fn is_finished(&self, state: &BitState, network: u32) -> bool
        requires whole { IsWhole self.now.networks }
        requires known { Knows self.now.networks network }
        ensures { (t : model.Task) → AreTables t self.now
            → result ≡ is_done (problem_of t) (config_in self.now state.now network) }
    {
        self.networks.open_len(network) == 0 && self.goal.hold(state)
    }

    /// How many steps a network takes at least, by the sizes of its nodes: at least one for each.
    fn least_steps(&self, network: u32) -> u64
        requires whole { IsWhole self.now.networks }
        requires known { Knows self.now.networks network }
        ensures { (sizes : TreeSizes) (state : State) → HasSizes sizes self.now.networks
            → result ≡ estimate (size_of sizes) most_steps (config_at state (network_at self.now.networks network)) }
    {
        let open_len = self.networks.open_len(network);
        let bound = self.networks.bound(network);
        open_len.max(bound.min(MOST_STEPS))
    }

    /// A lower bound on the steps that are left: the steps of the network, and more than any plan may have where a
    /// literal that the network needs is false in the state.
    pub(crate) fn lower_bound(&self, state: &BitState, network: u32) -> u64
        requires whole { IsWhole self.now.networks }
        requires known { Knows self.now.networks network }
        requires needed { network < length self.now.needs.needs.items }
        ensures { (t : model.Task) (sizes : TreeSizes) (known : Prospects) → AreOwned t sizes known self.now
            → result ≡ bound_by (problem_of t) (size_of sizes) (outlook_by known) (config_in self.now state.now network) }
    {
        let least = self.least_steps(network);
        if self.needs.may_end(network, state) {
            return least;
        }
        least.max(OUT_OF_REACH)
    }
}
