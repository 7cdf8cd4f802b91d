//! The word machine of a planning task, by numbers.
ghost use Rattle.std.specs.Prelude.{◌≡◌, IfOk};
ghost use Rattle.htn_model.specs.Grounding.{problem_of};
ghost use Rattle.htn_model.specs.Problem.{IsGrounded};
ghost use Rattle.htn_walk.specs.Grounded.{grounded-prop};
ghost use Rattle.htn_walk.specs.Listed.{listing_machine};
ghost use Rattle.heuristics.specs.Prospects.{ProspectsHold};
ghost use Rattle.task_machine.specs.Bounds.{measure-prop, most_steps, prospects-prop};
ghost use Rattle.task_graph.specs.Graph.{IsGraph};
ghost use Rattle.heuristics.specs.Measure.{IsLowerMeasure};
ghost use Rattle.heuristics.specs.Sizes.{size_of};

use crate::configuration::{Configuration, Reached};
use crate::tables::Tables;
use heuristics::{Prospects, TreeSizes};
use htn_task::Task;
use std::alloc::{AllocError, Global};
use std::thread::Threads;
use task_graph::TaskGraph;
use word_machine::{Horizon, Machine, Measured};

/// The word machine of a task as a search takes it: from a configuration a rank leads to the next
/// one. Of instances with equal networks only the first is listed, and so no number is counted.
/// By the sizes of open nodes, by what their network needs and by what is reached, it bounds how many steps are left.
pub struct TaskMachine<'a> {
    pub task: &'a Task,
    pub(crate) alloc: Global,
    sizes: TreeSizes,
    prospects: Prospects,
    ghost grounded: { IsGrounded (problem_of task.now) } by { grounded-prop (problem_of task.now) },
    ghost measured: { IsLowerMeasure (problem_of task.now) (size_of sizes) } by { measure-prop (problem_of task.now) (size_of sizes) },
    ghost known: { ProspectsHold (problem_of task.now) (listing_machine task.now).initials (size_of sizes) most_steps prospects } by { prospects-prop (problem_of task.now) (listing_machine task.now).initials (size_of sizes) prospects },
}

impl Drop for TaskMachine<'_> {
    fn drop(self) {
        let TaskMachine {
            task: _,
            alloc: _,
            sizes: _,
            prospects: _,
        } = self;
    }
}

impl<'a> TaskMachine<'a> {
    /// The word machine of a task, with the sizes and the needs of the nodes of its graph.
    pub fn new(
        alloc: Global,
        task: &'a Task,
        graph: TaskGraph,
    ) -> Result<TaskMachine<'a>, AllocError>
        requires { IsGraph task.now graph }
        ensures { IfOk result (λ m. m.task.now ≡ task.now) }
    {
        let _initial = task.initial_atoms();
        let prospects = Prospects::of(alloc, task, &graph)?;
        let sizes = TreeSizes::of(alloc, graph)?;
        Ok(TaskMachine {
            task,
            alloc,
            sizes,
            prospects,
        })
    }

    /// The least sizes of the task's nodes, by its graph.
    pub fn sizes(&self) -> &TreeSizes
        ensures { IsLowerMeasure (problem_of self.now.task.now) (size_of result.now) }
    {
        &self.sizes
    }
}

impl<'a> Machine for TaskMachine<'a> {
    ghost use Rattle.std.specs.Prelude.{IsSome};
    ghost use Rattle.std.proofs.Common.{rules};
    ghost use Rattle.htn_model.specs.Grounding.{problem_of};
    ghost use Rattle.htn_model.specs.Machine.{Config};
    ghost use Rattle.htn_walk.specs.Listed.{listing_machine};
    ghost use Rattle.network_table.specs.Networks.{expansion_at};
    ghost use Rattle.heuristics.specs.Prospects.{prospects_bound};
    ghost use Rattle.task_machine.specs.Bounds.{BelongsTo, bounded, belonging_lawful, most_steps};
    ghost use Rattle.task_machine.specs.Laws.{one_to_one};
    ghost use Rattle.task_machine.specs.Meaning.{meaning};
    ghost use Rattle.task_machine.specs.Owned.{AreOwned};
    ghost use Rattle.heuristics.specs.Sizes.{size_of};

    type Configuration = Configuration;

    type Reached = Reached;

    type Tables = Tables;

    ghost Point = { Config };

    ghost words = { λ m. listing_machine m.task.now };

    ghost belongs = { λ m c. BelongsTo m.task.now m.prospects c };

    ghost estimate = { λ m c. prospects_bound (problem_of m.task.now) (size_of m.sizes) most_steps m.prospects c };

    ghost meaning = { λ m t. meaning t };

    ghost owns = { λ m t. AreOwned m.task.now m.sizes m.prospects t };

    ghost is_ready = { λ m t c. IsSome (expansion_at t.networks c.network) };

    ghost same = { λ c d e. Prim.search rules };

    ghost one_to_one = { λ m t own. one_to_one m.task.now t own.tables };

    ghost lawful = { λ m. belonging_lawful m.task.now (size_of m.sizes) m.prospects m.grounded m.known };

    ghost bounded = { λ m. bounded m.task.now (prospects_bound (problem_of m.task.now) (size_of m.sizes) most_steps m.prospects) m.known.bound };

    fn new_tables(&self) -> Result<Tables, AllocError> {
        let tables = Tables::new(self.alloc, self.task)?;
        Ok(tables)
    }

    fn initials(&self, tables: &mut Tables) -> Result<Vec<Configuration>, AllocError> {
        let initials = tables.initials(self.alloc, self.task, &self.sizes)?;
        tables.prepare_needs(self.alloc, &self.prospects)?;
        Ok(initials)
    }

    fn prepare_all<R: Threads + Sync>(
        &self,
        rt: &R,
        tables: &mut Tables,
        at: &[Configuration],
        workers: usize,
    ) -> Result<(), AllocError> {
        tables.prepare_all(
            rt,
            self.alloc,
            self.task,
            &self.sizes,
            &self.prospects,
            at,
            workers,
        )
    }

    fn expand(
        &self,
        tables: &Tables,
        rank: usize,
        from: Configuration,
        horizon: Horizon,
        successors: &mut Vec<Measured<Reached>>,
    ) -> Result<Option<u64>, AllocError> {
        self.add_successors(tables, rank, from, horizon, successors)
    }

    fn keep(&self, tables: &mut Tables, reached: Reached) -> Result<Configuration, AllocError> {
        match reached {
            Reached::Known(state, network) => Ok(Configuration { state, network }),
            Reached::New(state, network) => {
                let words = Box::into_inner(state);
                let state = tables.states.keep(words)?;
                Ok(Configuration { state, network })
            }
        }
    }

    fn find(&self, tables: &Tables, reached: &Reached) -> Option<Configuration> {
        match reached {
            Reached::Known(state, network) => Some(Configuration {
                state: *state,
                network: *network,
            }),
            Reached::New(state, network) => {
                let state = tables.states.number_of(&**state)?;
                Some(Configuration {
                    state,
                    network: *network,
                })
            }
        }
    }

    fn is_done(&self, tables: &Tables, at: Configuration) -> bool {
        let states = tables.states.states();
        tables.is_finished(&states[at.state as usize], at.network)
    }

    fn open_len(&self, tables: &Tables, at: Configuration) -> u64 {
        tables.networks.open_len(at.network)
    }

    fn lower_bound(&self, tables: &Tables, at: Configuration) -> u64 {
        let states = tables.states.states();
        tables.lower_bound(&states[at.state as usize], at.network)
    }
}
