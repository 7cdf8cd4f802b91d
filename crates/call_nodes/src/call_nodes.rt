//! Nodes by number, and what each does.
ghost use Rattle.std.specs.Prelude.{◌≡◌, ◌<◌, ◌++◌, ℕ, [], IfNone, IfOk, IfSome, IsTrue, List, None, OnOk, Some, length, option_map, slice_get};
ghost use Rattle.call_nodes.specs.Nodes.{AreListsOf, AreMore, AreNodes, AreNumbersOf, IsOperator, LeadsTo, children, state_at};
ghost use Rattle.call_table.specs.Lists.{list_at};
ghost use Rattle.htn_calls.specs.Ordered.{ordered};
ghost use Rattle.htn_ground.specs.Distinct.{distinct, live_methods};
ghost use Rattle.htn_ground.specs.Views.{child_view, children_of};
ghost use Rattle.htn_model.specs.Grounding.{problem_of};
ghost use Rattle.htn_model.specs.Instances as instances;
ghost use Rattle.htn_model.specs.Literal.{holds};
ghost use Rattle.htn_model.specs.Problem as model;
ghost use Rattle.htn_model.specs.Task as tasks;
ghost use Rattle.state_table.specs.Table.{IsSetOf, state_of};
ghost use Rattle.heuristics.specs.Measure.{IsLowerMeasure};
ghost use Rattle.heuristics.specs.Sizes.{size_of};

use crate::list_table::ListTable;
use crate::operator::{Operator, operator_of};
use call_table::BlockLists;
use heuristics::TreeSizes;
use htn_ground::{Child, Instance, distinct_initials, distinct_live_methods_of, goal_literals};
use htn_order::Order;
use htn_task::Task;
use indexmap::IndexSet;
use state_table::{AtomTable, BitState, CompiledLiterals, StateTable, initial_state};
use std::alloc::{AllocError, Global};

/// The states and the nodes of a task that were met, by number, with what each node does, and lists of nodes.
pub struct CallNodes<'a> {
    atoms: AtomTable,
    goal: CompiledLiterals,
    states: StateTable,
    sizes: &'a TreeSizes,
    nodes: IndexSet<Child>,
    /// By node.
    operators: Vec<Operator>,
    lists: ListTable,
}

impl Drop for CallNodes<'_> {
    fn drop(self) {
        let CallNodes {
            atoms: _,
            goal: _,
            states: _,
            sizes: _,
            nodes: _,
            operators: _,
            lists: _,
        } = self;
    }
}

/// Whether each node of an instance is before all later ones.
fn is_ordered(instance: &Instance) -> bool
    ensures { IsTrue result → instance.now.network ≡ ordered instance.now.network.children }
{
    *instance.order() == Order::chain(instance.children().len())
}

impl<'a> CallNodes<'a> {
    /// Nothing of a task is met yet but its initial state and the atoms of its goal. The sizes are how many steps the
    /// nodes take at least.
    pub fn new(
        alloc: Global,
        task: &Task,
        sizes: &'a TreeSizes,
    ) -> Result<CallNodes<'a>, AllocError>
        requires { IsLowerMeasure (problem_of task.now) (size_of sizes.now) }
        ensures own { IfOk result (AreNodes task.now) }
        ensures none { IfOk result (λ n. children n ≡ []) }
    {
        let fluents = Vec::from_slice(alloc, task.fluents())?;
        let initial = task.initial_atoms();
        let mut atoms = AtomTable::new(alloc, fluents, initial)?;
        let start = initial_state(alloc, &mut atoms, initial)?;
        let mut states = StateTable::new(alloc);
        states.keep(start)?;
        let literals = goal_literals(alloc, task)?;
        let goal = CompiledLiterals::of(alloc, &mut atoms, literals.as_slice())?;
        Ok(CallNodes {
            atoms,
            goal,
            states,
            sizes,
            nodes: IndexSet::new(alloc),
            operators: Vec::new(alloc),
            lists: ListTable::new(alloc),
        })
    }

    /// The states in the order of their numbers. The first is the initial one.
    pub fn states(&self) -> &[BitState]
        ensures { result.now ≡ self.now.states }
    {
        self.states.states()
    }

    /// The number of a state, if it has one.
    pub fn number_of(&self, state: &BitState) -> Option<u32>
        ensures { IfSome result (λ k. slice_get self.now.states k ≡ Some state.now) }
    {
        self.states.number_of(state)
    }

    /// Whether the goal holds in a state. It takes no memory.
    pub fn is_goal(&self, state: &BitState) -> bool
        ensures { (t : tasks.Task) → AreNodes t self.now
            → result ≡ holds (state_of self.now.atoms state.now) (problem_of t).goal }
    {
        self.goal.hold(state)
    }

    /// The atoms by number.
    pub fn atoms(&self) -> &AtomTable
        ensures { result.now ≡ self.now.atoms }
    {
        &self.atoms
    }

    /// The nodes in the order of their numbers.
    pub fn nodes(&self) -> &[Child]
        ensures { children_of result.now ≡ children self.now }
    {
        self.nodes.as_slice()
    }

    /// The lists of nodes, and the size of each node.
    pub fn lists(&self) -> &BlockLists
        ensures value { result.now ≡ self.now.lists }
        ensures empty { list_at self.now.lists 0 ≡ [] }
    {
        self.lists.lists()
    }

    /// What a node does; none where no node has the number.
    pub fn operator(&self, node: u32) -> Option<&Operator>
        ensures some { IfSome result (λ o. (t : tasks.Task) → AreNodes t self.now
            → (x : model.Child) × (slice_get (children self.now) node ≡ Some x)
            × IsOperator t self.now.atoms (children self.now) self.now.lists x o.now) }
        ensures none { IfNone result ((t : tasks.Task) → AreNodes t self.now → slice_get (children self.now) node ≡ None) }
    {
        self.operators.get(node as usize)
    }

    /// The state after a step or an action in the state of a number. None where it can't be performed there, for a
    /// compound task, and where nothing has one of the numbers.
    pub fn after(&self, node: u32, state: u32) -> Result<Option<BitState>, AllocError>
        ensures state { IfOk result (λ o. (t : tasks.Task) → AreNodes t self.now
            → LeadsTo t self.now node state (option_map (state_of self.now.atoms) o)) }
        ensures within { IfOk result (λ o. IfSome o (λ s. (t : tasks.Task) → AreNodes t self.now
            → IsSetOf self.now.atoms s)) }
    {
        let Some(before) = self.states.states().get(state as usize) else {
            return Ok(None);
        };
        let Some(operator) = self.operators.get(node as usize) else {
            return Ok(None);
        };
        let after = operator.after(before)?;
        Ok(after)
    }

    /// The number of the state after a step or an action in the state of a number, which it may get only now. None where
    /// [`CallNodes::after`] gives none.
    pub fn perform(&mut self, node: u32, state: u32) -> Result<Option<u32>, AllocError>
        ensures own { OnOk result ((t : tasks.Task) → AreNodes t self.old → AreNodes t self.new) }
        ensures more { OnOk result ((t : tasks.Task) → AreNodes t self.old → AreMore self.old self.new) }
        ensures known { IfOk result (λ o. IfSome o (λ i. i < length self.new.states)) }
        ensures state { IfOk result (λ o. (t : tasks.Task) → AreNodes t self.old
            → LeadsTo t self.old node state (option_map (state_at self.new) o)) }
    {
        let Some(after) = self.after(node, state)? else {
            return Ok(None);
        };
        let number = self.states.keep(after)?;
        Ok(Some(number))
    }

    /// The number of a state whose atoms have numbers, which it may get only now.
    pub fn keep_state(&mut self, state: BitState) -> Result<u32, AllocError>
        requires { IsSetOf self.old.atoms state }
        ensures own { OnOk result ((t : tasks.Task) → AreNodes t self.old → AreNodes t self.new) }
        ensures more { OnOk result ((t : tasks.Task) → AreNodes t self.old → AreMore self.old self.new) }
        ensures number { IfOk result (λ i. slice_get self.new.states i ≡ Some state) }
    {
        let number = self.states.keep(state)?;
        Ok(number)
    }

    /// Adds a node that has no number, and returns the one that it gets.
    fn add(&mut self, alloc: Global, task: &Task, node: &Child) -> Result<u32, AllocError>
        requires own { AreNodes task.now self.old }
        requires none { (k : ℕ) → slice_get (children self.old) k ≡ Some (child_view node.now) → ⊥ }
        ensures own { OnOk result (AreNodes task.now self.new) }
        ensures more { OnOk result (AreMore self.old self.new) }
        ensures number { IfOk result (λ n. slice_get (children self.new) n ≡ Some (child_view node.now)) }
    {
        let operator = operator_of(alloc, task, &mut self.atoms, node)?;
        let size = u64::from(self.sizes.size(node));
        self.nodes.insert(node.clone()?)?;
        self.operators.push(operator)?;
        let number = self.lists.add_node(size)?;
        Ok(number)
    }

    /// The number of a node, which it may get only now.
    pub fn keep(&mut self, alloc: Global, task: &Task, node: &Child) -> Result<u32, AllocError>
        requires { AreNodes task.now self.old }
        ensures own { OnOk result (AreNodes task.now self.new) }
        ensures more { OnOk result (AreMore self.old self.new) }
        ensures number { IfOk result (λ n. slice_get (children self.new) n ≡ Some (child_view node.now)) }
    {
        if let Some(place) = self.nodes.get_index_of(node) {
            let Ok(number) = u32::try_from(place) else {
                return Err(AllocError);
            };
            return Ok(number);
        }
        let number = self.add(alloc, task, node)?;
        Ok(number)
    }

    /// The number of the list of some nodes, which all may get their numbers only now.
    pub fn keep_list(
        &mut self,
        alloc: Global,
        task: &Task,
        nodes: &[Child],
    ) -> Result<u32, AllocError>
        requires { AreNodes task.now self.old }
        ensures own { OnOk result (AreNodes task.now self.new) }
        ensures more { OnOk result (AreMore self.old self.new) }
        ensures known { IfOk result (λ n. n < length self.new.lists.lists) }
        ensures nodes { IfOk result (λ n.
            AreNumbersOf (children self.new) (list_at self.new.lists n) (children_of nodes.now)) }
    {
        let mut numbers = Vec::with_capacity(alloc, nodes.len())?;
        for node in nodes {
            let number = self.keep(alloc, task, node)?;
            numbers.push(number)?;
        }
        let _empty = self.lists.lists();
        let list = self.lists.all_before(numbers, 0)?;
        Ok(list)
    }

    /// The lists of some instances, in their order; none where one of them is not totally ordered.
    fn keep_instances(
        &mut self,
        alloc: Global,
        task: &Task,
        instances: &[Instance],
    ) -> Result<Option<Vec<u32>>, AllocError>
        requires { AreNodes task.now self.old }
        ensures own { OnOk result (AreNodes task.now self.new) }
        ensures more { OnOk result (AreMore self.old self.new) }
        ensures lists { IfOk result (λ o. IfSome o (λ ls.
            AreListsOf (children self.new) self.new.lists ls.items instances.now)) }
    {
        let mut lists = Vec::with_capacity(alloc, instances.len())?;
        for instance in instances {
            if !is_ordered(instance) {
                return Ok(None);
            }
            let nodes = instance.children().as_slice();
            let list = self.keep_list(alloc, task, nodes)?;
            lists.push(list)?;
        }
        Ok(Some(lists))
    }

    /// The lists of the initial networks, in the order of their ranks; none where one of them is not totally ordered.
    pub fn starts(&mut self, alloc: Global, task: &Task) -> Result<Option<Vec<u32>>, AllocError>
        requires { AreNodes task.now self.old }
        ensures own { OnOk result (AreNodes task.now self.new) }
        ensures more { OnOk result (AreMore self.old self.new) }
        ensures lists { IfOk result (λ o. IfSome o (λ ls.
            AreListsOf (children self.new) self.new.lists ls.items (distinct (instances.initials task.now)))) }
    {
        let initials = distinct_initials(alloc, task)?;
        let lists = self.keep_instances(alloc, task, &initials)?;
        Ok(lists)
    }

    /// What a compound task does that has these instances.
    fn operator_by(
        &mut self,
        alloc: Global,
        task: &Task,
        instances: &[Instance],
    ) -> Result<Operator, AllocError>
        requires { AreNodes task.now self.old }
        ensures own { OnOk result (AreNodes task.now self.new) }
        ensures more { OnOk result (AreMore self.old self.new) }
        ensures operator { IfOk result (λ o. (g : model.GroundTask) → instances.now ≡ distinct (live_methods task.now g)
            → IsOperator task.now self.new.atoms (children self.new) self.new.lists (model.task g) o) }
    {
        match self.keep_instances(alloc, task, instances)? {
            Some(lists) => Ok(Operator::Task(lists)),
            None => Ok(Operator::Partly),
        }
    }

    /// Notes what a node does.
    fn note(&mut self, place: usize, operator: Operator)
        ensures own { (t : tasks.Task) (x : model.Child) → AreNodes t self.old → slice_get (children self.old) place ≡ Some x
            → IsOperator t self.old.atoms (children self.old) self.old.lists x operator → AreNodes t self.new }
        ensures more { (t : tasks.Task) → AreNodes t self.old → AreMore self.old self.new }
    {
        if place < self.operators.len() {
            self.operators[place] = operator;
        }
    }

    /// Sees that the instances of a node are listed, if it is a compound task.
    pub fn list_task(&mut self, alloc: Global, task: &Task, node: u32) -> Result<(), AllocError>
        requires { AreNodes task.now self.old }
        ensures own { OnOk result (AreNodes task.now self.new) }
        ensures more { OnOk result (AreMore self.old self.new) }
    {
        let place = node as usize;
        let Some(Operator::Unlisted) = self.operators.get(place) else {
            return Ok(());
        };
        let Some(Child::Task(goal)) = self.nodes.get_index(place) else {
            return Ok(());
        };
        let instances = distinct_live_methods_of(alloc, task, goal)?;
        let operator = self.operator_by(alloc, task, &instances)?;
        self.note(place, operator);
        Ok(())
    }

    /// The number of the nodes of one list before those of another, which it may get only now.
    pub fn append(&mut self, alloc: Global, front: u32, rest: u32) -> Result<u32, AllocError>
        ensures own { OnOk result ((t : tasks.Task) → AreNodes t self.old → AreNodes t self.new) }
        ensures more { OnOk result ((t : tasks.Task) → AreNodes t self.old → AreMore self.old self.new) }
        ensures list { IfOk result (λ n.
            list_at self.new.lists n ≡ list_at self.old.lists front ++ list_at self.old.lists rest) }
        ensures known { IfOk result (λ n. n < length self.new.lists.lists) }
    {
        let list = self.lists.append(alloc, front, rest)?;
        Ok(list)
    }

    /// The number of the nodes of one list before those of another. None where it has no number.
    pub fn appended(&self, alloc: Global, front: u32, rest: u32) -> Result<Option<u32>, AllocError>
        ensures { IfOk result (λ o. IfSome o (λ n.
            list_at self.now.lists n ≡ list_at self.now.lists front ++ list_at self.now.lists rest)) }
    {
        let list = self.lists.appended(alloc, front, rest)?;
        Ok(list)
    }
}
