//! The current configuration of a walk.
ghost use Rattle.std.specs.Prelude.{◌≡◌, ◌<◌, ℕ, Contains, IfOk, IfSome, IsSome, None, Some, false, length, reverse};
ghost use Rattle.std.specs.Arc.{arc_value};
ghost use Rattle.std.specs.Option.{option_map};
ghost use Rattle.htn_ground.specs.Views.{child_view, children_of};
ghost use Rattle.htn_model.specs.Choice.{child_of, first_free_compound};
ghost use Rattle.htn_model.specs.Grounding.{problem_of};
ghost use Rattle.htn_model.specs.Instances.{initials};
ghost use Rattle.htn_model.specs.Machine as machine;
ghost use Rattle.htn_model.specs.Machine.{choose, result_of, start};
ghost use Rattle.htn_model.specs.Problem.{is_before, is_compound, perform, task};
ghost use Rattle.htn_walk.specs.Choices.{IsChosen, chosen_of};

use crate::change::Change;
use htn_ground::{Child, GroundTask, Instance, action_of};
use htn_order::Order;
use htn_task::{State, Task};
use std::alloc::{AllocError, Global};
use std::marker::Model;
use std::sync::Arc;

/// A configuration that is consumed by a step. The step copies no open node, and does not move those after the node
/// that it replaces.
#[derive(Drop)]
pub struct Front {
    state: Arc<State>,
    /// The open nodes, from the last to the first.
    nodes: Vec<Child>,
    order: Order,
}

impl Model for Front {
    ghost use Rattle.std.specs.Prelude.{◌≡◌, length, reverse};
    ghost use Rattle.htn_ground.specs.Views.{children_of};
    ghost use Rattle.htn_model.specs.Machine as model;

    ghost Value = { model.Config };

    ghost coded = { model.config_code };

    ghost view = { λ f. record {
      state = f.state.value;
      open_nodes = children_of (reverse f.nodes.items);
      order = f.order;
    } };

    ghost invariant = { λ f. length f.order ≡ length f.nodes.items };
}

/// The nodes of a network from the last to the first.
fn reversed(alloc: Global, children: &[Child]) -> Result<Vec<Child>, AllocError>
    ensures { IfOk result (λ nodes. reverse nodes.items ≡ children.now) }
{
    let mut nodes = Vec::from_clones(alloc, children)?;
    nodes.reverse();
    Ok(nodes)
}

/// The state after a step or an action whose literals hold.
fn performed(
    alloc: Global,
    task: &Task,
    state: &Arc<State>,
    node: &Child,
) -> Result<Arc<State>, AllocError>
    requires { IsSome (perform (problem_of task.now) (arc_value state.now) (child_view node.now)) }
    ensures state { IfOk result (λ s. perform (problem_of task.now) (arc_value state.now) (child_view node.now)
        ≡ Some (arc_value s)) }
    ensures primitive { is_compound (child_view node.now) ≡ false }
{
    match node {
        Child::Precondition(_) => Arc::try_clone(state),
        Child::Action(goal) => {
            let Some(action) = action_of(alloc, task, goal)? else {
                unreachable!()
            };
            let after = Arc::new(alloc, state.after(&action)?)?;
            Ok(after)
        }
        Child::Task(_) => unreachable!(),
    }
}

impl Front {
    /// The initial configuration of an instance of the initial network.
    pub fn start(alloc: Global, task: &Task, initial: &Instance) -> Result<Front, AllocError>
        requires { Contains (initials task.now) initial.now }
        ensures { IfOk result (λ front. front ≡ start (problem_of task.now) initial.now.network) }
    {
        let state = Arc::new(alloc, task.initial_atoms().clone()?)?;
        let nodes = reversed(alloc, initial.children().as_slice())?;
        let order = initial.order().clone()?;
        Ok(Front {
            state,
            nodes,
            order,
        })
    }

    /// The open node at a position.
    fn node_at(&self, position: usize) -> &Child
        requires { position < length self.now.open_nodes }
        ensures { child_view result.now ≡ child_of self.now.open_nodes position }
    {
        &self.nodes[self.nodes.len() - 1 - position]
    }

    /// The first free compound task, with its position.
    pub fn first_free_task(&self) -> Option<(usize, &GroundTask)>
        ensures position { option_map (λ p. p.0) result
            ≡ first_free_compound self.now.open_nodes (is_before self.now.order) }
        ensures goal { IfSome result (λ p. child_of self.now.open_nodes p.0 ≡ task p.1.now) }
    {
        let mut from = 0;
        while let Some(position) = self.order.next_free(from) {
            if let Child::Task(goal) = self.node_at(position) {
                return Some((position, goal));
            }
            from = position + 1;
        }
        None
    }

    /// The step or the action that a number chooses where no compound task is free, and the state after it.
    pub fn choose_free(
        &self,
        alloc: Global,
        task: &Task,
        number: u64,
    ) -> Result<(usize, Change), AllocError>
        requires none { first_free_compound self.now.open_nodes (is_before self.now.order) ≡ None }
        requires chosen { IsSome (choose (problem_of task.now) self.now number) }
        ensures { IfOk result (IsChosen task.now self.now number) }
    {
        let Some(position) = self.order.nth_free(number as usize) else {
            unreachable!()
        };
        let state = performed(alloc, task, &self.state, self.node_at(position))?;
        Ok((position, Change::Performed(state)))
    }

    /// The configuration where the open node at a position is replaced by a network, in this state, and that node.
    fn replaced(
        self,
        alloc: Global,
        position: usize,
        children: &[Child],
        inner: &Order,
        state: Arc<State>,
    ) -> Result<(Child, Front), AllocError>
        requires placed { position < length self.open_nodes }
        requires whole { length inner.now ≡ length children.now }
        ensures node { IfOk result (λ r. child_view r.0 ≡ child_of self.open_nodes position) }
        ensures front { IfOk result (λ r. r.1
            ≡ machine.replaced self position (record { children = children_of children.now; order = inner.now }) (arc_value state)) }
    {
        let order = self.order.replaced(alloc, position, inner)?;
        let mut nodes = self.nodes;
        let at = nodes.len() - 1 - position;
        let mut earlier = nodes.split_off(at + 1)?;
        let node = nodes.remove(at);
        let mut others = reversed(alloc, children)?;
        nodes.append(&mut others)?;
        nodes.append(&mut earlier)?;
        let front = Front {
            state,
            nodes,
            order,
        };
        Ok((node, front))
    }

    /// The configuration after a change of the open node at a position, and that node.
    pub fn after(
        self,
        alloc: Global,
        task: &Task,
        position: usize,
        change: &Change,
    ) -> Result<(Child, Front), AllocError>
        requires { (number : ℕ)
            × (choose (problem_of task.now) self number ≡ Some (chosen_of self (position, change.now))) }
        ensures node { IfOk result (λ r. child_view r.0 ≡ child_of self.open_nodes position) }
        ensures front { IfOk result (λ r. r.1 ≡ result_of self (chosen_of self (position, change.now))) }
    {
        let _initial = task.initial_atoms();
        match change {
            Change::Decomposed(instance) => {
                let state = Arc::try_clone(&self.state)?;
                let children = instance.children().as_slice();
                self.replaced(alloc, position, children, instance.order(), state)
            }
            Change::Performed(state) => {
                let state = Arc::try_clone(state)?;
                self.replaced(alloc, position, &[], &Order::empty(), state)
            }
        }
    }
}
