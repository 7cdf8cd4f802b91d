//! Configurations.
ghost use Rattle.std.specs.Prelude.{◌<◌, ◌≡◌, ◌&&◌, ◌↔◌, Contains, IfOk, IfSome, IsTrue, length};
ghost use Rattle.std.specs.Arc.{arc_value};
ghost use Rattle.std.specs.Option.{option_map};
ghost use Rattle.htn_model.specs.Choice as choice;
ghost use Rattle.htn_model.specs.Choice.{is_empty, first_free_compound, child_of};
ghost use Rattle.htn_model.specs.Literal.{holds};
ghost use Rattle.htn_model.specs.Machine as machine;
ghost use Rattle.htn_model.specs.Machine.{IsProper, config_eq};
ghost use Rattle.htn_model.specs.Problem.{is_before, task};
ghost use Rattle.htn_ground.specs.Views.{child_view};

use crate::splice::splice;
use htn_ground::{Child, ChildList, GroundTask, Instance};
use htn_order::Order;
use htn_task::{LiteralList, State};
use std::alloc::{AllocError, Global};
use std::hash::{Hash, Hasher};
use std::marker::Model;
use std::sync::Arc;

/// A state, the open nodes, and which of them are before which others.
pub struct Config {
    state: Arc<State>,
    open_nodes: ChildList,
    order: Order,
}

impl Drop for Config {
    fn drop(self) {
        let Config {
            state: _,
            open_nodes: _,
            order: _,
        } = self;
    }
}

impl Model for Config {
    ghost use Rattle.std.specs.Prelude.{◌≡◌, length};
    ghost use Rattle.htn_model.specs.Machine as model;

    ghost Value = { model.Config };

    ghost coded = { model.config_code };

    ghost view = { λ c. record { state = c.state.value; open_nodes = c.open_nodes; order = c.order } };

    ghost invariant = { λ c. length c.order ≡ length c.open_nodes };
}

impl Config {
    /// The configuration in which the nodes of a network are open in a state.
    pub(crate) fn of(state: Arc<State>, instance: &Instance) -> Result<Config, AllocError>
        requires { length instance.now.network.order ≡ length instance.now.network.children }
        ensures { IfOk result (λ c. c ≡ record { state = arc_value state; open_nodes = instance.now.network.children; order = instance.now.network.order }) }
    {
        let open_nodes = instance.children().clone()?;
        let order = instance.order().clone()?;
        Ok(Config {
            state,
            open_nodes,
            order,
        })
    }

    /// The state.
    pub fn state(&self) -> &State
        ensures { result.now ≡ self.now.state }
    {
        &self.state
    }

    /// The state, as its owners share it.
    pub(crate) fn shared_state(&self) -> Result<Arc<State>, AllocError>
        ensures { IfOk result (λ s. arc_value s ≡ self.now.state) }
    {
        Arc::try_clone(&self.state)
    }

    /// Which open nodes are before which others.
    pub fn order(&self) -> &Order
        ensures value { result.now ≡ self.now.order }
        ensures proper { IsProper self.now }
    {
        let _size = self.order.size();
        &self.order
    }

    /// The number of open nodes. It takes no memory.
    pub fn open_len(&self) -> u64
        ensures value { result ≡ length self.now.open_nodes }
        ensures proper { IsProper self.now }
    {
        let _size = self.order.size();
        self.open_nodes.len() as u64
    }

    /// The open nodes.
    pub fn open_nodes(&self) -> &ChildList
        ensures { result.now ≡ self.now.open_nodes }
    {
        &self.open_nodes
    }

    /// The open node at a position.
    pub fn node_at(&self, position: usize) -> &Child
        requires { position < length self.now.open_nodes }
        ensures { child_view result.now ≡ child_of self.now.open_nodes position }
    {
        let nodes = self.open_nodes.as_slice();
        &nodes[position]
    }

    /// Whether no node is open and the goal holds. It takes no memory.
    pub fn is_done(&self, goal: &LiteralList) -> bool
        ensures { result ≡ (is_empty self.now.open_nodes && holds self.now.state goal.now) }
    {
        self.open_nodes.is_empty() && self.state.holds(goal.as_slice())
    }

    /// The first free compound task, with its position.
    pub fn first_free_task(&self) -> Option<(usize, &GroundTask)>
        ensures position { option_map (λ p. p.0) result ≡ first_free_compound self.now.open_nodes (is_before self.now.order) }
        ensures goal { IfSome result (λ p. child_of self.now.open_nodes p.0 ≡ task p.1.now) }
    {
        let nodes = self.open_nodes.as_slice();
        let mut from = 0;
        while let Some(position) = self.order.next_free(from) {
            if let Child::Task(goal) = &nodes[position] {
                return Some((position, goal));
            }
            from = position + 1;
        }
        None
    }

    /// The configuration where the node at a position is replaced by a network, in this state.
    pub(crate) fn replaced(
        &self,
        alloc: Global,
        at: usize,
        children: &ChildList,
        order: &Order,
        state: Arc<State>,
    ) -> Result<Config, AllocError>
        requires placed { at < length self.now.open_nodes }
        requires whole { length order.now ≡ length children.now }
        ensures { IfOk result (λ c. c ≡ machine.replaced self.now at (record { children = children.now; order = order.now }) (arc_value state)) }
    {
        let open_nodes = splice(alloc, &self.open_nodes, at, children)?;
        let order = self.order.replaced(alloc, at, order)?;
        Ok(Config {
            state,
            open_nodes,
            order,
        })
    }

    /// The configuration where the compound task at a position is decomposed by an instance.
    pub(crate) fn decomposed(
        &self,
        alloc: Global,
        at: usize,
        instance: &Instance,
    ) -> Result<Config, AllocError>
        requires placed { at < length self.now.open_nodes }
        requires whole { length instance.now.network.order ≡ length instance.now.network.children }
        ensures { IfOk result (λ c. c ≡ machine.replaced self.now at instance.now.network self.now.state) }
    {
        let state = self.shared_state()?;
        let next = self.replaced(alloc, at, instance.children(), instance.order(), state)?;
        Ok(next)
    }

    /// The configuration without the step or action at a position, in this state.
    pub(crate) fn performed(
        &self,
        alloc: Global,
        at: usize,
        state: &Arc<State>,
    ) -> Result<Config, AllocError>
        requires { at < length self.now.open_nodes }
        ensures { IfOk result (λ c. c ≡ machine.replaced self.now at machine.no_network (arc_value state.now)) }
    {
        let state = Arc::try_clone(state)?;
        let none = ChildList::new(alloc);
        let next = self.replaced(alloc, at, &none, &Order::empty(), state)?;
        Ok(next)
    }
}

impl PartialEq for Config {
    ghost use Rattle.htn_model.specs.Machine.{config_eq};
    ghost use Rattle.htn_model.specs.Equality.{config_eq-partial};

    ghost eq = { config_eq };

    ghost laws = { config_eq-partial };

    fn eq(&self, other: &Config) -> bool
        ensures value { result ≡ config_eq self.now other.now }
        ensures same { IsTrue result ↔ (self.now ≡ other.now) }
    {
        self.state == other.state
            && self.open_nodes == other.open_nodes
            && self.order == other.order
    }
}

impl Eq for Config {
    ghost use Rattle.htn_model.specs.Equality.{config_eq-laws};

    ghost laws = { config_eq-laws };
}

impl Hash for Config {
    ghost use Rattle.htn_net.specs.Hashes.{config_hash, config_hash-Alike};

    ghost hash_input = { config_hash };

    ghost respects_eq = { config_hash-Alike.fed };

    fn hash<H: Hasher>(&self, state: &mut H) {
        self.state.hash(state);
        self.open_nodes.hash(state);
        self.order.hash(state);
    }
}
