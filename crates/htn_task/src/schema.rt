//! The schemas of methods, of actions and of the initial network.
ghost use Rattle.std.specs.Prelude.{◌≡◌};

use crate::formula::FormulaList;
use crate::name::Name;
use crate::term::{AtomSchema, EqualitySchema, TaskSchema};
use htn_order::Order;
use std::marker::Model;

/// The subtasks of a method or of the initial network, and their closed order.
pub struct NetworkSchema {
    subtasks: Vec<TaskSchema>,
    order: Order,
}

impl Drop for NetworkSchema {
    fn drop(self) {
        let NetworkSchema {
            subtasks: _,
            order: _,
        } = self;
    }
}

impl Model for NetworkSchema {
    ghost use Rattle.htn_model.specs.Schema as model;
    ghost use Rattle.htn_model.specs.TaskCode.{network_schema_code};

    ghost Value = { model.NetworkSchema };

    ghost coded = { network_schema_code };

    ghost view = { λ n. record { subtasks = n.subtasks.items; order = n.order } };
}

impl NetworkSchema {
    pub fn new(subtasks: Vec<TaskSchema>, order: Order) -> NetworkSchema
        ensures { result ≡ record { subtasks = subtasks.items; order = order } }
    {
        NetworkSchema { subtasks, order }
    }

    /// The subtasks in declared order.
    pub fn subtasks(&self) -> &[TaskSchema]
        ensures { result.now ≡ self.now.subtasks }
    {
        &self.subtasks
    }

    /// Which subtasks are before which others.
    pub fn order(&self) -> &Order
        ensures { result.now ≡ self.now.order }
    {
        &self.order
    }
}

/// A way to decompose a compound task.
pub struct MethodSchema {
    name: Name,
    parameters: Vec<u16>,
    task: TaskSchema,
    precondition: FormulaList,
    constraints: Vec<EqualitySchema>,
    network: NetworkSchema,
}

impl Drop for MethodSchema {
    fn drop(self) {
        let MethodSchema {
            name: _,
            parameters: _,
            task: _,
            precondition: _,
            constraints: _,
            network: _,
        } = self;
    }
}

impl Model for MethodSchema {
    ghost use Rattle.htn_model.specs.Task as model;
    ghost use Rattle.htn_model.specs.TaskCode.{method_schema_code};

    ghost Value = { model.MethodSchema };

    ghost coded = { method_schema_code };

    ghost view = { λ m. record {
      name = m.name;
      parameters = m.parameters.items;
      task = m.task;
      precondition = m.precondition;
      constraints = m.constraints.items;
      network = m.network;
    } };
}

impl MethodSchema {
    pub fn new(
        name: Name,
        parameters: Vec<u16>,
        task: TaskSchema,
        precondition: FormulaList,
        constraints: Vec<EqualitySchema>,
        network: NetworkSchema,
    ) -> MethodSchema
        ensures { result ≡ record {
          name = name;
          parameters = parameters.items;
          task = task;
          precondition = precondition;
          constraints = constraints.items;
          network = network;
        } }
    {
        MethodSchema {
            name,
            parameters,
            task,
            precondition,
            constraints,
            network,
        }
    }

    pub fn name(&self) -> &Name
        ensures { result.now ≡ self.now.name }
    {
        &self.name
    }

    /// The types of the parameters.
    pub fn parameters(&self) -> &[u16]
        ensures { result.now ≡ self.now.parameters }
    {
        &self.parameters
    }

    /// The task that it decomposes.
    pub fn task(&self) -> &TaskSchema
        ensures { result.now ≡ self.now.task }
    {
        &self.task
    }

    pub fn precondition(&self) -> &FormulaList
        ensures { result.now ≡ self.now.precondition }
    {
        &self.precondition
    }

    pub fn constraints(&self) -> &[EqualitySchema]
        ensures { result.now ≡ self.now.constraints }
    {
        &self.constraints
    }

    pub fn network(&self) -> &NetworkSchema
        ensures { result.now ≡ self.now.network }
    {
        &self.network
    }
}

/// An action: a primitive task.
pub struct ActionSchema {
    name: Name,
    parameters: Vec<u16>,
    precondition: FormulaList,
    deletes: Vec<AtomSchema>,
    adds: Vec<AtomSchema>,
}

impl Drop for ActionSchema {
    fn drop(self) {
        let ActionSchema {
            name: _,
            parameters: _,
            precondition: _,
            deletes: _,
            adds: _,
        } = self;
    }
}

impl Model for ActionSchema {
    ghost use Rattle.htn_model.specs.Task as model;
    ghost use Rattle.htn_model.specs.TaskCode.{action_schema_code};

    ghost Value = { model.ActionSchema };

    ghost coded = { action_schema_code };

    ghost view = { λ a. record {
      name = a.name;
      parameters = a.parameters.items;
      precondition = a.precondition;
      deletes = a.deletes.items;
      adds = a.adds.items;
    } };
}

impl ActionSchema {
    pub fn new(
        name: Name,
        parameters: Vec<u16>,
        precondition: FormulaList,
        deletes: Vec<AtomSchema>,
        adds: Vec<AtomSchema>,
    ) -> ActionSchema
        ensures { result ≡ record {
          name = name;
          parameters = parameters.items;
          precondition = precondition;
          deletes = deletes.items;
          adds = adds.items;
        } }
    {
        ActionSchema {
            name,
            parameters,
            precondition,
            deletes,
            adds,
        }
    }

    pub fn name(&self) -> &Name
        ensures { result.now ≡ self.now.name }
    {
        &self.name
    }

    /// The types of the parameters.
    pub fn parameters(&self) -> &[u16]
        ensures { result.now ≡ self.now.parameters }
    {
        &self.parameters
    }

    pub fn precondition(&self) -> &FormulaList
        ensures { result.now ≡ self.now.precondition }
    {
        &self.precondition
    }

    /// The atoms that become false.
    pub fn deletes(&self) -> &[AtomSchema]
        ensures { result.now ≡ self.now.deletes }
    {
        &self.deletes
    }

    /// The atoms that are true afterwards, also those deleted.
    pub fn adds(&self) -> &[AtomSchema]
        ensures { result.now ≡ self.now.adds }
    {
        &self.adds
    }
}

/// The initial network: its parameters, constraints on them, and the tasks to be done.
pub struct InitialSchema {
    parameters: Vec<u16>,
    constraints: Vec<EqualitySchema>,
    network: NetworkSchema,
}

impl Drop for InitialSchema {
    fn drop(self) {
        let InitialSchema {
            parameters: _,
            constraints: _,
            network: _,
        } = self;
    }
}

impl Model for InitialSchema {
    ghost use Rattle.htn_model.specs.Task as model;
    ghost use Rattle.htn_model.specs.TaskCode.{initial_schema_code};

    ghost Value = { model.InitialSchema };

    ghost coded = { initial_schema_code };

    ghost view = { λ n. record { parameters = n.parameters.items; constraints = n.constraints.items; network = n.network } };
}

impl InitialSchema {
    pub fn new(
        parameters: Vec<u16>,
        constraints: Vec<EqualitySchema>,
        network: NetworkSchema,
    ) -> InitialSchema
        ensures { result ≡ record { parameters = parameters.items; constraints = constraints.items; network = network } }
    {
        InitialSchema {
            parameters,
            constraints,
            network,
        }
    }

    /// The types of the parameters.
    pub fn parameters(&self) -> &[u16]
        ensures { result.now ≡ self.now.parameters }
    {
        &self.parameters
    }

    pub fn constraints(&self) -> &[EqualitySchema]
        ensures { result.now ≡ self.now.constraints }
    {
        &self.constraints
    }

    pub fn network(&self) -> &NetworkSchema
        ensures { result.now ≡ self.now.network }
    {
        &self.network
    }
}
