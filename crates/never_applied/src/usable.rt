//! What a plan may use.
ghost use Rattle.std.specs.Prelude.{◌≡◌, true, Some, IfOk, IfSome, OnOk};
ghost use Rattle.std.specs.List.{All, list_all};
ghost use Rattle.htn_model.specs.Problem.{action, task};
ghost use Rattle.htn_ground.specs.Views.{child_view, children_of};
ghost use Rattle.never_applied.specs.Fine.{IsClosed, IsInstanceUsed, IsMore, IsStartUsed, IsTaskUsed};
ghost use Rattle.never_applied.specs.Used.{has_method, has_node};

use crate::fine::Fine;
use htn_ground::{Child, GroundTask, Instance, counted_live_methods_of, distinct_initials};
use htn_task::Task;
use indexmap::IndexSet;
use std::alloc::{AllocError, Global};

/// The most instances, and the most compound tasks, that are listed.
pub(crate) const MOST: usize = 1_000_000;

/// What arises from the initial networks, by instances whose nodes are all such as a plan may have.
pub struct Usable {
    /// The compound tasks.
    pub tasks: IndexSet<GroundTask>,
    /// The actions.
    pub actions: IndexSet<GroundTask>,
    /// The numbers of the actions' schemas, after those of the compound tasks.
    pub names: IndexSet<u32>,
    /// The numbers of the methods.
    pub methods: IndexSet<u16>,
    /// The number of the methods' instances.
    pub instances: usize,
}

// `Drop` is written by hand: a derived one is expanded, and proved, at each way out of each owner.
impl Drop for Usable {
    fn drop(self) {
        let Usable {
            tasks: _,
            actions: _,
            names: _,
            methods: _,
            instances: _,
        } = self;
    }
}

impl Usable {
    fn new(alloc: Global) -> Usable {
        Usable {
            tasks: IndexSet::new(alloc),
            actions: IndexSet::new(alloc),
            names: IndexSet::new(alloc),
            methods: IndexSet::new(alloc),
            instances: 0,
        }
    }

    /// Adds an action, and the number of its schema.
    fn add_action(&mut self, goal: &GroundTask) -> Result<(), AllocError>
        ensures more { OnOk result (IsMore self.old self.new) }
        ensures there { OnOk result (has_node self.new (action goal.now) ≡ true) }
    {
        let _ = self.names.insert(goal.name())?;
        let _ = self.actions.insert(goal.clone()?)?;
        Ok(())
    }

    /// Adds a compound task.
    fn add_goal(&mut self, goal: &GroundTask) -> Result<(), AllocError>
        ensures more { OnOk result (IsMore self.old self.new) }
        ensures there { OnOk result (has_node self.new (task goal.now) ≡ true) }
    {
        let _ = self.tasks.insert(goal.clone()?)?;
        Ok(())
    }

    /// Adds a node, unless it is a step.
    fn add_node(&mut self, node: &Child) -> Result<(), AllocError>
        ensures more { OnOk result (IsMore self.old self.new) }
        ensures there { OnOk result (has_node self.new (child_view node.now) ≡ true) }
    {
        match node {
            Child::Precondition(_) => Ok(()),
            Child::Action(goal) => self.add_action(goal),
            Child::Task(goal) => self.add_goal(goal),
        }
    }

    /// Adds nodes, steps apart.
    fn add_nodes(&mut self, nodes: &[Child]) -> Result<(), AllocError>
        ensures more { OnOk result (IsMore self.old self.new) }
        ensures there { OnOk result (list_all (has_node self.new) (children_of nodes.now) ≡ true) }
    {
        for node in nodes {
            self.add_node(node)?;
        }
        Ok(())
    }

    /// Adds the number of a method.
    fn add_number(&mut self, number: u16) -> Result<(), AllocError>
        ensures more { OnOk result (IsMore self.old self.new) }
        ensures there { OnOk result (has_method self.new (Some number) ≡ true) }
    {
        let _ = self.methods.insert(number)?;
        Ok(())
    }

    /// Adds the number of a method, if there is one.
    fn add_method(&mut self, method: Option<u16>) -> Result<(), AllocError>
        ensures more { OnOk result (IsMore self.old self.new) }
        ensures there { OnOk result (has_method self.new method ≡ true) }
    {
        match method {
            Some(number) => self.add_number(number),
            None => Ok(()),
        }
    }

    /// Adds an instance, if all its nodes are fine.
    fn add_instance(&mut self, fine: &Fine, instance: &Instance) -> Result<(), AllocError>
        ensures more { OnOk result (IsMore self.old self.new) }
        ensures there { OnOk result (IsInstanceUsed fine.now self.new instance.now) }
    {
        let nodes = instance.children().as_slice();
        let is_used = fine.are_fine(nodes);
        if !is_used {
            return Ok(());
        }
        self.instances = self.instances.saturating_add(1);
        self.add_method(instance.method())?;
        self.add_nodes(nodes)?;
        Ok(())
    }

    /// Adds instances, those whose nodes are all fine.
    fn add_instances(
        &mut self,
        fine: &Fine,
        instances: &[(Option<u64>, Instance)],
    ) -> Result<(), AllocError>
        ensures more { OnOk result (IsMore self.old self.new) }
        ensures there { OnOk result (All (λ p. IsInstanceUsed fine.now self.new p.1) instances.now) }
    {
        for pair in instances {
            self.add_instance(fine, &pair.1)?;
        }
        Ok(())
    }

    /// Adds the nodes of an initial network, if they are all fine.
    fn add_initial(&mut self, fine: &Fine, initial: &Instance) -> Result<(), AllocError>
        ensures more { OnOk result (IsMore self.old self.new) }
        ensures there { OnOk result (IsStartUsed fine.now self.new initial.now) }
    {
        let nodes = initial.children().as_slice();
        let is_used = fine.are_fine(nodes);
        if !is_used {
            return Ok(());
        }
        self.add_nodes(nodes)?;
        Ok(())
    }

    /// Adds the nodes of each initial network whose nodes are all fine.
    fn add_initials(&mut self, fine: &Fine, initials: &[Instance]) -> Result<(), AllocError>
        ensures { OnOk result (All (IsStartUsed fine.now self.new) initials.now) }
    {
        for initial in initials {
            self.add_initial(fine, initial)?;
        }
        Ok(())
    }

    /// Adds the live instances of a compound task whose nodes are all fine.
    fn add_task(
        &mut self,
        alloc: Global,
        task: &Task,
        fine: &Fine,
        goal: &GroundTask,
    ) -> Result<(), AllocError>
        ensures more { OnOk result (IsMore self.old self.new) }
        ensures there { OnOk result (IsTaskUsed task.now fine.now self.new goal.now) }
    {
        let instances = counted_live_methods_of(alloc, task, goal)?;
        self.add_instances(fine, &instances)?;
        Ok(())
    }

    /// What a plan may use that has fine nodes only; none where too much would have to be listed.
    pub(crate) fn of(alloc: Global, task: &Task, fine: &Fine) -> Result<Option<Usable>, AllocError>
        ensures { IfOk result (λ o. IfSome o (IsClosed task.now fine.now)) }
    {
        let mut usable = Usable::new(alloc);
        let initials = distinct_initials(alloc, task)?;
        usable.add_initials(fine, &initials)?;
        for place in 0..MOST {
            let Some(goal) = usable.tasks.get_index(place) else {
                return Ok(Some(usable));
            };
            let next = goal.clone()?;
            usable.add_task(alloc, task, fine, &next)?;
            if usable.instances > MOST {
                return Ok(None);
            }
        }
        Ok(None)
    }

    /// Whether another one has as many parts.
    pub(crate) fn is_as_large(&self, other: &Usable) -> bool {
        self.tasks.len() == other.tasks.len()
            && self.actions.len() == other.actions.len()
            && self.instances == other.instances
    }
}
