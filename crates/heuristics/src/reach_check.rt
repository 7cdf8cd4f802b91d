//! The checks that a relaxed reach is right.
ghost use Rattle.std.specs.Prelude.{◌≡◌, true, false, Some, All, IfOk, IsTrue};
ghost use Rattle.std.specs.Option.{option_map};
ghost use Rattle.htn_model.specs.Instances.{initials};
ghost use Rattle.htn_model.specs.Literal as model;
ghost use Rattle.htn_model.specs.Task as tasks;
ghost use Rattle.htn_ground.specs.Distinct.{distinct};
ghost use Rattle.htn_ground.specs.Views.{children_of};
ghost use Rattle.task_graph.specs.Graph.{IsGraph, is_task_listed};
ghost use Rattle.heuristics.specs.Facts.{are_possible, has_effects};
ghost use Rattle.heuristics.specs.CheckedReach.{AreEffectsRight, AreInstancesRight, IsBlockedRight};
ghost use Rattle.heuristics.specs.CheckedReach.{IsStartKnown};
ghost use Rattle.heuristics.specs.Reach.{passes};
ghost use Rattle.heuristics.specs.ReachTables.{facts_of, reach_of};

use crate::reach::RelaxedReach;
use htn_ground::{Child, GroundTask, Instance, distinct_initials};
use htn_task::{Action, Task};
use std::alloc::{AllocError, Global};
use task_graph::TaskGraph;

/// Whether the decompositions of all of the compound tasks are listed.
pub(crate) fn are_listed(graph: &TaskGraph, goals: &[GroundTask]) -> Result<bool, AllocError>
    ensures { IfOk result (λ b. IsTrue b → All (λ h. is_task_listed graph.now h ≡ true) goals.now) }
{
    for goal in goals {
        let is_listed = graph.is_task_listed(goal)?;
        if !is_listed {
            return Ok(false);
        }
    }
    Ok(true)
}

impl RelaxedReach {
    /// Whether an initial network has a barred node, or all its nodes are known.
    fn is_start_known(&self, instance: &Instance) -> bool
        ensures { IsTrue result → IsStartKnown self.now instance.now }
    {
        let children = instance.children().as_slice();
        self.has_barred(children) || self.are_known(children)
    }

    /// Whether each initial network has a barred node, or all its nodes are known.
    pub(crate) fn are_starts_known(&self, alloc: Global, task: &Task) -> Result<bool, AllocError>
        ensures { IfOk result (λ b. IsTrue b → All (IsStartKnown self.now) (distinct (initials task.now))) }
    {
        let instances = distinct_initials(alloc, task)?;
        for instance in &instances {
            if !self.is_start_known(instance) {
                return Ok(false);
            }
        }
        Ok(true)
    }

    /// Whether the facts allow the effects of an action. One that no objects satisfy has none.
    fn has_effects_of(&self, action: Option<&Action>) -> bool
        ensures { IsTrue result → (a : model.Action) → option_map (λ x. x.now) action.entry ≡ Some a
            → has_effects (facts_of self.now.facts) a ≡ true }
    {
        match action {
            Some(action) => self.facts.has_effects(action),
            None => true,
        }
    }

    /// Whether the facts rule out an action's precondition. One that no objects satisfy is never carried out.
    fn is_impossible(&self, action: Option<&Action>) -> bool
        ensures { IsTrue result → (a : model.Action) → option_map (λ x. x.now) action.entry ≡ Some a
            → are_possible (facts_of self.now.facts) a.precondition ≡ false }
    {
        match action {
            Some(action) => !self.facts.are_possible(action.precondition.as_slice()),
            None => true,
        }
    }

    /// Whether an action is blocked, or the facts allow its effects.
    fn are_effects_right(&self, graph: &TaskGraph, goal: &GroundTask) -> Result<bool, AllocError>
        ensures { IfOk result (λ b. IsTrue b → (t : tasks.Task) → IsGraph t graph.now
            → AreEffectsRight t self.now goal.now) }
    {
        if self.actions.blocked.contains(goal) {
            return Ok(true);
        }
        let found = graph.id_of_action(goal)?;
        match found {
            Some(id) => Ok(self.has_effects_of(graph.action(id))),
            None => Ok(false),
        }
    }

    /// Whether each of the actions is blocked, or the facts allow its effects.
    pub(crate) fn are_all_effects_right(
        &self,
        graph: &TaskGraph,
        goals: &[GroundTask],
    ) -> Result<bool, AllocError>
        ensures { IfOk result (λ b. IsTrue b → (t : tasks.Task) → IsGraph t graph.now
            → All (AreEffectsRight t self.now) goals.now) }
    {
        for goal in goals {
            let is_right = self.are_effects_right(graph, goal)?;
            if !is_right {
                return Ok(false);
            }
        }
        Ok(true)
    }

    /// Whether an action is rightly blocked: the facts rule out its precondition.
    fn is_blocked_right(&self, graph: &TaskGraph, goal: &GroundTask) -> Result<bool, AllocError>
        ensures { IfOk result (λ b. IsTrue b → (t : tasks.Task) → IsGraph t graph.now
            → IsBlockedRight t self.now goal.now) }
    {
        let found = graph.id_of_action(goal)?;
        match found {
            Some(id) => Ok(self.is_impossible(graph.action(id))),
            None => Ok(false),
        }
    }

    /// Whether all of the actions are rightly blocked.
    pub(crate) fn are_blocked_right(
        &self,
        graph: &TaskGraph,
        goals: &[GroundTask],
    ) -> Result<bool, AllocError>
        ensures { IfOk result (λ b. IsTrue b → (t : tasks.Task) → IsGraph t graph.now
            → All (IsBlockedRight t self.now) goals.now) }
    {
        for goal in goals {
            let is_right = self.is_blocked_right(graph, goal)?;
            if !is_right {
                return Ok(false);
            }
        }
        Ok(true)
    }

    /// Whether an instance bears out what is marked of its task: all its nodes are known if the task is, and one of
    /// them is blocked if the task is.
    fn passes(&self, goal: &GroundTask, children: &[Child]) -> bool
        ensures { result ≡ passes (reach_of self.now) goal.now (children_of children.now) }
    {
        (!self.tasks.known.contains(goal) || self.are_known(children))
            && (!self.tasks.blocked.contains(goal) || self.has_blocked(children))
    }

    /// Whether each decomposition bears out what is marked of its task.
    pub(crate) fn are_instances_right(&self, graph: &TaskGraph) -> bool
        ensures { IsTrue result → AreInstancesRight self.now graph.now }
    {
        for decomposition in graph.decompositions() {
            let Some(goal) = graph.task(decomposition.task) else {
                continue;
            };
            if !self.passes(goal, decomposition.children.as_slice()) {
                return false;
            }
        }
        true
    }
}
