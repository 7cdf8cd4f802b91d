//! What was seen of all methods and actions that no plan uses. Causes are read off it, and no contract speaks of them.

use crate::answer::Unused;
use crate::fine::Fine;
use crate::tally::Tally;
use crate::unused::Search;
use crate::usable::MOST;
use htn_ground::{Child, GroundTask, Instance, methods_of};
use htn_task::{Task, TaskSchema};
use std::alloc::{AllocError, Global};

/// Tallies of the methods and of the actions, by place; none for those that a plan may use, or that no network asks
/// for.
struct Tallies {
    methods: Vec<Option<Tally>>,
    actions: Vec<Option<Tally>>,
}

impl Drop for Tallies {
    fn drop(self) {
        let Tallies {
            methods: _,
            actions: _,
        } = self;
    }
}

/// The causes of the methods and of the actions that have a tally.
pub(crate) struct Causes {
    pub(crate) methods: Vec<Unused>,
    pub(crate) actions: Vec<Unused>,
}

impl Drop for Causes {
    fn drop(self) {
        let Causes {
            methods: _,
            actions: _,
        } = self;
    }
}

/// The cause of each tally, with its place.
fn causes_in(alloc: Global, tallies: &[Option<Tally>]) -> Result<Vec<Unused>, AllocError> {
    let mut causes = Vec::new(alloc);
    for (place, entry) in tallies.iter().enumerate() {
        if let Some(tally) = entry {
            let cause = tally.cause();
            causes.push(Unused { place, cause })?;
        }
    }
    Ok(causes)
}

/// A mark for each of some numbers, none of which is set.
fn unmarked(alloc: Global, count: usize) -> Result<Vec<bool>, AllocError> {
    let mut marks = Vec::with_capacity(alloc, count)?;
    for _ in 0..count {
        marks.push(false)?;
    }
    Ok(marks)
}

/// Sets the mark of a number.
fn mark(marks: &mut [bool], number: usize) {
    if let Some(mark) = marks.get_mut(number) {
        *mark = true;
    }
}

/// Whether a number is marked.
fn is_marked(marks: &[bool], number: usize) -> bool {
    marks.get(number).copied().unwrap_or(false)
}

/// Marks the tasks and actions that some subtasks name.
fn mark_asked(asked: &mut [bool], subtasks: &[TaskSchema]) {
    for subtask in subtasks {
        mark(asked, subtask.name() as usize);
    }
}

/// For each compound task and then each action, whether some network has it as a subtask.
fn asked_for(alloc: Global, task: &Task) -> Result<Vec<bool>, AllocError> {
    let count = task.tasks().len().saturating_add(task.actions().len());
    let mut asked = unmarked(alloc, count)?;
    mark_asked(&mut asked, task.initial_network().network().subtasks());
    for method in task.methods() {
        mark_asked(&mut asked, method.network().subtasks());
    }
    Ok(asked)
}

/// For each compound task, whether one of its methods has a tally.
fn tallied_tasks(
    alloc: Global,
    task: &Task,
    tallies: &[Option<Tally>],
) -> Result<Vec<bool>, AllocError> {
    let mut tallied = unmarked(alloc, task.tasks().len())?;
    for (place, method) in task.methods().iter().enumerate() {
        if let Some(Some(_)) = tallies.get(place) {
            mark(&mut tallied, method.task().name() as usize);
        }
    }
    Ok(tallied)
}

/// Says of each tally whether its method's task arises.
fn mark_arising(task: &Task, tallies: &mut [Option<Tally>], arising: &[bool]) {
    for (place, method) in task.methods().iter().enumerate() {
        if let Some(Some(tally)) = tallies.get_mut(place) {
            tally.arises = is_marked(arising, method.task().name() as usize);
        }
    }
}

/// Whether the precondition step of an instance, if it has one, is fine.
fn is_step_fine(fine: &Fine, instance: &Instance) -> bool {
    for node in instance.children().as_slice() {
        if let Child::Precondition(_) = node {
            return fine.is_fine(node);
        }
    }
    true
}

impl Search<'_> {
    /// An empty tally for each method that no plan uses, though a network asks for its task.
    fn method_tallies(&self, asked: &[bool]) -> Result<Vec<Option<Tally>>, AllocError> {
        let mut tallies = Vec::new(self.alloc);
        for (place, method) in self.task.methods().iter().enumerate() {
            let name = method.task().name() as usize;
            if is_marked(asked, name) && !self.uses_method(place) {
                let formulas = method.precondition().as_slice();
                tallies.push(Some(Tally::new(self.alloc, formulas)?))?;
            } else {
                tallies.push(None)?;
            }
        }
        Ok(tallies)
    }

    /// An empty tally for each action that no plan uses, though a network asks for it.
    fn action_tallies(&self, asked: &[bool]) -> Result<Vec<Option<Tally>>, AllocError> {
        let first = self.task.tasks().len();
        let mut tallies = Vec::new(self.alloc);
        for (place, action) in self.task.actions().iter().enumerate() {
            let number = first.saturating_add(place);
            if is_marked(asked, number) && !self.uses_action(place) {
                let formulas = action.precondition().as_slice();
                tallies.push(Some(Tally::new(self.alloc, formulas)?))?;
            } else {
                tallies.push(None)?;
            }
        }
        Ok(tallies)
    }

    /// Adds an instance to the tally of its method, if it has one.
    fn add_instance(
        &self,
        tallies: &mut [Option<Tally>],
        instance: &Instance,
    ) -> Result<(), AllocError> {
        let Some(number) = instance.method() else {
            return Ok(());
        };
        let place = number as usize;
        let Some(method) = self.task.methods().get(place) else {
            return Ok(());
        };
        let Some(Some(tally)) = tallies.get_mut(place) else {
            return Ok(());
        };
        let formulas = method.precondition().as_slice();
        tally.add(self.alloc, &self.first.facts, formulas, instance.values())?;
        if is_step_fine(self.first, instance) {
            tally.is_free = true;
        }
        Ok(())
    }

    /// Adds the instances of a task to the tallies of their methods, and returns their number.
    fn add_task(
        &self,
        tallies: &mut [Option<Tally>],
        goal: &GroundTask,
    ) -> Result<usize, AllocError> {
        let instances = methods_of(self.alloc, self.task, goal)?;
        for instance in &instances {
            self.add_instance(tallies, instance)?;
        }
        Ok(instances.len())
    }

    /// Adds an action that arises to its tally, if it has one. An action without an instance is none.
    fn add_action(
        &self,
        tallies: &mut [Option<Tally>],
        node: &Child,
        goal: &GroundTask,
    ) -> Result<(), AllocError> {
        let Some(place) = (goal.name() as usize).checked_sub(self.task.tasks().len()) else {
            return Ok(());
        };
        let Some(schema) = self.task.actions().get(place) else {
            return Ok(());
        };
        let Some(Some(tally)) = tallies.get_mut(place) else {
            return Ok(());
        };
        let Some(id) = self.graph.id_of(node) else {
            return Ok(());
        };
        if self.graph.action(id).is_none() {
            return Ok(());
        }
        let formulas = schema.precondition().as_slice();
        tally.add(self.alloc, &self.first.facts, formulas, goal.arguments())?;
        if self.first.is_fine(node) {
            tally.is_free = true;
        }
        Ok(())
    }

    /// The tallies over all that arises; none where too many instances would have to be listed.
    fn tallies(&self) -> Result<Option<Tallies>, AllocError> {
        let asked = asked_for(self.alloc, self.task)?;
        let mut methods = self.method_tallies(&asked)?;
        let mut actions = self.action_tallies(&asked)?;
        let tallied = tallied_tasks(self.alloc, self.task, &methods)?;
        let mut arising = unmarked(self.alloc, tallied.len())?;
        let mut count = 0usize;
        for node in self.graph.nodes() {
            match node {
                Child::Precondition(_) => {}
                Child::Action(goal) => self.add_action(&mut actions, node, goal)?,
                Child::Task(goal) => {
                    if !is_marked(&tallied, goal.name() as usize) {
                        continue;
                    }
                    mark(&mut arising, goal.name() as usize);
                    count = count.saturating_add(self.add_task(&mut methods, goal)?);
                    if count > MOST {
                        return Ok(None);
                    }
                }
            }
        }
        mark_arising(self.task, &mut methods, &arising);
        Ok(Some(Tallies { methods, actions }))
    }

    /// The causes over all that arises; none where too many instances would have to be listed.
    pub(crate) fn causes(&self) -> Result<Option<Causes>, AllocError> {
        let counted = self.tallies()?;
        let Some(tallies) = counted else {
            return Ok(None);
        };
        let methods = causes_in(self.alloc, &tallies.methods)?;
        let actions = causes_in(self.alloc, &tallies.actions)?;
        Ok(Some(Causes { methods, actions }))
    }
}
