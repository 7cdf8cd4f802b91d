//! Which actions are reachable in the delete relaxation, and which literals their effects make reachable: a worklist
//! with a count of the preconditions that each action still needs, as Hoffmann and Nebel compute relaxed plans (The FF
//! planning system, 2001), but for negative literals as well as for positive ones. The result has no contract, since
//! [`RelaxedReach::of`] checks it.

use crate::facts::FactSets;
use crate::reach::Marks;
use htn_ground::{Child, GroundTask, distinct_initials};
use htn_task::{Action, Atom, Literal, State, Task};
use indexmap::IndexSet;
use std::alloc::{AllocError, Global};
use std::mem;
use task_graph::TaskGraph;

/// A ground action of the worklist.
#[derive(Drop)]
struct Met {
    /// The number of its preconditions that are not yet reachable.
    missing: u32,
    /// Its effects, by the numbers of literals.
    effects: Vec<u32>,
}

/// The worklist: ground actions and literals by number, and which literals are reachable so far.
pub(crate) struct Actions {
    goals: IndexSet<GroundTask>,
    met: Vec<Met>,
    literals: IndexSet<Literal>,
    possible: Vec<bool>,
    /// For each literal, the actions that have it as a precondition and were added before it became reachable.
    uses: Vec<Vec<u32>>,
    /// Reachable actions whose effects have not been added yet.
    ready: Vec<u32>,
}

// `Drop` is written by hand: a derived one is expanded, and proved, at each way out of each owner.
impl Drop for Actions {
    fn drop(self) {
        let Actions {
            goals: _,
            met: _,
            literals: _,
            possible: _,
            uses: _,
            ready: _,
        } = self;
    }
}

/// Adds a copy of a ground task to a set.
pub(crate) fn insert_copy(
    goals: &mut IndexSet<GroundTask>,
    goal: &GroundTask,
) -> Result<(), AllocError> {
    let copy = goal.clone()?;
    let _ = goals.insert(copy)?;
    Ok(())
}

/// Adds a copy of an atom to a list.
fn push_copy(atoms: &mut Vec<Atom>, atom: &Atom) -> Result<(), AllocError> {
    let copy = atom.clone()?;
    atoms.push(copy)?;
    Ok(())
}

/// The atoms of a state that are not among the atoms of another one.
fn lasting(alloc: Global, initial: &[Atom], failing: &State) -> Result<State, AllocError> {
    let mut atoms = Vec::new(alloc);
    for atom in initial {
        if !failing.contains(atom) {
            atoms.push(atom.clone()?)?;
        }
    }
    State::of(alloc, &atoms)
}

/// Whether the atom of a literal is static. Static literals are taken as reachable here: an instance or an action with
/// one that is false is dead or barred already.
fn is_static(task: &Task, literal: &Literal) -> bool {
    match literal {
        Literal::Positive(atom) | Literal::Negative(atom) => !task.is_fluent(atom.predicate()),
        Literal::Same(_, _) | Literal::Different(_, _) => false,
    }
}

/// The fluent atoms of the initial state.
fn initial_fluents(alloc: Global, task: &Task) -> Result<Vec<Atom>, AllocError> {
    let mut atoms = Vec::new(alloc);
    for atom in task.initial_atoms().atoms() {
        if task.is_fluent(atom.predicate()) {
            atoms.push(atom.clone()?)?;
        }
    }
    Ok(atoms)
}

impl Actions {
    /// An empty worklist.
    fn new(alloc: Global) -> Actions {
        Actions {
            goals: IndexSet::new(alloc),
            met: Vec::new(alloc),
            literals: IndexSet::new(alloc),
            possible: Vec::new(alloc),
            uses: Vec::new(alloc),
            ready: Vec::new(alloc),
        }
    }

    /// Whether the literal of a number is reachable so far.
    fn is_reached(&self, number: usize) -> bool {
        self.possible.get(number).copied().unwrap_or(false)
    }

    /// The number of a literal, which is added if it has none yet. It is reachable if it holds in the initial state.
    fn number(&mut self, alloc: Global, task: &Task, literal: Literal) -> Result<u32, AllocError> {
        let holds = task.initial_atoms().literal_holds(&literal);
        let (place, is_new) = self.literals.insert_full(literal)?;
        if is_new {
            self.possible.push(holds)?;
            self.uses.push(Vec::new(alloc))?;
        }
        u32::try_from(place).map_err(|_| AllocError)
    }

    /// Counts the preconditions of an action that are not yet reachable, and adds the action to the uses of each.
    fn missing_of(
        &mut self,
        alloc: Global,
        task: &Task,
        action: u32,
        literals: &[Literal],
    ) -> Result<u32, AllocError> {
        let mut missing = 0u32;
        for literal in literals {
            if is_static(task, literal) {
                continue;
            }
            let number = self.number(alloc, task, literal.clone()?)? as usize;
            if self.is_reached(number) {
                continue;
            }
            if let Some(users) = self.uses.get_mut(number) {
                users.push(action)?;
                missing = missing.saturating_add(1);
            }
        }
        Ok(missing)
    }

    /// The numbers of an action's effects. An atom that is deleted and added is true afterwards.
    fn effects_of(
        &mut self,
        alloc: Global,
        task: &Task,
        action: &Action,
    ) -> Result<Vec<u32>, AllocError> {
        let mut effects = Vec::new(alloc);
        for atom in action.adds.atoms() {
            let literal = Literal::Positive(atom.clone()?);
            effects.push(self.number(alloc, task, literal)?)?;
        }
        for atom in action.deletes.atoms() {
            if !action.adds.contains(atom) {
                let literal = Literal::Negative(atom.clone()?);
                effects.push(self.number(alloc, task, literal)?)?;
            }
        }
        Ok(effects)
    }

    /// The entry of an action. One that no objects satisfy always has a literal to wait for.
    fn met_by(
        &mut self,
        alloc: Global,
        task: &Task,
        number: u32,
        action: Option<&Action>,
    ) -> Result<Met, AllocError> {
        match action {
            Some(action) => Ok(Met {
                missing: self.missing_of(alloc, task, number, action.precondition.as_slice())?,
                effects: self.effects_of(alloc, task, action)?,
            }),
            None => Ok(Met {
                missing: 1,
                effects: Vec::new(alloc),
            }),
        }
    }

    /// Adds the entry of an action that is new to the worklist.
    fn take_in(
        &mut self,
        alloc: Global,
        task: &Task,
        graph: &TaskGraph,
        number: u32,
        node: &Child,
    ) -> Result<(), AllocError> {
        let action = match graph.id_of(node) {
            Some(id) => graph.action(id),
            None => None,
        };
        let met = self.met_by(alloc, task, number, action)?;
        if met.missing == 0 {
            self.ready.push(number)?;
        }
        self.met.push(met)?;
        Ok(())
    }

    /// Adds the actions among the nodes of a network.
    fn meet(
        &mut self,
        alloc: Global,
        task: &Task,
        graph: &TaskGraph,
        children: &[Child],
    ) -> Result<(), AllocError> {
        for child in children {
            let Child::Action(goal) = child else {
                continue;
            };
            let (place, is_new) = self.goals.insert_full(goal.clone()?)?;
            if is_new {
                let Ok(number) = u32::try_from(place) else {
                    return Err(AllocError);
                };
                self.take_in(alloc, task, graph, number, child)?;
            }
        }
        Ok(())
    }

    /// Counts one precondition of an action as reachable.
    fn supply(&mut self, action: u32) -> Result<(), AllocError> {
        let Some(met) = self.met.get_mut(action as usize) else {
            return Ok(());
        };
        met.missing = met.missing.saturating_sub(1);
        let missing = met.missing;
        if missing == 0 {
            self.ready.push(action)?;
        }
        Ok(())
    }

    /// Makes a literal reachable, if it is not so already.
    fn reach(&mut self, alloc: Global, literal: u32) -> Result<(), AllocError> {
        let Some(possible) = self.possible.get_mut(literal as usize) else {
            return Ok(());
        };
        if *possible {
            return Ok(());
        }
        *possible = true;
        let Some(uses) = self.uses.get_mut(literal as usize) else {
            return Ok(());
        };
        let users = mem::replace(uses, Vec::new(alloc));
        for user in &users {
            self.supply(*user)?;
        }
        Ok(())
    }

    /// Works through the list until no literal becomes reachable. Each action enters it at most once.
    fn run(&mut self, alloc: Global) -> Result<(), AllocError> {
        for _ in 0..self.goals.len() {
            let Some(action) = self.ready.pop() else {
                break;
            };
            let Some(met) = self.met.get_mut(action as usize) else {
                continue;
            };
            let effects = mem::replace(&mut met.effects, Vec::new(alloc));
            for effect in &effects {
                self.reach(alloc, *effect)?;
            }
        }
        Ok(())
    }

    /// Whether an action is reachable.
    pub(crate) fn is_possible(&self, goal: &GroundTask) -> bool {
        match self.goals.get_index_of(goal) {
            Some(number) => match self.met.get(number) {
                Some(met) => met.missing == 0,
                None => false,
            },
            None => false,
        }
    }

    /// The fluent atoms that may become true: those that are true at first, and those that become true.
    fn rising(&self, alloc: Global, first: &[Atom]) -> Result<State, AllocError> {
        let mut rising = Vec::from_clones(alloc, first)?;
        for (number, literal) in self.literals.as_slice().iter().enumerate() {
            if self.is_reached(number)
                && let Literal::Positive(atom) = literal
            {
                push_copy(&mut rising, atom)?;
            }
        }
        State::of(alloc, &rising)
    }

    /// The fluent atoms that may become false.
    fn failing(&self, alloc: Global) -> Result<State, AllocError> {
        let mut failing = Vec::new(alloc);
        for (number, literal) in self.literals.as_slice().iter().enumerate() {
            if self.is_reached(number)
                && let Literal::Negative(atom) = literal
            {
                push_copy(&mut failing, atom)?;
            }
        }
        State::of(alloc, &failing)
    }

    /// The fluent atoms that may become true, and those that are true at first and never become false.
    pub(crate) fn facts(&self, alloc: Global, task: &Task) -> Result<FactSets, AllocError> {
        let first = initial_fluents(alloc, task)?;
        let failing = self.failing(alloc)?;
        let lasting = lasting(alloc, first.as_slice(), &failing)?;
        let possible = self.rising(alloc, first.as_slice())?;
        let fluents = Vec::from_slice(alloc, task.fluents())?;
        Ok(FactSets {
            fluents,
            possible,
            lasting,
        })
    }

    /// All actions of the worklist, and those that are unreachable.
    pub(crate) fn marks(&self, alloc: Global) -> Result<Marks, AllocError> {
        let mut marks = Marks::none(alloc);
        for goal in self.goals.as_slice() {
            insert_copy(&mut marks.known, goal)?;
            if !self.is_possible(goal) {
                insert_copy(&mut marks.blocked, goal)?;
            }
        }
        Ok(marks)
    }

    /// Adds the actions of the initial networks.
    fn meet_initials(
        &mut self,
        alloc: Global,
        task: &Task,
        graph: &TaskGraph,
    ) -> Result<(), AllocError> {
        let initials = distinct_initials(alloc, task)?;
        for initial in initials.as_slice() {
            self.meet(alloc, task, graph, initial.children().as_slice())?;
        }
        Ok(())
    }

    /// Adds the actions of the decompositions.
    fn meet_decompositions(
        &mut self,
        alloc: Global,
        task: &Task,
        graph: &TaskGraph,
    ) -> Result<(), AllocError> {
        for decomposition in graph.decompositions() {
            self.meet(alloc, task, graph, decomposition.children.as_slice())?;
        }
        Ok(())
    }
}

/// The actions of the initial networks and of the decompositions, with the literals that they make reachable.
pub(crate) fn find_actions(
    alloc: Global,
    task: &Task,
    graph: &TaskGraph,
) -> Result<Actions, AllocError> {
    let mut actions = Actions::new(alloc);
    actions.meet_initials(alloc, task, graph)?;
    actions.meet_decompositions(alloc, task, graph)?;
    actions.run(alloc)?;
    Ok(actions)
}
