//! Which literals the effects of actions make reachable: a worklist with a count of the preconditions that each action
//! still needs, as Hoffmann and Nebel compute relaxed plans (The FF planning system, 2001), for negative literals as
//! well as for positive ones. The result has no contract, since it is checked.

use crate::ends::ending_tasks;
use crate::facts::Facts;
use crate::fine::Fine;
use crate::usable::Usable;
use htn_ground::{GroundTask, action_of};
use htn_task::{Action, Atom, Literal, State, Task};
use indexmap::IndexSet;
use std::alloc::{AllocError, Global};
use std::mem;
use task_graph::TaskGraph;

/// An action of the worklist.
#[derive(Drop)]
struct Met {
    /// The number of its preconditions that are not yet reachable.
    missing: u32,
    /// Its effects, by the numbers of literals.
    effects: Vec<u32>,
}

/// The worklist: actions and literals by number, and which literals are reachable so far.
struct Worklist {
    met: Vec<Met>,
    literals: IndexSet<Literal>,
    possible: Vec<bool>,
    /// For each literal, the actions that have it as a precondition and were added before it became reachable.
    uses: Vec<Vec<u32>>,
    /// Reachable actions whose effects have not been added yet.
    ready: Vec<u32>,
}

// `Drop` is written by hand: a derived one is expanded, and proved, at each way out of each owner.
impl Drop for Worklist {
    fn drop(self) {
        let Worklist {
            met: _,
            literals: _,
            possible: _,
            uses: _,
            ready: _,
        } = self;
    }
}

impl Worklist {
    fn new(alloc: Global) -> Worklist {
        Worklist {
            met: Vec::new(alloc),
            literals: IndexSet::new(alloc),
            possible: Vec::new(alloc),
            uses: Vec::new(alloc),
            ready: Vec::new(alloc),
        }
    }

    /// Whether the literal of a number is reachable so far.
    fn is_reached(&self, number: usize) -> bool {
        self.possible.get(number).copied().unwrap_or(false)
    }

    /// The number of a literal, which is added if it has none yet. It is reachable if it holds in the initial state.
    fn number(&mut self, alloc: Global, task: &Task, literal: Literal) -> Result<u32, AllocError> {
        let holds = task.initial_atoms().literal_holds(&literal);
        let (place, is_new) = self.literals.insert_full(literal)?;
        if is_new {
            self.possible.push(holds)?;
            self.uses.push(Vec::new(alloc))?;
        }
        u32::try_from(place).map_err(|_| AllocError)
    }

    /// Counts the preconditions of an action that are not yet reachable, and adds the action to the uses of each.
    fn missing_of(
        &mut self,
        alloc: Global,
        task: &Task,
        action: u32,
        literals: &[Literal],
    ) -> Result<u32, AllocError> {
        let mut missing = 0u32;
        for literal in literals {
            let number = self.number(alloc, task, literal.clone()?)? as usize;
            if self.is_reached(number) {
                continue;
            }
            if let Some(users) = self.uses.get_mut(number) {
                users.push(action)?;
                missing = missing.saturating_add(1);
            }
        }
        Ok(missing)
    }

    /// The numbers of an action's effects. An atom that is deleted and added is true afterwards.
    fn effects_of(
        &mut self,
        alloc: Global,
        task: &Task,
        action: &Action,
    ) -> Result<Vec<u32>, AllocError> {
        let mut effects = Vec::new(alloc);
        for atom in action.adds.atoms() {
            let literal = Literal::Positive(atom.clone()?);
            effects.push(self.number(alloc, task, literal)?)?;
        }
        for atom in action.deletes.atoms() {
            if !action.adds.contains(atom) {
                let literal = Literal::Negative(atom.clone()?);
                effects.push(self.number(alloc, task, literal)?)?;
            }
        }
        Ok(effects)
    }

    /// Adds an action. One that no objects satisfy always has a literal to wait for.
    fn add(
        &mut self,
        alloc: Global,
        task: &Task,
        number: usize,
        action: Option<&Action>,
    ) -> Result<(), AllocError> {
        let Ok(number) = u32::try_from(number) else {
            return Err(AllocError);
        };
        let met = match action {
            Some(action) => Met {
                missing: self.missing_of(alloc, task, number, action.precondition.as_slice())?,
                effects: self.effects_of(alloc, task, action)?,
            },
            None => Met {
                missing: 1,
                effects: Vec::new(alloc),
            },
        };
        if met.missing == 0 {
            self.ready.push(number)?;
        }
        self.met.push(met)?;
        Ok(())
    }

    /// Counts one precondition of an action as reachable.
    fn supply(&mut self, action: u32) -> Result<(), AllocError> {
        let Some(met) = self.met.get_mut(action as usize) else {
            return Ok(());
        };
        met.missing = met.missing.saturating_sub(1);
        let missing = met.missing;
        if missing == 0 {
            self.ready.push(action)?;
        }
        Ok(())
    }

    /// Makes a literal reachable, if it is not so already.
    fn reach(&mut self, alloc: Global, literal: u32) -> Result<(), AllocError> {
        let Some(possible) = self.possible.get_mut(literal as usize) else {
            return Ok(());
        };
        if *possible {
            return Ok(());
        }
        *possible = true;
        let Some(uses) = self.uses.get_mut(literal as usize) else {
            return Ok(());
        };
        let users = mem::replace(uses, Vec::new(alloc));
        for user in &users {
            self.supply(*user)?;
        }
        Ok(())
    }

    /// Works through the list until no literal becomes reachable. Each action enters it at most once.
    fn run(&mut self, alloc: Global) -> Result<(), AllocError> {
        for _ in 0..self.met.len() {
            let Some(action) = self.ready.pop() else {
                break;
            };
            let Some(met) = self.met.get_mut(action as usize) else {
                continue;
            };
            let effects = mem::replace(&mut met.effects, Vec::new(alloc));
            for effect in &effects {
                self.reach(alloc, *effect)?;
            }
        }
        Ok(())
    }

    /// Whether the action of a number is reachable.
    fn is_possible(&self, number: usize) -> bool {
        match self.met.get(number) {
            Some(met) => met.missing == 0,
            None => false,
        }
    }

    /// The atoms that may be true: those that are true at first, and those that become true.
    fn rising(&self, alloc: Global, first: &[Atom]) -> Result<State, AllocError> {
        let mut rising = Vec::from_clones(alloc, first)?;
        for (number, literal) in self.literals.as_slice().iter().enumerate() {
            if self.is_reached(number)
                && let Literal::Positive(atom) = literal
            {
                push_copy(&mut rising, atom)?;
            }
        }
        State::of(alloc, &rising)
    }

    /// The atoms that become false.
    fn failing(&self, alloc: Global) -> Result<State, AllocError> {
        let mut failing = Vec::new(alloc);
        for (number, literal) in self.literals.as_slice().iter().enumerate() {
            if self.is_reached(number)
                && let Literal::Negative(atom) = literal
            {
                push_copy(&mut failing, atom)?;
            }
        }
        State::of(alloc, &failing)
    }

    /// The atoms that may be true, and those that are true at first and never become false.
    fn facts(&self, alloc: Global, task: &Task) -> Result<Facts, AllocError> {
        let first = task.initial_atoms().atoms();
        let failing = self.failing(alloc)?;
        Ok(Facts {
            possible: self.rising(alloc, first)?,
            lasting: lasting(alloc, first, &failing)?,
        })
    }

    /// Adds the actions of these ground tasks, and works the list off.
    fn work_off(
        &mut self,
        alloc: Global,
        task: &Task,
        goals: &[GroundTask],
    ) -> Result<(), AllocError> {
        for (number, goal) in goals.iter().enumerate() {
            let action = action_of(alloc, task, goal)?;
            self.add(alloc, task, number, action.as_ref())?;
        }
        self.run(alloc)
    }

    /// Those of the ground tasks that were added whose action is reachable.
    fn reached(
        &self,
        alloc: Global,
        goals: &[GroundTask],
    ) -> Result<IndexSet<GroundTask>, AllocError> {
        let mut actions = IndexSet::new(alloc);
        for (number, goal) in goals.iter().enumerate() {
            if self.is_possible(number) {
                let _ = actions.insert(goal.clone()?)?;
            }
        }
        Ok(actions)
    }

    /// What is fine by the list, once it is worked off; no task is.
    fn fine(&self, alloc: Global, task: &Task, goals: &[GroundTask]) -> Result<Fine, AllocError> {
        Ok(Fine {
            is_open: false,
            facts: self.facts(alloc, task)?,
            actions: self.reached(alloc, goals)?,
            tasks: IndexSet::new(alloc),
            barred: IndexSet::new(alloc),
        })
    }
}

/// Adds a copy of an atom to a list.
fn push_copy(atoms: &mut Vec<Atom>, atom: &Atom) -> Result<(), AllocError> {
    let copy = atom.clone()?;
    atoms.push(copy)?;
    Ok(())
}

/// The atoms of a state that are not among the atoms of another one.
fn lasting(alloc: Global, initial: &[Atom], failing: &State) -> Result<State, AllocError> {
    let mut atoms = Vec::new(alloc);
    for atom in initial {
        if !failing.contains(atom) {
            atoms.push(atom.clone()?)?;
        }
    }
    State::of(alloc, &atoms)
}

/// The nodes that a plan may have, by the actions and tasks that it may use.
pub(crate) fn find_fine(
    alloc: Global,
    task: &Task,
    graph: &TaskGraph,
    usable: &Usable,
) -> Result<Fine, AllocError> {
    let goals = usable.actions.as_slice();
    let mut list = Worklist::new(alloc);
    list.work_off(alloc, task, goals)?;
    let mut fine = list.fine(alloc, task, goals)?;
    fine.tasks = ending_tasks(alloc, graph, &fine)?;
    Ok(fine)
}
