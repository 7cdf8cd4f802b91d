//! The preconditions and effects of precondition steps and actions, by the numbers of literals. They have no contract,
//! since [`Needs::of`] checks what it makes of them.

use htn_ground::Child;
use htn_task::{Action, Atom, Literal, Task};
use indexmap::IndexSet;
use std::alloc::{AllocError, Global};
use task_graph::TaskGraph;

/// Precondition steps and actions by number, each with the numbers of the literals that it wants and gives: its fluent
/// preconditions, and its effects.
pub(crate) struct Leaves {
    pub(crate) literals: IndexSet<Literal>,
    pub(crate) leaves: IndexSet<Child>,
    pub(crate) wants: Vec<Vec<u32>>,
    pub(crate) gives: Vec<Vec<u32>>,
}

// `Drop` is written by hand: a derived one is expanded, and proved, at each way out of each owner.
impl Drop for Leaves {
    fn drop(self) {
        let Leaves {
            literals: _,
            leaves: _,
            wants: _,
            gives: _,
        } = self;
    }
}

/// Whether the atom of a literal is fluent.
fn is_fluent(task: &Task, literal: &Literal) -> bool {
    match literal {
        Literal::Positive(atom) | Literal::Negative(atom) => task.is_fluent(atom.predicate()),
        Literal::Same(_, _) | Literal::Different(_, _) => false,
    }
}

impl Leaves {
    /// No steps and no literals.
    pub(crate) fn new(alloc: Global) -> Leaves {
        Leaves {
            literals: IndexSet::new(alloc),
            leaves: IndexSet::new(alloc),
            wants: Vec::new(alloc),
            gives: Vec::new(alloc),
        }
    }

    /// The literals, and the steps and actions.
    pub(crate) fn into_sets(self) -> (IndexSet<Literal>, IndexSet<Child>) {
        let Leaves {
            literals,
            leaves,
            wants: _,
            gives: _,
        } = self;
        (literals, leaves)
    }

    /// The number of a literal, which is added if it is new.
    fn number(&mut self, literal: Literal) -> Result<u32, AllocError> {
        let (place, _) = self.literals.insert_full(literal)?;
        // This never fails: an `IndexSet` takes at most 9 * 2^28 values, and answers past them as if memory had been
        // refused. That many literals take more than 25 GB.
        u32::try_from(place).map_err(|_| AllocError)
    }

    /// The numbers of the fluent ones among literals.
    fn wanted(
        &mut self,
        alloc: Global,
        task: &Task,
        literals: &[Literal],
    ) -> Result<Vec<u32>, AllocError> {
        let mut numbers = Vec::new(alloc);
        for literal in literals {
            if is_fluent(task, literal) {
                numbers.push(self.number(literal.clone()?)?)?;
            }
        }
        Ok(numbers)
    }

    /// The numbers of an action's effects.
    fn given(&mut self, alloc: Global, action: &Action) -> Result<Vec<u32>, AllocError> {
        let mut numbers = Vec::new(alloc);
        for atom in action.adds.atoms() {
            numbers.push(self.number(Literal::Positive(atom.clone()?))?)?;
        }
        for atom in action.deletes.atoms() {
            numbers.push(self.number(Literal::Negative(atom.clone()?))?)?;
        }
        Ok(numbers)
    }

    /// The number of a step or an action, which is added with what it wants and gives if it has none yet.
    pub(crate) fn meet(
        &mut self,
        alloc: Global,
        task: &Task,
        graph: &TaskGraph,
        child: &Child,
    ) -> Result<u32, AllocError> {
        let (place, is_new) = self.leaves.insert_full(child.clone()?)?;
        // As for literals: the set takes no more than 9 * 2^28 nodes.
        let Ok(number) = u32::try_from(place) else {
            return Err(AllocError);
        };
        if !is_new {
            return Ok(number);
        }
        let mut wants = Vec::new(alloc);
        let mut gives = Vec::new(alloc);
        match child {
            Child::Precondition(literals) => {
                wants = self.wanted(alloc, task, literals.as_slice())?;
            }
            Child::Action(_) => {
                if let Some(action) = graph.id_of(child).and_then(|id| graph.action(id)) {
                    wants = self.wanted(alloc, task, action.precondition.as_slice())?;
                    gives = self.given(alloc, action)?;
                }
            }
            Child::Task(_) => {}
        }
        self.wants.push(wants)?;
        self.gives.push(gives)?;
        Ok(number)
    }
}
