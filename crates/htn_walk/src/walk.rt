//! A walk along a finishing word, one choice at a time.
ghost use Rattle.std.specs.Prelude.{◌≡◌, ◌<◌, ◌++◌, [], ℕ, Contains, IfOk, IsSome, OnOk, false, true, get_or, length};
ghost use Rattle.htn_ground.specs.Views.{child_view};
ghost use Rattle.htn_model.specs.Choice.{splice};
ghost use Rattle.htn_model.specs.Grounding.{problem_of};
ghost use Rattle.htn_model.specs.Instances.{initials};
ghost use Rattle.htn_model.specs.Machine.{start};
ghost use Rattle.htn_model.specs.Problem.{is_compound};
ghost use Rattle.htn_walk.specs.Choices.{IsChosen, network_of};
ghost use Rattle.htn_walk.specs.Places.{child_places, open_places, own_place, places_view};
ghost use Rattle.htn_ground.specs.Trees.{Numbering, node_of};
ghost use Rattle.htn_walk.specs.Trail.{bare, decomposed_by, number_by};
ghost use Rattle.htn_walk.specs.Walk.{IsOneOn, IsStart};

use crate::change::Change;
use crate::front::Front;
use crate::places::{child_places, open_children, take_place};
use crate::trail::Move;
use htn_ground::{Child, Instance, Node};
use htn_task::Task;
use std::alloc::{AllocError, Global};

/// A walk along a word: its current configuration, and the choices so far.
#[derive(Drop)]
pub struct Walk {
    pub config: Front,
    /// The places of the open nodes, from the last to the first.
    pub places: Vec<Vec<usize>>,
    /// The move of each number.
    pub trail: Vec<Move>,
    /// The places of the actions and steps that were carried out, in their order.
    pub visits: Vec<Vec<usize>>,
}

/// The number of nodes that replace the chosen one.
fn children_len(change: &Change) -> usize
    ensures { result ≡ length (network_of change.now).children }
{
    match change {
        Change::Decomposed(instance) => instance.children().len(),
        Change::Performed(_) => 0,
    }
}

/// Adds the places of a compound node's children, or appends the place of an action or a step to those that were
/// carried out.
fn leave(
    alloc: Global,
    places: &mut Vec<Vec<usize>>,
    visits: &mut Vec<Vec<usize>>,
    node: &Child,
    position: usize,
    count: usize,
) -> Result<(), AllocError>
    requires within { position < length places.old.items }
    requires childless { is_compound (child_view node.now) ≡ false → count ≡ 0 }
    ensures places { OnOk result (open_places places.new.items
        ≡ splice position (child_places (get_or (open_places places.old.items) position []) 0 count) (open_places places.old.items)) }
    ensures visits { OnOk result (places_view visits.new.items
        ≡ places_view visits.old.items ++ own_place (child_view node.now) (get_or (open_places places.old.items) position [])) }
{
    match node {
        Child::Task(_) => open_children(alloc, places, position, count),
        Child::Action(_) | Child::Precondition(_) => {
            visits.push(take_place(places, position))?;
            Ok(())
        }
    }
}

/// A node that is closed by a change, without children.
fn closed(alloc: Global, node: Child, change: Change) -> Node
    requires { is_compound (child_view node) ≡ true → IsSome (decomposed_by change) }
    ensures { (numbers : Numbering) → node_of numbers result ≡ bare (child_view node) (number_by numbers (child_view node) (decomposed_by change)) }
{
    match node {
        Child::Precondition(literals) => Node::Step(literals),
        Child::Action(task) => Node::Leaf(task),
        Child::Task(task) => match change {
            Change::Decomposed(instance) => Node::Compound(task, instance, Vec::new(alloc)),
            Change::Performed(_) => unreachable!(),
        },
    }
}

impl Walk {
    /// The walk after one choice: a change of the open node at a position.
    pub fn take(
        self,
        alloc: Global,
        task: &Task,
        position: usize,
        change: Change,
    ) -> Result<Walk, AllocError>
        requires chosen { (number : ℕ) × IsChosen task.now self.config number (position, change) }
        requires placed { length self.places.items ≡ length self.config.open_nodes }
        ensures { IfOk result (λ next. (number : ℕ) → IsChosen task.now self.config number (position, change)
            → IsOneOn task.now number self next) }
    {
        let _typed = task.objects();
        let Walk {
            config,
            mut places,
            mut trail,
            mut visits,
        } = self;
        let children = children_len(&change);
        let (node, config) = config.after(alloc, task, position, &change)?;
        leave(alloc, &mut places, &mut visits, &node, position, children)?;
        trail.push(Move {
            position,
            node: closed(alloc, node, change),
            children,
        })?;
        Ok(Walk {
            config,
            places,
            trail,
            visits,
        })
    }
}

/// The walk at the start with an instance of the initial network.
pub fn start_walk(alloc: Global, task: &Task, initial: &Instance) -> Result<Walk, AllocError>
    requires { Contains (initials task.now) initial.now }
    ensures { IfOk result (IsStart (problem_of task.now) initial.now.network) }
{
    Ok(Walk {
        config: Front::start(alloc, task, initial)?,
        places: child_places(alloc, Vec::new(alloc), initial.children().len())?,
        trail: Vec::new(alloc),
        visits: Vec::new(alloc),
    })
}
