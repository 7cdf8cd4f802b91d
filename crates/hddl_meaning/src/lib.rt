//! The meaning of a domain and a problem together: when they fit together, and which planning task they are. The
//! definitions are in `specs/`.
#![tactic(auto)]

mod fault;

ghost use Rattle.hddl_meaning.specs.Agreement.{TasksAreUnique, TasksAreWellTyped, TasksExist};
ghost use Rattle.hddl_meaning.specs.Examples.{FaultsHavePlaces, FaultsHaveReasons, PackingIsATask, TreesHaveMeanings};

pub use fault::{At, CheckFault, Source};

/// A domain and a problem have one task at most: two that are theirs are equal, also where the pair doesn't fit
/// together.
pub fn pairs_have_one_task()
    ensures unique { TasksAreUnique }
{}

/// Each domain and problem have a task, also where the pair doesn't fit together.
pub fn pairs_have_a_task()
    ensures exist { TasksExist }
{}

/// The task of a domain and a problem that fit together is well typed: each number in it is that of something declared,
/// each atom and each task has as many arguments as its declaration has places, and orders are closed and have no
/// cycle.
pub fn tasks_are_well_typed()
    ensures typed { TasksAreWellTyped }
{}

/// Small trees: one that has each fault, at that fault's place, the meanings of some parts, a pair that fits together
/// with its task, and types that are on no cycle and clash with none.
pub fn worked_examples_hold()
    ensures faults { FaultsHavePlaces }
    ensures meanings { TreesHaveMeanings }
    ensures packing { PackingIsATask }
    ensures reasons { FaultsHaveReasons }
{}
