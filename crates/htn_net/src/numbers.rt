//! The numbers of a word of ranks.
ghost use Rattle.std.specs.Prelude.{◌≡◌, ◌++◌, ℕ, Contains, IfNone, IfOk, IfSome, IsSome, OnOk, Option, Some, false, slice_get};
ghost use Rattle.std.specs.List.{All};
ghost use Rattle.htn_model.specs.Exhaustion.{is_dead};
ghost use Rattle.htn_model.specs.Grounding.{problem_of};
ghost use Rattle.htn_model.specs.Instance.{instance_eq};
ghost use Rattle.htn_model.specs.Instances as model;
ghost use Rattle.htn_model.specs.Machine.{start};
ghost use Rattle.htn_model.specs.Problem.{network_eq};
ghost use Rattle.htn_walk.specs.Choices.{IsChosen};
ghost use Rattle.htn_walk.specs.Listed.{choose_listed, listing_machine, number_at, number_of};
ghost use Rattle.htn_walk.specs.Told.{FinishesListed, told, told_word};
ghost use Rattle.word_machine.specs.Machine.{IsFinishing, IsStep};

use crate::config::Config;
use htn_ground::{
    Child, GroundTask, Instance, counted_live_methods_of, distinct_initials, initials,
};
use htn_task::Task;
use htn_walk::Change;
use std::alloc::{AllocError, Global};

/// Whether two instances have one network.
fn has_same_network(a: &Instance, b: &Instance) -> bool
    ensures { result ≡ network_eq a.now.network b.now.network }
{
    a.children() == b.children() && a.order() == b.order()
}

/// Whether two instances have the same method, values and network.
fn is_same(a: &Instance, b: &Instance) -> bool
    ensures { result ≡ instance_eq a.now b.now }
{
    let has_same_source = a.method() == b.method() && a.values() == b.values();
    has_same_source && has_same_network(a, b)
}

/// The place of an instance among numbered ones, whose numbers are None where they do not fit.
fn place_among(numbered: &[(Option<u64>, Instance)], instance: &Instance) -> Option<usize>
    ensures some { IfSome result (λ place. (number : Option ℕ) × (slice_get numbered.now place ≡ Some (number, instance.now))) }
    ensures none { IfNone result (All (λ p. instance_eq p.1 instance.now ≡ false) numbered.now) }
{
    for (place, (_, other)) in numbered.iter().enumerate() {
        if is_same(other, instance) {
            return Some(place);
        }
    }
    None
}

/// The number of an instance that is not dead, among all of a ground task. The dead ones are skipped. An error means
/// that memory was refused, or that this number is past 64 bits; the numbers of other instances may be.
fn instance_number(
    alloc: Global,
    task: &Task,
    goal: &GroundTask,
    instance: &Instance,
) -> Result<u64, AllocError>
    requires stands { (number : ℕ) × (slice_get (model.methods_of task.now goal.now) number ≡ Some instance.now) }
    requires alive { is_dead (problem_of task.now) instance.now.network ≡ false }
    ensures { IfOk result (λ number. slice_get (model.methods_of task.now goal.now) number ≡ Some instance.now) }
{
    let live = counted_live_methods_of(alloc, task, goal)?;
    let Some(place) = place_among(&live, instance) else {
        unreachable!()
    };
    let Some(number) = live[place].0 else {
        return Err(AllocError);
    };
    Ok(number)
}

/// The place of an instance of the initial network among all of them.
fn place_of(instances: &[Instance], instance: &Instance) -> Option<usize>
    ensures some { IfSome result (λ place. slice_get instances.now place ≡ Some instance.now) }
    ensures none { IfNone result (All (λ i. instance_eq i instance.now ≡ false) instances.now) }
{
    for (place, other) in instances.iter().enumerate() {
        if is_same(other, instance) {
            return Some(place);
        }
    }
    None
}

/// The number of an instance of the initial network, among all of them.
fn initial_number(alloc: Global, task: &Task, instance: &Instance) -> Result<u64, AllocError>
    requires { (number : ℕ) × (slice_get (model.initials task.now) number ≡ Some instance.now) }
    ensures { IfOk result (λ number. slice_get (model.initials task.now) number ≡ Some instance.now) }
{
    let all = initials(alloc, task)?;
    let Some(place) = place_of(&all, instance) else {
        unreachable!()
    };
    Ok(place as u64)
}

/// The number that corresponds to a rank: of an instance its number among all of the task, and of a step or an action
/// the rank itself.
fn rank_number(
    alloc: Global,
    task: &Task,
    config: &Config,
    rank: u64,
    position: usize,
    change: &Change,
) -> Result<u64, AllocError>
    requires { (number : ℕ) × (number_at task.now config.now rank ≡ Some number) × IsChosen task.now config.now number (position, change.now) }
    ensures { IfOk result (λ number. number ≡ number_of task.now config.now rank) }
{
    let _typed = task.objects();
    match change {
        Change::Performed(_) => Ok(rank),
        Change::Decomposed(instance) => match config.node_at(position) {
            Child::Task(goal) => instance_number(alloc, task, goal, instance),
            Child::Action(_) | Child::Precondition(_) => unreachable!(),
        },
    }
}

/// The number of a rank, and the configuration to which it leads.
fn one_rank(
    alloc: Global,
    task: &Task,
    config: &Config,
    rank: u64,
) -> Result<(u64, Config), AllocError>
    requires { IsSome (choose_listed task.now config.now rank) }
    ensures number { IfOk result (λ r. r.0 ≡ number_of task.now config.now rank) }
    ensures step { IfOk result (λ r. IsStep (listing_machine task.now) config.now rank r.1) }
{
    let Some((position, change)) = config.choose_listed(alloc, task, rank)? else {
        unreachable!()
    };
    let number = rank_number(alloc, task, config, rank, position, &change)?;
    let next = config.after(alloc, task, position, &change)?;
    Ok((number, next))
}

/// Appends the numbers of ranks that lead from an initial network to a done configuration.
fn push_numbers(
    alloc: Global,
    task: &Task,
    initial: &Instance,
    ranks: &[u64],
    word: &mut Vec<u64>,
) -> Result<(), AllocError>
    requires initial { Contains (model.initials task.now) initial.now }
    requires finishes { FinishesListed task.now (start (problem_of task.now) initial.now.network) ranks.now }
    ensures { OnOk result (word.new.items ≡ word.old.items ++ told task.now (start (problem_of task.now) initial.now.network) ranks.now) }
{
    let mut config = Config::start(alloc, task, initial)?;
    for rank in ranks {
        let (number, next) = one_rank(alloc, task, &config, *rank)?;
        word.push(number)?;
        config = next;
    }
    Ok(())
}

/// The word of numbers of a word of ranks that finishes. An error means that memory was refused, or that a number of
/// the word itself is past 64 bits.
pub fn word_of_ranks(alloc: Global, task: &Task, ranks: &[u64]) -> Result<Vec<u64>, AllocError>
    requires { IsFinishing (listing_machine task.now) ranks.now }
    ensures { IfOk result (λ word. word.items ≡ told_word task.now ranks.now) }
{
    let _typed = task.objects();
    let mut word = Vec::with_capacity(alloc, ranks.len())?;
    let Some((rank, ranks)) = ranks.split_first() else {
        unreachable!()
    };
    let mut listed = distinct_initials(alloc, task)?;
    let initial = listed.swap_remove(*rank as usize);
    word.push(initial_number(alloc, task, &initial)?)?;
    push_numbers(alloc, task, &initial, ranks, &mut word)?;
    Ok(word)
}
