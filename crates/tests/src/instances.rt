//! Instances: which there are, with their numbers, children and orders.

use crate::pairs::{DEAD, EQUALITIES, NEED, Pair, ROAD, SPARE, TOUCH, TOUCH_NONE};
use crate::questions::{Question, answer_of};
use htn_ground::{
    Child, GroundTask, Instance, ObjectList, distinct_initials, distinct_live_methods_of, initials,
    live_methods_of, methods_of,
};
use htn_order::Order;
use htn_task::{Literal, State, Task};
use std::alloc::Global;
use std::test::Fail;

// An atom by the numbers of its predicate and its objects.
fn literal_text(alloc: Global, literal: &Literal) -> Result<String, Fail> {
    match literal {
        Literal::Positive(atom) => {
            Ok(format!(in alloc; " {}{:?}", atom.predicate(), atom.arguments())?)
        }
        Literal::Negative(atom) => {
            Ok(format!(in alloc; " not {}{:?}", atom.predicate(), atom.arguments())?)
        }
        Literal::Same(x, y) => Ok(format!(in alloc; " {x} = {y}")?),
        Literal::Different(x, y) => Ok(format!(in alloc; " not {x} = {y}")?),
    }
}

fn literals_text(alloc: Global, literals: &[Literal]) -> Result<String, Fail> {
    let mut text = String::new(alloc);
    for literal in literals {
        text.push_str(&literal_text(alloc, literal)?)?;
    }
    Ok(text)
}

/// The node as it stands in the lines of instances.
pub fn child_text(alloc: Global, child: &Child) -> Result<String, Fail> {
    match child {
        Child::Precondition(literals) => {
            let text = literals_text(alloc, literals.as_slice())?;
            Ok(format!(in alloc; " step:{text}")?)
        }
        Child::Action(task) => {
            Ok(format!(in alloc; " action {}{:?}", task.name(), task.arguments())?)
        }
        Child::Task(task) => {
            Ok(format!(in alloc; " task {}{:?}", task.name(), task.arguments())?)
        }
    }
}

// The number, that of the method, the values, the children, and whether each child is before all later ones.
fn line(alloc: Global, number: u64, instance: &Instance) -> Result<String, Fail> {
    let method = instance.method();
    let mut text = format!(in alloc; "{number}: {method:?}{:?}", instance.values())?;
    for child in instance.children().as_slice() {
        text.push_str(&child_text(alloc, child)?)?;
    }
    if !is_chain(instance.order()) {
        text.push_str(" in no sequence")?;
    }
    text.push('\n')?;
    Ok(text)
}

// Whether each position is before all later ones, and no other.
fn is_chain(order: &Order) -> bool {
    for a in 0..order.size() {
        for b in 0..order.size() {
            if order.is_before(a, b) != (a < b) {
                return false;
            }
        }
    }
    true
}

fn lines(alloc: Global, instances: &[Instance]) -> Result<String, Fail> {
    let mut text = String::new(alloc);
    for (place, instance) in instances.iter().enumerate() {
        text.push_str(&line(alloc, place as u64, instance)?)?;
    }
    Ok(text)
}

fn live_lines(alloc: Global, instances: &[(u64, Instance)]) -> Result<String, Fail> {
    let mut text = String::new(alloc);
    for (number, instance) in instances {
        text.push_str(&line(alloc, *number, instance)?)?;
    }
    Ok(text)
}

/// A line for each instance of a compound task, and then one for each that is not dead.
pub fn instances_text(
    alloc: Global,
    task: &Task,
    name: u32,
    objects: &[u16],
) -> Result<String, Fail> {
    let goal = GroundTask::new(name, ObjectList::of(alloc, objects)?);
    let mut text = lines(alloc, &methods_of(alloc, task, &goal)?)?;
    text.push_str("live\n")?;
    text.push_str(&live_lines(alloc, &live_methods_of(alloc, task, &goal)?)?)?;
    Ok(text)
}

/// A line for each instance of the initial network.
pub fn initials_text(alloc: Global, task: &Task) -> Result<String, Fail> {
    lines(alloc, &initials(alloc, task)?)
}

// The places a, b and c are 0, 1 and 2, and the truck is 3; predicate 1 says where it is, predicate 0 what is joined.
const ROAD_LINES: &str = "0: Some(0)[3, 2] step: 1[3, 2]
1: Some(1)[3, 0, 0, 2] step: 1[3, 0] 0[0, 0] action 1[3, 0, 0] task 0[3, 2]
2: Some(1)[3, 0, 1, 2] step: 1[3, 0] 0[0, 1] action 1[3, 0, 1] task 0[3, 2]
3: Some(1)[3, 0, 2, 2] step: 1[3, 0] 0[0, 2] action 1[3, 0, 2] task 0[3, 2]
4: Some(1)[3, 1, 0, 2] step: 1[3, 1] 0[1, 0] action 1[3, 1, 0] task 0[3, 2]
5: Some(1)[3, 1, 1, 2] step: 1[3, 1] 0[1, 1] action 1[3, 1, 1] task 0[3, 2]
6: Some(1)[3, 1, 2, 2] step: 1[3, 1] 0[1, 2] action 1[3, 1, 2] task 0[3, 2]
7: Some(1)[3, 2, 0, 2] step: 1[3, 2] 0[2, 0] action 1[3, 2, 0] task 0[3, 2]
8: Some(1)[3, 2, 1, 2] step: 1[3, 2] 0[2, 1] action 1[3, 2, 1] task 0[3, 2]
9: Some(1)[3, 2, 2, 2] step: 1[3, 2] 0[2, 2] action 1[3, 2, 2] task 0[3, 2]
live
0: Some(0)[3, 2] step: 1[3, 2]
2: Some(1)[3, 0, 1, 2] step: 1[3, 0] 0[0, 1] action 1[3, 0, 1] task 0[3, 2]
6: Some(1)[3, 1, 2, 2] step: 1[3, 1] 0[1, 2] action 1[3, 1, 2] task 0[3, 2]
";

// Of the three methods the first never has an instance, and the last has one only where both objects are equal.
const SAME_LINES: &str = "0: Some(1)[0, 0]
1: Some(2)[0]
live
0: Some(1)[0, 0]
1: Some(2)[0]
";

const OTHER_LINES: &str = "0: Some(1)[0, 1]
live
0: Some(1)[0, 1]
";

const DEAD_LINES: &str = "0: Some(0)[] step: 0[] task 0[] task 0[] in no sequence
live
";

const NEED_LINES: &str = "0: Some(0)[0] step: 0[0]
1: Some(0)[1] step: 0[1]
live
1: Some(0)[1] step: 0[1]
";

#[test]
fn methods_have_instances(rt: HostRuntime) -> Result<(), Fail> {
    let rows: [(Pair, &[u16], &str); 5] = [
        (ROAD, &[3, 2], ROAD_LINES),
        (EQUALITIES, &[0, 0], SAME_LINES),
        (EQUALITIES, &[0, 1], OTHER_LINES),
        (DEAD, &[], DEAD_LINES),
        (NEED, &[], NEED_LINES),
    ];
    for (pair, objects, text) in rows {
        let lines = answer_of(&rt, rt.alloc(), pair, Question::Instances(objects))?;
        assert_eq!(rt; lines.as_str(), text);
    }
    Ok(())
}

#[test]
fn initial_networks_have_instances(rt: HostRuntime) -> Result<(), Fail> {
    let rows = [
        (ROAD, "0: None[] task 0[3, 2]\n"),
        (TOUCH, "0: None[1] action 0[1]\n1: None[2] action 0[2]\n"),
        (TOUCH_NONE, ""),
    ];
    for (pair, text) in rows {
        let lines = answer_of(&rt, rt.alloc(), pair, Question::Initials)?;
        assert_eq!(rt; lines.as_str(), text);
    }
    Ok(())
}

/// The atoms of a state, in their order.
pub fn atoms_text(alloc: Global, state: &State) -> Result<String, Fail> {
    let mut text = String::new(alloc);
    for atom in state.atoms() {
        let atom = format!(in alloc; " {}{:?}", atom.predicate(), atom.arguments())?;
        text.push_str(&atom)?;
    }
    Ok(text)
}

const SPARE_LINES: &str = "0: Some(0)[0, 1]
1: Some(1)[0, 0] action 1[0]
2: Some(1)[0, 1] action 1[1]
";

/// A line for each instance of the first compound task whose network no earlier one has.
pub fn distinct_text(alloc: Global, task: &Task) -> Result<String, Fail> {
    let goal = GroundTask::new(0, ObjectList::of(alloc, &[])?);
    lines(alloc, &distinct_live_methods_of(alloc, task, &goal)?)
}

#[test]
fn equal_networks_are_listed_once(rt: HostRuntime) -> Result<(), Fail> {
    let found = answer_of(&rt, rt.alloc(), SPARE, Question::DistinctInstances)?;
    assert_eq!(rt; found.as_str(), SPARE_LINES);
    Ok(())
}

/// The distinct instances of the initial network, a line for each.
pub fn distinct_initials_text(alloc: Global, task: &Task) -> Result<String, Fail> {
    lines(alloc, &distinct_initials(alloc, task)?)
}

#[test]
fn initial_networks_that_differ_are_listed(rt: HostRuntime) -> Result<(), Fail> {
    let found = answer_of(&rt, rt.alloc(), TOUCH, Question::DistinctInitials)?;
    assert_eq!(rt;
        found.as_str(),
        "0: None[1] action 0[1]\n1: None[2] action 0[2]\n"
    );
    Ok(())
}
