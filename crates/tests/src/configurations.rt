//! Configurations along words, and all that their numbers stand for.

use crate::instances::{atoms_text, child_text};
use crate::pairs::{LATE, Pair, ROAD, SET_AND_CLEAR};
use crate::questions::{Question, answer_of};
use crate::steps::configurations;
use htn_net::{Change, Choice, Config};
use htn_order::Order;
use htn_task::Task;
use std::alloc::Global;
use std::test::Fail;

// The pairs of positions of which the first is before the second.
fn order_text(alloc: Global, order: &Order) -> Result<String, Fail> {
    let mut text = String::new(alloc);
    for a in 0..order.size() {
        for b in 0..order.size() {
            if order.is_before(a, b) {
                text.push_str(&format!(in alloc; " {a}<{b}")?)?;
            }
        }
    }
    Ok(text)
}

// The atoms that are true, the open nodes, and their order.
fn configuration_text(alloc: Global, config: &Config) -> Result<String, Fail> {
    let atoms = atoms_text(alloc, config.state())?;
    let mut text = format!(in alloc; "true{atoms} open")?;
    for node in config.open_nodes().as_slice() {
        text.push_str(&child_text(alloc, node)?)?;
    }
    let order = order_text(alloc, config.order())?;
    text.push_str(&format!(in alloc; " order{order}\n")?)?;
    Ok(text)
}

/// A line for each configuration along a word: the state, the open nodes and their order.
pub fn configurations_text(alloc: Global, task: &Task, word: &[u64]) -> Result<String, Fail> {
    let mut text = String::new(alloc);
    for config in &configurations(alloc, task, word)? {
        text.push_str(&configuration_text(alloc, config)?)?;
    }
    Ok(text)
}

// Numbers 0 to 3 are a, b, c and the truck; predicate 0 says what is joined, and predicate 1 where the truck is.
const ROAD_CONFIGURATIONS: &str = "true 0[0, 1] 0[1, 2] 1[3, 0] open task 0[3, 2] order
true 0[0, 1] 0[1, 2] 1[3, 0] open step: 1[3, 0] 0[0, 1] action 1[3, 0, 1] task 0[3, 2] order 0<1 0<2 1<2
true 0[0, 1] 0[1, 2] 1[3, 0] open action 1[3, 0, 1] task 0[3, 2] order 0<1
true 0[0, 1] 0[1, 2] 1[3, 1] open task 0[3, 2] order
";

// The two actions stand in no order with the nodes that take the first task's place.
const SET_AND_CLEAR_CONFIGURATIONS: &str = "true open task 0[] action 2[] action 3[] order
true open step: 0[] task 1[] action 2[] action 3[] order 0<1
true 0[] open step: 0[] task 1[] action 3[] order 0<1
true 0[] open task 1[] action 3[] order
true 0[] open step: not 0[] action 3[] order
true open step: not 0[] order
true open order
";

// The numbers after the first, which is that of the only initial network.
#[test]
fn steps_lead_to_configurations(rt: HostRuntime) -> Result<(), Fail> {
    let rows: [(Pair, &[u64], &str); 2] = [
        (ROAD, &[2, 0, 0], ROAD_CONFIGURATIONS),
        (
            SET_AND_CLEAR,
            &[0, 1, 0, 0, 1, 0],
            SET_AND_CLEAR_CONFIGURATIONS,
        ),
    ];
    for (pair, word, text) in rows {
        let found = answer_of(&rt, rt.alloc(), pair, Question::Configurations(word))?;
        assert_eq!(rt; found.as_str(), text);
    }
    Ok(())
}

// The number, the position of the node, and the instance that decomposes it or the atoms that are true then.
fn choice_text(alloc: Global, choice: &Choice) -> Result<String, Fail> {
    let number = choice.number();
    let position = choice.position;
    match &choice.change {
        Change::Decomposed(instance) => {
            let method = instance.method();
            let values = instance.values();
            Ok(format!(in alloc; "{number} at {position}: {method:?}{values:?}\n")?)
        }
        Change::Performed(state) => {
            let atoms = atoms_text(alloc, state)?;
            Ok(format!(in alloc; "{number} at {position}:{atoms}\n")?)
        }
    }
}

fn choices_of(alloc: Global, choices: &[Choice]) -> Result<String, Fail> {
    let mut text = String::new(alloc);
    for choice in choices {
        text.push_str(&choice_text(alloc, choice)?)?;
    }
    Ok(text)
}

/// A line for each choice at the end of a word, and then one for each that is not dead.
pub fn choices_text(alloc: Global, task: &Task, word: &[u64]) -> Result<String, Fail> {
    let passed = configurations(alloc, task, word)?;
    let config = passed.last().ok_or("starts")?;
    let mut text = choices_of(alloc, &config.choices(alloc, task)?)?;
    text.push_str("live\n")?;
    text.push_str(&choices_of(alloc, &config.live_choices(alloc, task)?)?)?;
    Ok(text)
}

const ROAD_CHOICES: &str = "0 at 0: Some(0)[3, 2]
1 at 0: Some(1)[3, 0, 0, 2]
2 at 0: Some(1)[3, 0, 1, 2]
3 at 0: Some(1)[3, 0, 2, 2]
4 at 0: Some(1)[3, 1, 0, 2]
5 at 0: Some(1)[3, 1, 1, 2]
6 at 0: Some(1)[3, 1, 2, 2]
7 at 0: Some(1)[3, 2, 0, 2]
8 at 0: Some(1)[3, 2, 1, 2]
9 at 0: Some(1)[3, 2, 2, 2]
live
0 at 0: Some(0)[3, 2]
2 at 0: Some(1)[3, 0, 1, 2]
6 at 0: Some(1)[3, 1, 2, 2]
";

const STEP_CHOICES: &str = "0 at 0: 0[0, 1] 0[1, 2] 1[3, 0]
live
0 at 0: 0[0, 1] 0[1, 2] 1[3, 0]
";

const DRIVE_CHOICES: &str = "0 at 0: 0[0, 1] 0[1, 2] 1[3, 1]
live
0 at 0: 0[0, 1] 0[1, 2] 1[3, 1]
";

// Number 0 is that of the step, which doesn't hold yet. The node at position 1 is not free.
const SET_AND_CLEAR_CHOICES: &str = "1 at 2: 0[]
2 at 3:
live
1 at 2: 0[]
2 at 3:
";

const LATE_CHOICES: &str = "1 at 1: 0[]
live
1 at 1: 0[]
";

#[test]
fn choices_are_listed(rt: HostRuntime) -> Result<(), Fail> {
    let rows: [(Pair, &[u64], &str); 5] = [
        (ROAD, &[], ROAD_CHOICES),
        (ROAD, &[2], STEP_CHOICES),
        (ROAD, &[2, 0], DRIVE_CHOICES),
        (SET_AND_CLEAR, &[0], SET_AND_CLEAR_CHOICES),
        (LATE, &[0], LATE_CHOICES),
    ];
    for (pair, word, text) in rows {
        let choices = answer_of(&rt, rt.alloc(), pair, Question::Choices(word))?;
        assert_eq!(rt; choices.as_str(), text);
    }
    Ok(())
}
