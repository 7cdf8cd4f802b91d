//! Configurations and their steps, one number of a word after the other.

use crate::pairs::{ENDLESS, LATE, Pair, ROAD, SET_AND_CLEAR};
use crate::questions::{Question, answer_of};
use htn_ground::{goal_literals, initials};
use htn_net::{Change, Choice, Config};
use htn_task::Task;
use indexmap::IndexSet;
use std::alloc::{AllocError, Global};
use std::process::Abort;
use std::test::Fail;

// The configuration at the start with the initial network of a number.
fn started(alloc: Global, task: &Task, number: usize) -> Result<Option<Config>, AllocError> {
    let instances = initials(alloc, task)?;
    match instances.get(number) {
        Some(instance) => Ok(Some(Config::start(alloc, task, instance)?)),
        None => Ok(None),
    }
}

// The configuration that a number leads to, if it is one of the choices.
fn stepped(
    alloc: Global,
    task: &Task,
    config: &Config,
    number: u64,
) -> Result<Option<Config>, AllocError> {
    for choice in &config.choices(alloc, task)? {
        if choice.number == number {
            return Ok(Some(config.step(alloc, task, choice)?));
        }
    }
    Ok(None)
}

fn numbers(alloc: Global, choices: &[Choice]) -> Result<Vec<u64>, AllocError> {
    choices.iter().map(|choice| choice.number).collect(alloc)
}

// How many nodes are open, the numbers of all choices, those of the live ones, and whether it is done.
fn line(alloc: Global, task: &Task, config: &Config) -> Result<String, Fail> {
    let all = numbers(alloc, &config.choices(alloc, task)?)?;
    let live = numbers(alloc, &config.live_choices(alloc, task)?)?;
    let goal = goal_literals(alloc, task)?;
    let done = if config.is_done(&goal) { " done" } else { "" };
    Ok(format!(in alloc; "{} {all:?} {live:?}{done}\n", config.open_len())?)
}

/// The configurations along a word from the first initial network on, up to a number that is none of the choices.
pub fn configurations(alloc: Global, task: &Task, word: &[u64]) -> Result<Vec<Config>, AllocError> {
    let mut passed = Vec::new(alloc);
    let mut here = started(alloc, task, 0)?;
    for number in word {
        let Some(config) = here else {
            return Ok(passed);
        };
        here = stepped(alloc, task, &config, *number)?;
        passed.push(config)?;
    }
    if let Some(config) = here {
        passed.push(config)?;
    }
    Ok(passed)
}

/// A line for each configuration along a word.
pub fn walk(alloc: Global, task: &Task, word: &[u64]) -> Result<String, Fail> {
    let mut text = String::new(alloc);
    let passed = configurations(alloc, task, word)?;
    for config in &passed {
        text.push_str(&line(alloc, task, config)?)?;
    }
    if passed.len() <= word.len() {
        text.push_str("refused\n")?;
    }
    Ok(text)
}

const ROAD_LINES: &str = "1 [0, 1, 2, 3, 4, 5, 6, 7, 8, 9] [0, 2, 6]
3 [0] [0]
2 [0] [0]
1 [0, 1, 2, 3, 4, 5, 6, 7, 8, 9] [0, 2, 6]
3 [0] [0]
2 [0] [0]
1 [0, 1, 2, 3, 4, 5, 6, 7, 8, 9] [0, 2, 6]
1 [0] [0]
0 [] [] done
";

// A truck that is at a can't go from b to c at once: the step of that instance doesn't hold.
const ROAD_REFUSED: &str = "1 [0, 1, 2, 3, 4, 5, 6, 7, 8, 9] [0, 2, 6]
3 [] []
refused
";

const SET_AND_CLEAR_LINES: &str = "3 [0] [0]
4 [1, 2] [1, 2]
3 [0, 1] [0, 1]
2 [0] [0]
2 [1] [1]
1 [0] [0]
0 [] [] done
";

// The second step comes too early: what it needs cleared is still set.
const SET_AND_CLEAR_REFUSED: &str = "3 [0] [0]
4 [1, 2] [1, 2]
3 [0, 1] [0, 1]
2 [0] [0]
2 [1] [1]
refused
";

const LATE_LINES: &str = "2 [0] [0]
2 [1] [1]
1 [0] [0]
0 [] [] done
";

const LATE_REFUSED: &str = "2 [0] [0]
2 [1] [1]
refused
";

// The numbers after the first, which is that of the only initial network.
#[test]
fn words_go_step_by_step(rt: HostRuntime) -> Result<(), Fail> {
    let rows: [(Pair, &[u64], &str); 6] = [
        (ROAD, &[2, 0, 0, 6, 0, 0, 0, 0], ROAD_LINES),
        (ROAD, &[6, 0], ROAD_REFUSED),
        (SET_AND_CLEAR, &[0, 1, 0, 0, 1, 0], SET_AND_CLEAR_LINES),
        (SET_AND_CLEAR, &[0, 1, 0, 0, 0], SET_AND_CLEAR_REFUSED),
        (LATE, &[0, 1, 0], LATE_LINES),
        (LATE, &[0, 0], LATE_REFUSED),
    ];
    for (pair, word, text) in rows {
        let lines = answer_of(&rt, rt.alloc(), pair, Question::Walk(word))?;
        assert_eq!(rt; lines.as_str(), text);
    }
    Ok(())
}

// How many configurations along a word differ.
fn count_different(alloc: Global, task: &Task, word: &[u64]) -> Result<usize, AllocError> {
    let mut seen = IndexSet::new(alloc);
    for config in configurations(alloc, task, word)? {
        seen.insert(config)?;
    }
    Ok(seen.len())
}

/// The same in text.
pub fn different_text(alloc: Global, task: &Task, word: &[u64]) -> Result<String, Fail> {
    let count = count_different(alloc, task, word)?;
    Ok(format!(in alloc; "{count}")?)
}

// The endless task leads to itself. The truck ends elsewhere than where it was, so all its configurations differ.
#[test]
fn equal_configurations_stand_once_in_a_set(rt: HostRuntime) -> Result<(), Fail> {
    let rows: [(Pair, &[u64], &str); 2] = [
        (ENDLESS, &[0, 0, 0], "1"),
        (ROAD, &[2, 0, 0, 6, 0, 0, 0, 0], "9"),
    ];
    for (pair, word, count) in rows {
        let different = answer_of(&rt, rt.alloc(), pair, Question::Different(word))?;
        assert_eq!(rt; different.as_str(), count);
    }
    Ok(())
}

// The method and the values of the instance that was chosen.
fn chosen_text(alloc: Global, chosen: Option<(usize, Change)>) -> Result<String, Fail> {
    match chosen {
        Some((_, Change::Decomposed(instance))) => {
            Ok(format!(in alloc; "{:?}{:?}", instance.method(), instance.values())?)
        }
        Some((_, Change::Performed(_))) => Ok(String::from_str(alloc, "performed")?),
        None => Ok(String::from_str(alloc, "none")?),
    }
}

/// What a rank chooses at the start.
pub fn listed_text(alloc: Global, task: &Task, rank: u64) -> Result<String, Fail> {
    let config = started(alloc, task, 0)?.ok_or("starts")?;
    chosen_text(alloc, config.choose_listed(alloc, task, rank)?)
}

/// What a number chooses at the start.
pub fn numbered_text(alloc: Global, task: &Task, number: u64) -> Result<String, Fail> {
    let config = started(alloc, task, 0)?.ok_or("starts")?;
    chosen_text(alloc, config.choose(alloc, task, number)?)
}

/// The numbers of the choices at the start that are not dead, or that one of them can't be listed.
pub fn live_numbers_text(alloc: Global, task: &Task) -> Result<String, Fail> {
    let config = started(alloc, task, 0)?.ok_or("starts")?;
    match config.live_choices(alloc, task) {
        Ok(choices) => {
            let live = numbers(alloc, &choices)?;
            Ok(format!(in alloc; "{live:?}")?)
        }
        Err(AllocError) => Ok(String::from_str(alloc, "out of memory")?),
    }
}

// Of ten instances three are not dead.
#[test]
fn ranks_choose_what_their_numbers_do(rt: HostRuntime) -> Result<(), Fail> {
    let rows = [
        (0, 0, "Some(0)[3, 2]"),
        (1, 2, "Some(1)[3, 0, 1, 2]"),
        (2, 6, "Some(1)[3, 1, 2, 2]"),
        (3, 10, "none"),
    ];
    for (rank, number, text) in rows {
        for question in [
            Question::ChosenByRank(rank),
            Question::ChosenByNumber(number),
        ] {
            let chosen = answer_of(&rt, rt.alloc(), ROAD, question)?;
            assert_eq!(rt; chosen.as_str(), text);
        }
    }
    Ok(())
}
