//! Searches: the words that finish, the least of them, and the solutions of words.

use crate::pairs::{
    AGAINST, ENDING, LATE, NEED, NOTHING, Pair, ROAD, SET_AND_CLEAR, THROUGH, TOUCH, TWO_ACTIONS,
    TWO_METHODS,
};
use crate::questions::{Question, answer_of};
use htn_ground::{Node, Solution};
use htn_search::{Bounds, Found, NoGate, SearchFault, find_word, finishes, rebuild};
use htn_task::Task;
use std::alloc::{AllocError, Global};
use std::sync::Wait;
use std::test::Fail;
use std::thread::Threads;

/// Whether a word finishes, in text.
pub fn finishes_text(alloc: Global, task: &Task, word: &[u64]) -> Result<String, Fail> {
    let is_finishing = finishes(alloc, task, word)?;
    Ok(format!(in alloc; "{is_finishing}")?)
}

#[test]
fn words_finish(rt: HostRuntime) -> Result<(), Fail> {
    let rows: [(Pair, &[u64]); 9] = [
        (ROAD, &[0, 2, 0, 0, 6, 0, 0, 0, 0]),
        (NOTHING, &[0]),
        (LATE, &[0, 0, 1, 0]),
        (TWO_METHODS, &[0, 0]),
        (TWO_ACTIONS, &[0, 0, 0]),
        (THROUGH, &[0, 0, 0, 0]),
        (TOUCH, &[0, 0]),
        (NEED, &[0, 1, 0]),
        (SET_AND_CLEAR, &[0, 0, 1, 0, 0, 1, 0]),
    ];
    for (pair, word) in rows {
        let found = answer_of(&rt, rt.alloc(), pair, Question::Finishes(word))?;
        assert!(rt; found.as_str() == "true", "{word:?}");
    }
    Ok(())
}

#[test]
fn other_words_do_not_finish(rt: HostRuntime) -> Result<(), Fail> {
    let rows: [(Pair, &[u64]); 9] = [
        (ROAD, &[0, 2, 0, 0, 6, 0, 0, 0]),
        (ROAD, &[0, 2, 0, 0, 6, 0, 0, 0, 0, 0]),
        (ROAD, &[0, 2, 0, 0, 6, 0, 0, 10, 0]),
        (ROAD, &[1, 2, 0, 0, 6, 0, 0, 0, 0]),
        (NOTHING, &[]),
        (LATE, &[0, 0, 0, 0]),
        (NEED, &[0, 0, 0]),
        (TOUCH, &[2, 0]),
        (SET_AND_CLEAR, &[0, 0, 1, 0, 0, 0, 0]),
    ];
    for (pair, word) in rows {
        let found = answer_of(&rt, rt.alloc(), pair, Question::Finishes(word))?;
        assert!(rt; found.as_str() == "false", "{word:?}");
    }
    Ok(())
}

/// The least word, or why there is none.
pub fn least_word<R: Threads + Wait + Sync>(
    rt: &R,
    alloc: Global,
    task: &Task,
    bounds: Bounds,
) -> Result<String, Fail> {
    match find_word(rt, alloc, task, bounds, &NoGate) {
        Ok(Found::Word(word)) => Ok(format!(in alloc; "{word:?}")?),
        Ok(Found::None) => Ok(String::from_str(alloc, "none")?),
        Ok(Found::Unsolvable) => Ok(String::from_str(alloc, "unsolvable")?),
        Err(SearchFault::OutOfMemory) => Ok(String::from_str(alloc, "out of memory")?),
        Err(SearchFault::NoThread) => Ok(String::from_str(alloc, "no thread")?),
    }
}

// Its numbers are those of all instances, of those also that a search passes over.
#[test]
fn least_words_are_found(rt: HostRuntime) -> Result<(), Fail> {
    let rows = [
        (ROAD, 8, "[0, 2, 0, 0, 6, 0, 0, 0, 0]"),
        (ROAD, 7, "none"),
        (NOTHING, 0, "[0]"),
        (LATE, 3, "[0, 0, 1, 0]"),
        (LATE, 2, "none"),
        (TWO_METHODS, 1, "[0, 0]"),
        (TWO_ACTIONS, 2, "[0, 0, 0]"),
        (THROUGH, 4, "[0, 0, 0, 0]"),
        (AGAINST, 2, "none"),
        (AGAINST, 4, "unsolvable"),
        (TOUCH, 1, "[0, 0]"),
        (NEED, 2, "[0, 1, 0]"),
        (SET_AND_CLEAR, 6, "[0, 0, 1, 0, 0, 1, 0]"),
        (SET_AND_CLEAR, 5, "none"),
    ];
    for (pair, nodes, text) in rows {
        let bounds = Bounds::new(nodes, 1, 64).ok_or("in range")?;
        let word = answer_of(&rt, rt.alloc(), pair, Question::LeastWord(bounds))?;
        assert_eq!(rt; word.as_str(), text);
    }
    Ok(())
}

// The values of the initial network, the number of its trees, and the places of the actions and steps in their order.
fn solution_text(alloc: Global, solution: &Solution) -> Result<String, Fail> {
    let trees = solution.trees.len();
    Ok(format!(in alloc;
        "{:?} {trees} {:?}",
        solution.initial.values(),
        solution.linearisation
    )?)
}

/// The solution of a word, if it finishes.
pub fn solution_of(
    alloc: Global,
    task: &Task,
    word: &[u64],
) -> Result<Option<Solution>, AllocError> {
    let finished = finishes(alloc, task, word)?;
    if finished {
        return Ok(Some(rebuild(alloc, task, word)?));
    }
    Ok(None)
}

/// The solution of a word in text.
pub fn rebuilt_text(alloc: Global, task: &Task, word: &[u64]) -> Result<String, Fail> {
    let solution = solution_of(alloc, task, word)?.ok_or("finishes")?;
    solution_text(alloc, &solution)
}

#[test]
fn words_have_solutions(rt: HostRuntime) -> Result<(), Fail> {
    let rows: [(Pair, &[u64], &str); 4] = [
        (
            ROAD,
            &[0, 2, 0, 0, 6, 0, 0, 0, 0],
            "[] 1 [[0, 0], [0, 1], [0, 2, 0], [0, 2, 1], [0, 2, 2, 0]]",
        ),
        (NOTHING, &[0], "[] 0 []"),
        (LATE, &[0, 0, 1, 0], "[] 2 [[1], [0, 0]]"),
        (TOUCH, &[1, 0], "[2] 1 [[0]]"),
    ];
    for (pair, word, text) in rows {
        let solution = answer_of(&rt, rt.alloc(), pair, Question::Rebuilt(word))?;
        assert_eq!(rt; solution.as_str(), text);
    }
    Ok(())
}

// The word that decomposes the task `levels` times into itself, and at last into nothing.
fn ending_word(alloc: Global, levels: usize) -> Result<Vec<u64>, AllocError> {
    let mut word = Vec::new(alloc);
    for _ in 0..levels {
        word.push(0)?;
    }
    word.push(1)?;
    Ok(word)
}

// How many nodes there are from the first tree down by first children.
fn depth(trees: &[Node]) -> u64 {
    let mut nodes = trees;
    for depth in 0..20_000 {
        match nodes.first() {
            Some(Node::Compound(_, _, children)) => nodes = children,
            Some(_) => return depth + 1,
            None => return depth,
        }
    }
    0
}

/// The depth of the solution of a word, in text.
pub fn depth_text(alloc: Global, task: &Task, word: &[u64]) -> Result<String, Fail> {
    let solution = solution_of(alloc, task, word)?.ok_or("finishes")?;
    Ok(format!(in alloc; "{}", depth(&solution.trees))?)
}

// The tree is let go, too.
#[test]
fn a_deep_tree_is_rebuilt(rt: HostRuntime) -> Result<(), Fail> {
    let word = ending_word(rt.alloc(), 10_000)?;
    let depth = answer_of(&rt, rt.alloc(), ENDING, Question::Depth(&word))?;
    assert_eq!(rt; depth.as_str(), "10000");
    Ok(())
}
