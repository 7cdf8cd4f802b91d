//! Tasks whose methods have very many instances, most of which a search passes over.

use crate::questions::{Question, answer_between};
use htn_search::Bounds;
use std::alloc::Global;
use std::sync::Wait;
use std::test::Fail;
use std::thread::Threads;

// A problem with `things` objects and these atoms, in which the task `t` is to be done.
fn problem_text(alloc: Global, things: u64, atoms: &str) -> Result<String, Fail> {
    let mut text = String::from_str(alloc, "(define (problem x) (:domain d) (:objects")?;
    for thing in 0..things {
        text.push_str(&format!(in alloc; " o{thing}")?)?;
    }
    text.push_str(&format!(in alloc; " - thing) (:htn :subtasks (t)) (:init {atoms}))")?)?;
    Ok(text)
}

const BESIDE: &str = "(define (domain d) (:types thing) (:predicates (p ?x - thing)) (:task t)
  (:method e :task (t))
  (:method m :parameters (?a ?b ?c ?d ?e ?f ?g ?h ?i - thing) :task (t)
    :precondition (and (p ?a) (p ?b) (p ?c) (p ?d) (p ?e) (p ?f) (p ?g) (p ?h) (p ?i))))";

// Two instances are not dead: number 0, and one whose number is past 64 bits.
const ONE_NUMBERED: (&str, u64, &str) = (BESIDE, 256, "(p o255)");

// The answer to a question about a task with a number of objects.
fn asked<R: Threads + Wait + Sync>(
    rt: &R,
    alloc: Global,
    case: (&str, u64, &str),
    question: Question<'_>,
) -> Result<String, Fail> {
    let (domain, things, atoms) = case;
    let problem = problem_text(alloc, things, atoms)?;
    answer_between(rt, alloc, domain, problem.as_str(), question)
}

#[test]
fn a_number_past_64_bits_beside_it_changes_no_word(rt: HostRuntime) -> Result<(), Fail> {
    let bounds = Bounds::new(1, 1, 64).ok_or("in range")?;
    let rows: [(Question<'_>, &str); 7] = [
        (Question::LeastWord(bounds), "[0, 0]"),
        (Question::Finishes(&[0, 0]), "true"),
        (Question::Rebuilt(&[0, 0]), "[] 1 []"),
        // Dead instances.
        (Question::Finishes(&[0, 1]), "false"),
        (Question::Finishes(&[0, u64::MAX]), "false"),
        // No such initial network.
        (Question::Finishes(&[1, 0]), "false"),
        (Question::Within(1), "==>\nroot 0\n0 t -> e\n<==\n"),
    ];
    for (question, text) in rows {
        let found = asked(&rt, rt.alloc(), ONE_NUMBERED, question)?;
        assert_eq!(rt; found.as_str(), text);
    }
    Ok(())
}

// The last parameter changes from each number to the next.
#[test]
fn numbers_choose_dead_instances_too(rt: HostRuntime) -> Result<(), Fail> {
    let rows = [
        (0, "Some(0)[]"),
        (1, "Some(1)[0, 0, 0, 0, 0, 0, 0, 0, 0]"),
        (5, "Some(1)[0, 0, 0, 0, 0, 0, 0, 0, 4]"),
        (
            u64::MAX,
            "Some(1)[0, 255, 255, 255, 255, 255, 255, 255, 254]",
        ),
    ];
    for (number, text) in rows {
        let chosen = asked(
            &rt,
            rt.alloc(),
            ONE_NUMBERED,
            Question::ChosenByNumber(number),
        )?;
        assert_eq!(rt; chosen.as_str(), text);
    }
    Ok(())
}

// The same method alone: its one instance that is not dead stands in each word.
const ALONE: &str = "(define (domain d) (:types thing) (:predicates (p ?x - thing)) (:task t)
  (:method m :parameters (?a ?b ?c ?d ?e ?f ?g ?h ?i - thing) :task (t)
    :precondition (and (p ?a) (p ?b) (p ?c) (p ?d) (p ?e) (p ?f) (p ?g) (p ?h) (p ?i))))";

// A number that has to be listed, or stands in the word, and is past 64 bits.
#[test]
fn a_number_past_64_bits_is_not_handed_out(rt: HostRuntime) -> Result<(), Fail> {
    let bounds = Bounds::new(2, 1, 64).ok_or("in range")?;
    let rows = [
        (ONE_NUMBERED, Question::LiveNumbers, "out of memory"),
        ((BESIDE, 256, ""), Question::LiveNumbers, "[0]"),
        ((BESIDE, 2, "(p o1)"), Question::LiveNumbers, "[0, 512]"),
        (
            (ALONE, 256, "(p o255)"),
            Question::LeastWord(bounds),
            "out of memory",
        ),
        (
            (ALONE, 2, "(p o1)"),
            Question::LeastWord(bounds),
            "[0, 511, 0]",
        ),
    ];
    for (case, question, text) in rows {
        let found = asked(&rt, rt.alloc(), case, question)?;
        assert_eq!(rt; found.as_str(), text);
    }
    Ok(())
}
