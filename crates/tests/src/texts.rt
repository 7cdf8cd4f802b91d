//! Texts of domains and problems: what the trees have, and the faults of long texts and of beginnings.

use crate::text_answers::{Reader, expect_run};
use hddl_text::{Condition, DomainText, ProblemText, Term, TextFault, read_domain, read_problem};
use hddl_words::{LiteralText, MethodText, NetworkText};
use std::alloc::{AllocError, Global};
use std::process::Abort;

#[test]
fn longest_domain(rt: HostRuntime) -> Result<(), AllocError> {
    let alloc = rt.alloc();
    expect_run(
        &rt,
        alloc,
        Reader::Domain,
        (b' ', 16_777_216),
        "Expected at 16777216",
    )
}

#[test]
fn too_long_problem(rt: HostRuntime) -> Result<(), AllocError> {
    expect_run(
        &rt,
        rt.alloc(),
        Reader::Problem,
        (b' ', 16_777_217),
        "TooLong at 16777216",
    )
}

const ROAD: &[u8] = b"(define (domain road)
  (:requirements :typing :hierarchy :method-preconditions)
  (:types place truck)
  (:predicates (road ?a ?b - place) (at ?t - truck ?p - place))
  (:task go :parameters (?t - truck ?p - place))
  (:method m-stay
    :parameters (?t - truck ?p - place)
    :task (go ?t ?p)
    :precondition (at ?t ?p)
    :subtasks ())
  (:method m-step
    :parameters (?t - truck ?a ?b ?p - place)
    :task (go ?t ?p)
    :precondition (and (at ?t ?a) (road ?a ?b))
    :ordered-subtasks (and (drive ?t ?a ?b) (go ?t ?p)))
  (:action drive
    :parameters (?t - truck ?a ?b - place)
    :precondition (and (at ?t ?a) (road ?a ?b))
    :effect (and (not (at ?t ?a)) (at ?t ?b))))";

/// Expects the fault of a beginning of that text, which ends before its last bracket.
fn expect_refused<R: Abort>(rt: &R, alloc: Global, text: &[u8]) {
    let fault = read_domain(alloc, text).err();
    let is_its = match text.split_last() {
        None => fault == Some(TextFault::Expected(0)),
        Some((b'?' | b':', before)) => fault == Some(TextFault::BadWord(before.len())),
        Some(_) => matches!(fault, Some(TextFault::Unclosed(_))),
    };
    assert!(rt; is_its, "{} bytes: {fault:?}", text.len());
}

#[test]
fn beginnings(rt: HostRuntime) {
    for len in 0..ROAD.len() {
        expect_refused(&rt, rt.alloc(), &ROAD[..len]);
    }
}

fn is_road(domain: &DomainText) -> bool {
    domain.name.place() == 16
        && domain.name.text() == b"road".as_slice()
        && domain.requirements.len() == 3
        && domain.types.len() == 1
        && domain.constants.len() == 0
        && domain.predicates.len() == 2
        && domain.tasks.len() == 1
        && domain.methods.len() == 2
        && domain.actions.len() == 1
}

fn is_step(step: &MethodText) -> bool {
    let [_, places] = step.parameters.as_slice() else {
        return false;
    };
    ROAD.get(step.place).copied() == Some(b'(')
        && step.name.text() == b"m-step".as_slice()
        && places.variables.len() == 3
        && step.precondition.len() == 2
        && step.network.is_ordered
        && step.network.subtasks.len() == 2
}

/// Whether the effects of driving are to leave a place and to be at another one.
fn are_moves(effects: &[LiteralText]) -> bool {
    let [leaves, arrives] = effects else {
        return false;
    };
    !leaves.is_positive && arrives.is_positive
}

fn has_parts(domain: &DomainText) -> bool {
    match (domain.methods.as_slice(), domain.actions.as_slice()) {
        ([_, step], [drive]) => is_step(step) && are_moves(drive.effect.as_slice()),
        _ => false,
    }
}

#[test]
fn road(rt: HostRuntime) -> Result<(), TextFault> {
    let domain: DomainText = read_domain(rt.alloc(), ROAD)?;
    assert!(rt; is_road(&domain), "the sections");
    assert!(rt; has_parts(&domain), "the second method and the action");
    Ok(())
}

/// A problem with each of its sections.
const DELIVERY: &[u8] = b"(define (problem p) (:domain d) (:objects a b - t c) (:init (p a))
        (:goal (and (p b) (and (not (q ?x)) (forall (?y) (= ?y b)))))
        (:htn :parameters (?x) :subtasks (and (s1 (go t1 c)) (go ?x)) :ordering (s1 < s1)))";

fn is_delivery(problem: &ProblemText) -> bool {
    problem.name.text() == b"p".as_slice()
        && problem.domain.text() == b"d".as_slice()
        && problem.objects.len() == 2
        && problem.init.len() == 1
        && DELIVERY.get(problem.htn.place).copied() == Some(b'(')
}

/// Whether a goal of three conditions, since a nested `and` adds its parts in its place, ends with a `forall`.
fn ends_with_forall(goal: &[Condition]) -> bool {
    match goal {
        [_, _, Condition::Forall(parameters, body)] => parameters.len() == 1 && body.len() == 1,
        _ => false,
    }
}

fn is_delivered(network: &NetworkText) -> bool {
    let [first, second] = network.subtasks.as_slice() else {
        return false;
    };
    let [Term::Variable(variable)] = second.task.terms.as_slice() else {
        return false;
    };
    !network.is_ordered
        && network.orderings.len() == 1
        && first.label.is_some()
        && first.task.name.place().checked_sub(first.place()) == Some(4)
        && variable.text() == b"?x".as_slice()
}

#[test]
fn delivery(rt: HostRuntime) -> Result<(), TextFault> {
    let problem: ProblemText = read_problem(rt.alloc(), DELIVERY)?;
    assert!(rt; is_delivery(&problem), "the sections");
    assert!(rt; ends_with_forall(problem.goal.as_slice()), "the goal");
    assert!(rt; is_delivered(&problem.htn.network), "the network");
    Ok(())
}
