//! Domains with problems, and the tasks that they are.

use hddl_check::check;
use hddl_text::{read_domain, read_problem};
use htn_task::Task;
use std::alloc::Global;
use std::test::Fail;

/// A domain and a problem.
#[derive(Clone, Copy)]
pub struct Pair {
    pub domain: &'static str,
    pub problem: &'static str,
}

/// A truck that drives from a over b to c.
pub const ROAD: Pair = Pair {
    domain: ROAD_DOMAIN,
    problem: "(define (problem p1)
  (:domain road)
  (:objects a b c - place t1 - truck)
  (:htn :parameters () :subtasks (go t1 c))
  (:init (at t1 a) (road a b) (road b c)))",
};

/// Nothing is to be done.
pub const NOTHING: Pair = Pair {
    domain: "(define (domain d))",
    problem: "(define (problem x) (:domain d) (:htn :subtasks ()))",
};

/// Two unordered tasks: the method of one needs what the other makes.
pub const LATE: Pair = Pair {
    domain: LATE_DOMAIN,
    problem: "(define (problem x) (:domain d) (:htn :subtasks (and (a) (make-p))))",
};

/// Three unordered tasks: what the first needs is set and cleared by the others, and its subtask needs it cleared.
pub const SET_AND_CLEAR: Pair = Pair {
    domain: "(define (domain d) (:predicates (p)) (:task t) (:task u)
  (:method m :task (t) :precondition (p) :subtasks (u))
  (:method n :task (u) :precondition (not (p)))
  (:action set-p :effect (p)) (:action clear-p :effect (not (p))))",
    problem: "(define (problem x) (:domain d)
  (:htn :subtasks (and (t) (set-p) (clear-p))))",
};

/// A task with two empty methods.
pub const TWO_METHODS: Pair = Pair {
    domain: "(define (domain d) (:task t) (:method m1 :task (t)) (:method m2 :task (t)))",
    problem: ONE_TASK,
};

/// Two unordered actions.
pub const TWO_ACTIONS: Pair = Pair {
    domain: "(define (domain d) (:action y) (:action x))",
    problem: "(define (problem x) (:domain d) (:htn :tasks (and (y) (x))))",
};

/// An action, a task that leaves nothing behind, and an action that needs what the first makes.
pub const THROUGH: Pair = Pair {
    domain: "(define (domain d) (:predicates (q)) (:task t) (:method m :task (t))
  (:action x :effect (q))
  (:action y :precondition (q)))",
    problem: "(define (problem x) (:domain d) (:htn :ordered-tasks (and (x) (t) (y))))",
};

/// The same, but the first action needs what the last makes.
pub const AGAINST: Pair = Pair {
    domain: "(define (domain d) (:predicates (q)) (:task t) (:method m :task (t))
  (:action x :precondition (q)) (:action y :effect (q)))",
    problem: "(define (problem x) (:domain d) (:htn :ordered-tasks (and (x) (t) (y))))",
};

/// A task whose one method has that task for its subtask.
pub const ENDLESS: Pair = Pair {
    domain: "(define (domain d) (:task t) (:method m :task (t) :subtasks (t)))",
    problem: ONE_TASK,
};

/// The endless task with a second method, which has no subtask.
pub const ENDING: Pair = Pair {
    domain: "(define (domain d) (:task t) (:method m :task (t) :subtasks (t)) (:method e :task (t)))",
    problem: ONE_TASK,
};

/// A task each of whose methods has an action that needs what the other's makes, beside an action that deletes what is
/// true at first, but for an atom that it adds again.
pub const CIRCLE: Pair = Pair {
    domain: "(define (domain d) (:predicates (p) (q) (r) (s)) (:task t)
  (:method m1 :task (t) :subtasks (make-p)) (:method m2 :task (t) :subtasks (make-q))
  (:action make-p :precondition (q) :effect (p)) (:action make-q :precondition (p) :effect (q))
  (:action change :precondition (and (r) (s)) :effect (and (not (r)) (not (s)) (s))))",
    problem: "(define (problem x) (:domain d) (:init (r) (s)) (:htn :subtasks (and (t) (change))))",
};

/// A task whose one method has that task twice, and needs what is never true.
pub const DEAD: Pair = Pair {
    domain: "(define (domain d) (:predicates (q)) (:task t)
  (:method m :task (t) :precondition (q) :subtasks (and (t) (t))))",
    problem: ONE_TASK,
};

/// A task whose one method needs what is true of the second object.
pub const NEED: Pair = Pair {
    domain: "(define (domain d) (:types thing) (:predicates (have ?x - thing)) (:task t)
  (:method m-need :parameters (?x - thing) :task (t) :precondition (have ?x)))",
    problem: "(define (problem x) (:domain d) (:objects o1 o2 - thing) (:init (have o2))
  (:htn :subtasks (t)))",
};

/// One of three objects is touched, but not the first.
pub const TOUCH: Pair = Pair {
    domain: TOUCHING,
    problem: "(define (problem x) (:domain d) (:objects o1 o2 o3 - thing)
  (:htn :parameters (?x - thing) :subtasks (touch ?x)
        :constraints (not (= ?x o1))))",
};

/// The same where there is only the first.
pub const TOUCH_NONE: Pair = Pair {
    domain: TOUCHING,
    problem: "(define (problem x) (:domain d) (:objects o1 - thing)
  (:htn :parameters (?x - thing) :subtasks (touch ?x)
        :constraints (not (= ?x o1))))",
};

/// Methods whose equalities name two constants, and one for the task at an object twice.
pub const EQUALITIES: Pair = Pair {
    domain: "(define (domain d) (:constants a b) (:task t :parameters (?x ?y))
  (:method m-same :parameters (?x ?y) :task (t ?x ?y) :precondition (= a b))
  (:method m-other :parameters (?x ?y) :task (t ?x ?y) :precondition (not (= a b)))
  (:method m-twice :parameters (?x) :task (t ?x ?x)))",
    problem: "(define (problem x) (:domain d) (:htn :subtasks (t a b)))",
};

/// A task whose first method has two parameters that its network does not show, and whose second has one.
pub const SPARE: Pair = Pair {
    domain: "(define (domain d) (:types thing) (:task t)
  (:method m-none :parameters (?x ?y - thing) :task (t) :precondition (not (= ?x ?y)))
  (:method m-touch :parameters (?x ?y - thing) :task (t) :subtasks (touch ?y))
  (:action touch :parameters (?x - thing)))",
    problem: "(define (problem x) (:domain d) (:objects o1 o2 - thing) (:htn :subtasks (t)))",
};

const ONE_TASK: &str = "(define (problem x) (:domain d) (:htn :tasks (t)))";

const TOUCHING: &str =
    "(define (domain d) (:types thing) (:action touch :parameters (?x - thing)))";

const ROAD_DOMAIN: &str = "(define (domain road)
  (:requirements :typing :hierarchy :method-preconditions)
  (:types place truck)
  (:predicates (road ?a ?b - place) (at ?t - truck ?p - place))
  (:task go :parameters (?t - truck ?p - place))
  (:method m-stay
    :parameters (?t - truck ?p - place)
    :task (go ?t ?p)
    :precondition (at ?t ?p)
    :subtasks ())
  (:method m-step
    :parameters (?t - truck ?a ?b ?p - place)
    :task (go ?t ?p)
    :precondition (and (at ?t ?a) (road ?a ?b))
    :ordered-subtasks (and (drive ?t ?a ?b) (go ?t ?p)))
  (:action drive
    :parameters (?t - truck ?a ?b - place)
    :precondition (and (at ?t ?a) (road ?a ?b))
    :effect (and (not (at ?t ?a)) (at ?t ?b))))";

const LATE_DOMAIN: &str =
    "(define (domain d) (:predicates (p)) (:task a :parameters () :precondition () :effect ())
  (:method m-a :task (a) :precondition (p) :subtasks ())
  (:action make-p :effect (p)))";

/// The task of a domain's text and a problem's.
pub fn task_between(alloc: Global, domain: &str, problem: &str) -> Result<Task, Fail> {
    let domain = read_domain(alloc, domain.as_bytes())?;
    let problem = read_problem(alloc, problem.as_bytes())?;
    let task = check(alloc, &domain, &problem)?;
    Ok(task)
}

/// The task of a pair.
pub fn task_of(alloc: Global, pair: Pair) -> Result<Task, Fail> {
    task_between(alloc, pair.domain, pair.problem)
}
