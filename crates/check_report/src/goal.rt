//! A problem that has no plan of any size.
ghost use Rattle.std.specs.Prelude.{◌≡◌, ℕ, IfOk};
ghost use Rattle.hddl_meaning.specs.declared.fault.Source.TheVariants as side;
ghost use Rattle.check_report.specs.ReachWarnings.{IsNoPlanWarning};

use diagnostics::{Diagnostic, Part, Severity, Where};
use hddl_meaning::Source;
use hddl_names::fold;
use hddl_words::{AtomText, Condition, LiteralText, Term};
use htn_task::{Atom, Literal, Task};
use never_applied::NoPlan;
use pair_messages::{At, PairTexts, spot_of};
use std::alloc::{AllocError, Global};

/// A place of the problem.
fn in_problem(place: usize) -> At
    ensures { result ≡ record { source = side.Problem; place = place } }
{
    At {
        source: Source::Problem,
        place,
    }
}

/// Whether a term of the goal stands for an object, as each variable may.
fn may_stand_for(alloc: Global, task: &Task, term: &Term, object: u16) -> Result<bool, AllocError> {
    match term {
        Term::Variable(_) => Ok(true),
        Term::Object(name) => {
            let text = fold(alloc, name.text())?;
            Ok(task.object_number(text.as_slice()) == Some(object as usize))
        }
    }
}

/// Whether an atom of the goal stands for a ground atom.
fn may_be_atom(
    alloc: Global,
    task: &Task,
    text: &AtomText,
    atom: &Atom,
) -> Result<bool, AllocError> {
    let Some(predicate) = task.predicates().get(atom.predicate() as usize) else {
        return Ok(false);
    };
    let name = fold(alloc, text.name.text())?;
    if name.as_slice() != predicate.name().as_bytes() {
        return Ok(false);
    }
    for (term, object) in text.terms.as_slice().iter().zip(atom.arguments()) {
        if !may_stand_for(alloc, task, term, *object)? {
            return Ok(false);
        }
    }
    Ok(true)
}

/// Whether a literal of the goal stands for a ground literal.
fn may_be(
    alloc: Global,
    task: &Task,
    text: &LiteralText,
    literal: &Literal,
) -> Result<bool, AllocError> {
    match literal {
        Literal::Positive(atom) if text.is_positive => may_be_atom(alloc, task, &text.atom, atom),
        Literal::Negative(atom) if !text.is_positive => may_be_atom(alloc, task, &text.atom, atom),
        _ => Ok(false),
    }
}

/// The first literal of a condition that stands for a ground literal.
fn literal_in<'a>(
    alloc: Global,
    task: &Task,
    condition: &'a Condition,
    literal: &Literal,
) -> Result<Option<&'a LiteralText>, AllocError> {
    match condition {
        Condition::Literal(text) => {
            let is = may_be(alloc, task, text, literal)?;
            Ok(if is { Some(text) } else { None })
        }
        Condition::Equality(_) => Ok(None),
        Condition::Forall(_, body) => {
            for part in body.as_slice() {
                let found = literal_in(alloc, task, part, literal)?;
                if found.is_some() {
                    return Ok(found);
                }
            }
            Ok(None)
        }
    }
}

/// The first literal of the goal that stands for a ground literal.
fn goal_literal<'a>(
    alloc: Global,
    task: &Task,
    goal: &'a [Condition],
    literal: &Literal,
) -> Result<Option<&'a LiteralText>, AllocError> {
    for condition in goal {
        let found = literal_in(alloc, task, condition, literal)?;
        if found.is_some() {
            return Ok(found);
        }
    }
    Ok(None)
}

/// The place of the first equation of conditions, if they have one outside a `forall`.
fn equation_place(goal: &[Condition]) -> Option<usize> {
    for condition in goal {
        if let Condition::Equality(equality) = condition {
            return Some(match &equality.left {
                Term::Variable(variable) => variable.place(),
                Term::Object(name) => name.place(),
            });
        }
    }
    None
}

/// An atom as it is written, from its bracket to its bracket where it stands on one line; else its name.
fn written<'a>(texts: &PairTexts<'a>, atom: &'a AtomText) -> &'a [u8] {
    let name = atom.name.text();
    let Some(problem) = texts.problem else {
        return name;
    };
    let Some(start) = atom.name.place().checked_sub(1) else {
        return name;
    };
    let Some(rest) = problem.lines.text().get(start..) else {
        return name;
    };
    let Some(close) = rest.iter().position(|byte| *byte == b')') else {
        return name;
    };
    let Some(whole) = rest.get(..close.saturating_add(1)) else {
        return name;
    };
    let is_plain = whole
        .iter()
        .all(|byte| *byte >= b' ' && *byte <= b'~' && *byte != b';');
    if whole.first() == Some(&b'(') && is_plain {
        whole
    } else {
        name
    }
}

/// What is wrong with the goal, and where.
fn goal_message<'a>(
    alloc: Global,
    texts: &PairTexts<'a>,
    task: &Task,
    literal: &Literal,
) -> Result<(usize, Vec<Part<'a>>), AllocError> {
    let goal = texts.problem_tree.goal.as_slice();
    if let Some(text) = goal_literal(alloc, task, goal, literal)? {
        let parts = vec![in alloc;
            Part::Words("there is no plan: "),
            Part::Name(written(texts, &text.atom)),
            Part::Words(if text.is_positive {
                " of the goal is never true"
            } else {
                " of the goal is never false"
            }),
        ]?;
        return Ok((text.atom.name.place(), parts));
    }
    let place = equation_place(goal).unwrap_or(texts.problem_tree.name.place());
    let parts = vec![in alloc; Part::Words("there is no plan: an equation of the goal is false")]?;
    Ok((place, parts))
}

/// Which task of `:htn` nothing carries out, and where.
fn subtask_message<'a>(
    alloc: Global,
    texts: &PairTexts<'a>,
    place: usize,
) -> Result<(usize, Vec<Part<'a>>), AllocError> {
    let htn = &texts.problem_tree.htn;
    match htn.network.subtasks.as_slice().get(place) {
        Some(subtask) => {
            let parts = vec![in alloc;
                Part::Words("there is no plan: nothing carries out "),
                Part::Name(written(texts, &subtask.task)),
            ]?;
            Ok((subtask.task.name.place(), parts))
        }
        None => initial_message(alloc, texts),
    }
}

/// That no values of the parameters of `:htn` let its tasks be carried out, and where it stands.
fn initial_message<'a>(
    alloc: Global,
    texts: &PairTexts<'a>,
) -> Result<(usize, Vec<Part<'a>>), AllocError> {
    let parts = vec![in alloc;
        Part::Words("there is no plan: nothing carries out the tasks of "),
        Part::Name(b":htn"),
    ]?;
    Ok((texts.problem_tree.htn.place, parts))
}

/// The warning of a problem that has no plan.
pub(crate) fn no_plan_warning<'a>(
    alloc: Global,
    texts: &PairTexts<'a>,
    task: &Task,
    why: &NoPlan,
) -> Result<Diagnostic<'a>, AllocError>
    ensures { IfOk result (λ d. (place : ℕ) × IsNoPlanWarning texts.now place d) }
{
    let (place, message) = match why {
        NoPlan::Goal(literal) => goal_message(alloc, texts, task, literal)?,
        NoPlan::Subtask(place) => subtask_message(alloc, texts, *place)?,
        NoPlan::Initial => initial_message(alloc, texts)?,
    };
    Ok(Diagnostic {
        severity: Severity::Warning,
        code: "NoPlan",
        about: Where::Place(spot_of(texts, in_problem(place))),
        message,
        label: Vec::new(alloc),
        remarks: Vec::new(alloc),
        notes: Vec::new(alloc),
    })
}
