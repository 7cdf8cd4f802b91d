//! Literals that are false where they have to hold.

ghost use Rattle.std.specs.Prelude.{◌≡◌, IfOk};
ghost use Rattle.std.specs.List.{AllZip, flat_map, zip};
ghost use Rattle.std.specs.Option.{option_to_list};
ghost use Rattle.htn_task.specs.Literals.{literal_of, literals_of};
ghost use Rattle.plan_findings.specs.Falsities as spec;
ghost use Rattle.plan_findings.specs.Falsities.{AreFalsities, IsFalsity, IsFalsityIf};

use crate::atoms::{core_text, literal_text, predicate_name};
use crate::conditions::initial_places;
use hddl_words::ProblemText;
use htn_task::{Atom, Literal, Task};
use indexmap::IndexMap;
use plan_causes::{FalseLiteral, Sign, Standing};
use std::alloc::{AllocError, Global};

fn sign_of(literal: &Literal) -> Sign {
    match literal {
        Literal::Positive(_) => Sign::Positive,
        Literal::Negative(_) => Sign::Negative,
        Literal::Same(_, _) => Sign::Same,
        Literal::Different(_, _) => Sign::Different,
    }
}

/// The name of an atom's predicate, if no action changes it.
fn unchanged_name(alloc: Global, task: &Task, atom: &Atom) -> Result<Option<Vec<u8>>, AllocError> {
    if task.is_fluent(atom.predicate()) {
        return Ok(None);
    }
    let name = Vec::from_slice(alloc, predicate_name(task, atom.predicate()))?;
    Ok(Some(name))
}

/// The name of the predicate of a positive literal, if no effect names the predicate.
fn unchanged_in(
    alloc: Global,
    task: &Task,
    literal: &Literal,
) -> Result<Option<Vec<u8>>, AllocError> {
    match literal {
        Literal::Positive(atom) => unchanged_name(alloc, task, atom),
        Literal::Negative(_) | Literal::Same(_, _) | Literal::Different(_, _) => Ok(None),
    }
}

/// Where literals and initial facts are written.
pub(crate) struct Written {
    /// The place of each literal, by its number.
    pub(crate) literals: Vec<usize>,
    /// The place of a literal past these.
    pub(crate) other: usize,
    /// The place of each initial fact, as `(full box)`, if these are sought.
    pub(crate) initial: IndexMap<Vec<u8>, usize>,
}

impl Drop for Written {
    fn drop(self) {
        let Written {
            literals: _,
            other: _,
            initial: _,
        } = self;
    }
}

/// Whether a literal is false since its atom is true from the start.
fn is_from_start(literal: &Literal, standing: Standing) -> bool {
    matches!((literal, standing), (Literal::Negative(_), Standing::False))
}

/// Whether some literal is false since its atom is true from the start.
fn wants_initial(literals: &[Literal], standings: &[Standing]) -> bool {
    literals
        .iter()
        .zip(standings.iter())
        .any(|(literal, standing)| is_from_start(literal, *standing))
}

/// Where initial facts are written, if some literal is false since its atom is true from the start.
pub(crate) fn initial_for(
    alloc: Global,
    problem: &ProblemText,
    literals: &[Literal],
    standings: &[Standing],
) -> Result<IndexMap<Vec<u8>, usize>, AllocError> {
    if wants_initial(literals, standings) {
        initial_places(alloc, problem)
    } else {
        Ok(IndexMap::new(alloc))
    }
}

/// A literal that is false, with its number.
fn false_literal(
    alloc: Global,
    task: &Task,
    written: &Written,
    literal: &Literal,
    standing: Standing,
    number: usize,
) -> Result<FalseLiteral, AllocError>
    ensures { IfOk result (IsFalsity task.now (literal_of literal.now, standing)) }
{
    let text = literal_text(alloc, task, literal)?;
    let atom = core_text(alloc, task, literal)?;
    let unchanged = unchanged_in(alloc, task, literal)?;
    let initial = written.initial.get(&atom).copied();
    Ok(FalseLiteral {
        text,
        atom,
        sign: sign_of(literal),
        standing,
        place: written
            .literals
            .as_slice()
            .get(number)
            .copied()
            .unwrap_or(written.other),
        initial,
        unchanged,
    })
}

/// Whether a literal that stands so is false.
pub(crate) fn is_false(standing: Standing) -> bool
    ensures { result ≡ spec.is_false standing }
{
    match standing {
        Standing::Holds => false,
        Standing::False | Standing::FalseSince(_) => true,
    }
}

/// A literal, if it is false.
fn falsity(
    alloc: Global,
    task: &Task,
    written: &Written,
    literal: &Literal,
    standing: Standing,
    number: usize,
) -> Result<Option<FalseLiteral>, AllocError>
    ensures { IfOk result (IsFalsityIf task.now (literal_of literal.now, standing)) }
{
    if !is_false(standing) {
        return Ok(None);
    }
    let found = false_literal(alloc, task, written, literal, standing, number)?;
    Ok(Some(found))
}

/// Of each of some literals that is false how it is written; none of the others.
fn falsities(
    alloc: Global,
    task: &Task,
    written: &Written,
    literals: &[Literal],
    standings: &[Standing],
) -> Result<Vec<Option<FalseLiteral>>, AllocError>
    ensures { IfOk result (λ v. AllZip (IsFalsityIf task.now) (zip (literals_of literals.now) standings.now) v.items) }
{
    let mut each = Vec::new(alloc);
    let count = literals.len().min(standings.len());
    for number in 0..count {
        let one = falsity(
            alloc,
            task,
            written,
            &literals[number],
            standings[number],
            number,
        )?;
        each.push(one)?;
    }
    Ok(each)
}

/// The literals alone.
fn found_alone(
    alloc: Global,
    each: Vec<Option<FalseLiteral>>,
) -> Result<Vec<FalseLiteral>, AllocError>
    ensures { IfOk result (λ v. v.items ≡ flat_map option_to_list each.items) }
{
    each.into_iter().flatten().collect(alloc)
}

/// Those of some literals that are false, in their order.
pub(crate) fn false_literals(
    alloc: Global,
    task: &Task,
    written: &Written,
    literals: &[Literal],
    standings: &[Standing],
) -> Result<Vec<FalseLiteral>, AllocError>
    ensures { IfOk result (λ v. AreFalsities task.now (literals_of literals.now) standings.now v.items) }
{
    let each = falsities(alloc, task, written, literals, standings)?;
    let found = found_alone(alloc, each)?;
    Ok(found)
}
