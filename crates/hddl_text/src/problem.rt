//! Reads a problem.

ghost use Rattle.std.specs.Prelude.{◌≡◌, ◌≤◌, length, OnOk};
ghost use Rattle.hddl_words.specs.Class.{class_of as class};
ghost use Rattle.hddl_words.specs.Reading.{Reads, Leaves, run, opened};
ghost use Rattle.hddl_words.specs.Words.{word_of};
ghost use Rattle.hddl_text.specs.Drafts as drafts;
ghost use Rattle.hddl_text.specs.Readers as spec;

use crate::conditions::condition;
use crate::lists::{names, parameters};
use crate::networks::network_part;
use crate::parts::{HtnParts, ProblemParts, no_htn_parts, no_problem_parts};
use crate::sections::{items_or_none, network_of, requirements};
use crate::terms::atom_rest;
use crate::words::{any_name, closing, head_rest, is_close, once, opening};
use hddl_words::{
    AtomText, Class, Condition, Cursor, HtnText, Items, Keyword, Name, ProblemText, Stop, Token,
    class_of,
};
use std::alloc::Global;

/// A part of `:htn`, which stands at most once.
#[tactic(auto, using(hddl_words::proofs::Agree::followed_run))]
fn htn_part(
    alloc: Global,
    cursor: &mut Cursor<'_>,
    word: &Token<'_>,
    parts: &mut HtnParts,
) -> Result<(), Stop>
    ensures reads { Leaves (run (spec.htn_part parts.old (class (word_of word.now)) (word_of word.now)) cursor.old) result parts.new cursor.new }
    ensures shorter { OnOk result (length cursor.new ≤ length cursor.old) }
{
    match class_of(word) {
        Class::Keyword(Keyword::Parameters) => {
            once(cursor, &parts.parameters)?;
            parts.parameters = Some(parameters(alloc, cursor)?);
            Ok(())
        }
        _ => network_part(alloc, cursor, word, &mut parts.network),
    }
}

/// The parts of `:htn` up to the closing bracket.
#[tactic(auto, unfolding(crate::specs::Readers::htn_parts), using(crate::proofs::Turns::htn_turns))]
fn htn_parts(alloc: Global, cursor: &mut Cursor<'_>) -> Result<HtnParts, Stop>
    ensures reads { Reads (spec.htn_parts cursor.old) result cursor.new }
    ensures shorter { OnOk result (length cursor.new ≤ length cursor.old) }
{
    let mut parts = no_htn_parts();
    'parts: loop {
        let word = cursor.next()?;
        if is_close(&word) {
            return Ok(parts);
        }
        htn_part(alloc, cursor, &word, &mut parts)?;
    }
}

fn htn_of(alloc: Global, place: usize, parts: HtnParts) -> HtnText
    ensures { result ≡ drafts.htn_of place parts }
{
    let HtnParts {
        parameters,
        network,
    } = parts;
    HtnText {
        place,
        parameters: items_or_none(alloc, parameters),
        network: network_of(alloc, network),
    }
}

/// `:htn` after its keyword, where the place of its opening bracket is given.
#[tactic(auto, unfolding(crate::specs::Readers::htn))]
fn htn(alloc: Global, cursor: &mut Cursor<'_>, place: usize) -> Result<HtnText, Stop>
    ensures reads { Reads (spec.htn place cursor.old) result cursor.new }
    ensures shorter { OnOk result (length cursor.new ≤ length cursor.old) }
{
    let parts = htn_parts(alloc, cursor)?;
    Ok(htn_of(alloc, place, parts))
}

/// The predicate of an atom of `:init`.
#[tactic(auto, unfolding(crate::specs::Readers::init_name))]
fn init_name(alloc: Global, cursor: &mut Cursor<'_>) -> Result<Name, Stop>
    ensures reads { Reads (spec.init_name cursor.old) result cursor.new }
    ensures shorter { OnOk result (length cursor.new ≤ length cursor.old) }
{
    let word = cursor.next()?;
    match class_of(&word) {
        Class::Name => Ok(Name::new(alloc, &word)?),
        Class::Not | Class::Equal | Class::Forall | Class::Reserved => {
            Err(cursor.refuse_unsupported())
        }
        _ => Err(cursor.refuse()),
    }
}

/// An atom of `:init` after its opening bracket.
#[tactic(auto, unfolding(crate::specs::Readers::init_rest))]
fn init_rest(alloc: Global, cursor: &mut Cursor<'_>) -> Result<AtomText, Stop>
    ensures reads { Reads (spec.init_rest cursor.old) result cursor.new }
    ensures shorter { OnOk result (length cursor.new ≤ length cursor.old) }
{
    let name = init_name(alloc, cursor)?;
    atom_rest(alloc, cursor, name)
}

/// An atom of `:init` from its first word on.
fn init_atom(alloc: Global, cursor: &mut Cursor<'_>, word: &Token<'_>) -> Result<AtomText, Stop>
    ensures reads { Reads (run (opened spec.init_rest (class (word_of word.now)) (word_of word.now)) cursor.old) result cursor.new }
    ensures shorter { OnOk result (length cursor.new ≤ length cursor.old) }
{
    match class_of(word) {
        Class::Open => init_rest(alloc, cursor),
        _ => Err(cursor.refuse()),
    }
}

/// The atoms of `:init` up to the closing bracket.
#[tactic(auto, using(crate::proofs::Turns::init_turns))]
fn init(alloc: Global, cursor: &mut Cursor<'_>) -> Result<Items<AtomText>, Stop>
    ensures reads { Reads (spec.init cursor.old) result cursor.new }
    ensures shorter { OnOk result (length cursor.new ≤ length cursor.old) }
{
    let mut parts = Items::new(alloc);
    'parts: loop {
        let word = cursor.next()?;
        if is_close(&word) {
            return Ok(parts);
        }
        let part = init_atom(alloc, cursor, &word)?;
        parts.push(part)?;
    }
}

/// A name and the closing bracket.
#[tactic(auto, unfolding(crate::specs::Readers::closed_name))]
fn closed_name(alloc: Global, cursor: &mut Cursor<'_>) -> Result<Name, Stop>
    ensures reads { Reads (spec.closed_name cursor.old) result cursor.new }
    ensures shorter { OnOk result (length cursor.new ≤ length cursor.old) }
{
    let name = any_name(alloc, cursor)?;
    closing(cursor)?;
    Ok(name)
}

/// A condition and the closing bracket.
#[tactic(auto, unfolding(crate::specs::Readers::goal))]
fn goal(alloc: Global, cursor: &mut Cursor<'_>) -> Result<Items<Condition>, Stop>
    ensures reads { Reads (spec.goal cursor.old) result cursor.new }
    ensures shorter { OnOk result (length cursor.new ≤ length cursor.old) }
{
    let goal = condition(alloc, cursor)?;
    closing(cursor)?;
    Ok(goal)
}

/// A section after its opening bracket, whose place is given.
fn problem_section_body(
    alloc: Global,
    cursor: &mut Cursor<'_>,
    word: &Token<'_>,
    place: usize,
    parts: &mut ProblemParts,
) -> Result<(), Stop>
    ensures reads { Leaves (run (spec.problem_section_body place parts.old (class (word_of word.now)) (word_of word.now)) cursor.old) result parts.new cursor.new }
    ensures shorter { OnOk result (length cursor.new ≤ length cursor.old) }
{
    match class_of(word) {
        Class::Keyword(Keyword::Domain) => {
            once(cursor, &parts.domain)?;
            parts.domain = Some(closed_name(alloc, cursor)?);
            Ok(())
        }
        Class::Keyword(Keyword::Requirements) => {
            once(cursor, &parts.requirements)?;
            parts.requirements = Some(requirements(alloc, cursor)?);
            Ok(())
        }
        Class::Keyword(Keyword::Objects) => {
            once(cursor, &parts.objects)?;
            parts.objects = Some(names(alloc, cursor, false)?);
            Ok(())
        }
        Class::Keyword(Keyword::Init) => {
            once(cursor, &parts.init)?;
            parts.init = Some(init(alloc, cursor)?);
            Ok(())
        }
        Class::Keyword(Keyword::Goal) => {
            once(cursor, &parts.goal)?;
            parts.goal = Some(goal(alloc, cursor)?);
            Ok(())
        }
        Class::Keyword(Keyword::Htn) => {
            once(cursor, &parts.htn)?;
            parts.htn = Some(htn(alloc, cursor, place)?);
            Ok(())
        }
        Class::Keyword(_) => Err(cursor.refuse_unsupported()),
        _ => Err(cursor.refuse()),
    }
}

/// A section from its first word on.
fn problem_section(
    alloc: Global,
    cursor: &mut Cursor<'_>,
    word: &Token<'_>,
    parts: &mut ProblemParts,
) -> Result<(), Stop>
    ensures reads { Leaves (run (spec.problem_section parts.old (class (word_of word.now)) (word_of word.now)) cursor.old) result parts.new cursor.new }
    ensures shorter { OnOk result (length cursor.new ≤ length cursor.old) }
{
    match class_of(word) {
        Class::Open => {
            let first = cursor.next()?;
            problem_section_body(alloc, cursor, &first, word.place, parts)
        }
        _ => Err(cursor.refuse()),
    }
}

/// The problem that its sections make, or None where its domain or its network isn't written.
fn problem_of(alloc: Global, name: Name, parts: ProblemParts) -> Option<ProblemText>
    ensures { result ≡ drafts.problem_of name parts }
{
    let ProblemParts {
        domain,
        requirements,
        objects,
        init,
        goal,
        htn,
    } = parts;
    let domain = domain?;
    let htn = htn?;
    Some(ProblemText {
        name,
        domain,
        requirements: items_or_none(alloc, requirements),
        objects: items_or_none(alloc, objects),
        init: items_or_none(alloc, init),
        goal: items_or_none(alloc, goal),
        htn,
    })
}

/// The sections of a problem up to the closing bracket.
#[tactic(auto, unfolding(crate::specs::Readers::problem_sections))]
fn problem_sections(alloc: Global, cursor: &mut Cursor<'_>, name: Name) -> Result<ProblemText, Stop>
    ensures reads { Reads (spec.problem_sections name cursor.old) result cursor.new }
    ensures shorter { OnOk result (length cursor.new ≤ length cursor.old) }
{
    let mut parts = no_problem_parts();
    'parts: loop {
        let word = cursor.next()?;
        if is_close(&word) {
            return match problem_of(alloc, name, parts) {
                Some(problem) => Ok(problem),
                None => Err(cursor.refuse()),
            };
        }
        problem_section(alloc, cursor, &word, &mut parts)?;
    }
}

/// A problem after its opening bracket.
#[tactic(auto, unfolding(crate::specs::Readers::problem_rest))]
fn problem_rest(alloc: Global, cursor: &mut Cursor<'_>) -> Result<ProblemText, Stop>
    ensures { Reads (spec.problem_rest cursor.old) result cursor.new }
{
    let name = head_rest(alloc, cursor, b"problem")?;
    problem_sections(alloc, cursor, name)
}

/// A problem, and no word after it.
#[tactic(auto, unfolding(crate::specs::Readers::problem))]
pub fn whole_problem(alloc: Global, cursor: &mut Cursor<'_>) -> Result<ProblemText, Stop>
    ensures { Reads (spec.whole spec.problem cursor.old) result cursor.new }
{
    opening(cursor)?;
    let problem = problem_rest(alloc, cursor)?;
    cursor.end()?;
    Ok(problem)
}
