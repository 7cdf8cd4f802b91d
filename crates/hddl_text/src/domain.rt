//! Reads a domain.

ghost use Rattle.std.specs.Prelude.{◌≡◌, ◌≤◌, length, OnOk};
ghost use Rattle.hddl_words.specs.Class.{class_of as class};
ghost use Rattle.hddl_words.specs.Reading.{Reads, Leaves, run};
ghost use Rattle.hddl_words.specs.Words.{word_of};
ghost use Rattle.hddl_text.specs.Drafts as drafts;
ghost use Rattle.hddl_text.specs.Readers as spec;

use crate::lists::names;
use crate::parts::{DomainParts, no_domain_parts};
use crate::sections::{action, items_or_none, method, predicates, requirements, task};
use crate::words::{head_rest, is_close, once, opening};
use hddl_words::{Class, Cursor, DomainText, Keyword, Name, Stop, Token, class_of};
use std::alloc::Global;

/// A section after its opening bracket, whose place is given.
fn domain_section_body(
    alloc: Global,
    cursor: &mut Cursor<'_>,
    word: &Token<'_>,
    place: usize,
    parts: &mut DomainParts,
) -> Result<(), Stop>
    ensures reads { Leaves (run (spec.domain_section_body place parts.old (class (word_of word.now)) (word_of word.now)) cursor.old) result parts.new cursor.new }
    ensures shorter { OnOk result (length cursor.new ≤ length cursor.old) }
{
    match class_of(word) {
        Class::Keyword(Keyword::Requirements) => {
            once(cursor, &parts.requirements)?;
            parts.requirements = Some(requirements(alloc, cursor)?);
            Ok(())
        }
        Class::Keyword(Keyword::Types) => {
            once(cursor, &parts.types)?;
            parts.types = Some(names(alloc, cursor, true)?);
            Ok(())
        }
        Class::Keyword(Keyword::Constants) => {
            once(cursor, &parts.constants)?;
            parts.constants = Some(names(alloc, cursor, false)?);
            Ok(())
        }
        Class::Keyword(Keyword::Predicates) => {
            once(cursor, &parts.predicates)?;
            parts.predicates = Some(predicates(alloc, cursor)?);
            Ok(())
        }
        Class::Keyword(Keyword::Task) => {
            let task = task(alloc, cursor)?;
            parts.tasks.push(task)?;
            Ok(())
        }
        Class::Keyword(Keyword::Method) => {
            let method = method(alloc, cursor, place)?;
            parts.methods.push(method)?;
            Ok(())
        }
        Class::Keyword(Keyword::Action) => {
            let action = action(alloc, cursor)?;
            parts.actions.push(action)?;
            Ok(())
        }
        Class::Keyword(_) => Err(cursor.refuse_unsupported()),
        _ => Err(cursor.refuse()),
    }
}

/// A section from its first word on.
fn domain_section(
    alloc: Global,
    cursor: &mut Cursor<'_>,
    word: &Token<'_>,
    parts: &mut DomainParts,
) -> Result<(), Stop>
    ensures reads { Leaves (run (spec.domain_section parts.old (class (word_of word.now)) (word_of word.now)) cursor.old) result parts.new cursor.new }
    ensures shorter { OnOk result (length cursor.new ≤ length cursor.old) }
{
    match class_of(word) {
        Class::Open => {
            let first = cursor.next()?;
            domain_section_body(alloc, cursor, &first, word.place, parts)
        }
        _ => Err(cursor.refuse()),
    }
}

/// The sections of a domain up to the closing bracket.
#[tactic(auto, unfolding(crate::specs::Readers::domain_sections), using(crate::proofs::Turns::domain_turns))]
fn domain_sections(alloc: Global, cursor: &mut Cursor<'_>) -> Result<DomainParts, Stop>
    ensures reads { Reads (spec.domain_sections cursor.old) result cursor.new }
    ensures shorter { OnOk result (length cursor.new ≤ length cursor.old) }
{
    let mut parts = no_domain_parts(alloc);
    'parts: loop {
        let word = cursor.next()?;
        if is_close(&word) {
            return Ok(parts);
        }
        domain_section(alloc, cursor, &word, &mut parts)?;
    }
}

fn domain_of(alloc: Global, name: Name, parts: DomainParts) -> DomainText
    ensures { result ≡ drafts.domain_of name parts }
{
    let DomainParts {
        requirements,
        types,
        constants,
        predicates,
        tasks,
        methods,
        actions,
    } = parts;
    DomainText {
        name,
        requirements: items_or_none(alloc, requirements),
        types: items_or_none(alloc, types),
        constants: items_or_none(alloc, constants),
        predicates: items_or_none(alloc, predicates),
        tasks,
        methods,
        actions,
    }
}

/// A domain after its opening bracket.
#[tactic(auto, unfolding(crate::specs::Readers::domain_rest))]
fn domain_rest(alloc: Global, cursor: &mut Cursor<'_>) -> Result<DomainText, Stop>
    ensures { Reads (spec.domain_rest cursor.old) result cursor.new }
{
    let name = head_rest(alloc, cursor, b"domain")?;
    let parts = domain_sections(alloc, cursor)?;
    Ok(domain_of(alloc, name, parts))
}

/// A domain, and no word after it.
#[tactic(auto, unfolding(crate::specs::Readers::domain))]
pub fn whole_domain(alloc: Global, cursor: &mut Cursor<'_>) -> Result<DomainText, Stop>
    ensures { Reads (spec.whole spec.domain cursor.old) result cursor.new }
{
    opening(cursor)?;
    let domain = domain_rest(alloc, cursor)?;
    cursor.end()?;
    Ok(domain)
}
