//! What a domain and a problem declare, counted.

ghost use Rattle.std.specs.Prelude.{◌≡◌, ◌-◌, ◌^◌, ◌∷◌, [], ◌++◌, IfOk, OnOk, min, map, length, fold};
ghost use Rattle.hddl_meaning.specs.Mentions.{folded, mentions_of, texts, typed_names};
ghost use Rattle.hddl_meaning.specs.Names.{distinct, optional_mention, type_names, with_name};
ghost use Rattle.hddl_names.specs.Texts.{mentions_in};
ghost use Rattle.pair_messages.specs.Counts.{domain_counts, literal_count, literals_counted, numbers_of, problem_counts};

use crate::phrases::{plain, push_count};
use diagnostics::Part;
use hddl_names::{Names, fold_to_vec};
use hddl_words::{Condition, DomainText, Name, NameGroup, ProblemText};
use std::alloc::{AllocError, Global};

/// Adds a name, unless it is there.
fn add_name(alloc: Global, names: &mut Names, name: &Name) -> Result<(), AllocError>
    ensures { OnOk result (names.new ≡ with_name names.old (folded name.now.text)) }
{
    let text = fold_to_vec(alloc, name.text())?;
    names.declare(text)?;
    Ok(())
}

/// Adds the names of a group.
pub(crate) fn add_group(alloc: Global, names: &mut Names, group: &[Name]) -> Result<(), AllocError>
    ensures { OnOk result (names.new ≡ fold with_name names.old (map (λ x. folded x.text) group.now)) }
{
    for name in group {
        add_name(alloc, names, name)?;
    }
    Ok(())
}

/// How many names a typed list has, each once.
fn count_names(alloc: Global, groups: &[NameGroup]) -> Result<usize, AllocError>
    ensures { IfOk result (λ count. count ≡ length (distinct (texts (mentions_of (typed_names groups.now))))) }
{
    let mut names = Names::new(alloc);
    for group in groups {
        add_group(alloc, &mut names, group.names.as_slice())?;
    }
    Ok(names.len())
}

/// Adds the type that a group's names have, if one is written.
fn add_parent(alloc: Global, names: &mut Names, parent: &Option<Name>) -> Result<(), AllocError>
    ensures { OnOk result (names.new ≡ fold with_name names.old (texts (optional_mention parent.now))) }
{
    if let Some(name) = parent {
        add_name(alloc, names, name)?;
    }
    Ok(())
}

/// Adds the types of a typed list, names and parents.
pub(crate) fn add_types(
    alloc: Global,
    names: &mut Names,
    groups: &[NameGroup],
) -> Result<(), AllocError>
    ensures { OnOk result (names.new ≡ fold with_name names.old (texts (mentions_in groups.now))) }
{
    for group in groups {
        add_group(alloc, names, group.names.as_slice())?;
        add_parent(alloc, names, &group.of_type)?;
    }
    Ok(())
}

/// How many types a domain names, `object` among them.
fn count_types(alloc: Global, domain: &DomainText) -> Result<usize, AllocError>
    ensures { IfOk result (λ count. count ≡ length (type_names domain.now)) }
{
    let mut names = Names::new(alloc);
    names.declare(fold_to_vec(alloc, b"object")?)?;
    add_types(alloc, &mut names, domain.types.as_slice())?;
    Ok(names.len())
}

/// How many literals a condition has.
fn count_in_condition(condition: &Condition) -> usize
    ensures { result ≡ min (literal_count condition.now) (2 ^ 64 - 1) }
{
    match condition {
        Condition::Literal(_) => 1,
        Condition::Equality(_) => 1,
        Condition::Forall(_, body) => {
            let mut count: usize = 0;
            for part in body.as_slice() {
                count = count.saturating_add(count_in_condition(part));
            }
            count
        }
    }
}

/// How many literals conditions have.
fn count_literals(conditions: &[Condition]) -> usize
    ensures { result ≡ literals_counted conditions.now }
{
    let mut count: usize = 0;
    for condition in conditions {
        count = count.saturating_add(count_in_condition(condition));
    }
    count
}

/// Adds a count after a comma.
fn push_more<'a>(
    parts: &mut Vec<Part<'a>>,
    count: usize,
    one: &'a str,
    many: &'a str,
) -> Result<(), AllocError>
    ensures { OnOk result (numbers_of parts.new.items ≡ numbers_of parts.old.items ++ count ∷ []) }
{
    parts.push(Part::Words(", "))?;
    push_count(parts, count, one, many)
}

/// The line of a domain: its name, and how many types, predicates, compound tasks, methods and actions it declares. An
/// error where memory was refused.
pub fn domain_summary<'a>(
    alloc: Global,
    domain: &'a DomainText,
) -> Result<Vec<Part<'a>>, AllocError>
    ensures { IfOk result (λ line. numbers_of line.items ≡ domain_counts domain.now) }
{
    let types = count_types(alloc, domain)?.saturating_sub(1);
    let mut parts = vec![in alloc;
        Part::Words("domain "),
        plain(domain.name.text()),
        Part::Words(": "),
    ]?;
    push_count(&mut parts, types, " type", " types")?;
    let predicates = domain.predicates.len();
    push_more(&mut parts, predicates, " predicate", " predicates")?;
    let tasks = domain.tasks.len();
    push_more(&mut parts, tasks, " compound task", " compound tasks")?;
    push_more(&mut parts, domain.methods.len(), " method", " methods")?;
    push_more(&mut parts, domain.actions.len(), " action", " actions")?;
    Ok(parts)
}

/// The line of a problem: its name, and how many objects, facts, tasks and goal literals it has. An error where memory
/// was refused.
pub fn problem_summary<'a>(
    alloc: Global,
    problem: &'a ProblemText,
) -> Result<Vec<Part<'a>>, AllocError>
    ensures { IfOk result (λ line. numbers_of line.items ≡ problem_counts problem.now) }
{
    let objects = count_names(alloc, problem.objects.as_slice())?;
    let mut parts = vec![in alloc;
        Part::Words("problem "),
        plain(problem.name.text()),
        Part::Words(": "),
    ]?;
    push_count(&mut parts, objects, " object", " objects")?;
    push_more(&mut parts, problem.init.len(), " fact", " facts")?;
    let tasks = problem.htn.network.subtasks.len();
    push_more(&mut parts, tasks, " task", " tasks")?;
    let literals = count_literals(problem.goal.as_slice());
    push_more(&mut parts, literals, " goal literal", " goal literals")?;
    Ok(parts)
}
