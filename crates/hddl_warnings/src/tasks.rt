//! Warnings of tasks and actions.
ghost use Rattle.std.specs.Prelude.{◌≡◌, ◌⊎◌, ◌∷◌, ◌++◌, [], IfOk, List, OnOk, map, option_map};
ghost use Rattle.hddl_meaning.specs.Mentions.{Text, mention_of};
ghost use Rattle.hddl_warnings.specs.declared.warning.WarningKind.TheVariants as kind;
ghost use Rattle.hddl_warnings.specs.Known.{Knows};
ghost use Rattle.hddl_warnings.specs.Used as used;
ghost use Rattle.hddl_warnings.specs.Tells.{Tells};
ghost use Rattle.hddl_warnings.specs.Warnings.{IsNoMethod, IsUnused, IsUnusedAction, IsUnusedTask, IsUsedBut};

use crate::known::known_names;
use crate::tell::{tell_listed_but, tell_unlisted};
use crate::warning::{Warning, WarningKind};
use hddl_scope::{Mention, Numbers};
use hddl_words::{ActionText, DomainText, MethodText, Name, NetworkText, ProblemText, TaskText};
use std::alloc::{AllocError, Global};

/// Adds the names of the subtasks of a network.
fn push_subtasks<'a>(names: &mut Vec<&'a Name>, network: &'a NetworkText) -> Result<(), AllocError>
    ensures { OnOk result (map (λ x. x.now) names.new.items ≡ map (λ x. x.now) names.old.items ++ used.subtasks_of network.now) }
{
    for subtask in network.subtasks.as_slice() {
        names.push(&subtask.task.name)?;
    }
    Ok(())
}

/// Adds the names of the subtasks of a problem's network, if there is a problem.
fn push_initial<'a>(
    names: &mut Vec<&'a Name>,
    problem: Option<&'a ProblemText>,
) -> Result<(), AllocError>
    ensures { OnOk result (map (λ x. x.now) names.new.items ≡ map (λ x. x.now) names.old.items ++ used.initial_names (option_map (λ p. p.now) problem.entry)) }
{
    let Some(problem) = problem else {
        return Ok(());
    };
    push_subtasks(names, &problem.htn.network)?;
    Ok(())
}

/// The names of the subtasks of methods and, with a problem, of its network.
fn subtask_names<'a>(
    alloc: Global,
    domain: &'a DomainText,
    problem: Option<&'a ProblemText>,
) -> Result<Vec<&'a Name>, AllocError>
    ensures { IfOk result (λ names. map (λ x. x.now) names.items ≡ used.subtask_names domain.now (option_map (λ p. p.now) problem.entry)) }
{
    let mut names = Vec::new(alloc);
    for method in domain.methods.as_slice() {
        push_subtasks(&mut names, &method.network)?;
    }
    push_initial(&mut names, problem)?;
    Ok(names)
}

/// The names of the tasks that methods decompose.
fn decomposed_names<'a>(
    alloc: Global,
    methods: &'a [MethodText],
) -> Result<Vec<&'a Name>, AllocError>
    ensures { IfOk result (λ names. map (λ x. x.now) names.items ≡ map (λ m. m.task.name) methods.now) }
{
    let mut names = Vec::with_capacity(alloc, methods.len())?;
    for method in methods {
        names.push(&method.task.name)?;
    }
    Ok(names)
}

/// Adds a name where it is declared.
fn push_mention<'a>(
    alloc: Global,
    mentions: &mut Vec<Mention<'a>>,
    name: &'a Name,
) -> Result<(), AllocError>
    ensures { OnOk result (mentions.new.items ≡ mentions.old.items ++ mention_of name.now ∷ []) }
{
    let mention = Mention::of_name(alloc, name)?;
    mentions.push(mention)?;
    Ok(())
}

/// The names of compound tasks, where they are declared.
fn compound_names(alloc: Global, tasks: &[TaskText]) -> Result<Vec<Mention<'_>>, AllocError>
    ensures { IfOk result (λ mentions. mentions.items ≡ map (λ x. mention_of x.name) tasks.now) }
{
    let mut mentions = Vec::with_capacity(alloc, tasks.len())?;
    for task in tasks {
        push_mention(alloc, &mut mentions, &task.name)?;
    }
    Ok(mentions)
}

/// The names of actions, where they are declared.
fn action_names(alloc: Global, actions: &[ActionText]) -> Result<Vec<Mention<'_>>, AllocError>
    ensures { IfOk result (λ mentions. mentions.items ≡ map (λ x. mention_of x.name) actions.now) }
{
    let mut mentions = Vec::with_capacity(alloc, actions.len())?;
    for action in actions {
        push_mention(alloc, &mut mentions, &action.name)?;
    }
    Ok(mentions)
}

/// The names of the subtasks of methods and, with a problem, of its network, as they are compared.
fn known_subtasks(
    alloc: Global,
    domain: &DomainText,
    problem: Option<&ProblemText>,
) -> Result<Numbers, AllocError>
    ensures { IfOk result (λ known. Knows known (used.name_texts (used.subtask_names domain.now (option_map (λ p. p.now) problem.entry)))) }
{
    let names = subtask_names(alloc, domain, problem)?;
    let known = known_names(alloc, &names)?;
    Ok(known)
}

/// The names of the tasks that methods decompose, as they are compared.
fn known_decomposed(alloc: Global, domain: &DomainText) -> Result<Numbers, AllocError>
    ensures { IfOk result (λ known. Knows known (used.name_texts (used.decomposed_names domain.now))) }
{
    let names = decomposed_names(alloc, domain.methods.as_slice())?;
    let known = known_names(alloc, &names)?;
    Ok(known)
}

/// Warns of tasks that are known to the first, and not to the second.
fn tell_undone(
    alloc: Global,
    out: &mut Vec<Warning>,
    domain: &DomainText,
    asked: &Numbers,
    done: &Numbers,
) -> Result<(), AllocError>
    ensures { OnOk result ((named wanted : List Text) → Knows asked.now named → Knows done.now wanted
        → Tells out.old.items out.new.items (IsUsedBut kind.NoMethod (map (λ x. mention_of x.name) domain.now.tasks) named wanted)) }
{
    let tasks = compound_names(alloc, domain.tasks.as_slice())?;
    tell_listed_but(out, WarningKind::NoMethod, &tasks, asked, done)?;
    Ok(())
}

/// Warns of tasks that aren't known.
fn tell_tasks(
    alloc: Global,
    out: &mut Vec<Warning>,
    domain: &DomainText,
    asked: &Numbers,
) -> Result<(), AllocError>
    ensures { OnOk result ((named : List Text) → Knows asked.now named
        → Tells out.old.items out.new.items (IsUnused kind.UnusedTask (map (λ x. mention_of x.name) domain.now.tasks) named)) }
{
    let tasks = compound_names(alloc, domain.tasks.as_slice())?;
    tell_unlisted(out, WarningKind::UnusedTask, &tasks, asked)?;
    Ok(())
}

/// Warns of actions that aren't known.
fn tell_actions(
    alloc: Global,
    out: &mut Vec<Warning>,
    domain: &DomainText,
    asked: &Numbers,
) -> Result<(), AllocError>
    ensures { OnOk result ((named : List Text) → Knows asked.now named
        → Tells out.old.items out.new.items (IsUnused kind.UnusedAction (map (λ x. mention_of x.name) domain.now.actions) named)) }
{
    let actions = action_names(alloc, domain.actions.as_slice())?;
    tell_unlisted(out, WarningKind::UnusedAction, &actions, asked)?;
    Ok(())
}

/// Warns of tasks that are subtasks and that no method decomposes.
pub(crate) fn tell_no_methods(
    alloc: Global,
    out: &mut Vec<Warning>,
    domain: &DomainText,
    problem: Option<&ProblemText>,
) -> Result<(), AllocError>
    ensures { OnOk result (Tells out.old.items out.new.items (IsNoMethod domain.now (option_map (λ p. p.now) problem.entry))) }
{
    let done = known_decomposed(alloc, domain)?;
    let asked = known_subtasks(alloc, domain, problem)?;
    tell_undone(alloc, out, domain, &asked, &done)?;
    Ok(())
}

/// Warns of tasks and actions that are no subtasks.
pub(crate) fn tell_unused_tasks(
    alloc: Global,
    out: &mut Vec<Warning>,
    domain: &DomainText,
    problem: &ProblemText,
) -> Result<(), AllocError>
    ensures { OnOk result (Tells out.old.items out.new.items (λ w. IsUnusedTask domain.now problem.now w ⊎ IsUnusedAction domain.now problem.now w)) }
{
    let asked = known_subtasks(alloc, domain, Some(problem))?;
    tell_tasks(alloc, out, domain, &asked)?;
    tell_actions(alloc, out, domain, &asked)?;
    Ok(())
}
