//! All warnings of what no plan uses.
ghost use Rattle.std.specs.Prelude.{◌≡◌, ◌++◌, List, ℕ, IfOk, OnOk, option_map};
ghost use Rattle.std.specs.List.{AllZip};
ghost use Rattle.check_report.specs.ReachWarnings.{AreNoPlanWarnings, AreReachWarnings, IsNeverAppliedWarning, cause_place, causes, listed};
ghost use Rattle.check_report.specs.Schemas.{places};

use crate::causes::{Schema, cause_warning, is_cause};
use crate::goal::no_plan_warning;
use crate::schemas::Schemas;
use diagnostics::Diagnostic;
use htn_task::Task;
use never_applied::{Cause, Findings, NoPlan, Unused};
use pair_messages::PairTexts;
use std::alloc::{AllocError, Global};

/// Adds the warning of a method or an action, if there is one.
fn add_schema<'a>(
    alloc: Global,
    texts: &PairTexts<'a>,
    schema: Option<Schema<'a>>,
    cause: Cause,
    warnings: &mut Vec<Diagnostic<'a>>,
) -> Result<(), AllocError>
    ensures { OnOk result ((before : List ℕ) → AllZip (IsNeverAppliedWarning texts.now) before warnings.old.items
        → AllZip (IsNeverAppliedWarning texts.now) (before ++ listed (option_map (λ s. s.name.now.place) schema.entry)) warnings.new.items) }
{
    match schema {
        Some(schema) => {
            let warning = cause_warning(alloc, texts, schema, cause)?;
            warnings.push(warning)?;
            Ok(())
        }
        None => Ok(()),
    }
}

/// Adds the warning of a method or an action, unless it follows from others.
fn add_cause<'a>(
    alloc: Global,
    texts: &PairTexts<'a>,
    schemas: Schemas<'a>,
    unused: Unused,
    warnings: &mut Vec<Diagnostic<'a>>,
) -> Result<(), AllocError>
    ensures { OnOk result ((before : List ℕ) → AllZip (IsNeverAppliedWarning texts.now) before warnings.old.items
        → AllZip (IsNeverAppliedWarning texts.now) (before ++ cause_place (places schemas.entry) unused) warnings.new.items) }
{
    let is_told = is_cause(unused.cause);
    if !is_told {
        return Ok(());
    }
    let schema = schemas.at(unused.place);
    add_schema(alloc, texts, schema, unused.cause, warnings)?;
    Ok(())
}

/// The warnings of methods or of actions that no plan uses, but for those that follow from others.
fn cause_warnings<'a>(
    alloc: Global,
    texts: &PairTexts<'a>,
    schemas: Schemas<'a>,
    found: &[Unused],
) -> Result<Vec<Diagnostic<'a>>, AllocError>
    ensures { IfOk result (λ warnings. AllZip (IsNeverAppliedWarning texts.now) (causes (places schemas.entry) found.now) warnings.items) }
{
    let mut warnings = Vec::new(alloc);
    for unused in found {
        add_cause(alloc, texts, schemas, *unused, &mut warnings)?;
    }
    Ok(warnings)
}

/// The warning of a problem that has no plan, if it has none.
fn no_plan_warnings<'a>(
    alloc: Global,
    texts: &PairTexts<'a>,
    task: &Task,
    no_plan: &Option<NoPlan>,
) -> Result<Vec<Diagnostic<'a>>, AllocError>
    ensures { IfOk result (λ warnings. AreNoPlanWarnings texts.now no_plan.now warnings.items) }
{
    let mut warnings = Vec::new(alloc);
    match no_plan {
        Some(why) => {
            let warning = no_plan_warning(alloc, texts, task, why)?;
            warnings.push(warning)?;
            Ok(warnings)
        }
        None => Ok(warnings),
    }
}

/// The warnings of each method and then of each action that no plan uses for a reason of its own, about its name, and
/// of a problem that has no plan, about the reason. The task is that of the texts. An error where memory was refused.
pub fn reach_warnings<'a>(
    alloc: Global,
    texts: &PairTexts<'a>,
    task: &Task,
    findings: &Findings,
) -> Result<Vec<Diagnostic<'a>>, AllocError>
    ensures { IfOk result (λ warnings. AreReachWarnings texts.now findings.now warnings.items) }
{
    let methods = Schemas::Methods(texts.domain_tree.methods.as_slice());
    let actions = Schemas::Actions(texts.domain_tree.actions.as_slice());
    let mut warnings = cause_warnings(alloc, texts, methods, findings.methods.as_slice())?;
    let mut more = cause_warnings(alloc, texts, actions, findings.actions.as_slice())?;
    let mut last = no_plan_warnings(alloc, texts, task, &findings.no_plan)?;
    warnings.append(&mut more)?;
    warnings.append(&mut last)?;
    Ok(warnings)
}
