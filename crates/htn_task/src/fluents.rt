//! Fluent predicates: those that an effect of some action names. The atoms of the others are static.
ghost use Rattle.std.specs.Prelude.{◌≡◌, ◌||◌, ◌<◌, ◌≤◌, ℕ, false, get_or, length, nat_eq, IfOk, OnOk};
ghost use Rattle.std.specs.List.{list_any};
ghost use Rattle.htn_task.specs.Fluents.{AreFluents};

use crate::task::TaskParts;
use crate::term::AtomSchema;
use std::alloc::{AllocError, Global};

/// Sets the flag of a predicate, for which the list may have to grow.
fn set_flag(flags: &mut Vec<bool>, predicate: u16) -> Result<(), AllocError>
    ensures { OnOk result ((p : ℕ)
        → get_or flags.new.items p false ≡ (get_or flags.old.items p false || nat_eq predicate p)) }
{
    let place = predicate as usize;
    while flags.len() <= place {
        flags.push(false)?;
    }
    flags[place] = true;
    Ok(())
}

/// Sets the flags of the predicates of effects.
fn set_flags(flags: &mut Vec<bool>, effects: &[AtomSchema]) -> Result<(), AllocError>
    ensures { OnOk result ((p : ℕ)
        → get_or flags.new.items p false
        ≡ (get_or flags.old.items p false || list_any (λ e. nat_eq e.predicate p) effects.now)) }
{
    for effect in effects {
        set_flag(flags, effect.predicate())?;
    }
    Ok(())
}

/// Whether each predicate is fluent, by number. The list ends with the last fluent one.
pub(crate) fn fluents_of(alloc: Global, parts: &TaskParts) -> Result<Vec<bool>, AllocError>
    ensures { IfOk result (λ v. AreFluents parts.now v.items) }
{
    let mut flags = Vec::new(alloc);
    for action in &parts.actions {
        set_flags(&mut flags, action.deletes())?;
        set_flags(&mut flags, action.adds())?;
    }
    Ok(flags)
}
