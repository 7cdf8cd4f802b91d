//! What a domain declares that is used with arguments.
ghost use Rattle.std.specs.Prelude.{IfOk};
ghost use Rattle.hddl_meaning.specs.Items.{predicate_signatures, task_signatures};
ghost use Rattle.hddl_uses.specs.Declarations.{AreDeclarationsOf};
ghost use Rattle.hddl_uses.specs.Tables.{IsTableOf};

use crate::signatures::Signatures;
use hddl_words::DomainText;
use std::alloc::{AllocError, Global};

/// The declarations of a domain, by name.
pub struct Declarations<'a> {
    pub(crate) predicates: Signatures<'a>,
    /// The compound tasks, and then the actions.
    pub(crate) tasks: Signatures<'a>,
}

impl Drop for Declarations<'_> {
    fn drop(self) {
        let Declarations {
            predicates: _,
            tasks: _,
        } = self;
    }
}

fn predicates_of(alloc: Global, domain: &DomainText) -> Result<Signatures<'_>, AllocError>
    ensures { IfOk result (IsTableOf (predicate_signatures domain.now)) }
{
    let mut table = Signatures::with_capacity(alloc, domain.predicates.len())?;
    table.push_predicates(alloc, domain.predicates.as_slice())?;
    Ok(table)
}

fn tasks_of(alloc: Global, domain: &DomainText) -> Result<Signatures<'_>, AllocError>
    ensures { IfOk result (IsTableOf (task_signatures domain.now)) }
{
    let capacity = domain.tasks.len().saturating_add(domain.actions.len());
    let mut table = Signatures::with_capacity(alloc, capacity)?;
    table.push_tasks(alloc, domain.tasks.as_slice())?;
    table.push_actions(alloc, domain.actions.as_slice())?;
    Ok(table)
}

impl<'a> Declarations<'a> {
    /// What a domain declares.
    pub fn of(alloc: Global, domain: &'a DomainText) -> Result<Declarations<'a>, AllocError>
        ensures { IfOk result (AreDeclarationsOf domain.now) }
    {
        let predicates = predicates_of(alloc, domain)?;
        let tasks = tasks_of(alloc, domain)?;
        Ok(Declarations { predicates, tasks })
    }
}
