//! Which methods and actions no plan uses, and why.
ghost use Rattle.std.specs.Prelude.{◌≡◌, false, nat_eq, IfOk, IfSome};
ghost use Rattle.std.specs.List.{All, list_any};
ghost use Rattle.never_applied.specs.Stages.{AreUnused, IsActionUnused, IsMethodUnused};

use crate::answer::Unused;
use crate::fine::Fine;
use crate::usable::Usable;
use htn_task::Task;
use std::alloc::{AllocError, Global};
use task_graph::TaskGraph;

/// What is looked at to find what no plan uses.
#[derive(Clone, Copy)]
pub(crate) struct Search<'a> {
    pub(crate) alloc: Global,
    pub(crate) task: &'a Task,
    /// All that arises by live instances.
    pub(crate) graph: &'a TaskGraph,
    /// What is fine where all that arises may be used.
    pub(crate) first: &'a Fine,
    pub(crate) usable: &'a Usable,
}

impl Search<'_> {
    /// Whether a plan may use the method at a place.
    pub(crate) fn uses_method(&self, place: usize) -> bool
        ensures { result ≡ false → IsMethodUnused self.now.usable.now place }
    {
        match u16::try_from(place) {
            Ok(number) => self.usable.methods.contains(&number),
            Err(_) => true,
        }
    }

    /// Whether a plan may use the action at a place.
    pub(crate) fn uses_action(&self, place: usize) -> bool
        ensures { result ≡ false → IsActionUnused self.now.task.now self.now.usable.now place }
    {
        let Some(number) = self.task.tasks().len().checked_add(place) else {
            return true;
        };
        match u32::try_from(number) {
            Ok(name) => self.usable.names.contains(&name),
            Err(_) => true,
        }
    }

    /// Those of some methods that no plan uses.
    fn unused_methods(&self, found: &[Unused]) -> Result<Vec<Unused>, AllocError>
        ensures { IfOk result (λ v. All (λ x. IsMethodUnused self.now.usable.now x.place) v.items) }
    {
        let mut unused = Vec::new(self.alloc);
        for candidate in found {
            let is_used = self.uses_method(candidate.place);
            if is_used {
                continue;
            }
            unused.push(*candidate)?;
        }
        Ok(unused)
    }

    /// Those of some actions that no plan uses.
    fn unused_actions(&self, found: &[Unused]) -> Result<Vec<Unused>, AllocError>
        ensures { IfOk result (λ v. All (λ x. IsActionUnused self.now.task.now self.now.usable.now x.place) v.items) }
    {
        let mut unused = Vec::new(self.alloc);
        for candidate in found {
            let is_used = self.uses_action(candidate.place);
            if is_used {
                continue;
            }
            unused.push(*candidate)?;
        }
        Ok(unused)
    }

    /// The methods and the actions that no plan uses; none where too many instances would have to be listed.
    pub(crate) fn unused(&self) -> Result<Option<(Vec<Unused>, Vec<Unused>)>, AllocError>
        ensures { IfOk result (λ o. IfSome o (λ p.
            AreUnused self.now.task.now self.now.usable.now p.0.items p.1.items)) }
    {
        let counted = self.causes()?;
        let Some(causes) = counted else {
            return Ok(None);
        };
        let methods = self.unused_methods(&causes.methods)?;
        let actions = self.unused_actions(&causes.actions)?;
        Ok(Some((methods, actions)))
    }
}
