//! A list of nodes with others in the place of one.
ghost use Rattle.std.specs.Prelude.{◌<◌, ◌≡◌, ◌++◌, IfOk, OnOk, length};
ghost use Rattle.htn_model.specs.Choice as model;
ghost use Rattle.htn_ground.specs.Views.{children_of};

use htn_ground::{Child, ChildList};
use std::alloc::{AllocError, Global};

/// Appends nodes to a list.
fn push_all(list: &mut ChildList, more: &[Child]) -> Result<(), AllocError>
    ensures { OnOk result (list.new ≡ list.old ++ children_of more.now) }
{
    for child in more {
        list.push(child.clone()?)?;
    }
    Ok(())
}

/// The nodes with others in the place of the one at a position.
pub(crate) fn splice(
    alloc: Global,
    nodes: &ChildList,
    at: usize,
    others: &ChildList,
) -> Result<ChildList, AllocError>
    requires { at < length nodes.now }
    ensures { IfOk result (λ l. l ≡ model.splice at others.now nodes.now) }
{
    let all = nodes.as_slice();
    let mut spliced = ChildList::new(alloc);
    push_all(&mut spliced, &all[..at])?;
    push_all(&mut spliced, others.as_slice())?;
    push_all(&mut spliced, &all[at + 1..])?;
    Ok(spliced)
}
