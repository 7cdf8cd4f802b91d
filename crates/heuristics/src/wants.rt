//! Wanted literals, compiled.
ghost use Rattle.std.specs.Prelude.{◌≡◌, IfOk, OnOk};
ghost use Rattle.htn_task.specs.Literals.{literals_of};
ghost use Rattle.state_table.specs.Table.{IsLater};
ghost use Rattle.heuristics.specs.StoredNeeds.{AreWants};

use crate::needs::Needs;
use htn_task::Literal;
use state_table::{AtomTable, CompiledLiteral};
use std::alloc::{AllocError, Global};

/// A literal that has to hold at some time before a node, or the whole network, has ended.
#[derive(Clone, Copy, Drop)]
pub(crate) struct Want {
    /// Its number among those that nodes give.
    pub(crate) number: Option<usize>,
    pub(crate) literal: CompiledLiteral,
}

/// Compiles wanted literals. Atoms without numbers get them.
pub(crate) fn wants_of(
    alloc: Global,
    needs: &Needs,
    atoms: &mut AtomTable,
    literals: &[Literal],
) -> Result<Vec<Want>, AllocError>
    ensures later { OnOk result (IsLater atoms.old atoms.new) }
    ensures wants { IfOk result (λ v. AreWants needs.now atoms.new v.items (literals_of literals.now)) }
{
    let _count = atoms.len();
    let mut wants = Vec::with_capacity(alloc, literals.len())?;
    for literal in literals {
        let number = needs.number_of(literal);
        let compiled = CompiledLiteral::of(atoms, literal)?;
        wants.push(Want {
            number,
            literal: compiled,
        })?;
    }
    Ok(wants)
}
