//! What is remarked of each fault.

ghost use Rattle.std.specs.Prelude.{◌≡◌, [], IfOk};
ghost use Rattle.std.specs.List.{All};
ghost use Rattle.hddl_meaning.specs.declared.fault.CheckFault.TheVariants as fault_of;
ghost use Rattle.diagnostics.specs.Offers.{offered};
ghost use Rattle.pair_messages.specs.Offers.{IsForStand, IsForTermUse, MayBeMeant, OffersMeant};
ghost use Rattle.pair_messages.specs.Stands.{in_force};
ghost use Rattle.pair_messages.specs.declared.stands.Stand.TheVariants as stand_of_use;

use crate::clashes::clash_remarks;
use crate::duplicates::twice_remarks;
use crate::index::PairIndex;
use crate::names::name_remarks;
use crate::objects::{object_remarks, variable_remarks};
use crate::orders::{order_remarks, subtask_remarks};
use crate::stands::{InForce, Stand, Use, stand_of};
use crate::texts::word_of;
use crate::types::type_remarks;
use diagnostics::Remark;
use hddl_meaning::{At, CheckFault};
use hddl_words::Term;
use std::alloc::{AllocError, Global};

/// What is remarked of a term that isn't declared.
fn term_remarks<'a>(
    alloc: Global,
    index: &PairIndex<'a>,
    rank: usize,
    scope: &InForce<'a>,
    term: &'a Term,
) -> Result<Vec<Remark<'a>>, AllocError>
    ensures { IfOk result (λ remarks. All (IsForTermUse index.now.texts.now.domain_tree.now index.now.texts.now.problem_tree.now (record { variables = in_force scope.now; term = term.now })) (offered remarks.items)) }
{
    match term {
        Term::Variable(variable) => {
            let word = variable.text();
            let of_variable = variable_remarks(alloc, rank, scope, word)?;
            Ok(of_variable)
        }
        Term::Object(object) => {
            let name = object.text();
            let of_object = object_remarks(alloc, index, rank, scope, name)?;
            Ok(of_object)
        }
    }
}

/// What is remarked of an argument of a use that isn't declared.
fn argument_remarks<'a>(
    alloc: Global,
    index: &PairIndex<'a>,
    rank: usize,
    used: &Use<'a>,
    position: usize,
) -> Result<Vec<Remark<'a>>, AllocError>
    ensures { IfOk result (λ remarks. All (IsForStand index.now.texts.now.domain_tree.now index.now.texts.now.problem_tree.now (stand_of_use.Argument used.now position)) (offered remarks.items)) }
{
    let Some(term) = used.atom.terms.as_slice().get(position) else {
        return Ok(Vec::new(alloc));
    };
    let remarks = term_remarks(alloc, index, rank, &used.scope, term)?;
    Ok(remarks)
}

/// What is remarked of an item that isn't declared.
fn stand_remarks<'a>(
    alloc: Global,
    index: &PairIndex<'a>,
    rank: usize,
    stand: &Stand<'a>,
) -> Result<Vec<Remark<'a>>, AllocError>
    ensures { IfOk result (λ remarks. All (IsForStand index.now.texts.now.domain_tree.now index.now.texts.now.problem_tree.now stand.now) (offered remarks.items)) }
{
    match stand {
        Stand::Name(used) => {
            let word = used.atom.name.text();
            let of_name = name_remarks(alloc, index, rank, used.kind, word)?;
            Ok(of_name)
        }
        Stand::Argument(used, position) => {
            let of_argument = argument_remarks(alloc, index, rank, used, *position)?;
            Ok(of_argument)
        }
        Stand::Side(scope, term) => {
            let of_side = term_remarks(alloc, index, rank, scope, term)?;
            Ok(of_side)
        }
    }
}

/// What is remarked of a name that isn't declared.
fn unknown_remarks<'a>(
    alloc: Global,
    index: &PairIndex<'a>,
    rank: usize,
    at: At,
) -> Result<Vec<Remark<'a>>, AllocError>
    ensures { IfOk result (λ remarks. All (MayBeMeant index.now.texts.now (fault_of.UnknownName at)) (offered remarks.items)) }
{
    let found = stand_of(alloc, index, at)?;
    let Some(stand) = found else {
        return Ok(Vec::new(alloc));
    };
    let remarks = stand_remarks(alloc, index, rank, &stand)?;
    Ok(remarks)
}

/// What is remarked of a type that isn't declared.
fn unknown_type_remarks<'a>(
    alloc: Global,
    index: &PairIndex<'a>,
    rank: usize,
    at: At,
) -> Result<Vec<Remark<'a>>, AllocError>
    ensures { IfOk result (λ remarks. All (MayBeMeant index.now.texts.now (fault_of.UnknownType at)) (offered remarks.items)) }
{
    let word = word_of(index.texts, at);
    let remarks = type_remarks(alloc, index, rank, word)?;
    Ok(remarks)
}

/// What is remarked of an argument that can't have the type of its place.
fn type_clash_remarks<'a>(
    alloc: Global,
    index: &PairIndex<'a>,
    at: At,
) -> Result<Vec<Remark<'a>>, AllocError>
    ensures { IfOk result (λ remarks. offered remarks.items ≡ []) }
{
    let found = stand_of(alloc, index, at)?;
    let Some(Stand::Argument(used, position)) = &found else {
        return Ok(Vec::new(alloc));
    };
    let remarks = clash_remarks(alloc, index, used, *position)?;
    Ok(remarks)
}

/// What is remarked of a fault.
pub(crate) fn remarks_of<'a>(
    alloc: Global,
    index: &PairIndex<'a>,
    rank: usize,
    fault: CheckFault,
) -> Result<Vec<Remark<'a>>, AllocError>
    ensures { IfOk result (λ remarks. OffersMeant index.now.texts.now fault remarks.items) }
{
    match fault {
        CheckFault::Duplicate(at) => twice_remarks(alloc, index, at),
        CheckFault::UnknownType(at) => unknown_type_remarks(alloc, index, rank, at),
        CheckFault::UnknownName(at) => unknown_remarks(alloc, index, rank, at),
        CheckFault::TypeClash(at) => type_clash_remarks(alloc, index, at),
        CheckFault::OrderCycle(at) => order_remarks(alloc, index, at),
        CheckFault::UnknownSubtask(at) => subtask_remarks(alloc, index, rank, at),
        _ => Ok(Vec::new(alloc)),
    }
}
