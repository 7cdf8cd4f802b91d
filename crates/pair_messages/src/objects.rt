//! Variables and objects that aren't declared.

ghost use Rattle.std.specs.Prelude.{◌≡◌, List, [], ◌∷◌, IfOk, IfSome, OnOk, true};
ghost use Rattle.std.specs.List.{All};
ghost use Rattle.hddl_meaning.specs.Mentions.{folded, IsIn, Text};
ghost use Rattle.hddl_meaning.specs.Names.{object_names};
ghost use Rattle.diagnostics.specs.Near.{names_of};
ghost use Rattle.diagnostics.specs.Offers.{offered, offered_by};
ghost use Rattle.pair_messages.specs.Offers.{variable_texts, AreNearest, AreWritten, IsNearest, IsVariableOf, MayBeObject};
ghost use Rattle.pair_messages.specs.Stands.{in_force};

use crate::index::PairIndex;
use crate::known::texts_in;
use crate::near::{folds_to, may_offer, nearest_among, nearest_within};
use crate::phrases::{Section, section_parts};
use crate::remarks::{ask, help};
use crate::stands::InForce;
use crate::variables::{bindings_of, is_same, names_in_force};
use diagnostics::{Part, Remark};
use std::alloc::{AllocError, Global};

/// The objects that are nearest to a word, in lower case.
fn near_objects<'i>(
    alloc: Global,
    index: &'i PairIndex<'_>,
    word: &[u8],
) -> Result<Vec<&'i [u8]>, AllocError>
    ensures { IfOk result (λ near. AreNearest word.now (object_names index.now.texts.now.domain_tree.now index.now.texts.now.problem_tree.now) (names_of near.items)) }
{
    let names = texts_in(alloc, &index.known.objects)?;
    let near = nearest_among(alloc, word, names.as_slice())?;
    Ok(near)
}

/// Adds an object to those that are offered, as it is written where it is declared first.
fn offer_object<'a>(
    alloc: Global,
    index: &PairIndex<'a>,
    names: &mut Vec<&'a [u8]>,
    text: &[u8],
) -> Result<(), AllocError>
    ensures { OnOk result ((all : List Text) → IsIn text.now all → AreWritten all (names_of names.old.items) → AreWritten all (names_of names.new.items)) }
{
    let Some(object) = index.typed.objects.get(text) else {
        return Ok(());
    };
    let name: &'a [u8] = object.name.text();
    let is_same = folds_to(alloc, name, text)?;
    if !is_same {
        return Ok(());
    }
    names.push(name)?;
    Ok(())
}

/// Objects in lower case, as they are written where they are declared first.
fn written_objects<'a>(
    alloc: Global,
    index: &PairIndex<'a>,
    near: &[&[u8]],
) -> Result<Vec<&'a [u8]>, AllocError>
    ensures { IfOk result (λ names. AreWritten (names_of near.now) (names_of names.items)) }
{
    let mut names: Vec<&'a [u8]> = Vec::new(alloc);
    for text in near {
        offer_object(alloc, index, &mut names, *text)?;
    }
    Ok(names)
}

/// A question for the objects that are nearest to a word.
fn ask_objects<'a>(
    alloc: Global,
    index: &PairIndex<'a>,
    word: &[u8],
) -> Result<Vec<Remark<'a>>, AllocError>
    ensures { IfOk result (λ remarks. All (IsNearest word.now (object_names index.now.texts.now.domain_tree.now index.now.texts.now.problem_tree.now)) (offered remarks.items)) }
{
    let near = near_objects(alloc, index, word)?;
    let names = written_objects(alloc, index, near.as_slice())?;
    let remarks = ask(alloc, names.as_slice())?;
    Ok(remarks)
}

/// Whether a variable has this name after its `?`.
fn is_variable_of(variable: &[u8], word: &[u8]) -> bool
    ensures { result ≡ true → folded variable.now ≡ 63 ∷ folded word.now }
{
    match variable {
        [b'?', name @ ..] => is_same(name, word),
        _ => false,
    }
}

/// The variable in force that has this name after its `?`, if there is one among those that are looked at.
fn variable_named<'a>(
    alloc: Global,
    scope: &InForce<'a>,
    word: &[u8],
) -> Result<Option<&'a [u8]>, AllocError>
    ensures { IfOk result (λ name. IfSome name (λ name. IsVariableOf (in_force scope.now) word.now name.now)) }
{
    let bindings = bindings_of(alloc, scope)?;
    for binding in bindings.as_slice() {
        let name = binding.variable.text();
        if is_variable_of(name, word) {
            return Ok(Some(name));
        }
    }
    Ok(None)
}

/// A question for a variable.
fn variable_meant<'a>(alloc: Global, name: &'a [u8]) -> Result<Vec<Part<'a>>, AllocError>
    ensures { IfOk result (λ parts. offered_by parts.items ≡ name.now ∷ []) }
{
    let parts = vec![in alloc;
        Part::Words("did you mean the variable "),
        Part::Name(name),
        Part::Words("?"),
    ]?;
    Ok(parts)
}

/// The message for a constant or an object that isn't declared.
pub(crate) fn object_message<'a>(
    alloc: Global,
    word: &'a [u8],
) -> Result<Vec<Part<'a>>, AllocError> {
    Vec::from_slice(
        alloc,
        &[Part::Words("no object is named "), Part::Name(word)],
    )
}

/// What is remarked of a constant or an object that isn't declared.
pub(crate) fn object_remarks<'a>(
    alloc: Global,
    index: &PairIndex<'a>,
    rank: usize,
    scope: &InForce<'a>,
    word: &'a [u8],
) -> Result<Vec<Remark<'a>>, AllocError>
    ensures { IfOk result (λ remarks. All (MayBeObject index.now.texts.now.domain_tree.now index.now.texts.now.problem_tree.now (in_force scope.now) word.now) (offered remarks.items)) }
{
    let found = variable_named(alloc, scope, word)?;
    if let Some(variable) = found {
        let question = variable_meant(alloc, variable)?;
        let remarks = help(alloc, question)?;
        return Ok(remarks);
    }
    if !may_offer(rank, word, index.names_len) {
        return Ok(Vec::new(alloc));
    }
    let remarks = ask_objects(alloc, index, word)?;
    Ok(remarks)
}

/// The variables in force that are nearest to a word, for the fault with this many faults before it.
fn near_variables<'a>(
    alloc: Global,
    rank: usize,
    scope: &InForce<'a>,
    word: &[u8],
) -> Result<Vec<&'a [u8]>, AllocError>
    ensures { IfOk result (λ near. All (IsNearest word.now (variable_texts (in_force scope.now))) (names_of near.items)) }
{
    if !may_offer(rank, word, 0) {
        return Ok(Vec::new(alloc));
    }
    let names = names_in_force(alloc, scope)?;
    let near = nearest_within(alloc, rank, word, names.as_slice())?;
    Ok(near)
}

/// The message for a variable that isn't in force.
pub(crate) fn variable_message<'a>(
    alloc: Global,
    section: Section<'a>,
    word: &'a [u8],
) -> Result<Vec<Part<'a>>, AllocError> {
    let (kind, name) = section_parts(section);
    let parts = [
        Part::Name(word),
        Part::Words(" is no parameter of "),
        kind,
        name,
    ];
    Vec::from_slice(alloc, &parts)
}

/// Where a variable is declared.
fn declare_it<'a>(alloc: Global) -> Result<Vec<Part<'a>>, AllocError>
    ensures { IfOk result (λ parts. offered_by parts.items ≡ []) }
{
    let parts = vec![in alloc; Part::Words("add it to `:parameters`")]?;
    Ok(parts)
}

/// What is remarked of a variable that isn't in force: the nearest ones, or where it is declared.
pub(crate) fn variable_remarks<'a>(
    alloc: Global,
    rank: usize,
    scope: &InForce<'a>,
    word: &'a [u8],
) -> Result<Vec<Remark<'a>>, AllocError>
    ensures { IfOk result (λ remarks. All (IsNearest word.now (variable_texts (in_force scope.now))) (offered remarks.items)) }
{
    let near = near_variables(alloc, rank, scope, word)?;
    if near.is_empty() && scope.section.place().is_some() {
        let how = declare_it(alloc)?;
        let remarks = help(alloc, how)?;
        return Ok(remarks);
    }
    let remarks = ask(alloc, near.as_slice())?;
    Ok(remarks)
}
