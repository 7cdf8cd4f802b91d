//! The pairs of a domain's types and their parents, by number.
ghost use Rattle.std.specs.Prelude.{◌≡◌, ◌++◌, ◌∷◌, [], not, map, option_map, IfOk, OnOk};
ghost use Rattle.std.specs.List.{filter};
ghost use Rattle.hddl_meaning.specs.Mentions.{folded, mention_of};
ghost use Rattle.hddl_meaning.specs.Names.{number_in, optional_mention};
ghost use Rattle.hddl_meaning.specs.Types.{text_or_object};
ghost use Rattle.hddl_names.specs.TypeNumbers.{pairs_in, object_pairs_in, is_root};

use crate::names::Names;
use hddl_words::{Name, NameGroup};
use std::alloc::{AllocError, Global};

/// The number of a type as it is written, or that of `object` where none is.
pub fn parent_number(
    buffer: &mut Vec<u8>,
    names: &Names,
    parent: &Option<Name>,
) -> Result<usize, AllocError>
    ensures { IfOk result (λ number. number ≡ number_in names.now (text_or_object (option_map mention_of parent.now))) }
{
    match parent {
        Some(name) => names.number_or_zero(buffer, name.text()),
        None => names.number_or_zero(buffer, b"object"),
    }
}

/// Adds each name's number with a parent's.
pub fn push_pairs(
    pairs: &mut Vec<(usize, usize)>,
    buffer: &mut Vec<u8>,
    names: &Names,
    group: &[Name],
    parent: usize,
) -> Result<(), AllocError>
    ensures { OnOk result (pairs.new.items ≡ pairs.old.items ++ map (λ x. (number_in names.now (folded x.text), parent)) group.now) }
{
    for name in group {
        let number = names.number_or_zero(buffer, name.text())?;
        pairs.push((number, parent))?;
    }
    Ok(())
}

/// Adds the pairs of a group.
fn push_group(
    pairs: &mut Vec<(usize, usize)>,
    buffer: &mut Vec<u8>,
    names: &Names,
    group: &NameGroup,
) -> Result<(), AllocError>
    ensures { OnOk result (pairs.new.items ≡ pairs.old.items ++ pairs_in names.now (group.now ∷ [])) }
{
    let parent = parent_number(buffer, names, &group.of_type)?;
    push_pairs(pairs, buffer, names, group.names.as_slice(), parent)?;
    Ok(())
}

/// Adds the pair of a type that is written with `object`.
fn push_parent(
    pairs: &mut Vec<(usize, usize)>,
    buffer: &mut Vec<u8>,
    names: &Names,
    parent: &Option<Name>,
    object: usize,
) -> Result<(), AllocError>
    ensures { OnOk result (pairs.new.items ≡ pairs.old.items ++ map (λ m. (number_in names.now m.text, object)) (optional_mention parent.now)) }
{
    if let Some(name) = parent {
        let number = names.number_or_zero(buffer, name.text())?;
        pairs.push((number, object))?;
    }
    Ok(())
}

/// Adds the pairs of a group's names and its type with `object`.
fn push_object_pairs(
    pairs: &mut Vec<(usize, usize)>,
    buffer: &mut Vec<u8>,
    names: &Names,
    group: &NameGroup,
) -> Result<(), AllocError>
    ensures { OnOk result (pairs.new.items ≡ pairs.old.items ++ object_pairs_in names.now (group.now ∷ [])) }
{
    let object = names.number_or_zero(buffer, b"object")?;
    push_pairs(pairs, buffer, names, group.names.as_slice(), object)?;
    push_parent(pairs, buffer, names, &group.of_type, object)?;
    Ok(())
}

/// The declared pairs, and then those of each type with `object`.
fn all_pairs(
    alloc: Global,
    names: &Names,
    groups: &[NameGroup],
) -> Result<Vec<(usize, usize)>, AllocError>
    ensures { IfOk result (λ pairs. pairs.items ≡ pairs_in names.now groups.now ++ object_pairs_in names.now groups.now) }
{
    let mut pairs = Vec::new(alloc);
    let mut buffer = Vec::new(alloc);
    for group in groups {
        push_group(&mut pairs, &mut buffer, names, group)?;
    }
    for group in groups {
        push_object_pairs(&mut pairs, &mut buffer, names, group)?;
    }
    Ok(pairs)
}

/// All pairs but that of `object`, which is the first type, with itself.
pub fn parent_pairs(
    alloc: Global,
    names: &Names,
    groups: &[NameGroup],
) -> Result<Vec<(usize, usize)>, AllocError>
    ensures { IfOk result (λ pairs. pairs.items
        ≡ filter (λ p. not (is_root p)) (pairs_in names.now groups.now ++ object_pairs_in names.now groups.now)) }
{
    let pairs = all_pairs(alloc, names, groups)?;
    pairs
        .iter()
        .copied()
        .filter(|p| p.0 != 0 || p.1 != 0)
        .collect(alloc)
}
