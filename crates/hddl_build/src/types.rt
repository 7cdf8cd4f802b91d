//! The types of parameters.
ghost use Rattle.std.specs.Prelude.{◌≡◌, ◌++◌, ◌≤◌, ◌^◌, length, map, IfOk, OnOk};
ghost use Rattle.std.specs.Option.{option_map};
ghost use Rattle.hddl_meaning.specs.Mentions.{mention_of};
ghost use Rattle.hddl_meaning.specs.Names.{number_in};
ghost use Rattle.hddl_meaning.specs.Types.{text_or_object};
ghost use Rattle.hddl_meaning.specs.Building.{types_of};
ghost use Rattle.hddl_build.specs.Vocabularies.{IsNumbered};

use crate::number::number_of_type;
use hddl_names::{Names, Vocabulary};
use hddl_words::VariableGroup;
use std::alloc::{AllocError, Global};

/// Adds the type of each variable of a group.
fn push_group(
    alloc: Global,
    names: &Names,
    group: &VariableGroup,
    types: &mut Vec<u16>,
) -> Result<(), AllocError>
    requires { length names.now ≤ 2 ^ 16 }
    ensures { OnOk result (types.new.items
        ≡ types.old.items ++ map (λ _. number_in names.now (text_or_object (option_map mention_of group.now.of_type))) group.now.variables) }
{
    let number = number_of_type(alloc, names, &group.of_type)?;
    for _ in group.variables.as_slice() {
        types.push(number)?;
    }
    Ok(())
}

/// The numbers of the declared types.
pub(crate) fn types_of(
    alloc: Global,
    vocabulary: &Vocabulary,
    groups: &[VariableGroup],
) -> Result<Vec<u16>, AllocError>
    requires { IsNumbered vocabulary.now }
    ensures { IfOk result (λ types. types.items ≡ types_of vocabulary.now groups.now) }
{
    let mut types = Vec::with_capacity(alloc, groups.len())?;
    for group in groups {
        push_group(alloc, vocabulary.types(), group, &mut types)?;
    }
    Ok(types)
}
