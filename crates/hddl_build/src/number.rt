//! The numbers of names.
ghost use Rattle.std.specs.Prelude.{◌≡◌, ◌≤◌, ◌^◌, length, codes, IfOk};
ghost use Rattle.std.specs.List.{position};
ghost use Rattle.std.specs.Option.{option_map};
ghost use Rattle.hddl_meaning.specs.Mentions.{folded, mention_of};
ghost use Rattle.hddl_meaning.specs.Names.{is_same_text, number_in, number_or_zero};
ghost use Rattle.hddl_meaning.specs.Types.{text_or_object};

use hddl_names::{Names, fold};
use hddl_words::Name;
use std::alloc::{AllocError, Global};

/// The number of a text in lower case, or 0 where no name has it.
fn number_of_text(names: &Names, text: &[u8]) -> u16
    requires { length names.now ≤ 2 ^ 16 }
    ensures { result ≡ number_in names.now text.now }
{
    match names.number_of(text) {
        Some(number) => number as u16,
        None => 0,
    }
}

/// The number of a name, or 0 where it isn't declared.
pub(crate) fn number_of(alloc: Global, names: &Names, name: &Name) -> Result<u16, AllocError>
    requires { length names.now ≤ 2 ^ 16 }
    ensures { IfOk result (λ n. n ≡ number_in names.now (folded name.now.text)) }
{
    let text = fold(alloc, name.text())?;
    Ok(number_of_text(names, text.as_slice()))
}

/// The number of a compound task or an action, or 0 where it isn't declared.
pub(crate) fn number_of_task(alloc: Global, names: &Names, name: &Name) -> Result<u32, AllocError>
    requires { length names.now ≤ 2 ^ 32 }
    ensures { IfOk result (λ n. n ≡ number_in names.now (folded name.now.text)) }
{
    let text = fold(alloc, name.text())?;
    match names.number_of(text.as_slice()) {
        Some(number) => Ok(number as u32),
        None => Ok(0),
    }
}

/// The number of a type, that of `object` where none is written.
pub(crate) fn number_of_type(
    alloc: Global,
    types: &Names,
    of_type: &Option<Name>,
) -> Result<u16, AllocError>
    requires { length types.now ≤ 2 ^ 16 }
    ensures { IfOk result (λ n. n ≡ number_in types.now (text_or_object (option_map mention_of of_type.now))) }
{
    match of_type {
        Some(name) => {
            let number = number_of(alloc, types, name)?;
            Ok(number)
        }
        None => Ok(number_of_text(types, b"object")),
    }
}
