//! Sparse tables: values by number, where most numbers have none.
ghost use Rattle.std.specs.Prelude.{◌≡◌, ℕ, Some, is_some, OnOk};
ghost use Rattle.task_machine.specs.Tables.{slot};

use std::alloc::AllocError;

/// Whether a number has a value.
pub(crate) fn is_taken<T>(slots: &[Option<T>], number: u32) -> bool
    ensures { result ≡ is_some (slot slots.now number) }
{
    match slots.get(number as usize) {
        Some(value) => value.is_some(),
        None => false,
    }
}

/// Sets the value of a number.
pub(crate) fn put<T: Drop>(
    slots: &mut Vec<Option<T>>,
    number: u32,
    value: T,
) -> Result<(), AllocError>
    ensures here { OnOk result (slot slots.new.items number ≡ Some value) }
    ensures others { OnOk result ((n : ℕ) → (n ≡ number → ⊥) → slot slots.new.items n ≡ slot slots.old.items n) }
{
    let place = number as usize;
    while slots.len() <= place {
        slots.push(None)?;
    }
    slots[place] = Some(value);
    Ok(())
}
