//! Names with their numbers, and texts as they are compared.

use hddl_names::{Names, fold, fold_to_vec};
use hddl_scope::Numbers;
use std::alloc::{AllocError, Global};
use std::process::Abort;

/// Declares the names of two things, and the first once more.
fn declare(alloc: Global, names: &mut Names) -> Result<(), AllocError> {
    names.declare(fold_to_vec(alloc, b"Truck")?)?;
    names.declare(fold_to_vec(alloc, b"box")?)?;
    names.declare(fold_to_vec(alloc, b"TRUCK")?)?;
    Ok(())
}

fn expect_numbers<R: Abort>(rt: &R, names: &Names, buffer: &mut Vec<u8>) -> Result<(), AllocError> {
    assert!(rt; names.len() == 2);
    assert!(rt; names.number_of(b"box") == Some(1));
    assert!(rt; names.number_of(b"Truck").is_none());
    assert!(rt; names.get(0) == Some(b"truck".as_slice()));
    assert!(rt; names.number_as_written(buffer, b"Box")? == Some(1));
    assert!(rt; names.number_or_zero(buffer, b"crate")? == 0);
    Ok(())
}

#[test]
fn names_have_the_numbers_of_their_first_declarations(rt: HostRuntime) -> Result<(), AllocError> {
    let mut names = Names::new(rt.alloc());
    declare(rt.alloc(), &mut names)?;
    let mut buffer = Vec::new(rt.alloc());
    expect_numbers(&rt, &names, &mut buffer)
}

fn is_folded(alloc: Global, text: &[u8], expected: &[u8]) -> Result<bool, AllocError> {
    Ok(fold(alloc, text)?.as_slice() == expected)
}

#[test]
fn names_are_compared_in_lower_case(rt: HostRuntime) -> Result<(), AllocError> {
    assert!(rt; is_folded(rt.alloc(), b"truck-1", b"truck-1")?);
    let long = b"Truck-Of-The-Northern-Depot";
    assert!(rt; is_folded(rt.alloc(), long, b"truck-of-the-northern-depot")?);
    Ok(())
}

#[test]
fn texts_have_the_numbers_that_they_are_given(rt: HostRuntime) -> Result<(), AllocError> {
    let mut numbers = Numbers::with_capacity(rt.alloc(), 200)?;
    numbers.add(rt.alloc(), b"truck", 7)?;
    assert!(rt; numbers.get(b"truck") == Some(7));
    assert!(rt; numbers.get(b"box").is_none());
    Ok(())
}
