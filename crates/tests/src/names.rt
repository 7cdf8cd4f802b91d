//! The numbers of a task's names.

use crate::pairs::{ROAD, task_of};
use htn_task::Task;
use std::process::Abort;
use std::test::Fail;

// Objects, types after `object`, predicates, the compound tasks before the actions, and methods: each kind from 0.
fn expect_numbers<R: Abort>(rt: &R, task: &Task) {
    assert_eq!(rt; task.object_number(b"a"), Some(0));
    assert_eq!(rt; task.object_number(b"t1"), Some(3));
    assert_eq!(rt; task.object_number(b"go"), None);
    assert_eq!(rt; task.type_number(b"truck"), Some(2));
    assert_eq!(rt; task.predicate_number(b"at"), Some(1));
    assert_eq!(rt; task.task_number(b"go"), Some(0));
    assert_eq!(rt; task.task_number(b"drive"), Some(1));
    assert_eq!(rt; task.method_number(b"m-step"), Some(1));
    assert_eq!(rt; task.method_number(b"drive"), None);
}

#[test]
fn names_have_numbers(rt: HostRuntime) -> Result<(), Fail> {
    let task = task_of(rt.alloc(), ROAD)?;
    expect_numbers(&rt, &task);
    Ok(())
}
