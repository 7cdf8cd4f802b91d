use std::alloc::{AllocError, Global};
use std::thread::Threads;
use workers::ShardedSet;

// Whether each value is new the first time, in its batch and in those before.
fn adds_each_once<R: Threads + Sync>(
    rt: &R,
    alloc: Global,
    set: &mut ShardedSet<u64>,
) -> Result<bool, AllocError> {
    let first = set.insert_all(rt, alloc, &[5, 7, 5, 9], 1)?;
    let second = set.insert_all(rt, alloc, &[9, 1, 7, 1], 4)?;
    Ok(
        first.as_slice() == [true, true, false, true].as_slice()
            && second.as_slice() == [false, true, false, false].as_slice(),
    )
}

#[test]
fn a_value_is_added_once(rt: HostRuntime) -> Result<(), AllocError> {
    let mut set: ShardedSet<u64> = ShardedSet::new(rt.alloc(), 4)?;
    set.reserve(8)?;
    assert!(rt;
        adds_each_once(&rt, rt.alloc(), &mut set)?,
        "{:?}",
        set.values()
    );
    assert!(rt; set.values() == [5, 7, 9, 1].as_slice() && set.contains(&7) && !set.contains(&8));
    set.clear();
    assert!(rt; set.values().is_empty() && !set.contains(&7));
    Ok(())
}

fn adds_alone(set: &mut ShardedSet<u64>) -> Result<bool, AllocError> {
    let first = set.insert(5)?;
    let second = set.insert(7)?;
    let again = set.insert(5)?;
    Ok(first && second && !again)
}

#[test]
fn a_value_is_added_alone(rt: HostRuntime) -> Result<(), AllocError> {
    let mut set: ShardedSet<u64> = ShardedSet::new(rt.alloc(), 4)?;
    let is_right = adds_alone(&mut set)?;
    assert!(rt; is_right && set.values() == [5, 7].as_slice());
    Ok(())
}
