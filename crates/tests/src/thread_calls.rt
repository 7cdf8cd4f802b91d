use std::alloc::{AllocError, Global};
use std::thread::Threads;
use workers::{for_each_mut, map_indices, workers_for};

fn are_doubles(results: &[usize]) -> bool {
    let mut i: usize = 0;
    for result in results {
        if *result != i.wrapping_mul(2) {
            return false;
        }
        i = i.wrapping_add(1);
    }
    true
}

fn doubles<R: Threads + Sync>(rt: &R, alloc: Global, count: usize) -> Result<bool, AllocError> {
    let double = |i: usize| -> usize { i.wrapping_mul(2) };
    let results = map_indices(rt, alloc, count, &double)?;
    Ok(results.len() == count && are_doubles(&results))
}

#[test]
fn results_stand_in_the_order_of_their_calls(rt: HostRuntime) -> Result<(), AllocError> {
    for count in [0, 1, 2, 7] {
        assert!(rt; doubles(&rt, rt.alloc(), count)?, "{count} calls");
    }
    Ok(())
}

#[test]
fn workers_have_so_many_each(rt: HostRuntime) {
    assert!(rt;
        workers_for(0, 500, 4) == 1
            && workers_for(999, 500, 4) == 1
            && workers_for(1_500, 500, 4) == 3
            && workers_for(9_999, 500, 4) == 4
    );
}

#[test]
fn each_place_is_changed_by_its_call(rt: HostRuntime) {
    let add = |i: usize, slot: &mut usize| {
        *slot = slot.wrapping_add(i);
    };
    for threads in [1, 2, 3, 8] {
        let mut slots = [10, 20, 30, 40, 50];
        for_each_mut(&rt, &mut slots, threads, &add);
        assert!(rt; slots == [10, 21, 32, 43, 54], "{threads} threads");
        let mut none: [usize; 0] = [];
        for_each_mut(&rt, &mut none, threads, &add);
    }
}
