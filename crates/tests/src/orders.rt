use htn_order::{Order, OrderFault, close, close_chain};
use std::alloc::{AllocError, Global};
use std::collections::HashSet;
use std::test::Fail;

/// Closes pairs whose positions it looks at first.
fn closed(alloc: Global, size: usize, pairs: &[(usize, usize)]) -> Result<Order, OrderFault> {
    if !pairs.iter().all(|pair| pair.0 < size && pair.1 < size) {
        return Err(OrderFault::OutOfMemory);
    }
    close(alloc, size, pairs)
}

/// Whether exactly the listed pairs are before one another.
fn has_exactly(order: &Order, pairs: &[(usize, usize)]) -> bool {
    for a in 0..order.size() {
        for b in 0..order.size() {
            if order.is_before(a, b) != pairs.contains(&(a, b)) {
                return false;
            }
        }
    }
    true
}

/// Each of `size` positions with the next, in one sequence or the other.
fn successive(
    alloc: Global,
    size: usize,
    is_reversed: bool,
) -> Result<Vec<(usize, usize)>, AllocError> {
    let mut pairs = Vec::with_capacity(alloc, size)?;
    for b in 1..size {
        pairs.push((b - 1, b))?;
    }
    if is_reversed {
        pairs.reverse();
    }
    Ok(pairs)
}

#[test]
fn closes_a_diamond(rt: HostRuntime) -> Result<(), Fail> {
    let order = closed(rt.alloc(), 4, &[(2, 3), (0, 1), (1, 3), (0, 2)])?;
    assert_eq!(rt; order.size(), 4);
    assert!(rt; has_exactly(&order, &[(0, 1), (0, 2), (0, 3), (1, 3), (2, 3)]));
    Ok(())
}

#[test]
fn finds_cycles(rt: HostRuntime) -> Result<(), Fail> {
    for pairs in [
        [(0, 1), (1, 2), (2, 0)],
        [(3, 0), (0, 1), (1, 0)],
        [(0, 1), (2, 2), (1, 3)],
    ] {
        let outcome = closed(rt.alloc(), 4, &pairs);
        assert!(rt; matches!(&outcome, Err(OrderFault::Cycle(k)) if *k < 3));
    }
    let fault = OrderFault::Cycle(0).to_string(rt.alloc())?;
    assert_eq!(rt; fault.as_str(), "the ordering has a cycle");
    Ok(())
}

#[test]
fn closes_ten_thousand_positions(rt: HostRuntime) -> Result<(), Fail> {
    let size = 10_000;
    let chain = Order::chain(size);
    for is_reversed in [false, true] {
        let mut pairs = successive(rt.alloc(), size, is_reversed)?;
        assert!(rt; closed(rt.alloc(), size, &pairs)? == chain);
        // Pairs over two positions, and one back, which the cycle of all others closes.
        for b in 2..size {
            pairs.push((b - 2, b))?;
        }
        assert!(rt; closed(rt.alloc(), size, &pairs)? == chain);
        pairs.push((size - 1, 0))?;
        let outcome = closed(rt.alloc(), size, &pairs);
        assert!(rt; matches!(&outcome, Err(OrderFault::Cycle(_))));
    }
    Ok(())
}

#[test]
fn adds_pairs_to_a_list_in_sequence(rt: HostRuntime) -> Result<(), Fail> {
    let pairs = [(0, 2), (1, 2)];
    let order = close_chain(3, &pairs)?;
    assert!(rt; order == Order::chain(3));
    let back = [(0, 2), (2, 1)];
    let outcome = close_chain(3, &back);
    assert!(rt; matches!(&outcome, Err(OrderFault::Cycle(1))));
    Ok(())
}

#[test]
fn chains_stay_chains(rt: HostRuntime) -> Result<(), Fail> {
    let alloc = rt.alloc();
    let order = Order::chain(3);
    assert_eq!(rt; order.size(), 3);
    assert!(rt; order.replaced(alloc, 1, &Order::chain(4))? == Order::chain(6));
    assert!(rt; order.replaced(alloc, 1, &Order::empty())? == Order::chain(2));
    assert!(rt; order.with_first(alloc)? == Order::chain(4));
    assert!(rt; order.clone()? == order);
    // A chain whose table was made pair by pair is the same order.
    assert!(rt; closed(alloc, 3, &[(1, 2), (0, 1)])? == order);
    Ok(())
}

#[test]
fn children_inherit(rt: HostRuntime) -> Result<(), Fail> {
    let alloc = rt.alloc();
    // Position 1, between 0 and 2 beside 3, becomes two unordered nodes.
    let order = closed(alloc, 4, &[(0, 1), (1, 2)])?;
    assert_eq!(rt; order.size(), 4);
    let after = order.replaced(alloc, 1, &Order::unordered(alloc, 2)?)?;
    assert!(rt; has_exactly(&after, &[(0, 1), (0, 2), (0, 3), (1, 3), (2, 3)]));
    // Its order holds across a network with no nodes.
    let removed = order.replaced(alloc, 1, &Order::empty())?;
    assert!(rt; has_exactly(&removed, &[(0, 1)]));
    let first = removed.with_first(alloc)?;
    assert!(rt; has_exactly(&first, &[(0, 1), (0, 2), (0, 3), (1, 2)]));
    Ok(())
}

#[test]
fn free_positions_ascend(rt: HostRuntime) -> Result<(), Fail> {
    let alloc = rt.alloc();
    let order = closed(alloc, 5, &[(3, 0), (0, 2), (4, 1)])?;
    let free = order.free_positions(alloc)?;
    assert!(rt; free.as_slice() == [3, 4].as_slice());
    assert!(rt; order.is_free(4) && !order.is_free(0));
    assert_eq!(rt; order.nth_free(1), Some(4));
    assert_eq!(rt; order.nth_free(2), None);
    assert_eq!(rt; order.next_free(4), Some(4));
    assert_eq!(rt; order.next_free(5), None);
    let chain = Order::chain(1_000_000_000);
    let free = chain.free_positions(alloc)?;
    assert!(rt; free.as_slice() == [0].as_slice());
    assert_eq!(rt; chain.next_free(1), None);
    Ok(())
}

#[test]
fn predecessors_are_counted(rt: HostRuntime) -> Result<(), Fail> {
    let alloc = rt.alloc();
    let order = closed(alloc, 5, &[(3, 0), (0, 2), (4, 1)])?;
    let counts = order.predecessor_counts(alloc)?;
    assert!(rt; counts.as_slice() == [1, 1, 2, 0, 0].as_slice());
    let counts = Order::chain(3).predecessor_counts(alloc)?;
    assert!(rt; counts.as_slice() == [0, 1, 2].as_slice());
    // 100 positions, each behind all that have a greater number: rows of two words.
    let mut pairs = Vec::with_capacity(alloc, 99)?;
    for b in 1..100 {
        pairs.push((b, b - 1))?;
    }
    let counts = closed(alloc, 100, &pairs)?.predecessor_counts(alloc)?;
    assert_eq!(rt; counts.len(), 100);
    assert!(rt;
        counts
            .iter()
            .rev()
            .enumerate()
            .all(|(k, count)| *count == k)
    );
    Ok(())
}

#[test]
fn equal_orders_hash_alike(rt: HostRuntime) -> Result<(), Fail> {
    let alloc = rt.alloc();
    let mut seen = HashSet::new(alloc);
    assert!(rt; seen.insert(Order::chain(3))?);
    assert!(rt; seen.insert(closed(alloc, 3, &[(0, 1)])?)?);
    assert!(rt; seen.insert(closed(alloc, 3, &[(0, 2)])?)?);
    assert!(rt; !seen.insert(closed(alloc, 3, &[(0, 1)])?)?);
    assert!(rt; !seen.insert(closed(alloc, 3, &[(1, 2), (0, 1)])?)?);
    Ok(())
}
