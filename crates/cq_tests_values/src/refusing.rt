//! The allocator that refuses one allocation (`cq_refusing`).

use cq_refusing::Refusing;
use std::alloc::{Allocator, Global};

/// How many of forty numbers a vector takes, if it takes all. It asks for five blocks: of 4, 8, 16, 32 and 64 places.
fn forty<A: Allocator>(alloc: A) -> Option<usize> {
    let mut numbers = Vec::new(alloc);
    for i in 0..40u64 {
        if numbers.push(i).is_err() {
            return None;
        }
    }
    Some(numbers.len())
}

/// Whether the allocation after so many others is refused, once, and counts.
fn refuses_once(alloc: Global, left: u64) -> bool {
    let heap = Refusing::new(alloc, left);
    let early = heap.has_refused();
    let first = forty(&heap);
    let told = (heap.has_refused(), heap.grown());
    let second = forty(&heap);
    let counts = (left.saturating_add(1), left.saturating_add(6));
    !early
        && first.is_none()
        && told == (true, counts.0)
        && second == Some(40)
        && heap.grown() == counts.1
}

/// Whether nothing is refused where fewer are asked for.
fn refuses_none(alloc: Global) -> bool {
    let heap = Refusing::new(alloc, 5);
    let made = forty(&heap);
    made == Some(40) && !heap.has_refused() && heap.grown() == 5
}

#[test]
fn each_allocation_is_refused_in_turn(rt: HostRuntime) {
    for left in 0..5u64 {
        assert!(rt; refuses_once(rt.alloc(), left), "{left}");
    }
    assert!(rt; refuses_none(rt.alloc()));
}

/// Adds four numbers to a vector that has room for no more, and then a fifth one, which is refused at first. Whether the vector has the four
/// then, and takes the fifth one where it comes again.
fn keeps(alloc: Global) -> bool {
    let heap = Refusing::new(alloc, 1);
    let mut numbers = Vec::new(&heap);
    for i in 0..4u64 {
        if numbers.push(i).is_err() {
            return false;
        }
    }
    let is_refused = numbers.push(4).is_err();
    let is_kept = numbers.as_slice() == [0, 1, 2, 3].as_slice();
    let is_taken = numbers.push(4).is_ok();
    is_refused && is_kept && is_taken && numbers.as_slice() == [0, 1, 2, 3, 4].as_slice()
}

#[test]
fn a_failed_allocation_changes_nothing(rt: HostRuntime) {
    assert!(rt; keeps(rt.alloc()));
}

/// Whether the allocator below is asked for all but the refused one.
fn passes_on(alloc: Global) -> bool {
    let below = Refusing::new(alloc, u64::MAX);
    let heap = Refusing::new(&below, 2);
    let first = forty(&heap);
    let asked = (heap.grown(), below.grown());
    let second = forty(&heap);
    first.is_none()
        && asked == (3, 2)
        && second == Some(40)
        && below.grown() == 7
        && !below.has_refused()
}

#[test]
fn a_failed_allocation_is_not_passed_on(rt: HostRuntime) {
    assert!(rt; passes_on(rt.alloc()));
}
