//! Two threads at once.

use cq_budget::Budget;
use std::alloc::{AllocError, Global};
use std::sync::atomic::{AtomicU64, Ordering};
use std::thread::{Threads, join};

/// Two such blocks are beyond the budget.
const BLOCK: usize = 600;

const BUDGET: usize = 1000;

const ROUNDS: u64 = 20_000;

type Block<'a> = Vec<u8, &'a Budget<Global>>;

/// Whether no other thread has a block beside this one's, and no more than the budget is out.
fn is_alone(heap: &Budget<Global>, holders: &AtomicU64) -> bool {
    let others = holders.fetch_add(1, Ordering::SeqCst);
    let out = heap.out();
    holders.fetch_sub(1, Ordering::SeqCst);
    others == 0 && out <= BUDGET
}

/// Whether a block was refused, or else had, and then while the other thread had none.
fn has_alone(heap: &Budget<Global>, holders: &AtomicU64) -> (bool, bool) {
    match Block::with_capacity(heap, BLOCK) {
        Ok(_block) => (true, is_alone(heap, holders)),
        Err(_) => (false, true),
    }
}

/// How many blocks it had, where it never had one while the other thread did.
fn allocates(heap: &Budget<Global>, holders: &AtomicU64) -> Option<u64> {
    let mut had = 0u64;
    for _ in 0..ROUNDS {
        let (has_one, is_alone) = has_alone(heap, holders);
        if !is_alone {
            return None;
        }
        had = had.saturating_add(has_one as u64);
    }
    Some(had)
}

/// How many blocks two threads had, where they never passed the budget.
fn had_by_two(rt: &impl Threads, heap: &Budget<Global>) -> Result<Option<u64>, AllocError> {
    let block = Block::with_capacity(heap, BLOCK)?;
    let holders = &AtomicU64::new(0);
    let (one, other) = join(
        rt,
        // A block of one thread comes back from another.
        move || {
            drop(block);
            allocates(heap, holders)
        },
        || allocates(heap, holders),
    );
    match (one, other) {
        (Some(one), Some(other)) => Ok(Some(one.saturating_add(other))),
        _ => Ok(None),
    }
}

#[test]
fn two_threads_never_pass_the_budget(rt: HostRuntime) {
    let heap = Budget::new(rt.alloc(), BUDGET);
    let told = had_by_two(&rt, &heap);
    assert!(rt; matches!(told, Ok(Some(1..))) && heap.out() == 0);
}
