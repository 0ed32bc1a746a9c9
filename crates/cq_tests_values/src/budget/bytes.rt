//! What is counted, and what is refused.

use cq_budget::Budget;
use cq_refusing::Refusing;
use std::alloc::{Allocator, Global};

/// What is done with blocks of a budget, and with a list that takes its memory from it: of numbers of eight bytes, those from 0
/// on.
#[derive(Clone, Copy)]
enum Call {
    /// A block of so many bytes is taken, and held.
    Take(usize),
    /// Such a block is refused.
    Miss(usize),
    /// The last block that is held comes back.
    Give,
    /// The empty list gets so many numbers.
    Grow(u64),
    /// The list of so many numbers has no room for one more, and stays as it was.
    Stay(u64),
    /// The list keeps so many numbers, and no room for others.
    Keep(u64),
    /// A list of a hundred units takes no bytes.
    Units,
}

/// A call, and how many bytes are out after it.
type Step = (Call, usize);

/// Blocks that are held.
type Blocks<'a, A> = Vec<Vec<u8, &'a Budget<A>>>;

/// A list of numbers.
type Numbers<'a, A> = Vec<u64, &'a Budget<A>>;

/// Whether the block is taken, and held with the others.
fn is_taken<'a, A: Allocator>(heap: &'a Budget<A>, held: &mut Blocks<'a, A>, bytes: usize) -> bool {
    match Vec::with_capacity(heap, bytes) {
        Ok(block) => held.push(block).is_ok(),
        Err(_) => false,
    }
}

/// Whether the list is one of so many numbers.
fn is_list<A: Allocator>(numbers: &Numbers<A>, count: u64) -> bool {
    for (place, number) in numbers.iter().enumerate() {
        if *number != place as u64 {
            return false;
        }
    }
    numbers.len() as u64 == count
}

fn is_grown<A: Allocator>(numbers: &mut Numbers<A>, count: u64) -> bool {
    for number in 0..count {
        if numbers.push(number).is_err() {
            return false;
        }
    }
    is_list(numbers, count)
}

fn is_units<A: Allocator>(heap: &Budget<A>, units: &mut Vec<(), &Budget<A>>) -> bool {
    for _ in 0..100u8 {
        if units.push(()).is_err() {
            return false;
        }
    }
    units.len() == 100 && heap.out() == 0
}

/// Whether the call comes out so.
fn is_made<'a, A: Allocator>(
    heap: &'a Budget<A>,
    held: &mut Blocks<'a, A>,
    numbers: &mut Numbers<'a, A>,
    call: Call,
) -> bool {
    match call {
        Call::Take(bytes) => is_taken(heap, held, bytes),
        Call::Miss(bytes) => Vec::<u8, _>::with_capacity(heap, bytes).is_err(),
        Call::Give => held.pop().is_some(),
        Call::Grow(count) => is_grown(numbers, count),
        Call::Stay(count) => numbers.push(count).is_err() && is_list(numbers, count),
        Call::Keep(count) => {
            numbers.truncate(count as usize);
            numbers.shrink_to_fit();
            is_list(numbers, count)
        }
        Call::Units => is_units(heap, &mut Vec::new(heap)),
    }
}

/// The place of the first step that comes out otherwise.
fn other_step<'a, A: Allocator>(
    heap: &'a Budget<A>,
    held: &mut Blocks<'a, A>,
    numbers: &mut Numbers<'a, A>,
    steps: &[Step],
) -> Option<usize> {
    for (place, (call, out)) in steps.iter().enumerate() {
        if !is_made(heap, held, numbers, *call) || heap.out() != *out {
            return Some(place);
        }
    }
    None
}

/// The same where no block is held and the list is empty, over a budget of so many bytes, which it then tells, and how many
/// are out once all came back.
fn told_over<A: Allocator>(
    alloc: Global,
    below: A,
    bytes: usize,
    steps: &[Step],
) -> (Option<usize>, usize, usize) {
    let heap = Budget::new(below, bytes);
    let other = other_step(&heap, &mut Vec::new(alloc), &mut Vec::new(&heap), steps);
    (other, heap.bytes(), heap.out())
}

/// Steps over a budget of so many bytes, where the allocator below refuses the allocation of that number, if any, and whether
/// it came to that.
type Run = (usize, u64, &'static [Step], bool);

/// Whether the run comes out so.
fn is_run(alloc: Global, run: Run) -> bool {
    let (bytes, left, steps, is_refused) = run;
    let below = Refusing::new(alloc, left);
    told_over(alloc, &below, bytes, steps) == (None, bytes, 0) && below.has_refused() == is_refused
}

const NONE: u64 = u64::MAX;

const LAST_BYTE: [Step; 14] = [
    (Call::Miss(101), 0),
    (Call::Take(100), 100),
    (Call::Miss(1), 100),
    (Call::Give, 0),
    (Call::Take(99), 99),
    (Call::Take(1), 100),
    (Call::Miss(1), 100),
    (Call::Give, 99),
    (Call::Give, 0),
    (Call::Take(60), 60),
    (Call::Miss(60), 60),
    (Call::Give, 0),
    (Call::Take(60), 60),
    (Call::Miss(60), 60),
];

const RUNS: [Run; 6] = [
    // A budget is used to its last byte, one byte beyond is refused, and bytes that came back are used again.
    (100, NONE, &LAST_BYTE, false),
    // An allocation counts what it adds.
    (64, NONE, &[(Call::Grow(8), 64), (Call::Keep(2), 16)], false),
    // A failed allocation changes nothing.
    (63, NONE, &[(Call::Grow(4), 32), (Call::Stay(4), 32)], false),
    // A refusal below is not counted: of a block, and of a list that grows.
    (1000, 0, &[(Call::Miss(8), 0)], true),
    (1000, 1, &[(Call::Grow(4), 32), (Call::Stay(4), 32)], true),
    // No bytes cost nothing.
    (0, NONE, &[(Call::Units, 0), (Call::Miss(1), 0)], false),
];

#[test]
fn budgets(rt: HostRuntime) {
    for place in 0..RUNS.len() {
        assert!(rt; is_run(rt.alloc(), RUNS[place]), "{place}");
    }
}
