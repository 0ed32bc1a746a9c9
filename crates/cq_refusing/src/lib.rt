//! An allocator for tests that refuses exactly one allocation.
//!
//! A test gives the code under test a `&` to a [`Refusing`] as its allocator: first one that refuses the first
//! allocation, then one that refuses the second, and so on, until the code gets by with fewer allocations and succeeds.
//! Each time the test looks at what the code answered, and at the state that it left.
//!
//! [`refusals`] does so with any call.
//!
//! Nothing but tests uses it, and it is for one thread. It sets no limit to memory: it counts calls and not bytes,
//! and after its one refusal it passes every call on.
//!
//! Each allocation counts, even the one by which a collection moves into a smaller block. When that one
//! is refused, the collection keeps its larger block and may report nothing.
#![tactic(auto)]

ghost use Rattle.std.specs.Prelude.{◌≡◌, ◌<◌, ◌-◌, ◌^◌, ◌↔◌, IsTrue};
ghost use Rattle.cq_refusing.specs.Refusing.{allocations_before};

mod tried;

use std::alloc::{AllocError, Allocator};
use std::cell::Cell;
pub use tried::{ENOUGH, Outcome, Tried, refusals};

/// Passes each call on to another allocator, but for the one allocation that it refuses.
#[derive(Drop)]
pub struct Refusing<B: Allocator> {
    inner: B,
    allocations: Allocations,
}

// How many allocations come before the refused one, and how many were asked for.
#[derive(Drop)]
struct Allocations {
    left: u64,
    asked: Cell<u64>,
}

impl<B: Allocator> Refusing<B> {
    /// Refuses the allocation that comes after `left` others, and none at `u64::MAX`.
    pub fn new(inner: B, left: u64) -> Refusing<B>
        ensures { allocations_before result ≡ left }
    {
        Refusing {
            inner,
            allocations: Allocations {
                left,
                asked: Cell::new(0),
            },
        }
    }

    /// Whether the refusal has come. No clause can say that, since a cell holds the count.
    pub fn has_refused(&self) -> bool
        ensures never { IsTrue result → allocations_before self.now < 2 ^ 64 - 1 }
    {
        self.allocations.asked.get() > self.allocations.left
    }

    /// How many allocations were asked for, with the refused one. No clause can say that, since a cell holds the count.
    pub fn grown(&self) -> u64 {
        self.allocations.asked.get()
    }
}

impl Allocations {
    // Counts one allocation, and says whether it is the one to refuse.
    fn count_one(&self) -> bool {
        let asked = self.asked.get();
        self.asked.set(asked.saturating_add(1));
        is_turn(asked, self.left)
    }
}

// The count stops at `u64::MAX`, so that number would come again and again.
fn is_turn(asked: u64, left: u64) -> bool
    ensures { IsTrue result ↔ ((asked ≡ left) × (left < 2 ^ 64 - 1)) }
{
    asked == left && left < u64::MAX
}

unsafe impl<B: Allocator> Allocator for Refusing<B> {
    ghost dealloc_token = { λ heap ty ptr. B.dealloc_token heap.inner ty ptr };

    fn allocate(&self, size: usize, align: usize) -> Result<*mut u8, AllocError> {
        if self.allocations.count_one() {
            return Err(AllocError);
        }
        self.inner.allocate(size, align)
    }

    unsafe fn deallocate(&self, ptr: *mut u8, size: usize, align: usize) {
        self.inner.deallocate(ptr, size, align);
    }
}
