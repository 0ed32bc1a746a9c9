//! An allocator that hands out no more than a budget of bytes.
//!
//! A [`Budget`] stands over another allocator. It counts the bytes that are out and refuses what would go beyond
//! its budget, as an allocator that has no more memory does. A `&` to it is the handle: it is `Copy`, and threads
//! share it.
//!
//! A block counts as many bytes as were asked for, so a block of no bytes costs nothing. What the allocator below
//! adds to a block, and what lies outside it, as the program's stack, is not counted.
//!
//! The count is one word. Its changes make one history, which begins with the budget: each thread's change adds to
//! it in one step, and after each step the word is what the history leaves and is at most the budget
//! (`specs/Counting`).
#![tactic(auto)]

mod change;
mod count;

ghost use Rattle.std.specs.Prelude.{◌≡◌, ◌-◌, ◌*◌, ◌^◌, ◌<◌, ◌≤◌};
ghost use Rattle.cq_budget.specs.Budgets.{bytes_of};

use crate::count::Count;
use std::alloc::{AllocError, Allocator};
use std::mem::size_of;

/// Passes each call on to another allocator, as long as its budget has room.
#[derive(Drop)]
pub struct Budget<B: Allocator> {
    inner: B,
    count: Count,
}

impl<B: Allocator> Budget<B> {
    /// Hands out what `inner` gives, and at most so many bytes at a time.
    pub fn new(inner: B, bytes: usize) -> Budget<B>
        ensures { bytes_of result ≡ bytes }
    {
        Budget {
            inner,
            count: Count::new(bytes as u64),
        }
    }

    /// How many bytes may be out at a time.
    pub fn bytes(&self) -> usize
        ensures { result ≡ bytes_of self.now }
    {
        self.count.budget() as usize
    }

    /// How many bytes are out. Where other threads allocate, it may have changed since.
    pub fn out(&self) -> usize
        ensures { result ≤ bytes_of self.now }
    {
        self.count.out() as usize
    }
}

unsafe impl<B: Allocator> Allocator for Budget<B> {
    ghost dealloc_token = { λ heap ty ptr. B.dealloc_token heap.inner ty ptr };

    fn allocate(&self, size: usize, align: usize) -> Result<*mut u8, AllocError> {
        if self.count.take(size).is_refused() {
            return Err(AllocError);
        }
        match self.inner.allocate(size, align) {
            Ok(fresh) => Ok(fresh),
            Err(refusal) => {
                self.count.give(size).end();
                Err(refusal)
            }
        }
    }

    unsafe fn deallocate(&self, ptr: *mut u8, size: usize, align: usize) {
        self.inner.deallocate(ptr, size, align);
        self.count.give(size).end();
    }

    unsafe fn grow<T>(
        &self,
        ptr: *mut T,
        len: usize,
        old_cap: usize,
        new_cap: usize,
    ) -> Result<*mut T, AllocError> {
        let more = bytes_between(size_of::<T>(), old_cap, new_cap);
        if self.count.take(more).is_refused() {
            return Err(AllocError);
        }
        match self.inner.grow(ptr, len, old_cap, new_cap) {
            Ok(block) => Ok(block),
            Err(error) => {
                self.count.give(more).end();
                Err(error)
            }
        }
    }

    unsafe fn shrink<T>(
        &self,
        ptr: *mut T,
        len: usize,
        old_cap: usize,
        new_cap: usize,
    ) -> Result<*mut T, AllocError> {
        let less = bytes_between(size_of::<T>(), new_cap, old_cap);
        match self.inner.shrink(ptr, len, old_cap, new_cap) {
            Ok(block) => {
                self.count.give(less).end();
                Ok(block)
            }
            Err(error) => Err(error),
        }
    }
}

// How many bytes more `large` values of this size take than `small`.
fn bytes_between(size: usize, small: usize, large: usize) -> usize
    requires { (small ≤ large) × (large * size < 2 ^ 64) }
    ensures { result ≡ (large - small) * size }
{
    let more = large - small;
    more * size
}
