//! Each allocation of a call refused in turn.
//!
//! A call that is tried so is a type with the trait [`Tried`]: it sets up what the call needs, makes the call, and
//! says what came of it. [`refusals`] has it do so on an allocator that refuses the first allocation, on one that
//! refuses the second, and so on.

use crate::Refusing;
use std::alloc::{Allocator, Global};

/// What came of a call on an allocator that refuses one allocation.
#[derive(Clone, Copy, PartialEq, Eq)]
pub enum Outcome {
    /// What the call needs was refused an allocation, so there was no call.
    Unready,
    /// The call was refused an allocation: it said so, changed nothing, and the same call then succeeded.
    Refused,
    /// The call succeeded.
    Done,
    /// Something else came of it.
    Wrong,
}

impl Outcome {
    /// The outcome of a call that succeeded, where what it left is right.
    pub fn done_if(right: bool) -> Outcome {
        if right { Outcome::Done } else { Outcome::Wrong }
    }

    /// The outcome of a call that was refused an allocation, where that changed nothing and the same call then
    /// succeeded.
    pub fn refused_if(right: bool) -> Outcome {
        if right {
            Outcome::Refused
        } else {
            Outcome::Wrong
        }
    }
}

/// A call of which each allocation is refused in turn.
pub trait Tried {
    /// Sets up what the call needs on the allocator, and makes the call.
    fn tried<A: Allocator + Copy>(alloc: A) -> Outcome;
}

/// More allocations than any call that is tried makes.
pub const ENOUGH: u64 = 2_000;

/// How many allocations of the call were refused, until none was.
///
/// # Errors
/// How many allocations came before the refusal at which something else came of the call.
pub fn refusals<T: Tried>(alloc: Global) -> Result<u64, u64> {
    let mut refused = 0u64;
    for left in 0..ENOUGH {
        let heap = Refusing::new(alloc, left);
        match (T::tried(&heap), heap.has_refused()) {
            (Outcome::Done, false) => return Ok(refused),
            (Outcome::Refused, true) => refused = refused.saturating_add(1),
            // A refused move into a smaller block may be reported to nobody.
            (Outcome::Done | Outcome::Unready, true) => {}
            _ => return Err(left),
        }
    }
    Err(ENOUGH)
}
