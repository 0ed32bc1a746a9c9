//! Jobs that run in threads.

use std::thread::{Threads, join};

/// What a thread does once.
pub trait Job: Drop + Send {
    type Told: Drop + Send;

    fn run(self) -> Self::Told;
}

/// What both jobs told, each of which ran in a thread.
pub fn both<J: Job, K: Job, T: Threads>(threads: &T, one: J, other: K) -> (J::Told, K::Told) {
    join(threads, || one.run(), || other.run())
}
