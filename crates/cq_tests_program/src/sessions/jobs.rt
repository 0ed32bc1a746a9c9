//! Jobs that run in threads.

use std::alloc::AllocError;
use std::thread::{Threads, map_vec};

/// What a thread does once.
pub trait Job: Drop + Send {
    type Told: Drop + Send;

    fn run(self) -> Self::Told;
}

/// What the jobs told, each of which ran in a thread of its own. The kind of job is a parameter, since a type that holds
/// a session is more than the check of the closure takes.
pub fn run_all<J: Job, T: Threads + Sync>(
    threads: &T,
    jobs: Vec<J>,
) -> Result<Vec<J::Told>, AllocError> {
    map_vec(threads, jobs, &|job: J| job.run())
}
