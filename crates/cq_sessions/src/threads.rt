//! Jobs in threads.

ghost use Rattle.std.specs.Prelude.{◌≡◌, [], map, IfOk, OnOk};
ghost use mathlib.Core.List.{IsPrefix};
ghost use Rattle.cq_sessions.specs.Steps.Sheets.{LeavesEach};

use std::alloc::{AllocError, Allocator};
use std::snapshot::Snapshot;
use std::sync::Wait;
use std::thread;
use std::thread::{Promise, PromisedHandle, Scope, Threads};

/// What a thread does once.
pub(crate) trait Job: Drop + Send {
    /// What it leaves.
    type Left: Drop + Send;

    // What a job leaves.
    ghost leaves: { Self → Self.Left → Type 0 };

    fn run(self) -> Self::Left
        ensures { leaves self result };
}

/// The promise of a thread: it leaves what the job leaves.
#[derive(Drop)]
pub(crate) struct LeftBy<J: Job>(Snapshot<J>);

impl<J: Job> Promise<J::Left> for LeftBy<J> {
    ghost kept_by = { λ promise left. J.leaves promise.0.value left };
}

/// A job's thread.
#[derive(Drop)]
struct Child<J: Job> {
    handle: PromisedHandle<J::Left, LeftBy<J>>,
}

impl<J: Job> Child<J> {
    /// Waits for the thread, and takes what it left.
    fn join<T: Threads>(self, rt: &T) -> J::Left
        ensures { J.leaves self.handle.promise.0.value result }
    {
        let Child { handle } = self;
        handle.join(rt)
    }
}

/// Starts a thread for each job; where one is not started, neither are the jobs after it.
fn start_all<'s, E: 's, J: Job + 's, A: Allocator>(
    scope: &Scope<'s, E>,
    jobs: Vec<J, A>,
    children: &mut Vec<Child<J>, A>,
) -> Result<(), AllocError>
    requires { children.old.items ≡ [] }
    ensures { OnOk result (IsPrefix (map (λ child. child.handle.promise.0.value) children.new.items) jobs.items) }
{
    for job in jobs {
        let promise = LeftBy(Snapshot::of(&job));
        let Ok(handle) = scope.spawn_with(promise, move || job.run()) else {
            return Ok(());
        };
        children.push(Child { handle })?;
    }
    Ok(())
}

/// Waits for each thread, and takes what it left.
fn join_all<J: Job, T: Threads, A: Allocator>(
    rt: &T,
    children: Vec<Child<J>, A>,
    lefts: &mut Vec<J::Left, A>,
) -> Result<(), AllocError>
    requires { lefts.old.items ≡ [] }
    ensures { OnOk result (LeavesEach J.leaves (map (λ child. child.handle.promise.0.value) children.items) lefts.new.items) }
{
    for child in children {
        lefts.push(child.join(rt))?;
    }
    Ok(())
}

/// Runs each job in a thread of the scope, and answers what they left.
fn run_in<'s, E: 's, J: Job + 's, T: Threads, A: Allocator + Copy>(
    rt: &T,
    alloc: A,
    scope: &Scope<'s, E>,
    jobs: Vec<J, A>,
) -> Result<Vec<J::Left, A>, AllocError>
    ensures { IfOk result (λ lefts. LeavesEach J.leaves jobs.items lefts.items) }
{
    let mut children = Vec::with_capacity(alloc, jobs.len())?;
    let mut lefts = Vec::with_capacity(alloc, jobs.len())?;
    start_all(scope, jobs, &mut children)?;
    join_all(rt, children, &mut lefts)?;
    Ok(lefts)
}

/// Runs each job in a thread of its own, waits for all of them, and answers what they left, in their order. Where a
/// thread is not started, neither are those of the jobs after it, and fewer are answered.
pub(crate) fn run_all<J: Job, T: Threads + Wait + Sync, A: Allocator + Copy>(
    rt: &T,
    alloc: A,
    jobs: Vec<J, A>,
) -> Result<Vec<J::Left, A>, AllocError>
    ensures { IfOk result (λ lefts. LeavesEach J.leaves jobs.items lefts.items) }
{
    thread::scope(
        thread::scope_env(),
        rt,
        |scope| -> Result<Vec<J::Left, A>, AllocError>
            ensures { IfOk result (λ lefts. LeavesEach J.leaves jobs.items lefts.items) }
        { run_in(rt, alloc, scope, jobs) },
    )
}
