//! Files whose output is the same at each run, and writers that fail.

use crate::devices::Holding;
use crate::files::served::{ran_copies, told};
use crate::runs::is_told;
use cq_budget::Budget;
use cq_sessions::SessionsFault;
use std::alloc::Global;
use std::sync::Wait;
use std::thread::Threads;

const FLIGHTS: &[u8] = b"relation Flights 2\ninsert Flights(122, Paris)\n";

/// The last line has no line break.
const TRAVEL: &[u8] = b"post a {} R(x) <- Flights(x, Paris)
post a {} R(1) <-
show
publish
withdraw b";

const TRAVELLED: &[u8] = b"relation Flights 2
limits 1000 100000
# entry 1 session 0
insert Flights(122, \"Paris\")
# entry 2 session 0
post a {} R(x) <- Flights(x, \"Paris\")
publish
show
# setup line 1 ok
# setup line 2 ok 1
# session 0 line 1 ok 2
# session 0 line 2 refused NameTaken
# session 0 line 3 show 1
# session 0 line 4 published 2
# session 0 line 5 refused NoSuchName
";

/// How a run ended, and how many of the expected bytes were not written.
type Told = Option<(Result<(), SessionsFault>, usize)>;

/// How all is written.
const WELL: Told = Some((Ok(()), 0));

/// A setup, edits after it, of which some are refused, and a relation that comes too late.
const SETUP: &[u8] = b"relation T 1
limits 9 9
insert T(1)
relation U 1
post a {} R(x) <- T(x)
insert T(1)
delete T(2)
";

const SET_UP: &[u8] = b"relation T 1
limits 9 9
# entry 1 session 0
insert T(1)
# entry 2 session 0
post a {} R(x) <- T(x)
publish
show
# setup line 1 ok
# setup line 2 ok
# setup line 3 ok 1
# setup line 4 refused Late
# setup line 5 ok 2
# setup line 6 refused RowPresent
# setup line 7 refused RowAbsent
";

#[test]
fn setup_alone(rt: HostRuntime) {
    let ended = told(&rt, rt.alloc(), SETUP, &[b"", b""], SET_UP);
    assert!(rt; ended == WELL);
}

// The writer takes so many bytes of the script, and fails.
#[test]
fn a_device_fails(rt: HostRuntime) {
    for count in [0usize, 1, 18, 19, 100, TRAVELLED.len() - 1] {
        let ended = told(&rt, rt.alloc(), FLIGHTS, &[TRAVEL], &TRAVELLED[..count]);
        assert!(rt; ended == Some((Err(SessionsFault::Write), 0)), "{count}");
    }
}

/// How the run ends over a writer that takes all bytes and fails to pass them on, and how many it took.
fn told_unflushed<T: Threads + Wait + Sync>(rt: &T, alloc: Global) -> Told {
    let (ended, writer) = ran_copies(rt, alloc, FLIGHTS, &[TRAVEL], Holding { taken: 0 })?;
    Some((ended, writer.taken))
}

#[test]
fn a_flush_fails(rt: HostRuntime) {
    let ended = told_unflushed(&rt, rt.alloc());
    assert!(rt; ended == Some((Err(SessionsFault::Write), TRAVELLED.len())));
}

/// More bytes than the run needs.
const ENOUGH: usize = 4_000_000;

/// How the run ends within so many bytes, and how many bytes did not come back.
fn told_within<T: Threads + Wait + Sync>(rt: &T, alloc: Global, bytes: usize) -> (Told, usize) {
    let heap = Budget::new(alloc, bytes);
    let ended = told(rt, &heap, FLIGHTS, &[TRAVEL], TRAVELLED);
    (ended, heap.out())
}

// Each time there are some bytes more, until the run succeeds. The file is served in a thread, so allocations are refused in it too.
#[test]
fn a_budget_refuses_allocations(rt: HostRuntime) {
    let refused = Some((Err(SessionsFault::NoMemory), TRAVELLED.len()));
    for bytes in (0..ENOUGH).step_by(40) {
        let ended = told_within(&rt, rt.alloc(), bytes);
        if ended == (WELL, 0) {
            assert!(rt; bytes > TRAVELLED.len());
            return;
        }
        assert!(rt; ended == (refused, 0), "{bytes}");
    }
    assert!(rt; false);
}

/// The faults of sessions, and how each is reported.
const SESSIONS_FAULTS: &[(SessionsFault, &str)] = &[
    (SessionsFault::Write, "write failed"),
    (SessionsFault::Places, "no reader place"),
    (SessionsFault::Thread, "no thread"),
    (SessionsFault::NoMemory, "out of memory"),
];

#[test]
fn faults_of_sessions_are_told(rt: HostRuntime) {
    for (fault, text) in SESSIONS_FAULTS {
        assert!(rt; is_told(rt.alloc(), fault, text), "{text}");
    }
}
