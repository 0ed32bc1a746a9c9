//! Two files whose threads are there at the same time.

use crate::files::postings::{order_told, posting_files};
use cq_devices::Counted;
use cq_room::Gate;
use cq_sessions::run_sessions_past;
use std::alloc::Global;
use std::hint::spin_loop;
use std::sync::Wait;
use std::sync::atomic::{AtomicBool, AtomicUsize, Ordering};
use std::thread::Threads;

/// More turns than it takes a thread to start.
const TURNS: u64 = 100_000_000;

/// A gate that opens when two threads have come, or after so many turns.
#[derive(Drop)]
struct Meeting {
    come: AtomicUsize,
    missed: AtomicBool,
}

impl Meeting {
    fn empty() -> Meeting {
        Meeting {
            come: AtomicUsize::new(0),
            missed: AtomicBool::new(false),
        }
    }

    /// Whether two threads come within so many turns.
    fn is_met(&self) -> bool {
        for _ in 0..TURNS {
            if self.come.load(Ordering::SeqCst) >= 2 {
                return true;
            }
            spin_loop();
        }
        false
    }
}

impl Gate for Meeting {
    fn pass(&self) {
        self.come.fetch_add(1, Ordering::SeqCst);
        if !self.is_met() {
            self.missed.store(true, Ordering::SeqCst);
        }
    }
}

/// What the files leave, whose threads pass the gate; nothing where there are other than two.
fn served_past<T: Threads + Wait + Sync>(
    rt: &T,
    alloc: Global,
    files: &[Vec<u8>],
    gate: &Meeting,
) -> Option<Vec<u8>> {
    if files.len() != 2 {
        return None;
    }
    let mut writer = Counted::new(Vec::new(alloc));
    match run_sessions_past(rt, alloc, b"", files, &mut writer, gate) {
        Ok(()) => Some(writer.into_inner()),
        Err(_) => None,
    }
}

/// What two files of one posting leave, whose threads pass the gate.
fn two_served<T: Threads + Wait + Sync>(rt: &T, alloc: Global, gate: &Meeting) -> Option<String> {
    let files = posting_files(alloc, 2).ok()?;
    String::from_utf8(served_past(rt, alloc, &files, gate)?).ok()
}

// Neither thread is served before both have come. The script has an entry of each of two sessions, and their replies.
#[test]
fn two_files_past_a_gate(rt: HostRuntime) {
    let gate = Meeting::empty();
    match two_served(&rt, rt.alloc(), &gate) {
        Some(script) => assert!(rt; order_told(rt.alloc(), &script, 2).is_some()),
        None => assert!(rt; false),
    }
    assert!(rt; !gate.missed.load(Ordering::SeqCst));
    assert!(rt; gate.come.load(Ordering::SeqCst) == 2);
}
