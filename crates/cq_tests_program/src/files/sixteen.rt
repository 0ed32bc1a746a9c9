//! Sixteen files of one posting each.

use crate::files::postings::{is_replay_in, order_told, posting_files};
use crate::files::served::{replayed, written};
use std::alloc::Global;
use std::sync::Wait;
use std::thread::Threads;

/// What sixteen files leave, over an empty SETUP.
fn sixteen_served<T: Threads + Wait + Sync>(rt: &T, alloc: Global) -> Option<String> {
    let files = posting_files(alloc, 16).ok()?;
    written(rt, alloc, b"", &files)
}

/// Whether a replay answers as it has to where sessions came in that order.
fn replays_in(alloc: Global, script: &str, order: &[usize]) -> bool {
    match replayed(alloc, script) {
        Some(answers) => is_replay_in(alloc, &answers, order),
        None => false,
    }
}

/// Whether the script is that of sixteen sessions, and replays.
fn is_right(alloc: Global, script: &str) -> bool {
    match order_told(alloc, script, 16) {
        Some(order) => replays_in(alloc, script, &order),
        None => false,
    }
}

#[test]
fn sixteen_files(rt: HostRuntime) {
    match sixteen_served(&rt, rt.alloc()) {
        Some(script) => assert!(rt; is_right(rt.alloc(), &script)),
        None => assert!(rt; false),
    }
}
