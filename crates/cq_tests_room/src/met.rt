//! In what a failed allocation was met.

use crate::calls::{Trial, attempt};
use cq_desk::{End, Reply, Submitted};
use cq_refusing::{ENOUGH, Refusing};
use std::alloc::{Allocator, Global};
use std::sync::Wait;

/// In what the refusal of an allocation was met, where all that came of it was right.
#[derive(Clone, Copy, PartialEq, Eq)]
pub enum Met {
    /// In what the calls need, before they were made.
    Setup,
    /// In beginning a publisher or a room.
    Begin,
    /// In opening the room.
    Open,
    /// In making room for the replies of a submit.
    Replies,
    /// In entering an edit of a submit, after so many entries.
    Stopped(u64),
    /// In publishing what a submit had entered.
    Unpublished,
    /// In the call that enters one edit.
    Enter,
    /// In the call that publishes.
    Publish,
    /// In no call: all succeeded. A publish tries a failed allocation of its log again, and tells nobody.
    Nothing,
    /// Something else came of the calls.
    Wrong,
}

impl Met {
    /// The same, where all else was right.
    pub fn if_right(self, right: bool) -> Met {
        if right { self } else { Met::Wrong }
    }

    /// What was met in these calls and in later ones, of which no more than one is refused.
    pub fn then(self, later: Met) -> Met {
        match (self, later) {
            (met, Met::Nothing) => met,
            (Met::Nothing, met) => met,
            _ => Met::Wrong,
        }
    }

    /// How many of two edits were entered by a submit.
    pub fn entries(self) -> u64 {
        match self {
            Met::Stopped(entries) => entries,
            Met::Unpublished | Met::Nothing => 2,
            _ => 0,
        }
    }
}

/// How many edits were entered, where the replies say that as many as there are were the first ones.
fn first_entered<W>(replies: &[Reply<W>]) -> Option<u64> {
    match replies {
        [] => Some(0),
        [Reply::Entered(1)] => Some(1),
        [Reply::Entered(1), Reply::Entered(2)] => Some(2),
        _ => None,
    }
}

/// In what a submit of two edits met the refusal, by the replies and the end.
pub fn met_by<W, A: Allocator>(submitted: &Submitted<W, A>) -> Met {
    match (first_entered(submitted.replies.as_slice()), submitted.end) {
        (Some(0), End::Stopped) => Met::Stopped(0),
        (Some(1), End::Stopped) => Met::Stopped(1),
        (Some(2), End::Unpublished) => Met::Unpublished,
        (Some(2), End::Published(2)) => Met::Nothing,
        _ => Met::Wrong,
    }
}

/// What comes of the trial where the allocation after so many others is refused, and whether there was one to refuse. All
/// was refused in turn where there was none.
fn met_at<R: Wait + Drop + Copy>(rt: R, alloc: Global, trial: Trial, left: u64) -> (Met, bool) {
    let heap = Refusing::new(alloc, left);
    let met = attempt(rt, &heap, trial);
    let refused = heap.has_refused();
    (met.if_right(refused || met == Met::Nothing), refused)
}

/// The first refusal at which something else came of the trial, by how many allocations came before it, where each
/// allocation is refused in turn.
pub fn first_wrong<R: Wait + Drop + Copy>(rt: R, alloc: Global, trial: Trial) -> Option<u64> {
    for left in 0..ENOUGH {
        match met_at(rt, alloc, trial, left) {
            (Met::Wrong, _) => return Some(left),
            (_, false) => return None,
            (_, true) => {}
        }
    }
    Some(ENOUGH)
}

/// Whether some refusal is met so.
fn is_met<R: Wait + Drop + Copy>(rt: R, alloc: Global, trial: Trial, wanted: Met) -> bool {
    for left in 0..ENOUGH {
        if met_at(rt, alloc, trial, left).0 == wanted {
            return true;
        }
    }
    false
}

/// The place of the first of these in which no refusal is met.
pub fn first_unmet<R: Wait + Drop + Copy>(
    rt: R,
    alloc: Global,
    trial: Trial,
    wanted: &[Met],
) -> Option<usize> {
    for (place, met) in wanted.iter().enumerate() {
        if !is_met(rt, alloc, trial, *met) {
            return Some(place);
        }
    }
    None
}
