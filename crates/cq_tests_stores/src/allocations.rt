//! Each allocation of a call refused in turn.

use crate::stores::tried_at;
use crate::{grounded, index, links, matching, roster};
use cq_index::AtomIndex;
use cq_links::Links;
use cq_refusing::{ENOUGH, Outcome, Refusing};
use cq_roster::Roster;
use std::alloc::{Allocator, Global};

const INDEX: usize = 0;

const ROSTER: usize = 1;

const GROUNDED: usize = 2;

const LINKS: usize = 3;

const MATCHER: usize = 4;

const GRAPHS: usize = 5;

/// What came of the trial at the place in the table of the store.
fn tried<A: Allocator + Copy>(alloc: A, store: usize, place: usize) -> Outcome {
    match store {
        INDEX => tried_at::<A, AtomIndex<A>>(alloc, index::TRIALS, place),
        ROSTER => tried_at::<A, Roster<A>>(alloc, roster::TRIALS, place),
        GROUNDED => tried_at::<A, grounded::Sample<A>>(alloc, grounded::TRIALS, place),
        LINKS => tried_at::<A, Links<A>>(alloc, links::TRIALS, place),
        MATCHER => tried_at::<A, matching::Guarded<A>>(alloc, matching::TRIALS, place),
        GRAPHS => tried_at::<A, matching::Scratch>(alloc, matching::ASKED, place),
        _ => Outcome::Wrong,
    }
}

/// How many allocations of the trial were refused, until none was; else how many came before the refusal at which something
/// else came of it. As `cq_refusing::refusals`, for a place that a table has.
fn refusals(alloc: Global, store: usize, place: usize) -> Result<u64, u64> {
    let mut refused = 0u64;
    for left in 0..ENOUGH {
        let heap = Refusing::new(alloc, left);
        match (tried(&heap, store, place), heap.has_refused()) {
            (Outcome::Done, false) => return Ok(refused),
            (Outcome::Refused, true) => refused = refused.saturating_add(1),
            // A refused move into a smaller block may be reported to nobody.
            (Outcome::Done | Outcome::Unready, true) => {}
            _ => return Err(left),
        }
    }
    Err(ENOUGH)
}

/// A call, its store, the place of its trial, and how many allocations are refused at least.
type Call = (&'static str, usize, usize, u64);

const OF_STORES: &[Call] = &[
    ("index add", INDEX, 0, 4),
    ("index candidates", INDEX, 1, 1),
    ("index partners", INDEX, 2, 2),
    ("index copy", INDEX, 3, 4),
    ("roster add", ROSTER, 0, 2),
    ("roster first add", ROSTER, 1, 5),
    // That its one allocation is refused is made up for by smaller ones.
    ("roster in_order", ROSTER, 2, 0),
    ("roster copy", ROSTER, 3, 2),
    ("grounded add", GROUNDED, 0, 1),
    ("grounded gain", GROUNDED, 1, 4),
    ("grounded copy", GROUNDED, 2, 4),
    ("links add", LINKS, 0, 4),
    ("links copy", LINKS, 1, 4),
];

/// The first call of which something else comes, and what comes of it.
fn other_in(alloc: Global, calls: &[Call]) -> Option<(&'static str, Result<u64, u64>)> {
    for (call, store, place, least) in calls {
        let told = refusals(alloc, *store, *place);
        if !matches!(told, Ok(count) if count >= *least) {
            return Some((*call, told));
        }
    }
    None
}

#[test]
fn failed_allocation_in_stores(rt: HostRuntime) {
    let other = other_in(rt.alloc(), OF_STORES);
    assert!(rt; other.is_none(), "{other:?}");
}

const OF_MATCHING: &[Call] = &[
    ("matcher add", MATCHER, 0, 8),
    ("matcher enable", MATCHER, 1, 1),
    ("matcher waiters", MATCHER, 2, 1),
    ("matcher copy", MATCHER, 3, 8),
    ("greatest", GRAPHS, 0, 1),
    ("falling", GRAPHS, 1, 8),
    ("parts", GRAPHS, 2, 10),
];

#[test]
fn failed_allocation_in_matching(rt: HostRuntime) {
    let other = other_in(rt.alloc(), OF_MATCHING);
    assert!(rt; other.is_none(), "{other:?}");
}
