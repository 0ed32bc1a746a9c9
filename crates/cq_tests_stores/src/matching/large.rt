//! A ring and a chain of ten thousand nodes: all come matched with the last one, and where the middle one goes they fall along
//! them.

use crate::edges::edges;
use crate::matching::calls::Call;
use crate::matching::guarded::Guarded;
use cq_atom::Edge;
use std::alloc::{AllocError, Allocator};

pub const SIZE: usize = 10_000;

/// The edge from head 0 of the provider to postcondition 0 of the waiter.
pub fn edge(provider: usize, waiter: usize) -> Edge {
    Edge {
        provider,
        head: 0,
        waiter,
        post: 0,
    }
}

/// Whether each node but the last comes, each with an edge to the one before, and none is matched.
pub fn come_unmatched<A: Allocator + Copy>(kept: &mut Guarded<A>) -> Result<bool, AllocError> {
    if !kept.add(0, 1, true, &[])? {
        return Ok(false);
    }
    for node in 1..SIZE - 1 {
        if !kept.add(node, 1, true, &[edge(node, node - 1)])? || kept.matcher().is_matched(node) {
            return Ok(false);
        }
    }
    Ok(!kept.matcher().is_matched(0))
}

/// Whether exactly the nodes from that number on are matched.
pub fn are_matched_from<A: Allocator>(kept: &Guarded<A>, first: usize) -> bool {
    for node in 0..SIZE {
        if kept.matcher().is_matched(node) != (node >= first) {
            return false;
        }
    }
    true
}

/// The middle node comes again.
const MENDED: Call = Call::Add(
    5_000,
    1,
    true,
    edges![(5_000, 0, 4_999, 0), (5_001, 0, 5_000, 0)],
);

// The last node waits for node 0. Where the middle one goes, none is matched, and each has one edge.
pub const RING: &[Call] = &[
    Call::Line,
    Call::Add(
        9_999,
        1,
        true,
        edges![(9_999, 0, 9_998, 0), (0, 0, 9_999, 0)],
    ),
    Call::MatchedFrom(0, 0),
    Call::Remove(5_000),
    Call::MatchedFrom(SIZE, 10_000),
    MENDED,
    Call::MatchedFrom(0, 10_000),
];

// The last node waits for nobody. Where the middle one goes, it and those before it are matched no longer; each of them has
// one edge, but node 0.
pub const CHAIN: &[Call] = &[
    Call::Line,
    Call::Add(9_999, 0, true, edges![(9_999, 0, 9_998, 0)]),
    Call::MatchedFrom(0, 0),
    Call::Remove(5_000),
    Call::MatchedFrom(5_001, 5_000),
    MENDED,
    Call::MatchedFrom(0, 5_000),
];
