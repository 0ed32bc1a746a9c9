//! Calls of a matcher as the tables have them.

use crate::matching::guarded::Guarded;
use crate::matching::large::{are_matched_from, come_unmatched};
use crate::stores::Store;
use cq_atom::Edge;
use cq_match::Matcher;
use cq_text::Command;
use std::alloc::{AllocError, Allocator};

/// A node, its postcondition, and how many providers this has.
pub type Providers = (usize, u8, usize);

/// What a matcher shows of the nodes below 10.
pub struct Shown {
    pub nodes: &'static [usize],
    pub matched: &'static [usize],
    /// Of postconditions that are not named there are none.
    pub providers: &'static [Providers],
    /// All edges, by provider, waiter, postcondition and head.
    pub edges: &'static [Edge],
    /// How many edges have lost their matched providers since the first call.
    pub lost: u64,
}

/// A call of a matcher.
pub enum Call {
    /// A node comes: its number, how many postconditions it has, whether it is able, and its edges.
    Add(usize, u8, bool, &'static [Edge]),
    Remove(usize),
    Enable(usize),
    Disable(usize),
    /// A copy takes the matcher's place.
    Copy,
    /// The edges that leave the node are asked for, and are these.
    Waiters(usize, &'static [Edge]),
    Shows(Shown),
    /// All of ten thousand nodes come but the last, each with an edge to the one before it, and none is matched.
    Line,
    /// Exactly the nodes from that number on are matched, of ten thousand, and so many edges have lost their matched
    /// providers.
    MatchedFrom(usize, u64),
}

/// Numbers of nodes are below.
const PLACES: usize = 10;

/// No node of the tables has more postconditions.
const MOST_POSTS: u8 = 3;

fn told_of(told: &[Providers], node: usize, post: u8) -> usize {
    for (waiter, place, providers) in told {
        if *waiter == node && *place == post {
            return *providers;
        }
    }
    0
}

fn has_providers<A: Allocator>(matcher: &Matcher<A>, node: usize, told: &[Providers]) -> bool {
    for post in 0..=MOST_POSTS {
        if matcher.providers(node, post) != told_of(told, node, post) {
            return false;
        }
    }
    true
}

/// Whether all nodes are as they are to be shown.
fn are_nodes<A: Allocator>(matcher: &Matcher<A>, shown: &Shown) -> bool {
    for node in 0..PLACES {
        if matcher.has(node) != shown.nodes.contains(&node)
            || matcher.is_matched(node) != shown.matched.contains(&node)
            || !has_providers(matcher, node, shown.providers)
        {
            return false;
        }
    }
    true
}

fn add_waiters<A: Allocator + Copy>(
    matcher: &Matcher<A>,
    node: usize,
    edges: &mut Vec<Edge, A>,
) -> Result<(), AllocError> {
    let waiters = matcher.waiters(node)?;
    edges.extend_from_slice(&waiters)
}

/// Whether these are all edges.
fn are_edges<A: Allocator + Copy>(
    alloc: A,
    matcher: &Matcher<A>,
    wanted: &[Edge],
) -> Result<bool, AllocError> {
    let mut edges = Vec::new(alloc);
    for node in 0..PLACES {
        add_waiters(matcher, node, &mut edges)?;
    }
    Ok(edges.as_slice() == wanted)
}

fn is_shown<A: Allocator + Copy>(
    alloc: A,
    kept: &Guarded<A>,
    shown: &Shown,
) -> Result<bool, AllocError> {
    if kept.lost() != shown.lost || !are_nodes(kept.matcher(), shown) {
        return Ok(false);
    }
    are_edges(alloc, kept.matcher(), shown.edges)
}

fn waits_as<A: Allocator + Copy>(
    matcher: &Matcher<A>,
    node: usize,
    wanted: &[Edge],
) -> Result<bool, AllocError> {
    Ok(matcher.waiters(node)?.as_slice() == wanted)
}

impl<A: Allocator + Copy> Store<A> for Guarded<A> {
    type Call = Call;

    fn begin(alloc: A) -> Result<Guarded<A>, AllocError> {
        Guarded::begin(alloc)
    }

    fn text(_call: &Call) -> &'static str {
        ""
    }

    fn make(&mut self, alloc: A, call: &Call, _given: &Command<A>) -> Result<bool, AllocError> {
        match call {
            Call::Add(node, posts, able, edges) => self.add(*node, *posts, *able, edges),
            Call::Remove(node) => Ok(self.remove(*node)),
            Call::Enable(node) => self.enable(*node),
            Call::Disable(node) => Ok(self.disable(*node)),
            Call::Copy => self.go_on_with_copy(),
            Call::Waiters(node, edges) => waits_as(self.matcher(), *node, edges),
            Call::Shows(shown) => is_shown(alloc, self, shown),
            Call::Line => come_unmatched(self),
            Call::MatchedFrom(first, lost) => {
                Ok(are_matched_from(self, *first) && self.lost() == *lost)
            }
        }
    }
}
