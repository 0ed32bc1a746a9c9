//! Worked graphs: what is asked of each, and the answer, which was worked out by hand; and each allocation of such a call
//! refused in turn.

use crate::edges::{edges, falls};
use crate::matching::listed::{fall_as, finds_matched, lead_into, rests_on};
use crate::matching::parts::{EDGES_OF_WAITERS, PARTS_OF_FALLS, PARTS_OF_RINGS};
use crate::matching::reasons::{FALLS_IN_ROUNDS, PAIRS, RINGS, SELF_SUPPLIERS, chain_falls};
use crate::stores::{Store, Trial};
use cq_atom::Edge;
use cq_match::{Fall, Reason};
use cq_text::Command;
use std::alloc::{AllocError, Allocator};

/// What is asked of a graph, and the answer.
pub enum Asked {
    /// The matched nodes, rising.
    Matched(&'static [usize]),
    /// The falls of the others, in their order.
    Falling(&'static [Fall]),
    /// The part of these falls on which the node rests.
    PartFor(usize, &'static [Fall]),
    /// The edges that lead to the waiter.
    EdgesInto(usize, &'static [Edge]),
    /// The falls of a chain of ten thousand nodes, from the last to the first.
    ChainFalls,
}

/// A graph, and what is asked of it.
pub struct Graph {
    pub nodes: &'static [(usize, u8, bool)],
    pub edges: &'static [Edge],
    pub asked: Asked,
}

/// What is asked of graphs from scratch: nothing is kept.
#[derive(Clone, Copy)]
pub struct Scratch;

impl<A: Allocator + Copy> Store<A> for Scratch {
    type Call = Graph;

    fn begin(_alloc: A) -> Result<Scratch, AllocError> {
        Ok(Scratch)
    }

    fn text(_graph: &Graph) -> &'static str {
        ""
    }

    fn make(&mut self, alloc: A, graph: &Graph, _given: &Command<A>) -> Result<bool, AllocError> {
        match &graph.asked {
            Asked::Matched(wanted) => finds_matched(alloc, graph.nodes, graph.edges, wanted),
            Asked::Falling(wanted) => fall_as(alloc, graph.nodes, graph.edges, wanted),
            Asked::PartFor(node, wanted) => rests_on(
                alloc,
                graph.nodes,
                graph.edges,
                *node,
                wanted,
            ),
            Asked::EdgesInto(waiter, wanted) => Ok(lead_into(graph.edges, *waiter, wanted)),
            Asked::ChainFalls => chain_falls(alloc),
        }
    }
}

// The node waits for itself.
const SUPPLIES_ITSELF: &[Graph] = &[ // One node.
    Graph {
        nodes: &[(5, 1, true)],
        edges: edges![(5, 0, 5, 0)],
        asked: Asked::Matched(&[5]),
    },
];

const NO_POSTCONDITIONS: &[Graph] = &[
    // One node.
    Graph {
        nodes: &[(3, 0, true)],
        edges: &[],
        asked: Asked::Matched(&[3]),
    },
    // No node.
    Graph {
        nodes: &[],
        edges: &[],
        asked: Asked::Matched(&[]),
    },
];

// Node 7 waits for node 4. The answer rises, though the numbers fall.
const FALLING_NUMBERS: &[Graph] = &[ // 7 and 4.
    Graph {
        nodes: &[(7, 1, true), (4, 0, true)],
        edges: edges![(4, 0, 7, 0)],
        asked: Asked::Matched(&[4, 7]),
    },
];

// Nothing supplies node 7.
const KRAMER_WAITS: &[Graph] = &[ // 7 and 4.
    Graph {
        nodes: &[(7, 1, true), (4, 0, true)],
        edges: &[],
        asked: Asked::Matched(&[4]),
    },
];

// Each of two nodes waits for the other. While one is not able, neither is matched.
const ABLE_QUERIES: &[Graph] = &[
    // One is able.
    Graph {
        nodes: &[(0, 1, false), (1, 1, true)],
        edges: edges![(1, 0, 0, 0), (0, 0, 1, 0)],
        asked: Asked::Matched(&[]),
    },
    // Both are able.
    Graph {
        nodes: &[(0, 1, true), (1, 1, true)],
        edges: edges![(1, 0, 0, 0), (0, 0, 1, 0)],
        asked: Asked::Matched(&[0, 1]),
    },
];

/// A chain of ten thousand nodes, each of which waits for the next. Nothing supplies the last.
const CHAIN: &[Graph] = &[Graph {
    nodes: &[],
    edges: &[],
    asked: Asked::ChainFalls,
}];

/// All graphs.
pub const GRAPHS: &[&[&[Graph]]] = &[&[
    SUPPLIES_ITSELF,
    NO_POSTCONDITIONS,
    FALLING_NUMBERS,
    KRAMER_WAITS,
    ABLE_QUERIES,
    FALLS_IN_ROUNDS,
    RINGS,
    SELF_SUPPLIERS,
    PAIRS,
    PARTS_OF_FALLS,
    PARTS_OF_RINGS,
    EDGES_OF_WAITERS,
    CHAIN,
]];

/// The trials of `greatest`, of `falling`, and of `part_for` and `Parts`. Nothing is there that they could change.
pub const ASKED: &[Trial<'static, Graph>] = &[
    // A pair that waits for each other.
    Trial {
        before: &[],
        tried: Graph {
            nodes: &[(7, 1, true), (4, 1, true)],
            edges: edges![(4, 0, 7, 0), (7, 0, 4, 0)],
            asked: Asked::Matched(&[4, 7]),
        },
        shown: &[],
        after: &[],
    },
    // Such a pair, of which one is not able.
    Trial {
        before: &[],
        tried: Graph {
            nodes: &[(7, 1, true), (4, 1, false)],
            edges: edges![(4, 0, 7, 0), (7, 0, 4, 0)],
            asked: Asked::Falling(falls![(4, Reason::NotAble), (7, Reason::Unmet(0))]),
        },
        shown: &[],
        after: &[],
    },
    // 7 waits for 4, which is not able.
    Trial {
        before: &[],
        tried: Graph {
            nodes: &[(7, 1, true), (4, 0, false)],
            edges: edges![(4, 0, 7, 0)],
            asked: Asked::PartFor(7, falls![(4, Reason::NotAble), (7, Reason::Unmet(0))]),
        },
        shown: &[],
        after: &[],
    },
];
