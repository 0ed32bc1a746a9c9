//! Which nodes fall, why, and in which order. What is expected was worked out by hand.

ghost use Rattle.std.specs.Prelude.{IsTrue, nat_eq};
ghost use Rattle.std.specs.List.{All, IsDistinct};
ghost use Rattle.cq_match.specs.Matched.{numbers};
ghost use Rattle.cq_tests_stores.specs.Guarded.{HasEnds};
ghost use Rattle.cq_tests_stores.specs.Reasons.{AreNumbered};

use crate::edges::{edges, falls};
use crate::matching::graphs::{Asked, Graph};
use crate::matching::large::{SIZE, edge};
use cq_atom::Edge;
use cq_match::{Fall, Reason, falling};
use std::alloc::{AllocError, Allocator};

// Nodes 4 and 5 are not able, and nothing supplies node 9. Then node 2 falls, two of whose postconditions are fed by
// nodes that fell, and node 3; then node 8, one of whose postconditions node 3 and node 5 feed. Nodes 1 and 6 stay.
pub const FALLS_IN_ROUNDS: &[Graph] = &[ // Eight nodes.
    Graph {
        nodes: &[
            (8, 2, true),
            (3, 1, true),
            (5, 0, false),
            (1, 0, true),
            (9, 1, true),
            (6, 1, true),
            (2, 3, true),
            (4, 1, false),
        ],
        edges: edges![
            (5, 0, 8, 1),
            (1, 0, 8, 0),
            (3, 0, 8, 1),
            (9, 0, 3, 0),
            (1, 0, 6, 0),
            (5, 0, 2, 2),
            (9, 0, 2, 1),
            (1, 0, 2, 0)
        ],
        asked: Asked::Falling(falls![
            (4, Reason::NotAble),
            (5, Reason::NotAble),
            (9, Reason::Unmet(0)),
            (2, Reason::Unmet(1)),
            (3, Reason::Unmet(0)),
            (8, Reason::Unmet(1))
        ]),
    },
];

// Each of three nodes waits for the next, and the last for the first.
pub const RINGS: &[Graph] = &[
    // Whole.
    Graph {
        nodes: &[(0, 1, true), (1, 1, true), (2, 1, true)],
        edges: edges![(1, 0, 0, 0), (2, 0, 1, 0), (0, 0, 2, 0)],
        asked: Asked::Falling(&[]),
    },
    // The last is missing.
    Graph {
        nodes: &[(0, 1, true), (1, 1, true)],
        edges: edges![(1, 0, 0, 0)],
        asked: Asked::Falling(falls![(1, Reason::Unmet(0)), (0, Reason::Unmet(0))]),
    },
];

// Node 5 waits for itself, and then for somebody else too.
pub const SELF_SUPPLIERS: &[Graph] = &[
    // For itself alone.
    Graph {
        nodes: &[(5, 1, true)],
        edges: edges![(5, 0, 5, 0)],
        asked: Asked::Falling(&[]),
    },
    // For another too.
    Graph {
        nodes: &[(5, 2, true)],
        edges: edges![(5, 0, 5, 0)],
        asked: Asked::Falling(falls![(5, Reason::Unmet(1))]),
    },
    // No node.
    Graph {
        nodes: &[],
        edges: &[],
        asked: Asked::Falling(&[]),
    },
];

// Each of two nodes waits for the other.
pub const PAIRS: &[Graph] = &[
    // Both are able.
    Graph {
        nodes: &[(0, 1, true), (1, 1, true)],
        edges: edges![(0, 0, 1, 0), (1, 0, 0, 0)],
        asked: Asked::Falling(&[]),
    },
    // The second is not.
    Graph {
        nodes: &[(0, 1, true), (1, 1, false)],
        edges: edges![(0, 0, 1, 0), (1, 0, 0, 0)],
        asked: Asked::Falling(falls![(1, Reason::NotAble), (0, Reason::Unmet(0))]),
    },
    // Neither is.
    Graph {
        nodes: &[(0, 1, false), (1, 1, false)],
        edges: edges![(0, 0, 1, 0), (1, 0, 0, 0)],
        asked: Asked::Falling(falls![(0, Reason::NotAble), (1, Reason::NotAble)]),
    },
];

/// Whether each node's number is its place.
fn are_numbered(nodes: &[(usize, u8, bool)]) -> bool
    ensures distinct { IsTrue result → IsDistinct nat_eq (numbers nodes.now) }
    ensures numbered { IsTrue result → AreNumbered nodes.now }
{
    for (place, node) in nodes.iter().enumerate() {
        if node.0 != place {
            return false;
        }
    }
    true
}

/// Whether the ends of the edge are places, and its waiter has the postcondition.
fn is_within(nodes: &[(usize, u8, bool)], edge: Edge) -> bool
    ensures { IsTrue result → AreNumbered nodes.now → HasEnds nodes.now edge }
{
    if edge.provider >= nodes.len() || edge.waiter >= nodes.len() {
        return false;
    }
    edge.post < nodes[edge.waiter].1
}

/// The same of all edges.
fn are_within(nodes: &[(usize, u8, bool)], edges: &[Edge]) -> bool
    ensures { IsTrue result → AreNumbered nodes.now → All (HasEnds nodes.now) edges.now }
{
    for edge in edges {
        if !is_within(nodes, *edge) {
            return false;
        }
    }
    true
}

/// Whether these are the numbers below their count from the last to the first, each for its postcondition 0.
fn are_backwards(falls: &[Fall]) -> bool {
    for (place, fall) in falls.iter().enumerate() {
        if fall.node != falls.len() - 1 - place || fall.reason != Reason::Unmet(0) {
            return false;
        }
    }
    true
}

/// Whether the nodes fall from the last to the first.
fn fall_backwards<A: Allocator + Copy>(
    alloc: A,
    nodes: &[(usize, u8, bool)],
    edges: &[Edge],
) -> Result<bool, AllocError> {
    if !are_numbered(nodes) || !are_within(nodes, edges) {
        return Ok(false);
    }
    let falls = falling(alloc, nodes, edges)?;
    Ok(falls.len() == nodes.len() && are_backwards(&falls))
}

/// A chain of nodes, each of which waits for the next. Nothing supplies the last.
fn fill_chain<A: Allocator>(
    nodes: &mut Vec<(usize, u8, bool), A>,
    edges: &mut Vec<Edge, A>,
) -> Result<(), AllocError> {
    nodes.push((0, 1, true))?;
    for node in 1..SIZE {
        nodes.push((node, 1, true))?;
        edges.push(edge(node, node - 1))?;
    }
    Ok(())
}

/// Whether the nodes of a long chain fall from the last to the first.
pub fn chain_falls<A: Allocator + Copy>(alloc: A) -> Result<bool, AllocError> {
    let mut nodes = Vec::new(alloc);
    let mut edges = Vec::new(alloc);
    fill_chain(&mut nodes, &mut edges)?;
    fall_backwards(alloc, &nodes, &edges)
}
