//! The part of a falling list on which a node rests. What is expected was worked out by hand.

use crate::edges::{edges, falls};
use crate::matching::graphs::{Asked, Graph};
use cq_atom::Edge;
use cq_match::{Fall, Reason};

// The falls are 4 and 5, not able, and 9, to which no edge leads; then 2 and 3, by 9; then 8, whose postcondition 1 is
// crowded by 3 and 5. Nodes 1 and 6 are matched.
const NODES: &[(usize, u8, bool)] = &[
    (8, 2, true),
    (3, 1, true),
    (5, 0, false),
    (1, 0, true),
    (9, 1, true),
    (6, 1, true),
    (2, 3, true),
    (4, 1, false),
];

const EDGES: &[Edge] = edges![
    (5, 0, 2, 2),
    (9, 0, 2, 1),
    (1, 0, 2, 0),
    (9, 0, 3, 0),
    (1, 0, 6, 0),
    (5, 0, 8, 1),
    (1, 0, 8, 0),
    (3, 0, 8, 1)
];

pub const PARTS_OF_FALLS: &[Graph] = &[
    // 4 is not able.
    Graph {
        nodes: NODES,
        edges: EDGES,
        asked: Asked::PartFor(4, falls![(4, Reason::NotAble)]),
    },
    // 2 rests on 9.
    Graph {
        nodes: NODES,
        edges: EDGES,
        asked: Asked::PartFor(2, falls![(9, Reason::Unmet(0)), (2, Reason::Unmet(1))]),
    },
    // 8 is crowded.
    Graph {
        nodes: NODES,
        edges: EDGES,
        asked: Asked::PartFor(
            8,
            falls![
                (5, Reason::NotAble),
                (9, Reason::Unmet(0)),
                (3, Reason::Unmet(0)),
                (8, Reason::Unmet(1))
            ],
        ),
    },
    // 6 is matched.
    Graph {
        nodes: NODES,
        edges: EDGES,
        asked: Asked::PartFor(6, &[]),
    },
    // 7 is not there.
    Graph {
        nodes: NODES,
        edges: EDGES,
        asked: Asked::PartFor(7, &[]),
    },
];

// Each of three nodes waits for the next, and the last is missing. Node 5 supplies itself, and waits for somebody else too.
pub const PARTS_OF_RINGS: &[Graph] = &[
    // The first of a broken ring.
    Graph {
        nodes: &[(0, 1, true), (1, 1, true)],
        edges: edges![(1, 0, 0, 0)],
        asked: Asked::PartFor(0, falls![(1, Reason::Unmet(0)), (0, Reason::Unmet(0))]),
    },
    // The second of a broken ring.
    Graph {
        nodes: &[(0, 1, true), (1, 1, true)],
        edges: edges![(1, 0, 0, 0)],
        asked: Asked::PartFor(1, falls![(1, Reason::Unmet(0))]),
    },
    // 5 supplies itself.
    Graph {
        nodes: &[(5, 2, true)],
        edges: edges![(5, 0, 5, 0)],
        asked: Asked::PartFor(5, falls![(5, Reason::Unmet(1))]),
    },
];

pub const EDGES_OF_WAITERS: &[Graph] = &[
    // Three lead to 2, among others.
    Graph {
        nodes: NODES,
        edges: EDGES,
        asked: Asked::EdgesInto(2, edges![(5, 0, 2, 2), (9, 0, 2, 1), (1, 0, 2, 0)]),
    },
    // The last ones lead to 8.
    Graph {
        nodes: NODES,
        edges: EDGES,
        asked: Asked::EdgesInto(8, edges![(5, 0, 8, 1), (1, 0, 8, 0), (3, 0, 8, 1)]),
    },
    // None leads to 7.
    Graph {
        nodes: NODES,
        edges: EDGES,
        asked: Asked::EdgesInto(7, &[]),
    },
];
