//! Worked rows as edits of a matcher, and what it shows after each; and each allocation of a call refused in turn.

use crate::edges::edges;
use crate::matching::calls::{Call, Providers, Shown};
use crate::matching::large::{CHAIN, RING};
use crate::stores::Trial;
use cq_atom::Edge;

/// A ring of three, whole.
const WHOLE_RING: Shown = Shown {
    nodes: &[0, 1, 2],
    matched: &[0, 1, 2],
    providers: &[(0, 0, 1), (1, 0, 1), (2, 0, 1)],
    edges: edges![(0, 0, 2, 0), (1, 0, 0, 0), (2, 0, 1, 0)],
    lost: 0,
};

// Node 0 waits for node 1, that one for node 2, and that one for node 0. Node 1 goes and comes again.
const RING_OF_THREE: &[Call] = &[
    Call::Add(0, 1, true, &[]),
    Call::Shows(Shown {
        nodes: &[0],
        matched: &[],
        providers: &[],
        edges: &[],
        lost: 0,
    }),
    Call::Add(1, 1, true, edges![(1, 0, 0, 0)]),
    Call::Shows(Shown {
        nodes: &[0, 1],
        matched: &[],
        providers: &[(0, 0, 1)],
        edges: edges![(1, 0, 0, 0)],
        lost: 0,
    }),
    Call::Add(2, 1, true, edges![(2, 0, 1, 0), (0, 0, 2, 0)]),
    Call::Shows(WHOLE_RING),
    Call::Remove(1),
    Call::Shows(Shown {
        nodes: &[0, 2],
        matched: &[],
        providers: &[(2, 0, 1)],
        edges: edges![(0, 0, 2, 0)],
        lost: 3,
    }),
    Call::Add(1, 1, true, edges![(1, 0, 0, 0), (2, 0, 1, 0)]),
    Call::Shows(Shown {
        nodes: &[0, 1, 2],
        matched: &[0, 1, 2],
        providers: &[(0, 0, 1), (1, 0, 1), (2, 0, 1)],
        edges: edges![(0, 0, 2, 0), (1, 0, 0, 0), (2, 0, 1, 0)],
        lost: 3,
    }),
];

// Nodes 0 and 1 wait for each other and for a third.
const REVIVED_BY_A_THIRD: &[Call] = &[
    Call::Add(0, 2, true, &[]),
    Call::Shows(Shown {
        nodes: &[0],
        matched: &[],
        providers: &[],
        edges: &[],
        lost: 0,
    }),
    Call::Add(1, 2, true, edges![(1, 0, 0, 0), (0, 0, 1, 0)]),
    Call::Shows(Shown {
        nodes: &[0, 1],
        matched: &[],
        providers: &[(0, 0, 1), (1, 0, 1)],
        edges: edges![(0, 0, 1, 0), (1, 0, 0, 0)],
        lost: 0,
    }),
    Call::Add(2, 0, true, edges![(2, 0, 0, 1), (2, 0, 1, 1)]),
    Call::Shows(Shown {
        nodes: &[0, 1, 2],
        matched: &[0, 1, 2],
        providers: &[(0, 0, 1), (0, 1, 1), (1, 0, 1), (1, 1, 1)],
        edges: edges![(0, 0, 1, 0), (1, 0, 0, 0), (2, 0, 0, 1), (2, 0, 1, 1)],
        lost: 0,
    }),
];

// The third, which came first, goes and comes again.
const THIRD_WITHDRAWN: &[Call] = &[
    Call::Add(2, 0, true, &[]),
    Call::Shows(Shown {
        nodes: &[2],
        matched: &[2],
        providers: &[],
        edges: &[],
        lost: 0,
    }),
    Call::Add(0, 2, true, edges![(2, 0, 0, 1)]),
    Call::Shows(Shown {
        nodes: &[0, 2],
        matched: &[2],
        providers: &[(0, 1, 1)],
        edges: edges![(2, 0, 0, 1)],
        lost: 0,
    }),
    Call::Add(1, 2, true, edges![(1, 0, 0, 0), (0, 0, 1, 0), (2, 0, 1, 1)]),
    Call::Shows(Shown {
        nodes: &[0, 1, 2],
        matched: &[0, 1, 2],
        providers: &[(0, 0, 1), (0, 1, 1), (1, 0, 1), (1, 1, 1)],
        edges: edges![(0, 0, 1, 0), (1, 0, 0, 0), (2, 0, 0, 1), (2, 0, 1, 1)],
        lost: 0,
    }),
    Call::Remove(2),
    Call::Shows(Shown {
        nodes: &[0, 1],
        matched: &[],
        providers: &[(0, 0, 1), (1, 0, 1)],
        edges: edges![(0, 0, 1, 0), (1, 0, 0, 0)],
        lost: 4,
    }),
    Call::Add(2, 0, true, edges![(2, 0, 0, 1), (2, 0, 1, 1)]),
    Call::Shows(Shown {
        nodes: &[0, 1, 2],
        matched: &[0, 1, 2],
        providers: &[(0, 0, 1), (0, 1, 1), (1, 0, 1), (1, 1, 1)],
        edges: edges![(0, 0, 1, 0), (1, 0, 0, 0), (2, 0, 0, 1), (2, 0, 1, 1)],
        lost: 4,
    }),
];

// Node 0 waits. Two nodes supply it, of which one waits for what nobody has.
const CROWDED_SUPPLIER: &[Call] = &[
    Call::Add(0, 1, true, &[]),
    Call::Shows(Shown {
        nodes: &[0],
        matched: &[],
        providers: &[],
        edges: &[],
        lost: 0,
    }),
    Call::Add(1, 0, true, edges![(1, 0, 0, 0)]),
    Call::Shows(Shown {
        nodes: &[0, 1],
        matched: &[0, 1],
        providers: &[(0, 0, 1)],
        edges: edges![(1, 0, 0, 0)],
        lost: 0,
    }),
    Call::Add(2, 1, true, edges![(2, 0, 0, 0)]),
    Call::Shows(Shown {
        nodes: &[0, 1, 2],
        matched: &[0, 1],
        providers: &[(0, 0, 2)],
        edges: edges![(1, 0, 0, 0), (2, 0, 0, 0)],
        lost: 0,
    }),
    Call::Remove(2),
    Call::Shows(Shown {
        nodes: &[0, 1],
        matched: &[0, 1],
        providers: &[(0, 0, 1)],
        edges: edges![(1, 0, 0, 0)],
        lost: 0,
    }),
];

/// Each of nodes 0 and 1 has a provider.
const PAIR: &[Providers] = &[(0, 0, 1), (1, 0, 1)];

/// They wait for each other, and are matched or not.
macro_rules! pair {
    ($matched:expr, $lost:expr) => {
        Call::Shows(Shown {
            nodes: &[0, 1],
            matched: $matched,
            providers: PAIR,
            edges: edges![(0, 0, 1, 0), (1, 0, 0, 0)],
            lost: $lost,
        })
    };
}

// Nodes 0 and 1 wait for each other. Node 0 becomes able, once more, is able no longer, and once more. Then it becomes able, and is
// so no longer, which loses two edges more.
const ABLE_QUERIES: &[Call] = &[
    Call::Add(0, 1, false, &[]),
    Call::Shows(Shown {
        nodes: &[0],
        matched: &[],
        providers: &[],
        edges: &[],
        lost: 0,
    }),
    Call::Add(1, 1, true, edges![(1, 0, 0, 0), (0, 0, 1, 0)]),
    pair!(&[], 0),
    Call::Enable(0),
    pair!(&[0, 1], 0),
    Call::Enable(0),
    pair!(&[0, 1], 0),
    Call::Disable(0),
    pair!(&[], 2),
    Call::Disable(0),
    pair!(&[], 2),
    Call::Enable(0),
    pair!(&[0, 1], 2),
    Call::Disable(0),
    pair!(&[], 4),
];

// Node 0 supplies itself, by two edges to the one postcondition. It goes and comes again without an edge.
const SUPPLIES_ITSELF: &[Call] = &[
    Call::Add(0, 1, true, edges![(0, 1, 0, 0), (0, 0, 0, 0)]),
    Call::Shows(Shown {
        nodes: &[0],
        matched: &[0],
        providers: &[(0, 0, 2)],
        edges: edges![(0, 0, 0, 0), (0, 1, 0, 0)],
        lost: 0,
    }),
    Call::Remove(0),
    Call::Shows(Shown {
        nodes: &[],
        matched: &[],
        providers: &[],
        edges: &[],
        lost: 2,
    }),
    Call::Add(0, 1, true, &[]),
    Call::Shows(Shown {
        nodes: &[0],
        matched: &[],
        providers: &[],
        edges: &[],
        lost: 2,
    }),
];

/// Each begins without nodes.
pub const CASES: &[&[&[Call]]] = &[
    &[RING_OF_THREE],
    &[REVIVED_BY_A_THIRD],
    &[THIRD_WITHDRAWN],
    &[CROWDED_SUPPLIER],
    &[ABLE_QUERIES],
    &[SUPPLIES_ITSELF],
    &[RING],
    &[CHAIN],
];

/// Node 0 waits for node 1, which waits for a third.
const TWO: &[Call] = &[
    Call::Add(0, 1, true, &[]),
    Call::Add(1, 1, true, edges![(1, 0, 0, 0)]),
];

/// The third has a number far from the others: nobody stands before it from 2 on.
const THIRD: Call = Call::Add(9, 1, true, edges![(9, 0, 1, 0), (0, 0, 9, 0)]);

/// The ring of three shows this.
const FAR_RING: &[Call] = &[Call::Shows(Shown {
    nodes: &[0, 1, 9],
    matched: &[0, 1, 9],
    providers: &[(0, 0, 1), (1, 0, 1), (9, 0, 1)],
    edges: edges![(0, 0, 9, 0), (1, 0, 0, 0), (9, 0, 1, 0)],
    lost: 0,
})];

/// Node 1 supplies node 0, and neither is matched.
const SUPPLIED: Shown = Shown {
    nodes: &[0, 1],
    matched: &[],
    providers: &[(0, 0, 1)],
    edges: edges![(1, 0, 0, 0)],
    lost: 0,
};

/// The trials of `add`, `enable`, `waiters` and `copy`.
pub const TRIALS: &[Trial<'static, Call>] = &[
    // The third comes, which waits for node 0.
    Trial {
        before: &[TWO],
        tried: THIRD,
        shown: &[&[Call::Shows(SUPPLIED)]],
        after: &[FAR_RING],
    },
    // A node becomes able that another one waits for.
    Trial {
        before: &[&[
            Call::Add(0, 1, true, &[]),
            Call::Add(1, 0, false, edges![(1, 0, 0, 0)]),
        ]],
        tried: Call::Enable(1),
        shown: &[&[Call::Shows(SUPPLIED)]],
        after: &[&[Call::Shows(Shown {
            nodes: &[0, 1],
            matched: &[0, 1],
            providers: &[(0, 0, 1)],
            edges: edges![(1, 0, 0, 0)],
            lost: 0,
        })]],
    },
    Trial {
        before: &[TWO, &[THIRD]],
        tried: Call::Waiters(0, edges![(0, 0, 9, 0)]),
        shown: &[FAR_RING],
        after: &[FAR_RING],
    },
    Trial {
        before: &[TWO, &[THIRD]],
        tried: Call::Copy,
        shown: &[FAR_RING],
        after: &[FAR_RING],
    },
];
