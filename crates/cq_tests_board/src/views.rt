//! What boards show, by names and in posting order; who waits, why, and which heads nearly supply a postcondition. What is
//! expected was worked out by hand.

use crate::able::P_AND_Q;
use crate::samples::{Setup, WORKED, other_made};

const QUERIES_BY_NAME: &str = "query kramer: matched 3 1
query jerry: matched 2 2
query newman: none 0 0";

const QUERIES_IN_POSTING_ORDER: &str = "names: kramer jerry
name 0: kramer
name 1: jerry
name 2: none
numbered: 1.0>0.0 0.0>1.0";

/// Counts, edges, matched queries and the groundings of the first on the worked board.
pub const WORKED_SHOWN: &str = "counts: 2 3 9 4 4
numbered: 1.0>0.0 0.0>1.0
matched: kramer jerry
query kramer: matched 3 1";

const WORKED_EDGES: &str = "edges: jerry.0>kramer.0 kramer.0>jerry.0
matched: kramer jerry
crowded:
falls:";

/// One query waits for what two others have, of which one waits for what nobody has.
pub const CROWD: Setup = Setup {
    first: "",
    then: "post w {R(1)} Q(1) <-
post h1 {} R(1) <-
post h2 {Z(1)} R(2), R(1) <-",
};

/// The last query supplies the first by its second head.
pub const CROWD_SHOWN: &str = "names: w h1 h2
numbered: 1.0>0.0 2.1>0.0
edges: h1.0>w.0 h2.1>w.0
matched: w h1
crowded: 2>w.0
falls: 2:unmet.0";

/// A query without a row that waits for one that waits for it.
const WAITING: Setup = Setup {
    first: "",
    then: P_AND_Q,
};

// A query that waits for a row is a provider all the same.
const WAITING_PROVIDERS: &str = "numbered: 1.0>0.0 0.0>1.0";

/// Each of the first two queries waits for the other, and the first is able where there is a row. The third supplies itself.
const PAIR_POSTED: &str = "post kramer {R(Jerry)} R(Kramer) <- F(x)
post jerry {R(Kramer)} R(Jerry) <-
post newman {R(Newman)} R(Newman) <-";

pub const PAIR: Setup = Setup {
    first: PAIR_POSTED,
    then: "",
};

/// The same with a row.
const PAIR_ABLE: Setup = Setup {
    first: PAIR_POSTED,
    then: "insert F(1)",
};

/// The same without the first query.
const PAIR_PARTED: Setup = Setup {
    first: PAIR_POSTED,
    then: "insert F(1)
withdraw kramer",
};

// The first query has no grounding, and nobody who is left has what the second waits for.
const UNABLE: &str = "falls: 0:unable 1:unmet.0";

const ABLE: &str = "falls:";

const PARTED: &str = "falls: 0:unmet.0";

/// The second query waits for the first, whose body finds no row.
pub const JERRY_WAITS: &str = "waits jerry: kramer:unable jerry:unmet.0";

// The third query is matched, and no query has the last name.
const WHY_EACH_WAITS: &str = "waits jerry: kramer:unable jerry:unmet.0
waits kramer: kramer:unable
waits newman: none
waits elaine: none";

/// No head unifies with the first postcondition of the second query.
pub const SLIPS: Setup = Setup {
    first: "",
    then: "post h1 {} R(Tom, Rome, June), R(Jery, Paris, May) <-
post w {R(Jerry, Paris, May), R(Jery, Paris, May), R(x, x, May)} Q(Jerry, Paris, May) <- F(x)
post h2 {} R(Jery, Rome, May), R(Jerry, Paris, June) <-",
};

/// A slip in one constant comes first, and what differs everywhere is the fourth.
pub const BY_SLIP: &str = "near 0 w: h1.1:1 h2.1:1 h2.0:2";

// The second head of the first query unifies with the second postcondition. With the third no head unifies, since one
// variable cannot be two constants.
const SLIPS_OF_THE_PEN: &str = "near 0 w: h1.1:1 h2.1:1 h2.0:2
near 1 w: h2.0:1 h2.1:2 h1.0:3
near 2 w: h1.1:0 h2.0:0 h1.0:1
near 3 w:
near 0 newman:";

/// Five heads differ from the first postcondition, and the three that differ least come before the last. From the second
/// differ three in one constant, and a later head in none.
const MANY: Setup = Setup {
    first: "",
    then: "post h1 {} S(1, 1), S(1, 2), S(2, 2), U(1, 2), U(2, 2), U(4, 2) <-
post w {S(3, 2), U(3, 2)} Q(1) <-
post h2 {} S(3, 1), S(3, 4), U(x, x) <- F(x)",
};

const MANY_NEAR: &str = "near 0 w: h1.1:1 h1.2:1 h2.0:1
near 1 w: h2.2:0 h1.3:1 h1.4:1
nears w: h1.1:1 h1.2:1 h2.0:1 h2.2:0 h1.3:1 h1.4:1";

const SHOWN: [(&str, Setup, &str); 12] = [
    ("queries_by_name", WORKED, QUERIES_BY_NAME),
    ("queries_in_posting_order", WORKED, QUERIES_IN_POSTING_ORDER),
    ("counts", WORKED, WORKED_SHOWN),
    ("worked_edges", WORKED, WORKED_EDGES),
    ("crowded_supplier", CROWD, CROWD_SHOWN),
    ("waiting_providers", WAITING, WAITING_PROVIDERS),
    ("able_and_unable: a query is not able", PAIR, UNABLE),
    ("able_and_unable: both are able", PAIR_ABLE, ABLE),
    ("able_and_unable: one is withdrawn", PAIR_PARTED, PARTED),
    ("why_each_waits", PAIR, WHY_EACH_WAITS),
    ("slips_of_the_pen", SLIPS, SLIPS_OF_THE_PEN),
    ("many_near_heads", MANY, MANY_NEAR),
];

#[test]
fn shown_boards(rt: HostRuntime) {
    for (name, setup, looks) in SHOWN {
        let other = other_made(rt.alloc(), setup, looks);
        assert!(rt; other == Ok(None), "{name}: {other:?}");
    }
}
