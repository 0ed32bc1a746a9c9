//! The worked rows, and each allocation of a call refused in turn.

use crate::edges::edges;
use crate::links::calls::{Call, Posting};
use crate::stores::Trial;
use cq_atom::Edge;

// A ring of three, each of whom waits for what the next one offers; the last closes it.
const FIRST: Call = Call::Come(
    0,
    Posting {
        text: "post q {Seat(Elaine, y)} Seat(Jerry, x) <- Row(x), Row(y)",
        edges: &[],
        tests: 0,
    },
);

const SECOND: Call = Call::Come(
    1,
    Posting {
        text: "post q {Seat(Kramer, y)} Seat(Elaine, x) <- Row(x), Row(y)",
        edges: edges![(1, 0, 0, 0)],
        tests: 1,
    },
);

const THIRD_TEXT: &str = "post q {Seat(Jerry, y)} Seat(Kramer, x) <- Row(x), Row(y)";

const THIRD: Call = Call::Come(
    2,
    Posting {
        text: THIRD_TEXT,
        edges: edges![(0, 0, 2, 0), (2, 0, 1, 0)],
        tests: 2,
    },
);

/// The first two of the ring at their places.
const TWO_OF_RING: &[Call] = &[FIRST, SECOND];

const ALONE_TEXT: &str = "post q {Aisle(x), Aisle(1)} Aisle(2), Window(x), Aisle(x) <- Row(x)";

// A query that supplies itself: its own pairs are tested once, but for one that has two constants first.
const ALONE: Call = Call::Come(
    3,
    Posting {
        text: ALONE_TEXT,
        edges: edges![(3, 0, 3, 0), (3, 2, 3, 0), (3, 2, 3, 1)],
        tests: 3,
    },
);

// A number is no text: where the first arguments tell them apart there is no test, and where the second do there is
// one that fails.
const MIXED: Call = Call::Come(
    4,
    Posting {
        text: "post q {Door(1), Gate(x, 1)} Door(\"1\"), Gate(y, \"1\") <- Row(x), Row(y)",
        edges: &[],
        tests: 1,
    },
);

/// Queries that come and go where the place is free for them.
const COMERS: &[Call] = &[
    Call::ComeAndGo(2, THIRD_TEXT),
    Call::ComeAndGo(3, ALONE_TEXT),
    Call::Has(1, true),
];

/// Postings make their edges, also where removed queries are gone.
pub const CASES: &[&[&[Call]]] = &[
    &[TWO_OF_RING, &[THIRD, ALONE, MIXED]],
    &[TWO_OF_RING, COMERS, &[THIRD, ALONE]],
];

/// Two of the ring stand, and the last does not.
const SHOWN: &[Call] = &[Call::Has(0, true), Call::Has(1, true), Call::Has(2, false)];

/// The trials of `add` and `copy`.
pub const TRIALS: &[Trial<'static, Call>] = &[
    // The last query of the ring is posted where the others stand.
    Trial {
        before: &[TWO_OF_RING],
        tried: THIRD,
        shown: &[SHOWN],
        after: &[&[Call::Has(2, true)]],
    },
    // The last one closes the ring in a copy.
    Trial {
        before: &[TWO_OF_RING],
        tried: Call::Copy,
        shown: &[SHOWN],
        after: &[SHOWN, &[THIRD]],
    },
];
