//! Rows that come and go under queries at places, and each allocation of a call refused in turn.

use crate::grounded::calls::Call;
use crate::stores::Trial;

/// Queries at the places 0, 1 and 2; the first reads `T` twice.
const QUERIES: &[Call] = &[
    Call::Add("post q {} R(x, y) <- T(x, y), T(y, x)", 0),
    Call::Add("post q {} R(x) <- T(x, y)", 1),
    Call::Add("post q {} R(x) <- U(x)", 2),
];

const CHANGES: &[Call] = &[
    Call::Come("insert T(1, 2)"),
    Call::Gain("insert T(1, 2)", 2),
    Call::Counts(&[0, 1, 0]),
    Call::Come("insert T(2, 1)"),
    Call::Gain("insert T(2, 1)", 2),
    Call::Counts(&[2, 2, 0]),
    Call::Come("insert T(1, 1)"),
    Call::Gain("insert T(1, 1)", 2),
    Call::Counts(&[3, 3, 0]),
    Call::Come("insert U(5)"),
    Call::Gain("insert U(5)", 1),
    Call::Counts(&[3, 3, 1]),
    Call::Lose("insert T(1, 2)", 2),
    Call::Counts(&[1, 2, 1]),
    Call::Lose("insert U(5)", 1),
    Call::Counts(&[1, 2, 0]),
];

/// The query that reads `T` twice is one reader, and none once it is withdrawn; its place is given again. A row touches
/// those that read its relation.
const READERS: &[Call] = &[
    Call::Open("insert T(1, 2)", &[0, 1]),
    Call::Open("insert U(5)", &[2]),
    Call::Open("insert V(5)", &[]),
    Call::Withdraw(0),
    Call::Open("insert T(1, 2)", &[1]),
    Call::Has(0, false),
    Call::Add("post q {} R(x) <- U(x)", 0),
    Call::Open("insert U(5)", &[0, 2]),
    // Where a query alone asks for a constant, a row without it does not touch it.
    Call::Add("post q {} R(x) <- T(x, 7)", 3),
    Call::Open("insert T(1, 7)", &[1, 3]),
    Call::Open("insert T(1, 8)", &[1]),
];

/// Rows come and go, and a query is one reader.
pub const CASES: &[&[&[Call]]] = &[&[QUERIES, CHANGES], &[QUERIES, READERS]];

/// A row after the queries.
const FILLED: &[Call] = &[
    Call::Come("insert T(1, 2)"),
    Call::Gain("insert T(1, 2)", 2),
];

/// What they leave.
const SHOWN: &[Call] = &[
    Call::Counts(&[0, 1, 0]),
    Call::Open("insert T(1, 2)", &[0, 1]),
    Call::Open("insert U(5)", &[2]),
];

/// The trials of `add`, `gain` and `copy`.
pub const TRIALS: &[Trial<'static, Call>] = &[
    // A query over both relations is added.
    Trial {
        before: &[QUERIES, FILLED],
        tried: Call::Add("post q {} R(x) <- T(x, y), U(y)", 3),
        shown: &[SHOWN],
        after: &[&[
            Call::Counts(&[0, 1, 0, 0]),
            Call::Open("insert U(5)", &[2, 3]),
        ]],
    },
    // A row comes by which two queries gain groundings.
    Trial {
        before: &[QUERIES, FILLED, &[Call::Come("insert T(2, 1)")]],
        tried: Call::Gain("insert T(2, 1)", 2),
        shown: &[SHOWN],
        after: &[&[Call::Counts(&[2, 2, 0])]],
    },
    Trial {
        before: &[QUERIES, FILLED],
        tried: Call::Copy,
        shown: &[SHOWN],
        after: &[SHOWN],
    },
];
