//! Queries that wait until their bodies find a row.

use crate::rows::{Worked, other_row};

/// A query that reads a row, and one that waits for it and for which it waits.
pub const P_AND_Q: &str = "post p {B(1)} A(1) <- F(x)
post q {A(1)} B(1) <-";

const ABLE_QUERIES: Worked = Worked {
    pool: 9,
    setup: "",
    rows: "post p {B(1)} A(1) <- F(x) = ok 0 1 0:
post q {A(1)} B(1) <- = ok 2 1 0:
insert F(7) = ok 0 1 0: p q
insert F(8) = ok 0 1 0: p q
delete F(7) = ok 0 1 0: p q
delete F(8) = ok 0 1 2:",
};

#[test]
fn able_queries(rt: HostRuntime) {
    let other = other_row(rt.alloc(), ABLE_QUERIES);
    assert!(rt; other == Ok(None), "{other:?}");
}
