//! Pending queries.

use cq_atom::Query;
use cq_ground::Groundings;
use std::alloc::{Allocator, Global};

/// A query under its name in a pool. Contracts see it over the name's bytes and a `QueryRecord`.
#[derive(Clone, Drop)]
pub struct Pending<N, Q> {
    /// The name, which no other query of the pool has.
    pub name: N,
    /// What was posted.
    pub query: Q,
}

/// What a board has of a pending query.
#[derive(Clone, Copy, Drop)]
pub struct PendingView<'b, A: Allocator = Global> {
    /// What was posted.
    pub query: &'b Query<A>,
    /// Whether the query is matched.
    pub matched: bool,
    /// Its groundings over the rows.
    pub groundings: &'b Groundings<A>,
}
