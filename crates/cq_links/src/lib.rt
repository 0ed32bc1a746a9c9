//! Links: which heads of pending queries unify with which postconditions, found without asking everyone.
//!
//! The crates above use one contract of this one most: `Links::add` puts the heads and postconditions
//! of a query at a place, and gives each edge that this makes, once: the edges from a head to a
//! postcondition that unify, where one of the two is the query's own. It tests the pairs of a head and
//! a postcondition of which one is the query's own and the other its own too or one that was there, and
//! which have the same relation and arity and not two different constants as first arguments: each of
//! these pairs once, and no other (`specs/Links`).
//!
//! What it costs: `add` takes constant expected time for each atom of the query beside the tests, up to
//! sorting what is tested; `remove` takes constant expected time for each atom of the query, and no
//! memory. Nothing walks all places.
//!
//! Not here: bodies and names of queries, which of them are matched, and how edges are kept.
#![tactic(auto)]

mod asking;
mod block;
mod links;

pub use links::Links;
