//! An index of atoms: who may unify with whom, without asking everyone.
//!
//! The crates above use one contract of this one most: `AtomIndex::partners` gives exactly the places
//! whose atoms unify with a given one, rising, and makes one test of two atoms for each candidate.
//! Candidates are the atoms of the same relation and arity whose first argument and the given one's
//! are not two different constants; `candidates` gives their places.
//!
//! Contracts see `AtomIndex` as the finite map from places to atoms: `add` and `remove` change one
//! place of it.
//!
//! What it costs: `add`, `remove` and `has` take constant expected time. `candidates` looks at one or
//! two buckets, and takes time in proportion to what it answers, up to sorting; nothing walks all
//! places. A place is in two buckets: that of its relation, arity and first argument, where all
//! variables are one, and that of its relation and arity.
//!
//! Not here: which atoms stand at which places, and what a board does with partners.
#![tactic(auto)]

mod buckets;
mod index;
mod kept;
mod key;

pub use index::AtomIndex;
