//! Graphs of pending queries: who supplies whom, and which nodes are matched.
//!
//! Nodes are numbers, and an edge leads from a head of its provider to a postcondition of its waiter.
//! The crates above take from here what is true of any such graph: which edges supply a
//! postcondition, how many they are, and when they are too many (`specs/Graph`); which sets of nodes
//! are closed, and which nodes stand in one (`specs/Matched`); which lists of nodes are falling (`specs/Falling`).
//!
//! The public calls are [`is_crowd`], and [`greatest`]: the matched nodes of a graph, from scratch, which are those of the union of
//! all closed sets. It numbers nodes by their places in rising order and lets places fall that nothing
//! standing feeds (`settle`).
//!
//! [`falling`] tells why the other nodes are not matched: a list in which each of them stands with a reason, that it is not able, or
//! a postcondition all of whose edges come from nodes that stand earlier (`specs/Falling`). It lets places fall in rounds.
//!
//! [`Parts`] tells of such a list the part on which a node rests (`specs/Resting`), by the places of the falls; [`part_for`] tells one
//! part alone. [`edges_into`] finds the edges to a waiter by halving.
//!
//! [`Matcher`] keeps the matched nodes of a graph while nodes come, go, become able and cease to be so (`specs/Matcher`):
//! an edit costs what it touches, and the matched nodes after it are those that `greatest` finds.
//!
//! Not here: whose head supplies which postcondition, which is said of atoms, and names.
#![tactic(auto)]

mod counts;
mod crowd;
mod falls;
mod graph;
mod marks;
mod matched;
mod matcher;
mod resting;
mod settle;
mod showing;

pub use crowd::is_crowd;
pub use falls::{Fall, Reason, falling};
pub use matched::greatest;
pub use matcher::Matcher;
pub use resting::{Parts, edges_into, part_for};
