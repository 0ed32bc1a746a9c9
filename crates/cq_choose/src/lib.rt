//! Coordinating choices that are sought: for given queries, groundings of pending queries that serve one another.
//!
//! Who wants to know whether queries can coordinate, and how, calls [`choose`]. `cq_board` says what a coordinating choice is and whether a
//! given one is one; `specs/Choosing` adds that given queries are chosen for. The search itself is `cq_select`'s, over members with
//! owners and atoms with numbers: here the groundings of the queries that are concerned become members, their queries owners, and what
//! they offer and await is numbered. That a query is chosen for is one more thing that its groundings offer.
//!
//! Why there is none tells [`disagreement`], where it is a single query that nobody serves.
//!
//! Not here: how a selection is searched for, and how an answer is written.
#![tactic(auto)]

mod choosing;
mod disagreeing;
mod keys;
mod offers;
mod reach;
mod stock;
mod telling;

pub use choosing::{Answer, Sought, choose};
pub use disagreeing::disagreement;
pub use telling::Disagreement;
