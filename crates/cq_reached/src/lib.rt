//! A coordinating choice for as many queries as are reached first.
//!
//! Who wants to know what can go together of all that is pending, and asks for no query by its name, calls [`choose_reached`].
//! The queries are asked for one after the other in posting order, and each is taken of which some coordinating choice has it and all
//! that were taken before it (`specs/Reached`). So who is posted earlier goes first. Whether there is such a choice is looked for by
//! `cq_choose`, each time within one group of queries that may supply one another: what is chosen in one group does not bear on another.
//! Groups of which all can go are found first, many by one search (`at_once`).
//!
//! Not here: the most queries that can go together, and how an answer is written.
#![tactic(auto)]

mod at_once;
mod groups;
mod quick;
mod reached;
mod sure;

pub use reached::choose_reached;
