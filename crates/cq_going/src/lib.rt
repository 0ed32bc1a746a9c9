//! Who can go: coordinating choices and groups of queries, as text and as JSON.
//!
//! `tell_choice` tells of a coordinating choice that is sought (`specs/Going`), and `groups` of the matched queries in groups, and whether each can go
//! (`specs/Grouping`); `boxed_graph` draws the groups (`specs/Boxes`). `put_sought` and `put_groups` put the same on a sheet of JSON (`specs/Data`). Choices are sought by `cq_choose` and `cq_reached`.
//!
//! Not here: who asks, and where the text goes.
#![tactic(auto)]

mod boxing;
mod data;
mod data_atoms;
mod data_groups;
mod data_reasons;
mod grouping;
mod listing;
mod printing;
mod reasons;
mod telling;

pub use boxing::boxed_graph;
pub use data::put_sought;
pub use data_groups::put_groups;
pub use grouping::groups;
pub use telling::{MOST_STEPS, Outcome, Told, tell_choice};
