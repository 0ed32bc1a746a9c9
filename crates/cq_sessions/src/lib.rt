//! Sessions: the bytes of SETUP and of files in, the script of what came of them out.
//!
//! The room above uses `run_sessions`: what it writes is the script of a room in which SETUP was served first, and then
//! each file by a thread of its own, as one session (`specs/Sessions`); `specs/Script` says how that script reads.
//!
//! Not here: what a line is read as and how it is answered (`cq_report`), and how a room keeps its journal and its boards
//! (`cq_room`); opening files, a program's arguments and its exit status.
#![tactic(auto)]

mod client;
mod fault;
mod files;
mod script;
mod serving;
mod setting;
mod sheet;
mod task;
mod telling;
mod threads;

pub use fault::SessionsFault;
pub use files::{run_sessions, run_sessions_past};
