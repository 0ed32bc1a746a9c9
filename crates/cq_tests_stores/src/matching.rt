//! Tests of `cq_match`: worked graphs by calls, who falls and why, a ring and a chain of ten thousand nodes, and each allocation
//! refused in turn. A matcher is tested after one that looks by itself whether a call is allowed (`guarded`). Larger
//! graphs are boards, which stand in the cases.

mod calls;
mod graphs;
mod guarded;
mod large;
mod listed;
mod parts;
mod reasons;
mod rows;

pub use graphs::{ASKED, GRAPHS, Scratch};
pub use guarded::Guarded;
pub use rows::{CASES, TRIALS};
