//! Tests of `cq_links`: its calls, and tables of them.

mod calls;
mod rows;

pub use rows::{CASES, TRIALS};
