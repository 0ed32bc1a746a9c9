//! Tests of `cq_index`: its calls, and tables of them.

mod calls;
mod rows;

pub use rows::{CASES, TRIALS};
