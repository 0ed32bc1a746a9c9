//! Tests of `cq_grounded`: its calls, and tables of them.

mod calls;
mod rows;

pub use calls::Sample;
pub use rows::{CASES, TRIALS};
