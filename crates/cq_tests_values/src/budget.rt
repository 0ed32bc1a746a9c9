//! Tests of `cq_budget`: what is counted, what is refused, and two threads at once.

mod bytes;
mod threads;
