//! Tests of what stands on no other crate of the program: values, atoms, rows, queries and edits (`cq_atom`), with each allocation
//! refused in turn, the allocator that keeps to a budget (`cq_budget`), and the one that refuses (`cq_refusing`). Nothing but tests is here, and no crate stands
//! on this one.
#![tactic(auto)]

#[cfg(test)]
mod allocations;
#[cfg(test)]
mod atoms;
#[cfg(test)]
mod budget;
#[cfg(test)]
mod queries;
#[cfg(test)]
mod refusing;
#[cfg(test)]
mod samples;
#[cfg(test)]
mod words;
