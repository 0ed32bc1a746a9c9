//! Tests of `cq_blocks`, `cq_rel` and `cq_ground`: each public call once with ample memory, worked examples, and each allocation
//! refused in turn. Rows and queries are read from texts. Nothing but tests is here, and no crate stands on this one.
#![tactic(auto)]

#[cfg(test)]
mod allocations;
#[cfg(test)]
mod blocks;
#[cfg(test)]
mod catalogs;
#[cfg(test)]
mod changes;
#[cfg(test)]
mod csv_rows;
#[cfg(test)]
mod finders;
#[cfg(test)]
mod gates;
#[cfg(test)]
mod groundings;
#[cfg(test)]
mod samples;
#[cfg(test)]
mod tables;
