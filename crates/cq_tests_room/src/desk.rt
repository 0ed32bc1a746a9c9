//! Tests of `cq_desk`: each public call with ample memory, submits with refused edits in them, and each allocation refused in
//! turn.

pub mod desking;
mod desks;
mod floors;
