//! Tests of runs of one script: readers and writers that cut their bytes and fail, and each allocation refused in turn.

mod allocations;
mod cuts;
mod living;
mod runs;
mod worked;
