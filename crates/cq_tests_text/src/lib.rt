//! Tests of `cq_text`: texts read and printed, lines and counts at their limits, devices that fail, and each allocation refused
//! in turn. The faults of whole lines stand in the cases. Nothing but tests is here, and no crate stands
//! on this one.
#![tactic(auto)]

#[cfg(test)]
mod allocations;
#[cfg(test)]
mod commands;
#[cfg(test)]
mod devices;
#[cfg(test)]
mod fields;
#[cfg(test)]
mod texts;
