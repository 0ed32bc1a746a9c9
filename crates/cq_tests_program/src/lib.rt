//! Tests of what the program is made of above boards: the texts of a board (`cq_render`), lines that ask (`cq_ask`), runs of scripts (`cq_report`) and
//! sessions (`cq_sessions`). Whole scripts and their outputs stand in the cases. Nothing but tests is here, and no crate
//! stands on this one.
#![tactic(auto)]

#[cfg(test)]
mod asks;
#[cfg(test)]
mod devices;
#[cfg(test)]
mod files;
#[cfg(test)]
mod lines;
#[cfg(test)]
mod report;
#[cfg(test)]
mod runs;
#[cfg(test)]
mod sessions;
#[cfg(test)]
mod show;
#[cfg(test)]
mod sums;
