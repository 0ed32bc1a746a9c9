//! Tests of `cq_board`: the worked rows with their work, lists of edits beside boards from scratch, each public call once
//! with ample memory, and each allocation of an edit refused in turn. Tests are tables, which a few drivers run. Edits are
//! read from lines, and what a board shows is compared as words on a page. What is printed of the worked rows stands in
//! the cases, as whole scripts. Nothing but tests is here, and no crate stands on this one.
#![tactic(auto)]

#[cfg(test)]
mod able;
#[cfg(test)]
mod allocations;
#[cfg(test)]
mod choices;
#[cfg(test)]
mod edits;
#[cfg(test)]
mod lists;
#[cfg(test)]
mod page;
#[cfg(test)]
mod rows;
#[cfg(test)]
mod samples;
#[cfg(test)]
mod scratch;
#[cfg(test)]
mod setups;
#[cfg(test)]
mod shown;
#[cfg(test)]
mod sought;
#[cfg(test)]
mod views;
