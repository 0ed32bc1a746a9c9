//! Tests of `cq_desk` and of `cq_room`, over a board and over a state of their own, a tally: so that both are seen to need
//! nothing of a board. Nothing but tests is here, and no crate stands on this one.
#![tactic(auto)]

#[cfg(test)]
mod allocations;
#[cfg(test)]
mod calls;
#[cfg(test)]
mod desk;
#[cfg(test)]
mod lines;
#[cfg(test)]
mod met;
#[cfg(test)]
mod room;
#[cfg(test)]
mod states;
#[cfg(test)]
mod tally;
