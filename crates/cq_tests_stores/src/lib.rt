//! Tests of what a board is kept over: matching (`cq_match`), and the four stores `cq_index`, `cq_roster`, `cq_grounded`
//! and `cq_links`. Each has tables of calls, which one driver makes (`stores`): the worked rows (`rows`), and each
//! allocation of a call refused in turn (`allocations`). Nothing but tests is here, and no crate stands on this one.
#![tactic(auto)]

#[cfg(test)]
mod allocations;
#[cfg(test)]
mod edges;
#[cfg(test)]
mod grounded;
#[cfg(test)]
mod index;
#[cfg(test)]
mod links;
#[cfg(test)]
mod matching;
#[cfg(test)]
mod roster;
#[cfg(test)]
mod rows;
#[cfg(test)]
mod stores;
#[cfg(test)]
mod texts;
