//! The names of what is pending, in the order in which they came, each with its place.
//!
//! A place is a small number that the caller picks, by which other stores keep what belongs to the
//! name. The crates above use one contract of this one most: `Roster::remove` takes one name out,
//! answers the place that it had, and leaves the others in their order.
//!
//! Contracts see `Roster` as the list of its seats, first come first; that no two have one name and
//! no two have one place stands in its type, and `len` tells it.
//!
//! What it costs: `add`, `remove` and `place_of` take logarithmic expected time; `nth` takes time in
//! proportion to what stands before, `iter`, `in_order` and `copy` in proportion to all. `iter` and `remove` take no
//! memory.
//!
//! Not here: what stands at a place, and which places are free.
#![tactic(auto)]

mod kept;
mod roster;
mod seat;

pub use roster::Roster;
pub use seat::Seat;
