//! Lists in blocks.
//!
//! A `Vec` that has an element put into its midst moves all that stand after it. A list in blocks moves those of one block.
//!
//! Contracts see such a list as its blocks in order, each the list of its elements: `elements` are those of all blocks, one
//! after another. Which blocks they stand in is left open. What a call says of a place it says of `flat`: how many elements
//! stand before the place.
#![tactic(auto)]

mod blocks;
mod edits;
mod equal;
mod fate;
mod index;
mod iter;
mod place;

pub use blocks::Blocks;
pub use iter::Iter;
pub use place::Place;
