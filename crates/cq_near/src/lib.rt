//! How alike what a query asks for is to what is there: where it is as good as there, a name or a value may be misspelt.
//!
//! [`distance`] of two words; [`likeness`] of a head to what is wanted; [`first_unfit`], the first atom of a body that no row fits; [`first_clash`], the first that has no
//! grounding together with those before it (`specs/Alike`, `specs/Unfit`, `specs/Clash`).
//!
//! Not here: which groundings a body has over the rows, and who supplies what.
#![tactic(auto)]

mod alike;
mod clash;
mod unfit;

pub use alike::{distance, likeness};
pub use clash::{Clash, first_clash};
pub use unfit::{Unfit, first_unfit};
