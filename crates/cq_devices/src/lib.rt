//! Devices: where bytes come from, and where they go.
//!
//! Bytes come from a `Source` and go to a `Sink`, which count their calls; `Counted` makes either of a device of std.
//! `read_whole` reads all that a source has, and `write_all` writes all bytes. `specs/Device` says what is known of each.
//!
//! Not here: what the bytes mean, and which devices a program has.
#![tactic(auto)]

mod counted;
mod limits;
mod sink;
mod source;
mod stop;
mod whole;

pub use counted::Counted;
pub use limits::{MAX_PIECE, MAX_READS};
pub use sink::{Sink, write_all};
pub use source::{Failed, Source};
pub use stop::Stop;
pub use whole::read_whole;
