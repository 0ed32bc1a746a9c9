//! Sessions from files: what `run_sessions` writes of SETUP and one to sixteen files, each of which a thread serves, and
//! how it ends where a device fails. Whatever the order in which edits came, the script that is written agrees with its own
//! replies and replays.

mod asked;
mod examples;
mod gates;
mod judged;
mod postings;
mod replays;
mod served;
mod sixteen;
