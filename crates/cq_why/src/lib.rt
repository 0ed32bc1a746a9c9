//! What is wrong with the lines of a script that are refused, in plain words.
//!
//! [`put_whys`] tells of each line that is no command what was expected there and what was found, and of each command that is refused why (`specs/Why`). What is
//! expected is found by the grammar: tokens are tried at the place of the fault. Why a command is refused is found by the script's machine, which hears it
//! again.
#![tactic(auto)]

mod closest;
mod found;
mod hint;
mod misuse;
mod refused;
mod samples;
mod whys;

pub use whys::put_whys;
