//! Lines that ask: what is asked of a board, and the answers.
//!
//! Who answers lines uses `read_ask`, and `tell` or `tell_data`; who has words for choices `read_choices`. `specs/Ask` says which lines ask, and what; `specs/Answer` what is told
//! of it in lines, and `specs/Data` as JSON, of the board that is published. An answer changes nothing. `counts_of` with `count_parts`
//! or `count_members` is the answer to `count`, which needs no memory. `read_find` reads what `find` asks for; its groundings are written one
//! by one, each by `found_line` or `found_text` (`specs/Find`).
//!
//! Not here: lines that change a board, and where an answer goes.
#![tactic(auto)]

mod answering;
mod ask;
mod changing;
mod choices;
mod counts;
mod data;
mod finding;
mod reading;

pub use answering::{ending, tell};
pub use ask::{Ask, AskKind};
pub use choices::{ChoiceFault, one_choice, read_choices};
pub use counts::{CountPart, Counts, count_members, count_parts, counts_of};
pub use data::tell_data;
pub use finding::{Search, fault_place, found_line, found_text, read_find, variables_text};
pub use reading::read_ask;
