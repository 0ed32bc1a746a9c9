//! Scripts: their bytes in, reply lines and reports out.
//!
//! The program uses `run`: what it writes is `specs/Output` of what it reads. `specs/Lines` cuts
//! a script into lines, `specs/Reading` says what a line is read as, `specs/Machine` what it does and
//! what is told of it, and `specs/Reply` and `specs/Data` how that reads, in words and as JSON. `read_script` serves a script, discards the replies, and gives the board that it leaves.
//!
//! Not here: which texts stand for what, and what a post does to a pool; the report on a board; a program's arguments, its
//! exit status and its messages.
#![tactic(auto)]

mod commands;
mod discard;
mod dumped;
mod finding;
mod floors;
mod heading;
mod later;
mod left;
mod limits;
mod line_buffer;
mod living;
mod manner;
mod numbering;
mod outcome;
mod output;
mod playing;
mod refusal;
mod reply;
mod running;
mod said;
mod script;
mod serving;
mod setup;
mod stage;
mod summary;
mod tally;

pub use cq_devices::Stop as RunFault;
pub use dumped::dumps_make_boards;
pub use heading::{form_of, headed};
pub use left::Played;
pub use limits::{JOURNAL_LIMIT, POOL_LIMIT};
pub use living::live;
pub use numbering::Numbering;
pub use outcome::Outcome;
pub use playing::read_script;
pub use refusal::{Place, Refusal, RefusalParts};
pub use running::{first_line, run};
pub use script::Script;
pub use setup::Setup;
pub use stage::Stage;
pub use summary::{put_summary, put_warning};
pub use tally::{Refused, Tally};
