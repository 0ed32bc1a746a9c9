//! Pools of pending queries, and the board of each.
//!
//! A pool is a list of pending queries in posting order under a limit, with the tables that their
//! bodies read. `specs/Edits` says why an edit is refused and which pool an accepted one leaves, and
//! `specs/Board` what the board of a pool is: its edges, crowded postconditions, matched queries and
//! groundings, from scratch.
//!
//! The crates above use one contract of this one most: `Board::admit` tells why the edit is refused
//! and leaves the pool after it, or leaves all as it was. That what a board shows is the board of its
//! pool stands in its type. Three laws of the definitions are proved beside it: the test by which edges
//! are defined is true exactly where a head unifies with a postcondition (`unifies_is_unify`), the
//! pool after an edit of a good pool is good (`pools_stay_good`), and a good pool is made again by its
//! rows and its queries, none of which is refused (`pools_are_their_content`).
//!
//! A board is a state that takes edits, so a desk, a floor and a room may stand over one (`cq_desk`). Over
//! a board `working_board` and `published_board` say of a floor's two states that their edges, crowded
//! postconditions, matched queries and groundings are those from scratch.
//!
//! A board goes on under another setup: `Board::declare` declares one relation more, and
//! `Board::set_limits` sets other limits. Rows, queries and all that the board shows of them stay.
//!
//! Not here: the order in which edits came, and how a board is printed.
#![tactic(auto)]

mod board;
mod choice;
mod edit;
mod floors;
mod heads;
mod laws;
mod limits;
mod linear;
mod link;
mod live;
mod near;
mod pending;
mod refusal;
mod row_change;
mod scratch;
mod setup;
mod showing;
mod stores;
mod supply;
mod views;
mod waiting;
mod work;

pub use board::Board;
pub use choice::Choice;
pub use edit::Why;
pub use floors::{published_board, working_board};
pub use heads::Heads;
pub use laws::{pools_are_their_content, pools_stay_good, unifies_is_unify};
pub use limits::Limits;
pub use link::{Crowd, Link};
pub use near::NearMiss;
pub use pending::{Pending, PendingView};
pub use scratch::ScratchFault;
pub use setup::{LimitsFault, RelationFault};
pub use waiting::Waiter;
pub use work::Work;
