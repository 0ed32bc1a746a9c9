//! Sixteen sessions over a board, each in a thread of its own: whatever the order in which their edits came, each look
//! shows the board of a beginning of the journal, and each reply tells of an entry that stands there.

mod asked;
mod boards;
mod jobs;
mod judged;
mod left;
mod record;
mod rooms;
mod seats;
mod sixteen;
