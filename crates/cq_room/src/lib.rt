//! The room: one board, client threads that post under one lock, and looks that take no lock.
//!
//! A [`Room`] is a [`Desk`](cq_desk::Desk) under one lock, over a [`Pair`]: a publisher that keeps two
//! copies of the published state by `left_right`. `Room::begin` makes the [`Parts`] of a room,
//! `Parts::open` puts them together under a name and hands out 1 to 16 [`Session`]s. A session submits
//! edits under the lock, and is told of what was published by a [`Front`], which it may hand on;
//! another session hears it. A session that watches gives a [`Look`] at what is published, with no lock,
//! no memory and no waiting. A look that is held keeps publishes waiting, and nothing else.
//!
//! Each session, look and front has a history of entries, edits with their authors (`cq_desk`'s
//! `specs/History`), and all of them are beginnings of one: the history is a `logbook` book whose word
//! is its length, each publication ends with a mark of its own (`specs/Marks`), and a [`Shown`] copy
//! carries the trail of marks that it has taken in, so that its type says of which edits its content is
//! the result. A room's name stands in all these types ([`RoomName`]), so that what one call takes
//! belongs to one room.
//!
//! Who shares a board uses these contracts most. `Session::watch`: the look's history begins with the
//! session's, and `Look::state` has what that history's edits leave over the opening content.
//! `Session::hear`: the new history begins with the front's and the session's own. `Session::submit`:
//! where it is published, the replies are those of the journal that stood there before, which begins
//! with all that the session had seen; the accepted edits are the last of the front's entries, under
//! the session's number, all in its last publication, each at the number that it was told
//! (`specs/Receipts`). `Room::close`: the journal begins with the entries that each session has seen, and
//! with those up to its last submit, which it knows of whether they were published or not. `Session::checkpoint` empties the
//! desk's journal under the lock; histories, and what sessions know of, are those of the room's whole life.
//!
//! A call that takes the lock keeps its promise if it returns: nothing is said of when that is.
//!
//! Not here: how a state takes an edit, what is shown of a board, files and programs.
#![tactic(auto)]

mod book;
mod copies;
mod front;
mod mark;
mod names;
mod pair;
mod parts;
mod room;
mod session;
mod shown;
mod submit;
mod trail;

pub use cq_desk::{Checkpoint, CheckpointFault, Gate, OpenGate};
pub use front::Front;
pub use names::RoomName;
pub use pair::Pair;
pub use parts::{Parts, RoomFault};
pub use room::{Receipt, Room, Watched};
pub use session::{Look, Session};
pub use shown::Shown;
