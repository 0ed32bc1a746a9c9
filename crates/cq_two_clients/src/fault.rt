//! Why the program ends with nothing shown.

use cq_atom::Bad;
use cq_desk::NoMemory;
use cq_rel::CatalogFault;
use cq_room::RoomFault;
use cq_text::TextFault;
use std::alloc::AllocError;
use thiserror::Error;

/// Why the program ends with nothing shown.
#[derive(Clone, Copy, Debug, PartialEq, Eq, Error)]
pub enum Fault {
    /// An allocation of a list or of the board was refused.
    #[error(transparent)]
    Memory(#[from(alloc)] AllocError),
    /// A text is no query or no row, or was not read.
    #[error(transparent)]
    Text(#[from] TextFault),
    /// A name is none, or was not made.
    #[error(transparent)]
    Name(#[from] Bad),
    /// The catalog refuses the relation.
    #[error(transparent)]
    Relation(#[from] CatalogFault),
    /// The room was not begun or opened.
    #[error(transparent)]
    Room(#[from] RoomFault),
    /// A submit had no room for its replies.
    #[error(transparent)]
    Submit(#[from] NoMemory),
    /// What a submit entered is not published.
    #[error("a submit was not published: out of memory")]
    Unpublished,
    /// An edit of a submit was refused.
    #[error("an edit was refused")]
    Refused,
    /// The room has no such session, or no desk any more.
    #[error("the room is gone")]
    Gone,
    /// Standard output takes nothing.
    #[error("write failed")]
    Write,
}
