//! What sessions do on a floor, and what is answered to it.

use crate::reply::Reply;
use thiserror::Error;

/// A step of a session on a [`Floor`](crate::Floor).
#[derive(Drop)]
pub enum Event<E> {
    /// A session enters an edit.
    Enter {
        /// The number of the session.
        author: usize,
        /// What it asks for.
        edit: E,
    },
    /// All that was entered is published.
    Publish,
    /// A session looks at what is published.
    Look {
        /// The number of the session.
        session: usize,
    },
    /// A session is told that so many entries are published.
    Hear {
        /// The number of the session.
        session: usize,
        /// How many entries.
        count: u64,
    },
    /// The published content becomes the opening content, and the journal becomes empty.
    Checkpoint,
}

/// The answer to an event.
#[derive(Clone, Copy, Debug, Drop, PartialEq, Eq)]
pub enum Answer<W> {
    /// This became of the edit.
    Replied(Reply<W>),
    /// So many entries are published.
    Published(u64),
    /// What was seen is what so many entries leave.
    Looked(u64),
    /// The session has seen or heard of so many entries.
    Heard(u64),
    /// A checkpoint was made after this many entries, all of them published.
    Checkpointed(u64),
}

/// Why an event has no answer, in the order of the tests.
#[derive(Clone, Copy, Debug, PartialEq, Eq, Error)]
pub enum StepFault {
    /// There is no session of that number.
    #[error("there is no session of that number")]
    NoSession,
    /// So many entries are not published.
    #[error("so many entries are not published")]
    Ahead,
    /// Some entries are not published.
    #[error("entries are not published yet")]
    Unpublished,
    /// An allocation failed.
    #[error("out of memory")]
    NoMemory,
}
