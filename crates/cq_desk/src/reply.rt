//! Replies to edits.

use std::alloc::{Allocator, Global};

/// What became of an edit: the journal's limit is looked at first, then the state.
#[derive(Clone, Copy, Debug, Drop, PartialEq, Eq)]
pub enum Reply<W> {
    /// It is the entry of this number, counted from 1.
    Entered(u64),
    /// The journal has as many entries as it may hold.
    JournalFull,
    /// The state refuses it.
    Not(W),
}

/// How a list of edits ended.
#[derive(Clone, Copy, Debug, PartialEq, Eq)]
pub enum End {
    /// All have replies, and what was entered is published. So many entries are.
    Published(u64),
    /// An edit ran out of memory and has no reply, nor have those after it. Those entered before
    /// it stay in the journal. Nothing was published.
    Stopped,
    /// All have replies. The publish ran out of memory.
    Unpublished,
}

/// The replies to a list of edits in its order, and how it ended.
#[derive(Drop)]
pub struct Submitted<W, A: Allocator = Global> {
    /// The replies, as many as edits were tried.
    pub replies: Vec<Reply<W>, A>,
    /// How it ended.
    pub end: End,
}
