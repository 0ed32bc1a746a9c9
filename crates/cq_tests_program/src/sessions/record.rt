//! What a session keeps of its replies and looks.

use cq_board::Why;
use cq_desk::Reply;
use std::alloc::{AllocError, Global};

/// A look that is kept: how many entries it showed, and the report on its board.
#[derive(Drop)]
pub struct Kept {
    pub count: u64,
    pub text: String,
}

/// What a session was told and saw.
#[derive(Drop)]
pub struct Record {
    /// For what is kept.
    pub alloc: Global,
    /// The replies to its edits, in the order in which it asked for them.
    pub replies: Vec<Reply<Why>>,
    /// Some of its looks, the earliest first.
    pub looks: Vec<Kept>,
    /// The most entries that it has seen or heard of.
    known: u64,
    /// Whether nothing failed for lack of memory, and no look and no front showed less than was known.
    pub holds: bool,
}

impl Record {
    pub fn begin(alloc: Global) -> Record {
        Record {
            alloc,
            replies: Vec::new(alloc),
            looks: Vec::new(alloc),
            known: 0,
            holds: true,
        }
    }

    pub fn fails(&mut self) {
        self.holds = false;
    }

    /// So many entries are known of from now on. Fewer than before are not right.
    pub fn knows(&mut self, count: u64) {
        if count < self.known {
            self.fails();
        }
        self.known = count;
    }

    /// A front of so many entries is heard of. It may be an older one.
    pub fn hears(&mut self, count: u64) {
        self.known = self.known.max(count);
    }

    /// Whether so many entries are known to have come since the last look that is kept.
    pub fn is_due(&self, entries: u64) -> bool {
        match self.looks.last() {
            Some(kept) => self.known >= kept.count.saturating_add(entries),
            None => true,
        }
    }

    /// Keeps a look that is reported so.
    pub fn keeps(&mut self, count: u64, told: Result<String, AllocError>) {
        let kept = match told {
            Ok(text) => self.looks.push(Kept { count, text }).is_ok(),
            Err(_) => false,
        };
        if !kept {
            self.fails();
        }
    }

    /// Takes the replies down.
    pub fn takes(&mut self, replies: &[Reply<Why>]) -> bool {
        self.replies.extend_from_slice(replies).is_ok()
    }
}
