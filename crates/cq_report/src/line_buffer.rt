//! The line that is being read.

ghost use Rattle.std.specs.Prelude.{◌≡◌, [], Some, IfOk, option_map};
ghost use Rattle.cq_report.specs.Steps.Serving.{Ends, KeepsOn, is_new, whole_in};

use cq_text::MAX_BYTES;
use std::alloc::{AllocError, Allocator};
use std::marker::Model;

/// How many bytes of a line are kept: one more than a line of any form may have, so that a longer one is known
/// to be too long.
pub(crate) const KEPT: usize = MAX_BYTES + 1;

/// How many bytes of a line there is always room for.
const LINE_ROOM: usize = 64;

/// The front of a line, as far as it was read, and no more of it than is kept; or nothing of it, if an allocation failed.
#[derive(Drop)]
pub(crate) struct LineBuffer<A: Allocator> {
    bytes: Vec<u8, A>,
    is_lost: bool,
}

impl<A: Allocator> Model for LineBuffer<A> {
    ghost use Rattle.std.specs.Prelude.{ℕ, ◌≤◌, List, Option, Some, None, length, if◌then◌else◌};
    ghost use Rattle.std.specs.Vec.{vec_capacity};
    ghost use Rattle.cq_report.specs.Live.{line_room};
    ghost use Rattle.cq_report.specs.declared.line_buffer.TheConstants.{KEPT};

    ghost Value = { Option (List ℕ) };

    ghost view = { λ l. if l.is_lost then None else Some l.bytes.items };

    ghost invariant = { λ l. (length l.bytes.items ≤ KEPT) × (line_room ≤ vec_capacity l.bytes) };
}

impl<A: Allocator> LineBuffer<A> {
    /// Nothing was read yet.
    ///
    /// # Errors
    /// `AllocError` if an allocation fails.
    pub(crate) fn begin(alloc: A) -> Result<Self, AllocError>
        ensures { IfOk result (λ line. line ≡ Some []) }
    {
        Ok(LineBuffer {
            bytes: Vec::with_capacity(alloc, LINE_ROOM)?,
            is_lost: false,
        })
    }

    /// Returns true if nothing of the line was read.
    pub(crate) fn is_new(&self) -> bool
        ensures { result ≡ is_new self.now }
    {
        !self.is_lost && self.bytes.is_empty()
    }

    /// More bytes of the line. If an allocation fails, the line is lost.
    pub(crate) fn extend(&mut self, bytes: &[u8])
        ensures { KeepsOn self.old bytes.now self.new }
    {
        if bytes.is_empty() {
            return;
        }
        let room = KEPT - self.bytes.len();
        let (front, _) = bytes.split_at(room.min(bytes.len()));
        if self.bytes.extend_from_slice(front).is_err() {
            self.is_lost = true;
        }
    }

    /// The last bytes of the line. They are kept unless it begins with them.
    pub(crate) fn end(&mut self, last: &[u8])
        ensures { Ends self.old last.now self.new }
    {
        if !self.is_new() {
            self.extend(last);
        }
    }

    /// Returns the line that ends with these bytes, if it was not lost: these bytes if it begins with them, and else what is kept.
    pub(crate) fn whole<'l>(&'l self, last: &'l [u8]) -> Option<&'l [u8]>
        ensures { option_map (λ line. line.now) result ≡ whole_in self.now last.now }
    {
        if self.is_lost {
            return None;
        }
        if self.bytes.is_empty() {
            return Some(last);
        }
        Some(&self.bytes)
    }

    /// The next line begins.
    pub(crate) fn clear(&mut self)
        ensures { self.new ≡ Some [] }
    {
        self.bytes.clear();
        self.is_lost = false;
    }
}
