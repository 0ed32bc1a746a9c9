//! Tallies: a second live state, so that a desk or a room is seen to need nothing of a board.

ghost use Rattle.std.specs.Prelude.{◌≡◌, []};
ghost use Rattle.cq_tests_room.specs.Tally.{full_of, pushed, full_keeps};

use cq_desk::{Live, NoMemory};
use std::alloc::{Allocator, Global};

/// At most four bytes. An edit is a byte that comes after them.
#[derive(Drop)]
pub struct Tally<A: Allocator = Global> {
    bytes: Vec<u8, A>,
}

/// There are four bytes.
#[derive(Clone, Copy, PartialEq, Eq)]
pub struct Full;

impl<A: Allocator + Copy> Tally<A> {
    pub fn empty(alloc: A) -> Tally<A>
        ensures { result.bytes.items ≡ [] }
    {
        Tally {
            bytes: Vec::new(alloc),
        }
    }

    pub fn bytes(&self) -> &[u8] {
        &self.bytes
    }
}

impl<A: Allocator + Copy> Live for Tally<A> {
    type Edit = u8;

    type Why = Full;
    // Contracts see a tally as the list of its bytes.
    type Content = [u8; 0];

    ghost content = { λ tally. tally.bytes.items };

    ghost why = { full_of (record {}) };

    ghost after = { pushed };

    fn admit(&mut self, edit: &u8) -> Result<Option<Full>, NoMemory> {
        if self.bytes.len() >= 4 {
            return Ok(Some(Full));
        }
        self.bytes.push(*edit)?;
        Ok(None)
    }

    fn copy(&self) -> Result<Tally<A>, NoMemory> {
        let bytes = self.bytes.clone()?;
        Ok(Tally { bytes })
    }

    fn copy_edit(edit: &u8) -> Result<u8, NoMemory> {
        Ok(*edit)
    }

    ghost refused = { full_keeps (record {}) };
}
