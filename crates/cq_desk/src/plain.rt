//! A publisher that shows one state.

ghost use Rattle.std.specs.Prelude.{◌≡◌, [], fold, IfOk};
ghost use Rattle.cq_desk.specs.History.{edits_of};
ghost use Rattle.cq_desk.specs.Replies.{journal_edits};

use crate::journal::Entry;
use crate::live::{Live, NoMemory};
use crate::publisher::Publisher;
use std::alloc::{Allocator, Global};
use std::marker::Model;
use std::mem;

/// A publisher that shows one state and keeps the next one beside it. A publish takes the edits of
/// the entries that the next state lacks into it, one by one, and changes the two over when all are in; it copies no
/// state. Contracts see the opening content, the publications and the pending entries: that the shown
/// state is what the publications leave over the opening content stands in this type.
#[derive(Drop)]
pub struct Plain<L: Live, A: Allocator = Global> {
    opening: L,
    shown: L,
    next: L,
    entries: Vec<Entry<L::Edit>, A>,
    lengths: Vec<usize, A>,
    published: usize,
    taken: usize,
}

impl<L: Live, A: Allocator> Model for Plain<L, A> {
    ghost use Rattle.std.specs.Prelude.{drop};
    ghost use Rattle.cq_desk.specs.Plain.{PlainRecord, IsPublished, cut_at};

    ghost Value = { PlainRecord L.Content L.Edit };

    ghost view = { λ p. record { opening = L.content p.opening; history = cut_at 0 p.lengths.items p.entries.items; pending = drop p.published p.entries.items } };

    ghost invariant = { λ p. IsPublished L.after (L.content p.opening) (L.content p.shown) (L.content p.next) p.entries.items p.lengths.items p.published p.taken };
}

impl<L: Live, A: Allocator + Copy> Plain<L, A> {
    /// Shows the state. The list of entries grows with the allocator later on.
    ///
    /// # Errors
    /// `NoMemory` where an allocation failed.
    pub fn begin(alloc: A, state: L) -> Result<Plain<L, A>, NoMemory>
        ensures { IfOk result (λ plain. plain ≡ record { opening = L.content state; history = []; pending = [] }) }
    {
        let opening = state.copy()?;
        let next = state.copy()?;
        Ok(Plain {
            opening,
            shown: state,
            next,
            entries: Vec::new(alloc),
            lengths: Vec::new(alloc),
            published: 0,
            taken: 0,
        })
    }

    /// The state that is shown, which is what the publications leave.
    pub fn published(&self) -> &L
        ensures { L.content result.now ≡ fold L.after self.now.opening (journal_edits (edits_of self.now.history)) }
    {
        &self.shown
    }
}

impl<L: Live, A: Allocator + Copy> Publisher<L> for Plain<L, A> {
    type Leave = ();

    ghost opening = { λ p. p.opening };

    ghost history = { λ p. p.history };

    ghost shown = { λ p. p.history };

    ghost pending = { λ p. p.pending };

    fn append(&mut self, author: usize, edit: L::Edit) -> Result<(), NoMemory> {
        self.entries.push(Entry { author, edit })?;
        Ok(())
    }

    fn publish(&mut self, _leave: &()) -> Result<(), NoMemory> {
        if self.published == self.entries.len() {
            return Ok(());
        }
        self.lengths.reserve(1)?;
        while self.taken < self.entries.len() {
            let _ = self.next.admit(&self.entries[self.taken].edit)?;
            self.taken += 1;
        }
        mem::swap(&mut self.shown, &mut self.next);
        // The state that was shown lacks the edits of this publication.
        self.taken = self.published;
        self.published = self.entries.len();
        self.lengths.push_reserved(self.published);
        Ok(())
    }
}
