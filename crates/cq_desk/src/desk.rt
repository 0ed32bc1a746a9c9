//! A journal under a limit, its working state and its publisher.

ghost use Rattle.std.specs.Prelude.{◌≡◌, ◌≤◌, ◌<◌, ◌+◌, [], ◌++◌, length, fold, drop, IfOk, OnOk, OnErr};
ghost use mathlib.Core.List.{IsPrefix};
ghost use Rattle.cq_desk.specs.History.{edits_of, grown, BeginsWith};
ghost use Rattle.cq_desk.specs.Desk.{with_reply};
ghost use Rattle.cq_desk.specs.Replies.{AreAccepted, MatchEnd, journal_edits, reply_at};
ghost use Rattle.cq_desk.specs.Submission.{IsSubmission};

use crate::gate::{Checkpoint, OpenGate};
use crate::journal::Entry;
use crate::live::{Live, NoMemory};
use crate::publisher::Publisher;
use crate::reply::{End, Reply, Submitted};
use std::alloc::{Allocator, Global};
use std::marker::Model;
use thiserror::Error;

/// Why a desk makes no checkpoint.
#[derive(Clone, Copy, Debug, PartialEq, Eq, Error)]
pub enum CheckpointFault {
    /// Some entries are not published.
    #[error("entries are not published yet")]
    Unpublished,
}

/// A journal, the working state that it leaves, and a publisher. Contracts see the publisher, all entries that
/// were ever accepted, the journal's limit, and how many entries came before the last checkpoint. The desk itself keeps only
/// the entries since then. That the working state is what all entries leave over the publisher's
/// opening content, and that published entries, then those pending or not yet handed over, are these
/// entries, authors included, stands in this type.
#[derive(Drop)]
pub struct Desk<L: Live, P: Publisher<L>, A: Allocator = Global> {
    working: L,
    publisher: P,
    journal: Vec<Entry<L::Edit>, A>,
    limit: usize,
    base: u64,
    handed: usize,
    published: usize,
}

impl<L: Live, P: Publisher<L>, A: Allocator> Model for Desk<L, P, A> {
    ghost use Rattle.std.specs.Prelude.{◌+◌};
    ghost use Rattle.cq_desk.specs.Desk.{DeskRecord, IsInStep, whole_journal};

    ghost Value = { DeskRecord P L.Edit };

    ghost view = { λ d. record { publisher = d.publisher; journal = whole_journal d.base (P.history d.publisher) d.journal.items; limit = d.limit; base = d.base } };

    ghost invariant = { λ d. IsInStep L.after L.why (L.content d.working) (P.opening d.publisher) (P.history d.publisher) (P.shown d.publisher) (P.pending d.publisher) (whole_journal d.base (P.history d.publisher) d.journal.items) d.limit d.base (d.base + d.handed) (d.base + d.published) };
}

impl<L: Live, P: Publisher<L>, A: Allocator + Copy> Desk<L, P, A> {
    /// The desk over the state, with an empty journal that may hold so many entries. The journal
    /// grows with the allocator later on.
    pub fn begin(alloc: A, state: L, publisher: P, journal: usize) -> Desk<L, P, A>
        requires opening { P.opening publisher ≡ L.content state }
        requires history { P.history publisher ≡ [] }
        requires shown { P.shown publisher ≡ [] }
        requires pending { P.pending publisher ≡ [] }
        ensures { result ≡ record { publisher = publisher; journal = []; limit = journal; base = 0 } }
    {
        Desk {
            working: state,
            publisher,
            journal: Vec::new(alloc),
            limit: journal,
            base: 0,
            handed: 0,
            published: 0,
        }
    }

    /// The working state, which is what the whole journal leaves.
    pub fn working(&self) -> &L
        ensures { L.content result.now ≡ fold L.after (P.opening self.now.publisher) (journal_edits self.now.journal) }
    {
        &self.working
    }

    /// The publisher. Its publications and what is pending are the first entries of the journal, with their authors.
    pub fn publisher(&self) -> &P
        ensures same { result.now ≡ self.now.publisher }
        ensures told { IsPrefix (edits_of (P.history result.now) ++ P.pending result.now) self.now.journal }
        ensures front { BeginsWith (P.history result.now) (P.shown result.now) }
    {
        &self.publisher
    }

    /// The accepted edits since the last checkpoint, with their authors, the earliest first: each was accepted after those before it.
    pub fn journal(&self) -> &[Entry<L::Edit>]
        ensures value { result.now ≡ drop self.now.base self.now.journal }
        ensures accepted { AreAccepted L.after L.why (P.opening self.now.publisher) (journal_edits self.now.journal) }
        ensures within { length self.now.journal ≤ self.now.base + self.now.limit }
        ensures base { self.now.base ≤ length self.now.journal }
    {
        &self.journal
    }

    /// Returns how many entries came before the last checkpoint. All of them are published.
    pub fn base(&self) -> u64
        ensures value { result ≡ self.now.base }
        ensures published { self.now.base ≤ length (edits_of (P.shown self.now.publisher)) }
    {
        self.base
    }

    /// Returns how many entries there are in all, including those before the last checkpoint.
    pub fn count(&self) -> u64
        ensures { result ≡ length self.now.journal }
    {
        self.base + self.journal.len() as u64
    }

    /// How many entries are published, including those before the last checkpoint.
    pub fn published_count(&self) -> u64
        ensures { result ≡ length (edits_of (P.shown self.now.publisher)) }
    {
        self.base + self.published as u64
    }

    /// Enters the edit under the author's name where it is not refused, and answers what became of it. Numbers count
    /// all entries; the limit bounds those since the last checkpoint.
    ///
    /// # Errors
    /// `NoMemory` where an allocation failed, which may take the place of `Not` and not of
    /// `JournalFull`, and if all 2^64 - 1 numbers are used. Nothing has changed then.
    pub fn enter(&mut self, author: usize, edit: L::Edit) -> Result<Reply<L::Why>, NoMemory>
        ensures reply { IfOk result (λ reply. reply ≡ reply_at L.after L.why (P.opening self.old.publisher) (self.old.base + self.old.limit) (journal_edits self.old.journal) edit) }
        ensures after { IfOk result (λ reply. self.new ≡ with_reply author edit reply self.old) }
        ensures err { OnErr result (self.new ≡ self.old) }
        ensures room { OnErr result (length self.old.journal < self.old.base + self.old.limit) }
    {
        if self.journal.len() >= self.limit {
            return Ok(Reply::JournalFull);
        }
        let count = self.count();
        if count == u64::MAX {
            return Err(NoMemory);
        }
        self.journal.reserve(1)?;
        match self.working.admit(&edit)? {
            Some(why) => Ok(Reply::Not(why)),
            None => {
                self.journal.push_reserved(Entry { author, edit });
                Ok(Reply::Entered(count + 1))
            }
        }
    }

    /// Publishes all that was entered, as one publication after those that are there, and answers
    /// how many entries are published.
    ///
    /// # Errors
    /// `NoMemory` where an allocation failed. Journal and shown publications stay as they were, and
    /// a later call goes on.
    pub fn publish(&mut self, leave: &P::Leave) -> Result<u64, NoMemory>
        ensures journal { self.new.journal ≡ self.old.journal }
        ensures limit { self.new.limit ≡ self.old.limit }
        ensures base { self.new.base ≡ self.old.base }
        ensures opening { P.opening self.new.publisher ≡ P.opening self.old.publisher }
        ensures count { IfOk result (λ count. count ≡ length self.old.journal) }
        ensures history { OnOk result (P.history self.new.publisher ≡ grown (P.history self.old.publisher) (drop (length (edits_of (P.history self.old.publisher))) self.old.journal)) }
        ensures all { OnOk result (edits_of (P.history self.new.publisher) ≡ self.old.journal) }
        ensures shown { OnOk result (P.shown self.new.publisher ≡ P.history self.new.publisher) }
        ensures refused { OnErr result (P.shown self.new.publisher ≡ P.shown self.old.publisher) }
        ensures begins { BeginsWith (P.history self.new.publisher) (P.history self.old.publisher) }
        ensures told { IsPrefix (edits_of (P.history self.new.publisher) ++ P.pending self.new.publisher) self.old.journal }
    {
        while self.handed < self.journal.len() {
            let entry = &self.journal[self.handed];
            let edit = L::copy_edit(&entry.edit)?;
            self.publisher.append(entry.author, edit)?;
            self.handed += 1;
        }
        self.publisher.publish(leave)?;
        self.published = self.handed;
        Ok(self.base + self.published as u64)
    }

    /// Makes the published content the opening content, and empties the journal, which frees its entries. Returns how many
    /// entries there are in all: numbers continue, and the limit bounds the entries from here on. What is published does not change. It does not allocate.
    /// The publisher's own memory is not freed: [`Plain`](crate::Plain) keeps a list of all entries.
    ///
    /// # Errors
    /// `Unpublished` if not all entries are published. Nothing changes then.
    pub fn checkpoint(&mut self) -> Result<u64, CheckpointFault>
        ensures ok { OnOk result (self.new ≡ record self.old { base = length self.old.journal }) }
        ensures count { IfOk result (λ count. count ≡ length self.old.journal) }
        ensures published { OnOk result (edits_of (P.shown self.old.publisher) ≡ self.old.journal) }
        ensures err { OnErr result (self.new ≡ self.old) }
        ensures unpublished { OnErr result (length (edits_of (P.shown self.old.publisher)) < length self.old.journal) }
    {
        let count = self.count();
        if self.published < self.journal.len() {
            return Err(CheckpointFault::Unpublished);
        }
        self.journal = Vec::new(*self.journal.allocator());
        self.base = count;
        self.handed = 0;
        self.published = 0;
        Ok(count)
    }

    /// Enters these edits one after another under the author's name, and publishes what the journal
    /// holds as one publication. Each edit has a reply; a refused one stops nobody.
    ///
    /// # Errors
    /// `NoMemory` where there was no room for the replies. Nothing was entered or published then.
    pub fn submit(
        &mut self,
        author: usize,
        asked: Vec<L::Edit, A>,
        leave: &P::Leave,
    ) -> Result<Submitted<L::Why, A>, NoMemory>
        ensures submission { IfOk result (λ submitted. IsSubmission L.after L.why P.opening P.history P.shown author self.old self.new asked.items submitted.replies.items submitted.end) }
        ensures err { OnErr result (self.new ≡ self.old) }
    {
        self.submit_past(author, asked, leave, &mut OpenGate)
    }

    /// The same past a checkpoint, which lets the submit pass once, between entering and publishing.
    ///
    /// # Errors
    /// `NoMemory` where there was no room for the replies. Nothing was entered or published then, and
    /// the checkpoint was not reached.
    pub fn submit_past<G: Checkpoint>(
        &mut self,
        author: usize,
        asked: Vec<L::Edit, A>,
        leave: &P::Leave,
        gate: &mut G,
    ) -> Result<Submitted<L::Why, A>, NoMemory>
        ensures submission { IfOk result (λ submitted. IsSubmission L.after L.why P.opening P.history P.shown author self.old self.new asked.items submitted.replies.items submitted.end) }
        ensures passed { IfOk result (λ submitted. MatchEnd submitted.end (λ _. G.passed gate.old (length self.new.journal) (length (edits_of (P.shown self.old.publisher))) gate.new) (gate.new ≡ gate.old) (G.passed gate.old (length self.new.journal) (length (edits_of (P.shown self.old.publisher))) gate.new)) }
        ensures err { OnErr result (self.new ≡ self.old) }
        ensures unpassed { OnErr result (gate.new ≡ gate.old) }
    {
        let alloc = *asked.allocator();
        let mut replies = Vec::new(alloc);
        replies.reserve(asked.len())?;
        let _ = self.publisher();
        for edit in asked {
            let Ok(reply) = self.enter(author, edit) else {
                return Ok(Submitted {
                    replies,
                    end: End::Stopped,
                });
            };
            replies.push_reserved(reply);
        }
        gate.let_pass(self);
        match self.publish(leave) {
            Ok(count) => Ok(Submitted {
                replies,
                end: End::Published(count),
            }),
            Err(_) => Ok(Submitted {
                replies,
                end: End::Unpublished,
            }),
        }
    }
}
