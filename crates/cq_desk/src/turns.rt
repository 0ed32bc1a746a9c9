//! Three states that take turns.

ghost use Rattle.std.specs.Prelude.{◌≡◌, ◌≤◌, ◌<◌, ◌+◌, ◌-◌, [], length, fold, nat_le, IfOk, OnOk, OnErr};
ghost use Rattle.cq_desk.specs.Replies.{journal_edits};
ghost use Rattle.cq_desk.specs.Steps.Turns.{TurnsRecord, LeadsOn, replied, reply_to, published, renewed, reopened, shown_content};

use crate::journal::Entry;
use crate::live::{Live, NoMemory};
use crate::reply::Reply;
use std::alloc::{Allocator, Global};
use std::marker::Model;
use std::mem;
use std::snapshot::Snapshot;

/// A journal and three states that take turns. `shown` has the published content. `other` has the content that the whole journal leaves, except for a
/// while after a publish. `past` has the content that `shown` had before. A publish rotates the three: `past` becomes `other`, and applies the entries
/// that it lacks before the next edit. So each entry is applied to each state once, and neither a publish nor a checkpoint copies a state.
///
/// `entries` lead from the content of `origin`, which only contracts read, to the working content. The first `skipped` of them were published before the
/// last checkpoint, and the others are the journal. The other numbers count entries from the origin: `behind`, `published` and `taken` are those that
/// `past`, `shown` and `other` include, and `before` are those that were published before the last publish. If the last publish published no new entry,
/// then `before` equals `published`; else it equals `behind`. Contracts see the content before the journal, the journal with its limit, how many
/// entries came before it, how many of it are published, and the content before the last publish.
#[derive(Drop)]
pub(crate) struct Turns<L: Live, A: Allocator + Copy = Global> {
    origin: Snapshot<L>,
    past: L,
    shown: L,
    other: L,
    entries: Vec<Entry<L::Edit>, A>,
    skipped: usize,
    limit: usize,
    base: u64,
    behind: usize,
    before: usize,
    published: usize,
    taken: usize,
}

impl<L: Live, A: Allocator + Copy> Model for Turns<L, A> {
    ghost use Rattle.std.specs.Prelude.{◌-◌, length, fold, take, drop};
    ghost use Rattle.cq_desk.specs.Replies.{journal_edits};
    ghost use Rattle.cq_desk.specs.Steps.Turns.{TurnsRecord, AreInTurn, AreCounted};

    ghost Value = { TurnsRecord L.Content L.Edit };

    ghost view = { λ t. record { opening = fold L.after (L.content t.origin.value) (journal_edits (take t.skipped t.entries.items)); limit = t.limit; base = t.base; journal = drop t.skipped t.entries.items; published = t.published - t.skipped; earlier = fold L.after (L.content t.origin.value) (journal_edits (take t.before t.entries.items)) } };

    ghost invariant = { λ t. AreInTurn L.after (L.content t.origin.value) (L.content t.past) (L.content t.shown) (L.content t.other) t.entries.items t.behind t.published t.taken × AreCounted t.limit t.base (length t.entries.items) t.skipped t.published t.before t.behind };
}

/// Has the state take in the edits that it lacks.
fn catch_up<L: Live>(
    state: &mut L,
    taken: &mut usize,
    journal: &[Entry<L::Edit>],
) -> Result<(), NoMemory>
    requires { taken.old ≤ length journal.now }
    ensures leads { LeadsOn L.after journal.now (L.content state.old) taken.old (L.content state.new) taken.new }
    ensures within { taken.new ≤ length journal.now }
    ensures all { OnOk result (taken.new ≡ length journal.now) }
    ensures lacks { OnErr result (taken.old < length journal.now) }
{
    while *taken < journal.len() {
        let _ = state.admit(&journal[*taken].edit)?;
        *taken += 1;
    }
    Ok(())
}

impl<L: Live, A: Allocator + Copy> Turns<L, A> {
    /// The state is shown, and the journal is empty. It grows with the allocator later on.
    ///
    /// # Errors
    /// `NoMemory` where an allocation failed.
    pub(crate) fn begin(alloc: A, state: L, limit: usize) -> Result<Turns<L, A>, NoMemory>
        ensures { IfOk result (λ turns. turns ≡ (record { opening = L.content state; limit = limit; base = 0; journal = []; published = 0; earlier = L.content state })) }
    {
        let past = state.copy()?;
        let other = state.copy()?;
        Ok(Turns {
            origin: Snapshot::of(&state),
            past,
            shown: state,
            other,
            entries: Vec::new(alloc),
            skipped: 0,
            limit,
            base: 0,
            behind: 0,
            before: 0,
            published: 0,
            taken: 0,
        })
    }

    /// The state that the published entries leave.
    pub(crate) fn shown(&self) -> &L
        ensures { L.content result.now ≡ shown_content L.after self.now }
    {
        &self.shown
    }

    /// Returns the state that the whole journal leaves. If the other one lacks an entry then all are published, so it is the shown one.
    pub(crate) fn working(&self) -> &L
        ensures { L.content result.now ≡ fold L.after self.now.opening (journal_edits self.now.journal) }
    {
        if self.taken < self.entries.len() {
            &self.shown
        } else {
            &self.other
        }
    }

    /// Returns the journal: the entries since the last checkpoint.
    pub(crate) fn journal(&self) -> &[Entry<L::Edit>]
        ensures { result.now ≡ self.now.journal }
    {
        &self.entries[self.skipped..]
    }

    /// Returns how many entries the journal contains.
    fn count(&self) -> usize
        ensures { result ≡ length self.now.journal }
    {
        self.entries.len() - self.skipped
    }

    /// Returns how many entries are published, including those before the journal.
    pub(crate) fn published(&self) -> u64
        ensures value { result ≡ self.now.base + self.now.published }
        ensures within { self.now.published ≤ length self.now.journal }
    {
        let _ = self.entries.len();
        self.base + (self.published - self.skipped) as u64
    }

    /// Returns how many entries are not published.
    pub(crate) fn unpublished(&self) -> usize
        ensures { result ≡ length self.now.journal - self.now.published }
    {
        self.entries.len() - self.published
    }

    /// Returns true if all entries are published.
    pub(crate) fn all_published(&self) -> bool
        ensures { result ≡ nat_le (length self.now.journal) self.now.published }
    {
        self.entries.len() <= self.published
    }

    /// Returns the state with the content that was published before the last publish. That is the shown one if the last publish published no new entry.
    pub(crate) fn earlier(&self) -> &L
        ensures { L.content result.now ≡ self.now.earlier }
    {
        if self.before > self.behind {
            &self.shown
        } else {
            &self.past
        }
    }

    /// Puts the edit behind the journal under the author's name unless it is refused, and returns its reply.
    pub(crate) fn append(&mut self, author: usize, edit: L::Edit) -> Result<Reply<L::Why>, NoMemory>
        ensures reply { IfOk result (λ reply. reply ≡ reply_to L.after L.why self.old edit) }
        ensures after { IfOk result (λ reply. self.new ≡ replied author edit reply self.old) }
        ensures err { OnErr result (self.new ≡ self.old) }
        ensures room { OnErr result (length self.old.journal < self.old.limit) }
    {
        let count = self.count();
        if count >= self.limit {
            return Ok(Reply::JournalFull);
        }
        self.entries.reserve(1)?;
        catch_up(&mut self.other, &mut self.taken, &self.entries)?;
        match self.other.admit(&edit)? {
            Some(why) => Ok(Reply::Not(why)),
            None => {
                self.entries.push_reserved(Entry { author, edit });
                self.taken = self.entries.len();
                Ok(Reply::Entered(self.base + count as u64 + 1))
            }
        }
    }

    /// Publishes the whole journal, and returns how many entries there are. It does not allocate.
    pub(crate) fn publish(&mut self) -> u64
        ensures count { result ≡ self.old.base + length self.old.journal }
        ensures done { self.new ≡ published L.after self.old }
    {
        self.before = self.published;
        if self.published < self.entries.len() {
            mem::swap(&mut self.past, &mut self.shown);
            mem::swap(&mut self.shown, &mut self.other);
            self.taken = self.behind;
            self.behind = self.published;
            self.published = self.entries.len();
        }
        self.base + (self.published - self.skipped) as u64
    }

    /// Begins a new journal over the published content. All entries must be published. It copies no state.
    pub(crate) fn checkpoint(&mut self) -> Result<(), NoMemory>
        requires { self.old.published ≡ length self.old.journal }
        ensures ok { OnOk result (self.new ≡ renewed L.after self.old) }
        ensures err { OnErr result (self.new ≡ self.old) }
    {
        let count = self.count();
        catch_up(&mut self.other, &mut self.taken, &self.entries)?;
        let last = self.entries.split_off(self.behind)?;
        self.origin = Snapshot::of(&self.past);
        self.skipped = last.len();
        self.published = self.skipped;
        self.taken = self.skipped;
        self.before -= self.behind;
        self.behind = 0;
        self.entries = last;
        self.base += count as u64;
        self.limit = self.limit.min((u64::MAX - self.base) as usize);
        Ok(())
    }

    /// Begins the journal, which must be empty, over another state and under another limit.
    pub(crate) fn reopen(&mut self, state: L, limit: usize) -> Result<(), NoMemory>
        requires { self.old.journal ≡ [] }
        ensures ok { OnOk result (self.new ≡ reopened (L.content state) limit self.old) }
        ensures err { OnErr result (self.new ≡ self.old) }
    {
        let past = state.copy()?;
        let shown = state.copy()?;
        self.origin = Snapshot::of(&state);
        self.past = past;
        self.shown = shown;
        self.other = state;
        self.entries = Vec::new(*self.entries.allocator());
        self.skipped = 0;
        self.behind = 0;
        self.before = 0;
        self.published = 0;
        self.taken = 0;
        self.limit = limit.min((u64::MAX - self.base) as usize);
        Ok(())
    }

    /// Returns how many entries the journal may contain.
    pub(crate) fn limit(&self) -> usize
        ensures { result ≡ self.now.limit }
    {
        self.limit
    }
}
