//! A room: a desk under one lock, and sessions that look at what it publishes.

ghost use Rattle.std.specs.Prelude.{◌≡◌, ◌≤◌, ◌<◌, [], ◌∷◌, ◌++◌, length, None, true, IfOk, OnOk, OnErr, MatchBool, MatchOption, ⊤};
ghost use mathlib.Core.List.{IsPrefix};
ghost use Rattle.cq_desk.specs.History.{edits_of};
ghost use Rattle.cq_desk.specs.Replies.{MatchEnd, accepted, entries_by};
ghost use Rattle.cq_desk.specs.Submission.{AreTried};
ghost use Rattle.cq_room.specs.Marks.{entries_in};
ghost use Rattle.cq_room.specs.Receipts.{AreReplies, IsPassedBy};
ghost use Rattle.cq_room.specs.Steps.Receipts.{IsPublished};

use crate::book::Book;
use crate::front::Front;
use crate::names::{JournalOf, RoomName};
use crate::session::Session;
use crate::trail::{MOST, Trail};
use cq_desk::{Checkpoint, CheckpointFault, Desk, End, Live, NoMemory, Publisher, Submitted};
use std::alloc::{Allocator, Global};
use std::marker::{Model, PhantomData};
use std::sync::{Mutex, Wait};

/// A publisher that sessions look at, and whose history they know.
pub trait Watched<L: Live, N: RoomName<L::Content>>: Publisher<L>
where
    Self::Leave: Wait,
{
    /// The trail of the whole history.
    fn logged(&self) -> &Trail<L, N>
        ensures { entries_in result.now ≡ edits_of (Self.history self.now) ++ Self.pending self.now };

    /// A front with the publications that are shown.
    fn front(&self) -> Front<L, N>
        ensures { result ≡ Self.shown self.now };
}

/// What lies under the lock. Contracts see the journal, what is shown, and how many entries came before the last checkpoint. That the
/// room's name names the opening content and the limit, that the trail of what is entered has the whole journal, and that no checkpoint
/// was made if the room's owner makes none, stands in this type.
#[derive(Drop)]
pub struct LockedDesk<L: Live, N: RoomName<L::Content>, P: Publisher<L>, A: Allocator = Global> {
    pub(crate) desk: Desk<L, P, A>,
    pub(crate) entries: Book<L, JournalOf<N>>,
    pub(crate) entered: Trail<L, JournalOf<N>>,
    pub(crate) of: PhantomData<N>,
}

impl<L: Live, N: RoomName<L::Content>, P: Publisher<L>, A: Allocator> Model
    for LockedDesk<L, N, P, A> {
    ghost use Rattle.std.specs.Prelude.{◌≡◌, ◌≤◌, ◌∷◌, [], length, if◌then◌else◌};
    ghost use Rattle.cq_room.specs.Marks.{entries_in};
    ghost use Rattle.cq_room.specs.Steps.Room.{LockedRecord};

    ghost Value = { LockedRecord L.Edit };

    ghost view = { λ k. record { journal = k.desk.journal; shown = P.shown k.desk.publisher; base = k.desk.base } };

    ghost invariant = { λ k. (P.opening k.desk.publisher ∷ [] ≡ N.opening) × (k.desk.limit ≡ N.limit) × (entries_in k.entered ≡ k.desk.journal) × (k.desk.base ≤ (if N.renews then length k.desk.journal else 0)) };
}

/// What the sessions of a room share: the desk, under one lock. A look takes no part in the lock.
#[derive(Drop)]
pub struct Room<L: Live, N: RoomName<L::Content>, P: Publisher<L>, A: Allocator = Global> {
    pub(crate) lock: Mutex<LockedDesk<L, N, P, A>>,
}

/// The replies to a list of edits, how it ended, and what other sessions can hear of it.
#[derive(Drop)]
pub struct Receipt<L: Live, N: RoomName<L::Content>, A: Allocator = Global> {
    /// The replies in the order of the edits, and the end.
    pub submitted: Submitted<L::Why, A>,
    /// What is published now. It is there exactly where the end is `Published`.
    pub front: Option<Front<L, N>>,
}

impl<L: Live, N: RoomName<L::Content>, P: Publisher<L>, A: Allocator> Room<L, N, P, A> {
    /// A room over the desk.
    pub(crate) fn over(
        desk: Desk<L, P, A>,
        entries: Book<L, JournalOf<N>>,
        entered: Trail<L, JournalOf<N>>,
    ) -> Room<L, N, P, A>
        requires opening { P.opening desk.publisher ∷ [] ≡ N.opening }
        requires limit { desk.limit ≡ N.limit }
        requires entered { entered ≡ [] }
        requires journal { desk.journal ≡ [] }
        requires base { desk.base ≡ 0 }
    {
        Room {
            lock: Mutex::new(LockedDesk {
                desk,
                entries,
                entered,
                of: PhantomData,
            }),
        }
    }
}

/// Whether the journal begins with what the session has seen and with what it knows of, authors
/// included. It always does.
pub(crate) fn knows<L: Live, N: RoomName<L::Content>, P: Watched<L, N>, A: Allocator + Copy>(
    desk: &Desk<L, P, A>,
    entered: &Trail<L, JournalOf<N>>,
    session: &Session<L, N, A>,
) -> bool
where
    P::Leave: Wait,
    requires { IsPrefix (entries_in entered.now) desk.now.journal }
    ensures { MatchBool result (IsPrefix (edits_of session.now.history) desk.now.journal × IsPrefix session.now.known desk.now.journal) ⊤ }
{
    session.is_in(entered) && session.is_behind(desk.publisher().logged())
}

/// Takes note of the entries that the trail lacks, and says whether it has all. It always does.
fn catch_up<L: Live, N: RoomName<L::Content>, P: Publisher<L>, A: Allocator + Copy>(
    entered: &mut Trail<L, JournalOf<N>>,
    entries: &Book<L, JournalOf<N>>,
    desk: &Desk<L, P, A>,
) -> bool
    requires begins { IsPrefix (entries_in entered.old) desk.now.journal }
    requires base { desk.now.base ≤ length (entries_in entered.old) }
    ensures begins { IsPrefix (entries_in entered.new) desk.now.journal }
    ensures all { MatchBool result (entries_in entered.new ≡ desk.now.journal) ⊤ }
{
    let base = desk.base();
    let journal = desk.journal();
    for place in (entered.count() - base) as usize..journal.len() {
        if entered.entries() >= MOST || !entered.enter(entries, &journal[place]) {
            return false;
        }
    }
    true
}

/// Returns where the trail has all entries of the journal, which is always so.
fn await_entries<L: Live, N: RoomName<L::Content>, P: Publisher<L>, A: Allocator + Copy, R: Wait>(
    rt: &R,
    entered: &mut Trail<L, JournalOf<N>>,
    entries: &Book<L, JournalOf<N>>,
    desk: &Desk<L, P, A>,
)
    requires begins { IsPrefix (entries_in entered.old) desk.now.journal }
    requires base { desk.now.base ≤ length (entries_in entered.old) }
    ensures { entries_in entered.new ≡ desk.now.journal }
{
    if catch_up(entered, entries, desk) {
        return;
    }
    for _ in rt.forever() {}
    unreachable!()
}

impl<L: Live, N: RoomName<L::Content>, P: Watched<L, N>, A: Allocator + Copy> LockedDesk<L, N, P, A>
where
    P::Leave: Wait,
{
    /// Returns where the journal begins with what the session has seen and knows of, which is always so.
    fn await_known(&self, rt: &P::Leave, session: &Session<L, N, A>)
        ensures seen { IsPrefix (edits_of session.now.history) self.now.journal }
        ensures known { IsPrefix session.now.known self.now.journal }
    {
        if knows(&self.desk, &self.entered, session) {
            return;
        }
        for _ in rt.forever() {}
        unreachable!()
    }

    /// A front with what is shown, where that was published.
    fn front_at(&self, end: End) -> Option<Front<L, N>>
        ensures { MatchEnd end (λ _. MatchOption result ⊥ (λ front. front ≡ self.now.shown)) (result ≡ None) (result ≡ None) }
    {
        match end {
            End::Published(_) => Some(self.desk.publisher().front()),
            End::Stopped => None,
            End::Unpublished => None,
        }
    }

    /// Enters edits one after another, passes the checkpoint, publishes, and makes a front. The session
    /// takes note of all that is entered.
    pub(crate) fn submit_past<G: Checkpoint>(
        &mut self,
        rt: &P::Leave,
        session: &mut Session<L, N, A>,
        asked: Vec<L::Edit, A>,
        gate: &mut G,
    ) -> Result<Receipt<L, N, A>, NoMemory>
        ensures seen { IfOk result (λ _. IsPrefix (edits_of session.old.history) self.old.journal) }
        ensures known { IfOk result (λ _. IsPrefix session.old.known self.old.journal) }
        ensures session { IfOk result (λ _. session.new ≡ record session.old { known = self.new.journal }) }
        ensures replies { IfOk result (λ receipt. AreReplies L.after L.why N.opening N.limit N.renews self.old.journal asked.items receipt.submitted.replies.items) }
        ensures journal { IfOk result (λ receipt. self.new.journal ≡ self.old.journal ++ entries_by session.old.number (accepted asked.items receipt.submitted.replies.items)) }
        ensures base { IfOk result (λ _. self.new.base ≡ self.old.base) }
        ensures tried { IfOk result (λ receipt. AreTried receipt.submitted.end asked.items receipt.submitted.replies.items) }
        ensures front { IfOk result (λ receipt. MatchEnd receipt.submitted.end
            (λ count. MatchOption receipt.front ⊥ (λ front. IsPublished self.old.journal session.old.number asked.items receipt.submitted.replies.items count front))
            (receipt.front ≡ None)
            (receipt.front ≡ None)) }
        ensures passed { IfOk result (λ receipt. IsPassedBy G.passed gate.old gate.new receipt.submitted.end (length (accepted asked.items receipt.submitted.replies.items))) }
        ensures err { OnErr result (self.new ≡ self.old) }
        ensures kept { OnErr result (session.new ≡ session.old) }
        ensures unpassed { OnErr result (gate.new ≡ gate.old) }
    {
        self.await_known(rt, session);
        let _ = self.desk.publisher();
        let submitted = self.desk.submit_past(session.number(), asked, rt, gate)?;
        await_entries(rt, &mut self.entered, &self.entries, &self.desk);
        session.learn(&self.entered);
        let front = self.front_at(submitted.end);
        Ok(Receipt { submitted, front })
    }

    /// Has the session take note of all that is entered.
    pub(crate) fn tell(&self, rt: &P::Leave, session: &mut Session<L, N, A>)
        ensures session { session.new ≡ record session.old { known = self.now.journal } }
        ensures seen { IsPrefix (edits_of session.old.history) self.now.journal }
        ensures knew { IsPrefix session.old.known self.now.journal }
    {
        self.await_known(rt, session);
        session.learn(&self.entered)
    }

    /// Makes a checkpoint of the desk.
    pub(crate) fn checkpoint(&mut self) -> Result<u64, CheckpointFault>
        requires { N.renews ≡ true }
        ensures ok { OnOk result (self.new ≡ record self.old { base = length self.old.journal }) }
        ensures count { IfOk result (λ count. count ≡ length self.old.journal) }
        ensures published { OnOk result (edits_of self.old.shown ≡ self.old.journal) }
        ensures err { OnErr result (self.new ≡ self.old) }
        ensures unpublished { OnErr result (length (edits_of self.old.shown) < length self.old.journal) }
    {
        self.desk.checkpoint()
    }
}
