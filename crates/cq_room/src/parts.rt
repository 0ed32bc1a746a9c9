//! How a room is begun, opened and closed.

ghost use Rattle.std.specs.Prelude.{◌≡◌, ◌<◌, ◌≤◌, ◌+◌, if◌then◌else◌, [], ◌∷◌, IfOk, IfErr, All, length, MatchBool, MatchResult, ⊤};
ghost use mathlib.Core.List.{IsPrefix};
ghost use Rattle.cq_desk.specs.History.{edits_of};
ghost use Rattle.cq_desk.specs.Replies.{AreAccepted, journal_edits};
ghost use Rattle.cq_room.specs.Faults.{IsBeginFault, IsOpenFault};
ghost use Rattle.cq_room.specs.Marks.{entries_in};
ghost use Rattle.cq_room.specs.Sessions.{newcomers};
ghost use Rattle.cq_room.specs.declared.parts.RoomFault.TheVariants as faults;

use crate::book::Opened;
use crate::names::{JournalOf, RoomName};
use crate::pair::Pair;
use crate::room::{LockedDesk, Room, Watched, knows};
use crate::session::Session;
use crate::trail::Trail;
use cq_desk::{Desk, Live, NoMemory};
use std::alloc::{AllocError, Allocator, Global};
use std::marker::{Brand, Model};
use std::sync::Wait;
use thiserror::Error;

/// Why a room is not opened.
#[derive(Clone, Copy, Debug, PartialEq, Eq, Error)]
pub enum RoomFault {
    /// There are 1 to 16 sessions.
    #[error("there must be 1 to 16 sessions")]
    Sessions,
    /// A session got no place among the readers.
    #[error("no place for a session")]
    Places,
    /// An allocation failed.
    #[error("out of memory")]
    NoMemory,
}

impl From<NoMemory> for RoomFault {
    ghost from_gives = { λ _ fault. fault ≡ faults.NoMemory };

    fn from(_e: NoMemory) -> RoomFault {
        RoomFault::NoMemory
    }
}

impl From<AllocError> for RoomFault {
    ghost from_gives = { λ _ fault. fault ≡ faults.NoMemory };

    fn from(_e: AllocError) -> RoomFault {
        RoomFault::NoMemory
    }
}

/// A room that has no name yet. Contracts see the histories, the opening content, the journal's limit
/// and the number of sessions.
#[derive(Drop)]
pub struct Parts<L: Live, R: Wait + Drop, A: Allocator = Global> {
    rt: R,
    alloc: A,
    working: L,
    first: L,
    second: L,
    opened: Opened<L>,
    entered: Opened<L>,
    limit: usize,
    sessions: usize,
}

impl<L: Live, R: Wait + Drop, A: Allocator> Model for Parts<L, R, A> {
    ghost use Rattle.std.specs.Prelude.{◌≡◌, ◌<◌, ◌≤◌};
    ghost use Rattle.cq_room.specs.Parts.{PartsRecord};

    ghost Value = { PartsRecord L.Content };

    ghost view = { λ p. record { book = (p.opened.seen.book, p.entered.seen.book); opening = L.content p.working; limit = p.limit; sessions = p.sessions } };

    ghost invariant = { λ p. (L.content p.first ≡ L.content p.working) × (L.content p.second ≡ L.content p.working) × (0 < p.sessions) × (p.sessions ≤ 16) };
}

impl<L: Live, R: Wait + Drop, A: Allocator + Copy> Room<L, Brand, Pair<L, Brand, R, A>, A> {
    /// The parts of a room over the state, with a journal that may hold so many entries and so many
    /// sessions. Later allocations are the allocator's too. It takes two copies of the state.
    ///
    /// # Errors
    /// `Sessions` where there are not 1 to 16, before anything else; `NoMemory` where an allocation
    /// failed.
    pub fn begin(
        rt: R,
        alloc: A,
        state: L,
        journal: usize,
        sessions: usize,
    ) -> Result<Parts<L, R, A>, RoomFault>
        ensures opening { IfOk result (λ parts. parts.opening ≡ L.content state) }
        ensures limit { IfOk result (λ parts. parts.limit ≡ journal) }
        ensures sessions { IfOk result (λ parts. (parts.sessions ≡ sessions) × (0 < sessions) × (sessions ≤ 16)) }
        ensures fault { IfErr result (λ fault. IsBeginFault sessions fault) }
    {
        if !(1..=16).contains(&sessions) {
            return Err(RoomFault::Sessions);
        }
        let first = state.copy()?;
        let second = state.copy()?;
        Ok(Parts {
            rt,
            alloc,
            working: state,
            first,
            second,
            opened: Opened::new(),
            entered: Opened::new(),
            limit: journal,
            sessions,
        })
    }
}

/// Sessions with the numbers from 0 on.
fn seats<L: Live, N: RoomName<L::Content>, R: Wait + Drop, A: Allocator + Copy>(
    alloc: A,
    pair: &Pair<L, N, R, A>,
    entered: &Trail<L, JournalOf<N>>,
    sessions: usize,
) -> Result<Vec<Session<L, N, A>, A>, RoomFault>
    requires shown { pair.now.shown ≡ [] }
    requires entered { entered.now ≡ [] }
    ensures { MatchResult result (λ seated. seated.items ≡ newcomers sessions) (λ fault. IsOpenFault fault) }
{
    let mut seated = Vec::new(alloc);
    if seated.reserve(sessions).is_err() {
        return Err(RoomFault::NoMemory);
    }
    for number in 0..sessions {
        match pair.session(entered, number) {
            Ok(session) => seated.push_reserved(session),
            Err(_) => return Err(RoomFault::Places),
        }
    }
    Ok(seated)
}

impl<L: Live, R: Wait + Drop, A: Allocator + Copy> Parts<L, R, A> {
    /// Puts the parts together under a name: a room and its sessions, numbered from 0, all of which
    /// have seen nothing.
    ///
    /// # Errors
    /// `Places` where a session got no place among the readers, which never happens; `NoMemory` where
    /// an allocation failed. The parts are dropped then.
    pub fn open<N: RoomName<L::Content>>(
        self,
    ) -> Result<(Room<L, N, Pair<L, N, R, A>, A>, Vec<Session<L, N, A>, A>), RoomFault>
        requires book { self.book ≡ N.book }
        requires opening { N.opening ≡ self.opening ∷ [] }
        requires limit { N.limit ≡ self.limit }
        ensures sessions { IfOk result (λ opened. opened.1.items ≡ newcomers self.sessions) }
        ensures fault { IfErr result (λ fault. IsOpenFault fault) }
    {
        let Parts {
            rt,
            alloc,
            working,
            first,
            second,
            opened,
            entered,
            limit,
            sessions,
        } = self;
        let (book, trail) = opened.named::<N>();
        let (entries, entered) = entered.named::<JournalOf<N>>();
        let Ok(pair) = Pair::begin(rt, alloc, first, second, book, trail, sessions) else {
            return Err(RoomFault::NoMemory);
        };
        let seated = seats(alloc, &pair, &entered, sessions)?;
        let desk = Desk::begin(alloc, working, pair, limit);
        let room = Room::over(desk, entries, entered);
        Ok((room, seated))
    }
}

/// Whether the journal begins with what each session has seen and with what it knows of. It always does.
fn knows_all<L: Live, N: RoomName<L::Content>, P: Watched<L, N>, A: Allocator + Copy>(
    desk: &Desk<L, P, A>,
    entered: &Trail<L, JournalOf<N>>,
    sessions: &[Session<L, N, A>],
) -> bool
where
    P::Leave: Wait,
    requires { IsPrefix (entries_in entered.now) desk.now.journal }
    ensures { MatchBool result (All (λ session. IsPrefix (edits_of session.history) desk.now.journal × IsPrefix session.known desk.now.journal) sessions.now) ⊤ }
{
    for session in sessions {
        if !knows(desk, entered, session) {
            return false;
        }
    }
    true
}

/// Returns where the journal begins with what each session has seen and knows of, which is always so.
fn await_all<L: Live, N: RoomName<L::Content>, P: Watched<L, N>, A: Allocator + Copy>(
    rt: &P::Leave,
    desk: &Desk<L, P, A>,
    entered: &Trail<L, JournalOf<N>>,
    sessions: &[Session<L, N, A>],
)
where
    P::Leave: Wait,
    requires { IsPrefix (entries_in entered.now) desk.now.journal }
    ensures { All (λ session. IsPrefix (edits_of session.history) desk.now.journal × IsPrefix session.known desk.now.journal) sessions.now }
{
    if knows_all(desk, entered, sessions) {
        return;
    }
    for _ in rt.forever() {}
    unreachable!()
}

impl<L: Live, N: RoomName<L::Content>, P: Watched<L, N>, A: Allocator + Copy> Room<L, N, P, A>
where
    P::Leave: Wait,
{
    /// Ends the room, and gives its desk back. Its journal begins with what each session has seen and
    /// knows of: with its own entries under its number, published or not. Sessions that are not handed in go on with what is
    /// shown, until the desk is dropped.
    pub fn close(self, rt: &P::Leave, sessions: Vec<Session<L, N, A>, A>) -> Desk<L, P, A>
        ensures opening { P.opening result.publisher ∷ [] ≡ N.opening }
        ensures limit { result.limit ≡ N.limit }
        ensures seen { All (λ session. IsPrefix (edits_of session.history) result.journal) sessions.items }
        ensures known { All (λ session. IsPrefix session.known result.journal) sessions.items }
        ensures accepted { AreAccepted L.after L.why (P.opening result.publisher) (journal_edits result.journal) }
        ensures base { result.base ≤ (if N.renews then length result.journal else 0) }
        ensures within { length result.journal ≤ result.base + result.limit }
    {
        let Room { lock } = self;
        let LockedDesk {
            desk,
            entries: _entries,
            entered,
            of: _,
        } = lock.into_inner();
        await_all(rt, &desk, &entered, sessions.as_slice());
        let _ = desk.journal();
        desk
    }
}
