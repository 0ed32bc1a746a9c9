//! What serves the lines of a file: a session in its room.

ghost use Rattle.std.specs.Prelude.{◌≡◌, ℕ, List, length, false, IfOk, OnErr};
ghost use mathlib.Core.List.{IsPrefix};
ghost use Rattle.cq_atom.specs.Edit.{Edit as EditContent};
ghost use Rattle.cq_board.specs.Pool.{PoolRecord};
ghost use Rattle.cq_desk.specs.History.{edits_of};
ghost use Rattle.cq_desk.specs.Replies.{MatchEnd, journal_edits};
ghost use Rattle.cq_room.specs.Receipts.{IsReceipt};
ghost use Rattle.cq_sessions.specs.Steps.Sheets.{IsEven};
ghost use Rattle.cq_sessions.specs.Steps.Clients.{IsOpened, TakesEdits, IsSubmission, Submits, opened_pool};

use crate::fault::ServeFault;
use crate::sheet::Sheet;
use cq_atom::Edit;
use cq_board::{Board, Why};
use cq_desk::{End, Live, NoMemory, Reply};
use cq_room::{Pair, Receipt, Room, RoomName, Session};
use std::alloc::Allocator;
use std::marker::Model;
use std::mem;
use std::sync::Wait;

/// What a submit was answered: a reply for each edit, and how many entries are published.
#[derive(Drop)]
struct Submission<A: Allocator> {
    replies: Vec<Reply<Why>, A>,
    published: u64,
}

/// What submits edits to a board that others share, and looks at it.
pub(crate) trait Client<A: Allocator>: Drop {
    // The pool that the board began with, and how many entries its journal may hold.
    ghost opening: { PoolRecord };

    ghost limit: { ℕ };

    // The edits of the entries that the client has seen or heard of.
    ghost known: { Self → List EditContent };

    /// Submits the edits that wait, takes the replies down, and answers how many entries are published. It waits for those who
    /// submit before.
    fn submit(&mut self, sheet: &mut Sheet<A>) -> Result<u64, ServeFault>
        requires { IsEven sheet.old }
        ensures { IfOk result (λ published. Submits opening limit (known self.old) sheet.old (known self.new) sheet.new published) };

    /// Looks, and answers how many entries are shown.
    fn look(&mut self) -> Result<u64, ServeFault>
        ensures shown { IfOk result (λ count. count ≡ length (known self.new)) }
        ensures seen { IfOk result (λ count. IsPrefix (known self.old) (known self.new)) };
}

/// What all files share. The state of the room is a parameter, here and below, since what is known of a client over boards
/// themselves would be too much.
#[derive(Drop)]
pub(crate) struct Hall<
    'a,
    L: Live<Edit = Edit<A>, Why = Why, Content = Board>,
    N: RoomName<L::Content>,
    R: Wait + Drop,
    A: Allocator + Copy,
> {
    pub(crate) rt: &'a R,
    pub(crate) room: &'a Room<L, N, Pair<L, N, R, A>, A>,
}

/// A session at its place in a room. It is away only in the course of a look. Contracts see the edits of the entries
/// that it knows of.
#[derive(Drop)]
pub(crate) struct BoardClient<
    'a,
    L: Live<Edit = Edit<A>, Why = Why, Content = Board>,
    N: RoomName<L::Content>,
    R: Wait + Drop,
    A: Allocator + Copy,
> {
    hall: &'a Hall<'a, L, N, R, A>,
    session: Option<Session<L, N, A>>,
}

impl<
    'a,
    L: Live<Edit = Edit<A>, Why = Why, Content = Board>,
    N: RoomName<L::Content>,
    R: Wait + Drop,
    A: Allocator + Copy,
> Model for BoardClient<'a, L, N, R, A> {
    ghost use Rattle.std.specs.Prelude.{◌≡◌, List, false};
    ghost use Rattle.cq_atom.specs.Edit.{Edit as EditContent};
    ghost use Rattle.cq_sessions.specs.Steps.Clients.{known_in, IsSeated, IsOpened, TakesEdits};

    ghost Value = { List EditContent };

    ghost view = { λ c. known_in c.session };

    ghost invariant = { λ c. IsSeated c.session × IsOpened N.opening × (N.renews ≡ false) × TakesEdits L.after L.why };
}

impl<
    'a,
    L: Live<Edit = Edit<A>, Why = Why, Content = Board>,
    N: RoomName<L::Content>,
    R: Wait + Drop,
    A: Allocator + Copy,
> BoardClient<'a, L, N, R, A> {
    pub(crate) fn new(
        hall: &'a Hall<'a, L, N, R, A>,
        session: Session<L, N, A>,
    ) -> BoardClient<'a, L, N, R, A>
        requires opened { IsOpened N.opening }
        requires takes { TakesEdits L.after L.why }
        requires unrenewed { N.renews ≡ false }
        ensures { result ≡ journal_edits (edits_of session.history) }
    {
        BoardClient {
            hall,
            session: Some(session),
        }
    }

    /// The session.
    pub(crate) fn into_session(self) -> Session<L, N, A>
        ensures { journal_edits (edits_of result.history) ≡ self.entry }
    {
        let BoardClient { hall: _, session } = self;
        match session {
            Some(session) => session,
            None => unreachable!(),
        }
    }
}

/// What a receipt says, where all was published.
fn published<L: Live<Why = Why>, N: RoomName<L::Content>, A: Allocator + Copy>(
    receipt: Receipt<L, N, A>,
) -> Result<Submission<A>, ServeFault>
    ensures { IfOk result (λ submission. (submission.replies ≡ receipt.submitted.replies) × MatchEnd receipt.submitted.end (λ count. submission.published ≡ count) ⊥ ⊥) }
{
    let Receipt { submitted, front } = receipt;
    mem::drop(front);
    match submitted.end {
        End::Published(published) => Ok(Submission {
            replies: submitted.replies,
            published,
        }),
        End::Stopped | End::Unpublished => Err(ServeFault::NoMemory),
    }
}

/// Submits the edits by a session in its room.
fn submit_in<L: Live, N: RoomName<L::Content>, R: Wait + Drop, A: Allocator + Copy>(
    rt: &R,
    room: &Room<L, N, Pair<L, N, R, A>, A>,
    session: &mut Session<L, N, A>,
    asked: Vec<L::Edit, A>,
) -> Result<Receipt<L, N, A>, NoMemory>
    ensures receipt { IfOk result (λ receipt. IsReceipt L.after L.why N.opening N.limit N.renews session.old session.new asked.items receipt.submitted.replies.items receipt.submitted.end receipt.front) }
    ensures err { OnErr result (session.new ≡ session.old) }
{
    session.submit(rt, room, asked)
}

/// Submits the edits by the session.
fn submit_by<
    L: Live<Edit = Edit<A>, Why = Why, Content = Board>,
    N: RoomName<L::Content>,
    R: Wait + Drop,
    A: Allocator + Copy,
>(
    hall: &Hall<'_, L, N, R, A>,
    session: &mut Session<L, N, A>,
    asked: Vec<Edit<A>, A>,
) -> Result<Submission<A>, ServeFault>
    requires opened { IsOpened N.opening }
    requires takes { TakesEdits L.after L.why }
    requires unrenewed { N.renews ≡ false }
    ensures { IfOk result (λ submission. IsSubmission (opened_pool N.opening) N.limit (journal_edits (edits_of session.old.history)) (journal_edits (edits_of session.new.history)) asked.items submission.replies.items submission.published) }
{
    let receipt = match submit_in(hall.rt, hall.room, session, asked) {
        Ok(receipt) => receipt,
        Err(_) => return Err(ServeFault::NoMemory),
    };
    published(receipt)
}

/// Submits the edits that wait by the session, and takes the replies down.
fn submit_waiting<
    L: Live<Edit = Edit<A>, Why = Why, Content = Board>,
    N: RoomName<L::Content>,
    R: Wait + Drop,
    A: Allocator + Copy,
>(
    hall: &Hall<'_, L, N, R, A>,
    session: &mut Session<L, N, A>,
    sheet: &mut Sheet<A>,
) -> Result<u64, ServeFault>
    requires opened { IsOpened N.opening }
    requires takes { TakesEdits L.after L.why }
    requires unrenewed { N.renews ≡ false }
    requires even { IsEven sheet.old }
    ensures { IfOk result (λ published. Submits (opened_pool N.opening) N.limit (journal_edits (edits_of session.old.history)) sheet.old (journal_edits (edits_of session.new.history)) sheet.new published) }
{
    let submission = submit_by(hall, session, sheet.take())?;
    sheet.end(&submission.replies)?;
    sheet.take_down(&submission.replies)?;
    Ok(submission.published)
}

impl<
    'a,
    L: Live<Edit = Edit<A>, Why = Why, Content = Board>,
    N: RoomName<L::Content>,
    R: Wait + Drop,
    A: Allocator + Copy,
> Client<A> for BoardClient<'a, L, N, R, A> {
    ghost opening = { opened_pool N.opening };

    ghost limit = { N.limit };

    ghost known = { λ client. client };

    fn submit(&mut self, sheet: &mut Sheet<A>) -> Result<u64, ServeFault>
        requires { IsEven sheet.old }
        ensures { IfOk result (λ published. Submits (opened_pool N.opening) N.limit self.old sheet.old self.new sheet.new published) }
    {
        let Some(session) = &mut self.session else {
            unreachable!()
        };
        submit_waiting(self.hall, session, sheet)
    }

    fn look(&mut self) -> Result<u64, ServeFault>
        ensures shown { IfOk result (λ count. count ≡ length self.new) }
        ensures seen { IfOk result (λ count. IsPrefix self.old self.new) }
    {
        let Some(session) = self.session.take() else {
            unreachable!()
        };
        match session.watch() {
            Ok(look) => {
                let count = look.count();
                mem::drop(self.session.replace(look.leave()));
                Ok(count)
            }
            Err(session) => {
                mem::drop(self.session.replace(session));
                Err(ServeFault::Places)
            }
        }
    }
}
