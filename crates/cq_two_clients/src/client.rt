//! What a client does with its session.

use crate::fault::Fault;
use cq_atom::{Edit, EditKind, Name};
use cq_board::{Board, Why};
use cq_desk::{Live, Reply};
use cq_room::{Front, Pair, Receipt, Room, RoomName, Session};
use cq_text::{Form, read_ground_atom, read_query};
use std::alloc::Global;
use std::sync::Wait;
use std::thread::{Threads, join};

/// What is asked of the state that the clients share. It stands as a parameter, here and below: what is known of a session or
/// a room over a board itself would be too much for the prover.
pub trait Shared: Live<Edit = Edit, Why = Why> {
    /// Whether the query of that name is matched, in a word.
    fn standing(&self, name: &Name) -> &'static str;

    /// How many groundings the query of that name has.
    fn groundings(&self, name: &Name) -> usize;
}

impl Shared for Board {
    fn standing(&self, name: &Name) -> &'static str {
        match self.is_matched(name) {
            Some(true) => "matched",
            Some(false) => "waiting",
            None => "absent",
        }
    }

    fn groundings(&self, name: &Name) -> usize {
        Board::groundings(self, name).map_or(0, |found| found.count())
    }
}

/// A room over such a state.
pub type SharedRoom<L, N, R> = Room<L, N, Pair<L, N, R>>;

/// The insertion of the row that the text stands for.
pub fn insertion(alloc: Global, row: &str) -> Result<Edit, Fault> {
    let row = read_ground_atom(alloc, row.as_bytes(), Form::One)?;
    Ok(EditKind::Insert { row })
}

/// The posting of the query that the text stands for.
fn posting(alloc: Global, name: &str, query: &str) -> Result<Edit, Fault> {
    let query = read_query(alloc, query.as_bytes(), Form::One)?;
    let name = Name::new(alloc, name)?;
    Ok(EditKind::Post { name, query })
}

fn is_entered<W>(reply: &Reply<W>) -> bool {
    matches!(reply, Reply::Entered(_))
}

fn are_entered<W>(replies: &[Reply<W>]) -> bool {
    replies.iter().all(is_entered)
}

/// The front of a submit of which nothing was refused.
fn front_of<L: Live, N: RoomName<L::Content>>(
    receipt: Receipt<L, N>,
) -> Result<Front<L, N>, Fault> {
    let Receipt { submitted, front } = receipt;
    let Some(front) = front else {
        return Err(Fault::Unpublished);
    };
    if are_entered(&submitted.replies) {
        Ok(front)
    } else {
        Err(Fault::Refused)
    }
}

/// Submits the edits, and gives the front to hand on to others.
pub fn submit<L: Live, N: RoomName<L::Content>, R: Wait + Drop>(
    rt: &R,
    room: &SharedRoom<L, N, R>,
    session: &mut Session<L, N>,
    asked: Vec<L::Edit>,
) -> Result<Front<L, N>, Fault> {
    front_of(session.submit(rt, room, asked)?)
}

/// Posts the query that the text stands for.
fn post<L: Shared, N: RoomName<L::Content>, R: Wait + Drop>(
    rt: &R,
    alloc: Global,
    room: &SharedRoom<L, N, R>,
    session: &mut Session<L, N>,
    name: &str,
    query: &str,
) -> Result<Front<L, N>, Fault> {
    let mut asked = Vec::new(alloc);
    asked.push(posting(alloc, name, query)?)?;
    submit(rt, room, session, asked)
}

/// A client that posts one query. It owns its session and borrows the room, so it can run in a thread.
#[derive(Drop)]
pub struct Client<'a, L: Shared, N: RoomName<L::Content>, R: Wait + Drop> {
    pub rt: &'a R,
    pub alloc: Global,
    pub room: &'a SharedRoom<L, N, R>,
    pub session: Session<L, N>,
    pub name: &'static str,
    pub query: &'static str,
}

impl<
    'a,
    L: Shared + Send + Sync,
    N: RoomName<L::Content> + Send + Sync,
    R: Wait + Drop + Send + Sync,
> Client<'a, L, N, R> {
    /// Posts the query, and gives the front.
    fn run(self) -> Result<Front<L, N>, Fault> {
        let Client {
            rt,
            alloc,
            room,
            mut session,
            name,
            query,
        } = self;
        post(rt, alloc, room, &mut session, name, query)
    }
}

/// Runs both clients, each in a thread, and gives the fronts that the joins hand back.
pub fn run_both<
    L: Shared + Send + Sync,
    N: RoomName<L::Content> + Send + Sync,
    R: Wait + Drop + Send + Sync,
    T: Threads,
>(
    threads: &T,
    one: Client<'_, L, N, R>,
    other: Client<'_, L, N, R>,
) -> Result<(Front<L, N>, Front<L, N>), Fault> {
    let (one, other) = join(threads, || one.run(), || other.run());
    Ok((one?, other?))
}
