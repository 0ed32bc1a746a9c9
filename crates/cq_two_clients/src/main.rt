//! Two clients over one board, each in a thread of its own: a program for someone who writes a client.
//!
//! Three sessions sit in a room over a board with the relation `Flights`. The airline inserts two flights to Paris.
//! Kramer and Jerry then post, each in a thread, that they fly to Paris if the other is on the same flight. What a
//! submit tells them, a front, comes back by the join, and the airline's session hears both. So what it looks at has
//! both postings, whichever came first, and the program writes what it sees.
//!
//! `docs/rooms.md` tells all calls of a room with their promises, and walks through this program.
#![tactic(auto)]

ghost use Rattle.std.specs.Prelude.{◌≡◌, ◌∷◌, []};

mod client;
mod fault;

use crate::client::{Client, Shared, SharedRoom, insertion, run_both, submit};
use crate::fault::Fault;
use cq_atom::{Edit, Name};
use cq_board::{Board, Limits};
use cq_rel::Catalog;
use cq_room::{Parts, Room, RoomName, Session};
use std::alloc::Global;
use std::marker::Brand;
use std::process::ExitCode;
use std::sync::Wait;
use std::thread::Threads;

/// The exit status where the work could not be done.
const CANNOT: u8 = 70;

/// A board with the relation `Flights` of flights and where they go.
fn board(alloc: Global) -> Result<Board, Fault> {
    let limits = Limits {
        pool: 10,
        journal: 10,
    };
    let mut catalog = Catalog::empty(alloc);
    catalog.declare("Flights", 2)?;
    Ok(Board::begin(alloc, catalog, limits)?)
}

/// The parts of a room with three sessions.
fn parts<R: Wait + Drop>(rt: R, alloc: Global) -> Result<Parts<Board, R>, Fault> {
    let board = board(alloc)?;
    let journal = board.limits().journal;
    Ok(Room::begin(rt, alloc, board, journal, 3)?)
}

/// The insertions of two flights to Paris.
fn flights(alloc: Global) -> Result<Vec<Edit>, Fault> {
    let mut edits = Vec::new(alloc);
    edits.push(insertion(alloc, "Flights(122, Paris)")?)?;
    edits.push(insertion(alloc, "Flights(123, Paris)")?)?;
    Ok(edits)
}

/// Runs Kramer and Jerry in threads, and lets the airline hear what each of them was told.
fn post_both<
    L: Shared + Send + Sync,
    N: RoomName<L::Content> + Send + Sync,
    R: Wait + Drop + Send + Sync,
    T: Threads,
>(
    threads: &T,
    rt: &R,
    alloc: Global,
    room: &SharedRoom<L, N, R>,
    airline: &mut Session<L, N>,
    kramer: Session<L, N>,
    jerry: Session<L, N>,
) -> Result<(), Fault> {
    let kramer = Client {
        rt,
        alloc,
        room,
        session: kramer,
        name: "kramer",
        query: "{R(Jerry, x)} R(Kramer, x) <- Flights(x, Paris)",
    };
    let jerry = Client {
        rt,
        alloc,
        room,
        session: jerry,
        name: "jerry",
        query: "{R(Kramer, y)} R(Jerry, y) <- Flights(y, Paris)",
    };
    let (kramer, jerry) = run_both(threads, kramer, jerry)?;
    airline.hear(&kramer);
    airline.hear(&jerry);
    Ok(())
}

/// Writes whether the query of that name is matched, and how many groundings it has.
fn show_query<L: Shared, T: Print>(
    out: &T,
    alloc: Global,
    state: &L,
    name: &str,
) -> Result<(), Fault> {
    let named = Name::new(alloc, name)?;
    let standing = state.standing(&named);
    let groundings = state.groundings(&named);
    match println!(out; "{name} {standing} groundings {groundings}") {
        Ok(()) => Ok(()),
        Err(_) => Err(Fault::Write),
    }
}

/// Writes how many edits a look shows, and the two queries, in an order that no thread decides.
fn show<L: Shared, T: Print>(out: &T, alloc: Global, count: u64, state: &L) -> Result<(), Fault> {
    if println!(out; "edits {count}").is_err() {
        return Err(Fault::Write);
    }
    show_query(out, alloc, state, "jerry")?;
    show_query(out, alloc, state, "kramer")
}

/// Looks, and writes what there is to see.
fn look<L: Shared, N: RoomName<L::Content>, T: Print>(
    out: &T,
    alloc: Global,
    session: Session<L, N>,
) -> Result<(), Fault> {
    match session.watch() {
        Ok(look) => show(out, alloc, look.count(), look.state()),
        Err(_) => Err(Fault::Gone),
    }
}

/// The seats of the airline, Kramer and Jerry, which are those with the numbers 0, 1 and 2.
fn seats<S: Drop>(mut sessions: Vec<S>) -> Option<(S, S, S)> {
    let jerry = sessions.pop()?;
    let kramer = sessions.pop()?;
    let airline = sessions.pop()?;
    Some((airline, kramer, jerry))
}

/// What happens in the open room.
fn meet<
    L: Shared + Send + Sync,
    N: RoomName<L::Content> + Send + Sync,
    R: Wait + Drop + Send + Sync,
    T: Threads + Print,
>(
    host: &T,
    rt: &R,
    alloc: Global,
    room: &SharedRoom<L, N, R>,
    sessions: Vec<Session<L, N>>,
) -> Result<(), Fault> {
    let Some((mut airline, kramer, jerry)) = seats(sessions) else {
        return Err(Fault::Gone);
    };
    submit(rt, room, &mut airline, flights(alloc)?)?;
    post_both(host, rt, alloc, room, &mut airline, kramer, jerry)?;
    look(host, alloc, airline)
}

/// Opens the room under the name.
fn open<
    L: Shared + Send + Sync,
    N: RoomName<L::Content> + Send + Sync,
    R: Wait + Drop + Send + Sync,
    T: Threads + Print,
>(host: &T, rt: &R, alloc: Global, parts: Parts<L, R>) -> Result<(), Fault>
    requires book { parts.book ≡ N.book }
    requires opening { N.opening ≡ parts.opening ∷ [] }
    requires limit { N.limit ≡ parts.limit }
{
    let (room, sessions) = parts.open::<N>()?;
    meet(host, rt, alloc, &room, sessions)
}

/// How the program ends, with a line on standard error where it could not do its work.
fn status<T: Eprint>(errors: &T, ended: Result<(), Fault>) -> ExitCode {
    match ended {
        Ok(()) => ExitCode::SUCCESS,
        Err(fault) => {
            let _ = eprintln!(errors; "two_clients: {fault}");
            ExitCode::from(CANNOT)
        }
    }
}

fn main(rt: HostRuntime) -> ExitCode {
    let handle = &rt;
    match parts(handle, rt.alloc()) {
        Ok(parts) => status(
            &rt,
            open::<Board, Brand, _, _>(&rt, &handle, rt.alloc(), parts),
        ),
        Err(fault) => status(&rt, Err(fault)),
    }
}
