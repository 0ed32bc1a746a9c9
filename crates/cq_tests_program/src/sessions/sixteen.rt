//! Sixteen sessions in threads.

ghost use Rattle.std.specs.Prelude.{◌≡◌, ◌∷◌, []};

use crate::sessions::boards::{LIMITS, Posted, board};
use crate::sessions::jobs::run_all;
use crate::sessions::judged::{Finding, judge};
use crate::sessions::record::Record;
use crate::sessions::rooms::Place;
use crate::sessions::seats::{Around, Notice, Seat};
use cq_atom::Edit;
use cq_desk::Entry;
use cq_room::{Front, Parts, Room, RoomName, Session, Watched};
use std::alloc::{AllocError, Global};
use std::marker::Brand;
use std::mem::drop;
use std::sync::Wait;
use std::thread::Threads;

/// A seat for each session.
fn seats<'a, L: Posted, N: RoomName<L::Content>, R: Wait + Drop>(
    around: &'a Around<'a, Front<L, N>, Place<'a, L, N, R>, R>,
    sessions: Vec<Session<L, N>>,
) -> Result<Vec<Seat<'a, L, N, R>>, AllocError> {
    let mut seats = Vec::new(around.alloc);
    for session in sessions {
        seats.push(Seat { around, session })?;
    }
    Ok(seats)
}

/// The records of the sessions, each of which ran in a thread of its own.
fn run_in<
    L: Posted + Send + Sync,
    N: RoomName<L::Content> + Send + Sync,
    R: Wait + Drop + Send + Sync,
    T: Threads + Sync,
>(
    threads: &T,
    alloc: Global,
    place: &Place<'_, L, N, R>,
    sessions: Vec<Session<L, N>>,
) -> Result<Vec<Record>, AllocError> {
    let notice = Notice::empty();
    let around = Around {
        rt: place.rt,
        alloc,
        hall: place,
        notice: &notice,
    };
    run_all(threads, seats(&around, sessions)?)
}

/// What is found of the records, if there are any.
fn found(
    alloc: Global,
    journal: &[Entry<Edit>],
    records: &Result<Vec<Record>, AllocError>,
) -> Finding {
    match records {
        Ok(records) => judge(alloc, journal, records),
        Err(_) => Finding::Unready,
    }
}

/// What is found where the room is closed.
fn closes<L: Posted, N: RoomName<L::Content>, P: Watched<L, N>>(
    rt: &P::Leave,
    alloc: Global,
    room: Room<L, N, P>,
    records: &Result<Vec<Record>, AllocError>,
) -> Finding
where
    P::Leave: Wait,
{
    let desk = room.close(rt, Vec::new(alloc));
    let finding = found(alloc, desk.journal(), records);
    drop(desk);
    finding
}

/// What is found of the sessions of a room of these parts.
fn runs<
    L: Posted + Send + Sync,
    N: RoomName<L::Content> + Send + Sync,
    R: Wait + Drop + Send + Sync,
    T: Threads + Sync,
>(threads: &T, rt: &R, alloc: Global, parts: Parts<L, R>) -> Finding
    requires book { parts.book ≡ N.book }
    requires opening { N.opening ≡ parts.opening ∷ [] }
    requires limit { N.limit ≡ parts.limit }
{
    match parts.open::<N>() {
        Ok((room, sessions)) => {
            let records = run_in(threads, alloc, &Place { rt, room: &room }, sessions);
            closes(rt, alloc, room, &records)
        }
        Err(_) => Finding::Unready,
    }
}

/// What is found of sixteen sessions of a room over the state.
fn runs_over<L: Posted + Send + Sync, R: Wait + Drop + Copy + Send + Sync, T: Threads + Sync>(
    threads: &T,
    rt: R,
    alloc: Global,
    state: L,
) -> Finding {
    match Room::begin(rt, alloc, state, LIMITS.journal, 16) {
        Ok(parts) => runs::<L, Brand, R, T>(threads, &rt, alloc, parts),
        Err(_) => Finding::Unready,
    }
}

#[test]
fn sixteen_sessions(rt: HostRuntime) {
    let finding = match board(rt.alloc()) {
        Some(board) => runs_over(&rt, &rt, rt.alloc(), board),
        None => Finding::Unready,
    };
    assert!(rt; finding == Finding::Right, "{finding:?}");
}
