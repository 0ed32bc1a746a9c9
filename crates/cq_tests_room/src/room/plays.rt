//! What two sessions do in a room, and what is done on its desk, from its beginning to its end.

ghost use Rattle.std.specs.Prelude.{◌≡◌, ◌∷◌, []};

use crate::calls::Calls;
use crate::desk::desking::{Desking, Looking, calls_on, sees, sees_at_last};
use crate::met::Met;
use crate::room::meetings::meets_in;
use crate::room::seats::{Hall, Place, Seated, two_of};
use crate::states::Shared;
use cq_room::{Parts, Room, RoomFault, RoomName};
use std::alloc::Allocator;
use std::marker::Brand;
use std::sync::Wait;

/// Both sessions see what so many entries left.
fn both_see<S: Seated>(first: S, second: S, entries: u64) -> bool {
    let by_first = sees_at_last(first, entries);
    let by_second = sees_at_last(second, entries);
    by_first && by_second
}

/// The second session sees nothing of a submit that was refused an allocation. Its empty submit publishes all that was
/// entered, and both sessions see it then.
fn goes_on<S: Seated, H: Hall<S>>(hall: &H, mut first: S, second: S, entries: u64) -> bool {
    let (mut second, seen) = sees(second, 0);
    match hall.submits_more(&mut second, false, entries) {
        Some(told) => {
            first.hears(&told);
            both_see(first, second, entries) && seen
        }
        None => false,
    }
}

/// What comes of a submit of two edits by the first session.
fn submits<S: Seated, H: Hall<S>>(hall: &H, mut first: S, second: S) -> Met {
    let met = hall.submits_both(&mut first);
    if met == Met::Nothing {
        let known = first.is_at(1, 2);
        return met.if_right(both_see(first, second, 2) && known);
    }
    let known = first.is_at(1, 0);
    met.if_right(goes_on(hall, first, second, met.entries()) && known)
}

/// The same by the second session of the list.
fn submits_in<S: Seated, H: Hall<S>, A: Allocator + Copy>(
    hall: &H,
    sessions: &mut Vec<S, A>,
) -> Met {
    match two_of(sessions) {
        Some((first, second)) => submits(hall, second, first),
        None => Met::Wrong,
    }
}

/// What comes of the calls in a room, with the session that looks at its desk where that is what is tried.
fn plays<S: Seated, H: Hall<S>, A: Allocator + Copy>(
    hall: &H,
    sessions: &mut Vec<S, A>,
    calls: Calls,
) -> (Met, Option<S>) {
    match calls {
        Calls::InRoom => (submits_in(hall, sessions), None),
        Calls::Meeting { looks, hand_in } => (meets_in(hall, sessions, looks, hand_in), None),
        _ => (Met::Nothing, sessions.pop()),
    }
}

/// The authors of the journal of a room in which two sessions met, and of one in which the second one submitted.
const MEETING: &[usize] = &[0, 0, 1];

const IN_ROOM: &[usize] = &[1, 1];

/// Whether the journal of the closed room has what was entered.
fn is_journal<D: Desking<R, A>, R, A>(desk: &D, met: Met, calls: Calls) -> bool {
    let authors = match calls {
        Calls::InRoom => IN_ROOM.get(..met.entries() as usize),
        _ => Some(MEETING),
    };
    match authors {
        Some(authors) => desk.has_entries(authors),
        None => false,
    }
}

/// What comes of it in the end, on the desk of the closed room.
fn ends<D: Desking<R, A>, S: Looking, R, A: Copy>(
    rt: &R,
    alloc: A,
    desk: &mut D,
    (met, session): (Met, Option<S>),
    calls: Calls,
) -> Met {
    match session {
        Some(session) => calls_on(rt, alloc, desk, session, calls),
        None => met.if_right(is_journal(desk, met, calls)),
    }
}

/// What comes of the calls in a room of these parts, which is closed then.
fn in_room<L: Shared<A>, N: RoomName<L::Content>, R: Wait + Drop, A: Allocator + Copy>(
    rt: &R,
    alloc: A,
    parts: Parts<L, R, A>,
    calls: Calls,
) -> Met
    requires book { parts.book ≡ N.book }
    requires opening { N.opening ≡ parts.opening ∷ [] }
    requires limit { N.limit ≡ parts.limit }
{
    match parts.open::<N>() {
        Ok((room, mut sessions)) => {
            let place = Place {
                rt,
                alloc,
                room: &room,
            };
            let met = plays(&place, &mut sessions, calls);
            let mut desk = room.close(rt, sessions);
            ends(rt, alloc, &mut desk, met, calls)
        }
        Err(fault) => Met::Open.if_right(fault == RoomFault::NoMemory),
    }
}

/// What comes of the calls in a room for two sessions over such a state.
pub fn in_room_over<L: Shared<A>, R: Wait + Drop + Copy, A: Allocator + Copy>(
    rt: R,
    alloc: A,
    calls: Calls,
) -> Met {
    let Some(state) = L::begun(alloc, 9) else {
        return Met::Setup;
    };
    match Room::begin(rt, alloc, state, 9, 2) {
        Ok(parts) => in_room::<L, Brand, R, A>(&rt, alloc, parts, calls),
        Err(fault) => Met::Begin.if_right(fault == RoomFault::NoMemory),
    }
}
