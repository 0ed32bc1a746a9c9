//! A room whose owner makes a checkpoint.

ghost use Rattle.std.specs.Prelude.{◌≡◌, ◌∷◌, [], true};

use crate::desk::desking::sees_at_last;
use crate::met::Met;
use crate::room::seats::{Hall, PairRoom, Place, Seated, two_of};
use crate::states::Shared;
use crate::tally::Tally;
use cq_room::{Parts, Room, RoomName};
use std::alloc::Global;
use std::marker::Brand;
use std::sync::Wait;

/// How many entries the session's checkpoint counts, if one is made.
fn counted<L: Shared<Global>, N: RoomName<L::Content>, R: Wait + Drop>(
    rt: &R,
    room: &PairRoom<L, N, R>,
    session: &mut cq_room::Session<L, N>,
) -> Option<u64>
    requires { N.renews ≡ true }
{
    session.checkpoint(rt, room).ok()
}

/// The journal has room for two. One session fills it.
fn fills<S: Seated, H: Hall<S>>(hall: &H, mut session: S) -> bool {
    hall.submits_both(&mut session) == Met::Nothing && sees_at_last(session, 2)
}

/// After the checkpoint the other session enters one more, which gets the next number. It sees all three.
fn goes_on<S: Seated, H: Hall<S>>(hall: &H, mut session: S) -> bool {
    hall.submits_more(&mut session, true, 3).is_some() && sees_at_last(session, 3)
}

/// How many entries a checkpoint counts between what the two sessions submit, if all comes out right.
fn renews<L: Shared<Global>, N: RoomName<L::Content>, R: Wait + Drop>(
    place: &Place<'_, L, N, R, Global>,
    sessions: &mut Vec<cq_room::Session<L, N>>,
) -> Option<u64>
    requires { N.renews ≡ true }
{
    let (first, mut second) = two_of(sessions)?;
    let filled = fills(place, first);
    let count = counted(place.rt, place.room, &mut second);
    let right = goes_on(place, second);
    if filled && right { count } else { None }
}

/// How many entries the checkpoint counts in a room of these parts, and how many entries its desk keeps at the end.
fn in_room<L: Shared<Global>, N: RoomName<L::Content>, R: Wait + Drop>(
    rt: &R,
    alloc: Global,
    parts: Parts<L, R>,
) -> Option<(u64, usize)>
    requires book { parts.book ≡ N.book }
    requires opening { N.opening ≡ parts.opening ∷ [] }
    requires limit { N.limit ≡ parts.limit }
    requires renews { N.renews ≡ true }
{
    match parts.open::<N>() {
        Ok((room, mut sessions)) => {
            let place = Place {
                rt,
                alloc,
                room: &room,
            };
            let count = renews(&place, &mut sessions);
            let kept = room.close(rt, sessions).journal().len();
            count.map(|count| (count, kept))
        }
        Err(_) => None,
    }
}

/// The same in a room for two sessions and two entries over such a state.
fn in_room_over<L: Shared<Global>, R: Wait + Drop + Copy>(
    rt: R,
    alloc: Global,
) -> Option<(u64, usize)> {
    let state = L::begun(alloc, 9)?;
    match Room::begin(rt, alloc, state, 2, 2) {
        Ok(parts) => in_room::<L, Brand, R>(&rt, alloc, parts),
        Err(_) => None,
    }
}

#[test]
fn a_checkpoint_in_a_room(rt: HostRuntime) {
    let met = in_room_over::<Tally, _>(&rt, rt.alloc());
    assert!(rt; met == Some((2, 1)), "{met:?}");
}
