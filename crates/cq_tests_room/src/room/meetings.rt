//! Two sessions that meet in a room.

use crate::calls::{Calls, Over, Trial, attempt};
use crate::desk::desking::sees;
use crate::met::Met;
use crate::room::seats::{Hall, Heard, Seated, two_of};
use crate::tally::Tally;
use cq_room::{Room, RoomFault};
use std::alloc::{Allocator, Global};
use std::sync::Wait;

/// Whether the later history begins with the earlier one, and not the other way round.
fn comes_first<F: Heard>(early: &F, late: &F) -> bool {
    early.comes_before(late) && !late.comes_before(early) && early.comes_before(&early.again())
}

/// The second session, which sees what was submitted, before it hears of it, or does not look. Then it submits an edit, and one that is
/// refused. What it is told then comes after what the first session was told.
fn answers<S: Seated, H: Hall<S>>(
    hall: &H,
    second: S,
    early: &S::Told,
    looks: bool,
) -> (S, Option<S::Told>) {
    let (mut second, seen) = if looks {
        sees(second, 2)
    } else {
        (second, true)
    };
    match hall.submits_more(&mut second, true, 3) {
        Some(late) if seen && second.is_at(1, 3) && comes_first(early, &late) => {
            (second, Some(late))
        }
        _ => (second, None),
    }
}

/// The first session, which hears of it and sees it then.
fn is_told<S: Seated>(mut first: S, told: &S::Told) -> (S, bool) {
    first.hears(told);
    let known = first.is_at(0, 3);
    let (first, seen) = sees(first, 3);
    (first, known && seen)
}

/// Two sessions one after the other, and whether all comes out right.
fn meets<S: Seated, H: Hall<S>>(hall: &H, mut first: S, second: S, looks: bool) -> (S, S, bool) {
    let entered = hall.submits_both(&mut first) == Met::Nothing;
    let (second, late) = answers(hall, second, &first.knows(), looks);
    match late {
        Some(late) => {
            let (first, told) = is_told(first, &late);
            (first, second, told && entered)
        }
        None => (first, second, false),
    }
}

fn put_back<S: Drop, A: Allocator + Copy>(sessions: &mut Vec<S, A>, first: S, second: S) -> bool {
    sessions.push(first).is_ok() && sessions.push(second).is_ok()
}

/// The same of the two sessions of the list, which are put back where they are to be handed in.
pub fn meets_in<S: Seated, H: Hall<S>, A: Allocator + Copy>(
    hall: &H,
    sessions: &mut Vec<S, A>,
    looks: bool,
    hand_in: bool,
) -> Met {
    let Some((first, second)) = two_of(sessions) else {
        return Met::Wrong;
    };
    let (first, second, met) = meets(hall, first, second, looks);
    if hand_in {
        let kept = put_back(sessions, first, second);
        return Met::Nothing.if_right(met && kept);
    }
    Met::Nothing.if_right(met)
}

/// The states, and how sessions meet over them.
const MEETINGS: &[(&str, Over, Calls)] = &[
    (
        "handed in",
        Over::Tally,
        Calls::Meeting {
            looks: true,
            hand_in: true,
        },
    ),
    (
        "a room of nobody",
        Over::Tally,
        Calls::Meeting {
            looks: true,
            hand_in: false,
        },
    ),
    (
        "an equal edit",
        Over::Board,
        Calls::Meeting {
            looks: false,
            hand_in: true,
        },
    ),
];

#[test]
fn two_sessions(rt: HostRuntime) {
    for (name, over, calls) in MEETINGS {
        let trial = Trial {
            over: *over,
            calls: *calls,
        };
        assert!(rt; attempt(&rt, rt.alloc(), trial) == Met::Nothing, "{name}");
    }
}

/// Whether a room with so many sessions is refused for their number.
fn is_refused<R: Wait + Drop>(rt: R, alloc: Global, sessions: usize) -> bool {
    match Room::begin(rt, alloc, Tally::empty(alloc), 9, sessions) {
        Ok(_) => false,
        Err(fault) => fault == RoomFault::Sessions,
    }
}

#[test]
fn one_to_sixteen_sessions(rt: HostRuntime) {
    for (sessions, refused) in [(0, true), (16, false), (17, true)] {
        assert!(rt;
            is_refused(&rt, rt.alloc(), sessions) == refused,
            "{sessions}"
        );
    }
}
