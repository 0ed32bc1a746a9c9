//! Each allocation refused in turn: of a publisher and of a desk, and then the same call or an empty submit; of a room, from its
//! beginning to the end of a submit, and then an empty submit of another session.

use crate::calls::{Calls, Over, Trial};
use crate::met::{Met, first_unmet, first_wrong};
use std::alloc::Global;
use std::sync::Wait;

/// The calls, and in what refusals are met.
const TRIED: &[(&str, Over, Calls, &[Met])] = &[
    (
        "enter",
        Over::Plain,
        Calls::Enter,
        &[Met::Begin, Met::Enter, Met::Publish],
    ),
    (
        "enter and publish each",
        Over::Plain,
        Calls::EnterEach,
        &[Met::Begin, Met::Enter, Met::Publish],
    ),
    (
        "submit",
        Over::Plain,
        Calls::Submit,
        &[Met::Replies, Met::Stopped(0), Met::Unpublished],
    ),
    (
        "in a room",
        Over::Tally,
        Calls::InRoom,
        &[
            Met::Begin,
            Met::Open,
            Met::Replies,
            Met::Stopped(0),
            Met::Unpublished,
        ],
    ),
    (
        "in a room over a board",
        Over::Board,
        Calls::InRoom,
        &[
            Met::Begin,
            Met::Open,
            Met::Replies,
            Met::Stopped(0),
            Met::Stopped(1),
            Met::Unpublished,
        ],
    ),
    (
        "enter over two copies",
        Over::Tally,
        Calls::Enter,
        &[Met::Enter, Met::Publish],
    ),
    (
        "submit over two copies",
        Over::Tally,
        Calls::Submit,
        &[Met::Replies, Met::Stopped(0), Met::Unpublished],
    ),
    (
        "enter over a board",
        Over::Board,
        Calls::Enter,
        &[Met::Enter, Met::Publish],
    ),
    (
        "submit over a board",
        Over::Board,
        Calls::Submit,
        &[
            Met::Replies,
            Met::Stopped(0),
            Met::Stopped(1),
            Met::Unpublished,
        ],
    ),
];

/// The first refusal at which something else came of the calls, and the first of what is to be met that was not.
fn other<R: Wait + Drop + Copy>(
    rt: R,
    alloc: Global,
    (_, over, calls, wanted): &(&str, Over, Calls, &[Met]),
) -> (Option<u64>, Option<usize>) {
    let trial = Trial {
        over: *over,
        calls: *calls,
    };
    let wrong = first_wrong(rt, alloc, trial);
    (wrong, first_unmet(rt, alloc, trial, wanted))
}

#[test]
fn each_allocation_refused(rt: HostRuntime) {
    for tried in TRIED {
        let other = other(&rt, rt.alloc(), tried);
        assert!(rt; other == (None, None), "{}: {other:?}", tried.0);
    }
}
