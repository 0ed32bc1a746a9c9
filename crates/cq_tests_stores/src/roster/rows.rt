//! The worked roster, and each allocation of a call refused in turn.

use crate::roster::calls::Call;
use crate::stores::Trial;
use cq_roster::Seat;

const CYD: Seat<&str> = Seat {
    name: "cyd",
    place: 7,
};

const ANN: Seat<&str> = Seat {
    name: "ann",
    place: 0,
};

const BOB: Seat<&str> = Seat {
    name: "bob",
    place: 3,
};

/// The seats of the worked roster.
const SEATS: &[Seat<&str>] = &[CYD, ANN, BOB];

/// The worked roster, in the order in which the seats come.
const WORKED: &[Call] = &[
    Call::Add("withdraw cyd", 7),
    Call::Add("withdraw ann", 0),
    Call::Add("withdraw bob", 3),
];

/// What it shows.
const STANDS: &[Call] = &[
    Call::Stands(SEATS),
    Call::At("withdraw cyd", Some(7)),
    Call::At("withdraw ann", Some(0)),
    Call::At("withdraw bob", Some(3)),
    Call::At("withdraw dot", None),
];

/// The first name goes, and comes again at a place of its own, as the last.
const AGAIN: &[Call] = &[
    Call::Leave("withdraw cyd", 7),
    Call::Stands(&[ANN, BOB]),
    Call::Add("withdraw cyd", 1),
    Call::Stands(&[
        ANN,
        BOB,
        Seat {
            name: "cyd",
            place: 1,
        },
    ]),
    Call::At("withdraw cyd", Some(1)),
    Call::At("withdraw ann", Some(0)),
    Call::At("withdraw bob", Some(3)),
];

/// The roster has no seat.
const EMPTY: &[Call] = &[Call::At(LONG, None), Call::Stands(&[])];

pub const CASES: &[&[&[Call]]] = &[
    &[EMPTY, &[Call::Copy], EMPTY],
    &[WORKED, STANDS, &[Call::Copy], STANDS, AGAIN],
];

// A name of more than 22 bytes takes memory of its own.
const LONG: &str = "withdraw dot_who_comes_behind_them_all";

const DOT: Seat<&str> = Seat {
    name: "dot_who_comes_behind_them_all",
    place: 1,
};

/// The roster has one seat, of the long name.
const LONE: &[Call] = &[Call::At(LONG, Some(1)), Call::Stands(&[DOT])];

/// The trials of `add`, of the first `add` of all, of `in_order` and of `copy`.
pub const TRIALS: &[Trial<'static, Call>] = &[
    Trial {
        before: &[WORKED],
        tried: Call::Add(LONG, 1),
        shown: &[STANDS],
        after: &[&[Call::At(LONG, Some(1)), Call::Copy, Call::At(LONG, Some(1))]],
    },
    Trial {
        before: &[],
        tried: Call::Add(LONG, 1),
        shown: &[EMPTY],
        after: &[LONE, &[Call::Copy], LONE],
    },
    // `in_order` alone asks for an allocation here.
    Trial {
        before: &[WORKED],
        tried: Call::Stands(SEATS),
        shown: &[STANDS],
        after: &[STANDS],
    },
    Trial {
        before: &[&[Call::Add(LONG, 1)]],
        tried: Call::Copy,
        shown: &[LONE],
        after: &[LONE, &[Call::Copy], LONE],
    },
];
