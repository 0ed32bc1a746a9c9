//! The worked index, and each allocation of a call refused in turn.

use crate::index::calls::Call;
use crate::stores::Trial;

/// The worked index.
const WORKED: &[Call] = &[
    Call::Put("post q {} Q(1) <- R(1)", 0),
    Call::Put("post q {} Q(1) <- R(2)", 1),
    Call::Put("post q {} Q(1) <- R(x)", 2),
    Call::Put("post q {} Q(1) <- R(1, 1)", 3),
];

/// What it answers.
const ANSWERS: &[Call] = &[
    Call::Candidates("post q {} Q(1) <- R(1)", &[0, 2]),
    Call::Partners("post q {} Q(1) <- R(1)", &[0, 2], 2),
    Call::Candidates("post q {} Q(1) <- R(y)", &[0, 1, 2]),
    Call::Partners("post q {} Q(1) <- R(y)", &[0, 1, 2], 3),
    Call::Candidates("post q {} Q(1) <- R(1, 2)", &[3]),
    Call::Partners("post q {} Q(1) <- R(1, 2)", &[], 1),
    Call::Candidates("post q {} Q(1) <- R(y, 1)", &[3]),
    Call::Partners("post q {} Q(1) <- R(y, 1)", &[3], 1),
    Call::Candidates("post q {} Q(1) <- R(1, 1, 1)", &[]),
    Call::Partners("post q {} Q(1) <- R(1, 1, 1)", &[], 0),
];

/// Atoms that come and go where the place is free for them.
const COMERS: &[Call] = &[
    Call::PutAndTake("post q {} Q(1) <- R(1)", 4),
    Call::PutAndTake("post q {} Q(1) <- R(z)", 5),
    Call::PutAndTake("post q {} Q(1) <- R(3, x)", 6),
    Call::Has(3, true),
];

/// Removed atoms are gone, and a copy answers the same.
pub const CASES: &[&[&[Call]]] = &[
    &[WORKED, ANSWERS, &[Call::Copy], ANSWERS],
    &[WORKED, COMERS, ANSWERS],
];

const FREE: &[Call] = &[Call::Has(4, false)];

/// The trials of `add`, `candidates`, `partners` and `copy`. An added atom is of an arity that no other has, so that the
/// answers are the worked ones with it too, also those of a copy.
pub const TRIALS: &[Trial<'static, Call>] = &[
    // The first atom of all, before the worked ones.
    Trial {
        before: &[],
        tried: Call::Put("post q {} Q(1) <- R(5, x, y)", 4),
        shown: &[FREE],
        after: &[
            &[Call::Has(4, true)],
            WORKED,
            ANSWERS,
            &[Call::Copy],
            ANSWERS,
        ],
    },
    Trial {
        before: &[WORKED],
        tried: Call::Candidates("post q {} Q(1) <- R(1)", &[0, 2]),
        shown: &[FREE, ANSWERS],
        after: &[&[Call::Copy], ANSWERS],
    },
    Trial {
        before: &[WORKED],
        tried: Call::Partners("post q {} Q(1) <- R(y)", &[0, 1, 2], 3),
        shown: &[FREE, ANSWERS],
        after: &[&[Call::Copy], ANSWERS],
    },
    Trial {
        before: &[WORKED],
        tried: Call::Copy,
        shown: &[FREE, ANSWERS],
        after: &[ANSWERS],
    },
];
