//! Sessions, and the room in which they submit. What drives them is generic in both, since what is known of a session or of
//! a room is large.

use crate::sessions::boards::Posted;
use crate::sessions::record::Record;
use cq_atom::Edit;
use cq_desk::{End, Live};
use cq_room::{Front, Pair, Receipt, Room, RoomName, Session};
use std::sync::Wait;

/// What a session hears of.
pub trait Heard: Drop {
    /// How many entries are published in it.
    fn entries(&self) -> u64;

    /// Another one with the same history.
    fn again(&self) -> Self;
}

impl<L: Live, N: RoomName<L::Content>> Heard for Front<L, N> {
    fn entries(&self) -> u64 {
        self.count()
    }

    fn again(&self) -> Front<L, N> {
        self.copy()
    }
}

/// Who looks at what is published, and hears of it.
pub trait Seated: Drop {
    /// What the session hears of.
    type Told: Heard;

    /// The session's number.
    fn seat(&self) -> usize;

    fn hears(&mut self, told: &Self::Told);

    /// The session after a look, which is kept where asked to.
    fn looks(self, record: &mut Record, keep: bool) -> Self;
}

impl<L: Posted, N: RoomName<L::Content>> Seated for Session<L, N> {
    type Told = Front<L, N>;

    fn seat(&self) -> usize {
        self.number()
    }

    fn hears(&mut self, told: &Front<L, N>) {
        self.hear(told);
    }

    fn looks(self, record: &mut Record, keep: bool) -> Session<L, N> {
        match self.watch() {
            Ok(look) => {
                record.knows(look.count());
                if keep {
                    record.keeps(look.count(), look.state().told(record.alloc));
                }
                look.leave()
            }
            Err(session) => {
                record.fails();
                session
            }
        }
    }
}

/// Where sessions submit.
pub trait Hall<S: Seated> {
    /// What the submit of the edits tells of, whose replies are taken down then.
    fn submits(&self, session: &mut S, record: &mut Record, asked: Vec<Edit>) -> Option<S::Told>;
}

/// A room, and what a submit takes besides.
#[derive(Drop)]
pub struct Place<'a, L: Live, N: RoomName<L::Content>, R: Wait + Drop> {
    pub rt: &'a R,
    pub room: &'a Room<L, N, Pair<L, N, R>>,
}

/// The front, where the submit is published and its replies are taken down.
fn published<L: Posted, N: RoomName<L::Content>>(
    receipt: Receipt<L, N>,
    record: &mut Record,
) -> Option<Front<L, N>> {
    let Receipt { submitted, front } = receipt;
    let front = front?;
    let count = front.count();
    record.knows(count);
    if submitted.end == End::Published(count) && record.takes(&submitted.replies) {
        Some(front)
    } else {
        None
    }
}

impl<'a, L: Posted, N: RoomName<L::Content>, R: Wait + Drop> Hall<Session<L, N>>
    for Place<'a, L, N, R> {
    fn submits(
        &self,
        session: &mut Session<L, N>,
        record: &mut Record,
        asked: Vec<Edit>,
    ) -> Option<Front<L, N>> {
        match session.submit(self.rt, self.room, asked) {
            Ok(receipt) => published(receipt, record),
            Err(_) => None,
        }
    }
}
