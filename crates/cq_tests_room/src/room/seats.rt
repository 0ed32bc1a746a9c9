//! Sessions, and the rooms in which they submit. What drives them is generic in both, since what is known of a session
//! or of a room would be too much.

use crate::desk::desking::Looking;
use crate::met::{Met, met_by};
use crate::states::{Shared, Sight, edits, numbered_edits};
use cq_desk::{Checkpoint, End, Live, Reply};
use cq_room::{Front, Pair, Receipt, Room, RoomName, Session};
use std::alloc::{Allocator, Global};
use std::sync::Wait;

/// What a session hears of.
pub trait Heard: Drop {
    /// Another one with the same history.
    fn again(&self) -> Self;

    /// Whether the other one's history begins with this one's.
    fn comes_before(&self, other: &Self) -> bool;
}

impl<L: Live, N: RoomName<L::Content>> Heard for Front<L, N> {
    fn again(&self) -> Front<L, N> {
        self.copy()
    }

    fn comes_before(&self, other: &Front<L, N>) -> bool {
        self.begins(other)
    }
}

/// Who looks at what is published, and hears of it.
pub trait Seated: Looking {
    /// What the session hears of.
    type Told: Heard;

    fn hears(&mut self, told: &Self::Told);

    /// Whether it is the session of that number, and has seen or heard of so many entries.
    fn is_at(&self, number: usize, count: u64) -> bool;

    /// What the session has seen or heard of.
    fn knows(&self) -> Self::Told;
}

impl<L: Shared<A>, N: RoomName<L::Content>, A: Allocator + Copy> Looking for Session<L, N, A> {
    fn looks(self, count: u64, sight: Sight) -> (Session<L, N, A>, bool) {
        match self.watch() {
            Ok(look) => {
                let right = look.count() == count && look.state().shows(sight);
                (look.leave(), right)
            }
            Err(session) => (session, false),
        }
    }
}

impl<L: Shared<A>, N: RoomName<L::Content>, A: Allocator + Copy> Seated for Session<L, N, A> {
    type Told = Front<L, N>;

    fn hears(&mut self, told: &Front<L, N>) {
        self.hear(told);
    }

    fn is_at(&self, number: usize, count: u64) -> bool {
        self.number() == number && self.seen() == count
    }

    fn knows(&self) -> Front<L, N> {
        self.front()
    }
}

/// Where sessions submit.
pub trait Hall<S: Seated> {
    /// What is asked for.
    type Asked;
    /// Why an edit is refused.
    type Why;

    /// What a submit past a checkpoint tells of, where it has these replies and so many entries are published.
    fn submits_past<G: Checkpoint>(
        &self,
        session: &mut S,
        asked: &[Self::Asked],
        replies: &[Reply<Self::Why>],
        count: u64,
        gate: &mut G,
    ) -> Option<S::Told>;

    /// What comes of a submit of the first two numbered edits.
    fn submits_both(&self, session: &mut S) -> Met;

    /// What a submit of the last two numbered edits tells of, or an empty one, after which so many entries are published.
    fn submits_more(&self, session: &mut S, last: bool, count: u64) -> Option<S::Told>;
}

/// A room over two copies of the state.
pub type PairRoom<L, N, R, A = Global> = Room<L, N, Pair<L, N, R, A>, A>;

/// A room, and what its calls take besides.
#[derive(Drop)]
pub struct Place<'a, L: Live, N: RoomName<L::Content>, R: Wait + Drop, A: Allocator + Copy> {
    pub rt: &'a R,
    pub alloc: A,
    pub room: &'a PairRoom<L, N, R, A>,
}

/// The front, where the replies are right and so many entries are published.
fn published<L: Live, N: RoomName<L::Content>, A: Allocator + Copy>(
    receipt: Receipt<L, N, A>,
    right: bool,
    count: u64,
) -> Option<Front<L, N>> {
    let Receipt { submitted, front } = receipt;
    let front = front?;
    if right && submitted.end == End::Published(count) && front.count() == count {
        Some(front)
    } else {
        None
    }
}

/// The same, where these are the replies.
fn replied<L: Shared<A>, N: RoomName<L::Content>, A: Allocator + Copy>(
    receipt: Receipt<L, N, A>,
    replies: &[Reply<L::Why>],
    count: u64,
) -> Option<Front<L, N>> {
    let right = L::are_replies(receipt.submitted.replies.as_slice(), replies);
    published(receipt, right, count)
}

/// The same, where these are the replies to the last two numbered edits, or none.
fn more_replied<L: Shared<A>, N: RoomName<L::Content>, A: Allocator + Copy>(
    receipt: Receipt<L, N, A>,
    last: bool,
    count: u64,
) -> Option<Front<L, N>> {
    let right = are_more::<L, A>(receipt.submitted.replies.as_slice(), last);
    published(receipt, right, count)
}

/// In what a submit of two edits met the refusal. It tells of a front exactly where both are published.
fn met_in<L: Live, N: RoomName<L::Content>, A: Allocator + Copy>(receipt: Receipt<L, N, A>) -> Met {
    let Receipt { submitted, front } = receipt;
    let met = met_by(&submitted);
    match front {
        Some(front) => met.if_right(met == Met::Nothing && front.count() == 2),
        None => met.if_right(met != Met::Nothing),
    }
}

/// Whether these are the replies to the last two numbered edits, or none.
fn are_more<L: Shared<A>, A: Allocator + Copy>(replies: &[Reply<L::Why>], last: bool) -> bool {
    match replies {
        [] => !last,
        [Reply::Entered(3), Reply::Not(why)] => last && L::is_refusal(why),
        _ => false,
    }
}

impl<'a, L: Shared<A>, N: RoomName<L::Content>, R: Wait + Drop, A: Allocator + Copy> Hall<
    Session<L, N, A>,
> for Place<'a, L, N, R, A> {
    type Asked = L::Asked;

    type Why = L::Why;

    fn submits_past<G: Checkpoint>(
        &self,
        session: &mut Session<L, N, A>,
        asked: &[L::Asked],
        replies: &[Reply<L::Why>],
        count: u64,
        gate: &mut G,
    ) -> Option<Front<L, N>> {
        let asked = edits::<L, A>(self.alloc, asked)?;
        match session.submit_past(self.rt, self.room, asked, gate) {
            Ok(receipt) => replied(receipt, replies, count),
            Err(_) => None,
        }
    }

    fn submits_both(&self, session: &mut Session<L, N, A>) -> Met {
        let Some(asked) = numbered_edits::<L, A>(self.alloc, 1, 3) else {
            return Met::Setup;
        };
        match session.submit(self.rt, self.room, asked) {
            Ok(receipt) => met_in(receipt),
            Err(_) => Met::Replies,
        }
    }

    fn submits_more(
        &self,
        session: &mut Session<L, N, A>,
        last: bool,
        count: u64,
    ) -> Option<Front<L, N>> {
        let end = if last { 5 } else { 3 };
        let asked = numbered_edits::<L, A>(self.alloc, 3, end)?;
        match session.submit(self.rt, self.room, asked) {
            Ok(receipt) => more_replied(receipt, last, count),
            Err(_) => None,
        }
    }
}

/// The first two sessions of a room.
pub fn two_of<S: Drop, A: Allocator + Copy>(sessions: &mut Vec<S, A>) -> Option<(S, S)> {
    let second = sessions.pop()?;
    let first = sessions.pop()?;
    Some((first, second))
}
