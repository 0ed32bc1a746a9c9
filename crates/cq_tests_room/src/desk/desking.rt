//! Desks that tell what comes of their calls. What drives one is generic in it, since what is known of a desk, over two
//! copies above all, would be too much.

use crate::calls::Calls;
use crate::met::{Met, met_by};
use crate::states::{Shared, Sight, numbered_edits};
use cq_desk::{Desk, End, Live, NoMemory, Plain, Publisher, Reply};
use cq_room::{Pair, RoomName, Watched};
use std::alloc::{Allocator, Global};
use std::sync::Wait;

/// A desk over a state that is published by one state.
pub type PlainDesk<L, A = Global> = Desk<L, Plain<L, A>, A>;

/// Such a desk, whose journal may hold so many entries.
pub fn plain_desk<L: Live, A: Allocator + Copy>(
    alloc: A,
    state: L,
    journal: usize,
) -> Result<PlainDesk<L, A>, NoMemory> {
    let working = state.copy()?;
    let publisher = Plain::begin(alloc, state)?;
    Ok(Desk::begin(alloc, working, publisher, journal))
}

/// A publisher that tells what it shows.
pub trait Showing<L: Live>: Publisher<L> {
    /// Whether it shows so many of the numbered edits.
    fn is_at(&self, entries: u64) -> bool;
}

impl<L: Shared<A>, A: Allocator + Copy> Showing<L> for Plain<L, A> {
    fn is_at(&self, entries: u64) -> bool {
        self.published().shows(Sight::LeftBy(entries))
    }
}

impl<L: Live, N: RoomName<L::Content>, R: Wait + Drop, A: Allocator + Copy> Showing<L>
    for Pair<L, N, R, A> {
    fn is_at(&self, entries: u64) -> bool {
        self.front().count() == entries
    }
}

/// A desk that tells what comes of its calls.
pub trait Desking<R, A> {
    /// Whether so many edits are entered, and so many of them shown.
    fn stands(&self, entries: u64, shown: u64) -> bool;

    /// Whether the journal has the numbered edits under these authors, and no others. Those before the last checkpoint are not looked at.
    fn has_entries(&self, authors: &[usize]) -> bool;

    /// What comes of entering the edit of that number.
    fn enters(&mut self, alloc: A, number: u64) -> Met;

    /// What comes of publishing so many entries.
    fn publishes(&mut self, rt: &R, entries: u64) -> Met;

    /// What comes of a submit of the first two edits.
    fn submits(&mut self, rt: &R, alloc: A) -> Met;

    /// Whether an empty submit is published, with so many entries.
    fn submits_nothing(&mut self, rt: &R, alloc: A, entries: u64) -> bool;
}

/// What an answer to the edit of that number means.
fn entered<W: Drop>(answer: Result<Reply<W>, NoMemory>, number: u64) -> Met {
    match answer {
        Ok(Reply::Entered(entry)) => Met::Nothing.if_right(entry == number),
        Err(NoMemory) => Met::Enter,
        Ok(_) => Met::Wrong,
    }
}

impl<L: Shared<A>, P: Showing<L>, A: Allocator + Copy> Desking<P::Leave, A> for Desk<L, P, A> {
    fn stands(&self, entries: u64, shown: u64) -> bool {
        self.count() == entries
            && self.working().shows(Sight::LeftBy(entries))
            && self.published_count() == shown
            && self.publisher().is_at(shown)
    }

    fn has_entries(&self, authors: &[usize]) -> bool {
        let mut number = self.base();
        for entry in self.journal() {
            let author = authors.get(number as usize).copied();
            number = number.saturating_add(1);
            if author != Some(entry.author) || !L::has_number(&entry.edit, number) {
                return false;
            }
        }
        number == authors.len() as u64
    }

    fn enters(&mut self, alloc: A, number: u64) -> Met {
        match L::numbered(alloc, number) {
            Some(edit) => entered(self.enter(0, edit), number),
            None => Met::Setup,
        }
    }

    fn publishes(&mut self, rt: &P::Leave, entries: u64) -> Met {
        match self.publish(rt) {
            Ok(count) => Met::Nothing.if_right(count == entries),
            Err(_) => Met::Publish,
        }
    }

    fn submits(&mut self, rt: &P::Leave, alloc: A) -> Met {
        let Some(asked) = numbered_edits::<L, A>(alloc, 1, 3) else {
            return Met::Setup;
        };
        match self.submit(0, asked, rt) {
            Ok(submitted) => met_by(&submitted),
            Err(_) => Met::Replies,
        }
    }

    fn submits_nothing(&mut self, rt: &P::Leave, alloc: A, entries: u64) -> bool {
        match self.submit(0, Vec::new(alloc), rt) {
            Ok(submitted) => {
                submitted.replies.is_empty() && submitted.end == End::Published(entries)
            }
            Err(_) => false,
        }
    }
}

/// Who looks at what is published.
pub trait Looking: Drop {
    /// The same after a look, and whether so many entries left what is shown, which is this.
    fn looks(self, count: u64, sight: Sight) -> (Self, bool);
}

/// Nobody, at a desk that has no sessions.
#[derive(Clone, Copy)]
pub struct Nobody;

impl Looking for Nobody {
    fn looks(self, _count: u64, _sight: Sight) -> (Nobody, bool) {
        (self, true)
    }
}

/// The session after a look, and whether it shows what so many of the numbered edits left.
pub fn sees<S: Looking>(session: S, entries: u64) -> (S, bool) {
    session.looks(entries, Sight::LeftBy(entries))
}

/// Whether a last look shows so.
pub fn sees_at_last<S: Looking>(session: S, entries: u64) -> bool {
    sees(session, entries).1
}

/// What comes of entering the edit of that number where so many are shown. Where an allocation failed, nothing has changed, and the
/// same call then succeeds.
fn enters_at_last<D: Desking<R, A>, R, A: Copy>(
    alloc: A,
    desk: &mut D,
    number: u64,
    shown: u64,
) -> Met {
    let met = desk.enters(alloc, number);
    if met == Met::Nothing {
        return met;
    }
    let kept = desk.stands(number.saturating_sub(1), shown);
    met.if_right(kept && desk.enters(alloc, number) == Met::Nothing)
}

/// What comes of publishing so many entries where so many are shown. Where an allocation failed, they are shown as before, and the
/// same call then succeeds.
fn publishes_at_last<D: Desking<R, A>, S: Looking, R, A>(
    rt: &R,
    desk: &mut D,
    session: S,
    entries: u64,
    shown: u64,
) -> (S, Met) {
    let met = desk.publishes(rt, entries);
    if met == Met::Nothing {
        return (session, met);
    }
    let kept = desk.stands(entries, shown);
    let (session, seen) = sees(session, shown);
    let published = desk.publishes(rt, entries) == Met::Nothing;
    (session, met.if_right(kept && seen && published))
}

/// The first edit is entered, and published where each is, with how many are shown then.
fn enters_first<D: Desking<R, A>, S: Looking, R, A: Copy>(
    rt: &R,
    alloc: A,
    desk: &mut D,
    session: S,
    each: bool,
) -> (S, Met, u64) {
    let entered = enters_at_last(alloc, desk, 1, 0);
    if !each {
        return (session, entered, 0);
    }
    let (session, published) = publishes_at_last(rt, desk, session, 1, 0);
    (session, entered.then(published), 1)
}

/// Both edits are entered, and then published, or each before the next one.
fn enters_and_publishes<D: Desking<R, A>, S: Looking, R, A: Copy>(
    rt: &R,
    alloc: A,
    desk: &mut D,
    session: S,
    each: bool,
) -> Met {
    let (session, first, shown) = enters_first(rt, alloc, desk, session, each);
    let second = enters_at_last(alloc, desk, 2, shown);
    let (session, published) = publishes_at_last(rt, desk, session, 2, shown);
    let right = sees_at_last(session, 2) && desk.stands(2, 2);
    first.then(second).then(published).if_right(right)
}

/// Both edits are submitted. Where an allocation failed, nothing is shown, and an empty submit then shows all that was entered.
fn submits_and_shows<D: Desking<R, A>, S: Looking, R, A: Copy>(
    rt: &R,
    alloc: A,
    desk: &mut D,
    session: S,
) -> Met {
    let met = desk.submits(rt, alloc);
    let entries = met.entries();
    if met == Met::Nothing {
        return met.if_right(sees_at_last(session, 2) && desk.stands(2, 2));
    }
    let kept = desk.stands(entries, 0);
    let (session, seen) = sees(session, 0);
    let published = desk.submits_nothing(rt, alloc, entries);
    let right = sees_at_last(session, entries) && desk.stands(entries, entries);
    met.if_right(kept && seen && published && right)
}

/// What comes of the calls on a desk.
pub fn calls_on<D: Desking<R, A>, S: Looking, R, A: Copy>(
    rt: &R,
    alloc: A,
    desk: &mut D,
    session: S,
    calls: Calls,
) -> Met {
    match calls {
        Calls::Enter => enters_and_publishes(rt, alloc, desk, session, false),
        Calls::EnterEach => enters_and_publishes(rt, alloc, desk, session, true),
        Calls::Submit => submits_and_shows(rt, alloc, desk, session),
        _ => Met::Nothing.if_right(sees_at_last(session, 0) && desk.stands(0, 0)),
    }
}
