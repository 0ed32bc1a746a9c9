//! Trails: beginnings of a room's history that were seen.

ghost use Rattle.std.specs.Prelude.{◌≡◌, ◌+◌, ◌<◌, ◌^◌, ◌++◌, ◌∷◌, ◌⊎◌, [], length, MatchBool, ⊤};
ghost use mathlib.Core.List.{IsPrefix};
ghost use Rattle.cq_room.specs.Marks.{entries_in, fresh_in};
ghost use Rattle.cq_room.specs.declared.mark.Mark.TheVariants.{Entered, Cut};

use crate::book::{Add, Book, End, Length, Nothing};
use crate::mark::Mark;
use crate::names::RoomName;
use cq_desk::{Entry, Live};
use logbook::{Offer, Seen};
use std::marker::{Model, PhantomData};

/// A history is no longer than this, so that its counts do not wrap.
pub(crate) const MOST: u64 = 1 << 61;

/// A beginning of the history that was seen. Contracts see its marks.
#[derive(Drop)]
pub struct Trail<L: Live, N: RoomName<L::Content>> {
    entries: u64,
    count: u64,
    fresh: u64,
    seen: Seen<Mark<L::Edit>, u64, Length>,
    of: PhantomData<N>,
}

impl<L: Live, N: RoomName<L::Content>> Model for Trail<L, N> {
    ghost use Rattle.std.specs.Prelude.{◌≡◌, List, length};
    ghost use Rattle.cq_room.specs.declared.mark.Mark.{Mark};
    ghost use Rattle.cq_room.specs.Marks.{entries_in, fresh_in};

    ghost Value = { List (Mark L.Edit) };

    ghost view = { λ t. t.seen.log };

    ghost invariant = { λ t. (t.entries ≡ length t.seen.log) × (t.seen.book ≡ N.book.0) × (t.count ≡ length (entries_in t.seen.log)) × (t.fresh ≡ length (fresh_in t.seen.log)) };
}

impl<L: Live, N: RoomName<L::Content>> Trail<L, N> {
    /// The trail that has seen nothing.
    pub(crate) fn over(seen: Seen<Mark<L::Edit>, u64, Length>) -> Trail<L, N>
        requires { (seen.book ≡ N.book.0) × (seen.log ≡ []) }
        ensures { result ≡ [] }
    {
        Trail {
            entries: 0,
            count: 0,
            fresh: 0,
            seen,
            of: PhantomData,
        }
    }

    /// How many marks it has.
    pub(crate) fn entries(&self) -> u64
        ensures { result ≡ length self.now }
    {
        self.entries
    }

    /// How many entries it has.
    pub(crate) fn count(&self) -> u64
        ensures { result ≡ length (entries_in self.now) }
    {
        self.count
    }

    /// How many entries stand after the last publication.
    pub(crate) fn fresh(&self) -> u64
        ensures { result ≡ length (fresh_in self.now) }
    {
        self.fresh
    }

    /// A copy.
    pub(crate) fn again(&self) -> Trail<L, N>
        ensures { result ≡ self.now }
    {
        Trail {
            entries: self.entries,
            count: self.count,
            fresh: self.fresh,
            seen: self.seen.again(),
            of: PhantomData,
        }
    }

    /// The longer of two trails, which the other begins.
    pub(crate) fn longer(&self, other: &Trail<L, N>) -> Trail<L, N>
        ensures one { (result ≡ self.now) ⊎ (result ≡ other.now) }
        ensures this { IsPrefix self.now result }
        ensures that { IsPrefix other.now result }
    {
        let mut both = self.seen.again();
        both.learn(&other.seen);
        if self.entries < other.entries {
            other.again()
        } else {
            self.again()
        }
    }

    /// Whether the other trail is at least as long as this one, and so begins with it.
    pub(crate) fn begins(&self, other: &Trail<L, N>) -> bool
        ensures one { MatchBool result (IsPrefix self.now other.now) (IsPrefix other.now self.now) }
        ensures longer { MatchBool result ⊤ (length other.now < length self.now) }
    {
        let mut both = self.seen.again();
        both.learn(&other.seen);
        if self.entries <= other.entries {
            true
        } else {
            false
        }
    }

    /// Whether the next trail has one mark more.
    pub(crate) fn is_followed_by(&self, next: &Trail<L, N>) -> bool
        ensures { MatchBool result (IsPrefix self.now next.now × (length next.now ≡ length self.now + 1)) (Unit {0}) }
    {
        if !self.begins(next) {
            return false;
        }
        self.entries < next.entries && next.entries - self.entries == 1
    }

    /// Adds an entry to all that was seen, and says whether it did. It did not where the history is
    /// longer: nothing changes then.
    pub(crate) fn enter(&mut self, book: &Book<L, N>, entry: &Entry<L::Edit>) -> bool
        requires room { length self.old < 2 ^ 62 }
        ensures { MatchBool result (self.new ≡ self.old ++ Entered entry.now ∷ []) (self.new ≡ self.old) }
    {
        let mut seen = self.seen.again();
        let mut offer: Offer<Mark<L::Edit>, u64, Length, Nothing> = seen.plain::<
            Nothing,
            Entry<L::Edit>,
            Add,
        >(entry);
        let mut pen = seen.no_pen();
        let entries = self.entries;
        let found = book
            .head
            .compare_exchange::<Add, Nothing>(
                entries,
                entries + 1,
                &mut seen,
                &mut offer,
                &mut pen,
            );
        if found != entries {
            return false;
        }
        self.entries = entries + 1;
        self.count += 1;
        self.fresh += 1;
        self.seen = seen;
        true
    }

    /// Ends a publication, and says whether it did. It did not where the history is longer: nothing
    /// changes then.
    pub(crate) fn cut(&mut self, book: &Book<L, N>) -> bool
        requires room { length self.old < 2 ^ 62 }
        ensures { MatchBool result (self.new ≡ self.old ++ Cut ∷ []) (self.new ≡ self.old) }
    {
        let mut seen = self.seen.again();
        let mut offer: Offer<Mark<L::Edit>, u64, Length, Nothing> = seen.plain::<Nothing, (), End>(
            &(),
        );
        let mut pen = seen.no_pen();
        let entries = self.entries;
        let found = book
            .head
            .compare_exchange::<Add, Nothing>(
                entries,
                entries + 1,
                &mut seen,
                &mut offer,
                &mut pen,
            );
        if found != entries {
            return false;
        }
        self.entries = entries + 1;
        self.fresh = 0;
        self.seen = seen;
        true
    }
}
