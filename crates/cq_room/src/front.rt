//! Fronts: what a publish hands on.

ghost use Rattle.std.specs.Prelude.{◌≡◌, ◌<◌, [], length, MatchBool};
ghost use Rattle.cq_desk.specs.History.{BeginsWith, edits_of};
ghost use Rattle.cq_room.specs.Marks.{WereAccepted, entries_in, publications, fresh_in};

use crate::names::RoomName;
use crate::trail::Trail;
use cq_desk::Live;
use std::marker::Model;

/// What a publish hands on, for other sessions to hear: that so much is published. Contracts see its
/// history: publications of entries, each an edit with its author.
#[derive(Drop)]
pub struct Front<L: Live, N: RoomName<L::Content>> {
    pub(crate) trail: Trail<L, N>,
}

impl<L: Live, N: RoomName<L::Content>> Model for Front<L, N> {
    ghost use Rattle.std.specs.Prelude.{◌≡◌, []};
    ghost use Rattle.cq_desk.specs.History.{History};
    ghost use Rattle.cq_desk.specs.declared.journal.Entry.{Entry};
    ghost use Rattle.cq_room.specs.Marks.{WereAccepted, entries_in, publications, fresh_in};

    ghost Value = { History (Entry L.Edit) };

    ghost view = { λ f. publications f.trail };

    ghost invariant = { λ f. (fresh_in f.trail ≡ []) × WereAccepted L.after L.why N.opening (entries_in f.trail) };
}

impl<L: Live, N: RoomName<L::Content>> Front<L, N> {
    pub(crate) fn over(trail: Trail<L, N>) -> Front<L, N>
        requires fresh { fresh_in trail ≡ [] }
        requires accepted { WereAccepted L.after L.why N.opening (entries_in trail) }
        ensures { result ≡ publications trail }
    {
        Front { trail }
    }

    /// How many entries are published in it. Each was accepted after those before it.
    pub fn count(&self) -> u64
        ensures count { result ≡ length (edits_of self.now) }
        ensures accepted { WereAccepted L.after L.why N.opening (edits_of self.now) }
    {
        self.trail.count()
    }

    /// A front with the same history.
    pub fn copy(&self) -> Front<L, N>
        ensures { result ≡ self.now }
    {
        Front {
            trail: self.trail.again(),
        }
    }

    /// Whether the other front's history begins with this one's. If not, this one's begins with the
    /// other's, and goes on.
    pub fn begins(&self, other: &Front<L, N>) -> bool
        ensures { MatchBool result (BeginsWith other.now self.now) (BeginsWith self.now other.now × (length other.now < length self.now)) }
    {
        self.trail.begins(&other.trail)
    }
}
