//! Sessions, and what they look at.

ghost use Rattle.std.specs.Prelude.{◌≡◌, ◌⊎◌, [], length, MatchBool, MatchOption, IfOk, IfErr};
ghost use mathlib.Core.List.{IsPrefix};
ghost use Rattle.cq_desk.specs.History.{BeginsWith, edits_of};
ghost use Rattle.cq_room.specs.Marks.{Leaves, WereAccepted, entries_in, publications, fresh_in};
ghost use Rattle.cq_room.specs.Receipts.{Heard};

use crate::front::Front;
use crate::names::{JournalOf, RoomName};
use crate::pair::PairReader;
use crate::shown::Shown;
use crate::trail::Trail;
use cq_desk::Live;
use crossbeam_utils::rule::Unruled;
use left_right::reader::Reading;
use std::alloc::{Allocator, Global};
use std::marker::Model;

/// A session that is not looking: one client's seat in a room. Contracts see its number, its history,
/// which is what it has seen or heard of, and the entries up to its last submit, published or not.
#[derive(Drop)]
pub struct Session<L: Live, N: RoomName<L::Content>, A: Allocator = Global> {
    reader: PairReader<L, N, A>,
    trail: Trail<L, N>,
    known: Trail<L, JournalOf<N>>,
    number: usize,
}

impl<L: Live, N: RoomName<L::Content>, A: Allocator> Model for Session<L, N, A> {
    ghost use Rattle.std.specs.Prelude.{◌≡◌, []};
    ghost use Rattle.cq_room.specs.Sessions.{SessionRecord};
    ghost use Rattle.cq_room.specs.Marks.{WereAccepted, entries_in, publications, fresh_in};

    ghost Value = { SessionRecord L.Edit };

    ghost view = { λ s. record { number = s.number; history = publications s.trail; known = entries_in s.known } };

    ghost invariant = { λ s. (fresh_in s.trail ≡ []) × WereAccepted L.after L.why N.opening (entries_in s.trail) };
}

/// A session that is looking. While it looks, a publish may wait for it, and nothing else does.
/// Contracts see the session's number, the history whose content is shown, and the entries that the
/// session knows of.
pub struct Look<L: Live, N: RoomName<L::Content>, A: Allocator = Global> {
    reading: Reading<Shown<L, N>, (), Unruled, A>,
    trail: Trail<L, N>,
    known: Trail<L, JournalOf<N>>,
    number: usize,
}

impl<L: Live, N: RoomName<L::Content>, A: Allocator> Model for Look<L, N, A> {
    ghost use Rattle.std.specs.Prelude.{◌≡◌, []};
    ghost use Rattle.cq_room.specs.Sessions.{SessionRecord};
    ghost use Rattle.cq_room.specs.Marks.{WereAccepted, entries_in, publications, fresh_in};

    ghost Value = { SessionRecord L.Edit };

    ghost view = { λ s. record { number = s.number; history = publications s.trail; known = entries_in s.known } };

    ghost invariant = { λ s. (fresh_in s.trail ≡ []) × (s.reading.part.value.marks ≡ s.trail) × WereAccepted L.after L.why N.opening (entries_in s.trail) };
}

impl<L: Live, N: RoomName<L::Content>, A: Allocator> Drop for Look<L, N, A> {
    fn drop(self) {
        let Self {
            reading,
            trail: _trail,
            known: _known,
            number: _,
        } = self;
        drop(reading.leave());
    }
}

impl<L: Live, N: RoomName<L::Content>, A: Allocator> Session<L, N, A> {
    /// A session that has seen the trail.
    pub(crate) fn over(
        reader: PairReader<L, N, A>,
        trail: Trail<L, N>,
        known: Trail<L, JournalOf<N>>,
        number: usize,
    ) -> Session<L, N, A>
        requires fresh { fresh_in trail ≡ [] }
        requires accepted { WereAccepted L.after L.why N.opening (entries_in trail) }
        ensures { result ≡ record { number = number; history = publications trail; known = entries_in known } }
    {
        Session {
            reader,
            trail,
            known,
            number,
        }
    }

    /// The session's number in its room, which stands as author at its entries.
    pub fn number(&self) -> usize
        ensures { result ≡ self.now.number }
    {
        self.number
    }

    /// How many entries the session has seen or heard of. Each was accepted after those before it.
    pub fn seen(&self) -> u64
        ensures count { result ≡ length (edits_of self.now.history) }
        ensures accepted { WereAccepted L.after L.why N.opening (edits_of self.now.history) }
    {
        self.trail.count()
    }

    /// A front with all that the session has seen or heard of.
    pub fn front(&self) -> Front<L, N>
        ensures { result ≡ self.now.history }
    {
        Front::over(self.trail.again())
    }

    /// Whether the trail begins with what the session has seen.
    pub(crate) fn is_behind(&self, trail: &Trail<L, N>) -> bool
        ensures { MatchBool result (IsPrefix (edits_of self.now.history) (entries_in trail.now)) (Unit {0}) }
    {
        self.trail.begins(trail)
    }

    /// Whether the trail of what is entered begins with what the session knows of it.
    pub(crate) fn is_in(&self, entered: &Trail<L, JournalOf<N>>) -> bool
        ensures { MatchBool result (IsPrefix self.now.known (entries_in entered.now)) (Unit {0}) }
    {
        self.known.begins(entered)
    }

    /// Takes note of all that is entered.
    pub(crate) fn learn(&mut self, entered: &Trail<L, JournalOf<N>>)
        ensures { self.new ≡ record self.old { known = entries_in entered.now } }
    {
        self.known = entered.again();
    }

    /// Looks at what is published. It takes no lock and no memory, and waits for nobody.
    ///
    /// # Errors
    /// The session, unchanged. The room is then gone.
    pub fn watch(self) -> Result<Look<L, N, A>, Session<L, N, A>>
        ensures history { IfOk result (λ look. BeginsWith look.history self.history) }
        ensures number { IfOk result (λ look. look.number ≡ self.number) }
        ensures known { IfOk result (λ look. look.known ≡ self.known) }
        ensures refused { IfErr result (λ session. session ≡ self) }
    {
        let Session {
            reader,
            trail,
            known,
            number,
        } = self;
        match reader.enter_as::<Unruled>() {
            Ok(reading) => {
                let shown = reading.get().trail().again();
                // What is shown always begins with what was seen, and ends in no edit.
                if shown.fresh() == 0 && trail.begins(&shown) {
                    Ok(Look {
                        reading,
                        trail: shown,
                        known,
                        number,
                    })
                } else {
                    Err(Session {
                        reader: reading.leave(),
                        trail,
                        known,
                        number,
                    })
                }
            }
            Err(reader) => Err(Session {
                reader,
                trail,
                known,
                number,
            }),
        }
    }

    /// Hears the front: from now on the session sees no less. It waits for nobody.
    pub fn hear(&mut self, front: &Front<L, N>)
        ensures own { BeginsWith self.new.history self.old.history }
        ensures told { BeginsWith self.new.history front.now }
        ensures one { (self.new.history ≡ self.old.history) ⊎ (self.new.history ≡ front.now) }
        ensures number { self.new.number ≡ self.old.number }
        ensures known { self.new.known ≡ self.old.known }
    {
        self.trail = self.trail.longer(&front.trail);
    }
}

impl<L: Live, N: RoomName<L::Content>, A: Allocator> Session<L, N, A> {
    /// Hears the front, where there is one.
    pub(crate) fn hear_any(&mut self, front: &Option<Front<L, N>>)
        ensures heard { MatchOption front.now (self.new ≡ self.old) (λ front. Heard self.old self.new front) }
        ensures known { self.new.known ≡ self.old.known }
    {
        if let Some(front) = front {
            self.hear(front);
        }
    }
}

impl<L: Live, N: RoomName<L::Content>, A: Allocator> Look<L, N, A> {
    /// The state that is looked at. Each edit that leaves it was accepted after those before it.
    pub fn state(&self) -> &L
        ensures leaves { Leaves L.after N.opening (edits_of self.now.history) (L.content result.now) }
        ensures accepted { WereAccepted L.after L.why N.opening (edits_of self.now.history) }
    {
        self.reading.get().state()
    }

    /// How many entries stand in what is looked at.
    pub fn count(&self) -> u64
        ensures { result ≡ length (edits_of self.now.history) }
    {
        self.trail.count()
    }

    /// A front with what is looked at.
    pub fn front(&self) -> Front<L, N>
        ensures { result ≡ self.now.history }
    {
        Front::over(self.trail.again())
    }

    /// Ends the look. The session has seen what the look showed.
    pub fn leave(self) -> Session<L, N, A>
        ensures { result ≡ self }
    {
        let Look {
            reading,
            trail,
            known,
            number,
        } = self;
        Session {
            reader: reading.leave(),
            trail,
            known,
            number,
        }
    }
}
