//! A publisher over two copies.

ghost use Rattle.std.specs.Prelude.{◌≡◌, ◌<◌, ◌^◌, ◌++◌, ◌∷◌, [], None, length, IfOk, OnOk, OnErr, MatchResult};
ghost use mathlib.Core.List.{IsPrefix};
ghost use Rattle.cq_desk.specs.History.{grown};
ghost use Rattle.cq_room.specs.Marks.{WereAccepted, entries_in, publications, fresh_in};
ghost use Rattle.cq_room.specs.Steps.Pair.{last_of, ends_at};

use crate::book::Book;
use crate::copies::Copies;
use crate::front::Front;
use crate::names::{JournalOf, RoomName};
use crate::room::Watched;
use crate::session::Session;
use crate::shown::{Shown, Step};
use crate::trail::{MOST, Trail};
use cq_desk::{Entry, Live, NoMemory, Publisher};
use crossbeam_utils::rule::Unruled;
use left_right::reader::Reader;
use std::alloc::{AllocError, Allocator, Global};
use std::marker::Model;
use std::sync::Wait;

/// What looks at what a pair shows.
pub(crate) type PairReader<L, N, A> = Reader<Shown<L, N>, (), Unruled, A>;

/// A publisher that shows one of two copies and changes the other. A publish takes the edits that each
/// copy lacks into it, one by one; it copies no state, and waits for those who still look at the copy
/// that it changes. Contracts see the opening content, the publications with those whose publish was
/// refused, those that are shown, and the pending entries: that what is shown is what its publications
/// leave over the opening content stands in its type.
#[derive(Drop)]
pub struct Pair<L: Live, N: RoomName<L::Content>, R: Wait + Drop, A: Allocator = Global> {
    copies: Copies<Shown<L, N>, Step<L, N>, R, A>,
    book: Book<L, N>,
    trail: Trail<L, N>,
    waiting: Option<Step<L, N>>,
}

impl<L: Live, N: RoomName<L::Content>, R: Wait + Drop, A: Allocator> Model for Pair<L, N, R, A> {
    ghost use Rattle.cq_room.specs.Marks.{publications, fresh_in};
    ghost use Rattle.cq_room.specs.Pair.{PairRecord, opening_or};
    ghost use Rattle.cq_room.specs.Steps.Pair.{IsPaired};

    ghost Value = { PairRecord L.Edit L.Content };

    ghost view = { λ p. record { opening = opening_or p.copies.shown.content N.opening; history = publications p.trail; shown = publications p.copies.shown.marks; pending = fresh_in p.trail } };

    ghost invariant = { λ p. IsPaired N.opening p.copies.shown.content p.copies.shown.marks p.copies.pending p.waiting p.trail };
}

/// Hands over the step that waits.
fn settle<L: Live, N: RoomName<L::Content>, R: Wait + Drop, A: Allocator + Copy>(
    copies: &mut Copies<Shown<L, N>, Step<L, N>, R, A>,
    waiting: &mut Option<Step<L, N>>,
) -> Result<(), NoMemory>
    ensures same { copies.new.shown ≡ copies.old.shown }
    ensures settled { MatchResult result
        (λ _. (waiting.new ≡ None) × (last_of copies.new.shown.marks copies.new.pending ≡ ends_at copies.old.shown.marks copies.old.pending waiting.old))
        (λ _. (copies.new.pending ≡ copies.old.pending) × (waiting.new ≡ waiting.old)) }
{
    match waiting.take() {
        None => Ok(()),
        Some(step) => match copies.append(step) {
            Ok(()) => Ok(()),
            Err(step) => {
                *waiting = Some(step);
                Err(NoMemory)
            }
        },
    }
}

/// Ends the publication, if an entry stands after the last one.
fn end<L: Live, N: RoomName<L::Content>, R: Wait + Drop, A: Allocator + Copy>(
    copies: &mut Copies<Shown<L, N>, Step<L, N>, R, A>,
    waiting: &mut Option<Step<L, N>>,
    book: &Book<L, N>,
    trail: &mut Trail<L, N>,
) -> Result<(), NoMemory>
    requires { ends_at copies.old.shown.marks copies.old.pending waiting.old ≡ trail.old }
    ensures same { copies.new.shown ≡ copies.old.shown }
    ensures begins { IsPrefix trail.old trail.new }
    ensures ends { ends_at copies.new.shown.marks copies.new.pending waiting.new ≡ trail.new }
    ensures grown { grown (publications trail.new) (fresh_in trail.new) ≡ grown (publications trail.old) (fresh_in trail.old) }
    ensures ended { IfOk result (λ _. (waiting.new ≡ None) × (fresh_in trail.new ≡ [])) }
{
    settle(copies, waiting)?;
    if trail.fresh() == 0 {
        return Ok(());
    }
    if trail.entries() >= MOST {
        return Err(NoMemory);
    }
    let mut next = trail.again();
    if !next.cut(book) {
        return Err(NoMemory);
    }
    let step = Step::over(None, next.again());
    *trail = next;
    match copies.append(step) {
        Ok(()) => Ok(()),
        Err(step) => {
            *waiting = Some(step);
            Err(NoMemory)
        }
    }
}

impl<L: Live, N: RoomName<L::Content>, R: Wait + Drop, A: Allocator + Copy> Pair<L, N, R, A> {
    /// The pair over two states of the same content, with an empty history and room for so many readers.
    ///
    /// # Errors
    /// `NoMemory` where an allocation failed.
    pub(crate) fn begin(
        rt: R,
        alloc: A,
        first: L,
        second: L,
        book: Book<L, N>,
        trail: Trail<L, N>,
        readers: usize,
    ) -> Result<Pair<L, N, R, A>, NoMemory>
        requires trail { trail ≡ [] }
        requires opening { N.opening ≡ L.content first ∷ [] }
        requires alike { L.content second ≡ L.content first }
        requires readers { (0 < readers) × (readers < 2 ^ 32) }
        ensures { IfOk result (λ pair. pair ≡ record { opening = L.content first; history = []; shown = []; pending = [] }) }
    {
        let first = Shown::over(first, trail.again());
        let second = Shown::over(second, trail.again());
        let copies = Copies::begin(rt, alloc, first, second, readers)?;
        Ok(Pair {
            copies,
            book,
            trail,
            waiting: None,
        })
    }

    /// The trail of what is shown.
    pub(crate) fn shown(&self) -> Trail<L, N>
        ensures shown { publications result ≡ self.now.shown }
        ensures whole { fresh_in result ≡ [] }
        ensures accepted { WereAccepted L.after L.why N.opening (entries_in result) }
    {
        self.copies.shown().trail().again()
    }

    /// A session that has seen what is shown, and knows of what is entered. It is refused where all places are taken.
    pub(crate) fn session(
        &self,
        entered: &Trail<L, JournalOf<N>>,
        number: usize,
    ) -> Result<Session<L, N, A>, AllocError>
        ensures { IfOk result (λ session. session ≡ record { number = number; history = self.now.shown; known = entries_in entered.now }) }
    {
        let reader = self.copies.reader()?;
        Ok(Session::over(reader, self.shown(), entered.again(), number))
    }
}

impl<L: Live, N: RoomName<L::Content>, R: Wait + Drop, A: Allocator + Copy> Publisher<L>
    for Pair<L, N, R, A> {
    type Leave = R;

    ghost opening = { λ p. p.opening };

    ghost history = { λ p. p.history };

    ghost shown = { λ p. p.shown };

    ghost pending = { λ p. p.pending };

    fn append(&mut self, author: usize, edit: L::Edit) -> Result<(), NoMemory> {
        settle(&mut self.copies, &mut self.waiting)?;
        if self.trail.entries() >= MOST {
            return Err(NoMemory);
        }
        let mut trail = self.trail.again();
        let entry = Entry { author, edit };
        if !trail.enter(&self.book, &entry) {
            return Err(NoMemory);
        }
        let step = Step::over(Some(entry), trail.again());
        if let Err(step) = self.copies.append(step) {
            self.waiting = Some(step);
        }
        self.trail = trail;
        Ok(())
    }

    fn publish(&mut self, leave: &R) -> Result<(), NoMemory> {
        end(
            &mut self.copies,
            &mut self.waiting,
            &self.book,
            &mut self.trail,
        )?;
        match self.copies.publish(leave) {
            Ok(()) => Ok(()),
            Err(_) => Err(NoMemory),
        }
    }
}

impl<L: Live, N: RoomName<L::Content>, R: Wait + Drop, A: Allocator + Copy> Watched<L, N>
    for Pair<L, N, R, A> {
    fn logged(&self) -> &Trail<L, N> {
        &self.trail
    }

    fn front(&self) -> Front<L, N> {
        Front::over(self.shown())
    }
}
