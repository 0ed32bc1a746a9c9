//! The history of a room: marks that are only added to, and the one word that all threads share.

ghost use Rattle.std.specs.Prelude.{◌≡◌, []};
ghost use Rattle.cq_room.specs.Steps.Rules.{head_of};

use crate::mark::Mark;
use crate::names::RoomName;
use crate::trail::Trail;
use cq_desk::{Entry, Live};
use logbook::{Gain, Plain, Play, Rule, Seen, Start, Word};
use std::marker::{Model, PhantomData};

/// The rule of the history: the shared word is its length.
pub(crate) struct Length;

impl<E> Rule<Mark<E>, u64> for Length {
    ghost use Rattle.std.specs.Prelude.{[]};
    ghost use base.Fml.{ftrue};
    ghost use Rattle.cq_room.specs.Steps.Rules.{IsKept};

    ghost holds = { λ cells log. IsKept cells log };

    ghost first = { [] };

    ghost hinted = { λ n log. Unit {0} };

    ghost shows = { λ log. [] };

    ghost keeps = { λ names log. ftrue };

    ghost moves = { λ ask before after answer. Unit {0} };
}

/// Callers trade nothing.
pub(crate) struct Nothing;

impl<E> Gain<Mark<E>, u64> for Nothing {
    ghost use base.Fml.{ftrue};

    ghost after = { λ names about answer. ftrue };
}

/// The step that adds a mark where nothing was added since.
pub(crate) struct Add;

impl<E> Play<Mark<E>, u64> for Add {
    ghost use Rattle.cq_room.specs.Steps.Rules.{Adds};

    ghost then = { Adds };
}

/// Adding an entry.
impl<E> Plain<Entry<E>, Mark<E>, u64> for Add {
    ghost use Rattle.std.specs.Prelude.{None};
    ghost use Rattle.cq_room.specs.declared.mark.Mark.TheVariants.{Entered};

    ghost ask = { λ entry. Entered entry };

    ghost state = { λ entry. None };
}

/// Adding the end of a publication.
pub(crate) struct End;

impl<E> Plain<(), Mark<E>, u64> for End {
    ghost use Rattle.std.specs.Prelude.{None};
    ghost use Rattle.cq_room.specs.declared.mark.Mark.TheVariants.{Cut};

    ghost ask = { λ _. Cut };

    ghost state = { λ _. None };
}

/// An empty history that has no name yet.
#[derive(Drop)]
pub(crate) struct Opened<L: Live> {
    head: Word<Mark<L::Edit>, u64, Length>,
    seen: Seen<Mark<L::Edit>, u64, Length>,
    pub(crate) ghost empty: { seen.log ≡ [] },
    pub(crate) ghost head_is: { head ≡ head_of seen.book },
}

impl<L: Live> Opened<L> {
    pub(crate) fn new() -> Opened<L> {
        let (seen, mut first, _second) = Seen::open(Start::alone(), 0, 0);
        Opened {
            head: Word::tracked(0, &mut first),
            seen,
        }
    }

    /// The history's word under a name, and the trail that has seen nothing.
    pub(crate) fn named<N: RoomName<L::Content>>(self) -> (Book<L, N>, Trail<L, N>)
        requires { self.seen.book ≡ N.book.0 }
        ensures { result.1 ≡ [] }
    {
        let Opened { head, seen } = self;
        let book = Book {
            head,
            of: PhantomData,
        };
        (book, Trail::over(seen))
    }
}

/// The word that all threads share: the length of the history. That it is the word of the history
/// that is named stands in this type.
#[derive(Drop)]
pub(crate) struct Book<L: Live, N: RoomName<L::Content>> {
    pub(crate) head: Word<Mark<L::Edit>, u64, Length>,
    of: PhantomData<N>,
}

impl<L: Live, N: RoomName<L::Content>> Model for Book<L, N> {
    ghost use Rattle.std.specs.Prelude.{◌≡◌};
    ghost use Rattle.logbook.specs.Pages.{Named};
    ghost use Rattle.cq_room.specs.Steps.Rules.{head_of};

    ghost Value = { Named };

    ghost view = { λ b. b.head };

    ghost invariant = { λ b. b.head ≡ head_of N.book.0 };
}
