//! Two copies that `left_right` keeps, as contracts see them.

ghost use Rattle.std.specs.Prelude.{◌≡◌, ◌++◌, ◌∷◌, ◌<◌, ◌^◌, [], fold, IfOk, MatchResult};

use core::mem::replace_with;
use crossbeam_utils::rule::Unruled;
use left_right::Absorb;
use left_right::reader::Reader;
use left_right::writer::Writer;
use std::alloc::{AllocError, Allocator, Global};
use std::marker::Model;
use std::sync::Wait;

/// Two copies, of which readers see one. Contracts see what is shown and the operations that are
/// pending. It keeps a handle, since its drop waits for readers.
pub(crate) struct Copies<T: Absorb<O> + Drop, O: Drop, R: Wait + Drop, A: Allocator = Global> {
    writer: Writer<T, O, (), Unruled, A>,
    rt: R,
}

impl<T: Absorb<O> + Drop, O: Drop, R: Wait + Drop, A: Allocator> Model for Copies<T, O, R, A> {
    ghost use Rattle.std.specs.Prelude.{drop};
    ghost use Rattle.cq_room.specs.Steps.Copies.{CopiesRecord};

    ghost Value = { CopiesRecord T O };

    ghost view = { λ c. record { shown = c.writer.desk.shown.value; pending = drop c.writer.behind c.writer.log.items } };
}

impl<T: Absorb<O> + Drop, O: Drop, R: Wait + Drop, A: Allocator> Drop for Copies<T, O, R, A> {
    fn drop(self) {
        let Self { writer, rt } = self;
        drop(writer.take(&rt));
    }
}

impl<T: Absorb<O> + Drop, O: Drop, R: Wait + Drop, A: Allocator + Copy> Copies<T, O, R, A> {
    /// Two copies with room for so many readers.
    pub(crate) fn begin(
        rt: R,
        alloc: A,
        first: T,
        second: T,
        readers: usize,
    ) -> Result<Copies<T, O, R, A>, AllocError>
        requires readers { (0 < readers) × (readers < 2 ^ 32) }
        requires alike { T.state first ≡ T.state second }
        ensures { IfOk result (λ copies. (copies.shown ≡ first) × (copies.pending ≡ [])) }
    {
        let writer = Writer::new(alloc, first, second, readers)?;
        Ok(Copies { writer, rt })
    }

    /// A reader. It is refused where all places are taken.
    pub(crate) fn reader(&self) -> Result<Reader<T, (), Unruled, A>, AllocError> {
        self.writer.factory().reader()
    }

    /// What readers see.
    pub(crate) fn shown(&self) -> &T
        ensures { result.now ≡ self.now.shown }
    {
        self.writer.published()
    }

    /// Adds a pending operation. It comes back where an allocation failed.
    pub(crate) fn append(&mut self, operation: O) -> Result<(), O>
        ensures shown { self.new.shown ≡ self.old.shown }
        ensures pending { MatchResult result (λ _. self.new.pending ≡ self.old.pending ++ operation ∷ []) (λ back. (back ≡ operation) × (self.new.pending ≡ self.old.pending)) }
    {
        self.writer.append(operation)
    }

    /// Shows what all pending operations leave. It waits for those who still read the other copy.
    pub(crate) fn publish<W: Wait>(&mut self, leave: &W) -> Result<(), AllocError>
        ensures values { MatchResult result (λ _. (T.state self.new.shown ≡ fold T.applied (T.state self.old.shown) self.old.pending) × (self.new.pending ≡ [])) (λ _. (self.new.shown ≡ self.old.shown) × (self.new.pending ≡ self.old.pending)) }
    {
        replace_with(&mut self.writer, leave, |writer, leave| {
            writer.publish_as::<Unruled, W>(leave)
        })
    }
}
