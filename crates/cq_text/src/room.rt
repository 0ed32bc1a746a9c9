//! Room that is used again and again.

ghost use Rattle.std.specs.Prelude.{◌≡◌, [], Ok};
ghost use Rattle.cq_text.specs.Steps.Lexemes.{Gives};

use crate::fault::TextFault;
use cq_atom::Term;
use std::alloc::Allocator;
use std::marker::Model;
use std::mem;

/// Room to gather terms in, which is empty. Contracts see nothing of it.
#[derive(Drop)]
pub(crate) struct Room<A: Allocator> {
    terms: Vec<Term<A>, A>,
}

impl<A: Allocator> Model for Room<A> {
    ghost use Rattle.std.specs.Prelude.{◌≡◌, []};

    ghost Value = { Unit {0} };

    ghost view = { λ r. tt };

    ghost invariant = { λ r. r.terms.items ≡ [] };
}

impl<A: Allocator + Copy> Room<A> {
    pub(crate) fn new(alloc: A) -> Room<A> {
        Room {
            terms: Vec::new(alloc),
        }
    }

    /// The room as a list, which is taken until it comes back.
    pub(crate) fn take(&mut self, alloc: A) -> Vec<Term<A>, A>
        ensures { result.items ≡ [] }
    {
        mem::replace(&mut self.terms, Vec::new(alloc))
    }

    /// The gathered terms in a block that is no larger than they are. Their room comes back.
    pub(crate) fn gathered(
        &mut self,
        alloc: A,
        mut room: Vec<Term<A>, A>,
    ) -> Result<Vec<Term<A>, A>, TextFault>
        ensures { Gives (λ terms. terms.items) result (Ok room.items) }
    {
        let mut terms = Vec::with_capacity(alloc, room.len())?;
        terms.append(&mut room)?;
        self.terms = room;
        Ok(terms)
    }
}
