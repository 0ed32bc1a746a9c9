//! Atoms.

ghost use Rattle.std.specs.Prelude.{◌≡◌, ◌≤◌, length, IfOk, IsTrue};
ghost use Rattle.cq_atom.specs.Answer.{Answers};
ghost use Rattle.cq_atom.specs.Limits.{max_arity};
ghost use Rattle.cq_atom.specs.Text.{is_relation_name};
ghost use Rattle.cq_atom.specs.Atom.{AtomRecord, arity_fault};
ghost use Rattle.cq_atom.specs.Valuation.{under};

use crate::fault::Bad;
use crate::limits::MAX_ARITY;
use crate::name::Name;
use crate::term::Term;
use crate::valuation::{Valuation, terms_under};
use crate::word::is_relation_text;
use std::alloc::{AllocError, Allocator, Global};
use std::marker::Model;
use std::sync::Arc;

/// An atom: a relation's name, which begins with an upper-case letter, over 1 to 16 terms.
#[derive(Drop)]
pub struct Atom<A: Allocator = Global> {
    parts: Arc<AtomParts<A>, A>,
}

/// What an atom is made of, which nothing changes once it is made.
#[derive(Drop)]
struct AtomParts<A: Allocator> {
    relation: Name<A>,
    terms: Vec<Term<A>, A>,
}

impl<A: Allocator> Model for Atom<A> {
    ghost use Rattle.std.specs.Prelude.{◌≡◌, length, None};
    ghost use Rattle.cq_atom.specs.Atom.{AtomRecord, arity_fault};
    ghost use Rattle.std.specs.Arc.{arc_value};

    ghost Value = { AtomRecord };

    ghost view = { λ a. record { relation = (arc_value a.parts).relation; terms = (arc_value a.parts).terms.items } };

    ghost invariant = { λ a. arity_fault (arc_value a.parts).relation (length (arc_value a.parts).terms.items) ≡ None };
}

/// Why a relation's name over that many terms or values makes nothing.
pub(crate) fn arity_fault(relation: &str, count: usize) -> Option<Bad>
    ensures { result ≡ arity_fault relation.now count }
{
    if !is_relation_text(relation) {
        return Some(Bad::BadName);
    }
    if count == 0 || count > MAX_ARITY {
        return Some(Bad::BadArity);
    }
    None
}

impl<A: Allocator + Clone> Atom<A> {
    /// The atom of a relation's name over terms.
    ///
    /// # Errors
    /// `BadName` unless the bytes are a name that begins with an upper-case letter; then `BadArity`
    /// unless there are 1 to 16 terms; else `NoMemory` where the allocation failed.
    pub fn new(alloc: A, relation: &str, terms: Vec<Term<A>, A>) -> Result<Atom<A>, Bad>
        ensures { let atom : AtomRecord = record { relation = relation.now; terms = terms.items } in
            Answers Bad.NoMemory (arity_fault relation.now (length terms.items)) atom result }
    {
        if let Some(bad) = arity_fault(relation, terms.len()) {
            return Err(bad);
        }
        let relation = Name::known(alloc.clone()?, relation)?;
        let parts = Arc::new(alloc, AtomParts { relation, terms })?;
        Ok(Atom { parts })
    }
}

impl<A: Allocator> Atom<A> {
    /// The relation's name.
    pub fn relation(&self) -> &str
        ensures value { result.now ≡ self.now.relation }
        ensures valid { IsTrue (is_relation_name result.now) }
    {
        self.parts.relation.as_str()
    }

    /// The terms, in order.
    pub fn terms(&self) -> &[Term<A>]
        ensures value { result.now ≡ self.now.terms }
        ensures some { 1 ≤ length self.now.terms }
        ensures few { length self.now.terms ≤ max_arity }
    {
        self.parts.terms.as_slice()
    }
}

impl<A: Allocator + Clone> Clone for Atom<A> {
    ghost use Rattle.std.specs.Prelude.{◌≡◌};

    ghost is_clone = { λ a b. b ≡ a };

    fn clone(&self) -> Result<Atom<A>, AllocError> {
        Ok(Atom {
            parts: Arc::try_clone(&self.parts)?,
        })
    }
}

impl<A: Allocator + Clone> Atom<A> {
    /// An equal atom, which shares what the atom holds: it takes no memory.
    ///
    /// # Errors
    /// `AllocError` where 2^63 - 1 equal ones share it already.
    pub fn copy(&self) -> Result<Atom<A>, AllocError>
        ensures { IfOk result (λ atom. atom ≡ self.now) }
    {
        self.clone()
    }

    /// The atom under the valuation, on the atom's allocator: each variable that the valuation
    /// knows is replaced by its value, and every other term stays.
    ///
    /// # Errors
    /// `AllocError` where an allocation failed.
    pub fn under(&self, valuation: &Valuation<A>) -> Result<Atom<A>, AllocError>
        ensures { IfOk result (λ atom. atom ≡ under valuation.now self.now) }
    {
        let relation = self.parts.relation.clone()?;
        let alloc = self.parts.terms.allocator().clone()?;
        let terms = terms_under(alloc.clone()?, &self.parts.terms, valuation)?;
        let parts = Arc::new(alloc, AtomParts { relation, terms })?;
        Ok(Atom { parts })
    }
}
