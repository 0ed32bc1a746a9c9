//! The index: atoms by their places, and the places in buckets.

ghost use Rattle.std.specs.Prelude.{◌≡◌, ◌↔◌, ◌+◌, ◌≤◌, ℕ, nat_eq, Some, None, IsSome, IsTrue, IfOk, OnOk, OnErr, length, min};
ghost use Rattle.std.specs.FinMap as map;
ghost use Rattle.std.specs.List.{Contains, list_any, IsDistinct};
ghost use Rattle.std.specs.List.Sorted.{IsStrictlyIncreasing};
ghost use Rattle.cq_index.specs.Index.{candidates_of, is_candidate_at, IsCandidateAt, IsPartnerAt};
ghost use Rattle.cq_index.specs.Steps.Keys.{key_of, open_of, group_of};
ghost use Rattle.cq_index.specs.Steps.Buckets.{holds, Joins};

use crate::buckets::{Buckets, add_places};
use crate::kept::{Places, forget, keep};
use crate::key::{Reach, asked_of, begins_with_constant};
use cq_atom::{Atom, Meter, unify};
use indexmap::IndexMap;
use std::alloc::{AllocError, Allocator, Global};
use std::marker::Model;

/// Atoms at places, and for a given atom those that may unify with it. Contracts see the finite map
/// from places to atoms.
#[derive(Drop)]
pub struct AtomIndex<A: Allocator = Global> {
    kept: Places<A>,
    buckets: Buckets<A>,
}

impl<A: Allocator> Model for AtomIndex<A> {
    ghost use Rattle.std.specs.Ordering.{nat_cmp};
    ghost use Rattle.std.specs.FinMap.{FinMap, from_entries, code};
    ghost use Rattle.std.specs.Coded.{coded_ℕ, codes};
    ghost use Rattle.cq_atom.specs.Atom.{AtomRecord};

    ghost Value = { FinMap nat_cmp AtomRecord };

    ghost coded = { code coded_ℕ (Prim.hlevel codes) };

    ghost use Rattle.cq_index.specs.Steps.Kept.{AreIndexed};

    ghost view = { λ a. from_entries a.kept.entries };

    ghost invariant = { λ a. AreIndexed a.kept.entries a.buckets.entries };
}

/// The places in the bucket of the atom and in that of the atoms that begin with a variable.
fn beside<A: Allocator + Copy>(
    alloc: A,
    buckets: &Buckets<A>,
    atom: &Atom<A>,
) -> Result<Vec<usize, A>, AllocError>
    ensures { IfOk result (λ places. Joins places.items (holds buckets.now.entries (key_of atom.now)) (holds buckets.now.entries (open_of atom.now))) }
{
    let mut places = Vec::new(alloc);
    add_places(&mut places, buckets, asked_of(atom, Reach::Own))?;
    add_places(&mut places, buckets, asked_of(atom, Reach::Open))?;
    Ok(places)
}

/// The places in the bucket of the atom's group.
fn grouped<A: Allocator + Copy>(
    alloc: A,
    buckets: &Buckets<A>,
    atom: &Atom<A>,
) -> Result<Vec<usize, A>, AllocError>
    ensures members { IfOk result (λ places. (p : ℕ) → list_any (nat_eq p) places.items ≡ holds buckets.now.entries (group_of atom.now) p) }
    ensures distinct { IfOk result (λ places. IsDistinct nat_eq places.items) }
{
    let mut places = Vec::new(alloc);
    add_places(&mut places, buckets, asked_of(atom, Reach::Group))?;
    Ok(places)
}

impl<A: Allocator + Copy> AtomIndex<A> {
    /// An index without atoms.
    pub fn begin(alloc: A) -> AtomIndex<A>
        ensures { result ≡ map.empty }
    {
        AtomIndex {
            kept: IndexMap::new(alloc),
            buckets: IndexMap::new(alloc),
        }
    }

    /// Whether an atom stands at the place. Constant expected time.
    pub fn has(&self, place: usize) -> bool
        ensures { result ≡ map.contains_key self.now place }
    {
        self.kept.contains_key(&place)
    }

    /// Puts a copy of the atom at the place, where none stands. Constant expected time, however
    /// many atoms share its buckets.
    ///
    /// # Errors
    /// `AllocError` where an allocation failed; then nothing has changed.
    pub fn add(&mut self, place: usize, atom: &Atom<A>) -> Result<(), AllocError>
        requires { map.get self.old place ≡ None }
        ensures ok { OnOk result (self.new ≡ map.insert self.old place atom.now) }
        ensures err { OnErr result (self.new ≡ self.old) }
    {
        let alloc = *self.kept.allocator();
        keep(alloc, &mut self.kept, &mut self.buckets, place, atom)
    }

    /// Takes the atom away that stands at the place; the place is what it is found by. Takes no
    /// memory, and constant expected time, however many atoms share its buckets.
    pub fn remove(&mut self, place: usize, atom: &Atom<A>)
        requires { map.get self.old place ≡ Some atom.now }
        ensures { self.new ≡ map.remove self.old place }
    {
        let _ = atom;
        forget(&mut self.kept, &mut self.buckets, place);
    }

    /// The places of the atoms that may unify with the given one, in no order.
    fn gathered(&self, alloc: A, atom: &Atom<A>) -> Result<Vec<usize, A>, AllocError>
        ensures members { IfOk result (λ places. (p : ℕ) → list_any (nat_eq p) places.items ≡ is_candidate_at self.now atom.now p) }
        ensures distinct { IfOk result (λ places. IsDistinct nat_eq places.items) }
    {
        if begins_with_constant(atom) {
            beside(alloc, &self.buckets, atom)
        } else {
            grouped(alloc, &self.buckets, atom)
        }
    }

    /// The places of the candidates of the given atom, rising: of the atoms with its relation and
    /// arity, where the first arguments of both are not two different constants. An atom that is
    /// no candidate cannot unify with it. The time is that of sorting the answer.
    ///
    /// # Errors
    /// `AllocError` where an allocation failed.
    pub fn candidates(&self, atom: &Atom<A>) -> Result<Vec<usize, A>, AllocError>
        ensures listed { IfOk result (λ places. places.items ≡ candidates_of self.now atom.now) }
        ensures exact { IfOk result (λ places. (p : ℕ) → Contains places.items p ↔ IsCandidateAt self.now atom.now p) }
        ensures rising { IfOk result (λ places. IsStrictlyIncreasing places.items) }
    {
        let mut places = self.gathered(*self.kept.allocator(), atom)?;
        places.sort_unstable();
        Ok(places)
    }

    /// Whether the atom at the place unifies with the given one: one test, which the meter counts.
    fn unifies_at(&self, place: usize, atom: &Atom<A>, meter: &mut Meter) -> bool
        requires { IsSome (map.get self.now place) }
        ensures unifies { IsTrue result ↔ IsPartnerAt self.now atom.now place }
        ensures ticks { meter.new ≡ min (meter.old + 1) u64.MAX }
    {
        let kept = self.kept.get(&place).unwrap();
        unify(atom, kept, meter)
    }

    /// The places of the atoms that unify with the given one, rising. The meter counts one test for
    /// each candidate, whether it unifies or not.
    ///
    /// # Errors
    /// `AllocError` where an allocation failed; the meter has counted the tests that were made before then.
    pub fn partners(&self, atom: &Atom<A>, meter: &mut Meter) -> Result<Vec<usize, A>, AllocError>
        ensures exact { IfOk result (λ places. (p : ℕ) → Contains places.items p ↔ IsPartnerAt self.now atom.now p) }
        ensures rising { IfOk result (λ places. IsStrictlyIncreasing places.items) }
        ensures ticks { OnOk result (meter.new ≡ min (meter.old + length (candidates_of self.now atom.now)) u64.MAX) }
        ensures rises { meter.old ≤ meter.new }
        ensures at_most { meter.new ≤ min (meter.old + length (candidates_of self.now atom.now)) u64.MAX }
    {
        let _counted = meter.count();
        let candidates = self.candidates(atom)?;
        let mut partners = Vec::new(*self.kept.allocator());
        for place in &candidates {
            if self.unifies_at(*place, atom, meter) {
                partners.push(*place)?;
            }
        }
        Ok(partners)
    }

    /// An index with the same atoms at the same places, on the same allocator. Constant expected
    /// time for each atom.
    ///
    /// # Errors
    /// `AllocError` where an allocation failed.
    pub fn copy(&self) -> Result<AtomIndex<A>, AllocError>
        ensures { IfOk result (λ copy. copy ≡ self.now) }
    {
        let mut copy = AtomIndex::begin(*self.kept.allocator());
        for (place, atom) in &self.kept {
            copy.add(*place, atom)?;
        }
        Ok(copy)
    }
}
