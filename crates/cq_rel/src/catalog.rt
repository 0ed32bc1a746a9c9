//! Catalogs.

ghost use Rattle.std.specs.Prelude.{◌≡◌, ◌≤◌, ◌<◌, ◌++◌, ◌∷◌, [], length, slice_index_or, OnOk, OnErr, IfOk, IfErr, None, Some};
ghost use Rattle.std.specs.List.{position, slice_get};
ghost use Rattle.std.specs.Option.{MatchOption};
ghost use Rattle.cq_atom.specs.Answer.{Answers};
ghost use Rattle.cq_atom.specs.Limits.{max_arity};
ghost use Rattle.cq_rel.specs.Tables.{Declaration, IsCatalog, declaration, arity_in, declares, declare_fault, row_fault};

use crate::fault::{CatalogFault, RowFault};
use crate::limits::MAX_RELATIONS;
use cq_atom::{MAX_ARITY, Name, Row, is_relation_text, same_name};
use std::alloc::{AllocError, Allocator, Global};
use std::marker::Model;

/// A declared relation.
#[derive(Drop)]
pub(crate) struct Entry<A: Allocator = Global> {
    relation: Name<A>,
    arity: usize,
}

impl<A: Allocator> Model for Entry<A> {
    ghost use Rattle.cq_rel.specs.Tables.{Declaration};

    ghost Value = { Declaration };

    ghost view = { λ e. record { relation = e.relation; arity = e.arity } };
}

impl<A: Allocator> Entry<A> {
    fn relation(&self) -> &str
        ensures { result.now ≡ self.now.relation }
    {
        self.relation.as_str()
    }

    fn arity(&self) -> usize
        ensures { result ≡ self.now.arity }
    {
        self.arity
    }

    fn declares(&self, relation: &str) -> bool
        ensures { result ≡ declares relation.now self.now }
    {
        same_name(relation, self.relation.as_str())
    }
}

/// A catalog: up to 64 declared relations, each with a name that begins with an upper-case letter
/// and an arity from 1 to 16.
#[derive(Drop)]
pub struct Catalog<A: Allocator = Global> {
    entries: Vec<Entry<A>, A>,
}

impl<A: Allocator> Model for Catalog<A> {
    ghost use Rattle.std.specs.Prelude.{List};
    ghost use Rattle.cq_rel.specs.Tables.{Declaration, IsCatalog};

    ghost Value = { List Declaration };

    ghost view = { λ c. c.entries.items };

    ghost invariant = { λ c. IsCatalog c.entries.items };
}

impl<A: Allocator> Catalog<A> {
    /// The catalog that declares nothing. It keeps the allocator for `declare`.
    pub fn empty(alloc: A) -> Catalog<A>
        ensures { result ≡ [] }
    {
        Catalog {
            entries: Vec::new(alloc),
        }
    }

    /// The arity of a relation, where it is declared.
    pub fn arity_of(&self, relation: &str) -> Option<usize>
        ensures { result ≡ arity_in self.now relation.now }
    {
        for entry in &self.entries {
            if entry.declares(relation) {
                return Some(entry.arity());
            }
        }
        None
    }

    /// Where the relation is declared.
    pub(crate) fn place_of(&self, relation: &str) -> Option<usize>
        ensures { result ≡ position (declares relation.now) self.now }
    {
        self.entries
            .iter()
            .position(|entry| entry.declares(relation))
    }

    /// The arity of the relation that is declared there.
    pub(crate) fn arity_at(&self, place: usize) -> usize
        requires { place < length self.now }
        ensures few { result ≤ max_arity }
        ensures arity { (d : Declaration) → result ≡ (slice_index_or self.now place d).arity }
    {
        self.entries[place].arity()
    }

    /// Where the row's relation is declared, if it is, and with the row's arity.
    pub(crate) fn place_for(&self, row: &Row<A>) -> Result<usize, RowFault>
        ensures found { IfOk result (λ place. (row_fault self.now row.now ≡ None) × (position (declares row.now.relation) self.now ≡ Some place)) }
        ensures fault { IfErr result (λ fault. row_fault self.now row.now ≡ Some fault) }
    {
        let Some(place) = self.place_of(row.relation()) else {
            return Err(RowFault::UnknownRelation);
        };
        let entry = &self.entries[place];
        if entry.arity() != row.values().len() {
            return Err(RowFault::Arity);
        }
        Ok(place)
    }

    /// The allocator of the entries.
    pub(crate) fn allocator(&self) -> &A {
        self.entries.allocator()
    }

    /// Why the relation cannot be declared.
    fn fault_of(&self, relation: &str, arity: usize) -> Option<CatalogFault>
        ensures { result ≡ declare_fault self.now relation.now arity }
    {
        if !is_relation_text(relation) {
            return Some(CatalogFault::BadName);
        }
        if arity == 0 || arity > MAX_ARITY {
            return Some(CatalogFault::BadArity);
        }
        if self.arity_of(relation).is_some() {
            return Some(CatalogFault::Declared);
        }
        if self.entries.len() >= MAX_RELATIONS {
            return Some(CatalogFault::CatalogFull);
        }
        None
    }

    /// How many relations are declared.
    pub fn len(&self) -> usize
        ensures value { result ≡ length self.now }
        ensures valid { IsCatalog self.now }
    {
        self.entries.len()
    }

    /// The name and the arity of the relation at that place, in order of declaration from 0.
    pub fn entry(&self, place: usize) -> Option<(&str, usize)>
        ensures { MatchOption result (slice_get self.now place ≡ None) (λ e. slice_get self.now place ≡ Some (declaration e.0.now e.1)) }
    {
        let entry = self.entries.get(place)?;
        Some((entry.relation(), entry.arity()))
    }
}

impl<A: Allocator + Clone> Catalog<A> {
    /// Declares a relation, after those that are declared.
    ///
    /// # Errors
    /// In this order: `BadName` unless the bytes are a name that begins with an upper-case letter;
    /// `BadArity` unless the arity is 1 to 16; `Declared` where the catalog has the relation;
    /// `CatalogFull` where it has 64; `NoMemory` where an allocation failed. The catalog stays as it
    /// was then.
    pub fn declare(&mut self, relation: &str, arity: usize) -> Result<(), CatalogFault>
        ensures answer { Answers CatalogFault.NoMemory (declare_fault self.old relation.now arity) tt result }
        ensures ok { OnOk result (self.new ≡ self.old ++ declaration relation.now arity ∷ []) }
        ensures err { OnErr result (self.new ≡ self.old) }
    {
        if let Some(fault) = self.fault_of(relation, arity) {
            return Err(fault);
        }
        let alloc = self.entries.allocator().clone()?;
        // The bytes are a name, so that only memory can run out.
        let Ok(relation) = Name::new(alloc, relation) else {
            return Err(CatalogFault::NoMemory);
        };
        self.entries.push(Entry { relation, arity })?;
        Ok(())
    }

    /// An equal catalog, on the same allocator.
    ///
    /// # Errors
    /// `AllocError` where an allocation failed.
    pub fn copy(&self) -> Result<Catalog<A>, AllocError>
        ensures { IfOk result (λ catalog. catalog ≡ self.now) }
    {
        self.clone()
    }
}

impl<A: Allocator + Clone> Clone for Entry<A> {
    ghost use Rattle.std.specs.Prelude.{◌≡◌};

    ghost is_clone = { λ a b. b ≡ a };

    fn clone(&self) -> Result<Entry<A>, AllocError> {
        Ok(Entry {
            relation: self.relation.clone()?,
            arity: self.arity,
        })
    }
}

impl<A: Allocator + Clone> Clone for Catalog<A> {
    ghost use Rattle.std.specs.Prelude.{◌≡◌};

    ghost is_clone = { λ a b. b ≡ a };

    fn clone(&self) -> Result<Catalog<A>, AllocError> {
        Ok(Catalog {
            entries: self.entries.clone()?,
        })
    }
}
