//! Boards under another setup: with one relation more, or with other limits.

ghost use Rattle.std.specs.Prelude.{◌≡◌, None, IfOk, OnOk, OnErr};
ghost use Rattle.std.specs.List.{list_any};
ghost use Rattle.cq_atom.specs.Answer.{Answers};
ghost use Rattle.cq_rel.specs.Tables.{declaration, declare_fault, rows_in};
ghost use Rattle.cq_board.specs.declared.setup.RelationFault.TheVariants.{NoMemory};
ghost use Rattle.cq_board.specs.Setup.{declared_in, is_over, is_used, limits_fault, refused_by, relation_fault, uses, with_limits, with_relation};
ghost use Rattle.cq_board.specs.Steps.Setup.{AreNew, rows_of_all, rows_put};
ghost use Rattle.cq_board.specs.Steps.Stores.{pending_of, query_at};

use crate::board::Board;
use crate::limits::Limits;
use crate::stores::Stores;
use cq_atom::{Atom, MAX_ARITY, Query, is_relation_text, same_name};
use cq_grounded::GroundedQueries;
use cq_rel::{Catalog, CatalogFault, MAX_RELATIONS, Tables};
use std::alloc::{AllocError, AllocFailed, Allocator};
use thiserror::Error;

/// Why a board does not declare a relation: the first that applies, in this order.
#[derive(Clone, Copy, Debug, PartialEq, Eq, Error)]
pub enum RelationFault {
    /// The catalog refuses the relation, for this reason.
    #[error("{0}")]
    Refused(CatalogFault),
    /// A postcondition or a head of a pending query is over the relation.
    #[error("a pending query waits for the relation or offers it")]
    InUse,
    /// An allocation failed.
    #[error("out of memory")]
    NoMemory,
}

impl From<AllocError> for RelationFault {
    ghost from_gives = { λ _ e. e ≡ NoMemory };

    fn from(_e: AllocError) -> RelationFault {
        RelationFault::NoMemory
    }
}

impl<T: Drop> From<AllocFailed<T>> for RelationFault {
    ghost from_gives = { λ _ e. e ≡ NoMemory };

    fn from(_e: AllocFailed<T>) -> RelationFault {
        RelationFault::NoMemory
    }
}

/// Why a board does not take limits.
#[derive(Clone, Copy, Debug, PartialEq, Eq, Error)]
pub enum LimitsFault {
    /// More queries are pending than the limits allow.
    #[error("more queries are pending than the limits allow")]
    TooManyPending,
}

/// Returns why the catalog refuses the relation. Unlike `Catalog::declare` it needs no memory.
fn catalog_fault<A: Allocator>(
    catalog: &Catalog<A>,
    relation: &str,
    arity: usize,
) -> Option<CatalogFault>
    ensures { result ≡ declare_fault catalog.now relation.now arity }
{
    if !is_relation_text(relation) {
        return Some(CatalogFault::BadName);
    }
    if arity == 0 || arity > MAX_ARITY {
        return Some(CatalogFault::BadArity);
    }
    if catalog.arity_of(relation).is_some() {
        return Some(CatalogFault::Declared);
    }
    if catalog.len() >= MAX_RELATIONS {
        return Some(CatalogFault::CatalogFull);
    }
    None
}

/// Returns true if the atom is over the relation.
fn is_over<A: Allocator>(atom: &Atom<A>, relation: &str) -> bool
    ensures { result ≡ is_over relation.now atom.now }
{
    same_name(atom.relation(), relation)
}

/// Returns true if one of the atoms is over the relation.
fn are_over<A: Allocator>(atoms: &[Atom<A>], relation: &str) -> bool
    ensures { result ≡ list_any (is_over relation.now) atoms.now }
{
    atoms.iter().any(|atom| is_over(atom, relation))
}

/// Returns true if a postcondition or a head of the query is over the relation.
fn uses<A: Allocator>(query: &Query<A>, relation: &str) -> bool
    ensures { result ≡ uses relation.now query.now }
{
    are_over(query.posts(), relation) || are_over(query.heads(), relation)
}

/// The same of the query at the place.
fn uses_at<A: Allocator + Copy>(grounded: &GroundedQueries<A>, place: usize, relation: &str) -> bool
    ensures { result ≡ uses relation.now (query_at grounded.now place) }
{
    match grounded.query(place) {
        Some(query) => uses(query, relation),
        None => false,
    }
}

/// Returns true if a pending query uses the relation. Does not allocate.
fn is_used<A: Allocator + Copy>(stores: &Stores<A>, relation: &str) -> bool
    ensures { result ≡ is_used relation.now (pending_of stores.now) }
{
    stores
        .roster
        .iter()
        .any(|seat| uses_at(&stores.grounded, seat.place, relation))
}

/// Inserts copies of the other tables' rows of the relation, none of which is there.
fn insert_rows<A: Allocator + Copy>(
    tables: &mut Tables<A>,
    others: &Tables<A>,
    relation: &str,
) -> Result<(), AllocError>
    requires { AreNew tables.old (rows_in relation.now others.now) }
    ensures { OnOk result (tables.new ≡ rows_put tables.old (rows_in relation.now others.now)) }
{
    let Some(rows) = others.rows_of(relation) else {
        return Ok(());
    };
    for row in rows {
        // The row fits and is not there, so that only memory can run out.
        if tables.insert(row.copy()?).is_err() {
            return Err(AllocError);
        }
    }
    Ok(())
}

/// Inserts copies of all rows of the other tables, none of which is there.
fn insert_all<A: Allocator + Copy>(
    tables: &mut Tables<A>,
    others: &Tables<A>,
) -> Result<(), AllocError>
    requires { AreNew tables.old (rows_of_all others.now others.now.catalog) }
    ensures { OnOk result (tables.new ≡ rows_put tables.old (rows_of_all others.now others.now.catalog)) }
{
    let catalog = others.catalog();
    for place in 0..catalog.len() {
        let (relation, _arity) = match catalog.entry(place) {
            Some(entry) => entry,
            None => unreachable!(),
        };
        insert_rows(tables, others, relation)?;
    }
    Ok(())
}

/// Returns tables with the same rows, under the catalog with the relation after the others.
fn declared_in<A: Allocator + Copy>(
    tables: &Tables<A>,
    relation: &str,
    arity: usize,
) -> Result<Tables<A>, AllocError>
    requires { declare_fault tables.now.catalog relation.now arity ≡ None }
    ensures { IfOk result (λ made. made ≡ declared_in (declaration relation.now arity) tables.now) }
{
    let mut catalog = tables.catalog().copy()?;
    // The catalog does not refuse the relation, so that only memory can run out.
    if catalog.declare(relation, arity).is_err() {
        return Err(AllocError);
    }
    let mut made = Tables::begin(catalog)?;
    insert_all(&mut made, tables)?;
    Ok(made)
}

impl<A: Allocator + Copy> Board<A> {
    /// Returns why the relation cannot be declared. Does not allocate.
    fn relation_fault(&self, relation: &str, arity: usize) -> Option<RelationFault>
        ensures { result ≡ relation_fault self.now relation.now arity }
    {
        if let Some(fault) = catalog_fault(self.tables.catalog(), relation, arity) {
            return Some(RelationFault::Refused(fault));
        }
        if is_used(&self.stores, relation) {
            return Some(RelationFault::InUse);
        }
        None
    }

    /// Declares a relation, after those that are declared. Limits, rows, queries and all that the board
    /// shows of them stay. Takes the time and the memory of inserting each row into new tables, and looks
    /// at each head and postcondition of the pending queries.
    ///
    /// # Errors
    /// In this order: `Refused` with the reason for which [`Catalog::declare`](cq_rel::Catalog::declare)
    /// refuses the relation; `InUse` if a postcondition or a head of a pending query is over it;
    /// `NoMemory` if an allocation fails. Nothing has changed then.
    pub fn declare(&mut self, relation: &str, arity: usize) -> Result<(), RelationFault>
        ensures answer { Answers NoMemory (relation_fault self.old relation.now arity) tt result }
        ensures ok { OnOk result (self.new ≡ with_relation self.old relation.now arity) }
        ensures err { OnErr result (self.new ≡ self.old) }
    {
        if let Some(fault) = self.relation_fault(relation, arity) {
            return Err(fault);
        }
        let tables = declared_in(&self.tables, relation, arity)?;
        let _good = tables.catalog();
        self.tables = tables;
        Ok(())
    }

    /// Sets the limits. Tables, queries and all that the board shows of them stay. Takes constant time,
    /// and does not allocate.
    ///
    /// # Errors
    /// `TooManyPending` if more queries are pending than `limits.pool`. Nothing has changed then.
    pub fn set_limits(&mut self, limits: Limits) -> Result<(), LimitsFault>
        ensures answer { result ≡ refused_by (limits_fault self.old limits) }
        ensures ok { OnOk result (self.new ≡ with_limits self.old limits) }
        ensures err { OnErr result (self.new ≡ self.old) }
    {
        if self.stores.len() > limits.pool {
            return Err(LimitsFault::TooManyPending);
        }
        self.limits = limits;
        Ok(())
    }
}
