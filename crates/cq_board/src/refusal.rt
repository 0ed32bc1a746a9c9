//! Why an edit is refused.

ghost use Rattle.std.specs.Prelude.{◌≡◌, if◌then◌else◌, Some, None};
ghost use Rattle.cq_atom.specs.declared.edit.EditKind.TheVariants.{Post};
ghost use Rattle.cq_board.specs.declared.edit.Why.TheVariants.{RowPresent, RowAbsent};
ghost use Rattle.cq_board.specs.Pool.{PoolRecord};
ghost use Rattle.cq_board.specs.Edits.{answer_why, arity_why, body_why, query_why, row_why, why};
ghost use Rattle.cq_board.specs.Steps.Stores.{pending_of};
ghost use Rattle.cq_rel.specs.Tables.{arity_in, has_row};

use crate::edit::Why;
use crate::limits::Limits;
use crate::stores::Stores;
use cq_atom::{Atom, Edit, EditKind, Name, Part, Query, Row};
use cq_rel::{Catalog, Tables};
use std::alloc::Allocator;

fn answer_why<A: Allocator>(catalog: &Catalog<A>, part: Part, atoms: &[Atom<A>]) -> Option<Why>
    ensures { result ≡ answer_why catalog.now part 0 atoms.now }
{
    for (place, atom) in atoms.iter().enumerate() {
        if catalog.arity_of(atom.relation()).is_some() {
            return Some(Why::NotAnswer { part, place });
        }
    }
    None
}

fn arity_why<A: Allocator>(
    catalog: &Catalog<A>,
    relation: &str,
    arity: usize,
    place: usize,
) -> Option<Why>
    ensures { result ≡ arity_why (arity_in catalog.now relation.now) arity place }
{
    match catalog.arity_of(relation) {
        None => Some(Why::UnknownRelation { place }),
        Some(declared) if declared == arity => None,
        Some(_) => Some(Why::Arity { place }),
    }
}

pub(crate) fn body_why<A: Allocator>(catalog: &Catalog<A>, atoms: &[Atom<A>]) -> Option<Why>
    ensures { result ≡ body_why catalog.now 0 atoms.now }
{
    for (place, atom) in atoms.iter().enumerate() {
        if let Some(why) = arity_why(catalog, atom.relation(), atom.terms().len(), place) {
            return Some(why);
        }
    }
    None
}

fn query_why<A: Allocator>(catalog: &Catalog<A>, query: &Query<A>) -> Option<Why>
    ensures { result ≡ query_why catalog.now query.now }
{
    if let Some(why) = answer_why(catalog, Part::Posts, query.posts()) {
        return Some(why);
    }
    if let Some(why) = answer_why(catalog, Part::Heads, query.heads()) {
        return Some(why);
    }
    body_why(catalog, query.body())
}

/// Why the catalog has no place for the row, or else what its presence says.
fn row_why<A: Allocator>(tables: &Tables<A>, row: &Row<A>, present: Option<Why>) -> Option<Why>
    ensures { result ≡ row_why tables.now row.now present }
{
    match arity_why(tables.catalog(), row.relation(), row.values().len(), 0) {
        Some(why) => Some(why),
        None => present,
    }
}

/// Why the row is not inserted.
pub(crate) fn insert_why<A: Allocator>(tables: &Tables<A>, row: &Row<A>) -> Option<Why>
    ensures { result ≡ row_why tables.now row.now (if has_row tables.now row.now then Some RowPresent else None) }
{
    row_why(tables, row, tables.has(row).then_some(Why::RowPresent))
}

/// Why the row is not deleted.
fn delete_why<A: Allocator>(tables: &Tables<A>, row: &Row<A>) -> Option<Why>
    ensures { result ≡ row_why tables.now row.now (if has_row tables.now row.now then None else Some RowAbsent) }
{
    row_why(tables, row, (!tables.has(row)).then_some(Why::RowAbsent))
}

/// Why the query is not posted.
pub(crate) fn post_why<A: Allocator + Copy>(
    limits: Limits,
    tables: &Tables<A>,
    stores: &Stores<A>,
    name: &Name<A>,
    query: &Query<A>,
) -> Option<Why>
    ensures { let pool : PoolRecord = record { limits = limits; tables = tables.now; pending = pending_of stores.now } in result ≡ why pool (Post name.now query.now) }
{
    if stores.len() >= limits.pool {
        return Some(Why::PoolFull);
    }
    if stores.is_taken(name) {
        return Some(Why::NameTaken);
    }
    query_why(tables.catalog(), query)
}

/// Why the pool of these parts refuses the edit: the first test that holds.
pub(crate) fn refusal<A: Allocator + Copy>(
    limits: Limits,
    tables: &Tables<A>,
    stores: &Stores<A>,
    edit: &Edit<A>,
) -> Option<Why>
    ensures { let pool : PoolRecord = record { limits = limits; tables = tables.now; pending = pending_of stores.now } in result ≡ why pool edit.now }
{
    match edit {
        EditKind::Post { name, query } => post_why(limits, tables, stores, name, query),
        EditKind::Withdraw { name } if stores.is_taken(name) => None,
        EditKind::Withdraw { .. } => Some(Why::NoSuchName),
        EditKind::Insert { row } => insert_why(tables, row),
        EditKind::Delete { row } => delete_why(tables, row),
    }
}
