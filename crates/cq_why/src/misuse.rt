//! Relations that commands name, and the tables have not so.

ghost use Rattle.std.specs.Prelude.{◌≡◌, ◌<◌, ◌++◌, ◌∷◌, [], map, length, string_bytes, decimal, codes, IfOk, OnOk, option_map};
ghost use Rattle.std.specs.List.{slice_get};
ghost use Rattle.cq_rel.specs.Tables.{Declaration, arity_in, relation_of};
ghost use Rattle.cq_why.specs.Why.{uses_of_body, uses_of, has_place, misused, columns, meant, closest, misuse_words};

use crate::closest::closest;
use crate::hint::put_meant;
use cq_atom::{Atom, EditKind};
use cq_rel::Catalog;
use cq_text::{Command, CommandKind};
use std::alloc::{AllocError, Allocator};

/// A relation that a command names, with how many terms or values.
#[derive(Clone, Copy)]
pub(crate) struct Use<'c> {
    pub(crate) relation: &'c str,
    pub(crate) count: usize,
}

/// Whether the relation is declared with as many columns.
fn has_place<A: Allocator>(catalog: &Catalog<A>, relation: &str, count: usize) -> bool
    ensures { result ≡ has_place catalog.now (relation.now, count) }
{
    match catalog.arity_of(relation) {
        Some(arity) => count == arity,
        None => false,
    }
}

/// The relation, where it has no place in the catalog.
fn misused_one<'c, A: Allocator>(
    catalog: &Catalog<A>,
    relation: &'c str,
    count: usize,
) -> Option<Use<'c>>
    ensures { option_map (λ used. (used.relation.now, used.count)) result ≡ misused catalog.now ((relation.entry.now, count) ∷ []) }
{
    if has_place(catalog, relation, count) {
        return None;
    }
    Some(Use { relation, count })
}

/// The first relation of a body that has no place in the catalog.
fn misused_in<'c, A: Allocator>(catalog: &Catalog<A>, body: &'c [Atom<A>]) -> Option<Use<'c>>
    ensures { option_map (λ used. (used.relation.now, used.count)) result ≡ misused catalog.now (uses_of_body body.entry.now) }
{
    for atom in body {
        if !has_place(catalog, atom.relation(), atom.terms().len()) {
            return Some(Use {
                relation: atom.relation(),
                count: atom.terms().len(),
            });
        }
    }
    None
}

/// The first relation of a command that has no place in the catalog.
pub(crate) fn misused<'c, A: Allocator>(
    catalog: &Catalog<A>,
    command: &'c Command<A>,
) -> Option<Use<'c>>
    ensures { option_map (λ used. (used.relation.now, used.count)) result ≡ misused catalog.now (uses_of command.entry.now) }
{
    match command {
        CommandKind::Edit(EditKind::Post { name: _, query }) => misused_in(catalog, query.body()),
        CommandKind::Edit(EditKind::Insert { row } | EditKind::Delete { row }) => {
            misused_one(catalog, row.relation(), row.values().len())
        }
        _ => None,
    }
}

fn columns(count: usize) -> &'static str
    ensures { result.now ≡ columns count }
{
    if count == 1 {
        " column, "
    } else {
        " columns, "
    }
}

/// The name of the relation at that place.
fn name_at<A: Allocator>(catalog: &Catalog<A>, place: usize) -> &str
    requires { place < length catalog.now }
    ensures { (d : Declaration) → slice_get catalog.now place ≡ Some d → result.now ≡ relation_of d }
{
    match catalog.entry(place) {
        Some((name, _arity)) => name,
        None => "",
    }
}

/// The names of the relations.
fn names_of<A: Allocator + Copy>(alloc: A, catalog: &Catalog<A>) -> Result<Vec<&str, A>, AllocError>
    ensures { IfOk result (λ names. map (λ name. name.now) names.items ≡ map relation_of catalog.now) }
{
    let mut names = Vec::with_capacity(alloc, catalog.len())?;
    for place in 0..catalog.len() {
        names.push(name_at(catalog, place))?;
    }
    Ok(names)
}

/// Puts that a relation is not declared, and which one was meant.
fn put_no_relation<A: Allocator + Copy>(
    alloc: A,
    catalog: &Catalog<A>,
    relation: &str,
    page: &mut String<A>,
) -> Result<(), AllocError>
    ensures { OnOk result (string_bytes page.new ≡ string_bytes page.old ++ (relation.now ++ (codes ": no such relation" ++ meant (closest relation.now (map relation_of catalog.now))))) }
{
    let names = names_of(alloc, catalog)?;
    page.push_str(relation)?;
    page.push_str(": no such relation")?;
    put_meant(page, closest(alloc, relation, &names)?)
}

/// Puts how many columns a relation has, and how many were given.
fn put_arity<A: Allocator>(
    page: &mut String<A>,
    relation: &str,
    arity: usize,
    count: usize,
) -> Result<(), AllocError>
    ensures { OnOk result (string_bytes page.new ≡ string_bytes page.old ++ (relation.now ++ (codes " has " ++ (decimal arity ++ (columns arity ++ (decimal count ++ codes " given")))))) }
{
    let columns = columns(arity);
    write!(page, "{relation} has {arity}{columns}{count} given")
}

/// Puts how a relation is misused.
pub(crate) fn put_words<A: Allocator + Copy>(
    alloc: A,
    catalog: &Catalog<A>,
    relation: &str,
    count: usize,
    page: &mut String<A>,
) -> Result<(), AllocError>
    ensures { OnOk result (string_bytes page.new ≡ string_bytes page.old ++ misuse_words catalog.now (relation.now, count) (arity_in catalog.now relation.now)) }
{
    match catalog.arity_of(relation) {
        Some(arity) => put_arity(page, relation, arity, count),
        None => put_no_relation(alloc, catalog, relation, page),
    }
}
