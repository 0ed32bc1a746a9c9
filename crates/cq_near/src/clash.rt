//! The first atom of a body that has no grounding together with those before it.

ghost use Rattle.std.specs.Prelude.{◌≡◌, IfOk};
ghost use Rattle.std.specs.Option.{option_map};
ghost use Rattle.cq_near.specs.Clash.{clash_read, first_clash};

use cq_atom::{Atom, Query};
use cq_ground::has_grounding;
use cq_rel::Tables;
use std::alloc::{AllocError, Allocator};

/// An atom that has no grounding together with those before it, over what holds the atom.
#[derive(Clone, Copy, Drop)]
pub struct Clash<T> {
    /// The atom.
    pub atom: T,
    /// How many rows its relation has.
    pub rows: usize,
}

/// The first atom of a query's body that has no grounding together with those before it, if there is one, with how many rows its relation has. For each atom up to
/// that one a search for groundings of the atoms up to it, which ends at the first.
///
/// # Errors
/// `AllocError` where an allocation failed.
pub fn first_clash<'a, A: Allocator + Copy>(
    alloc: A,
    tables: &Tables<A>,
    query: &'a Query<A>,
) -> Result<Option<Clash<&'a Atom<A>>>, AllocError>
    ensures { IfOk result (λ found. option_map (clash_read (λ atom. atom.now)) found ≡ first_clash tables.now query.now.body) }
{
    let body = query.body();
    for place in 0..body.len() {
        if !has_grounding(alloc, query, tables, place + 1)? {
            let atom = &body[place];
            let rows = tables.count(atom.relation()).unwrap_or(0);
            return Ok(Some(Clash { atom, rows }));
        }
    }
    Ok(None)
}
