//! Groups of matched queries that may supply one another. They tell where to look: what is answered does not rest on them.

ghost use Rattle.std.specs.Prelude.{◌<◌, length, IfOk, IsTrue};
ghost use Rattle.std.specs.List.{All};

use cq_atom::{Edge, Name};
use cq_board::Board;
use cq_groups::group_labels;
use indexmap::IndexMap;
use std::alloc::{AllocError, Allocator};
use std::hash::{BuildHasherDefault, FoldHasher};

/// The label of the group of each pending query, by its name.
pub(crate) type Labels<'b, A> = IndexMap<&'b str, usize, BuildHasherDefault<FoldHasher>, A>;

/// At which places matched queries stand, of the queries of these names.
fn matched_flags<A: Allocator + Copy>(
    alloc: A,
    board: &Board<A>,
    names: &[&Name<A>],
) -> Result<Vec<bool, A>, AllocError> {
    let mut flags = Vec::with_capacity(alloc, names.len())?;
    for name in names {
        flags.push(board.is_matched(name) == Some(true))?;
    }
    Ok(flags)
}

/// Whether the flag at that place is set.
fn is_set(flags: &[bool], place: usize) -> bool
    ensures { IsTrue result → place < length flags.now }
{
    match flags.get(place) {
        Some(flag) => *flag,
        None => false,
    }
}

/// The ends of the edges of which both ends are flagged.
fn joints_of<A: Allocator>(
    alloc: A,
    flags: &[bool],
    edges: &[Edge],
) -> Result<Vec<(usize, usize), A>, AllocError>
    ensures one { IfOk result (λ joints. All (λ joint. joint.0 < length flags.now) joints.items) }
    ensures other { IfOk result (λ joints. All (λ joint. joint.1 < length flags.now) joints.items) }
{
    let mut joints = Vec::new(alloc);
    for edge in edges {
        if is_set(flags, edge.provider) && is_set(flags, edge.waiter) {
            joints.push((edge.provider, edge.waiter))?;
        }
    }
    Ok(joints)
}

/// The labels by the names.
fn by_name<'b, A: Allocator + Copy>(
    alloc: A,
    names: &[&'b Name<A>],
    labels: &[usize],
) -> Result<Labels<'b, A>, AllocError> {
    let mut by_name = IndexMap::new(alloc);
    for (name, label) in names.iter().zip(labels) {
        by_name.insert(name.as_str(), *label)?;
    }
    Ok(by_name)
}

/// The label of the group of each pending query: matched queries hang together by the edges between them, and each other query is by itself.
pub(crate) fn labels_of<'b, A: Allocator + Copy>(
    alloc: A,
    board: &'b Board<A>,
) -> Result<Labels<'b, A>, AllocError> {
    let names = board.names()?;
    let flags = matched_flags(alloc, board, &names)?;
    let edges = board.edges_by_place()?;
    let joints = joints_of(alloc, &flags, &edges)?;
    let labels = group_labels(alloc, flags.len(), &joints)?;
    by_name(alloc, &names, &labels)
}

/// The label of the query of that name. Where none is pending under it, it is that of no query.
pub(crate) fn label_of<A: Allocator>(labels: &Labels<'_, A>, name: &Name<A>) -> usize {
    match labels.get(name.as_str()) {
        Some(label) => *label,
        None => labels.len(),
    }
}
