//! Which queries a graph keeps, where some are asked for.

ghost use Rattle.std.specs.Prelude.{◌≡◌, ℕ, List, map, true, IfOk};
ghost use Rattle.std.specs.List.{list_any};
ghost use Rattle.std.specs.Str.{bytes_eq};
ghost use Rattle.cq_render.specs.Graph.{AreKept};

use cq_atom::Name;
use cq_board::Board;
use cq_closure::closure;
use std::alloc::{AllocError, Allocator};

/// Whether the name is among the words.
fn is_among<A: Allocator>(words: &[&str], name: &Name<A>) -> bool
    ensures { result ≡ list_any (λ word. bytes_eq name.now word.now) words.now }
{
    words.iter().any(|word| name.as_str() == *word)
}

/// Of each of the names whether it is among the words.
fn named<A: Allocator>(
    alloc: A,
    names: &[&Name<A>],
    words: &[&str],
) -> Result<Vec<bool, A>, AllocError>
    ensures { IfOk result (λ flags. flags.items ≡ map (λ name. list_any (λ word. bytes_eq name.now word.now) words.now) names.now) }
{
    let mut flags = Vec::with_capacity(alloc, names.len())?;
    for name in names {
        flags.push(is_among(words, name))?;
    }
    Ok(flags)
}

/// Flags the queries whose names are among the words, and those on which they hang: who supplies a postcondition of one that has a flag. The flags stand in
/// posting order. Each edge to a query that is kept is gone over once.
///
/// # Errors
/// `AllocError` where an allocation failed.
pub fn kept_with<A: Allocator + Copy>(
    alloc: A,
    board: &Board<A>,
    words: &[&str],
) -> Result<Vec<bool, A>, AllocError>
    ensures { IfOk result (λ flags. AreKept board.now.pending (map (λ word. word.now) words.now) flags.items) }
{
    let names = board.names()?;
    let edges = board.edges_by_place()?;
    let all = vec![in alloc; true; names.len()]?;
    let first = named(alloc, &names, words)?;
    closure(alloc, &edges, &all, &first)
}
