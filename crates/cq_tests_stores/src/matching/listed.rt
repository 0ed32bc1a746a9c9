//! Plain lists of nodes and edges, and what is told of them where they are a graph.

ghost use Rattle.std.specs.Prelude.{◌≡◌, ◌==◌, ◌<◌, IsTrue, nat_eq};
ghost use Rattle.std.specs.List.{All, Any, IsDistinct, list_any};
ghost use Rattle.std.specs.List.Sorted.{IsNonDecreasingBy};
ghost use Rattle.cq_match.specs.Matched.{numbers};
ghost use Rattle.cq_tests_stores.specs.Guarded.{HasEnds};

use cq_atom::Edge;
use cq_match::{Fall, Parts, edges_into, falling, greatest, part_for};
use std::alloc::{AllocError, Allocator};

/// Whether a node of that number is in the list.
fn is_listed(nodes: &[(usize, u8, bool)], number: usize) -> bool
    ensures { result ≡ list_any (λ node. number == node.0) nodes.now }
{
    nodes.iter().any(|node| number == node.0)
}

/// Whether no number is in the list twice.
fn are_distinct(nodes: &[(usize, u8, bool)]) -> bool
    ensures { IsTrue result → IsDistinct nat_eq (numbers nodes.now) }
{
    for (place, node) in nodes.iter().enumerate() {
        if is_listed(&nodes[..place], node.0) {
            return false;
        }
    }
    true
}

/// Whether a node of that number in the list has the postcondition.
fn is_waited_for(nodes: &[(usize, u8, bool)], waiter: usize, post: u8) -> bool
    ensures { IsTrue result → Any (λ node. (node.0 ≡ waiter) × (post < node.1)) nodes.now }
{
    nodes.iter().any(|node| node.0 == waiter && post < node.1)
}

/// Whether the ends of all edges are in the list.
fn have_ends(nodes: &[(usize, u8, bool)], edges: &[Edge]) -> bool
    ensures { IsTrue result → All (HasEnds nodes.now) edges.now }
{
    for edge in edges {
        if !is_listed(nodes, edge.provider) || !is_waited_for(nodes, edge.waiter, edge.post) {
            return false;
        }
    }
    true
}

/// Whether the lists are a graph, in which no node is listed twice and the ends of all edges are listed, whose matched
/// nodes are these, rising.
pub fn finds_matched<A: Allocator + Copy>(
    alloc: A,
    nodes: &[(usize, u8, bool)],
    edges: &[Edge],
    wanted: &[usize],
) -> Result<bool, AllocError> {
    if !are_distinct(nodes) || !have_ends(nodes, edges) {
        return Ok(false);
    }
    let found = greatest(alloc, nodes, edges)?;
    Ok(found.as_slice() == wanted)
}

/// Whether the lists are a graph whose falls are these.
pub fn fall_as<A: Allocator + Copy>(
    alloc: A,
    nodes: &[(usize, u8, bool)],
    edges: &[Edge],
    wanted: &[Fall],
) -> Result<bool, AllocError> {
    if !are_distinct(nodes) || !have_ends(nodes, edges) {
        return Ok(false);
    }
    let falls = falling(alloc, nodes, edges)?;
    Ok(falls.as_slice() == wanted)
}

/// Whether no edge leads to a lower waiter than the one before it.
fn are_grouped(edges: &[Edge]) -> bool
    ensures { IsTrue result → IsNonDecreasingBy (λ edge. edge.waiter) edges.now }
{
    for place in 1..edges.len() {
        if edges[place].waiter < edges[place - 1].waiter {
            return false;
        }
    }
    true
}

/// Whether these edges lead to the waiter, of edges that are sorted by their waiters.
pub fn lead_into(edges: &[Edge], waiter: usize, wanted: &[Edge]) -> bool {
    are_grouped(edges) && edges_into(edges, waiter) == wanted
}

/// Whether the node rests by this part.
fn rests_by<A: Allocator + Copy>(
    parts: &Parts<'_, A>,
    node: usize,
    wanted: &[Fall],
) -> Result<bool, AllocError> {
    Ok(parts.part(node)?.as_slice() == wanted)
}

/// Whether the lists are a graph, with its edges sorted by their waiters, on whose falls the node rests by this part, asked for
/// alone and as one of all parts.
pub fn rests_on<A: Allocator + Copy>(
    alloc: A,
    nodes: &[(usize, u8, bool)],
    edges: &[Edge],
    node: usize,
    wanted: &[Fall],
) -> Result<bool, AllocError> {
    if !are_distinct(nodes) || !have_ends(nodes, edges) || !are_grouped(edges) {
        return Ok(false);
    }
    let falls = falling(alloc, nodes, edges)?;
    let part = part_for(alloc, edges, &falls, node)?;
    if part.as_slice() != wanted {
        return Ok(false);
    }
    let parts = Parts::begin(alloc, edges, &falls)?;
    rests_by(&parts, node, wanted)
}
