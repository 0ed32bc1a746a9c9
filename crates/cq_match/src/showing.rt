//! What a matcher shows: the edges that leave a node, in order, and copies of what it keeps.

ghost use Rattle.std.specs.Prelude.{◌≡◌, ◌≤◌, [], IfOk, slice_index_or, vec_capacity};
ghost use Rattle.std.specs.List.Sorted.{IsPermutation, IsSorted};
ghost use Rattle.cq_match.specs.Matcher.{waiter_cmp};
ghost use Rattle.cq_match.specs.Steps.Kept.{edges_left};

use crate::graph::{Graph, Out, is_live};
use crate::marks::Marks;
use cq_atom::Edge;
use std::alloc::{AllocError, Allocator};

/// The edges that leave the node, by waiter, post and head; none where it has no place.
pub(crate) fn waiters_of<A: Allocator + Copy>(
    alloc: A,
    graph: &Graph<A>,
    node: usize,
) -> Result<Vec<Edge, A>, AllocError>
    ensures permutation { IfOk result (λ edges. IsPermutation (edges_left graph.now.places.items node (slice_index_or graph.now.leaving.items node [])) edges.items) }
    ensures ordered { IfOk result (λ edges. IsSorted waiter_cmp edges.items) }
{
    let outs: &[Out] = match graph.leaving.get(node) {
        Some(leaving) => leaving.outs(),
        None => &[],
    };
    let mut edges = Vec::new(alloc);
    for out in outs {
        if is_live(&graph.places, *out) {
            edges.push(Edge {
                provider: node,
                head: out.head,
                waiter: out.waiter,
                post: out.post,
            })?;
        }
    }
    edges.sort_unstable_by_key(|edge| (edge.waiter, edge.post, edge.head));
    Ok(edges)
}

/// Equal nodes and edges.
pub(crate) fn copied_graph<A: Allocator + Copy>(
    alloc: A,
    graph: &Graph<A>,
) -> Result<Graph<A>, AllocError>
    ensures places { IfOk result (λ copy. copy.places.items ≡ graph.now.places.items) }
    ensures leaving { IfOk result (λ copy. copy.leaving.items ≡ graph.now.leaving.items) }
    ensures totals { IfOk result (λ copy. copy.totals.items ≡ graph.now.totals.items) }
{
    let places = Vec::from_slice(alloc, &graph.places)?;
    let leaving = Vec::from_clones(alloc, &graph.leaving)?;
    let totals = Vec::from_clones(alloc, &graph.totals)?;
    Ok(Graph {
        places,
        leaving,
        totals,
    })
}

/// Equal marks, with room for so many nodes that wait. Of these, and of those that were reached, there are none.
pub(crate) fn copied_marks<A: Allocator + Copy>(
    alloc: A,
    marks: &Marks<A>,
    room: usize,
) -> Result<Marks<A>, AllocError>
    ensures matched { IfOk result (λ copy. copy.matched.items ≡ marks.now.matched.items) }
    ensures raised { IfOk result (λ copy. copy.raised.items ≡ marks.now.raised.items) }
    ensures counts { IfOk result (λ copy. copy.counts.items ≡ marks.now.counts.items) }
    ensures none_waits { IfOk result (λ copy. copy.waiting.items ≡ []) }
    ensures none_reached { IfOk result (λ copy. copy.reached.items ≡ []) }
    ensures roomy { IfOk result (λ copy. room ≤ vec_capacity copy.waiting) }
{
    let matched = Vec::from_slice(alloc, &marks.matched)?;
    let raised = Vec::from_slice(alloc, &marks.raised)?;
    let counts = Vec::from_clones(alloc, &marks.counts)?;
    let waiting = Vec::with_capacity(alloc, room)?;
    Ok(Marks {
        matched,
        raised,
        counts,
        waiting,
        reached: Vec::new(alloc),
    })
}
