//! Groups: nodes that hang together by edges, as queries do that may supply one another.
//!
//! [`group_labels`] gives each node the lowest node of its group (`specs/Groups`).
//!
//! Not here: what nodes and edges are.
#![tactic(auto)]

ghost use Rattle.std.specs.Prelude.{◌≡◌, ◌<◌, ◌==◌, ℕ, map, length, slice_index, IfOk, if◌then◌else◌};
ghost use Rattle.std.specs.List.{All};
ghost use Rattle.cq_groups.specs.Groups.{AreLabels};
ghost use Rattle.cq_groups.specs.Steps.Labels.{renamed, joined_labels};

use std::alloc::{AllocError, Allocator};

/// The label, but the second for the first.
fn renamed(from: usize, to: usize, label: usize) -> usize
    ensures { result ≡ renamed from to label }
{
    if label == from { to } else { label }
}

/// Gives all that have the one label the other.
fn relabel(labels: &mut [usize], from: usize, to: usize)
    ensures { labels.new ≡ map (renamed from to) labels.old }
{
    for label in labels.iter_mut() {
        *label = renamed(from, to, *label);
    }
}

/// Lets the ends of an edge have one label, and all that had the same as one of them: the lower of both.
fn join(labels: &mut [usize], edge: (usize, usize))
    requires one { edge.0 < length labels.old }
    requires other { edge.1 < length labels.old }
    ensures { labels.new ≡ joined_labels edge labels.old }
{
    let one = labels[edge.0];
    let other = labels[edge.1];
    if one < other {
        relabel(labels, other, one);
    } else if other < one {
        relabel(labels, one, other);
    }
}

/// Each node by itself.
fn nodes<A: Allocator>(alloc: A, count: usize) -> Result<Vec<usize, A>, AllocError>
    ensures count { IfOk result (λ labels. length labels.items ≡ count) }
    ensures each { IfOk result (λ labels. (a : ℕ) → a < count → slice_index labels.items a ≡ a) }
{
    let mut labels = Vec::with_capacity(alloc, count)?;
    for node in 0..count {
        labels.push(node)?;
    }
    Ok(labels)
}

/// Joins the ends of each edge.
fn join_all(labels: &mut [usize], edges: &[(usize, usize)])
    requires one { All (λ edge. edge.0 < length labels.old) edges.now }
    requires other { All (λ edge. edge.1 < length labels.old) edges.now }
    requires each { (a : ℕ) → a < length labels.old → slice_index labels.old a ≡ a }
    ensures { AreLabels edges.now (length labels.old) labels.new }
{
    for edge in edges {
        join(labels, *edge);
    }
}

/// Each node below the count has the lowest node of its group. The time is the product of the count and the number of groups that
/// the edges join, and that of the edges.
///
/// # Errors
/// `AllocError` where an allocation failed.
pub fn group_labels<A: Allocator>(
    alloc: A,
    count: usize,
    edges: &[(usize, usize)],
) -> Result<Vec<usize, A>, AllocError>
    requires one { All (λ edge. edge.0 < count) edges.now }
    requires other { All (λ edge. edge.1 < count) edges.now }
    ensures { IfOk result (λ labels. AreLabels edges.now count labels.items) }
{
    let mut labels = nodes(alloc, count)?;
    join_all(&mut labels, edges);
    Ok(labels)
}
