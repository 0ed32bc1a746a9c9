//! A matcher that looks by itself whether it may be asked, so that a test may ask anything of it.

ghost use Rattle.std.specs.Prelude.{◌≡◌, ℕ, ◌<◌, ◌∷◌, Bool, false, IsTrue};
ghost use Rattle.std.specs.List.{All, Any, Contains};
ghost use Rattle.cq_match.specs.Matched.{numbers};
ghost use Rattle.cq_match.specs.Matcher.{is_apart};
ghost use Rattle.cq_tests_stores.specs.Guarded.{HavePosts, HasEnds, IsTaken};

use cq_atom::{Edge, Meter};
use cq_match::Matcher;
use std::alloc::{AllocError, Allocator, Global};
use std::marker::Model;
use std::mem::{drop, replace};

/// Whether the provider of the edge is there once the node is.
fn is_provided<A: Allocator>(matcher: &Matcher<A>, node: usize, edge: Edge) -> bool
    ensures { IsTrue result → (count : ℕ) (able : Bool) → Contains (numbers ((node, count, able) ∷ matcher.now.nodes)) edge.provider }
{
    edge.provider == node || matcher.has(edge.provider)
}

/// Whether the waiter of the edge is there once the node is, and has the postcondition.
fn is_awaited<A: Allocator>(
    matcher: &Matcher<A>,
    posts: &[u8],
    node: usize,
    count: u8,
    edge: Edge,
) -> bool
    ensures { IsTrue result → HavePosts posts.now matcher.now.nodes → (able : Bool) → Any (λ node. (node.0 ≡ edge.waiter) × (edge.post < node.1)) ((node, count, able) ∷ matcher.now.nodes) }
{
    if edge.waiter == node {
        return edge.post < count;
    }
    match posts.get(edge.waiter) {
        Some(posts) => matcher.has(edge.waiter) && edge.post < *posts,
        None => false,
    }
}

/// Whether both ends of the edge are there once the node is.
fn has_ends<A: Allocator>(
    matcher: &Matcher<A>,
    posts: &[u8],
    node: usize,
    count: u8,
    edge: Edge,
) -> bool
    ensures { IsTrue result → HavePosts posts.now matcher.now.nodes → (able : Bool) → HasEnds ((node, count, able) ∷ matcher.now.nodes) edge }
{
    is_provided(matcher, node, edge) && is_awaited(matcher, posts, node, count, edge)
}

/// Whether the edge leaves the node or leads to it.
fn touches(node: usize, edge: Edge) -> bool
    ensures { IsTrue result → is_apart node edge ≡ false }
{
    edge.provider == node || edge.waiter == node
}

/// Whether the edge may come with the node.
fn is_taken<A: Allocator>(
    matcher: &Matcher<A>,
    posts: &[u8],
    node: usize,
    count: u8,
    edge: Edge,
) -> bool
    ensures { IsTrue result → HavePosts posts.now matcher.now.nodes → IsTaken matcher.now.nodes node count edge }
{
    touches(node, edge) && has_ends(matcher, posts, node, count, edge)
}

/// Whether all these edges may come with the node.
fn are_taken<A: Allocator>(
    matcher: &Matcher<A>,
    posts: &[u8],
    node: usize,
    count: u8,
    edges: &[Edge],
) -> bool
    ensures { IsTrue result → HavePosts posts.now matcher.now.nodes → All (IsTaken matcher.now.nodes node count) edges.now }
{
    for edge in edges {
        if !is_taken(matcher, posts, node, count, *edge) {
            return false;
        }
    }
    true
}

/// Numbers of nodes are below.
const PLACES: usize = 10_000;

/// A matcher, how many postconditions the node at each place has, and how many edges lost their matched providers.
#[derive(Drop)]
pub struct Guarded<A: Allocator = Global> {
    matcher: Matcher<A>,
    posts: Vec<u8, A>,
    meter: Meter,
}

impl<A: Allocator> Model for Guarded<A> {
    ghost use Rattle.cq_match.specs.Matcher.{MatcherRecord};

    ghost Value = { MatcherRecord };

    ghost use Rattle.cq_tests_stores.specs.Guarded.{HavePosts};

    ghost view = { λ guarded. guarded.matcher };

    ghost invariant = { λ guarded. HavePosts guarded.posts.items guarded.matcher.nodes };
}

impl<A: Allocator + Copy> Guarded<A> {
    /// A matcher without nodes.
    pub fn begin(alloc: A) -> Result<Guarded<A>, AllocError> {
        let posts = vec![in alloc; 0u8; PLACES]?;
        Ok(Guarded {
            matcher: Matcher::begin(alloc),
            posts,
            meter: Meter::new(),
        })
    }

    /// Adds the node with its edges; false where that is not allowed.
    pub fn add(
        &mut self,
        node: usize,
        count: u8,
        able: bool,
        edges: &[Edge],
    ) -> Result<bool, AllocError> {
        if self.matcher.has(node)
            || node >= self.posts.len()
            || !are_taken(&self.matcher, &self.posts, node, count, edges)
        {
            return Ok(false);
        }
        self.matcher.add(node, count, able, edges)?;
        self.posts[node] = count;
        Ok(true)
    }

    /// Goes on with a copy in place of the matcher.
    pub fn go_on_with_copy(&mut self) -> Result<bool, AllocError> {
        let copy = self.matcher.copy()?;
        drop(replace(&mut self.matcher, copy));
        Ok(true)
    }
}

impl<A: Allocator> Guarded<A> {
    /// How many edges lost their matched providers to removals and to nodes that were able no longer.
    pub fn lost(&self) -> u64 {
        self.meter.count()
    }

    /// The matcher itself.
    pub fn matcher(&self) -> &Matcher<A> {
        &self.matcher
    }

    /// Removes the node; false where it is not there.
    pub fn remove(&mut self, node: usize) -> bool {
        if !self.matcher.has(node) {
            return false;
        }
        self.matcher.remove(node, &mut self.meter);
        true
    }

    /// Lets the node be able; false where it is not there.
    pub fn enable(&mut self, node: usize) -> Result<bool, AllocError> {
        if !self.matcher.has(node) {
            return Ok(false);
        }
        self.matcher.enable(node)?;
        Ok(true)
    }

    /// Lets the node be able no longer; false where it is not there.
    pub fn disable(&mut self, node: usize) -> bool {
        if !self.matcher.has(node) {
            return false;
        }
        self.matcher.disable(node, &mut self.meter);
        true
    }
}
