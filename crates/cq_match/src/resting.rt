//! The parts of a falling list on which its nodes rest, found by the places of the falls.

ghost use Rattle.std.specs.Prelude.{◌≡◌, ◌<◌, ◌≤◌, ◌==◌, ◌||◌, ℕ, Bool, false, List, [], length, filter, reverse as reversed, nat_eq, IfOk, OnOk};
ghost use Rattle.std.specs.BTreeSet.{contains};
ghost use Rattle.std.specs.HashMap.{get};
ghost use Rattle.std.specs.List.{All, Contains, IsDistinct};
ghost use Rattle.std.specs.List.Sorted.{IsNonDecreasingBy};
ghost use Rattle.std.specs.Option.{unwrap_or};
ghost use Rattle.std.specs.Ordering.{nat_cmp};
ghost use Rattle.std.specs.Set.{is_member};
ghost use Rattle.cq_match.specs.Falling.{fallen, IsFalling};
ghost use Rattle.cq_match.specs.Resting.{IsPartFor, EndsWith};
ghost use Rattle.cq_match.specs.Steps.Resting.{feeds_from, is_sender_at, node_at, ArePlaces, AreParts, IsRested, Picks, Walking};

use crate::falls::{Fall, Reason};
use cq_atom::Edge;
use std::alloc::{AllocError, Allocator};
use std::collections::{BTreeSet, HashMap};
use std::hash::{BuildHasherDefault, FoldHasher};
use std::marker::Model;

/// The place of the fall of each node.
type Places<A> = HashMap<usize, usize, BuildHasherDefault<FoldHasher>, A>;

/// Places of falls that are still to be reported.
type Wanted<A> = BTreeSet<usize, A>;

/// The edges that lead to a waiter, which stand side by side. They are found by halving.
pub fn edges_into(edges: &[Edge], waiter: usize) -> &[Edge]
    requires { IsNonDecreasingBy (λ edge. edge.waiter) edges.now }
    ensures { result.now ≡ filter (λ edge. edge.waiter == waiter) edges.now }
{
    let below = edges.partition_point(|edge| edge.waiter < waiter);
    let (_, rest) = edges.split_at(below);
    let count = rest.partition_point(|edge| edge.waiter <= waiter);
    let (at, _) = rest.split_at(count);
    at
}

/// The places of the falls, by their nodes.
fn places_of<A: Allocator + Copy>(alloc: A, falls: &[Fall]) -> Result<Places<A>, AllocError>
    requires { IsDistinct nat_eq (fallen falls.now) }
    ensures { IfOk result (λ places. ArePlaces falls.now (length falls.now) (get nat_eq places)) }
{
    let mut places = HashMap::new(alloc);
    for place in 0..falls.len() {
        places.insert(falls[place].node, place)?;
    }
    Ok(places)
}

/// The place of the fall of that node.
fn place_in<A: Allocator>(places: &Places<A>, node: usize) -> usize
    ensures { result ≡ unwrap_or (get nat_eq places.now node) 0 }
{
    match places.get(&node) {
        Some(place) => *place,
        None => 0,
    }
}

/// Wants the falls of the providers of those of the edges that lead to the postcondition.
fn want_providers<A: Allocator + Copy>(
    wanted: &mut Wanted<A>,
    places: &Places<A>,
    edges: &[Edge],
    post: u8,
) -> Result<(), AllocError>
    ensures { OnOk result ((n : ℕ) → contains nat_cmp wanted.new n ≡ (contains nat_cmp wanted.old n || is_sender_at (get nat_eq places.now) post edges.now n)) }
{
    for edge in edges {
        if edge.post == post {
            wanted.insert(place_in(places, edge.provider))?;
        }
    }
    Ok(())
}

/// Wants what the fall rests on next, where its reason is a postcondition.
fn want_next<A: Allocator + Copy>(
    wanted: &mut Wanted<A>,
    places: &Places<A>,
    edges: &[Edge],
    fall: &Fall,
) -> Result<(), AllocError>
    requires grouped { IsNonDecreasingBy (λ edge. edge.waiter) edges.now }
    ensures { OnOk result ((n : ℕ) → contains nat_cmp wanted.new n ≡ (contains nat_cmp wanted.old n || feeds_from (get nat_eq places.now) (filter (λ edge. edge.waiter == fall.now.node) edges.now) fall.now.reason n)) }
{
    match fall.reason {
        Reason::NotAble => Ok(()),
        Reason::Unmet(post) => want_providers(wanted, places, edges_into(edges, fall.node), post),
    }
}

/// Takes the falls at the wanted places into the part, the last first, and what they rest on. All these places are below the
/// count.
fn walk<A: Allocator + Copy>(
    part: &mut Vec<Fall, A>,
    wanted: &mut Wanted<A>,
    places: &Places<A>,
    edges: &[Edge],
    falls: &[Fall],
    count: usize,
) -> Result<(), AllocError>
    requires parts { AreParts edges.now falls.now (get nat_eq places.now) }
    requires low { count ≤ length falls.now }
    requires below { All (λ place. place < count) wanted.old.keys }
    ensures { OnOk result ((node : ℕ) → Walking edges.now falls.now node count wanted.old.keys (reversed part.old.items) → Picks (IsRested edges.now falls.now node) falls.now (reversed part.new.items)) }
{
    let mut left = count;
    while let Some(place) = wanted.pop_last() {
        left = place;
        want_next(wanted, places, edges, &falls[left])?;
        part.push(falls[left])?;
    }
    Ok(())
}

/// The part on which the node of the fall at that place rests.
fn part_at<A: Allocator + Copy>(
    alloc: A,
    places: &Places<A>,
    edges: &[Edge],
    falls: &[Fall],
    place: usize,
) -> Result<Vec<Fall, A>, AllocError>
    requires parts { AreParts edges.now falls.now (get nat_eq places.now) }
    requires low { place < length falls.now }
    ensures { IfOk result (λ part. IsPartFor edges.now falls.now (node_at falls.now place) part.items) }
{
    let mut part = Vec::new(alloc);
    let mut wanted = BTreeSet::new(alloc);
    wanted.insert(place)?;
    walk(&mut part, &mut wanted, places, edges, falls, place + 1)?;
    part.reverse();
    Ok(part)
}

/// The part on which the node rests. Empty where the list does not have the node.
fn part_of<A: Allocator + Copy>(
    alloc: A,
    places: &Places<A>,
    edges: &[Edge],
    falls: &[Fall],
    node: usize,
) -> Result<Vec<Fall, A>, AllocError>
    requires { AreParts edges.now falls.now (get nat_eq places.now) }
    ensures { IfOk result (λ part. IsPartFor edges.now falls.now node part.items) }
{
    match places.get(&node) {
        Some(place) => part_at(alloc, places, edges, falls, *place),
        None => Ok(Vec::new(alloc)),
    }
}

/// A falling list, of which the part can be asked for on which a node rests: the falls that tell why that node falls, in the
/// order of the list. A part can be read and checked without the others, since it is falling itself, and ends with the fall of
/// the node.
///
/// The places of the falls are noted once, so that each part takes the time of its own falls alone.
#[derive(Drop)]
pub struct Parts<'l, A: Allocator> {
    edges: &'l [Edge],
    falls: &'l [Fall],
    places: Places<A>,
    alloc: A,
}

impl<'l, A: Allocator> Model for Parts<'l, A> {
    ghost use Rattle.cq_match.specs.Resting.{RestingRecord};

    ghost Value = { RestingRecord };

    ghost use Rattle.std.specs.Prelude.{nat_eq};
    ghost use Rattle.std.specs.HashMap.{get};
    ghost use Rattle.cq_match.specs.Steps.Resting.{AreParts};

    ghost view = { λ p. record { edges = p.edges.now; falls = p.falls.now } };

    ghost invariant = { λ p. AreParts p.edges.now p.falls.now (get nat_eq p.places) };
}

impl<'l, A: Allocator + Copy> Parts<'l, A> {
    /// The parts of a list that is falling, and has each node once, as what [`falling`](crate::falling) answers. `edges` are
    /// those of its graph, sorted by their waiters.
    ///
    /// # Errors
    /// `AllocError` where an allocation failed.
    pub fn begin(alloc: A, edges: &'l [Edge], falls: &'l [Fall]) -> Result<Parts<'l, A>, AllocError>
        requires grouped { IsNonDecreasingBy (λ edge. edge.waiter) edges.now }
        requires falling { (nodes : List (ℕ × ℕ × Bool)) × IsFalling nodes edges.now falls.now }
        requires once { IsDistinct nat_eq (fallen falls.now) }
        ensures edges { IfOk result (λ parts. parts.edges ≡ edges.now) }
        ensures falls { IfOk result (λ parts. parts.falls ≡ falls.now) }
    {
        let places = places_of(alloc, falls)?;
        Ok(Parts {
            edges,
            falls,
            places,
            alloc,
        })
    }

    /// The part on which the node rests. Empty where the list does not have the node.
    ///
    /// The list is walked back from one fall of the part to the next. For each of them the edges to its waiter are looked at,
    /// which are found by halving. No clause says so.
    ///
    /// # Errors
    /// `AllocError` where an allocation failed.
    pub fn part(&self, node: usize) -> Result<Vec<Fall, A>, AllocError>
        ensures part { IfOk result (λ part. IsPartFor self.now.edges self.now.falls node part.items) }
        ensures falling { IfOk result (λ part. (nodes : List (ℕ × ℕ × Bool)) → IsFalling nodes self.now.edges self.now.falls → IsFalling nodes self.now.edges part.items) }
        ensures last { IfOk result (λ part. Contains (fallen self.now.falls) node → EndsWith part.items node) }
        ensures absent { IfOk result (λ part. is_member nat_eq (fallen self.now.falls) node ≡ false → part.items ≡ []) }
    {
        part_of(self.alloc, &self.places, self.edges, self.falls, node)
    }
}

/// The part of a falling list on which a node rests, as [`Parts`] tells it. Who asks for several parts makes those once.
///
/// # Errors
/// `AllocError` where an allocation failed.
pub fn part_for<A: Allocator + Copy>(
    alloc: A,
    edges: &[Edge],
    falls: &[Fall],
    node: usize,
) -> Result<Vec<Fall, A>, AllocError>
    requires grouped { IsNonDecreasingBy (λ edge. edge.waiter) edges.now }
    requires falling { (nodes : List (ℕ × ℕ × Bool)) × IsFalling nodes edges.now falls.now }
    requires once { IsDistinct nat_eq (fallen falls.now) }
    ensures part { IfOk result (λ part. IsPartFor edges.now falls.now node part.items) }
    ensures falling { IfOk result (λ part. (nodes : List (ℕ × ℕ × Bool)) → IsFalling nodes edges.now falls.now → IsFalling nodes edges.now part.items) }
    ensures last { IfOk result (λ part. Contains (fallen falls.now) node → EndsWith part.items node) }
    ensures absent { IfOk result (λ part. is_member nat_eq (fallen falls.now) node ≡ false → part.items ≡ []) }
{
    let parts = Parts::begin(alloc, edges, falls)?;
    parts.part(node)
}
