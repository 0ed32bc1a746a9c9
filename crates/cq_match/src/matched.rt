//! The matched nodes of a graph.

ghost use Rattle.std.specs.Prelude.{◌≡◌, ◌++◌, ℕ, ◌<◌, ◌↔◌, length, replicate, IfOk, OnOk, IsTrue, nat_eq, vec_len};
ghost use Rattle.std.specs.List.{All, Any, Contains, IsDistinct};
ghost use Rattle.std.specs.List.Sorted.{IsNonDecreasingBy, IsPermutation, IsStrictlySortedBy};
ghost use Rattle.std.specs.Ordering.{nat_cmp};
ghost use Rattle.std.specs.Set.{is_member};
ghost use Rattle.cq_match.specs.Matched.{is_matched, numbers};
ghost use Rattle.cq_match.specs.Steps.Places.{number_at, slots_of_node, IsRanked, AreSlots, IsOfferOf, AreOffersOf};
ghost use Rattle.cq_match.specs.Steps.Settle.{stands};

use crate::settle::{Offer, settled};
use cq_atom::Edge;
use std::alloc::{AllocError, Allocator};

/// The nodes in rising order of their numbers.
pub(crate) fn ranked<A: Allocator>(
    alloc: A,
    nodes: &[(usize, u8, bool)],
) -> Result<Vec<(usize, u8, bool), A>, AllocError>
    requires { IsDistinct nat_eq (numbers nodes.now) }
    ensures permutation { IfOk result (λ ranked. IsPermutation nodes.now ranked.items) }
    ensures rising { IfOk result (λ ranked. IsRanked ranked.items) }
{
    let mut ranked = Vec::from_slice(alloc, nodes)?;
    ranked.sort_unstable_by_key(|node| node.0);
    Ok(ranked)
}

/// The place of the node with that number.
fn place_of(ranked: &[(usize, u8, bool)], number: usize) -> usize
    requires rising { IsRanked ranked.now }
    requires known { Contains (numbers ranked.now) number }
    ensures low { result < length ranked.now }
    ensures found { number_at ranked.now result ≡ number }
{
    match ranked.binary_search_by_key(&number, |node| node.0) {
        Ok(place) => place,
        Err(_) => unreachable!(),
    }
}

/// The slots of all nodes in a row: one for each postcondition, and one more, which nothing feeds, for a node
/// that is not able.
#[derive(Drop)]
pub(crate) struct Slots<A: Allocator> {
    /// For each place, its first slot.
    pub(crate) starts: Vec<usize, A>,
    /// For each slot, its place.
    pub(crate) owners: Vec<usize, A>,
}

/// Puts that many slots of the place to the end.
fn add_slots<A: Allocator>(
    owners: &mut Vec<usize, A>,
    place: usize,
    count: usize,
) -> Result<(), AllocError>
    ensures { OnOk result (owners.new.items ≡ owners.old.items ++ replicate count place) }
{
    for _ in 0..count {
        owners.push(place)?;
    }
    Ok(())
}

/// How many slots a node has.
fn slots_of_node(node: (usize, u8, bool)) -> usize
    ensures { result ≡ slots_of_node node }
{
    usize::from(node.1) + if node.2 { 0 } else { 1 }
}

/// All slots, place by place.
pub(crate) fn slots_of<A: Allocator + Copy>(
    alloc: A,
    ranked: &[(usize, u8, bool)],
) -> Result<Slots<A>, AllocError>
    ensures { IfOk result (λ slots. AreSlots ranked.now slots.starts.items slots.owners.items) }
{
    let mut starts = Vec::new(alloc);
    let mut owners = Vec::new(alloc);
    for (place, node) in ranked.iter().enumerate() {
        starts.push(owners.len())?;
        add_slots(&mut owners, place, slots_of_node(*node))?;
    }
    Ok(Slots { starts, owners })
}

/// The edge as an offer.
fn offer_of<A: Allocator>(ranked: &[(usize, u8, bool)], slots: &Slots<A>, edge: Edge) -> Offer
    requires rising { IsRanked ranked.now }
    requires slots { AreSlots ranked.now slots.now.starts.items slots.now.owners.items }
    requires provider { Contains (numbers ranked.now) edge.provider }
    requires waiter { Any (λ node. (node.0 ≡ edge.waiter) × (edge.post < node.1)) ranked.now }
    ensures { IsOfferOf ranked.now slots.now.starts.items edge result }
{
    let waiter = place_of(ranked, edge.waiter);
    Offer {
        provider: place_of(ranked, edge.provider),
        slot: slots.starts[waiter] + usize::from(edge.post),
    }
}

/// The edges as offers, by their providers.
pub(crate) fn offers_of<A: Allocator + Copy>(
    alloc: A,
    ranked: &[(usize, u8, bool)],
    slots: &Slots<A>,
    edges: &[Edge],
) -> Result<Vec<Offer, A>, AllocError>
    requires rising { IsRanked ranked.now }
    requires slots { AreSlots ranked.now slots.now.starts.items slots.now.owners.items }
    requires ends { All (λ edge. Contains (numbers ranked.now) edge.provider × Any (λ node. (node.0 ≡ edge.waiter) × (edge.post < node.1)) ranked.now) edges.now }
    ensures offers { IfOk result (λ offers. AreOffersOf ranked.now slots.now.starts.items (length slots.now.owners.items) edges.now offers.items) }
    ensures grouped { IfOk result (λ offers. IsNonDecreasingBy (λ offer. offer.provider) offers.items) }
{
    let mut offers = Vec::new(alloc);
    for edge in edges {
        offers.push(offer_of(ranked, slots, *edge))?;
    }
    offers.sort_unstable_by_key(|offer| offer.provider);
    Ok(offers)
}

/// The numbers of the nodes that stand.
fn standing_numbers<A: Allocator>(
    alloc: A,
    ranked: &[(usize, u8, bool)],
    standing: &[bool],
) -> Result<Vec<usize, A>, AllocError>
    requires rising { IsRanked ranked.now }
    requires same_len { length standing.now ≡ length ranked.now }
    ensures found { IfOk result (λ found. (place : ℕ) → place < length ranked.now → is_member nat_eq found.items (number_at ranked.now place) ≡ stands standing.now place) }
    ensures known { IfOk result (λ found. All (Contains (numbers ranked.now)) found.items) }
    ensures rising { IfOk result (λ found. IsStrictlySortedBy nat_cmp found.items) }
{
    let mut found = Vec::new(alloc);
    for place in 0..ranked.len() {
        if standing[place] {
            found.push(ranked[place].0)?;
        }
    }
    Ok(found)
}

/// The matched nodes, rising.
///
/// A set of nodes is closed if each of its members is able and each postcondition of each of its members has an
/// edge from a member. The matched nodes are all those that stand in some closed set: an edge from a node to
/// itself counts, and so does a ring. That queries are matched before they are answered is of Gupta et al. (SIGMOD
/// 2011); this rule for it is this project's.
///
/// `nodes` gives each node's number, how many postconditions it has, and whether it is able, in any order.
///
/// Each edge is looked at once; besides that, nodes and edges are sorted and nodes looked up by halving.
/// No clause says so.
///
/// # Errors
/// `AllocError` where an allocation failed.
pub fn greatest<A: Allocator + Copy>(
    alloc: A,
    nodes: &[(usize, u8, bool)],
    edges: &[Edge],
) -> Result<Vec<usize, A>, AllocError>
    requires distinct { IsDistinct nat_eq (numbers nodes.now) }
    requires ends { All (λ edge. Contains (numbers nodes.now) edge.provider × Any (λ node. (node.0 ≡ edge.waiter) × (edge.post < node.1)) nodes.now) edges.now }
    ensures matched { IfOk result (λ found. (n : ℕ) → Contains found.items n ↔ IsTrue (is_matched nodes.now edges.now n)) }
    ensures rising { IfOk result (λ found. IsStrictlySortedBy nat_cmp found.items) }
{
    let ranked = ranked(alloc, nodes)?;
    let slots = slots_of(alloc, &ranked)?;
    let offers = offers_of(alloc, &ranked, &slots, edges)?;
    let standing = settled(alloc, ranked.len(), &slots.owners, &offers)?;
    standing_numbers(alloc, &ranked, &standing)
}
