//! The graph as a board shows it: by the numbers of the queries in posting order.

ghost use Rattle.std.specs.Prelude.{◌≡◌, ◌++◌, List, map, filter, nat_eq, IfOk, OnOk};
ghost use Rattle.std.specs.List.{All, Contains, IsDistinct, flat_map};
ghost use Rattle.std.specs.List.Sorted.{IsPermutation, IsSorted};
ghost use Rattle.cq_atom.specs.Atom.{RowRecord};
ghost use Rattle.cq_match.specs.Matcher.{leaves};
ghost use Rattle.cq_board.specs.Edges.{edges_of};
ghost use Rattle.cq_board.specs.Steps.Residents.{renamed, edge_cmp};
ghost use Rattle.cq_board.specs.Steps.Stores.{pending_of, AreStores, number_of};

use crate::stores::Stores;
use cq_atom::{Edge, Name};
use cq_match::Matcher;
use cq_roster::Seat;
use indexmap::IndexSet;
use std::alloc::{AllocError, Allocator};
use std::hash::{BuildHasherDefault, FoldHasher};

/// Places, each with its number in posting order.
type Places<A> = IndexSet<usize, BuildHasherDefault<FoldHasher>, A>;

/// Puts the places of the seats after those that are there, in their order.
fn add_places<A: Allocator + Copy>(
    places: &mut Places<A>,
    seats: &[&Seat<Name<A>>],
) -> Result<(), AllocError>
    ensures { IsDistinct nat_eq (places.old.keys ++ map (λ s. s.now.place) seats.now) → OnOk result (places.new.keys ≡ places.old.keys ++ map (λ s. s.now.place) seats.now) }
{
    for seat in seats {
        places.insert(seat.place)?;
    }
    Ok(())
}

/// The places of the seats, in their order.
fn places_of<A: Allocator + Copy>(
    alloc: A,
    seats: &[&Seat<Name<A>>],
) -> Result<Places<A>, AllocError>
    ensures { IsDistinct nat_eq (map (λ s. s.now.place) seats.now) → IfOk result (λ places. places.keys ≡ map (λ s. s.now.place) seats.now) }
{
    let mut places = IndexSet::new(alloc);
    add_places(&mut places, seats)?;
    Ok(places)
}

/// The number of the place among the places, from 0; where it is not among them, how many there are.
fn number_in<A: Allocator>(places: &Places<A>, place: usize) -> usize
    ensures { result ≡ number_of places.now.keys place }
{
    match places.get_index_of(&place) {
        Some(number) => number,
        None => places.len(),
    }
}

/// Adds the edges in their order, each with the numbers of its ends.
fn add_numbered<A: Allocator + Copy>(
    edges: &mut Vec<Edge, A>,
    places: &Places<A>,
    more: &[Edge],
) -> Result<(), AllocError>
    ensures { OnOk result (edges.new.items ≡ edges.old.items ++ map (renamed (number_of places.now.keys)) more.now) }
{
    for edge in more {
        edges.push(Edge {
            provider: number_in(places, edge.provider),
            head: edge.head,
            waiter: number_in(places, edge.waiter),
            post: edge.post,
        })?;
    }
    Ok(())
}

/// Adds the edges that leave the node at the place, each with the numbers of its ends.
fn add_leaving<A: Allocator + Copy>(
    edges: &mut Vec<Edge, A>,
    places: &Places<A>,
    matcher: &Matcher<A>,
    place: usize,
) -> Result<(), AllocError>
    ensures { OnOk result (IsPermutation (edges.old.items ++ map (renamed (number_of places.now.keys)) (filter (leaves place) matcher.now.edges)) edges.new.items) }
{
    let leaving = matcher.waiters(place)?;
    add_numbered(edges, places, &leaving)
}

/// Adds the edges that leave the nodes at the places, each with the numbers of its ends.
fn add_all<A: Allocator + Copy>(
    edges: &mut Vec<Edge, A>,
    places: &Places<A>,
    matcher: &Matcher<A>,
) -> Result<(), AllocError>
    ensures { OnOk result (IsPermutation (edges.old.items ++ flat_map (λ place. map (renamed (number_of places.now.keys)) (filter (leaves place) matcher.now.edges)) places.now.keys) edges.new.items) }
{
    for place in places.as_slice() {
        add_leaving(edges, places, matcher, *place)?;
    }
    Ok(())
}

/// All edges by the numbers of their ends, in no order.
fn numbered_edges<A: Allocator + Copy>(
    alloc: A,
    places: &Places<A>,
    matcher: &Matcher<A>,
) -> Result<Vec<Edge, A>, AllocError>
    ensures { All (λ edge. Contains places.now.keys edge.provider) matcher.now.edges → IsDistinct nat_eq places.now.keys → IfOk result (λ edges. IsPermutation (map (renamed (number_of places.now.keys)) matcher.now.edges) edges.items) }
{
    let mut edges = Vec::new(alloc);
    add_all(&mut edges, places, matcher)?;
    Ok(edges)
}

/// Sorts the edges by the waiter, the postcondition, the provider, the head.
fn sort_edges<A: Allocator>(edges: &mut Vec<Edge, A>)
    ensures permutation { IsPermutation edges.old.items edges.new.items }
    ensures sorted { IsSorted edge_cmp edges.new.items }
{
    edges.sort_unstable_by_key(|edge| (edge.waiter, edge.post, edge.provider, edge.head));
}

/// All edges by the numbers of the queries in posting order: by the waiter, the postcondition, the provider, the head.
pub(crate) fn edges_by_place<A: Allocator + Copy>(
    alloc: A,
    stores: &Stores<A>,
) -> Result<Vec<Edge, A>, AllocError>
    ensures { (rows : List RowRecord) → AreStores stores.now rows → IfOk result (λ edges. edges.items ≡ edges_of (pending_of stores.now)) }
{
    let seats = stores.roster.in_order()?;
    let places = places_of(alloc, &seats)?;
    let mut edges = numbered_edges(alloc, &places, &stores.matcher)?;
    sort_edges(&mut edges);
    Ok(edges)
}
