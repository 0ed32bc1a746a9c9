//! What a board shows by names.

ghost use Rattle.std.specs.Prelude.{◌≡◌, ◌<◌, ◌++◌, List, length, map, filter, IfOk, OnOk};
ghost use Rattle.std.specs.Option.{option_copied, option_map};
ghost use Rattle.cq_match.specs.Graph.{leads_to};
ghost use Rattle.cq_match.specs.Matched.{is_matched};
ghost use Rattle.cq_board.specs.Pool.{PendingQuery, name_of};
ghost use Rattle.cq_board.specs.Edges.{edges_of};
ghost use Rattle.cq_board.specs.Board.{name_at, name_or_none, links_of, crowded_of, link_of};
ghost use Rattle.cq_board.specs.Named.{query_named, matched_named, groundings_named, matched_names, link_read, crowd_read};
ghost use Rattle.cq_board.specs.Steps.Runs.{run_length, crowd_at};

use crate::board::Board;
use crate::link::{Crowd, Link};
use crate::pending::PendingView;
use crate::showing::edges_by_place;
use cq_atom::{Edge, Name, Query};
use cq_ground::Groundings;
use cq_match::{Matcher, is_crowd};
use cq_roster::Seat;
use std::alloc::{AllocError, Allocator};

fn leads_to(waiter: usize, post: u8, edge: &Edge) -> bool
    ensures { result ≡ leads_to waiter post edge.now }
{
    edge.waiter == waiter && edge.post == post
}

/// How many edges from the front on lead to the same postcondition as the first.
fn run_length(first: &Edge, edges: &[Edge]) -> usize
    ensures { result ≡ run_length first.now edges.now }
{
    edges
        .iter()
        .take_while(|edge| leads_to(first.waiter, first.post, edge))
        .count()
}

/// The name at that number.
pub(crate) fn name_of<'a, A: Allocator>(names: &[&'a Name<A>], number: usize) -> &'a Name<A>
    requires { number < length names.now }
    ensures { (pending : List PendingQuery) → map (λ name. name.now) names.now ≡ map name_of pending → result.now ≡ name_or_none (name_at pending number) }
{
    names[number]
}

/// The edge by the names of its ends.
fn link<'a, A: Allocator>(names: &[&'a Name<A>], edge: &Edge) -> Link<&'a Name<A>>
    requires provider { edge.now.provider < length names.now }
    requires waiter { edge.now.waiter < length names.now }
    ensures { (pending : List PendingQuery) → map (λ name. name.now) names.now ≡ map name_of pending → link_read (λ name. name.now) result ≡ link_of pending edge.now }
{
    Link {
        provider: name_of(names, edge.provider),
        head: edge.head,
        waiter: name_of(names, edge.waiter),
        post: edge.post,
    }
}

/// Adds the postcondition to which the edge leads, where that many providers are a crowd.
fn add_crowd<'a, A: Allocator>(
    crowded: &mut Vec<Crowd<&'a Name<A>>, A>,
    names: &[&'a Name<A>],
    first: &Edge,
    providers: usize,
) -> Result<(), AllocError>
    requires { first.now.waiter < length names.now }
    ensures { (pending : List PendingQuery) → map (λ name. name.now) names.now ≡ map name_of pending → OnOk result (map (crowd_read (λ name. name.now)) crowded.new.items ≡ map (crowd_read (λ name. name.now)) crowded.old.items ++ crowd_at pending first.now providers) }
{
    if is_crowd(providers) {
        crowded.push(Crowd {
            waiter: name_of(names, first.waiter),
            post: first.post,
            providers,
        })?;
    }
    Ok(())
}

/// The names of the seats, in their order.
fn names_of<'a, A: Allocator>(
    alloc: A,
    seats: &[&'a Seat<Name<A>>],
) -> Result<Vec<&'a Name<A>, A>, AllocError>
    ensures { IfOk result (λ names. map (λ name. name.now) names.items ≡ map (λ s. s.now.name) seats.now) }
{
    let mut names = Vec::with_capacity(alloc, seats.len())?;
    for seat in seats {
        names.push(&seat.name)?;
    }
    Ok(names)
}

/// The names of the seats whose places are matched, in their order.
fn matched_of<'a, A: Allocator + Copy>(
    alloc: A,
    seats: &[&'a Seat<Name<A>>],
    matcher: &Matcher<A>,
) -> Result<Vec<&'a Name<A>, A>, AllocError>
    ensures { IfOk result (λ names. map (λ name. name.now) names.items ≡ map (λ s. s.now.name) (filter (λ s. is_matched matcher.now.nodes matcher.now.edges s.now.place) seats.now)) }
{
    let mut names = Vec::new(alloc);
    for seat in seats {
        if matcher.is_matched(seat.place) {
            names.push(&seat.name)?;
        }
    }
    Ok(names)
}

/// The edges by the names of their ends, in their order.
fn links<'a, A: Allocator>(
    alloc: A,
    names: &[&'a Name<A>],
    edges: &[Edge],
) -> Result<Vec<Link<&'a Name<A>>, A>, AllocError>
    requires { (pending : List PendingQuery) × (map (λ name. name.now) names.now ≡ map name_of pending) × (edges.now ≡ edges_of pending) }
    ensures { (pending : List PendingQuery) → map (λ name. name.now) names.now ≡ map name_of pending → edges.now ≡ edges_of pending → IfOk result (λ links. map (link_read (λ name. name.now)) links.items ≡ links_of pending) }
{
    let mut links = Vec::with_capacity(alloc, edges.len())?;
    for edge in edges {
        links.push(link(names, edge))?;
    }
    Ok(links)
}

/// The postconditions to which a crowd of the edges leads, in the order of the edges.
fn crowds<'a, A: Allocator>(
    alloc: A,
    names: &[&'a Name<A>],
    edges: &[Edge],
) -> Result<Vec<Crowd<&'a Name<A>>, A>, AllocError>
    requires { (pending : List PendingQuery) × (map (λ name. name.now) names.now ≡ map name_of pending) × (edges.now ≡ edges_of pending) }
    ensures { (pending : List PendingQuery) → map (λ name. name.now) names.now ≡ map name_of pending → edges.now ≡ edges_of pending → IfOk result (λ crowded. map (crowd_read (λ name. name.now)) crowded.items ≡ crowded_of pending) }
{
    let mut crowded = Vec::new(alloc);
    let mut rest = edges;
    while let Some(first) = rest.first() {
        let providers = run_length(first, rest);
        add_crowd(&mut crowded, names, first, providers)?;
        let (_, behind) = rest.split_at(providers);
        rest = behind;
    }
    Ok(crowded)
}

impl<A: Allocator + Copy> Board<A> {
    /// The pending query of that name.
    pub fn query(&self, name: &Name<A>) -> Option<&Query<A>>
        ensures { option_copied result ≡ query_named name.now self.now.pending }
    {
        let stores = self.stores();
        stores.grounded.query(stores.roster.place_of(name)?)
    }

    /// Whether the pending query of that name is matched. `None` where no query of that name is
    /// pending.
    pub fn is_matched(&self, name: &Name<A>) -> Option<bool>
        ensures { result ≡ matched_named name.now self.now }
    {
        let stores = self.stores();
        Some(stores.matcher.is_matched(stores.roster.place_of(name)?))
    }

    /// The groundings of the pending query of that name.
    pub fn groundings(&self, name: &Name<A>) -> Option<&Groundings<A>>
        ensures { option_copied result ≡ groundings_named name.now self.now }
    {
        let stores = self.stores();
        stores.grounded.groundings(stores.roster.place_of(name)?)
    }

    /// What the board has of the pending query of that name: what [`query`](Board::query), [`is_matched`](Board::is_matched)
    /// and [`groundings`](Board::groundings) tell, by one look at the name.
    pub fn view(&self, name: &Name<A>) -> Option<PendingView<'_, A>>
        ensures query { option_map (λ view. view.query.now) result ≡ query_named name.now self.now.pending }
        ensures matched { option_map (λ view. view.matched) result ≡ matched_named name.now self.now }
        ensures groundings { option_map (λ view. view.groundings.now) result ≡ groundings_named name.now self.now }
    {
        let stores = self.stores();
        let place = stores.roster.place_of(name)?;
        let matched = stores.matcher.is_matched(place);
        // A query stands at the place of each name.
        let (Some(query), Some(groundings)) = (
            stores.grounded.query(place),
            stores.grounded.groundings(place),
        ) else {
            unreachable!()
        };
        Some(PendingView {
            query,
            matched,
            groundings,
        })
    }

    /// The names of the pending queries, in posting order. A name that was withdrawn and posted again
    /// goes last.
    ///
    /// # Errors
    /// `AllocError` where an allocation failed.
    pub fn names(&self) -> Result<Vec<&Name<A>, A>, AllocError>
        ensures { IfOk result (λ names. map (λ name. name.now) names.items ≡ map name_of self.now.pending) }
    {
        let stores = self.stores();
        let seats = stores.roster.in_order()?;
        names_of(self.allocator(), &seats)
    }

    /// All edges by the numbers of the queries in posting order: by the waiter, the postcondition, the
    /// provider, the head. The list is made when it is asked for: its time is that of sorting it.
    ///
    /// # Errors
    /// `AllocError` where an allocation failed.
    pub fn edges_by_place(&self) -> Result<Vec<Edge, A>, AllocError>
        ensures { IfOk result (λ edges. edges.items ≡ edges_of self.now.pending) }
    {
        edges_by_place(self.allocator(), self.stores())
    }

    /// All edges by names: by the waiter's posting, the postcondition, the provider's posting, the
    /// head.
    ///
    /// # Errors
    /// `AllocError` where an allocation failed.
    pub fn edges(&self) -> Result<Vec<Link<&Name<A>>, A>, AllocError>
        ensures { IfOk result (λ links. map (link_read (λ name. name.now)) links.items ≡ links_of self.now.pending) }
    {
        let names = self.names()?;
        let edges = self.edges_by_place()?;
        links(self.allocator(), &names, &edges)
    }

    /// The postconditions with two providers or more: by the waiter's posting, and then by the
    /// postcondition. One pass over the edges.
    ///
    /// # Errors
    /// `AllocError` where an allocation failed.
    pub fn crowded(&self) -> Result<Vec<Crowd<&Name<A>>, A>, AllocError>
        ensures { IfOk result (λ crowded. map (crowd_read (λ name. name.now)) crowded.items ≡ crowded_of self.now.pending) }
    {
        let names = self.names()?;
        let edges = self.edges_by_place()?;
        crowds(self.allocator(), &names, &edges)
    }

    /// The names of the matched queries, in posting order.
    ///
    /// # Errors
    /// `AllocError` where an allocation failed.
    pub fn matched(&self) -> Result<Vec<&Name<A>, A>, AllocError>
        ensures { IfOk result (λ names. map (λ name. name.now) names.items ≡ matched_names self.now) }
    {
        let stores = self.stores();
        let seats = stores.roster.in_order()?;
        matched_of(self.allocator(), &seats, &stores.matcher)
    }

    /// Returns how many queries are matched. Does not allocate, and takes time in proportion to the
    /// pending queries.
    pub fn matched_count(&self) -> usize
        ensures { result ≡ length (matched_names self.now) }
    {
        let stores = self.stores();
        stores
            .roster
            .iter()
            .filter(|seat| stores.matcher.is_matched(seat.place))
            .count()
    }
}
