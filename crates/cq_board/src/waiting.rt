//! Which queries wait, and why.

ghost use Rattle.std.specs.Prelude.{◌≡◌, ◌↔◌, ◌<◌, ℕ, List, length, map, Some, nat_eq, IfOk};
ghost use Rattle.std.specs.List.{All, Contains, IsDistinct, enumerate_from, position};
ghost use Rattle.std.specs.Option.{is_some, IfSome};
ghost use Rattle.std.specs.Str.{bytes_eq};
ghost use Rattle.cq_atom.specs.Atom.{RowRecord};
ghost use Rattle.cq_match.specs.Falling.{fallen, IsFalling, IsUnmatched, AreAllRounds};
ghost use Rattle.cq_board.specs.Pool.{PendingQuery, PoolRecord, name_of};
ghost use Rattle.cq_board.specs.Edges.{edges_of};
ghost use Rattle.cq_board.specs.Board.{nodes_of, place_of};
ghost use Rattle.cq_board.specs.Waiting.{is_waiting, wait_named, wait_read, IsReasonPart, IsReason};
ghost use Rattle.cq_board.specs.Steps.Stores.{pending_of, AreStores};
ghost use Rattle.cq_board.specs.Steps.Waiting.{node_in};

use crate::board::Board;
use crate::stores::has_grounding;
use crate::views::name_of;
use cq_atom::Name;
use cq_grounded::GroundedQueries;
use cq_match::{Fall, Reason, falling, part_for};
use cq_roster::Seat;
use std::alloc::{AllocError, Allocator};

/// A query that waits, over what holds its name.
#[derive(Clone, Copy, Drop)]
pub struct Waiter<N> {
    /// The name of the query.
    pub name: N,
    /// Why it waits.
    pub reason: Reason,
}

/// The node of the query at the place, under that number.
fn node_in<A: Allocator + Copy>(
    grounded: &GroundedQueries<A>,
    number: usize,
    place: usize,
) -> (usize, u8, bool)
    ensures { result ≡ node_in grounded.now number place }
{
    let posts = match grounded.query(place) {
        Some(query) => query.posts().len() as u8,
        None => 0,
    };
    (number, posts, has_grounding(grounded, place))
}

/// The nodes of the queries at the places of the seats, by their numbers.
fn nodes_in<A: Allocator + Copy>(
    alloc: A,
    grounded: &GroundedQueries<A>,
    seats: &[&Seat<Name<A>>],
) -> Result<Vec<(usize, u8, bool), A>, AllocError>
    ensures { IfOk result (λ nodes. nodes.items ≡ map (λ s. node_in grounded.now s.0 s.1) (enumerate_from 0 (map (λ s. s.now.place) seats.now))) }
{
    let mut nodes = Vec::new(alloc);
    for seat in seats {
        nodes.push(node_in(grounded, nodes.len(), seat.place))?;
    }
    Ok(nodes)
}

/// The number of the first of these names that is that one.
fn place_among<A: Allocator>(names: &[&Name<A>], wanted: &Name<A>) -> Option<usize>
    ensures { result ≡ position (λ name. bytes_eq wanted.now name.now) names.now }
{
    names
        .iter()
        .position(|name| wanted.as_str() == name.as_str())
}

/// The falls by the names of their queries.
fn named<'a, A: Allocator>(
    alloc: A,
    names: &[&'a Name<A>],
    falls: &[Fall],
) -> Result<Vec<Waiter<&'a Name<A>>, A>, AllocError>
    requires { All (λ fall. fall.node < length names.now) falls.now }
    ensures { (pending : List PendingQuery) → map (λ name. name.now) names.now ≡ map name_of pending → IfOk result (λ waits. map (wait_read (λ name. name.now)) waits.items ≡ map (wait_named pending) falls.now) }
{
    let mut waits = Vec::new(alloc);
    for fall in falls {
        waits.push(Waiter {
            name: name_of(names, fall.node),
            reason: fall.reason,
        })?;
    }
    Ok(waits)
}

impl<A: Allocator + Copy> Board<A> {
    /// The nodes of the graph of pending queries, by their numbers in posting order.
    fn nodes_by_place(&self) -> Result<Vec<(usize, u8, bool), A>, AllocError>
        ensures { IfOk result (λ nodes. nodes.items ≡ nodes_of self.now) }
    {
        let stores = self.stores();
        let seats = stores.roster.in_order()?;
        nodes_in(self.allocator(), &stores.grounded, &seats)
    }

    /// The queries that are not matched, by their numbers in posting order, each with the reason why it falls, as
    /// [`falling`](cq_match::falling) tells it of the graph whose edges are those of
    /// [`edges_by_place`](Board::edges_by_place): a query that is not able has no grounding. It is made when it is asked for: its
    /// time is that of sorting queries and edges.
    ///
    /// # Errors
    /// `AllocError` where an allocation failed.
    pub fn falls(&self) -> Result<Vec<Fall, A>, AllocError>
        ensures falls { IfOk result (λ falls. IsFalling (nodes_of self.now) (edges_of self.now.pending) falls.items) }
        ensures unmatched { IfOk result (λ falls. (n : ℕ) → Contains (fallen falls.items) n ↔ IsUnmatched (nodes_of self.now) (edges_of self.now.pending) n) }
        ensures once { IfOk result (λ falls. IsDistinct nat_eq (fallen falls.items)) }
        ensures rounds { IfOk result (λ falls. AreAllRounds (nodes_of self.now) (edges_of self.now.pending) falls.items) }
    {
        let nodes = self.nodes_by_place()?;
        let edges = self.edges_by_place()?;
        falling(self.allocator(), &nodes, &edges)
    }

    /// Whether a query of that name is pending and not matched.
    fn is_waiting(&self, name: &Name<A>) -> bool
        ensures { result ≡ is_waiting name.now self.now }
    {
        match self.is_matched(name) {
            Some(matched) => !matched,
            None => false,
        }
    }

    /// The number of the pending query of that name, in posting order.
    fn number_of(&self, name: &Name<A>) -> Result<Option<usize>, AllocError>
        ensures { IfOk result (λ number. number ≡ place_of name.now self.now.pending) }
    {
        let names = self.names()?;
        Ok(place_among(&names, name))
    }

    /// The part of the falls on which the query of that number rests.
    fn part_at(&self, number: usize) -> Result<Vec<Fall, A>, AllocError>
        ensures low { IfOk result (λ part. All (λ fall. fall.node < length self.now.pending) part.items) }
        ensures part { IfOk result (λ part. IsUnmatched (nodes_of self.now) (edges_of self.now.pending) number → IsReasonPart self.now number part.items) }
    {
        let falls = self.falls()?;
        let edges = self.edges_by_place()?;
        part_for(self.allocator(), &edges, &falls, number)
    }

    /// The same by the names of the queries.
    fn waits_of(&self, number: usize) -> Result<Vec<Waiter<&Name<A>>, A>, AllocError>
        ensures { IfOk result (λ waits. IsUnmatched (nodes_of self.now) (edges_of self.now.pending) number → IsReason self.now number (map (wait_read (λ name. name.now)) waits.items)) }
    {
        let names = self.names()?;
        let part = self.part_at(number)?;
        named(self.allocator(), &names, &part)
    }

    /// Why the pending query of that name waits: of the queries of [`falls`](Board::falls) those on which it rests, by their
    /// names, in the order of that list, so that it comes last itself. `None` where no query of that name is pending, or it is
    /// matched. It is made when it is asked for: its time is that of `falls`.
    ///
    /// # Errors
    /// `AllocError` where an allocation failed.
    pub fn why_waiting(
        &self,
        name: &Name<A>,
    ) -> Result<Option<Vec<Waiter<&Name<A>>, A>>, AllocError>
        ensures none { IfOk result (λ told. is_some told ≡ is_waiting name.now self.now) }
        ensures reason { IfOk result (λ told. (number : ℕ) → place_of name.now self.now.pending ≡ Some number → IfSome told (λ waits. IsReason self.now number (map (wait_read (λ name. name.now)) waits.items))) }
    {
        if !self.is_waiting(name) {
            return Ok(None);
        }
        let Some(number) = self.number_of(name)? else {
            return Ok(None);
        };
        Ok(Some(self.waits_of(number)?))
    }
}
