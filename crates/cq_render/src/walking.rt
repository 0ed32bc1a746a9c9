//! The walk over a board by which all texts of it are made: its pending queries in posting order, each with what the board shows
//! of it, and the edges to each of their postconditions.

ghost use Rattle.std.specs.Prelude.{◌≡◌, ◌==◌, filter, map, IfOk, Some};
ghost use Rattle.std.specs.List.{slice_get};
ghost use Rattle.std.specs.List.Sorted.{IsNonDecreasingBy};
ghost use Rattle.cq_match.specs.Graph.{edges_to};
ghost use Rattle.cq_board.specs.Pool.{PendingQuery, name_of};
ghost use Rattle.cq_board.specs.Edges.{edges_of};
ghost use Rattle.cq_board.specs.Board.{name_at, name_or_none};
ghost use Rattle.cq_render.specs.Steps.Walking.{all_shown, shown_of, shown_read};

use cq_atom::{Edge, Name, Query};
use cq_board::Board;
use cq_ground::Groundings;
use cq_match::edges_into;
use std::alloc::{AllocError, Allocator};

/// A pending query, with what the board shows of it.
#[derive(Drop)]
pub(crate) struct Shown<'b, A: Allocator> {
    /// Its number in posting order, from 0.
    pub(crate) number: usize,
    pub(crate) name: &'b Name<A>,
    pub(crate) matched: bool,
    pub(crate) query: &'b Query<A>,
    pub(crate) groundings: &'b Groundings<A>,
}

/// A board, its pending queries in posting order, and all edges.
#[derive(Drop)]
pub(crate) struct Listing<'b, A: Allocator> {
    pub(crate) board: &'b Board<A>,
    pub(crate) queries: Vec<Shown<'b, A>, A>,
    pub(crate) edges: Vec<Edge, A>,
    ghost walked: { map shown_read queries.items ≡ all_shown board.now },
    ghost listed: { edges.items ≡ edges_of board.now.pending },
}

/// What the board shows of the query of that number and name.
fn look_at<'b, A: Allocator + Copy>(
    board: &'b Board<A>,
    number: usize,
    name: &'b Name<A>,
) -> Shown<'b, A>
    requires { name_at board.now.pending number ≡ Some name.now }
    ensures { (posted : PendingQuery) → slice_get board.now.pending number ≡ Some posted → shown_read result ≡ shown_of board.now (number, posted) }
{
    let _good = board.len();
    // A query is pending under each name that is listed.
    let Some(view) = board.view(name) else {
        unreachable!()
    };
    Shown {
        number,
        name,
        matched: view.matched,
        query: view.query,
        groundings: view.groundings,
    }
}

/// What the board shows of each of its queries, which have these names in posting order.
pub(crate) fn look_at_each<'b, A: Allocator + Copy>(
    alloc: A,
    board: &'b Board<A>,
    names: &[&'b Name<A>],
) -> Result<Vec<Shown<'b, A>, A>, AllocError>
    requires { map (λ name. name.now) names.now ≡ map name_of board.now.pending }
    ensures { IfOk result (λ queries. map shown_read queries.items ≡ all_shown board.now) }
{
    let mut queries = Vec::with_capacity(alloc, names.len())?;
    for number in 0..names.len() {
        queries.push(look_at(board, number, names[number]))?;
    }
    Ok(queries)
}

/// Goes over a board: looks at each of its queries once, and lists its edges.
///
/// # Errors
/// `AllocError` where an allocation failed.
pub(crate) fn walk<'b, A: Allocator + Copy>(
    alloc: A,
    board: &'b Board<A>,
) -> Result<Listing<'b, A>, AllocError>
    ensures { IfOk result (λ listing. listing.board.now ≡ board.now) }
{
    let names = board.names()?;
    let queries = look_at_each(alloc, board, &names)?;
    let edges = board.edges_by_place()?;
    Ok(Listing {
        board,
        queries,
        edges,
    })
}

/// The name of the query of that number, or nothing where there is none.
pub(crate) fn name_or_none<'b, A: Allocator>(listing: &Listing<'b, A>, number: usize) -> &'b str
    ensures { result.now ≡ name_or_none (name_at listing.now.board.now.pending number) }
{
    match listing.queries.get(number) {
        Some(shown) => shown.name.as_str(),
        None => "",
    }
}

/// Those of the edges that lead to a postcondition at that place, which stand side by side.
fn edges_at(edges: &[Edge], post: usize) -> &[Edge]
    requires { IsNonDecreasingBy (λ edge. edge.post) edges.now }
    ensures { result.now ≡ filter (λ edge. edge.post == post) edges.now }
{
    let below = edges.partition_point(|edge| usize::from(edge.post) < post);
    let (_, rest) = edges.split_at(below);
    let count = rest.partition_point(|edge| usize::from(edge.post) <= post);
    let (at, _) = rest.split_at(count);
    at
}

/// The edges to a postcondition of the query of that number, in the order of their providers.
pub(crate) fn providers<'l, A: Allocator>(
    listing: &'l Listing<'_, A>,
    waiter: usize,
    post: usize,
) -> &'l [Edge]
    ensures { result.now ≡ edges_to waiter post (edges_of listing.now.board.now.pending) }
{
    edges_at(edges_into(&listing.edges, waiter), post)
}
