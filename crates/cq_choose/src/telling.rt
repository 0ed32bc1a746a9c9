//! What is told of queries that agree with none.

ghost use Rattle.std.specs.Prelude.{◌≡◌, map, option_map};
ghost use Rattle.cq_atom.specs.Valuation.{under};
ghost use Rattle.cq_board.specs.Choice.{bound};
ghost use Rattle.cq_choose.specs.Steps.Stocks.{stock_of};
ghost use Rattle.cq_choose.specs.Steps.Telling.{lack_of, is_known, lacking, agrees, first_lack, told_of, told_at, told_from};

use crate::keys::{Good, Instance, Key};
use crate::reach::is_spare;
use crate::stock::Stock;
use cq_atom::{Atom, Name, Query, Value};
use cq_board::Board;
use cq_ground::Groundings;
use std::alloc::Allocator;

/// A query of which no grounding has everything offered that it awaits, and what its first grounding lacks.
#[derive(Drop)]
pub struct Disagreement<'b, A: Allocator> {
    /// The query's name.
    pub name: &'b Name<A>,
    /// Its first grounding.
    pub values: &'b [Value<A>],
    /// The first postcondition that is not offered under it, counted from 0.
    pub post: usize,
}

/// Whether the atom is among the goods, under values for the variables of its query.
fn is_offered<A: Allocator>(
    stock: &Stock<'_, A>,
    query: &Query<A>,
    values: &[Value<A>],
    atom: &Atom<A>,
) -> bool
    ensures { result ≡ is_known (stock_of stock.now).goods (Good.Atom (under (bound query.now values.now) atom.now)) }
{
    stock.goods.contains(&Key::of(Good::Atom(Instance {
        query,
        values,
        atom,
    })))
}

/// The first postcondition of the query that nobody offers under the values.
fn lacking<A: Allocator>(
    stock: &Stock<'_, A>,
    query: &Query<A>,
    values: &[Value<A>],
) -> Option<usize>
    ensures { result ≡ lacking (stock_of stock.now).goods query.now values.now }
{
    for (post, atom) in query.posts().iter().enumerate() {
        if !is_offered(stock, query, values, atom) {
            return Some(post);
        }
    }
    None
}

/// Whether everything that the query awaits under one of the groundings is offered.
fn agrees<A: Allocator>(stock: &Stock<'_, A>, query: &Query<A>, groundings: &Groundings<A>) -> bool
    ensures { result ≡ agrees (stock_of stock.now).goods query.now groundings.now }
{
    for values in groundings.list() {
        if lacking(stock, query, values).is_none() {
            return true;
        }
    }
    false
}

/// What the first of the groundings lacks.
fn first_lack<'b, A: Allocator>(
    stock: &Stock<'_, A>,
    name: &'b Name<A>,
    query: &Query<A>,
    groundings: &'b Groundings<A>,
) -> Option<Disagreement<'b, A>>
    ensures { option_map lack_of result ≡ first_lack (stock_of stock.now).goods name.now query.now groundings.now }
{
    match groundings.list().next() {
        Some(values) => match lacking(stock, query, values) {
            Some(post) => Some(Disagreement { name, values, post }),
            None => None,
        },
        None => None,
    }
}

/// What is told of the query of that name.
fn told_of<'b, A: Allocator>(
    stock: &Stock<'_, A>,
    name: &'b Name<A>,
    query: &Query<A>,
    groundings: &'b Groundings<A>,
) -> Option<Disagreement<'b, A>>
    ensures { option_map lack_of result ≡ told_of (stock_of stock.now).goods name.now (Some query.now) (Some groundings.now) }
{
    if agrees(stock, query, groundings) {
        None
    } else {
        first_lack(stock, name, query, groundings)
    }
}

/// What is told of the query of that name, which has that place, if it is taken.
fn told_at<'b, A: Allocator + Copy>(
    board: &'b Board<A>,
    spare: &[bool],
    stock: &Stock<'_, A>,
    name: &'b Name<A>,
    place: usize,
) -> Option<Disagreement<'b, A>>
    ensures { option_map lack_of result ≡ told_at board.now spare.now (stock_of stock.now).goods place name.now }
{
    if is_spare(spare, place) {
        return None;
    }
    match board.view(name) {
        Some(view) => {
            if view.matched {
                told_of(stock, name, view.query, view.groundings)
            } else {
                None
            }
        }
        None => None,
    }
}

/// What is told first of the queries of these names, in their order.
pub(crate) fn told_first<'b, A: Allocator + Copy>(
    board: &'b Board<A>,
    spare: &[bool],
    stock: &Stock<'_, A>,
    names: &[&'b Name<A>],
) -> Option<Disagreement<'b, A>>
    ensures { option_map lack_of result ≡ told_from board.now spare.now (stock_of stock.now).goods 0 (map (λ name. name.now) names.now) }
{
    for (place, name) in names.iter().enumerate() {
        let told = told_at(board, spare, stock, name, place);
        if told.is_some() {
            return told;
        }
    }
    None
}
